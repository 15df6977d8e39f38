// The machine while a step is made.

// The parts that a call was lent, and the numbers that go along with them.
#[derive(Drop)]
pub struct Machine<'a> {
    pub image: &'a mut [u8],
    // one byte for each of the image's, 1 where it was read; or none
    pub map: &'a mut [u8],
    pub pad: &'a mut [u8; 256],
    pub vram: &'a mut [u8; 16384],
    pub regs: &'a mut [u8; 8],
    pub journal: &'a mut [u32],
    // of a ring the place of the step's first word: a plain journal has none
    pub first: Option<usize>,
    // the journal's book before the step: how many words are older, and the place of the oldest
    pub older: usize,
    pub place: usize,
    // how many of the journal's words are used: of a ring, of this step
    pub used: usize,
    pub pc: u16,
    // which groups of the image may be written
    pub groups: u8,
}
