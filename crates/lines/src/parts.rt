// The parts that a line can name.
ghost use Rattle.std.specs.Prelude.{◌≡◌};
ghost use Rattle.lines.specs.Lines;
ghost use Rattle.lines.specs.Meaning.{part_of};

#[derive(Clone, Copy, PartialEq, Eq, Debug)]
pub enum Part {
    Grom,
    Pad,
    Vdp,
    Reg,
}

impl Part {
    // Its keyword and a tab.
    pub fn opening(self) -> &'static [u8]
        ensures { result.now ≡ Lines.opening (part_of self) }
    {
        match self {
            Part::Grom => b"grom\t",
            Part::Pad => b"pad\t",
            Part::Vdp => b"vdp\t",
            Part::Reg => b"reg\t",
        }
    }

    // How many digits an address has.
    pub fn places(self) -> usize
        ensures { result ≡ Lines.places (part_of self) }
    {
        match self {
            Part::Grom | Part::Vdp => 4,
            Part::Pad | Part::Reg => 2,
        }
    }

    // How many bytes it has.
    pub fn size(self) -> usize
        ensures { result ≡ Lines.size (part_of self) }
    {
        match self {
            Part::Grom => 32768,
            Part::Pad => 256,
            Part::Vdp => 16384,
            Part::Reg => 8,
        }
    }
}
