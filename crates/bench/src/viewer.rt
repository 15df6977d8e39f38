// The viewer: a part of one of the two lent slices, the caller's own bytes.
ghost use Rattle.std.specs.Prelude.{◌≡◌, ◌≤◌, length};
ghost use Rattle.rules.specs.Calls;
ghost use Rattle.bench.specs.Meaning.{memory_of, part};

use machine::cells;

#[derive(Clone, Copy)]
pub enum Memory {
    Cpu,
    Vdp,
}

// A part of a memory of which `reach` bytes may be seen.
fn part_of<'a>(s: &'a [u8], reach: usize, at: usize, len: usize) -> &'a [u8]
    requires { reach ≤ length s.now }
    ensures { result.now ≡ part reach s.now at len }
{
    if reach < at {
        return &s[..0];
    }
    if reach - at < len {
        return &s[..0];
    }
    let end = at + len;
    &s[at..end]
}

pub fn view<'a>(pad: &'a [u8], vram: &'a [u8], which: Memory, at: usize, len: usize) -> &'a [u8]
    ensures { result.now ≡ Calls.view (memory_of which) pad.now vram.now at len }
{
    if pad.len() != cells::PAD_SIZE {
        return &pad[..0];
    }
    if vram.len() != cells::VDP_REACH {
        return &vram[..0];
    }
    match which {
        Memory::Cpu => part_of(pad, cells::PAD_REACH, at, len),
        Memory::Vdp => part_of(vram, cells::VDP_REACH, at, len),
    }
}
