// Test 11, on lengths alone.
ghost use Rattle.std.specs.Prelude.{◌≡◌};
ghost use Rattle.rules.specs.Machine.{◌also◌};
ghost use Rattle.rules.specs.Calls.{image_fits, parts_fit, place_fits};

use crate::at::At;
use machine::cells;

// 1 to 8 whole groups.
pub fn image_fits(n: usize) -> bool
    ensures { result ≡ image_fits n }
{
    n % 8192 == 0 && (8192 <= n && n <= 65536)
}

// Pad, VDP RAM, registers and journal by their lengths, and the used words.
pub fn parts_fit(pad: usize, vram: usize, regs: usize, journal: usize, used: usize) -> bool
    ensures { result ≡ parts_fit pad vram regs journal used }
{
    // One by one: in a chain of `&&` the tests join, and each joint is two cases of the proof.
    if pad != cells::PAD_SIZE {
        return false;
    }
    if vram != cells::VDP_REACH {
        return false;
    }
    if regs != cells::REGISTERS {
        return false;
    }
    journal <= 1048576 && used <= journal
}

// The place of a ring's oldest word.
fn place_fits(ring: bool, place: usize, journal: usize) -> bool
    ensures { result ≡ place_fits ring place journal }
{
    !ring || (place == 0 || place < journal)
}

// Test 11, by the lengths and where the machine stands.
pub fn all_fit(image: usize, pad: usize, vram: usize, regs: usize, journal: usize, at: At) -> bool
    ensures { result ≡ (image_fits image also parts_fit pad vram regs journal at.used also place_fits at.ring at.place journal) }
{
    image_fits(image)
        && (parts_fit(pad, vram, regs, journal, at.used) && place_fits(at.ring, at.place, journal))
}
