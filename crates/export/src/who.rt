// Who wrote a cell, for C and Rust.
ghost use Rattle.std.specs.Prelude.{◌≡◌};
ghost use Rattle.machine.specs.Meaning.{kind_of};
ghost use Rattle.culprit.specs.Meaning.{wrote_of};
ghost use Rattle.export.specs.Meaning.{stands};
ghost use Rattle.export.specs.Who;
ghost use Rattle.export.specs.Who.{has_cells, unfound, NumbersOf, SaysWho};

use bench::at::At;
use culprit::trail::Wrote;
use machine::memory::Memory;

// The kind that a memory's number is of.
fn kind_of(memory: u8) -> Memory
    ensures { kind_of result ≡ Who.kind_in memory }
{
    match memory {
        1 => Memory::Vdp,
        2 => Memory::Register,
        4 => Memory::Grom,
        _ => Memory::Cpu,
    }
}

// Whether it is the number of a kind: 3 is a mark's.
fn has_cells(memory: u8) -> bool
    ensures { result ≡ has_cells memory }
{
    memory != 3 && memory < 5
}

// Of no cell: what is refused stays so, and no step is named.
fn unfound(w: Wrote) -> Wrote
    ensures { wrote_of result ≡ unfound (wrote_of w) }
{
    match w {
        Ok(_) => Ok(None),
        Err(why) => Err(why),
    }
}

// The answer, and the five numbers in their order.
fn tell(w: Wrote, out: &mut [u64; 5]) -> u8
    ensures { NumbersOf (wrote_of w) result out }
{
    *out = [0; 5];
    match w {
        Ok(Some(c)) => {
            *out = [
                1,
                c.after as u64,
                c.pc as u64,
                c.before as u64,
                c.left as u64,
            ];
            0
        }
        Ok(None) => 0,
        Err(why) => why.number(),
    }
}

// Nothing but `out` is lent to be changed.
pub fn argolythe_who_wrote(
    image: &[u8],
    pad: &[u8],
    vdp: &[u8],
    reg: &[u8],
    journal: &[u32],
    used: usize,
    ring: u8,
    place: usize,
    writable: u8,
    memory: u8,
    at: u16,
    out: &mut [u64; 5],
) -> u8
    ensures { SaysWho memory at image pad vdp reg journal (stands 0 used ring place writable 0) result out }
{
    let start = At {
        pc: 0,
        used,
        ring: ring != 0,
        place,
        writable,
        source: false,
    };
    let w = culprit::call::who_wrote(image, pad, vdp, reg, journal, start, kind_of(memory), at);
    if has_cells(memory) {
        return tell(w, out);
    }
    tell(unfound(w), out)
}
