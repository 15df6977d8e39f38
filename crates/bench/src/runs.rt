// Runs of steps.
ghost use Rattle.std.specs.Prelude.{◌≡◌};
ghost use Rattle.rules.specs.Answers.{answer_for};
ghost use Rattle.rules.specs.Calls;
ghost use Rattle.rules.specs.Calls.{steps};
ghost use Rattle.rules.specs.Reads.{run_reads};
ghost use Rattle.machine.specs.Meaning.{why_of, ◌&◌, Groups, Image, Journal, Pad, Regs, Vram};
ghost use Rattle.bench.specs.Numbers.{of_report};
ghost use Rattle.bench.specs.Meaning.{no_steps, Fits, Reports, Charts, Maps};

use crate::at::At;
use crate::{fits, walk};
use machine::answers::Why;

// What a run leaves: why its last step was refused, or that all were done, how many were, how many bytes these stored, and where the machine stands.
#[derive(Clone, Copy)]
pub struct Report {
    pub refusal: Option<Why>,
    pub steps: u32,
    pub stores: u64,
    pub at: At,
}

// No step was made.
fn turned_down(why: Why, at: At) -> Report
    ensures { of_report result ≡ no_steps (answer_for (why_of why)) at }
{
    Report {
        refusal: Some(why),
        steps: 0,
        stores: 0,
        at,
    }
}

// A run past test 11, which every accepted step leaves passed.
fn fit_run(
    image: &mut [u8],
    map: &mut [u8],
    pad: &mut [u8],
    vram: &mut [u8],
    regs: &mut [u8],
    journal: &mut [u32],
    at: At,
    n: u32,
) -> Report
    requires { Fits image pad vram regs journal at }
    ensures { Charts (steps n) (run_reads n) (Image image & Groups at.writable & Pad pad & Vram vram & Regs regs & Journal journal) map at result }
{
    let mut here = at;
    let mut stores: u64 = 0;
    for done in 0..n {
        let r = walk::fit_step(image, map, pad, vram, regs, journal, here);
        here = r.at;
        if r.refusal.is_some() {
            return Report {
                refusal: r.refusal,
                steps: done,
                stores,
                at: here,
            };
        }
        stores += r.stores;
    }
    Report {
        refusal: None,
        steps: n,
        stores,
        at: here,
    }
}

// Up to n steps, to the first that is refused. What they read is marked in the map, as far as it reaches.
fn marking_run(
    image: &mut [u8],
    map: &mut [u8],
    pad: &mut [u8],
    vram: &mut [u8],
    regs: &mut [u8],
    journal: &mut [u32],
    at: At,
    n: u32,
) -> Report
    ensures { Charts (Calls.run n) (run_reads n) (Image image & Groups at.writable & Pad pad & Vram vram & Regs regs & Journal journal) map at result }
{
    let fit = fits::all_fit(
        image.len(),
        pad.len(),
        vram.len(),
        regs.len(),
        journal.len(),
        at,
    );
    if !fit {
        return turned_down(Why::WrongLength, at);
    }
    fit_run(image, map, pad, vram, regs, journal, at, n)
}

// A run, with no map.
pub fn run(
    image: &mut [u8],
    pad: &mut [u8],
    vram: &mut [u8],
    regs: &mut [u8],
    journal: &mut [u32],
    at: At,
    n: u32,
) -> Report
    ensures { Reports (Calls.run n) (Image image & Groups at.writable & Pad pad & Vram vram & Regs regs & Journal journal) at result }
{
    marking_run(image, &mut [], pad, vram, regs, journal, at, n)
}

// A run that says which bytes of the image it reads: 1 in a map of one byte for each.
pub fn run_mapped(
    image: &mut [u8],
    map: &mut [u8],
    pad: &mut [u8],
    vram: &mut [u8],
    regs: &mut [u8],
    journal: &mut [u32],
    at: At,
    n: u32,
) -> Report
    ensures { Maps n (Image image & Groups at.writable & Pad pad & Vram vram & Regs regs & Journal journal) map at result }
{
    if map.len() != image.len() {
        return turned_down(Why::WrongLength, at);
    }
    marking_run(image, map, pad, vram, regs, journal, at, n)
}
