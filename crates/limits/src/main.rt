// What the program can't show: images of one group and of eight, parts of a wrong length, a journal with no room, steps back, groups that may be
// written, and journals that are rings.
#![tactic(auto)]

mod backs;
mod grams;
mod rings;
mod shown;
mod steps;
mod trial;

use std::io;

fn main(rt: HostRuntime) -> io::Result<()> {
    let mut output = rt.stdout();
    steps::all(&mut output)?;
    backs::all(&mut output)?;
    grams::all(&mut output)?;
    rings::all(&mut output)
}
