// The worked examples of the programmer's guide, as a table of cases.
#![tactic(auto)]

use std::io;

fn main(rt: HostRuntime) -> io::Result<()> {
    table::whole::run_table(&mut rt.stdin(), &mut rt.stdout())
}
