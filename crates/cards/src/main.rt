// The bench cards of 01 and each refusal that the program can give, as a table of cases.
#![tactic(auto)]

use std::io;

fn main(rt: HostRuntime) -> io::Result<()> {
    table::whole::run_table(&mut rt.stdin(), &mut rt.stdout())
}
