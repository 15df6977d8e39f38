// The program: lines from standard input, obeyed as they come.
#![tactic(auto)]

use std::io;

fn main(rt: HostRuntime) -> io::Result<()> {
    desk::whole::obey_all(&mut rt.stdin(), &mut rt.stdout())
}
