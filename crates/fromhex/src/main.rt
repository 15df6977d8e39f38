// A dump from standard input, shown as lines for the bench.
#![tactic(auto)]

use std::io;

fn main(rt: HostRuntime) -> io::Result<()> {
    rig::whole::show_all(&mut rt.stdin(), &mut rt.stdout())
}
