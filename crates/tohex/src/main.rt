// The dump of the bench file that comes from standard input.
#![tactic(auto)]

use std::io;

fn main(rt: HostRuntime) -> io::Result<()> {
    rig::whole::dump_all(&mut rt.stdin(), &mut rt.stdout())
}
