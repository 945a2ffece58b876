// Reads captured frames from standard input, and prints a line for each.
#![tactic(auto)]

use std::io;
use std::io::Read;

fn main(rt: HostRuntime) -> io::Result<()> {
    let mut bytes = Vec::new(rt.alloc());
    rt.stdin().read_to_end(&mut bytes)?;
    let text = listing::list_frames(rt.alloc(), &bytes)?;
    print!(rt; "{text}")
}
