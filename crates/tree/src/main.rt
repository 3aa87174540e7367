// The tree of the recording on standard input, as `listing` prints its listing.
#![tactic(auto)]

use std::io;

fn main(rt: HostRuntime) -> io::Result<()> {
    console::tree(&rt, &mut rt.reader())
}
