// Document 01's program: the listing of the recording on standard input.
#![tactic(auto)]

use std::io;

fn main(rt: HostRuntime) -> io::Result<()> {
    console::listing(&rt, &mut rt.reader())
}
