// The CLR bytes of the clear list of the recording on standard input, as `listing` prints its listing.
#![tactic(auto)]

use std::io;

fn main(rt: HostRuntime) -> io::Result<()> {
    console::clear(&rt, &mut rt.reader())
}
