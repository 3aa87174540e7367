// Calls of the entry `path` with what is expected of each: standard input is what `tools/paths.py calls` wrote, whose parts are said
// there. Prints the place of each call that is answered otherwise, and how many there are.
#![tactic(auto)]

mod call;

use call::{Call, HEAD, PATH};
use little_endian::read_u32;
use reading::read_full;
use std::io;

// The most recordings that are read, and bytes of the longest.
const MOST: usize = 1000000;

const LONGEST: usize = 32768;

// Bytes before a recording: its length and the number of its calls.
const BEFORE: usize = 8;

// Calls made, and those among them that differ.
#[derive(Clone, Copy, Default)]
struct Made {
    calls: usize,
    differ: usize,
}

// Whether the next call for a recording is answered as expected.
fn next_call<R: io::Read>(input: &mut R, file: &[u8]) -> io::Result<bool> {
    let mut head = [0u8; HEAD];
    let mut buf = [0u8; 4 * PATH];
    if read_full(input, &mut head)? != HEAD {
        return Ok(false);
    }
    let n = 4 * (read_u32(&head, 28) as usize);
    if buf.len() < n || read_full(input, &mut buf[..n])? != n {
        return Ok(false);
    }
    Ok(Call::parse(file, &head, &buf[..n]).is_met())
}

// All calls for the recording at a place: how many differ.
fn make_calls<R: io::Read>(
    rt: &impl Print,
    input: &mut R,
    file: &[u8],
    place: usize,
    calls: usize,
) -> io::Result<usize> {
    let mut differ: usize = 0;
    for i in 0..calls {
        if !next_call(input, file)? {
            println!(rt; "{place}: {i} differs")?;
            differ = differ.saturating_add(1);
        }
    }
    Ok(differ)
}

// The next recording with its calls; none where there is no further one.
fn next_recording<R: io::Read>(
    rt: &impl Print,
    input: &mut R,
    place: usize,
) -> io::Result<Option<Made>> {
    let mut before = [0u8; BEFORE];
    let mut buf = [0u8; LONGEST];
    if read_full(input, &mut before)? != BEFORE {
        return Ok(None);
    }
    let n = read_u32(&before, 0) as usize;
    let calls = read_u32(&before, 4) as usize;
    if buf.len() < n || read_full(input, &mut buf[..n])? != n {
        return Ok(None);
    }
    let differ = make_calls(rt, input, &buf[..n], place, calls)?;
    Ok(Some(Made { calls, differ }))
}

// All calls for all recordings.
fn make_all<R: io::Read>(rt: &impl Print, input: &mut R) -> io::Result<Made> {
    let mut all = Made::default();
    for place in 0..MOST {
        let Some(made) = next_recording(rt, input, place)? else {
            break;
        };
        all.calls = all.calls.saturating_add(made.calls);
        all.differ = all.differ.saturating_add(made.differ);
    }
    Ok(all)
}

fn main(rt: HostRuntime) -> io::Result<()> {
    let Made { calls, differ } = make_all(&rt, &mut rt.reader())?;
    println!(rt; "{calls} calls, {differ} differ")
}
