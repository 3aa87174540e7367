// Replays the Rust's recorded answers: standard input is the pack that tools/pack.py wrote, whose parts are said there. Each entry
// but `path`, for which there is the program `paths`, is called with tables, counts and an output lent exactly, with more than enough that
// is not a whole number of rows, and with each one short. All of it is done again with the recording that the blanker leaves, but for
// unfinalised ones. Before each call all lent memory is filled with ones. Prints the place of each recording that is answered otherwise,
// and how many there are.
#![tactic(auto)]

mod calls;
mod clear;
mod compare;
mod recording;

use calls::{accepts, refuses, refuses_unfinalized};
use clear::{COPY, zero_clear};
use reading::read_full;
use recording::{COUNTS, HEAD, Places, Recording, end_of, recorded, unfinalized};
use std::io;

// The most recordings that are read.
const MOST: usize = 1000000;

// All calls for what the blanker leaves of the recording.
fn blanked_calls(recording: &Recording, places: Places) -> bool {
    let n = recording.file.len();
    let counts = recording.counts.len();
    if COPY < n || COUNTS < counts {
        return false;
    }
    let zeros = [[0u8; 8]; COUNTS];
    let mut copy = [0u8; COPY];
    if !zero_clear(&mut copy[..n], recording) {
        return false;
    }
    let blanked = Recording {
        file: &copy[..n],
        counts: &zeros[..counts],
        total: 0,
        ..*recording
    };
    accepts(&blanked, places)
}

// Whether the recording with this head and these parts is answered as it was recorded. An unfinalised one has no clear list.
fn replayed(head: &[u8; HEAD], b: &[u8]) -> bool {
    let Some(recording) = Recording::parse(head, b) else {
        return false;
    };
    let places = match recorded(head) {
        Err(e) => return refuses(&recording, e),
        Ok(places) => places,
    };
    let Some(recording) = recording.with_answers(head, b) else {
        return false;
    };
    accepts(&recording, places)
        && match unfinalized(head) {
            Some(e) => refuses_unfinalized(&recording, places, e),
            None => blanked_calls(&recording, places),
        }
}

// Reads the parts of the recording with this head, and replays it.
fn parts<R: io::Read>(input: &mut R, head: &[u8; HEAD]) -> io::Result<bool> {
    let mut buf = [0u8; 131072];
    let n = end_of(head, 8);
    if buf.len() < n {
        return Ok(false);
    }
    if read_full(input, &mut buf[..n])? != n {
        return Ok(false);
    }
    Ok(replayed(head, &buf[..n]))
}

// Whether the next recording, if there is one, is answered as it was recorded.
fn next<R: io::Read>(input: &mut R) -> io::Result<Option<bool>> {
    let mut head = [0u8; HEAD];
    if read_full(input, &mut head)? != HEAD {
        return Ok(None);
    }
    Ok(Some(parts(input, &head)?))
}

// Replays all recordings, and answers how many there are and how many differ.
fn replay<R: io::Read>(rt: &impl Print, input: &mut R) -> io::Result<(usize, usize)> {
    let mut differ = 0;
    for place in 0..MOST {
        match next(input)? {
            None => return Ok((place, differ)),
            Some(true) => {}
            Some(false) => {
                println!(rt; "{place} differs")?;
                differ += 1;
            }
        }
    }
    Ok((MOST, differ))
}

fn main(rt: HostRuntime) -> io::Result<()> {
    let (read, differ) = replay(&rt, &mut rt.reader())?;
    println!(rt; "{read} recordings, {differ} differ")
}
