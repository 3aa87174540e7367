// What the programs do: each reads a recording of 65,536 bytes at most and prints what an entry makes of it, a refusal's four
// numbers, or that the recording is too long. Each table and the output has 65,536 bytes. The recording comes from any reader, so
// that the program `programs` runs the same code on the files beside it.
#![tactic(auto)]

use block_layout::Accepted;
use blocks::error::MdfError;
use reading::read_full;
use std::io;
use std::io::Read;

// Bytes of the longest recording and of the output, and words of each table.
const BYTES: usize = 65536;

const WORDS: usize = 8192;

// What an entry is lent beside the recording.
#[derive(Drop)]
struct Lent {
    visited: [u64; WORDS],
    blocks: [u64; WORDS],
    links: [u64; WORDS],
    gaps: [u64; WORDS],
    scratch: [u64; WORDS],
    out: [u8; BYTES],
}

// Prints the output that an entry left, of which it answers no more than it was lent, or document 01's four numbers of its refusal.
fn say(rt: &impl Print, answer: Result<Accepted, MdfError>, out: &[u8]) -> io::Result<()> {
    match answer {
        Ok(a) => rt.write_all(&out[..a.bytes.min(out.len())]),
        Err(e) => {
            let r = e.numbers();
            println!(rt; "refused {} {} {} {}", r.number, r.place, r.a, r.b)
        }
    }
}

// Prints what the entry makes of the recording that is read.
fn show<R: Read, E: FnOnce(&[u8], &mut Lent) -> Result<Accepted, MdfError>>(
    rt: &impl Print,
    input: &mut R,
    entry: E,
) -> io::Result<()>
    requires { E.IsAlwaysCallable entry }
{
    // a byte more than the longest, so that a longer one is seen
    let mut data = [0u8; BYTES + 1];
    let n = read_full(input, &mut data)?;
    if BYTES < n {
        return println!(rt; "too long");
    }
    let mut lent = Lent {
        visited: [0; WORDS],
        blocks: [0; WORDS],
        links: [0; WORDS],
        gaps: [0; WORDS],
        scratch: [0; WORDS],
        out: [0; BYTES],
    };
    let answer = entry(&data[..n], &mut lent);
    say(rt, answer, &lent.out)
}

// Document 01's listing program. The three programs differ in their entry alone, but document 02 gives an entry its parameters, the
// tables one by one, so that each has a closure of its own.
pub fn listing<R: Read>(rt: &impl Print, input: &mut R) -> io::Result<()> {
    show(rt, input, |data, t| {
        block_layout::to_text(
            data,
            &mut t.visited,
            &mut t.blocks,
            &mut t.links,
            &mut t.gaps,
            &mut t.out,
        )
    })
}

// The same of the tree.
pub fn tree<R: Read>(rt: &impl Print, input: &mut R) -> io::Result<()> {
    show(rt, input, |data, t| {
        block_layout::to_tree(
            data,
            &mut t.visited,
            &mut t.blocks,
            &mut t.links,
            &mut t.gaps,
            &mut t.out,
        )
    })
}

// The same of the clear list, whose CLR bytes are printed.
pub fn clear<R: Read>(rt: &impl Print, input: &mut R) -> io::Result<()> {
    show(rt, input, |data, t| {
        block_layout::clear_list(
            data,
            &mut t.visited,
            &mut t.blocks,
            &mut t.links,
            &mut t.gaps,
            &mut t.scratch,
            &mut t.out,
        )
    })
}
