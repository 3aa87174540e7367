// What an entry answered and left in the tables, the counts and the output, held against the parts of a recording.
use crate::calls::{Call, Lent};
use crate::recording::Entry;
use block_layout::Accepted;
use blocks::error::MdfError;
use tables::{BLOCK_ROW_WORDS, TREE_MARK};

// Whether the word at place i of a table is this one of a part, or where a tree marked the block rows, 1 as each one's mark.
fn is_word(x: u64, i: usize, word: [u8; 8], marked: bool) -> bool {
    let is_mark = marked && i % BLOCK_ROW_WORDS == TREE_MARK;
    x == if is_mark { 1 } else { u64::from_le_bytes(word) }
}

fn is_zero(t: &[u64]) -> bool {
    t.iter().all(|&x| x == 0)
}

// Whether a table holds the words of a part, and zeros behind them.
fn holds(t: &[u64], words: &[[u8; 8]], marked: bool) -> bool {
    let Some((used, rest)) = t.split_at_checked(words.len()) else {
        return false;
    };
    is_zero(rest)
        && used
            .iter()
            .zip(words)
            .enumerate()
            .all(|(i, (&x, &word))| is_word(x, i, word, marked))
}

// Whether the output holds the bytes of a part, and zeros behind them.
fn holds_bytes(out: &[u8], part: &[u8]) -> bool {
    out.strip_prefix(part)
        .is_some_and(|rest| rest.iter().all(|&x| x == 0))
}

// Whether an accepted call left the parts of the recording in the tables, the counts and the output.
fn left_parts(call: &Call, lent: &Lent) -> bool {
    let recording = call.recording;
    holds(lent.visited, recording.visited, false)
        && holds(lent.blocks, recording.blocks, call.entry == Entry::ToTree)
        && holds(lent.links, recording.links, false)
        && holds(lent.gaps, recording.gaps, false)
        && holds(lent.counts, recording.counts(call.entry), false)
        && holds_bytes(lent.out, recording.output(call.entry))
}

// Whether a refusal left all zeros.
fn left_zeros(lent: &Lent) -> bool {
    is_zero(lent.visited)
        && is_zero(lent.blocks)
        && is_zero(lent.links)
        && is_zero(lent.gaps)
        && is_zero(lent.counts)
        && holds_bytes(lent.out, b"")
}

// Whether the answer and what is left in the lent memory are what is wanted: the recording's, or this refusal. The scratch table always
// ends zero.
pub(crate) fn is_settled(answer: Result<Accepted, MdfError>, call: &Call, lent: &Lent) -> bool {
    let is_left = match (answer, call.refusal) {
        (Ok(a), None) => a == call.recording.accepted(call.entry) && left_parts(call, lent),
        (Err(e), Some(refusal)) => e.numbers() == refusal && left_zeros(lent),
        _ => false,
    };
    is_left && is_zero(lent.scratch)
}
