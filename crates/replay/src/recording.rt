// A recording of the pack: its parts, what was answered, and what the entries are lent for it.
ghost use Rattle.std.specs.Prelude.{◌<◌};

use block_layout::{Accepted, Rows};
use blocks::error::Refusal;
use little_endian::{read_u16, read_u32, read_u64};
use tables::{BLOCK_ROW_WORDS, PAIR_WORDS};

// Bytes of a recording's head.
pub const HEAD: usize = 80;

// Words that there are to lend of each table, and bytes of the output.
pub const VISITED: usize = 1024;

pub const BLOCKS: usize = 1024 * BLOCK_ROW_WORDS;

pub const LINKS: usize = 4096;

pub const GAPS: usize = 2048;

pub const SCRATCH: usize = 4096;

pub const COUNTS: usize = 1024;

pub const OUT: usize = 16384;

#[derive(Clone, Copy, PartialEq, Eq)]
pub enum Entry {
    Layout,
    ClearList,
    ToText,
    ToTree,
    Preview,
    Blank,
}

pub const ENTRIES: [Entry; 6] = [
    Entry::Layout,
    Entry::ClearList,
    Entry::ToText,
    Entry::ToTree,
    Entry::Preview,
    Entry::Blank,
];

// The places at which refusals 10, 11 and 12 come where the visited, block or link table is one row short.
#[derive(Clone, Copy)]
pub struct Places {
    pub visited: u64,
    pub blocks: u64,
    pub links: u64,
}

// Words lent of each table, and bytes of the output.
#[derive(Clone, Copy)]
pub struct Sizes {
    pub visited: usize,
    pub blocks: usize,
    pub links: usize,
    pub gaps: usize,
    pub scratch: usize,
    pub counts: usize,
    pub out: usize,
}

// The parts of a recording, the rows that its clear list needs of the scratch table, and its preview's total.
#[derive(Clone, Copy)]
pub struct Recording<'a> {
    pub file: &'a [u8],
    pub visited: &'a [[u8; 8]],
    pub blocks: &'a [[u8; 8]],
    pub links: &'a [[u8; 8]],
    pub gaps: &'a [[u8; 8]],
    pub text: &'a [u8],
    pub tree: &'a [u8],
    pub clear: &'a [u8],
    pub counts: &'a [[u8; 8]],
    pub scratch: usize,
    pub total: u64,
}

// Where the part at place i of the head ends, counted from the first part on.
pub(crate) fn end_of(head: &[u8; HEAD], i: usize) -> usize
    requires { i < 10 }
{
    read_u32(head, 4 * i) as usize
}

// The part at place i, which begins where the one before it ends.
fn part<'a>(head: &[u8; HEAD], b: &'a [u8], i: usize) -> Option<&'a [u8]>
    requires { i < 9 }
{
    let from = if i == 0 { 0 } else { end_of(head, i - 1) };
    b.get(from..end_of(head, i))
}

// The same of a part of words.
fn words<'a>(head: &[u8; HEAD], b: &'a [u8], i: usize) -> Option<&'a [[u8; 8]]>
    requires { i < 9 }
{
    Some(part(head, b, i)?.as_chunks::<8>().0)
}

// What was recorded: the places of an accepted recording, or the refusal, whose number is not 0.
pub(crate) fn recorded(head: &[u8; HEAD]) -> Result<Places, Refusal> {
    let number = read_u64(head, 48);
    let place = read_u64(head, 56);
    let a = read_u64(head, 64);
    let b = read_u64(head, 72);
    if number != 0 {
        return Err(Refusal {
            number,
            place,
            a,
            b,
        });
    }
    Ok(Places {
        visited: place,
        blocks: a,
        links: b,
    })
}

// What refuses the clear list, preview and blanking of an unfinalised recording.
pub(crate) fn unfinalized(head: &[u8; HEAD]) -> Option<Refusal> {
    let standard = read_u16(head, 40);
    let custom = read_u16(head, 42);
    if standard == 0 && custom == 0 {
        return None;
    }
    Some(Refusal {
        number: 16,
        place: 60,
        a: standard as u64,
        b: custom as u64,
    })
}

impl<'a> Recording<'a> {
    // The recording and its tables, and nothing behind them: of a refused recording the other parts aren't looked at.
    pub(crate) fn parse(head: &[u8; HEAD], b: &'a [u8]) -> Option<Recording<'a>> {
        Some(Recording {
            file: part(head, b, 0)?,
            visited: words(head, b, 1)?,
            blocks: words(head, b, 2)?,
            links: words(head, b, 3)?,
            gaps: words(head, b, 4)?,
            text: b"",
            tree: b"",
            clear: b"",
            counts: &[],
            scratch: end_of(head, 9),
            total: read_u32(head, 44) as u64,
        })
    }

    // The same with the parts that say what the entries answer.
    pub(crate) fn with_answers(self, head: &[u8; HEAD], b: &'a [u8]) -> Option<Recording<'a>> {
        Some(Recording {
            text: part(head, b, 5)?,
            tree: part(head, b, 6)?,
            clear: part(head, b, 7)?,
            counts: words(head, b, 8)?,
            ..self
        })
    }

    // The bytes that the entry is to write.
    pub(crate) fn output(&self, entry: Entry) -> &'a [u8] {
        match entry {
            Entry::ClearList => self.clear,
            Entry::ToText => self.text,
            Entry::ToTree => self.tree,
            Entry::Layout | Entry::Preview | Entry::Blank => b"",
        }
    }

    // The counts that the entry is to write.
    pub(crate) fn counts(&self, entry: Entry) -> &'a [[u8; 8]] {
        if entry == Entry::Preview {
            self.counts
        } else {
            &[]
        }
    }

    // Whether what the entry answers was recorded: its bytes; of blanker and preview, whether a clear list was. The layout has no bytes.
    pub(crate) fn has(&self, entry: Entry) -> bool {
        match entry {
            Entry::Layout => true,
            Entry::ToText | Entry::ToTree => !self.output(entry).is_empty(),
            Entry::ClearList | Entry::Preview | Entry::Blank => !self.clear.is_empty(),
        }
    }

    // What the entry answers where it accepts.
    pub(crate) fn accepted(&self, entry: Entry) -> Accepted {
        let rows = Rows {
            visited: self.visited.len(),
            blocks: self.blocks.len() / BLOCK_ROW_WORDS,
            links: self.links.len() / PAIR_WORDS,
            gaps: self.gaps.len() / PAIR_WORDS,
        };
        Accepted {
            rows,
            bytes: if entry == Entry::Preview {
                self.counts.len()
            } else {
                self.output(entry).len()
            },
            total: if entry == Entry::Preview {
                self.total
            } else {
                0
            },
        }
    }

    // The words and bytes of the parts.
    pub(crate) fn exact(&self, entry: Entry) -> Sizes {
        Sizes {
            visited: self.visited.len(),
            blocks: self.blocks.len(),
            links: self.links.len(),
            gaps: self.gaps.len(),
            scratch: if entry.is_clearing() {
                self.scratch.saturating_mul(PAIR_WORDS).min(SCRATCH)
            } else {
                0
            },
            counts: self.counts(entry).len(),
            out: self.output(entry).len(),
        }
    }
}

impl Entry {
    // Whether it goes over the clear ranges.
    pub(crate) fn is_clearing(self) -> bool {
        matches!(self, Entry::ClearList | Entry::Preview | Entry::Blank)
    }

    // More than enough for each recording, and not a whole number of rows.
    pub(crate) fn plenty(self) -> Sizes {
        Sizes {
            visited: VISITED,
            blocks: BLOCKS - 1,
            links: LINKS - 1,
            gaps: GAPS - 1,
            scratch: if self.is_clearing() { SCRATCH - 1 } else { 0 },
            counts: if self == Entry::Preview { COUNTS } else { 0 },
            out: if matches!(self, Entry::ClearList | Entry::ToText | Entry::ToTree) {
                OUT
            } else {
                0
            },
        }
    }
}
