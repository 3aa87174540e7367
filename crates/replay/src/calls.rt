// The calls of the entries for a recording: with tables, counts and output lent exactly, with more than enough, and with each one short.
use crate::clear::{COPY, is_blanked};
use crate::compare::is_settled;
use crate::recording::{
    BLOCKS, COUNTS, ENTRIES, Entry, GAPS, LINKS, OUT, Places, Recording, SCRATCH, Sizes, VISITED,
};
use block_layout::Accepted;
use blocks::error::{MdfError, Refusal};
use tables::{BLOCK_ROW_WORDS, PAIR_WORDS};

// What stands in a lent word before a call.
const ONES: u64 = 0xffff_ffff_ffff_ffff;

// What an entry is lent beside the recording.
#[derive(Drop)]
pub struct Lent<'a> {
    pub visited: &'a mut [u64],
    pub blocks: &'a mut [u64],
    pub links: &'a mut [u64],
    pub gaps: &'a mut [u64],
    pub scratch: &'a mut [u64],
    pub counts: &'a mut [u64],
    pub out: &'a mut [u8],
}

// What is lent to the entries by its kind.
#[derive(Clone, Copy)]
enum Part {
    Visited,
    Blocks,
    Links,
    Gaps,
    Scratch,
    Counts,
    Out,
}

const PARTS: [Part; 7] = [
    Part::Visited,
    Part::Blocks,
    Part::Links,
    Part::Gaps,
    Part::Scratch,
    Part::Counts,
    Part::Out,
];

impl Sizes {
    fn of(self, part: Part) -> usize {
        match part {
            Part::Visited => self.visited,
            Part::Blocks => self.blocks,
            Part::Links => self.links,
            Part::Gaps => self.gaps,
            Part::Scratch => self.scratch,
            Part::Counts => self.counts,
            Part::Out => self.out,
        }
    }

    // The same with n words or bytes of a part.
    fn with(self, part: Part, n: usize) -> Sizes {
        match part {
            Part::Visited => Sizes { visited: n, ..self },
            Part::Blocks => Sizes { blocks: n, ..self },
            Part::Links => Sizes { links: n, ..self },
            Part::Gaps => Sizes { gaps: n, ..self },
            Part::Scratch => Sizes { scratch: n, ..self },
            Part::Counts => Sizes { counts: n, ..self },
            Part::Out => Sizes { out: n, ..self },
        }
    }
}

// An entry called on a recording, and what is to refuse it, if anything is.
#[derive(Clone, Copy)]
pub struct Call<'a> {
    pub recording: &'a Recording<'a>,
    pub entry: Entry,
    pub refusal: Option<Refusal>,
}

impl Call<'_> {
    // The blanker, on a copy; none where it doesn't leave the clear ranges zero, or after a refusal the recording as it was.
    fn blank(&self, t: &mut Lent) -> Option<Result<Accepted, MdfError>> {
        let file = self.recording.file;
        let n = file.len();
        if COPY < n {
            return None;
        }
        let mut copy = [0u8; COPY];
        let copy = &mut copy[..n];
        copy.copy_from_slice(file);
        let answer = block_layout::blank(copy, t.visited, t.blocks, t.links, t.gaps, t.scratch);
        let is_left = match self.refusal {
            None => is_blanked(copy, self.recording),
            Some(_) => *copy == *file,
        };
        is_left.then_some(answer)
    }

    // The call itself; none where it doesn't leave the recording as it should.
    fn enter(&self, t: &mut Lent) -> Option<Result<Accepted, MdfError>> {
        let file = self.recording.file;
        Some(match self.entry {
            Entry::Layout => block_layout::layout(file, t.visited, t.blocks, t.links, t.gaps),
            Entry::ClearList => block_layout::clear_list(
                file, t.visited, t.blocks, t.links, t.gaps, t.scratch, t.out,
            ),
            Entry::ToText => {
                block_layout::to_text(file, t.visited, t.blocks, t.links, t.gaps, t.out)
            }
            Entry::ToTree => {
                block_layout::to_tree(file, t.visited, t.blocks, t.links, t.gaps, t.out)
            }
            Entry::Preview => block_layout::preview(
                file, t.visited, t.blocks, t.links, t.gaps, t.scratch, t.counts,
            ),
            Entry::Blank => return self.blank(t),
        })
    }

    // Whether it answers and leaves what it should, with as much lent as is said, all filled with ones.
    fn lend(&self, n: Sizes) -> bool {
        if VISITED < n.visited
            || BLOCKS < n.blocks
            || LINKS < n.links
            || GAPS < n.gaps
            || SCRATCH < n.scratch
            || COUNTS < n.counts
            || OUT < n.out
        {
            return false;
        }
        let mut visited = [ONES; VISITED];
        let mut blocks = [ONES; BLOCKS];
        let mut links = [ONES; LINKS];
        let mut gaps = [ONES; GAPS];
        let mut scratch = [ONES; SCRATCH];
        let mut counts = [ONES; COUNTS];
        let mut out = [255u8; OUT];
        let mut lent = Lent {
            visited: &mut visited[..n.visited],
            blocks: &mut blocks[..n.blocks],
            links: &mut links[..n.links],
            gaps: &mut gaps[..n.gaps],
            scratch: &mut scratch[..n.scratch],
            counts: &mut counts[..n.counts],
            out: &mut out[..n.out],
        };
        self.enter(&mut lent)
            .is_some_and(|answer| is_settled(answer, self, &lent))
    }
}

// A refusal by document 01's number and places: an MdfError would be what is tested.
fn four(number: u64, place: u64, a: usize, b: usize) -> Refusal {
    Refusal {
        number,
        place,
        a: a as u64,
        b: b as u64,
    }
}

// A call for a recording whose walk ends, and where refusals 10 to 12 come.
#[derive(Clone, Copy)]
struct Case<'a> {
    call: Call<'a>,
    places: Places,
}

impl Case<'_> {
    // What refuses the call where n words or bytes of a part are lent in place of those needed. The walk fills the first three.
    fn refusal(&self, part: Part, n: usize, needed: usize) -> Refusal {
        let after_walk = |e| self.call.refusal.unwrap_or(e);
        match part {
            Part::Visited => four(10, self.places.visited, n, 0),
            Part::Blocks => four(11, self.places.blocks, n / BLOCK_ROW_WORDS, 0),
            Part::Links => four(12, self.places.links, n / PAIR_WORDS, 0),
            Part::Gaps | Part::Scratch => {
                after_walk(four(13, 0, n / PAIR_WORDS, needed / PAIR_WORDS))
            }
            Part::Counts => after_walk(four(13, 0, n, needed)),
            Part::Out => after_walk(four(14, 0, n, needed)),
        }
    }

    // One call with n words or bytes of a part in place of more.
    fn short(&self, part: Part, n: usize, lent: Sizes) -> bool {
        let needed = lent.of(part);
        if needed <= n {
            return true;
        }
        let refusal = Some(self.refusal(part, n, needed));
        Call {
            refusal,
            ..self.call
        }
        .lend(lent.with(part, n))
    }

    // One call with a row's word, a count or a byte of a part too few.
    fn one_short(&self, part: Part, lent: Sizes) -> bool {
        self.short(part, lent.of(part).saturating_sub(1), lent)
    }

    // All calls, with just enough lent and with less. The scratch table's 13 comes before that of the counts.
    fn calls(&self, lent: Sizes) -> bool {
        self.call.lend(lent)
            && self.call.lend(self.call.entry.plenty())
            && PARTS.iter().all(|&part| self.one_short(part, lent))
            && self.short(Part::Counts, 0, lent)
            && (lent.counts == 0 || self.one_short(Part::Scratch, Sizes { counts: 0, ..lent }))
            && self.short(Part::Out, 0, lent)
    }

    // All calls of an entry that goes over the clear ranges for an unfinalised recording: refused after the walk and before anything
    // else, so also if nothing is lent for what follows.
    fn refuses_clearing(&self) -> bool {
        let exact = self.call.recording.exact(self.call.entry);
        let plenty = self.call.entry.plenty();
        let nothing = Sizes {
            gaps: 0,
            scratch: 0,
            counts: 0,
            out: 0,
            ..exact
        };
        self.calls(Sizes {
            counts: plenty.counts,
            out: plenty.out,
            ..exact
        }) && self.call.lend(nothing)
    }
}

// All calls for a recording that is accepted, or for what its blanking leaves: that is answered alike, but that nothing is counted.
pub(crate) fn accepts(recording: &Recording, places: Places) -> bool {
    ENTRIES
        .iter()
        .filter(|&&entry| recording.has(entry))
        .all(|&entry| {
            let call = Call {
                recording,
                entry,
                refusal: None,
            };
            Case { call, places }.calls(recording.exact(entry))
        })
}

// Clear list, preview and blanker refuse an unfinalised recording.
pub(crate) fn refuses_unfinalized(recording: &Recording, places: Places, e: Refusal) -> bool {
    ENTRIES
        .iter()
        .filter(|entry| entry.is_clearing())
        .all(|&entry| {
            let call = Call {
                recording,
                entry,
                refusal: Some(e),
            };
            Case { call, places }.refuses_clearing()
        })
}

// All entries refuse the recording.
pub(crate) fn refuses(recording: &Recording, e: Refusal) -> bool {
    ENTRIES.iter().all(|&entry| {
        let call = Call {
            recording,
            entry,
            refusal: Some(e),
        };
        call.lend(entry.plenty())
    })
}
