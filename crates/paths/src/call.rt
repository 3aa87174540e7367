// A call of the entry `path` and what is expected of it. Where it accepts, `layout` must leave the same in tables of the same lengths.
ghost use Rattle.std.specs.Prelude.{◌<◌};

use block_layout::{Accepted, Rows};
use blocks::error::{MdfError, Refusal};
use little_endian::{read_u32, read_u64};
use tables::BLOCK_ROW_WORDS;

// Bytes of a call's head.
pub const HEAD: usize = 112;

// Words that there are to lend of each table.
const VISITED: usize = 1024;

const BLOCKS: usize = 1024 * BLOCK_ROW_WORDS;

const LINKS: usize = 4096;

const GAPS: usize = 2048;

pub const PATH: usize = 1024;

// What stands in a lent word before a call.
const ONES: u64 = 0xffff_ffff_ffff_ffff;

// The four tables that every entry is lent.
#[derive(Drop)]
struct Lent<'a> {
    visited: &'a mut [u64],
    blocks: &'a mut [u64],
    links: &'a mut [u64],
    gaps: &'a mut [u64],
}

fn is_zero(t: &[u64]) -> bool {
    t.iter().all(|&x| x == 0)
}

impl Lent<'_> {
    fn is_zero(&self) -> bool {
        is_zero(self.visited) && is_zero(self.blocks) && is_zero(self.links) && is_zero(self.gaps)
    }

    // Whether the same stands in tables of the same lengths.
    fn is_like(&self, other: &Lent) -> bool {
        *self.visited == *other.visited
            && *self.blocks == *other.blocks
            && *self.links == *other.links
            && *self.gaps == *other.gaps
    }
}

// Words lent of each table.
#[derive(Clone, Copy)]
struct Sizes {
    visited: usize,
    blocks: usize,
    links: usize,
    gaps: usize,
    path: usize,
}

// The recording, the offset, what is lent, what is to be answered, and the words of the path, each of four bytes.
#[derive(Clone, Copy)]
pub struct Call<'a> {
    file: &'a [u8],
    offset: u64,
    lent: Sizes,
    expected: Result<Accepted, Refusal>,
    path: &'a [[u8; 4]],
}

fn size_at(head: &[u8; HEAD], at: usize) -> usize
    requires { at < 109 }
{
    read_u32(head, at) as usize
}

// The answer's ten words: a refusal's number is not 0.
fn expected(head: &[u8; HEAD]) -> Result<Accepted, Refusal> {
    let number = read_u64(head, 32);
    if number != 0 {
        return Err(Refusal {
            number,
            place: read_u64(head, 40),
            a: read_u64(head, 48),
            b: read_u64(head, 56),
        });
    }
    Ok(Accepted {
        rows: Rows {
            visited: read_u64(head, 64) as usize,
            blocks: read_u64(head, 72) as usize,
            links: read_u64(head, 80) as usize,
            gaps: read_u64(head, 88) as usize,
        },
        bytes: read_u64(head, 96) as usize,
        total: read_u64(head, 104),
    })
}

impl<'a> Call<'a> {
    // The call with this head, with the bytes of its path.
    pub fn parse(file: &'a [u8], head: &[u8; HEAD], path: &'a [u8]) -> Call<'a> {
        Call {
            file,
            offset: read_u64(head, 0),
            lent: Sizes {
                visited: size_at(head, 8),
                blocks: size_at(head, 12),
                links: size_at(head, 16),
                gaps: size_at(head, 20),
                path: size_at(head, 24),
            },
            expected: expected(head),
            path: path.as_chunks::<4>().0,
        }
    }

    // Whether the table holds the words of the path, and zeros behind them.
    fn is_path(&self, table: &[u64]) -> bool {
        let Some((words, rest)) = table.split_at_checked(self.path.len()) else {
            return false;
        };
        is_zero(rest)
            && words
                .iter()
                .zip(self.path)
                .all(|(&x, &word)| x == u64::from(u32::from_le_bytes(word)))
    }

    fn enter(&self, t: &mut Lent, path: &mut [u64]) -> Result<Accepted, MdfError> {
        let file = self.file;
        let offset = self.offset;
        block_layout::path(file, t.visited, t.blocks, t.links, t.gaps, path, offset)
    }

    fn lay(&self, t: &mut Lent) -> bool {
        let file = self.file;
        block_layout::layout(file, t.visited, t.blocks, t.links, t.gaps).is_ok()
    }

    // Whether the call answers and leaves what is expected: in the four tables what `layout` leaves in others of the same lengths. A
    // refusal leaves all zero.
    fn is_settled(&self, t: &mut Lent, others: &mut Lent, path: &mut [u64]) -> bool {
        let answer = self.enter(t, path);
        let is_laid = self.lay(others) && t.is_like(others);
        match (answer, self.expected) {
            (Ok(a), Ok(expected)) => a == expected && self.is_path(path) && is_laid,
            (Err(e), Err(refusal)) => e.numbers() == refusal && t.is_zero() && is_zero(path),
            _ => false,
        }
    }

    // The same with as much lent as is said, all filled with ones before.
    pub fn is_met(&self) -> bool {
        let n = self.lent;
        if VISITED < n.visited
            || BLOCKS < n.blocks
            || LINKS < n.links
            || GAPS < n.gaps
            || PATH < n.path
        {
            return false;
        }
        let mut visited = [ONES; VISITED];
        let mut blocks = [ONES; BLOCKS];
        let mut links = [ONES; LINKS];
        let mut gaps = [ONES; GAPS];
        let mut path = [ONES; PATH];
        let mut other_visited = [ONES; VISITED];
        let mut other_blocks = [ONES; BLOCKS];
        let mut other_links = [ONES; LINKS];
        let mut other_gaps = [ONES; GAPS];
        let mut lent = Lent {
            visited: &mut visited[..n.visited],
            blocks: &mut blocks[..n.blocks],
            links: &mut links[..n.links],
            gaps: &mut gaps[..n.gaps],
        };
        let mut others = Lent {
            visited: &mut other_visited[..n.visited],
            blocks: &mut other_blocks[..n.blocks],
            links: &mut other_links[..n.links],
            gaps: &mut other_gaps[..n.gaps],
        };
        self.is_settled(&mut lent, &mut others, &mut path[..n.path])
    }
}
