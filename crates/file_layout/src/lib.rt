// The layout of a recording in the lent tables, the Rust's `FileLayout::from_bytes`, in steps: the walk, what an entry asks besides,
// the gaps.
#![tactic(auto)]

ghost use Rattle.std.specs.Prelude.{◌≡◌, List, ℕ, ◌*◌, ◌≤◌, length};
ghost use Rattle.mdf4.specs.Act.{ok};
ghost use Rattle.mdf4.specs.Layout.{finalized};
ghost use Rattle.mdf4.specs.Answers.{Lent, block_row_words, pair_words};
ghost use Rattle.tables.specs.Rows.{table};
ghost use Rattle.file_layout.specs.Tables.{lent_by, Keeps, Zeroed, Joins, Walks, WalkMet, LaidMet};
ghost use Rattle.file_layout.specs.declared.LentTables.{LentTables};

use blocks::error::MdfError;
use finalized::check_finalized;
use tables::{BLOCK_ROW_WORDS, PAIR_WORDS, first_rows, list_gaps, order_blocks};
use walk_state::{Walk, Walker};
use walker::header::walk;

// The rows in use of each table behind the walk, with the blocks in order and the gaps listed.
#[derive(Clone, Copy, Debug, PartialEq, Eq)]
pub struct Rows {
    pub visited: usize,
    pub blocks: usize,
    pub links: usize,
    pub gaps: usize,
}

// The four lent tables of an entry (document 01). C lends them one by one, and so the public entries take them. Each makes the literal
// itself: of a function that took four `&mut` of one lifetime the check would not know which ends as which.
#[derive(Drop)]
pub struct LentTables<'a> {
    pub visited: &'a mut [u64],
    pub blocks: &'a mut [u64],
    pub links: &'a mut [u64],
    pub gaps: &'a mut [u64],
}

impl LentTables<'_> {
    // All words of the four tables are 0.
    pub fn zero(&mut self)
        ensures zeroed { Zeroed self.old self.new }
        ensures keeps { Keeps self.old self.new }
    {
        self.visited.fill(0);
        self.blocks.fill(0);
        self.links.fill(0);
        self.gaps.fill(0);
    }

    // The first step of every entry: the tables zeroed, then the walk. A refusal leaves the tables free.
    pub fn walk_file(&mut self, data: &[u8]) -> Result<Walk, MdfError>
        ensures walked { (scratch out : ℕ) → WalkMet (lent_by self.old scratch out) «data».now result self.new }
        ensures keeps { Keeps self.old self.new }
    {
        self.zero();
        let mut walker = Walker {
            file: data,
            visited: &mut *self.visited,
            blocks: &mut *self.blocks,
            links: &mut *self.links,
            walk: Walk::default(),
        };
        walk(&mut walker)?;
        Ok(walker.walk)
    }

    // The next one, behind what an entry asks besides: the blocks by offset and the gaps between them, in a file of len bytes. A
    // refusal leaves these two tables free, and the others always stay, so that what it lays may also go with others than its own.
    // The counts come by themselves, since the walk is over.
    pub fn lay_gaps(&mut self, len: u64, w: Walk) -> Result<Rows, MdfError>
        requires { w.blocks * block_row_words ≤ length self.old.blocks.now }
        ensures laid { (n : Lent) (file : List ℕ) (t t' : LentTables) → len ≡ length file → Joins t self.old t → Joins t self.new t' → Walks n file w t → LaidMet (ok tt) n file result t' }
        ensures others { Joins self.old self.new self.new }
        ensures keeps { Keeps self.old self.new }
    {
        let blocks = &mut *self.blocks;
        let gaps = &mut *self.gaps;
        order_blocks(blocks, w.blocks);
        let count = list_gaps(first_rows(blocks, w.blocks), len, gaps);
        let rows = gaps.len() / PAIR_WORDS;
        if rows < count {
            return Err(MdfError::TableTooShort {
                lent: rows as u64,
                needed: count as u64,
            });
        }
        Ok(Rows {
            visited: w.visited,
            blocks: w.blocks,
            links: w.links,
            gaps: count,
        })
    }

    // What layout, listing and tree begin with: they ask nothing besides.
    pub fn lay(&mut self, data: &[u8]) -> Result<Rows, MdfError>
        ensures laid { (scratch out : ℕ) → LaidMet (ok tt) (lent_by self.old scratch out) «data».now result self.new }
        ensures keeps { Keeps self.old self.new }
    {
        let w = self.walk_file(data)?;
        self.lay_gaps(data.len() as u64, w)
    }

    // What the clear list begins with: the recording must be finalised (document 02, order 4).
    pub fn lay_finalized(&mut self, data: &[u8]) -> Result<Rows, MdfError>
        ensures laid { (scratch out : ℕ) → LaidMet (finalized «data».now) (lent_by self.old scratch out) «data».now result self.new }
        ensures keeps { Keeps self.old self.new }
    {
        let w = self.walk_file(data)?;
        check_finalized(data)?;
        self.lay_gaps(data.len() as u64, w)
    }

    // The rows of blocks that are in use. That they fit is asked of each table's: `LaidMet` tells it of all at once.
    pub fn block_rows(&self, rows: Rows) -> &[[u64; BLOCK_ROW_WORDS]]
        requires { rows.blocks * block_row_words ≤ length self.now.blocks.now }
        ensures { result.now ≡ table block_row_words (λ row. row) rows.blocks self.now.blocks.now }
    {
        first_rows(self.blocks, rows.blocks)
    }

    // The rows of links.
    pub fn link_rows(&self, rows: Rows) -> &[[u64; PAIR_WORDS]]
        requires { rows.links * pair_words ≤ length self.now.links.now }
        ensures { result.now ≡ table pair_words (λ row. row) rows.links self.now.links.now }
    {
        first_rows(self.links, rows.links)
    }

    // The rows of gaps.
    pub fn gap_rows(&self, rows: Rows) -> &[[u64; PAIR_WORDS]]
        requires { rows.gaps * pair_words ≤ length self.now.gaps.now }
        ensures { result.now ≡ table pair_words (λ row. row) rows.gaps self.now.gaps.now }
    {
        first_rows(self.gaps, rows.gaps)
    }
}
