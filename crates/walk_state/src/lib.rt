// The lowest layer of the walk, the Rust's `Walker`: offsets visited, rows and links in lent tables of words.
// specs/Held.antt says what state the tables hold; each method is proved to do to it what the definition does.

#![tactic(auto)]

ghost use Rattle.std.specs.Prelude.{◌≡◌, List, [], ◌∷◌, ℕ, ◌+◌, ◌*◌, ◌^◌, ◌≤◌, ◌<◌, ltb, length, take};
ghost use Rattle.mdf4.specs.Act as spec;
ghost use Rattle.mdf4.specs.Kinds as kinds;
ghost use Rattle.mdf4.specs.Walk as walk;
ghost use Rattle.mdf4.specs.Answers.{block_row_words, pair_words, row_words};
ghost use Rattle.blocks.specs.Errors.{told};
ghost use Rattle.blocks.specs.Kind.{kind_named};
ghost use Rattle.tables.specs.Rows.{info_words};
ghost use Rattle.walk_state.specs.Within.{Within, no_layout, link_of, room_for, row_made, with_links, indexed, one_listed, CallableBelow, Gives, Tells};

use blocks::error::MdfError;
use blocks::kind::Kind;
use little_endian::read_u32;
use tables::{BLOCK_ROW_WORDS, BlockInfo, PAIR_WORDS};

// The rows in use of each table, the next index of each kind that counts, and the link that is being followed (document 02, order 3):
// the offset of the block that has it, and its position among those shown.
#[derive(Clone, Copy, Debug, Default, PartialEq, Eq)]
pub struct Walk {
    pub visited: usize,
    pub blocks: usize,
    pub links: usize,
    pub dg: u64,
    pub cg: u64,
    pub cn: u64,
    pub from_block: u64,
    pub from_link: u64,
}

// What a channel group says of its records, as it is handed down to its data blocks.
#[derive(Clone, Copy, Debug, Default, PartialEq, Eq)]
pub struct RecordLayout {
    pub record_size: u64,
    pub invalidation_bytes: u64,
    pub record_id_len: u64,
}

// A row of the link table: `found` is 0, or 1 + the mark at the target. It is that word and no Option, since document 01 has it so in
// the table, and it is stored, compared and shown as it is there.
#[derive(Clone, Copy, Debug, PartialEq, Eq)]
pub struct Link {
    pub target: u64,
    pub found: u64,
}

// What a row takes from its block.
#[derive(Clone, Copy, Debug, PartialEq, Eq)]
pub struct Block {
    pub offset: u64,
    pub size: u64,
    pub mark: u64,
    pub kind: Kind,
    pub layout: RecordLayout,
}

impl Link {
    // A link to a target in a recording, with the mark that stands there.
    pub fn new(file: &[u8], target: u64) -> Link
        ensures { link_of result ≡ kinds.make_link file.now target }
    {
        let len = file.len() as u64;
        let found = if target != 0 && 4 <= len && target <= len - 4 {
            1 + u64::from(read_u32(file, target as usize))
        } else {
            0
        };
        Link { target, found }
    }
}

impl Block {
    // A block that holds no records.
    pub fn plain(offset: u64, size: u64, mark: u32, kind: Kind) -> Block
        ensures { result ≡ record { offset = offset; size = size; mark = mark; kind = kind; layout = no_layout } }
    {
        Block {
            offset,
            size,
            mark: u64::from(mark),
            kind,
            layout: RecordLayout::default(),
        }
    }
}

impl Walk {
    // The index of the next block of a kind.
    fn index_of(self, kind: Kind) -> u64
        ensures { result ≡ indexed self (kind_named kind) }
    {
        match kind {
            Kind::DG => self.dg,
            Kind::CG => self.cg,
            Kind::CN => self.cn,
            _ => 0,
        }
    }

    // The counts behind one more row of a kind.
    fn with_row(self, kind: Kind) -> Walk
        requires rows_fit { self.blocks + 1 < 2 ^ 64 }
        requires indexes_fit { (self.dg ≤ self.blocks) × (self.cg ≤ self.blocks) × (self.cn ≤ self.blocks) }
        ensures { result ≡ one_listed (kind_named kind) self }
    {
        let mut next = self;
        next.blocks += 1;
        match kind {
            Kind::DG => next.dg += 1,
            Kind::CG => next.cg += 1,
            Kind::CN => next.cn += 1,
            _ => {}
        }
        next
    }
}

// A target and its four bytes have to lie below 2^64. Refusal 7 is written here, in `check_room`, in `walk_text_like` and in
// `read_text_at`: a function for it would answer the sum, which two of the four don't need.
pub fn check_target(target: u64) -> Result<(), MdfError>
    ensures { told result ≡ spec.check (ltb (target + 4) (2 ^ 64)) (spec.refusal 7 target target 4) }
{
    if target.checked_add(4).is_none() {
        return Err(MdfError::SumOverflow {
            place: target,
            a: target,
            b: 4,
        });
    }
    Ok(())
}

// Whether an offset is among the first n of the visited table, or among all of it where it has fewer.
pub fn seen(visited: &[u64], n: usize, at: u64) -> bool
    ensures { result ≡ spec.elem at (take n visited.now) }
{
    visited[..n.min(visited.len())].contains(&at)
}

// A walk of a recording: the tables lent to it hold its state.
#[derive(Drop)]
pub struct Walker<'a> {
    pub file: &'a [u8],
    pub visited: &'a mut [u64],
    pub blocks: &'a mut [u64],
    pub links: &'a mut [u64],
    pub walk: Walk,
    ghost within: { Within walk visited.now blocks.now links.now },
}

impl<'a> Walker<'a> {
    ghost use Rattle.walk_state.specs.Held.{holds, Walks, Does, Stepped, mark, Lists};

    // Whether an offset was visited.
    pub fn seen(&self, at: u64) -> bool
        ensures { result ≡ spec.elem at (holds self.now).visited }
    {
        seen(self.visited, self.walk.visited, at)
    }

    // Marks an offset as visited.
    pub fn visit(&mut self, at: u64) -> Result<(), MdfError>
        ensures { (k : spec.Kind) → Walks self.old result self.new (spec.visit k at) }
    {
        let n = self.walk.visited;
        if n < self.visited.len() {
            self.visited[n] = at;
            self.walk.visited = n + 1;
            return Ok(());
        }
        Err(MdfError::VisitedFull {
            place: at,
            lent: self.visited.len() as u64,
        })
    }

    // Marks an offset as visited, and says whether it is new. Each walk of a block tests that first: as a step over a closure, which would
    // be lent the walker, the test would be no shorter.
    pub fn mark(&mut self, at: u64) -> Result<bool, MdfError>
        ensures { (k : spec.Kind) → Does (λ b. b) self.old result self.new (mark k at) }
    {
        if self.seen(at) {
            return Ok(false);
        }
        self.visit(at)?;
        Ok(true)
    }

    // The walk goes on by this link of a block: what is listed until the next call is reached by it. It is no parameter of every walk,
    // since it is known where a link is followed and stored with a row, several calls below.
    pub fn follow(&mut self, block: u64, position: u64)
        ensures { Stepped self.old self.new (spec.following block position (holds self.old)) }
    {
        self.walk.from_block = block;
        self.walk.from_link = position;
    }

    // A link to a target, with the mark that stands there.
    pub fn make_link(&self, target: u64) -> Link
        ensures { link_of result ≡ kinds.make_link self.now.file.now target }
    {
        Link::new(self.file, target)
    }

    // The block's end has to lie below 2^64, and the tables need room for its row and its links.
    fn check_room(&self, offset: u64, size: u64, count: usize) -> Result<(), MdfError>
        ensures { told result ≡ room_for offset size count (holds self.now) }
    {
        if offset.checked_add(size).is_none() {
            return Err(MdfError::SumOverflow {
                place: offset,
                a: offset,
                b: size,
            });
        }
        let rows = self.blocks.len() / BLOCK_ROW_WORDS;
        if rows <= self.walk.blocks {
            return Err(MdfError::BlocksFull {
                place: offset,
                lent: rows as u64,
            });
        }
        let pairs = self.links.len() / PAIR_WORDS;
        if pairs - self.walk.links < count {
            return Err(MdfError::LinksFull {
                place: offset,
                lent: pairs as u64,
            });
        }
        Ok(())
    }

    // The row of a block with `count` links.
    fn row_of(&self, block: Block, count: usize) -> BlockInfo
        requires { block.offset + block.size < 2 ^ 64 }
        ensures { info_words result ≡ row_words [] (row_made block count (holds self.now)) }
    {
        let Walk {
            from_block,
            from_link,
            ..
        } = self.walk;
        BlockInfo {
            offset: block.offset,
            end_offset: block.offset + block.size,
            size: block.size,
            mark: block.mark,
            kind: block.kind,
            index: self.walk.index_of(block.kind),
            first_link: if count == 0 {
                0
            } else {
                self.walk.links as u64
            },
            link_count: count as u64,
            record_size: block.layout.record_size,
            invalidation_bytes: block.layout.invalidation_bytes,
            record_id_len: block.layout.record_id_len,
            from_block,
            from_link,
        }
    }

    // Pushes the row of a block with `count` links.
    fn push_row(&mut self, block: Block, count: usize)
        requires fits { block.offset + block.size < 2 ^ 64 }
        requires room { self.old.walk.blocks * block_row_words + block_row_words ≤ length self.old.blocks.now }
        ensures { Stepped self.old self.new (walk.push (kind_named block.kind) (row_made block count (holds self.old)) [] (holds self.old)) }
    {
        let row = self.row_of(block, count);
        let blocks = &mut *self.blocks;
        row.store(blocks, self.walk.blocks);
        self.walk = self.walk.with_row(block.kind);
    }

    // Pushes a link.
    fn push_link(&mut self, link: Link)
        requires { self.old.walk.links * pair_words + pair_words ≤ length self.old.links.now }
        ensures { Stepped self.old self.new (with_links (link_of link ∷ []) (holds self.old)) }
    {
        let at = self.walk.links * PAIR_WORDS;
        let links = &mut *self.links;
        links[at] = link.target;
        links[at + 1] = link.found;
        self.walk.links += 1;
    }

    // Lists a block whose content and name are accepted: its row, and a link to each of the `count` targets that `target` tells.
    pub fn list_links<F: Fn(usize) -> u64>(
        &mut self,
        block: Block,
        count: usize,
        target: F,
    ) -> Result<(), MdfError>
        requires { CallableBelow (F.pre target) count }
        ensures { (h : kinds.RecordLayout) (o ts : List ℕ) → Gives (F.post target) count ts → Tells h o block ts → Lists h o ts block self.old result self.new }
    {
        for i in 0..count {
            check_target(target(i))?;
        }
        self.check_room(block.offset, block.size, count)?;
        self.push_row(block, count);
        for i in 0..count {
            let link = self.make_link(target(i));
            self.push_link(link);
        }
        Ok(())
    }

    // The same of a block with its targets at hand.
    pub fn list_block(&mut self, block: Block, targets: &[u64]) -> Result<(), MdfError>
        ensures { (h : kinds.RecordLayout) (o : List ℕ) → Tells h o block targets.now → Lists h o targets.now block self.old result self.new }
    {
        self.list_links(block, targets.len(), |i| targets[i])
    }
}
