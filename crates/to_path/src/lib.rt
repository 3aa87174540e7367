// The path from the header to a block (document 02, order 3): along the links that the walk followed, as the rows of the block table
// tell them.
#![tactic(auto)]

ghost use Rattle.std.specs.Prelude.{◌≡◌, length, map};
ghost use Rattle.mdf4.specs.Layout.{Layout};
ghost use Rattle.mdf4.specs.Paths as spec;
ghost use Rattle.mdf4.proofs.Order.{Rising};
ghost use Rattle.tables.specs.Rows.{row_of_words};
ghost use Rattle.to_path.specs.Words.{last_words, Written};

use block_search::find_row;
use blocks::header_block::HeaderBlock;
use tables::{BLOCK_ROW_WORDS, BlockInfo};

// The block whose link led to the one at the offset, 0 where none is listed there.
fn from_block(rows: &[[u64; BLOCK_ROW_WORDS]], offset: u64) -> u64
    requires { Rising (map row_of_words rows.now) }
    ensures { result ≡ spec.from_block_at (map row_of_words rows.now) offset }
{
    let Some(i) = find_row(rows, offset) else {
        return 0;
    };
    BlockInfo::load(&rows[i]).from_block
}

// How many words the path to a listed block has: no path has more links than there are rows.
fn path_len(rows: &[[u64; BLOCK_ROW_WORDS]], offset: u64) -> usize
    requires { Rising (map row_of_words rows.now) }
    ensures { result ≡ length (spec.path_up (length rows.now) (map row_of_words rows.now) offset) }
{
    let mut at = offset;
    for links in 0..rows.len() {
        if at == HeaderBlock::OFFSET {
            return links + 1;
        }
        at = from_block(rows, at);
    }
    rows.len() + 1
}

// The path to a listed block in a table of as many words, the last word first.
fn fill_path(rows: &[[u64; BLOCK_ROW_WORDS]], offset: u64, path: &mut [u64])
    requires { Rising (map row_of_words rows.now) }
    ensures { path.new ≡ last_words (length path.old) (map row_of_words rows.now) offset }
{
    let mut at = offset;
    for i in (0..path.len()).rev() {
        path[i] = at;
        at = from_block(rows, at);
    }
}

// The path to the block at an offset: how many words it has. The table holds them where they fit, else it is left as it was. The
// identification has no path, and what is not listed has none.
pub fn put_path(rows: &[[u64; BLOCK_ROW_WORDS]], offset: u64, path: &mut [u64]) -> usize
    requires { Rising (map row_of_words rows.now) }
    ensures { (y : Layout) → y.blocks ≡ map row_of_words rows.now → Written (spec.path y offset) path.old path.new result }
{
    if offset == 0 || find_row(rows, offset).is_none() {
        return 0;
    }
    let count = path_len(rows, offset);
    if count <= path.len() {
        fill_path(rows, offset, &mut path[..count]);
    }
    count
}
