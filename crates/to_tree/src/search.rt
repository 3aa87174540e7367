// The block that a link leads to.
ghost use Rattle.std.specs.Prelude.{◌≤◌, length, map};
ghost use Rattle.tables.specs.Rows.{link_of_words};
ghost use Rattle.to_tree.specs.Search.{Leads, Next};

use block_search::find_row;
use tables::{BLOCK_ROW_WORDS, PAIR_WORDS};

// A link that leads to a listed block: its place among its block's links, and the row that it leads to.
#[derive(Clone, Copy)]
pub struct Child {
    pub place: usize,
    pub row: usize,
}

// The row that a link with the target leads to.
fn child_row(blocks: &[[u64; BLOCK_ROW_WORDS]], target: u64) -> Option<usize>
    ensures { Leads blocks.now target result }
{
    if target == 0 {
        return None;
    }
    find_row(blocks, target)
}

// The first of the links from place `from` on that leads to a listed block.
pub fn next_child(
    blocks: &[[u64; BLOCK_ROW_WORDS]],
    links: &[[u64; PAIR_WORDS]],
    from: usize,
) -> Option<Child>
    requires { from ≤ length links.now }
    ensures { Next blocks.now (map link_of_words links.now) from result }
{
    for place in from..links.len() {
        if let Some(row) = child_row(blocks, links[place][0]) {
            return Some(Child { place, row });
        }
    }
    None
}
