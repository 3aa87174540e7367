// A binary search in the ordered block table.
#![tactic(auto)]

ghost use Rattle.block_search.specs.Search.{Found};

use tables::BLOCK_ROW_WORDS;

// The row with the offset.
pub fn find_row(blocks: &[[u64; BLOCK_ROW_WORDS]], offset: u64) -> Option<usize>
    ensures { Found blocks.now offset result }
{
    blocks.binary_search_by_key(&offset, |row| row[0]).ok()
}
