// The CLR bytes of the ranges that rows of starts and ends leave.
#![tactic(auto)]

ghost use Rattle.std.specs.Prelude.{map};
ghost use Rattle.fmt.specs.Text.{Wrote, Writes};
ghost use Rattle.mdf4.specs.Bytes.{concat_map};
ghost use Rattle.mdf4.specs.Layout.{compute_gaps};
ghost use Rattle.mdf4.specs.Clear.{range_bytes, clr_bytes};
ghost use Rattle.tables.specs.Gaps.{range_of};

use clear_ranges::count_ranges;
use fmt::Page;
use tables::{Gaps, PAIR_WORDS};

// The mark at the head of a clear list.
pub const CLEAR_LIST_MARK: [u8; 3] = *b"CLR";

// The version of the format.
const VERSION: u16 = 1;

// The starts and ends of the ranges that the rows leave.
fn put_ranges(page: &mut Page<'_>, rows: &[[u64; PAIR_WORDS]], len: u64)
    ensures { Writes page.old (concat_map range_bytes (compute_gaps len 0 (map range_of rows.now))) page.new }
{
    for range in Gaps::new(rows, len) {
        page.put_bytes(&range.start.to_le_bytes());
        page.put_bytes(&range.end.to_le_bytes());
    }
}

// The CLR bytes of a file of len bytes in which the ranges of the rows, by start, are taken up.
pub fn put_clr(rows: &[[u64; PAIR_WORDS]], len: u64, out: &mut [u8]) -> usize
    ensures { Wrote out.old 0 (clr_bytes len (compute_gaps len 0 (map range_of rows.now))) out.new result }
{
    let count = count_ranges(rows, len) as u64;
    let mut page = Page::new(out);
    page.put_bytes(&CLEAR_LIST_MARK);
    page.put_bytes(&VERSION.to_le_bytes());
    page.put_times(0, 3);
    page.put_bytes(&len.to_le_bytes());
    page.put_bytes(&count.to_le_bytes());
    put_ranges(&mut page, rows, len);
    page.at
}
