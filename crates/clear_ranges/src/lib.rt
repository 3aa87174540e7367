// The clear ranges of an accepted recording: the scratch table takes a row for each range that is not clear, by start. What these rows
// leave is clear; clear list, blanker and preview go over it by `tables::Gaps`, one sweep for all.
#![tactic(auto)]

ghost use Rattle.std.specs.Prelude.{◌≡◌, length, map};
ghost use Rattle.mdf4.specs.Layout.{compute_gaps, Layout, layout_of};
ghost use Rattle.mdf4.proofs.Good.{Inv};
ghost use Rattle.tables.specs.Laid.{Printable};
ghost use Rattle.tables.specs.Gaps.{range_of};
ghost use Rattle.tables.specs.Rows.{row_of_words, link_of_words};
ghost use Rattle.clear_ranges.specs.Spared.{SparedMet};
ghost use Rattle.clear_ranges.specs.Sweep.{NextMet};

use blocks::error::MdfError;
use scratch_rows::put_spared;
use tables::{BLOCK_ROW_WORDS, Gaps, PAIR_WORDS, sort_rows};

// The ranges that are not clear, of an accepted recording with these rows of blocks and links: rows of the scratch table, by start, and
// how many. What stands in it behind a refusal is left free.
pub fn sort_spared(
    file: &[u8],
    blocks: &[[u64; BLOCK_ROW_WORDS]],
    links: &[[u64; PAIR_WORDS]],
    scratch: &mut [u64],
) -> Result<usize, MdfError>
    requires { Printable file.now blocks.now links.now }
    ensures { (y : Layout) → y.blocks ≡ map row_of_words blocks.now → y.state.links ≡ map link_of_words links.now → Inv file.now y.state → y ≡ layout_of file.now y.state → SparedMet result file.now y (length scratch.old) scratch.new }
{
    let lent = scratch.len() / PAIR_WORDS;
    let count = put_spared(file, blocks, links, scratch);
    if lent < count {
        return Err(MdfError::TableTooShort {
            lent: lent as u64,
            needed: count as u64,
        });
    }
    sort_rows::<PAIR_WORDS>(scratch, count);
    Ok(count)
}

// A range that rows leave, and where the sweep over them goes on behind it.
#[derive(Clone, Copy, Debug, PartialEq, Eq)]
pub struct Found {
    pub start: u64,
    pub end: u64,
    pub row: usize,
    pub cursor: u64,
}

// The sweep from any place: the next range that the rows, by start, leave in a file of len bytes, from that row and the cursor on.
pub fn next_range(rows: &[[u64; PAIR_WORDS]], len: u64, row: usize, cursor: u64) -> Option<Found>
    ensures { NextMet result len rows.now row cursor }
{
    let from = row.min(rows.len());
    let mut gaps = Gaps::starting(&rows[from..], cursor, len);
    let range = gaps.next_gap()?;
    Some(Found {
        start: range.start,
        end: range.end,
        row: rows.len() - gaps.rows.len(),
        cursor: gaps.cursor,
    })
}

// How many ranges the rows leave in a file of len bytes.
pub fn count_ranges(rows: &[[u64; PAIR_WORDS]], len: u64) -> usize
    ensures { result ≡ length (compute_gaps len 0 (map range_of rows.now)) }
{
    Gaps::new(rows, len).count()
}
