// The entry `preview`: how many bytes of each clear range the blanker would change.
#![tactic(auto)]

ghost use Rattle.std.specs.Prelude.{◌≡◌, length, replicate, OnErr};
ghost use Rattle.mdf4.specs.Answers.{preview_exit};
ghost use Rattle.answers.specs.Entries.{left, Ends, Fits};
ghost use Rattle.file_layout.specs.Tables.{lent, lent_by, Keeps};

use answers::{Accepted, settle};
use blanking::put_counts;
use blocks::error::MdfError;
use clear_layout::lay_clear;
use clear_ranges::count_ranges;
use file_layout::LentTables;
use tables::first_rows;

// The preview. A refusal leaves the counts zero, and the tables and the scratch table free.
fn preview_counts(
    data: &[u8],
    tables: &mut LentTables<'_>,
    scratch: &mut [u64],
    counts: &mut [u64],
) -> Result<Accepted, MdfError>
    ensures exit { let n = lent_by tables.old (length scratch.old) (length counts.old) in Ends n (preview_exit n «data».now) result tables.new counts.new }
    ensures refused { OnErr result (counts.new ≡ replicate (length counts.old) 0) }
    ensures fits { Fits result (length counts.old) }
    ensures keeps { Keeps tables.old tables.new }
{
    counts.fill(0);
    let cleared = lay_clear(data, tables, scratch)?;
    let spared = first_rows(scratch, cleared.scratch);
    let needed = count_ranges(spared, data.len() as u64);
    let lent = counts.len();
    if lent < needed {
        return Err(MdfError::TableTooShort {
            lent: lent as u64,
            needed: needed as u64,
        });
    }
    let total = put_counts(data, spared, counts);
    Ok(Accepted {
        rows: cleared.rows,
        bytes: needed,
        total,
    })
}

// The preview (document 02, order 5): for each clear range, in order, how many of its bytes the blanker would change, and in total. The
// scratch table ends zero.
pub fn preview(
    data: &[u8],
    visited: &mut [u64],
    blocks: &mut [u64],
    links: &mut [u64],
    gaps: &mut [u64],
    scratch: &mut [u64],
    counts: &mut [u64],
) -> Result<Accepted, MdfError>
    ensures exit { left result visited.new blocks.new links.new gaps.new scratch.new counts.new ≡ preview_exit (lent visited.old blocks.old links.old gaps.old (length scratch.old) (length counts.old)) «data».now }
    ensures fits { Fits result (length counts.old) }
{
    let mut tables = LentTables {
        visited,
        blocks,
        links,
        gaps,
    };
    let answer = preview_counts(data, &mut tables, scratch, counts);
    scratch.fill(0);
    settle(answer, &mut tables, &mut [])
}
