// The entry `blank`: the clear bytes of the recording become 0.
#![tactic(auto)]

ghost use Rattle.std.specs.Prelude.{◌≡◌, [], length};
ghost use Rattle.mdf4.specs.Answers.{blank_exit, blank_recording};
ghost use Rattle.answers.specs.Entries.{left, Ends};
ghost use Rattle.file_layout.specs.Tables.{lent, lent_by, Keeps};

use answers::{Accepted, settle};
use blanking::zero_ranges;
use blocks::error::MdfError;
use clear_layout::lay_clear;
use file_layout::LentTables;
use tables::first_rows;

// The blanker. A refusal leaves the tables and the scratch table free.
fn blank_ranges(
    data: &mut [u8],
    tables: &mut LentTables<'_>,
    scratch: &mut [u64],
) -> Result<Accepted, MdfError>
    ensures exit { let n = lent_by tables.old (length scratch.old) 0 in Ends n (blank_exit n «data».old) result tables.new [] }
    ensures recording { «data».new ≡ blank_recording (lent_by tables.old (length scratch.old) 0) «data».old }
    ensures keeps { Keeps tables.old tables.new }
{
    let cleared = lay_clear(data, tables, scratch)?;
    let spared = first_rows(scratch, cleared.scratch);
    zero_ranges(spared, data);
    Ok(Accepted {
        rows: cleared.rows,
        bytes: 0,
        total: 0,
    })
}

// The blanker (document 02, order 5): the clear bytes of the recording become 0, and no other byte is changed; where it refuses, none is.
// The scratch table ends zero.
pub fn blank(
    data: &mut [u8],
    visited: &mut [u64],
    blocks: &mut [u64],
    links: &mut [u64],
    gaps: &mut [u64],
    scratch: &mut [u64],
) -> Result<Accepted, MdfError>
    ensures exit { left result visited.new blocks.new links.new gaps.new scratch.new [] ≡ blank_exit (lent visited.old blocks.old links.old gaps.old (length scratch.old) 0) «data».old }
    ensures recording { «data».new ≡ blank_recording (lent visited.old blocks.old links.old gaps.old (length scratch.old) 0) «data».old }
{
    let mut tables = LentTables {
        visited,
        blocks,
        links,
        gaps,
    };
    let answer = blank_ranges(data, &mut tables, scratch);
    scratch.fill(0);
    settle(answer, &mut tables, &mut [])
}
