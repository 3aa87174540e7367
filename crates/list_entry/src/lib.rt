// The entry `clear_list`: the bytes of the clear list in the output.
#![tactic(auto)]

ghost use Rattle.std.specs.Prelude.{◌≡◌, length};
ghost use Rattle.mdf4.specs.Answers.{clear_list_exit};
ghost use Rattle.answers.specs.Entries.{left, Ends, Fits};
ghost use Rattle.file_layout.specs.Tables.{lent, lent_by, Keeps};

use answers::{Accepted, fit, settle};
use blocks::error::MdfError;
use clear_layout::lay_clear;
use clr::put_clr;
use file_layout::LentTables;
use tables::first_rows;

// The clear list. A refusal leaves the tables, the scratch table and the output free.
fn clear_bytes(
    data: &[u8],
    tables: &mut LentTables<'_>,
    scratch: &mut [u64],
    out: &mut [u8],
) -> Result<Accepted, MdfError>
    ensures exit { let n = lent_by tables.old (length scratch.old) (length out.old) in Ends n (clear_list_exit n «data».now) result tables.new out.new }
    ensures fits { Fits result (length out.old) }
    ensures keeps { Keeps tables.old tables.new }
{
    out.fill(0);
    let cleared = lay_clear(data, tables, scratch)?;
    let spared = first_rows(scratch, cleared.scratch);
    let bytes = put_clr(spared, data.len() as u64, out);
    fit(cleared.rows, bytes, out)
}

// The clear list: its bytes in the output. An unfinalised recording is refused (document 02, order 4). The scratch table ends zero.
pub fn clear_list(
    data: &[u8],
    visited: &mut [u64],
    blocks: &mut [u64],
    links: &mut [u64],
    gaps: &mut [u64],
    scratch: &mut [u64],
    out: &mut [u8],
) -> Result<Accepted, MdfError>
    ensures exit { left result visited.new blocks.new links.new gaps.new scratch.new out.new ≡ clear_list_exit (lent visited.old blocks.old links.old gaps.old (length scratch.old) (length out.old)) «data».now }
    ensures fits { Fits result (length out.old) }
{
    let mut tables = LentTables {
        visited,
        blocks,
        links,
        gaps,
    };
    let answer = clear_bytes(data, &mut tables, scratch, out);
    scratch.fill(0);
    settle(answer, &mut tables, out)
}
