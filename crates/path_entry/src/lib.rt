// The entry `path`: from the header to a listed block, along the links that the walk followed.
#![tactic(auto)]

ghost use Rattle.std.specs.Prelude.{◌≡◌, [], length, replicate, OnErr};
ghost use Rattle.mdf4.specs.Answers.{path_exit};
ghost use Rattle.answers.specs.Entries.{left, Ends, Fits};
ghost use Rattle.file_layout.specs.Tables.{lent, lent_by, Keeps};

use answers::{Accepted, settle};
use blocks::error::MdfError;
use file_layout::LentTables;
use to_path::put_path;

// The path. A refusal leaves its table zero, and the others free.
fn trace(
    data: &[u8],
    tables: &mut LentTables<'_>,
    path: &mut [u64],
    offset: u64,
) -> Result<Accepted, MdfError>
    ensures exit { let n = lent_by tables.old 0 (length path.old) in Ends n (path_exit offset n «data».now) result tables.new path.new }
    ensures refused { OnErr result (path.new ≡ replicate (length path.old) 0) }
    ensures fits { Fits result (length path.old) }
    ensures keeps { Keeps tables.old tables.new }
{
    path.fill(0);
    let rows = tables.lay(data)?;
    let needed = put_path(tables.block_rows(rows), offset, path);
    let lent = path.len();
    if lent < needed {
        return Err(MdfError::TableTooShort {
            lent: lent as u64,
            needed: needed as u64,
        });
    }
    Ok(Accepted {
        rows,
        bytes: needed,
        total: 0,
    })
}

// The path (document 02, order 3): the offsets from the header to the block at `offset`, both included; none for the identification
// and for an offset at which no block is listed.
pub fn path(
    data: &[u8],
    visited: &mut [u64],
    blocks: &mut [u64],
    links: &mut [u64],
    gaps: &mut [u64],
    path: &mut [u64],
    offset: u64,
) -> Result<Accepted, MdfError>
    ensures exit { left result visited.new blocks.new links.new gaps.new [] path.new ≡ path_exit offset (lent visited.old blocks.old links.old gaps.old 0 (length path.old)) «data».now }
    ensures fits { Fits result (length path.old) }
{
    let mut tables = LentTables {
        visited,
        blocks,
        links,
        gaps,
    };
    let answer = trace(data, &mut tables, path, offset);
    settle(answer, &mut tables, &mut [])
}
