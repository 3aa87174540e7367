// What clear list, blanker and preview begin with: the layout of a finalised recording in the tables, and in the scratch table the rows
// that leave its clear ranges.
#![tactic(auto)]

ghost use Rattle.std.specs.Prelude.{ℕ, length};
ghost use Rattle.file_layout.specs.Tables.{lent_by, Keeps};
ghost use Rattle.clear_layout.specs.Clearable.{ClearableMet};

use blocks::error::MdfError;
use clear_ranges::sort_spared;
use file_layout::{LentTables, Rows};

// The rows in use of each table, those of the scratch table last: a number, since a slice that is handed back of a table lent to be
// changed takes clauses of the program logic's own.
#[derive(Clone, Copy, Debug, PartialEq, Eq)]
pub struct Clearable {
    pub rows: Rows,
    pub scratch: usize,
}

// A refusal leaves all tables free.
pub fn lay_clear(
    data: &[u8],
    tables: &mut LentTables<'_>,
    scratch: &mut [u64],
) -> Result<Clearable, MdfError>
    ensures cleared { (out : ℕ) → ClearableMet (lent_by tables.old (length scratch.old) out) «data».now result tables.new scratch.new }
    ensures keeps { Keeps tables.old tables.new }
{
    let rows = tables.lay_finalized(data)?;
    let blocks = tables.block_rows(rows);
    let links = tables.link_rows(rows);
    let spared = sort_spared(data, blocks, links, scratch)?;
    Ok(Clearable {
        rows,
        scratch: spared,
    })
}
