// The entries of the block layout: each takes the recording and the lent tables, walks by itself, and answers the rows and bytes in
// use or a refusal. The path, and those that go over the clear ranges, stand in crates of their own and are passed on.
#![tactic(auto)]

ghost use Rattle.std.specs.Prelude.{◌≡◌, [], length};
ghost use Rattle.mdf4.specs.Answers.{layout_exit, to_text_exit, to_tree_exit};
ghost use Rattle.answers.specs.Entries.{left, Ends, Fits};
ghost use Rattle.file_layout.specs.Tables.{lent, lent_by, Keeps};

pub use answers::Accepted;
use answers::{fit, settle};
pub use blank_entry::blank;
use blocks::error::MdfError;
use file_layout::LentTables;
pub use file_layout::Rows;
pub use list_entry::clear_list;
pub use path_entry::path;
pub use preview_entry::preview;
use tables::first_rows;
use to_text::put_text;
use to_tree::put_tree;

// The layout. A refusal leaves the tables free.
fn lay_out(data: &[u8], tables: &mut LentTables<'_>) -> Result<Accepted, MdfError>
    ensures exit { let n = lent_by tables.old 0 0 in Ends n (layout_exit n «data».now) result tables.new [] }
    ensures keeps { Keeps tables.old tables.new }
{
    let rows = tables.lay(data)?;
    Ok(Accepted {
        rows,
        bytes: 0,
        total: 0,
    })
}

// The layout: its rows, links and gaps in the four tables.
pub fn layout(
    data: &[u8],
    visited: &mut [u64],
    blocks: &mut [u64],
    links: &mut [u64],
    gaps: &mut [u64],
) -> Result<Accepted, MdfError>
    ensures { left result visited.new blocks.new links.new gaps.new [] [] ≡ layout_exit (lent visited.old blocks.old links.old gaps.old 0 0) «data».now }
{
    let mut tables = LentTables {
        visited,
        blocks,
        links,
        gaps,
    };
    let answer = lay_out(data, &mut tables);
    settle(answer, &mut tables, &mut [])
}

// The listing. A refusal leaves the tables and the output free.
fn list(data: &[u8], tables: &mut LentTables<'_>, out: &mut [u8]) -> Result<Accepted, MdfError>
    ensures exit { let n = lent_by tables.old 0 (length out.old) in Ends n (to_text_exit n «data».now) result tables.new out.new }
    ensures fits { Fits result (length out.old) }
    ensures keeps { Keeps tables.old tables.new }
{
    out.fill(0);
    let rows = tables.lay(data)?;
    let blocks = tables.block_rows(rows);
    let links = tables.link_rows(rows);
    let gaps = tables.gap_rows(rows);
    let bytes = put_text(out, data, blocks, links, gaps);
    fit(rows, bytes, out)
}

// The listing: its text in the output.
pub fn to_text(
    data: &[u8],
    visited: &mut [u64],
    blocks: &mut [u64],
    links: &mut [u64],
    gaps: &mut [u64],
    out: &mut [u8],
) -> Result<Accepted, MdfError>
    ensures exit { left result visited.new blocks.new links.new gaps.new [] out.new ≡ to_text_exit (lent visited.old blocks.old links.old gaps.old 0 (length out.old)) «data».now }
    ensures fits { Fits result (length out.old) }
{
    let mut tables = LentTables {
        visited,
        blocks,
        links,
        gaps,
    };
    let answer = list(data, &mut tables, out);
    settle(answer, &mut tables, out)
}

// The tree. A refusal leaves the tables and the output free.
fn draw(data: &[u8], tables: &mut LentTables<'_>, out: &mut [u8]) -> Result<Accepted, MdfError>
    ensures exit { let n = lent_by tables.old 0 (length out.old) in Ends n (to_tree_exit n «data».now) result tables.new out.new }
    ensures fits { Fits result (length out.old) }
    ensures keeps { Keeps tables.old tables.new }
{
    out.fill(0);
    let rows = tables.lay(data)?;
    // Rows of blocks are marked while the links are read: the two are lent apart.
    let blocks = &mut *tables.blocks;
    let links = &mut *tables.links;
    let links = first_rows(links, rows.links);
    let bytes = put_tree(data, blocks, rows.blocks, links, out)?;
    fit(rows, bytes, out)
}

// The tree: its text in the output, and a mark in each block row that was printed.
pub fn to_tree(
    data: &[u8],
    visited: &mut [u64],
    blocks: &mut [u64],
    links: &mut [u64],
    gaps: &mut [u64],
    out: &mut [u8],
) -> Result<Accepted, MdfError>
    ensures exit { left result visited.new blocks.new links.new gaps.new [] out.new ≡ to_tree_exit (lent visited.old blocks.old links.old gaps.old 0 (length out.old)) «data».now }
    ensures fits { Fits result (length out.old) }
{
    let mut tables = LentTables {
        visited,
        blocks,
        links,
        gaps,
    };
    let answer = draw(data, &mut tables, out);
    settle(answer, &mut tables, out)
}
