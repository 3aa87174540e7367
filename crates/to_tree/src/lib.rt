// The tree behind the walk: the Rust's to_tree and render_tree_node, into a lent output. A row's tree mark says that its block is
// already listed.
#![tactic(auto)]

ghost use Rattle.std.specs.Prelude.{List, [], ℕ, ◌*◌, ◌≤◌, length};
ghost use Rattle.mdf4.specs.Answers.{block_row_words};
ghost use Rattle.mdf4.specs.Layout.{Layout};
ghost use Rattle.mdf4.specs.Tree.{to_tree};
ghost use Rattle.tables.specs.Laid.{Printable};
ghost use Rattle.tables.specs.Rows.{table};
ghost use Rattle.to_tree.specs.Printing.{Holds, TreeMet};

use crate::printer::{MAX_LEVELS, Printer};
use blocks::error::MdfError;
use fmt::Page;
use tables::PAIR_WORDS;

pub mod line;
mod printer;
pub mod search;

// The tree of the first n rows of the block table, ordered by offset: how many bytes it has. The table comes as words, since rows are
// marked in it: of the slice of rows that `as_chunks_mut` makes nothing is known afterwards.
pub fn put_tree(
    file: &[u8],
    blocks: &mut [u64],
    n: usize,
    links: &[[u64; PAIR_WORDS]],
    out: &mut [u8],
) -> Result<usize, MdfError>
    requires { (n * block_row_words ≤ length blocks.old) × Printable file.now (table block_row_words (λ row. row) n blocks.old) links.now }
    ensures { (y : Layout) (z : List ℕ) → Holds n blocks.old links.now y z [] → TreeMet result out.old out.new blocks.new y.blocks z (to_tree file.now y) }
{
    let mut page = Page::new(out);
    let mut printer = Printer {
        file,
        links,
        n,
        blocks,
        bars: [false; MAX_LEVELS],
        page: &mut page,
    };
    printer.put_roots()?;
    Ok(page.at)
}
