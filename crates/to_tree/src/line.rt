// A line of the tree.
ghost use Rattle.std.specs.Prelude.{cond, [], length};
ghost use Rattle.fmt.specs.Text.{ascii, Writes};
ghost use Rattle.mdf4.specs.Tree.{bar, connector, prefix_text, edge_text, node_line};
ghost use Rattle.mdf4.proofs.Good.{Readable};
ghost use Rattle.tables.specs.Rows.{row_of};
ghost use Rattle.to_tree.specs.Lines.{edge_of};

use blocks::kind::Kind;
use describe::links::put_link_name;
use describe::{put_description, put_mark};
use fmt::Page;
use tables::BlockInfo;

// The link that leads to a node: the kind of the block that has it, and its place there.
#[derive(Clone, Copy)]
pub struct Edge {
    pub kind: Kind,
    pub place: usize,
}

// Below a last sibling there is no line.
fn put_bar(page: &mut Page<'_>, last: bool)
    ensures { Writes page.old (bar last) page.new }
{
    if last {
        page.put_bytes(b"    ");
    } else {
        page.put_bytes(b"|   ");
    }
}

fn put_prefix(page: &mut Page<'_>, bars: &[bool])
    ensures { Writes page.old (prefix_text bars.now) page.new }
{
    for &last in bars {
        put_bar(page, last);
    }
}

fn put_connector(page: &mut Page<'_>, last: bool)
    ensures { Writes page.old (connector last) page.new }
{
    if last {
        page.put_bytes(b"`-- ");
    } else {
        page.put_bytes(b"|-- ");
    }
}

// How a node is reached: the last of the bars is its own. A root has no bar, and no link leads to it.
fn put_edge(page: &mut Page<'_>, bars: &[bool], edge: Option<Edge>)
    ensures { Writes page.old (edge_text (edge_of bars.now (length bars.now) edge)) page.new }
{
    let Some((&last, above)) = bars.split_last() else {
        return;
    };
    let Some(link) = edge else {
        return;
    };
    put_prefix(page, above);
    put_connector(page, last);
    page.put_bytes(b"(");
    put_link_name(page, link.kind, link.place);
    page.put_bytes(b") ");
}

fn put_already(page: &mut Page<'_>, already: bool)
    ensures { Writes page.old (cond already (ascii " (already listed)") []) page.new }
{
    if already {
        page.put_bytes(b" (already listed)");
    }
}

// The line of a block.
pub fn put_node_line(
    page: &mut Page<'_>,
    file: &[u8],
    block: &BlockInfo,
    bars: &[bool],
    edge: Option<Edge>,
    already: bool,
)
    requires { Readable file.now (row_of block.now) }
    ensures { Writes page.old (node_line file.now (edge_of bars.now (length bars.now) edge) (row_of block.now) already) page.new }
{
    put_edge(page, bars, edge);
    put_mark(page, block.mark);
    page.put_format(b" @ 0x$ [", &[block.offset]);
    put_description(page, file, block);
    page.put_bytes(b"]");
    put_already(page, already);
    page.put_bytes(b"\n");
}
