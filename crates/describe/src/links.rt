// The names of links. All but a data list's data links have fixed ones.
ghost use Rattle.std.specs.Prelude.{◌≡◌, ◌-◌, ◌^◌, List, [], ℕ, map, min, get_or, length};
ghost use Rattle.std.specs.Borrow.{Bor};
ghost use Rattle.fmt.specs.Text.{Writes};
ghost use Rattle.fmt.specs.Digits.{pad_right};
ghost use Rattle.mdf4.specs.Kinds.{shape};
ghost use Rattle.mdf4.specs.Describe.{link_name};
ghost use Rattle.blocks.specs.Kind.{kind_named};

use blocks::kind::Kind;
use fmt::Page;

// Bytes that a name fills in a column.
const WIDTH: usize = 28;

// The fixed names of a kind's links.
fn fixed_names(kind: Kind) -> &'static [&'static str]
    ensures { map (λ (name : Bor (List ℕ)). name.now) result.now ≡ (shape (kind_named kind)).names }
{
    match kind {
        Kind::HD => &[
            "first_dg_addr",
            "file_history_addr",
            "channel_tree_addr",
            "first_attachment_addr",
            "first_event_addr",
            "comment_addr",
        ],
        Kind::DG => &[
            "next_dg_addr",
            "first_cg_addr",
            "data_block_addr",
            "comment_addr",
        ],
        Kind::CG => &[
            "next_cg_addr",
            "first_ch_addr",
            "acq_name_addr",
            "acq_source_addr",
            "first_sample_reduction_addr",
            "comment_addr",
            "master_cg_addr",
        ],
        Kind::CN => &[
            "next_ch_addr",
            "component_addr",
            "name_addr",
            "source_addr",
            "conversion_addr",
            "data",
            "unit_addr",
            "comment_addr",
        ],
        Kind::SI => &["name_addr", "path_addr", "comment_addr"],
        Kind::DL => &["next"],
        Kind::ID | Kind::TX | Kind::MD | Kind::DT | Kind::SD | Kind::UT | Kind::UD => &[],
    }
}

// The one at place i, or an empty one.
fn fixed_name(kind: Kind, i: usize) -> &'static str
    ensures { result.now ≡ get_or (shape (kind_named kind)).names i [] }
{
    fixed_names(kind).get(i).copied().unwrap_or("")
}

// The name of the link at place i of a block.
pub fn put_link_name(page: &mut Page<'_>, kind: Kind, i: usize)
    ensures { Writes page.old (link_name (kind_named kind) i) page.new }
{
    if kind == Kind::DL && 0 < i {
        page.put_format(b"data_links[%]", &[(i - 1) as u64]);
    } else {
        page.put_bytes(fixed_name(kind, i).as_bytes());
    }
}

// How many bytes that name has; at most 2^64 - 1.
fn link_name_len(kind: Kind, i: usize) -> usize
    ensures { result ≡ min (length (link_name (kind_named kind) i)) (2 ^ 64 - 1) }
{
    let mut none = [];
    let mut page = Page::new(&mut none);
    put_link_name(&mut page, kind, i);
    page.at
}

// The same, filled to 28 bytes.
pub fn put_link_name_left(page: &mut Page<'_>, kind: Kind, i: usize)
    ensures { Writes page.old (pad_right 28 32 (link_name (kind_named kind) i)) page.new }
{
    if kind == Kind::DL && 0 < i {
        put_link_name(page, kind, i);
        page.put_times(b' ', WIDTH.saturating_sub(link_name_len(kind, i)));
    } else {
        page.put_left(fixed_name(kind, i).as_bytes(), WIDTH);
    }
}
