// The listing of a layout that stands in the tables: the Rust's `to_text`.
#![tactic(auto)]

ghost use Rattle.std.specs.Prelude.{[], ℕ, ◌<◌, length, map, get_or};
ghost use Rattle.fmt.specs.Text.{Wrote, Writes};
ghost use Rattle.mdf4.specs.Bytes.{concat_map};
ghost use Rattle.mdf4.specs.Layout.{Layout};
ghost use Rattle.mdf4.specs.Listing.{head_lines, row_lines, gap_lines, found_text, target_text, link_line, link_lines, block_links, to_text};
ghost use Rattle.mdf4.proofs.Good.{Readable};
ghost use Rattle.blocks.specs.Kind.{kind_named};
ghost use Rattle.tables.specs.Gaps.{range_of};
ghost use Rattle.tables.specs.Laid.{Shows, RowOk, Printable};
ghost use Rattle.tables.specs.Rows.{row_of, row_of_words, link_of_words};

use blocks::kind::Kind;
use describe::links::put_link_name_left;
use describe::{put_description, put_extra, put_mark, put_mark_column};
use fmt::Page;
use tables::{BLOCK_ROW_WORDS, BlockInfo, PAIR_WORDS};

fn put_head(page: &mut Page<'_>, len: u64, blocks: u64)
    ensures { Writes page.old (head_lines len blocks) page.new }
{
    page.put_format(
        b"MDF block layout (file size: % bytes / 0x*)\n\n",
        &[len, len],
    );
    page.put_format(b"Blocks (% total), sorted by offset:\n", &[blocks]);
    page.put_bytes(b"offset        end                 size  type    description\n");
    page.put_bytes(
        b"------------  ------------  ----------  ------  ------------------------------------------------------------\n",
    );
}

// The lines of a row.
fn put_row(page: &mut Page<'_>, file: &[u8], block: &BlockInfo)
    requires { Readable file.now (row_of block.now) }
    ensures { Writes page.old (row_lines file.now (row_of block.now)) page.new }
{
    page.put_format(
        b"0x$  0x$  !  ",
        &[block.offset, block.end_offset, block.size],
    );
    put_mark_column(page, block.mark);
    page.put_bytes(b"  ");
    put_description(page, file, block);
    page.put_bytes(b"\n");
    put_extra(page, file, block);
}

fn put_rows(page: &mut Page<'_>, file: &[u8], blocks: &[[u64; BLOCK_ROW_WORDS]])
    requires { (i : ℕ) → i < length blocks.now → Readable file.now (row_of_words (get_or blocks.now i [])) }
    ensures { Writes page.old (concat_map (row_lines file.now) (map row_of_words blocks.now)) page.new }
{
    for row in blocks {
        put_row(page, file, &BlockInfo::load(row));
    }
}

// The gaps, under their heading.
fn put_gaps(page: &mut Page<'_>, gaps: &[[u64; PAIR_WORDS]])
    ensures { Writes page.old (gap_lines (map range_of gaps.now)) page.new }
{
    if gaps.is_empty() {
        return;
    }
    page.put_bytes(b"\nUnreferenced byte ranges (gaps):\n");
    for &[start, end] in gaps {
        page.put_format(
            b"  0x$ .. 0x$  (% bytes)\n",
            &[start, end, end.saturating_sub(start)],
        );
    }
}

// The mark found at a link's target: `found` is 0, or 1 + the mark.
fn put_found(page: &mut Page<'_>, found: u64)
    ensures { (t : ℕ) → Writes page.old (found_text (record { target = t; found = found })) page.new }
{
    match found.checked_sub(1) {
        Some(mark) => put_mark(page, mark),
        None => page.put_bytes(b"?"),
    }
}

fn put_target(page: &mut Page<'_>, target: u64, found: u64)
    ensures { Writes page.old (target_text (record { target = target; found = found })) page.new }
{
    if target == 0 {
        page.put_bytes(b"(null)");
        return;
    }
    page.put_format(b"0x$ (", &[target]);
    put_found(page, found);
    page.put_bytes(b")");
}

// The link at place i of a block of the kind.
fn put_link(page: &mut Page<'_>, kind: Kind, i: usize, target: u64, found: u64)
    ensures { Writes page.old (link_line (kind_named kind) i (record { target = target; found = found })) page.new }
{
    page.put_bytes(b"    ");
    put_link_name_left(page, kind, i);
    page.put_bytes(b" -> ");
    put_target(page, target, found);
    page.put_bytes(b"\n");
}

// The links of a block of the kind.
fn put_links(page: &mut Page<'_>, kind: Kind, links: &[[u64; PAIR_WORDS]])
    ensures { Writes page.old (link_lines (kind_named kind) 0 (map link_of_words links.now)) page.new }
{
    for (i, &[target, found]) in links.iter().enumerate() {
        put_link(page, kind, i, target, found);
    }
}

// The links of a row, of all links; nothing where it has none.
fn put_block_links(page: &mut Page<'_>, file: &[u8], block: &BlockInfo, links: &[[u64; PAIR_WORDS]])
    requires { RowOk file.now (length links.now) (row_of block.now) }
    ensures { Writes page.old (block_links file.now (map link_of_words links.now) (row_of block.now)) page.new }
{
    let first = block.first_link as usize;
    let count = block.link_count as usize;
    if count == 0 {
        return;
    }
    page.put_bytes(b"  ");
    put_mark(page, block.mark);
    page.put_format(b" @ 0x$ (", &[block.offset]);
    put_description(page, file, block);
    page.put_bytes(b")\n");
    put_links(page, block.kind, &links[first..first + count]);
}

fn put_all_links(
    page: &mut Page<'_>,
    file: &[u8],
    blocks: &[[u64; BLOCK_ROW_WORDS]],
    links: &[[u64; PAIR_WORDS]],
)
    requires { Printable file.now blocks.now links.now }
    ensures { Writes page.old (concat_map (block_links file.now (map link_of_words links.now)) (map row_of_words blocks.now)) page.new }
{
    for row in blocks {
        put_block_links(page, file, &BlockInfo::load(row), links);
    }
}

// The whole listing of the blocks, links and gaps. That the rows can be read again is asked here, of their links and of the clear ranges: a
// struct of recording and rows would be made for each call.
pub fn put_text(
    out: &mut [u8],
    file: &[u8],
    blocks: &[[u64; BLOCK_ROW_WORDS]],
    links: &[[u64; PAIR_WORDS]],
    gaps: &[[u64; PAIR_WORDS]],
) -> usize
    requires { Printable file.now blocks.now links.now }
    ensures { (y : Layout) → Shows y blocks.now links.now gaps.now → Wrote out.old 0 (to_text file.now y) out.new result }
{
    let mut page = Page::new(out);
    put_head(&mut page, file.len() as u64, blocks.len() as u64);
    put_rows(&mut page, file, blocks);
    put_gaps(&mut page, gaps);
    page.put_bytes(b"\nBlock links:\n");
    put_all_links(&mut page, file, blocks, links);
    page.at
}
