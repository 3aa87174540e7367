// Data regions: the Rust's record_simple_data_block, record_signal_data_block, walk_data_region and walk_data_list.
ghost use Rattle.std.specs.Prelude.{◌≤◌, IfOk, IfSome};
ghost use Rattle.mdf4.specs.Kinds as kinds;
ghost use Rattle.mdf4.specs.Walk as walk;
ghost use Rattle.blocks.specs.Kind.{kind_named};
ghost use Rattle.walk_state.specs.Within.{layout_of, link_of};
ghost use Rattle.walk_state.specs.Held.{Does, Walks};
ghost use Rattle.walk_blocks.specs.Regions.{Data, list_header, links_at, listed, open_list, enter_list, data_list, Inside};

use blocks::common::BlockParse;
use blocks::data_block::DataBlock;
use blocks::data_list_block::DataListBlock;
use blocks::error::MdfError;
use blocks::kind::Kind;
use little_endian::read_u32;
use walk_state::{Block, Link, RecordLayout, Walker};

// How many lists may be entered and not left.
pub const MAX_LISTS: usize = 512;

// Reads a header and lists its block, which has no links.
fn list_header(
    walker: &mut Walker<'_>,
    kind: Kind,
    addr: u64,
    layout: RecordLayout,
) -> Result<(), MdfError>
    ensures { (h : kinds.RecordLayout) → Data h kind layout → Walks walker.old result walker.new (list_header (kind_named kind) addr h) }
{
    let header = DataBlock::parse(walker.file, addr)?;
    let block = Block {
        offset: addr,
        size: header.block_len,
        mark: u64::from(header.id),
        kind,
        layout,
    };
    walker.list_block(block, &[])
}

// Marks a data block as visited and lists it: a ##DT, ##DV, ##RD or ##RV, which holds records, or a ##SD, which holds none.
fn record_data_block(
    walker: &mut Walker<'_>,
    kind: Kind,
    addr: u64,
    layout: RecordLayout,
) -> Result<(), MdfError>
    ensures { (h : kinds.RecordLayout) → Data h kind layout → Walks walker.old result walker.new (walk.record_data_block (kind_named kind) addr h) }
{
    if !walker.mark(addr)? {
        return Ok(());
    }
    list_header(walker, kind, addr, layout)
}

// The same of a block of an unknown kind; with fewer than 24 bytes left it is not listed.
pub fn record_unknown_block(walker: &mut Walker<'_>, addr: u64) -> Result<(), MdfError>
    ensures { Walks walker.old result walker.new (walk.record_unknown_block addr) }
{
    if !walker.mark(addr)? {
        return Ok(());
    }
    let len = walker.file.len() as u64;
    if len < DataBlock::MIN_LEN || len - DataBlock::MIN_LEN < addr {
        return Ok(());
    }
    list_header(walker, Kind::UD, addr, RecordLayout::default())
}

// What a data link leads to where that is no data list, by the mark found.
pub fn walk_data_block(
    walker: &mut Walker<'_>,
    link: Link,
    layout: RecordLayout,
) -> Result<(), MdfError>
    ensures { Walks walker.old result walker.new (walk.walk_data_block (layout_of layout) (link_of link)) }
{
    if link.found == 0 {
        return Ok(());
    }
    if DataBlock::is_target(link.found) {
        return record_data_block(walker, Kind::DT, link.target, layout);
    }
    if DataBlock::is_signal_target(link.found) {
        return record_data_block(walker, Kind::SD, link.target, RecordLayout::default());
    }
    record_unknown_block(walker, link.target)
}

// Reads a data list and lists it: how many links it has.
fn open_list(walker: &mut Walker<'_>, addr: u64) -> Result<usize, MdfError>
    ensures opens { Does (λ n. links_at walker.old.file.now addr n) walker.old result walker.new (open_list addr) }
    ensures inside { IfOk result (λ n. Inside walker.old.file.now addr n) }
{
    let file = walker.file;
    let list = DataListBlock::parse(file, addr)?;
    let count = list.links_nr as usize;
    let block = Block::plain(
        addr,
        list.block_len,
        read_u32(file, addr as usize),
        Kind::DL,
    );
    walker.list_links(
        block,
        count,
        |i| DataListBlock::data_link(file, addr, i as u64),
    )?;
    Ok(count)
}

// All of a data list but what its links lead to: how many it has, or none where it was visited; `depth` lists may still be entered.
pub fn enter_list(
    walker: &mut Walker<'_>,
    addr: u64,
    depth: usize,
) -> Result<Option<usize>, MdfError>
    ensures opens { Does (λ n. listed walker.old.file.now addr n) walker.old result walker.new (enter_list depth addr) }
    ensures inside { IfOk result (λ o. IfSome o (λ n. Inside walker.old.file.now addr n)) }
    ensures deep { IfOk result (λ o. IfSome o (λ n. 1 ≤ depth)) }
{
    if walker.seen(addr) {
        return Ok(None);
    }
    if depth == 0 {
        return Err(MdfError::TooDeep {
            place: addr,
            limit: MAX_LISTS as u64,
        });
    }
    walker.visit(addr)?;
    let count = open_list(walker, addr)?;
    Ok(Some(count))
}

// What a data link leads to; `depth` lists may still be entered.
#[cycle(data_regions)]
pub fn walk_data_region(
    walker: &mut Walker<'_>,
    link: Link,
    layout: RecordLayout,
    depth: usize,
) -> Result<(), MdfError>
    ensures { Walks walker.old result walker.new (walk.walk_data_region depth (layout_of layout) (link_of link)) }
{
    if DataListBlock::is_target(link.found) {
        return walk_data_list(walker, link.target, layout, depth);
    }
    walk_data_block(walker, link, layout)
}

// A data list and what its links lead to: the data links first, then next.
#[cycle(data_regions)]
fn walk_data_list(
    walker: &mut Walker<'_>,
    addr: u64,
    layout: RecordLayout,
    depth: usize,
) -> Result<(), MdfError>
    ensures { Walks walker.old result walker.new (data_list depth (layout_of layout) addr) }
{
    let Some(count) = enter_list(walker, addr, depth)? else {
        return Ok(());
    };
    let left = depth - 1;
    for i in 1..count {
        let link = walker.make_link(DataListBlock::data_link(walker.file, addr, i as u64));
        walker.follow(addr, i as u64);
        walk_data_region(walker, link, layout, left)?;
    }
    let next = walker.make_link(DataListBlock::data_link(walker.file, addr, 0));
    walker.follow(addr, 0);
    walk_data_region(walker, next, layout, left)
}
