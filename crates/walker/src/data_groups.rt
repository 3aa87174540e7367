// Data groups: the Rust's `walk_data_group`.
ghost use Rattle.std.specs.Prelude.{ℕ, ◌≤◌, length};
ghost use Rattle.mdf4.specs.Act as spec;
ghost use Rattle.mdf4.specs.Kinds.{no_records};
ghost use Rattle.mdf4.specs.Walk as walk;
ghost use Rattle.blocks.specs.DataGroupBlock.{data_group_block_of};
ghost use Rattle.walk_state.specs.Held.{Does, Walks};
ghost use Rattle.walker.specs.Chains.{entered, next_at};
ghost use Rattle.walker.specs.DataGroups.{enter_data_group};

use crate::groups::walk_channel_groups;
use blocks::common::BlockParse;
use blocks::data_group_block::DataGroupBlock;
use blocks::error::MdfError;
use blocks::kind::Kind;
use walk_blocks::regions::{MAX_LISTS, walk_data_region};
use walk_blocks::texts::walk_text_like;
use walk_state::{Block, Walker};

// Reads a data group and lists it.
fn open_data_group(walker: &mut Walker<'_>, addr: u64) -> Result<DataGroupBlock, MdfError>
    ensures { Does (λ x. x) walker.old result walker.new (entered spec.DG addr (no_records 0) data_group_block_of) }
{
    let group = DataGroupBlock::parse(walker.file, addr)?;
    let targets = [
        group.next_dg_addr,
        group.first_cg_addr,
        group.data_block_addr,
        group.comment_addr,
    ];
    let block = Block::plain(addr, group.block_len, DataGroupBlock::ID, Kind::DG);
    walker.list_block(block, &targets)?;
    Ok(group)
}

// Opens a data group, then walks its comment, its channel groups and its data.
fn enter_data_group(walker: &mut Walker<'_>, addr: u64) -> Result<u64, MdfError>
    ensures { (fuel : ℕ) → length walker.old.visited.now ≤ fuel → Does next_at walker.old result walker.new (enter_data_group fuel addr) }
{
    let group = open_data_group(walker, addr)?;
    walker.follow(addr, 3);
    walk_text_like(walker, group.comment_addr)?;
    walker.follow(addr, 1);
    let layout = walk_channel_groups(walker, group.first_cg_addr, group.record_id_len)?;
    let link = walker.make_link(group.data_block_addr);
    walker.follow(addr, 2);
    walk_data_region(walker, link, layout, MAX_LISTS)?;
    walker.follow(addr, 0);
    Ok(group.next_dg_addr)
}

// Walks a data group: its comment, its channel groups, then its data. Answers the address of the next one, 0 where the chain ends.
pub fn walk_data_group(walker: &mut Walker<'_>, addr: u64) -> Result<u64, MdfError>
    ensures { (fuel : ℕ) → length walker.old.visited.now ≤ fuel → Does next_at walker.old result walker.new (walk.walk_data_group fuel addr tt) }
{
    if !walker.mark(addr)? {
        return Ok(0);
    }
    enter_data_group(walker, addr)
}

// Walks the chain of data groups. Its loop and that over channels stay two: one function for both would take the step as a closure over
// the walker, and be no shorter than the four lines.
pub fn walk_data_groups(walker: &mut Walker<'_>, first: u64) -> Result<(), MdfError>
    ensures { (fuel : ℕ) → length walker.old.visited.now ≤ fuel → Walks walker.old result walker.new (spec.chain fuel (walk.walk_data_group fuel) first tt) }
{
    let mut addr = first;
    while addr != 0 {
        addr = walk_data_group(walker, addr)?;
    }
    Ok(())
}
