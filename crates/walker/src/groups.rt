// Chains of channel groups: the Rust's `walk_channel_group`.
ghost use Rattle.std.specs.Prelude.{◌≡◌, false, ℕ, ◌+◌, ◌≤◌, length};
ghost use Rattle.mdf4.specs.Act as spec;
ghost use Rattle.mdf4.specs.Kinds.{no_records};
ghost use Rattle.mdf4.specs.Walk as walk;
ghost use Rattle.blocks.specs.ChannelGroupBlock.{channel_group_block_of};
ghost use Rattle.walk_state.specs.Held.{Does};
ghost use Rattle.walk_state.specs.Within.{layout_of};
ghost use Rattle.walker.specs.Chains.{entered};
ghost use Rattle.walker.specs.Groups.{group_records, grouped_at, enter_channel_group, handed};

use crate::channels::walk_channels;
use blocks::channel_group_block::ChannelGroupBlock;
use blocks::common::BlockParse;
use blocks::error::MdfError;
use blocks::kind::Kind;
use walk_blocks::texts::{walk_source, walk_text_like};
use walk_state::{Block, RecordLayout, Walker};

// A channel group that was walked: the address of the next one, 0 where the chain ends, and its record layout.
#[derive(Clone, Copy, Debug, PartialEq, Eq)]
pub struct Grouped {
    pub next: u64,
    pub layout: RecordLayout,
}

// The layout where no records are known.
fn no_layout(record_id_len: u8) -> RecordLayout
    ensures { layout_of result ≡ no_records record_id_len }
{
    RecordLayout {
        record_id_len: u64::from(record_id_len),
        ..RecordLayout::default()
    }
}

// The record layout of a channel group: a record has its id, its samples and its invalidation bytes.
fn group_layout(record_id_len: u8, group: ChannelGroupBlock) -> RecordLayout
    ensures { layout_of result ≡ group_records record_id_len group }
{
    let id_len = u64::from(record_id_len);
    let invalidation_bytes = u64::from(group.invalidation_bytes_nr);
    RecordLayout {
        record_size: id_len + u64::from(group.samples_byte_nr) + invalidation_bytes,
        invalidation_bytes,
        record_id_len: id_len,
    }
}

// Reads a channel group and lists it: the seventh of its links is shown where it has seven.
fn open_channel_group(
    walker: &mut Walker<'_>,
    addr: u64,
    record_id_len: u8,
) -> Result<ChannelGroupBlock, MdfError>
    ensures { Does (λ x. x) walker.old result walker.new (entered spec.CG addr (no_records record_id_len) channel_group_block_of) }
{
    let group = ChannelGroupBlock::parse(walker.file, addr)?;
    let targets = [
        group.next_cg_addr,
        group.first_ch_addr,
        group.acq_name_addr,
        group.acq_source_addr,
        group.first_sample_reduction_addr,
        group.comment_addr,
        group.master_cg_addr,
    ];
    let shown = if group.links_nr < 7 { 6 } else { 7 };
    let block = Block {
        offset: addr,
        size: group.block_len,
        mark: u64::from(ChannelGroupBlock::ID),
        kind: Kind::CG,
        layout: group_layout(record_id_len, group),
    };
    walker.list_block(block, &targets[..shown])?;
    Ok(group)
}

// Opens a channel group, then walks its acquisition name, source and comment and its channels.
fn enter_channel_group(
    walker: &mut Walker<'_>,
    addr: u64,
    record_id_len: u8,
) -> Result<Grouped, MdfError>
    ensures { (fuel : ℕ) (got : walk.Handed) → length walker.old.visited.now ≤ fuel → Does (grouped_at got) walker.old result walker.new (enter_channel_group fuel record_id_len addr got) }
{
    let group = open_channel_group(walker, addr, record_id_len)?;
    walker.follow(addr, 2);
    walk_text_like(walker, group.acq_name_addr)?;
    walker.follow(addr, 3);
    walk_source(walker, group.acq_source_addr)?;
    walker.follow(addr, 5);
    walk_text_like(walker, group.comment_addr)?;
    walker.follow(addr, 1);
    walk_channels(walker, group.first_ch_addr)?;
    walker.follow(addr, 0);
    Ok(Grouped {
        next: group.next_cg_addr,
        layout: group_layout(record_id_len, group),
    })
}

// Walks a channel group: its acquisition name, source and comment, then its channels. `record_id_len` is its data group's.
pub fn walk_channel_group(
    walker: &mut Walker<'_>,
    addr: u64,
    record_id_len: u8,
) -> Result<Grouped, MdfError>
    ensures { (fuel : ℕ) (got : walk.Handed) → length walker.old.visited.now ≤ fuel → Does (grouped_at got) walker.old result walker.new (walk.walk_channel_group fuel record_id_len addr got) }
{
    if !walker.mark(addr)? {
        return Ok(Grouped {
            next: 0,
            layout: no_layout(record_id_len),
        });
    }
    enter_channel_group(walker, addr, record_id_len)
}

// Walks a chain of channel groups: the first one's record layout is handed down. Here too each one says where the next one
// stands; it stays beside the other two chains, as data_groups.rt says.
pub fn walk_channel_groups(
    walker: &mut Walker<'_>,
    first: u64,
    record_id_len: u8,
) -> Result<RecordLayout, MdfError>
    ensures { (fuel : ℕ) → length walker.old.visited.now ≤ fuel → Does layout_of walker.old result walker.new (handed (spec.chain fuel (walk.walk_channel_group fuel record_id_len) first (false, no_records record_id_len))) }
{
    let mut addr = first;
    let mut layout = None;
    while addr != 0 {
        let group = walk_channel_group(walker, addr, record_id_len)?;
        addr = group.next;
        layout = layout.or(Some(group.layout));
    }
    Ok(layout.unwrap_or(no_layout(record_id_len)))
}
