// Channels: the Rust's `walk_channel`.
ghost use Rattle.std.specs.Prelude.{ℕ, ◌≤◌, length};
ghost use Rattle.mdf4.specs.Act as spec;
ghost use Rattle.mdf4.specs.Kinds.{no_records};
ghost use Rattle.mdf4.specs.Walk as walk;
ghost use Rattle.blocks.specs.ChannelBlock.{channel_block_of};
ghost use Rattle.walk_state.specs.Held.{Does, Walks};
ghost use Rattle.walker.specs.Chains.{entered, next_at};
ghost use Rattle.walker.specs.Channels.{channel_texts, channel_data, enter_channel};

use blocks::channel_block::ChannelBlock;
use blocks::common::BlockParse;
use blocks::error::MdfError;
use blocks::kind::Kind;
use channel_name::read_text_at;
use walk_blocks::regions::{MAX_LISTS, walk_data_region};
use walk_blocks::texts::{walk_channel_conversion, walk_source, walk_text_like};
use walk_state::{Block, RecordLayout, Walker};

// The channel type with data of its own: variable length signal data. No enum: a recording's types are shown as numbers,
// and no other one is told apart.
const VLSD: u8 = 1;

// Reads a channel, accepts its name and lists it.
fn open_channel(walker: &mut Walker<'_>, addr: u64) -> Result<ChannelBlock, MdfError>
    ensures { Does (λ x. x) walker.old result walker.new (entered spec.CN addr (no_records 0) channel_block_of) }
{
    let channel = ChannelBlock::parse(walker.file, addr)?;
    read_text_at(walker.file, channel.name_addr)?;
    let targets = [
        channel.next_ch_addr,
        channel.component_addr,
        channel.name_addr,
        channel.source_addr,
        channel.conversion_addr,
        channel.data_addr,
        channel.unit_addr,
        channel.comment_addr,
    ];
    let block = Block::plain(addr, channel.block_len, ChannelBlock::ID, Kind::CN);
    walker.list_block(block, &targets)?;
    Ok(channel)
}

// Walks a channel's name, source, conversion, unit and comment.
fn walk_channel_texts(
    walker: &mut Walker<'_>,
    addr: u64,
    channel: ChannelBlock,
) -> Result<(), MdfError>
    ensures { Walks walker.old result walker.new (channel_texts addr channel) }
{
    walker.follow(addr, 2);
    walk_text_like(walker, channel.name_addr)?;
    walker.follow(addr, 3);
    walk_source(walker, channel.source_addr)?;
    walk_channel_conversion(walker, addr, channel.conversion_addr)?;
    walker.follow(addr, 6);
    walk_text_like(walker, channel.unit_addr)?;
    walker.follow(addr, 7);
    walk_text_like(walker, channel.comment_addr)
}

// Walks a channel's own data, which none but one of variable length signal data has.
fn walk_channel_data(walker: &mut Walker<'_>, channel: ChannelBlock) -> Result<(), MdfError>
    ensures { Walks walker.old result walker.new (channel_data channel) }
{
    if channel.channel_type != VLSD {
        return Ok(());
    }
    let link = walker.make_link(channel.data_addr);
    walk_data_region(walker, link, RecordLayout::default(), MAX_LISTS)
}

// Opens a channel, then walks what it leads to.
fn enter_channel(walker: &mut Walker<'_>, addr: u64) -> Result<u64, MdfError>
    ensures { Does next_at walker.old result walker.new (enter_channel addr) }
{
    let channel = open_channel(walker, addr)?;
    walk_channel_texts(walker, addr, channel)?;
    walker.follow(addr, 5);
    walk_channel_data(walker, channel)?;
    walker.follow(addr, 0);
    Ok(channel.next_ch_addr)
}

// Walks a channel: its name, source, conversion, unit and comment, and its own data. Answers the address of the next one, 0 where
// the chain ends.
pub fn walk_channel(walker: &mut Walker<'_>, addr: u64) -> Result<u64, MdfError>
    ensures { Does next_at walker.old result walker.new (walk.walk_channel addr tt) }
{
    if !walker.mark(addr)? {
        return Ok(0);
    }
    enter_channel(walker, addr)
}

// Walks a chain of channels. Each one says where the next one stands, so no iterator of the library yields them.
pub fn walk_channels(walker: &mut Walker<'_>, first: u64) -> Result<(), MdfError>
    ensures { (fuel : ℕ) → length walker.old.visited.now ≤ fuel → Walks walker.old result walker.new (spec.chain fuel walk.walk_channel first tt) }
{
    let mut addr = first;
    while addr != 0 {
        addr = walk_channel(walker, addr)?;
    }
    Ok(())
}
