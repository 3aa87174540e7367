// The identification, the header and the whole walk: the Rust's `walk` and `walk_header`.
ghost use Rattle.std.specs.Prelude.{ℕ, ◌≤◌, length};
ghost use Rattle.mdf4.specs.Act as spec;
ghost use Rattle.mdf4.specs.Kinds.{no_records};
ghost use Rattle.mdf4.specs.Walk as defn;
ghost use Rattle.blocks.specs.HeaderBlock.{header_block_of};
ghost use Rattle.walk_state.specs.Held.{Does, Walks};
ghost use Rattle.walker.specs.Chains.{entered};
ghost use Rattle.walker.specs.Header.{enter_header, enter_identification};

use crate::data_groups::walk_data_groups;
use blocks::common::BlockParse;
use blocks::error::MdfError;
use blocks::header_block::HeaderBlock;
use blocks::identification_block::IdentificationBlock;
use blocks::kind::Kind;
use walk_blocks::texts::walk_text_like;
use walk_state::{Block, Walker};

// Reads and lists the identification.
fn enter_identification(walker: &mut Walker<'_>) -> Result<(), MdfError>
    ensures { Walks walker.old result walker.new enter_identification }
{
    IdentificationBlock::parse(walker.file)?;
    let block = Block::plain(
        0,
        IdentificationBlock::MIN_LEN,
        IdentificationBlock::ID,
        Kind::ID,
    );
    walker.list_block(block, &[])
}

// Walks the identification, which stands at 0.
pub fn walk_identification(walker: &mut Walker<'_>) -> Result<(), MdfError>
    ensures { Walks walker.old result walker.new defn.walk_identification }
{
    if !walker.mark(0)? {
        return Ok(());
    }
    enter_identification(walker)
}

// Reads a header and lists it.
fn open_header(walker: &mut Walker<'_>) -> Result<HeaderBlock, MdfError>
    ensures { Does (λ x. x) walker.old result walker.new (entered spec.HD 64 (no_records 0) header_block_of) }
{
    let header = HeaderBlock::parse(walker.file, HeaderBlock::OFFSET)?;
    let targets = [
        header.first_dg_addr,
        header.file_history_addr,
        header.channel_tree_addr,
        header.first_attachment_addr,
        header.first_event_addr,
        header.comment_addr,
    ];
    let block = Block::plain(
        HeaderBlock::OFFSET,
        HeaderBlock::MIN_LEN,
        HeaderBlock::ID,
        Kind::HD,
    );
    walker.list_block(block, &targets)?;
    Ok(header)
}

// Opens the header, then walks its comment and the data groups.
fn enter_header(walker: &mut Walker<'_>) -> Result<(), MdfError>
    ensures { (fuel : ℕ) → length walker.old.visited.now ≤ fuel → Walks walker.old result walker.new (enter_header fuel) }
{
    let header = open_header(walker)?;
    walker.follow(HeaderBlock::OFFSET, 5);
    walk_text_like(walker, header.comment_addr)?;
    walker.follow(HeaderBlock::OFFSET, 0);
    walk_data_groups(walker, header.first_dg_addr)
}

// Walks the header.
pub fn walk_header(walker: &mut Walker<'_>) -> Result<(), MdfError>
    ensures { (fuel : ℕ) → length walker.old.visited.now ≤ fuel → Walks walker.old result walker.new (defn.walk_header fuel) }
{
    if !walker.mark(HeaderBlock::OFFSET)? {
        return Ok(());
    }
    enter_header(walker)
}

// Walks a recording.
pub fn walk(walker: &mut Walker<'_>) -> Result<(), MdfError>
    ensures { Walks walker.old result walker.new defn.walk }
{
    walk_identification(walker)?;
    walk_header(walker)
}
