// Texts, sources and conversions: the Rust's `walk_text_like`, `walk_source` and `walk_conversion`.
ghost use Rattle.std.specs.Prelude.{◌≡◌, ℕ, ◌+◌, ◌≤◌, List, [], length, IfOk, IfErr};
ghost use Rattle.mdf4.specs.Act.{err, reason};
ghost use Rattle.mdf4.specs.Bytes.{bytes};
ghost use Rattle.mdf4.specs.Kinds.{no_records, read_block};
ghost use Rattle.mdf4.specs.Walk as walk;
ghost use Rattle.blocks.specs.Errors.{numbers};
ghost use Rattle.walk_state.specs.Held.{Walks, outcome};
ghost use Rattle.walk_state.specs.Within.{held};
ghost use Rattle.walk_blocks.specs.Blocks.{Found};

use blocks::common::{BlockHeader, BlockParse};
use blocks::error::MdfError;
use blocks::kind::Kind;
use blocks::metadata_block::MetadataBlock;
use blocks::source_block::SourceBlock;
use blocks::text_block::TextBlock;
use little_endian::read_u32;
use walk_state::{Block, Walk, Walker, seen};

// The text at an address, its kind told by its mark.
fn read_text(file: &[u8], addr: u64) -> Result<Block, MdfError>
    requires { addr + 24 ≤ length file.now }
    ensures read { IfOk result (λ x. Found (walk.text_kind (bytes file.now addr 24)) (no_records 0) file.now addr x []) }
    ensures refused { IfErr result (λ e. read_block (walk.text_kind (bytes file.now addr 24)) file.now addr ≡ err (numbers e)) }
{
    let mark = read_u32(file, addr as usize);
    if mark == TextBlock::ID {
        let text = TextBlock::parse(file, addr)?;
        return Ok(Block::plain(addr, text.block_len, mark, Kind::TX));
    }
    if mark == MetadataBlock::ID {
        let metadata = MetadataBlock::parse(file, addr)?;
        return Ok(Block::plain(addr, metadata.block_len, mark, Kind::MD));
    }
    let header = BlockHeader::parse(file, addr, BlockHeader::LEN)?;
    Ok(Block::plain(addr, header.block_len, mark, Kind::UT))
}

// Reads the text at an address and lists it.
fn enter_text(walker: &mut Walker<'_>, addr: u64) -> Result<(), MdfError>
    requires { addr + 24 ≤ length walker.old.file.now }
    ensures { Walks walker.old result walker.new (walk.enter_text addr) }
{
    let block = read_text(walker.file, addr)?;
    walker.list_block(block, &[])
}

// Walks a text, metadata or an unknown block: with fewer than 24 bytes left it is visited and not listed.
pub fn walk_text_like(walker: &mut Walker<'_>, addr: u64) -> Result<(), MdfError>
    ensures { Walks walker.old result walker.new (walk.walk_text_like addr) }
{
    if addr == 0 {
        return Ok(());
    }
    if !walker.mark(addr)? {
        return Ok(());
    }
    let Some(end) = addr.checked_add(BlockHeader::LEN) else {
        return Err(MdfError::SumOverflow {
            place: addr,
            a: addr,
            b: BlockHeader::LEN,
        });
    };
    if (walker.file.len() as u64) < end {
        return Ok(());
    }
    enter_text(walker, addr)
}

// Walks a source, and its name, path and comment.
pub fn walk_source(walker: &mut Walker<'_>, addr: u64) -> Result<(), MdfError>
    ensures { Walks walker.old result walker.new (walk.walk_source addr) }
{
    if addr == 0 {
        return Ok(());
    }
    if !walker.mark(addr)? {
        return Ok(());
    }
    let source = SourceBlock::parse(walker.file, addr)?;
    let block = Block::plain(addr, source.block_len, SourceBlock::ID, Kind::SI);
    let targets = [source.name_addr, source.path_addr, source.comment_addr];
    walker.list_block(block, &targets)?;
    walker.follow(addr, 0);
    walk_text_like(walker, source.name_addr)?;
    walker.follow(addr, 1);
    walk_text_like(walker, source.path_addr)?;
    walker.follow(addr, 2);
    walk_text_like(walker, source.comment_addr)
}

// A conversion is not walked: one that was not visited is refused. It asks the offsets visited alone, so it takes them and the counts, and
// no walker: of any recording and any other tables it does what the definition's step does, and leaves the state as it is.
pub fn walk_conversion(
    visited: &[u64],
    counts: Walk,
    channel: u64,
    addr: u64,
) -> Result<(), MdfError>
    ensures { (file b l : List ℕ) → outcome (λ u. u) result (held counts visited.now b l) ≡ reason (walk.walk_conversion channel addr file (held counts visited.now b l)) }
{
    if addr == 0 || seen(visited, counts.visited, addr) {
        return Ok(());
    }
    Err(MdfError::Conversion {
        place: addr,
        channel,
    })
}

// The same of a walker's state. Where a walk's step has the walker lent for writing, lending its table on would count as a write.
pub fn walk_channel_conversion(walker: &Walker<'_>, channel: u64, addr: u64) -> Result<(), MdfError>
    ensures { Walks walker.now result walker.now (walk.walk_conversion channel addr) }
{
    walk_conversion(walker.visited, walker.walk, channel, addr)
}
