// The scratch table of a clear list filled. It takes a range for each listed block, over its extent and its own bytes, one
// for each channel name that is read and one for each link with four bytes inside the file; a link that leads to a block, listed or
// not, has one for the block's header and one for its extent instead (document 02, order 1). What these ranges leave is clear.
#![tactic(auto)]

ghost use Rattle.std.specs.Prelude.{◌≡◌, [], ℕ, ◌+◌, ◌*◌, ◌^◌, ◌≤◌, ◌<◌, length, map, get_or};
ghost use Rattle.mdf4.specs.Bytes.{concat_map};
ghost use Rattle.mdf4.specs.Kinds.{read_len, make_link};
ghost use Rattle.mdf4.specs.Reads.{leads_to_block};
ghost use Rattle.mdf4.proofs.Good.{Readable};
ghost use Rattle.blocks.specs.Kind.{kind_named};
ghost use Rattle.tables.specs.Gaps.{Pushed, Pushes};
ghost use Rattle.tables.specs.Rows.{row_of, row_of_words, link_of_words};
ghost use Rattle.scratch_rows.specs.Covers.{CanRead, name_cover, row_cover, linked_end, target_cover, link_cover, covers};

use blocks::channel_block::ChannelBlock;
use blocks::channel_group_block::ChannelGroupBlock;
use blocks::common::{BlockHeader, BlockParse};
use blocks::data_group_block::DataGroupBlock;
use blocks::data_list_block::DataListBlock;
use blocks::header_block::HeaderBlock;
use blocks::identification_block::IdentificationBlock;
use blocks::kind::Kind;
use blocks::source_block::SourceBlock;
use blocks::text_block::TextBlock;
use little_endian::{read_u32, read_u64};
use tables::{BLOCK_ROW_WORDS, BlockInfo, PAIR_WORDS, RangeTable};

// What every block's mark starts with, ##, as a little-endian number.
const BLOCK_MARK: u32 = 0x2323;

// The read bytes of a block that can be read, as its parser counts them.
fn own_len<B: BlockParse>(file: &[u8], offset: u64) -> u64
    requires { CanRead B.kind file.now offset }
    ensures { result ≡ read_len B.kind file.now offset }
{
    let Ok(len) = B::extent(file, offset) else {
        unreachable!()
    };
    len
}

// The read bytes of a block of a kind.
#[tactic(auto, using(mdf4::proofs::Fields::read_len_is), unfolding(mdf4::specs::Reads::listed_len))]
fn read_len(file: &[u8], offset: u64, kind: Kind) -> u64
    requires { CanRead (kind_named kind) file.now offset }
    ensures { result ≡ read_len (kind_named kind) file.now offset }
{
    match kind {
        Kind::ID => IdentificationBlock::MIN_LEN,
        Kind::HD => HeaderBlock::MIN_LEN,
        Kind::DG => DataGroupBlock::MIN_LEN,
        Kind::CG => own_len::<ChannelGroupBlock>(file, offset),
        Kind::CN => ChannelBlock::MIN_LEN,
        Kind::SI => own_len::<SourceBlock>(file, offset),
        Kind::TX | Kind::MD => BlockHeader::LEN.max(read_u64(file, offset as usize + 8)),
        Kind::DL => own_len::<DataListBlock>(file, offset),
        Kind::DT | Kind::SD | Kind::UT | Kind::UD => BlockHeader::LEN,
    }
}

// The range of the channel name at `target`, where it is read.
fn put_name(file: &[u8], target: u64, scratch: &mut RangeTable<'_>)
    requires { scratch.old.count < 2 ^ 63 }
    ensures pushed { Pushes scratch.old (name_cover file.now target) scratch.new }
    ensures count { scratch.new.count ≤ scratch.old.count + 1 }
{
    let len = file.len() as u64;
    if target == 0 || len < TextBlock::MIN_LEN || len - TextBlock::MIN_LEN < target {
        return;
    }
    let at = target as usize;
    if read_u32(file, at) != TextBlock::ID {
        return;
    }
    let size = TextBlock::MIN_LEN.max(read_u64(file, at + 8));
    if len - target < size {
        scratch.push(target..target + TextBlock::MIN_LEN);
    } else {
        scratch.push(target..target + size);
    }
}

// The ranges of a listed block: its extent and own bytes, and its name.
fn put_block(file: &[u8], block: &BlockInfo, scratch: &mut RangeTable<'_>)
    requires { (scratch.old.count < 2 ^ 62) × Readable file.now (row_of block.now) }
    ensures pushed { Pushes scratch.old (row_cover file.now (row_of block.now)) scratch.new }
    ensures count { scratch.new.count ≤ scratch.old.count + 2 }
{
    let behind = block.offset + read_len(file, block.offset, block.kind);
    scratch.push(block.offset..block.end_offset.max(behind));
    if block.kind == Kind::CN {
        put_name(file, read_u64(file, block.offset as usize + 40), scratch);
    }
}

// Whether a link that is not null and has four bytes at its target leads to a block.
fn leads_to_block(file: &[u8], target: u64) -> bool
    requires { (target ≡ 0 → ⊥) × (target + 4 ≤ length file.now) }
    ensures { result ≡ leads_to_block (length file.now) (make_link file.now target) }
{
    BlockHeader::LEN <= file.len() as u64 - target
        && read_u32(file, target as usize) % 65536 == BLOCK_MARK
}

// The end of the block at `target` that a link leads to. The extent is cut at the file's end, before the sum is made; the range takes in
// the header, so that it is never empty.
fn linked_end(file: &[u8], target: u64) -> u64
    requires { target + 24 ≤ length file.now }
    ensures { result ≡ linked_end file.now target }
{
    let size = BlockHeader::LEN.max(read_u64(file, target as usize + 8));
    target + size.min(file.len() as u64 - target)
}

// The ranges of a link that is not null: header and extent of the block that it leads to, else the four bytes at the target, where
// they lie inside the file.
fn put_link(file: &[u8], target: u64, scratch: &mut RangeTable<'_>)
    requires { scratch.old.count < 2 ^ 62 }
    ensures pushed { Pushes scratch.old (target_cover file.now target) scratch.new }
    ensures count { scratch.new.count ≤ scratch.old.count + 2 }
{
    let len = file.len() as u64;
    if target == 0 || len < 4 || len - 4 < target {
        return;
    }
    if leads_to_block(file, target) {
        scratch.push(target..target + BlockHeader::LEN);
        scratch.push(target..linked_end(file, target));
    } else {
        scratch.push(target..target + 4);
    }
}

// The ranges of the links.
pub fn put_links(file: &[u8], links: &[[u64; PAIR_WORDS]], scratch: &mut RangeTable<'_>)
    requires { scratch.old.count < 2 ^ 61 }
    ensures pushed { Pushes scratch.old (concat_map (link_cover file.now) (map link_of_words links.now)) scratch.new }
    ensures count { scratch.new.count ≤ scratch.old.count + 2 * length links.now }
{
    for &[target, _] in links {
        put_link(file, target, scratch);
    }
}

// The ranges of the listed blocks and of the links, as rows of the scratch table: how many there are. Those behind its end are left out.
pub fn put_spared(
    file: &[u8],
    blocks: &[[u64; BLOCK_ROW_WORDS]],
    links: &[[u64; PAIR_WORDS]],
    scratch: &mut [u64],
) -> usize
    requires { (i : ℕ) → i < length blocks.now → Readable file.now (row_of_words (get_or blocks.now i [])) }
    ensures pushed { Pushed scratch.old 0 (covers file.now (map row_of_words blocks.now) (map link_of_words links.now)) scratch.new result }
    ensures count { result ≤ 2 * length blocks.now + 2 * length links.now }
{
    let mut table = RangeTable::new(scratch);
    for row in blocks {
        put_block(file, &BlockInfo::load(row), &mut table);
    }
    put_links(file, links, &mut table);
    table.count
}
