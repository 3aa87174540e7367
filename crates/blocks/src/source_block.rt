// A source, ##SI, as source_block.rs reads it.
ghost use Rattle.std.specs.Prelude.{◌≡◌, cond, ◌+◌, ◌*◌, ◌≤◌, ltb, length};
ghost use Rattle.mdf4.specs.Bytes.{num};
ghost use Rattle.mdf4.specs.Act.{SI};
ghost use Rattle.blocks.specs.SourceBlock.{source_block_of};

use crate::common::{BlockHeader, BlockParse};
use crate::error::MdfError;
use crate::extent::need_from_block;
use little_endian::{read_u8, read_u64};

#[derive(Clone, Copy, Debug, PartialEq, Eq)]
pub struct SourceBlock {
    pub block_len: u64,
    pub name_addr: u64,
    pub path_addr: u64,
    pub comment_addr: u64,
    pub source_type: u8,
    pub bus_type: u8,
    pub flags: u8,
}

impl SourceBlock {
    // What is read beside the links: the header and 3 bytes of data.
    pub const FIXED_LEN: u64 = BlockHeader::LEN + 3;

    // The link at place i, or 0 where there are fewer.
    fn link(b: &[u8], links_nr: u64, i: u64) -> u64
        requires { 24 + 8 * links_nr ≤ length b.now }
        ensures { result ≡ cond (ltb i links_nr) (num b.now (24 + 8 * i) 8) 0 }
    {
        if i < links_nr {
            read_u64(b, 24 + 8 * i as usize)
        } else {
            0
        }
    }
}

impl BlockParse for SourceBlock {
    // "##SI"
    const ID: u32 = 0x4953_2323;

    const MIN_LEN: u64 = BlockHeader::LEN;

    ghost kind = { SI };

    ghost fields_of = { source_block_of };

    #[tactic(auto, unfolding(crate::specs::SourceBlock::source_block_of, mdf4::specs::Kinds::block_len, mdf4::specs::Kinds::links_nr, mdf4::specs::Kinds::data_at, mdf4::specs::Kinds::shape), using(crate::proofs::SourceBlock::three))]
    fn fields(b: &[u8]) -> SourceBlock
        requires { 24 + 8 * num b.now 16 8 + 3 ≤ length b.now }
        ensures { result ≡ source_block_of b.now }
    {
        let links_nr = read_u64(b, 16);
        let at = 24 + 8 * links_nr as usize;
        SourceBlock {
            block_len: read_u64(b, 8),
            name_addr: SourceBlock::link(b, links_nr, 0),
            path_addr: SourceBlock::link(b, links_nr, 1),
            comment_addr: SourceBlock::link(b, links_nr, 2),
            source_type: read_u8(b, at),
            bus_type: read_u8(b, at + 1),
            flags: read_u8(b, at + 2),
        }
    }

    #[tactic(auto, using(crate::proofs::SourceBlock::extent_laws))]
    fn extent(file: &[u8], offset: u64) -> Result<u64, MdfError> {
        let header = BlockHeader::parse_marked(file, offset, Self::MIN_LEN, Self::ID)?;
        need_from_block(
            file.len() as u64,
            offset,
            SourceBlock::FIXED_LEN,
            header.links_nr,
        )
    }
}
