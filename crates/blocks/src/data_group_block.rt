// A data group, ##DG, as data_group_block.rs reads it.
ghost use Rattle.std.specs.Prelude.{◌≡◌, ◌≤◌, length};
ghost use Rattle.mdf4.specs.Act.{DG};
ghost use Rattle.blocks.specs.DataGroupBlock.{data_group_block_of};

use crate::common::BlockParse;
use crate::error::MdfError;
use crate::extent::fixed_extent;
use little_endian::{read_u8, read_u64};

#[derive(Clone, Copy, Debug, PartialEq, Eq)]
pub struct DataGroupBlock {
    pub block_len: u64,
    pub next_dg_addr: u64,
    pub first_cg_addr: u64,
    pub data_block_addr: u64,
    pub comment_addr: u64,
    pub record_id_len: u8,
}

impl BlockParse for DataGroupBlock {
    // "##DG"
    const ID: u32 = 0x4744_2323;

    const MIN_LEN: u64 = 64;

    ghost kind = { DG };

    ghost fields_of = { data_group_block_of };

    #[tactic(auto, unfolding(crate::specs::DataGroupBlock::data_group_block_of, mdf4::specs::Kinds::block_len))]
    fn fields(b: &[u8]) -> DataGroupBlock
        requires { 64 ≤ length b.now }
        ensures { result ≡ data_group_block_of b.now }
    {
        DataGroupBlock {
            block_len: read_u64(b, 8),
            next_dg_addr: read_u64(b, 24),
            first_cg_addr: read_u64(b, 32),
            data_block_addr: read_u64(b, 40),
            comment_addr: read_u64(b, 48),
            record_id_len: read_u8(b, 56),
        }
    }

    #[tactic(auto, using(crate::proofs::Fixed::fixed_dg))]
    fn extent(file: &[u8], offset: u64) -> Result<u64, MdfError> {
        fixed_extent(file, offset, Self::MIN_LEN, Self::ID)
    }
}
