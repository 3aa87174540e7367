// A channel, ##CN, as channel_block.rs reads it.
ghost use Rattle.std.specs.Prelude.{◌≡◌, ◌≤◌, length};
ghost use Rattle.mdf4.specs.Act.{CN};
ghost use Rattle.blocks.specs.ChannelBlock.{channel_block_of};

use crate::common::BlockParse;
use crate::error::MdfError;
use crate::extent::fixed_extent;
use little_endian::{read_u8, read_u32, read_u64};

#[derive(Clone, Copy, Debug, PartialEq, Eq)]
pub struct ChannelBlock {
    pub block_len: u64,
    pub next_ch_addr: u64,
    pub component_addr: u64,
    pub name_addr: u64,
    pub source_addr: u64,
    pub conversion_addr: u64,
    // the Rust's `data`
    pub data_addr: u64,
    pub unit_addr: u64,
    pub comment_addr: u64,
    pub channel_type: u8,
    pub sync_type: u8,
    pub data_type: u8,
    pub bit_offset: u8,
    pub byte_offset: u32,
    pub bit_count: u32,
    pub flags: u32,
    pub pos_invalidation_bit: u32,
    pub precision: u8,
}

impl BlockParse for ChannelBlock {
    // "##CN"
    const ID: u32 = 0x4e43_2323;

    const MIN_LEN: u64 = 160;

    ghost kind = { CN };

    ghost fields_of = { channel_block_of };

    #[tactic(auto, unfolding(crate::specs::ChannelBlock::channel_block_of, mdf4::specs::Kinds::block_len))]
    fn fields(b: &[u8]) -> ChannelBlock
        requires { 160 ≤ length b.now }
        ensures { result ≡ channel_block_of b.now }
    {
        ChannelBlock {
            block_len: read_u64(b, 8),
            next_ch_addr: read_u64(b, 24),
            component_addr: read_u64(b, 32),
            name_addr: read_u64(b, 40),
            source_addr: read_u64(b, 48),
            conversion_addr: read_u64(b, 56),
            data_addr: read_u64(b, 64),
            unit_addr: read_u64(b, 72),
            comment_addr: read_u64(b, 80),
            channel_type: read_u8(b, 88),
            sync_type: read_u8(b, 89),
            data_type: read_u8(b, 90),
            bit_offset: read_u8(b, 91),
            byte_offset: read_u32(b, 92),
            bit_count: read_u32(b, 96),
            flags: read_u32(b, 100),
            pos_invalidation_bit: read_u32(b, 104),
            precision: read_u8(b, 108),
        }
    }

    #[tactic(auto, using(crate::proofs::Fixed::fixed_cn))]
    fn extent(file: &[u8], offset: u64) -> Result<u64, MdfError> {
        fixed_extent(file, offset, Self::MIN_LEN, Self::ID)
    }
}
