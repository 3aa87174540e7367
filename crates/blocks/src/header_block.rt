// The header, ##HD, as header_block.rs reads it.
ghost use Rattle.std.specs.Prelude.{◌≡◌, ◌≤◌, length};
ghost use Rattle.mdf4.specs.Act.{HD};
ghost use Rattle.blocks.specs.HeaderBlock.{header_block_of};

use crate::common::BlockParse;
use crate::error::MdfError;
use crate::extent::fixed_extent;
use crate::identification_block::IdentificationBlock;
use little_endian::{read_i16, read_u8, read_u64};

#[derive(Clone, Copy, Debug, PartialEq, Eq)]
pub struct HeaderBlock {
    pub first_dg_addr: u64,
    pub file_history_addr: u64,
    pub channel_tree_addr: u64,
    pub first_attachment_addr: u64,
    pub first_event_addr: u64,
    pub comment_addr: u64,
    pub abs_time: u64,
    pub tz_offset: i16,
    pub time_flags: u8,
    pub time_quality: u8,
    pub flags: u8,
}

impl HeaderBlock {
    // Where the header stands: behind the identification.
    pub const OFFSET: u64 = IdentificationBlock::MIN_LEN;
}

impl BlockParse for HeaderBlock {
    // "##HD"
    const ID: u32 = 0x4448_2323;

    const MIN_LEN: u64 = 104;

    ghost kind = { HD };

    ghost fields_of = { header_block_of };

    #[tactic(auto, unfolding(crate::specs::HeaderBlock::header_block_of))]
    fn fields(b: &[u8]) -> HeaderBlock
        requires { 104 ≤ length b.now }
        ensures { result ≡ header_block_of b.now }
    {
        HeaderBlock {
            first_dg_addr: read_u64(b, 24),
            file_history_addr: read_u64(b, 32),
            channel_tree_addr: read_u64(b, 40),
            first_attachment_addr: read_u64(b, 48),
            first_event_addr: read_u64(b, 56),
            comment_addr: read_u64(b, 64),
            abs_time: read_u64(b, 72),
            tz_offset: read_i16(b, 80),
            time_flags: read_u8(b, 84),
            time_quality: read_u8(b, 85),
            flags: read_u8(b, 86),
        }
    }

    #[tactic(auto, using(crate::proofs::Fixed::fixed_hd))]
    fn extent(file: &[u8], offset: u64) -> Result<u64, MdfError> {
        fixed_extent(file, offset, Self::MIN_LEN, Self::ID)
    }
}
