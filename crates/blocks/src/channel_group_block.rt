// A channel group, ##CG, as channel_group_block.rs reads it.
ghost use Rattle.std.specs.Prelude.{◌≡◌, cond, ◌&&◌, ◌+◌, ◌*◌, ◌/◌, ◌%◌, ◌≤◌, leb, eqb, length};
ghost use Rattle.mdf4.specs.Bytes.{num};
ghost use Rattle.mdf4.specs.Act.{CG};
ghost use Rattle.blocks.specs.ChannelGroupBlock.{channel_group_block_of};

use crate::common::{BlockHeader, BlockParse};
use crate::error::MdfError;
use crate::extent::need_from_block;
use little_endian::{read_u16, read_u32, read_u64};

#[derive(Clone, Copy, Debug, PartialEq, Eq)]
pub struct ChannelGroupBlock {
    pub block_len: u64,
    pub links_nr: u64,
    pub next_cg_addr: u64,
    pub first_ch_addr: u64,
    pub acq_name_addr: u64,
    pub acq_source_addr: u64,
    pub first_sample_reduction_addr: u64,
    pub comment_addr: u64,
    pub master_cg_addr: u64,
    pub record_id: u64,
    pub cycles_nr: u64,
    pub flags: u16,
    pub samples_byte_nr: u32,
    pub invalidation_bytes_nr: u32,
}

impl ChannelGroupBlock {
    // What is read beside the links: the header and 32 bytes of data.
    pub const FIXED_LEN: u64 = BlockHeader::LEN + 32;

    // Whether there are six links, and the links and the 32 bytes behind them lie inside the block.
    fn header_ok(header: BlockHeader) -> bool
        ensures { result ≡ (leb 6 header.links_nr && leb (24 + 8 * header.links_nr + 32) header.block_len) }
    {
        let links_nr = header.links_nr;
        let block_len = header.block_len;
        let fixed = ChannelGroupBlock::FIXED_LEN;
        6 <= links_nr && fixed <= block_len && links_nr <= (block_len - fixed) / 8
    }

    // The seventh link, which counts if bit 3 of the flags is set.
    fn master(b: &[u8], links_nr: u64, flags: u16) -> u64
        requires { 80 ≤ length b.now }
        ensures { result ≡ cond (leb 7 links_nr) (cond (eqb (flags / 8 % 2) 1) (num b.now 72 8) 0) 0 }
    {
        if 7 <= links_nr && flags / 8 % 2 == 1 {
            read_u64(b, 72)
        } else {
            0
        }
    }
}

impl BlockParse for ChannelGroupBlock {
    // "##CG"
    const ID: u32 = 0x4743_2323;

    const MIN_LEN: u64 = 104;

    ghost kind = { CG };

    ghost fields_of = { channel_group_block_of };

    #[tactic(auto, unfolding(crate::specs::ChannelGroupBlock::channel_group_block_of, mdf4::specs::Kinds::block_len, mdf4::specs::Kinds::links_nr, mdf4::specs::Kinds::data_at, mdf4::specs::Kinds::master_cg_addr))]
    fn fields(b: &[u8]) -> ChannelGroupBlock
        requires { (104 ≤ length b.now) × (24 + 8 * num b.now 16 8 + 32 ≤ length b.now) }
        ensures { result ≡ channel_group_block_of b.now }
    {
        let links_nr = read_u64(b, 16);
        let at = 24 + 8 * links_nr as usize;
        let flags = read_u16(b, at + 16);
        ChannelGroupBlock {
            block_len: read_u64(b, 8),
            links_nr,
            next_cg_addr: read_u64(b, 24),
            first_ch_addr: read_u64(b, 32),
            acq_name_addr: read_u64(b, 40),
            acq_source_addr: read_u64(b, 48),
            first_sample_reduction_addr: read_u64(b, 56),
            comment_addr: read_u64(b, 64),
            master_cg_addr: ChannelGroupBlock::master(b, links_nr, flags),
            record_id: read_u64(b, at),
            cycles_nr: read_u64(b, at + 8),
            flags,
            samples_byte_nr: read_u32(b, at + 24),
            invalidation_bytes_nr: read_u32(b, at + 28),
        }
    }

    #[tactic(auto, using(crate::proofs::ChannelGroupBlock::extent_laws))]
    fn extent(file: &[u8], offset: u64) -> Result<u64, MdfError> {
        let header = BlockHeader::parse_marked(file, offset, Self::MIN_LEN, Self::ID)?;
        if !ChannelGroupBlock::header_ok(header) {
            return Err(MdfError::BlockSerializationError {
                place: offset,
                links_nr: header.links_nr,
                block_len: header.block_len,
            });
        }
        need_from_block(
            file.len() as u64,
            offset,
            ChannelGroupBlock::FIXED_LEN,
            header.links_nr,
        )
    }
}
