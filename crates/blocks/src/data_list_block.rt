// A data list, ##DL, as data_list_block.rs reads it. Its mark is not tested.
ghost use Rattle.std.specs.Prelude.{◌≡◌, cond, ℕ, ◌+◌, ◌*◌, ◌%◌, ◌≤◌, eqb, length};
ghost use Rattle.mdf4.specs.Bytes.{num};
ghost use Rattle.mdf4.specs.Act.{DL};
ghost use Rattle.mdf4.specs.Kinds.{shape, leads_to};
ghost use Rattle.blocks.specs.Errors.{told};
ghost use Rattle.blocks.specs.DataListBlock.{data_list_block_of, behind_links, ListFits};

use crate::common::{BlockHeader, BlockParse, leads_to};
use crate::error::MdfError;
use crate::extent::need_from_block;
use crate::reader::Reader;
use little_endian::{read_u8, read_u32, read_u64};

#[derive(Clone, Copy, Debug, PartialEq, Eq)]
pub struct DataListBlock {
    pub block_len: u64,
    pub links_nr: u64,
    pub next: u64,
    pub flags: u8,
    pub data_block_nr: u32,
    // 0 where bit 0 of the flags is not set
    pub data_block_len: u64,
}

impl DataListBlock {
    // What is read beside the links and the words behind them: the header, flags and count.
    pub const FIXED_LEN: u64 = BlockHeader::LEN + 8;

    // Whether a link leads to a data list, by what was found at its target.
    #[tactic(auto, unfolding(mdf4::specs::Kinds::shape, mdf4::specs::Bytes::little))]
    pub fn is_target(found: u64) -> bool
        ensures { (t : ℕ) → result ≡ leads_to (shape DL).mark (record { target = t; found = found }) }
    {
        leads_to(found, DataListBlock::ID)
    }

    // The link at place i of the block at `offset`: 0 is `next`.
    pub fn data_link(file: &[u8], offset: u64, i: u64) -> u64
        requires { offset + 24 + 8 * i + 8 ≤ length file.now }
        ensures { result ≡ num file.now (offset + 24 + 8 * i) 8 }
    {
        Reader::new(file, offset).u64_at(24 + 8 * i)
    }

    // The words of 8 bytes behind the count: the equal length, or an offset for each data block.
    fn words(flags: u8, data_block_nr: u32) -> u64
        ensures { result ≡ cond (eqb (flags % 2) 1) 1 data_block_nr }
    {
        if flags % 2 == 1 {
            1
        } else {
            u64::from(data_block_nr)
        }
    }

    // The equal length at `at`.
    fn equal_len(b: &[u8], at: usize, flags: u8) -> u64
        requires { flags % 2 ≡ 1 → at + 8 ≤ length b.now }
        ensures { result ≡ cond (eqb (flags % 2) 1) (num b.now at 8) 0 }
    {
        if flags % 2 == 1 { read_u64(b, at) } else { 0 }
    }

    // Both length tests: for the links and what the flags ask for behind them.
    #[tactic(auto, using(crate::proofs::DataListBlock::links_laws))]
    fn behind_links(file: &[u8], offset: u64, links_nr: u64) -> Result<u64, MdfError>
        requires { offset ≤ length file.now }
        ensures { told result ≡ behind_links file.now offset links_nr }
    {
        let len = file.len() as u64;
        let n = need_from_block(len, offset, DataListBlock::FIXED_LEN, links_nr)?;
        let at = offset as usize + 24 + 8 * links_nr as usize;
        let words = DataListBlock::words(read_u8(file, at), read_u32(file, at + 4));
        need_from_block(len, offset, n, words)
    }
}

impl BlockParse for DataListBlock {
    // "##DL"
    const ID: u32 = 0x4c44_2323;

    const MIN_LEN: u64 = BlockHeader::LEN;

    ghost kind = { DL };

    ghost fields_of = { data_list_block_of };

    #[tactic(auto, unfolding(crate::specs::DataListBlock::data_list_block_of, mdf4::specs::Kinds::block_len, mdf4::specs::Kinds::links_nr, mdf4::specs::Kinds::data_at))]
    fn fields(b: &[u8]) -> DataListBlock
        requires { ListFits b.now }
        ensures { result ≡ data_list_block_of b.now }
    {
        let links_nr = read_u64(b, 16);
        let at = 24 + 8 * links_nr as usize;
        let flags = read_u8(b, at);
        DataListBlock {
            block_len: read_u64(b, 8),
            links_nr,
            next: read_u64(b, 24),
            flags,
            data_block_nr: read_u32(b, at + 4),
            data_block_len: DataListBlock::equal_len(b, at + 8, flags),
        }
    }

    #[tactic(auto, using(crate::proofs::DataListBlock::extent_laws))]
    fn extent(file: &[u8], offset: u64) -> Result<u64, MdfError> {
        let header = BlockHeader::parse(file, offset, Self::MIN_LEN)?;
        if header.links_nr == 0 {
            return Err(MdfError::BlockSerializationError {
                place: offset,
                links_nr: header.links_nr,
                block_len: header.block_len,
            });
        }
        DataListBlock::behind_links(file, offset, header.links_nr)
    }
}
