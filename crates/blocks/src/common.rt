// The block header, what every parser begins with, and the trait of the blocks that are read as their fields.
ghost use Rattle.std.specs.Prelude.{◌≡◌, List, ℕ, ◌≤◌, length};
ghost use Rattle.mdf4.specs.Act.{Kind};
ghost use Rattle.mdf4.specs.Kinds.{leads_to};
ghost use Rattle.blocks.specs.Errors.{told};
ghost use Rattle.blocks.specs.Headers.{header_of, inside_or, marked_or};
ghost use Rattle.blocks.specs.Parse.{parsed, IsOwn};

use crate::error::MdfError;
use crate::reader::Reader;
use little_endian::{read_u32, read_u64};

#[derive(Clone, Copy, Debug, PartialEq, Eq)]
pub struct BlockHeader {
    pub id: u32,
    pub block_len: u64,
    pub links_nr: u64,
}

// Whether a link leads to a mark: `found` is 0, or 1 + the mark at its target.
#[tactic(auto, unfolding(mdf4::specs::Kinds::leads_to))]
pub fn leads_to(found: u64, id: u32) -> bool
    ensures { (t : ℕ) → result ≡ leads_to id (record { target = t; found = found }) }
{
    found == 1 + u64::from(id)
}

impl BlockHeader {
    // Its bytes: mark, four reserved, block_len, links_nr.
    pub const LEN: u64 = 24;

    // The fields of the first 24 bytes.
    #[tactic(auto, unfolding(crate::specs::Headers::header_of, mdf4::specs::Kinds::block_len, mdf4::specs::Kinds::links_nr))]
    pub fn fields(b: &[u8]) -> BlockHeader
        requires { 24 ≤ length b.now }
        ensures { result ≡ header_of b.now }
    {
        BlockHeader {
            id: read_u32(b, 0),
            block_len: read_u64(b, 8),
            links_nr: read_u64(b, 16),
        }
    }

    // `bytes_at`, then the header: at least `needed` bytes have to be there, the header's among them. That is asked here, in `parse_marked`
    // and in `Reader::header`: a type for such a length would be made by each caller from its constant, for one call.
    pub fn parse(file: &[u8], offset: u64, needed: u64) -> Result<BlockHeader, MdfError>
        requires { 24 ≤ needed }
        ensures { told result ≡ inside_or file.now offset needed }
    {
        Reader::new(file, offset).header(needed)
    }

    // The same, and the mark has to be `id`.
    #[tactic(auto, unfolding(crate::specs::Headers::marked_or, mdf4::specs::Act::and_then, mdf4::specs::Act::check))]
    pub fn parse_marked(
        file: &[u8],
        offset: u64,
        needed: u64,
        id: u32,
    ) -> Result<BlockHeader, MdfError>
        requires { 24 ≤ needed }
        ensures { told result ≡ marked_or file.now offset needed id }
    {
        let header = BlockHeader::parse(file, offset, needed)?;
        if header.id != id {
            return Err(MdfError::BlockIDError {
                place: offset,
                expected: u64::from(id),
                actual: u64::from(header.id),
            });
        }
        Ok(header)
    }
}

// A block that is read as the fields of its own bytes.
pub trait BlockParse: Sized {
    // Its mark, and the bytes that have to be there before its header is looked at.
    const ID: u32;

    const MIN_LEN: u64;

    ghost kind: { Kind };

    ghost fields_of: { List ℕ → Self };

    // The fields of the block's own bytes.
    fn fields(b: &[u8]) -> Self
        requires { IsOwn kind b.now }
        ensures { result ≡ fields_of b.now };

    // How many bytes are the block's own.
    fn extent(file: &[u8], offset: u64) -> Result<u64, MdfError>
        ensures { told result ≡ parsed length kind file.now offset };

    fn parse(file: &[u8], offset: u64) -> Result<Self, MdfError>
        ensures { told result ≡ parsed fields_of kind file.now offset }
    {
        let len = Self::extent(file, offset)?;
        let at = offset as usize;
        Ok(Self::fields(&file[at..at + len as usize]))
    }
}
