// The recording's bytes and an offset in them: the Rust's `bytes_at`. The reader hands out fields, not the bytes.
// The parsers take the two as they are, since their callers hold them so: to make a reader at each call is no plainer.
ghost use Rattle.std.specs.Prelude.{◌≡◌, ◌+◌, ◌≤◌, length};
ghost use Rattle.mdf4.specs.Bytes.{num};
ghost use Rattle.blocks.specs.Errors.{told};
ghost use Rattle.blocks.specs.Headers.{inside_or};

use crate::common::BlockHeader;
use crate::error::MdfError;
use little_endian::read_u64;

#[derive(Clone, Copy)]
pub struct Reader<'a> {
    pub file: &'a [u8],
    pub offset: u64,
}

impl<'a> Reader<'a> {
    pub fn new(file: &'a [u8], offset: u64) -> Reader<'a>
        ensures file { result.file ≡ file.entry }
        ensures offset { result.offset ≡ offset }
    {
        Reader { file, offset }
    }

    // The header, where at least `needed` bytes have to be.
    #[tactic(auto, unfolding(crate::specs::Headers::inside_or, mdf4::specs::Act::and_then, mdf4::specs::Act::check), using(mdf4::proofs::Fields::part_bytes))]
    pub fn header(self, needed: u64) -> Result<BlockHeader, MdfError>
        requires { 24 ≤ needed }
        ensures { told result ≡ inside_or self.entry.file.now self.entry.offset needed }
    {
        let Reader { file, offset } = self;
        let len = file.len() as u64;
        if len < needed || len - needed < offset {
            return Err(MdfError::TooShortBuffer {
                place: offset,
                expected: offset.saturating_add(needed),
                actual: len,
            });
        }
        let at = offset as usize;
        Ok(BlockHeader::fields(&file[at..at + BlockHeader::LEN as usize]))
    }

    // The field of eight bytes at `at` of the block.
    pub fn u64_at(self, at: u64) -> u64
        requires { self.offset + at + 8 ≤ length self.file.now }
        ensures { result ≡ num self.entry.file.now (self.entry.offset + at) 8 }
    {
        read_u64(self.file, (self.offset + at) as usize)
    }
}
