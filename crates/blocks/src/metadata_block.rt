// Metadata, ##MD, as metadata_block.rs reads it.
ghost use Rattle.std.specs.Prelude.{◌≡◌, IfOk, IfErr};
ghost use Rattle.mdf4.specs.Act.{err, MD};
ghost use Rattle.mdf4.specs.Kinds.{read_block};
ghost use Rattle.mdf4.specs.Describe.{md_text};
ghost use Rattle.blocks.specs.Errors.{numbers};
ghost use Rattle.blocks.specs.TextBlock.{TextAt};

use crate::common::BlockHeader;
use crate::error::MdfError;
use crate::text_block::text_range;
use utf8::trim_nuls;

#[derive(Clone, Copy)]
pub struct MetadataBlock<'a> {
    pub block_len: u64,
    pub xml: &'a [u8],
}

impl<'a> MetadataBlock<'a> {
    // "##MD"
    pub const ID: u32 = 0x444d_2323;

    pub const MIN_LEN: u64 = BlockHeader::LEN;

    // NULs are off both ends. It stays beside `TextBlock::parse`, whose text is cut otherwise and has another definition and name: what
    // they share is `text_range`.
    #[tactic(auto, using(crate::proofs::Texts::md_read, crate::proofs::Texts::md_at))]
    pub fn parse(file: &'a [u8], offset: u64) -> Result<MetadataBlock<'a>, MdfError>
        ensures read { IfOk result (λ b. TextAt MD md_text file.now offset b.block_len b.xml.now) }
        ensures refused { IfErr result (λ e. read_block MD file.now offset ≡ err (numbers e)) }
    {
        let range = text_range(file, offset, MetadataBlock::MIN_LEN)?;
        Ok(MetadataBlock {
            block_len: range.block_len,
            xml: trim_nuls(range.text),
        })
    }
}
