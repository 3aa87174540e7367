// A text, ##TX, as text_block.rs reads it; and what stands behind the header of ##TX and ##MD.
ghost use Rattle.std.specs.Prelude.{◌≡◌, IfOk, IfErr};
ghost use Rattle.mdf4.specs.Act.{err, TX};
ghost use Rattle.mdf4.specs.Kinds.{read_block};
ghost use Rattle.mdf4.specs.Describe.{tx_text};
ghost use Rattle.blocks.specs.Errors.{numbers};
ghost use Rattle.blocks.specs.TextBlock.{TextAt, behind_header};

use crate::common::BlockHeader;
use crate::error::MdfError;
use utf8::before_nul;

// All that stands behind a text's header. It is no TextBlock: what the two kinds cut off it differs.
#[derive(Clone, Copy)]
pub struct TextRange<'a> {
    pub block_len: u64,
    pub text: &'a [u8],
}

// The mark is not tested: by it the kind was chosen. `least` is the kind's least length, which is its header's.
pub fn text_range(file: &[u8], offset: u64, least: u64) -> Result<TextRange<'_>, MdfError>
    requires { least ≡ 24 }
    ensures read { IfOk result (λ x. TextAt TX behind_header file.now offset x.block_len x.text.now) }
    ensures refused { IfErr result (λ e. read_block TX file.now offset ≡ err (numbers e)) }
{
    let header = BlockHeader::parse(file, offset, least)?;
    let expected = header.block_len.max(least);
    let actual = file.len() as u64 - offset;
    if actual < expected {
        return Err(MdfError::TooShortBuffer {
            place: offset,
            expected,
            actual,
        });
    }
    let from = (offset + least) as usize;
    let to = (offset + expected) as usize;
    Ok(TextRange {
        block_len: header.block_len,
        text: &file[from..to],
    })
}

#[derive(Clone, Copy)]
pub struct TextBlock<'a> {
    pub block_len: u64,
    pub text: &'a [u8],
}

impl<'a> TextBlock<'a> {
    // "##TX"
    pub const ID: u32 = 0x5854_2323;

    pub const MIN_LEN: u64 = BlockHeader::LEN;

    // The text ends before its first NUL.
    #[tactic(auto, using(crate::proofs::Parts::part_front, crate::proofs::Texts::tx_at))]
    pub fn parse(file: &'a [u8], offset: u64) -> Result<TextBlock<'a>, MdfError>
        ensures read { IfOk result (λ b. TextAt TX tx_text file.now offset b.block_len b.text.now) }
        ensures refused { IfErr result (λ e. read_block TX file.now offset ≡ err (numbers e)) }
    {
        let range = text_range(file, offset, TextBlock::MIN_LEN)?;
        Ok(TextBlock {
            block_len: range.block_len,
            text: before_nul(range.text),
        })
    }
}
