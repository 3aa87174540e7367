// How many bytes are read of a block: a number of its kind's, or what its header tells.
ghost use Rattle.std.specs.Prelude.{◌≡◌, ◌+◌, ◌*◌, ◌≤◌, length};
ghost use Rattle.mdf4.specs.Act as spec;
ghost use Rattle.blocks.specs.Errors.{told};
ghost use Rattle.blocks.specs.Parse.{parsed};
ghost use Rattle.blocks.specs.Extents.{need_or, IsFixed};

use crate::common::BlockHeader;
use crate::error::MdfError;

// From the block to the end at `len` there have to be `least` bytes and `words` words of 8.
#[tactic(auto, unfolding(crate::specs::Extents::need_or, mdf4::specs::Act::and_then, mdf4::specs::Act::check))]
pub fn need_from_block(len: u64, offset: u64, least: u64, words: u64) -> Result<u64, MdfError>
    requires { offset ≤ len }
    ensures { told result ≡ need_or len offset (least + 8 * words) }
{
    let actual = len - offset;
    if actual < least || (actual - least) / 8 < words {
        return Err(MdfError::TooShortBuffer {
            place: offset,
            expected: words.saturating_mul(8).saturating_add(least),
            actual,
        });
    }
    Ok(least + 8 * words)
}

// Of a kind with the mark `id` of which `len` bytes are read whatever its header says.
#[tactic(auto, using(crate::proofs::Fixed::fixed_refused, crate::proofs::Fixed::fixed_read))]
pub(crate) fn fixed_extent(file: &[u8], offset: u64, len: u64, id: u32) -> Result<u64, MdfError>
    requires { 24 ≤ len }
    ensures { (k : spec.Kind) → IsFixed k len id → told result ≡ parsed length k file.now offset }
{
    BlockHeader::parse_marked(file, offset, len, id)?;
    Ok(len)
}
