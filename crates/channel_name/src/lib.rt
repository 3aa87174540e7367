// A channel's name, as read_text_at of block_layout.rs reads it.
#![tactic(auto)]

ghost use Rattle.std.specs.Prelude.{◌≡◌, IfOk, IfSome};
ghost use Rattle.utf8.specs.Parts.{IsPart};
ghost use Rattle.mdf4.specs.Kinds.{make_link};
ghost use Rattle.channel_name.specs.Name.{name_at, name_read};
ghost use Rattle.blocks.specs.declared.error.MdfError.TheVariants.{SumOverflow};

use blocks::common::BlockHeader;
use blocks::error::MdfError;
use blocks::text_block::TextBlock;
use utf8::trim_nuls;

fn past_u64(a: u64, b: u64) -> MdfError
    ensures { result ≡ SumOverflow a a b }
{
    MdfError::SumOverflow { place: a, a, b }
}

// The name's bytes, NULs off both ends; none where no text is read: the name is then empty. Where the Rust panics, on a
// block_len under 24, there is none (document 02, order 2).
#[tactic(auto, using(crate::proofs::Names::name_laws))]
pub fn read_text_at(file: &[u8], addr: u64) -> Result<Option<&[u8]>, MdfError>
    ensures says { name_read result ≡ name_at file.now (make_link file.now addr) }
    ensures part { IfOk result (λ name. IfSome name (λ text. IsPart file.now text.now)) }
{
    if addr == 0 {
        return Ok(None);
    }
    let Some(from) = addr.checked_add(TextBlock::MIN_LEN) else {
        return Err(past_u64(addr, TextBlock::MIN_LEN));
    };
    let len = file.len() as u64;
    if len < from {
        return Ok(None);
    }
    let header = BlockHeader::fields(&file[addr as usize..from as usize]);
    if header.id != TextBlock::ID {
        return Ok(None);
    }
    let Some(end) = addr.checked_add(header.block_len) else {
        return Err(past_u64(addr, header.block_len));
    };
    if end < from || len < end {
        return Ok(None);
    }
    Ok(Some(trim_nuls(&file[from as usize..end as usize])))
}
