// Whether a recording is finalised (document 02, order 4): what an entry asks that must not take an unfinished one.
#![tactic(auto)]

ghost use Rattle.std.specs.Prelude.{◌≡◌, ◌≤◌, length};
ghost use Rattle.mdf4.specs.Layout.{finalized};
ghost use Rattle.blocks.specs.Errors.{told};

use blocks::error::MdfError;
use blocks::identification_block::IdentificationBlock;

// Of a recording whose identification is there.
#[tactic(auto, unfolding(mdf4::specs::Layout::finalized, mdf4::specs::Act::check), using(crate::proofs::Words::words_are))]
pub fn check_finalized(file: &[u8]) -> Result<(), MdfError>
    requires { 64 ≤ length file.now }
    ensures { told result ≡ finalized file.now }
{
    let id = IdentificationBlock::fields(file);
    let standard = id.standard_unfinalized_flags;
    let custom = id.custom_unfinalized_flags;
    if standard != 0 || custom != 0 {
        return Err(MdfError::Unfinalized {
            standard: u64::from(standard),
            custom: u64::from(custom),
        });
    }
    Ok(())
}
