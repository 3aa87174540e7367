// Data blocks: ##DT, ##DV, ##RD and ##RV hold records, ##SD signal data. Of them, and of a data block with another mark, the
// header alone is read.
ghost use Rattle.std.specs.Prelude.{◌≡◌, ℕ};
ghost use Rattle.mdf4.specs.Act.{SD};
ghost use Rattle.mdf4.specs.Kinds.{shape, leads_to};
ghost use Rattle.mdf4.specs.Walk.{leads_to_data};
ghost use Rattle.blocks.specs.Errors.{told};
ghost use Rattle.blocks.specs.Headers.{inside_or};

use crate::common::{BlockHeader, leads_to};
use crate::error::MdfError;

#[derive(Drop)]
pub struct DataBlock {}

impl DataBlock {
    // "##DT"
    pub const DT: u32 = 0x5444_2323;

    // "##DV"
    pub const DV: u32 = 0x5644_2323;

    // "##RD"
    pub const RD: u32 = 0x4452_2323;

    // "##RV"
    pub const RV: u32 = 0x5652_2323;

    // "##SD"
    pub const SD: u32 = 0x4453_2323;

    pub const MIN_LEN: u64 = BlockHeader::LEN;

    // Whether a link leads to data with records, by what was found at its target.
    #[tactic(auto, unfolding(mdf4::specs::Walk::leads_to_data, mdf4::specs::Bytes::little))]
    pub fn is_target(found: u64) -> bool
        ensures { (t : ℕ) → result ≡ leads_to_data (record { target = t; found = found }) }
    {
        leads_to(found, DataBlock::DT)
            || leads_to(found, DataBlock::DV)
            || leads_to(found, DataBlock::RD)
            || leads_to(found, DataBlock::RV)
    }

    // The same of signal data.
    #[tactic(auto, unfolding(mdf4::specs::Kinds::shape, mdf4::specs::Bytes::little))]
    pub fn is_signal_target(found: u64) -> bool
        ensures { (t : ℕ) → result ≡ leads_to (shape SD).mark (record { target = t; found = found }) }
    {
        leads_to(found, DataBlock::SD)
    }

    pub fn parse(file: &[u8], offset: u64) -> Result<BlockHeader, MdfError>
        ensures { told result ≡ inside_or file.now offset 24 }
    {
        BlockHeader::parse(file, offset, DataBlock::MIN_LEN)
    }
}
