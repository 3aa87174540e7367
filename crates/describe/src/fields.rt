// The fields of a block that can be read, by its row.
ghost use Rattle.std.specs.Prelude.{◌≡◌};
ghost use Rattle.mdf4.specs.Describe.{block_bytes};
ghost use Rattle.tables.specs.Rows.{row_of};
ghost use Rattle.describe.specs.Info.{OfKind};

use blocks::common::BlockParse;
use tables::BlockInfo;

pub fn fields_of<B: BlockParse>(file: &[u8], block: &BlockInfo) -> B
    requires { OfKind B.kind file.now block.now }
    ensures { result ≡ B.fields_of (block_bytes file.now (row_of block.now)) }
{
    let Ok(fields) = B::parse(file, block.offset) else {
        unreachable!()
    };
    fields
}
