// What the listing and the tree say of a block: its mark, its description, the line below it, and the names of its links.
// A block is a row of the block table; what it holds is read in the recording.
#![tactic(auto)]

ghost use Rattle.std.specs.Prelude.{◌≡◌};
ghost use Rattle.fmt.specs.Text.{Writes};
ghost use Rattle.mdf4.specs.Describe.{describe, extra_line, mark_bytes, mark_text, mark_column};
ghost use Rattle.mdf4.proofs.Good.{Readable};
ghost use Rattle.tables.specs.Rows.{row_of};

use crate::descriptions::{
    describe_channel, describe_channel_group, describe_data, describe_data_group,
    describe_data_list, describe_header, describe_identification, describe_metadata,
    describe_signal_data, describe_source, describe_text, describe_unknown, describe_unknown_data,
};
use crate::extras::{
    extra_channel, extra_channel_group, extra_data, extra_data_list, extra_header,
    extra_identification,
};
use blocks::kind::Kind;
use fmt::Page;
use tables::BlockInfo;
use utf8::count_chars;

pub mod descriptions;
pub mod extras;
mod fields;
pub mod links;

// The four bytes of a mark.
fn bytes_of(mark: u64) -> [u8; 4]
    ensures { result ≡ mark_bytes mark }
{
    let [a, b, c, d, ..] = mark.to_le_bytes();
    [a, b, c, d]
}

// A mark as text, U+FFFD for what is ill-formed.
pub fn put_mark(page: &mut Page<'_>, mark: u64)
    ensures { Writes page.old (mark_text mark) page.new }
{
    page.put_lossy(&bytes_of(mark));
}

// The same, filled to six characters.
pub fn put_mark_column(page: &mut Page<'_>, mark: u64)
    ensures { Writes page.old (mark_column mark) page.new }
{
    put_mark(page, mark);
    page.put_times(b' ', 6usize.saturating_sub(count_chars(&bytes_of(mark))));
}

// The description of a block. That it can be read is asked here, of the line below it, where both are called, and with its kind of the
// functions of a kind: a struct of recording and row that knows it would be made for one call here, and its kind still be asked there.
pub fn put_description(page: &mut Page<'_>, file: &[u8], block: &BlockInfo)
    requires { Readable file.now (row_of block.now) }
    ensures { Writes page.old (describe file.now (row_of block.now)) page.new }
{
    match block.kind {
        Kind::ID => describe_identification(page, file, block),
        Kind::HD => describe_header(page, file, block),
        Kind::DG => describe_data_group(page, file, block),
        Kind::CG => describe_channel_group(page, file, block),
        Kind::CN => describe_channel(page, file, block),
        Kind::SI => describe_source(page, file, block),
        Kind::TX => describe_text(page, file, block),
        Kind::MD => describe_metadata(page, file, block),
        Kind::DT => describe_data(page, file, block),
        Kind::SD => describe_signal_data(page, file, block),
        Kind::DL => describe_data_list(page, file, block),
        Kind::UT => describe_unknown(page, file, block),
        Kind::UD => describe_unknown_data(page, file, block),
    }
}

// The line below a block; most kinds have none.
pub fn put_extra(page: &mut Page<'_>, file: &[u8], block: &BlockInfo)
    requires { Readable file.now (row_of block.now) }
    ensures { Writes page.old (extra_line file.now (row_of block.now)) page.new }
{
    match block.kind {
        Kind::ID => extra_identification(page, file, block),
        Kind::HD => extra_header(page, file, block),
        Kind::CG => extra_channel_group(page, file, block),
        Kind::CN => extra_channel(page, file, block),
        Kind::DT => extra_data(page, file, block),
        Kind::DL => extra_data_list(page, file, block),
        Kind::DG | Kind::SI | Kind::TX | Kind::MD | Kind::SD | Kind::UT | Kind::UD => {}
    }
}
