// The line below a block, one function for each kind that has one: indented by 44, and ended by a line feed.
ghost use Rattle.std.specs.Prelude.{◌<◌, ltb};
ghost use Rattle.fmt.specs.Format.{format};
ghost use Rattle.fmt.specs.Text.{Writes};
ghost use Rattle.mdf4.specs.Act.{ID, HD, CG, CN, DT, DL};
ghost use Rattle.mdf4.specs.Describe.{extra_line, trailing_bytes, records, indented};
ghost use Rattle.tables.specs.Rows.{row_of};
ghost use Rattle.describe.specs.Info.{OfKind};

use crate::descriptions::payload_len;
use crate::fields::fields_of;
use blocks::channel_block::ChannelBlock;
use blocks::channel_group_block::ChannelGroupBlock;
use blocks::data_list_block::DataListBlock;
use blocks::header_block::HeaderBlock;
use blocks::identification_block::IdentificationBlock;
use fmt::Page;
use tables::BlockInfo;

// Blanks that the line begins with.
const INDENT: usize = 44;

// A template and its numbers, as such a line.
fn put_line(page: &mut Page<'_>, t: &[u8], xs: &[u64])
    ensures { Writes page.old (indented (format t.now xs.now)) page.new }
{
    page.put_times(b' ', INDENT);
    page.put_format(t, xs);
    page.put(b'\n');
}

pub fn extra_identification(page: &mut Page<'_>, file: &[u8], block: &BlockInfo)
    requires { OfKind ID file.now block.now }
    ensures { Writes page.old (extra_line file.now (row_of block.now)) page.new }
{
    let id = IdentificationBlock::fields(&file[block.offset as usize..]);
    put_line(
        page,
        b"version_number=%, standard_unfinalized_flags=0x^, custom_unfinalized_flags=0x^",
        &[
            u64::from(id.version_number),
            u64::from(id.standard_unfinalized_flags),
            u64::from(id.custom_unfinalized_flags),
        ],
    );
}

pub fn extra_header(page: &mut Page<'_>, file: &[u8], block: &BlockInfo)
    requires { OfKind HD file.now block.now }
    ensures { Writes page.old (extra_line file.now (row_of block.now)) page.new }
{
    let hd: HeaderBlock = fields_of(file, block);
    put_line(
        page,
        b"flags=0x&, time_flags=0x&, time_quality=0x&",
        &[
            u64::from(hd.flags),
            u64::from(hd.time_flags),
            u64::from(hd.time_quality),
        ],
    );
}

pub fn extra_channel_group(page: &mut Page<'_>, file: &[u8], block: &BlockInfo)
    requires { OfKind CG file.now block.now }
    ensures { Writes page.old (extra_line file.now (row_of block.now)) page.new }
{
    let cg: ChannelGroupBlock = fields_of(file, block);
    put_line(
        page,
        b"flags=0x^, record_id=%",
        &[u64::from(cg.flags), cg.record_id],
    );
}

pub fn extra_channel(page: &mut Page<'_>, file: &[u8], block: &BlockInfo)
    requires { OfKind CN file.now block.now }
    ensures { Writes page.old (extra_line file.now (row_of block.now)) page.new }
{
    let cn: ChannelBlock = fields_of(file, block);
    put_line(
        page,
        b"flags=0x~, pos_invalidation_bit=%, precision=%",
        &[
            u64::from(cn.flags),
            u64::from(cn.pos_invalidation_bit),
            u64::from(cn.precision),
        ],
    );
}

// What is left of a payload after its records, if anything.
fn put_trailing(page: &mut Page<'_>, rest: u64)
    ensures { Writes page.old (trailing_bytes rest) page.new }
{
    if 0 < rest {
        page.put_format(b", trailing=%B", &[rest]);
    }
}

// A data block's payload, and its records where they have a size.
fn put_records(page: &mut Page<'_>, block: &BlockInfo)
    ensures { Writes page.old (records (ltb 0 block.now.record_size) (row_of block.now)) page.new }
{
    let payload = payload_len(block);
    if block.record_size == 0 {
        page.put_format(b"payload=% bytes (header=24 bytes)", &[payload]);
        return;
    }
    page.put_format(
        b"payload=% bytes, header=24 bytes, record layout = %B (record_id=%B + data + invalidation=%B), records=%",
        &[
            payload,
            block.record_size,
            block.record_id_len,
            block.invalidation_bytes,
            payload / block.record_size,
        ],
    );
    put_trailing(page, payload % block.record_size);
}

pub fn extra_data(page: &mut Page<'_>, file: &[u8], block: &BlockInfo)
    requires { OfKind DT file.now block.now }
    ensures { Writes page.old (extra_line file.now (row_of block.now)) page.new }
{
    page.put_times(b' ', INDENT);
    put_records(page, block);
    page.put(b'\n');
}

pub fn extra_data_list(page: &mut Page<'_>, file: &[u8], block: &BlockInfo)
    requires { OfKind DL file.now block.now }
    ensures { Writes page.old (extra_line file.now (row_of block.now)) page.new }
{
    let dl: DataListBlock = fields_of(file, block);
    put_line(page, b"flags=0x&", &[u64::from(dl.flags)]);
}
