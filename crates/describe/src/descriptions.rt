// The descriptions, one function for each kind.
ghost use Rattle.std.specs.Prelude.{◌≡◌, ◌-◌, ◌%◌, cond, ◌∷◌, [], eqb};
ghost use Rattle.fmt.specs.Text.{ascii, Writes};
ghost use Rattle.fmt.specs.Format.{format};
ghost use Rattle.mdf4.specs.Act.{ID, HD, DG, CG, CN, SI, TX, MD, DT, SD, DL, UT, UD};
ghost use Rattle.mdf4.specs.Kinds.{make_link};
ghost use Rattle.mdf4.specs.Describe.{describe, name_bytes, name_text};
ghost use Rattle.tables.specs.Rows.{row_of};
ghost use Rattle.describe.specs.Info.{OfKind};

use crate::fields::fields_of;
use blocks::channel_block::ChannelBlock;
use blocks::channel_group_block::ChannelGroupBlock;
use blocks::data_block::DataBlock;
use blocks::data_group_block::DataGroupBlock;
use blocks::data_list_block::DataListBlock;
use blocks::data_type::put_data_type;
use blocks::header_block::HeaderBlock;
use blocks::identification_block::IdentificationBlock;
use blocks::metadata_block::MetadataBlock;
use blocks::source_block::SourceBlock;
use blocks::text_block::TextBlock;
use channel_name::read_text_at;
use fmt::{Page, lossy_len};
use tables::BlockInfo;
use utf8::count_chars;

// Characters that a preview shows.
const PREVIEW: usize = 48;

pub fn describe_identification(page: &mut Page<'_>, file: &[u8], block: &BlockInfo)
    requires { OfKind ID file.now block.now }
    ensures { Writes page.old (describe file.now (row_of block.now)) page.new }
{
    let id = IdentificationBlock::fields(&file[block.offset as usize..]);
    page.put_bytes(b"Identification: version='");
    page.put_lossy(id.version);
    page.put_bytes(b"', program='");
    page.put_lossy(id.program);
    page.put_bytes(b"'");
}

pub fn describe_header(page: &mut Page<'_>, file: &[u8], block: &BlockInfo)
    requires { OfKind HD file.now block.now }
    ensures { Writes page.old (describe file.now (row_of block.now)) page.new }
{
    let hd: HeaderBlock = fields_of(file, block);
    page.put_format(b"Header Block (abs_time=% ns, tz=", &[hd.abs_time]);
    page.put_i16(hd.tz_offset);
    page.put_bytes(b" min)");
}

pub fn describe_data_group(page: &mut Page<'_>, file: &[u8], block: &BlockInfo)
    requires { OfKind DG file.now block.now }
    ensures { Writes page.old (describe file.now (row_of block.now)) page.new }
{
    let dg: DataGroupBlock = fields_of(file, block);
    page.put_format(
        b"Data Group #% (record_id_len=%)",
        &[block.index, u64::from(dg.record_id_len)],
    );
}

pub fn describe_channel_group(page: &mut Page<'_>, file: &[u8], block: &BlockInfo)
    requires { OfKind CG file.now block.now }
    ensures { Writes page.old (describe file.now (row_of block.now)) page.new }
{
    let cg: ChannelGroupBlock = fields_of(file, block);
    page.put_format(
        b"Channel Group #% (cycles=%, record=%B = %B data + %B inval + %B record_id)",
        &[
            block.index,
            cg.cycles_nr,
            block.record_size,
            u64::from(cg.samples_byte_nr),
            block.invalidation_bytes,
            block.record_id_len,
        ],
    );
}

// The name that a link leads to; where it can't be read it is empty.
fn put_name(page: &mut Page<'_>, file: &[u8], addr: u64)
    ensures { Writes page.old (name_text (name_bytes file.now (make_link file.now addr))) page.new }
{
    if let Ok(Some(name)) = read_text_at(file, addr) {
        page.put_lossy(name);
    }
}

pub fn describe_channel(page: &mut Page<'_>, file: &[u8], block: &BlockInfo)
    requires { OfKind CN file.now block.now }
    ensures { Writes page.old (describe file.now (row_of block.now)) page.new }
{
    let cn: ChannelBlock = fields_of(file, block);
    page.put_format(b"Channel #% '", &[block.index]);
    put_name(page, file, cn.name_addr);
    page.put_format(
        b"' (ch_type=%, sync=%, dtype=",
        &[u64::from(cn.channel_type), u64::from(cn.sync_type)],
    );
    put_data_type(page, cn.data_type);
    page.put_format(
        b", %b @ byte=% bit=%)",
        &[
            u64::from(cn.bit_count),
            u64::from(cn.byte_offset),
            u64::from(cn.bit_offset),
        ],
    );
}

pub fn describe_source(page: &mut Page<'_>, file: &[u8], block: &BlockInfo)
    requires { OfKind SI file.now block.now }
    ensures { Writes page.old (describe file.now (row_of block.now)) page.new }
{
    let si: SourceBlock = fields_of(file, block);
    page.put_format(
        b"Source (type=%, bus_type=%, flags=0x&)",
        &[
            u64::from(si.source_type),
            u64::from(si.bus_type),
            u64::from(si.flags),
        ],
    );
}

pub fn describe_text(page: &mut Page<'_>, file: &[u8], block: &BlockInfo)
    requires { OfKind TX file.now block.now }
    ensures { Writes page.old (describe file.now (row_of block.now)) page.new }
{
    let Ok(tx) = TextBlock::parse(file, block.offset) else {
        unreachable!()
    };
    page.put_bytes(b"Text: \"");
    page.put_preview(tx.text, PREVIEW, false);
    page.put_format(b"\" (% chars)", &[count_chars(tx.text) as u64]);
}

pub fn describe_metadata(page: &mut Page<'_>, file: &[u8], block: &BlockInfo)
    requires { OfKind MD file.now block.now }
    ensures { Writes page.old (describe file.now (row_of block.now)) page.new }
{
    let Ok(md) = MetadataBlock::parse(file, block.offset) else {
        unreachable!()
    };
    page.put_format(b"Metadata (XML, % chars): ", &[lossy_len(md.xml)]);
    page.put_preview(md.xml, PREVIEW, true);
}

// The bytes behind a data block's header.
pub fn payload_len(block: &BlockInfo) -> u64
    ensures { result ≡ block.now.size - 24 }
{
    block.size.saturating_sub(DataBlock::MIN_LEN)
}

pub fn describe_data(page: &mut Page<'_>, file: &[u8], block: &BlockInfo)
    requires { OfKind DT file.now block.now }
    ensures { Writes page.old (describe file.now (row_of block.now)) page.new }
{
    page.put_format(b"Data block (% payload bytes)", &[payload_len(block)]);
}

pub fn describe_signal_data(page: &mut Page<'_>, file: &[u8], block: &BlockInfo)
    requires { OfKind SD file.now block.now }
    ensures { Writes page.old (describe file.now (row_of block.now)) page.new }
{
    page.put_format(
        b"Signal data (VLSD stream, % payload bytes)",
        &[payload_len(block)],
    );
}

// A data list's fragment length, where they are all equal.
fn put_equal_length(page: &mut Page<'_>, dl: &DataListBlock)
    ensures { Writes page.old (cond (eqb (dl.now.flags % 2) 1) (format (ascii ", equal_length=%B") (dl.now.data_block_len ∷ [])) []) page.new }
{
    if dl.flags % 2 == 1 {
        page.put_format(b", equal_length=%B", &[dl.data_block_len]);
    }
}

pub fn describe_data_list(page: &mut Page<'_>, file: &[u8], block: &BlockInfo)
    requires { OfKind DL file.now block.now }
    ensures { Writes page.old (describe file.now (row_of block.now)) page.new }
{
    let dl: DataListBlock = fields_of(file, block);
    page.put_format(b"Data List (% fragments", &[u64::from(dl.data_block_nr)]);
    put_equal_length(page, &dl);
    page.put_bytes(b")");
}

pub fn describe_unknown(page: &mut Page<'_>, file: &[u8], block: &BlockInfo)
    requires { OfKind UT file.now block.now }
    ensures { Writes page.old (describe file.now (row_of block.now)) page.new }
{
    page.put_bytes(b"Unknown block (not walked further)");
}

pub fn describe_unknown_data(page: &mut Page<'_>, file: &[u8], block: &BlockInfo)
    requires { OfKind UD file.now block.now }
    ensures { Writes page.old (describe file.now (row_of block.now)) page.new }
{
    page.put_bytes(b"Unknown data block");
}
