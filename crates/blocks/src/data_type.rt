// The names of common.rs's DataType, as `{:?}` prints them.
ghost use Rattle.std.specs.Prelude.{◌≡◌};
ghost use Rattle.fmt.specs.Text.{Writes};
ghost use Rattle.mdf4.specs.Describe.{data_type_name};

use fmt::Page;

// The name of a data type.
#[tactic(auto, unfolding(mdf4::specs::Describe::data_type_name, mdf4::specs::Describe::data_type_names))]
fn name_of(t: u8) -> &'static str
    ensures { result.now ≡ data_type_name t }
{
    match t {
        0 => "UnsignedIntegerLE",
        1 => "UnsignedIntegerBE",
        2 => "SignedIntegerLE",
        3 => "SignedIntegerBE",
        4 => "FloatLE",
        5 => "FloatBE",
        6 => "StringLatin1",
        7 => "StringUtf8",
        8 => "StringUtf16LE",
        9 => "StringUtf16BE",
        10 => "ByteArray",
        11 => "MimeSample",
        12 => "MimeStream",
        13 => "CanOpenDate",
        14 => "CanOpenTime",
        15 => "ComplexLE",
        16 => "ComplexBE",
        _ => "Unknown(())",
    }
}

pub fn put_data_type(page: &mut Page<'_>, t: u8)
    ensures { Writes page.old (data_type_name t) page.new }
{
    page.put_bytes(name_of(t).as_bytes());
}
