// The identification, as identification_block.rs reads it: the first 64 bytes of a recording.
ghost use Rattle.std.specs.Prelude.{◌≡◌, ◌≤◌, length, IfOk};
ghost use Rattle.mdf4.specs.Act.{refusal};
ghost use Rattle.mdf4.specs.Bytes.{bytes};
ghost use Rattle.mdf4.specs.Version.{before_dot, from_dot, parse_u16, parse_minor, version};
ghost use Rattle.blocks.specs.Errors.{part_number, told};
ghost use Rattle.blocks.specs.IdentificationBlock.{version_number, version_of_text, identified, identification_of, identification, identification_read, Parts};

use crate::error::{MdfError, VersionPart};
use little_endian::{read_u16, read_u64};
use utf8::{is_utf8, trim, trim_end, trim_end_nuls};

// The text before the first '.', and what stands from it on.
fn split_at_dot(text: &[u8]) -> (&[u8], &[u8])
    ensures before { result.0.now ≡ before_dot text.now }
    ensures rest { result.1.now ≡ from_dot text.now }
{
    let dot = text.iter().position(|&b| b == b'.').unwrap_or(text.len());
    text.split_at(dot)
}

// As Rust's parse::<u16>; `part` says which part of the version the text is. One that is no UTF-8 is no number either.
#[tactic(auto, using(crate::proofs::Version::parse_ok, crate::proofs::Version::parse_err, crate::proofs::Version::parse_no_text))]
fn parse_u16(text: &[u8], part: VersionPart) -> Result<u16, MdfError>
    ensures { told result ≡ parse_u16 (refusal 3 8 (part_number part) 0) text.now }
{
    str::from_utf8(text)
        .ok()
        .and_then(|t| t.parse().ok())
        .ok_or(MdfError::InvalidVersionString {
            part: u64::from(part),
        })
}

// The minor part, of what stands from the first '.' on.
fn parse_minor(text: &[u8]) -> Result<u16, MdfError>
    ensures { told result ≡ parse_minor (refusal 3 8 3 0) text.now }
{
    match text {
        [] => Ok(0),
        [_, rest @ ..] => parse_u16(split_at_dot(rest).0, VersionPart::Minor),
    }
}

#[tactic(auto, unfolding(crate::specs::IdentificationBlock::version_number, mdf4::specs::Act::and_then, mdf4::specs::Act::check))]
fn number_of(major: u16, minor: u16) -> Result<u16, MdfError>
    ensures { told result ≡ version_number major minor }
{
    let sum = u32::from(major) * 100 + u32::from(minor);
    if 0xffff < sum {
        return Err(MdfError::SumOverflow {
            place: 8,
            a: u64::from(major),
            b: u64::from(minor),
        });
    }
    if sum < 410 {
        return Err(MdfError::FileVersioningError {
            number: u64::from(sum),
        });
    }
    Ok(sum as u16)
}

// The version of a trimmed text.
#[tactic(auto, unfolding(crate::specs::IdentificationBlock::version_of_text, mdf4::specs::Act::and_then))]
fn version_of(text: &[u8]) -> Result<u16, MdfError>
    ensures { told result ≡ version_of_text text.now }
{
    let (major, rest) = split_at_dot(text);
    let major = parse_u16(major, VersionPart::Major)?;
    let minor = parse_minor(rest)?;
    number_of(major, minor)
}

#[derive(Clone, Copy)]
pub struct IdentificationBlock<'a> {
    pub version: &'a [u8],
    pub program: &'a [u8],
    pub version_number: u16,
    pub standard_unfinalized_flags: u16,
    pub custom_unfinalized_flags: u16,
}

impl<'a> IdentificationBlock<'a> {
    // "##ID"
    pub const ID: u32 = 0x4449_2323;

    pub const MIN_LEN: u64 = 64;

    // "MDF     "
    pub const FILE_IDENTIFIER: u64 = 0x2020_2020_2046_444d;

    #[tactic(auto, using(crate::proofs::Version::version_bad, crate::proofs::Version::version_good))]
    pub fn parse_block_version(text: &[u8]) -> Result<u16, MdfError>
        ensures { told result ≡ version text.now }
    {
        if !is_utf8(text) {
            return Err(MdfError::InvalidVersionString {
                part: u64::from(VersionPart::Utf8),
            });
        }
        version_of(trim(trim_end_nuls(text)))
    }

    // The fields of the block.
    pub fn fields(file: &'a [u8]) -> IdentificationBlock<'a>
        requires { 64 ≤ length file.now }
        ensures says { identified result ≡ identification_of (bytes file.now 0 64) }
        ensures parts { Parts file.now result }
    {
        IdentificationBlock {
            version: trim(&file[8..16]),
            program: trim_end(&file[16..24]),
            version_number: read_u16(file, 28),
            standard_unfinalized_flags: read_u16(file, 60),
            custom_unfinalized_flags: read_u16(file, 62),
        }
    }

    pub fn parse(file: &'a [u8]) -> Result<IdentificationBlock<'a>, MdfError>
        ensures says { identification_read result ≡ identification file.now }
        ensures parts { IfOk result (Parts file.now) }
    {
        let len = file.len() as u64;
        if len < IdentificationBlock::MIN_LEN {
            return Err(MdfError::TooShortBuffer {
                place: 0,
                expected: IdentificationBlock::MIN_LEN,
                actual: len,
            });
        }
        if read_u64(file, 0) != IdentificationBlock::FILE_IDENTIFIER {
            return Err(MdfError::FileIdentifierError);
        }
        IdentificationBlock::parse_block_version(&file[8..16])?;
        Ok(IdentificationBlock::fields(file))
    }
}
