// Replays recorded answers of Rust's own texts and numbers: standard input is what tools/leaves.rs wrote. Prints the place of each
// record that is answered otherwise, and how many there are.
#![tactic(auto)]

ghost use Rattle.std.specs.Prelude.{◌+◌, ◌<◌, length, IfSome};

use blocks::data_type::put_data_type;
use blocks::identification_block::IdentificationBlock;
use fmt::{Page, lossy_len, signed16};
use little_endian::{read_u16, read_u32, read_u64};
use reading::read_full;
use std::io;
use utf8::{before_nul, count_chars, is_utf8, is_white, trim, trim_end, trim_nuls};

// What is asked about, in the order of the numbers that the records have (tools/leaves.rs), from 1 on.
#[derive(Clone, Copy)]
enum Asked {
    Lossy,
    Characters,
    Trim,
    TrimEnd,
    IsUtf8,
    TrimNuls,
    BeforeNul,
    Preview,
    OneLinePreview,
    LossyLen,
    FilledText,
    FilledNumber,
    Signed,
    IsWhite,
    DataType,
    Version,
}

impl Asked {
    // What the records call by a number. 0 is asked as 11 is; above 16 nothing is.
    fn of(number: u8) -> Option<Asked> {
        Some(match number {
            1 => Asked::Lossy,
            2 => Asked::Characters,
            3 => Asked::Trim,
            4 => Asked::TrimEnd,
            5 => Asked::IsUtf8,
            6 => Asked::TrimNuls,
            7 => Asked::BeforeNul,
            8 => Asked::Preview,
            9 => Asked::OneLinePreview,
            10 => Asked::LossyLen,
            0 | 11 => Asked::FilledText,
            12 => Asked::FilledNumber,
            13 => Asked::Signed,
            14 => Asked::IsWhite,
            15 => Asked::DataType,
            16 => Asked::Version,
            _ => return None,
        })
    }
}

// A record: what is asked, if anything, of which bytes, and what Rust answered.
#[derive(Clone, Copy)]
struct Record<'a> {
    asked: Option<Asked>,
    input: &'a [u8],
    answer: &'a [u8],
}

// A bool as Rust prints it: a page has no Display, as it writes bytes into lent memory.
fn put_bool(page: &mut Page<'_>, b: bool) {
    page.put_bytes(if b { b"true" } else { b"false" });
}

fn put_version(page: &mut Page<'_>, text: &[u8]) {
    match IdentificationBlock::parse_block_version(text) {
        Ok(version) => page.put_dec(version as u64),
        Err(e) => {
            let r = e.numbers();
            page.put_format(b"% % % %", &[r.number, r.place, r.a, r.b]);
        }
    }
}

impl Record<'_> {
    // What is answered here; nothing where nothing is asked, and nothing of a number that has not its bytes.
    fn put_answer(&self, page: &mut Page<'_>) {
        let Some(asked) = self.asked else {
            return;
        };
        let b = self.input;
        match (asked, b.len()) {
            (Asked::Lossy, _) => page.put_lossy(b),
            (Asked::Characters, _) => page.put_dec(count_chars(b) as u64),
            (Asked::Trim, _) => page.put_lossy(trim(b)),
            (Asked::TrimEnd, _) => page.put_lossy(trim_end(b)),
            (Asked::IsUtf8, _) => put_bool(page, is_utf8(b)),
            (Asked::TrimNuls, _) => page.put_lossy(trim_nuls(b)),
            (Asked::BeforeNul, _) => page.put_lossy(before_nul(b)),
            (Asked::Preview, _) => page.put_preview(b, 48, false),
            (Asked::OneLinePreview, _) => page.put_preview(b, 48, true),
            (Asked::LossyLen, _) => page.put_dec(lossy_len(b)),
            (Asked::FilledText, _) => page.put_left(b, 28),
            (Asked::FilledNumber, 8) => page.put_format(b"%|!|*|&|^|~|$", &[read_u64(b, 0); 7]),
            (Asked::Signed, 2) => page.put_i16(signed16(read_u16(b, 0))),
            (Asked::IsWhite, 4) => put_bool(page, is_white(read_u32(b, 0))),
            (Asked::DataType, 1) => put_data_type(page, b[0]),
            (Asked::Version, _) => put_version(page, b),
            _ => {}
        }
    }

    fn is_answered(&self) -> bool {
        let mut out = [0u8; 1024];
        let mut page = Page::new(&mut out);
        self.put_answer(&mut page);
        let n = page.at;
        out.get(..n) == Some(self.answer)
    }
}

// The record at the front of the records, and those behind it; none where its bytes aren't there.
fn next(b: &[u8]) -> Option<(Record<'_>, &[u8])>
    ensures { IfSome result (λ it. length it.1.now < length b.now) }
{
    let (&[kind, n0, n1, m0, m1], b) = b.split_first_chunk::<5>()?;
    let (input, b) = b.split_at_checked(u16::from_le_bytes([n0, n1]) as usize)?;
    let (answer, b) = b.split_at_checked(u16::from_le_bytes([m0, m1]) as usize)?;
    let record = Record {
        asked: Asked::of(kind),
        input,
        answer,
    };
    Some((record, b))
}

fn say(rt: &impl Print, place: usize) -> io::Result<()> {
    println!(rt; "differs: the record at {place}")
}

fn replay(rt: &impl Print, b: &[u8]) -> io::Result<()> {
    let mut rest = b;
    let mut read: usize = 0;
    let mut differ: usize = 0;
    // a record says where the next one begins: an iterator of their own would be longer than this loop, its one use
    while !rest.is_empty() {
        let place = b.len() - rest.len();
        let Some((record, after)) = next(rest) else {
            return say(rt, place);
        };
        if !record.is_answered() {
            say(rt, place)?;
            differ += 1;
        }
        read += 1;
        rest = after;
    }
    println!(rt; "{read} records, {differ} differ")
}

fn main(rt: HostRuntime) -> io::Result<()> {
    let mut buf = [0u8; 262144];
    let n = read_full(&mut rt.reader(), &mut buf)?;
    replay(&rt, &buf[..n])
}
