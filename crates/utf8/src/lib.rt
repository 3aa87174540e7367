// UTF-8 as Rust's String::from_utf8_lossy, char::is_whitespace and trim have it. specs/ says what these mean.
// A text is a slice of bytes, and what is cut from it is a part of that slice. It may be ill-formed, which str::trim and its
// kin do not take. The library's utf8_chunks and from_utf8 promise their own decoder's parts: that these are specs/'s would
// be a second proof of the decoder, and is no plainer.
#![tactic(auto)]

ghost use Rattle.std.specs.Prelude.{◌≡◌, ◌-◌, ◌≤◌, ◌<◌, length, take, drop};
ghost use Rattle.utf8.specs.Utf8.{lead_of, trailing, step_of, width_of, chunks, bytes_of, char_count, valid_utf8};
ghost use Rattle.utf8.specs.White.{is_white, code_point, white_chunk, trim_start, trim_end, trim};
ghost use Rattle.utf8.specs.Nul.{trim_start_nuls, trim_end_nuls, trim_nuls, before_nul};
ghost use Rattle.utf8.specs.Parts.{IsPart, held};

// What a first byte asks of the bytes after it: nothing; it starts no sequence; or a second byte of lo..=hi and then
// `more` bytes of 0x80..=0xBF.
#[derive(Clone, Copy, Debug, PartialEq, Eq)]
pub enum Lead {
    Ascii,
    Never,
    Second { lo: u8, hi: u8, more: usize },
}

// What stands at the front of some bytes, with its number of bytes: a character, or the maximal subpart of an ill-formed
// sequence.
#[derive(Clone, Copy, Debug, PartialEq, Eq)]
pub enum Step {
    Char(usize),
    Junk(usize),
}

impl Step {
    // What stands at the front of the text.
    #[inline(always)]
    pub fn of(text: &[u8]) -> Step
        requires { 0 < length text.now }
        ensures { result ≡ step_of text.now }
    {
        match lead_of(text[0]) {
            Lead::Ascii => Step::Char(1),
            Lead::Never => Step::Junk(1),
            Lead::Second { lo, hi, more } => {
                if text.len() < 2 || text[1] < lo || hi < text[1] {
                    return Step::Junk(1);
                }
                let n = trail(&text[2..], more);
                if n == more {
                    Step::Char(2 + n)
                } else {
                    Step::Junk(2 + n)
                }
            }
        }
    }

    // Its number of bytes.
    pub fn width(self) -> usize
        ensures { result ≡ width_of self }
    {
        match self {
            Step::Char(n) | Step::Junk(n) => n,
        }
    }
}

// A part of a text: the bytes of a character, or of an ill-formed run.
#[derive(Clone, Copy, Debug, PartialEq, Eq)]
pub enum Chunk<'a> {
    Char(&'a [u8]),
    Junk(&'a [u8]),
}

impl<'a> Chunk<'a> {
    // Its bytes.
    #[tactic(auto, unfolding(crate::specs::Utf8::bytes_of))]
    fn bytes(self) -> &'a [u8]
        ensures { result.now ≡ bytes_of (held self.entry) }
    {
        match self {
            Chunk::Char(s) | Chunk::Junk(s) => s,
        }
    }

    // Whether it is a character of White_Space.
    #[tactic(auto, unfolding(crate::specs::White::white_chunk))]
    fn is_white(self) -> bool
        ensures { result ≡ white_chunk (held self.entry) }
    {
        match self {
            Chunk::Char(s) => is_white(code_point(s)),
            Chunk::Junk(_) => false,
        }
    }
}

// The parts of a text, one after the other, as an iterator. It holds the text that is left.
#[derive(Debug, Drop)]
pub struct Chunks<'a> {
    pub rest: &'a [u8],
}

impl<'a> Iterator for Chunks<'a> {
    ghost use Rattle.std.specs.Iterator.{YieldsFirstBy, item_count};
    ghost use Rattle.utf8.specs.Parts.{held, left};

    type Item = Chunk<'a>;

    ghost next_gives = { YieldsFirstBy held left };

    ghost remaining = { item_count left };

    #[inline(always)]
    #[tactic(auto, using(crate::proofs::Decoding::front_part))]
    fn next(&mut self) -> Option<Chunk<'a>> {
        if self.rest.is_empty() {
            return None;
        }
        let step = Step::of(self.rest);
        let (front, rest) = self.rest.split_at(step.width());
        self.rest = rest;
        match step {
            Step::Char(_) => Some(Chunk::Char(front)),
            Step::Junk(_) => Some(Chunk::Junk(front)),
        }
    }
}

// What the first byte `b` asks of the bytes after it.
#[tactic(auto, using(crate::proofs::Rules::tests), unfolding(crate::specs::Utf8::lead_of))]
pub fn lead_of(b: u8) -> Lead
    ensures { result ≡ lead_of b }
{
    // before the others, as most bytes are: in one match the single numbers are told apart first
    if b < 0x80 {
        return Lead::Ascii;
    }
    let (lo, hi, more) = match b {
        0xc2..=0xdf => (0x80, 0xbf, 0),
        0xe0 => (0xa0, 0xbf, 1),
        0xed => (0x80, 0x9f, 1),
        0xe1..=0xef => (0x80, 0xbf, 1),
        0xf0 => (0x90, 0xbf, 2),
        0xf1..=0xf3 => (0x80, 0xbf, 2),
        0xf4 => (0x80, 0x8f, 2),
        _ => return Lead::Never,
    };
    Lead::Second { lo, hi, more }
}

// How many of the first `more` bytes are of 0x80..=0xBF, up to the first that is not.
fn trail(text: &[u8], more: usize) -> usize
    ensures count { result ≡ trailing more text.now }
    ensures bound { result ≤ length text.now }
{
    text.iter()
        .take(more)
        .take_while(|&&b| 0x80 <= b && b <= 0xbf)
        .count()
}

// The number of characters of the text, decoded with replacement.
#[tactic(auto, unfolding(crate::specs::Utf8::char_count))]
pub fn count_chars(text: &[u8]) -> usize
    ensures { result ≡ char_count text.now }
{
    Chunks { rest: text }.count()
}

// The first `n` characters of the text.
pub fn first_chars(text: &[u8], n: usize) -> &[u8]
    ensures front { result.now ≡ take (length result.now) text.now }
    ensures chars { chunks result.now ≡ take n (chunks text.now) }
{
    let mut len = 0;
    for part in (Chunks { rest: text }).take(n) {
        len += part.bytes().len();
    }
    &text[..len]
}

// Whether the text is well-formed throughout.
pub fn is_utf8(text: &[u8]) -> bool
    ensures { result ≡ valid_utf8 text.now }
{
    Chunks { rest: text }.all(|part| matches!(part, Chunk::Char(_)))
}

// Whether a code point is of White_Space.
#[tactic(auto, using(crate::proofs::White::white))]
pub fn is_white(c: u32) -> bool
    ensures { result ≡ is_white c }
{
    match char::from_u32(c) {
        Some(c) => c.is_whitespace(),
        None => false,
    }
}

// The code point of a character's bytes.
#[tactic(auto, using(crate::proofs::White::code_points))]
fn code_point(char: &[u8]) -> u32
    ensures { result ≡ code_point char.now }
{
    match *char {
        [] => 0,
        [a] => u32::from(a),
        [a, b] => u32::from(a) % 32 * 64 + u32::from(b) % 64,
        [a, b, c] => u32::from(a) % 16 * 4096 + u32::from(b) % 64 * 64 + u32::from(c) % 64,
        [a, b, c, d, ..] => u32::from(a) % 8 * 262144
            + u32::from(b) % 64 * 4096
            + u32::from(c) % 64 * 64
            + u32::from(d) % 64,
    }
}

// The text with white space off its start.
pub fn trim_start(text: &[u8]) -> &[u8]
    ensures back { result.now ≡ drop (length text.now - length result.now) text.now }
    ensures trimmed { chunks result.now ≡ trim_start (chunks text.now) }
{
    let mut start = 0;
    for part in (Chunks { rest: text }) {
        if !part.is_white() {
            break;
        }
        start += part.bytes().len();
    }
    &text[start..]
}

// The text with white space off its end.
pub fn trim_end(text: &[u8]) -> &[u8]
    ensures front { result.now ≡ take (length result.now) text.now }
    ensures trimmed { chunks result.now ≡ trim_end (chunks text.now) }
{
    let mut at = 0;
    let mut end = 0;
    for part in (Chunks { rest: text }) {
        at += part.bytes().len();
        if !part.is_white() {
            end = at;
        }
    }
    &text[..end]
}

// The text with white space off both ends.
pub fn trim(text: &[u8]) -> &[u8]
    ensures part { IsPart text.now result.now }
    ensures trimmed { chunks result.now ≡ trim (chunks text.now) }
{
    trim_end(trim_start(text))
}

// The text with NULs off its start.
pub fn trim_start_nuls(text: &[u8]) -> &[u8]
    ensures back { result.now ≡ drop (length text.now - length result.now) text.now }
    ensures trimmed { result.now ≡ trim_start_nuls text.now }
{
    let nuls = text.iter().take_while(|&&b| b == 0).count();
    &text[nuls..]
}

// The text with NULs off its end. With its start's it has no line in common but the test of a byte.
pub fn trim_end_nuls(text: &[u8]) -> &[u8]
    ensures front { result.now ≡ take (length result.now) text.now }
    ensures trimmed { result.now ≡ trim_end_nuls text.now }
{
    let nuls = text.iter().rev().take_while(|&&b| b == 0).count();
    &text[..text.len() - nuls]
}

// The text with NULs off both ends.
pub fn trim_nuls(text: &[u8]) -> &[u8]
    ensures part { IsPart text.now result.now }
    ensures trimmed { result.now ≡ trim_nuls text.now }
{
    trim_end_nuls(trim_start_nuls(text))
}

// The text before the first NUL.
pub fn before_nul(text: &[u8]) -> &[u8]
    ensures front { result.now ≡ take (length result.now) text.now }
    ensures before { result.now ≡ before_nul text.now }
{
    let end = text.iter().position(|&b| b == 0).unwrap_or(text.len());
    &text[..end]
}
