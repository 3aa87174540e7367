// Bytes into a lent output, in place of Rust's format!. specs/ says what is written.
#![tactic(auto)]

ghost use Rattle.std.specs.Prelude.{◌≡◌, ◌∷◌, [], ◌<◌, ◌≤◌, ◌-◌, ◌^◌, min, length, replicate};
ghost use Rattle.fmt.specs.Text.{Wrote, Writes};
ghost use Rattle.fmt.specs.Digits.{digit, digits, pad_left, pad_right, dec, dec_right, hex, i16_of, dec_signed};
ghost use Rattle.fmt.specs.Format.{piece, takes, format};
ghost use Rattle.fmt.specs.Preview.{flat, preview};
ghost use Rattle.utf8.specs.Utf8.{char, chunks, shown_all, lossy};

use utf8::{Chunk, Chunks, count_chars, first_chars, is_utf8};

// A lent output, and the number of bytes that were to be written into it so far, those that did not fit among them.
// It is no fmt::Write: that trait promises nothing of an Err, and what is here cannot fail.
#[derive(Drop)]
pub struct Page<'a> {
    pub out: &'a mut [u8],
    pub at: usize,
}

impl<'a> Page<'a> {
    pub fn new(out: &'a mut [u8]) -> Page<'a>
        ensures same_reference { result.out.ghost_name ≡ out.entry.ghost_name }
        ensures out { result.out.now ≡ out.old }
        ensures at { result.at ≡ 0 }
    {
        Page { out, at: 0 }
    }
}

impl Page<'_> {
    // One byte: it is stored if it fits, and it counts either way. The count stops at 2^64 - 1.
    pub fn put(&mut self, b: u8)
        ensures { Writes self.old (b ∷ []) self.new }
    {
        self.at = store(self.out, self.at, b);
    }

    // The bytes of s.
    #[inline]
    pub fn put_bytes(&mut self, s: &[u8])
        ensures { Writes self.old s.now self.new }
    {
        self.at = store_bytes(self.out, self.at, s);
    }

    // The byte b, n times.
    pub fn put_times(&mut self, b: u8, n: usize)
        ensures { Writes self.old (replicate n b) self.new }
    {
        self.at = store_times(self.out, self.at, b, n);
    }

    // The digit that stands for a number below 16.
    fn put_digit(&mut self, d: u64)
        requires { d < 16 }
        ensures { Writes self.old (digit d ∷ []) self.new }
    {
        let zero = if d < 10 { b'0' } else { b'a' - 10 };
        self.put(zero + (d as u8));
    }

    // x in a base, at least width bytes wide, with the filler pad before it.
    fn put_number(&mut self, x: u64, base: u64, width: usize, pad: u8)
        requires { (2 ≤ base) × (base ≤ 16) }
        ensures { Writes self.old (pad_left width pad (digits base x)) self.new }
    {
        let before = width.saturating_sub(1);
        if x < base {
            self.put_times(pad, before);
            self.put_digit(x);
        } else {
            self.put_number(x / base, base, before, pad);
            self.put_digit(x % base);
        }
    }

    // `{}`
    pub fn put_dec(&mut self, x: u64)
        ensures { Writes self.old (dec x) self.new }
    {
        self.put_number(x, 10, 0, b' ');
    }

    // `{:>width}`
    pub fn put_dec_right(&mut self, x: u64, width: usize)
        ensures { Writes self.old (dec_right width x) self.new }
    {
        self.put_number(x, 10, width, b' ');
    }

    // `{:0leastx}`
    pub fn put_hex(&mut self, x: u64, least: usize)
        ensures { Writes self.old (hex least x) self.new }
    {
        self.put_number(x, 16, least, b'0');
    }

    // `{:<width}`
    pub fn put_left(&mut self, s: &[u8], width: usize)
        ensures { Writes self.old (pad_right width 32 s.now) self.new }
    {
        self.put_bytes(s);
        self.put_times(b' ', width.saturating_sub(s.len()));
    }

    // The text for a byte of a template.
    fn put_piece(&mut self, b: u8, x: u64)
        ensures { Writes self.old (piece b x) self.new }
    {
        match b {
            b'%' => self.put_dec(x),
            b'!' => self.put_dec_right(x, 10),
            b'*' => self.put_hex(x, 0),
            b'&' => self.put_hex(x, 2),
            b'^' => self.put_hex(x, 4),
            b'~' => self.put_hex(x, 8),
            b'$' => self.put_hex(x, 10),
            _ => self.put(b),
        }
    }

    // The text of a template and numbers.
    pub fn put_format(&mut self, t: &[u8], xs: &[u64])
        ensures { Writes self.old (format t.now xs.now) self.new }
    {
        let mut j = 0;
        for &b in t {
            self.put_piece(b, xs.get(j).copied().unwrap_or(0));
            j += takes_of(b);
        }
    }

    // A signed number in decimal.
    pub fn put_i16(&mut self, x: i16)
        ensures { Writes self.old (dec_signed x) self.new }
    {
        if x < 0 {
            self.put(b'-');
        }
        self.put_dec(u64::from(x.unsigned_abs()));
    }

    // The text, with U+FFFD for what is ill-formed; for one line, spaces in place of line feeds.
    fn put_chunks(&mut self, text: &[u8], one: bool)
        ensures { Writes self.old (shown_all (flat one (chunks text.now))) self.new }
    {
        self.at = store_chunks(self.out, self.at, text, one);
    }

    // The text, as `String::from_utf8_lossy` has it. One that is well-formed is written as it stands.
    pub fn put_lossy(&mut self, text: &[u8])
        ensures { Writes self.old (lossy text.now) self.new }
    {
        if is_utf8(text) {
            self.put_bytes(text);
        } else {
            self.put_chunks(text, false);
        }
    }

    // The first n characters of that text, and "..." where it has more; for one line, spaces in place of line feeds.
    pub fn put_preview(&mut self, text: &[u8], n: usize, one: bool)
        ensures { Writes self.old (preview n (flat one (chunks text.now))) self.new }
    {
        if count_chars(text) <= n {
            self.put_chunks(text, one);
        } else {
            self.put_chunks(first_chars(text, n), one);
            self.put_bytes(b"...");
        }
    }
}

// One byte at a place of an output: it is stored if it fits, and it counts either way. What is written has its output and its count as
// values: a page's would be loaded and stored for each byte.
#[inline(always)]
fn store(out: &mut [u8], at: usize, b: u8) -> usize
    ensures { Wrote out.old at (b ∷ []) out.new result }
{
    if at < out.len() {
        out[at] = b;
        at + 1
    } else {
        at.saturating_add(1)
    }
}

// The bytes of s, one after the other.
#[inline(always)]
fn store_each(out: &mut [u8], at: usize, s: &[u8]) -> usize
    ensures { Wrote out.old at s.now out.new result }
{
    let mut at = at;
    for &b in s {
        at = store(out, at, b);
    }
    at
}

// The bytes of s, also those for which there is no room. It stands apart, so that what calls `put_bytes` stays short.
#[inline(never)]
fn store_past(out: &mut [u8], at: usize, s: &[u8]) -> usize
    ensures { Wrote out.old at s.now out.new result }
{
    store_each(out, at, s)
}

// The bytes of s. Where all of them fit, as nearly always, they are stored without a test for each; not by `copy_from_slice`, for which
// an archive for C needs `memmove` from outside.
#[inline]
fn store_bytes(out: &mut [u8], at: usize, s: &[u8]) -> usize
    ensures { Wrote out.old at s.now out.new result }
{
    if at <= out.len() && s.len() <= out.len() - at {
        let mut end = at;
        for &b in s {
            out[end] = b;
            end += 1;
        }
        end
    } else {
        store_past(out, at, s)
    }
}

// The byte b, n times, as `store_past`.
#[inline(never)]
fn store_again(out: &mut [u8], at: usize, b: u8, n: usize) -> usize
    ensures { Wrote out.old at (replicate n b) out.new result }
{
    let mut at = at;
    for _ in 0..n {
        at = store(out, at, b);
    }
    at
}

// The byte b, n times, as `store_bytes`.
fn store_times(out: &mut [u8], at: usize, b: u8, n: usize) -> usize
    ensures { Wrote out.old at (replicate n b) out.new result }
{
    if at <= out.len() && n <= out.len() - at {
        out[at..at + n].fill(b);
        at + n
    } else {
        store_again(out, at, b, n)
    }
}

// A character; for one line, a space in place of a line feed.
#[inline(always)]
fn store_char(out: &mut [u8], at: usize, c: &[u8], one: bool) -> usize
    ensures { Wrote out.old at (shown_all (flat one (char c.now ∷ []))) out.new result }
{
    if c.len() == 1 {
        let b = c[0];
        store(out, at, if one && b == b'\n' { b' ' } else { b })
    } else {
        store_each(out, at, c)
    }
}

// The parts of a text, one after the other, as `put_chunks`.
#[inline(never)]
fn store_chunks(out: &mut [u8], at: usize, text: &[u8], one: bool) -> usize
    ensures { Wrote out.old at (shown_all (flat one (chunks text.now))) out.new result }
{
    let mut at = at;
    for part in (Chunks { rest: text }) {
        at = match part {
            Chunk::Char(c) => store_char(out, at, c, one),
            Chunk::Junk(_) => store_each(out, at, b"\xef\xbf\xbd"),
        };
    }
    at
}

// How many numbers a byte of a template takes.
fn takes_of(b: u8) -> usize
    ensures number { result ≡ takes b }
    ensures bound { result ≤ 1 }
{
    usize::from(matches!(b, b'%' | b'!' | b'*' | b'&' | b'^' | b'~' | b'$'))
}

// The number whose 16 bits are those of u, the highest one its sign: std's cast under a name of its own, whose
// contract has the definition's value.
pub fn signed16(u: u16) -> i16
    ensures { result ≡ i16_of u }
{
    u.cast_signed()
}

// How many bytes put_lossy writes; at most 2^64 - 1.
pub fn lossy_len(text: &[u8]) -> u64
    ensures { result ≡ min (length (lossy text.now)) (2 ^ 64 - 1) }
{
    let mut len: u64 = 0;
    for part in (Chunks { rest: text }) {
        len = len.saturating_add(match part {
            Chunk::Char(c) => c.len() as u64,
            Chunk::Junk(_) => 3,
        });
    }
    len
}
