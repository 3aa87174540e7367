// Little-endian numbers of a slice at an offset, as Rust's crate byteorder reads them, by std's `from_le_bytes`. The toolchain's
// crate of that name reads the front of a slice and promises its own sum of bytes: each call would cut the slice, and each proof tie that
// sum to the definition's `num`.
#![tactic(auto)]

ghost use Rattle.std.specs.Prelude.{◌≡◌, ◌+◌, ◌≤◌, length};
ghost use Rattle.fmt.specs.Digits.{i16_of};
ghost use Rattle.mdf4.specs.Bytes.{bytes, num};

// The N bytes from `at` on.
fn array<const N: usize>(s: &[u8], at: usize) -> [u8; N]
    requires { at + N ≤ length s.now }
    ensures { result ≡ bytes s.now at N }
{
    *s[at..].first_chunk().unwrap()
}

pub fn read_u8(s: &[u8], at: usize) -> u8
    requires { at + 1 ≤ length s.now }
    ensures { result ≡ num s.now at 1 }
{
    s[at]
}

pub fn read_u16(s: &[u8], at: usize) -> u16
    requires { at + 2 ≤ length s.now }
    ensures { result ≡ num s.now at 2 }
{
    u16::from_le_bytes(array(s, at))
}

pub fn read_u32(s: &[u8], at: usize) -> u32
    requires { at + 4 ≤ length s.now }
    ensures { result ≡ num s.now at 4 }
{
    u32::from_le_bytes(array(s, at))
}

pub fn read_u64(s: &[u8], at: usize) -> u64
    requires { at + 8 ≤ length s.now }
    ensures { result ≡ num s.now at 8 }
{
    u64::from_le_bytes(array(s, at))
}

pub fn read_i16(s: &[u8], at: usize) -> i16
    requires { at + 2 ≤ length s.now }
    ensures { result ≡ i16_of (num s.now at 2) }
{
    fmt::signed16(read_u16(s, at))
}
