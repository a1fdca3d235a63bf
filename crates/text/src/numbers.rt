// The number that a field of bytes writes (R1).
ghost use Rattle.std.specs.Prelude.{ℕ, Bool, ◌≡◌};
ghost use Rattle.text.specs.Numbers.{digits_after, digits_of, unsigned, long_zero, number_of};
ghost use Rattle.text.specs.Inner.PlainDigits.{is_zero};

use super::Reader;
use scan::ByteTest;

// The digit 0.
struct Zero;

impl ByteTest for Zero {
    ghost passes = { is_zero };

    fn passes(b: u8) -> bool {
        b == b'0'
    }
}

// A field without the zeros in front of its digits, where it is long.
fn without_zeros(f: &[u8]) -> &[u8]
    ensures { digits_after 0 result.now ≡ digits_after 0 f.now }
{
    if f.len() <= 32 {
        return f;
    }
    &f[scan::passing::<Zero>(f)..]
}

// The number of a field of digits.
fn digits(f: &[u8]) -> Option<u64>
    ensures { result ≡ digits_of f.now }
{
    if f.is_empty() {
        return None;
    }
    let bytes = without_zeros(f);
    let mut value: u64 = 0;
    for &b in bytes {
        if b < 48 || 57 < b {
            return None;
        }
        value = value.checked_mul(10)?.checked_add(u64::from(b - 48))?;
    }
    Some(value)
}

// A field behind its plus sign, if it has one (R1.2).
fn unsigned(f: &[u8]) -> &[u8]
    ensures { result.now ≡ unsigned f.now }
{
    match f {
        [b'+', digits @ ..] => digits,
        _ => f,
    }
}

// Whether a field begins with '0' and has more bytes (R1.3). Zeros in front may be many, and the readers differ on them, so the short
// ways leave such a field to the longer one.
pub fn long_zero(f: &[u8]) -> bool
    ensures { result ≡ long_zero f.now }
{
    match f {
        [b'0', _, ..] => true,
        _ => false,
    }
}

// The transition reader's number (R1.4).
pub fn parse_usize(f: &[u8]) -> Option<u64>
    ensures { result ≡ number_of Reader.Transition f.now }
{
    digits(unsigned(f))
}

// The witness reader's number (R1.3).
pub fn parse_number(f: &[u8]) -> Option<u64>
    ensures { result ≡ number_of Reader.Witness f.now }
{
    if long_zero(f) {
        return None;
    }
    parse_usize(f)
}

// The number that a field writes for a reader.
// Kept (switch): the two rules are functions of their own, which callers that know their reader use directly.
pub fn parse_for(reader: Reader, f: &[u8]) -> Option<u64>
    ensures { result ≡ number_of reader f.now }
{
    match reader {
        Reader::Transition => parse_usize(f),
        Reader::Witness => parse_number(f),
    }
}
