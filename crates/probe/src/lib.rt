// Exports of the inner layers under plain C signatures, for the comparison with the Rust in differential/ alone: no part of the delivered library.
// Kept (travel): C hands over each argument by itself.
// Kept (switch): the flag is an argument of C.
#![tactic(auto)]

ghost use Rattle.std.specs.Prelude.{◌≡◌, length};
ghost use Rattle.text.specs.Numbers.{number_of};
ghost use Rattle.text.specs.Fields.{first_field, has_header_word};
ghost use Rattle.text.specs.Literals.{literal_at};
ghost use Rattle.scan.specs.Same.{same_bytes, begins_with};
ghost use Rattle.text.specs.Texts.{limited, good_text};
ghost use Rattle.text_decimal.specs.Decimal.{decimal};
ghost use Rattle.text_decimal.specs.Inner.Writing.{written, written_at};
ghost use Rattle.probe.specs.Inner.Flat.{reader_of, flat_number, flat_literal, no_part, line_at, field_at, flat_written};

pub mod models;
pub mod witnesses;

use text::Reader;

// Kept (enum): C reads a flag beside the values.
#[repr(C)]
#[derive(Clone, Copy)]
pub struct ProbeNumber {
    pub readable: bool,
    pub value: u64,
}

// Kept (enum): C reads a flag beside the values.
#[repr(C)]
#[derive(Clone, Copy)]
pub struct ProbeLiteral {
    pub readable: bool,
    pub value: u64,
    pub at: usize,
}

// Kept (enum): C reads a flag beside the values.
#[repr(C)]
#[derive(Clone, Copy)]
pub struct ProbePart {
    pub found: bool,
    pub start: usize,
    pub end: usize,
    pub next: usize,
}

// Kept (enum): C reads a flag beside the values.
#[repr(C)]
#[derive(Clone, Copy)]
pub struct ProbeWritten {
    pub fits: bool,
    pub next: usize,
}

// Kept (by hand): neither type is this crate's, so it has no `From`.
fn reader_of(witness: bool) -> Reader
    ensures { result ≡ reader_of witness }
{
    if witness {
        return Reader::Witness;
    }
    Reader::Transition
}

impl From<Option<u64>> for ProbeNumber {
    ghost from_gives = { λ number flat. flat ≡ flat_number number };

    fn from(number: Option<u64>) -> ProbeNumber {
        ProbeNumber {
            readable: number.is_some(),
            value: number.unwrap_or(0),
        }
    }
}

#[unsafe(no_mangle)]
pub extern "C" fn probe_parse(witness: bool, f: &[u8]) -> ProbeNumber
    ensures { result ≡ flat_number (number_of (reader_of witness) f.now) }
{
    ProbeNumber::from(text::numbers::parse_for(reader_of(witness), f))
}

#[unsafe(no_mangle)]
pub extern "C" fn probe_take_literal(witness: bool, bytes: &[u8], at: usize) -> ProbeLiteral
    ensures { result ≡ flat_literal (literal_at (reader_of witness) bytes.now at) }
{
    if bytes.len() <= at {
        return ProbeLiteral {
            readable: false,
            value: 0,
            at,
        };
    }
    let literal = text::take_literal(reader_of(witness), &bytes[at..]);
    ProbeLiteral {
        readable: literal.value.is_some(),
        value: literal.value.unwrap_or(0),
        at: bytes.len() - literal.rest.len(),
    }
}

// What stands for a line or a field that is not there.
fn no_part() -> ProbePart
    ensures { result ≡ no_part }
{
    ProbePart {
        found: false,
        start: 0,
        end: 0,
        next: 0,
    }
}

#[unsafe(no_mangle)]
pub extern "C" fn probe_line(bytes: &[u8], at: usize) -> ProbePart
    ensures { result ≡ line_at bytes.now at }
{
    if bytes.len() <= at {
        return no_part();
    }
    let Some(line) = text::next_line(&bytes[at..]) else {
        return no_part();
    };
    ProbePart {
        found: true,
        start: at,
        end: at + line.value.len(),
        next: bytes.len() - line.rest.len(),
    }
}

#[unsafe(no_mangle)]
pub extern "C" fn probe_field(line: &[u8], at: usize) -> ProbePart
    ensures { result ≡ field_at line.now at }
{
    if line.len() <= at {
        return no_part();
    }
    let Some(field) = text::next_field(&line[at..]) else {
        return no_part();
    };
    let end = line.len() - field.rest.len();
    ProbePart {
        found: true,
        start: end - field.value.len(),
        end,
        next: end,
    }
}

// Kept (twin): its fields have names of their own.
impl From<Option<usize>> for ProbeWritten {
    ghost from_gives = { λ next flat. flat ≡ flat_written next };

    fn from(next: Option<usize>) -> ProbeWritten {
        ProbeWritten {
            fits: next.is_some(),
            next: next.unwrap_or(0),
        }
    }
}

// The first field, copied to the front of a buffer.
#[unsafe(no_mangle)]
pub extern "C" fn probe_first_field(line: &[u8], out: &mut [u8]) -> ProbeWritten
    ensures { (result ≡ flat_written (written_at (length out.old) 0 (first_field line.now))) × (out.new ≡ written out.old 0 (first_field line.now)) }
{
    ProbeWritten::from(text_decimal::write_bytes(out, 0, text::first_field(line)))
}

// Kept (twin): it calls another function than `probe_load_witness`.
#[unsafe(no_mangle)]
pub extern "C" fn probe_write_decimal(out: &mut [u8], at: usize, n: u64) -> ProbeWritten
    ensures { (result ≡ flat_written (written_at (length out.old) at (decimal n))) × (out.new ≡ written out.old at (decimal n)) }
{
    ProbeWritten::from(text_decimal::write_decimal(out, at, n))
}

#[unsafe(no_mangle)]
pub extern "C" fn probe_decimal_length(n: u64) -> usize
    ensures { result ≡ length (decimal n) }
{
    text_decimal::decimal_length(n)
}

#[unsafe(no_mangle)]
pub extern "C" fn probe_header_word(line: &[u8]) -> bool
    ensures { result ≡ has_header_word line.now }
{
    text::has_header_word(line)
}

#[unsafe(no_mangle)]
pub extern "C" fn probe_same(a: &[u8], b: &[u8]) -> bool
    ensures { result ≡ same_bytes a.now b.now }
{
    scan::same(a, b)
}

#[unsafe(no_mangle)]
pub extern "C" fn probe_begins_with(s: &[u8], word: &[u8]) -> bool
    ensures { result ≡ begins_with s.now word.now }
{
    scan::begins_with(s, word)
}

#[unsafe(no_mangle)]
pub extern "C" fn probe_good_text(witness: bool, bytes: &[u8]) -> bool
    ensures { result ≡ good_text limited (reader_of witness) bytes.now }
{
    text::good_text(reader_of(witness), bytes)
}
