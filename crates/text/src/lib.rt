// Lines and fields of a text of bytes (R2), and the checks of R9.3. The numbers (R1) are in `numbers`.
#![tactic(auto)]

ghost use Rattle.std.specs.Prelude.{ℕ, Bool, ◌≡◌, true};
ghost use Rattle.scan.specs.Spans.{span};
ghost use Rattle.text.specs.Fields.{is_blank, in_field, first_field, is_header_word, has_header_word};
ghost use Rattle.text.specs.Literals.{literal_of};
ghost use Rattle.text.specs.Inner.PlainDigits.{IsRun, ReadsPlain};
ghost use Rattle.text.specs.Inner.Fronts.{TakesLine, is_space, from_field, TakesField, NumberAtFront, TakesNumber, TakesLiteral};
ghost use Rattle.text.specs.Texts.{limited, good_bytes, good_end, good_text};

pub mod numbers;

use scan::ByteTest;

// Which of the two readers reads: they differ in the numbers and the texts that they take.
#[derive(Clone, Copy)]
pub enum Reader {
    Transition,
    Witness,
}

// What was read at the front of a text or a line, and what is left of it.
#[derive(Clone, Copy)]
pub struct Parsed<'a, T> {
    pub value: T,
    pub rest: &'a [u8],
}

// The number of the first field of a line, and what is left of the line.
#[derive(Clone, Copy)]
pub enum Taken<'a> {
    Got { value: u64, rest: &'a [u8] },
    Unreadable,
    Missing,
}

// How many digits are at a front, and the number that they write.
#[derive(Clone, Copy)]
struct Run {
    size: usize,
    value: u64,
}

// The first line of a text, without its byte 10, and the text behind it.
pub fn next_line(s: &[u8]) -> Option<Parsed<'_, &[u8]>>
    ensures { TakesLine s.now result }
{
    if s.is_empty() {
        return None;
    }
    let (value, others) = s.split_at(scan::line_length(s));
    Some(Parsed {
        value,
        rest: &others[others.len().min(1)..],
    })
}

// A byte between fields.
struct Blank;

impl ByteTest for Blank {
    ghost passes = { is_blank };

    fn passes(b: u8) -> bool {
        b == 32 || (9 <= b && b <= 13)
    }
}

// The byte 32.
struct Space;

impl ByteTest for Space {
    ghost passes = { is_space };

    fn passes(b: u8) -> bool {
        b == 32
    }
}

// A byte of a field.
struct InField;

impl ByteTest for InField {
    ghost passes = { in_field };

    fn passes(b: u8) -> bool {
        !Blank::passes(b)
    }
}

// A line from its first field on. Nearly all blanks are spaces, for which one test a byte is enough.
fn from_field(l: &[u8]) -> &[u8]
    ensures { result.now ≡ from_field l.now }
{
    let others = &l[scan::passing::<Space>(l)..];
    &others[scan::passing::<Blank>(others)..]
}

// The first field of a line, and the line behind it.
pub fn next_field(l: &[u8]) -> Option<Parsed<'_, &[u8]>>
    ensures { TakesField l.now result }
{
    let front = from_field(l);
    if front.is_empty() {
        return None;
    }
    let (value, rest) = front.split_at(scan::passing::<InField>(front));
    Some(Parsed { value, rest })
}

// The first field of a line; empty where it has none.
pub fn first_field(l: &[u8]) -> &[u8]
    ensures { result.now ≡ first_field l.now }
{
    let Some(field) = next_field(l) else {
        return &l[..0];
    };
    field.value
}

// Whether a field is the header word.
// Kept (twin): like `ends_symbols` of `witness_text` it compares with one word, each where its rule stands.
pub fn is_header_word(f: &[u8]) -> bool
    ensures { result ≡ is_header_word f.now }
{
    scan::same(f, b"aag")
}

// Whether a line begins with the header word.
pub fn has_header_word(l: &[u8]) -> bool
    ensures { result ≡ has_header_word l.now }
{
    is_header_word(first_field(l))
}

// The number of the field at the front of a line, in whatever form: the field's end first, and then its bytes.
fn any_number(reader: Reader, l: &[u8]) -> Taken<'_>
    ensures { NumberAtFront reader l.now result }
{
    let (field, rest) = l.split_at(scan::passing::<InField>(l));
    match numbers::parse_for(reader, field) {
        Some(value) => Taken::Got { value, rest },
        None => Taken::Unreadable,
    }
}

// The digits at the front of a line or a text and the number that they write: at most 18 of them, so that no digit needs a test for room.
fn digits_run(l: &[u8]) -> Run
    ensures { IsRun l.now result.size result.value }
{
    let most = l.len().min(18);
    let mut value = 0;
    for i in 0..most {
        let b = l[i];
        if b < 48 || 57 < b {
            return Run { size: i, value };
        }
        value = value * 10 + (u64::from(b) - 48);
    }
    Run { size: most, value }
}

// The number that plain digits at the front of a text write, where the byte `stop` follows them, and the text behind that byte: one
// pass over the bytes, for texts in the form in which circuits are printed. Anything else is left to the longer way.
pub fn plain_number(s: &[u8], stop: u8) -> Option<Parsed<'_, u64>>
    ensures { ReadsPlain s.now stop result }
{
    let Run { size, value } = digits_run(s);
    let (digits, others) = s.split_at(size);
    let [b, rest @ ..] = others else {
        return None;
    };
    if size == 0 || numbers::long_zero(digits) || *b != stop {
        return None;
    }
    Some(Parsed { value, rest })
}

// Whether no field goes on at the front of a line.
fn ends_field(l: &[u8]) -> bool
    ensures { result ≡ true → span in_field l.now ≡ 0 }
{
    match l {
        [b, ..] => Blank::passes(*b),
        [] => true,
    }
}

// The number of the first field of a line. Most fields are short and plain digits, which are read while their end is looked for.
pub fn next_number(reader: Reader, l: &[u8]) -> Taken<'_>
    ensures { TakesNumber reader l.now result }
{
    let front = from_field(l);
    if front.is_empty() {
        return Taken::Missing;
    }
    let Run { size, value } = digits_run(front);
    let (digits, rest) = front.split_at(size);
    if numbers::long_zero(digits) || !ends_field(rest) {
        return any_number(reader, front);
    }
    Taken::Got { value, rest }
}

// The number of a line that has one and nothing else.
pub fn line_literal(reader: Reader, l: &[u8]) -> Option<u64>
    ensures { result ≡ literal_of reader l.now }
{
    let Taken::Got { value, rest } = next_number(reader, l) else {
        return None;
    };
    if next_field(rest).is_some() {
        return None;
    }
    Some(value)
}

// The number of the first line, if it has one and nothing else, in whatever form; the line is passed also when it is refused.
fn any_literal(reader: Reader, s: &[u8]) -> Parsed<'_, Option<u64>>
    ensures { TakesLiteral reader s.now result }
{
    let Some(line) = next_line(s) else {
        return Parsed {
            value: None,
            rest: s,
        };
    };
    Parsed {
        value: line_literal(reader, line.value),
        rest: line.rest,
    }
}

// The number of the first line, if it has one and nothing else: nearly always plain digits alone.
pub fn take_literal(reader: Reader, s: &[u8]) -> Parsed<'_, Option<u64>>
    ensures { TakesLiteral reader s.now result }
{
    let Some(number) = plain_number(s, 10) else {
        return any_literal(reader, s);
    };
    Parsed {
        value: Some(number.value),
        rest: number.rest,
    }
}

// Whether every byte is one that the reader takes.
// Kept (switch): the two rules share nothing, and this is where a reader names its own.
fn good_bytes(reader: Reader, s: &[u8]) -> bool
    ensures { result ≡ good_bytes reader s.now }
{
    match reader {
        Reader::Transition => scan::all_ascii(s),
        Reader::Witness => scan::all_witness_bytes(s),
    }
}

// Whether the text ends as the reader asks.
// Kept (switch): as in `good_bytes`.
fn good_end(reader: Reader, s: &[u8]) -> bool
    ensures { result ≡ good_end reader s.now }
{
    match reader {
        Reader::Transition => true,
        Reader::Witness => scan::ends_in_10(s),
    }
}

// Whether the bytes are a text for a reader (R9.3).
pub fn good_text(reader: Reader, s: &[u8]) -> bool
    ensures { result ≡ good_text limited reader s.now }
{
    if 16777216 < s.len() {
        return false;
    }
    good_bytes(reader, s) && good_end(reader, s)
}
