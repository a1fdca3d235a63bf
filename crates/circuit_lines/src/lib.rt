// The lines of a circuit text, for both readers: the header's numbers, literals and gates (R4, R5).
#![tactic(auto)]

ghost use Rattle.std.specs.Prelude.{◌≡◌, ◌≤◌, length};
ghost use Rattle.lists.specs.Answer.{Answer};
ghost use Rattle.lists.specs.Parts.{Bytes};
ghost use Rattle.text.specs.Fields.{fields_of};
ghost use Rattle.text.specs.Literals.{numbers_of};
ghost use Rattle.circuit_lines.specs.SectionLines.{header_numbers, literal_line, gate_line};
ghost use Rattle.circuit_lines.specs.Inner.Takes.{TakesHeaderNumbers, Takes, TakesFront, TakesOne, TakesGate, TakesPlain};
ghost use Rattle.circuit_lines.specs.Inner.OneLine.{Stores, answer_or};

use aiger::Gate;
use text::{Parsed, Reader, Taken};

// The fields of a line, as numbers in front of `out`, and how many they are; none where a field is no number or where there are too many.
pub fn take_numbers(reader: Reader, l: &[u8], out: &mut [u64]) -> Option<usize>
    ensures { Stores out.old out.new (numbers_of reader (fields_of l.now)) result }
{
    let mut left = l;
    for i in 0..out.len() {
        match text::next_number(reader, left) {
            Taken::Got { value, rest } => {
                out[i] = value;
                left = rest;
            }
            Taken::Unreadable => return None,
            Taken::Missing => return Some(i),
        }
    }
    if text::next_field(left).is_some() {
        return None;
    }
    Some(out.len())
}

// The numbers after the header word of a line, in front of `out`, and how many they are.
fn header_line(reader: Reader, l: &[u8], out: &mut [u64]) -> Option<usize>
    ensures { Stores out.old out.new (header_numbers reader l.now) result }
{
    let word = text::next_field(l)?;
    if !text::is_header_word(word.value) {
        return None;
    }
    take_numbers(reader, word.rest, out)
}

// The numbers of a text's header, its first line, in front of `out`: how many they are, and the text behind that line.
pub fn take_header_numbers<'a>(
    reader: Reader,
    s: &'a [u8],
    out: &mut [u64],
) -> Option<Parsed<'a, usize>>
    ensures { TakesHeaderNumbers reader s.now out.old out.new result }
{
    let line = text::next_line(s)?;
    let value = header_line(reader, line.value, out)?;
    Some(Parsed {
        value,
        rest: line.rest,
    })
}

// The gate of a line.
fn gate_line(reader: Reader, l: &[u8]) -> Option<Gate>
    ensures { answer_or 8 result ≡ gate_line reader l.now }
{
    let mut ns = [0; 3];
    if take_numbers(reader, l, &mut ns)? != 3 {
        return None;
    }
    let [output, left, right] = ns;
    Some(Gate {
        output,
        left,
        right,
    })
}

// The gate of a line of three plain numbers, each with one byte behind it: the form in which circuits are printed.
fn plain_gate(s: &[u8]) -> Option<Parsed<'_, Gate>>
    ensures { TakesPlain s.now result }
{
    let output = text::plain_number(s, 32)?;
    let left = text::plain_number(output.rest, 32)?;
    let right = text::plain_number(left.rest, 10)?;
    Some(Parsed {
        value: Gate {
            output: output.value,
            left: left.value,
            right: right.value,
        },
        rest: right.rest,
    })
}

// The gate of the first line: nearly always three plain numbers.
pub fn take_gate(reader: Reader, s: &[u8]) -> Option<Parsed<'_, Gate>>
    ensures { TakesGate reader s.now result }
{
    let Some(gate) = plain_gate(s) else {
        return any_line(GateLine { reader }, s);
    };
    Some(gate)
}

// A kind of line, and the item that a line of it has.
pub trait LineKind: Copy {
    type Item: Copy;

    // what the definitions say of a line
    ghost item: { Self → Bytes → Answer Self.Item };

    // The item of a line.
    fn read(self, line: &[u8]) -> Option<Self::Item>
        ensures { answer_or 8 result ≡ item self line.now };
}

// A kind of line that is taken from a text.
pub trait TakeLine: LineKind {
    // The item of the first line, and the text behind it.
    fn take(self, s: &[u8]) -> Option<Parsed<'_, Self::Item>>
        ensures { TakesOne (Self.item self) s.now result }
    {
        any_line(self, s)
    }
}

// The item of the first line, in whatever form: the line's end first, and then its fields.
pub fn any_line<K: LineKind>(kind: K, s: &[u8]) -> Option<Parsed<'_, K::Item>>
    ensures { TakesOne (K.item kind) s.now result }
{
    let line = text::next_line(s)?;
    let value = kind.read(line.value)?;
    Some(Parsed {
        value,
        rest: line.rest,
    })
}

// Lines with one number.
#[derive(Clone, Copy)]
pub struct LiteralLine {
    pub reader: Reader,
}

impl LineKind for LiteralLine {
    type Item = u64;

    ghost item = { λ kind. literal_line kind.reader };

    fn read(self, line: &[u8]) -> Option<u64> {
        text::line_literal(self.reader, line)
    }
}

impl TakeLine for LiteralLine {
    fn take(self, s: &[u8]) -> Option<Parsed<'_, u64>> {
        let literal = text::take_literal(self.reader, s);
        let value = literal.value?;
        Some(Parsed {
            value,
            rest: literal.rest,
        })
    }
}

// Lines with a gate.
#[derive(Clone, Copy)]
pub struct GateLine {
    pub reader: Reader,
}

impl LineKind for GateLine {
    type Item = Gate;

    ghost item = { λ kind. gate_line kind.reader };

    fn read(self, line: &[u8]) -> Option<Gate> {
        gate_line(self.reader, line)
    }
}

impl TakeLine for GateLine {
    fn take(self, s: &[u8]) -> Option<Parsed<'_, Gate>> {
        take_gate(self.reader, s)
    }
}

// The items of the first lines, as many as `out` is long, and the text behind them; none where a line is missing or bad.
pub fn take_lines<'a, K: TakeLine>(kind: K, s: &'a [u8], out: &mut [K::Item]) -> Option<&'a [u8]>
    ensures { Takes (K.item kind) s.now (length out.old) result out.new }
{
    let mut left = s;
    for i in 0..out.len() {
        let line = kind.take(left)?;
        out[i] = line.value;
        left = line.rest;
    }
    Some(left)
}

// The items of the first n lines, in front of `out`, and the text behind them; more than `out` is long are refused at once.
// Kept (buffer): this is where a slice is cut to the number of lines that the header counts.
pub fn take_front<'a, K: TakeLine>(
    kind: K,
    s: &'a [u8],
    n: usize,
    out: &mut [K::Item],
) -> Option<&'a [u8]>
    ensures { n ≤ length out.old → TakesFront (K.item kind) s.now n out.old result out.new }
{
    if out.len() < n {
        return None;
    }
    take_lines(kind, s, &mut out[..n])
}
