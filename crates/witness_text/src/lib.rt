// The header, the latch lines and the symbol lines of a witness text (R4). Its other lines are those of `circuit_lines`.
#![tactic(auto)]

ghost use Rattle.std.specs.Prelude.{ℕ, Bool, ◌≡◌};
ghost use Rattle.circuit_lines.specs.Inner.OneLine.{answer_or};
ghost use Rattle.text.specs.Texts.{limited};
ghost use Rattle.witness_text.specs.Header.{counts_from, counted, without_liveness};
ghost use Rattle.witness_text.specs.LatchLines.{latch_line};
ghost use Rattle.witness_text.specs.Symbols.{ends_symbols, count_of, kind_of, not_space, symbol_of};
ghost use Rattle.witness_text.specs.Inner.Takes.{TakesCounts, symbol_answer};

use circuit_lines::{LineKind, TakeLine};
use scan::ByteTest;
use text::{Parsed, Reader};

// The counts of a header: M I L O A B C J F.
#[derive(Clone, Copy)]
pub struct AagCounts {
    pub max_variable: usize,
    pub inputs: usize,
    pub latches: usize,
    pub outputs: usize,
    pub gates: usize,
    pub bads: usize,
    pub constraints: usize,
    pub justice: usize,
    pub fairness: usize,
}

#[derive(Clone, Copy)]
pub struct Latch {
    pub current: u64,
    pub next: u64,
    pub reset: u64,
}

// What a symbol line names.
#[derive(Clone, Copy, Debug, PartialEq, Eq)]
pub enum Kind {
    Input,
    Latch,
    Output,
    Bad,
    Constraint,
}

// A symbol line taken apart: what it names, and the name, which ends the line.
#[derive(Clone, Copy)]
pub struct SymbolLine<'a> {
    pub kind: Kind,
    pub index: usize,
    pub name: &'a [u8],
}

impl From<[u64; 9]> for AagCounts {
    ghost from_gives = { λ ns counts. counts ≡ counts_from ns };

    fn from(ns: [u64; 9]) -> AagCounts {
        AagCounts {
            max_variable: ns[0] as usize,
            inputs: ns[1] as usize,
            latches: ns[2] as usize,
            outputs: ns[3] as usize,
            gates: ns[4] as usize,
            bads: ns[5] as usize,
            constraints: ns[6] as usize,
            justice: ns[7] as usize,
            fairness: ns[8] as usize,
        }
    }
}

// The counts of a text's header, its first line, and the text behind it; those that are absent stay 0.
pub fn take_witness_header(s: &[u8]) -> Option<Parsed<'_, AagCounts>>
    ensures { TakesCounts s.now result }
{
    let mut ns: [u64; 9] = [0; 9];
    let numbers = circuit_lines::take_header_numbers(Reader::Witness, s, &mut ns)?;
    if numbers.value < 5 {
        return None;
    }
    Some(Parsed {
        value: AagCounts::from(ns),
        rest: numbers.rest,
    })
}

// Whether the counts keep the limits of R9.5. The sum of I, L and A is never made, since it may pass 2^64.
pub fn counts_hold(counts: AagCounts) -> bool
    ensures { result ≡ counted limited counts }
{
    if 2000000 < counts.max_variable {
        return false;
    }
    if counts.max_variable < counts.inputs {
        return false;
    }
    let after_inputs = counts.max_variable - counts.inputs;
    if after_inputs < counts.latches {
        return false;
    }
    after_inputs - counts.latches == counts.gates
}

// Whether J and F are 0.
pub fn no_liveness(counts: AagCounts) -> bool
    ensures { result ≡ without_liveness counts }
{
    counts.justice == 0 && counts.fairness == 0
}

fn latch_line(l: &[u8]) -> Option<Latch>
    ensures { answer_or 8 result ≡ latch_line l.now }
{
    let mut ns: [u64; 3] = [0; 3];
    let count = circuit_lines::take_numbers(Reader::Witness, l, &mut ns)?;
    if count < 2 {
        return None;
    }
    Some(Latch {
        current: ns[0],
        next: ns[1],
        reset: ns[2],
    })
}

// Lines with a latch.
#[derive(Clone, Copy)]
pub struct LatchLine {}

impl LineKind for LatchLine {
    type Item = Latch;

    ghost item = { λ kind. latch_line };

    fn read(self, line: &[u8]) -> Option<Latch> {
        latch_line(line)
    }
}

impl TakeLine for LatchLine {}

// Whether a line is `c` and nothing else, after which come comments.
pub fn ends_symbols(l: &[u8]) -> bool
    ensures { result ≡ ends_symbols l.now }
{
    scan::same(l, b"c")
}

// How many of a kind there are.
// Kept (switch): each kind has its count, which is a field of the header's.
fn count_of(counts: AagCounts, kind: Kind) -> usize
    ensures { result ≡ count_of counts kind }
{
    match kind {
        Kind::Input => counts.inputs,
        Kind::Latch => counts.latches,
        Kind::Output => counts.outputs,
        Kind::Bad => counts.bads,
        Kind::Constraint => counts.constraints,
    }
}

// The kind of a letter.
// Kept (by hand): a letter of no kind has nothing to say, and a conversion that can fail would ask for the type of an error.
fn kind_of(b: u8) -> Option<Kind>
    ensures { answer_or 9 result ≡ kind_of b }
{
    match b {
        b'i' => Some(Kind::Input),
        b'l' => Some(Kind::Latch),
        b'o' => Some(Kind::Output),
        b'b' => Some(Kind::Bad),
        b'c' => Some(Kind::Constraint),
        _ => None,
    }
}

// A byte before the first byte 32.
struct NotSpace;

impl ByteTest for NotSpace {
    ghost passes = { not_space };

    fn passes(b: u8) -> bool {
        b != 32
    }
}

// The kind, the index and the name of a symbol line, or that it has none (R4.9).
pub fn symbol_line(l: &[u8], counts: AagCounts) -> Option<SymbolLine<'_>>
    ensures { symbol_answer result ≡ symbol_of counts l.now }
{
    let (front, others) = l.split_at(scan::passing::<NotSpace>(l));
    let [letter, digits @ ..] = front else {
        return None;
    };
    let [_, name @ ..] = others else {
        return None;
    };
    let kind = kind_of(*letter)?;
    let index = text::numbers::parse_number(digits)? as usize;
    if count_of(counts, kind) <= index {
        return None;
    }
    Some(SymbolLine { kind, index, name })
}
