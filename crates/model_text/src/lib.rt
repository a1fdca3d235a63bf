// The header and the latch lines of a transition text (R5). Its other lines are those of `circuit_lines`.
#![tactic(auto)]

ghost use Rattle.std.specs.Prelude.{◌≡◌};
ghost use Rattle.text.specs.Fields.{fields_of};
ghost use Rattle.model_text.specs.Header.{counts_from};
ghost use Rattle.model_text.specs.ModelLines.{initializer, latch_line};
ghost use Rattle.model_text.specs.Inner.Takes.{TakesCounts};
ghost use Rattle.model_text.specs.Inner.OneLine.{initializers};
ghost use Rattle.circuit_lines.specs.Inner.OneLine.{answer_or};

use circuit_lines::{LineKind, TakeLine};
use model::{AigerLatch, Counts};
use text::{Parsed, Reader, Taken};

fn counts_of(ns: [u64; 5]) -> Counts
    ensures { result ≡ counts_from ns }
{
    let [max_variable, inputs, latches, outputs, ands] = ns;
    Counts {
        max_variable: max_variable as usize,
        inputs: inputs as usize,
        latches: latches as usize,
        outputs: outputs as usize,
        ands: ands as usize,
    }
}

// The counts of a text's header, its first line, and the text behind it.
// Kept (twin): `take_witness_header` takes five to nine numbers and this exactly five; the reading itself is `take_header_numbers`.
pub fn take_model_header(s: &[u8]) -> Option<Parsed<'_, Counts>>
    ensures { TakesCounts s.now result }
{
    let mut ns = [0; 5];
    let numbers = circuit_lines::take_header_numbers(Reader::Transition, s, &mut ns)?;
    if numbers.value != 5 {
        return None;
    }
    Some(Parsed {
        value: counts_of(ns),
        rest: numbers.rest,
    })
}

// Whether a field is an initializer of the latch with this literal.
fn initializer_holds(f: &[u8], current: u64) -> bool
    ensures { result ≡ initializer current f.now }
{
    if scan::same(f, b"0") || scan::same(f, b"1") {
        return true;
    }
    match text::numbers::parse_usize(f) {
        Some(v) => v == current,
        None => false,
    }
}

// Whether the fields of a latch line after its two literals are none, or one initializer.
fn latch_end(l: &[u8], current: u64) -> bool
    ensures { result ≡ initializers current (fields_of l.now) }
{
    let Some(field) = text::next_field(l) else {
        return true;
    };
    if text::next_field(field.rest).is_some() {
        return false;
    }
    initializer_holds(field.value, current)
}

// Lines with a latch: its literal, its next literal and perhaps an initializer.
#[derive(Clone, Copy)]
pub struct LatchLine {}

impl LineKind for LatchLine {
    type Item = AigerLatch;

    ghost item = { λ kind. latch_line };

    fn read(self, line: &[u8]) -> Option<AigerLatch> {
        let Taken::Got {
            value: current,
            rest,
        } = text::next_number(Reader::Transition, line)
        else {
            return None;
        };
        let Taken::Got {
            value: next,
            rest: end,
        } = text::next_number(Reader::Transition, rest)
        else {
            return None;
        };
        if !latch_end(end, current) {
            return None;
        }
        Some(AigerLatch { current, next })
    }
}

impl TakeLine for LatchLine {}
