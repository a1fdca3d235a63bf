// The transition reader (R5). A text is passed over twice: everything is checked first, with marks in the work words, and then the gate
// words are written.
#![tactic(auto)]

ghost use Rattle.std.specs.Prelude.{◌≡◌, true, ◌*◌, ◌≤◌, ◌<◌, length, []};
ghost use Rattle.lists.specs.Parts.{zeros};
ghost use Rattle.aiger.specs.Refusals.{answered};
ghost use Rattle.model.specs.Circuit.{circuit_of, record_of, no_circuit};
ghost use Rattle.model.specs.Limits.{counted};
ghost use Rattle.text.specs.Lines.{lines_of};
ghost use Rattle.model_read.specs.Reading.{model_of, body_of, read_transition, Reads};
ghost use Rattle.model_read.specs.Inner.Passes.{TakesStart, AddsNext, ChecksGates, Writes, gates_of, verdict_of, Readable};

use aiger::{Gate, Refusal};
use circuit_lines::LiteralLine;
use model::{AigerLatch, AigerTransition, Counts, LentModel};
use model_text::LatchLine;
use text::{Parsed, Reader};

// One more gate is checked and marked, where those before hold.
// Kept (switch): a bad line counts more than a definition that fails, so the gates behind one are still taken, and `fine` goes along.
fn define_next(work: &mut [u64], most: usize, fine: bool, gate: Gate) -> bool
    ensures { AddsNext most work.old fine gate work.new result }
{
    if fine {
        return model::define_gate(work, most, gate);
    }
    false
}

// Checks the gates of the first n lines, and answers whether the definitions hold; none where a line is missing or bad. All
// lines are looked at, since a bad one counts more than a definition that fails.
// Kept (buffer): n lines are taken, as the header counts them, and no slice has that length.
fn check_gates(s: &[u8], n: usize, most: usize, fine: bool, work: &mut [u64]) -> Option<bool>
    ensures { ChecksGates s.now n most fine work.old result }
{
    let mut good = fine;
    let mut left = s;
    for i in 0..n {
        let gate = circuit_lines::take_gate(Reader::Transition, left)?;
        good = define_next(work, most, good, gate.value);
        left = gate.rest;
    }
    Some(good)
}

// Writes the gates of the first n lines, three words each.
// Kept (buffer): more words may be lent than the gates take.
fn write_gates(s: &[u8], n: usize, gates: &mut [u64])
    requires { 3 * n ≤ length gates.old }
    ensures { Writes s.now n gates.old gates.new }
{
    let mut left = s;
    for i in 0..n {
        let Some(gate) = circuit_lines::take_gate(Reader::Transition, left) else {
            return;
        };
        gates[3 * i] = gate.value.output;
        gates[3 * i + 1] = gate.value.left;
        gates[3 * i + 2] = gate.value.right;
        left = gate.rest;
    }
}

// A record of zeros.
pub fn no_model() -> AigerTransition
    ensures { result ≡ record_of no_circuit }
{
    AigerTransition {
        max_variable: 0,
        input_count: 0,
        inputs: [0; 64],
        latch_count: 0,
        latches: [AigerLatch {
            current: 0,
            next: 0,
        }; 8],
        output_count: 0,
        outputs: [0; 128],
        and_count: 0,
    }
}

// The inputs, latches and outputs of the first lines: a model without its gates, and the text with the gates' lines.
fn take_head(s: &[u8], counts: Counts) -> Option<Parsed<'_, AigerTransition>>
    requires { counted counts ≡ true }
    ensures { TakesStart s.now counts result }
{
    let literal = LiteralLine {
        reader: Reader::Transition,
    };
    let mut inputs = [0; 64];
    let mut latches = [AigerLatch {
        current: 0,
        next: 0,
    }; 8];
    let mut outputs = [0; 128];
    let left = circuit_lines::take_front(literal, s, counts.inputs, &mut inputs)?;
    let left = circuit_lines::take_front(LatchLine {}, left, counts.latches, &mut latches)?;
    let rest = circuit_lines::take_front(literal, left, counts.outputs, &mut outputs)?;
    Some(Parsed {
        value: AigerTransition {
            max_variable: counts.max_variable,
            input_count: counts.inputs,
            inputs,
            latch_count: counts.latches,
            latches,
            output_count: counts.outputs,
            outputs,
            and_count: counts.ands,
        },
        rest,
    })
}

// Whether a model is well defined with the gates of the first lines. The work words are all 0 at first.
fn check_model(s: &[u8], model: AigerTransition, work: &mut [u64]) -> Result<(), Refusal>
    requires { (model.max_variable < length work.old) × (work.old ≡ zeros (length work.old)) }
    ensures { answered result ≡ verdict_of (gates_of (circuit_of model []) model.and_count (lines_of s.now)) }
{
    let lent = LentModel::from(&model);
    let fine = lent.define_leaves(work);
    let Some(good) = check_gates(s, model.and_count, model.max_variable, fine, work) else {
        return Err(Refusal::Line);
    };
    if !good || !lent.literals_hold() {
        return Err(Refusal::Definition);
    }
    Ok(())
}

// The model of the lines of a text. The work words are all 0 at first, and there is room for what the counts ask for.
fn read_model(
    s: &[u8],
    counts: Counts,
    gates: &mut [u64],
    work: &mut [u64],
) -> Result<AigerTransition, Refusal>
    requires { Readable counts gates.old work.old }
    ensures { Reads (model_of counts (lines_of s.now)) gates.old (length work.old) result gates.new work.new }
{
    let Some(head) = take_head(s, counts) else {
        return Err(Refusal::Line);
    };
    let model = head.value;
    let checked = check_model(head.rest, model, work);
    work.fill(0);
    checked?;
    write_gates(head.rest, counts.ands, gates);
    Ok(model)
}

// The model of the lines behind a header. The work words are all 0 at first.
fn read_body(
    s: &[u8],
    counts: Counts,
    gates: &mut [u64],
    work: &mut [u64],
) -> Result<AigerTransition, Refusal>
    requires { work.old ≡ zeros (length work.old) }
    ensures { Reads (body_of (length gates.old) (length work.old) (lines_of s.now) counts) gates.old (length work.old) result gates.new work.new }
{
    if !counts.hold() {
        return Err(Refusal::Counts);
    }
    if gates.len() / 3 < counts.ands {
        return Err(Refusal::Room);
    }
    if work.len() <= counts.max_variable {
        return Err(Refusal::Room);
    }
    read_model(s, counts, gates, work)
}

// Reads a transition text: the record, and the gates' words in front of the lent ones.
// Kept (twin): `parse_aag` goes through the same steps, with other limits, without buffers, and to another end.
pub fn parse_ascii_aiger_transition(
    s: &[u8],
    gates: &mut [u64],
    work: &mut [u64],
) -> Result<AigerTransition, Refusal>
    ensures { Reads (read_transition s.now (length gates.old) (length work.old)) gates.old (length work.old) result gates.new work.new }
{
    lists::clear(work);
    if !text::good_text(Reader::Transition, s) {
        return Err(Refusal::Text);
    }
    let Some(header) = model_text::take_model_header(s) else {
        return Err(Refusal::Header);
    };
    read_body(header.rest, header.value, gates, work)
}
