// The step (R6). The values stand in the work words, one word a variable.
#![tactic(auto)]

ghost use Rattle.std.specs.Prelude.{◌≡◌, [], ◌∷◌, map, ◌+◌, ◌/◌, ◌<◌, ◌≤◌, length, take};
ghost use Rattle.lists.specs.Bits.{bit, bits, packed};
ghost use Rattle.lists.specs.Parts.{zeros};
ghost use Rattle.lists.specs.Tests.{Each};
ghost use Rattle.lists.specs.Words.{triples_of};
ghost use Rattle.aiger.specs.Gates.{variable, value, gate_from};
ghost use Rattle.aiger.specs.Refusals.{answered};
ghost use Rattle.model.specs.Circuit.{circuit_of};
ghost use Rattle.model.specs.Inner.Lent.{lent_record};
ghost use Rattle.model_step.specs.Step.{assigned, computed, step_values, outcome_under, step_of};
ghost use Rattle.model_step.specs.Inner.Runnable.{Runnable};
ghost use Rattle.model_step.specs.Inner.Stored.{held, Becomes, Inside, InsideGate, Readable, readings};

use aiger::{Gate, Refusal};
use model::{GateList, LentModel};

// The state that a step leads to, and the outputs: those from the 65th on in the high half. The first field that differs orders two.
#[derive(Clone, Copy, PartialEq, Eq, PartialOrd, Ord)]
pub struct Outcome {
    pub target: u64,
    pub high: u64,
    pub low: u64,
}

// The word of a literal's variable.
fn place(literal: u64) -> usize
    ensures { result ≡ variable literal }
{
    (literal / 2) as usize
}

// The value of a literal, 0 or 1.
fn value_of(values: &[u64], literal: u64) -> u64
    requires { variable literal < length values.now }
    ensures { result ≡ bit (value (held values.now) literal) }
{
    (values[place(literal)] % 2 + literal % 2) % 2
}

// The variables of the literals take the bits of a word.
fn load(values: &mut [u64], literals: &[u64], word: u64)
    requires { (length literals.now ≤ 64) × Inside (length values.old) literals.now }
    ensures { Becomes values.old values.new (λ v. assigned v literals.now (bits (length literals.now) word)) }
{
    for (k, literal) in literals.iter().enumerate() {
        values[place(*literal)] = (word >> k) % 2;
    }
}

// One gate is computed.
fn run_gate(values: &mut [u64], gate: Gate)
    requires { InsideGate (length values.old) gate }
    ensures { Becomes values.old values.new (λ v. computed v (gate ∷ [])) }
{
    values[place(gate.output)] = value_of(values, gate.left) * value_of(values, gate.right);
}

// The first gates are computed in their order.
// Kept (buffer): as in `define_gates` of `model`.
fn run_gates<G: GateList>(values: &mut [u64], gates: &G, count: usize)
    requires { (count ≤ length (G.words gates.now) / 3) × Each (InsideGate (length values.old)) (take count (triples_of gate_from (G.words gates.now))) }
    ensures { Becomes values.old values.new (λ v. computed v (take count (triples_of gate_from (G.words gates.now)))) }
{
    for i in 0..count {
        run_gate(values, gates.gate(i));
    }
}

// The word whose bits are the values of the literals, lowest first.
fn word(values: &[u64], literals: &[u64]) -> u64
    requires { (length literals.now ≤ 64) × Inside (length values.now) literals.now }
    ensures { result ≡ packed (map (value (held values.now)) literals.now) }
{
    let mut word = 0;
    for k in (0..literals.len()).rev() {
        word = value_of(values, literals[k]) + 2 * word;
    }
    word
}

// What the values give: the state of the next literals of the latches, and the outputs.
fn read_out(values: &[u64], nexts: &[u64], outputs: &[u64]) -> Outcome
    requires { Readable (length values.now) nexts.now outputs.now }
    ensures { result ≡ readings (held values.now) nexts.now outputs.now }
{
    Outcome {
        target: word(values, nexts),
        high: word(values, lists::cut(outputs, 64, outputs.len())),
        low: word(values, lists::first(outputs, 64)),
    }
}

// One step of a valid model, in words that are all 0.
// Kept (travel): a state and an input word, here and in `evaluate`: a struct of both would be made for one call and taken apart in it.
fn run<G: GateList>(
    model: &LentModel,
    gates: &G,
    values: &mut [u64],
    state: u64,
    input: u64,
) -> Outcome
    requires { Runnable (lent_record model.now) (G.words gates.now) (length values.old) × (values.old ≡ zeros (length values.old)) }
    ensures { let c = circuit_of (lent_record model.now) (G.words gates.now) in result ≡ outcome_under c (step_values c state input) }
{
    let counts = model.counts;
    let currents = model.currents();
    let nexts = model.nexts();
    load(values, lists::first(&currents, counts.latches), state);
    load(values, lists::first(model.inputs, counts.inputs), input);
    run_gates(values, gates, counts.ands);
    read_out(
        values,
        lists::first(&nexts, counts.latches),
        lists::first(model.outputs, counts.outputs),
    )
}

// One step of a model, or the reason why there is none. The work words are 0 again afterwards.
// Kept (travel): as in `run`.
pub fn evaluate<G: GateList>(
    model: &LentModel,
    gates: &G,
    work: &mut [u64],
    state: u64,
    input: u64,
) -> Result<Outcome, Refusal>
    ensures { (answered result ≡ step_of (lent_record model.now) (G.words gates.now) (length work.old) state input) × (work.new ≡ zeros (length work.old)) }
{
    model.validate(gates, work)?;
    let counts = model.counts;
    let inputs = lists::first(model.inputs, counts.inputs);
    if !lists::fits(state, counts.latches) || !lists::fits(input, inputs.len()) {
        return Err(Refusal::Step);
    }
    let words = counts.max_variable + 1;
    let outcome = run(model, gates, &mut work[..words], state, input);
    work.fill(0);
    Ok(outcome)
}
