// The transition model by value, and its validation (R5).
#![tactic(auto)]

ghost use Rattle.std.specs.Prelude.{ℕ, List, ◌≡◌, true, cond, ◌&&◌, not, map, ◌+◌, ◌*◌, ◌/◌, ◌<◌, ◌≤◌, length, get_or, take};
ghost use Rattle.lists.specs.Parts.{zeros};
ghost use Rattle.lists.specs.Sets.{holds, with_bit};
ghost use Rattle.lists.specs.Tests.{all};
ghost use Rattle.lists.specs.Words.{triples_of};
ghost use Rattle.aiger.specs.Gates.{variable, gate_from};
ghost use Rattle.aiger.specs.Defined.{literal, defining, defined};
ghost use Rattle.aiger.specs.Refusals.{answered};
ghost use Rattle.model.specs.Circuit.{current_of, next_of};
ghost use Rattle.model.specs.Limits.{counted};
ghost use Rattle.model.specs.Checked.{counts_of, Validates};
ghost use Rattle.model.specs.Inner.Lent.{lent_record};
ghost use Rattle.model.specs.Inner.Marking.{AddsLeaves, AddsGate, AddsGates, Checkable, leaves_of_record, literals_of_record, limited};

use aiger::{Gate, Refusal};

mod lent;
mod words;

pub use lent::LentModel;

#[repr(C)]
#[derive(Clone, Copy)]
pub struct AigerLatch {
    pub current: u64,
    pub next: u64,
}

// The gates' words are lent beside it, three a gate.
// Kept (buffer): C reads it, as arrays with counts.
#[repr(C)]
#[derive(Clone, Copy)]
pub struct AigerTransition {
    pub max_variable: usize,
    pub input_count: usize,
    pub inputs: [u64; 64],
    pub latch_count: usize,
    pub latches: [AigerLatch; 8],
    pub output_count: usize,
    pub outputs: [u64; 128],
    pub and_count: usize,
}

// The five counts of a header or a record.
#[derive(Clone, Copy)]
pub struct Counts {
    pub max_variable: usize,
    pub inputs: usize,
    pub latches: usize,
    pub outputs: usize,
    pub ands: usize,
}

impl Counts {
    // Whether the counts are within the limits and agree.
    pub fn hold(self) -> bool
        ensures { result ≡ counted self }
    {
        if 64 < self.inputs || self.latches == 0 || 8 < self.latches || 128 < self.outputs {
            return false;
        }
        if self.max_variable == 0 || 1000000 < self.max_variable || self.max_variable < self.ands {
            return false;
        }
        self.max_variable == self.inputs + self.latches + self.ands
    }
}

// The gates of a model, lent as words, three a gate, or as records.
pub trait GateList {
    ghost words: { Self → List ℕ };

    fn count(&self) -> usize
        ensures { result ≡ length (words self.now) / 3 };

    fn gate(&self, at: usize) -> Gate
        requires { at < length (words self.now) / 3 }
        ensures { result ≡ gate_from (get_or (words self.now) (3 * at) 0) (get_or (words self.now) (3 * at + 1) 0) (get_or (words self.now) (3 * at + 2) 0) };
}

impl<'a> GateList for &'a [u64] {
    ghost words = { λ s. s.now };

    fn count(&self) -> usize {
        self.len() / 3
    }

    fn gate(&self, at: usize) -> Gate {
        Gate {
            output: self[3 * at],
            left: self[3 * at + 1],
            right: self[3 * at + 2],
        }
    }
}

impl<'a> From<&'a AigerTransition> for LentModel<'a> {
    ghost from_gives = { λ whole lent. lent_record lent ≡ whole.now };

    fn from(whole: &'a AigerTransition) -> LentModel<'a> {
        LentModel {
            counts: Counts {
                max_variable: whole.max_variable,
                inputs: whole.input_count,
                latches: whole.latch_count,
                outputs: whole.output_count,
                ands: whole.and_count,
            },
            inputs: &whole.inputs,
            latches: whole.latches,
            outputs: &whole.outputs,
        }
    }
}

// Whether the literal may define its variable, which has no mark yet. It has one then.
fn define(marks: &mut [u64], most: usize, literal: u64) -> bool
    ensures { (result ≡ (defining most literal && not (holds marks.old (variable literal)))) × (marks.new ≡ cond (defining most literal) (with_bit marks.old (variable literal)) marks.old) }
{
    let variable = (literal / 2) as usize;
    if literal == 0 || literal % 2 != 0 || most < variable {
        return false;
    }
    lists::add(marks, variable)
}

// Whether each of the literals may define its variable, after those that are marked. They are marked then.
fn define_all(marks: &mut [u64], most: usize, literals: &[u64]) -> bool
    ensures { AddsLeaves most marks.old literals.now marks.new result }
{
    for literal in literals {
        if !define(marks, most, *literal) {
            return false;
        }
    }
    true
}

// Whether the operands of a gate are smaller than it, and it may define its variable. That is marked then.
pub fn define_gate(marks: &mut [u64], most: usize, gate: Gate) -> bool
    ensures { AddsGate most marks.old gate marks.new result }
{
    if gate.output / 2 <= gate.left / 2 || gate.output / 2 <= gate.right / 2 {
        return false;
    }
    define(marks, most, gate.output)
}

// The same for the first gates.
// Kept (buffer): more gates may be lent than the model counts, and a list of them is no slice that could be cut.
fn define_gates<G: GateList>(marks: &mut [u64], most: usize, gates: &G, count: usize) -> bool
    requires { count ≤ length (G.words gates.now) / 3 }
    ensures { AddsGates most marks.old true (take count (triples_of gate_from (G.words gates.now))) marks.new result }
{
    for i in 0..count {
        if !define_gate(marks, most, gates.gate(i)) {
            return false;
        }
    }
    true
}

// Whether no literal is above 2M + 1.
fn within(literals: &[u64], most: usize) -> bool
    ensures { result ≡ all (literal most) literals.now }
{
    for literal in literals {
        if most < (*literal / 2) as usize {
            return false;
        }
    }
    true
}

impl<'a> LentModel<'a> {
    // The literals of the latches.
    // Kept (twin): each is one line; a closure to pick the word would stand at each call.
    pub fn currents(&self) -> [u64; 8]
        ensures { result ≡ map current_of self.now.latches }
    {
        self.latches.map(|latch| latch.current)
    }

    // The next literals of the latches.
    pub fn nexts(&self) -> [u64; 8]
        ensures { result ≡ map next_of self.now.latches }
    {
        self.latches.map(|latch| latch.next)
    }

    // Whether each of the inputs and latches may define its variable. They are marked then.
    pub fn define_leaves(&self, marks: &mut [u64]) -> bool
        ensures { AddsLeaves (lent_record self.now).max_variable marks.old (leaves_of_record (lent_record self.now)) marks.new result }
    {
        let counts = self.counts;
        let inputs = lists::first(self.inputs, counts.inputs);
        let currents = self.currents();
        define_all(marks, counts.max_variable, inputs)
            && define_all(
                marks,
                counts.max_variable,
                lists::first(&currents, counts.latches),
            )
    }

    // Whether no next literal and no output is above 2M + 1.
    pub fn literals_hold(&self) -> bool
        ensures { result ≡ literals_of_record (lent_record self.now) }
    {
        let counts = self.counts;
        let nexts = self.nexts();
        within(lists::first(&nexts, counts.latches), counts.max_variable)
            && within(
                lists::first(self.outputs, counts.outputs),
                counts.max_variable,
            )
    }

    // Whether the record is within the limits, with so many gates beside it.
    fn limits_hold(&self, gates: usize) -> bool
        ensures { result ≡ limited (lent_record self.now) gates }
    {
        let counts = self.counts;
        if !counts.hold() || gates < counts.ands {
            return false;
        }
        if self.inputs.len() < counts.inputs || self.outputs.len() < counts.outputs {
            return false;
        }
        self.literals_hold()
    }

    // Whether each variable is defined once. The marks are all 0 at first, and again afterwards.
    fn definitions_hold<G: GateList>(&self, gates: &G, marks: &mut [u64]) -> bool
        requires { Checkable (lent_record self.now).max_variable (lent_record self.now).and_count (G.words gates.now) marks.old }
        ensures { (result ≡ defined (lent_record self.now).max_variable (leaves_of_record (lent_record self.now)) (take (lent_record self.now).and_count (triples_of gate_from (G.words gates.now)))) × (marks.new ≡ zeros (length marks.old)) }
    {
        let counts = self.counts;
        let defined = self.define_leaves(marks)
            && define_gates(marks, counts.max_variable, gates, counts.ands);
        marks.fill(0);
        defined
    }

    // Whether the record and its gates are a model.
    pub fn validate<G: GateList>(&self, gates: &G, work: &mut [u64]) -> Result<(), Refusal>
        ensures { Validates (lent_record self.now) (G.words gates.now) (length work.old) result work.new }
    {
        work.fill(0);
        if work.len() <= self.counts.max_variable {
            return Err(Refusal::Room);
        }
        if !self.limits_hold(gates.count()) || !self.definitions_hold(gates, work) {
            return Err(Refusal::Definition);
        }
        Ok(())
    }
}
