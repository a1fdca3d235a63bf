// The clauses of source latches, predicate and gates (R7.2).
#![tactic(auto)]

ghost use Rattle.std.specs.Prelude.{◌≡◌, map, [], ◌∷◌, ◌*◌, ◌/◌, ◌≤◌, ◌<◌, ◌^◌, length, take};
ghost use Rattle.lists.specs.Bits.{odd, bits};
ghost use Rattle.lists.specs.Tests.{Each};
ghost use Rattle.lists.specs.Words.{triples_of, words_of};
ghost use Rattle.aiger.specs.Gates.{gate_from};
ghost use Rattle.cnf.specs.Clauses.{clauses_in};
ghost use Rattle.cnf.specs.Inner.Appending.{Appends, Space};
ghost use Rattle.obligation_spec.specs.Lists.{valued, source_lists, predicate_literal, gate_lists};
ghost use Rattle.obligation_gates.specs.Inner.Encoding.{Low, LowGate, gate_arrays, Clausal, Bounded, predicate_lists, FilledAs};

use aiger::Gate;
use cnf::Clauses;
use model::GateList;
use obligation_check::Predicate;

// The three clauses of a gate as arrays of literals (R7.3): output implies left, output implies right, left and right imply output.
fn gate_clauses(gate: Gate) -> [[u64; 3]; 3]
    requires { LowGate gate }
    ensures { result ≡ gate_arrays gate }
{
    let not_output = cnf::opposite_of(gate.output);
    [
        [not_output, gate.left, 0],
        [not_output, gate.right, 0],
        [
            gate.output,
            cnf::opposite_of(gate.left),
            cnf::opposite_of(gate.right),
        ],
    ]
}

// The literal of a predicate's word: the relevant input that it indexes, with its sign.
fn predicate_literal(inputs: &[u64], relevant: &[u64], word: u32) -> u64
    requires { Low inputs.now }
    ensures { result ≡ predicate_literal inputs.now relevant.now word }
{
    let input = lists::word(relevant, (word / 2) as usize);
    let literal = lists::word(inputs, input as usize);
    if word % 2 == 1 {
        return literal;
    }
    cnf::opposite_of(literal)
}

// Fills the list with the words of a predicate's clause, and says how many. Repeats are left out here: to sort them costs more.
fn fill_clause(inputs: &[u64], relevant: &[u64], clause: &[u32], list: &mut [u64]) -> usize
    requires { Clausal inputs.now relevant.now clause.now × (length clause.now ≤ length list.old) }
    ensures { FilledAs inputs.now relevant.now clause.now list.new result }
{
    let mut seen = [0; 2];
    let mut n = 0;
    for word in clause {
        if lists::add(&mut seen, *word as usize) {
            list[n] = cnf::word(predicate_literal(inputs, relevant, *word));
            n += 1;
        }
    }
    n
}

// Appends a predicate's clause, made simple in the lent list.
fn push_clause(
    inputs: &[u64],
    relevant: &[u64],
    clause: &[u32],
    list: &mut [u64],
    clauses: &mut Clauses,
)
    requires { Clausal inputs.now relevant.now clause.now × (length clause.now ≤ 1024) × (length list.old ≡ 1024) × Space clauses.old.counts 1 }
    ensures { Appends (map (predicate_literal inputs.now relevant.now) clause.now ∷ []) clauses.old clauses.new }
{
    let n = fill_clause(inputs, relevant, clause, list);
    clauses.push_simplified(&mut list[..n]);
}

// Appends the clauses of the predicate's pairs, each made simple in the lent list; half a pair is not read.
fn push_clauses(inputs: &[u64], predicate: &Predicate, list: &mut [u64], clauses: &mut Clauses)
    requires { Bounded inputs.now predicate.now × (length list.old ≡ 1024) × Space clauses.old.counts (length predicate.now.pairs.now / 2) }
    ensures { Appends (predicate_lists inputs.now predicate.now) clauses.old clauses.new }
{
    for i in 0..predicate.pairs.len() / 2 {
        let start = predicate.pairs[2 * i] as usize;
        let end = start + predicate.pairs[2 * i + 1] as usize;
        let clause = &predicate.literals[start..end];
        push_clause(inputs, predicate.relevant, clause, list, clauses);
    }
}

// Appends the predicate's clauses. Each is made simple in a local list (R3.5), and then written.
pub fn append_predicate(inputs: &[u64], predicate: &Predicate, clauses: &mut Clauses)
    requires { Bounded inputs.now predicate.now × Space clauses.old.counts (length predicate.now.pairs.now / 2) }
    ensures { Appends (predicate_lists inputs.now predicate.now) clauses.old clauses.new }
{
    if predicate.pairs.len() < 2 {
        return;
    }
    let mut list = [0; 1024];
    push_clauses(inputs, predicate, &mut list, clauses);
}

// The literal that is true where latch i has the source's bit.
fn source_literal(current: u64, source: u64, i: usize) -> u64
    requires { (current < 2 ^ 31) × (i < 64) }
    ensures { result ≡ valued current (odd (source / 2 ^ i)) }
{
    if (source >> i) % 2 == 1 {
        return current;
    }
    cnf::opposite_of(current)
}

// Appends the clauses of the source: each latch has its bit.
pub fn append_sources(currents: &[u64], source: u64, clauses: &mut Clauses)
    requires { Low currents.now × (length currents.now ≤ 64) × Space clauses.old.counts (length currents.now) }
    ensures { Appends (source_lists currents.now (bits (length currents.now) source)) clauses.old clauses.new }
{
    for (i, current) in currents.iter().enumerate() {
        clauses.push_single(source_literal(*current, source, i));
    }
}

// Appends the three clauses of a gate.
fn push_gate(gate: Gate, clauses: &mut Clauses)
    requires { LowGate gate × Space clauses.old.counts 3 }
    ensures { Appends (gate_lists gate) clauses.old clauses.new }
{
    let [left, right, both] = gate_clauses(gate);
    clauses.push_short(left);
    clauses.push_short(right);
    clauses.push_short(both);
}

// Appends the clauses of gates, three words each.
pub fn append_ands(gates: &[u64], clauses: &mut Clauses)
    requires { Each LowGate (triples_of gate_from gates.now) × Space clauses.old.counts (3 * (length gates.now / 3)) }
    ensures { Appends (words_of gate_lists (triples_of gate_from gates.now)) clauses.old clauses.new }
{
    for i in 0..gates.count() {
        push_gate(gates.gate(i), clauses);
    }
}
