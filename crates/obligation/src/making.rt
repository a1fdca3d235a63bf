// The clauses of an accepted obligation. Where the room may not suffice they are measured first and then written.
ghost use Rattle.std.specs.Prelude.{true, ◌≡◌, ◌*◌, ◌≤◌};
ghost use Rattle.lists.specs.Words.{words_of};
ghost use Rattle.cnf.specs.Simplified.{simplified};
ghost use Rattle.obligation.specs.Inner.Appended.{all_lists, Ready, Roomy, MakesAll, AppendsAll};
ghost use Rattle.obligation.specs.Inner.Planned.{parts_in, claimed_in};

use aiger::Refusal;
use cnf::{ClauseCounts, Clauses};
use obligation_check::Question;
use obligation_claims::Claims;

// What the clauses are made of beside what is asked about: the latches at a source's bits, the claims and the keys of their literals, and
// the literal of a last clause. The true constant, whose clause is dropped, is none.
#[derive(Clone, Copy)]
pub struct Plan<'a> {
    pub currents: &'a [u64],
    pub source: u64,
    pub keys: &'a [u64],
    pub claims: Claims<'a>,
    pub last: u64,
}

// Appends all clauses of an obligation from the buffers' start on: source latches, predicate and gates, then the claims and a clause of one
// literal.
fn append_all(question: &Question, plan: &Plan, clauses: &mut Clauses)
    requires { Ready (parts_in question.now plan.now) (claimed_in plan.now) plan.now.last }
    ensures { AppendsAll (all_lists (parts_in question.now plan.now) (claimed_in plan.now) plan.now.last) clauses.old clauses.new }
{
    clauses.counts = ClauseCounts {
        clauses: 0,
        literals: 0,
    };
    let model = question.model;
    let inputs = lists::first(model.inputs, model.counts.inputs);
    let gates = lists::first(question.gates, 3 * model.counts.ands);
    obligation_gates::append_sources(plan.currents, plan.source, clauses);
    obligation_gates::append_predicate(inputs, &question.predicate, clauses);
    obligation_gates::append_ands(gates, clauses);
    obligation_claims::append_claims(plan.keys, plan.claims, clauses);
    clauses.push_single(plan.last);
}

// Whether the room suffices for every obligation of so many parts. A predicate has at most 1,024 literals, a gate's clauses have seven.
fn roomy(
    currents: usize,
    clauses: usize,
    ands: usize,
    keys: usize,
    claims: usize,
    pairs: usize,
    literals: usize,
) -> bool
    requires { (currents ≤ 8) × (clauses ≤ 64) × (ands ≤ 1000000) × (keys * claims ≤ 136000000) × (claims ≤ 1000000) }
    ensures { result ≡ true → Roomy currents clauses ands keys claims pairs literals }
{
    if pairs / 2 < currents + clauses + 3 * ands + claims + 1 {
        return false;
    }
    currents + 7 * ands + keys * claims + 1025 <= literals
}

// Makes the clauses where they may not fit: they are measured with buffers that have no room, and then written, or nothing is.
fn make_measured(
    question: &Question,
    plan: &Plan,
    clauses: &mut Clauses,
) -> Result<ClauseCounts, Refusal>
    requires { Ready (parts_in question.now plan.now) (claimed_in plan.now) plan.now.last }
    ensures { MakesAll (words_of simplified (all_lists (parts_in question.now plan.now) (claimed_in plan.now) plan.now.last)) clauses.old result clauses.new }
{
    let mut no_pairs = [0; 1];
    let mut no_literals = [0; 1];
    let mut measured = Clauses {
        pairs: &mut no_pairs,
        literals: &mut no_literals,
        counts: clauses.counts,
    };
    append_all(question, plan, &mut measured);
    let size = measured.counts;
    if clauses.pairs.len() / 2 < size.clauses {
        return Err(Refusal::ResultRoom);
    }
    if clauses.literals.len() < size.literals {
        return Err(Refusal::ResultRoom);
    }
    append_all(question, plan, clauses);
    Ok(clauses.counts)
}

// Makes the clauses: at once where there is room for any such obligation, else measured first.
pub fn make(question: &Question, plan: Plan, clauses: &mut Clauses) -> Result<ClauseCounts, Refusal>
    requires { Ready (parts_in question.now plan) (claimed_in plan) plan.last }
    ensures { MakesAll (words_of simplified (all_lists (parts_in question.now plan.entry) (claimed_in plan.entry) plan.entry.last)) clauses.old result clauses.new }
{
    if roomy(
        plan.currents.len(),
        question.predicate.pairs.len() / 2,
        question.model.counts.ands,
        plan.keys.len(),
        plan.claims.count(),
        clauses.pairs.len(),
        clauses.literals.len(),
    ) {
        append_all(question, &plan, clauses);
        return Ok(clauses.counts);
    }
    make_measured(question, &plan, clauses)
}
