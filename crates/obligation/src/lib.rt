// The obligations (R7): the clauses of rows and of terminal lists, in lent buffers.
#![tactic(auto)]

ghost use Rattle.std.specs.Prelude.{◌≡◌};
ghost use Rattle.obligation_spec.specs.Lists.{outcomes_of, relation_clauses, transducer_clauses, terminal_clauses};
ghost use Rattle.obligation_spec.specs.Limits.{states_claimed, outcomes_claimed};
ghost use Rattle.obligation_spec.specs.Calls.{circuit, predicate, asked_of};
ghost use Rattle.obligation_check.specs.Inner.Questions.{asked_in};
ghost use Rattle.obligation.specs.Promise.{buffers_of, Promised, MakesRelation};
ghost use Rattle.obligation.specs.Inner.Appended.{Asks, ClaimsOf, MakesAll};
ghost use Rattle.obligation.specs.Inner.ByClaim.{claim_test, claim_clauses};

use aiger::Refusal;
use cnf::{ClauseCounts, Clauses};
use making::Plan;
use model::{AigerTransition, LentModel};
use obligation_check::{Predicate, Question};
use obligation_claims::Claims;

mod making;

// What is claimed: where a row leads, or that these are the states of a terminal list.
#[derive(Clone, Copy)]
pub enum Claim<'a> {
    Relation {
        source: u64,
        targets: &'a [u64],
    },
    Transducer {
        source: u64,
        observed: &'a [u64],
        outcomes: &'a [u64],
    },
    Terminal {
        bad: u64,
        states: &'a [u64],
    },
}

// A question whose model and boundary are accepted.
#[derive(Clone, Copy)]
struct Accepted<'a> {
    question: &'a Question<'a>,
    ghost asks: { Asks (asked_in question.now) },
}

// Whether the claim is right for an accepted model: R9.14.
fn claim_holds(accepted: &Accepted, claim: Claim) -> bool
    ensures { result ≡ claim_test (circuit (asked_in accepted.now.question.now)) claim.entry }
{
    let counts = accepted.question.model.counts;
    match claim {
        Claim::Relation { source, targets } => {
            obligation_check::is_state(counts.latches, source)
                && obligation_check::states_claimed(counts.latches, targets)
        }
        Claim::Transducer {
            source,
            observed,
            outcomes,
        } => {
            obligation_check::is_state(counts.latches, source)
                && obligation_check::outcomes_claimed(
                    counts.latches,
                    counts.outputs as u64,
                    observed,
                    outcomes,
                )
        }
        Claim::Terminal { bad, states } => {
            bad < counts.outputs as u64 && obligation_check::states_claimed(counts.latches, states)
        }
    }
}

// Makes the clauses of a row with claimed targets, once all arguments are accepted.
fn make_relation(
    accepted: &Accepted,
    source: u64,
    targets: &[u64],
    clauses: &mut Clauses,
) -> Result<ClauseCounts, Refusal>
    requires { ClaimsOf (states_claimed (circuit (asked_in accepted.now.question.now)) targets.now) }
    ensures { let q = asked_in accepted.now.question.now in MakesAll (relation_clauses (circuit q) q.relevant (predicate q) source targets.now) clauses.old result clauses.new }
{
    let question = accepted.question;
    let latches = question.model.counts.latches;
    let now = question.model.currents();
    let next = question.model.nexts();
    let mut keys = [0; 8];
    let count = obligation_claims::state_keys(lists::first(&next, latches), &mut keys);
    let plan = Plan {
        currents: lists::first(&now, latches),
        source,
        keys: lists::first(&keys, count),
        claims: Claims::States(targets),
        last: 1,
    };
    making::make(question, plan, clauses)
}

// The same for a row with claimed outcomes.
fn make_transducer(
    accepted: &Accepted,
    source: u64,
    observed: &[u64],
    outcomes: &[u64],
    clauses: &mut Clauses,
) -> Result<ClauseCounts, Refusal>
    requires { ClaimsOf (outcomes_claimed (circuit (asked_in accepted.now.question.now)) observed.now (outcomes_of outcomes.now)) }
    ensures { let q = asked_in accepted.now.question.now in MakesAll (transducer_clauses (circuit q) q.relevant (predicate q) source observed.now (outcomes_of outcomes.now)) clauses.old result clauses.new }
{
    let question = accepted.question;
    let counts = question.model.counts;
    let now = question.model.currents();
    let next = question.model.nexts();
    let nexts = lists::first(&next, counts.latches);
    let outputs = lists::first(question.model.outputs, counts.outputs);
    let mut keys = [0; 136];
    let count = obligation_claims::outcome_keys(nexts, outputs, observed, &mut keys);
    let plan = Plan {
        currents: lists::first(&now, counts.latches),
        source,
        keys: lists::first(&keys, count),
        claims: Claims::Outcomes(outcomes),
        last: 1,
    };
    making::make(question, plan, clauses)
}

// The same for a terminal list, which has no source, and ends with the bad output at 0.
fn make_terminal(
    accepted: &Accepted,
    bad: usize,
    states: &[u64],
    clauses: &mut Clauses,
) -> Result<ClauseCounts, Refusal>
    requires { ClaimsOf (states_claimed (circuit (asked_in accepted.now.question.now)) states.now) }
    ensures { let q = asked_in accepted.now.question.now in MakesAll (terminal_clauses (circuit q) q.relevant (predicate q) bad states.now) clauses.old result clauses.new }
{
    let question = accepted.question;
    let counts = question.model.counts;
    let now = question.model.currents();
    let outputs = lists::first(question.model.outputs, counts.outputs);
    let mut keys = [0; 8];
    let count = obligation_claims::state_keys(lists::first(&now, counts.latches), &mut keys);
    let plan = Plan {
        currents: lists::first(&now, 0),
        source: 0,
        keys: lists::first(&keys, count),
        claims: Claims::States(states),
        last: cnf::opposite_of(lists::word(outputs, bad)),
    };
    making::make(question, plan, clauses)
}

// Makes the clauses of a claim, once all arguments are accepted.
fn make_accepted(
    accepted: &Accepted,
    claim: Claim,
    clauses: &mut Clauses,
) -> Result<ClauseCounts, Refusal>
    requires { ClaimsOf (claim_test (circuit (asked_in accepted.now.question.now)) claim) }
    ensures { MakesAll (claim_clauses (asked_in accepted.now.question.now) claim.entry) clauses.old result clauses.new }
{
    match claim {
        Claim::Relation { source, targets } => { make_relation(accepted, source, targets, clauses) }
        Claim::Transducer {
            source,
            observed,
            outcomes,
        } => make_transducer(accepted, source, observed, outcomes, clauses),
        Claim::Terminal { bad, states } => {
            make_terminal(accepted, bad as usize, states, clauses)
        }
    }
}

// The clauses of an obligation, or the reason why there are none.
pub fn make(
    question: &Question,
    claim: Claim,
    work: &mut [u64],
    pairs: &mut [u64],
    literals: &mut [u32],
) -> Result<ClauseCounts, Refusal>
    ensures { Promised claim.entry (asked_in question.now) (buffers_of pairs.old literals.old work.old) result (buffers_of pairs.new literals.new work.new) }
{
    question.check(work)?;
    let accepted = Accepted { question };
    if !claim_holds(&accepted, claim) {
        return Err(Refusal::Claim);
    }
    let counts = ClauseCounts {
        clauses: 0,
        literals: 0,
    };
    let mut clauses = Clauses {
        pairs,
        literals,
        counts,
    };
    make_accepted(&accepted, claim, &mut clauses)
}

// The clauses of a row: every input that meets the predicate leads from the source to a claimed target.
// Kept (travel): the arguments are those of the Rust's call.
pub fn relation_row_completeness_cnf(
    model: &AigerTransition,
    gates: &[u64],
    relevant: &[u64],
    source: u64,
    predicate_pairs: &[u64],
    predicate_literals: &[u32],
    targets: &[u64],
    work: &mut [u64],
    pairs: &mut [u64],
    literals: &mut [u32],
) -> Result<ClauseCounts, Refusal>
    ensures { MakesRelation (asked_of model.now gates.now relevant.now predicate_pairs.now predicate_literals.now) source targets.now (buffers_of pairs.old literals.old work.old) result (buffers_of pairs.new literals.new work.new) }
{
    let predicate = Predicate {
        relevant,
        pairs: predicate_pairs,
        literals: predicate_literals,
    };
    let question = Question {
        model: LentModel::from(model),
        gates,
        predicate,
    };
    make(
        &question,
        Claim::Relation { source, targets },
        work,
        pairs,
        literals,
    )
}
