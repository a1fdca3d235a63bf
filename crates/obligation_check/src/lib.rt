// Whether an obligation's boundary (R9.13) and its claims (R9.14) are within the limits.
#![tactic(auto)]

ghost use Rattle.std.specs.Prelude.{◌≡◌, ◌+◌, ◌*◌, ◌/◌, ◌≤◌, ◌<◌, ◌^◌, ltb, length, get_or};
ghost use Rattle.lists.specs.Tests.{all};
ghost use Rattle.obligation_spec.specs.Lists.{outcomes_of};
ghost use Rattle.obligation_spec.specs.Limits.{before, rising_outcomes};
ghost use Rattle.model.specs.Inner.Lent.{lent_record};
ghost use Rattle.obligation_check.specs.Inner.Questions.{asked_in};
ghost use Rattle.obligation_check.specs.Inner.Boundary.{indexes, predicate_holds, Bounds, IsState, ClaimsStates, ClaimsOutcomes, no_outcome, outcome_fits, Checks};

use aiger::Refusal;
use model::LentModel;
use model_step::Outcome;

// A predicate over relevant inputs: their places among the inputs, and its clauses as pairs and literals.
#[derive(Clone, Copy)]
pub struct Predicate<'a> {
    pub relevant: &'a [u64],
    pub pairs: &'a [u64],
    pub literals: &'a [u32],
}

// What every obligation is asked about.
#[derive(Clone, Copy)]
pub struct Question<'a> {
    pub model: LentModel<'a>,
    pub gates: &'a [u64],
    pub predicate: Predicate<'a>,
}

// Whether each word of a clause indexes one of n relevant inputs.
fn indexes_hold(clause: &[u32], n: u32) -> bool
    ensures { result ≡ indexes n clause.now }
{
    for word in clause {
        if n <= *word / 2 {
            return false;
        }
    }
    true
}

// Whether the predicate's pairs are in order, and its literals index one of n relevant inputs.
fn predicate_holds(pairs: &[u64], literals: &[u32], n: u32) -> bool
    ensures { result ≡ predicate_holds n 0 literals.now pairs.now }
{
    let mut end = 0;
    for i in 0..pairs.len() / 2 {
        let Some(next) = lists::pair_end(pairs, i, end, literals.len()) else {
            return false;
        };
        let offset = pairs[2 * i] as usize;
        if !indexes_hold(&literals[offset..next], n) {
            return false;
        }
        end = next;
    }
    true
}

impl<'a> Predicate<'a> {
    // Whether relevant inputs and predicate are right for a model of so many inputs: R9.13.
    fn boundary_holds(&self, inputs: u64) -> bool
        ensures { Bounds inputs self.now.relevant.now self.now.pairs.now self.now.literals.now result }
    {
        let count = self.relevant.len();
        if 64 < count {
            return false;
        }
        if !lists::rises(self.relevant) {
            return false;
        }
        if !lists::below(self.relevant, inputs) {
            return false;
        }
        if 64 < self.pairs.len() / 2 {
            return false;
        }
        if !lists::lengths_within(self.pairs, 1024) {
            return false;
        }
        predicate_holds(self.pairs, self.literals, count as u32)
    }
}

// 2^L.
fn states(latches: usize) -> u64
    requires { latches ≤ 8 }
    ensures { result ≡ 2 ^ latches }
{
    let one: u64 = 1;
    one << latches
}

// Whether the number is a state of so many latches.
pub fn is_state(latches: usize, state: u64) -> bool
    requires { latches ≤ 8 }
    ensures { IsState latches state result }
{
    lists::fits(state, latches)
}

// Whether the states rise and are states of so many latches.
pub fn states_claimed(latches: usize, claims: &[u64]) -> bool
    requires { latches ≤ 8 }
    ensures { ClaimsStates latches claims.now result }
{
    lists::rises(claims) && lists::below(claims, states(latches))
}

// Whether the halves of an outcome's outputs have no bit at n or above.
fn bits_hold(high: u64, low: u64, n: usize) -> bool
    requires { n ≤ 128 }
    ensures { result ≡ ltb (low + 2 ^ 64 * high) (2 ^ n) }
{
    if 64 <= n {
        return lists::fits(high, n - 64);
    }
    high == 0 && lists::fits(low, n)
}

// The outcome of the three words at place i.
// Kept (twin): `gate` of `model` reads three words alike, but the fields have their own names.
fn outcome_at(words: &[u64], i: usize) -> Outcome
    requires { i < length words.now / 3 }
    ensures { result ≡ get_or (outcomes_of words.now) i no_outcome }
{
    Outcome {
        target: words[3 * i],
        high: words[3 * i + 1],
        low: words[3 * i + 2],
    }
}

// Whether each outcome comes before the next.
fn outcomes_rise(words: &[u64]) -> bool
    ensures { result ≡ rising_outcomes (outcomes_of words.now) }
{
    let count = words.len() / 3;
    for i in 1..count {
        let rises = outcome_at(words, i - 1) < outcome_at(words, i);
        if !rises {
            return false;
        }
    }
    true
}

// Whether each outcome's target is below 2^L, and its outputs have no bit at `width` or above.
fn outcomes_fit(words: &[u64], latches: usize, width: usize) -> bool
    requires { (latches ≤ 8) × (width ≤ 128) }
    ensures { result ≡ all (outcome_fits latches width) (outcomes_of words.now) }
{
    let count = words.len() / 3;
    let top = states(latches);
    for i in 0..count {
        let outcome = outcome_at(words, i);
        if top <= outcome.target || !bits_hold(outcome.high, outcome.low, width) {
            return false;
        }
    }
    true
}

// Whether observed outputs and claimed outcomes are right for a model of so many latches and outputs.
pub fn outcomes_claimed(latches: usize, outputs: u64, observed: &[u64], words: &[u64]) -> bool
    requires { (latches ≤ 8) × (outputs ≤ 128) }
    ensures { ClaimsOutcomes latches outputs observed.now words.now result }
{
    if !lists::rises(observed) {
        return false;
    }
    if !lists::below(observed, outputs) {
        return false;
    }
    if 65536 < words.len() / 3 {
        return false;
    }
    if !outcomes_rise(words) {
        return false;
    }
    outcomes_fit(words, latches, observed.len())
}

impl<'a> Question<'a> {
    // Whether there is a model, and relevant inputs and predicate are right: R9.7, R9.11 and R9.13.
    pub fn check(&self, work: &mut [u64]) -> Result<(), Refusal>
        ensures { Checks (asked_in self.now) (length work.old) result work.new }
    {
        self.model.validate(&self.gates, work)?;
        let inputs = self.model.counts.inputs as u64;
        if !self.predicate.boundary_holds(inputs) {
            return Err(Refusal::Boundary);
        }
        Ok(())
    }
}
