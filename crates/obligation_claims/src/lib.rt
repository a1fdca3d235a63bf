// The clauses of claims (R7.4): each is true where the state, or an observed output, is not the claim's.
//
// All claims of a call have the same literals and differ in their bits alone. So the literals are put in order once, as keys that say
// which bit belongs to which literal, and each clause is filled nearly sorted.
#![tactic(auto)]

ghost use Rattle.std.specs.Prelude.{◌≡◌, not, [], ◌∷◌, map, ◌+◌, ◌/◌, ◌%◌, ◌≤◌, ◌<◌, ◌^◌, length, get_or, take};
ghost use Rattle.lists.specs.Bits.{bit};
ghost use Rattle.lists.specs.Parts.{put};
ghost use Rattle.lists.specs.Sets.{holds};
ghost use Rattle.word_sort.specs.Inner.Sorted.{sorted};
ghost use Rattle.cnf.specs.Inner.Appending.{Appends, Space};
ghost use Rattle.obligation_spec.specs.Lists.{valued};
ghost use Rattle.obligation_claims.specs.Inner.Claims.{keys_from, observed_keys, outcome_keys, claim_list, FewKeys, LowLiterals, FewLiterals};
ghost use Rattle.obligation_claims.specs.Inner.Kinds.{count_in, claim_at, lists_of};
ghost use Rattle.obligation_claims.specs.Inner.Filling.{InOrder, Fills, Fits};

use cnf::Clauses;

// Claims as their words: one a state, three an outcome (target, high, low).
// Kept (enum): two kinds of claims, and no Option or Result.
#[derive(Clone, Copy)]
pub enum Claims<'a> {
    States(&'a [u64]),
    Outcomes(&'a [u64]),
}

impl<'a> Claims<'a> {
    // How many claims there are.
    // Kept (by hand): a number of claims, and not what they are, so no `From`.
    pub fn count(self) -> usize
        ensures { result ≡ count_in self.entry }
    {
        match self {
            Claims::States(words) => words.len(),
            Claims::Outcomes(words) => words.len() / 3,
        }
    }

    // The words of the claim at a place.
    fn claim(self, i: usize) -> &'a [u64]
        requires { i < count_in self }
        ensures { result.now ≡ claim_at self.entry i }
    {
        match self {
            Claims::States(words) => &words[i..i + 1],
            Claims::Outcomes(words) => &words[3 * i..3 * i + 3],
        }
    }
}

// Writes the keys of the literals, whose bits begin at `place`.
fn add_keys(literals: &[u64], place: u64, keys: &mut [u64], at: usize)
    requires { (at + length literals.now ≤ length keys.old) × (place + length literals.now ≤ 256) × LowLiterals literals.now }
    ensures { keys.new ≡ put keys.old at (keys_from place literals.now) }
{
    for (i, literal) in literals.iter().enumerate() {
        keys[at + i] = 256 * *literal + (place + i as u64);
    }
}

// Writes the literals of the observed outputs.
fn observed_literals(outputs: &[u64], observed: &[u64], out: &mut [u64])
    requires { length observed.now ≤ length out.old }
    ensures { out.new ≡ put out.old 0 (map (λ i. get_or outputs.now i 0) observed.now) }
{
    for (i, index) in observed.iter().enumerate() {
        out[i] = lists::word(outputs, *index as usize);
    }
}

// Writes the keys of the observed outputs: the first 64 have the bits of the low half, the others those of the high half.
fn observed_keys(literals: &[u64], keys: &mut [u64], at: usize)
    requires { (at + length literals.now ≤ length keys.old) × FewLiterals 128 literals.now }
    ensures { keys.new ≡ put keys.old at (observed_keys literals.now) }
{
    let low = lists::first(literals, 64);
    let high = lists::cut(literals, 64, literals.len());
    add_keys(low, 128, keys, at);
    add_keys(high, 64, keys, at + low.len());
}

// Writes the keys of an outcome's literals.
fn add_outcome_keys(nexts: &[u64], literals: &[u64], keys: &mut [u64])
    requires { FewLiterals 8 nexts.now × FewLiterals 128 literals.now × (136 ≤ length keys.old) }
    ensures { keys.new ≡ put keys.old 0 (outcome_keys nexts.now literals.now) }
{
    add_keys(nexts, 0, keys, 0);
    observed_keys(literals, keys, nexts.len());
}

// Puts the keys of a state's literals in order, and says how many there are.
pub fn state_keys(literals: &[u64], keys: &mut [u64]) -> usize
    requires { FewLiterals 64 literals.now × (length literals.now ≤ length keys.old) }
    ensures { InOrder (keys_from 0 literals.now) result keys.new }
{
    let n = literals.len();
    add_keys(literals, 0, keys, 0);
    word_sort::sort(&mut keys[..n]);
    n
}

// Puts the keys of an outcome's literals in order, and says how many there are.
pub fn outcome_keys(nexts: &[u64], outputs: &[u64], observed: &[u64], keys: &mut [u64]) -> usize
    requires { FewLiterals 8 nexts.now × (length observed.now ≤ 128) × (136 ≤ length keys.old) × LowLiterals outputs.now }
    ensures { InOrder (outcome_keys nexts.now (map (λ i. get_or outputs.now i 0) observed.now)) result keys.new }
{
    let mut picked = [0; 128];
    let n = nexts.len() + observed.len();
    observed_literals(outputs, observed, &mut picked);
    add_outcome_keys(nexts, lists::first(&picked, observed.len()), keys);
    word_sort::sort(&mut keys[..n]);
    n
}

// The key's bit of the claim.
fn claim_bit(claim: &[u64], place: usize) -> u64
    ensures { result ≡ bit (holds claim.now place) }
{
    (lists::word(claim, place / 64) >> (place % 64)) % 2
}

// The literal that differs from the key's bit of the claim. Its sign is turned with no branch, since bits are hard to foresee.
fn claim_literal(key: u64, claim: &[u64]) -> u64
    requires { key < 2 ^ 39 }
    ensures { result ≡ valued (key / 256) (not (holds claim.now (key % 256))) }
{
    let literal = key / 256;
    let turn = claim_bit(claim, (key % 256) as usize);
    literal - literal % 2 + (literal + turn) % 2
}

// Fills the list with the words of a claim's clause, false constants left out, and says how many; none where a literal is the true one.
fn fill_claim(keys: &[u64], claim: &[u64], list: &mut [u64]) -> Option<usize>
    requires { FewKeys (length list.old) keys.now }
    ensures { Fills (claim_list keys.now claim.now) result list.new }
{
    let mut n = 0;
    for key in keys {
        let literal = claim_literal(*key, claim);
        if literal == 1 {
            return None;
        }
        if 2 <= literal {
            list[n] = cnf::word(literal);
            n += 1;
        }
    }
    Some(n)
}

// Appends the clause of a claim with at most three literals, filled up with false constants.
// Kept (travel): space is asked for as in `cnf`.
fn push_few(keys: &[u64], claim: &[u64], clauses: &mut Clauses)
    requires { Space clauses.old.counts 1 × FewKeys 3 keys.now }
    ensures { Appends (claim_list keys.now claim.now ∷ []) clauses.old clauses.new }
{
    let mut clause = [0; 3];
    for (i, key) in keys.iter().enumerate() {
        clause[i] = claim_literal(*key, claim);
    }
    clauses.push_short(clause);
}

// Appends the clause of a claim.
fn push_claim(keys: &[u64], claim: &[u64], list: &mut [u64], clauses: &mut Clauses)
    requires { Space clauses.old.counts 1 × Fits keys.now (length list.old) }
    ensures { Appends (claim_list keys.now claim.now ∷ []) clauses.old clauses.new }
{
    if keys.len() <= 3 {
        return push_few(keys, claim, clauses);
    }
    if let Some(n) = fill_claim(keys, claim, list) {
        clauses.push_simplified(&mut list[..n]);
    }
}

// Appends the clauses of claims, each made in the lent list.
fn push_claims(keys: &[u64], claims: Claims, list: &mut [u64], clauses: &mut Clauses)
    requires { Space clauses.old.counts (count_in claims) × Fits keys.now (length list.old) }
    ensures { Appends (lists_of keys.now claims.entry) clauses.old clauses.new }
{
    for i in 0..claims.count() {
        push_claim(keys, claims.claim(i), list, clauses);
    }
}

// Appends the clauses of claims, by the keys in order. A clause of four literals or more is made simple in a local list (R3.5), and then
// written.
pub fn append_claims(keys: &[u64], claims: Claims, clauses: &mut Clauses)
    requires { Space clauses.old.counts (count_in claims) × FewKeys 1024 keys.now }
    ensures { Appends (lists_of keys.now claims.entry) clauses.old clauses.new }
{
    if keys.len() <= 3 {
        let mut none = [0; 1];
        return push_claims(keys, claims, &mut none, clauses);
    }
    let mut list = [0; 1024];
    push_claims(keys, claims, &mut list, clauses);
}
