// Leaves are numbered at their first appearance, and composed literals are collected in sets of bits, all in lent words.
#![tactic(auto)]

ghost use Rattle.std.specs.Prelude.{◌≡◌, ◌-◌, ◌≤◌, length};
ghost use Rattle.lists.specs.Parts.{put, zeros};
ghost use Rattle.compose_numbers.specs.Inner.Marked.{HasSlot, KnownNumber, CanNumber, Numbered, CanAdd, Added};

// The number that a leaf with this origin word has already, if it has one. A leaf of the model that has none gets the number `next` among the
// assigned ones, which are those of the model's variables behind the first `before`.
fn known_number(assigned: &mut [u64], before: usize, origin: u64, next: u64) -> Option<u64>
    requires { HasSlot before (length assigned.old) origin }
    ensures { KnownNumber before origin next assigned.old assigned.new result }
{
    if origin % 2 == 1 {
        return None;
    }
    let slot = (origin / 2) as usize - before - 1;
    let number = assigned[slot];
    if number == 0 {
        assigned[slot] = next;
        return None;
    }
    Some(number)
}

// Numbers inputs, or latches, by their origin words, and returns the next number. A private one is new each time; one of the model has one
// number, which is kept among the assigned numbers.
pub fn number_leaves(
    origins: &[u64],
    assigned: &mut [u64],
    before: usize,
    numbers: &mut [u64],
    next: usize,
) -> usize
    requires { CanNumber origins.now assigned.old before numbers.old next }
    ensures { Numbered origins.now assigned.old before next assigned.new numbers.new result }
{
    let mut after = next;
    for i in 0..origins.len() {
        let Some(number) = known_number(assigned, before, origins[i], after as u64) else {
            numbers[i] = after as u64;
            after += 1;
            continue;
        };
        numbers[i] = number;
    }
    after
}

// Collects the composed literals of joint ones in a set of bits, which is empty at first, and counts them.
pub fn add_literals(literals: &[u64], vars: &[u64], set: &mut [u64]) -> usize
    requires { CanAdd literals.now vars.now set.old }
    ensures { Added literals.now vars.now set.new result }
{
    let mut found = 0;
    for i in 0..literals.len() {
        let literal = compose_gates::translate(vars, literals[i]);
        found += usize::from(lists::add(set, literal as usize));
    }
    found
}

// The words from one place up to another become 0.
pub fn regions_clear(work: &mut [u64], from: usize, to: usize)
    requires { (from ≤ to) × (to ≤ length work.old) }
    ensures { work.new ≡ put work.old from (zeros (to - from)) }
{
    work[from..to].fill(0);
}
