// The lists of literals of all witnesses, each gathered into one list of joint literals.
ghost use Rattle.std.specs.Prelude.{map, ◌≡◌, ◌+◌, ◌<◌};
ghost use Rattle.lists.specs.Parts.{part, put};
ghost use Rattle.compose_joint.specs.Inner.Joint.{shifted, shifted_literal, joint_literals, list_of};
ghost use Rattle.compose_gather.specs.Inner.Gathered.{words_for, range_of, Shiftable, SmallWord, CanShift, CanShiftRange, shift_for, beyond_counts, SmallBefore, ShiftsRange, literal_count, CanGather, RightTotals, Gathers};

use crate::{Range, Witnesses};
use compose_joint::{Before, Literals, Shift};
use witness_text::AagCounts;

// Where a list of literals stands among the words of a text with these counts.
// Kept (switch): nothing else tells one list from another, so four functions would be no plainer.
fn range_of(kind: Literals, counts: AagCounts) -> Range
    requires { words_for counts < 18446744073709551616 }
    ensures { result ≡ range_of kind counts }
{
    let outputs = 2 * counts.inputs + 4 * counts.latches;
    match kind {
        Literals::Latches => Range {
            start: 2 * counts.inputs + 2 * counts.latches,
            count: 2 * counts.latches,
        },
        Literals::Safety => {
            if counts.bads == 0 {
                return Range {
                    start: outputs,
                    count: counts.outputs,
                };
            }
            Range {
                start: outputs + counts.outputs,
                count: counts.bads,
            }
        }
        Literals::Constraints => Range {
            start: outputs + counts.outputs + counts.bads,
            count: counts.constraints,
        },
        Literals::Operands => Range {
            start: outputs + counts.outputs + counts.bads + counts.constraints,
            count: 2 * counts.gates,
        },
    }
}

// The joint variable of a variable.
fn shift(by: Shift, x: usize) -> usize
    requires { Shiftable by x }
    ensures { SmallWord result (shifted by x) }
{
    if x == 0 {
        return 0;
    }
    if x <= by.inputs {
        return x + by.by_input;
    }
    if x <= by.leaves {
        return x + by.by_latch;
    }
    x + by.by_gate
}

fn shift_literal(by: Shift, l: u64) -> u64
    requires { Shiftable by l }
    ensures { result ≡ shifted_literal by l }
{
    let x = shift(by, (l / 2) as usize);
    2 * x as u64 + l % 2
}

// Literals, written as joint literals into as many words.
fn shift_words(literals: &[u64], joint: &mut [u64], by: Shift)
    requires { CanShift by literals.now joint.old }
    ensures { joint.new ≡ map (shifted_literal by) literals.now }
{
    for i in 0..literals.len() {
        joint[i] = shift_literal(by, literals[i]);
    }
}

// How the variables of a witness become joint ones.
fn shift_of(inputs: usize, latches: usize, before: Before, counts: AagCounts) -> Shift
    requires { SmallBefore inputs latches before counts }
    ensures { result ≡ shift_for inputs latches before counts }
{
    let leaves = counts.inputs + counts.latches;
    Shift {
        inputs: counts.inputs,
        leaves: leaves,
        by_input: before.inputs,
        by_latch: inputs + before.latches - counts.inputs,
        by_gate: inputs + latches + before.gates - leaves,
    }
}

// What stands before the next witness.
fn pass(inputs: usize, latches: usize, before: Before, counts: AagCounts) -> Before
    requires { SmallBefore inputs latches before counts }
    ensures { result ≡ beyond_counts before counts }
{
    Before {
        inputs: before.inputs + counts.inputs,
        latches: before.latches + counts.latches,
        gates: before.gates + counts.gates,
    }
}

// The literals of a range behind a place, written as joint literals from another place on. Returns the place after them.
fn shift_range(range: Range, by: Shift, work: &mut [u64], from: usize, to: usize) -> usize
    requires { CanShiftRange range by work.old from to }
    ensures { ShiftsRange range by work.old from to work.new result }
{
    let (words, behind) = work.split_at_mut(to);
    let start = from + range.start;
    shift_words(
        &words[start..start + range.count],
        &mut behind[..range.count],
        by,
    );
    to + range.count
}

// A list of all witnesses, from a place on. Returns the place after it.
pub fn gather(
    witnesses: &Witnesses,
    work: &mut [u64],
    kind: Literals,
    inputs: usize,
    latches: usize,
    to: usize,
) -> usize
    requires can_gather { CanGather (literal_count kind) witnesses.now.texts.bytes.now witnesses.now.texts.pairs.now work.old to }
    requires right_totals { RightTotals witnesses.now.texts.bytes.now witnesses.now.texts.pairs.now inputs latches }
    ensures { Gathers (joint_literals (list_of kind) inputs latches) (literal_count kind) witnesses.now.texts.bytes.now witnesses.now.texts.pairs.now work.old to work.new result }
{
    let mut b = Before {
        inputs: 0,
        latches: 0,
        gates: 0,
    };
    let mut from = 0;
    let mut at = to;
    for w in 0..witnesses.len() {
        let n = witnesses.counts_of(w);
        let next = crate::after_words(n, from, at);
        let by = shift_of(inputs, latches, b, n);
        at = shift_range(range_of(kind, n), by, work, from, at);
        from = next;
        b = pass(inputs, latches, b, n);
    }
    at
}
