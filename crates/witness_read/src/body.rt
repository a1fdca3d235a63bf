// The sections of a text, line by line: a missing or bad line (R9.8), and whether the literals are in range and order (R9.11).
ghost use Rattle.std.specs.Prelude.{ℕ, Bool, true, ◌≡◌, ◌+◌, ◌≤◌, ◌<◌};
ghost use Rattle.lists.specs.Tests.{all_from};
ghost use Rattle.text.specs.Texts.{limited};
ghost use Rattle.aiger.specs.Defined.{literal};
ghost use Rattle.witness_text.specs.Header.{counted};
ghost use Rattle.witness_read.specs.Order.{defines, latch_numbered, gate_numbered};
ghost use Rattle.witness_read.specs.Inner.Passes.{Checks, ChecksLeaves, ChecksProperties, ChecksBody, SmallNumber, SmallMost, SmallBoth};

use super::Checked;
use aiger::Gate;
use circuit_lines::{GateLine, LiteralLine, TakeLine};
use text::Reader;
use witness_text::{AagCounts, Latch, LatchLine};

// What is tested of the items of a section, each by its number.
trait Numbered<A> {
    ghost test: { Self → ℕ → A → Bool };

    // of which numbers it may be asked
    ghost may: { Self → ℕ → Type 0 };

    fn passes(self, k: usize, item: A) -> bool
        requires { may self k }
        ensures { result ≡ test self k item };
}

// Input k is that of variable k.
#[derive(Clone, Copy)]
struct Inputs {}

// Latch k is that of variable k, with literals in range; `most` is M.
#[derive(Clone, Copy)]
struct Latches {
    most: u64,
}

// An output, a bad or a constraint is in range; `most` is M.
#[derive(Clone, Copy)]
struct Literals {
    most: u64,
}

// Gate k is that of variable k, with smaller operands.
#[derive(Clone, Copy)]
struct Gates {}

// Whether a literal is at most 2M + 1.
fn literal_holds(most: u64, l: u64) -> bool
    requires { most ≤ 2000000 }
    ensures { result ≡ literal most l }
{
    l <= 2 * most + 1
}

// Whether a latch is that of variable k, with literals in range.
fn latch_numbered(most: u64, k: usize, latch: Latch) -> bool
    requires { (most ≤ 2000000) × (k ≤ 2000000) }
    ensures { result ≡ latch_numbered most k latch }
{
    (latch.current == 2 * k as u64)
        & literal_holds(most, latch.next)
        & literal_holds(most, latch.reset)
}

// Whether a gate is that of variable k, with smaller operands.
fn gate_numbered(k: usize, gate: Gate) -> bool
    requires { k ≤ 2000000 }
    ensures { result ≡ gate_numbered k gate }
{
    let variable = k as u64;
    (gate.output == 2 * variable) & (gate.left / 2 < variable) & (gate.right / 2 < variable)
}

impl Numbered<u64> for Inputs {
    ghost test = { λ inputs. defines };

    ghost may = { λ inputs. SmallNumber };

    fn passes(self, k: usize, item: u64) -> bool {
        item == 2 * k as u64
    }
}

impl Numbered<Latch> for Latches {
    ghost test = { λ latches. latch_numbered latches.most };

    ghost may = { λ latches. SmallBoth latches.most };

    fn passes(self, k: usize, item: Latch) -> bool {
        latch_numbered(self.most, k, item)
    }
}

impl Numbered<u64> for Literals {
    ghost test = { λ literals k. literal literals.most };

    ghost may = { λ literals k. SmallMost literals.most };

    fn passes(self, k: usize, item: u64) -> bool {
        literal_holds(self.most, item)
    }
}

impl Numbered<Gate> for Gates {
    ghost test = { λ gates. gate_numbered };

    ghost may = { λ gates. SmallNumber };

    fn passes(self, k: usize, item: Gate) -> bool {
        gate_numbered(k, item)
    }
}

// A section of n lines, whose items are numbered from `first` on.
// Kept (buffer): n lines are taken, as the header counts them, and no slice has that length.
fn check_section<K: TakeLine, T: Numbered<K::Item> + Copy>(
    kind: K,
    test: T,
    s: &[u8],
    n: usize,
    first: usize,
) -> Option<Checked<'_>>
    requires fits { first + n < 18446744073709551616 }
    requires may { (i : ℕ) → i < n → T.may test (first + i) }
    ensures { Checks (K.item kind) (all_from (T.test test) first) s.now n result }
{
    let mut rest = s;
    let mut fine = true;
    for i in 0..n {
        let taken = kind.take(rest)?;
        fine &= test.passes(first + i, taken.value);
        rest = taken.rest;
    }
    Some(Checked { rest, fine })
}

// Inputs and latches.
fn check_leaves(s: &[u8], counts: AagCounts) -> Option<Checked<'_>>
    requires { counted limited counts ≡ true }
    ensures { ChecksLeaves s.now counts result }
{
    let test = Latches {
        most: counts.max_variable as u64,
    };
    let inputs = check_section(
        LiteralLine {
            reader: Reader::Witness,
        },
        Inputs {},
        s,
        counts.inputs,
        1,
    )?;
    let latches = check_section(
        LatchLine {},
        test,
        inputs.rest,
        counts.latches,
        counts.inputs + 1,
    )?;
    Some(Checked {
        rest: latches.rest,
        fine: inputs.fine & latches.fine,
    })
}

// Outputs, bads and constraints.
fn check_properties(s: &[u8], counts: AagCounts) -> Option<Checked<'_>>
    requires { counted limited counts ≡ true }
    ensures { ChecksProperties s.now counts result }
{
    let kind = LiteralLine {
        reader: Reader::Witness,
    };
    let test = Literals {
        most: counts.max_variable as u64,
    };
    let outputs = check_section(kind, test, s, counts.outputs, 0)?;
    let bads = check_section(kind, test, outputs.rest, counts.bads, 0)?;
    let constraints = check_section(kind, test, bads.rest, counts.constraints, 0)?;
    Some(Checked {
        rest: constraints.rest,
        fine: outputs.fine & bads.fine & constraints.fine,
    })
}

// All sections.
pub fn check_body(s: &[u8], counts: AagCounts) -> Option<Checked<'_>>
    requires { counted limited counts ≡ true }
    ensures { ChecksBody s.now counts result }
{
    let leaves = check_leaves(s, counts)?;
    let properties = check_properties(leaves.rest, counts)?;
    let kind = GateLine {
        reader: Reader::Witness,
    };
    let gates = check_section(
        kind,
        Gates {},
        properties.rest,
        counts.gates,
        counts.inputs + counts.latches + 1,
    )?;
    Some(Checked {
        rest: gates.rest,
        fine: leaves.fine & properties.fine & gates.fine,
    })
}
