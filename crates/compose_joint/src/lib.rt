// The composer works on all witnesses side by side, as one circuit with joint variables: 0, then all inputs, all latches, all gates. The definitions stand in specs/.
#![tactic(auto)]

use witness_text::AagCounts;

// How the variables of one witness become joint ones: those up to `inputs`, those up to `leaves`, and the gates, each moved up by a number of its own.
#[derive(Clone, Copy)]
pub struct Shift {
    pub inputs: usize,
    pub leaves: usize,
    pub by_input: usize,
    pub by_latch: usize,
    pub by_gate: usize,
}

// How many inputs, latches and gates stand before those of a witness.
#[derive(Clone, Copy)]
pub struct Before {
    pub inputs: usize,
    pub latches: usize,
    pub gates: usize,
}

// The lists of literals of a witness: next and reset of its latches, its safety, its constraints, the operands of its gates.
#[derive(Clone, Copy)]
pub enum Literals {
    Latches,
    Safety,
    Constraints,
    Operands,
}

// Inputs or latches.
#[derive(Clone, Copy)]
pub enum Leaves {
    Inputs,
    Latches,
}

impl Leaves {
    ghost use Rattle.std.specs.Prelude.{◌≡◌, ◌*◌, ◌<◌, ◌^◌};
    ghost use Rattle.compose_joint.specs.Inner.Joint.{leaf_counts, names_before, kind_of, unnamed_of};

    // How many a text with these counts has.
    pub fn count(self, counts: AagCounts) -> usize
        ensures { result ≡ leaf_counts self counts }
    {
        match self {
            Leaves::Inputs => counts.inputs,
            Leaves::Latches => counts.latches,
        }
    }

    // Where their names begin among the words of the text.
    pub fn names_before(self, counts: AagCounts) -> usize
        requires { 2 * counts.inputs < 2 ^ 64 }
        ensures { result ≡ names_before self counts }
    {
        match self {
            Leaves::Inputs => 0,
            Leaves::Latches => 2 * counts.inputs,
        }
    }

    // The byte that begins their symbol lines.
    // Kept (by hand): no `From`, since neither this byte nor the text below stands for inputs or latches anywhere else.
    pub fn kind(self) -> u8
        ensures { result ≡ kind_of self }
    {
        match self {
            Leaves::Inputs => b'i',
            Leaves::Latches => b'l',
        }
    }

    // What stands for a name where there is none.
    // Kept (by hand): as in `kind`.
    pub fn unnamed(self) -> &'static [u8]
        ensures { result.now ≡ unnamed_of self }
    {
        match self {
            Leaves::Inputs => b"private-input",
            Leaves::Latches => b"private-latch",
        }
    }
}
