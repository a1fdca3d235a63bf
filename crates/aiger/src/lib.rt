// What both circuit readers share. The definitions stand in specs/, what is proved of them in proofs/.
#![tactic(auto)]

ghost use Rattle.std.specs.Prelude.{◌≡◌};
ghost use Rattle.aiger.specs.Refusals.{refusal_number};

// A gate: three literals.
#[repr(C)]
#[derive(Clone, Copy)]
pub struct Gate {
    pub output: u64,
    pub left: u64,
    pub right: u64,
}

// Why there is no result: the reasons of R9, each with its number there.
#[derive(Clone, Copy, Debug, PartialEq, Eq)]
pub enum Refusal {
    WitnessCount = 1,
    WitnessPairs = 2,
    Text = 3,
    Header = 4,
    Counts = 5,
    Liveness = 6,
    Room = 7,
    Line = 8,
    Symbol = 9,
    Comment = 10,
    Definition = 11,
    Step = 12,
    Boundary = 13,
    Claim = 14,
    ComposingRoom = 15,
    Mapping = 16,
    GateLimit = 17,
    LatchConflict = 18,
    NoSafety = 19,
    ResultRoom = 20,
}

impl From<Refusal> for u64 {
    ghost from_gives = { λ refusal n. n ≡ refusal_number refusal };

    fn from(refusal: Refusal) -> u64 {
        refusal as u64
    }
}
