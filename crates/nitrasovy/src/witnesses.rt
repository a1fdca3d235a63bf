// The witness reader.
// Kept (switch): the flag is an argument of C.
ghost use Rattle.std.specs.Prelude.{◌≡◌};
ghost use Rattle.aiger.specs.Refusals.{answered};
ghost use Rattle.text.specs.Texts.{limited};
ghost use Rattle.witness_read.specs.Reading.{read_aag};
ghost use Rattle.nitrasovy.specs.Inner.FlatEnums.{flat_counts};
ghost use Rattle.nitrasovy.specs.FlatWitnesses.{CountsFlat};

use aiger::Refusal;
use witness_text::AagCounts;

// Reason 0 and the counts, or the number of the reason and zeros.
// Kept (enum): C reads a reason beside the values.
#[repr(C)]
#[derive(Clone, Copy)]
pub struct NitWitness {
    pub reason: u64,
    pub max_variable: usize,
    pub inputs: usize,
    pub latches: usize,
    pub outputs: usize,
    pub gates: usize,
    pub bads: usize,
    pub constraints: usize,
}

impl From<Result<AagCounts, Refusal>> for NitWitness {
    ghost from_gives = { λ read flat. flat ≡ flat_counts (answered read) };

    fn from(read: Result<AagCounts, Refusal>) -> NitWitness {
        match read {
            Ok(n) => NitWitness {
                reason: 0,
                max_variable: n.max_variable,
                inputs: n.inputs,
                latches: n.latches,
                outputs: n.outputs,
                gates: n.gates,
                bads: n.bads,
                constraints: n.constraints,
            },
            Err(refusal) => NitWitness {
                reason: u64::from(refusal),
                max_variable: 0,
                inputs: 0,
                latches: 0,
                outputs: 0,
                gates: 0,
                bads: 0,
                constraints: 0,
            },
        }
    }
}

// Reads a text as a witness, or as the model of a composition.
#[unsafe(no_mangle)]
pub extern "C" fn nit_read_witness(text: &[u8], witness: bool) -> NitWitness
    ensures { CountsFlat (read_aag limited witness text.now) result }
{
    NitWitness::from(witness_read::parse_aag(text, witness))
}
