// The transition reader and the step.
// Kept (travel): C hands over each argument by itself.
ghost use Rattle.std.specs.Prelude.{◌≡◌, length};
ghost use Rattle.model.specs.RecordWords.{record_in};
ghost use Rattle.model_read.specs.Reading.{read_transition};
ghost use Rattle.aiger.specs.Refusals.{answered};
ghost use Rattle.model_step.specs.Step.{step_of};
ghost use Rattle.nitrasovy.specs.FlatModels.{flat_step, ReadsFlat, StepsFlat};

use aiger::Refusal;
use model::{AigerTransition, LentModel};
use model_step::Outcome;

// Reason 0 and the model, or the number of the reason and a record of zeros.
// Kept (enum): C reads a reason beside the values.
#[repr(C)]
#[derive(Clone, Copy)]
pub struct NitRead {
    pub reason: u64,
    pub model: AigerTransition,
}

// Reason 0 and the outcome, or the number of the reason and zeros.
// Kept (enum): C reads a reason beside the values.
#[repr(C)]
#[derive(Clone, Copy)]
pub struct NitStepped {
    pub reason: u64,
    pub target: u64,
    pub high: u64,
    pub low: u64,
}

// Reads a transition model from a text; its gate words go to the front of `gates`.
#[unsafe(no_mangle)]
pub extern "C" fn nit_read_transition(text: &[u8], gates: &mut [u64], work: &mut [u64]) -> NitRead
    ensures { ReadsFlat (read_transition text.now (length gates.old) (length work.old)) gates.old work.old result gates.new work.new }
{
    // Kept (by hand): a `From` would copy the record once more, which takes some 200 instructions a call.
    match model_read::parse_ascii_aiger_transition(text, gates, work) {
        Ok(model) => NitRead { reason: 0, model },
        Err(refusal) => NitRead {
            reason: u64::from(refusal),
            model: model_read::no_model(),
        },
    }
}

impl From<Result<Outcome, Refusal>> for NitStepped {
    ghost from_gives = { λ stepped flat. flat ≡ flat_step (answered stepped) };

    fn from(stepped: Result<Outcome, Refusal>) -> NitStepped {
        match stepped {
            Ok(outcome) => NitStepped {
                reason: 0,
                target: outcome.target,
                high: outcome.high,
                low: outcome.low,
            },
            Err(refusal) => NitStepped {
                reason: u64::from(refusal),
                target: 0,
                high: 0,
                low: 0,
            },
        }
    }
}

// One step of a model, which is lent as the words of its memory.
// Kept (travel): C hands over a state and an input word.
#[unsafe(no_mangle)]
pub extern "C" fn nit_step(
    model: &[u64],
    gates: &[u64],
    work: &mut [u64],
    state: u64,
    input: u64,
) -> NitStepped
    ensures { StepsFlat (step_of (record_in model.now) gates.now (length work.old) state input) work.old result work.new }
{
    let lent = LentModel::from_words(model);
    NitStepped::from(model_step::evaluate(&lent, &gates, work, state, input))
}
