// The step over gates that are lent as a list of records.
// Kept (travel): C hands over each argument by itself.
ghost use Rattle.std.specs.Prelude.{length};
ghost use Rattle.lists.specs.Words.{words_of};
ghost use Rattle.aiger.specs.Gates.{gate_words};
ghost use Rattle.model.specs.RecordWords.{record_in};
ghost use Rattle.model_step.specs.Step.{step_of};
ghost use Rattle.nitrasovy.specs.FlatModels.{StepsFlat};

use crate::models::NitStepped;
use aiger::Gate;

// One step of a model, which is lent as the words of its memory, with its gates as a list of records.
// Kept (travel): C hands over a state and an input word.
#[unsafe(no_mangle)]
pub extern "C" fn nit_step_records(
    model: &[u64],
    gates: &[Gate],
    work: &mut [u64],
    state: u64,
    input: u64,
) -> NitStepped
    ensures { StepsFlat (step_of (record_in model.now) (words_of gate_words gates.now) (length work.old) state input) work.old result work.new }
{
    NitStepped::from(model_step_records::evaluate_records(model, gates, work, state, input))
}
