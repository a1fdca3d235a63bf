// The step (R6) over gates that are lent as a list of records (R12.4).
#![tactic(auto)]

ghost use Rattle.std.specs.Prelude.{◌≡◌, length};
ghost use Rattle.lists.specs.Parts.{zeros};
ghost use Rattle.lists.specs.Words.{words_of};
ghost use Rattle.aiger.specs.Gates.{gate_words};
ghost use Rattle.aiger.specs.Refusals.{answered};
ghost use Rattle.model.specs.RecordWords.{record_in};
ghost use Rattle.model_step.specs.Step.{step_of};

use aiger::{Gate, Refusal};
use model::{GateList, LentModel};
use model_step::Outcome;

// Gates as records: what a step over words reads of them is the same.
#[derive(Clone, Copy)]
pub struct GateRecords<'a> {
    pub gates: &'a [Gate],
}

impl<'a> GateList for GateRecords<'a> {
    ghost words = { λ list. words_of gate_words list.gates.now };

    fn count(&self) -> usize {
        self.gates.len()
    }

    fn gate(&self, at: usize) -> Gate {
        self.gates[at]
    }
}

// One step of a model, which is lent as the words of its memory, with its gates as records. The work words are 0 again afterwards.
// Kept (travel): a state and an input word, as in `evaluate` of `model_step`.
pub fn evaluate_records(
    model: &[u64],
    gates: &[Gate],
    work: &mut [u64],
    state: u64,
    input: u64,
) -> Result<Outcome, Refusal>
    ensures { (answered result ≡ step_of (record_in model.now) (words_of gate_words gates.now) (length work.old) state input) × (work.new ≡ zeros (length work.old)) }
{
    let lent = LentModel::from_words(model);
    model_step::evaluate(&lent, &GateRecords { gates }, work, state, input)
}
