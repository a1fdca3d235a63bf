// The obligations: rows, rows with outputs, and terminal lists. A model is lent as the words of its memory.
// Kept (travel): C hands over each argument by itself; `question` makes one struct of them.
ghost use Rattle.std.specs.Prelude.{◌≡◌};
ghost use Rattle.aiger.specs.Refusals.{answered};
ghost use Rattle.model.specs.RecordWords.{record_in};
ghost use Rattle.obligation_spec.specs.Calls.{asked_of};
ghost use Rattle.obligation_check.specs.Inner.Questions.{asked_in};
ghost use Rattle.obligation.specs.Promise.{buffers_of};
ghost use Rattle.nitrasovy.specs.Inner.FlatEnums.{flat_sizes};
ghost use Rattle.nitrasovy.specs.FlatObligations.{RelationFlat, TransducerFlat, TerminalFlat};

use aiger::Refusal;
use cnf::ClauseCounts;
use model::LentModel;
use obligation::Claim;
use obligation_check::{Predicate, Question};

// Reason 0 and the numbers of clauses and literals, or the number of the reason and zeros.
// Kept (enum): C reads a reason beside the values.
#[repr(C)]
#[derive(Clone, Copy)]
pub struct NitMade {
    pub reason: u64,
    pub clauses: usize,
    pub literals: usize,
}

impl From<Result<ClauseCounts, Refusal>> for NitMade {
    ghost from_gives = { λ made flat. flat ≡ flat_sizes (answered made) };

    fn from(made: Result<ClauseCounts, Refusal>) -> NitMade {
        match made {
            Ok(appended) => NitMade {
                reason: 0,
                clauses: appended.clauses,
                literals: appended.literals,
            },
            Err(refusal) => NitMade {
                reason: u64::from(refusal),
                clauses: 0,
                literals: 0,
            },
        }
    }
}

// What is asked about a model that is lent as its words.
fn question<'a>(
    model: &'a [u64],
    gates: &'a [u64],
    relevant: &'a [u64],
    predicate_pairs: &'a [u64],
    predicate_literals: &'a [u32],
) -> Question<'a>
    ensures { asked_in result ≡ asked_of (record_in model.now) gates.now relevant.now predicate_pairs.now predicate_literals.now }
{
    Question {
        model: LentModel::from_words(model),
        gates,
        predicate: Predicate {
            relevant,
            pairs: predicate_pairs,
            literals: predicate_literals,
        },
    }
}

// A row with claimed targets.
// Kept (twin): they differ in what is claimed.
#[unsafe(no_mangle)]
pub extern "C" fn nit_relation_row(
    model: &[u64],
    gates: &[u64],
    relevant: &[u64],
    source: u64,
    predicate_pairs: &[u64],
    predicate_literals: &[u32],
    targets: &[u64],
    work: &mut [u64],
    pairs: &mut [u64],
    literals: &mut [u32],
) -> NitMade
    ensures { RelationFlat (asked_of (record_in model.now) gates.now relevant.now predicate_pairs.now predicate_literals.now) source targets.now (buffers_of pairs.old literals.old work.old) result (buffers_of pairs.new literals.new work.new) }
{
    let question = question(model, gates, relevant, predicate_pairs, predicate_literals);
    NitMade::from(obligation::make(
        &question,
        Claim::Relation { source, targets },
        work,
        pairs,
        literals,
    ))
}

// A row with claimed outcomes.
#[unsafe(no_mangle)]
pub extern "C" fn nit_transducer_row(
    model: &[u64],
    gates: &[u64],
    relevant: &[u64],
    source: u64,
    predicate_pairs: &[u64],
    predicate_literals: &[u32],
    observed: &[u64],
    outcomes: &[u64],
    work: &mut [u64],
    pairs: &mut [u64],
    literals: &mut [u32],
) -> NitMade
    ensures { TransducerFlat (asked_of (record_in model.now) gates.now relevant.now predicate_pairs.now predicate_literals.now) source observed.now outcomes.now (buffers_of pairs.old literals.old work.old) result (buffers_of pairs.new literals.new work.new) }
{
    let question = question(model, gates, relevant, predicate_pairs, predicate_literals);
    NitMade::from(obligation::make(
        &question,
        Claim::Transducer {
            source,
            observed,
            outcomes,
        },
        work,
        pairs,
        literals,
    ))
}

// A terminal list.
#[unsafe(no_mangle)]
pub extern "C" fn nit_terminal(
    model: &[u64],
    gates: &[u64],
    relevant: &[u64],
    predicate_pairs: &[u64],
    predicate_literals: &[u32],
    bad_output: u64,
    states: &[u64],
    work: &mut [u64],
    pairs: &mut [u64],
    literals: &mut [u32],
) -> NitMade
    ensures { TerminalFlat (asked_of (record_in model.now) gates.now relevant.now predicate_pairs.now predicate_literals.now) bad_output states.now (buffers_of pairs.old literals.old work.old) result (buffers_of pairs.new literals.new work.new) }
{
    let question = question(model, gates, relevant, predicate_pairs, predicate_literals);
    NitMade::from(obligation::make(
        &question,
        Claim::Terminal {
            bad: bad_output,
            states,
        },
        work,
        pairs,
        literals,
    ))
}
