// The witnesses, laid out in the work words, are merged into the composition: its variables, gates, latches, bads and constraints.
#![tactic(auto)]

ghost use Rattle.compose_layout.specs.Inner.Laid.{OfSome};
ghost use Rattle.compose_merge.specs.Inner.Merged.{Mergeable, Goes};
ghost use Rattle.compose_merge.specs.Inner.Stages.{Clearable, Clears, CanNumberAll, NumbersAll, CanShare, SharesAll, CanDefine, DefinesAll, CanCollect, Collects, GatesShared};

use aiger::Refusal;
use compose_gather::Totals;
use compose_layout::Layout;
use witness_text::AagCounts;

// The counts of the composition.
#[derive(Clone, Copy)]
pub struct Merged {
    pub inputs: usize,
    pub latches: usize,
    pub gates: usize,
    pub bads: usize,
    pub constraints: usize,
}

// How many bads and constraints there are.
#[derive(Clone, Copy)]
struct Found {
    bads: usize,
    constraints: usize,
}

// Clears the words that are read before they are written: the numbers assigned to the model's leaves and the constant's variable behind
// them, the heads of the table of gates, and both sets of bits.
fn clear_regions(work: &mut [u64], at: Layout, gates: usize)
    requires { Clearable at gates work.old }
    ensures { Clears at gates work.old work.new }
{
    compose_numbers::regions_clear(work, at.assigned, at.vars + 1);
    compose_numbers::regions_clear(work, at.gates, at.gates + (gates + 1));
    compose_numbers::regions_clear(work, at.bad_bits, at.end);
}

// Numbers the inputs from 1 on, then the latches, by their origin words. Returns the number of the first latch, and the next number.
fn number(work: &mut [u64], at: Layout, model_counts: AagCounts, totals: Totals) -> (usize, usize)
    requires { CanNumberAll at model_counts totals work.old }
    ensures { NumbersAll at model_counts totals work.old work.new result.0 result.1 }
{
    let (front, numbers) = work.split_at_mut(at.vars + 1);
    let (lists, assigned) = front.split_at_mut(at.assigned);
    let (inputs, latches) = assigned.split_at_mut(model_counts.inputs);
    let (of_inputs, rest) = numbers.split_at_mut(totals.inputs);
    let first_latch = compose_numbers::number_leaves(
        &lists[at.input_origins..at.latch_origins],
        inputs,
        0,
        of_inputs,
        1,
    );
    let next = compose_numbers::number_leaves(
        &lists[at.latch_origins..],
        &mut latches[..model_counts.latches],
        model_counts.inputs,
        &mut rest[..totals.latches],
        first_latch,
    );
    (first_latch, next)
}

// Shares the gates, where they are not too many (R9.17), and counts those of the composition.
fn share(work: &mut [u64], at: Layout, totals: Totals, leaves: usize) -> Option<usize>
    requires { CanShare at totals leaves work.old }
    ensures { SharesAll at totals leaves work.old work.new result }
{
    let (front, rest) = work.split_at_mut(at.gates);
    let (lists, vars) = front.split_at_mut(at.vars);
    compose_gates::share_gates(
        &lists[at.operands..at.safety],
        vars,
        1 + totals.inputs + totals.latches,
        &mut rest[..at.definitions - at.gates],
        leaves,
    )
}

// Stores the definitions of the latches, where those of each agree (R9.18), and counts them.
fn define(work: &mut [u64], at: Layout, totals: Totals, first: usize) -> Option<usize>
    requires { CanDefine at totals first work.old }
    ensures { DefinesAll at totals first work.old work.new result }
{
    let (front, rest) = work.split_at_mut(at.definitions);
    compose_gates::define_latches(
        &front[at.latches..at.operands],
        &front[at.vars..at.gates],
        1 + totals.inputs,
        &mut rest[..at.bad_bits - at.definitions],
        first,
    )
}

// Collects the bads and the constraints, each in its set of bits.
fn collect(work: &mut [u64], at: Layout) -> Found
    requires { CanCollect at work.old }
    ensures { Collects at work.old work.new result.bads result.constraints }
{
    let (front, sets) = work.split_at_mut(at.bad_bits);
    let vars = &front[at.vars..];
    let (bads, rest) = sets.split_at_mut(at.bits);
    Found {
        bads: compose_numbers::add_literals(&front[at.safety..at.constraints], vars, bads),
        constraints: compose_numbers::add_literals(
            &front[at.constraints..at.input_origins],
            vars,
            &mut rest[..at.bits],
        ),
    }
}

// Defines the latches and collects the bads and the constraints, once the gates are shared. The inputs are numbered from 1 up to `first`,
// the latches from there up to `next`.
fn define_and_collect(
    work: &mut [u64],
    at: Layout,
    totals: Totals,
    first: usize,
    next: usize,
    gates: usize,
) -> Result<Merged, Refusal>
    requires { OfSome (GatesShared totals at first next gates work.old) }
    ensures { Goes (GatesShared totals at first next gates work.old) at work.old work.new result }
{
    let Some(_) = define(work, at, totals, first) else {
        return Err(Refusal::LatchConflict);
    };
    let found = collect(work, at);
    Ok(Merged {
        inputs: first - 1,
        latches: next - first,
        gates,
        bads: found.bads,
        constraints: found.constraints,
    })
}

// Merges the witnesses that are laid out in the work words, with their totals, for a model with these counts.
pub fn merge(
    work: &mut [u64],
    at: Layout,
    model_counts: AagCounts,
    totals: Totals,
) -> Result<Merged, Refusal>
    requires { OfSome (Mergeable model_counts totals at work.old) }
    ensures { Goes (Mergeable model_counts totals at work.old) at work.old work.new result }
{
    clear_regions(work, at, totals.gates);
    let (first_latch, next) = number(work, at, model_counts, totals);
    let Some(gates) = share(work, at, totals, next - 1) else {
        return Err(Refusal::GateLimit);
    };
    define_and_collect(work, at, totals, first_latch, next, gates)
}
