// All that the composer reads of the witnesses, laid out in the work words.
#![tactic(auto)]

ghost use Rattle.std.specs.Prelude.{◌≡◌};
ghost use Rattle.compose_layout.specs.Inner.Laid.{CanLay, Lays, CanList, ListsLaid, LayoutFits, layout_of};

use compose_gather::{Totals, Witnesses};
use compose_joint::{Leaves, Literals};
use compose_spec::ModelLeaves;
use witness_text::AagCounts;

// Where the regions of the work words begin.
#[derive(Clone, Copy)]
pub struct Layout {
    pub latches: usize,
    pub operands: usize,
    pub safety: usize,
    pub constraints: usize,
    pub input_origins: usize,
    pub latch_origins: usize,
    pub assigned: usize,
    pub vars: usize,
    pub gates: usize,
    pub definitions: usize,
    pub bad_bits: usize,
    pub bits: usize,
    pub constraint_bits: usize,
    pub end: usize,
}

// Where the lists begin, and where the last one ends.
#[derive(Clone, Copy)]
pub struct Lists {
    pub latches: usize,
    pub operands: usize,
    pub safety: usize,
    pub constraints: usize,
    pub end: usize,
}

// The places of the regions behind the lists and origins.
fn place_regions(
    listed: Lists,
    latch_origins: usize,
    assigned: usize,
    model_counts: AagCounts,
    totals: Totals,
    size: usize,
) -> Layout
    requires { LayoutFits assigned model_counts totals size }
    ensures { result ≡ layout_of listed latch_origins assigned model_counts totals }
{
    let all = totals.inputs + totals.latches + totals.gates;
    let vars = assigned + (model_counts.inputs + model_counts.latches);
    let gates = vars + (all + 1);
    let definitions = gates + (4 * totals.gates + 1);
    let bad_bits = definitions + 2 * totals.latches;
    let bits = all / 32 + 1;
    let constraint_bits = bad_bits + bits;
    Layout {
        latches: listed.latches,
        operands: listed.operands,
        safety: listed.safety,
        constraints: listed.constraints,
        input_origins: listed.end,
        latch_origins,
        assigned,
        vars,
        gates,
        definitions,
        bad_bits,
        bits,
        constraint_bits,
        end: constraint_bits + bits,
    }
}

// Loads the witnesses, and lists their literals behind the words of the texts: of the latches, the operands of the gates, the safety
// literals, the constraints.
fn lay_lists(witnesses: &Witnesses, work: &mut [u64], totals: Totals) -> Lists
    requires { CanList totals witnesses.now.texts.bytes.now witnesses.now.texts.pairs.now work.old }
    ensures { ListsLaid totals witnesses.now.texts.bytes.now witnesses.now.texts.pairs.now work.old work.new result }
{
    let latches = compose_gather::load_all(witnesses, work);
    let operands = compose_gather::literals::gather(
        witnesses,
        work,
        Literals::Latches,
        totals.inputs,
        totals.latches,
        latches,
    );
    let safety = compose_gather::literals::gather(
        witnesses,
        work,
        Literals::Operands,
        totals.inputs,
        totals.latches,
        operands,
    );
    let constraints = compose_gather::literals::gather(
        witnesses,
        work,
        Literals::Safety,
        totals.inputs,
        totals.latches,
        safety,
    );
    let end = compose_gather::literals::gather(
        witnesses,
        work,
        Literals::Constraints,
        totals.inputs,
        totals.latches,
        constraints,
    );
    Lists {
        latches,
        operands,
        safety,
        constraints,
        end,
    }
}

// Loads the witnesses and lays out what is read of them: the lists, then the origins of the inputs and of the latches. Nothing where a
// literal is wrong (R9.16).
pub fn lay(
    witnesses: &Witnesses,
    work: &mut [u64],
    model_counts: AagCounts,
    totals: Totals,
) -> Option<Layout>
    requires { CanLay model_counts totals witnesses.now.texts.bytes.now witnesses.now.texts.pairs.now work.old }
    ensures { Lays model_counts totals witnesses.now.texts.bytes.now witnesses.now.texts.pairs.now work.old work.new result }
{
    let lists = lay_lists(witnesses, work, totals);
    let model_inputs = ModelLeaves {
        before: 0,
        count: model_counts.inputs,
    };
    let latch_origins = compose_origins::gather_origins(
        witnesses,
        work,
        Leaves::Inputs,
        model_inputs,
        lists.end,
    )?;
    let model_latches = ModelLeaves {
        before: model_counts.inputs,
        count: model_counts.latches,
    };
    let assigned = compose_origins::gather_origins(
        witnesses,
        work,
        Leaves::Latches,
        model_latches,
        latch_origins,
    )?;
    Some(place_regions(
        lists,
        latch_origins,
        assigned,
        model_counts,
        totals,
        work.len(),
    ))
}
