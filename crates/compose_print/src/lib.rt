// The composition's text, printed from the work words. With an empty slice the functions only count.
#![tactic(auto)]

ghost use Rattle.compose_layout.specs.Inner.Laid.{OfSome};
ghost use Rattle.compose_print.specs.Inner.Written.{PrintableOf, PrintsText, PrintsWhole, from_input_names, from_header};

use compose_gather::{Totals, Witnesses};
use compose_joint::Leaves;
use compose_layout::Layout;
use compose_lines::Counts;
use compose_merge::Merged;
use text_print::Printer;

// A merged composition: all that its text is printed from.
// Kept (travel): that there are a model and witnesses of which it is the composition stays in the contracts: a ghost field would have to
// forget which they are, and the functions that print need them.
#[derive(Clone, Copy)]
pub struct Composition<'a> {
    pub witnesses: Witnesses<'a>,
    pub work: &'a [u64],
    pub at: Layout,
    pub merged: Merged,
    pub totals: Totals,
}

impl<'a> Composition<'a> {
    // The symbols of the inputs and of the latches, and the last lines.
    fn print_tail(&self, to: &mut Printer)
        requires { OfSome (PrintableOf self.now) }
        ensures { PrintsText (PrintableOf self.now) from_input_names to.old to.new }
    {
        let input_numbers = self.at.vars + 1;
        let latch_numbers = input_numbers + self.totals.inputs;
        let first_latch = self.merged.inputs + 1;
        compose_names::print_symbols(
            to,
            &self.witnesses,
            self.work,
            Leaves::Inputs,
            self.at.input_origins,
            input_numbers,
            1,
        );
        compose_names::print_symbols(
            to,
            &self.witnesses,
            self.work,
            Leaves::Latches,
            self.at.latch_origins,
            latch_numbers,
            first_latch as u64,
        );
        compose_lines::print_closing(to);
    }

    // The whole text.
    #[tactic(auto, using(crate::proofs::WriteLaws::region_ends))]
    fn print_to(&self, to: &mut Printer)
        requires { OfSome (PrintableOf self.now) }
        ensures { PrintsText (PrintableOf self.now) from_header to.old to.new }
    {
        let merged = self.merged;
        let at = self.at;
        let head = Counts {
            variables: (merged.inputs + merged.latches + merged.gates) as u64,
            inputs: merged.inputs as u64,
            latches: merged.latches as u64,
            gates: merged.gates as u64,
            bads: merged.bads as u64,
            constraints: merged.constraints as u64,
        };
        let first_latch = merged.inputs + 1;
        let first_gate = merged.inputs + merged.latches + 1;
        let definitions_end = at.definitions + 2 * merged.latches;
        compose_lines::print_header(to, head);
        to.consecutive(1, merged.inputs);
        to.pairs(
            first_latch as u64,
            &self.work[at.definitions..definitions_end],
        );
        to.set(&self.work[at.bad_bits..at.constraint_bits]);
        to.set(&self.work[at.constraint_bits..at.end]);
        compose_lines::print_gates(
            to,
            first_gate as u64,
            &self.work[at.gates..at.definitions],
            self.totals.gates + 1,
            merged.gates,
        );
        self.print_tail(to);
    }

    // The text, from the first byte of lent ones on. Returns its length.
    pub fn print(&self, out: &mut [u8]) -> usize
        requires { OfSome (PrintableOf self.now) }
        ensures { PrintsWhole (PrintableOf self.now) out.old out.new result }
    {
        let mut to = Printer { out, at: 0 };
        self.print_to(&mut to);
        to.at
    }
}
