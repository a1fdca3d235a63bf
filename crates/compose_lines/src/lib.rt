// The text of the composition from the composer's words: its header, its gates and its last lines. Its other lines are printed by
// `text_print` and `compose_names`; the law `printed-parts` says how all of them make up the text.
#![tactic(auto)]

ghost use Rattle.std.specs.Prelude.{[], ◌∷◌, ◌++◌};
ghost use Rattle.text_print.specs.Inner.Prints.{PrintsOn};
ghost use Rattle.compose_lines.specs.Inner.Header.{header_of};
ghost use Rattle.compose_lines.specs.Inner.GateText.{CanPrintGates, PrintsGates};
ghost use Rattle.compose_lines.specs.Inner.Text.{closing_text};

use text_print::Printer;

// What the header says of the composition.
#[derive(Clone, Copy)]
pub struct Counts {
    pub variables: u64,
    pub inputs: u64,
    pub latches: u64,
    pub gates: u64,
    pub bads: u64,
    pub constraints: u64,
}

// Prints the line of the header.
pub fn print_header(to: &mut Printer, counts: Counts)
    ensures { PrintsOn to.old (header_of counts ++ 10 ∷ []) to.new }
{
    let numbers = [
        counts.variables,
        counts.inputs,
        counts.latches,
        0,
        counts.gates,
        counts.bads,
        counts.constraints,
        0,
        0,
    ];
    to.bytes(b"aag");
    to.fields(&numbers);
    to.byte(10);
}

// Prints the lines of the gates whose keys a table holds; the first gate has the variable `first`.
// Kept (buffer): the keys stand between the heads and the spare words of a lent table.
pub fn print_gates(to: &mut Printer, first: u64, table: &[u64], heads: usize, count: usize)
    requires { CanPrintGates first table.now heads count }
    ensures { PrintsGates first table.now heads count to.old to.new }
{
    for k in 0..count {
        let key = table[heads + 3 * k] - 1;
        to.three(2 * (first + k as u64), key % 4294967296, key / 4294967296);
    }
}

// Prints the lines behind the symbols.
pub fn print_closing(to: &mut Printer)
    ensures { PrintsOn to.old closing_text to.new }
{
    to.bytes(b"c\nGCC FM 2026 composed-witness baseline v1\n");
}
