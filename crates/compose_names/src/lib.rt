// The symbol lines of the composition's inputs, or latches: each where it first appears among those of all witnesses.
#![tactic(auto)]

ghost use Rattle.std.specs.Prelude.{[], ◌∷◌, ◌++◌, ◌≡◌, option_copied};
ghost use Rattle.std.proofs.Math.Option.{some};
ghost use Rattle.text_print.specs.Inner.Prints.{PrintsOn};
ghost use Rattle.compose_spec.specs.Numbering.{or_else, private_name};
ghost use Rattle.compose_spec.specs.Printing.{symbol_line};
ghost use Rattle.compose_joint.specs.Inner.Joint.{unnamed_of, kind_of};
ghost use Rattle.compose_gather.specs.Inner.Names.{name_of};
ghost use Rattle.compose_names.specs.Inner.Names.{name_for};
ghost use Rattle.compose_names.specs.Inner.Symbols.{row_in, rows_from, RowWords, CanPrintNames, PrintsNew, CanPrintWitness, rows_in, CanPass, passed, CanPrintSymbols, PrintsSymbols};

use compose_gather::Witnesses;
use compose_joint::Leaves;
use text_print::Printer;
use witness_text::AagCounts;

// Where words of one witness begin: those of its names, its origin words, its composed variables.
#[derive(Clone, Copy)]
pub struct Starts {
    pub names: usize,
    pub origins: usize,
    pub numbers: usize,
}

// The inputs, or latches, of witness w: a row for each, of the words that say its name, its origin and its composed variable.
#[derive(Clone, Copy)]
pub struct Rows<'a> {
    pub text: &'a [u8],
    pub work: &'a [u64],
    pub leaves: Leaves,
    pub w: usize,
    pub starts: Starts,
}

// Prints what stands in front of a private name of witness w.
fn print_owner(to: &mut Printer, w: usize)
    ensures { PrintsOn to.old (private_name [] w (some [])) to.new }
{
    to.byte(b'w');
    to.number(w as u64);
    to.byte(b':');
}

// Prints a witness's own name, or what stands for it.
fn print_own(to: &mut Printer, leaves: Leaves, name: Option<&[u8]>)
    ensures { PrintsOn to.old (or_else (unnamed_of leaves) (name_of (option_copied name.entry))) to.new }
{
    match name {
        Some(name) => to.bytes(name),
        None => to.bytes(leaves.unnamed()),
    }
}

// Prints the name in the composition, by the origin word, of what witness w names so.
fn print_name(to: &mut Printer, leaves: Leaves, w: usize, origin: u64, name: Option<&[u8]>)
    ensures { PrintsOn to.old (name_for leaves w origin (name_of (option_copied name.entry))) to.new }
{
    if origin % 2 == 0 {
        to.bytes(b"= ");
        to.number(origin);
        return;
    }
    print_owner(to, w);
    print_own(to, leaves, name);
}

impl<'a> Rows<'a> {
    // Prints the symbol line of row k.
    fn print_row(&self, to: &mut Printer, k: usize, number: u64)
        requires { RowWords self.now.text.now self.now.work.now self.now.starts k }
        ensures { PrintsOn to.old (symbol_line (kind_of self.now.leaves) number (row_in self.now k).name ++ 10 ∷ []) to.new }
    {
        let origin = self.work[self.starts.origins + k];
        let name = compose_gather::name_at(self.text, self.work, self.starts.names + 2 * k);
        to.byte(self.leaves.kind());
        to.number(number);
        to.byte(b' ');
        print_name(to, self.leaves, self.w, origin, name);
        to.byte(b'\n');
    }

    // Prints the symbol lines of so many rows, of those whose composed variable is a new one. Returns the next new one.
    fn print_new(&self, to: &mut Printer, count: usize, first: u64, new: u64) -> u64
        requires { CanPrintNames self.now.text.now self.now.work.now self.now.starts count first new }
        ensures { PrintsNew self.now.leaves first new (rows_from (row_in self.now) 0 count) to.old to.new result }
    {
        let mut next = new;
        for k in 0..count {
            if self.work[self.starts.numbers + k] != next {
                continue;
            }
            self.print_row(to, k, next - first);
            next += 1;
        }
        next
    }

    // The same, of all rows of a witness with these counts, whose words begin at `names`.
    fn print_witness(&self, to: &mut Printer, counts: AagCounts, first: u64, new: u64) -> u64
        requires { CanPrintWitness self.now.text.now counts self.now.work.now self.now.leaves self.now.starts first new }
        ensures { PrintsNew self.now.leaves first new (rows_in self.now counts) to.old to.new result }
    {
        let starts = Starts {
            names: self.starts.names + self.leaves.names_before(counts),
            ..self.starts
        };
        let rows = Rows { starts, ..*self };
        rows.print_new(to, self.leaves.count(counts), first, new)
    }
}

// The places of the next witness, within so many words.
fn pass(leaves: Leaves, counts: AagCounts, starts: Starts, size: usize) -> Starts
    requires { CanPass leaves counts starts size }
    ensures { result ≡ passed leaves counts starts }
{
    let count = leaves.count(counts);
    Starts {
        names: compose_gather::after_words(counts, starts.names, size),
        origins: starts.origins + count,
        numbers: starts.numbers + count,
    }
}

// Prints the symbol lines of the composition's inputs, or latches. The words hold all witnesses in front, their origin words from one place
// on, and their composed variables from another place on, of which the lowest is `first`.
pub fn print_symbols(
    to: &mut Printer,
    witnesses: &Witnesses,
    work: &[u64],
    leaves: Leaves,
    origins: usize,
    numbers: usize,
    first: u64,
)
    requires { CanPrintSymbols leaves witnesses.now.texts.bytes.now witnesses.now.texts.pairs.now work.now origins numbers first }
    ensures { PrintsSymbols leaves witnesses.now.texts.bytes.now witnesses.now.texts.pairs.now work.now origins numbers first to.old to.new }
{
    let mut starts = Starts {
        names: 0,
        origins,
        numbers,
    };
    let mut next = first;
    for w in 0..witnesses.len() {
        let rows = Rows {
            text: witnesses.text(w),
            work,
            leaves,
            w,
            starts,
        };
        let n = witnesses.counts_of(w);
        next = rows.print_witness(to, n, first, next);
        starts = pass(leaves, n, starts, work.len());
    }
}
