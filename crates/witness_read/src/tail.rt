// The lines after the gates: symbols (R9.9) and comments (R9.10).
ghost use Rattle.std.specs.Prelude.{true, ◌≡◌, ◌+◌, ◌*◌, ◌≤◌, ◌<◌};
ghost use Rattle.text.specs.Texts.{limited};
ghost use Rattle.text.specs.Lines.{lines_of};
ghost use Rattle.witness_text.specs.Header.{counted};
ghost use Rattle.witness_text.specs.Symbols.{count_of};
ghost use Rattle.witness_read.specs.Comments.{plain_comment, plain_comments};
ghost use Rattle.witness_read.specs.Inner.Passes.{MarksName, Unmarked, TakesSymbol, ChecksSymbols};

use super::NextSymbol;
use aiger::Refusal;
use witness_text::{AagCounts, Kind};

// The next input and the next latch that may be named, while they are named in their order.
#[derive(Clone, Copy)]
struct Order {
    inputs: usize,
    latches: usize,
}

// Whether an input or a latch is named for the first time, which is marked; outputs, bads and constraints may be named again.
// Kept (switch): each kind has its place among the marks.
// Kept (travel): that inputs and latches are few follows from counts that hold; marks need no more of them.
fn name_first(counts: AagCounts, kind: Kind, index: usize, marks: &mut [u64]) -> bool
    requires { (counts.inputs + counts.latches ≤ 2000000) × (index < count_of counts kind) }
    ensures { MarksName counts kind index marks.old marks.new result }
{
    match kind {
        Kind::Input => lists::add(marks, index),
        Kind::Latch => lists::add(marks, counts.inputs + index),
        Kind::Output | Kind::Bad | Kind::Constraint => true,
    }
}

// The symbol of the first line, or how the symbols end there.
fn next_symbol(s: &[u8], counts: AagCounts) -> Result<NextSymbol<'_>, Refusal>
    ensures { TakesSymbol s.now counts result }
{
    let Some(line) = text::next_line(s) else {
        return Ok(NextSymbol {
            symbol: None,
            rest: s,
        });
    };
    if witness_text::ends_symbols(line.value) {
        return Ok(NextSymbol {
            symbol: None,
            rest: line.rest,
        });
    }
    let Some(symbol) = witness_text::symbol_line(line.value, counts) else {
        return Err(Refusal::Symbol);
    };
    Ok(NextSymbol {
        symbol: Some(symbol),
        rest: line.rest,
    })
}

// The symbols of a text, up to the line `c` or the end, and the comments behind them. An input or latch that is named is marked: input k at k, latch k at I + k.
fn check_symbols<'a>(s: &'a [u8], counts: AagCounts, marks: &mut [u64]) -> Result<&'a [u8], Refusal>
    requires { (counts.inputs + counts.latches ≤ 2000000) × Unmarked counts marks.old }
    ensures { ChecksSymbols s.now counts result }
{
    let mut left = s;
    // Kept (loop): the symbols' end comes with the comments, which a chain of symbols would not hand on.
    loop {
        let NextSymbol { symbol, rest } = next_symbol(left, counts)?;
        let Some(symbol) = symbol else {
            return Ok(rest);
        };
        if !name_first(counts, symbol.kind, symbol.index, marks) {
            return Err(Refusal::Symbol);
        }
        left = rest;
    }
}

// The symbols with N words of marks, which stand in this frame alone: clearing many marks would cost more than a short text.
fn check_with<const N: usize>(s: &[u8], counts: AagCounts) -> Result<&[u8], Refusal>
    requires few { N ≤ 31250 }
    requires room { (counts.inputs + counts.latches ≤ 2000000) × (counts.inputs + counts.latches ≤ 64 * N) }
    ensures { ChecksSymbols s.now counts result }
{
    let mut marks: [u64; N] = [0; N];
    check_symbols(s, counts, &mut marks)
}

// The symbols in any order, by marks.
fn check_marked(s: &[u8], counts: AagCounts) -> Result<&[u8], Refusal>
    requires { counted limited counts ≡ true }
    ensures { ChecksSymbols s.now counts result }
{
    let leaves = counts.inputs + counts.latches;
    if leaves <= 4096 {
        return check_with::<64>(s, counts);
    }
    if leaves <= 65536 {
        return check_with::<1024>(s, counts);
    }
    check_with::<31250>(s, counts)
}

// The symbols of a text, and the comments behind them. Inputs and latches that are named in their order need no marks; where that order is first broken, the symbols
// are looked at again with them.
pub fn check_tail(s: &[u8], counts: AagCounts) -> Result<&[u8], Refusal>
    requires { counted limited counts ≡ true }
    ensures { ChecksSymbols s.now counts result }
{
    let mut left = s;
    let mut order = Order {
        inputs: 0,
        latches: 0,
    };
    // Kept (loop): as in `check_symbols`.
    loop {
        let NextSymbol { symbol, rest } = next_symbol(left, counts)?;
        let Some(symbol) = symbol else {
            return Ok(rest);
        };
        match symbol.kind {
            Kind::Input => {
                if symbol.index < order.inputs {
                    return check_marked(s, counts);
                }
                order.inputs = symbol.index + 1;
            }
            Kind::Latch => {
                if symbol.index < order.latches {
                    return check_marked(s, counts);
                }
                order.latches = symbol.index + 1;
            }
            Kind::Output | Kind::Bad | Kind::Constraint => {}
        }
        left = rest;
    }
}

fn plain_comment(l: &[u8]) -> bool
    ensures { result ≡ plain_comment l.now }
{
    let first = text::first_field(l);
    !scan::same(first, b"MAPPING") && !scan::same(first, b"INTERVENTION")
}

// Whether no comment line begins with a word of R9.10; those of a model are not looked at.
// Kept (switch): `witness` as in `parse_aag`.
pub fn plain_comments(s: &[u8], witness: bool) -> bool
    ensures { result ≡ plain_comments witness (lines_of s.now) }
{
    if !witness {
        return true;
    }
    let mut left = s;
    while let Some(line) = text::next_line(left) {
        if !plain_comment(line.value) {
            return false;
        }
        left = line.rest;
    }
    true
}
