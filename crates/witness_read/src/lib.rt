// The witness reader (R4): from any bytes to the counts of the sections, or the number of the first reason. It is lent no memory.
#![tactic(auto)]

ghost use Rattle.std.specs.Prelude.{true, ◌≡◌};
ghost use Rattle.aiger.specs.Refusals.{answered};
ghost use Rattle.text.specs.Texts.{limited};
ghost use Rattle.text.specs.Lines.{lines_of};
ghost use Rattle.witness_text.specs.Header.{counted, without_liveness};
ghost use Rattle.witness_read.specs.Reading.{sections_of, after_header, read_aag, counts_read};

mod body;
mod tail;

use aiger::Refusal;
use text::Reader;
use witness_text::{AagCounts, SymbolLine};

// The text behind some sections, and whether their literals are in range and order.
// Kept (enum): both are there whenever it is; `fine` is what a later reason asks.
#[derive(Clone, Copy)]
pub struct Checked<'a> {
    pub rest: &'a [u8],
    pub fine: bool,
}

// What stands first among the symbols: a symbol line, unless they end there; and the text behind it, which is the comments if they end.
#[derive(Clone, Copy)]
pub struct NextSymbol<'a> {
    pub symbol: Option<SymbolLine<'a>>,
    pub rest: &'a [u8],
}

// The sections of a text. All lines are looked at before R9.11, since a bad line, symbol or comment counts more.
// Kept (switch): `witness` as in `parse_aag`.
fn read_sections(s: &[u8], counts: AagCounts, witness: bool) -> Result<AagCounts, Refusal>
    requires { (counted limited counts ≡ true) × (without_liveness counts ≡ true) }
    ensures { answered result ≡ counts_read (sections_of witness counts (lines_of s.now)) }
{
    let Some(checked) = body::check_body(s, counts) else {
        return Err(Refusal::Line);
    };
    let comments = tail::check_tail(checked.rest, counts)?;
    if !tail::plain_comments(comments, witness) {
        return Err(Refusal::Comment);
    }
    if !checked.fine {
        return Err(Refusal::Definition);
    }
    Ok(counts)
}

// What follows a header.
// Kept (switch): `witness` as in `parse_aag`.
fn read_body(s: &[u8], counts: AagCounts, witness: bool) -> Result<AagCounts, Refusal>
    ensures { answered result ≡ counts_read (after_header limited witness (lines_of s.now) counts) }
{
    if !witness_text::counts_hold(counts) {
        return Err(Refusal::Counts);
    }
    if !witness_text::no_liveness(counts) {
        return Err(Refusal::Liveness);
    }
    read_sections(s, counts, witness)
}

// Kept (switch): C hands `witness` over as a flag, and only the comments ask it; an enum would be made of the flag and end in one test.
// Reads a text as a witness, or as the model where `witness` is false: the counts of its sections, or the number of the first reason.
pub fn parse_aag(s: &[u8], witness: bool) -> Result<AagCounts, Refusal>
    ensures { answered result ≡ counts_read (read_aag limited witness s.now) }
{
    if !text::good_text(Reader::Witness, s) {
        return Err(Refusal::Text);
    }
    let Some(header) = witness_text::take_witness_header(s) else {
        return Err(Refusal::Header);
    };
    read_body(header.rest, header.value, witness)
}
