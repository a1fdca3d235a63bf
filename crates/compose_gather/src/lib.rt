// All witnesses of a call: read, loaded into the work words, and gathered into lists of the joint circuit.
#![tactic(auto)]

ghost use Rattle.std.specs.Prelude.{◌≡◌, ◌+◌, ◌-◌, ◌*◌, ◌/◌, ◌≤◌, ◌<◌, length};
ghost use Rattle.lists.specs.Parts.{part};
ghost use Rattle.compose_gather.specs.Inner.Checking.{less, room_after, added_counts, SmallSums};
ghost use Rattle.compose_gather.specs.Inner.Counts.{CanCheck, ChecksOne, ChecksAll};
ghost use Rattle.compose_gather.specs.Inner.Gathered.{words_for, LoadableAt, LoadsAt, CanLoad, LoadsAll};

pub mod counts;
pub mod literals;
mod names;
mod texts;

use aiger::Refusal;
pub use names::name_at;
pub use texts::{Texts, Witnesses, text_at};
use witness_text::AagCounts;

// What is counted of all witnesses, and how much of the room the texts leave, where it is enough for them.
#[derive(Clone, Copy)]
pub struct Totals {
    pub room: Option<usize>,
    pub inputs: usize,
    pub latches: usize,
    pub gates: usize,
}

// Where a list stands among the words of a text, and how long it is.
#[derive(Clone, Copy)]
pub struct Range {
    pub start: usize,
    pub count: usize,
}

// So many bytes from a place on.
// Kept (buffer): this is where a start and a size, as pairs of words say them, become a slice.
fn piece(s: &[u8], start: usize, size: usize) -> &[u8]
    requires { start + size ≤ length s.now }
    ensures { result.now ≡ part s.now start (start + size) }
{
    let end = start + size;
    &s[start..end]
}

// The room without so much, where it is enough.
fn less(room: Option<usize>, n: usize) -> Option<usize>
    ensures { result ≡ less room n }
{
    room?.checked_sub(n)
}

// The room that a text with these counts leaves.
pub fn room_after(room: Option<usize>, counts: AagCounts) -> Option<usize>
    ensures { result ≡ room_after room counts }
{
    let a = less(room, counts.max_variable);
    let b = less(a, counts.outputs);
    let c = less(b, counts.bads);
    less(c, counts.constraints)
}

// The totals with one more text.
fn add_counts(totals: Totals, counts: AagCounts) -> Totals
    requires { SmallSums totals counts }
    ensures { result ≡ added_counts totals counts }
{
    Totals {
        room: room_after(totals.room, counts),
        inputs: totals.inputs + counts.inputs,
        latches: totals.latches + counts.latches,
        gates: totals.gates + counts.gates,
    }
}

// Reads a text, the one of witness w: the totals with it, and its counts are listed; or the number of the reason.
fn check_one(text: &[u8], counts: &mut [u64], w: usize, totals: Totals) -> Result<Totals, Refusal>
    requires { CanCheck counts.old w totals }
    ensures { ChecksOne text.now w totals counts.old counts.new result }
{
    let n = witness_read::parse_aag(text, true)?;
    counts::store(counts, w, n);
    Ok(add_counts(totals, n))
}

// Reads all witnesses in their order, and lists their counts.
pub fn check_all(texts: &Texts, room: Option<usize>, counts: &mut [u64]) -> Result<Totals, Refusal>
    requires { 9 * (length texts.now.pairs.now / 2) ≤ length counts.old }
    ensures { ChecksAll room texts.now.bytes.now texts.now.pairs.now counts.new result }
{
    let mut totals = Totals {
        room,
        inputs: 0,
        latches: 0,
        gates: 0,
    };
    for w in 0..texts.len() {
        totals = check_one(texts.text(w), counts, w, totals)?;
    }
    Ok(totals)
}

// How many words the sections of a text with these counts need.
fn word_count(counts: AagCounts) -> usize
    requires { words_for counts < 18446744073709551616 }
    ensures { result ≡ words_for counts }
{
    2 * counts.inputs
        + 4 * counts.latches
        + counts.outputs
        + counts.bads
        + counts.constraints
        + 2 * counts.gates
}

// The place behind the words of a text; they end at another place or before it.
pub fn after_words(counts: AagCounts, from: usize, end: usize) -> usize
    requires { from + words_for counts ≤ end }
    ensures { result ≡ from + words_for counts }
{
    from + word_count(counts)
}

// Loads a text with these counts from a place on, and returns the place after it.
fn load_at(text: &[u8], counts: AagCounts, work: &mut [u64], at: usize) -> usize
    requires { LoadableAt text.now counts work.old at }
    ensures { (result ≡ at + words_for counts) × LoadsAt text.now counts at work.old work.new }
{
    witness_load::load(text, counts, &mut work[at..]);
    at + word_count(counts)
}

// Loads all witnesses in front of the words, and returns how many words that takes.
pub fn load_all(witnesses: &Witnesses, work: &mut [u64]) -> usize
    requires { CanLoad witnesses.now.texts.bytes.now witnesses.now.texts.pairs.now work.old }
    ensures { LoadsAll witnesses.now.texts.bytes.now witnesses.now.texts.pairs.now work.new result }
{
    let mut at = 0;
    for w in 0..witnesses.len() {
        at = load_at(witnesses.text(w), witnesses.counts_of(w), work, at);
    }
    at
}
