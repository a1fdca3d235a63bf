// The sections of an accepted witness text as words in lent memory: the places of the names in the text, then the literals.
#![tactic(auto)]

ghost use Rattle.std.specs.Prelude.{ℕ, List, refl, true, [], ◌∷◌, ◌≡◌, ◌+◌, ◌*◌, ◌≤◌, ◌<◌, leb, length, drop};
ghost use Rattle.lists.specs.Parts.{Bytes, zeros};
ghost use Rattle.text.specs.declared.Reader.TheVariants.{Witness};
ghost use Rattle.text.specs.Lines.{lines_of};
ghost use Rattle.text.specs.Inner.Fronts.{Behind};
ghost use Rattle.text.specs.Texts.{limited};
ghost use Rattle.witness_text.specs.Header.{counted};
ghost use Rattle.witness_read.specs.Reading.{read_aag};
ghost use Rattle.witness_load.specs.Inner.Loaded.{operand_words, Loads};
ghost use Rattle.witness_load.specs.Inner.Loading.{stored_words, LoadsSection, rest_room, LoadsRest, body_room, LoadsBody, leaf_words, StandsAt, NamesLine, LoadsNames, Loadable, LoadsText};

use aiger::{Gate, Refusal};
use circuit_lines::{GateLine, LiteralLine, TakeLine};
use text::Reader;
use witness_text::{AagCounts, Kind, Latch, LatchLine};

// The text behind the first n lines, or behind all where there are fewer.
// Kept (buffer): n lines are passed, as the header counts them, and no slice has that length.
fn pass_lines(s: &[u8], n: usize) -> &[u8]
    ensures lines { lines_of result.now ≡ drop n (lines_of s.now) }
    ensures behind { Behind s.now result.now }
{
    let mut left = s;
    for i in 0..n {
        let Some(line) = text::next_line(left) else {
            return left;
        };
        left = line.rest;
    }
    left
}

// Stores the two words of a pair.
fn store_pair(pair: &mut [u64], x: u64, y: u64)
    requires { length pair.old ≡ 2 }
    ensures { pair.new ≡ x ∷ y ∷ [] }
{
    pair[0] = x;
    pair[1] = y;
}

// A kind of line whose item is stored as two words.
trait PairLine: TakeLine {
    ghost words: { Self.Item → List ℕ };

    fn pair(item: Self::Item) -> (u64, u64)
        ensures { words item ≡ result.0 ∷ result.1 ∷ [] };

    ghost two: { (item : Self.Item) → length (words item) ≡ 2 };
}

// Next literal and reset of a latch.
impl PairLine for LatchLine {
    ghost words = { stored_words };

    ghost two = { λ latch. refl };

    fn pair(latch: Latch) -> (u64, u64) {
        (latch.next, latch.reset)
    }
}

// The operands of a gate.
impl PairLine for GateLine {
    ghost words = { operand_words };

    ghost two = { λ gate. refl };

    fn pair(gate: Gate) -> (u64, u64) {
        (gate.left, gate.right)
    }
}

// The pairs of the first lines, as many as `out` has room for, and the text behind them.
fn load_pairs<'a, K: PairLine>(kind: K, s: &'a [u8], out: &mut [u64]) -> Option<&'a [u8]>
    ensures { (n : ℕ) → length out.old ≡ 2 * n → LoadsSection (K.item kind) K.words s.now n out.new result }
{
    let mut left = s;
    for i in 0..out.len() / 2 {
        let line = kind.take(left)?;
        let (x, y) = K::pair(line.value);
        store_pair(&mut out[2 * i..2 * i + 2], x, y);
        left = line.rest;
    }
    Some(left)
}

// Outputs, bads, constraints and gates, and the text behind them.
fn load_rest<'a>(s: &'a [u8], counts: AagCounts, out: &mut [u64]) -> &'a [u8]
    requires { length out.old ≡ rest_room counts }
    ensures words { LoadsRest s.now counts out.new result.now }
    ensures behind { Behind s.now result.now }
{
    let (literals, pairs) = out.split_at_mut(counts.outputs + counts.bads + counts.constraints);
    let reader = Reader::Witness;
    let Some(gates) = circuit_lines::take_lines(LiteralLine { reader }, s, literals) else {
        return s;
    };
    let Some(rest) = load_pairs(GateLine { reader }, gates, pairs) else {
        return s;
    };
    rest
}

// The literals of all sections but the inputs, and the text behind the sections.
fn load_body<'a>(s: &'a [u8], counts: AagCounts, out: &mut [u64]) -> &'a [u8]
    requires { length out.old ≡ body_room counts }
    ensures words { LoadsBody s.now counts out.new result.now }
    ensures behind { Behind s.now result.now }
{
    let (pairs, others) = out.split_at_mut(2 * counts.latches);
    let latches = pass_lines(s, counts.inputs);
    let Some(rest) = load_pairs(LatchLine {}, latches, pairs) else {
        return s;
    };
    load_rest(rest, counts, others)
}

// Stores where the name of a symbol line stands, which begins at a place of the text. False where it is refused.
// Kept (switch): inputs and latches have their places among the words, and the other kinds have none.
fn name_line(start: usize, l: &[u8], counts: AagCounts, out: &mut [u64]) -> bool
    requires { (start + length l.now < 18446744073709551616) × (length out.old ≡ leaf_words counts) }
    ensures { (s : Bytes) → StandsAt s l.now start → NamesLine s l.now counts out.old out.new result }
{
    let Some(symbol) = witness_text::symbol_line(l, counts) else {
        return false;
    };
    let size = symbol.name.len();
    let place = start + (l.len() - size);
    let leaf = match symbol.kind {
        Kind::Input => symbol.index,
        Kind::Latch => counts.inputs + symbol.index,
        Kind::Output | Kind::Bad | Kind::Constraint => return true,
    };
    store_pair(&mut out[2 * leaf..2 * leaf + 2], place as u64, size as u64);
    true
}

// The names of the symbols with which a text ends, up to the line `c` or the end.
fn name_leaves(s: &[u8], symbols: &[u8], counts: AagCounts, out: &mut [u64])
    requires { Behind s.now symbols.now × (length symbols.now < length s.now) × (out.old ≡ zeros (leaf_words counts)) }
    ensures { LoadsNames s.now symbols.now counts out.new }
{
    let mut left = symbols;
    while let Some(line) = text::next_line(left) {
        if witness_text::ends_symbols(line.value) {
            return;
        }
        if !name_line(s.len() - left.len(), line.value, counts, out) {
            return;
        }
        left = line.rest;
    }
}

// The names of inputs and latches, as places in the text; all words are written.
fn load_names(s: &[u8], symbols: &[u8], counts: AagCounts, out: &mut [u64])
    requires { Behind s.now symbols.now × (length symbols.now < length s.now) × (length out.old ≡ leaf_words counts) }
    ensures { LoadsNames s.now symbols.now counts out.new }
{
    lists::clear(out);
    name_leaves(s, symbols, counts, out);
}

// The sections of an accepted text, whose counts are known, in front of the words.
pub fn load(s: &[u8], known: AagCounts, words: &mut [u64])
    requires { Loadable s.now known words.old }
    ensures { LoadsText s.now known words.old words.new }
{
    let Some(header) = witness_text::take_witness_header(s) else {
        return;
    };
    let (names, behind) = words.split_at_mut(2 * (known.inputs + known.latches));
    let others = known.outputs + known.bads + known.constraints + 2 * known.gates;
    let body = &mut behind[..2 * known.latches + others];
    let symbols = load_body(header.rest, known, body);
    load_names(s, symbols, known, names);
}

// Whether so many words are enough for sections with these counts. The numbers of outputs, bads and constraints are not added, since their sum may pass 2^64.
fn has_room(counts: AagCounts, size: usize) -> bool
    requires { counted limited counts ≡ true }
    ensures { result ≡ leb (leaf_words counts + body_room counts) size }
{
    let fixed = 2 * counts.inputs + 4 * counts.latches + 2 * counts.gates;
    if size < fixed {
        return false;
    }
    let after_fixed = size - fixed;
    if after_fixed < counts.outputs {
        return false;
    }
    let after_outputs = after_fixed - counts.outputs;
    if after_outputs < counts.bads {
        return false;
    }
    counts.constraints <= after_outputs - counts.bads
}

// Kept (switch): as in `parse_aag`.
// Reads a text as a witness, or as the model where `witness` is false, and loads its sections in front of the words.
pub fn load_aag(s: &[u8], witness: bool, words: &mut [u64]) -> Result<AagCounts, Refusal>
    ensures { Loads s.now (read_aag limited witness s.now) words.old words.new result }
{
    let counts = witness_read::parse_aag(s, witness)?;
    if !has_room(counts, words.len()) {
        return Err(Refusal::ResultRoom);
    }
    load(s, counts, words);
    Ok(counts)
}
