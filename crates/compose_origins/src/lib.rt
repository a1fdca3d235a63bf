// What the inputs and latches of all witnesses are: shared with the model, or private.
#![tactic(auto)]

ghost use Rattle.std.proofs.Math.Option.{some};
ghost use Rattle.std.specs.Prelude.{Some, SomeIff, true, option_copied, ◌≡◌, ◌+◌, ◌≤◌, ◌<◌};
ghost use Rattle.text.specs.declared.Reader.TheVariants.{Witness};
ghost use Rattle.text.specs.Numbers.{number_of};
ghost use Rattle.compose_gather.specs.Inner.Gathered.{words_for};
ghost use Rattle.compose_gather.specs.Inner.Names.{name_of};
ghost use Rattle.compose_spec.specs.Mapping.{onto_number, by_name, by_position, mapping_of, is_mapped};
ghost use Rattle.compose_spec.specs.Composing.{is_right};
ghost use Rattle.compose_joint.specs.Inner.Joint.{origin_word, names_before};
ghost use Rattle.compose_origins.specs.Inner.Mapped.{FewLeaves, SayNames, AnyMapped, CanMap, StoresOrigins, CanTest, TestsWitness, CanMapWitness, MapsWitness, CanMapAll, MapsAll};

use compose_gather::Witnesses;
use compose_joint::Leaves;
use compose_spec::{Mapping, ModelLeaves};
use witness_text::AagCounts;

// What a literal behind `= ` maps to.
fn onto(model_leaves: ModelLeaves, l: u64) -> Mapping
    ensures { result ≡ onto_number model_leaves (Some l) }
{
    let x = (l / 2) as usize;
    if l % 2 == 1 || x <= model_leaves.before || model_leaves.count < x - model_leaves.before {
        return Mapping::Wrong;
    }
    Mapping::Onto(l)
}

// What the bytes behind `= ` map to.
fn onto_digits(model_leaves: ModelLeaves, digits: &[u8]) -> Mapping
    ensures { result ≡ onto_number model_leaves (number_of Witness digits.now) }
{
    match text::numbers::parse_number(digits) {
        None => Mapping::Wrong,
        Some(l) => onto(model_leaves, l),
    }
}

// What an input or latch of this name maps to.
fn by_name(model_leaves: ModelLeaves, name: &[u8]) -> Mapping
    ensures { result ≡ by_name model_leaves (some name.now) }
{
    if name.len() < 2 {
        return Mapping::Private;
    }
    if scan::begins_with(name, b"= ") {
        return onto_digits(model_leaves, &name[2..]);
    }
    Mapping::Private
}

// What input or latch number k maps to by its position.
fn by_position(model_leaves: ModelLeaves, k: usize) -> Mapping
    requires { FewLeaves model_leaves k }
    ensures { result ≡ by_position model_leaves k }
{
    if k < model_leaves.count {
        return Mapping::Onto((2 * (model_leaves.before + k + 1)) as u64);
    }
    Mapping::Private
}

// What input or latch number k, which may have a name, maps to in a witness that maps by name or by position.
// Kept (switch): which of both it is was found of the whole witness, and the definition branches on it.
fn mapping_of(named: bool, name: Option<&[u8]>, model_leaves: ModelLeaves, k: usize) -> Mapping
    requires { FewLeaves model_leaves k }
    ensures { result ≡ mapping_of model_leaves named k (name_of (option_copied name.entry)) }
{
    if !named {
        return by_position(model_leaves, k);
    }
    match name {
        Some(name) => by_name(model_leaves, name),
        None => Mapping::Private,
    }
}

// Whether there is a name that begins with `= `.
fn is_mapped(name: Option<&[u8]>) -> bool
    ensures { result ≡ is_mapped (name_of (option_copied name.entry)) }
{
    match name {
        Some(name) => scan::begins_with(name, b"= "),
        None => false,
    }
}

// Whether one of the names begins with `= `.
fn any_mapped(text: &[u8], words: &[u64]) -> bool
    requires { SayNames text.now words.now }
    ensures { AnyMapped text.now words.now result }
{
    let count = words.len() / 2;
    for i in 0..count {
        if is_mapped(compose_gather::name_at(text, words, 2 * i)) {
            return true;
        }
    }
    false
}

// The word of an origin, if it is right: the literal of the model, or an odd number for witness w.
fn origin_word(w: usize, mapping: Mapping) -> Option<u64>
    requires { w < 64 }
    ensures { SomeIff result (is_right mapping ≡ true) (origin_word w mapping) }
{
    match mapping {
        Mapping::Private => Some((2 * w + 1) as u64),
        Mapping::Onto(l) => Some(l),
        Mapping::Wrong => None,
    }
}

// The origins of as many inputs or latches of witness w, whose names pairs of words say; or nothing where a literal is wrong (R9.16).
// Kept (switch): `named` as in `mapping_of`.
fn store_origins(
    text: &[u8],
    names: &[u64],
    named: bool,
    model_leaves: ModelLeaves,
    w: usize,
    origins: &mut [u64],
) -> Option<()>
    requires { CanMap model_leaves text.now names.now w origins.old }
    ensures { StoresOrigins model_leaves text.now names.now named w origins.new result }
{
    for k in 0..origins.len() {
        let name = compose_gather::name_at(text, names, 2 * k);
        origins[k] = origin_word(w, mapping_of(named, name, model_leaves, k))?;
    }
    Some(())
}

// Where the names of the inputs, or latches, begin; the words of the text begin at a place.
fn names_at(leaves: Leaves, counts: AagCounts, from: usize, end: usize) -> usize
    requires { from + words_for counts ≤ end }
    ensures { result ≡ from + names_before leaves counts }
{
    from + leaves.names_before(counts)
}

// Whether a witness maps by name; its words begin at a place.
fn maps_by_name(text: &[u8], counts: AagCounts, work: &[u64], from: usize) -> bool
    requires { CanTest text.now counts work.now from }
    ensures { TestsWitness text.now counts work.now from result }
{
    let end = from + 2 * (counts.inputs + counts.latches);
    any_mapped(text, &work[from..end])
}

// The origins of the inputs, or latches, of witness w, whose words begin at a place, from another place on.
fn witness_origins(
    text: &[u8],
    counts: AagCounts,
    work: &mut [u64],
    from: usize,
    leaves: Leaves,
    model_leaves: ModelLeaves,
    w: usize,
    to: usize,
) -> Option<usize>
    requires { CanMapWitness model_leaves leaves text.now counts work.old from w to }
    ensures { MapsWitness model_leaves leaves text.now counts work.old from w to work.new result }
{
    let named = maps_by_name(text, counts, work, from);
    let names = names_at(leaves, counts, from, to);
    let count = leaves.count(counts);
    let (words, behind) = work.split_at_mut(to);
    store_origins(
        text,
        &words[names..names + 2 * count],
        named,
        model_leaves,
        w,
        &mut behind[..count],
    )?;
    Some(to + count)
}

// The origins of the inputs, or latches, of all witnesses, from a place on. Returns the place after them, or nothing where a literal is wrong
// (R9.16).
pub fn gather_origins(
    witnesses: &Witnesses,
    work: &mut [u64],
    leaves: Leaves,
    model_leaves: ModelLeaves,
    to: usize,
) -> Option<usize>
    requires { CanMapAll model_leaves leaves witnesses.now.texts.bytes.now witnesses.now.texts.pairs.now work.old to }
    ensures { MapsAll model_leaves leaves witnesses.now.texts.bytes.now witnesses.now.texts.pairs.now work.old to work.new result }
{
    let mut from = 0;
    let mut at = to;
    for w in 0..witnesses.len() {
        let text = witnesses.text(w);
        let n = witnesses.counts_of(w);
        let next = compose_gather::after_words(n, from, at);
        at = witness_origins(text, n, work, from, leaves, model_leaves, w, at)?;
        from = next;
    }
    Some(at)
}
