// The composer (R8).
#![tactic(auto)]

ghost use Rattle.std.specs.Prelude.{◌≡◌, length, ◌+◌, ◌<◌};
ghost use Rattle.compose_spec.specs.Calling.{texts_in, compose_texts, compose_call};
ghost use Rattle.compose_layout.specs.Inner.Laid.{CanLay, OfSome};
ghost use Rattle.compose_print.specs.Inner.Written.{PrintableOf};
ghost use Rattle.compose.specs.Promise.{Composes};
ghost use Rattle.compose.specs.Inner.Steps.{first_room, TestsSafety, Answers, Measures, Writes, LaidSome, ComposesLaid, ComposesFitting, ModelSome, ComposesWitnesses};

use aiger::Refusal;
use compose_gather::{Texts, Totals, Witnesses};
use compose_layout::Layout;
use compose_print::Composition;
use witness_text::AagCounts;

// How much room so many work words give, where they are enough for the composer itself.
fn first_room(words: usize) -> Option<usize>
    ensures { result ≡ first_room words }
{
    Some(words.checked_sub(1024)? / 16)
}

// Whether each witness has a bad or an output (R9.19).
fn all_safe(witnesses: &Witnesses) -> bool
    ensures { TestsSafety witnesses.now.texts.bytes.now witnesses.now.texts.pairs.now result }
{
    for w in 0..witnesses.len() {
        let n = witnesses.counts_of(w);
        if n.bads == 0 && n.outputs == 0 {
            return false;
        }
    }
    true
}

// How many bytes the text of a merged composition has; nothing is written.
fn measure(composition: &Composition, out: &mut [u8]) -> usize
    requires { OfSome (PrintableOf composition.now) }
    ensures { Measures (PrintableOf composition.now) out.old out.new result }
{
    composition.print(&mut out[..0])
}

// The text of a merged composition, where it fits.
fn write_merged(composition: &Composition, out: &mut [u8]) -> Result<usize, Refusal>
    requires { OfSome (PrintableOf composition.now) }
    ensures { Writes (PrintableOf composition.now) out.old out.new result }
{
    let size = measure(composition, out);
    if out.len() < size {
        return Err(Refusal::ResultRoom);
    }
    Ok(composition.print(out))
}

// Composes witnesses that are laid out.
fn compose_laid(
    witnesses: &Witnesses,
    work: &mut [u64],
    model_counts: AagCounts,
    totals: Totals,
    layout: Layout,
    out: &mut [u8],
) -> Result<usize, Refusal>
    requires { LaidSome model_counts totals witnesses.now.texts.bytes.now witnesses.now.texts.pairs.now work.old layout }
    ensures { ComposesLaid model_counts totals witnesses.now.texts.bytes.now witnesses.now.texts.pairs.now work.old layout out.old out.new result }
{
    let merged = compose_merge::merge(work, layout, model_counts, totals)?;
    if !all_safe(witnesses) {
        return Err(Refusal::NoSafety);
    }
    let composition = Composition {
        witnesses: *witnesses,
        work,
        at: layout,
        merged,
        totals,
    };
    write_merged(&composition, out)
}

// Composes witnesses that are read and for which there are enough work words, for a model with these counts.
fn compose_fitting(
    witnesses: &Witnesses,
    work: &mut [u64],
    model_counts: AagCounts,
    totals: Totals,
    out: &mut [u8],
) -> Result<usize, Refusal>
    requires { CanLay model_counts totals witnesses.now.texts.bytes.now witnesses.now.texts.pairs.now work.old }
    ensures { ComposesFitting model_counts totals witnesses.now.texts.bytes.now witnesses.now.texts.pairs.now work.old out.old out.new result }
{
    let Some(layout) = compose_layout::lay(witnesses, work, model_counts, totals) else {
        return Err(Refusal::Mapping);
    };
    compose_laid(witnesses, work, model_counts, totals, layout, out)
}

// Reads the witnesses and composes them, for a model with these counts.
fn compose_witnesses(
    texts: &Texts,
    work: &mut [u64],
    model_counts: AagCounts,
    out: &mut [u8],
) -> Result<usize, Refusal>
    requires { ModelSome model_counts }
    ensures { ComposesWitnesses model_counts texts.now.bytes.now texts.now.pairs.now work.old out.old out.new result }
{
    let room = compose_gather::room_after(first_room(work.len()), model_counts);
    // nine for each of at most 64 witnesses
    let mut counts: [u64; 576] = [0; 576];
    let totals = compose_gather::check_all(texts, room, &mut counts)?;
    if totals.room.is_none() {
        return Err(Refusal::ComposingRoom);
    }
    let witnesses = Witnesses {
        texts: *texts,
        counts: &counts,
    };
    compose_fitting(&witnesses, work, model_counts, totals, out)
}

// Reads the model, then the witnesses, and composes them.
fn compose_texts(
    model: &[u8],
    texts: &Texts,
    work: &mut [u64],
    out: &mut [u8],
) -> Result<usize, Refusal>
    ensures { Answers out.old (compose_texts (length work.old) (length out.old) model.now (texts_in texts.now.bytes.now texts.now.pairs.now)) out.new result }
{
    let model_counts = witness_read::parse_aag(model, false)?;
    compose_witnesses(texts, work, model_counts, out)
}

// The composition; the work words are not cleared here.
fn compose_in(
    model: &[u8],
    witnesses: &[u8],
    pairs: &[u64],
    work: &mut [u64],
    out: &mut [u8],
) -> Result<usize, Refusal>
    ensures { Answers out.old (compose_call (length work.old) (length out.old) model.now witnesses.now pairs.now) out.new result }
{
    let count = pairs.len() / 2;
    if count < 2 || 64 < count {
        return Err(Refusal::WitnessCount);
    }
    if !lists::in_order(pairs, witnesses.len()) {
        return Err(Refusal::WitnessPairs);
    }
    let texts = Texts {
        bytes: witnesses,
        pairs,
    };
    compose_texts(model, &texts, work, out)
}

// Composes safety witnesses for a model (R8).
pub fn compose_safety_witnesses_v1(
    model: &[u8],
    witnesses: &[u8],
    pairs: &[u64],
    work: &mut [u64],
    out: &mut [u8],
) -> Result<usize, Refusal>
    ensures { Composes model.now witnesses.now pairs.now work.old out.old work.new out.new result }
{
    let composed = compose_in(model, witnesses, pairs, work, out);
    lists::clear(work);
    composed
}
