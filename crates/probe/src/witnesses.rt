// The witness texts' loader under a plain C signature.
// Kept (switch): the flag is an argument of C.
ghost use Rattle.std.specs.Prelude.{◌≡◌};
ghost use Rattle.aiger.specs.Refusals.{answered};
ghost use Rattle.text.specs.Texts.{limited};
ghost use Rattle.witness_read.specs.Reading.{read_aag};
ghost use Rattle.probe.specs.Inner.FlatLoads.{reason_read, LoadsFlat};

use aiger::Refusal;
use witness_text::AagCounts;

// The number of an answer: 0 where there are counts.
// Kept (by hand): neither type is this crate's, so it has no `From`.
fn reason_of(read: Result<AagCounts, Refusal>) -> u64
    ensures { result ≡ reason_read (answered read) }
{
    match read {
        Ok(_) => 0,
        Err(refusal) => u64::from(refusal),
    }
}

#[unsafe(no_mangle)]
pub extern "C" fn probe_load_witness(bytes: &[u8], witness: bool, words: &mut [u64]) -> u64
    ensures { LoadsFlat bytes.now (read_aag limited witness bytes.now) words.old words.new result }
{
    reason_of(witness_load::load_aag(bytes, witness, words))
}
