// A model record lent as the 213 words of its memory, taken apart with no copy but of the latches.
ghost use Rattle.std.specs.Prelude.{◌≡◌, ◌<◌};
ghost use Rattle.lists.specs.Parts.{part};
ghost use Rattle.model.specs.RecordWords.{latch_count_in, counts_in, latch_in, latches_in, record_in};
ghost use Rattle.model.specs.Inner.Lent.{lent_record};

use crate::{AigerLatch, Counts, LentModel};

// The number of latches; a record that is cut has none.
fn latch_count(words: &[u64]) -> usize
    ensures { result ≡ latch_count_in words.now }
{
    if words.len() < 213 {
        return 0;
    }
    lists::word(words, 66) as usize
}

fn counts(words: &[u64]) -> Counts
    ensures { result ≡ counts_in words.now }
{
    Counts {
        max_variable: lists::word(words, 0) as usize,
        inputs: lists::word(words, 1) as usize,
        latches: latch_count(words),
        outputs: lists::word(words, 83) as usize,
        ands: lists::word(words, 212) as usize,
    }
}

// The latch whose two words begin at a place.
fn latch(words: &[u64], at: usize) -> AigerLatch
    requires { at < 100 }
    ensures { result ≡ latch_in words.now at }
{
    AigerLatch {
        current: lists::word(words, at),
        next: lists::word(words, at + 1),
    }
}

fn latches(words: &[u64]) -> [AigerLatch; 8]
    ensures { result ≡ latches_in words.now 8 67 }
{
    let mut latches = [AigerLatch {
        current: 0,
        next: 0,
    }; 8];
    for i in 0..8 {
        latches[i] = latch(words, 67 + 2 * i);
    }
    latches
}

impl<'a> LentModel<'a> {
    pub fn from_words(words: &'a [u64]) -> LentModel<'a>
        ensures { lent_record result ≡ record_in words.now }
    {
        LentModel {
            counts: counts(words),
            inputs: lists::cut(words, 2, 66),
            latches: latches(words),
            outputs: lists::cut(words, 84, 212),
        }
    }
}
