// The counts of all witnesses in a lent list, nine words for each, so that no pass reads headers for them.
ghost use Rattle.std.specs.Prelude.{[], ◌∷◌, ◌≡◌, ◌+◌, ◌*◌, ◌<◌, length};
ghost use Rattle.lists.specs.Parts.{put};
ghost use Rattle.compose_gather.specs.Inner.Counts.{count_words, counts_at};

use witness_text::AagCounts;

// Stores the counts of witness w.
pub fn store(counts: &mut [u64], w: usize, witness: AagCounts)
    requires { 9 * w + 8 < length counts.old }
    ensures { counts.new ≡ put counts.old (9 * w) (count_words witness) }
{
    let at = 9 * w;
    let words = [
        witness.max_variable as u64,
        witness.inputs as u64,
        witness.latches as u64,
        witness.outputs as u64,
        witness.gates as u64,
        witness.bads as u64,
        witness.constraints as u64,
        witness.justice as u64,
        witness.fairness as u64,
    ];
    counts[at..at + 9].copy_from_slice(&words);
}

// The counts of witness w.
pub fn counts_at(counts: &[u64], w: usize) -> AagCounts
    requires { 9 * w + 8 < length counts.now }
    ensures { result ≡ counts_at counts.now w }
{
    let at = 9 * w;
    AagCounts {
        max_variable: counts[at] as usize,
        inputs: counts[at + 1] as usize,
        latches: counts[at + 2] as usize,
        outputs: counts[at + 3] as usize,
        gates: counts[at + 4] as usize,
        bads: counts[at + 5] as usize,
        constraints: counts[at + 6] as usize,
        justice: counts[at + 7] as usize,
        fairness: counts[at + 8] as usize,
    }
}
