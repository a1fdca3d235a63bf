// Small functions on words that every layer uses.
#![tactic(auto)]

ghost use Rattle.std.specs.Prelude.{◌≡◌, not, ◌+◌, ◌*◌, ◌≤◌, ◌<◌, ◌^◌, leb, ltb, length, get_or, take};
ghost use Rattle.lists.specs.Parts.{part, zeros};
ghost use Rattle.lists.specs.Sets.{holds, with_bit, rising};
ghost use Rattle.lists.specs.Tests.{all};
ghost use Rattle.lists.specs.Words.{lengths, in_order};
ghost use Rattle.lists.specs.Inner.Pairs.{part_end};

// Every word becomes 0.
// Kept (travel): that the work words are 0 is a promise of each call by itself, and no fact about one value.
pub fn clear(work: &mut [u64])
    ensures { work.new ≡ zeros (length work.old) }
{
    work.fill(0);
}

// Sets bit k of the words, and says whether it was not set before.
pub fn add(words: &mut [u64], k: usize) -> bool
    ensures { (result ≡ not (holds words.old k)) × (words.new ≡ with_bit words.old k) }
{
    let at = k / 64;
    if at >= words.len() {
        return true;
    }
    let was = words[at];
    words[at] = was | (1 << (k % 64));
    (was >> (k % 64)) % 2 == 0
}

// The first n words, or all where there are fewer.
// Kept (buffer): this is what cuts a slice to its count.
pub fn first(words: &[u64], n: usize) -> &[u64]
    ensures { result.now ≡ take n words.now }
{
    words.get(..n).unwrap_or(words)
}

// The words from place a up to place e, as far as there are any.
pub fn cut(words: &[u64], a: usize, e: usize) -> &[u64]
    ensures { result.now ≡ part words.now a e }
{
    words.get(a..e.min(words.len())).unwrap_or(&[])
}

// Word k, or 0 where there is none.
pub fn word(words: &[u64], k: usize) -> u64
    ensures { result ≡ get_or words.now k 0 }
{
    words.get(k).copied().unwrap_or(0)
}

// Whether each word is below the next.
pub fn rises(words: &[u64]) -> bool
    ensures { result ≡ rising words.now }
{
    for i in 1..words.len() {
        if words[i] <= words[i - 1] {
            return false;
        }
    }
    true
}

// Whether every word is below n.
pub fn below(words: &[u64], n: u64) -> bool
    ensures { result ≡ all (λ x. ltb x n) words.now }
{
    words.iter().all(|x| *x < n)
}

// Whether the lengths of all pairs together are at most so many.
pub fn lengths_within(pairs: &[u64], most: u64) -> bool
    ensures { result ≡ leb (lengths pairs.now) most }
{
    let mut left = most;
    for i in 0..pairs.len() / 2 {
        let n = pairs[2 * i + 1];
        if left < n {
            return false;
        }
        left -= n;
    }
    true
}

// Where a part ends that may not start before a place, and ends within so many elements.
fn part_end(end: usize, start: usize, size: usize, all: usize) -> Option<usize>
    ensures { result ≡ part_end end start size all }
{
    if end <= start && start <= all && size <= all - start {
        return Some(start + size);
    }
    None
}

// The same of the part that pair i says.
pub fn pair_end(pairs: &[u64], i: usize, end: usize, all: usize) -> Option<usize>
    requires { 2 * i + 1 < length pairs.now }
    ensures { result ≡ part_end end (get_or pairs.now (2 * i) 0) (get_or pairs.now (2 * i + 1) 0) all }
{
    part_end(end, pairs[2 * i] as usize, pairs[2 * i + 1] as usize, all)
}

// Whether the pairs are in order, within so many elements.
pub fn in_order(pairs: &[u64], all: usize) -> bool
    ensures { result ≡ in_order 0 all pairs.now }
{
    let mut end = 0;
    for i in 0..pairs.len() / 2 {
        let Some(next) = pair_end(pairs, i, end, all) else {
            return false;
        };
        end = next;
    }
    true
}

// x has no bit at n or above.
pub fn fits(x: u64, n: usize) -> bool
    requires { n ≤ 64 }
    ensures { result ≡ ltb x (2 ^ n) }
{
    n == 64 || x >> n == 0
}
