// The witness texts of a call, and their counts once they are read.
ghost use Rattle.std.specs.Prelude.{[], ◌≡◌, ◌/◌, ◌<◌, true, length, get_or};
ghost use Rattle.lists.specs.Words.{in_order};
ghost use Rattle.compose_spec.specs.Calling.{texts_in};
ghost use Rattle.compose_gather.specs.Inner.Checking.{FewInOrder};
ghost use Rattle.compose_gather.specs.Inner.Counts.{CountsOf, CountsListed};

use witness_text::AagCounts;

// The text of number w among those that the pairs cut out of some bytes.
pub fn text_at<'a>(witnesses: &'a [u8], pairs: &[u64], w: usize) -> &'a [u8]
    requires { (in_order 0 (length witnesses.now) pairs.now ≡ true) × (w < length pairs.now / 2) }
    ensures { result.now ≡ get_or (texts_in witnesses.now pairs.now) w [] }
{
    let start = pairs[2 * w] as usize;
    let size = pairs[2 * w + 1] as usize;
    crate::piece(witnesses, start, size)
}

// Texts one after the other in lent bytes, and the pairs that cut them out.
#[derive(Clone, Copy)]
pub struct Texts<'a> {
    pub bytes: &'a [u8],
    pub pairs: &'a [u64],
    pub ghost cut: { FewInOrder bytes.now pairs.now },
}

impl<'a> Texts<'a> {
    // How many there are.
    pub fn len(&self) -> usize
        ensures { result ≡ length self.now.pairs.now / 2 }
    {
        self.pairs.len() / 2
    }

    // The text of witness w.
    pub fn text(&self, w: usize) -> &'a [u8]
        requires { w < length self.now.pairs.now / 2 }
        ensures { result.now ≡ get_or (texts_in self.now.bytes.now self.now.pairs.now) w [] }
    {
        text_at(self.bytes, self.pairs, w)
    }
}

// Texts that are read, with the nine counts of each as they were read.
// Kept (buffer): the bytes and pairs are the caller's, and the counts stand in a local array beside them, since there is no heap.
#[derive(Clone, Copy)]
pub struct Witnesses<'a> {
    pub texts: Texts<'a>,
    pub counts: &'a [u64],
    pub ghost listed: { CountsListed texts.bytes.now texts.pairs.now counts.now },
}

impl<'a> Witnesses<'a> {
    // How many there are.
    pub fn len(&self) -> usize
        ensures { result ≡ length self.now.texts.pairs.now / 2 }
    {
        self.texts.len()
    }

    // The text of witness w.
    pub fn text(&self, w: usize) -> &'a [u8]
        requires { w < length self.now.texts.pairs.now / 2 }
        ensures { result.now ≡ get_or (texts_in self.now.texts.bytes.now self.now.texts.pairs.now) w [] }
    {
        self.texts.text(w)
    }

    // Its counts.
    pub fn counts_of(&self, w: usize) -> AagCounts
        requires { w < length self.now.texts.pairs.now / 2 }
        ensures { CountsOf (get_or (texts_in self.now.texts.bytes.now self.now.texts.pairs.now) w []) result }
    {
        crate::counts::counts_at(self.counts, w)
    }
}
