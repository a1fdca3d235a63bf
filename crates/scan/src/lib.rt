// Looking through bytes: the end of a line, bytes that a text may have, comparing with a constant.
#![tactic(auto)]

ghost use Rattle.std.specs.Prelude.{ℕ, Bool, ◌≡◌, ◌≤◌, ◌+◌, min, leb, length, drop};
ghost use Rattle.lists.specs.Tests.{all};
ghost use Rattle.scan.specs.Spans.{span, in_line, between};
ghost use Rattle.scan.specs.Allowed.{is_ascii, is_witness_byte, ends_in10};
ghost use Rattle.scan.specs.Same.{same_bytes, begins_with};

// Where a block of at most n elements from a place on ends.
pub fn block_end(size: usize, at: usize, n: usize) -> usize
    ensures { result ≡ min (at + n) size }
{
    at.saturating_add(n).min(size)
}

// A test of bytes.
pub trait ByteTest {
    ghost passes: { ℕ → Bool };

    fn passes(b: u8) -> bool
        ensures { result ≡ passes b };
}

// A test of bytes by their ranks: a byte passes where its rank is at most 127.
trait Ranked {
    ghost passes: { ℕ → Bool };

    fn rank(b: u8) -> u8
        ensures { leb result 127 ≡ passes b };
}

// A byte of a line: any but 10.
struct InLine;

impl Ranked for InLine {
    ghost passes = { in_line };

    fn rank(b: u8) -> u8 {
        if b == 10 { 255 } else { 0 }
    }
}

impl ByteTest for InLine {
    ghost passes = { in_line };

    fn passes(b: u8) -> bool {
        b != 10
    }
}

// A byte of a transition text.
struct Ascii;

impl Ranked for Ascii {
    ghost passes = { is_ascii };

    fn rank(b: u8) -> u8 {
        b
    }
}

// A byte of a witness text.
struct WitnessByte;

impl Ranked for WitnessByte {
    ghost passes = { is_witness_byte };

    fn rank(b: u8) -> u8 {
        if b == 13 { 255 } else { b }
    }
}

// Whether every byte of a block passes. The loop looks at every byte, so that the compiler takes many at a time.
fn block_passes<R: Ranked>(block: &[u8]) -> bool
    ensures { result ≡ all R.passes block.now }
{
    let mut most = 0;
    for b in block {
        most = most.max(R::rank(*b));
    }
    most <= 127
}

// Whether every byte passes; ends with the first block that has another.
fn blocks_pass<R: Ranked>(s: &[u8]) -> bool
    ensures { result ≡ all R.passes s.now }
{
    for block in s.chunks(4096) {
        if !block_passes::<R>(block) {
            return false;
        }
    }
    true
}

// How many bytes of whole blocks at the front have no byte 10.
fn blocks_in_line(s: &[u8]) -> usize
    ensures { result + span in_line (drop result s.now) ≡ span in_line s.now }
{
    let mut passed = 0;
    for block in s.chunks(64) {
        if !block_passes::<InLine>(block) {
            return passed;
        }
        passed += block.len();
    }
    passed
}

// How many bytes at the front pass a test.
pub fn passing<T: ByteTest>(s: &[u8]) -> usize
    ensures value { result ≡ span T.passes s.now }
    ensures within { result ≤ length s.now }
{
    for i in 0..s.len() {
        if !T::passes(s[i]) {
            return i;
        }
    }
    s.len()
}

// Where a run of bytes from low to high ends; a place past the end stays.
// Kept (loop): the bounds are the caller's, and a `ByteTest` has none of its own.
pub fn run_end(s: &[u8], at: usize, low: u8, high: u8) -> usize
    ensures { result ≡ at + span (between low high) (drop at s.now) }
{
    for i in at..s.len() {
        if s[i] < low {
            return i;
        }
        if high < s[i] {
            return i;
        }
    }
    at.max(s.len())
}

// How long the first line is, by blocks.
fn long_line_length(s: &[u8]) -> usize
    ensures value { result ≡ span in_line s.now }
    ensures within { result ≤ length s.now }
{
    let passed = blocks_in_line(s);
    passed + passing::<InLine>(&s[passed..])
}

// How long the first line is: a short one is looked through byte by byte, a long one by blocks.
pub fn line_length(s: &[u8]) -> usize
    ensures value { result ≡ span in_line s.now }
    ensures within { result ≤ length s.now }
{
    let (front, others) = s.split_at(s.len().min(32));
    let length = passing::<InLine>(front);
    if length < front.len() {
        return length;
    }
    length + long_line_length(others)
}

// Whether every byte is at most 127.
pub fn all_ascii(s: &[u8]) -> bool
    ensures { result ≡ all is_ascii s.now }
{
    blocks_pass::<Ascii>(s)
}

// Whether every byte is one that a witness may have.
pub fn all_witness_bytes(s: &[u8]) -> bool
    ensures { result ≡ all is_witness_byte s.now }
{
    blocks_pass::<WitnessByte>(s)
}

// Whether the last byte is 10.
pub fn ends_in_10(s: &[u8]) -> bool
    ensures { result ≡ ends_in10 s.now }
{
    s.ends_with(b"\n")
}

// Whether two slices hold the same bytes.
pub fn same(a: &[u8], b: &[u8]) -> bool
    ensures { result ≡ same_bytes a.now b.now }
{
    a == b
}

// Whether s begins with the bytes of word.
pub fn begins_with(s: &[u8], word: &[u8]) -> bool
    ensures { result ≡ begins_with s.now word.now }
{
    s.starts_with(word)
}
