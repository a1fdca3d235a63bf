// Numbers, single bytes and constants written into a lent buffer: each function answers where to write on, or none where the bytes do
// not fit; then none of them is written.
// Kept (travel): these answer for one write at a place, and the printer of `text_print`, which goes on and counts, stands above them.
#![tactic(auto)]

ghost use Rattle.std.specs.Prelude.{◌≡◌, [], ◌∷◌, ◌+◌, ◌≤◌, length, SomeIff};
ghost use Rattle.text_decimal.specs.Decimal.{decimal};
ghost use Rattle.text_decimal.specs.Inner.Writing.{written, written_at};

// How many digits a number has.
pub fn decimal_length(n: u64) -> usize
    ensures { result ≡ length (decimal n) }
{
    n.max(1).ilog10() as usize + 1
}

// Where n bytes from a place on end, if a buffer has room for them.
fn end_within(room: usize, at: usize, n: usize) -> Option<usize>
    ensures { SomeIff result (at + n ≤ room) (at + n) }
{
    let left = room.checked_sub(at)?;
    if left < n {
        return None;
    }
    Some(at + n)
}

// Writes the digits of n, from the last to the first.
pub fn write_decimal(out: &mut [u8], at: usize, n: u64) -> Option<usize>
    ensures { (result ≡ written_at (length out.old) at (decimal n)) × (out.new ≡ written out.old at (decimal n)) }
{
    let size = decimal_length(n);
    let end = end_within(out.len(), at, size)?;
    let mut rest = n;
    for i in 0..size {
        out[end - 1 - i] = 48 + (rest % 10) as u8;
        rest = rest / 10;
    }
    Some(end)
}

// Writes one byte.
pub fn write_byte(out: &mut [u8], at: usize, b: u8) -> Option<usize>
    ensures { (result ≡ written_at (length out.old) at (b ∷ [])) × (out.new ≡ written out.old at (b ∷ [])) }
{
    write_bytes(out, at, &[b])
}

// Writes the bytes of a slice.
pub fn write_bytes(out: &mut [u8], at: usize, bytes: &[u8]) -> Option<usize>
    ensures { (result ≡ written_at (length out.old) at bytes.now) × (out.new ≡ written out.old at bytes.now) }
{
    let end = end_within(out.len(), at, bytes.len())?;
    // Kept (loop): as in `copy` of `text_print`.
    for i in 0..bytes.len() {
        out[at + i] = bytes[i];
    }
    Some(end)
}
