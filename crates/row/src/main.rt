// The row program (R14): reads standard input and prints what `row_text::row` says of it. One byte more than the limit is looked at.
#![tactic(auto)]

use std::io;

// Prints the answer to standard input, by way of a lent buffer.
fn answer(rt: &(impl Input + Print), out: &mut [u8]) -> io::Result<()> {
    let mut input = [0u8; 16385];
    let n = whole_input::read_full(&mut rt.reader(), &mut input)?;
    let size = row_text::row(&input[..n], out);
    rt.write_all(&out[..size])
}

// Kept (twin): `row_cases` is a program of its own, and lends as much.
fn main(rt: HostRuntime) -> io::Result<()> {
    let mut out = [0u8; 700000];
    answer(&rt, &mut out)
}
