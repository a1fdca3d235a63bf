// Runs `row_text::row` on inputs that show each answer and each limit; what they must print is in the file `stdout`.
#![tactic(auto)]

use std::io;

// The inputs, by what they show.
static INPUTS: [&[u8]; 62] = [
    // Accepted: R14.6, no claims, both states, a sign and a zero in front, lines after the gates.
    b"1 1\naag 3 1 1 1 1\n2\n4 6\n6\n6 4 2\n",
    b"0 0\naag 3 1 1 1 1\n2\n4 6\n6\n6 4 2\n",
    b"1\naag 3 1 1 1 1\n2\n4 6\n6\n6 4 2\n",
    b"0 0 1\naag 3 1 1 1 1\n2\n4 6\n6\n6 4 2\n",
    b"+1 01\naag 3 1 1 1 1\n2\n4 6\n6\n6 4 2\n",
    b"1 1\naag 3 1 1 1 1\n2\n4 6\n6\n6 4 2\nmore\n",
    // The other models of R13, the last line without byte 10, and gates out of order.
    b"0 0\naag 1 0 1 0 0\n2 0\n",
    b"1 1\naag 3 0 1 1 2\n2 6\n6\n6 4 4\n4 2 2\n",
    b"0 0\naag 1 0 1 0 0\n2 0",
    b"1 0\naag 1 0 1 0 0\n2 3\n",
    b"2 1 3\naag 2 0 2 0 0\n2 4\n4 2\n",
    // Constants: dropped clauses, the empty clause, a variable in both signs.
    b"1 1\naag 3 0 1 0 2\n2 1\n4 1 2\n6 0 4\n",
    b"1 0\naag 3 0 1 0 2\n2 1\n4 1 2\n6 0 4\n",
    b"0\naag 2 0 1 0 1\n2 2\n4 2 3\n",
    b"0 0 1 2 3\naag 2 0 2 0 0\n2 2\n4 3\n",
    // 14: first lines of another form.
    b"",
    b"\naag 3 1 1 1 1\n2\n4 6\n6\n6 4 2\n",
    b"1  1\naag 3 1 1 1 1\n2\n4 6\n6\n6 4 2\n",
    b"1 1 \naag 3 1 1 1 1\n2\n4 6\n6\n6 4 2\n",
    b" 1 1\naag 3 1 1 1 1\n2\n4 6\n6\n6 4 2\n",
    b"1\t1\naag 3 1 1 1 1\n2\n4 6\n6\n6 4 2\n",
    // 14: byte 13, a letter, a sign, a byte above 127, 2^64.
    b"1 1\r\naag 3 1 1 1 1\n2\n4 6\n6\n6 4 2\n",
    b"1 x\naag 3 1 1 1 1\n2\n4 6\n6\n6 4 2\n",
    b"-1 1\naag 3 1 1 1 1\n2\n4 6\n6\n6 4 2\n",
    b"1 \xff\naag 3 1 1 1 1\n2\n4 6\n6\n6 4 2\n",
    b"18446744073709551616\naag 3 1 1 1 1\n2\n4 6\n6\n6 4 2\n",
    b"1 18446744073709551616\naig\n",
    // 14: a state that the model has not, targets that do not rise.
    b"2 1\naag 3 1 1 1 1\n2\n4 6\n6\n6 4 2\n",
    b"1 2\naag 3 1 1 1 1\n2\n4 6\n6\n6 4 2\n",
    b"1 1 1\naag 3 1 1 1 1\n2\n4 6\n6\n6 4 2\n",
    b"1 1 0\naag 3 1 1 1 1\n2\n4 6\n6\n6 4 2\n",
    b"18446744073709551615\naag 3 1 1 1 1\n2\n4 6\n6\n6 4 2\n",
    // The form comes before the model, and the model before the states; 3 for a byte above 127.
    b"1 1 \naig\n",
    b"2 1\naig\n",
    b"1 1\naag 3 1 1 1 1\n2\n4 6\n6\n6 4 2\n\xff\n",
    b"2 1\naag 3 1 1 1 1\n2\n4 6\n6\n6 4\n",
    // 4: no model, another word, four and six counts, an unreadable one.
    b"1 1",
    b"1 1\n",
    b"1 1\naig 3 1 1 1 1\n",
    b"1 1\naag 3 1 1 1\n",
    b"1 1\naag 3 1 1 1 1 0\n",
    b"1 1\naag 3 1 1 x 1\n",
    // 5: the sum, no latch, 9 latches, 65 inputs, 129 outputs.
    b"0\naag 4 1 1 1 1\n",
    b"0\naag 1 1 0 0 0\n2\n",
    b"0\naag 9 0 9 0 0\n",
    b"0\naag 66 65 1 0 0\n",
    b"0\naag 1 0 1 129 0\n2 2\n",
    // The same at the limit, without the lines: 8. Then 2,001 gates: 7.
    b"0\naag 8 0 8 0 0\n",
    b"0\naag 65 64 1 0 0\n",
    b"0\naag 1 0 1 128 0\n2 2\n",
    b"0\naag 2001 0 1 0 2000\n2 2\n",
    b"0\naag 2002 0 1 0 2001\n2 2\n",
    // 8: lines that are missing or have another form.
    b"1 1\naag 3 1 1 1 1\n2\n4 6\n6\n",
    b"1 1\naag 3 1 1 1 1\n2 2\n4 6\n6\n6 4 2\n",
    b"1 1\naag 3 1 1 1 1\n2\n4\n6\n6 4 2\n",
    b"1 1\naag 3 1 1 1 1\n2\n4 6 2\n6\n6 4 2\n",
    b"1 1\naag 3 1 1 1 1\n2\n4 6\nx\n6 4 2\n",
    // 11: an odd definition, one made twice, an operand that is not smaller, literals out of range.
    b"1 1\naag 3 1 1 1 1\n3\n4 6\n6\n6 4 2\n",
    b"1 1\naag 3 1 1 1 1\n4\n4 6\n6\n6 4 2\n",
    b"1 1\naag 3 1 1 1 1\n2\n4 6\n6\n6 6 2\n",
    b"1 1\naag 3 1 1 1 1\n2\n4 8\n6\n6 4 2\n",
    b"1 1\naag 3 1 1 1 1\n2\n4 6\n8\n6 4 2\n",
];

// Prints what the row program prints for an input.
fn show(rt: &impl Print, input: &[u8], out: &mut [u8]) -> io::Result<()> {
    let size = row_text::row(input, out);
    rt.write_all(&out[..size])
}

// An input of 16,384 bytes is taken, and one byte more is 3.
fn limits(rt: &impl Print, out: &mut [u8]) -> io::Result<()> {
    let mut long = [120u8; 16385];
    let row = b"1 1\naag 3 1 1 1 1\n2\n4 6\n6\n6 4 2\n";
    long[..row.len()].copy_from_slice(row);
    show(rt, &long[..16384], out)?;
    show(rt, &long, out)
}

fn all(rt: &impl Print, out: &mut [u8]) -> io::Result<()> {
    for input in &INPUTS {
        show(rt, input, out)?;
    }
    limits(rt, out)
}

// Kept (twin): `row` is a program of its own, and lends as much.
fn main(rt: HostRuntime) -> io::Result<()> {
    let mut out = [0u8; 700000];
    all(&rt, &mut out)
}
