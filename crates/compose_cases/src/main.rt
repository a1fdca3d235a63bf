// Runs the composer on the composing case R14.7 and on its neighbours; what they must print is in the file `stdout`.
#![tactic(auto)]

use aiger::Refusal;
use std::io;

// Prints `refused`, the number and byte 10.
fn print_refused(rt: &impl Print, refusal: Refusal) -> io::Result<()> {
    println!(rt; "refused {}", u64::from(refusal))
}

// Prints the composition of the witness texts that pairs say, or the number of the reason.
fn show(
    rt: &impl Print,
    model: &[u8],
    witnesses: &[u8],
    pairs: &[u64],
    work: &mut [u64],
    out: &mut [u8],
) -> io::Result<()> {
    match compose::compose_safety_witnesses_v1(model, witnesses, pairs, work, out) {
        Ok(size) => {
            if size <= out.len() {
                rt.write_all(&out[..size])?;
            }
            Ok(())
        }
        Err(refusal) => print_refused(rt, refusal),
    }
}

// R14.7: the model and two witnesses of 20 bytes each; so many work words and result bytes are lent.
// Kept (buffer): how much is lent is what the cases try.
fn show_case(
    rt: &impl Print,
    pairs: &[u64],
    work: &mut [u64],
    words: usize,
    out: &mut [u8],
    room: usize,
) -> io::Result<()> {
    if work.len() < words || out.len() < room {
        return Ok(());
    }
    show(
        rt,
        b"aag 1 0 1 0 0\n2 2\n",
        b"aag 1 0 1 1 0\n2 2\n2\naag 1 0 1 1 0\n2 2\n3\n",
        pairs,
        &mut work[..words],
        &mut out[..room],
    )
}

// With exactly the words and bytes that are needed, and with one fewer of each.
fn amounts(rt: &impl Print, work: &mut [u64], out: &mut [u8]) -> io::Result<()> {
    let pairs: [u64; 4] = [0, 20, 20, 20];
    show_case(rt, &pairs, work, 1104, out, 82)?;
    show_case(rt, &pairs, work, 1103, out, 82)?;
    show_case(rt, &pairs, work, 1104, out, 81)
}

// One witness, parts that overlap or run past the buffer, half a pair more.
fn parts(rt: &impl Print, work: &mut [u64], out: &mut [u8]) -> io::Result<()> {
    let one: [u64; 2] = [0, 20];
    let overlapping: [u64; 4] = [0, 20, 19, 20];
    let past: [u64; 4] = [0, 20, 20, 21];
    let half: [u64; 5] = [0, 20, 20, 20, 7];
    show_case(rt, &one, work, 1104, out, 82)?;
    show_case(rt, &overlapping, work, 1104, out, 82)?;
    show_case(rt, &past, work, 1104, out, 82)?;
    show_case(rt, &half, work, 1104, out, 82)
}

fn main(rt: HostRuntime) -> io::Result<()> {
    let mut work = [0u64; 2048];
    let mut out = [0u8; 256];
    amounts(&rt, &mut work, &mut out)?;
    parts(&rt, &mut work, &mut out)
}
