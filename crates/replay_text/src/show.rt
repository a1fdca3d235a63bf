// Prints answers, and what became of the words that were lent.
// Kept (buffer): what stands behind the first n is looked at too.
use text_print::{Number, Printer};

// What a word, a literal and a byte hold before they are lent.
pub const WORD: u64 = 6148914691236517205;

pub const LITERAL: u32 = 2863311530;

pub const BYTE: u8 = 170;

// Prints the first elements, and one of two words: whether all others have a value.
fn first<T: Number>(to: &mut Printer, list: &[T], n: usize, value: u64, same: &[u8], other: &[u8]) {
    let Some((front, rest)) = list.split_at_checked(n) else {
        return to.bytes(b" more than were lent");
    };
    to.fields(front);
    to.bytes(if rest.iter().all(|x| x.value() == value) {
        same
    } else {
        other
    });
}

// Prints the first words, and whether all others were kept.
pub fn kept(to: &mut Printer, list: &[u64], n: usize) {
    first(to, list, n, WORD, b" kept", b" changed");
}

// Prints the first literals, and whether all others were kept.
pub fn kept_literals(to: &mut Printer, list: &[u32], n: usize) {
    first(to, list, n, u64::from(LITERAL), b" kept", b" changed");
}

// Prints the first words, and whether all others are 0.
pub fn zero(to: &mut Printer, list: &[u64], n: usize) {
    first(to, list, n, 0, b" zero", b" left");
}

// Prints whether all bytes but the first were kept, and the first ones on lines of their own.
pub fn kept_bytes(to: &mut Printer, list: &[u8], n: usize) {
    let Some((front, rest)) = list.split_at_checked(n) else {
        return to.bytes(b" more than were lent");
    };
    to.bytes(if rest.iter().all(|byte| *byte == BYTE) {
        b" kept\n"
    } else {
        b" changed\n"
    });
    to.bytes(front);
}
