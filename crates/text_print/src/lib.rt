// Texts printed into lent bytes.
#![tactic(auto)]

ghost use Rattle.std.specs.Prelude.{◌≡◌, ℕ, [], ◌∷◌, ◌++◌, ◌+◌, ◌*◌, ◌^◌, ◌≤◌, ◌<◌, length, SomeIff};
ghost use Rattle.lists.specs.Parts.{put};
ghost use Rattle.text_decimal.specs.Decimal.{decimal};
ghost use Rattle.text_decimal.specs.Printed.{number_line, text_of};
ghost use Rattle.text_print.specs.Inner.Prints.{PrintsOn, Passes};
ghost use Rattle.text_print.specs.Inner.DigitPairs.{digit_pairs};
ghost use Rattle.text_print.specs.Inner.Lines.{fields_text, literal_lines, literals_from, gate_lines};
ghost use Rattle.text_print.specs.Inner.Elements.{elements, elements_in};

// How many digits a number has. Most numbers have few, and comparing with these is quicker than `decimal_length`.
fn digit_count(n: u64) -> usize
    ensures { (result ≡ length (decimal n)) × (result ≤ 20) }
{
    if n < 10000 {
        if n < 100 {
            if n < 10 {
                return 1;
            }
            return 2;
        }
        if n < 1000 {
            return 3;
        }
        return 4;
    }
    if n < 100000000 {
        if n < 1000000 {
            if n < 100000 {
                return 5;
            }
            return 6;
        }
        if n < 10000000 {
            return 7;
        }
        return 8;
    }
    if n < 1000000000 {
        return 9;
    }
    text_decimal::decimal_length(n)
}

// The digits of 0 to 99, two for each.
static PAIRS: [u8; 200] =
    *b"00010203040506070809101112131415161718192021222324252627282930313233343536373839404142434445464748495051525354555657585960616263646566676869707172737475767778798081828384858687888990919293949596979899";

fn digit_pairs() -> &'static [u8]
    ensures { result.now ≡ digit_pairs }
{
    &PAIRS
}

// Writes the digits of n, from the last to the first, two at a time. Looking two digits up is quicker than dividing.
fn write_digits(to: &mut [u8], n: u64)
    requires { length to.old ≡ length (decimal n) }
    ensures { to.new ≡ decimal n }
{
    let pairs = digit_pairs();
    let mut rest = n;
    let mut left = to.len();
    // Kept (loop): two digits a turn, from the last on, and one that may be left over.
    while 2 <= left {
        let two = (rest % 100) as usize;
        to[left - 1] = pairs[2 * two + 1];
        to[left - 2] = pairs[2 * two];
        left -= 2;
        rest = rest / 100;
    }
    if left == 1 {
        to[0] = 48 + (rest % 10) as u8;
    }
}

// Writes the digits of n and a byte behind them.
fn write_field(to: &mut [u8], n: u64, end: u8)
    requires { length to.old ≡ length (decimal n) + 1 }
    ensures { to.new ≡ decimal n ++ (end ∷ []) }
{
    let size = to.len() - 1;
    write_digits(&mut to[..size], n);
    to[size] = end;
}

// Copies bytes over as many others.
// Kept (loop): `copy_from_slice` would ask callers in C for one more function, which moves bytes within a buffer; this asks for none.
fn copy(to: &mut [u8], bytes: &[u8])
    requires { length to.old ≡ length bytes.now }
    ensures { to.new ≡ bytes.now }
{
    for i in 0..to.len() {
        to[i] = bytes[i];
    }
}

// A number that stands for a word.
pub trait Number: Copy {
    ghost value: { Self → ℕ };

    fn value(self) -> u64
        ensures { result ≡ value self };
}

impl Number for u64 {
    ghost value = { λ n. n };

    fn value(self) -> u64 {
        self
    }
}

impl Number for u32 {
    ghost value = { λ n. n };

    fn value(self) -> u64 {
        u64::from(self)
    }
}

// A text that is printed into lent bytes, and how far it is; a place that no word can hold is the largest word. What has no room is only
// counted, so that a printer that is lent no bytes measures a text.
#[derive(Drop)]
pub struct Printer<'a> {
    pub out: &'a mut [u8],
    pub at: usize,
}

impl<'a> Printer<'a> {
    // Passes over so many bytes, and says where they begin if there is room for them.
    fn pass(&mut self, size: usize) -> Option<usize>
        ensures { Passes self.old size self.new × SomeIff result (self.old.at + size ≤ length self.old.out.now) self.old.at }
    {
        let start = self.at;
        self.at = start.saturating_add(size);
        if self.out.len() < self.at {
            return None;
        }
        Some(start)
    }

    // Prints one byte.
    pub fn byte(&mut self, b: u8)
        ensures { PrintsOn self.old (b ∷ []) self.new }
    {
        if let Some(at) = self.pass(1) {
            self.out[at] = b;
        }
    }

    // Prints the bytes of a slice.
    pub fn bytes(&mut self, bytes: &[u8])
        ensures { PrintsOn self.old bytes.now self.new }
    {
        if let Some(at) = self.pass(bytes.len()) {
            copy(&mut self.out[at..at + bytes.len()], bytes);
        }
    }

    // Prints the digits of a number.
    pub fn number(&mut self, n: u64)
        ensures { PrintsOn self.old (decimal n) self.new }
    {
        let size = digit_count(n);
        if let Some(at) = self.pass(size) {
            write_digits(&mut self.out[at..at + size], n);
        }
    }

    // Prints a space and a number.
    pub fn field(&mut self, n: u64)
        ensures { PrintsOn self.old (32 ∷ decimal n) self.new }
    {
        self.byte(32);
        self.number(n);
    }

    // Prints numbers, each with a space before it.
    pub fn fields<T: Number>(&mut self, list: &[T])
        ensures { PrintsOn self.old (fields_text T.value list.now) self.new }
    {
        for n in list {
            self.field(n.value());
        }
    }

    // Prints a line of one number.
    fn literal_line(&mut self, x: u64)
        ensures { PrintsOn self.old (number_line (x ∷ []) ++ 10 ∷ []) self.new }
    {
        let size = digit_count(x);
        if let Some(at) = self.pass(size + 1) {
            write_field(&mut self.out[at..at + (size + 1)], x, 10);
        }
    }

    // Prints a line of three numbers.
    pub fn three(&mut self, x: u64, y: u64, z: u64)
        ensures { PrintsOn self.old (number_line (x ∷ y ∷ z ∷ []) ++ 10 ∷ []) self.new }
    {
        let first = digit_count(x);
        let second = digit_count(y);
        let third = digit_count(z);
        if let Some(at) = self.pass(first + second + third + 3) {
            let middle = at + (first + 1);
            let last = middle + (second + 1);
            write_field(&mut self.out[at..middle], x, 32);
            write_field(&mut self.out[middle..last], y, 32);
            write_field(&mut self.out[last..last + (third + 1)], z, 10);
        }
    }

    // Prints the lines of the literals of variables in a row.
    pub fn consecutive(&mut self, first: u64, count: usize)
        requires { 2 * (first + count) < 2 ^ 63 }
        ensures { PrintsOn self.old (text_of (literal_lines (literals_from first count))) self.new }
    {
        for i in 0..count {
            self.literal_line(2 * (first + i as u64));
        }
    }

    // Prints the lines of gates in a row; the words are their operands, two for each.
    pub fn pairs(&mut self, first: u64, words: &[u64])
        requires { 2 * (first + length words.now) < 2 ^ 63 }
        ensures { PrintsOn self.old (text_of (gate_lines first words.now)) self.new }
    {
        for i in 0..words.len() / 2 {
            self.three(2 * (first + i as u64), words[2 * i], words[2 * i + 1]);
        }
    }

    // Prints a line for each bit that is set in word j; the numbers of its bits begin at 64 * j. Zeros are passed over eight at a time where
    // they can be.
    fn word(&mut self, words: &[u64], j: usize)
        requires { (j < length words.now) × (64 * length words.now < 2 ^ 64) }
        ensures { PrintsOn self.old (text_of (literal_lines (elements_in words.now j))) self.new }
    {
        let mut rest = words[j];
        let mut k = (64 * j) as u64;
        // Kept (loop): k moves on by 8 or by 1.
        while 0 < rest {
            if rest % 256 == 0 {
                rest = rest / 256;
                k += 8;
                continue;
            }
            if rest % 2 == 0 {
                rest = rest / 2;
                k += 1;
                continue;
            }
            self.literal_line(k);
            rest = rest / 2;
            k += 1;
        }
    }

    // Prints a line for each number whose bit is set, ascending. A word that is 0 takes no turn of the inner loop.
    pub fn set(&mut self, words: &[u64])
        requires { 64 * length words.now < 2 ^ 64 }
        ensures { PrintsOn self.old (text_of (literal_lines (elements words.now))) self.new }
    {
        for j in 0..words.len() {
            self.word(words, j);
        }
    }
}
