// The calls that make clauses. Their cases have one form: work words, pair words, literals, and the source or the bad output; then the
// lengths of the record, the gate words, the relevant inputs, the predicate's pairs and literals and the two lists of the claim, and these.
use nitrasovy::obligations;
use nitrasovy::obligations::NitMade;
use replay_text::form::Call;
use replay_text::{form, show};
use text_print::Printer;

// The lengths stand from the first of these places on, and the lists from the second.
const LENGTHS: usize = 6;

const LISTS: usize = 13;

// Copies words to literals, as far as there is room.
fn copy_literals(words: &[u64], to: &mut [u32]) {
    for (literal, word) in to.iter_mut().zip(words) {
        *literal = (*word % 4294967296) as u32;
    }
}

// What is lent to a call.
#[derive(Drop)]
struct Lent<'a> {
    work: &'a mut [u64],
    pairs: &'a mut [u64],
    literals: &'a mut [u32],
}

// The numbers of a case, and the literals of its predicate.
#[derive(Clone, Copy)]
struct Case<'a> {
    numbers: &'a [u64],
    predicate_literals: &'a [u32],
}

// List k of a case.
fn part(numbers: &[u64], k: usize) -> &[u64] {
    form::list(numbers, LENGTHS, LISTS, k)
}

// Kept (twin): each of the three calls takes its own arguments.
impl<'a> Case<'a> {
    // A row with claimed targets.
    fn relation(&self, lent: &mut Lent) -> NitMade {
        obligations::nit_relation_row(
            part(self.numbers, 0),
            part(self.numbers, 1),
            part(self.numbers, 2),
            lists::word(self.numbers, 5),
            part(self.numbers, 3),
            self.predicate_literals,
            part(self.numbers, 5),
            lent.work,
            lent.pairs,
            lent.literals,
        )
    }

    // A row with claimed outcomes.
    fn transducer(&self, lent: &mut Lent) -> NitMade {
        obligations::nit_transducer_row(
            part(self.numbers, 0),
            part(self.numbers, 1),
            part(self.numbers, 2),
            lists::word(self.numbers, 5),
            part(self.numbers, 3),
            self.predicate_literals,
            part(self.numbers, 5),
            part(self.numbers, 6),
            lent.work,
            lent.pairs,
            lent.literals,
        )
    }

    // A terminal list.
    fn terminal(&self, lent: &mut Lent) -> NitMade {
        obligations::nit_terminal(
            part(self.numbers, 0),
            part(self.numbers, 1),
            part(self.numbers, 2),
            part(self.numbers, 3),
            self.predicate_literals,
            lists::word(self.numbers, 5),
            part(self.numbers, 5),
            lent.work,
            lent.pairs,
            lent.literals,
        )
    }

    // Prints the name of the call that a case names, and makes it.
    // Kept (switch): a case says which, and each takes other lists.
    fn make(&self, call: Call, lent: &mut Lent, to: &mut Printer) -> NitMade {
        match call {
            Call::RelationRow => {
                to.bytes(b"relation");
                self.relation(lent)
            }
            Call::TransducerRow => {
                to.bytes(b"transducer");
                self.transducer(lent)
            }
            _ => {
                to.bytes(b"terminal");
                self.terminal(lent)
            }
        }
    }
}

// Makes the call with exactly these words lent, and prints the answer: the counts, the pairs and the literals.
fn made_lent(call: Call, case: Case, lent: &mut Lent, to: &mut Printer) {
    let made = case.make(call, lent, to);
    to.fields(&[made.reason, made.clauses as u64, made.literals as u64]);
    show::kept(to, lent.pairs, made.clauses.saturating_mul(2));
    show::kept_literals(to, lent.literals, made.literals);
    show::zero(to, lent.work, 0);
}

// Makes the call with so many words lent.
fn made_with(call: Call, case: Case, room: &mut Lent, to: &mut Printer) -> Option<()> {
    let mut lent = Lent {
        work: room.work.get_mut(..form::size(case.numbers, 2))?,
        pairs: room.pairs.get_mut(..form::size(case.numbers, 3))?,
        literals: room.literals.get_mut(..form::size(case.numbers, 4))?,
    };
    made_lent(call, case, &mut lent, to);
    Some(())
}

// Makes the call with the predicate's literals in front of the room for them.
fn made_for(
    call: Call,
    numbers: &[u64],
    predicate: &mut [u32],
    room: &mut Lent,
    to: &mut Printer,
) -> Option<()> {
    if form::list_start(numbers, LENGTHS, LISTS, 7) != numbers.len() {
        return None;
    }
    let predicate_literals = predicate.get_mut(..form::size(numbers, 10))?;
    copy_literals(part(numbers, 4), predicate_literals);
    let case = Case {
        numbers,
        predicate_literals,
    };
    made_with(call, case, room, to)
}

// A case of one of the three calls.
pub fn made_case(call: Call, numbers: &[u64], to: &mut Printer) -> Option<()> {
    let mut predicate = [0u32; 2048];
    let mut work = [show::WORD; 4096];
    let mut pairs = [show::WORD; 8192];
    let mut literals = [show::LITERAL; 8192];
    let mut room = Lent {
        work: &mut work,
        pairs: &mut pairs,
        literals: &mut literals,
    };
    made_for(call, numbers, &mut predicate, &mut room, to)
}
