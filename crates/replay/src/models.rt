// The calls on transition models: the reader and the step.
use model::{AigerLatch, AigerTransition};
use nitrasovy::models;
use replay_text::{form, show};
use text_print::Printer;

// The words of the latches.
fn latch_words(latches: [AigerLatch; 8]) -> [u64; 16] {
    let mut words = [0; 16];
    for i in 0..8 {
        let latch = latches[i];
        words[2 * i] = latch.current;
        words[2 * i + 1] = latch.next;
    }
    words
}

// Prints M I L O A.
fn show_counts(to: &mut Printer, model: AigerTransition) {
    to.fields(&[
        model.max_variable as u64,
        model.input_count as u64,
        model.latch_count as u64,
        model.output_count as u64,
        model.and_count as u64,
    ]);
}

// Prints a record: the counts, the literals of each list, and that all slots past them are 0.
fn show_model(to: &mut Printer, model: AigerTransition) {
    let inputs = model.inputs;
    let pairs = model.latches;
    let latches = latch_words(pairs);
    let outputs = model.outputs;
    show_counts(to, model);
    show::zero(to, &inputs, model.input_count);
    show::zero(to, &latches, model.latch_count.saturating_mul(2));
    show::zero(to, &outputs, model.output_count);
}

// Reads a text with exactly these words lent, and prints the answer.
fn read_lent(text: &[u8], gates: &mut [u64], work: &mut [u64], to: &mut Printer) {
    let read = models::nit_read_transition(text, gates, work);
    let model = read.model;
    to.bytes(b"transition");
    to.field(read.reason);
    show_model(to, model);
    show::kept(to, gates, model.and_count.saturating_mul(3));
    show::zero(to, work, 0);
}

// Reads a text with so many gate and work words lent.
fn read_with(
    numbers: &[u64],
    text: &[u8],
    gates: &mut [u64],
    work: &mut [u64],
    to: &mut Printer,
) -> Option<()> {
    if numbers.len() != 4 {
        return None;
    }
    let gates = gates.get_mut(..form::size(numbers, 2))?;
    let work = work.get_mut(..form::size(numbers, 3))?;
    read_lent(text, gates, work, to);
    Some(())
}

// A case of the reader: gate words, work words; the block is the text.
// Kept (twin): `compose_case` of `texts` lends other buffers to another call.
pub fn read_case(numbers: &[u64], text: &[u8], to: &mut Printer) -> Option<()> {
    let mut gates = [show::WORD; 4096];
    let mut work = [show::WORD; 4096];
    read_with(numbers, text, &mut gates, &mut work, to)
}

// Makes a step with exactly these work words lent, and prints the answer.
fn step_lent(numbers: &[u64], work: &mut [u64], to: &mut Printer) {
    let record = form::list(numbers, 5, 7, 0);
    let gates = form::list(numbers, 5, 7, 1);
    let state = lists::word(numbers, 3);
    let input = lists::word(numbers, 4);
    let stepped = models::nit_step(record, gates, work, state, input);
    to.bytes(b"step");
    to.fields(&[stepped.reason, stepped.target, stepped.high, stepped.low]);
    show::zero(to, work, 0);
}

// Makes a step with so many work words lent.
fn step_with(numbers: &[u64], work: &mut [u64], to: &mut Printer) -> Option<()> {
    if form::list_start(numbers, 5, 7, 2) != numbers.len() {
        return None;
    }
    step_lent(numbers, work.get_mut(..form::size(numbers, 2))?, to);
    Some(())
}

// A case of the step: work words, state, input word, and the lengths of the record and of the gate words before these.
pub fn step_case(numbers: &[u64], to: &mut Printer) -> Option<()> {
    let mut work = [show::WORD; 4096];
    step_with(numbers, &mut work, to)
}
