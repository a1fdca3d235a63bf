// The exports of crate `probe` as a static library, for the comparison with the Rust in differential/ alone: each has the name, the
// arguments and the contract of the function that it passes on, word for word.
// Kept (twin): a crate is a library or a static library, and C calls these by the names that `probe` has.
// Kept (travel): C hands over each argument by itself.
// Kept (switch): the flag is an argument of C.
#![tactic(auto)]

ghost use Rattle.std.specs.Prelude.{◌≡◌, length};
ghost use Rattle.lists.specs.Parts.{zeros};
ghost use Rattle.text.specs.Numbers.{number_of};
ghost use Rattle.text.specs.Fields.{first_field, has_header_word};
ghost use Rattle.text.specs.Literals.{literal_at};
ghost use Rattle.scan.specs.Same.{same_bytes, begins_with};
ghost use Rattle.text.specs.Texts.{limited, good_text};
ghost use Rattle.text_decimal.specs.Decimal.{decimal};
ghost use Rattle.text_decimal.specs.Inner.Writing.{written, written_at};
ghost use Rattle.model.specs.Checked.{checked};
ghost use Rattle.model.specs.RecordWords.{record_in};
ghost use Rattle.witness_read.specs.Reading.{read_aag};
ghost use Rattle.probe.specs.Inner.Flat.{reader_of, reason_of, flat_number, flat_literal, line_at, field_at, flat_written};
ghost use Rattle.probe.specs.Inner.FlatLoads.{LoadsFlat};

use probe::{ProbeLiteral, ProbeNumber, ProbePart, ProbeWritten, models, witnesses};

#[unsafe(no_mangle)]
pub extern "C" fn probe_parse(witness: bool, f: &[u8]) -> ProbeNumber
    ensures { result ≡ flat_number (number_of (reader_of witness) f.now) }
{
    probe::probe_parse(witness, f)
}

#[unsafe(no_mangle)]
pub extern "C" fn probe_take_literal(witness: bool, bytes: &[u8], at: usize) -> ProbeLiteral
    ensures { result ≡ flat_literal (literal_at (reader_of witness) bytes.now at) }
{
    probe::probe_take_literal(witness, bytes, at)
}

#[unsafe(no_mangle)]
pub extern "C" fn probe_line(bytes: &[u8], at: usize) -> ProbePart
    ensures { result ≡ line_at bytes.now at }
{
    probe::probe_line(bytes, at)
}

#[unsafe(no_mangle)]
pub extern "C" fn probe_field(line: &[u8], at: usize) -> ProbePart
    ensures { result ≡ field_at line.now at }
{
    probe::probe_field(line, at)
}

// The first field, copied to the front of a buffer.
#[unsafe(no_mangle)]
pub extern "C" fn probe_first_field(line: &[u8], out: &mut [u8]) -> ProbeWritten
    ensures { (result ≡ flat_written (written_at (length out.old) 0 (first_field line.now))) × (out.new ≡ written out.old 0 (first_field line.now)) }
{
    probe::probe_first_field(line, out)
}

#[unsafe(no_mangle)]
pub extern "C" fn probe_write_decimal(out: &mut [u8], at: usize, n: u64) -> ProbeWritten
    ensures { (result ≡ flat_written (written_at (length out.old) at (decimal n))) × (out.new ≡ written out.old at (decimal n)) }
{
    probe::probe_write_decimal(out, at, n)
}

#[unsafe(no_mangle)]
pub extern "C" fn probe_decimal_length(n: u64) -> usize
    ensures { result ≡ length (decimal n) }
{
    probe::probe_decimal_length(n)
}

#[unsafe(no_mangle)]
pub extern "C" fn probe_header_word(line: &[u8]) -> bool
    ensures { result ≡ has_header_word line.now }
{
    probe::probe_header_word(line)
}

#[unsafe(no_mangle)]
pub extern "C" fn probe_same(a: &[u8], b: &[u8]) -> bool
    ensures { result ≡ same_bytes a.now b.now }
{
    probe::probe_same(a, b)
}

#[unsafe(no_mangle)]
pub extern "C" fn probe_begins_with(s: &[u8], word: &[u8]) -> bool
    ensures { result ≡ begins_with s.now word.now }
{
    probe::probe_begins_with(s, word)
}

#[unsafe(no_mangle)]
pub extern "C" fn probe_good_text(witness: bool, bytes: &[u8]) -> bool
    ensures { result ≡ good_text limited (reader_of witness) bytes.now }
{
    probe::probe_good_text(witness, bytes)
}

#[unsafe(no_mangle)]
pub extern "C" fn probe_validate(model: &[u64], gates: &[u64], work: &mut [u64]) -> u64
    ensures { (result ≡ reason_of (checked (record_in model.now) gates.now (length work.old))) × (work.new ≡ zeros (length work.old)) }
{
    models::probe_validate(model, gates, work)
}

#[unsafe(no_mangle)]
pub extern "C" fn probe_load_witness(bytes: &[u8], witness: bool, words: &mut [u64]) -> u64
    ensures { LoadsFlat bytes.now (read_aag limited witness bytes.now) words.old words.new result }
{
    witnesses::probe_load_witness(bytes, witness, words)
}
