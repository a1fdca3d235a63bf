// `take_literal` over a cursor that is lent (R2.3, R12.5).
ghost use Rattle.std.specs.Prelude.{◌≡◌};
ghost use Rattle.nitrasovy.specs.FlatLiterals.{flat_value, literal_from, TakesFlat};

use aiger::Refusal;
use text::Reader;

// A place in a text.
#[repr(C)]
#[derive(Clone, Copy)]
pub struct NitCursor {
    pub at: usize,
}

// Reason 0 and the literal, or the number of the reason and 0.
// Kept (enum): C reads a reason beside the values.
#[repr(C)]
#[derive(Clone, Copy)]
pub struct NitTaken {
    pub reason: u64,
    pub value: u64,
}

impl From<Option<u64>> for NitTaken {
    ghost from_gives = { λ value flat. flat ≡ flat_value value };

    fn from(value: Option<u64>) -> NitTaken {
        match value {
            Some(value) => NitTaken { reason: 0, value },
            None => NitTaken {
                reason: u64::from(Refusal::Line),
                value: 0,
            },
        }
    }
}

// Takes the line at a lent cursor as one literal, by the witness reader's rule for numbers, and moves the cursor past it, also where it is refused; with no line left it stays.
#[unsafe(no_mangle)]
pub extern "C" fn nit_take_literal(text: &[u8], cursor: &mut NitCursor) -> NitTaken
    ensures { TakesFlat (literal_from text.now cursor.old.at) result cursor.new.at }
{
    if text.len() <= cursor.at {
        return NitTaken::from(None);
    }
    let literal = text::take_literal(Reader::Witness, &text[cursor.at..]);
    cursor.at = text.len() - literal.rest.len();
    NitTaken::from(literal.value)
}
