// A model's record that is lent.
ghost use Rattle.std.specs.Prelude.{◌≡◌, length};

use crate::{AigerLatch, Counts};

// Its inputs and outputs are those of the caller, since they are long to copy, and can be fewer than are counted.
// Kept (buffer): the counts are the record's own, and can be too large for its arrays until it is validated.
#[derive(Clone, Copy)]
pub struct LentModel<'a> {
    pub counts: Counts,
    pub inputs: &'a [u64],
    pub latches: [AigerLatch; 8],
    pub outputs: &'a [u64],
    ghost eight: { length latches ≡ 8 },
}
