// The gates and latches of all witnesses, which stand side by side in lent words, become those of the composition.
#![tactic(auto)]

ghost use Rattle.std.specs.Prelude.{◌≡◌, ◌+◌, ◌<◌, length};
ghost use Rattle.compose_spec.specs.Sharing.{translate, unordered};
ghost use Rattle.compose_spec.specs.Inner.Keys.{key_of};
ghost use Rattle.compose_gates.specs.Inner.Linked.{Translatable, Sharable, Shares};
ghost use Rattle.compose_gates.specs.Inner.Latches.{DefinesLatch, Definable, Defines};

// The composed literal of a joint one, by the composed variables of the joint ones.
pub fn translate(vars: &[u64], literal: u64) -> u64
    requires { Translatable vars.now literal }
    ensures { result ≡ translate vars.now literal }
{
    2 * vars[(literal / 2) as usize] + literal % 2
}

// The key of a gate with two operands, whichever is first.
fn key_of(x: u64, y: u64) -> u64
    requires { (x < 2147483648) × (y < 2147483648) }
    ensures { result ≡ key_of (unordered x y) }
{
    if x <= y {
        x + 4294967296 * y
    } else {
        y + 4294967296 * x
    }
}

// The key of the composed gate for a gate with these operands.
fn gate_key(vars: &[u64], left: u64, right: u64) -> u64
    requires { Translatable vars.now left × Translatable vars.now right }
    ensures { result ≡ key_of (unordered (translate vars.now left) (translate vars.now right)) }
{
    let x = translate(vars, left);
    let y = translate(vars, right);
    key_of(x, y)
}

// How many gates the composition has, or none (R9.17): equal unordered operand pairs share a gate. The composed variables of the gates are
// stored behind the `known` ones; the table has room for the key of each gate.
pub fn share_gates(
    operands: &[u64],
    vars: &mut [u64],
    known: usize,
    table: &mut [u64],
    leaves: usize,
) -> Option<usize>
    requires { Sharable operands.now vars.old known table.old leaves }
    ensures { Shares operands.now vars.old known leaves vars.new table.new result }
{
    let count = operands.len() / 2;
    let mut shared = 0;
    for i in 0..count {
        let key = gate_key(vars, operands[2 * i], operands[2 * i + 1]);
        let k = key_table::find_or_add(table, count + 1, shared, key);
        shared = shared.max(k + 1);
        if leaves + shared > 2000000 {
            return None;
        }
        vars[known + i] = (leaves + 1 + k) as u64;
    }
    Some(shared)
}

// Whether a latch with this next literal and reset is as its first definition, which stands at a place; where there is none yet, it is
// stored there.
// Kept (switch): the loop says which latch was met before, and the definition branches on it.
fn define_latch(definitions: &mut [u64], place: usize, next: u64, reset: u64, known: bool) -> bool
    requires { place + 1 < length definitions.old }
    ensures { DefinesLatch place next reset definitions.old definitions.new known result }
{
    if known {
        return definitions[place] == next && definitions[place + 1] == reset;
    }
    definitions[place] = next;
    definitions[place + 1] = reset;
    true
}

// How many latches the composition has where all definitions of each agree, or none (R9.18). The latches' own composed variables stand among
// all from the place `own` on, and the first is the number `first`. The first definition of each composed latch is stored.
pub fn define_latches(
    latches: &[u64],
    vars: &[u64],
    own: usize,
    definitions: &mut [u64],
    first: usize,
) -> Option<usize>
    requires { Definable latches.now vars.now own definitions.old first }
    ensures { Defines latches.now vars.now own first definitions.old definitions.new result }
{
    let mut seen = 0;
    for j in 0..latches.len() / 2 {
        let slot = vars[own + j] as usize - first;
        let next = translate(vars, latches[2 * j]);
        let reset = translate(vars, latches[2 * j + 1]);
        if !define_latch(definitions, 2 * slot, next, reset, slot < seen) {
            return None;
        }
        seen = seen.max(slot + 1);
    }
    Some(seen)
}
