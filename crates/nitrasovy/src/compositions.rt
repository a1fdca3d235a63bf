// The composer.
ghost use Rattle.std.specs.Prelude.{◌≡◌};
ghost use Rattle.aiger.specs.Refusals.{answered};
ghost use Rattle.nitrasovy.specs.Inner.FlatEnums.{flat_bytes};
ghost use Rattle.nitrasovy.specs.FlatCompositions.{ComposesFlat};

use aiger::Refusal;

// Reason 0 and how many bytes the text has, or the number of the reason and 0.
// Kept (enum): C reads a reason beside the values.
#[repr(C)]
#[derive(Clone, Copy)]
pub struct NitComposed {
    pub reason: u64,
    pub bytes: usize,
}

impl From<Result<usize, Refusal>> for NitComposed {
    ghost from_gives = { λ composed flat. flat ≡ flat_bytes (answered composed) };

    fn from(composed: Result<usize, Refusal>) -> NitComposed {
        match composed {
            Ok(bytes) => NitComposed { reason: 0, bytes },
            Err(refusal) => NitComposed {
                reason: u64::from(refusal),
                bytes: 0,
            },
        }
    }
}

// Composes the witnesses that the pairs of offset and length cut from a buffer; the text goes to the front of `out`.
#[unsafe(no_mangle)]
pub extern "C" fn nit_compose(
    model: &[u8],
    witnesses: &[u8],
    witness_pairs: &[u64],
    work: &mut [u64],
    out: &mut [u8],
) -> NitComposed
    ensures { ComposesFlat model.now witnesses.now witness_pairs.now work.old out.old work.new out.new result }
{
    let composed = compose::compose_safety_witnesses_v1(model, witnesses, witness_pairs, work, out);
    NitComposed::from(composed)
}
