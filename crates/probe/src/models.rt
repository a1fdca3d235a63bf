// The validation of a model under a plain C signature.
ghost use Rattle.std.specs.Prelude.{◌≡◌, length};
ghost use Rattle.lists.specs.Parts.{zeros};
ghost use Rattle.model.specs.Checked.{checked};
ghost use Rattle.model.specs.RecordWords.{record_in};
ghost use Rattle.probe.specs.Inner.Flat.{reason_of};

use model::LentModel;

#[unsafe(no_mangle)]
pub extern "C" fn probe_validate(model: &[u64], gates: &[u64], work: &mut [u64]) -> u64
    ensures { (result ≡ reason_of (checked (record_in model.now) gates.now (length work.old))) × (work.new ≡ zeros (length work.old)) }
{
    match LentModel::from_words(model).validate(&gates, work) {
        Ok(()) => 0,
        Err(refusal) => u64::from(refusal),
    }
}
