//! What a run records: its scalars and its vectors.

ghost use Rattle.std.specs.Prelude.{◌≡◌, ◌<◌, ◌^◌, IfOk, length, true};
ghost use Rattle.recorders.specs.Places.{AreHeard};
ghost use Rattle.recorders.specs.Scalars.{scalars_of};
ghost use Rattle.recorders.specs.Vectors.{vectors_of};
ghost use Rattle.recorders.specs.Wanted.{AreWanted};
ghost use Rattle.recorders.specs.declared.wanted.Output.TheVariants.{Vector};

use crate::places::{RunPlaces, heard_lists, run_places};
use crate::recorded_model::RecordedModel;
use crate::scalar_line::ScalarLine;
use crate::scalars::scalars;
use crate::vector_line::VectorLine;
use crate::vectors::vectors;
use crate::wanted::{Output, wanted};
use model_answers::plain::PlainAnswers;
use model_questions::record::Record;
use run_semantics::traces::{Emission, Scalar};
use sim_values::NoMemory;
use sqlite_items::Items;
use std::alloc::Global;

/// Whether the same modules are wanted.
fn are_same(one: &[bool], other: &[bool]) -> bool
    ensures { result ≡ true → one.now ≡ other.now }
{
    one == other
}

#[tactic(auto, using(crate::proofs::Unwanted::heard_of_same))]
/// The vectors that a run records. Where the modules that are wanted for them are those that are
/// wanted for its scalars, what each hears is known.
fn vectors_beside(
    alloc: Global,
    model: &RecordedModel<'_, '_>,
    records: &[Record],
    emissions: &[Emission],
    places: &RunPlaces,
) -> Result<Items<VectorLine>, NoMemory>
    requires few { length records.now < 2 ^ 32 }
    requires heard { AreHeard places.now.wanted.items records.now emissions.now
        places.now.heard.items }
    ensures { IfOk result (λ found. found ≡ vectors_of model.now records.now emissions.now) }
{
    let wanted = wanted(Output::Vector, alloc, model, records)?;
    if are_same(places.wanted.as_slice(), wanted.as_slice()) {
        let heard = places.heard.as_slice();
        return vectors(alloc, model, records, emissions, wanted.as_slice(), heard);
    }
    let heard = heard_lists(alloc, wanted.as_slice(), records, emissions)?;
    vectors(
        alloc,
        model,
        records,
        emissions,
        wanted.as_slice(),
        heard.as_slice(),
    )
}

/// The scalars and the vectors that a run records, with the modules of these records, of which
/// these were finished, with what the modules recorded and these emissions.
pub fn results(
    alloc: Global,
    answers: &PlainAnswers<'_>,
    records: &[Record],
    finished: &[u32],
    recorded: &[Scalar],
    emissions: &[Emission],
) -> Result<(Items<ScalarLine>, Items<VectorLine>), NoMemory>
    requires few { length records.now < 2 ^ 32 }
    ensures scalars { IfOk result (λ found. found.0
        ≡ scalars_of answers.now records.now finished.now recorded.now emissions.now) }
    ensures vectors { IfOk result
        (λ found. found.1 ≡ vectors_of answers.now records.now emissions.now) }
{
    let model = RecordedModel::new(answers);
    let wanted = wanted(Output::Scalars, alloc, &model, records)?;
    let places = run_places(alloc, wanted, records, finished, recorded, emissions)?;
    let scalars = scalars(
        alloc, &model, records, finished, recorded, emissions, &places,
    )?;
    let vectors = vectors_beside(alloc, &model, records, emissions, &places)?;
    Ok((scalars, vectors))
}
