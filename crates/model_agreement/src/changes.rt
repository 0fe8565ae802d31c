//! Models that are alike but in some parameters of modules.

ghost use Rattle.std.specs.Prelude.{◌≡◌, not, IfOk};
ghost use Rattle.model_questions.specs.Records.{lineage_up, path_of, place_of};
ghost use Rattle.model_agreement.specs.Changes.{has_created, is_changed, is_changed_somewhere};
ghost use Rattle.model_agreement.specs.Changes.{is_spared};

use model_questions::answer::Question;
use model_questions::record::{MAX_NESTING, Origin, Record, path_of, record_at};
use sim_values::NoMemory;
use sim_values::text::Text;
use std::alloc::Global;

/// A parameter of a module, which may have another value in one of two models than in the other.
#[derive(Drop)]
pub struct ChangedParameter {
    /// The full path of the module.
    pub path: Text,
    pub name: Text,
}

/// Whether one of these is that parameter of the module of that path.
fn is_changed(changed: &[ChangedParameter], path: &[u8], name: &[u8]) -> bool
    ensures { result ≡ is_changed changed.now path.now name.now }
{
    for parameter in changed {
        if parameter.name.is(name) && parameter.path.is(path) {
            return true;
        }
    }
    false
}

/// Whether one of these has that name, of whichever module.
fn is_changed_somewhere(changed: &[ChangedParameter], name: &[u8]) -> bool
    ensures { result ≡ is_changed_somewhere changed.now name.now }
{
    for parameter in changed {
        if parameter.name.is(name) {
            return true;
        }
    }
    false
}

/// Whether a parameter of the module of that id is one of these. No path is made where none of them
/// has that name.
fn is_changed_of(
    alloc: Global,
    records: &[Record],
    changed: &[ChangedParameter],
    id: u32,
    name: &[u8],
) -> Result<bool, NoMemory>
    ensures { IfOk result
        (λ found. found ≡ is_changed changed.now (path_of records.now id) name.now) }
{
    if !is_changed_somewhere(changed, name) {
        return Ok(false);
    }
    let path = path_of(alloc, records, id)?;
    Ok(is_changed(changed, path.as_bytes(), name))
}

/// Whether a module was created while the run went on, from that one outwards through so many at
/// most.
fn has_created_up(depth: u32, records: &[Record], id: u32) -> bool
    ensures { result ≡ has_created (lineage_up depth records.now id) }
{
    if depth > 0 {
        if let Some(record) = record_at(records, id) {
            return match record.origin {
                Origin::Built => has_created_up(depth - 1, records, record.parent),
                Origin::Created(_) => true,
            };
        }
    }
    false
}

#[tactic(auto, unfolding(model_questions::specs::Records::place_of))]
/// Whether the module of that id, or one around it, was created while the run went on.
fn has_created(records: &[Record], id: u32) -> bool
    ensures { result ≡ has_created (place_of records.now id) }
{
    has_created_up(MAX_NESTING, records, id)
}

/// Whether models that are alike but in these parameters give a question the same answer, of which
/// that is known without asking them.
pub fn is_spared(
    alloc: Global,
    records: &[Record],
    changed: &[ChangedParameter],
    question: &Question,
) -> Result<bool, NoMemory>
    ensures { IfOk result (λ spared. spared ≡ is_spared changed.now records.now question.now) }
{
    match question {
        Question::Param(id, name) => {
            if has_created(records, *id) {
                return Ok(false);
            }
            Ok(!is_changed_of(alloc, records, changed, *id, name.as_bytes())?)
        }
        Question::GateSize(id, _) | Question::Hop(id, _, _) | Question::HopBack(id, _, _) => {
            Ok(!has_created(records, *id))
        }
        _ => Ok(false),
    }
}
