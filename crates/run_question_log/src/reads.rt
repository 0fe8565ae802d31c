//! What replies read of the model, as questions.

ghost use Rattle.std.specs.Prelude.{◌≡◌, IfOk, true};
ghost use Rattle.model_questions.specs.Questions.{is_of_modules};
ghost use Rattle.run_semantics.specs.Perform.{question_of};

use model_questions::answer::Question;
use module_api::reply::Read;
use std::alloc::{AllocError, Global};

/// The question that a read asks. It is about modules.
pub fn question_of(alloc: Global, id: u32, read: &Read) -> Result<Question, AllocError>
    ensures question { IfOk result (λ question. question ≡ question_of id read.now) }
    ensures modules { IfOk result (λ question. is_of_modules question ≡ true) }
{
    match read {
        Read::Parameter(name) => Ok(Question::Param(id, name.text(alloc)?)),
        Read::Gate(name) => Ok(Question::GateSize(id, name.text(alloc)?)),
    }
}
