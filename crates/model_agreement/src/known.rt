//! What is known of two models before they are asked.

ghost use Rattle.std.specs.Prelude.{◌≡◌, IfOk};
ghost use Rattle.model_agreement.specs.Known.{is_sure};

use crate::changes::{ChangedParameter, is_spared};
use crate::common::Common;
use model_questions::answer::Question;
use model_questions::record::Record;
use sim_values::NoMemory;
use std::alloc::Global;

/// What is known of two models, so that they need not be asked.
#[derive(Clone, Copy)]
pub struct Known<'a> {
    /// What they have in common.
    pub common: Common,
    /// Whether they are alike but in these parameters.
    pub alike: bool,
    pub changed: &'a [ChangedParameter],
}

/// Whether it is known of a question that both give it the same answer.
pub fn is_sure(
    alloc: Global,
    known: Known<'_>,
    records: &[Record],
    question: &Question,
) -> Result<bool, NoMemory>
    ensures { IfOk result (λ sure. sure ≡ is_sure known.entry records.now question.now) }
{
    if known.common.is_about(question) {
        return Ok(true);
    }
    if !known.alike {
        return Ok(false);
    }
    is_spared(alloc, records, known.changed, question)
}
