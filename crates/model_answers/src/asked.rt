//! A model that a run asks.

ghost use Rattle.std.specs.Prelude.{◌≡◌};
ghost use Rattle.model_answers.specs.Answering.{answers_of};

use crate::evaluated::EvaluatedModel;
use crate::plain::PlainAnswers;
use model_injections::injection::Injection;
use model_questions::answer::{Answer, Question};
use model_questions::record::Record;
use module_api::call::{Gate, Parameter};
use run_answers::{Answers, ModelMarker};
use sim_values::NoMemory;
use sqlite_items::Items;
use std::alloc::Global;
use std::marker::PhantomData;

/// The plain answers of one model, which its type names.
pub struct AskedModel<'m, M: ModelMarker> {
    plain: PlainAnswers<'m>,
    of: PhantomData<M>,
    ghost same: { answers_of plain ≡ M.answers },
}

// Written out, so that a crate which drops one need not prove what that does.
impl<'m, M: ModelMarker> Drop for AskedModel<'m, M> {
    fn drop(self) {
        let AskedModel { plain: _, of: _ } = self;
    }
}

impl<'m, M: ModelMarker> AskedModel<'m, M> {
    /// The answers of a model.
    pub fn new(model: &'m EvaluatedModel) -> AskedModel<'m, M>
        requires { answers_of model.now ≡ M.answers }
    {
        AskedModel {
            plain: PlainAnswers::new(model),
            of: PhantomData,
        }
    }
}

impl<'m, M: ModelMarker> Answers for AskedModel<'m, M> {
    ghost answers = { M.answers };

    fn answer(
        &mut self,
        alloc: Global,
        records: &[Record],
        question: &Question,
    ) -> Result<Answer, NoMemory> {
        self.plain.answer(alloc, records, question)
    }

    fn parameters_of(
        &mut self,
        alloc: Global,
        records: &[Record],
        id: u32,
    ) -> Result<Items<Parameter>, NoMemory> {
        self.plain.parameters_of(alloc, records, id)
    }

    fn gates_of(
        &mut self,
        alloc: Global,
        records: &[Record],
        id: u32,
    ) -> Result<Items<Gate>, NoMemory> {
        self.plain.gates_of(alloc, records, id)
    }

    fn time_limit(&self) -> Option<u64> {
        self.plain.time_limit()
    }

    #[tactic(auto, unfolding(crate::specs::Answering::answers_of))]
    fn injections(&self) -> &[Injection] {
        self.plain.injections()
    }
}
