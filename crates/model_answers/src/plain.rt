//! A model that answers.

ghost use Rattle.std.specs.Prelude.{◌≡◌, IfOk};
ghost use Rattle.std.specs.Option.{option_copied};
ghost use Rattle.model_answers.specs.Answering.{answers_of, type_at};
ghost use Rattle.model_answers.specs.Keyed as keyed;
ghost use Rattle.model_answers.specs.Reading.{AreOfModel};
ghost use Rattle.model_settings.specs.Standings.{setting_of};
ghost use Rattle.model_questions.specs.Answers.{answer_of, gates_of, parameters_of};

use crate::answering::{answer, gates_of, parameters_of, type_at, type_of_path, value_of_path};
use crate::evaluated::EvaluatedModel;
use crate::placed::ModelValues;
use model_data::model::Model;
use model_injections::injection::Injection;
use model_keeping::values::ReadValues;
use model_questions::answer::{Answer, Question};
use model_questions::record::Record;
use model_settings::setting::ModelSetting;
use module_api::call::{Gate, Parameter};
use ned_trees::declarations::TypeDeclaration;
use sim_values::NoMemory;
use sqlite_items::Items;
use std::alloc::Global;
use std::marker;

/// A model that answers, with the values that are known of it.
pub struct PlainAnswers<'m> {
    setting: ModelSetting<'m>,
    /// The insides of its compound modules, and what these rest on.
    kept: ReadValues<'m>,
}

// Written out, so that a crate which drops one need not prove what that does.
impl<'m> Drop for PlainAnswers<'m> {
    fn drop(self) {
        let PlainAnswers {
            setting: _,
            kept: _,
        } = self;
    }
}

// Contracts see the model that answers.
impl<'m> marker::Model for PlainAnswers<'m> {
    ghost use Rattle.model_keeping.specs.Held.{AreRight};
    ghost use Rattle.model_settings.specs.Standings.{setting_of};
    ghost use Rattle.model_data.specs.declared.model.Model.{Model};
    ghost use Rattle.model_data.specs.contracts.model.Model.{the_row};

    ghost Value = { Model };

    ghost coded = { the_row.coded };

    ghost view = { λ a. a.setting };

    ghost invariant = { λ a. AreRight (setting_of a.setting) a.kept };
}

impl<'m> PlainAnswers<'m> {
    /// The answers of a model.
    pub fn new(model: &'m EvaluatedModel) -> PlainAnswers<'m>
        ensures { result ≡ model.now }
    {
        PlainAnswers {
            setting: model.setting(),
            kept: model.values(),
        }
    }

    /// What the values of the model rest on, with what is looked up of it.
    pub fn setting(&self) -> &ModelSetting<'m>
        ensures { result.now ≡ self.now }
    {
        &self.setting
    }

    /// The model that answers.
    pub fn model(&self) -> &'m Model
        ensures { result.now ≡ self.now }
    {
        self.setting.model()
    }

    /// The model, and what is kept.
    fn values(&self) -> ModelValues<'_>
        ensures model { result.setting.now ≡ self.now }
        ensures right { AreOfModel result }
    {
        ModelValues {
            setting: &self.setting,
            kept: self.kept,
        }
    }

    /// The answer to a question, with the modules of these records.
    pub fn answer(
        &self,
        alloc: Global,
        records: &[Record],
        question: &Question,
    ) -> Result<Answer, NoMemory>
        ensures { IfOk result
            (λ found. found ≡ answer_of (answers_of self.now) records.now question.now) }
    {
        answer(alloc, self.values(), records, question)
    }

    /// All parameters of the module of that id and their values, in the order of their declaration.
    pub fn parameters_of(
        &self,
        alloc: Global,
        records: &[Record],
        id: u32,
    ) -> Result<Items<Parameter>, NoMemory>
        ensures { IfOk result
            (λ parameters. parameters ≡ parameters_of (answers_of self.now) records.now id) }
    {
        parameters_of(alloc, self.values(), records, id)
    }

    /// All gates of the module of that id, in the order of their declaration.
    pub fn gates_of(
        &self,
        alloc: Global,
        records: &[Record],
        id: u32,
    ) -> Result<Items<Gate>, NoMemory>
        ensures { IfOk result (λ gates. gates ≡ gates_of (answers_of self.now) records.now id) }
    {
        gates_of(alloc, self.values(), records, id)
    }

    /// The type of the module of that id.
    pub fn type_at(
        &self,
        alloc: Global,
        records: &[Record],
        id: u32,
    ) -> Result<Option<&TypeDeclaration>, NoMemory>
        ensures { IfOk result (λ found. option_copied found ≡ type_at self.now records.now id) }
    {
        type_at(alloc, self.values(), records, id)
    }

    /// The type of the module of that path.
    pub fn type_at_path(
        &self,
        alloc: Global,
        path: &[u8],
    ) -> Result<Option<&TypeDeclaration>, NoMemory>
        ensures { IfOk result
            (λ found. option_copied found
            ≡ keyed.type_of (setting_of self.now) (keyed.module_at path.now)) }
    {
        type_of_path(alloc, self.values(), path)
    }

    /// The value of a parameter of the module of that path, or its fault.
    pub fn value_at_path(&self, alloc: Global, path: &[u8], name: &[u8]) -> Result<Answer, NoMemory>
        ensures { IfOk result (λ found. found
            ≡ keyed.value_in (setting_of self.now) (keyed.module_at path.now) name.now) }
    {
        value_of_path(alloc, self.values(), path, name)
    }

    /// The time after which no event is executed, in picoseconds.
    #[tactic(auto, unfolding(crate::specs::Answering::answers_of))]
    pub fn time_limit(&self) -> Option<u64>
        ensures { result ≡ (answers_of self.now).time_limit }
    {
        self.model().time_limit()
    }

    /// The messages from outside, by rising number.
    pub fn injections(&self) -> &'m [Injection]
        ensures { result.now ≡ self.now.injections }
    {
        self.model().injections.as_slice()
    }
}
