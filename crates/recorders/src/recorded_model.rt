//! The model of a run, for what is recorded of it.

ghost use Rattle.std.specs.Prelude.{◌≡◌, IfOk, false};
ghost use Rattle.std.specs.Option.{option_copied};
ghost use Rattle.model_answers.specs.Answering.{type_at};
ghost use Rattle.model_data.specs.Models.{entries_in};
ghost use Rattle.recorders.specs.Options.{has_option_line, is_option_line};
ghost use Rattle.recorders.specs.Selection.{option_of};

use ini_trees::entries::object_for;
use ini_trees::entry::{EntryMeaning, ObjectOption};
use ini_trees::lines::{IniLine, LineMeaning};
use model_answers::plain::PlainAnswers;
use model_data::model::Model;
use model_questions::record::{Record, path_under};
use ned_trees::declarations::TypeDeclaration;
use sim_values::NoMemory;
use std::alloc::Global;
use std::marker;

/// The model of a run, with whether its ini text has any per-object option: where it has none, none
/// is looked for. Contracts see the model.
#[derive(Drop)]
pub struct RecordedModel<'r, 'm> {
    answers: &'r PlainAnswers<'m>,
    has_options: bool,
}

impl<'r, 'm> marker::Model for RecordedModel<'r, 'm> {
    ghost use Rattle.std.specs.Prelude.{◌≡◌};
    ghost use Rattle.model_data.specs.declared.model.Model.{Model};
    ghost use Rattle.model_data.specs.contracts.model.Model.{the_row};
    ghost use Rattle.recorders.specs.Options.{has_option_line};

    ghost Value = { Model };

    ghost coded = { the_row.coded };

    ghost view = { λ a. a.answers.now };

    ghost invariant = { λ a. a.has_options ≡ has_option_line a.answers.now };
}

/// Whether a line is an entry of a per-object option.
fn is_option_line(line: &IniLine) -> bool
    ensures { result ≡ is_option_line line.now.meaning }
{
    match &line.meaning {
        LineMeaning::Entry(entry) => matches!(entry.meaning, EntryMeaning::Object(_)),
        LineMeaning::Blank | LineMeaning::Comment | LineMeaning::Section(_) => false,
    }
}

/// Whether the ini text of a model has any per-object option, in whatever section.
fn has_options(model: &Model) -> bool
    ensures { result ≡ has_option_line model.now }
{
    model.ini.lines().iter().any(|line| is_option_line(line))
}

impl<'r, 'm> RecordedModel<'r, 'm> {
    /// The model that answers so.
    pub fn new(answers: &'r PlainAnswers<'m>) -> RecordedModel<'r, 'm>
        ensures { result ≡ answers.now }
    {
        RecordedModel {
            answers,
            has_options: has_options(answers.model()),
        }
    }

    /// The type of the module of that id.
    pub(crate) fn type_at(
        &self,
        alloc: Global,
        records: &[Record],
        id: u32,
    ) -> Result<Option<&'r TypeDeclaration>, NoMemory>
        ensures { IfOk result (λ found. option_copied found ≡ type_at self.now records.now id) }
    {
        self.answers.type_at(alloc, records, id)
    }

    /// What an option says of a part of the module of that path.
    #[tactic(auto, using(crate::proofs::Options::none_said))]
    pub(crate) fn option_of(
        &self,
        alloc: Global,
        path: &[u8],
        name: &[u8],
        option: &[u8],
    ) -> Result<Option<&'m ObjectOption>, NoMemory>
        ensures { IfOk result (λ said. option_copied said
            ≡ option_of (entries_in self.now) path.now name.now option.now) }
    {
        if !self.has_options {
            return Ok(None);
        }
        let part = path_under(alloc, path, name)?;
        let whole = path_under(alloc, part.as_bytes(), option)?;
        let model = self.answers.model();
        Ok(object_for(model.ini.lines(), model.chain.as_slice(), whole.as_bytes()))
    }
}
