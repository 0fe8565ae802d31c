//! The model of a session with its values, and the model after an edit with those that stay, or with
//! others that are found anew.

ghost use Rattle.std.specs.Prelude.{◌≡◌, true, IfOk};
ghost use Rattle.edit_session.specs.Lasting.{touched_by, IsTouched};
ghost use Rattle.same_entries.specs.Counted.{AreSaid};
ghost use Rattle.model_agreement.specs.Models.{RestOnSame};

use model_agreement::models::{is_ini_edited, rest_on_same};
use model_answers::evaluated::EvaluatedModel;
use model_data::model::Model;
use model_edits::edit::Edit;
use sim_values::NoMemory;
use std::alloc::Global;
use std::marker;

/// What an edit changes of a model.
#[derive(Clone, Copy)]
pub(crate) enum Touched {
    /// Messages from outside alone, which no value of a module rests on.
    Messages,
    /// The ini text, which is then one that was read.
    Lines,
    /// The selected configuration.
    Selection,
    /// The NED files.
    Files,
}

/// What an edit changes.
pub(crate) fn touched_by(edit: &Edit) -> Touched
    ensures { result ≡ touched_by edit.now }
{
    match edit {
        Edit::Inject(_, _, _, _, _) | Edit::Withdraw(_) => Touched::Messages,
        Edit::InsertIni(_, _) | Edit::ReplaceIni(_, _) | Edit::RemoveIni(_) => Touched::Lines,
        Edit::SelectConfig(_) => Touched::Selection,
        Edit::ReplaceNed(_, _) | Edit::AddConnection(_, _, _) | Edit::RemoveConnection(_, _) => {
            Touched::Files
        }
    }
}

/// A model with its values, and whether its ini text is known to be one that was read.
pub struct SessionModel {
    evaluated: EvaluatedModel,
    is_read: bool,
}

// Written out, so that a crate which drops one need not prove what that does.
impl Drop for SessionModel {
    fn drop(self) {
        let SessionModel {
            evaluated: _,
            is_read: _,
        } = self;
    }
}

// Contracts see the model.
impl marker::Model for SessionModel {
    ghost use Rattle.std.specs.Prelude.{◌≡◌, true};
    ghost use Rattle.same_entries.specs.Counted.{AreSaid};
    ghost use Rattle.model_data.specs.declared.model.Model.{Model};
    ghost use Rattle.model_data.specs.contracts.model.Model.{the_row};

    ghost Value = { Model };

    ghost coded = { the_row.coded };

    ghost view = { λ a. a.evaluated };

    ghost invariant = { λ a. a.is_read ≡ true → AreSaid a.evaluated.ini };
}

/// The model after an edit, and whether the values of its modules rest on what they rested on.
pub(crate) struct Following {
    pub(crate) model: SessionModel,
    pub(crate) same: bool,
}

impl SessionModel {
    /// A model whose lines may be any.
    pub(crate) fn of_lines(evaluated: EvaluatedModel) -> SessionModel
        ensures { result ≡ evaluated }
    {
        SessionModel {
            evaluated,
            is_read: false,
        }
    }

    /// A model whose ini text was read.
    pub(crate) fn of_text(evaluated: EvaluatedModel) -> SessionModel
        requires { AreSaid evaluated.ini }
        ensures { result ≡ evaluated }
    {
        SessionModel {
            evaluated,
            is_read: true,
        }
    }

    /// The model.
    pub fn model(&self) -> &Model
        ensures { result.now ≡ self.now }
    {
        self.evaluated.model()
    }

    /// The model with its values.
    pub fn evaluated(&self) -> &EvaluatedModel
        ensures { result.now ≡ self.now }
    {
        &self.evaluated
    }

    /// Whether it is known that the values of the modules of a model of the same types rest on what
    /// they rest on here.
    fn is_same(&self, model: &Model) -> bool
        requires types { self.now.types ≡ model.now.types }
        requires read { AreSaid self.now.ini → AreSaid model.now.ini }
        ensures { result ≡ true → RestOnSame self.now model.now }
    {
        self.is_read && rest_on_same(self.evaluated.model(), model)
    }

    /// Whether it is known that the values of the modules of a model, of which an edit of this one
    /// changed so much, rest on what they rest on here.
    fn lasts(&self, model: &Model, touched: Touched) -> bool
        requires { IsTouched touched self.now model.now }
        ensures { result ≡ true → RestOnSame self.now model.now }
    {
        match touched {
            Touched::Messages => true,
            Touched::Lines => self.is_same(model),
            Touched::Selection => self.is_same(model),
            Touched::Files => false,
        }
    }

    /// Whether the ini text of a model, of which an edit of this one changed so much, is known to be
    /// one that was read.
    fn stays_read(&self, model: &Model, touched: Touched) -> bool
        requires { IsTouched touched self.now model.now }
        ensures { result ≡ true → AreSaid model.now.ini }
    {
        let _model = model;
        match touched {
            Touched::Lines => true,
            Touched::Messages | Touched::Selection | Touched::Files => self.is_read,
        }
    }

    /// A model, of which an edit of this one changed so much, with the values of this one, where
    /// they stay, or with those that are found for it.
    pub(crate) fn followed_by(
        &self,
        alloc: Global,
        model: Model,
        touched: Touched,
    ) -> Result<Following, NoMemory>
        requires { IsTouched touched self.now model }
        ensures model { IfOk result (λ following. following.model ≡ model) }
        ensures same { IfOk result
            (λ following. following.same ≡ true → RestOnSame self.now model) }
    {
        let same = self.lasts(&model, touched);
        let is_read = self.stays_read(&model, touched);
        let evaluated = self.with_values(alloc, model, touched, same, is_read)?;
        Ok(Following {
            model: SessionModel { evaluated, is_read },
            same,
        })
    }

    /// A model, of which an edit of this one changed so much, with what stays of this one. The
    /// values are found anew unless it is known that they stay.
    fn with_values(
        &self,
        alloc: Global,
        model: Model,
        touched: Touched,
        same: bool,
        is_read: bool,
    ) -> Result<EvaluatedModel, NoMemory>
        requires touched { IsTouched touched self.now model }
        requires same { same ≡ true → RestOnSame self.now model }
        requires read { is_read ≡ true → AreSaid model.ini }
        ensures { IfOk result (λ evaluated. evaluated ≡ model) }
    {
        match touched {
            Touched::Messages => self.evaluated.with_same_text(model),
            Touched::Lines => self.with_lines(alloc, model, same, is_read),
            Touched::Selection => self.with_lines(alloc, model, same, is_read),
            Touched::Files => EvaluatedModel::new(alloc, model),
        }
    }

    /// A model of the same types, which may have another ini text: with the values of this one that
    /// its edit leaves, where both texts are known to be such that were read and the network is the
    /// same.
    fn with_text(
        &self,
        alloc: Global,
        model: Model,
        is_read: bool,
    ) -> Result<EvaluatedModel, NoMemory>
        requires types { self.now.types ≡ model.types }
        requires read { is_read ≡ true → AreSaid model.ini }
        ensures { IfOk result (λ evaluated. evaluated ≡ model) }
    {
        if self.is_read && is_read && is_ini_edited(self.evaluated.model(), &model) {
            self.evaluated.with_edited_text(alloc, model)
        } else {
            self.evaluated.with_same_types(alloc, model)
        }
    }

    /// A model of the same types, with the values of this one, where they stay.
    fn with_lines(
        &self,
        alloc: Global,
        model: Model,
        same: bool,
        is_read: bool,
    ) -> Result<EvaluatedModel, NoMemory>
        requires types { self.now.types ≡ model.types }
        requires same { same ≡ true → RestOnSame self.now model }
        requires read { is_read ≡ true → AreSaid model.ini }
        ensures { IfOk result (λ evaluated. evaluated ≡ model) }
    {
        if same {
            self.evaluated.with_same_values(alloc, model)
        } else {
            self.with_text(alloc, model, is_read)
        }
    }
}
