//! A model, with the values that its insides rest on.

ghost use Rattle.model_data.specs.Models.{network_of};
ghost use Rattle.model_keeping.specs.Held.{AreRight, HoldsValues};
ghost use Rattle.model_keeping.specs.Keeping.{IsIniEdited};
ghost use Rattle.model_settings.specs.Standings.{setting_of};
ghost use Rattle.model_settings.specs.Tables.{AreTablesOf};
ghost use Rattle.same_entries.specs.Counted.{AreSaid};
ghost use Rattle.std.specs.Prelude.{◌≡◌, IfOk};

use crate::kept::kept_values;
use model_data::model::Model;
use model_keeping::held::HeldValues;
use model_keeping::values::ReadValues;
use model_settings::setting::ModelSetting;
use model_settings::tables::ModelTables;
use sim_values::NoMemory;
use std::alloc::Global;
use std::marker;
use std::rc::Rc;

/// A model, with what is looked up of it, and with the insides of its network and of all compound
/// modules in it, and the values that these rest on: types and parameters of modules, sizes,
/// channels. They are found once, and stand in one place, which counts the models that share them.
pub struct EvaluatedModel {
    model: Model,
    tables: ModelTables,
    values: Rc<HeldValues>,
}

// Written out, so that a crate which drops one need not prove what that does.
impl Drop for EvaluatedModel {
    fn drop(self) {
        let EvaluatedModel {
            model: _,
            tables: _,
            values: _,
        } = self;
    }
}

// Contracts see the model.
impl marker::Model for EvaluatedModel {
    ghost use Rattle.model_keeping.specs.Held.{HoldsValues};
    ghost use Rattle.model_settings.specs.Tables.{AreTablesOf};
    ghost use Rattle.model_data.specs.declared.model.Model.{Model};
    ghost use Rattle.model_data.specs.contracts.model.Model.{the_row};

    ghost Value = { Model };

    ghost coded = { the_row.coded };

    ghost view = { λ a. a.model };

    ghost invariant = { λ a. HoldsValues a.model a.values.value × AreTablesOf a.model a.tables };
}

/// The values, in a place that models can share.
fn shared(alloc: Global, values: HeldValues) -> Result<Rc<HeldValues>, NoMemory>
    ensures { IfOk result (λ place. place.value ≡ values) }
{
    match Rc::new(alloc, values) {
        Ok(place) => Ok(place),
        Err(failed) => Err(failed.into()),
    }
}

/// The insides of a model, and what they rest on.
fn values_of(alloc: Global, model: &Model, tables: &ModelTables) -> Result<Rc<HeldValues>, NoMemory>
    requires { AreTablesOf model.now tables.now }
    ensures { IfOk result (λ values. HoldsValues model.now values.value) }
{
    let setting = ModelSetting::new(model, tables);
    let found = kept_values(alloc, &setting)?;
    let values = HeldValues::new(alloc, &setting, found)?;
    shared(alloc, values)
}

impl EvaluatedModel {
    /// The model, with its insides and what they rest on.
    pub fn new(alloc: Global, model: Model) -> Result<EvaluatedModel, NoMemory>
        ensures { IfOk result (λ evaluated. evaluated ≡ model) }
    {
        let tables = ModelTables::new(alloc, &model)?;
        let values = values_of(alloc, &model, &tables)?;
        Ok(EvaluatedModel {
            model,
            tables,
            values,
        })
    }

    /// A model of the same types, with its insides and what they rest on. Of the types nothing is
    /// looked up anew.
    pub fn with_same_types(&self, alloc: Global, model: Model) -> Result<EvaluatedModel, NoMemory>
        requires { model.types ≡ self.now.types }
        ensures { IfOk result (λ evaluated. evaluated ≡ model) }
    {
        let tables = self.tables.with_entries_of(alloc, &model)?;
        let values = values_of(alloc, &model, &tables)?;
        Ok(EvaluatedModel {
            model,
            tables,
            values,
        })
    }

    /// A model whose values rest on the same, with the values of this one. No value is found anew.
    pub fn with_same_values(&self, alloc: Global, model: Model) -> Result<EvaluatedModel, NoMemory>
        requires types { model.types ≡ self.now.types }
        requires network { network_of model ≡ network_of self.now }
        requires same { setting_of model ≡ setting_of self.now }
        ensures { IfOk result (λ evaluated. evaluated ≡ model) }
    {
        let values = self.values.clone()?;
        let tables = self.tables.with_entries_of(alloc, &model)?;
        Ok(EvaluatedModel {
            model,
            tables,
            values,
        })
    }

    /// The values of a model that an edit of the ini text made of this one: those that the edit leaves,
    /// and those of its parameters that are found anew; or, where an inside may be another, all values,
    /// found anew.
    fn values_after(
        &self,
        alloc: Global,
        model: &Model,
        tables: &ModelTables,
    ) -> Result<Rc<HeldValues>, NoMemory>
        requires edited { IsIniEdited self.now model.now }
        requires before { AreSaid self.now.ini }
        requires after { AreSaid model.now.ini }
        requires tables { AreTablesOf model.now tables.now }
        ensures { IfOk result (λ values. HoldsValues model.now values.value) }
    {
        let before = self.setting();
        let after = ModelSetting::new(model, tables);
        match self.values.edited(alloc, &before, &after)? {
            Some(values) => shared(alloc, values),
            None => values_of(alloc, model, tables),
        }
    }

    /// A model of the same types and the same network, with those values of this one that the edit of
    /// the ini text leaves which made it of this one. Both ini texts are such that were read.
    pub fn with_edited_text(&self, alloc: Global, model: Model) -> Result<EvaluatedModel, NoMemory>
        requires edited { IsIniEdited self.now model }
        requires before { AreSaid self.now.ini }
        requires after { AreSaid model.ini }
        ensures { IfOk result (λ evaluated. evaluated ≡ model) }
    {
        let tables = self.tables.with_entries_of(alloc, &model)?;
        let values = self.values_after(alloc, &model, &tables)?;
        Ok(EvaluatedModel {
            model,
            tables,
            values,
        })
    }

    /// A model of the same types and the same entries, with all that this one has. It takes no
    /// memory, and fails only where too many models share it.
    pub fn with_same_text(&self, model: Model) -> Result<EvaluatedModel, NoMemory>
        requires types { model.types ≡ self.now.types }
        requires ini { model.ini ≡ self.now.ini }
        requires chain { model.chain ≡ self.now.chain }
        requires network { network_of model ≡ network_of self.now }
        requires same { setting_of model ≡ setting_of self.now }
        ensures { IfOk result (λ evaluated. evaluated ≡ model) }
    {
        let values = self.values.clone()?;
        let tables = self.tables.share()?;
        Ok(EvaluatedModel {
            model,
            tables,
            values,
        })
    }

    /// The model.
    pub fn model(&self) -> &Model
        ensures { result.now ≡ self.now }
    {
        &self.model
    }

    /// The values that are known.
    pub(crate) fn values(&self) -> ReadValues<'_>
        ensures { AreRight (setting_of self.now) result }
    {
        self.values.values()
    }

    /// What its values rest on, with what is looked up of it.
    pub fn setting(&self) -> ModelSetting<'_>
        ensures { result ≡ self.now }
    {
        ModelSetting::new(&self.model, &self.tables)
    }
}
