//! A module of a run, as the result files tell of it.

ghost use Rattle.std.specs.Prelude.{◌≡◌, IfOk};
ghost use Rattle.model_answers.specs.Answering.{type_at};
ghost use Rattle.model_answers.specs.Keyed.{lines_of};
ghost use Rattle.ned_types.specs.Flat.{statistics_of};

use crate::recorded_model::RecordedModel;
use model_questions::record::Record;
use ned_trees::declarations::Statistic;
use ned_types::flat::statistics_of;
use run_semantics::traces::Emission;
use sim_values::NoMemory;
use sqlite_items::Items;
use std::alloc::Global;

/// A module of a run, with all that decides what its statistics have in the result files.
#[derive(Clone, Copy)]
pub(crate) struct Member<'r, 'a, 'm> {
    /// What the texts say, and what it answers: the modules' types, and the options.
    pub model: &'r RecordedModel<'a, 'm>,
    /// The modules of the run.
    pub records: &'r [Record],
    /// What they emitted.
    pub emissions: &'r [Emission],
    /// The places of those emissions that come from the subtree of this module, none where it is
    /// not wanted.
    pub heard: &'r [usize],
    /// Its id.
    pub id: u32,
}

impl Member<'_, '_, '_> {
    /// The statistics of its type, in their order.
    pub(crate) fn statistics(&self, alloc: Global) -> Result<Items<Statistic>, NoMemory>
        ensures { IfOk result (λ statistics. statistics ≡ statistics_of
            (lines_of (type_at self.now.model.now self.now.records.now self.now.id))) }
    {
        match self.model.type_at(alloc, self.records, self.id)? {
            Some(declared) => Ok(statistics_of(alloc, declared.lines.as_slice())?),
            None => Ok(Items::new(alloc)),
        }
    }
}
