//! What calls show of modules, kept by the ids of the modules, so that it is found once for each.
#![tactic(auto)]

ghost use Rattle.std.specs.Prelude.{◌≡◌, ◌++◌, ◌⊎◌, [], List, true, IfOk};
ghost use Rattle.model_questions.specs.Answers as run;
ghost use Rattle.model_questions.specs.declared.record.Record.{Record};
ghost use Rattle.module_tree.specs.Boxes.{with_box, without_box};
ghost use Rattle.kernel_call_views.specs.declared.CallViews.{CallViews};
ghost use Rattle.kernel_call_views.specs.Tables.{entries_in, is_whole, shown_of, AreShown, IsShown};

use model_questions::record::{MAX_NESTING, Record, path_of, record_at};
use module_api::call::{Gate, Parameter};
use module_tree::Tree;
use run_answers::Answers;
use sim_values::NoMemory;
use sim_values::text::Text;
use sqlite_items::Items;
use std::alloc::Global;

/// What calls show of a module that does not change from one call to the next.
#[derive(Drop)]
pub struct CallView {
    /// The module's full path.
    pub path: Text,
    /// All of its own parameters, in the order of their declaration.
    pub parameters: Items<Parameter>,
    /// All of its own gates, in the order of their declaration.
    pub gates: Items<Gate>,
}

/// What calls show of the module of that id, found anew.
pub fn shown_of<A: Answers>(
    alloc: Global,
    model: &mut A,
    records: &[Record],
    id: u32,
) -> Result<CallView, NoMemory>
    ensures { IfOk result (λ shown. shown ≡ shown_of A.answers records.now id) }
{
    Ok(CallView {
        path: path_of(alloc, records, id)?,
        parameters: model.parameters_of(alloc, records, id)?,
        gates: model.gates_of(alloc, records, id)?,
    })
}

/// Whether a module was created, and all that are around it: then calls show the same of it when
/// more modules are created.
#[tactic(auto, using(crate::proofs::Showing::whole_lasts))]
fn lasts(records: &[Record], id: u32) -> bool
    ensures { result ≡ true → (m : run.Answers)
        → IsShown m records.now id (shown_of m records.now id) }
{
    is_whole(MAX_NESTING, records, id)
}

/// Whether a module was created, and those around it, so many at most.
fn is_whole(depth: u32, records: &[Record], id: u32) -> bool
    ensures { result ≡ is_whole depth records.now id }
{
    if depth == 0 {
        return true;
    }
    match record_at(records, id) {
        Some(record) => record.parent == 0 || is_whole(depth - 1, records, record.parent),
        None => false,
    }
}

/// What calls show of a module, lent for a call.
#[derive(Drop)]
pub struct Lent {
    pub shown: CallView,
    /// It stays the same when more modules are created.
    pub lasts: bool,
}

/// What calls show of some modules of a run. Each entry stands at the number of its module's id, so
/// none is searched for.
#[derive(Drop)]
pub struct CallViews {
    entries: Tree<CallView>,
}

impl CallViews {
    /// A table without entries, which takes no memory.
    pub fn new(alloc: Global) -> CallViews
        ensures none { entries_in result ≡ [] }
        ensures shown { (m : run.Answers) (records : List Record) → AreShown m records result }
    {
        CallViews {
            entries: Tree::new(alloc),
        }
    }

    /// What calls show of the module of that id. The entry is moved out of the table; where there
    /// is none, it is found, and whether it lasts.
    pub fn take<A: Answers>(
        &mut self,
        alloc: Global,
        model: &mut A,
        records: &[Record],
        id: u32,
    ) -> Result<Lent, NoMemory>
        requires { AreShown A.answers records.now self.old }
        ensures found { IfOk result (λ lent. lent.shown ≡ shown_of A.answers records.now id) }
        ensures lasts { IfOk result (λ lent. lent.lasts ≡ true
            → IsShown A.answers records.now id (shown_of A.answers records.now id)) }
        ensures rest { entries_in self.new ≡ without_box id (entries_in self.old) }
        ensures shown { AreShown A.answers records.now self.new }
    {
        match self.entries.take(id) {
            Some(shown) => Ok(Lent { shown, lasts: true }),
            None => {
                let shown = shown_of(alloc, model, records, id)?;
                let lasts = lasts(records, id);
                Ok(Lent { shown, lasts })
            }
        }
    }

    /// Puts what was taken out in again, if it lasts. Where there is no memory for its place, the
    /// table goes without it.
    pub fn put_back(&mut self, lasts: bool, id: u32, shown: CallView)
        ensures entries { let rest = without_box id (entries_in self.old) in
            (entries_in self.new ≡ rest) ⊎ (entries_in self.new ≡ with_box id shown rest) }
        ensures shown { (m : run.Answers) (records : List Record) → AreShown m records self.old
            → (lasts ≡ true → IsShown m records id shown) → AreShown m records self.new }
    {
        self.entries.take(id);
        if lasts {
            let _ = self.entries.place(id, shown);
        }
    }
}

/// A table stays right when more modules are created. The function does nothing: its contract is
/// the law.
#[tactic(auto, using(crate::proofs::Showing::shown_on))]
pub fn tables_stay_right()
    ensures { (m : run.Answers) (records more : List Record) (table : CallViews)
        → AreShown m records table → AreShown m (records ++ more) table }
{}
