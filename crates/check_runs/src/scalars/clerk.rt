//! Modules that record scalars, as examples.

ghost use Rattle.std.specs.Prelude.{◌≡◌, [], ◌∷◌, ◌++◌, IfOk, IfSome, OnOk};
ghost use Rattle.module_api.specs.Meaning.{IsFresh};
ghost use Rattle.module_api.specs.declared.call.CallReason.{CallReason};
ghost use Rattle.check_runs.specs.Clerk.{actions_of, office, office_module, only};

use module_api::call::Call;
use module_api::catalogue::Catalogue;
use module_api::name::Name;
use module_api::reply::{Action, Reply};
use module_api::simple_module::SimpleModule;
use module_parts::replies::{emit, nothing, set_timer};
use sim_time::SimTime;
use sim_values::NoMemory;
use sim_values::text::Text;
use sqlite_items::Items;
use std::alloc::Global;

/// A Clerk records a scalar as it begins, emits the greatest value twice and sets a timer; it
/// records a second scalar for a message, and a third at the end. A Scribe records a name that is
/// none.
#[derive(Drop)]
pub struct Clerk {
    is_clerk: bool,
}

/// Records a scalar of that name.
fn record(actions: &mut Items<Action>, name: &'static str, value: i64) -> Result<(), NoMemory>
    ensures { OnOk result (actions.new ≡ actions.old ++ Action.RecordScalar name.now value ∷ []) }
{
    actions.push(Action::RecordScalar(Name::word(name), value))?;
    Ok(())
}

impl Clerk {
    /// A fresh module of that kind, or none where it is neither of the two.
    #[tactic(auto, unfolding(crate::specs::Clerk::office))]
    pub fn of_kind(kind: &[u8]) -> Option<Clerk>
        ensures { IfSome result (λ clerk. IsFresh office kind.now (office_module clerk.is_clerk)) }
    {
        if kind == b"Clerk".as_slice() {
            return Some(Clerk { is_clerk: true });
        }
        if kind == b"Scribe".as_slice() {
            return Some(Clerk { is_clerk: false });
        }
        None
    }

    /// What it does where it begins.
    fn begin(&self, alloc: Global) -> Result<Reply, NoMemory>
        ensures { IfOk result (λ reply. reply
            ≡ record {
              reads = [];
              actions = actions_of self.now.is_clerk (CallReason.Initialize 0);
            }) }
    {
        let mut reply = nothing(alloc);
        if self.is_clerk {
            record(&mut reply.actions, "opened", -3)?;
            emit(&mut reply.actions, "noted", i64::MAX)?;
            emit(&mut reply.actions, "noted", i64::MAX)?;
            set_timer(&mut reply.actions, SimTime::zero(), 0)?;
        } else {
            record(&mut reply.actions, "a b", 1)?;
        }
        Ok(reply)
    }

    /// The one scalar that a Clerk records, where a Scribe does nothing.
    fn one(&self, alloc: Global, name: &'static str, value: i64) -> Result<Reply, NoMemory>
        ensures { IfOk result (λ reply. reply
            ≡ record { reads = []; actions = only self.now.is_clerk name.now value }) }
    {
        let mut reply = nothing(alloc);
        if self.is_clerk {
            record(&mut reply.actions, name, value)?;
        }
        Ok(reply)
    }
}

// Each method answers without a look at what the call is for: so a call of the wrong one is seen.
impl SimpleModule for Clerk {
    ghost meaning = { λ c. office_module c.is_clerk };

    fn kind(&self) -> &str {
        if self.is_clerk { "Clerk" } else { "Scribe" }
    }

    fn stages(&self) -> u8 {
        1
    }

    fn initialize(&mut self, alloc: Global, _call: &Call) -> Result<Reply, NoMemory> {
        self.begin(alloc)
    }

    fn handle_message(&mut self, alloc: Global, _call: &Call) -> Result<Reply, NoMemory> {
        self.one(alloc, "heard", 1)
    }

    fn finish(&mut self, alloc: Global, _call: &Call) -> Result<Reply, NoMemory> {
        self.one(alloc, "x", 7)
    }

    fn save(&self, alloc: Global) -> Result<Text, NoMemory> {
        Ok(Text::empty(alloc))
    }

    fn load(&mut self, _alloc: Global, _state: &[u8]) -> Result<(), NoMemory> {
        Ok(())
    }
}

/// The catalogue that knows these two.
pub struct Office;

impl Catalogue for Office {
    ghost use Rattle.check_runs.specs.Clerk.{office, office_lawful};

    ghost behaviour = { office };

    ghost lawful = { office_lawful };
}
