//! What comes next in a run, and the looks that are taken to know it.

ghost use Rattle.std.specs.Prelude.{◌≡◌, Some, [], ◌∷◌, ◌++◌, OnOk, OnErr, drop, slice_get};
ghost use Rattle.std.specs.Option.{option_copied};
ghost use Rattle.model_injections.specs.Injections.{turn_of};

use event_set::pending::Pending;
use model_injections::injection::{Due, Injection, InjectionTurn};
use sim_values::NoMemory;
use sqlite_items::Items;
use std::alloc::Global;
use std::marker::Model;

/// What comes next in a run.
#[derive(Drop)]
pub enum Next {
    /// The first of the events to come, where there is one.
    First,
    /// This event, which an injection becomes.
    Arrival(Pending),
    /// Nothing.
    Nothing,
}

/// A look at the injections: when the first event to come is due, where there is one, and which
/// injection was delivered last.
#[derive(Clone, Copy)]
pub struct LookedAt {
    pub due: Option<Due>,
    pub last: Option<InjectionTurn>,
}

/// Looks in the order in which they were taken, which contracts see as their list. The first one
/// takes no memory, and mostly there is one.
#[derive(Drop)]
pub struct LookList {
    first: Option<LookedAt>,
    /// Those after the first one, where there is one.
    later: Items<LookedAt>,
}

impl Model for LookList {
    ghost use Rattle.std.specs.Prelude.{List};
    ghost use Rattle.kernel_actions.specs.declared.looks.LookedAt.{LookedAt};
    ghost use Rattle.kernel_actions.specs.Looks.{looks_in};

    ghost Value = { List LookedAt };

    ghost view = { λ l. looks_in l.first l.later };
}

impl LookList {
    /// None was taken.
    pub fn new(alloc: Global) -> LookList
        ensures { result ≡ [] }
    {
        LookList {
            first: None,
            later: Items::new(alloc),
        }
    }

    /// One more is taken.
    pub fn push(&mut self, alloc: Global, look: LookedAt) -> Result<(), NoMemory>
        ensures ok { OnOk result (self.new ≡ self.old ++ look ∷ []) }
        ensures err { OnErr result (self.new ≡ self.old) }
    {
        if self.first.is_none() {
            self.first = Some(look);
            self.later = Items::new(alloc);
            return Ok(());
        }
        self.later.push(look)?;
        Ok(())
    }

    /// The first one.
    pub fn first(&self) -> Option<&LookedAt>
        ensures { option_copied result ≡ slice_get self.now 0 }
    {
        self.first.as_ref()
    }

    /// Those after the first one.
    pub fn later(&self) -> &[LookedAt]
        ensures { result.now ≡ drop 1 self.now }
    {
        match &self.first {
            Some(_) => self.later.as_slice(),
            None => &[],
        }
    }
}

/// The looks that were taken to know what comes next, and which injection counts as delivered
/// since. Nothing of it is noted in a world before an event begins.
#[derive(Drop)]
pub struct Look {
    pub delivered: Option<InjectionTurn>,
    pub asked: LookList,
}

impl Look {
    /// Counts an injection as delivered, with all that go before it.
    pub fn deliver(&mut self, injection: &Injection)
        ensures delivered { self.new.delivered ≡ Some (turn_of injection.now) }
        ensures asked { self.new.asked ≡ self.old.asked }
    {
        self.delivered = Some(injection.turn());
    }
}
