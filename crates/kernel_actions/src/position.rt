//! A moment of a run to which it can go back.

ghost use Rattle.std.specs.Prelude.{◌≡◌};

use event_set::set::EventSet;
use model_injections::injection::InjectionTurn;
use run_semantics::routes::Transmission;
use run_semantics::traces::Instance;
use sim_time::SimTime;
use sqlite_items::Items;

/// How long the lists of a world were that only grow while a run goes on.
#[derive(Clone, Copy, Drop)]
pub struct Lengths {
    pub records: usize,
    pub dead: usize,
    pub started: usize,
    pub finished: usize,
    pub changes: usize,
    pub emissions: usize,
    pub scalars: usize,
    pub questions: usize,
}

/// The world of a run after an event, which is small: of what only grows while the run goes on it
/// has the length, and the run itself has the rest.
pub struct Position {
    pub clock: SimTime,
    /// How many events were executed.
    pub count: u64,
    pub lengths: Lengths,
    /// The events to come.
    pub coming: EventSet,
    pub ended: bool,
    /// Which injection was delivered last.
    pub delivered: Option<InjectionTurn>,
    /// The last transmission that began at each gate.
    pub transmissions: Items<Transmission>,
    /// The modules that have boxes, by rising id, with the states of the boxes.
    pub modules: Items<Instance>,
}

// Written out, so that a crate which drops one need not prove what that does.
impl Drop for Position {
    fn drop(self) {
        let Position {
            clock: _,
            count: _,
            lengths: _,
            coming: _,
            ended: _,
            delivered: _,
            transmissions: _,
            modules: _,
        } = self;
    }
}

impl Position {
    /// How many events were executed.
    pub fn count(&self) -> u64
        ensures { result ≡ self.now.count }
    {
        self.count
    }

    /// The modules that have boxes in it, by rising id.
    pub fn modules(&self) -> &[Instance]
        ensures { result.now ≡ self.now.modules }
    {
        self.modules.as_slice()
    }
}
