//! Modules that are created are started before anything else reaches them. The functions do nothing:
//! their contracts are the laws.

ghost use Rattle.std.specs.Prelude.{◌≡◌, ◌⊎◌, ℕ, List, None};
ghost use Rattle.module_api.specs.Behaviour.{Behaviour};
ghost use Rattle.model_questions.specs.Answers.{Answers};
ghost use Rattle.event_set.specs.Events.{last_started};
ghost use Rattle.event_set.specs.declared.pending.Pending.{Pending};
ghost use Rattle.run_semantics.specs.Laws.{Each, IsAmong};
ghost use Rattle.run_semantics.specs.Run.{after, world_at};
ghost use Rattle.run_semantics.specs.Upcoming.{Comes, upcoming};
ghost use Rattle.run_semantics.specs.World.{World, live_of};
ghost use Rattle.start_order.specs.Priorities.{AnyPriority, IsShort, RepliesWith};
ghost use Rattle.start_order.specs.Waiting.{Awaits, IsUnbroken};

/// No timer, message or injection reaches a module before its start: at each moment of a run that no
/// fault ended, of any model and catalogue, what comes next is a start, or is for a module that was
/// started.
///
/// The definitions take any whole number as a priority, and an event of a lesser one than the least
/// of 16 bits would come before a start. Of the event that comes (`event`) it is said that it has no
/// such priority, which is so of each in code, where priorities are `i16`; or (`catalogue`) that
/// injections have none, and no reply to a call with none; or (`replies`) that no reply has, whatever
/// the call is.
pub fn starts_come_first()
    ensures event { (b : Behaviour) (m : Answers) (n : ℕ) → IsUnbroken (after b m n)
        → let w = world_at (after b m n) in (u : World) (p : Pending) (rest : List Pending)
        → upcoming m w ≡ Comes u p rest → last_started p.what ≡ None → IsShort p.priority
        → IsAmong p.id w.started }
    ensures catalogue { (b : Behaviour) → RepliesWith IsShort IsShort b → (m : Answers)
        → Each (λ i. IsShort i.due.priority) m.injections → (n : ℕ) → IsUnbroken (after b m n)
        → let w = world_at (after b m n) in (u : World) (p : Pending) (rest : List Pending)
        → upcoming m w ≡ Comes u p rest → last_started p.what ≡ None → IsAmong p.id w.started }
    ensures replies { (b : Behaviour) → RepliesWith AnyPriority IsShort b → (m : Answers) (n : ℕ)
        → IsUnbroken (after b m n)
        → let w = world_at (after b m n) in (u : World) (p : Pending) (rest : List Pending)
        → upcoming m w ≡ Comes u p rest → last_started p.what ≡ None → IsAmong p.id w.started }
{}

/// At each moment of such a run every module that lives was started, or waits for its start: an event
/// to come, of the present time, which comes before all that is to come for the module and is no
/// start, but for what has a lesser priority than the least of 16 bits.
pub fn who_lives_was_started_or_waits()
    ensures { (b : Behaviour) (m : Answers) (n : ℕ) → IsUnbroken (after b m n)
        → let w = world_at (after b m n) in
        Each (λ id. IsAmong id w.started ⊎ Awaits w id) (live_of w) }
{}
