//! What modules are called for.

ghost use Rattle.std.specs.Prelude.{◌≡◌};
ghost use Rattle.run_semantics.specs.Replies.{is_allowed, is_last_action, is_noted};

use module_api::reply::Action;

/// What a module is called for: it decides which actions its reply may have, and whether what it
/// read is noted.
#[derive(Clone, Copy, PartialEq, Eq)]
pub enum Occasion {
    /// An event: all actions are allowed, and what a reply read is noted.
    Event,
    /// The deletion of the module within an event: what it read is noted, and only what neither makes
    /// events nor changes modules is allowed.
    Deletion,
    /// The end of the run, which belongs to no event: nothing is noted, and only what neither makes
    /// events nor changes modules is allowed.
    End,
}

/// Whether what a reply read is noted.
pub fn is_noted(occasion: Occasion) -> bool
    ensures { result ≡ is_noted occasion }
{
    match occasion {
        Occasion::Event | Occasion::Deletion => true,
        Occasion::End => false,
    }
}

/// Whether an action is for a reply to the end.
fn is_last_action(action: &Action) -> bool
    ensures { result ≡ is_last_action action.now }
{
    match action {
        Action::Cancel(_) | Action::Emit(_, _) | Action::RecordScalar(_, _) | Action::Fail(_) => {
            true
        }
        Action::Send(_, _)
        | Action::SendDelayed(_, _, _)
        | Action::SendDirect(_, _, _)
        | Action::ScheduleAt(_)
        | Action::ScheduleAfter(_)
        | Action::Create(_)
        | Action::Delete(_, _)
        | Action::Connect(_, _, _)
        | Action::Disconnect(_)
        | Action::End => false,
    }
}

/// Whether a reply may have that action.
pub fn is_allowed(occasion: Occasion, action: &Action) -> bool
    ensures { result ≡ is_allowed occasion action.now }
{
    match occasion {
        Occasion::Event => true,
        Occasion::Deletion | Occasion::End => is_last_action(action),
    }
}
