//! Who knows what each key asks.

ghost use Rattle.std.specs.Prelude.{◌≡◌, ℕ, ◌+◌, ◌≤◌, true, IfOk};
ghost use Rattle.param_following.specs.Asking.{Asking};
ghost use Rattle.param_engine.specs.Turns.{came_to, asks};

use crate::turn::EngineStep;
use sim_values::NoMemory;
use std::alloc::Global;
use std::hash::Hash;

/// Who knows what each key asks, and evaluates one key at a time. What it evaluates stops where it
/// needs the value of another key, and goes on when it is given that value.
pub trait Asker {
    /// What has a value.
    type Key: Eq + Hash + Drop;

    type Value: Drop;

    /// Why there is no value.
    type Fault: Drop;

    /// A key that is being evaluated.
    type Evaluation: Drop;

    /// What each key asks.
    ghost asking: { Self → Self.Key → Asking Self.Key Self.Value Self.Fault Self.Value };

    /// The fault of a value that rests on itself.
    ghost circle: { Self → Self.Fault };

    /// How an evaluation that waits for a value goes on with it.
    ghost resumed: { Self → Self.Evaluation → Self.Value
        → Asking Self.Key Self.Value Self.Fault Self.Value };

    /// How often an evaluation asks at most, from where it is.
    ghost left: { Self.Evaluation → ℕ };

    /// The fault of a value that rests on itself.
    fn circle(&self) -> Self::Fault
        ensures { result ≡ circle self.now };

    /// Begins with a key.
    fn start(
        &self,
        alloc: Global,
        key: &Self::Key,
    ) -> Result<
        (
            Self::Evaluation,
            EngineStep<Self::Key, Self::Value, Self::Fault>,
        ),
        NoMemory,
    >
        ensures { IfOk result
            (λ begun. came_to (resumed self.now begun.0) begun.1 ≡ asking self.now key.now) };

    /// Goes on with the value of the key that it asked for.
    fn go_on(
        &self,
        alloc: Global,
        evaluation: &mut Self::Evaluation,
        value: &Self::Value,
    ) -> Result<EngineStep<Self::Key, Self::Value, Self::Fault>, NoMemory>
        ensures turn { IfOk result (λ turn. came_to (resumed self.now evaluation.new) turn
            ≡ resumed self.now evaluation.old value.now) }
        // It doesn't ask without end.
        ensures less { IfOk result
            (λ turn. asks turn + left evaluation.new ≤ left evaluation.old) };

    /// Keys that are equal are one.
    ghost exact: { (a b : Self.Key) → Self.Key.eq a b ≡ true → a ≡ b };
}
