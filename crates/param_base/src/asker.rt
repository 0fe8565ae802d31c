//! An asker over a base of values that are known.

ghost use Rattle.std.specs.Prelude.{◌≡◌, IfOk};
ghost use Rattle.param_base.specs.Asking.{known_by, left_over, resumed_over};
ghost use Rattle.param_base.specs.Over.{over};
ghost use Rattle.param_engine.specs.Working.{ruled};
ghost use Rattle.param_keeping.specs.Stores.{store_of, IsShaped};

use param_engine::asker::Asker;
use param_engine::turn::EngineStep;
use param_keeping::table::Kept;
use sim_values::NoMemory;
use std::alloc::Global;

/// An asker whose values can be copied.
pub trait CopyingAsker: Asker {
    /// A copy of a value. Answers `NoMemory` if memory runs out.
    fn copied(&self, alloc: Global, value: &Self::Value) -> Result<Self::Value, NoMemory>
        ensures { IfOk result (λ copied. copied ≡ value.now) };
}

/// An asker over a base: of a key that the base knows, by these flags, the answer is a copy of its
/// value, and nothing is asked. Of any other it asks as the asker does.
pub struct OverBase<'a, A: CopyingAsker> {
    pub(crate) asker: &'a A,
    pub(crate) kept: &'a Kept<A::Key, A::Value>,
    pub(crate) live: &'a [bool],
    ghost shaped: { IsShaped A.Key.eq (store_of kept.now live.now) },
}

impl<'a, A: CopyingAsker> Drop for OverBase<'a, A> {
    fn drop(self) {
        let OverBase {
            asker: _,
            kept: _,
            live: _,
        } = self;
    }
}

impl<'a, A: CopyingAsker> Asker for OverBase<'a, A> {
    type Key = A::Key;

    type Value = A::Value;

    type Fault = A::Fault;

    /// None of a key that the base knows.
    type Evaluation = Option<A::Evaluation>;

    ghost asking = { λ o. (over (known_by A.Key.eq o.kept.now o.live.now)
        (ruled A.Key.eq (A.asking o.asker.now) (A.circle o.asker.now))).asking };

    ghost circle = { λ o. A.circle o.asker.now };

    ghost resumed = { λ o. resumed_over (A.circle o.asker.now) (A.resumed o.asker.now) };

    ghost left = { left_over A.left };

    fn circle(&self) -> A::Fault {
        self.asker.circle()
    }

    fn start(
        &self,
        alloc: Global,
        key: &A::Key,
    ) -> Result<
        (
            Option<A::Evaluation>,
            EngineStep<A::Key, A::Value, A::Fault>,
        ),
        NoMemory,
    > {
        if let Some((_, value)) = self.kept.find(key, self.live) {
            let value = self.asker.copied(alloc, value)?;
            return Ok((None, EngineStep::Done(value)));
        }
        let (evaluation, turn) = self.asker.start(alloc, key)?;
        Ok((Some(evaluation), turn))
    }

    fn go_on(
        &self,
        alloc: Global,
        evaluation: &mut Option<A::Evaluation>,
        value: &A::Value,
    ) -> Result<EngineStep<A::Key, A::Value, A::Fault>, NoMemory> {
        match evaluation {
            Some(begun) => self.asker.go_on(alloc, begun, value),
            None => Ok(EngineStep::Fault(self.asker.circle())),
        }
    }

    ghost exact = { A.exact };
}
