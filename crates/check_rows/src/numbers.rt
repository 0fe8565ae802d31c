//! Numbers that rest on other numbers.

ghost use Rattle.std.specs.Prelude.{◌≡◌};
ghost use Rattle.check_rows.specs.declared.numbers.Fault.TheVariants as fault;
ghost use Rattle.check_rows.specs.Numbers.{sum, asked_of, goes_on, weight, same_is};

use param_engine::asker::Asker;
use param_engine::turn::EngineStep;
use sim_values::NoMemory;
use std::alloc::Global;

/// What the number of a key is.
#[derive(Clone, Copy)]
pub enum Rule {
    Number(u64),
    /// One more than that of this key.
    Next(usize),
    /// The sum of those of these two keys.
    Sum(usize, usize),
    Broken,
}

/// Why a key has no number.
#[derive(Clone, Copy, Debug)]
pub enum Fault {
    Broken,
    /// No rule is for it.
    Missing,
    /// It is 2^64 or more.
    Overflow,
    /// It rests on itself.
    Circle,
}

/// A rule for each key.
#[derive(Clone, Copy)]
pub struct Numbers<'m> {
    pub rules: &'m [Rule],
}

/// A key that waits for a number.
#[derive(Clone, Copy)]
pub enum Evaluation<'m> {
    /// One more than that.
    Next,
    /// That, and the number of this key.
    First(&'m usize),
    /// That, and this number.
    Second(u64),
    /// It has come to its end.
    Over,
}

/// The sum of two numbers.
fn sum(left: u64, right: u64) -> EngineStep<usize, u64, Fault>
    ensures { result ≡ sum left right }
{
    match left.checked_add(right) {
        Some(number) => EngineStep::Done(number),
        None => EngineStep::Fault(Fault::Overflow),
    }
}

impl<'m> Asker for Numbers<'m> {
    type Key = usize;

    type Value = u64;

    type Fault = Fault;

    type Evaluation = Evaluation<'m>;

    ghost asking = { λ numbers. asked_of numbers.rules.now };

    ghost circle = { λ numbers. fault.Circle };

    ghost resumed = { λ numbers. goes_on };

    ghost left = { weight };

    fn circle(&self) -> Fault {
        Fault::Circle
    }

    fn start(
        &self,
        _alloc: Global,
        key: &usize,
    ) -> Result<(Evaluation<'m>, EngineStep<usize, u64, Fault>), NoMemory> {
        Ok(match self.rules.get(*key) {
            None => (Evaluation::Over, EngineStep::Fault(Fault::Missing)),
            Some(Rule::Number(number)) => (Evaluation::Over, EngineStep::Done(*number)),
            Some(Rule::Next(before)) => (Evaluation::Next, EngineStep::Ask(*before)),
            Some(Rule::Sum(first, second)) => (Evaluation::First(second), EngineStep::Ask(*first)),
            Some(Rule::Broken) => (Evaluation::Over, EngineStep::Fault(Fault::Broken)),
        })
    }

    fn go_on(
        &self,
        _alloc: Global,
        evaluation: &mut Evaluation<'m>,
        value: &u64,
    ) -> Result<EngineStep<usize, u64, Fault>, NoMemory> {
        match *evaluation {
            Evaluation::Next => {
                *evaluation = Evaluation::Over;
                Ok(sum(*value, 1))
            }
            Evaluation::First(second) => {
                *evaluation = Evaluation::Second(*value);
                Ok(EngineStep::Ask(*second))
            }
            Evaluation::Second(first) => {
                *evaluation = Evaluation::Over;
                Ok(sum(first, *value))
            }
            Evaluation::Over => Ok(EngineStep::Done(*value)),
        }
    }

    ghost exact = { same_is };
}
