//! What holds of the definitions themselves.

ghost use Rattle.param_eval.specs.Laws.{IsExact, IsFound, IsLeft, IsOutcome, IsRoundedDown};

/// A quotient, times what was divided by, is what was divided.
pub fn is_exact()
    ensures { IsExact }
{}

/// What is some number, times what is divided by, has that number as quotient.
pub fn is_found()
    ensures { IsFound }
{}

/// What division leaves.
pub fn is_left()
    ensures { IsLeft }
{}

/// A shift to the right rounds down.
pub fn is_rounded_down()
    ensures { IsRoundedDown }
{}

/// The value of an expression is what its asking comes to where each reference has an answer: one
/// is always there.
pub fn is_outcome()
    ensures { IsOutcome }
{}
