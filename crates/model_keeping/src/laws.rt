//! The law of values that a model keeps. The function does nothing: its contract is the law.

ghost use Rattle.model_keeping.specs.Keeping.{KeptIsNew};

/// Where of the values that a model keeps those at some places are given up, with all that rest on
/// them, and among these places are all those of keys of whose path the edited ini text says something
/// else, what is left are values of the model as edited; and nothing else is given up.
pub fn kept_is_new()
    ensures { KeptIsNew }
{}
