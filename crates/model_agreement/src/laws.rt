//! The law of models that are alike but in some parameters. The function does nothing: its contract
//! is the law.

ghost use Rattle.model_agreement.specs.Changes.{SparedAreAlike};

/// Models that are alike but in some parameters of modules give the same answer to each question
/// about a parameter that is none of these, about a gate and about where it leads, of a module that
/// was built, and all around it.
pub fn spared_are_alike()
    ensures { SparedAreAlike }
{}
