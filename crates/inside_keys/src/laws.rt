//! What holds of the definitions themselves. The functions do nothing: their contracts are the
//! laws.

ghost use Rattle.inside_keys.specs.ChannelExamples.{AreWorkedToo};
ghost use Rattle.inside_keys.specs.CreatedExamples.{AreWorkedCreations};
ghost use Rattle.inside_keys.specs.Examples.{AreWorked};

/// Insides of small networks, worked out by hand.
pub fn worked()
    ensures { AreWorked }
{}

/// Channels without parameters, types that nothing names, and gates that stay free, worked out by
/// hand.
pub fn worked_channels()
    ensures { AreWorkedToo }
{}

/// Modules that were created while a model ran, worked out by hand: their types, what their plans
/// give them, and what is refused.
pub fn worked_creations()
    ensures { AreWorkedCreations }
{}
