//! What holds of the definitions themselves. The functions do nothing: their contracts are the
//! laws.

ghost use Rattle.model_settings.specs.Created.{NoneIsAsBefore};
ghost use Rattle.model_settings.specs.Standings.{ChildrenStand};

/// A submodule stands in its parent, under its name and its index: its path says so.
pub fn children_stand()
    ensures { ChildrenStand }
{}

/// Where no module was created while the model ran, values rest on what the model says.
pub fn none_is_as_before()
    ensures { NoneIsAsBefore }
{}
