//! What holds of the definitions themselves. The functions do nothing: their contracts are the
//! laws.

ghost use Rattle.model_answers.specs.ClassExamples.{AreClasses};
ghost use Rattle.model_answers.specs.Kept.{WalkMeetsAll};
ghost use Rattle.model_answers.specs.Lines.{CreatedStand};

/// A module that was created while a run went on stands where its record says, and is what its plan
/// says, whatever else was created in its line.
pub fn created_stand()
    ensures { CreatedStand }
{}

/// Classes of modules that were created in a small network, and what is refused, worked out by
/// hand.
pub fn worked_classes()
    ensures { AreClasses }
{}

/// The walk over the compound modules of a network, whose insides are kept, meets all of them,
/// unless it comes to as many modules as it may.
pub fn walk_meets_all()
    ensures { WalkMeetsAll }
{}
