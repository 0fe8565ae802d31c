//! Laws of kept values. The functions do nothing: their contracts are the laws.

ghost use Rattle.param_following.specs.Asking.{Asking};
ghost use Rattle.param_following.specs.Following.{Rules};
ghost use Rattle.param_keeping.specs.Added.{FoundIsKept, SameIsKept, StepsArePlaces};
ghost use Rattle.param_keeping.specs.Laws.{KeptOverEdit};

/// What is kept over an edit is the new model's, and what is given up rests on a key that asks
/// otherwise.
pub fn kept_over_edit<K, V, F>()
    ensures { (rules : Rules K V F) (asking : K → Asking K V F V) → KeptOverEdit rules asking }
{}

/// A value that was found may be kept, at a new place or at that of a key whose value was given up.
pub fn found_is_kept<K, V, F>()
    ensures { (rules : Rules K V F) → FoundIsKept rules }
{}

/// A store that knows the same as one that may be kept may be kept as well: so after want of memory.
pub fn same_is_kept<K, V, F>()
    ensures { (rules : Rules K V F) → SameIsKept rules }
{}

/// Values that may be kept are found in as many steps as there are places.
pub fn steps_are_places<K, V, F>()
    ensures { (rules : Rules K V F) → StepsArePlaces rules }
{}
