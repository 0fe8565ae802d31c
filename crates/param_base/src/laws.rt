//! Laws of values over a base. The functions do nothing: their contracts are the laws.

ghost use Rattle.param_following.specs.Following.{Rules};
ghost use Rattle.param_base.specs.Over.{OverABase};
ghost use Rattle.param_base.specs.Spots.{OwnIsValue};

/// Over a base that is right and closed each key has the value or the fault that it has without it,
/// wherever the bound in the definition of a value is enough for it without the base.
pub fn over_is_same<K, V, F>()
    ensures { (rules : Rules K V F) → OverABase rules }
{}

/// What a table over a base knows is the value, where both together have no more than 2^64 places.
pub fn own_is_value<K, V, F>()
    ensures { (rules : Rules K V F) → OwnIsValue rules }
{}
