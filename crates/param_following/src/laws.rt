//! Laws of values that rest on values. The functions do nothing: their contracts are the laws.

ghost use Rattle.std.specs.Prelude.{◌≡◌, Bool, true};
ghost use Rattle.param_following.specs.Edits.{EditKeeps};
ghost use Rattle.param_following.specs.Following.{Rules};
ghost use Rattle.param_following.specs.Laws.{IsInTurn, IsExact, CountIsNoMatter, EndsWithoutCircle};
ghost use Rattle.param_following.specs.Laws.{IsFollowedOrCircle, IsEnough};

/// Of askings one after the other it doesn't matter how they are grouped; and what comes of the
/// first decides what comes of both.
pub fn is_in_turn<K, V, F, R, S, T>()
    ensures { IsInTurn K V F R S T }
{}

/// The bound in the definition of a value decides nothing: what is found with it is found with each
/// greater one.
pub fn count_is_no_matter<K, V, F>()
    ensures { (rules : Rules K V F) → CountIsNoMatter rules }
{}

/// What following references alone finds, without the list of the keys that are being evaluated, is
/// the value.
pub fn ends_without_circle<K, V, F>()
    ensures { (rules : Rules K V F) → IsExact rules → EndsWithoutCircle rules }
{}

/// Each value, and each fault but a circle, is what following references alone finds. So a circle
/// is answered exactly where following comes to no end, unless something that is asked ends in that
/// very fault.
pub fn is_followed_or_circle<K, V, F>()
    ensures { (rules : Rules K V F) → IsFollowedOrCircle rules }
{}

/// Of so many keys, which ask for one another alone, the values are found with this bound.
pub fn is_enough<K, V, F>()
    ensures { (rules : Rules K V F) (inside : K → Bool) → IsEnough rules (λ k. inside k ≡ true) }
{}

/// After an edit: what one pass over the known values keeps is right in the new model and rests on
/// kept values alone, and each key that it gives up rests on a changed one.
pub fn edit_keeps<K, V, F>()
    ensures { (before after : Rules K V F) → ((a b : K) → before.same a b ≡ true → a ≡ b)
        → EditKeeps before after }
{}
