//! What holds of the values of keys. The functions do nothing: their contracts are the laws.

ghost use Rattle.std.specs.Prelude.{◌≡◌};
ghost use Rattle.param_engine.specs.Edits.{AfterEdit, IsSorted};
ghost use Rattle.param_engine.specs.Tables.{Entries, IsKept, known};
ghost use Rattle.param_following.specs.Edits.{IsClosed};
ghost use Rattle.inside_keys.specs.Keys.{same_key};
ghost use Rattle.inside_keys.specs.Settings.{ModuleRules};
ghost use Rattle.inside_keys.specs.Values.{rules_of};
ghost use Rattle.inside_keys.specs.declared.found.Found.{Found};
ghost use Rattle.inside_keys.specs.declared.key.Key.{Key};
ghost use Rattle.inside_run.specs.PlaceExamples.{ArePlaced};

/// An answer rests on the keys that it asked for, and on nothing else: in a table that may be kept
/// each value is what its asking comes to by the values of the table, and each key stands after
/// those that it asked for.
pub fn rests_on_what_was_asked()
    ensures closed { (s : ModuleRules) (es : Entries Key Found) → IsKept (rules_of s) es
        → IsClosed (rules_of s) (known same_key es) }
    ensures sorted { (s : ModuleRules) (es : Entries Key Found) → IsKept (rules_of s) es
        → IsSorted (rules_of s) es }
{}

/// After an edit of the model one pass over such a table chooses what to keep: it is right in the
/// new model and rests on kept values alone, and each key that it gives up rests on one that asks
/// otherwise.
pub fn after_edit()
    ensures { (before after : ModuleRules) (es : Entries Key Found) → IsKept (rules_of before) es
        → AfterEdit (rules_of before) (rules_of after) es }
{}

/// Modules that are there and that are not, worked out by hand.
pub fn worked_places()
    ensures { ArePlaced }
{}
