//! Laws of tables. The functions do nothing: their contracts are the laws.

ghost use Rattle.param_following.specs.Edits.{IsClosed};
ghost use Rattle.param_following.specs.Following.{Rules};
ghost use Rattle.param_following.specs.Laws.{IsExact};
ghost use Rattle.param_engine.specs.Tables.{Entries, known, IsKept};
ghost use Rattle.param_engine.specs.Edits.{IsSorted, AfterEdit};

/// In a table that may be kept each value is what its asking comes to by the values of the table.
pub fn kept_is_closed<K, V, F>()
    ensures { (rules : Rules K V F) (es : Entries K V) → IsExact rules → IsKept rules es
        → IsClosed rules (known rules.same es) }
{}

/// In a table that may be kept each key stands after those that it asked for.
pub fn kept_is_sorted<K, V, F>()
    ensures { (rules : Rules K V F) (es : Entries K V) → IsExact rules → IsKept rules es
        → IsSorted rules es }
{}

/// After an edit one pass over such a table, from its front to its end, chooses what to keep: it is
/// right in the new model and rests on kept values alone, and each key that it gives up rests on a
/// changed one.
pub fn after_edit<K, V, F>()
    ensures { (before after : Rules K V F) (es : Entries K V) → IsExact before → IsKept before es
        → AfterEdit before after es }
{}
