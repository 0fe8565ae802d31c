//! Laws of edits of the ini text. The functions do nothing: their contracts are the laws.

ghost use Rattle.inside_edits.specs.Entries.{OnlyFirstMatchesChange, OnlyMatchedPathsChange};
ghost use Rattle.inside_edits.specs.Kept.{KeptOverIniEdit};
ghost use Rattle.inside_edits.specs.Reads.{AsksAsBefore};
ghost use Rattle.inside_edits.specs.Standing.{InsideStands};

/// A key asks as before where another ini text says the same of the one path that it reads.
pub fn asks_as_before()
    ensures { AsksAsBefore }
{}

/// Where entries are taken out of an ini text and others put in their place, only paths that one of
/// these matches are told something else; and of those none that an entry before them matches.
pub fn only_first_matches_change()
    ensures matched { OnlyMatchedPathsChange }
    ensures first { OnlyFirstMatchesChange }
{}

/// Where the values at some places are given up, among them all those of keys of whose path the edited
/// ini text says something else, what is left may be kept under the edited text; and each value that
/// is given up rests on one at these places.
pub fn kept_over_ini_edit()
    ensures { KeptOverIniEdit }
{}

/// The inside of a module is what it was, where of each value that it asked for the edited text gives
/// the same, or, of a parameter of an inner module, another one.
pub fn inside_stands()
    ensures { InsideStands }
{}
