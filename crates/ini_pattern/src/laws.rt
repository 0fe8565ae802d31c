//! Laws of matching.

ghost use Rattle.std.specs.Prelude.{◌⊎◌};
ghost use Rattle.std.specs.Str.{chars};
ghost use Rattle.ini_pattern.specs.Laws.{PlainMatchesItself, TwoStarsMatchAll, StarStopsAtDot};
ghost use Rattle.ini_pattern.specs.Laws.{MatchesBeforeDot};
ghost use Rattle.ini_pattern.specs.Matches.{Matches};

use crate::pattern::Pattern;

/// A text without wildcards matches itself alone.
pub fn plain_matches_itself()
    ensures { PlainMatchesItself }
{}

/// `**` matches every name.
pub fn two_stars_match_all()
    ensures { TwoStarsMatchAll }
{}

/// `*` matches the names without a dot.
pub fn star_stops_at_dot()
    ensures { StarStopsAtDot }
{}

/// What a pattern and `.**` match has a dot, and before it what the pattern matches.
pub fn matches_before_dot()
    ensures { MatchesBeforeDot }
{}

/// Each pattern matches a name or does not.
pub fn matching_is_decided(pattern: &Pattern, name: &str)
    ensures { Matches pattern.now (chars name.now) ⊎ ¬ Matches pattern.now (chars name.now) }
{
    let _matches = pattern.matches(name);
}
