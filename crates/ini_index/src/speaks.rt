//! Which entries count for a path.

ghost use Rattle.std.specs.Prelude.{◌≡◌, ◌==◌};
ghost use Rattle.std.specs.List.{list_any};
ghost use Rattle.std.specs.Str.{bytes_eq};
ghost use Rattle.ini_trees.specs.Entries.{is_parameter_name, speaks};
ghost use Rattle.ini_trees.specs.Words.{word_typename};

use ini_trees::entry::EntryMeaning;
use ini_trees::speaks::last_name;
use sim_values::text::spells;

/// Whether it is the name by which submodules get their types.
fn is_typename(name: &[u8]) -> bool
    ensures { result ≡ bytes_eq name.now word_typename }
{
    spells(name, b"typename")
}

/// Whether a name has a `-`.
fn is_hyphenated(name: &[u8]) -> bool
    ensures { result ≡ list_any (λ b. b == 45) name.now }
{
    name.iter().any(|b| *b == b'-')
}

/// Whether a parameter may have that name: it has no `-`, and is not `typename`.
fn is_parameter_name(name: &[u8]) -> bool
    ensures { result ≡ is_parameter_name name.now }
{
    !is_typename(name) && !is_hyphenated(name)
}

/// Whether an entry counts for a path and matches it.
pub fn speaks(path: &str, meaning: &EntryMeaning) -> bool
    ensures { result ≡ speaks path.now meaning.now }
{
    let name = last_name(path.as_bytes());
    match meaning {
        EntryMeaning::Parameter(entry) => is_parameter_name(name) && entry.pattern.matches(path),
        EntryMeaning::Type(entry) => is_typename(name) && entry.pattern.matches(path),
        EntryMeaning::Object(entry) => entry.option.is(name) && entry.pattern.matches(path),
        _ => false,
    }
}
