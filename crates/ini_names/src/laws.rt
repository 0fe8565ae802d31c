//! The law of patterns and last names. The function does nothing: its contract is the law.

ghost use Rattle.ini_names.specs.Named.{LastNameIsLiteral};

/// A pattern that ends in a dot and a name without dots matches only paths whose last name is that,
/// among paths of ASCII characters.
pub fn last_name_is_literal()
    ensures { LastNameIsLiteral }
{}
