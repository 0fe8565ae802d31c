//! What a line of a parameter section says of a value.

ghost use Rattle.std.specs.Prelude.{◌≡◌};
ghost use Rattle.std.specs.Option.{option_copied};
ghost use Rattle.ned_types.specs.Types.{gives, is_fixed, name_in, value_in};

use ned_trees::declarations::{ParameterValue, SectionLine};

/// The parameter that a line speaks of.
pub fn name_in(line: &SectionLine) -> &[u8]
    ensures { result.now ≡ name_in line.now }
{
    match line {
        SectionLine::Declaration(declaration) => declaration.name.as_bytes(),
        SectionLine::Assignment(assignment) => assignment.name.as_bytes(),
        _ => b"".as_slice(),
    }
}

/// The value that a line gives.
pub fn value_in(line: &SectionLine) -> Option<&ParameterValue>
    ensures { option_copied result ≡ value_in line.now }
{
    match line {
        SectionLine::Declaration(declaration) => declaration.value.as_ref(),
        SectionLine::Assignment(assignment) => assignment.value.as_ref(),
        _ => None,
    }
}

/// Whether the line gives a fixed value.
pub fn fixes(line: &SectionLine) -> bool
    ensures { result ≡ is_fixed (value_in line.now) }
{
    matches!(value_in(line), Some(ParameterValue::Fixed(_)))
}

/// Whether the line gives the parameter a value.
pub fn gives(name: &[u8], line: &SectionLine) -> bool
    ensures { result ≡ gives name.now line.now }
{
    value_in(line).is_some() && name_in(line) == name
}
