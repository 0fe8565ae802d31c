//! What holds of the definitions themselves.

ghost use Rattle.ned_tokens.specs.Quantities.{PartIsExact};

/// The digits after the point of a quantity say exactly what they spell, in units of so many.
pub fn exact_part(factor: u64, digits: &[u8])
    ensures { PartIsExact factor digits.now }
{}
