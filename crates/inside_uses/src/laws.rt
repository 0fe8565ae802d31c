//! What the inside of a compound module uses of the values that it asks for. The functions do
//! nothing: their contracts are the laws.

ghost use Rattle.inside_uses.specs.Parts.{AllIsKnownInside};
ghost use Rattle.inside_uses.specs.Uses.{InsideUsesWhether, ParametersAreValues};

/// Of the parameters of its submodules the inside of a module uses only that they have values. So
/// where such a parameter gets another value, the inside is what it was, and asks for the same keys.
pub fn inside_uses_whether()
    ensures { InsideUsesWhether }
{}

/// Where an inside comes of values that are known, the type of each of its submodules is among these,
/// and so are values of all parameters of each.
pub fn all_is_known_inside()
    ensures { AllIsKnownInside }
{}

/// What a parameter has as its value is no inside and no channel.
pub fn parameters_are_values()
    ensures { ParametersAreValues }
{}
