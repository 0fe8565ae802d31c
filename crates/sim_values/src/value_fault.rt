//! Why there is no value.

ghost use Rattle.std.specs.Prelude.{◌≡◌};
ghost use Rattle.sim_values.specs.ModelFaults.{value_fault_name};

/// Why an expression or a parameter has no value.
#[derive(Clone, Copy, Debug, PartialEq, Eq)]
pub enum ValueFault {
    /// A number is outside -2^63 to 2^63 - 1, or an amount to shift by is outside 0 to 63.
    Overflow,
    /// A quotient is no whole number, something is divided by zero, or an exponent is below zero.
    Inexact,
    /// A value is of another kind than its parameter, or than its operator wants, or the size of a
    /// vector of submodules is negative.
    Mismatch,
    /// There is no such value.
    Unassigned,
    /// A value rests on itself.
    Circle,
    /// Modules are nested too deep.
    TooDeep,
}

impl ValueFault {
    /// Its name, as answers have it.
    pub fn name(self) -> &'static [u8]
        ensures { result.now ≡ value_fault_name self }
    {
        match self {
            ValueFault::Overflow => b"Overflow",
            ValueFault::Inexact => b"Inexact",
            ValueFault::Mismatch => b"Mismatch",
            ValueFault::Unassigned => b"Unassigned",
            ValueFault::Circle => b"Circle",
            ValueFault::TooDeep => b"TooDeep",
        }
    }
}
