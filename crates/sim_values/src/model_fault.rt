//! Why a model has no value, or no inside.

ghost use Rattle.std.specs.Prelude.{◌≡◌};
ghost use Rattle.sim_values.specs.ModelFaults.{model_fault_name};

use crate::value_fault::ValueFault;

/// Why a value can't be found, or the inside of a compound module can't be built.
#[derive(Clone, Copy, Debug, PartialEq, Eq)]
pub enum ModelFault {
    /// A value can't be found.
    Value(ValueFault),
    /// A submodule's type isn't declared.
    UnknownType,
    /// The type that was chosen for a submodule doesn't keep the interface that it has to keep.
    Interface,
    /// A gate's index is out of range, no gate is free, or the size of a gate vector is outside 0
    /// to 65,536.
    GateSize,
    /// There is no such submodule or gate, its direction is another, or it is a vector where a
    /// single gate is named, or the other way round.
    NoGate,
    /// A gate is used by two connections.
    AlreadyConnected,
    /// A gate that has to be connected isn't.
    Unconnected,
    /// The loops of a compound module make more than 1,000,000 turns.
    TooManyTurns,
    /// There would be more modules than may be.
    TooManyModules,
}

impl ModelFault {
    /// Its name, as answers have it.
    pub fn name(self) -> &'static [u8]
        ensures { result.now ≡ model_fault_name self }
    {
        match self {
            ModelFault::Value(fault) => fault.name(),
            ModelFault::UnknownType => b"UnknownType",
            ModelFault::Interface => b"Interface",
            ModelFault::GateSize => b"GateSize",
            ModelFault::NoGate => b"NoGate",
            ModelFault::AlreadyConnected => b"AlreadyConnected",
            ModelFault::Unconnected => b"Unconnected",
            ModelFault::TooManyTurns => b"TooManyTurns",
            ModelFault::TooManyModules => b"TooManyModules",
        }
    }
}
