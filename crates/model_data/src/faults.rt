//! Why a configuration can't be run.

ghost use Rattle.std.specs.Prelude.{◌≡◌};
ghost use Rattle.model_data.specs.Faults.{config_fault_name};

/// Why the lines of an ini text make no configuration that can be run. Of several reasons the first
/// in this order is told.
#[derive(Clone, Copy, Debug, PartialEq, Eq)]
pub enum ConfigFault {
    /// The configuration isn't in the ini text.
    NoSuchConfig,
    /// It extends one that isn't in the ini text, one twice, several that can't be put in order, or
    /// in the end itself.
    ChainFault,
    /// The option `network` names no network.
    NoSuchNetwork,
}

impl ConfigFault {
    /// Its name, as answers have it.
    pub fn name(self) -> &'static [u8]
        ensures { result.now ≡ config_fault_name self }
    {
        match self {
            ConfigFault::NoSuchConfig => b"NoSuchConfig",
            ConfigFault::ChainFault => b"ChainFault",
            ConfigFault::NoSuchNetwork => b"NoSuchNetwork",
        }
    }
}
