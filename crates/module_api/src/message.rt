//! Messages.

use sim_values::text::Text;

/// How many bytes a payload has at most.
pub const MAX_PAYLOAD: usize = 4096;

/// Where a message came from.
#[derive(Drop)]
pub enum Origin {
    /// A gate of the module, by its name and index.
    Gate(Text, u32),
    /// The module's own timer of that number: a self-message.
    Timer(u32),
    /// No module: an injection.
    Outside,
}

/// A message, as it is handed to a module. Its payload has at most 4,096 bytes.
#[derive(Drop)]
pub struct Message {
    pub kind: i16,
    /// Of messages due at one time, those with the smallest priority come first.
    pub priority: i16,
    /// Its length on a channel, in bits.
    pub bits: u64,
    pub payload: Text,
    pub origin: Origin,
}

/// A message that a module sends. With a payload of more than 4,096 bytes it is not sent.
#[derive(Drop)]
pub struct Outgoing {
    pub kind: i16,
    /// Of messages due at one time, those with the smallest priority come first.
    pub priority: i16,
    /// Its length on a channel, in bits.
    pub bits: u64,
    pub payload: Text,
}
