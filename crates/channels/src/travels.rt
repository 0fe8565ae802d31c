//! What becomes of a message on the channels of its path.

use sim_time::SimTime;
use thiserror::Error;

/// Where a message is on its way.
#[derive(Clone, Copy, Drop)]
pub struct Way {
    /// When its beginning is there.
    pub time: SimTime,
    /// How long its transmission takes.
    pub duration: SimTime,
    /// When its transmission ends, if it was transmitted.
    pub busy_until: Option<SimTime>,
}

/// What becomes of a message.
#[derive(Clone, Copy, Drop)]
pub enum Travel {
    /// It arrives at that time; the transmission, where there was one, ends at the other.
    Arrival(SimTime, Option<SimTime>),
    /// A disabled channel lost it; a transmission before that ends at the time.
    Lost(Option<SimTime>),
}

/// Why a message can't be sent.
#[derive(Clone, Copy, Debug, PartialEq, Eq, Error)]
pub enum ChannelFault {
    /// An earlier transmission goes on as the message reaches the channel.
    #[error("Busy")]
    Busy,
    /// More than one channel of the path models how long a transmission takes.
    #[error("TwoTransmissionChannels")]
    TwoTransmissionChannels,
    /// A time on the way is above the greatest time.
    #[error("TimeOverflow")]
    TimeOverflow,
}
