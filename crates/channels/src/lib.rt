//! How long a message travels over the channels of its path, or why it doesn't arrive (OMNeT++
//! Simulation Manual, "Channels").
#![tactic(auto)]

ghost use Rattle.std.specs.Prelude.{◌≡◌, ◌+◌, ◌*◌, ◌^◌, ◌<◌, ◌≤◌, ℕ, Ok, Err};
ghost use Rattle.std.specs.Result.{result_ok};
ghost use Rattle.sim_time.specs.Time.{time_sum};
ghost use Rattle.channels.specs.Travel.{is_transmission, transmissions, duration_of, is_busy};
ghost use Rattle.channels.specs.Travel.{transmitted, sent_on, delayed, passed, arrived, walked};
ghost use Rattle.channels.specs.Travel.{departing, travel};

pub mod laws;
pub mod travels;

use crate::travels::{ChannelFault, Travel, Way};
use model_questions::answer::{Channel, ChannelKind};
use sim_time::SimTime;

/// How many ps a second has.
const PS_PER_SECOND: u128 = 1000000000000;

/// What becomes of a message of so many bits that is sent over these channels at that time. `busy`
/// is the end of the last transmission on the one that has a datarate, where there was one.
pub fn travel(
    hops: &[Channel],
    departure: SimTime,
    bits: u64,
    busy: Option<SimTime>,
) -> Result<Travel, ChannelFault>
    ensures { result ≡ travel hops.now departure bits busy }
{
    if transmissions(hops) > 1 {
        return Err(ChannelFault::TwoTransmissionChannels);
    }
    walk(hops, departure, bits, &busy)
}

/// How many of the channels have a datarate.
pub fn transmissions(hops: &[Channel]) -> usize
    ensures { result ≡ transmissions hops.now }
{
    let mut count: usize = 0;
    for channel in hops {
        if is_transmission(channel) {
            count += 1;
        }
    }
    count
}

/// Whether a channel has a datarate.
pub fn is_transmission(channel: &Channel) -> bool
    ensures { result ≡ is_transmission channel.now }
{
    match channel.kind {
        ChannelKind::Datarate => true,
        ChannelKind::Ideal | ChannelKind::Delay => false,
    }
}

/// The channels, one by one.
fn walk(
    hops: &[Channel],
    departure: SimTime,
    bits: u64,
    busy: &Option<SimTime>,
) -> Result<Travel, ChannelFault>
    ensures { result ≡ walked bits busy.now hops.now (departing departure) }
{
    let mut way = Way {
        time: departure,
        duration: SimTime::zero(),
        busy_until: None,
    };
    for channel in hops {
        if channel.disabled {
            return Ok(Travel::Lost(way.busy_until));
        }
        match pass(channel, bits, busy, way) {
            Ok(next) => way = next,
            Err(fault) => return Err(fault),
        }
    }
    arrive(way)
}

/// The end of the way.
fn arrive(way: Way) -> Result<Travel, ChannelFault>
    ensures { result ≡ arrived way }
{
    match way.time.checked_add(way.duration) {
        Ok(time) => Ok(Travel::Arrival(time, way.busy_until)),
        Err(_) => Err(ChannelFault::TimeOverflow),
    }
}

/// Over one channel that is not disabled.
fn pass(channel: &Channel, bits: u64, busy: &Option<SimTime>, way: Way) -> Result<Way, ChannelFault>
    ensures { result ≡ passed channel.now bits busy.now way }
{
    match send_on(channel, bits, busy, way) {
        Ok(sent) => delay(channel, sent),
        Err(fault) => Err(fault),
    }
}

/// The transmission, where the channel has a datarate.
fn send_on(
    channel: &Channel,
    bits: u64,
    busy: &Option<SimTime>,
    way: Way,
) -> Result<Way, ChannelFault>
    ensures { result ≡ sent_on channel.now bits busy.now way }
{
    if !is_transmission(channel) {
        return Ok(way);
    }
    transmit(channel.datarate, bits, busy, way)
}

/// The transmission at a rate.
fn transmit(rate: u64, bits: u64, busy: &Option<SimTime>, way: Way) -> Result<Way, ChannelFault>
    ensures { result ≡ transmitted rate bits busy.now way }
{
    if is_busy(way.time, busy) {
        return Err(ChannelFault::Busy);
    }
    let duration = duration_of(bits, rate);
    match (later(way.time, duration), later(SimTime::zero(), duration)) {
        (Some(end), Some(duration)) => Ok(Way {
            time: way.time,
            duration,
            busy_until: Some(end),
        }),
        _ => Err(ChannelFault::TimeOverflow),
    }
}

/// The delay.
fn delay(channel: &Channel, way: Way) -> Result<Way, ChannelFault>
    ensures { result ≡ delayed channel.now way }
{
    match way.time.checked_add(channel.delay) {
        Ok(time) => Ok(Way {
            time,
            duration: way.duration,
            busy_until: way.busy_until,
        }),
        Err(_) => Err(ChannelFault::TimeOverflow),
    }
}

/// Whether a transmission that began earlier goes on at that time.
fn is_busy(time: SimTime, busy: &Option<SimTime>) -> bool
    ensures { result ≡ is_busy time busy.now }
{
    match busy {
        Some(end) => time < *end,
        None => false,
    }
}

/// How many ps the transmission of so many bits takes, rounded up. No number of bits and no rate is
/// too large.
fn duration_of(bits: u64, rate: u64) -> u128
    ensures value { result ≡ duration_of bits rate }
    ensures bound { result < 2 ^ 105 }
{
    if rate == 0 {
        return 0;
    }
    (bits as u128 * PS_PER_SECOND + (rate as u128 - 1)) / rate as u128
}

/// So much later, or none above the greatest time.
fn later(time: SimTime, ps: u128) -> Option<SimTime>
    requires { ps < 2 ^ 105 }
    ensures { result ≡ time_sum time ps }
{
    let sum = time.ps() as u128 + ps;
    if sum > SimTime::MAX_PS as u128 {
        return None;
    }
    SimTime::from_ps(sum as u64)
}
