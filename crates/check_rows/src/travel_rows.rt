//! What becomes of messages on the channels of their paths.

use crate::escapes::{number, parted};
use crate::telling::Telling;
use crate::time_rows::time_of;
use channels::travel;
use channels::travels::{ChannelFault, Travel};
use model_questions::answer::{Channel, ChannelKind};
use sim_time::SimTime;
use std::alloc::{AllocError, Global};

/// The time that a word of a row is, zero where it is none.
fn time(word: &str) -> SimTime {
    match time_of(word) {
        Some(time) => time,
        None => SimTime::zero(),
    }
}

/// The end of a transmission that a word of a row is.
fn busy_of(word: &str) -> Option<SimTime> {
    match word {
        "never" => None,
        _ => Some(time(word)),
    }
}

/// The channel that a word says: `ideal`, a delay, or a delay and a rate with an `@` between.
fn channel_by(word: &str, disabled: bool) -> Channel {
    let (delay, datarate) = parted(word, '@');
    let kind = if delay == "ideal" {
        ChannelKind::Ideal
    } else if datarate.is_empty() {
        ChannelKind::Delay
    } else {
        ChannelKind::Datarate
    };
    Channel {
        kind,
        delay: time(delay),
        datarate: number(datarate) as u64,
        disabled,
    }
}

/// The channel that a word says, which is disabled where a `!` stands before it.
fn channel_of(word: &str) -> Channel {
    match word.split_once('!') {
        Some((_, word)) => channel_by(word, true),
        None => channel_by(word, false),
    }
}

/// Adds the channels that words say.
fn add_hops(hops: &mut Vec<Channel>, words: &str) -> Result<(), AllocError> {
    for word in words.split(' ') {
        if !word.is_empty() {
            hops.push(channel_of(word))?;
        }
    }
    Ok(())
}

/// Tells when a transmission ends, where there was one.
fn tell_until(told: &mut Telling, until: &Option<SimTime>) {
    if let Some(end) = until {
        told.text(" until ");
        told.shown(&end.ps());
    }
}

/// Tells where a message arrives, or that it is lost.
fn tell_found(told: &mut Telling, found: &Travel) {
    match found {
        Travel::Arrival(time, until) => {
            told.text("arrives ");
            told.shown(&time.ps());
            tell_until(told, until)
        }
        Travel::Lost(until) => {
            told.text("lost");
            tell_until(told, until)
        }
    }
}

/// Tells what becomes of a message.
fn tell(told: &mut Telling, found: &Result<Travel, ChannelFault>) {
    match found {
        Ok(found) => tell_found(told, found),
        Err(fault) => told.shown(fault),
    }
}

/// Tells what becomes of a message that is sent at that time: of so many bits, with the end of the
/// last transmission, over these channels.
pub fn tell_travel(alloc: Global, told: &mut Telling, departure: &str, rest: &str) {
    let (bits, rest) = parted(rest, '|');
    let (busy, words) = parted(rest, '|');
    let mut hops = Vec::new(alloc);
    match add_hops(&mut hops, words) {
        Ok(()) => {
            let bits = number(bits) as u64;
            let found = travel(hops.as_slice(), time(departure), bits, busy_of(busy));
            tell(told, &found)
        }
        Err(error) => told.fail(error),
    }
}
