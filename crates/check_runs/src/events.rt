//! Tests of `event_set`: the order of the events to come, timers that are cancelled, and events of
//! modules that are gone.

ghost use Rattle.std.specs.Prelude.{◌≡◌, ◌+◌, ◌≤◌, ◌<◌, IfOk};

use event_set::pending::{Happening, Pending};
use event_set::set::EventSet;
use sim_time::SimTime;
use sim_values::NoMemory;
use sim_values::text::Text;
use std::alloc::{AllocError, Global};
use std::process::Abort;
use std::test::Fail;

/// Five seconds, in picoseconds.
const FIVE: u64 = 5_000_000_000_000;

/// A timer that is to be set: its time in picoseconds, its priority, its module's id, and its
/// number.
struct Row(u64, i16, u32, u32);

/// Sets a timer, and answers whether it was not pending yet.
fn set_timer(events: &mut EventSet, row: Row) -> Result<bool, NoMemory>
    requires { events.old.next < 5000 }
    ensures { events.new.next ≤ events.old.next + 1 }
{
    let Row(ps, priority, id, timer) = row;
    if events.has_timer(id, timer) {
        return Ok(false);
    }
    let time = SimTime::from_ps(ps).unwrap_or(SimTime::zero());
    events.insert(time, priority, id, Happening::Timer(timer, 0))?;
    Ok(true)
}

/// The number of the timer that an event is.
fn timer_of(event: &Pending) -> Option<u32> {
    match &event.what {
        Happening::Timer(timer, _) => Some(*timer),
        Happening::Arrival(_, _, _) | Happening::Delivery(_) | Happening::Start(_) => None,
    }
}

/// Takes all events out, and answers the numbers of the timers among them, in turn.
fn timers_in_turn(alloc: Global, events: &mut EventSet) -> Result<Vec<u32>, AllocError> {
    let mut timers = Vec::new(alloc);
    while let Some(event) = events.take_first() {
        if let Some(timer) = timer_of(&event) {
            timers.push(timer)?;
        }
    }
    Ok(timers)
}

/// Timers of the module 7 at five seconds: 0 has the priority 0, 1 has -1, and 2 has 0.
fn three_timers(alloc: Global) -> Result<EventSet, NoMemory>
    ensures { IfOk result (λ events. events.next ≤ 3) }
{
    let mut events = EventSet::new(alloc);
    set_timer(&mut events, Row(FIVE, 0, 7, 0))?;
    set_timer(&mut events, Row(FIVE, -1, 7, 1))?;
    set_timer(&mut events, Row(FIVE, 0, 7, 2))?;
    Ok(events)
}

/// What is told of the first of the events to come: its time in picoseconds, its priority, and its
/// module's id.
fn first_of(events: &EventSet) -> Option<(u64, i16, u32)> {
    match events.first() {
        Some(coming) => Some((coming.time.ps(), coming.priority, coming.id)),
        None => None,
    }
}

#[test]
fn a_lesser_priority_comes_first_and_then_the_first_inserted(rt: HostRuntime) -> Result<(), Fail> {
    let alloc = rt.alloc();
    let mut events = three_timers(alloc)?;
    let first = first_of(&events);
    let timers = timers_in_turn(alloc, &mut events);
    let none_left = events.take_first().is_none() && events.first().is_none();
    drop(events);
    assert!(rt; first == Some((FIVE, -1, 7)));
    assert!(rt; timers?.as_slice() == [1, 0, 2].as_slice());
    assert!(rt; none_left);
    Ok(())
}

/// Timers of the module 7: 0 at five seconds with the least priority, 1 a picosecond earlier with
/// the greatest, and 2 at once.
fn timers_by_time(alloc: Global) -> Result<EventSet, NoMemory> {
    let mut events = EventSet::new(alloc);
    set_timer(&mut events, Row(FIVE, -32768, 7, 0))?;
    set_timer(&mut events, Row(FIVE - 1, 32767, 7, 1))?;
    set_timer(&mut events, Row(0, 0, 7, 2))?;
    Ok(events)
}

#[test]
fn an_earlier_time_comes_before_a_lesser_priority(rt: HostRuntime) -> Result<(), Fail> {
    let alloc = rt.alloc();
    let mut events = timers_by_time(alloc)?;
    let timers = timers_in_turn(alloc, &mut events);
    drop(events);
    assert!(rt; timers?.as_slice() == [2, 1, 0].as_slice());
    Ok(())
}

/// Whether the timer 0 of the module 7, which is pending, can be set, is cancelled, is pending
/// then, and is cancelled again; and whether a timer of the module 8 is cancelled, which has none.
fn cancel_twice(events: &mut EventSet) -> Result<[bool; 5], NoMemory>
    requires { events.old.next < 5000 }
{
    let is_set = set_timer(events, Row(FIVE, 3, 7, 0))?;
    let is_cancelled = events.cancel(7, 0);
    let is_pending = events.has_timer(7, 0);
    let again = events.cancel(7, 0);
    let other = events.cancel(8, 1);
    Ok([is_set, is_cancelled, is_pending, again, other])
}

#[test]
fn a_pending_timer_is_cancelled_once(rt: HostRuntime) -> Result<(), Fail> {
    let alloc = rt.alloc();
    let mut events = three_timers(alloc)?;
    let told = cancel_twice(&mut events);
    let timers = timers_in_turn(alloc, &mut events);
    drop(events);
    assert!(rt; told? == [false, true, false, false, false]);
    assert!(rt; timers?.as_slice() == [1, 2].as_slice());
    Ok(())
}

/// Takes the first event out, and answers its number and the timer that it is.
fn take_number(events: &mut EventSet) -> Option<(u128, Option<u32>)>
    ensures { events.new.next ≡ events.old.next }
{
    let event = events.take_first()?;
    Some((event.number, timer_of(&event)))
}

/// Whether the timer 1 of the module 7 is pending before the first event is taken out, whether
/// after it, and whether it can be set then; and what that event is, and the first one after that.
fn set_again(
    events: &mut EventSet,
) -> Result<([bool; 3], [Option<(u128, Option<u32>)>; 2]), NoMemory>
    requires { events.old.next < 5000 }
{
    let before = events.has_timer(7, 1);
    let first = take_number(events);
    let behind = events.has_timer(7, 1);
    let is_set = set_timer(events, Row(FIVE, -1, 7, 1))?;
    let again = take_number(events);
    Ok(([before, behind, is_set], [first, again]))
}

#[test]
fn a_timer_that_came_may_be_set_again(rt: HostRuntime) -> Result<(), Fail> {
    let mut events = three_timers(rt.alloc())?;
    let told = set_again(&mut events);
    drop(events);
    let (pending, taken) = told?;
    assert!(rt; pending == [true, false, true]);
    assert!(rt; taken == [Some((1, Some(1))), Some((3, Some(1)))]);
    Ok(())
}

/// The timers 999, 998, .., 0 of the module 7, set in this order, at one time and of one priority.
fn thousand_timers(alloc: Global) -> Result<EventSet, NoMemory> {
    let mut events = EventSet::new(alloc);
    for place in 0..1000u32 {
        set_timer(&mut events, Row(FIVE, 0, 7, 999 - place))?;
    }
    Ok(events)
}

/// Cancels the timers 1, 3, .., 999, and answers whether all were pending.
fn cancel_the_odd(events: &mut EventSet) -> bool {
    for half in 0..500u32 {
        if !events.cancel(7, half * 2 + 1) {
            return false;
        }
    }
    true
}

/// Whether these are 998, 996, .., 0.
fn are_the_even(timers: &[u32]) -> bool {
    if timers.len() != 500 {
        return false;
    }
    for (place, timer) in timers.iter().enumerate() {
        if *timer as usize + place * 2 != 998 {
            return false;
        }
    }
    true
}

#[test]
fn five_hundred_of_a_thousand_come_in_the_order_of_insertion(rt: HostRuntime) -> Result<(), Fail> {
    let alloc = rt.alloc();
    let mut events = thousand_timers(alloc)?;
    let were_pending = cancel_the_odd(&mut events);
    let timers = timers_in_turn(alloc, &mut events);
    drop(events);
    assert!(rt; were_pending, "a timer was not pending");
    assert!(rt;
        are_the_even(timers?.as_slice()),
        "the timers that come are others"
    );
    Ok(())
}

/// The timers that come of a copy, and then those of the set, of which the timer 1 is cancelled
/// after the copy; none where that is not pending in the set before, or in the copy after it.
fn timers_of_both(
    alloc: Global,
    events: &mut EventSet,
    copy: &mut EventSet,
) -> Result<Option<(Vec<u32>, Vec<u32>)>, AllocError> {
    if !events.cancel(7, 1) || !copy.has_timer(7, 1) {
        return Ok(None);
    }
    let of_copy = timers_in_turn(alloc, copy)?;
    let left = timers_in_turn(alloc, events)?;
    Ok(Some((of_copy, left)))
}

#[test]
fn a_copy_is_a_set_of_its_own(rt: HostRuntime) -> Result<(), Fail> {
    let alloc = rt.alloc();
    let mut events = three_timers(alloc)?;
    let mut copy = events.copy(alloc)?;
    let both = timers_of_both(alloc, &mut events, &mut copy);
    drop(events);
    drop(copy);
    let (of_copy, left) = both?.ok_or("the timer 1 is not pending")?;
    assert!(rt; of_copy.as_slice() == [1, 0, 2].as_slice());
    assert!(rt; left.as_slice() == [0, 2].as_slice());
    Ok(())
}

/// Messages from outside for the module 2, then a timer of the module 1, and one of the module 2.
fn mixed_events(alloc: Global) -> Result<EventSet, NoMemory>
    ensures { IfOk result (λ events. events.next ≤ 4) }
{
    let mut events = EventSet::new(alloc);
    let first = Text::from_str(alloc, "one")?;
    let second = Text::from_str(alloc, "two")?;
    events.insert(SimTime::zero(), 0, 2, Happening::Arrival(5, 8, first))?;
    events.insert(SimTime::zero(), 0, 2, Happening::Arrival(5, 8, second))?;
    set_timer(&mut events, Row(FIVE, 0, 1, 0))?;
    set_timer(&mut events, Row(FIVE, 1, 2, 0))?;
    Ok(events)
}

/// The payload of a message that arrives.
fn payload_of(event: Pending) -> Option<Text> {
    match event.what {
        Happening::Timer(_, _) | Happening::Delivery(_) | Happening::Start(_) => None,
        Happening::Arrival(_, _, payload) => Some(payload),
    }
}

/// Takes the first event out, and answers whether it is a message with that payload.
fn comes_with(events: &mut EventSet, payload: &str) -> bool {
    match events.take_first() {
        Some(event) => is_payload(payload_of(event), payload),
        None => false,
    }
}

/// Whether there is a payload, and it is that one.
fn is_payload(found: Option<Text>, payload: &str) -> bool {
    match found {
        Some(text) => text.is(payload.as_bytes()),
        None => false,
    }
}

#[test]
fn messages_are_kept_as_they_are(rt: HostRuntime) -> Result<(), Fail> {
    let alloc = rt.alloc();
    let events = mixed_events(alloc)?;
    let copy = events.copy(alloc);
    drop(events);
    let mut copy = copy?;
    let come = [comes_with(&mut copy, "one"), comes_with(&mut copy, "two")];
    let left = first_of(&copy);
    drop(copy);
    assert!(rt; come == [true, true]);
    assert!(rt; left == Some((FIVE, 0, 1)));
    Ok(())
}

/// The module's id of the first of the events to come.
fn first_id(events: &EventSet) -> Option<u32> {
    match events.first() {
        Some(coming) => Some(coming.id),
        None => None,
    }
}

/// Takes the first event out, and answers its module's id.
fn take_id(events: &mut EventSet) -> Option<u32> {
    match events.take_first() {
        Some(event) => Some(event.id),
        None => None,
    }
}

/// Takes out the events of modules that are gone: of one that has none, and of the module 2.
/// Answers for which module the first event is each time, and whether the timer of the module 2 is
/// pending before the last time, and after it.
fn drop_in_turn(events: &mut EventSet) -> ([Option<u32>; 3], [bool; 2]) {
    events.drop_modules([7].as_slice());
    let none_gone = first_id(events);
    let before = events.has_timer(2, 0);
    events.drop_modules([7, 2].as_slice());
    let behind = events.has_timer(2, 0);
    let one_gone = take_id(events);
    ([none_gone, one_gone, first_id(events)], [before, behind])
}

#[test]
fn the_events_of_gone_modules_are_taken_out(rt: HostRuntime) -> Result<(), Fail> {
    let mut events = mixed_events(rt.alloc())?;
    let (firsts, pending) = drop_in_turn(&mut events);
    drop(events);
    assert!(rt; firsts == [Some(2), Some(1), None]);
    assert!(rt; pending == [true, false]);
    Ok(())
}
