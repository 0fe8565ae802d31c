//! Answers that are the same.

ghost use Rattle.std.specs.Prelude.{◌≡◌, length, true};
ghost use Rattle.std.specs.Bool.{Decides};
ghost use Rattle.model_agreement.specs.Same.{same_value, same_class, same_index, same_built};
ghost use Rattle.model_agreement.specs.Same.{same_inside, same_due, same_message, same_injection};
ghost use Rattle.model_agreement.specs.Same.{same_injections, same_next, same_gate, same_neighbour};
ghost use Rattle.model_agreement.specs.Same.{same_channel, same_hop, same_end, same_fault};
ghost use Rattle.model_agreement.specs.Same.{same_answer, same_names};

use model_injections::injection::Injection;
use model_questions::answer::{Answer, Built, Channel, Neighbour, NextGate};
use module_api::call::Gate;
use sim_values::model_fault::ModelFault;
use sim_values::text::Text;
use sim_values::value::Value;

fn same_value(one: &Value, other: &Value) -> bool
    ensures { result ≡ same_value one.now other.now }
{
    match (one, other) {
        (Value::Whole(a), Value::Whole(b)) => a == b,
        (Value::Truth(a), Value::Truth(b)) => a == b,
        (Value::Text(a), Value::Text(b)) => a.is(b.as_bytes()),
        (Value::Quantity(d, a), Value::Quantity(e, b)) => d == e && a == b,
        _ => false,
    }
}

fn same_class(one: &Option<Text>, other: &Option<Text>) -> bool
    ensures { result ≡ same_class one.now other.now }
{
    match (one, other) {
        (None, None) => true,
        (Some(a), Some(b)) => a.is(b.as_bytes()),
        _ => false,
    }
}

fn same_index(one: Option<u32>, other: Option<u32>) -> bool
    ensures { result ≡ same_index one other }
{
    match (one, other) {
        (None, None) => true,
        (Some(a), Some(b)) => a == b,
        _ => false,
    }
}

fn same_built(one: &Built, other: &Built) -> bool
    ensures { result ≡ same_built one.now other.now }
{
    one.name.is(other.name.as_bytes())
        && same_index(one.index, other.index)
        && same_class(&one.class, &other.class)
}

/// Whether two lists of equal length are the same.
fn same_elements(one: &[Built], other: &[Built]) -> bool
    requires { length one.now ≡ length other.now }
    ensures { result ≡ same_inside one.now other.now }
{
    for (index, built) in one.iter().enumerate() {
        let Some(second) = other.get(index) else {
            return false;
        };
        if !same_built(built, second) {
            return false;
        }
    }
    true
}

fn same_inside(one: &[Built], other: &[Built]) -> bool
    ensures { result ≡ same_inside one.now other.now }
{
    if one.len() != other.len() {
        return false;
    }
    same_elements(one, other)
}

fn same_due(one: &Injection, other: &Injection) -> bool
    ensures { result ≡ same_due one.now other.now }
{
    one.due.time == other.due.time && one.due.priority == other.due.priority
}

fn same_message(one: &Injection, other: &Injection) -> bool
    ensures { result ≡ same_message one.now other.now }
{
    one.kind == other.kind && one.bits == other.bits && one.payload.is(other.payload.as_bytes())
}

fn same_injection(one: &Injection, other: &Injection) -> bool
    ensures { result ≡ same_injection one.now other.now }
{
    one.number == other.number
        && one.path.is(other.path.as_bytes())
        && same_due(one, other)
        && same_message(one, other)
}

fn same_next(one: &Option<Injection>, other: &Option<Injection>) -> bool
    ensures { result ≡ same_next one.now other.now }
{
    match (one, other) {
        (None, None) => true,
        (Some(a), Some(b)) => same_injection(a, b),
        _ => false,
    }
}

/// Whether two lists of messages of equal length are the same.
fn same_listed(one: &[Injection], other: &[Injection]) -> bool
    requires { length one.now ≡ length other.now }
    ensures { result ≡ same_injections one.now other.now }
{
    for (index, injection) in one.iter().enumerate() {
        let Some(second) = other.get(index) else {
            return false;
        };
        if !same_injection(injection, second) {
            return false;
        }
    }
    true
}

/// Whether two lists of messages from outside are the same.
pub fn same_injections(one: &[Injection], other: &[Injection]) -> bool
    ensures { result ≡ true → one.now ≡ other.now }
{
    if one.len() != other.len() {
        return false;
    }
    same_listed(one, other)
}

/// Whether two lists of as many names are the same.
fn same_names_listed(one: &[Text], other: &[Text]) -> bool
    requires { length one.now ≡ length other.now }
    ensures { result ≡ same_names one.now other.now }
{
    for (index, name) in one.iter().enumerate() {
        let Some(second) = other.get(index) else {
            return false;
        };
        if !name.is(second.as_bytes()) {
            return false;
        }
    }
    true
}

/// Whether two lists of names are the same.
pub(crate) fn same_names(one: &[Text], other: &[Text]) -> bool
    ensures { result ≡ true → one.now ≡ other.now }
{
    if one.len() != other.len() {
        return false;
    }
    same_names_listed(one, other)
}

fn same_gate(one: &Gate, other: &Gate) -> bool
    ensures { result ≡ same_gate one.now other.now }
{
    one.name.is(other.name.as_bytes()) && one.direction == other.direction && one.size == other.size
}

fn same_neighbour(one: &Neighbour, other: &Neighbour) -> bool
    ensures { result ≡ same_neighbour one.now other.now }
{
    match (one, other) {
        (Neighbour::Itself, Neighbour::Itself) => true,
        (Neighbour::Around, Neighbour::Around) => true,
        (Neighbour::Beside(a, i), Neighbour::Beside(b, k)) => {
            a.is(b.as_bytes()) && same_index(*i, *k)
        }
        (Neighbour::Inside(a, i), Neighbour::Inside(b, k)) => {
            a.is(b.as_bytes()) && same_index(*i, *k)
        }
        _ => false,
    }
}

fn same_channel(one: &Channel, other: &Channel) -> bool
    ensures { result ≡ same_channel one.now other.now }
{
    one.kind == other.kind
        && one.delay == other.delay
        && one.datarate == other.datarate
        && one.disabled == other.disabled
}

fn same_hop(one: &NextGate, other: &NextGate) -> bool
    ensures { result ≡ same_hop one.now other.now }
{
    same_neighbour(&one.neighbour, &other.neighbour)
        && one.gate.is(other.gate.as_bytes())
        && one.index == other.index
        && same_channel(&one.channel, &other.channel)
}

fn same_end(one: &Option<NextGate>, other: &Option<NextGate>) -> bool
    ensures { result ≡ same_end one.now other.now }
{
    match (one, other) {
        (None, None) => true,
        (Some(a), Some(b)) => same_hop(a, b),
        _ => false,
    }
}

fn same_fault(one: &ModelFault, other: &ModelFault) -> bool
    ensures { result ≡ same_fault one.now other.now }
{
    match (one, other) {
        (ModelFault::Value(a), ModelFault::Value(b)) => a == b,
        (ModelFault::UnknownType, ModelFault::UnknownType) => true,
        (ModelFault::Interface, ModelFault::Interface) => true,
        (ModelFault::GateSize, ModelFault::GateSize) => true,
        (ModelFault::NoGate, ModelFault::NoGate) => true,
        (ModelFault::AlreadyConnected, ModelFault::AlreadyConnected) => true,
        (ModelFault::Unconnected, ModelFault::Unconnected) => true,
        (ModelFault::TooManyTurns, ModelFault::TooManyTurns) => true,
        (ModelFault::TooManyModules, ModelFault::TooManyModules) => true,
        _ => false,
    }
}

fn compared(one: &Answer, other: &Answer) -> bool
    ensures { result ≡ same_answer one.now other.now }
{
    match (one, other) {
        (Answer::Root(a), Answer::Root(b)) => a.is(b.as_bytes()),
        (Answer::Class(a), Answer::Class(b)) => same_class(a, b),
        (Answer::Inside(a), Answer::Inside(b)) => same_inside(a.as_slice(), b.as_slice()),
        (Answer::Value(a), Answer::Value(b)) => same_value(a, b),
        (Answer::Gate(a), Answer::Gate(b)) => same_gate(a, b),
        (Answer::Next(a), Answer::Next(b)) => same_end(a, b),
        (Answer::Fault(a, f), Answer::Fault(b, g)) => a.is(b.as_bytes()) && same_fault(f, g),
        (Answer::Beyond(a), Answer::Beyond(b)) => a == b,
        (Answer::Injection(a), Answer::Injection(b)) => same_next(a, b),
        (Answer::Absent, Answer::Absent) => true,
        _ => false,
    }
}

/// Whether two answers are the same.
pub fn same_answer(one: &Answer, other: &Answer) -> bool
    ensures { Decides result (one.now ≡ other.now) }
{
    compared(one, other)
}
