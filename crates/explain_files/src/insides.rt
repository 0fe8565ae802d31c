//! What is wrong where a compound module can't be built.

use explain_types::explanation::Explanation;
use run_semantics::outcome::RunFault;
use sim_values::model_fault::ModelFault;
use sim_values::value_fault::ValueFault;

/// The fault of an inside that ended a run, where it is one that an inside can have.
pub fn fault_of(fault: &RunFault) -> Option<ModelFault> {
    match fault {
        RunFault::Model(fault) => Some(*fault),
        RunFault::NoGate => Some(ModelFault::NoGate),
        RunFault::AlreadyConnected => Some(ModelFault::AlreadyConnected),
        _ => None,
    }
}

/// What a fault of a value in an inside says, and what would be right.
fn words_of_value(fault: ValueFault) -> &'static str {
    match fault {
        ValueFault::Unassigned =>
            "a type, a condition, a size, an index, a loop or a channel refers to something that has no value: a name there is a parameter of the module itself, a loop variable, or 'sub.x' of a submodule that is there",
        ValueFault::Circle =>
            "a type, a condition, a size or a value rests on itself, by what it refers to: let one of them refer to none of the others",
        ValueFault::Overflow =>
            "a number in a condition, a size, an index, a loop or a channel is outside -9223372036854775808 to 9223372036854775807, or something is shifted by less than 0 or more than 63",
        ValueFault::Inexact =>
            "in a condition, a size, an index, a loop or a channel a division leaves a remainder or is by zero, or an exponent is negative",
        ValueFault::Mismatch =>
            "a value is of another kind than is wanted: a condition is true or false, a size, an index and the numbers of a loop are whole numbers, a size of submodules isn't negative, a channel's delay and datarate aren't either, and its ber and per are 0",
        ValueFault::TooDeep =>
            "modules are nested more than 32 deep: let no module be inside of itself, by way of others too",
    }
}

/// What a fault of an inside says, and what would be right.
pub fn words_of(fault: ModelFault) -> &'static str {
    match fault {
        ModelFault::Value(fault) => words_of_value(fault),
        ModelFault::UnknownType =>
            "no file declares the type that is chosen for this submodule: let it name another one, or add the file",
        ModelFault::Interface =>
            "the type that is chosen for this submodule isn't declared 'like' the interface that the submodule names, as no channel is, or gives a value of its own to a parameter that the submodule's body sets: choose another type, or leave that value out",
        ModelFault::GateSize =>
            "a gate vector would have fewer than 0 or more than 65536 gates, or a connection takes a gate outside of a vector, or by '++' one more than the module's own vector has: declare another size, or connect fewer gates",
        ModelFault::NoGate =>
            "a connection names a submodule or a gate that isn't there, a gate of another direction, an index if there is no vector, or none if there is one: name a gate that the submodule's type declares",
        ModelFault::AlreadyConnected =>
            "two connections take the same gate: leave one of them out, or let it take another gate",
        ModelFault::Unconnected =>
            "a gate stands in no connection: connect it, or write 'connections allowunconnected:', or '@loose' after the gate",
        ModelFault::TooManyTurns =>
            "the loops of the connections make more than 1000000 turns: let them run over fewer numbers",
        ModelFault::TooManyModules =>
            "there would be more than 65536 modules: let the vectors of submodules have fewer elements",
    }
}

/// Says what is wrong with the inside of the compound module of that path, or with its submodule,
/// and what would be right.
pub fn tell_inside(told: &mut Explanation, path: &str, fault: ModelFault) {
    told.say_front(path.as_bytes());
    told.say(": ");
    told.say(words_of(fault));
}
