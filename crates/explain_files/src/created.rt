//! What is wrong with a module that was to be created while a run went on.

use crate::insides::words_of;
use crate::modules::{ToldFault, declared_at};
use explain_types::explanation::Explanation;
use model_answers::plain::PlainAnswers;
use model_settings::standings::before_last;
use run_semantics::outcome::RunFault;
use sim_values::NoMemory;
use sim_values::model_fault::ModelFault;
use sim_values::value_fault::ValueFault;
use std::alloc::Global;

/// Whether the model declares no module of that path, at which it builds none: so one was to be
/// created there, or is in one that was.
pub fn is_created(
    alloc: Global,
    answers: &PlainAnswers<'_>,
    path: &[u8],
) -> Result<bool, NoMemory> {
    if before_last(path).is_none() {
        return Ok(false);
    }
    Ok(declared_at(alloc, answers, path)?.is_none())
}

/// What a fault says of a module that was to be created, where it says more of it than of one that
/// is built.
fn words_of_created(fault: ModelFault) -> &'static str {
    match fault {
        ModelFault::UnknownType =>
            "no simple type, module or network has the name that is given for its type, which is looked up where the module around it is declared: let the module that creates it name another one, or add the file",
        ModelFault::Value(ValueFault::Mismatch) =>
            "a value is given to what is no parameter of its type, or is of another kind than is declared",
        ModelFault::Value(ValueFault::Unassigned) =>
            "a parameter has no value: let the module that creates it give one, or write an entry or a default for it",
        ModelFault::NoGate =>
            "a size is given to what is no gate vector of its type, or a connection in it names a submodule or a gate that isn't there, or one of another direction",
        ModelFault::TooManyModules =>
            "more than 65536 modules would live, or more than 1000000 have been made in the run: let some be deleted before, or fewer be created",
        _ => words_of(fault),
    }
}

/// Says what is wrong with a module that was to be created, or is in one that was.
fn tell_words(told: &mut Explanation, path: &str, words: &str) {
    told.say_front(path.as_bytes());
    told.say(": of this module, which was to be created or is in one that was: ");
    told.say(words);
}

/// Says what led to a fault of such a module, where that is known without its type. `classes` are
/// those that the program has modules of.
pub fn tell_created(told: &mut Explanation, fault: ToldFault<'_>, classes: &[&[u8]]) {
    match fault.fault {
        RunFault::Model(kind) => tell_words(told, fault.path, words_of_created(*kind)),
        RunFault::UnknownClass => {
            tell_words(
                told,
                fault.path,
                "this program has no module of its class; it has: ",
            );
            told.say_list(classes);
        }
        _ => {}
    }
}
