//! What replies read of the model: the faults of the answers.

ghost use Rattle.std.specs.Prelude.{◌≡◌, true, is_some};
ghost use Rattle.module_api.specs.Values.{value_of};
ghost use Rattle.run_semantics.specs.Perform.{fault_of_read};
ghost use Rattle.kernel_actions.specs.Lookups.{was_told};

use model_questions::answer::Answer;
use module_api::call::{Parameter, find_value};
use module_api::names::are_same;
use module_api::reply::Read;
use run_semantics::outcome::RunFault;
use sqlite_items::at;

/// Whether the parameter at that place has the name. Then there is one of that name.
fn has_at(parameters: &[Parameter], place: usize, name: &[u8]) -> bool
    ensures { result ≡ true → is_some (value_of name.now parameters.now) ≡ true }
{
    match at(parameters, place) {
        Some(parameter) => are_same(parameter.name.as_bytes(), name),
        None => false,
    }
}

/// Whether there is a parameter of that name. It is looked for at that place first.
fn has_named(parameters: &[Parameter], place: usize, name: &[u8]) -> bool
    ensures { result ≡ is_some (value_of name.now parameters.now) }
{
    has_at(parameters, place, name) || find_value(parameters, name).is_some()
}

/// Whether what was read is a parameter that the call had. It is looked for at that place first, as
/// modules mostly read their parameters in their order.
pub fn was_told(parameters: &[Parameter], place: usize, read: &Read) -> bool
    ensures { result ≡ was_told parameters.now read.now }
{
    match read {
        Read::Parameter(name) => has_named(parameters, place, name.as_bytes()),
        Read::Gate(_) => false,
    }
}

/// What is wrong with a read, by its answer.
pub fn fault_of_read(read: &Read, answer: &Answer) -> Option<RunFault>
    ensures { result ≡ fault_of_read read.now answer.now }
{
    match (read, answer) {
        (Read::Gate(_), Answer::Gate(_)) => None,
        (Read::Gate(_), _) => Some(RunFault::NoGate),
        (Read::Parameter(_), Answer::Value(_)) => None,
        (Read::Parameter(_), Answer::Fault(_, fault)) => Some(RunFault::Model(*fault)),
        (Read::Parameter(_), _) => Some(RunFault::NoParameter),
    }
}
