//! Loop variables.

ghost use Rattle.std.specs.Prelude.{◌≡◌, [], ◌∷◌, List};
ghost use Rattle.inside_keys.specs.Places.{Scope, variable_in};
ghost use Rattle.inside_run.specs.Runs.{or_else};
ghost use Rattle.inside_walk.specs.Tasks.{scope_of};
ghost use Rattle.inside_walk.specs.declared.task.Task.{Task as task_type};

use inside_keys::place::Binding;
use inside_parts::stack::Stack;
use inside_walk::task::Task;
use sim_values::text::Text;

/// Who knows the loop variables in scope.
pub trait Variables {
    /// The loop variables in scope, the innermost first.
    ghost scope: { Self → Scope };

    /// The value of a loop variable, where the name is one in scope.
    fn value_of(&self, name: &Text) -> Option<i64>
        ensures { result ≡ variable_in (scope self.now) name.now };
}

/// No loop variable is in scope.
pub struct NoVariables;

impl Variables for NoVariables {
    ghost scope = { λ none. [] };

    fn value_of(&self, _name: &Text) -> Option<i64> {
        None
    }
}

/// The value of a variable of these bindings.
fn bound_in(bindings: &Stack<Binding>, name: &Text) -> Option<i64>
    ensures { result ≡ variable_in bindings.now name.now }
{
    for depth in 0..bindings.len() {
        if let Some(binding) = bindings.at(depth) {
            if binding.variable.is(name.as_bytes()) {
                return Some(binding.value);
            }
        }
    }
    None
}

impl Variables for Stack<Binding> {
    ghost scope = { λ bindings. bindings };

    fn value_of(&self, name: &Text) -> Option<i64> {
        bound_in(self, name)
    }
}

/// The value that a loop gives a variable, if it is the loop's.
fn bound_by(task: &Task<'_>, name: &Text) -> Option<i64>
    ensures { (ts : List task_type) → variable_in (scope_of (task.now ∷ ts)) name.now
        ≡ or_else result (variable_in (scope_of ts) name.now) }
{
    match task {
        Task::Turns(variable, number, _, _, _) => {
            if variable.is(name.as_bytes()) {
                Some(*number)
            } else {
                None
            }
        }
        _ => None,
    }
}

/// The value of a variable of the loops that have begun.
fn variable_in(tasks: &Stack<Task<'_>>, name: &Text) -> Option<i64>
    ensures { result ≡ variable_in (scope_of tasks.now) name.now }
{
    for depth in 0..tasks.len() {
        if let Some(task) = tasks.at(depth) {
            if let Some(number) = bound_by(task, name) {
                return Some(number);
            }
        }
    }
    None
}

impl<'m> Variables for Stack<Task<'m>> {
    ghost scope = { λ tasks. scope_of tasks };

    fn value_of(&self, name: &Text) -> Option<i64> {
        variable_in(self, name)
    }
}
