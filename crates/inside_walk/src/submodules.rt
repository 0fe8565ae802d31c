//! Submodules, their parameters and gates.

ghost use Rattle.std.specs.Prelude.{◌≡◌, ◌+◌, ◌-◌, ◌*◌, ◌≤◌, [], ◌∷◌, IfOk, IfSome, length};
ghost use Rattle.std.specs.Prelude.{slice_get, if◌then◌else◌};
ghost use Rattle.std.specs.Option.{option_copied};
ghost use Rattle.inside_keys.specs.Asked.{numbered_by, sized_by};
ghost use Rattle.inside_keys.specs.Inside as inside;
ghost use Rattle.inside_keys.specs.States as states;
ghost use Rattle.inside_parts.specs.Faults.{Tells};
ghost use Rattle.inside_walk.specs.Tasks.{Leads, after, continued, scope_of, size_by, sizes_task};
ghost use Rattle.inside_walk.specs.Tasks.{waited};
ghost use Rattle.inside_walk.specs.declared.task.Task.TheVariants as doing;
ghost use Rattle.inside_walk.specs.declared.task.Wait.TheVariants as on;
ghost use Rattle.inside_walk.specs.Weights.{Spends, of_section, of_gates, of_element, of_elements};
ghost use Rattle.inside_walk.specs.Weights.{of_submodule, of_submodules, of_type_gates, of_typed};
ghost use Rattle.inside_walk.specs.Weights.{of_types, of_wait};

use crate::task::{Ground, Next, Sort, Task, Wait};
use inside_keys::found::State;
use inside_keys::key::{Module, What};
use inside_keys::sizes::misplaced_in;
use inside_parts::fault::InsideError;
use inside_parts::gates::{TypeGate, TypeGates};
use inside_parts::parts::{Made, Part, Parts};
use inside_parts::stack::Stack;
use ned_trees::declarations::{SectionLine, Submodule, TypeDeclaration};
use sim_values::NoMemory;
use sim_values::model_fault::ModelFault;
use sim_values::text::Text;
use sim_values::value::Value;
use sim_values::value_fault::ValueFault;
use sqlite_items::Boxed;
use std::alloc::Global;

/// One gate vector more, of that size.
fn grown(alloc: Global, state: State, size: u32) -> Result<State, NoMemory>
    ensures { IfOk result (λ s. s ≡ states.grown state size) }
{
    let State {
        parts,
        wiring,
        turns,
        written,
    } = state;
    let wiring = wiring.into_inner().add(size)?;
    let wiring = Boxed::new(alloc, wiring)?;
    Ok(State {
        parts,
        wiring,
        turns,
        written,
    })
}

/// One part more, of the type of that number, whose gate vectors come next: an element of what was
/// declared last, or all of it.
fn part_added(state: State, number: usize, index: Option<u32>) -> Result<State, NoMemory>
    ensures { IfOk result (λ s. s ≡ states.part_added state number index) }
{
    let State {
        parts,
        wiring,
        turns,
        written,
    } = state;
    let Parts { made, mut parts } = parts;
    parts.push(Part {
        first: wiring.get().count(),
        of_type: number,
        is_own: false,
        line: made.len().saturating_sub(1),
        index,
    })?;
    Ok(State {
        parts: Parts { made, parts },
        wiring,
        turns,
        written,
    })
}

/// Notes what was made of a declaration.
fn noted(state: State, made_now: Made) -> Result<State, NoMemory>
    ensures { IfOk result (λ s. s ≡ states.noted state made_now) }
{
    let State {
        parts,
        wiring,
        turns,
        written,
    } = state;
    let Parts { mut made, parts } = parts;
    made.push(made_now)?;
    Ok(State {
        parts: Parts { made, parts },
        wiring,
        turns,
        written,
    })
}

/// The key's part that says which size of a gate is asked for.
fn size_of(alloc: Global, sort: Sort, name: &Text) -> Result<What, NoMemory>
    ensures { IfOk result (λ w. w ≡ size_by sort name.now) }
{
    let name = name.copy(alloc)?;
    Ok(match sort {
        Sort::Own => What::GateSize(name),
        Sort::Declared => What::Declared(name),
    })
}

/// Asks for the size of a gate, where it is a vector.
fn gate<'m>(
    alloc: Global,
    _ground: &Ground<'m>,
    tasks: &mut Stack<Task<'m>>,
    holder: Module,
    sort: Sort,
    gate: &'m TypeGate,
    rest: &'m [TypeGate],
    state: State,
) -> Result<Next<'m>, InsideError>
    ensures leads { Leads _ground.now result tasks.new (inside.gates holder (size_by sort)
        (gate.now ∷ rest.now) state (continued _ground.now tasks.old)) }
    ensures spends { Spends _ground.now (of_gates rest.now + 3) 0 tasks.old state.turns
        result tasks.new }
{
    if gate.kind.is_vector {
        let key = holder.key(alloc, size_of(alloc, sort, &gate.name)?)?;
        tasks.push(Task::Gates(holder, sort, rest))?;
        return Ok(Next::Ask(key, Wait::Gate, state));
    }
    tasks.push(Task::Gates(holder, sort, rest))?;
    let state = grown(alloc, state, 1)?;
    Ok(Next::Go(state))
}

/// Asks for the sizes of gates.
pub fn gates<'m>(
    alloc: Global,
    ground: &Ground<'m>,
    tasks: &mut Stack<Task<'m>>,
    holder: Module,
    sort: Sort,
    gates: &'m [TypeGate],
    state: State,
) -> Result<Next<'m>, InsideError>
    ensures leads { Leads ground.now result tasks.new
        (inside.gates holder (size_by sort) gates.now state (continued ground.now tasks.old)) }
    ensures spends { Spends ground.now (of_gates gates.now) 0 tasks.old state.turns
        result tasks.new }
{
    let Some((first, rest)) = gates.split_first() else {
        return Ok(Next::Go(state));
    };
    gate(alloc, ground, tasks, holder, sort, first, rest, state)
}

/// Asks for the value of a parameter, where the line declares one.
fn parameter<'m>(
    alloc: Global,
    _ground: &Ground<'m>,
    tasks: &mut Stack<Task<'m>>,
    holder: Module,
    line: &'m SectionLine,
    rest: &'m [SectionLine],
    state: State,
) -> Result<Next<'m>, InsideError>
    ensures leads { Leads _ground.now result tasks.new
        (inside.parameters holder (line.now ∷ rest.now) state (continued _ground.now tasks.old)) }
    ensures spends { Spends _ground.now (of_section rest.now + 3) 0 tasks.old state.turns
        result tasks.new }
{
    let SectionLine::Declaration(declaration) = line else {
        tasks.push(Task::Parameters(holder, rest))?;
        return Ok(Next::Go(state));
    };
    let key = holder.key(alloc, What::Param(declaration.name.copy(alloc)?))?;
    tasks.push(Task::Parameters(holder, rest))?;
    Ok(Next::Ask(key, Wait::Parameter, state))
}

/// Asks for the values of the parameters that these lines declare.
pub fn parameters<'m>(
    alloc: Global,
    ground: &Ground<'m>,
    tasks: &mut Stack<Task<'m>>,
    holder: Module,
    lines: &'m [SectionLine],
    state: State,
) -> Result<Next<'m>, InsideError>
    ensures leads { Leads ground.now result tasks.new
        (inside.parameters holder lines.now state (continued ground.now tasks.old)) }
    ensures spends { Spends ground.now (of_section lines.now) 0 tasks.old state.turns
        result tasks.new }
{
    let Some((first, rest)) = lines.split_first() else {
        return Ok(Next::Go(state));
    };
    parameter(alloc, ground, tasks, holder, first, rest, state)
}

/// The gates of the type of that number, if there is one.
fn gates_at(gates: &[TypeGates], number: usize) -> Option<&TypeGates>
    ensures { option_copied result ≡ slice_get gates.now number }
{
    gates.get(number)
}

/// The gates of the type of that number.
pub fn gates_of(gates: &[TypeGates], number: usize) -> &[TypeGate]
    ensures same { result.now ≡ inside.gates_in (slice_get gates.now number) }
    ensures weight { of_gates result.now ≤ of_type_gates gates.now }
{
    match gates_at(gates, number) {
        Some(found) => found.gates.as_slice(),
        None => &[],
    }
}

/// The lines of a type whose parameters have to have values.
fn asked_lines(is_whole: bool, declared: &TypeDeclaration) -> &[SectionLine]
    ensures lines { result.now ≡ (if is_whole then declared.now.lines else []) }
    ensures weight { of_section result.now ≤ of_section declared.now.lines }
{
    if is_whole {
        declared.lines.as_slice()
    } else {
        &[]
    }
}

/// What a line names and is no gate of a submodule of that type, which has that number, or sizes and
/// is no gate vector.
fn misplaced_of<'m>(
    ground: &Ground<'m>,
    submodule: &'m Submodule,
    number: usize,
    declared: &'m TypeDeclaration,
) -> Option<&'m Text>
    ensures { option_copied result ≡ inside.misplaced_of ground.now.site ground.now.types.now
        ground.now.gates.now ground.now.is_whole submodule.now number declared.now }
{
    misplaced_in(gates_at(ground.gates, number), declared, &submodule.body)
}

/// What asks for the declared sizes of a submodule's gates, where a line may speak of what is no
/// gate, or give a size to what is no gate vector.
fn sizes_task<'m>(holder: Module, misplaced: Option<&'m Text>, gates: &'m [TypeGate]) -> Task<'m>
    ensures { result ≡ sizes_task holder misplaced.entry gates.entry }
{
    match misplaced {
        Some(name) => Task::Misplaced(holder, name),
        None => Task::Gates(holder, Sort::Declared, gates),
    }
}

/// Asks for the size of what is no gate, or no gate vector, of that name.
pub fn misplaced<'m>(
    alloc: Global,
    _ground: &Ground<'m>,
    _tasks: &mut Stack<Task<'m>>,
    holder: Module,
    name: &'m Text,
    state: State,
) -> Result<Next<'m>, InsideError>
    ensures leads { Leads _ground.now result _tasks.new (after _ground.now (doing.Misplaced holder
        name.entry) (scope_of _tasks.old) state (continued _ground.now _tasks.old)) }
    ensures spends { Spends _ground.now 3 0 _tasks.old state.turns result _tasks.new }
{
    let key = holder.key(alloc, What::Declared(name.copy(alloc)?))?;
    Ok(Next::Ask(key, Wait::Parameter, state))
}

/// A submodule of that type, which has that number.
fn of_type<'m>(
    alloc: Global,
    ground: &Ground<'m>,
    tasks: &mut Stack<Task<'m>>,
    submodule: &'m Submodule,
    child: Module,
    index: Option<u32>,
    number: usize,
    declared: &'m TypeDeclaration,
    state: State,
) -> Result<Next<'m>, InsideError>
    requires { of_section declared.now.lines ≤ of_types ground.now.types.now }
    ensures leads { Leads ground.now result tasks.new (inside.element_of ground.now.site
        ground.now.types.now ground.now.gates.now ground.now.is_whole submodule.now child index
        number state (continued ground.now tasks.old) declared.now) }
    ensures spends { Spends ground.now (of_typed ground.now) 0 tasks.old state.turns
        result tasks.new }
{
    let holder = child.copy(alloc)?;
    let gates = gates_of(ground.gates, number);
    let misplaced = misplaced_of(ground, submodule, number, declared);
    let lines = asked_lines(ground.is_whole, declared);
    tasks.push(sizes_task(holder, misplaced, gates))?;
    tasks.push(Task::Parameters(child, lines))?;
    let state = part_added(state, number, index)?;
    Ok(Next::Go(state))
}

/// The type of that number, if there is one.
fn type_found(types: &[TypeDeclaration], number: usize) -> Option<&TypeDeclaration>
    ensures { option_copied result ≡ slice_get types.now number }
{
    types.get(number)
}

/// The type of that number, whose parameters are no more than those of all.
fn type_at(types: &[TypeDeclaration], number: usize) -> Option<&TypeDeclaration>
    ensures same { option_copied result ≡ slice_get types.now number }
    ensures weight { IfSome result (λ t. of_section t.now.lines ≤ of_types types.now) }
{
    type_found(types, number)
}

/// A submodule of the type of that number.
fn typed<'m>(
    alloc: Global,
    ground: &Ground<'m>,
    tasks: &mut Stack<Task<'m>>,
    submodule: &'m Submodule,
    child: Module,
    index: Option<u32>,
    number: usize,
    state: State,
) -> Result<Next<'m>, InsideError>
    ensures leads { Leads ground.now result tasks.new (inside.element_typed ground.now.site
        ground.now.types.now ground.now.gates.now ground.now.is_whole submodule.now child index
        number state (continued ground.now tasks.old)) }
    ensures spends { Spends ground.now (of_typed ground.now) 0 tasks.old state.turns
        result tasks.new }
{
    let Some(declared) = type_at(ground.types, number) else {
        return Err(InsideError::Fault(ModelFault::UnknownType));
    };
    of_type(
        alloc, ground, tasks, submodule, child, index, number, declared, state,
    )
}

/// A submodule: its type is asked for.
fn element<'m>(
    alloc: Global,
    ground: &Ground<'m>,
    _tasks: &mut Stack<Task<'m>>,
    submodule: &'m Submodule,
    index: Option<u32>,
    state: State,
) -> Result<Next<'m>, InsideError>
    ensures leads { Leads ground.now
        result _tasks.new (inside.element ground.now.site ground.now.types.now ground.now.gates.now
        ground.now.is_whole submodule.now index state (continued ground.now _tasks.old)) }
    ensures spends { Spends ground.now (of_element ground.now) 0 _tasks.old state.turns result
        _tasks.new }
{
    let child = ground.site.child(alloc, &submodule.name, index)?;
    let key = child.key(alloc, What::Type)?;
    Ok(Next::Ask(key, Wait::Type(submodule, index), state))
}

/// The index of the first of the last elements of a vector.
fn first_of(left: u32, all: u32) -> u32
    ensures { result ≡ all - left }
{
    all.saturating_sub(left)
}

/// The last elements of a vector.
pub fn elements<'m>(
    alloc: Global,
    ground: &Ground<'m>,
    tasks: &mut Stack<Task<'m>>,
    submodule: &'m Submodule,
    left: u32,
    all: u32,
    state: State,
) -> Result<Next<'m>, InsideError>
    ensures leads { Leads ground.now
        result tasks.new (inside.elements ground.now.site ground.now.types.now ground.now.gates.now
        ground.now.is_whole left all submodule.now state (continued ground.now tasks.old)) }
    ensures spends { Spends ground.now (of_elements ground.now left) 0 tasks.old state.turns
        result tasks.new }
{
    if left == 0 {
        return Ok(Next::Go(state));
    }
    let index = first_of(left, all);
    tasks.push(Task::Elements(submodule, left - 1, all))?;
    element(alloc, ground, tasks, submodule, Some(index), state)
}

/// What is made of a declaration whose condition holds.
fn submodule_there<'m>(
    alloc: Global,
    ground: &Ground<'m>,
    tasks: &mut Stack<Task<'m>>,
    submodule: &'m Submodule,
    state: State,
) -> Result<Next<'m>, InsideError>
    ensures leads { Leads ground.now result
        tasks.new (inside.submodule_there ground.now.site ground.now.types.now ground.now.gates.now
        ground.now.is_whole submodule.now state (continued ground.now tasks.old)) }
    ensures spends { Spends ground.now (65536 * of_element ground.now + of_element ground.now + 5) 0
        tasks.old state.turns result tasks.new }
{
    if submodule.size.is_some() {
        let key = ground
            .site
            .key(alloc, What::VectorSize(submodule.name.copy(alloc)?))?;
        return Ok(Next::Ask(key, Wait::Size(submodule), state));
    }
    let made = Made::Single(state.parts.parts.len());
    let state = noted(state, made)?;
    element(alloc, ground, tasks, submodule, None, state)
}

/// A declaration: its condition, and then what it makes.
fn submodule<'m>(
    alloc: Global,
    ground: &Ground<'m>,
    tasks: &mut Stack<Task<'m>>,
    submodule: &'m Submodule,
    state: State,
) -> Result<Next<'m>, InsideError>
    ensures leads { Leads ground.now
        result tasks.new (inside.submodule ground.now.site ground.now.types.now ground.now.gates.now
        ground.now.is_whole submodule.now state (continued ground.now tasks.old)) }
    ensures spends { Spends ground.now (of_submodule ground.now) 0 tasks.old state.turns
        result tasks.new }
{
    if submodule.condition.is_some() {
        let key = ground
            .site
            .key(alloc, What::Condition(submodule.name.copy(alloc)?))?;
        return Ok(Next::Ask(key, Wait::Condition(submodule), state));
    }
    submodule_there(alloc, ground, tasks, submodule, state)
}

/// The submodules in the order of their declaration.
pub fn submodules<'m>(
    alloc: Global,
    ground: &Ground<'m>,
    tasks: &mut Stack<Task<'m>>,
    submodules: &'m [Submodule],
    state: State,
) -> Result<Next<'m>, InsideError>
    ensures leads { Leads ground.now result
        tasks.new (inside.submodules ground.now.site ground.now.types.now ground.now.gates.now
        ground.now.is_whole submodules.now state (continued ground.now tasks.old)) }
    ensures spends { Spends ground.now (of_submodules ground.now submodules.now) 0 tasks.old
        state.turns result tasks.new }
{
    let Some((first, rest)) = submodules.split_first() else {
        return Ok(Next::Go(state));
    };
    tasks.push(Task::Submodules(rest))?;
    submodule(alloc, ground, tasks, first, state)
}

/// A size of 0 to 65,536.
pub fn size(value: &Value) -> Result<u32, InsideError>
    ensures tells { Tells result (sized_by value.now) }
    ensures small { IfOk result (λ n. n ≤ 65536) }
{
    match value {
        Value::Whole(number) => {
            if *number < 0 || *number > 65536 {
                Err(InsideError::Fault(ModelFault::GateSize))
            } else {
                Ok(*number as u32)
            }
        }
        _ => Err(InsideError::Fault(ModelFault::Value(ValueFault::Mismatch))),
    }
}

/// The number of a type.
pub fn number(value: &Value) -> Result<usize, InsideError>
    ensures { Tells result (numbered_by value.now) }
{
    match value {
        Value::Whole(number) => {
            if *number < 0 {
                Err(InsideError::Fault(ModelFault::Value(ValueFault::Mismatch)))
            } else {
                Ok(*number as usize)
            }
        }
        _ => Err(InsideError::Fault(ModelFault::Value(ValueFault::Mismatch))),
    }
}

/// Makes as many elements as the vector size says.
fn elements_begun<'m>(
    ground: &Ground<'m>,
    tasks: &mut Stack<Task<'m>>,
    submodule: &'m Submodule,
    size: u32,
    state: State,
) -> Result<Next<'m>, InsideError>
    requires { size ≤ 65536 }
    ensures leads { Leads ground.now result tasks.new (inside.elements ground.now.site
        ground.now.types.now ground.now.gates.now ground.now.is_whole size size submodule.now
        (states.noted state (Made.Vector (length state.parts.parts) size))
        (continued ground.now tasks.old)) }
    ensures spends { Spends ground.now (65536 * of_element ground.now + 3) 0 tasks.old state.turns
        result tasks.new }
{
    let made = Made::Vector(state.parts.parts.len(), size);
    let state = noted(state, made)?;
    tasks.push(Task::Elements(submodule, size, size))?;
    Ok(Next::Go(state))
}

/// Goes on with the value of a condition.
fn held<'m>(
    alloc: Global,
    ground: &Ground<'m>,
    tasks: &mut Stack<Task<'m>>,
    submodule: &'m Submodule,
    value: &Value,
    state: State,
) -> Result<Next<'m>, InsideError>
    ensures leads { Leads ground.now result tasks.new (waited ground.now
        (on.Condition submodule.entry) value.now state (continued ground.now tasks.old)) }
    ensures spends { Spends ground.now (65536 * of_element ground.now + of_element ground.now + 6) 0
        tasks.old state.turns result tasks.new }
{
    match value {
        Value::Truth(true) => submodule_there(alloc, ground, tasks, submodule, state),
        Value::Truth(false) => {
            let state = noted(state, Made::Absent)?;
            Ok(Next::Go(state))
        }
        _ => Err(InsideError::Fault(ModelFault::Value(ValueFault::Mismatch))),
    }
}

/// Goes on with the type of a submodule.
fn known<'m>(
    alloc: Global,
    ground: &Ground<'m>,
    tasks: &mut Stack<Task<'m>>,
    submodule: &'m Submodule,
    index: Option<u32>,
    value: &Value,
    state: State,
) -> Result<Next<'m>, InsideError>
    ensures leads { Leads ground.now result tasks.new (waited ground.now
        (on.Type submodule.entry index) value.now state (continued ground.now tasks.old)) }
    ensures spends { Spends ground.now (of_typed ground.now) 0 tasks.old state.turns
        result tasks.new }
{
    let number = number(value)?;
    let child = ground.site.child(alloc, &submodule.name, index)?;
    typed(alloc, ground, tasks, submodule, child, index, number, state)
}

/// Does what the value of a key is for.
pub fn waited<'m>(
    alloc: Global,
    ground: &Ground<'m>,
    tasks: &mut Stack<Task<'m>>,
    wait: Wait<'m>,
    value: &Value,
    state: State,
) -> Result<Next<'m>, InsideError>
    ensures leads { Leads ground.now result tasks.new
        (waited ground.now wait.entry value.now state (continued ground.now tasks.old)) }
    ensures spends { Spends ground.now (of_wait ground.now wait.entry) 0 tasks.old state.turns
        result tasks.new }
{
    match wait {
        Wait::Parameter => Ok(Next::Go(state)),
        Wait::Gate => {
            let size = size(value)?;
            let state = grown(alloc, state, size)?;
            Ok(Next::Go(state))
        }
        Wait::Condition(submodule) => held(alloc, ground, tasks, submodule, value, state),
        Wait::Size(submodule) => {
            let size = size(value)?;
            elements_begun(ground, tasks, submodule, size, state)
        }
        Wait::Type(submodule, index) => {
            known(alloc, ground, tasks, submodule, index, value, state)
        }
    }
}
