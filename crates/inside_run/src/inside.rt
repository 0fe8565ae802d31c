//! The inside of a compound module, as a key.

ghost use Rattle.std.specs.Prelude.{◌≡◌, ℕ, Some, slice_get};
ghost use Rattle.inside_keys.specs.Settings.{Whereabouts as standing_type};
ghost use Rattle.inside_keys.specs.Settings.{ModuleRules, type_gates};
ghost use Rattle.inside_keys.specs.Values as values;
ghost use Rattle.inside_keys.specs.declared.found.Found.TheVariants as found_as;
ghost use Rattle.inside_run.specs.Going.{Moves, goes_on, size_from};
ghost use Rattle.inside_run.specs.Runs.{AsksWithin, load_of};
ghost use Rattle.inside_run.specs.Scenes.{standing_by};
ghost use Rattle.inside_run.specs.Weights.{Costs, inside_weight};
ghost use Rattle.inside_run.specs.declared.progress.KeyProgress.TheVariants as waits;
ghost use Rattle.inside_walk.specs.Tasks.{halted};

use crate::posed::place_in;
use crate::progress::{KeyProgress, Moved, Walking};
use crate::run;
use crate::scene::{ModuleSource, Stands};
use inside_keys::found::{Found, Inside};
use inside_keys::key::Module;
use inside_keys::place::Section;
use inside_parts::fault::InsideError;
use inside_parts::gates::TypeGates;
use inside_parts::names::Names;
use inside_parts::stack::Stack;
use inside_walk::task::{Ground, Halt, Task};
use inside_wiring::ends::{gate_named, part_named};
use inside_wiring::wiring::Carrier;
use ned_trees::declarations::TypeDeclaration;
use sim_values::NoMemory;
use sim_values::model_fault::ModelFault;
use sim_values::text::Text;
use sim_values::value::Value;
use sqlite_items::Boxed;
use std::alloc::Global;

/// Where building has stopped.
fn halted<'m>(
    alloc: Global,
    ground: Ground<'m>,
    tasks: Stack<Task<'m>>,
    halt: Halt<'m>,
) -> Result<Moved<'m>, InsideError>
    ensures moves { (s : ModuleRules)
        → Moves s result (halted ground.entry tasks.entry halt.entry) }
    ensures costs { (s : ModuleRules) (n : ℕ) → AsksWithin ground.entry n tasks.entry halt.entry
        → Costs s n result }
{
    match halt {
        Halt::Asks(key, doing, state) => {
            let walking = Walking {
                ground,
                tasks,
                doing,
                state,
            };
            Ok(Moved::Asks(key, KeyProgress::Inside(Boxed::new(alloc, walking)?)))
        }
        Halt::Done(found) => Ok(Moved::Done(found)),
    }
}

/// Begins with the inside of a module of that type, which has that number.
pub fn begin_inside<'m, S: ModuleSource>(
    alloc: Global,
    scene: &'m S,
    site: Module,
    is_whole: bool,
    number: usize,
    declared: &'m TypeDeclaration,
) -> Result<Moved<'m>, InsideError>
    requires { slice_get (S.setting scene.now).types number ≡ Some declared.now }
    ensures moves { Moves (S.setting scene.now) result
        (values.inside_of (S.setting scene.now) site is_whole number declared.now) }
    ensures costs { Costs (S.setting scene.now)
        (inside_weight (S.setting scene.now) declared.now) result }
{
    let Some(submodules) = scene.submodules(number) else {
        return Err(InsideError::Fault(ModelFault::UnknownType));
    };
    let place = place_in(alloc, scene, &site, Section::OfInside)?;
    let ground = Ground {
        site,
        place,
        submodules,
        types: scene.types(),
        gates: scene.gates(),
        is_whole,
    };
    let mut tasks = Stack::new(alloc);
    let halt = run::start(alloc, &ground, &mut tasks, number, declared)?;
    halted(alloc, ground, tasks, halt)
}

/// Goes on with the value that an inside needs.
pub fn go_on_inside<'m>(
    alloc: Global,
    walking: Walking<'m>,
    value: &Value,
) -> Result<Moved<'m>, InsideError>
    ensures moves { (s : ModuleRules)
        → Moves s result (goes_on s (waits.Inside walking.entry) (found_as.Value value.now)) }
    ensures costs { (s : ModuleRules) → Costs s (load_of walking.entry.ground walking.entry.doing
        walking.entry.tasks walking.entry.state) result }
{
    let Walking {
        ground,
        mut tasks,
        doing,
        state,
    } = walking;
    let halt = run::go_on(alloc, &ground, &mut tasks, doing, state, value)?;
    halted(alloc, ground, tasks, halt)
}

/// Goes on with what a channel does that an inside needs.
pub fn carried_inside<'m>(
    alloc: Global,
    walking: Walking<'m>,
    carrier: Carrier,
) -> Result<Moved<'m>, InsideError>
    ensures moves { (s : ModuleRules)
        → Moves s result (goes_on s (waits.Inside walking.entry) (found_as.Carrier carrier)) }
    ensures costs { (s : ModuleRules) → Costs s (load_of walking.entry.ground walking.entry.doing
        walking.entry.tasks walking.entry.state) result }
{
    let Walking {
        ground,
        mut tasks,
        doing,
        state,
    } = walking;
    let halt = run::go_on_carrier(alloc, &ground, &mut tasks, doing, state, carrier)?;
    halted(alloc, ground, tasks, halt)
}

/// The size of a gate of that part.
fn size_of_gate<'m>(
    gates: &[TypeGates],
    gate: &Text,
    inside: &Inside,
    part: usize,
) -> Result<Moved<'m>, InsideError>
    ensures moves { (s : ModuleRules) (t : standing_type) → gates.now ≡ type_gates s
        → Moves s result (values.size_of_gate s t gate.now inside.now part) }
    ensures costs { (s : ModuleRules) → Costs s 0 result }
{
    let found = gate_named(
        gates,
        &inside.parts,
        inside.wiring.get().count(),
        part,
        gate,
    )?;
    let size = inside.wiring.get().size(found.vector);
    Ok(Moved::Done(Found::Value(Value::Whole(i64::from(size)))))
}

/// The size of a gate of what stands there, by the inside of the module around, whose submodules
/// have these names.
pub fn size_from<'m, S: ModuleSource>(
    scene: &S,
    names: &Names,
    stands: &Stands,
    gate: &Text,
    inside: &Inside,
) -> Result<Moved<'m>, InsideError>
    ensures moves { Moves (S.setting scene.now) result (size_from (S.setting scene.now) names.now
        (standing_by stands.now) gate.now (found_as.Inside inside.now)) }
    ensures costs { Costs (S.setting scene.now) 0 result }
{
    let part = part_named(names, &inside.parts, &stands.name, stands.index)?;
    size_of_gate(scene.gates(), gate, inside, part)
}
