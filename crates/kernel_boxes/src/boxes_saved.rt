//! Boxes as the kinds and states of their modules: saved, and loaded again.

ghost use Rattle.std.specs.Prelude.{◌≡◌, ◌++◌, IsTrue, IfOk, OnOk, Some};
ghost use Rattle.module_api.specs.Behaviour.{Behaviour};
ghost use Rattle.module_api.specs.Meaning.{IsSameModule};
ghost use Rattle.run_semantics.specs.Event.{with_state};
ghost use Rattle.kernel_boxes.specs.Seats.{module_in, AreOfKinds, AreKept};
ghost use Rattle.kernel_boxes.specs.Saved.{seats_held, instances_held, instance_at, listed, Takes};
ghost use Rattle.kernel_boxes.specs.Saved.{IsLoaded};

use module_api::simple_module::SimpleModule;
use module_tree::Tree;
use run_semantics::traces::Instance;
use sim_values::NoMemory;
use sim_values::text::Text;
use sqlite_items::Items;
use std::alloc::Global;

/// The module of that id, with its kind and the state of its box, where it has one. No box changes.
pub fn save_one(
    boxes: &Tree<Box<dyn SimpleModule>>,
    alloc: Global,
    id: u32,
) -> Result<Option<Instance>, NoMemory>
    ensures { IfOk result (λ saved.
        saved ≡ instance_at id (module_in id (seats_held SimpleModule-box boxes.now))) }
{
    match boxes.get(id) {
        Some(held) => Ok(Some(instance_of(held, alloc, id)?)),
        None => Ok(None),
    }
}

/// The modules that have boxes, by rising ids, with the states of the boxes. No box changes.
pub fn save_all(
    boxes: &Tree<Box<dyn SimpleModule>>,
    alloc: Global,
) -> Result<Items<Instance>, NoMemory>
    ensures { IfOk result (λ saved. saved ≡ instances_held SimpleModule-box boxes.now) }
{
    let mut saved = Items::new(alloc);
    for index in 0..boxes.room() {
        add_one(boxes, alloc, index as u32, &mut saved)?;
    }
    Ok(saved)
}

/// Adds the module of that id, where it has a box.
fn add_one(
    boxes: &Tree<Box<dyn SimpleModule>>,
    alloc: Global,
    id: u32,
    saved: &mut Items<Instance>,
) -> Result<(), NoMemory>
    ensures { OnOk result (saved.new
        ≡ saved.old
        ++ listed (instance_at id (module_in id (seats_held SimpleModule-box boxes.now)))) }
{
    if let Some(instance) = save_one(boxes, alloc, id)? {
        saved.push(instance)?;
    }
    Ok(())
}

/// Loads a state into the box of the module of that id, which has one, of a kind that these bytes
/// are a state of. After NoMemory the box is still there and of its kind, and nothing is known of
/// its state.
pub fn load_one(
    boxes: &mut Tree<Box<dyn SimpleModule>>,
    alloc: Global,
    id: u32,
    state: &[u8],
) -> Result<(), NoMemory>
    requires { Takes state.now (module_in id (seats_held SimpleModule-box boxes.old)) }
    ensures state { OnOk result (instances_held SimpleModule-box boxes.new
        ≡ with_state id state.now (instances_held SimpleModule-box boxes.old)) }
    ensures loaded { IsLoaded id (seats_held SimpleModule-box boxes.old)
        (seats_held SimpleModule-box boxes.new) }
    ensures kept { (b : Behaviour) → AreOfKinds b (seats_held SimpleModule-box boxes.old)
        → AreKept b (seats_held SimpleModule-box boxes.old)
        (seats_held SimpleModule-box boxes.new) }
{
    let mut held = boxes.take(id).unwrap();
    let loaded = load(&mut held, alloc, state);
    boxes.put_back(id, held);
    loaded
}

/// The module of that id, which has this box.
fn instance_of(held: &Box<dyn SimpleModule>, alloc: Global, id: u32) -> Result<Instance, NoMemory>
    ensures { IfOk result (λ instance. Some instance ≡ instance_at id (Some (meaning held.now))) }
{
    Ok(Instance {
        id,
        kind: kind_of(held, alloc)?,
        state: save(held, alloc)?,
    })
}

/// The kind of a box.
fn kind_of(held: &Box<dyn SimpleModule>, alloc: Global) -> Result<Text, NoMemory>
    ensures { IfOk result (λ kind. kind ≡ (meaning held.now).kind) }
{
    Ok(Text::from_str(alloc, held.kind())?)
}

/// The state of a box.
fn save(held: &Box<dyn SimpleModule>, alloc: Global) -> Result<Text, NoMemory>
    ensures { IfOk result (λ saved. saved ≡ (meaning held.now).state) }
{
    held.save(alloc)
}

/// Loads a state into a box.
fn load(held: &mut Box<dyn SimpleModule>, alloc: Global, state: &[u8]) -> Result<(), NoMemory>
    requires { IsTrue ((meaning held.old).naming.is_state state.now) }
    ensures state { OnOk result ((meaning held.new).state ≡ state.now) }
    ensures same { IsSameModule (meaning held.old) (meaning held.new) }
{
    held.load(alloc, state)
}
