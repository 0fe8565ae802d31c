//! Going back: which boxes stay, and which are needed then.

ghost use Rattle.std.specs.Prelude.{◌≡◌, bytes_eq, Some, option_map};
ghost use Rattle.std.specs.List.{filter};
ghost use Rattle.std.specs.Option.{option_copied};
ghost use Rattle.run_semantics.specs.Run.{part_of, standing};
ghost use Rattle.kernel_boxes.specs.Seats.{module_in};
ghost use Rattle.kernel_boxes.specs.Saved.{instances_held, seats_held};
ghost use Rattle.kernel_boxes.specs.Staying.{after_id, first_without, is_first, is_held, staying};
ghost use Rattle.kernel_boxes.specs.Staying.{stays_at, IdsRise};

use module_api::simple_module::SimpleModule;
use module_tree::Tree;
use run_semantics::traces::Instance;

/// Drops each box that is of none of these modules, by its id and its kind. The modules have rising
/// ids.
pub fn drop_others(boxes: &mut Tree<Box<dyn SimpleModule>>, saved: &[Instance])
    requires { IdsRise 0 saved.now }
    ensures { seats_held SimpleModule-box boxes.new
        ≡ staying saved.now (seats_held SimpleModule-box boxes.old) }
{
    let mut left = saved;
    for index in 0..boxes.room() {
        drop_other(boxes, index as u32, left);
        left = after_id(index as u32, left);
    }
}

/// Drops the box of that id, unless it is of the first of these modules.
fn drop_other(boxes: &mut Tree<Box<dyn SimpleModule>>, id: u32, saved: &[Instance])
    ensures seats { seats_held SimpleModule-box boxes.new
        ≡ filter (stays_at id saved.now) (seats_held SimpleModule-box boxes.old) }
    ensures room { boxes.new.room ≡ boxes.old.room }
{
    let _ids_rise = boxes.room();
    if !is_first(boxes, id, saved) {
        boxes.take(id);
    }
}

/// The first of these modules that has no box.
pub fn first_lacking<'a>(
    boxes: &Tree<Box<dyn SimpleModule>>,
    saved: &'a [Instance],
) -> Option<&'a Instance>
    ensures { option_map part_of (option_copied result)
        ≡ first_without (standing (instances_held SimpleModule-box boxes.now))
        (standing saved.now) }
{
    for instance in saved {
        if !holds(boxes, instance.id) {
            return Some(instance);
        }
    }
    None
}

/// Whether the module of that id has a box.
fn holds(boxes: &Tree<Box<dyn SimpleModule>>, id: u32) -> bool
    ensures { result ≡ is_held id (standing (instances_held SimpleModule-box boxes.now)) }
{
    match boxes.get(id) {
        Some(_held) => true,
        None => false,
    }
}

/// Whether the box of that id is of the first of these modules.
fn is_first(boxes: &Tree<Box<dyn SimpleModule>>, id: u32, saved: &[Instance]) -> bool
    ensures { result
        ≡ is_first id saved.now (module_in id (seats_held SimpleModule-box boxes.now)) }
{
    match boxes.get(id) {
        Some(held) => is_of_first(held, id, saved),
        None => false,
    }
}

/// Whether the box of that id is of the first of these modules.
fn is_of_first(held: &Box<dyn SimpleModule>, id: u32, saved: &[Instance]) -> bool
    ensures { result ≡ is_first id saved.now (Some (meaning held.now)) }
{
    match saved.split_first() {
        Some((first, _)) => first.id == id && is_of_kind(held, first),
        None => false,
    }
}

/// Whether a box is of the kind of a module.
fn is_of_kind(held: &Box<dyn SimpleModule>, saved: &Instance) -> bool
    ensures { result ≡ bytes_eq saved.now.kind (meaning held.now).kind }
{
    saved.kind.is(held.kind().as_bytes())
}

/// Of these modules those after the one of that id, where it is the first.
fn after_id(id: u32, saved: &[Instance]) -> &[Instance]
    ensures { result.now ≡ after_id id saved.now }
{
    match saved {
        [first, after @ ..] if first.id == id => after,
        _ => saved,
    }
}
