//! Boxes of modules that are deleted.

ghost use Rattle.std.specs.Prelude.{◌≡◌, ◌==◌, not};
ghost use Rattle.std.specs.List.{filter};
ghost use Rattle.run_semantics.specs.Subtree.{among};
ghost use Rattle.kernel_boxes.specs.Saved.{seats_held};

use module_api::simple_module::SimpleModule;
use module_tree::Tree;

/// Drops the boxes of the modules of these ids.
pub fn drop_those(boxes: &mut Tree<Box<dyn SimpleModule>>, ids: &[u32])
    ensures { seats_held SimpleModule-box boxes.new
        ≡ filter (λ s. not (among s.id ids.now)) (seats_held SimpleModule-box boxes.old) }
{
    for id in ids {
        drop_one(boxes, *id);
    }
}

/// Drops the box of the module of that id, if it has one.
fn drop_one(boxes: &mut Tree<Box<dyn SimpleModule>>, id: u32)
    ensures { seats_held SimpleModule-box boxes.new
        ≡ filter (λ s. not (id == s.id)) (seats_held SimpleModule-box boxes.old) }
{
    let _ids_rise = boxes.room();
    boxes.take(id);
}
