//! What stands inside of a module, by the submodules of each.

ghost use Rattle.std.specs.Prelude.{◌≡◌, ◌++◌, OnOk};
ghost use Rattle.kernel_actions.specs.Walks.{last_below, living_below};
ghost use Rattle.run_semantics.specs.Subtree.{inner_first_to};

use child_table::ChildTable;
use id_lists::IdList;
use sim_values::NoMemory;
use sqlite_items::Items;

/// The greatest id of those that stand inside of a module, so many levels below at most, or its
/// own.
pub(crate) fn last_in(children: &ChildTable, depth: u32, id: u32) -> u32
    ensures { result ≡ last_below depth children.now id }
{
    if depth == 0 {
        return id;
    }
    let mut last = id;
    for inner in children.of(id) {
        last = last.max(last_in(children, depth - 1, *inner));
    }
    last
}

/// Adds a module and those below it that are not dead, each after its submodules; so many levels at
/// most.
pub(crate) fn push_inner_first(
    children: &ChildTable,
    dead: &IdList,
    depth: u32,
    id: u32,
    ids: &mut Items<u32>,
) -> Result<(), NoMemory>
    ensures { OnOk result (ids.new
        ≡ ids.old ++ inner_first_to depth (living_below children.now dead.now) id) }
{
    if depth == 0 {
        return Ok(());
    }
    for inner in children.of(id) {
        if !dead.has(*inner) {
            push_inner_first(children, dead, depth - 1, *inner, ids)?;
        }
    }
    ids.push(id)?;
    Ok(())
}
