//! The modules of one path each, as a group.

ghost use Rattle.std.specs.HashMap.{get};
ghost use Rattle.std.specs.Prelude.{◌≡◌, ◌<◌, ◌∷◌, ◌++◌, [], ℕ, min, List, Option, OnErr, OnOk, IfOk};
ghost use Rattle.std.specs.Prelude.{Some, None, false, length, slice_get, slice_set, true};
ghost use Rattle.std.specs.Str.{bytes_eq};
ghost use Rattle.path_table.specs.Groups.{AreGrouped, IsFrontBefore, IsGroupOf, begins_dead};
ghost use Rattle.path_table.specs.Groups.{dead_in, dead_number, is_from, numbers_of};
ghost use Rattle.path_table.specs.Paths.{first_living, with_dead};
ghost use Rattle.path_table.specs.declared.ModuleAt.{ModuleAt as module_type};
ghost use Rattle.path_table.specs.declared.groups.Group.{Group as group_type};

use crate::ModuleAt;
use sim_values::NoMemory;
use sim_values::text::Text;
use sqlite_items::Items;
use std::alloc::{AllocError, Global};
use std::collections::HashMap;

/// The modules of one path.
#[derive(Drop)]
pub(crate) struct Group {
    /// Their numbers, which rise.
    pub(crate) numbers: Items<usize>,
    /// All that stand before this place are dead.
    pub(crate) front: usize,
}

/// Whether there is a module of that number, and it is dead.
fn is_dead(modules: &[ModuleAt], number: usize) -> bool
    ensures { result ≡ dead_in (slice_get modules.now number) }
{
    match modules.get(number) {
        Some(found) => found.is_dead,
        None => false,
    }
}

/// Whether a number stands at that place, and its module is dead.
fn is_dead_at(modules: &[ModuleAt], numbers: &[usize], place: usize) -> bool
    ensures { result ≡ dead_number modules.now (slice_get numbers.now place) }
{
    match numbers.get(place) {
        Some(number) => is_dead(modules, *number),
        None => false,
    }
}

/// The first place from that one on at which no number of a dead module stands.
fn front_from(modules: &[ModuleAt], numbers: &[usize], front: usize) -> usize
    ensures dead { (path : List ℕ) → numbers.now ≡ numbers_of path 0 modules.now
        → begins_dead path front modules.now ≡ true → begins_dead path result modules.now ≡ true }
    ensures stops { dead_number modules.now (slice_get numbers.now result) ≡ false }
{
    let mut place = front;
    'places: while is_dead_at(modules, numbers, place) {
        place += 1;
    }
    place
}

/// The front of a group, past those that are dead.
fn front_in(modules: &[ModuleAt], group: &Group) -> usize
    ensures dead { (path : List ℕ) → IsGroupOf path modules.now group.now
        → begins_dead path result modules.now ≡ true }
    ensures stops { dead_number modules.now (slice_get group.now.numbers result) ≡ false }
{
    front_from(modules, group.numbers.as_slice(), group.front)
}

/// The first module of a group that lives.
fn first_in(modules: &[ModuleAt], group: &Group) -> Option<usize>
    ensures { (path : List ℕ) → IsGroupOf path modules.now group.now
        → result ≡ first_living path modules.now }
{
    let front = front_in(modules, group);
    group.numbers.get(front).copied()
}

/// The first module that lives of the group of that number.
pub(crate) fn find_first(modules: &[ModuleAt], members: &[Group], place: usize) -> Option<usize>
    ensures { (path : List ℕ) (group : group_type) → slice_get members.now place ≡ Some group
        → IsGroupOf path modules.now group → result ≡ first_living path modules.now }
{
    match members.get(place) {
        Some(group) => first_in(modules, group),
        None => None,
    }
}

/// The number of the group of a path, which is made where there is none yet.
pub(crate) fn group_of(
    alloc: Global,
    groups: &mut HashMap<Text, usize>,
    members: &mut Vec<Group>,
    path: &Text,
) -> Result<usize, NoMemory>
    ensures found { IfOk result (λ place. get bytes_eq groups.new path.now ≡ Some place) }
    ensures kept { (modules : List module_type)
        → AreGrouped modules (get bytes_eq groups.old) members.old.items
        → AreGrouped modules (get bytes_eq groups.new) members.new.items }
{
    if let Some(place) = groups.get(path) {
        return Ok(*place);
    }
    make_group(alloc, groups, members, path)
}

/// How many groups there are.
fn count(members: &Vec<Group>) -> usize
    ensures { result ≡ length members.now.items }
{
    members.len()
}

/// Makes the group of a path that has none yet.
fn make_group(
    alloc: Global,
    groups: &mut HashMap<Text, usize>,
    members: &mut Vec<Group>,
    path: &Text,
) -> Result<usize, NoMemory>
    requires { get bytes_eq groups.old path.now ≡ None }
    ensures found { IfOk result (λ place. get bytes_eq groups.new path.now ≡ Some place) }
    ensures kept { (modules : List module_type)
        → AreGrouped modules (get bytes_eq groups.old) members.old.items
        → AreGrouped modules (get bytes_eq groups.new) members.new.items }
{
    let copy = path.copy(alloc)?;
    let place = count(members);
    members.push(Group {
        numbers: Items::new(alloc),
        front: 0,
    })?;
    // Where this fails a group without a path is left, which is nothing to any path.
    groups.insert(copy, place)?;
    Ok(place)
}

/// A group has one more module, the last that was created.
pub(crate) fn add_number(
    members: &mut Vec<Group>,
    place: usize,
    number: usize,
) -> Result<(), AllocError>
    requires { place < length members.old.items }
    ensures ok { OnOk result ((modules : List module_type) (more : module_type)
        (groups : List ℕ → Option ℕ) → groups more.path ≡ Some place → number ≡ length modules
        → AreGrouped modules groups members.old.items
        → AreGrouped (modules ++ more ∷ []) groups members.new.items) }
    ensures err { OnErr result ((modules : List module_type) (groups : List ℕ → Option ℕ)
        → AreGrouped modules groups members.old.items
        → AreGrouped modules groups members.new.items) }
{
    members[place].numbers.push(number)
}

/// The last number leaves, and the front is no further than the others reach.
fn drop_last(group: &mut Group)
    ensures { (numbers : List ℕ) (last : ℕ) → group.old.numbers ≡ numbers ++ last ∷ []
        → group.new ≡ record { numbers = numbers; front = min group.old.front (length numbers) } }
{
    group.numbers.pop();
    if group.front > group.numbers.len() {
        group.front = group.numbers.len();
    }
}

/// A group is without its last module, the last that was created.
pub(crate) fn drop_number(members: &mut Vec<Group>, place: usize)
    requires { place < length members.old.items }
    ensures { (modules : List module_type) (last : module_type) (groups : List ℕ → Option ℕ)
        → groups last.path ≡ Some place
        → AreGrouped (modules ++ last ∷ []) groups members.old.items
        → AreGrouped modules groups members.new.items }
{
    drop_last(&mut members[place]);
}

/// The number of the group of a module.
fn group_at(groups: &HashMap<Text, usize>, modules: &[ModuleAt], number: usize) -> Option<usize>
    ensures { (found : module_type) → slice_get modules.now number ≡ Some found
        → result ≡ get bytes_eq groups.now found.path }
{
    let found = modules.get(number)?;
    groups.get(&found.path).copied()
}

/// The front of a group that has that number, past those that are dead.
fn settled(modules: &[ModuleAt], members: &[Group], place: usize) -> usize
    ensures { (path : List ℕ) (group : group_type) → slice_get members.now place ≡ Some group
        → IsGroupOf path modules.now group → begins_dead path result modules.now ≡ true }
{
    match members.get(place) {
        Some(group) => front_in(modules, group),
        None => 0,
    }
}

/// The front of a group is there.
fn set_front(members: &mut Vec<Group>, place: usize, front: usize)
    requires { place < length members.old.items }
    ensures { (group : group_type) → slice_get members.old.items place ≡ Some group
        → members.new.items ≡ slice_set members.old.items place
        (record { numbers = group.numbers; front = front }) }
{
    members[place].front = front;
}

/// The front of a module's group goes past those that are dead.
pub(crate) fn settle(
    groups: &HashMap<Text, usize>,
    modules: &[ModuleAt],
    members: &mut Vec<Group>,
    number: usize,
)
    requires there { number < length modules.now }
    requires grouped { AreGrouped modules.now (get bytes_eq groups.now) members.old.items }
    ensures { AreGrouped modules.now (get bytes_eq groups.now) members.new.items }
{
    match group_at(groups, modules, number) {
        Some(place) => {
            let front = settled(modules, members.as_slice(), place);
            set_front(members, place, front);
        }
        None => {}
    }
}

/// Whether a number stands at that place that is no less than the other.
fn is_from(numbers: &[usize], place: usize, number: usize) -> bool
    ensures { result ≡ is_from number (slice_get numbers.now place) }
{
    match numbers.get(place) {
        Some(found) => number <= *found,
        None => false,
    }
}

/// The last place up to that one before which no number stands that is no less than the other.
fn front_before(numbers: &[usize], front: usize, number: usize) -> usize
    ensures { IsFrontBefore number numbers.now front result }
{
    let mut place = front;
    'places: while place > 0 {
        if !is_from(numbers, place - 1, number) {
            return place;
        }
        place -= 1;
    }
    place
}

/// The front of a group, no further than the module of that number.
fn reopened(members: &[Group], place: usize, number: usize) -> usize
    ensures { (group : group_type) → slice_get members.now place ≡ Some group
        → IsFrontBefore number group.numbers group.front result }
{
    match members.get(place) {
        Some(group) => front_before(group.numbers.as_slice(), group.front, number),
        None => 0,
    }
}

/// The front of a module's group is no further than the module, so that it may live.
pub(crate) fn start_over(
    groups: &HashMap<Text, usize>,
    modules: &[ModuleAt],
    members: &mut Vec<Group>,
    number: usize,
)
    requires there { number < length modules.now }
    requires grouped { AreGrouped modules.now (get bytes_eq groups.now) members.old.items }
    ensures { AreGrouped (with_dead modules.now number false) (get bytes_eq groups.now)
        members.new.items }
{
    match group_at(groups, modules, number) {
        Some(place) => {
            let front = reopened(members.as_slice(), place, number);
            set_front(members, place, front);
        }
        None => {}
    }
}
