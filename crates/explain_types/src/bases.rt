//! What types extend.

use indexmap::IndexMap;
use ned_trees::declarations::{TypeDeclaration, TypeKind};
use sim_values::NoMemory;
use sim_values::dropping::after;
use sim_values::text::Text;
use std::alloc::{AllocError, Global};

/// The numbers of types by their names.
type Numbers<'a> = IndexMap<&'a [u8], usize>;

/// Adds the number of each type to none.
fn add_numbers<'a>(
    numbers: &mut Numbers<'a>,
    types: &'a [TypeDeclaration],
) -> Result<(), AllocError> {
    for (number, it) in types.iter().enumerate() {
        numbers.insert(it.name.as_bytes(), number)?;
    }
    Ok(())
}

/// The numbers of the types by their names.
fn numbers_of<'a>(alloc: Global, types: &'a [TypeDeclaration]) -> Result<Numbers<'a>, AllocError> {
    let mut numbers = IndexMap::new(alloc);
    let done = add_numbers(&mut numbers, types);
    after(numbers, done)
}

/// Whether it is an interface.
pub fn is_interface(kind: TypeKind) -> bool {
    matches!(kind, TypeKind::ModuleInterface | TypeKind::ChannelInterface)
}

/// The name of what a type extends that has that number among all that it extends.
fn extended(it: &TypeDeclaration, number: usize) -> Option<&Text> {
    if is_interface(it.kind) {
        return it.interfaces.as_slice().get(number);
    }
    if number == 0 { it.base.as_ref() } else { None }
}

/// A type on the way from another to what it extends.
#[derive(Clone, Copy)]
struct BaseStep<'a> {
    it: &'a TypeDeclaration,
    /// How many of those that it extends are done already.
    done: usize,
}

/// A way along types, each of which extends the next, and those that are done, each after all that
/// it extends.
#[derive(Drop)]
struct Way<'a, 'n> {
    types: &'a [TypeDeclaration],
    numbers: &'n Numbers<'a>,
    steps: Vec<BaseStep<'a>>,
    seen: Vec<bool>,
    behind: Vec<&'a TypeDeclaration>,
}

/// Goes to the type of that name, unless it was seen.
fn go_to(way: &mut Way<'_, '_>, name: &[u8]) -> Result<(), AllocError> {
    let Some(number) = way.numbers.get(name).copied() else {
        return Ok(());
    };
    let (Some(it), Some(seen)) = (way.types.get(number), way.seen.get_mut(number)) else {
        return Ok(());
    };
    if *seen {
        return Ok(());
    }
    *seen = true;
    way.steps.push(BaseStep { it, done: 0 })?;
    Ok(())
}

/// Goes on from the last type on the way, to the next that it extends, or back where there is none.
/// Answers whether there was a last one.
fn go_on(way: &mut Way<'_, '_>) -> Result<bool, AllocError> {
    let Some(last) = way.steps.pop() else {
        return Ok(false);
    };
    match extended(last.it, last.done) {
        Some(name) => {
            let done = last.done.saturating_add(1);
            way.steps.push(BaseStep { it: last.it, done })?;
            go_to(way, name.as_bytes())?;
        }
        None => way.behind.push(last.it)?,
    }
    Ok(true)
}

/// Goes the whole way from the type of that name.
fn go(way: &mut Way<'_, '_>, name: &[u8]) -> Result<(), AllocError> {
    go_to(way, name)?;
    for _step in 0..usize::MAX {
        if !go_on(way)? {
            break;
        }
    }
    Ok(())
}

/// All that a type extends, and itself at the end: each once, after all that it extends itself.
pub fn root_first<'a>(
    alloc: Global,
    types: &'a [TypeDeclaration],
    it: &TypeDeclaration,
) -> Result<Vec<&'a TypeDeclaration>, NoMemory> {
    let numbers = numbers_of(alloc, types)?;
    let mut way = Way {
        types,
        numbers: &numbers,
        steps: Vec::new(alloc),
        seen: vec![in alloc; false; types.len()]?,
        behind: Vec::new(alloc),
    };
    go(&mut way, it.name.as_bytes())?;
    let Way { behind, .. } = way;
    Ok(behind)
}

/// A type and all that it extends, the nearest first, where none extends itself.
pub fn with_bases<'a>(
    alloc: Global,
    types: &'a [TypeDeclaration],
    it: &TypeDeclaration,
) -> Result<Vec<&'a TypeDeclaration>, NoMemory> {
    let mut along = root_first(alloc, types, it)?;
    along.as_mut_slice().reverse();
    Ok(along)
}

/// Whether one of these types has that name.
pub fn has_named(types: &[&TypeDeclaration], name: &[u8]) -> bool {
    for it in types {
        if it.name.is(name) {
            return true;
        }
    }
    false
}

/// What a type of that kind is called.
pub fn kind_name(kind: TypeKind) -> &'static str {
    match kind {
        TypeKind::Simple => "simple module",
        TypeKind::Module => "compound module",
        TypeKind::Network => "network",
        TypeKind::Channel => "channel",
        TypeKind::ModuleInterface => "module interface",
        TypeKind::ChannelInterface => "channel interface",
    }
}

/// The kind of the interfaces of a type of that kind.
pub fn interface_kind(kind: TypeKind) -> TypeKind {
    match kind {
        TypeKind::Channel | TypeKind::ChannelInterface => TypeKind::ChannelInterface,
        _ => TypeKind::ModuleInterface,
    }
}
