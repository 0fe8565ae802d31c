//! Types that extend no other, and others after what they extend.

use crate::named::NamedTypes;
use crate::order::is_interface_kind;
use ned_trees::declarations::TypeDeclaration;
use sim_values::dropping::after;
use sim_values::text::Text;
use std::alloc::{AllocError, Global};

/// That a type extends another.
#[derive(Clone, Copy)]
struct Edge {
    /// The type that extends it.
    heir: usize,
    /// The next of those that extend the same type.
    next: Option<usize>,
}

/// Which types extend which, by their numbers.
#[derive(Drop)]
struct Web {
    /// How many of those that each type extends are not taken away.
    waiting: Vec<usize>,
    /// The first of the edges to each type.
    first: Vec<Option<usize>>,
    edges: Vec<Edge>,
}

/// Notes that the type of the second number extends that of the first.
fn add_edge(web: &mut Web, of: usize, heir: usize) -> Result<(), AllocError> {
    let edge = Some(web.edges.len());
    let Some(first) = web.first.get_mut(of) else {
        return Ok(());
    };
    let next = *first;
    *first = edge;
    web.edges.push(Edge { heir, next })?;
    if let Some(count) = web.waiting.get_mut(heir) {
        *count = count.saturating_add(1);
    }
    Ok(())
}

/// Notes that the type of that number extends the one of that name, where there is one.
fn add_named(
    web: &mut Web,
    named: &NamedTypes<'_>,
    heir: usize,
    name: &Text,
) -> Result<(), AllocError> {
    match named.number_of(name.as_bytes()) {
        Some(of) => add_edge(web, of, heir),
        None => Ok(()),
    }
}

/// Notes what the type of that number extends.
fn add_edges_of(
    web: &mut Web,
    named: &NamedTypes<'_>,
    heir: usize,
    declared: &TypeDeclaration,
) -> Result<(), AllocError> {
    if let Some(base) = &declared.base {
        add_named(web, named, heir, base)?;
    }
    if is_interface_kind(declared.kind) {
        for name in declared.interfaces.as_slice() {
            add_named(web, named, heir, name)?;
        }
    }
    Ok(())
}

/// Notes what each type extends.
fn add_edges(
    web: &mut Web,
    named: &NamedTypes<'_>,
    types: &[TypeDeclaration],
) -> Result<(), AllocError> {
    for _declared in types {
        web.waiting.push(0)?;
        web.first.push(None)?;
    }
    for (heir, declared) in types.iter().enumerate() {
        add_edges_of(web, named, heir, declared)?;
    }
    Ok(())
}

/// Which of the types extend which.
fn web_of(
    alloc: Global,
    named: &NamedTypes<'_>,
    types: &[TypeDeclaration],
) -> Result<Web, AllocError> {
    let mut web = Web {
        waiting: Vec::new(alloc),
        first: Vec::new(alloc),
        edges: Vec::new(alloc),
    };
    let done = add_edges(&mut web, named, types);
    after(web, done)
}

/// The edge at that place.
fn edge_at(web: &Web, at: Option<usize>) -> Option<Edge> {
    match web.edges.get(at?) {
        Some(edge) => Some(*edge),
        None => None,
    }
}

/// The first edge to the type of that number.
fn first_edge(web: &Web, number: usize) -> Option<usize> {
    match web.first.get(number) {
        Some(first) => *first,
        None => None,
    }
}

/// Counts one type less that the type of that number extends. Answers whether it extends none of
/// those that are left.
fn is_freed(web: &mut Web, heir: usize) -> bool {
    match web.waiting.get_mut(heir) {
        Some(count) => {
            *count = count.saturating_sub(1);
            *count == 0
        }
        None => false,
    }
}

/// Takes the type of that number away, and adds those that then extend none of those that are left.
fn take(web: &mut Web, taken: &mut Vec<usize>, number: usize) -> Result<(), AllocError> {
    let mut next = first_edge(web, number);
    for _step in 0..web.edges.len() {
        let Some(edge) = edge_at(web, next) else {
            break;
        };
        if is_freed(web, edge.heir) {
            taken.push(edge.heir)?;
        }
        next = edge.next;
    }
    Ok(())
}

/// Adds the types that extend no other.
fn add_roots(web: &Web, taken: &mut Vec<usize>) -> Result<(), AllocError> {
    for (number, count) in web.waiting.iter().enumerate() {
        if *count == 0 {
            taken.push(number)?;
        }
    }
    Ok(())
}

/// Takes types away, each after all that it extends, as long as there are such, and adds them in
/// this order.
fn take_all(web: &mut Web, taken: &mut Vec<usize>) -> Result<(), AllocError> {
    add_roots(web, taken)?;
    for at in 0..web.waiting.len() {
        let Some(number) = taken.get(at).copied() else {
            break;
        };
        take(web, taken, number)?;
    }
    Ok(())
}

/// The numbers of the types that extend no other, and of others after all that they extend. What a
/// circle leads to is left out.
pub(crate) fn roots_first(
    alloc: Global,
    named: &NamedTypes<'_>,
    types: &[TypeDeclaration],
) -> Result<Vec<usize>, AllocError> {
    let mut web = web_of(alloc, named, types)?;
    let mut taken = Vec::new(alloc);
    take_all(&mut web, &mut taken)?;
    Ok(taken)
}
