//! What is wrong with a connection that names a submodule or a gate which isn't there, or takes one
//! that is taken, as it is written.

use crate::kinds::literal_in;
use crate::modules::module_of;
use explain_types::explanation::Explanation;
use inside_keys::found::Found;
use inside_keys::key::{Key, What};
use inside_run::values::{empty_table, value_of};
use model_answers::plain::PlainAnswers;
use ned_trees::connections::{
    Arrow, Connection, ConnectionItem, ConnectionLine, End, GateIndex, Half, Owner,
};
use ned_trees::declarations::{
    GateDeclaration, GateDirection, GateLine, GateSize, Submodule, TypeDeclaration,
};
use ned_trees::expressions::Expression;
use ned_types::flat::submodule_named;
use sim_values::NoMemory;
use sim_values::text::Text;
use sim_values::value::Value;
use std::alloc::Global;

/// A compound module one of whose connections has a fault.
#[derive(Clone, Copy)]
pub struct Around<'a> {
    pub answers: &'a PlainAnswers<'a>,
    pub path: &'a [u8],
    /// Its flat type.
    pub of: &'a TypeDeclaration,
}

/// What a connection takes of a gate: messages leave by it, or come in, or both.
#[derive(Clone, Copy, PartialEq, Eq)]
enum Way {
    Leaving,
    Coming,
    Both,
}

/// What it takes of the gate of its left end.
fn left_way(arrow: Arrow) -> Way {
    match arrow {
        Arrow::Right => Way::Leaving,
        Arrow::Left => Way::Coming,
        Arrow::Both => Way::Both,
    }
}

/// What it takes of the gate of its right end.
fn right_way(arrow: Arrow) -> Way {
    match arrow {
        Arrow::Right => Way::Coming,
        Arrow::Left => Way::Leaving,
        Arrow::Both => Way::Both,
    }
}

/// The number that an index is written as.
fn written_number(index: &Expression) -> Option<i64> {
    match literal_in(index) {
        Some((false, Value::Whole(number))) => Some(*number),
        Some((true, Value::Whole(number))) => number.checked_neg(),
        _ => None,
    }
}

/// Which submodule of a vector an index may mean: that of its number, or else the first one.
fn place_of(owner: &Owner) -> Option<u32> {
    match &owner.index {
        None => None,
        Some(index) => match written_number(index) {
            Some(number) if 0 <= number && number <= 65536 => Some(number as u32),
            _ => Some(0),
        },
    }
}

/// The type of the submodule that an end names, where there is one.
fn type_of_owner<'a>(
    alloc: Global,
    it: Around<'a>,
    owner: &Owner,
) -> Result<Option<&'a TypeDeclaration>, NoMemory> {
    let site = module_of(alloc, it.path)?;
    let child = site.child(alloc, &owner.name, place_of(owner))?;
    it.answers.type_at_path(alloc, child.path.as_bytes())
}

/// How many elements the vector of submodules of that name has, where that has a value.
fn size_of_vector(alloc: Global, it: Around<'_>, name: &Text) -> Result<Option<i64>, NoMemory> {
    let setting = it.answers.setting();
    let mut table = empty_table(alloc, setting);
    let site = module_of(alloc, it.path)?;
    let what = What::VectorSize(name.copy(alloc)?);
    let Ok(place) = value_of(alloc, setting, &mut table, Key { site, what })? else {
        return Ok(None);
    };
    match table.value(place) {
        Some(Found::Value(Value::Whole(size))) => Ok(Some(*size)),
        _ => Ok(None),
    }
}

/// Says a whole number.
fn say_whole(told: &mut Explanation, number: i64) {
    if number < 0 {
        told.say("-");
    }
    told.say_number(number.unsigned_abs() as usize);
}

/// Says an index in brackets, where it is written as a number.
fn say_number_in_brackets(told: &mut Explanation, index: &Expression) {
    told.say("[");
    match written_number(index) {
        Some(number) => say_whole(told, number),
        None => told.say(".."),
    }
    told.say("]");
}

/// Says an index in brackets, where there is one.
fn say_index(told: &mut Explanation, index: &Option<Expression>) {
    if let Some(index) = index {
        say_number_in_brackets(told, index);
    }
}

/// Says the name of a submodule, with its index.
fn say_owner(told: &mut Explanation, owner: &Owner) {
    told.say("'");
    told.say_front(owner.name.as_bytes());
    say_index(told, &owner.index);
    told.say("'");
}

/// Says a gate and whose it is.
fn say_gate(told: &mut Explanation, end: &End) {
    told.say_name(end.gate.name.as_bytes());
    told.say(" of ");
    match &end.owner {
        Some(owner) => say_owner(told, owner),
        None => told.say("the module itself"),
    }
}

/// Says a half of a gate, with the mark of the half.
fn say_half(told: &mut Explanation, half: Half) {
    match half {
        Half::Input => told.say("$i"),
        Half::Output => told.say("$o"),
    }
}

/// The names of the submodules that a type declares.
fn submodule_names<'a>(alloc: Global, of: &'a TypeDeclaration) -> Result<Vec<&'a [u8]>, NoMemory> {
    let mut names = Vec::new(alloc);
    for it in of.submodules.as_slice() {
        names.push(it.name.as_bytes())?;
    }
    Ok(names)
}

/// The names of the gates that a type declares.
fn gate_names<'a>(alloc: Global, of: &'a TypeDeclaration) -> Result<Vec<&'a [u8]>, NoMemory> {
    let mut names = Vec::new(alloc);
    for line in of.gates.as_slice() {
        if let GateLine::Declaration(gate) = line {
            names.push(gate.name.as_bytes())?;
        }
    }
    Ok(names)
}

/// Says which of these names is meant, where one is near, or else all of them.
fn say_known(told: &mut Explanation, name: &[u8], known: &[&[u8]]) {
    for it in known {
        if told.say_if_near(name, it) {
            return;
        }
    }
    told.say("; there are: ");
    told.say_list(known);
}

/// Says that no submodule has that name.
fn tell_no_submodule(told: &mut Explanation, it: Around<'_>, name: &[u8]) -> Result<(), NoMemory> {
    let names = submodule_names(told.alloc(), it.of)?;
    told.say("there is no submodule ");
    told.say_name(name);
    say_known(told, name, names.as_slice());
    Ok(())
}

/// Says that a vector has no element of that index, and whether that is so.
fn tell_outside(told: &mut Explanation, owner: &Owner, size: i64) -> bool {
    let number = match &owner.index {
        Some(index) => written_number(index),
        None => None,
    };
    match number {
        Some(number) if number < 0 || size <= number => {
            told.say("there is no ");
            say_owner(told, owner);
            told.say(": the size of ");
            told.say_name(owner.name.as_bytes());
            told.say(" is ");
            say_whole(told, size);
            true
        }
        _ => false,
    }
}

/// Says that a submodule isn't there, and whether that is so.
fn tell_absent(
    told: &mut Explanation,
    it: Around<'_>,
    owner: &Owner,
    declared: &Submodule,
) -> Result<bool, NoMemory> {
    let alloc = told.alloc();
    if let Some(size) = size_of_vector(alloc, it, &owner.name)? {
        if tell_outside(told, owner, size) {
            return Ok(true);
        }
    }
    if declared.condition.is_none() || type_of_owner(alloc, it, owner)?.is_some() {
        return Ok(false);
    }
    told.say("the submodule ");
    told.say_name(owner.name.as_bytes());
    told.say(" isn't there, as its condition is false: let the connection stand under it too");
    Ok(true)
}

/// Says what is wrong with the submodule that an end names, and whether something is.
fn tell_owner(told: &mut Explanation, it: Around<'_>, owner: &Owner) -> Result<bool, NoMemory> {
    let name = owner.name.as_bytes();
    let Some(declared) = submodule_named(name, it.of.submodules.as_slice()) else {
        tell_no_submodule(told, it, name)?;
        return Ok(true);
    };
    match (&declared.size, &owner.index) {
        (Some(_), None) => {
            told.say_name(name);
            told.say(" is a vector of submodules: name one of them, as ");
            told.say_front(name);
            told.say("[0]");
            Ok(true)
        }
        (None, Some(_)) => {
            told.say_name(name);
            told.say(" is no vector of submodules: leave its index out");
            Ok(true)
        }
        _ => tell_absent(told, it, owner, declared),
    }
}

/// The gate of that name that a type declares.
fn gate_of<'a>(of: &'a TypeDeclaration, name: &[u8]) -> Option<&'a GateDeclaration> {
    for line in of.gates.as_slice() {
        if let GateLine::Declaration(gate) = line {
            if gate.name.is(name) {
                return Some(gate);
            }
        }
    }
    None
}

/// Says that a type declares no gate of the name that an end has.
fn tell_no_gate(told: &mut Explanation, end: &End, of: &TypeDeclaration) -> Result<(), NoMemory> {
    let names = gate_names(told.alloc(), of)?;
    let name = end.gate.name.as_bytes();
    match &end.owner {
        Some(owner) => {
            told.say("the submodule ");
            say_owner(told, owner);
        }
        None => told.say("the module itself"),
    }
    told.say(" has no gate ");
    told.say_name(name);
    say_known(told, name, names.as_slice());
    Ok(())
}

/// Whether messages leave by a gate of that direction; those of the module itself are seen from
/// within.
fn leaves(direction: GateDirection, own: bool) -> bool {
    match direction {
        GateDirection::Input => own,
        GateDirection::Output => !own,
        GateDirection::Inout => true,
    }
}

/// Whether messages leave by a half of a gate.
fn half_leaves(half: Half, own: bool) -> bool {
    match half {
        Half::Input => own,
        Half::Output => !own,
    }
}

/// The word of a direction.
fn word_of(direction: GateDirection) -> &'static str {
    match direction {
        GateDirection::Input => "an input gate",
        GateDirection::Output => "an output gate",
        GateDirection::Inout => "an inout gate",
    }
}

/// Says that no messages leave by a gate, or come in by it.
fn say_other_way(told: &mut Explanation, way: Way) {
    if way == Way::Leaving {
        told.say(", by which no messages leave here: ");
    } else {
        told.say(", by which no messages come in here: ");
    }
}

/// Says what is wrong with a whole inout gate, and whether something is.
fn tell_whole(told: &mut Explanation, end: &End, way: Way) -> bool {
    if way == Way::Both {
        return false;
    }
    say_gate(told, end);
    told.say(" is an inout gate: write '<-->', or name a half of it, as ");
    told.say_front(end.gate.name.as_bytes());
    if (way == Way::Leaving) == end.owner.is_some() {
        told.say("$o");
    } else {
        told.say("$i");
    }
    true
}

/// Says what is wrong with a half of an inout gate, and whether something is.
fn tell_half(told: &mut Explanation, end: &End, half: Half, way: Way) -> bool {
    if way == Way::Both {
        told.say("'<-->' takes both halves of ");
        say_gate(told, end);
        told.say(": leave '");
        say_half(told, half);
        told.say("' out");
        return true;
    }
    if half_leaves(half, end.owner.is_none()) == (way == Way::Leaving) {
        return false;
    }
    told.say("'");
    say_half(told, half);
    told.say("' is the half of ");
    say_gate(told, end);
    say_other_way(told, way);
    told.say("name the other half, or turn the arrow round");
    true
}

/// Says what is wrong with the direction of an input or an output gate, and whether something is.
fn tell_one_way(told: &mut Explanation, end: &End, direction: GateDirection, way: Way) -> bool {
    if way == Way::Both {
        told.say("'<-->' joins two inout gates, and ");
        say_gate(told, end);
        told.say(" is ");
        told.say(word_of(direction));
        told.say(": write '-->' or '<--'");
        return true;
    }
    if leaves(direction, end.owner.is_none()) == (way == Way::Leaving) {
        return false;
    }
    say_gate(told, end);
    told.say(" is ");
    told.say(word_of(direction));
    say_other_way(told, way);
    told.say("turn the arrow round, or name another gate");
    true
}

/// Says what is wrong with the direction of the gate that an end names, and whether something is.
fn tell_direction(told: &mut Explanation, end: &End, gate: &GateDeclaration, way: Way) -> bool {
    match (gate.direction, end.gate.half) {
        (GateDirection::Inout, None) => tell_whole(told, end, way),
        (GateDirection::Inout, Some(half)) => tell_half(told, end, half, way),
        (direction, None) => tell_one_way(told, end, direction, way),
        (direction, Some(half)) => {
            say_gate(told, end);
            told.say(" is ");
            told.say(word_of(direction));
            told.say(", and has no halves: leave '");
            say_half(told, half);
            told.say("' out");
            true
        }
    }
}

/// Says what is wrong with the index of the gate that an end names, and whether something is.
fn tell_index(told: &mut Explanation, end: &End, gate: &GateDeclaration) -> bool {
    let is_vector = !matches!(gate.size, GateSize::Single);
    let name = end.gate.name.as_bytes();
    match (&end.gate.index, is_vector) {
        (None, true) => {
            say_gate(told, end);
            told.say(" is a vector of gates: name one of them, as ");
            told.say_front(name);
            told.say("[0], or write ");
            told.say_front(name);
            told.say("++");
            true
        }
        (Some(GateIndex::At(_)), false) => {
            say_gate(told, end);
            told.say(" is no vector of gates: leave its index out");
            true
        }
        (Some(GateIndex::Next), false) => {
            say_gate(told, end);
            told.say(" is no vector of gates: leave '++' out");
            true
        }
        _ => false,
    }
}

/// Says what is wrong with the gate of an end, whose module has that type, and whether something
/// is.
fn tell_gate(
    told: &mut Explanation,
    end: &End,
    of: &TypeDeclaration,
    way: Way,
) -> Result<bool, NoMemory> {
    let Some(gate) = gate_of(of, end.gate.name.as_bytes()) else {
        tell_no_gate(told, end, of)?;
        return Ok(true);
    };
    Ok(tell_direction(told, end, gate, way) || tell_index(told, end, gate))
}

/// Says what is wrong with an end of a connection, and whether something is.
fn tell_end(told: &mut Explanation, it: Around<'_>, end: &End, way: Way) -> Result<bool, NoMemory> {
    let Some(owner) = &end.owner else {
        return tell_gate(told, end, it.of, way);
    };
    if tell_owner(told, it, owner)? {
        return Ok(true);
    }
    match type_of_owner(told.alloc(), it, owner)? {
        Some(of) => tell_gate(told, end, of, way),
        None => Ok(false),
    }
}

/// Says what is wrong with a connection in each of its turns, and whether something is.
fn tell_connection(
    told: &mut Explanation,
    it: Around<'_>,
    connection: &Connection,
) -> Result<bool, NoMemory> {
    if tell_end(told, it, &connection.left, left_way(connection.arrow))? {
        return Ok(true);
    }
    tell_end(told, it, &connection.right, right_way(connection.arrow))
}

/// The vector of submodules of which an end names an element by an index that is not written as a
/// number.
fn open_vector(end: &End) -> Option<&Text> {
    let Some(owner) = &end.owner else {
        return None;
    };
    match &owner.index {
        Some(index) if written_number(index).is_none() => Some(&owner.name),
        _ => None,
    }
}

/// Says a vector of submodules and its size.
fn say_vector(told: &mut Explanation, it: Around<'_>, name: &Text) -> Result<(), NoMemory> {
    told.say_name(name.as_bytes());
    if let Some(size) = size_of_vector(told.alloc(), it, name)? {
        told.say(", whose size is ");
        say_whole(told, size);
        told.say(",");
    }
    Ok(())
}

/// Says that an index is outside of a vector in some turn of a connection with which nothing else is
/// wrong, and whether one can be.
fn tell_turn(
    told: &mut Explanation,
    it: Around<'_>,
    connection: &Connection,
) -> Result<bool, NoMemory> {
    let left = open_vector(&connection.left);
    let right = open_vector(&connection.right);
    let (one, other) = match (left, right) {
        (Some(one), Some(other)) if one.is(other.as_bytes()) => (one, None),
        (Some(one), other) => (one, other),
        (None, Some(one)) => (one, None),
        (None, None) => return Ok(false),
    };
    told.say("an index of ");
    say_vector(told, it, one)?;
    if let Some(other) = other {
        told.say(" or of ");
        say_vector(told, it, other)?;
    }
    told.say(" is outside of the vector in one of the turns");
    Ok(true)
}

/// What is wrong with a connection of that number in its item.
#[derive(Drop)]
pub struct Mistake {
    pub line: usize,
    pub words: Text,
}

/// What is wrong with a connection that stands by itself.
fn mistake_of_one(
    alloc: Global,
    it: Around<'_>,
    connection: &Connection,
) -> Result<Option<Mistake>, NoMemory> {
    let mut told = Explanation::new(alloc);
    if tell_connection(&mut told, it, connection)? || tell_turn(&mut told, it, connection)? {
        let words = told.said()?;
        return Ok(Some(Mistake { line: 0, words }));
    }
    Ok(None)
}

/// What is wrong with the first of these connections with which something is wrong whenever it is
/// made; those with loops and conditions of their own are not looked at, as they may never be made.
fn mistake_among(
    alloc: Global,
    it: Around<'_>,
    lines: &[ConnectionLine],
) -> Result<Option<Mistake>, NoMemory> {
    for (line, own) in lines.iter().enumerate() {
        let mut told = Explanation::new(alloc);
        if own.clauses.is_empty() && tell_connection(&mut told, it, &own.connection)? {
            let words = told.said()?;
            return Ok(Some(Mistake { line, words }));
        }
    }
    Ok(None)
}

/// What is wrong with the connections of an item with which a module has the fault that a submodule
/// or a gate isn't there, where that is seen of what is written.
pub fn mistake_in(
    alloc: Global,
    it: Around<'_>,
    item: &ConnectionItem,
) -> Result<Option<Mistake>, NoMemory> {
    match item {
        ConnectionItem::Line(line) => mistake_of_one(alloc, it, &line.connection),
        ConnectionItem::Group(group) => match group.lines.as_slice() {
            [one] if one.clauses.is_empty() => mistake_of_one(alloc, it, &one.connection),
            lines => mistake_among(alloc, it, lines),
        },
    }
}

// ---- gates that are taken

/// Whether two indexes are one, as numbers that are written, or none.
fn is_one_index(one: &Option<Expression>, other: &Option<Expression>) -> bool {
    match (one, other) {
        (None, None) => true,
        (Some(one), Some(other)) => {
            let number = written_number(one);
            number.is_some() && number == written_number(other)
        }
        _ => false,
    }
}

/// Whether two ends name one module.
fn is_one_owner(one: &Option<Owner>, other: &Option<Owner>) -> bool {
    match (one, other) {
        (None, None) => true,
        (Some(one), Some(other)) => {
            one.name.is(other.name.as_bytes()) && is_one_index(&one.index, &other.index)
        }
        _ => false,
    }
}

/// Whether two indexes of gates are one, as numbers that are written, or none.
fn is_one_place(one: &Option<GateIndex>, other: &Option<GateIndex>) -> bool {
    match (one, other) {
        (None, None) => true,
        (Some(GateIndex::At(one)), Some(GateIndex::At(other))) => {
            let number = written_number(one);
            number.is_some() && number == written_number(other)
        }
        _ => false,
    }
}

/// Whether two ends have no half, or one and the same, or one of them is both halves.
fn share_half(one: Option<Half>, other: Option<Half>) -> bool {
    match (one, other) {
        (Some(one), Some(other)) => one == other,
        _ => true,
    }
}

/// Whether two ends name one gate, as they are written.
fn is_one_gate(one: &End, other: &End) -> bool {
    is_one_owner(&one.owner, &other.owner)
        && one.gate.name.is(other.gate.name.as_bytes())
        && is_one_place(&one.gate.index, &other.gate.index)
        && share_half(one.gate.half, other.gate.half)
}

/// The connection of that number of an item.
fn line_of(item: &ConnectionItem, number: usize) -> Option<&Connection> {
    match item {
        ConnectionItem::Line(line) if number == 0 => Some(&line.connection),
        ConnectionItem::Line(_) => None,
        ConnectionItem::Group(group) => match group.lines.get(number) {
            Some(line) => Some(&line.connection),
            None => None,
        },
    }
}

/// How many connections an item has.
fn lines_in(item: &ConnectionItem) -> usize {
    match item {
        ConnectionItem::Line(_) => 1,
        ConnectionItem::Group(group) => group.lines.len(),
    }
}

/// Where a connection stands: the number of its item, and its own in that.
#[derive(Clone, Copy)]
pub struct Written {
    pub item: usize,
    pub line: usize,
}

/// The connection of an item that takes the gate.
fn taking_in(item: &ConnectionItem, end: &End) -> Option<usize> {
    for line in 0..lines_in(item) {
        if let Some(it) = line_of(item, line) {
            if is_one_gate(&it.left, end) || is_one_gate(&it.right, end) {
                return Some(line);
            }
        }
    }
    None
}

/// The first connection of these items that takes the gate.
fn taking(items: &[ConnectionItem], end: &End) -> Option<Written> {
    for (item, it) in items.iter().enumerate() {
        if let Some(line) = taking_in(it, end) {
            return Some(Written { item, line });
        }
    }
    None
}

/// A gate that two connections take.
#[derive(Clone, Copy)]
pub struct TakenTwice<'a> {
    pub end: &'a End,
    /// The number of the connection of the item that takes it again.
    pub line: usize,
    /// The connection of an item before that, which has it.
    pub first: Written,
}

/// The gate of an item of that number that a connection of the items before it has already, as they
/// are written.
pub fn taken_twice(items: &[ConnectionItem], number: usize) -> Option<TakenTwice<'_>> {
    let before = items.get(..number)?;
    let item = items.get(number)?;
    for line in 0..lines_in(item) {
        if let Some(it) = line_of(item, line) {
            if let Some(first) = taking(before, &it.left) {
                let end = &it.left;
                return Some(TakenTwice { end, line, first });
            }
            if let Some(first) = taking(before, &it.right) {
                let end = &it.right;
                return Some(TakenTwice { end, line, first });
            }
        }
    }
    None
}

/// Says that a gate is taken already.
pub fn tell_taken(told: &mut Explanation, end: &End) {
    say_gate(told, end);
    told.say(" is connected already");
}

// ---- gates outside of their vectors

/// Whether an end may name a gate that its vector doesn't have: by an index, or by `++` in one of the
/// module's own, which doesn't grow.
fn may_be_outside(end: &End) -> bool {
    match &end.gate.index {
        Some(GateIndex::At(_)) => true,
        Some(GateIndex::Next) => end.owner.is_none(),
        None => false,
    }
}

/// Says a gate with its index, and whose it is.
fn say_placed(told: &mut Explanation, end: &End) {
    told.say("'");
    told.say_front(end.gate.name.as_bytes());
    match &end.gate.index {
        Some(GateIndex::At(index)) => say_number_in_brackets(told, index),
        Some(GateIndex::Next) => told.say("++"),
        None => {}
    }
    told.say("' of ");
    match &end.owner {
        Some(owner) => say_owner(told, owner),
        None => told.say("the module itself"),
    }
}

/// The connection of an item that has no other.
fn only_line(item: &ConnectionItem) -> Option<&Connection> {
    if lines_in(item) == 1 {
        line_of(item, 0)
    } else {
        None
    }
}

/// Says which gate of a connection is outside of its vector, and whether that is seen.
pub fn tell_outside_of_vector(told: &mut Explanation, item: &ConnectionItem) -> bool {
    let Some(it) = only_line(item) else {
        return false;
    };
    match (may_be_outside(&it.left), may_be_outside(&it.right)) {
        (false, false) => return false,
        (true, false) => say_placed(told, &it.left),
        (false, true) => say_placed(told, &it.right),
        (true, true) => {
            say_placed(told, &it.left);
            told.say(", or ");
            say_placed(told, &it.right);
            told.say(",");
        }
    }
    told.say(" is outside of its vector of gates: declare a greater size, or connect another gate");
    true
}
