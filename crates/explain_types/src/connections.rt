//! What is wrong with the channels of connections.

use crate::bases::root_first;
use crate::explanation::Explanation;
use crate::members::{Clash, clash_over, is_declaration, parted, tell_fixed, tell_near};
use crate::ned_files::{Files, type_named};
use crate::origins::{Kind, has_parameter, is_built_in, origin_of};
use crate::places::{Sign, Spot};
use ned_trees::connections::{Channel, ConnectionItem, ConnectionLine};
use ned_trees::declarations::{GateLine, SectionLine, TypeDeclaration, TypeKind};
use ned_types::flat::submodule_named;
use ned_types::given::{gives, name_in};

/// A channel in the text of a type.
#[derive(Clone, Copy)]
struct Site<'a> {
    it: &'a TypeDeclaration,
    channel: &'a Channel,
    /// How many arrows stand before its connection among the connections of the type.
    arrows: usize,
}

/// How many arrows a connection has.
fn arrows_of(line: &ConnectionLine) -> usize {
    if line.connection.channel.is_some() {
        2
    } else {
        1
    }
}

/// How many arrows these have.
fn arrows_in(lines: &[ConnectionLine]) -> usize {
    let mut count = 0usize;
    for line in lines {
        count = count.saturating_add(arrows_of(line));
    }
    count
}

/// How many arrows an item has.
fn arrows_of_item(item: &ConnectionItem) -> usize {
    match item {
        ConnectionItem::Line(line) => arrows_of(line),
        ConnectionItem::Group(group) => arrows_in(group.lines.as_slice()),
    }
}

/// The connection of that number of an item, and how many arrows stand before it in the item.
fn line_at(item: &ConnectionItem, number: usize) -> Option<(&ConnectionLine, usize)> {
    match item {
        ConnectionItem::Line(line) => Some((line, 0)),
        ConnectionItem::Group(group) => {
            let lines = group.lines.as_slice();
            Some((lines.get(number)?, arrows_in(lines.get(..number)?)))
        }
    }
}

/// How many arrows stand before the item of that number.
fn arrows_before(it: &TypeDeclaration, item: usize) -> Option<usize> {
    let mut arrows = 0usize;
    for before in it.connections.items.as_slice().get(..item)? {
        arrows = arrows.saturating_add(arrows_of_item(before));
    }
    Some(arrows)
}

/// How many arrows stand before the connection of that number of the item of that number.
fn arrows_before_line(it: &TypeDeclaration, item: usize, line: usize) -> Option<usize> {
    let arrows = arrows_before(it, item)?;
    let (_, within) = line_at(it.connections.items.as_slice().get(item)?, line)?;
    Some(arrows.saturating_add(within))
}

/// The channel of the connection of that number of the item of that number.
fn site_at(it: &TypeDeclaration, item: usize, line: usize) -> Option<Site<'_>> {
    let arrows = arrows_before(it, item)?;
    let (line, within) = line_at(it.connections.items.as_slice().get(item)?, line)?;
    Some(Site {
        it,
        channel: line.connection.channel.as_ref()?,
        arrows: arrows.saturating_add(within),
    })
}

/// The same in the flat type of the last of these types.
fn flat_site<'a>(order: &[&'a TypeDeclaration], item: usize, line: usize) -> Option<Site<'a>> {
    let origin = origin_of(order, Kind::Item, item)?;
    site_at(origin.it, origin.at, line)
}

/// Says where a connection of the type stands that is after so many arrows: `path:line`.
fn say_behind(told: &mut Explanation, files: &Files<'_>, it: &TypeDeclaration, arrows: usize) {
    let spot = Spot {
        body: None,
        sign: Sign::Arrow,
        name: b"",
        behind: arrows,
    };
    files.tell_place(told, it, spot);
}

/// Says the same, and begins what is wrong with it: `path:line: `.
fn begin_behind(told: &mut Explanation, files: &Files<'_>, it: &TypeDeclaration, arrows: usize) {
    say_behind(told, files, it, arrows);
    told.say(": ");
}

/// Says where the connection stands: `path:line: `.
fn begin(told: &mut Explanation, files: &Files<'_>, site: Site<'_>) {
    begin_behind(told, files, site.it, site.arrows);
}

/// Says where the item of that number of the flat type of the last of these types stands, which are
/// all that it extends, the root first: `path:line: `.
pub fn tell_place_of_item(
    told: &mut Explanation,
    files: &Files<'_>,
    order: &[&TypeDeclaration],
    item: usize,
) {
    if let Some(origin) = origin_of(order, Kind::Item, item) {
        if let Some(arrows) = arrows_before(origin.it, origin.at) {
            begin_behind(told, files, origin.it, arrows);
        }
    }
}

/// Says where the connection of that number of the item of that number stands, likewise, but no
/// colon after it: `path:line`.
pub fn say_place_of_connection(
    told: &mut Explanation,
    files: &Files<'_>,
    order: &[&TypeDeclaration],
    item: usize,
    line: usize,
) {
    if let Some(origin) = origin_of(order, Kind::Item, item) {
        if let Some(arrows) = arrows_before_line(origin.it, origin.at, line) {
            say_behind(told, files, origin.it, arrows);
        }
    }
}

/// Says where one of these types declares the submodule of that name: `path:line: `.
pub fn tell_place_of_submodule(
    told: &mut Explanation,
    files: &Files<'_>,
    order: &[&TypeDeclaration],
    name: &[u8],
) {
    for it in order {
        if submodule_named(name, it.submodules.as_slice()).is_some() {
            return files.begin(told, *it, Sign::Submodule, name);
        }
    }
}

/// Says where one of these types declares the gate of that name: `path:line: `.
pub fn tell_place_of_gate(
    told: &mut Explanation,
    files: &Files<'_>,
    order: &[&TypeDeclaration],
    name: &[u8],
) {
    for it in order {
        for line in it.gates.as_slice() {
            if let GateLine::Declaration(declared) = line {
                if declared.name.is(name) {
                    return files.begin(told, *it, Sign::Gate, name);
                }
            }
        }
    }
}

/// Says what the channel of a connection is called.
fn tell_name(told: &mut Explanation, files: &Files<'_>, site: Site<'_>, name: &[u8]) {
    begin(told, files, site);
    told.say("the channel of the connection is of the type ");
    told.say_name(name);
}

/// Says that no file declares the channel of a connection of the type.
pub fn tell_unknown_channel(
    told: &mut Explanation,
    files: &Files<'_>,
    it: &TypeDeclaration,
    item: usize,
    line: usize,
) {
    let Some(site) = site_at(it, item, line) else {
        return;
    };
    if let Some(name) = &site.channel.type_name {
        tell_name(told, files, site, name.as_bytes());
        told.say(", which no file declares");
        files.tell_near(told, name.as_bytes(), TypeKind::Channel);
    }
}

/// Says that what a connection of the flat type of the last of these names is no channel.
pub fn tell_other_channel(
    told: &mut Explanation,
    files: &Files<'_>,
    order: &[&TypeDeclaration],
    item: usize,
    line: usize,
) {
    let Some(site) = flat_site(order, item, line) else {
        return;
    };
    if let Some(name) = &site.channel.type_name {
        tell_name(told, files, site, name.as_bytes());
        told.say(", which is not a channel");
    }
}

/// Whether the lines give the parameter of that name a value.
fn is_given(lines: &[SectionLine], name: &[u8]) -> bool {
    lines.iter().any(|line| gives(name, line))
}

/// The built-in channel that a block alone means.
fn channel_of_block(lines: &[SectionLine]) -> &'static [u8] {
    if is_given(lines, b"datarate") || is_given(lines, b"ber") || is_given(lines, b"per") {
        return b"DatarateChannel";
    }
    if is_given(lines, b"delay") || is_given(lines, b"disabled") {
        return b"DelayChannel";
    }
    b"IdealChannel"
}

/// What is wrong with a line of a block over the lines of a built-in channel.
fn clash_over_built_in<'a>(channel: &'a [u8], line: &SectionLine) -> Clash<'a> {
    let has = has_parameter(channel, name_in(line));
    match (is_declaration(line), has) {
        (true, true) => Clash::BuiltIn(channel),
        (true, false) => Clash::Again,
        (false, _) => Clash::Undeclared,
    }
}

/// What is wrong with a line of a block over the lines of the channel, the last of these.
fn clash_over_own<'a>(order: &[&'a TypeDeclaration], line: &SectionLine) -> Clash<'a> {
    let root = match order.first() {
        Some(root) => root.base.as_ref(),
        None => None,
    };
    match root {
        Some(base) if has_parameter(base.as_bytes(), name_in(line)) => {
            if is_declaration(line) {
                Clash::BuiltIn(base.as_bytes())
            } else {
                fixed_over(order, line)
            }
        }
        _ => clash_over(order, line),
    }
}

/// That the parameter of a line has a fixed value in the last of the types that gives it one.
fn fixed_over<'a>(order: &[&'a TypeDeclaration], line: &SectionLine) -> Clash<'a> {
    crate::members::fixed_in(order, name_in(line))
}

/// Says what is wrong with a parameter in the block of a channel of that type.
fn tell_words(
    told: &mut Explanation,
    clash: Clash<'_>,
    order: &[&TypeDeclaration],
    of: &[u8],
    name: &[u8],
) {
    match clash {
        Clash::Declared(_) | Clash::BuiltIn(_) | Clash::Again => {
            told.say(
                "can't be declared in its block: declare it in a channel type, and leave out the word before it here",
            );
        }
        Clash::Undeclared => {
            told.say("is given a value, and ");
            told.say_name(of);
            told.say(" doesn't declare it");
            tell_near(told, order, name);
        }
        Clash::Fixed => tell_fixed(told, None),
        Clash::FixedIn(base) => tell_fixed(told, Some(base)),
    }
}

/// Says what is wrong with the line of that number in the block of a channel of that type, which is
/// the last of these, or a built-in one.
fn tell_line(
    told: &mut Explanation,
    files: &Files<'_>,
    site: Site<'_>,
    order: &[&TypeDeclaration],
    of: &[u8],
    at: usize,
    again: bool,
) {
    let Some((_, line)) = parted(site.channel.lines.as_slice(), at) else {
        return;
    };
    let clash = if again {
        Clash::Fixed
    } else if is_built_in(of) {
        clash_over_built_in(of, line)
    } else {
        clash_over_own(order, line)
    };
    begin(told, files, site);
    told.say("the parameter ");
    told.say_name(name_in(line));
    told.say(" of the channel of the connection ");
    tell_words(told, clash, order, of, name_in(line));
}

/// Says what is wrong with the line of the last number in the block of the channel of a connection,
/// of the flat type of the last of these types.
pub fn tell_block(
    told: &mut Explanation,
    files: &Files<'_>,
    order: &[&TypeDeclaration],
    item: usize,
    line: usize,
    at: usize,
    again: bool,
) {
    let Some(site) = flat_site(order, item, line) else {
        return;
    };
    let of = match &site.channel.type_name {
        Some(name) => name.as_bytes(),
        None => channel_of_block(site.channel.lines.as_slice()),
    };
    match type_named(files.types, of) {
        Some(own) => match root_first(told.alloc(), files.types, own) {
            Ok(along) => tell_line(told, files, site, along.as_slice(), of, at, again),
            Err(error) => told.refuse(error),
        },
        None => tell_line(told, files, site, &[], of, at, again),
    }
}
