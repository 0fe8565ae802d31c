//! The channels of connections: whether what they name is there, and is a channel, and whether
//! their blocks fit it.

ghost use Rattle.std.specs.Prelude.{◌≡◌, [], IfOk};
ghost use Rattle.std.specs.Option.{option_copied, option_map};
ghost use Rattle.ned_inheritance.specs.declared.places.Member.TheVariants as member;
ghost use Rattle.ned_types.specs.Channels.{built_in_lines};
ghost use Rattle.ned_types.specs.Clashes.{channel_lines, channel_name, connections_of};
ghost use Rattle.ned_types.specs.Clashes.{is_channel_unknown};
ghost use Rattle.ned_inheritance.specs.Misfits.{misfit_in, told_of};
ghost use Rattle.ned_inheritance.specs.Places.{block_clash_in, connection_clash_in, first_from};
ghost use Rattle.ned_inheritance.specs.Places.{first_told, item_clash_in, line_clash_in};
ghost use Rattle.ned_inheritance.specs.Places.{unknown_channel_from, unknown_channel_of};

use crate::bodies::{Misfit, first_misfit};
use crate::faults::{is_built_in, is_taken};
use crate::named::NamedTypes;
use crate::places::Member;
use ned_channels::built_in::add_built_in;
use ned_channels::channel::{channel_name, lines_of_channel};
use ned_trees::connections::{Channel, ConnectionItem, ConnectionLine};
use ned_trees::declarations::SectionLine;
use sqlite_items::Items;
use std::alloc::{AllocError, Global};

// ---- names

/// Whether the name of the channel of a connection is neither that of a type nor of a built-in
/// channel.
fn is_channel_unknown(named: &NamedTypes<'_>, line: &ConnectionLine) -> bool
    ensures { result ≡ is_channel_unknown named.now line.now }
{
    let Some(channel) = &line.connection.channel else {
        return false;
    };
    match &channel.type_name {
        Some(name) => !is_taken(name.as_bytes(), named),
        None => false,
    }
}

/// The first of these connections whose channel's name is unknown.
fn first_unknown_line(named: &NamedTypes<'_>, lines: &[ConnectionLine]) -> Option<usize>
    ensures { result ≡ first_from (λ l. is_channel_unknown named.now l) 0 lines.now }
{
    for (at, line) in lines.iter().enumerate() {
        if is_channel_unknown(named, line) {
            return Some(at);
        }
    }
    None
}

/// The same of the connections of an item.
fn first_unknown_in(named: &NamedTypes<'_>, item: &ConnectionItem) -> Option<usize>
    ensures { result
        ≡ first_from (λ l. is_channel_unknown named.now l) 0 (connections_of item.now) }
{
    match item {
        ConnectionItem::Line(line) => {
            if is_channel_unknown(named, line) {
                Some(0)
            } else {
                None
            }
        }
        ConnectionItem::Group(group) => first_unknown_line(named, group.lines.as_slice()),
    }
}

/// That the name of the channel is unknown of the connection of that number, of the item of the
/// first.
fn channel_at(item: usize, line: Option<usize>) -> Option<Member>
    ensures { result ≡ option_map (member.Channel item) line }
{
    match line {
        Some(line) => Some(Member::Channel(item, line)),
        None => None,
    }
}

/// The first connection whose channel's name is unknown, of the item of that number.
fn unknown_channel_of(
    named: &NamedTypes<'_>,
    number: usize,
    item: &ConnectionItem,
) -> Option<Member>
    ensures { result ≡ unknown_channel_of named.now number item.now }
{
    channel_at(number, first_unknown_in(named, item))
}

/// The first connection whose channel's name is unknown.
pub(crate) fn unknown_channel(named: &NamedTypes<'_>, items: &[ConnectionItem]) -> Option<Member>
    ensures { result ≡ unknown_channel_from named.now 0 items.now }
{
    for (at, item) in items.iter().enumerate() {
        let member = unknown_channel_of(named, at, item);
        if member.is_some() {
            return member;
        }
    }
    None
}

// ---- blocks

/// That misfit in the block of the channel of a connection.
fn in_block(item: usize, line: usize, misfit: Option<Misfit>) -> Option<Member>
    ensures { result
        ≡ told_of (member.UnfitBlock item line) (member.UnfitBlockAgain item line) misfit }
{
    match misfit {
        Some(Misfit::Unfit(at)) => Some(Member::UnfitBlock(item, line, at)),
        Some(Misfit::Again(at)) => Some(Member::UnfitBlockAgain(item, line, at)),
        None => None,
    }
}

/// The first line of a block that can't stand over those of the built-in channel of that name,
/// which are put into an empty list.
fn misfit_over(
    alloc: Global,
    lines: &mut Items<SectionLine>,
    name: &[u8],
    block: &[SectionLine],
) -> Result<Option<Misfit>, AllocError>
    requires { lines.old ≡ [] }
    ensures { IfOk result (λ misfit. misfit ≡ misfit_in (built_in_lines name.now) block.now) }
{
    add_built_in(alloc, lines, name)?;
    first_misfit(alloc, lines.as_slice(), block)
}

/// The first line of a block that can't stand over those of the built-in channel of that name.
fn built_in_misfit(
    alloc: Global,
    name: &[u8],
    block: &[SectionLine],
) -> Result<Option<Misfit>, AllocError>
    ensures { IfOk result (λ misfit. misfit ≡ misfit_in (built_in_lines name.now) block.now) }
{
    let mut lines = Items::new(alloc);
    misfit_over(alloc, &mut lines, name, block)
}

/// What is wrong with the channel of a connection: it is none, or its block can't stand over its
/// lines.
fn block_clash(
    alloc: Global,
    named: &NamedTypes<'_>,
    item: usize,
    line: usize,
    channel: &Channel,
) -> Result<Option<Member>, AllocError>
    ensures { IfOk result (λ member. member ≡ block_clash_in item line channel.now.lines
        (channel_lines named.now (channel_name channel.now))) }
{
    let name = channel_name(channel);
    let block = channel.lines.as_slice();
    if is_built_in(name) {
        let misfit = built_in_misfit(alloc, name, block)?;
        return Ok(in_block(item, line, misfit));
    }
    match lines_of_channel(named.find(name)) {
        Some(lines) => {
            let misfit = first_misfit(alloc, lines, block)?;
            Ok(in_block(item, line, misfit))
        }
        None => Ok(Some(Member::OtherChannel(item, line))),
    }
}

/// The same of a connection, where it has a channel.
fn line_clash(
    alloc: Global,
    named: &NamedTypes<'_>,
    item: usize,
    line: usize,
    connection: &ConnectionLine,
) -> Result<Option<Member>, AllocError>
    ensures { IfOk result
        (λ member. member ≡ line_clash_in named.now item line connection.now) }
{
    match &connection.connection.channel {
        Some(channel) => block_clash(alloc, named, item, line, channel),
        None => Ok(None),
    }
}

/// The same of the first of these connections.
fn lines_clash(
    alloc: Global,
    named: &NamedTypes<'_>,
    item: usize,
    lines: &[ConnectionLine],
) -> Result<Option<Member>, AllocError>
    ensures { IfOk result
        (λ member. member ≡ first_told (line_clash_in named.now item) 0 lines.now) }
{
    for (number, line) in lines.iter().enumerate() {
        let member = line_clash(alloc, named, item, number, line)?;
        if member.is_some() {
            return Ok(member);
        }
    }
    Ok(None)
}

fn item_clash(
    alloc: Global,
    named: &NamedTypes<'_>,
    number: usize,
    item: &ConnectionItem,
) -> Result<Option<Member>, AllocError>
    ensures { IfOk result (λ member. member ≡ item_clash_in named.now number item.now) }
{
    match item {
        ConnectionItem::Line(line) => line_clash(alloc, named, number, 0, line),
        ConnectionItem::Group(group) => lines_clash(alloc, named, number, group.lines.as_slice()),
    }
}

/// What is wrong with the channel of the first connection whose channel is none, or has a block
/// that can't stand over its lines.
pub(crate) fn connection_clash(
    alloc: Global,
    named: &NamedTypes<'_>,
    items: &[ConnectionItem],
) -> Result<Option<Member>, AllocError>
    ensures { IfOk result (λ member. member ≡ connection_clash_in named.now items.now) }
{
    for (number, item) in items.iter().enumerate() {
        let member = item_clash(alloc, named, number, item)?;
        if member.is_some() {
            return Ok(member);
        }
    }
    Ok(None)
}
