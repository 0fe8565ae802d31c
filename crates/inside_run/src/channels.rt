//! Channels of connections, and their parameters.

ghost use Rattle.std.specs.Prelude.{◌≡◌, ◌<◌, ◌≤◌, ◌++◌, ◌∷◌, [], IfOk, List, Some, get_or, length};
ghost use Rattle.std.specs.Prelude.{pos, reverse, slice_get, take};
ghost use Rattle.std.specs.Option.{option_copied};
ghost use Rattle.param_values.specs.Scenes.{given_by, maybe_written};
ghost use Rattle.param_values.specs.Values.{first_given};
ghost use Rattle.ned_trees.specs.declared.connections.Clause.{Clause as clause_type};
ghost use Rattle.inside_keys.specs.Asked.{known_then};
ghost use Rattle.inside_keys.specs.Channels.{channel_kind, lines_of};
ghost use Rattle.inside_keys.specs.Given as given;
ghost use Rattle.inside_keys.specs.Settings.{ModuleRules, channel_place, type_names};
ghost use Rattle.inside_keys.specs.Values as values;
ghost use Rattle.inside_keys.specs.declared.found.Found.TheVariants as found_as;
ghost use Rattle.inside_run.specs.Found.{channel_in, found_by, maybe_found};
ghost use Rattle.inside_run.specs.Going.{Moves, goes_on};
ghost use Rattle.inside_run.specs.Posing.{maybe_posed};
ghost use Rattle.inside_run.specs.Weights.{Costs, lines_weight, posed_weight};
ghost use Rattle.inside_run.specs.declared.progress.KeyProgress.TheVariants as waits;

use crate::posed::{Posable, begin_posed, chosen, given_in};
use crate::progress::{Carrying, KeyProgress, Moved};
use crate::scene::{ModuleSource, Stands};
use inside_keys::channel::{
    carrier_begun, channel_check, channel_kind, kind_of, lines_of, with_value,
};
use inside_keys::found::Found;
use inside_keys::key::{ChannelAt, Module, What, WrittenAt};
use inside_keys::place::{Binding, ExpressionPlace, Section};
use inside_keys::turn::LoopTurn;
use inside_parts::fault::InsideError;
use inside_parts::stack::Stack;
use inside_wiring::wiring::{Carrier, ChannelKind};
use ned_trees::connections::{
    Channel, Clause, Connection, ConnectionGroup, ConnectionItem, ConnectionLine,
};
use ned_trees::declarations::{Declaration, SectionLine, TypeDeclaration};
use ned_types::flat::{declaration_named, last_value};
use param_values::scene::{Given, Section as WrittenSection, Written};
use sim_values::NoMemory;
use sim_values::model_fault::ModelFault;
use sim_values::text::Text;
use sim_values::value::Value;
use sqlite_items::Boxed;
use std::alloc::Global;

// ---- where a connection is written

/// A connection, with the clauses of the group that it stands in and its own.
#[derive(Clone, Copy)]
pub struct FoundLine<'m> {
    pub connection: &'m Connection,
    pub around: &'m [Clause],
    pub clauses: &'m [Clause],
}

/// What stands at that place.
fn item_at<T>(list: &[T], place: usize) -> Option<&T>
    ensures { option_copied result ≡ slice_get list.now place }
{
    list.get(place)
}

/// The item, or the connection of an item, after which so many stand.
fn behind<T>(list: &[T], count: usize) -> Option<&T>
    ensures { option_copied result ≡ given.behind count list.now }
{
    let all = list.len();
    if count < all {
        item_at(list, all - 1 - count)
    } else {
        None
    }
}

/// A connection that stands in a group with these clauses, if there is one.
fn found_line<'m>(around: &'m [Clause], line: Option<&'m ConnectionLine>) -> Option<FoundLine<'m>>
    ensures { maybe_found result ≡ given.found_line around.now (option_copied line.entry) }
{
    let line = line?;
    Some(FoundLine {
        connection: &line.connection,
        around,
        clauses: line.clauses.as_slice(),
    })
}

/// The connection of a group after which so many stand.
fn found_in_group<'m>(group: &'m ConnectionGroup, lines: usize) -> Option<FoundLine<'m>>
    ensures { maybe_found result
        ≡ given.found_line group.now.clauses (given.behind lines group.now.lines) }
{
    found_line(
        group.clauses.as_slice(),
        behind(group.lines.as_slice(), lines),
    )
}

/// A connection that stands alone.
fn found_alone<'m>(line: &'m ConnectionLine) -> Option<FoundLine<'m>>
    ensures { maybe_found result ≡ given.found_line [] (Some line.now) }
{
    found_line(&[], Some(line))
}

/// The connection of an item after which so many stand.
fn found_in_item<'m>(item: Option<&'m ConnectionItem>, lines: usize) -> Option<FoundLine<'m>>
    ensures { maybe_found result ≡ given.found_in_item lines (option_copied item.entry) }
{
    match item? {
        ConnectionItem::Line(line) => found_alone(line),
        ConnectionItem::Group(group) => found_in_group(group, lines),
    }
}

/// The connection that is written there.
fn connection_at<'m>(written: WrittenAt, items: &'m [ConnectionItem]) -> Option<FoundLine<'m>>
    ensures { maybe_found result ≡ given.connection_at written items.now }
{
    found_in_item(behind(items, written.items), written.lines)
}

/// The channel of that connection.
fn channel_of<'m>(found: Option<FoundLine<'m>>) -> Option<&'m Channel>
    ensures { option_copied result ≡ channel_in (maybe_found found.entry) }
{
    match found {
        Some(found) => found.connection.channel.as_ref(),
        None => None,
    }
}

// ---- loop variables

/// The number of a turn at a place.
fn number_at(turn: &LoopTurn, place: usize) -> i64
    requires { place < length turn.now }
    ensures { result ≡ get_or turn.now place (pos 0) }
{
    turn.as_slice()[place]
}

/// Binds the variable of a clause, where it is a loop: so many numbers of the turn are left, those
/// of inner loops first.
fn bind(
    scope: &mut Stack<Binding>,
    alloc: Global,
    clause: &Clause,
    turn: &LoopTurn,
    left: usize,
) -> Result<usize, NoMemory>
    requires { left ≤ length turn.now }
    ensures fewer { IfOk result (λ n. n ≤ left) }
    ensures bound { IfOk result (λ n. (rest : List clause_type)
        → given.bound_by (clause.now ∷ rest) scope.old (reverse (take left turn.now))
        ≡ given.bound_by rest scope.new (reverse (take n turn.now))) }
{
    let Clause::For(repeat) = clause else {
        return Ok(left);
    };
    if left == 0 {
        return Ok(0);
    }
    let value = number_at(turn, left - 1);
    let variable = repeat.variable.copy(alloc)?;
    scope.push(Binding { variable, value })?;
    Ok(left - 1)
}

/// Binds the variables of clauses, the outermost first.
fn bind_all(
    scope: &mut Stack<Binding>,
    alloc: Global,
    clauses: &[Clause],
    turn: &LoopTurn,
    all: usize,
) -> Result<usize, NoMemory>
    requires { all ≤ length turn.now }
    ensures fewer { IfOk result (λ n. n ≤ all) }
    ensures bound { IfOk result (λ n. (more : List clause_type)
        → given.bound_by (clauses.now ++ more) scope.old (reverse (take all turn.now))
        ≡ given.bound_by more scope.new (reverse (take n turn.now))) }
{
    let mut left = all;
    let mut rest = clauses;
    'clauses: while let Some((clause, others)) = rest.split_first() {
        left = bind(scope, alloc, clause, turn, left)?;
        rest = others;
    }
    Ok(left)
}

/// The loop variables around a connection, with these values.
fn scope_at(
    alloc: Global,
    around: &[Clause],
    clauses: &[Clause],
    turn: &LoopTurn,
) -> Result<Stack<Binding>, NoMemory>
    ensures { IfOk result (λ scope. scope ≡ given.scope_at (around.now ++ clauses.now) turn.now) }
{
    let mut scope = Stack::new(alloc);
    let all = turn.as_slice().len();
    let left = bind_all(&mut scope, alloc, around, turn, all)?;
    let _none = bind_all(&mut scope, alloc, clauses, turn, left)?;
    Ok(scope)
}

/// The loop variables that an expression of that section may name.
fn variables_in(alloc: Global, section: Section, scope: Stack<Binding>) -> Stack<Binding>
    ensures { result ≡ given.variables_in section scope }
{
    match section {
        Section::OfBlock => scope,
        _ => Stack::new(alloc),
    }
}

// ---- parameters

/// What the NED text gives a parameter of a channel: its block goes before the lines of its type.
fn given_to<'m>(
    lines: &'m [SectionLine],
    block: &'m [SectionLine],
    name: &[u8],
) -> Option<Given<'m>>
    ensures { given_by result ≡ given.given_to_channel lines.now block.now name.now }
{
    match given_in(WrittenSection::OfBody, last_value(name, block)) {
        Some(given) => Some(given),
        None => given_in(WrittenSection::OfType, last_value(name, lines)),
    }
}

/// The full path of a parameter of a channel.
fn parameter_path(alloc: Global, channel: &ChannelAt, name: &Text) -> Result<Text, NoMemory>
    ensures { IfOk result (λ path. path ≡ given.channel_parameter_path channel.now name.now) }
{
    let mut path = Vec::from_slice(alloc, channel.path.as_bytes())?;
    path.push(b'.')?;
    path.extend_from_slice(name.as_bytes())?;
    Ok(Text::from_vec(path))
}

/// Where an expression stands that gives a parameter of a channel its value.
fn section_of(section: WrittenSection) -> Section
    ensures { result ≡ given.channel_section section }
{
    match section {
        WrittenSection::OfType => Section::OfChannel,
        WrittenSection::OfBody => Section::OfBlock,
    }
}

/// The place of an expression that says something of a channel in a module.
fn channel_place<S: ModuleSource>(
    alloc: Global,
    scene: &S,
    site: &Module,
    channel: &ChannelAt,
    section: Section,
) -> Result<ExpressionPlace, NoMemory>
    ensures { IfOk result
        (λ place. place ≡ channel_place (S.setting scene.now) site.now channel.now section) }
{
    let stands = scene.standing(alloc, site)?;
    let own = site.copy(alloc)?;
    let channel = channel.copy(alloc)?;
    let Stands { around, index, .. } = stands;
    Ok(ExpressionPlace {
        own,
        around,
        section,
        index: None,
        around_index: index,
        channel: Some(channel),
    })
}

/// What gives a parameter of a channel its value, of what the NED text and the ini text say.
fn written<'m, S: ModuleSource>(
    alloc: Global,
    scene: &'m S,
    channel: &ChannelAt,
    name: &Text,
    lines: &'m [SectionLine],
    block: &'m [SectionLine],
) -> Result<Option<Written<'m>>, NoMemory>
    ensures { IfOk result (λ found. maybe_written found
        ≡ first_given (given.given_to_channel lines.now block.now name.now)
        ((S.setting scene.now).entry (given.channel_parameter_path channel.now name.now))) }
{
    let path = parameter_path(alloc, channel, name)?;
    let entry = scene.entry(alloc, path.as_bytes())?;
    Ok(chosen(given_to(lines, block, name.as_bytes()), entry))
}

/// What gives a parameter of a channel its value that is declared so.
fn parameter_declared<'m, S: ModuleSource>(
    alloc: Global,
    scene: &'m S,
    site: &Module,
    channel: &ChannelAt,
    name: &Text,
    kind: ChannelKind,
    lines: &'m [SectionLine],
    block: &'m [SectionLine],
    scope: Stack<Binding>,
    declaration: &Declaration,
) -> Result<Option<Posable<'m>>, NoMemory>
    ensures { IfOk result (λ posed. maybe_posed posed
        ≡ given.channel_posed_by (S.setting scene.now) site.now channel.now kind lines.now block.now
        scope name.now (Some declaration.now)) }
{
    let Some(written) = written(alloc, scene, channel, name, lines, block)? else {
        return Ok(None);
    };
    let section = section_of(written.section);
    let place = channel_place(alloc, scene, site, channel, section)?;
    Ok(Some(Posable {
        expression: written.expression,
        place,
        variables: variables_in(alloc, section, scope),
        check: channel_check(kind, name.as_bytes(), kind_of(declaration)),
    }))
}

/// What gives a parameter of a channel its value, over the lines of its type.
fn parameter_over<'m, S: ModuleSource>(
    alloc: Global,
    scene: &'m S,
    site: &Module,
    channel: &ChannelAt,
    name: &Text,
    kind: ChannelKind,
    lines: Option<&'m [SectionLine]>,
    block: &'m [SectionLine],
    scope: Stack<Binding>,
) -> Result<Option<Posable<'m>>, NoMemory>
    ensures { IfOk result (λ posed. maybe_posed posed
        ≡ given.channel_posed_over (S.setting scene.now) site.now channel.now kind
        (option_copied lines.entry) block.now scope name.now) }
{
    let Some(lines) = lines else {
        return Ok(None);
    };
    let Some(declaration) = declaration_named(name.as_bytes(), lines) else {
        return Ok(None);
    };
    parameter_declared(
        alloc,
        scene,
        site,
        channel,
        name,
        kind,
        lines,
        block,
        scope,
        declaration,
    )
}

/// The lines of the type of a connection's channel.
fn type_lines<'m, S: ModuleSource>(
    alloc: Global,
    scene: &'m S,
    channel: &Channel,
) -> Result<Option<&'m [SectionLine]>, NoMemory>
    ensures { IfOk result (λ lines. option_copied lines
        ≡ lines_of (type_names (S.setting scene.now)) (S.setting scene.now).types channel.now) }
{
    lines_of(
        alloc,
        scene.built_in(),
        scene.type_names(),
        scene.types(),
        channel,
    )
}

/// Of which of the three kinds a connection's channel is.
fn type_kind<'m, S: ModuleSource>(
    alloc: Global,
    scene: &'m S,
    channel: &Channel,
) -> Result<ChannelKind, NoMemory>
    ensures { IfOk result (λ kind. kind
        ≡ channel_kind (type_names (S.setting scene.now)) (S.setting scene.now).types channel.now) }
{
    channel_kind(alloc, scene.type_names(), scene.types(), channel)
}

/// What gives a parameter of the channel of a connection its value.
fn parameter_of<'m, S: ModuleSource>(
    alloc: Global,
    scene: &'m S,
    site: &Module,
    channel: &ChannelAt,
    name: &Text,
    declared: &'m Channel,
    scope: Stack<Binding>,
) -> Result<Option<Posable<'m>>, NoMemory>
    ensures { IfOk result (λ posed. maybe_posed posed ≡ given.channel_posed_in (S.setting scene.now)
        site.now channel.now (Some declared.now) scope name.now) }
{
    let kind = type_kind(alloc, scene, declared)?;
    let lines = type_lines(alloc, scene, declared)?;
    let block = declared.lines.as_slice();
    parameter_over(alloc, scene, site, channel, name, kind, lines, block, scope)
}

/// What gives a parameter of the channel of a connection its value that was found.
fn parameter_found<'m, S: ModuleSource>(
    alloc: Global,
    scene: &'m S,
    site: &Module,
    channel: &ChannelAt,
    name: &Text,
    found: FoundLine<'m>,
) -> Result<Option<Posable<'m>>, NoMemory>
    ensures { IfOk result (λ posed. maybe_posed posed ≡ given.channel_posed_at (S.setting scene.now)
        site.now channel.now (Some (found_by found.entry)) name.now) }
{
    let Some(declared) = &found.connection.channel else {
        return Ok(None);
    };
    let scope = scope_at(alloc, found.around, found.clauses, &channel.turn)?;
    parameter_of(alloc, scene, site, channel, name, declared, scope)
}

/// What gives a parameter of a channel in a module of that type its value.
fn parameter<'m, S: ModuleSource>(
    alloc: Global,
    scene: &'m S,
    site: &Module,
    channel: &ChannelAt,
    name: &Text,
    declared: &'m TypeDeclaration,
) -> Result<Option<Posable<'m>>, NoMemory>
    ensures { IfOk result (λ posed. maybe_posed posed ≡ given.channel_posed (S.setting scene.now)
        site.now channel.now declared.now name.now) }
{
    match connection_at(channel.written, declared.connections.items.as_slice()) {
        Some(found) => parameter_found(alloc, scene, site, channel, name, found),
        None => Ok(None),
    }
}

/// Begins with a parameter of a channel in a module of that type.
pub fn begin_channel<'m, S: ModuleSource>(
    alloc: Global,
    scene: &'m S,
    site: &Module,
    channel: &ChannelAt,
    name: &Text,
    declared: &'m TypeDeclaration,
) -> Result<Moved<'m>, InsideError>
    ensures moves { Moves (S.setting scene.now) result (values.posed_asking
        (given.channel_posed (S.setting scene.now) site.now channel.now declared.now name.now)) }
    ensures costs { Costs (S.setting scene.now) (posed_weight (given.channel_posed
        (S.setting scene.now) site.now channel.now declared.now name.now)) result }
{
    let posed = parameter(alloc, scene, site, channel, name, declared)?;
    begin_posed(alloc, posed)
}

// ---- what a channel does

/// Goes on with the parameters that these lines declare.
fn carry<'m>(
    alloc: Global,
    site: Module,
    channel: ChannelAt,
    lines: &'m [SectionLine],
    carrier: Carrier,
) -> Result<Moved<'m>, InsideError>
    ensures moves { (s : ModuleRules)
        → Moves s result (values.carrier site channel lines.now carrier) }
    ensures costs { (s : ModuleRules) → Costs s (length lines.now) result }
{
    let mut rest = lines;
    'lines: while let Some((line, others)) = rest.split_first() {
        if let SectionLine::Declaration(declaration) = line {
            let what = What::Channel(channel.copy(alloc)?, declaration.name.copy(alloc)?);
            let key = site.key(alloc, what)?;
            let carrying = Carrying {
                site,
                channel,
                name: &declaration.name,
                lines: others,
                carrier,
            };
            return Ok(Moved::Asks(key, KeyProgress::Carried(Boxed::new(alloc, carrying)?)));
        }
        rest = others;
    }
    Ok(Moved::Done(Found::Carrier(carrier)))
}

/// Goes on with the value of a parameter.
pub fn go_on_carrier<'m>(
    alloc: Global,
    carrying: Carrying<'m>,
    value: &Value,
) -> Result<Moved<'m>, InsideError>
    ensures moves { (s : ModuleRules)
        → Moves s result (goes_on s (waits.Carried carrying.entry) (found_as.Value value.now)) }
    ensures costs { (s : ModuleRules) → Costs s (length carrying.entry.lines.now) result }
{
    let Carrying {
        site,
        channel,
        name,
        lines,
        carrier,
    } = carrying;
    let carrier = with_value(name.as_bytes(), value, carrier, carrier.kind);
    carry(alloc, site, channel, lines, carrier)
}

/// The lines of the type of the channel that is written there.
fn lines_at<'m, S: ModuleSource>(
    alloc: Global,
    scene: &'m S,
    channel: &ChannelAt,
    declared: &'m TypeDeclaration,
) -> Result<Option<&'m [SectionLine]>, NoMemory>
    ensures { IfOk result (λ lines. option_copied lines
        ≡ given.channel_lines (S.setting scene.now) declared.now channel.now) }
{
    let found = connection_at(channel.written, declared.connections.items.as_slice());
    match channel_of(found) {
        Some(declared) => type_lines(alloc, scene, declared),
        None => Ok(None),
    }
}

/// The kind of the channel that is written there.
fn kind_there<S: ModuleSource>(
    alloc: Global,
    scene: &S,
    channel: &ChannelAt,
    declared: &TypeDeclaration,
) -> Result<ChannelKind, NoMemory>
    ensures { IfOk result
        (λ kind. kind ≡ given.kind_there (S.setting scene.now) declared.now channel.now) }
{
    let found = connection_at(channel.written, declared.connections.items.as_slice());
    match channel_of(found) {
        Some(declared) => type_kind(alloc, scene, declared),
        None => Ok(ChannelKind::Ideal),
    }
}

/// Begins with what a channel in a module of that type does.
pub fn begin_carrier<'m, S: ModuleSource>(
    alloc: Global,
    scene: &'m S,
    site: Module,
    channel: ChannelAt,
    declared: &'m TypeDeclaration,
) -> Result<Moved<'m>, InsideError>
    ensures moves { Moves (S.setting scene.now) result (known_then (given.channel_lines
        (S.setting scene.now) declared.now channel) (values.carrier_by site channel
        (given.kind_there (S.setting scene.now) declared.now channel))) }
    ensures costs { Costs (S.setting scene.now)
        (lines_weight (given.channel_lines (S.setting scene.now) declared.now channel)) result }
{
    let Some(lines) = lines_at(alloc, scene, &channel, declared)? else {
        return Err(InsideError::Fault(ModelFault::UnknownType));
    };
    let kind = kind_there(alloc, scene, &channel, declared)?;
    carry(alloc, site, channel, lines, carrier_begun(kind))
}
