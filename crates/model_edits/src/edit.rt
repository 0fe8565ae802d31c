//! Edits of a model.

ghost use Rattle.std.specs.Prelude.{◌≡◌, ◌<◌, List, true, length, position, IfOk, IfErr, IfSome};
ghost use Rattle.std.specs.Prelude.{OnOk, OnErr, is_some};
ghost use Rattle.std.specs.Option.{option_and_then, option_copied};
ghost use Rattle.ini_trees.specs.Sections.{IsChain, is_section};
ghost use Rattle.model_data.specs.Models.{as_network};
ghost use Rattle.ned_trees.specs.declared.declarations.NedFile.{NedFile};
ghost use Rattle.model_edits.specs.Edited.{has_no_room, is_numbered, number_given, parts_of};
ghost use Rattle.model_edits.specs.Edited.{IsEditOf, IsOnlyEditOf, IsRuledOut, Refuses};
ghost use Rattle.model_edits.specs.Edited.{RefusesParts};
ghost use Rattle.model_edits.specs.declared.edit.Edit.TheVariants as edits;
ghost use Rattle.model_edits.specs.Steps.{has_network, parts, told_as, told_of, with_files};
ghost use Rattle.model_edits.specs.Steps.{with_lines, Comes, RefusesChain, Takes, TakesChanged};
ghost use Rattle.model_edits.specs.Steps.{TakesMade};

use file_edits::changes::{TypedFiles, with_connection, with_file, without_connection};
use file_edits::error::FileError;
use ini_config::edits::{with_inserted, with_removed, with_replaced};
use ini_config::error::EditError;
use ini_entries::reason::Reason;
use ini_trees::entries::network_entry;
use ini_trees::error::ChainError;
use ini_trees::lines::IniText;
use ini_trees::speaks::last_name;
use model_data::faults::ConfigFault;
use model_data::model::Model;
use model_injections::injection::{Due, Injection};
use ned_inheritance::table::TypeFault;
use ned_trees::declarations::{TypeDeclaration, TypeKind};
use ned_types::table::TypeTable;
use sim_values::NoMemory;
use sim_values::text::Text;
use sqlite_items::Items;
use std::alloc::Global;

/// The longest payload of an injection, in bytes.
pub const MAX_PAYLOAD: usize = 4096;

/// How many injections a model holds at most.
pub const MAX_INJECTIONS: usize = 10_000;

/// An edit of a model.
#[derive(Drop)]
pub enum Edit {
    /// A line of this text is put before the line of this number of the ini text, counted from 1.
    /// The number after that of the last line adds one at the end.
    InsertIni(usize, Text),
    /// A line of this text stands instead of the line of this number.
    ReplaceIni(usize, Text),
    /// The line of this number is taken out.
    RemoveIni(usize),
    /// The NED file of this number, counted from 0, is this text.
    ReplaceNed(usize, Text),
    /// The connection, or the group of connections, that this text is stands at this place, counted
    /// from 0, among those of the module or network of this name. The place after the last one adds
    /// one at the end.
    AddConnection(Text, usize, Text),
    /// The connection, or the group of connections, at this place is taken out.
    RemoveConnection(Text, usize),
    /// The configuration of this name is selected.
    SelectConfig(Text),
    /// A message from outside arrives at the simple module of this path when it is due: of this
    /// kind, so many bits long, and with this payload.
    Inject(Text, Due, i16, u64, Text),
    /// The injection of this number is taken back.
    Withdraw(u64),
}

/// Why an edit is refused. Of several reasons the first in this order is told, and lack of memory
/// in any place.
#[derive(Clone, Copy)]
pub enum Refusal {
    /// The changed ini text is longer than 1 MiB, or a given text of NED is; or a payload is longer
    /// than 4,096 bytes, 10,000 injections are held, or all their numbers are used.
    TooLarge,
    /// There is no line of that number.
    NoSuchLine,
    /// No injection of that number is held.
    NoSuchInjection,
    /// There is no NED file of that number.
    NoSuchFile,
    /// There is no module or network of that name, or it stands within another type.
    NoSuchType,
    /// It has no connection at that place, or no such place for one more.
    NoSuchConnection,
    /// The line, from 1, of the given NED text's first byte that can't go on; at its end that of
    /// its last byte.
    NedSyntax(usize),
    /// The number, from 1, of the first line of the changed ini text that means nothing, and why.
    IniSyntax(usize, Reason),
    /// The types of the changed NED files make no model.
    Types(TypeFault),
    /// The selected configuration can't be run.
    Config(ConfigFault),
    /// Memory ran out.
    NoMemory(NoMemory),
}

/// The refusal of changed lines.
fn told_as(error: EditError) -> Refusal
    ensures { result ≡ told_as error }
{
    match error {
        EditError::TooLarge => Refusal::TooLarge,
        EditError::NoSuchLine => Refusal::NoSuchLine,
        EditError::IniSyntax(line, why) => Refusal::IniSyntax(line, why),
        EditError::NoMemory(error) => Refusal::NoMemory(error),
    }
}

/// The refusal of changed files.
fn told_of(error: FileError) -> Refusal
    ensures { result ≡ told_of error }
{
    match error {
        FileError::TooLarge => Refusal::TooLarge,
        FileError::NoSuchFile => Refusal::NoSuchFile,
        FileError::NoSuchType => Refusal::NoSuchType,
        FileError::NoSuchConnection => Refusal::NoSuchConnection,
        FileError::NedSyntax(line) => Refusal::NedSyntax(line),
        FileError::Types(fault) => Refusal::Types(fault),
        FileError::NoMemory(error) => Refusal::NoMemory(error),
    }
}

/// The chain of a configuration.
fn chain_of(alloc: Global, lines: &IniText, config: &[u8]) -> Result<Items<Text>, Refusal>
    ensures accepted { IfOk result (λ chain. IsChain lines.now config.now chain
        × (is_section config.now lines.now ≡ true)) }
    ensures refused { IfErr result (λ r. RefusesChain lines.now config.now r) }
{
    match lines.chain(alloc, config) {
        Ok(chain) => Ok(chain),
        Err(ChainError::NoSuchConfig) => Err(Refusal::Config(ConfigFault::NoSuchConfig)),
        Err(ChainError::ChainFault) => Err(Refusal::Config(ConfigFault::ChainFault)),
        Err(ChainError::NoMemory(error)) => Err(Refusal::NoMemory(error)),
    }
}

/// Whether a type is a network.
fn is_network(declared: Option<&TypeDeclaration>) -> bool
    ensures { result ≡ is_some (option_and_then as_network (option_copied declared.entry)) }
{
    match declared {
        Some(found) => match found.kind {
            TypeKind::Network => true,
            _ => false,
        },
        None => false,
    }
}

/// Whether the option `network` names a network among these types, in these lines along this chain.
fn has_network(types: &TypeTable, lines: &IniText, chain: &[Text]) -> bool
    ensures { result ≡ has_network types.now lines.now chain.now }
{
    match network_entry(lines.lines(), chain) {
        Some(name) => is_network(types.find(last_name(name))),
        None => false,
    }
}

/// The chain of a configuration in these lines, where there is a network to run among these types.
/// The model is that of which they are parts, whatever its files may be.
fn chain_with(
    alloc: Global,
    model: &Model,
    types: &TypeTable,
    lines: &IniText,
    config: &[u8],
) -> Result<Items<Text>, Refusal>
    ensures accepted { IfOk result (λ chain. IsChain lines.now config.now chain
        × (is_section config.now lines.now ≡ true)
        × (has_network types.now lines.now chain ≡ true)) }
    ensures refused { IfErr result (λ r. (files : List NedFile)
        → RefusesParts model.now (parts files types.now lines.now) config.now r) }
{
    let _model = model;
    let chain = chain_of(alloc, lines, config)?;
    if has_network(types, lines, chain.as_slice()) {
        Ok(chain)
    } else {
        Err(Refusal::Config(ConfigFault::NoSuchNetwork))
    }
}

/// Gives the model these lines, with the chain that its configuration has in them.
fn take_lines(alloc: Global, model: &mut Model, lines: IniText) -> Result<(), Refusal>
    ensures { Takes model.old (with_lines model.old lines) model.old.config model.new result }
{
    let chain = chain_with(alloc, model, &model.types, &lines, model.config.as_bytes())?;
    model.ini = lines;
    model.chain = chain;
    Ok(())
}

/// Gives the model the lines that were made, or tells why there are none.
fn take_made(
    alloc: Global,
    model: &mut Model,
    made: Result<IniText, EditError>,
) -> Result<(), Refusal>
    ensures { TakesMade model.old made model.new result }
{
    match made {
        Ok(lines) => take_lines(alloc, model, lines),
        Err(error) => Err(told_as(error)),
    }
}

/// Gives the model these files and types, with the chain that its configuration has.
fn take_files(alloc: Global, model: &mut Model, made: TypedFiles) -> Result<(), Refusal>
    ensures { Takes model.old (with_files model.old made) model.old.config model.new result }
{
    let chain = chain_with(
        alloc,
        model,
        &made.types,
        &model.ini,
        model.config.as_bytes(),
    )?;
    let TypedFiles { files, types } = made;
    model.files = files;
    model.types = types;
    model.chain = chain;
    Ok(())
}

/// Gives the model the files that were made, or tells why there are none.
fn take_changed(
    alloc: Global,
    model: &mut Model,
    made: Result<TypedFiles, FileError>,
) -> Result<(), Refusal>
    ensures { TakesChanged model.old made model.new result }
{
    match made {
        Ok(made) => take_files(alloc, model, made),
        Err(error) => Err(told_of(error)),
    }
}

/// Selects the configuration of that name.
fn select(alloc: Global, model: &mut Model, name: Text) -> Result<(), Refusal>
    ensures { Takes model.old (parts_of model.old) name model.new result }
{
    let chain = chain_with(alloc, model, &model.types, &model.ini, name.as_bytes())?;
    model.config = name;
    model.chain = chain;
    Ok(())
}

/// Adds an injection, with the next number.
fn inject(
    model: &mut Model,
    path: Text,
    due: Due,
    kind: i16,
    bits: u64,
    payload: Text,
) -> Result<(), Refusal>
    ensures { Comes model.old (edits.Inject path due kind bits payload) model.new result }
{
    if has_no_room(model, &payload) {
        return Err(Refusal::TooLarge);
    }
    let number = model.last_injection + 1;
    let injection = Injection {
        number,
        path,
        due,
        kind,
        bits,
        payload,
    };
    match model.injections.push(injection) {
        Ok(()) => {
            model.last_injection = number;
            Ok(())
        }
        Err(failed) => Err(Refusal::NoMemory(failed.into())),
    }
}

/// Whether there is no room for an injection with this payload.
fn has_no_room(model: &Model, payload: &Text) -> bool
    ensures { result ≡ has_no_room model.now payload.now }
{
    payload.as_bytes().len() > MAX_PAYLOAD
        || model.injections.len() >= MAX_INJECTIONS
        || model.last_injection == u32::MAX
}

/// The number that this edit gives to the injection that it adds: the one after the last that was
/// used, be it held still or not.
pub fn number_given(model: &Model, edit: &Edit) -> Option<u64>
    ensures { result ≡ number_given edit.now model.now }
{
    match edit {
        Edit::Inject(_, _, _, _, _) => Some(u64::from(model.last_injection) + 1),
        _ => None,
    }
}

/// Takes the injection of that number back.
fn withdraw(model: &mut Model, number: u64) -> Result<(), Refusal>
    ensures { Comes model.old (edits.Withdraw number) model.new result }
{
    match place_of(model.injections.as_slice(), number) {
        Some(place) => {
            model.injections.remove(place);
            Ok(())
        }
        None => Err(Refusal::NoSuchInjection),
    }
}

/// Where the injection of that number stands.
fn place_of(injections: &[Injection], number: u64) -> Option<usize>
    ensures value { result ≡ position (is_numbered number) injections.now }
    ensures within { IfSome result (λ place. place < length injections.now) }
{
    injections
        .iter()
        .position(|injection| u64::from(injection.number) == number)
}

/// Changes the model as the edit says, or tells why not.
fn change(alloc: Global, model: &mut Model, edit: Edit) -> Result<(), Refusal>
    ensures { Comes model.old edit model.new result }
{
    match edit {
        Edit::InsertIni(line, text) => {
            let made = with_inserted(alloc, &model.ini, line, text.as_bytes());
            take_made(alloc, model, made)
        }
        Edit::ReplaceIni(line, text) => {
            let made = with_replaced(alloc, &model.ini, line, text.as_bytes());
            take_made(alloc, model, made)
        }
        Edit::RemoveIni(line) => {
            let made = with_removed(alloc, &model.ini, line);
            take_made(alloc, model, made)
        }
        Edit::ReplaceNed(number, text) => {
            let made = with_file(alloc, model.files.as_slice(), number, text.as_bytes());
            take_changed(alloc, model, made)
        }
        Edit::AddConnection(name, place, text) => {
            let files = model.files.as_slice();
            let made = with_connection(alloc, files, name.as_bytes(), place, text.as_bytes());
            take_changed(alloc, model, made)
        }
        Edit::RemoveConnection(name, place) => {
            let made = without_connection(alloc, model.files.as_slice(), name.as_bytes(), place);
            take_changed(alloc, model, made)
        }
        Edit::SelectConfig(name) => select(alloc, model, name),
        Edit::Inject(path, due, kind, bits, payload) => {
            inject(model, path, due, kind, bits, payload)
        }
        Edit::Withdraw(number) => withdraw(model, number),
    }
}

/// Changes the model as the edit says, or tells why not, and then the model is what it was.
pub fn apply(alloc: Global, model: &mut Model, edit: Edit) -> Result<(), Refusal>
    // What is made is the model that the edit makes,
    ensures accepted { OnOk result (IsEditOf model.old edit model.new) }
    // and the edit makes no other.
    ensures only { OnOk result (IsOnlyEditOf model.old edit model.new) }
    // A refusal has its reason, in its order;
    ensures refused { IfErr result (λ r. Refuses model.old edit r) }
    // none comes where the edit makes a model, unless memory runs out;
    ensures complete { IfErr result (λ r. IsRuledOut model.old edit r) }
    // and it changes nothing.
    ensures unchanged { OnErr result (model.new ≡ model.old) }
{
    change(alloc, model, edit)
}

/// The model that the edit makes, or why it makes none.
pub fn edited(alloc: Global, model: &Model, edit: Edit) -> Result<Model, Refusal>
    // What is made is the model that the edit makes,
    ensures accepted { IfOk result (λ made. IsEditOf model.now edit made) }
    // and the edit makes no other.
    ensures only { IfOk result (λ made. IsOnlyEditOf model.now edit made) }
    // A refusal has its reason, in its order;
    ensures refused { IfErr result (λ r. Refuses model.now edit r) }
    // none comes where the edit makes a model, unless memory runs out.
    ensures complete { IfErr result (λ r. IsRuledOut model.now edit r) }
{
    let mut made = match model.copy(alloc) {
        Ok(copy) => copy,
        Err(error) => return Err(Refusal::NoMemory(error)),
    };
    apply(alloc, &mut made, edit)?;
    Ok(made)
}
