//! Why the files make no model.

use crate::configurations::{tell_no_chain, tell_no_config, tell_no_network};
use crate::ini_lines::{line_at, tell_ini_line};
use crate::reading::read_types;
use crate::syntax::{tell_connection, tell_syntax};
use explain_types::explanation::Explanation;
use explain_types::ned_files::Files;
use explain_types::sources::Sources;
use explain_types::types::tell_types;
use ini_entries::reason::Reason;
use model_data::faults::ConfigFault;
use model_reading::begin::{BeginFault, MAX_FILES, model_of};
use ned_inheritance::places::FaultPlace;
use ned_inheritance::table::{BuildError, TypeFault, flat_types};
use sim_values::NoMemory;
use sim_values::text::{MAX_LENGTH, Text};
use std::alloc::Global;

/// Says which text is too long.
fn tell_long(told: &mut Explanation, sources: &Sources<'_>) {
    let mut path = sources.ini_path;
    for (file, text) in sources.texts.as_slice().iter().enumerate() {
        if text.as_bytes().len() > MAX_LENGTH {
            path = sources.path(file);
        }
    }
    told.say(path);
    told.say(": the file is longer than 1 MiB (");
    told.say_number(MAX_LENGTH);
    told.say(" bytes); split it into several files, or leave out what isn't used");
}

/// Says which text is too long, or that there are too many.
fn tell_large(told: &mut Explanation, sources: &Sources<'_>) {
    if sources.texts.len() <= MAX_FILES {
        return tell_long(told, sources);
    }
    told.say_number(sources.texts.len());
    told.say(" NED files are given, and ");
    told.say_number(MAX_FILES);
    told.say(" are read at most");
}

/// Why the types of the files don't go together, and the first place that shows it.
fn clash_of(
    alloc: Global,
    sources: &Sources<'_>,
) -> Result<Option<(TypeFault, FaultPlace)>, NoMemory> {
    match flat_types(alloc, read_types(alloc, sources)?) {
        Ok(_) => Ok(None),
        Err(BuildError::Fault(fault, place)) => Ok(Some((fault, place))),
        Err(BuildError::NoMemory(error)) => Err(error),
    }
}

/// Says why the types of the files don't go together. They are read once more, as flat types take
/// those that they are made of.
fn tell_clash(told: &mut Explanation, sources: &Sources<'_>) -> Result<(), NoMemory> {
    let Some((fault, place)) = clash_of(told.alloc(), sources)? else {
        return Ok(());
    };
    let types = read_types(told.alloc(), sources)?;
    let files = Files {
        sources,
        types: types.as_slice(),
    };
    tell_types(told, &files, fault, place);
    Ok(())
}

/// Says what is wrong with files that were refused.
fn tell_refusal(told: &mut Explanation, fault: BeginFault, sources: &Sources<'_>) {
    match fault {
        BeginFault::TooLarge => tell_large(told, sources),
        BeginFault::NedSyntax(file, line) => {
            told.say_place(sources.path(file), line);
            told.say(": ");
            tell_syntax(told, sources.text(file), line);
        }
        BeginFault::IniSyntax(line, reason) => {
            told.say_place(sources.ini_path, line);
            told.say(": ");
            tell_ini_line(told, line_at(sources.ini, line), reason);
        }
        BeginFault::Types(_) => {
            if let Err(error) = tell_clash(told, sources) {
                told.refuse(error);
            }
        }
        BeginFault::Config(ConfigFault::NoSuchConfig) => tell_no_config(told, sources),
        BeginFault::Config(ConfigFault::ChainFault) => tell_no_chain(told, sources),
        BeginFault::Config(ConfigFault::NoSuchNetwork) => tell_no_network(told, sources),
        BeginFault::NoMemory(_) => told.say("out of memory: give fewer or shorter texts"),
    }
}

/// What is wrong with files that were refused, and what would be right: a diagnostic.
pub fn refusal_line(
    alloc: Global,
    fault: BeginFault,
    sources: &Sources<'_>,
) -> Result<Text, NoMemory> {
    let mut told = Explanation::new(alloc);
    tell_refusal(&mut told, fault, sources);
    told.said()
}

/// Why files make no model, and what would be right: a diagnostic. Empty where they make one.
pub fn why_refused(alloc: Global, sources: &Sources<'_>) -> Result<Text, NoMemory> {
    match model_of(alloc, sources.texts, sources.ini, sources.config.as_bytes()) {
        Ok(_) => Ok(Text::empty(alloc)),
        Err(BeginFault::NoMemory(error)) => Err(error),
        Err(fault) => refusal_line(alloc, fault, sources),
    }
}

/// Why the line of that number of an ini text means nothing, and what would be right: a diagnostic.
pub fn bad_line(
    alloc: Global,
    path: &str,
    number: usize,
    line: &[u8],
    reason: Reason,
) -> Result<Text, NoMemory> {
    let mut told = Explanation::new(alloc);
    told.say_place(path, number);
    told.say(": ");
    tell_ini_line(&mut told, line, reason);
    told.said()
}

/// Why a text is neither a connection nor a group of connections, and what would be right: a
/// diagnostic.
pub fn bad_connection(alloc: Global, text: &[u8]) -> Result<Text, NoMemory> {
    let mut told = Explanation::new(alloc);
    told.say("the connection: ");
    tell_connection(&mut told, text);
    told.said()
}
