//! Why a command is refused.

use crate::changes::{bytes_of, changed_ini, changed_line, with_path, with_text};
use crate::texts::SessionTexts;
use crate::usages::tell_no_command;
use desk_commands::commands::{Command, MAX_LINE};
use explain_files::refusals::{bad_connection, bad_line, why_refused};
use explain_types::explanation::Explanation;
use explain_types::names::shown;
use explain_types::sources::Sources;
use ini_config::error::EditError;
use ini_trees::lines::IniText;
use model_edits::edit::{Edit, MAX_INJECTIONS, MAX_PAYLOAD, Refusal};
use ned_inheritance::table::TypeFault;
use sim_values::NoMemory;
use sim_values::text::{MAX_LENGTH, Text};
use std::alloc::Global;

/// Why there is no model of the texts with that ini text in place of their own.
fn why_not_with(alloc: Global, texts: &SessionTexts, ini: &IniText) -> Result<Text, NoMemory> {
    let bytes = bytes_of(alloc, ini)?;
    let sources = texts.sources(bytes.as_slice());
    why_refused(alloc, &sources)
}

/// Says that the ini text has no line of the number that an edit names.
pub fn tell_no_line(told: &mut Explanation, texts: &SessionTexts) {
    told.say(texts.path());
    told.say(": there is no line of that number: the text has ");
    told.say_number(texts.ini.lines().len());
    told.say(" lines, which count from 1; 'ini insert' takes one number more");
}

/// Says that the changed ini text would be too long.
fn tell_long(told: &mut Explanation, texts: &SessionTexts) {
    told.say(texts.path());
    told.say(": the changed text would be longer than 1 MiB (");
    told.say_number(MAX_LENGTH);
    told.say(" bytes); take lines out first");
}

/// Why an edit of the ini text is refused that can't be made of the text by itself.
fn why_no_ini(
    alloc: Global,
    texts: &SessionTexts,
    edit: &Edit,
    error: EditError,
) -> Result<Text, NoMemory> {
    let mut told = Explanation::new(alloc);
    match error {
        EditError::IniSyntax(line, reason) => {
            let text = changed_line(&texts.ini, edit, line);
            return bad_line(alloc, texts.path(), line, text, reason);
        }
        EditError::NoSuchLine => tell_no_line(&mut told, texts),
        EditError::TooLarge => tell_long(&mut told, texts),
        EditError::NoMemory(error) => return Err(error),
    }
    told.said()
}

/// Why the configuration of that name can't be selected.
fn why_not_selected(alloc: Global, texts: &SessionTexts, name: &[u8]) -> Result<Text, NoMemory> {
    let bytes = bytes_of(alloc, &texts.ini)?;
    let sources = Sources {
        config: shown(name),
        ..texts.sources(bytes.as_slice())
    };
    why_refused(alloc, &sources)
}

/// Says what is wrong with the types after an edit of a connection.
fn tell_types(told: &mut Explanation, refusal: Refusal) {
    told.say(match refusal {
        Refusal::Types(TypeFault::UnknownType) =>
            "the connection names a channel that no file declares",
        Refusal::Types(TypeFault::KindClash) =>
            "what the connection names as its channel is none, or it gives that a parameter or a value which the channel can't have",
        _ => "the connection doesn't go with the types of the files",
    });
}

/// Says why a connection can't be added or taken out, which is none of its text.
fn tell_connection(told: &mut Explanation, of: &[u8], refusal: Refusal) {
    match refusal {
        Refusal::NoSuchType => {
            told.say("no file declares a module or a network ");
            told.say_name(of);
            told.say(" outside of another type; a name has no dots");
        }
        Refusal::NoSuchConnection => {
            told.say_name(of);
            told.say(
                " has no connection of that place in its own section: places count from 0, and a group is one; 'connect' takes one more",
            );
        }
        Refusal::TooLarge => told.say("the text of the connection is longer than 1 MiB"),
        _ => tell_types(told, refusal),
    }
}

/// Says why a message can't be injected.
fn tell_injection(told: &mut Explanation) {
    told.say("the payload is longer than ");
    told.say_number(MAX_PAYLOAD);
    told.say(" bytes, ");
    told.say_number(MAX_INJECTIONS);
    told.say(
        " messages are held already, or all their numbers are used: make the payload shorter, or withdraw messages",
    );
}

/// Says why an edit is refused that is none of the ini text.
fn tell_other_edit(told: &mut Explanation, edit: &Edit, refusal: Refusal) {
    match edit {
        Edit::AddConnection(of, _, _) | Edit::RemoveConnection(of, _) => {
            tell_connection(told, of.as_bytes(), refusal)
        }
        Edit::Inject(_, _, _, _, _) => tell_injection(told),
        Edit::Withdraw(_) => told.say(
            "no message of that number is held: 'inject' is answered by the number, and 'withdraw' takes it back once",
        ),
        _ => {}
    }
}

/// Why an edit is refused that is none of the ini text.
fn why_no_other(
    alloc: Global,
    texts: &SessionTexts,
    edit: &Edit,
    refusal: Refusal,
) -> Result<Text, NoMemory> {
    match (edit, refusal) {
        (Edit::SelectConfig(config), _) => why_not_selected(alloc, texts, config.as_bytes()),
        (Edit::AddConnection(_, _, text), Refusal::NedSyntax(_)) => {
            bad_connection(alloc, text.as_bytes())
        }
        _ => {
            let mut told = Explanation::new(alloc);
            tell_other_edit(&mut told, edit, refusal);
            told.said()
        }
    }
}

/// Why an edit is refused.
fn why_no_edit(
    alloc: Global,
    texts: &SessionTexts,
    edit: &Edit,
    refusal: Refusal,
) -> Result<Text, NoMemory> {
    match changed_ini(alloc, &texts.ini, edit) {
        Some(Ok(changed)) => why_not_with(alloc, texts, &changed),
        Some(Err(error)) => why_no_ini(alloc, texts, edit, error),
        None => why_no_other(alloc, texts, edit, refusal),
    }
}

/// Says that there is no NED file of the number that a command names.
fn tell_no_file(told: &mut Explanation, sources: &Sources<'_>) {
    told.say("there is no NED file of that number: they count from 0, and are");
    let mut before = " ";
    for (number, path) in sources.ned_paths.iter().enumerate() {
        told.say(before);
        told.say_number(number);
        told.say(" ");
        told.say(path.as_str());
        before = ", ";
    }
}

/// Why the NED file of that number can't be this text, which the file of that path holds.
fn why_not_text(
    alloc: Global,
    sources: &Sources<'_>,
    number: usize,
    path: &[u8],
    text: &[u8],
) -> Result<Text, NoMemory> {
    let texts = with_text(alloc, sources.texts.as_slice(), number, text)?;
    let paths = with_path(alloc, sources.ned_paths, number, shown(path))?;
    let changed = Sources {
        texts: &texts,
        ned_paths: paths.as_slice(),
        ..*sources
    };
    why_refused(alloc, &changed)
}

/// Why a NED file can't be replaced.
fn why_no_ned(
    alloc: Global,
    texts: &SessionTexts,
    number: usize,
    path: &[u8],
    text: &[u8],
) -> Result<Text, NoMemory> {
    let bytes = bytes_of(alloc, &texts.ini)?;
    let sources = texts.sources(bytes.as_slice());
    if number < sources.ned_paths.len() {
        return why_not_text(alloc, &sources, number, path, text);
    }
    let mut told = Explanation::new(alloc);
    tell_no_file(&mut told, &sources);
    told.said()
}

/// Why a command of that line is refused that is no edit, and what would be right: a diagnostic.
/// Empty where there is no more to say.
pub fn why_refused_command(
    alloc: Global,
    command: &Command,
    line: &[u8],
) -> Result<Text, NoMemory> {
    let mut told = Explanation::new(alloc);
    match command {
        Command::Unknown => tell_no_command(&mut told, line),
        Command::Write => told.say(
            "no run is done of the model as it is now: 'run N' makes one, whose files can be written",
        ),
        Command::TooLarge => {
            told.say("a command has at most ");
            told.say_number(MAX_LINE);
            told.say(" bytes");
        }
        _ => {}
    }
    told.said()
}

/// Why a command is refused that is an edit of these texts, and what would be right: a diagnostic.
/// Empty where there is no more to say. `read` is what was read of the file that it names.
pub fn why_refused_edit(
    alloc: Global,
    texts: &SessionTexts,
    command: &Command,
    read: &[u8],
    refusal: Refusal,
) -> Result<Text, NoMemory> {
    match command {
        Command::Edit(edit) => why_no_edit(alloc, texts, edit, refusal),
        Command::Ned(number, path) => {
            why_no_ned(alloc, texts, *number as usize, path.as_bytes(), read)
        }
        _ => Ok(Text::empty(alloc)),
    }
}
