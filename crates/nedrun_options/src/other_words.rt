//! Words of OMNeT++'s own programs that this one does not take, with what serves instead.

use clap::error::ErrorKind;
use std::env;
use std::rt::Env;

/// The words, each with what serves instead.
const OTHERS: [(&str, &str); 22] = [
    ("-a", "'configs' in a session lists the configurations"),
    ("-e", "--help prints the help"),
    ("-g", "there is no event log and no debugging"),
    ("-i", "there are no graphics"),
    (
        "-m",
        "2>&1 of the shell sends standard error to standard output",
    ),
    ("-q", "'configs' in a session lists the configurations"),
    ("-s", "2>/dev/null of the shell leaves standard error out"),
    ("-v", "-V is the version"),
    ("-x", "name the NED files that are wanted one by one"),
    (
        "--cpu-time-limit",
        "-l LIMIT ends a run after so many events",
    ),
    (
        "--debug-on-errors",
        "a fault is reported with the module and the event, and there is no debugger",
    ),
    (
        "--debugger-attach-on-error",
        "a fault is reported with the module and the event, and there is no debugger",
    ),
    ("--help-topics", "--help prints the help"),
    ("--ned-path", "-n DIR takes all NED files below a folder"),
    ("--network", "write 'network = NAME' into the ini file"),
    (
        "--real-time-limit",
        "-l LIMIT ends a run after so many events",
    ),
    ("--record-eventlog", "there is no event log"),
    (
        "--repeat",
        "a run is the same each time, so that there is one",
    ),
    (
        "--result-dir",
        "-o DIR names the folder of the result files",
    ),
    (
        "--seed-set",
        "there are no random numbers, and every run is the same",
    ),
    (
        "--sim-time-limit",
        "write 'sim-time-limit = 10s', with a time, into the ini file",
    ),
    (
        "--warmup-period",
        "there is none: results are recorded from the start on",
    ),
];

/// What serves instead of entries of the ini file among the words.
const ENTRIES: &str = "write 'KEY = VALUE' into the ini file";

/// What serves instead of words for what is printed while a run goes on.
const PROGRESS: &str = "--progress reports every two seconds how far a run is";

/// What stands before the sign of a value, of a word of a long name; the first letter, of another.
fn name_of(word: &str) -> &str {
    if word.starts_with("--") {
        return word.split_once('=').unwrap_or((word, "")).0;
    }
    match word.split_at_checked(2) {
        Some((name, _value)) => name,
        None => word,
    }
}

/// How a word is called, and what serves instead of it.
fn instead_of(word: &str) -> Option<(&'static str, &'static str)> {
    let name = name_of(word);
    for (other, instead) in OTHERS.as_slice() {
        if *other == name {
            return Some((*other, *instead));
        }
    }
    if name.starts_with("--cmdenv-") {
        return Some(("--cmdenv-..", PROGRESS));
    }
    if name.starts_with("--") && (name.contains('.') || name.contains('*')) {
        return Some(("--KEY=VALUE", ENTRIES));
    }
    None
}

/// How the first word of OMNeT++'s own among the words of the program is called, which were refused
/// for one that is not known, and what serves instead.
pub fn instead_of_words<R: Env + AllocGlobal>(
    rt: &R,
    error: &clap::Error,
) -> Option<(&'static str, &'static str)> {
    if error.kind() != ErrorKind::UnknownArgument {
        return None;
    }
    let words = env::args(rt).ok()?;
    for word in words.skip(1) {
        if word.as_str() == "--" {
            return None;
        }
        if let Some(instead) = instead_of(word.as_str()) {
            return Some(instead);
        }
    }
    None
}
