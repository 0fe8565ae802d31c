//! How commands are written.

use explain_types::explanation::Explanation;
use explain_types::names::shown;

/// The first words of commands, with how they are written.
const USAGES: [(&str, &str); 15] = [
    ("run", "'run N'"),
    ("write", "'write'"),
    (
        "ini",
        "'ini list [FROM [TO]]', 'ini insert L TEXT', 'ini replace L TEXT', 'ini remove L' or 'ini save PATH'",
    ),
    ("ned", "'ned FILE PATH'"),
    ("connect", "'connect TYPE PLACE TEXT'"),
    ("disconnect", "'disconnect TYPE PLACE'"),
    ("config", "'config NAME'"),
    ("inject", "'inject PATH TIME PRIORITY KIND BITS HEX'"),
    ("withdraw", "'withdraw K'"),
    ("positions", "'positions'"),
    ("held", "'held'"),
    ("configs", "'configs'"),
    ("undo", "'undo'"),
    ("help", "'help'"),
    ("quit", "'quit'"),
];

/// The word with which a line begins.
fn first_word(line: &str) -> &str {
    match line.split_once(' ') {
        Some((word, _rest)) => word,
        None => line.trim_ascii_end(),
    }
}

/// How the command is written that begins with that word.
fn usage_of(wanted: &str) -> Option<&'static str> {
    for (word, usage) in USAGES.as_slice() {
        if *word == wanted {
            return Some(*usage);
        }
    }
    None
}

/// Says that a line is no command, and how the one is written that it may be.
pub fn tell_no_command(told: &mut Explanation, line: &[u8]) {
    if line.ends_with(b"\r") {
        return told.say(
            "the line ends with a carriage return, which is part of it: end it with a line feed alone",
        );
    }
    let line = shown(line);
    if line.trim_ascii_end().is_empty() {
        return told.say("an empty line is no command");
    }
    let word = first_word(line);
    match usage_of(word) {
        Some(usage) => {
            told.say("this is no command: it is written ");
            told.say(usage);
            told.say(", with one space between words, none after the last, and numbers in digits");
        }
        None => {
            told.say_name(word.as_bytes());
            told.say(" is no command: 'help' lists the commands");
        }
    }
}
