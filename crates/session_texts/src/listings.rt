//! What the program's own commands list.

use crate::own::Own;
use crate::refused::tell_no_line;
use crate::texts::SessionTexts;
use explain_types::explanation::Explanation;
use ini_trees::lines::LineMeaning;
use sim_values::NoMemory;
use sim_values::text::Text;
use std::alloc::Global;

/// The commands, a line for each.
const COMMANDS: &str = "run N                                    a run of at most N events
write                                    the result files of the last run
ini list [FROM [TO]]                     these lines of the ini text, with their numbers
ini insert L TEXT                        a line is put before line L of the ini text
ini replace L TEXT                       a line stands in place of line L
ini remove L                             line L is taken out
ini save PATH                            the ini text, as edits made it, is written to a file
configs                                  the sections of the ini text
config NAME                              the configuration of that name is selected
ned FILE PATH                            the NED file of number FILE, from 0, is what the file PATH holds
connect TYPE PLACE TEXT                  a connection is put into a type, at a place from 0
disconnect TYPE PLACE                    that connection is taken out
inject PATH TIME PRIORITY KIND BITS HEX  a message arrives from outside
withdraw K                               message K is taken back
positions                                after which events the state is stored
held                                     how many simple modules there are
undo                                     takes the last edit back
help                                     this list
quit                                     ends the session
";

/// What a command lists: the lines, and the answer.
#[derive(Drop)]
pub struct Listing {
    pub lines: Text,
    pub answer: Text,
}

/// How many lines a text has, of which each ends with a line feed.
fn count_of_lines(text: &[u8]) -> usize {
    let mut count = 0usize;
    for byte in text {
        if *byte == b'\n' {
            count = count.saturating_add(1);
        }
    }
    count
}

/// The lines that were told, and that so many are listed.
fn listed(told: Explanation) -> Result<Listing, NoMemory> {
    let alloc = told.alloc();
    let lines = told.said()?;
    let mut answer = Explanation::new(alloc);
    answer.say("listed ");
    answer.say_number(count_of_lines(lines.as_bytes()));
    Ok(Listing {
        lines,
        answer: answer.said()?,
    })
}

/// Says a line of the ini text with its number.
fn say_line(told: &mut Explanation, number: usize, line: &[u8]) {
    told.say_number(number);
    told.say(": ");
    told.say_front(line);
    told.say("\n");
}

/// The lines of the ini text from one number to another.
fn lines_listed(
    alloc: Global,
    texts: &SessionTexts,
    from: u64,
    to: u64,
) -> Result<Listing, NoMemory> {
    let mut told = Explanation::new(alloc);
    for (at, line) in texts.ini.lines().iter().enumerate() {
        let number = at.saturating_add(1);
        if from <= number as u64 && number as u64 <= to {
            say_line(&mut told, number, line.text.as_bytes());
        }
    }
    listed(told)
}

/// What is listed where a text has no line of the wanted numbers.
fn no_lines(alloc: Global, texts: &SessionTexts) -> Result<Listing, NoMemory> {
    let mut told = Explanation::new(alloc);
    tell_no_line(&mut told, texts);
    Ok(Listing {
        lines: told.said()?,
        answer: Text::from_str(alloc, "refused NoSuchLine")?,
    })
}

/// The lines of the ini text from one number to another, where it has one of them.
fn list(alloc: Global, texts: &SessionTexts, from: u64, to: u64) -> Result<Listing, NoMemory> {
    let count = texts.ini.lines().len() as u64;
    if from == 0 || count < from || to < from {
        return no_lines(alloc, texts);
    }
    lines_listed(alloc, texts, from, to)
}

/// Says the name of a section with the number of its line.
fn say_section(told: &mut Explanation, number: usize, name: &[u8], is_selected: bool) {
    told.say_number(number);
    told.say(": ");
    told.say_front(name);
    told.say(if is_selected { " (selected)\n" } else { "\n" });
}

/// The sections of the ini text.
fn configs(alloc: Global, texts: &SessionTexts) -> Result<Listing, NoMemory> {
    let mut told = Explanation::new(alloc);
    for (at, line) in texts.ini.lines().iter().enumerate() {
        if let LineMeaning::Section(name) = &line.meaning {
            let is_selected = texts.is_selected(name.as_bytes());
            say_section(
                &mut told,
                at.saturating_add(1),
                name.as_bytes(),
                is_selected,
            );
        }
    }
    listed(told)
}

/// What a command of the program's own lists: the commands, where it is neither of the ini text nor
/// of its sections.
pub fn listing_of(alloc: Global, texts: &SessionTexts, own: &Own) -> Result<Listing, NoMemory> {
    match own {
        Own::Configs => configs(alloc, texts),
        Own::List(from, to) => list(alloc, texts, *from, *to),
        Own::Help | Own::Undo | Own::Save(_) => {
            let mut told = Explanation::new(alloc);
            told.say(COMMANDS);
            listed(told)
        }
    }
}
