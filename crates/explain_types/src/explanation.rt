//! What is said to a person, as it grows.

use crate::names::{MOST_SHOWN, front_shown, is_near, shown};
use sim_values::NoMemory;
use sim_values::text::Text;
use std::alloc::Global;
use text_writer::writer::TextWriter;

/// How many names of a list are said, at most.
const MOST_LISTED: usize = 100;

/// What is said to a person so far. A call that says more never fails: where memory runs out,
/// `said` answers that, and nothing of the text.
#[derive(Drop)]
pub struct Explanation {
    text: TextWriter,
    alloc: Global,
}

impl Explanation {
    /// Nothing yet.
    pub fn new(alloc: Global) -> Explanation {
        Explanation {
            text: TextWriter::new(alloc),
            alloc,
        }
    }

    /// What the text grows by.
    pub fn alloc(&self) -> Global {
        self.alloc
    }

    /// Notes that memory ran out.
    pub fn refuse(&mut self, error: NoMemory) {
        self.text.refuse(error);
    }

    /// Says a text.
    pub fn say(&mut self, text: &str) {
        self.text.push(text.as_bytes());
    }

    /// Says a number.
    pub fn say_number(&mut self, number: usize) {
        self.text.push_number(number as u64);
    }

    /// Says a name, of a long one only the front.
    pub fn say_front(&mut self, name: &[u8]) {
        self.say(shown(front_shown(name)));
        if name.len() > MOST_SHOWN {
            self.say("..");
        }
    }

    /// Says a name, in quotes, of a long one only the front.
    pub fn say_name(&mut self, name: &[u8]) {
        self.say("'");
        self.say_front(name);
        self.say("'");
    }

    /// Says a line of a file: `path:line`.
    pub fn say_place(&mut self, path: &str, line: usize) {
        self.say(path);
        self.say(":");
        self.say_number(line);
    }

    /// Says names, with commas between them, and how many more there are than are said; `none`
    /// where there are none.
    pub fn say_list(&mut self, names: &[&[u8]]) {
        if names.is_empty() {
            self.say("none");
        }
        let listed = names.len().min(MOST_LISTED);
        let mut before = "";
        for name in &names[..listed] {
            self.say(before);
            self.say_front(name);
            before = ", ";
        }
        if listed < names.len() {
            self.say(" and ");
            self.say_number(names.len() - listed);
            self.say(" more");
        }
    }

    /// Says the known name as a question, where it is near. Answers whether it is.
    pub fn say_if_near(&mut self, name: &[u8], known: &[u8]) -> bool {
        let near = is_near(name, known);
        if near {
            self.say("; did you mean ");
            self.say_name(known);
            self.say("?");
        }
        near
    }

    /// Says the first of the names that is near, as a question.
    pub fn say_near(&mut self, name: &[u8], known: &[&[u8]]) {
        for it in known {
            if self.say_if_near(name, it) {
                return;
            }
        }
    }

    /// All that was said; or that memory ran out meanwhile.
    pub fn said(self) -> Result<Text, NoMemory> {
        let Explanation { text, alloc: _ } = self;
        text.finish()
    }
}
