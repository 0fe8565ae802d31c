//! The questions of a run, in few words.

ghost use Rattle.std.specs.Prelude.{◌≡◌, [], ◌∷◌, ◌++◌, length, OnOk, OnErr, MatchOption};
ghost use Rattle.std.specs.Prelude.{if◌then◌else◌, ◌<◌, vec_len, vec_capacity};
ghost use Rattle.run_question_log.specs.Entries.{asked_in, noted_in};

use crate::entry::{LogEntry, joined, noted, parted};
use model_questions::answer::{AskedQuestion, Question};
use sim_values::NoMemory;
use std::alloc::Global;
use std::marker::Model;

/// Questions in the order in which they were asked, each with its event. What an event asks of its
/// time takes one entry, so there are fewer entries than questions. Contracts see the questions.
#[derive(Drop)]
pub struct AskedList {
    entries: Vec<LogEntry>,
    /// How many questions they stand for.
    count: usize,
}

impl Model for AskedList {
    ghost use Rattle.std.specs.Prelude.{◌≡◌, List, length};
    ghost use Rattle.model_questions.specs.declared.answer.AskedQuestion.{AskedQuestion};
    ghost use Rattle.run_question_log.specs.Entries.{noted_in};

    ghost Value = { List AskedQuestion };

    ghost view = { λ l. noted_in l.entries.items };

    ghost invariant = { λ l. l.count ≡ length (noted_in l.entries.items) };
}

impl AskedList {
    /// Nothing was asked.
    pub fn new(alloc: Global) -> AskedList
        ensures { result ≡ [] }
    {
        AskedList {
            entries: Vec::new(alloc),
            count: 0,
        }
    }

    /// How many questions were asked.
    pub fn len(&self) -> usize
        ensures { result ≡ length self.now }
    {
        self.count
    }

    /// What is noted of the questions.
    pub fn entries(&self) -> &[LogEntry]
        ensures { noted_in result.now ≡ self.now }
    {
        self.entries.as_slice()
    }

    /// Notes a question at the end.
    pub fn push(&mut self, alloc: Global, event: u64, question: Question) -> Result<(), NoMemory>
        ensures ok { OnOk result (self.new
            ≡ self.old ++ record { event = event; question = question } ∷ []) }
        ensures err { OnErr result (self.new ≡ self.old) }
    {
        if self.join(event, &question) {
            return Ok(());
        }
        self.entries.push(noted(alloc, event, question)?)?;
        self.count += 1;
        Ok(())
    }

    /// Notes a question at the end by the last entry, or tells that it can't stand for it too.
    fn join(&mut self, event: u64, question: &Question) -> bool
        ensures { self.new ≡ (if result then self.old ++ record {
          event = event;
          question = question.now;
        } ∷ [] else self.old) }
    {
        let Some(last) = self.entries.last() else {
            return false;
        };
        let Some(both) = joined(last, event, question) else {
            return false;
        };
        let place = self.entries.len() - 1;
        self.entries[place] = both;
        self.count += 1;
        true
    }

    /// Forgets the last question.
    pub fn pop(&mut self) -> Option<AskedQuestion>
        ensures { MatchOption result ((self.old ≡ [])
            × (self.new ≡ [])) (λ last. self.old ≡ self.new ++ last ∷ []) }
    {
        let last = pop_question(&mut self.entries)?;
        self.count -= 1;
        Some(last)
    }
}

/// Takes the last question out of these entries.
fn pop_question(entries: &mut Vec<LogEntry>) -> Option<AskedQuestion>
    ensures { MatchOption result
        ((noted_in entries.old.items ≡ []) × (noted_in entries.new.items ≡ []))
        (λ last. noted_in entries.old.items ≡ noted_in entries.new.items ++ last ∷ []) }
{
    let entry = entries.pop()?;
    let (before, last) = parted(entry);
    if let Some(before) = before {
        put_back(entries, before);
    }
    Some(last)
}

/// Puts an entry at the end, where there is room for one, so that no memory is wanted.
fn put_back(entries: &mut Vec<LogEntry>, entry: LogEntry)
    requires { vec_len entries.old < vec_capacity entries.old }
    ensures { entries.new.items ≡ entries.old.items ++ entry ∷ [] }
{
    match entries.push(entry) {
        Ok(()) => {}
        Err(_) => unreachable!(),
    }
}
