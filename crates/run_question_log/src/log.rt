//! The questions of a run, in the order in which they were asked.

ghost use Rattle.std.specs.Prelude.{◌≡◌, [], ◌∷◌, ◌++◌, true, false, OnOk, OnErr, MatchOption};
ghost use Rattle.std.specs.Prelude.{length, take};
ghost use Rattle.model_questions.specs.Questions.{is_of_modules};
ghost use Rattle.run_semantics.specs.World.{noted};
ghost use Rattle.run_question_log.specs.Entries.{noted_in};

use crate::asked_list::AskedList;
use crate::entry::LogEntry;
use model_questions::answer::{AskedQuestion, Question};
use sim_values::NoMemory;
use std::alloc::Global;
use std::collections::HashSet;
use std::marker::Model;

/// The questions that were asked, each with its event. A question about modules stands in it once,
/// with the first event that asked it; it is looked for in time that doesn't grow with their
/// number. Contracts see the list.
pub struct QuestionLog {
    asked: AskedList,
    /// The questions about modules among them.
    about_modules: HashSet<Question>,
}

// Written out, so that a crate which drops one need not prove what that does.
impl Drop for QuestionLog {
    fn drop(self) {
        let QuestionLog {
            asked: _,
            about_modules: _,
        } = self;
    }
}

impl Model for QuestionLog {
    ghost use Rattle.std.specs.Prelude.{List};
    ghost use Rattle.model_questions.specs.declared.answer.AskedQuestion.{AskedQuestion};
    ghost use Rattle.run_question_log.specs.Keys.{AreKeysOf};

    ghost Value = { List AskedQuestion };

    ghost view = { λ l. l.asked };

    ghost invariant = { λ l. AreKeysOf l.asked l.about_modules.keys };
}

impl QuestionLog {
    /// Nothing was asked.
    pub fn new(alloc: Global) -> QuestionLog
        ensures { result ≡ [] }
    {
        QuestionLog {
            asked: AskedList::new(alloc),
            about_modules: HashSet::new(alloc),
        }
    }

    /// How many questions were asked.
    pub fn len(&self) -> usize
        ensures { result ≡ length self.now }
    {
        self.asked.len()
    }

    /// What is noted of the questions.
    pub fn entries(&self) -> &[LogEntry]
        ensures { noted_in result.now ≡ self.now }
    {
        self.asked.entries()
    }

    /// Notes that a question about modules is asked in that event. One that was asked before is not
    /// noted again.
    pub fn note(&mut self, alloc: Global, event: u64, question: Question) -> Result<(), NoMemory>
        requires { is_of_modules question ≡ true }
        ensures ok { OnOk result (self.new ≡ noted event question self.old) }
        ensures err { OnErr result (self.new ≡ self.old) }
    {
        if self.about_modules.contains(&question) {
            return Ok(());
        }
        let key = question.copy(alloc)?;
        self.asked.push(alloc, event, question)?;
        match self.about_modules.insert(key) {
            Ok(_) => Ok(()),
            Err(failed) => {
                self.asked.pop();
                Err(failed.into())
            }
        }
    }

    /// Notes what is asked of the time of that event.
    pub fn note_time(
        &mut self,
        alloc: Global,
        event: u64,
        question: Question,
    ) -> Result<(), NoMemory>
        requires { is_of_modules question ≡ false }
        ensures ok { OnOk result (self.new
            ≡ self.old ++ record { event = event; question = question } ∷ []) }
        ensures err { OnErr result (self.new ≡ self.old) }
    {
        self.asked.push(alloc, event, question)?;
        Ok(())
    }

    /// Forgets the last questions, so that as many are left, the first ones. A log that has no more
    /// stays as it is.
    pub fn cut(&mut self, left: usize)
        ensures { self.new ≡ take left self.old }
    {
        while self.len() > left {
            self.pop();
        }
    }

    /// Forgets the last question.
    fn pop(&mut self) -> Option<AskedQuestion>
        ensures { MatchOption result ((self.old ≡ [])
            × (self.new ≡ [])) (λ last. self.old ≡ self.new ++ last ∷ []) }
    {
        let last = self.asked.pop()?;
        if is_of_modules(&last.question) {
            self.about_modules.remove(&last.question);
        }
        Some(last)
    }
}

/// Whether a question is about modules.
fn is_of_modules(question: &Question) -> bool
    ensures { result ≡ is_of_modules question.now }
{
    match question {
        Question::Root
        | Question::TypeOf(_)
        | Question::Build(_)
        | Question::Param(_, _)
        | Question::GateSize(_, _)
        | Question::Hop(_, _, _)
        | Question::HopBack(_, _, _) => true,
        Question::BeyondLimit(_) | Question::InjectionBefore(_, _) => false,
    }
}
