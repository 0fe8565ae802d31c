//! The questions of a run, where what was asked before costs little.

ghost use Rattle.std.specs.Prelude.{◌≡◌, [], ◌∷◌, ◌++◌, true, false, OnOk, OnErr, length, take};
ghost use Rattle.model_questions.specs.Questions.{is_of_modules};
ghost use Rattle.run_semantics.specs.Perform.{question_of};
ghost use Rattle.run_semantics.specs.World.{noted};
ghost use Rattle.run_question_log.specs.Entries.{noted_in};

use crate::entry::LogEntry;
use crate::known_reads::KnownReads;
use crate::log::QuestionLog;
use crate::reads::question_of;
use model_questions::answer::Question;
use module_api::reply::Read;
use sim_values::NoMemory;
use std::alloc::Global;
use std::marker::Model;

/// The questions that were asked, each with its event, which contracts see as their list. Of some
/// reads it knows besides that their questions are among them: such a read is neither made a
/// question nor hashed again.
pub struct NotedQuestions {
    log: QuestionLog,
    known: KnownReads,
}

// Written out, so that a crate which drops one need not prove what that does.
impl Drop for NotedQuestions {
    fn drop(self) {
        let NotedQuestions { log: _, known: _ } = self;
    }
}

impl Model for NotedQuestions {
    ghost use Rattle.std.specs.Prelude.{List};
    ghost use Rattle.model_questions.specs.declared.answer.AskedQuestion.{AskedQuestion};
    ghost use Rattle.run_question_log.specs.Known.{reads_in, AreKnown};

    ghost Value = { List AskedQuestion };

    ghost view = { λ n. n.log };

    ghost invariant = { λ n. AreKnown n.log (reads_in n.known) };
}

impl NotedQuestions {
    /// Nothing was asked.
    pub fn new(alloc: Global) -> NotedQuestions
        ensures { result ≡ [] }
    {
        NotedQuestions {
            log: QuestionLog::new(alloc),
            known: KnownReads::new(alloc),
        }
    }

    /// How many questions were asked.
    pub fn len(&self) -> usize
        ensures { result ≡ length self.now }
    {
        self.log.len()
    }

    /// What is noted of the questions.
    pub fn entries(&self) -> &[LogEntry]
        ensures { noted_in result.now ≡ self.now }
    {
        self.log.entries()
    }

    /// Notes that a question about modules is asked in that event. One that was asked before is not
    /// noted again.
    pub fn note(&mut self, alloc: Global, event: u64, question: Question) -> Result<(), NoMemory>
        requires { is_of_modules question ≡ true }
        ensures ok { OnOk result (self.new ≡ noted event question self.old) }
        ensures err { OnErr result (self.new ≡ self.old) }
    {
        self.log.note(alloc, event, question)
    }

    /// Notes that in that event the module of that id reads this, at that place of what its reply
    /// reads. What was asked before is not noted again.
    pub fn note_read(
        &mut self,
        alloc: Global,
        event: u64,
        id: u32,
        place: usize,
        read: &Read,
    ) -> Result<(), NoMemory>
        ensures ok { OnOk result (self.new ≡ noted event (question_of id read.now) self.old) }
        ensures err { OnErr result (self.new ≡ self.old) }
    {
        if self.known.has(id, place, read) {
            return Ok(());
        }
        self.log.note(alloc, event, question_of(alloc, id, read)?)?;
        self.known.add(alloc, id, read);
        Ok(())
    }

    /// Notes what is asked of the time of that event.
    pub fn note_time(
        &mut self,
        alloc: Global,
        event: u64,
        question: Question,
    ) -> Result<(), NoMemory>
        requires { is_of_modules question ≡ false }
        ensures ok { OnOk result (self.new
            ≡ self.old ++ record { event = event; question = question } ∷ []) }
        ensures err { OnErr result (self.new ≡ self.old) }
    {
        self.log.note_time(alloc, event, question)
    }

    /// Forgets the last questions, so that as many are left, the first ones. Of those that has no
    /// more it forgets none.
    pub fn cut(&mut self, left: usize)
        ensures { self.new ≡ take left self.old }
    {
        self.known.clear();
        self.log.cut(left);
    }
}
