//! What is noted of questions.

ghost use Rattle.std.specs.Prelude.{◌≡◌, [], ◌∷◌, ◌++◌, IfOk, IfSome};
ghost use Rattle.model_questions.specs.declared.answer.Question.TheVariants.{InjectionBefore};
ghost use Rattle.run_question_log.specs.Entries.{asked_in, asked_in_any, AreOf};

use model_injections::injection::{Due, InjectionTurn};
use model_questions::answer::{AskedQuestion, Question};
use sim_time::SimTime;
use sim_values::NoMemory;
use sqlite_items::Boxed;
use std::alloc::Global;

/// What is noted of one question, or of two, with the number of the event in which they were asked.
/// Each event asks two things of its time, one right after the other: they take three words
/// together, and no memory beside them. The priority stands before the other fields, since there it
/// lies in one word with the tag.
#[derive(Drop)]
pub enum LogEntry {
    /// Whether an event at that time, in picoseconds, is later than the time limit allows.
    BeyondLimit {
        event: u64,
        time: u64,
    },
    /// The injection that goes before an event that is due then, where none was delivered yet.
    FirstInjection {
        priority: i16,
        event: u64,
        time: SimTime,
    },
    /// Both: first which injection goes before an event that is due then, where none was delivered
    /// yet; then whether that time is later than the time limit allows.
    Both {
        priority: i16,
        event: u64,
        time: SimTime,
    },
    /// Any other question.
    Other {
        event: u64,
        question: Boxed<Question>,
    },
}

// An entry has three words.
const _: () = prove!(size_of::<LogEntry>() == 24);

impl LogEntry {
    /// The event in which it was asked.
    pub fn event(&self) -> u64
        ensures { AreOf result (asked_in self.now) }
    {
        match self {
            LogEntry::BeyondLimit { event, .. }
            | LogEntry::FirstInjection { event, .. }
            | LogEntry::Both { event, .. }
            | LogEntry::Other { event, .. } => *event,
        }
    }
}

/// The question which injection goes before an event that is due then, where none was delivered
/// yet.
pub fn first_injection(time: SimTime, priority: i16) -> Question
    ensures { result ≡ InjectionBefore (Some (record { time = time; priority = priority })) None }
{
    Question::InjectionBefore(Some(Due { time, priority }), None)
}

/// What is noted of a question about injections.
fn of_injections(
    alloc: Global,
    event: u64,
    due: Option<Due>,
    last: Option<InjectionTurn>,
) -> Result<LogEntry, NoMemory>
    ensures { IfOk result (λ entry. asked_in entry
        ≡ record { event = event; question = InjectionBefore due last } ∷ []) }
{
    match (due, last) {
        (Some(due), None) => Ok(LogEntry::FirstInjection {
            priority: due.priority,
            event,
            time: due.time,
        }),
        (due, last) => Ok(LogEntry::Other {
            event,
            question: Boxed::new(alloc, Question::InjectionBefore(due, last))?,
        }),
    }
}

/// What is noted of a question.
pub fn noted(alloc: Global, event: u64, question: Question) -> Result<LogEntry, NoMemory>
    ensures { IfOk result
        (λ entry. asked_in entry ≡ record { event = event; question = question } ∷ []) }
{
    match question {
        Question::BeyondLimit(time) => Ok(LogEntry::BeyondLimit { event, time }),
        Question::InjectionBefore(due, last) => of_injections(alloc, event, due, last),
        question => Ok(LogEntry::Other {
            event,
            question: Boxed::new(alloc, question)?,
        }),
    }
}

/// What is noted of the questions of an entry and of this one after them, where one entry stands
/// for them all.
pub fn joined(last: &LogEntry, event: u64, question: &Question) -> Option<LogEntry>
    ensures { IfSome result (λ entry. asked_in entry
        ≡ asked_in last.now ++ record { event = event; question = question.now } ∷ []) }
{
    let Question::BeyondLimit(limit) = question else {
        return None;
    };
    match last {
        LogEntry::FirstInjection {
            priority,
            event: first,
            time,
        } if *first == event && time.ps() == *limit => Some(LogEntry::Both {
            priority: *priority,
            event,
            time: *time,
        }),
        _ => None,
    }
}

/// The last question of an entry, and what is noted of those before it.
pub fn parted(entry: LogEntry) -> (Option<LogEntry>, AskedQuestion)
    ensures { asked_in entry ≡ asked_in_any result.0 ++ result.1 ∷ [] }
{
    match entry {
        LogEntry::BeyondLimit { event, time } => (None, of_limit(event, time)),
        LogEntry::FirstInjection {
            priority,
            event,
            time,
        } => {
            let question = first_injection(time, priority);
            (None, AskedQuestion { event, question })
        }
        LogEntry::Both {
            priority,
            event,
            time,
        } => {
            let first = LogEntry::FirstInjection {
                priority,
                event,
                time,
            };
            (Some(first), of_limit(event, time.ps()))
        }
        LogEntry::Other { event, question } => {
            let question = question.into_inner();
            (None, AskedQuestion { event, question })
        }
    }
}

/// The question of that event whether that time, in picoseconds, is later than the time limit
/// allows.
fn of_limit(event: u64, time: u64) -> AskedQuestion
    ensures { result ≡ record { event = event; question = Question.BeyondLimit time } }
{
    AskedQuestion {
        event,
        question: Question::BeyondLimit(time),
    }
}
