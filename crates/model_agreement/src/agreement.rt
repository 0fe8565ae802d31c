//! Up to which event of a run two models agree.

ghost use Rattle.std.specs.Prelude.{◌≡◌, true, IfOk, Some, None};
ghost use Rattle.std.specs.Bool.{Decides};
ghost use Rattle.model_answers.specs.Answering.{answers_of};
ghost use Rattle.model_questions.specs.Answers.{answer_of};
ghost use Rattle.model_questions.specs.declared.answer.Question.TheVariants.{BeyondLimit};
ghost use Rattle.model_questions.specs.declared.answer.Question.TheVariants.{InjectionBefore};
ghost use Rattle.run_question_log.specs.Entries.{asked_in, noted_in};
ghost use Rattle.run_semantics.specs.Agreement.{Agrees, IsAgreement};
ghost use Rattle.model_agreement.specs.Changes.{AreAlikeBut};
ghost use Rattle.model_agreement.specs.Known.{IsKnown};
ghost use Rattle.model_agreement.specs.Narrowing.{Narrows};
ghost use Rattle.model_agreement.specs.Models.{RestOnSame};

use crate::changes::ChangedParameter;
use crate::common::common_of;
use crate::known::{Known, is_sure};
use crate::same::same_answer;
use model_answers::evaluated::EvaluatedModel;
use model_answers::plain::PlainAnswers;
use model_injections::injection::Due;
use model_questions::answer::Question;
use model_questions::record::Record;
use run_question_log::entry::{LogEntry, first_injection};
use sim_values::NoMemory;
use std::alloc::Global;

/// Whether two models give a question the same answer, with the modules of these records.
fn agrees(
    alloc: Global,
    known: Known<'_>,
    one: &PlainAnswers<'_>,
    other: &PlainAnswers<'_>,
    records: &[Record],
    question: &Question,
) -> Result<bool, NoMemory>
    requires { IsKnown one.now other.now records.now known }
    ensures { IfOk result (λ same. Decides same
        (answer_of (answers_of one.now) records.now question.now
        ≡ answer_of (answers_of other.now) records.now question.now)) }
{
    if is_sure(alloc, known, records, question)? {
        return Ok(true);
    }
    let first = one.answer(alloc, records, question)?;
    let second = other.answer(alloc, records, question)?;
    Ok(same_answer(&first, &second))
}

/// Whether two models give both questions of an event's time the same answers: which injection goes
/// before an event that is due then, where none was delivered yet, and whether the time limit
/// allows that time.
fn agrees_on_both(
    alloc: Global,
    known: Known<'_>,
    one: &PlainAnswers<'_>,
    other: &PlainAnswers<'_>,
    records: &[Record],
    due: Due,
) -> Result<bool, NoMemory>
    requires { IsKnown one.now other.now records.now known }
    ensures { IfOk result (λ same. Decides same
        ((answer_of (answers_of one.now) records.now (InjectionBefore (Some due) None)
        ≡ answer_of (answers_of other.now) records.now (InjectionBefore (Some due) None))
        × (answer_of (answers_of one.now) records.now (BeyondLimit due.time)
        ≡ answer_of (answers_of other.now) records.now (BeyondLimit due.time)))) }
{
    let first = Question::InjectionBefore(Some(due), None);
    if !agrees(alloc, known, one, other, records, &first)? {
        return Ok(false);
    }
    let limit = Question::BeyondLimit(due.time.ps());
    agrees(alloc, known, one, other, records, &limit)
}

/// Whether two models give the questions that are noted so the same answers, with the modules of
/// these records.
fn agrees_on(
    alloc: Global,
    known: Known<'_>,
    one: &PlainAnswers<'_>,
    other: &PlainAnswers<'_>,
    records: &[Record],
    entry: &LogEntry,
) -> Result<bool, NoMemory>
    requires { IsKnown one.now other.now records.now known }
    ensures { IfOk result (λ same. Decides same
        (Agrees (answers_of one.now) (answers_of other.now) records.now (asked_in entry.now))) }
{
    if known.common.is_about_all(entry) {
        return Ok(true);
    }
    match entry {
        LogEntry::BeyondLimit { time, .. } => {
            let question = Question::BeyondLimit(*time);
            agrees(alloc, known, one, other, records, &question)
        }
        LogEntry::FirstInjection { time, priority, .. } => {
            let question = first_injection(*time, *priority);
            agrees(alloc, known, one, other, records, &question)
        }
        LogEntry::Both { time, priority, .. } => {
            let due = Due {
                time: *time,
                priority: *priority,
            };
            agrees_on_both(alloc, known, one, other, records, due)
        }
        LogEntry::Other { question, .. } => {
            agrees(alloc, known, one, other, records, question.get())
        }
    }
}

/// What the questions of an entry leave of the events up to this one on which two models agree:
/// those before its own, where they give one of them different answers.
fn narrowed(
    alloc: Global,
    known: Known<'_>,
    one: &PlainAnswers<'_>,
    other: &PlainAnswers<'_>,
    records: &[Record],
    entry: &LogEntry,
    valid: u64,
) -> Result<Option<u64>, NoMemory>
    requires { IsKnown one.now other.now records.now known }
    ensures { IfOk result (λ left. Narrows (answers_of one.now) (answers_of other.now) records.now
        (asked_in entry.now) valid left) }
{
    let event = entry.event();
    if event > valid {
        return Ok(Some(valid));
    }
    if agrees_on(alloc, known, one, other, records, entry)? {
        return Ok(Some(valid));
    }
    if event == 0 {
        return Ok(None);
    }
    Ok(Some(event - 1))
}

/// The greatest event up to which both models give all questions the same answers, as `agreement`
/// tells it.
fn agreed_up_to(
    alloc: Global,
    one: &PlainAnswers<'_>,
    other: &PlainAnswers<'_>,
    known: Known<'_>,
    records: &[Record],
    asked: &[LogEntry],
    last: u64,
) -> Result<Option<u64>, NoMemory>
    requires { IsKnown one.now other.now records.now known }
    ensures { IfOk result (λ valid. IsAgreement (answers_of one.now) (answers_of other.now)
        records.now last (noted_in asked.now) valid) }
{
    let mut valid = last;
    for entry in asked {
        match narrowed(alloc, known, one, other, records, entry, valid)? {
            Some(left) => valid = left,
            None => return Ok(None),
        }
    }
    Ok(Some(valid))
}

/// The greatest event, up to the last one, such that both models give all questions up to it the
/// same answers, with the modules of these records. None where they differ on a question of event
/// zero. Where it is known that the values of both rest on the same no question about modules is
/// asked.
pub fn agreement(
    alloc: Global,
    one: &EvaluatedModel,
    other: &EvaluatedModel,
    same: bool,
    records: &[Record],
    asked: &[LogEntry],
    last: u64,
) -> Result<Option<u64>, NoMemory>
    requires { same ≡ true → RestOnSame one.now other.now }
    ensures { IfOk result (λ valid. IsAgreement (answers_of one.now) (answers_of other.now)
        records.now last (noted_in asked.now) valid) }
{
    let first = PlainAnswers::new(one);
    let second = PlainAnswers::new(other);
    let known = Known {
        common: common_of(&first, &second, same),
        alike: false,
        changed: &[],
    };
    agreed_up_to(alloc, &first, &second, known, records, asked, last)
}

/// The same of two models that are alike but in these parameters, for the modules of these records.
/// Of the questions about modules only those are asked that may have another answer: about one of
/// these parameters; about modules that were created while the run went on, and those within them;
/// which network is run, and what is inside of compound modules.
pub fn agreement_but(
    alloc: Global,
    one: &EvaluatedModel,
    other: &EvaluatedModel,
    changed: &[ChangedParameter],
    records: &[Record],
    asked: &[LogEntry],
    last: u64,
) -> Result<Option<u64>, NoMemory>
    requires { AreAlikeBut one.now other.now changed.now records.now }
    ensures { IfOk result (λ valid. IsAgreement (answers_of one.now) (answers_of other.now)
        records.now last (noted_in asked.now) valid) }
{
    let first = PlainAnswers::new(one);
    let second = PlainAnswers::new(other);
    let known = Known {
        common: common_of(&first, &second, false),
        alike: true,
        changed,
    };
    agreed_up_to(alloc, &first, &second, known, records, asked, last)
}
