//! Answers, and their texts.

ghost use Rattle.std.specs.Prelude.{◌≡◌, ◌++◌, Some, IfOk, codes};
ghost use Rattle.std.specs.Fmt.{decimal};
ghost use Rattle.desk_answers.specs.Refusals.{refusal_place, refusal_text};
ghost use Rattle.desk_client.specs.Answers.{counts_text, done_text, edit_refusal_text, edited_text};
ghost use Rattle.desk_client.specs.Answers.{held_text, injection_text, numbers_text};
ghost use Rattle.desk_client.specs.Answers.{positions_text, valid_text};
ghost use Rattle.desk_client.specs.Answers.{fault_detail, outcome_text, start_text, IsTold};

use desk_client::told::AnswerContent;
use edit_session::session::Report;
use model_edits::edit::Refusal;
use model_reading::begin::BeginFault;
use module_api::name::Name;
use run_semantics::outcome::{Outcome, RunFault};
use sim_values::NoMemory;
use sim_values::text::Text;
use std::alloc::Global;
use text_writer::writer::TextWriter;

/// What a line is answered.
pub struct Answer {
    /// Words of the program's own, which take no memory, or a text that was put together.
    pub text: Name,
    /// What the text tells.
    pub told: AnswerContent,
}

// Written out, so that a crate which drops one need not prove what that does.
impl Drop for Answer {
    fn drop(self) {
        let Answer { text: _, told: _ } = self;
    }
}

impl Answer {
    /// Its text.
    pub fn into_text(self) -> Name
        ensures { result ≡ self.text }
    {
        let Answer { text, told } = self;
        drop(told);
        text
    }
}

/// Adds what a module said that failed.
fn push_detail(text: &mut TextWriter, fault: &RunFault)
    ensures { text.new ≡ text.old ++ fault_detail fault.now }
{
    if let RunFault::ModuleFailed(said) = fault {
        text.push(b": ");
        text.push(said.as_bytes());
    }
}

/// Adds how a run ended.
fn push_outcome(text: &mut TextWriter, outcome: &Outcome)
    ensures { text.new ≡ text.old ++ outcome_text outcome.now }
{
    match outcome {
        Outcome::Ended => text.push(b"ended"),
        Outcome::EventLimit => text.push(b"event-limit"),
        Outcome::NoMoreEvents => text.push(b"no-more-events"),
        Outcome::TimeLimit => text.push(b"time-limit"),
        Outcome::Fault(event, path, fault) => {
            text.push(b"fault ");
            text.push_number(*event);
            text.push(b" ");
            text.push(path.as_bytes());
            text.push(b" ");
            text.push(fault.name());
            push_detail(text, fault);
        }
    }
}

/// Adds where a run began.
fn push_start(text: &mut TextWriter, from: Option<u64>)
    ensures { text.new ≡ text.old ++ start_text from }
{
    match from {
        None => text.push(b"start"),
        Some(event) => text.push_number(event),
    }
}

/// The text for a run that is done.
pub fn done_text(alloc: Global, report: &Report) -> Result<Text, NoMemory>
    ensures { IfOk result (λ text. text
        ≡ done_text report.now.outcome report.now.started_from report.now.executed) }
{
    let mut text = TextWriter::new(alloc);
    text.push(b"done ");
    push_outcome(&mut text, &report.outcome);
    text.push(b" from ");
    push_start(&mut text, report.started_from);
    text.push(b" executed ");
    text.push_number(report.executed);
    text.finish()
}

/// The answer of a run that is done.
pub fn done(alloc: Global, report: Report) -> Result<Answer, NoMemory>
    ensures text { IfOk result (λ answer. answer.text
        ≡ done_text report.outcome report.started_from report.executed) }
    ensures told { IfOk result (λ answer. IsTold answer.told answer.text) }
{
    let text = done_text(alloc, &report)?;
    Ok(Answer {
        text: Name::of_text(text),
        told: AnswerContent::Done(report.outcome),
    })
}

/// Adds where what is refused stands: the file, counted from 0, and the line, counted from 1.
fn push_place(text: &mut TextWriter, fault: BeginFault)
    ensures { text.new ≡ text.old ++ refusal_place fault }
{
    match fault {
        BeginFault::NedSyntax(file, line) => {
            text.push(b" file ");
            text.push_number(file as u64);
            text.push(b" line ");
            text.push_number(line as u64);
        }
        BeginFault::IniSyntax(line, _) => {
            text.push(b" line ");
            text.push_number(line as u64);
        }
        _ => {}
    }
}

/// The text of a refusal: its name, and the file and line where they are known.
pub fn refusal_text(alloc: Global, fault: BeginFault) -> Result<Text, NoMemory>
    ensures { IfOk result (λ text. text ≡ refusal_text fault) }
{
    let mut text = TextWriter::new(alloc);
    text.push(fault.name());
    push_place(&mut text, fault);
    text.finish()
}

/// Adds up to which event a run stays valid.
fn push_valid(text: &mut TextWriter, valid_to: Option<u64>)
    ensures { text.new ≡ text.old ++ valid_text valid_to }
{
    match valid_to {
        None => text.push(b"none"),
        Some(event) => text.push_number(event),
    }
}

/// Adds the number of the injection that is added.
fn push_injection(text: &mut TextWriter, injection: Option<u64>)
    ensures { text.new ≡ text.old ++ injection_text injection }
{
    if let Some(number) = injection {
        text.push(b" injection ");
        text.push_number(number);
    }
}

/// The text for an edit that is made.
pub fn edited_text(
    alloc: Global,
    valid_to: Option<u64>,
    injection: Option<u64>,
) -> Result<Name, NoMemory>
    ensures { IfOk result (λ text. text ≡ edited_text valid_to injection) }
{
    let mut text = TextWriter::new(alloc);
    text.push(b"edited valid ");
    push_valid(&mut text, valid_to);
    push_injection(&mut text, injection);
    Ok(Name::of_text(text.finish()?))
}

/// The text for `held`.
pub fn held_text(alloc: Global, held: u128) -> Result<Name, NoMemory>
    ensures { IfOk result (λ text. text ≡ held_text held) }
{
    let mut text = TextWriter::new(alloc);
    text.push(b"held ");
    text.push_wide(held);
    Ok(Name::of_text(text.finish()?))
}

/// Adds numbers, each after a space.
fn push_numbers(text: &mut TextWriter, numbers: &[u64])
    ensures { text.new ≡ text.old ++ numbers_text numbers.now }
{
    for number in numbers {
        text.push(b" ");
        text.push_number(*number);
    }
}

/// Adds after which events a position is stored.
fn push_counts(text: &mut TextWriter, counts: &[u64])
    ensures { text.new ≡ text.old ++ counts_text counts.now }
{
    match counts {
        [] => text.push(b" none"),
        _ => push_numbers(text, counts),
    }
}

/// The text for `positions`.
pub fn positions_text(alloc: Global, counts: &[u64]) -> Result<Name, NoMemory>
    ensures { IfOk result (λ text. text ≡ positions_text counts.now) }
{
    let mut text = TextWriter::new(alloc);
    text.push(b"positions");
    push_counts(&mut text, counts);
    Ok(Name::of_text(text.finish()?))
}

/// The text `refused NAME`.
fn refused_as(alloc: Global, name: &[u8]) -> Result<Text, NoMemory>
    ensures { IfOk result (λ text. text ≡ codes "refused " ++ name.now) }
{
    let mut text = TextWriter::new(alloc);
    text.push(b"refused ");
    text.push(name);
    text.finish()
}

/// The text where a line of the changed ini text means nothing.
fn bad_line(alloc: Global, line: usize) -> Result<Text, NoMemory>
    ensures { IfOk result (λ text. text ≡ codes "refused IniSyntax line " ++ decimal line) }
{
    let mut text = TextWriter::new(alloc);
    text.push(b"refused IniSyntax line ");
    text.push_number(line as u64);
    text.finish()
}

/// The text where a line of a given NED text can't go on.
fn bad_ned_line(alloc: Global, line: usize) -> Result<Text, NoMemory>
    ensures { IfOk result (λ text. text ≡ codes "refused NedSyntax line " ++ decimal line) }
{
    let mut text = TextWriter::new(alloc);
    text.push(b"refused NedSyntax line ");
    text.push_number(line as u64);
    text.finish()
}

/// The text for an edit that is refused. Lack of memory is handed on.
pub fn edit_refusal_text(alloc: Global, refusal: Refusal) -> Result<Text, NoMemory>
    ensures { IfOk result (λ text. Some text ≡ edit_refusal_text refusal) }
{
    match refusal {
        Refusal::TooLarge => refused_as(alloc, b"TooLarge"),
        Refusal::NoSuchLine => refused_as(alloc, b"NoSuchLine"),
        Refusal::NoSuchInjection => refused_as(alloc, b"NoSuchInjection"),
        Refusal::NoSuchFile => refused_as(alloc, b"NoSuchFile"),
        Refusal::NoSuchType => refused_as(alloc, b"NoSuchType"),
        Refusal::NoSuchConnection => refused_as(alloc, b"NoSuchConnection"),
        Refusal::NedSyntax(line) => bad_ned_line(alloc, line),
        Refusal::Types(fault) => refused_as(alloc, fault.name()),
        Refusal::IniSyntax(line, _) => bad_line(alloc, line),
        Refusal::Config(fault) => refused_as(alloc, fault.name()),
        Refusal::NoMemory(error) => Err(error),
    }
}

/// The answer of an edit that is refused. Lack of memory is handed on.
pub fn refused(alloc: Global, refusal: Refusal) -> Result<Answer, NoMemory>
    ensures text { IfOk result (λ answer. Some answer.text ≡ edit_refusal_text refusal) }
    ensures told { IfOk result (λ answer. IsTold answer.told answer.text) }
{
    let text = edit_refusal_text(alloc, refusal)?;
    Ok(Answer {
        text: Name::of_text(text),
        told: AnswerContent::Refused(refusal),
    })
}
