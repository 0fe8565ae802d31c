//! What two models have in common.

ghost use Rattle.std.specs.Prelude.{◌≡◌, true};
ghost use Rattle.model_answers.specs.Answering.{answers_of};
ghost use Rattle.run_question_log.specs.Entries.{asked_in};
ghost use Rattle.model_agreement.specs.Common.{is_about, are_about, IsCommon};
ghost use Rattle.model_agreement.specs.Models.{RestOnSame};

use crate::same::same_injections;
use model_answers::plain::PlainAnswers;
use model_questions::answer::Question;
use run_question_log::entry::LogEntry;

/// What two models have in common. A run asks about it for each event, and such a question needs no
/// look at the models.
#[derive(Clone, Copy)]
pub struct Common {
    /// Whether both give the same answers about modules.
    pub modules: bool,
    /// Whether both have the same time limit.
    pub limit: bool,
    /// Whether both have the same messages from outside.
    pub injections: bool,
}

impl Common {
    /// Whether a question is about that alone.
    pub fn is_about(self, question: &Question) -> bool
        ensures { result ≡ is_about self question.now }
    {
        match question {
            Question::BeyondLimit(_) => self.limit,
            Question::InjectionBefore(_, _) => self.injections,
            _ => self.modules,
        }
    }

    /// Whether all questions that are noted so are about that alone.
    pub fn is_about_all(self, entry: &LogEntry) -> bool
        ensures { result ≡ are_about self (asked_in entry.now) }
    {
        match entry {
            LogEntry::BeyondLimit { .. } => self.limit,
            LogEntry::FirstInjection { .. } => self.injections,
            LogEntry::Both { .. } => self.injections && self.limit,
            LogEntry::Other { question, .. } => self.is_about(question.get()),
        }
    }
}

/// Whether two time limits, in picoseconds, are the same.
fn same_limit(one: Option<u64>, other: Option<u64>) -> bool
    ensures { result ≡ true → one ≡ other }
{
    match (one, other) {
        (None, None) => true,
        (Some(a), Some(b)) => a == b,
        _ => false,
    }
}

#[tactic(auto, unfolding(model_answers::specs::Answering::answers_of))]
/// What two models have in common besides what they answer about modules.
fn common_times(one: &PlainAnswers<'_>, other: &PlainAnswers<'_>) -> Common
    ensures { IsCommon (answers_of one.now) (answers_of other.now) result }
{
    Common {
        modules: false,
        limit: same_limit(one.time_limit(), other.time_limit()),
        injections: same_injections(one.injections(), other.injections()),
    }
}

/// What two models have in common, of which it may be known that their values rest on the same.
pub fn common_of(one: &PlainAnswers<'_>, other: &PlainAnswers<'_>, same: bool) -> Common
    requires { same ≡ true → RestOnSame one.now other.now }
    ensures { IsCommon (answers_of one.now) (answers_of other.now) result }
{
    let times = common_times(one, other);
    Common {
        modules: same,
        limit: times.limit,
        injections: times.injections,
    }
}
