//! Who answers what a run asks of its model.
#![tactic(auto)]

ghost use Rattle.std.specs.Prelude.{◌≡◌, IfOk};
ghost use Rattle.model_questions.specs.Answers as run;
ghost use Rattle.run_answers.specs.Unanswered.{unanswered};

use model_injections::injection::Injection;
use model_questions::answer::{Answer, Question};
use model_questions::record::Record;
use module_api::call::{Gate, Parameter};
use sim_values::NoMemory;
use sqlite_items::Items;
use std::alloc::Global;
use std::marker::Brand;

/// A model that is asked, as a type. It has no code: contracts know its answers by it.
pub trait ModelMarker {
    /// What the model answers.
    ghost answers: { run.Answers };
}

// A call that makes an answerer picks the model; nothing is answered where it picks none.
impl ModelMarker for Brand {
    ghost answers = { unanswered };
}

/// Who answers for a model what a run asks of it. Its type says which answers these are, so they
/// are the same as long as a run has it, whatever it keeps of them from one question to the next.
pub trait Answers {
    /// What it answers.
    ghost answers: { run.Answers };

    /// The answer to a question, with the modules of these records.
    fn answer(
        &mut self,
        alloc: Global,
        records: &[Record],
        question: &Question,
    ) -> Result<Answer, NoMemory>
        ensures { IfOk result (λ found. found ≡ run.answer_of answers records.now question.now) };

    /// All parameters of the module of that id and their values, in the order of their declaration.
    fn parameters_of(
        &mut self,
        alloc: Global,
        records: &[Record],
        id: u32,
    ) -> Result<Items<Parameter>, NoMemory>
        ensures { IfOk result
            (λ parameters. parameters ≡ run.parameters_of answers records.now id) };

    /// All gates of the module of that id, in the order of their declaration.
    fn gates_of(
        &mut self,
        alloc: Global,
        records: &[Record],
        id: u32,
    ) -> Result<Items<Gate>, NoMemory>
        ensures { IfOk result (λ gates. gates ≡ run.gates_of answers records.now id) };

    /// The time after which no event is executed, in picoseconds.
    fn time_limit(&self) -> Option<u64>
        ensures { result ≡ answers.time_limit };

    /// The messages from outside, by rising number.
    fn injections(&self) -> &[Injection]
        ensures { result.now ≡ answers.injections };
}
