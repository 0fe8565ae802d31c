//! Where an evaluation has come to.

/// Where an evaluation has come to.
#[derive(Drop)]
pub enum EngineStep<K, V, F> {
    /// It needs the value of a key.
    Ask(K),
    Done(V),
    Fault(F),
}

/// What a step of a question leads to.
#[derive(Drop)]
pub(crate) enum QuestionStep<K, V, F> {
    /// The key that is being evaluated has come to this.
    Goes(EngineStep<K, V, F>),
    /// The place of the value in the table, or the fault.
    Ended(Result<usize, F>),
}
