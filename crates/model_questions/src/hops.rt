//! Where hops lead.

ghost use Rattle.std.specs.Prelude.{◌≡◌, ℕ, List, Some, ◌++◌};
ghost use Rattle.model_questions.specs.declared.answer.Neighbour.{Neighbour};
ghost use Rattle.model_questions.specs.declared.record.Record.{Record};
ghost use Rattle.model_questions.specs.Hops.{neighbour_id};

/// A hop that leads to a module leads there too when more modules were created, whatever their
/// names are. It does nothing: its contract is the law.
#[tactic(auto, using(crate::proofs::HopLemmas::neighbour_more))]
pub fn neighbours_stay()
    ensures { (records more : List Record) (id found : ℕ) (n : Neighbour)
        → neighbour_id records id n ≡ Some found
        → neighbour_id (records ++ more) id n ≡ Some found }
{}
