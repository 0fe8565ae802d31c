//! Laws of positions. The functions do nothing: their contracts are the laws.

ghost use Rattle.std.specs.Prelude.{◌≡◌, ℕ, ◌≤◌};
ghost use Rattle.module_api.specs.Behaviour.{Behaviour};
ghost use Rattle.model_questions.specs.Answers.{Answers};
ghost use Rattle.run_semantics.specs.Ending.{ending};
ghost use Rattle.run_semantics.specs.Run.{after, run_to, world_at};
ghost use Rattle.run_semantics.specs.World.{World};
ghost use Rattle.kernel_actions.specs.declared.position.Position.{Position};
ghost use Rattle.kernel_actions.specs.Positions.{position_of, cut_to, world_back, IsGrownFrom};
ghost use Rattle.kernel_actions.specs.Positions.{AreWithin};

/// A position stays good while a run goes on: going back from any world whose lists have grown
/// since gives the world of which it was taken.
#[tactic(auto, using(crate::proofs::Positions::back_when_grown))]
pub fn positions_stay_good()
    ensures { (before after : World)
        → IsGrownFrom before after → world_back (position_of before) after ≡ before }
{}

/// A world that went back can go back farther, and so can one whose lists alone were cut: it is as
/// if that had not been.
#[tactic(auto, using(crate::proofs::Positions::back_after_back, crate::proofs::Positions::back_after_cut))]
pub fn positions_before_stay_good()
    ensures back { (p q : Position) (w : World) → AreWithin p.lengths q.lengths
        → world_back p (world_back q w) ≡ world_back p w }
    ensures cut { (p q : Position) (w : World) → AreWithin p.lengths q.lengths
        → world_back p (cut_to q.lengths w) ≡ world_back p w }
{}

/// In a run the lists only grow of which a position has the lengths, with more events and at the
/// end too. So a position of a run stays good as long as that run goes on.
pub fn runs_keep_their_positions()
    ensures events { (b : Behaviour) (m : Answers) (n k : ℕ) → n ≤ k
        → IsGrownFrom (world_at (after b m n)) (world_at (after b m k)) }
    ensures ended { (b : Behaviour) (m : Answers) (n k : ℕ) → n ≤ k
        → IsGrownFrom (world_at (after b m n)) (ending b m (run_to b m k)).world }
{}
