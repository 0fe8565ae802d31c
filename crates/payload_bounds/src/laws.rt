//! Payloads are short, and injections few. The functions do nothing: their contracts are the laws.

ghost use Rattle.std.specs.Prelude.{◌≡◌, ℕ, List, []};
ghost use Rattle.event_set.specs.declared.pending.Pending.{Pending};
ghost use Rattle.model_data.specs.declared.model.Model.{Model};
ghost use Rattle.model_edits.specs.Edited.{IsEditOf};
ghost use Rattle.model_edits.specs.declared.edit.Edit.{Edit};
ghost use Rattle.module_api.specs.Behaviour.{Behaviour};
ghost use Rattle.model_questions.specs.Answers.{Answers};
ghost use Rattle.run_semantics.specs.Event.{message_of};
ghost use Rattle.run_semantics.specs.Run.{after, world_at};
ghost use Rattle.run_semantics.specs.Upcoming.{Comes, upcoming};
ghost use Rattle.run_semantics.specs.World.{World};
ghost use Rattle.payload_bounds.specs.Bounds.{AreBounded, AreShort, BringShort, IsShort};

/// Each edit leaves at most 10,000 injections, and each with a payload of at most 4,096 bytes,
/// where the model had no more and no longer ones. A model that was just read has none.
pub fn edits_keep_bounds()
    ensures none { AreBounded [] }
    ensures kept { (m new : Model) (e : Edit) → IsEditOf m e new → AreBounded m.injections
        → AreBounded new.injections }
{}

/// Where each injection of a model has a payload of at most 4,096 bytes, so has each message that a
/// module handles: at each moment of a run that of each event to come, and that of the event that
/// comes next.
pub fn messages_are_short()
    ensures pending { (b : Behaviour) (m : Answers) (n : ℕ) → AreShort m.injections
        → BringShort (world_at (after b m n)).pending }
    ensures next { (b : Behaviour) (m : Answers) (n : ℕ) (u : World) (p : Pending)
        (rest : List Pending)
        → AreShort m.injections → upcoming m (world_at (after b m n)) ≡ Comes u p rest
        → IsShort (message_of p).payload }
{}
