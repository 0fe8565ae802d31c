//! Laws of runs. The functions do nothing: their contracts are the laws.

ghost use Rattle.std.specs.Prelude.{◌≡◌, ◌↔◌, ℕ, suc, ◌+◌, ◌≤◌, ◌<◌, true, List, [], length};
ghost use Rattle.module_api.specs.Behaviour.{Behaviour};
ghost use Rattle.module_api.specs.Laws.{IsLawful};
ghost use Rattle.model_questions.specs.Answers.{Answers, answer_of};
ghost use Rattle.run_semantics.specs.declared.outcome.Outcome.{Outcome};
ghost use Rattle.model_questions.specs.declared.answer.AskedQuestion.{AskedQuestion};
ghost use Rattle.model_questions.specs.declared.record.Record.{Record};
ghost use Rattle.run_semantics.specs.Agreement.{Agrees, AgreesUpTo, questions_of};
ghost use Rattle.run_semantics.specs.Ending.{ending};
ghost use Rattle.run_semantics.specs.Example.{ExampleNests};
ghost use Rattle.run_semantics.specs.Creates.{ExampleCreated, ExampleCreates};
ghost use Rattle.run_semantics.specs.Deletes.{ExampleDeleted, ExampleDeletes};
ghost use Rattle.run_semantics.specs.Wires.{ExampleJoins, ExampleWires};
ghost use Rattle.run_semantics.specs.Sends.{ExampleSends};
ghost use Rattle.run_semantics.specs.Laws.{Each, AreInOrder, AreInTurn, HaveOwnNumbers, HasGrown};
ghost use Rattle.run_semantics.specs.Laws.{GoesOn, HasEnded, AreFrom, AreStates};
ghost use Rattle.run_semantics.specs.Laws.{IsBounded, gone_on, noted_all, parts_standing};
ghost use Rattle.run_semantics.specs.Upcoming.{Nothing, upcoming};
ghost use Rattle.run_semantics.specs.World.{World, is_live, live_of};
ghost use Rattle.run_semantics.specs.Run.{Ran, Running, Over, IsReached, next_stage, after};
ghost use Rattle.run_semantics.specs.Run.{stopped, run_to, world_at, standing};

/// After n events at most n are counted.
pub fn at_most_n_are_counted()
    ensures { (b : Behaviour) (m : Answers) (n : ℕ) → (world_at (after b m n)).count ≤ n }
{}

/// A run that is over after so many events is the same to each limit that is no less.
pub fn over_is_over()
    ensures { (b : Behaviour) (m : Answers) (w : World) (outcome : Outcome) (k limit : ℕ)
        → k ≤ limit
        → Over w outcome ≡ after b m k
        → run_to b m limit ≡ record { world = w; outcome = outcome } }
{}

/// Two models that answer alike all that the run of the first one asked up to an event have the
/// same run up to there: the same world, its questions included, and the same outcome where it is
/// over. Where the run got as far as that event, all that it asked is noted in its world.
pub fn equal_answers_equal_runs()
    ensures all { (b : Behaviour) → IsLawful b → (m n : Answers) (v : ℕ)
        → Agrees m n (world_at (after b m v)).records (questions_of m (after b m v))
        → after b m v ≡ after b n v }
    ensures reached { (b : Behaviour) → IsLawful b → (m n : Answers) (v : ℕ)
        → IsReached (after b m v) v
        → Agrees m n (world_at (after b m v)).records (world_at (after b m v)).questions
        → after b m v ≡ after b n v }
{}

/// Of a run of k events, the questions of the first v events alone decide the run up to there: two
/// models that answer those alike have it in common. Where the run got as far as event v, those
/// that are noted are enough.
pub fn equal_runs_up_to_an_event()
    ensures all { (b : Behaviour) → IsLawful b → (m n : Answers) (v k : ℕ) → v ≤ k
        → AgreesUpTo v m n (world_at (after b m k)).records (questions_of m (after b m k))
        → after b m v ≡ after b n v }
    ensures reached { (b : Behaviour) → IsLawful b → (m n : Answers) (v k : ℕ) → v ≤ k
        → IsReached (after b m v) v
        → AgreesUpTo v m n (world_at (after b m k)).records (world_at (after b m k)).questions
        → after b m v ≡ after b n v }
{}

/// The answers to what was asked stay the same, in each model, when more modules are created: so it
/// doesn't matter of which later moment the records are by which models are compared.
pub fn answers_stay()
    ensures { (b : Behaviour) (m other : Answers) (n k : ℕ) → n ≤ k
        → Each (λ a. answer_of other (world_at (after b m k)).records a.question
        ≡ answer_of other (world_at (after b m n)).records a.question)
        (questions_of m (after b m n)) }
{}

/// What is to come rests on where the run stands alone: n + k events are k more from the stage
/// after n.
pub fn runs_go_on()
    ensures { (b : Behaviour) (m : Answers) (n k : ℕ)
        → after b m (n + k) ≡ gone_on b m k (after b m n) }
{}

/// So a world that is kept after event v serves each model that answers alike what was asked up to
/// v: the run of that model is the one that goes on from there.
pub fn kept_worlds_serve()
    ensures all { (b : Behaviour) → IsLawful b → (m n : Answers) (v k : ℕ) → v ≤ k
        → AgreesUpTo v m n (world_at (after b m k)).records (questions_of m (after b m k))
        → (more : ℕ) → after b n (v + more) ≡ gone_on b n more (after b m v) }
    ensures reached { (b : Behaviour) → IsLawful b → (m n : Answers) (v k : ℕ) → v ≤ k
        → IsReached (after b m v) v
        → AgreesUpTo v m n (world_at (after b m k)).records (world_at (after b m k)).questions
        → (more : ℕ) → after b n (v + more) ≡ gone_on b n more (after b m v) }
{}

/// To a limit of one event more, a run that goes on has its next event besides, and one that is
/// over is the same.
pub fn one_event_more()
    ensures running { (b : Behaviour) (m : Answers) (n : ℕ) (w : World) → after b m n ≡ Running w
        → run_to b m (suc n) ≡ stopped (next_stage b m (Running w)) }
    ensures over { (b : Behaviour) (m : Answers) (n : ℕ) (w : World) (outcome : Outcome)
        → after b m n ≡ Over w outcome
        → run_to b m (suc n) ≡ run_to b m n }
{}

/// Nothing that happened is undone: with more events the clock, the count of events and the next
/// insertion number do not fall, and records, the dead, those that were started and that were
/// finished, changes of gates, emissions, scalars and questions stay, each in its place. So a module
/// that is gone stays gone.
pub fn runs_grow()
    ensures { (b : Behaviour) (m : Answers) (n k : ℕ) → n ≤ k
        → HasGrown (world_at (after b m n)) (world_at (after b m k)) }
{}

/// A module that died lives never again: one that was created by then and lives later lived then.
pub fn nobody_lives_again()
    ensures { (b : Behaviour) (m : Answers) (n k id : ℕ) → n ≤ k
        → id ≤ length (world_at (after b m n)).records
        → is_live (world_at (after b m k)) id ≡ true
        → is_live (world_at (after b m n)) id ≡ true }
{}

/// A run that goes on after n events got as far as event n.
pub fn running_is_reached()
    ensures { (b : Behaviour) (m : Answers) (n : ℕ) (w : World) → after b m n ≡ Running w
        → IsReached (after b m n) n }
{}

/// The events to come are in order, at each moment of a run: the first of the list is the next one.
pub fn events_are_in_order()
    ensures { (b : Behaviour) (m : Answers) (n : ℕ) → AreInOrder (world_at (after b m n)).pending }
{}

/// No two events to come have the same insertion number, and the next one is above them all.
pub fn no_two_events_share_a_number()
    ensures own { (b : Behaviour) (m : Answers) (n : ℕ)
        → HaveOwnNumbers (world_at (after b m n)).pending }
    ensures below { (b : Behaviour) (m : Answers) (n : ℕ)
        → Each (λ e. e.number < (world_at (after b m n)).next) (world_at (after b m n)).pending }
{}

/// No event to come is earlier than the clock.
pub fn no_event_is_late()
    ensures { (b : Behaviour) (m : Answers) (n : ℕ)
        → Each (λ e. (world_at (after b m n)).clock ≤ e.time) (world_at (after b m n)).pending }
{}

/// What was emitted stands in the order of events: along it neither event numbers nor times fall,
/// and none is above the count or the clock.
pub fn emissions_are_in_turn()
    ensures turn { (b : Behaviour) (m : Answers) (n : ℕ)
        → AreInTurn (world_at (after b m n)).emissions }
    ensures past { (b : Behaviour) (m : Answers) (n : ℕ)
        → Each (λ e. (e.event ≤ (world_at (after b m n)).count)
        × (e.time ≤ (world_at (after b m n)).clock))
        (world_at (after b m n)).emissions }
{}

/// Each event to come is for a module that lives: what was to come for one that is deleted falls with
/// it, so no event is stale.
pub fn events_are_for_modules_that_live()
    ensures { (b : Behaviour) (m : Answers) (n : ℕ)
        → Each (λ e. is_live (world_at (after b m n)) e.id ≡ true)
        (world_at (after b m n)).pending }
{}

/// What stands lives, at each moment: a deleted module has no state.
pub fn what_stands_lives()
    ensures { (b : Behaviour) (m : Answers) (n : ℕ)
        → Each (λ i. is_live (world_at (after b m n)) i.id ≡ true)
        (world_at (after b m n)).modules }
{}

/// Exactly the simple modules stand that were started and live, by rising id, each of its kind, at
/// each moment.
pub fn started_modules_stand()
    ensures { (b : Behaviour) (m : Answers) (n : ℕ)
        → standing (world_at (after b m n)).modules ≡ parts_standing (world_at (after b m n)) }
{}

/// In a run of a lawful catalogue the state of each module is one of its kind, at each moment.
pub fn states_are_of_their_kinds()
    ensures { (b : Behaviour) → IsLawful b → (m : Answers) (n : ℕ)
        → AreStates b (world_at (after b m n)).modules }
{}

/// On which of its first events two models agree is the same by what a run asked up to there and by
/// what a longer one asked.
pub fn longer_runs_agree_alike()
    ensures { (b : Behaviour) (m p q : Answers) (u v k : ℕ) → u ≤ v → v ≤ k
        → AgreesUpTo u p q (world_at (after b m k)).records (world_at (after b m k)).questions
        ↔ AgreesUpTo u p q (world_at (after b m v)).records (world_at (after b m v)).questions }
{}

/// A run stands where it stood after the last event that it executed, whatever its limit was; and
/// one that got as far as an event got as far as each one before.
pub fn runs_stand_at_their_last_event()
    ensures stands { (b : Behaviour) (m : Answers) (n : ℕ)
        → world_at (after b m (world_at (after b m n)).count) ≡ world_at (after b m n) }
    ensures reached { (b : Behaviour) (m : Answers) (v k : ℕ) → v ≤ k → IsReached (after b m k) k
        → IsReached (after b m v) v }
{}

/// The end of a run asks nothing that is noted, creates no module, and counts no event.
pub fn the_end_asks_nothing()
    ensures questions { (b : Behaviour) (m : Answers) (ran : Ran)
        → (ending b m ran).world.questions ≡ ran.world.questions }
    ensures records { (b : Behaviour) (m : Answers) (ran : Ran)
        → (ending b m ran).world.records ≡ ran.world.records }
    ensures count { (b : Behaviour) (m : Answers) (ran : Ran)
        → (ending b m ran).world.count ≡ ran.world.count }
{}

/// The end of a run undoes nothing: the same modules live and count as started, and what is
/// finished, emitted and recorded is added after what was there.
pub fn the_end_only_adds()
    ensures live { (b : Behaviour) (m : Answers) (ran : Ran)
        → live_of (ending b m ran).world ≡ live_of ran.world }
    ensures started { (b : Behaviour) (m : Answers) (ran : Ran)
        → (ending b m ran).world.started ≡ ran.world.started }
    ensures finished { (b : Behaviour) (m : Answers) (ran : Ran)
        → GoesOn ran.world.finished (ending b m ran).world.finished }
    ensures emissions { (b : Behaviour) (m : Answers) (ran : Ran)
        → GoesOn ran.world.emissions (ending b m ran).world.emissions }
    ensures scalars { (b : Behaviour) (m : Answers) (ran : Ran)
        → GoesOn ran.world.scalars (ending b m ran).world.scalars }
{}

/// At each moment of a run at most 65,536 modules live, and at most 1,000,000 were created.
pub fn modules_are_bounded()
    ensures { (b : Behaviour) (m : Answers) (n : ℕ) → IsBounded (world_at (after b m n)) }
{}

/// Nothing comes next only where no event is left and each injection of the model is delivered: one
/// at whose path no module stands is discarded, and the next one is looked at.
pub fn nothing_comes_where_nothing_is_left()
    ensures { (m : Answers) (w end : World) → upcoming m w ≡ Nothing end
        → HasEnded m w.pending end }
{}

/// To note a question once is enough: two models agree on what is noted, up to each event, just
/// where they agree on the plain list of all that was asked, event by event.
#[tactic(auto, using(crate::proofs::Once::once_agrees))]
pub fn noting_once_is_enough()
    ensures { (m n : Answers) (records : List Record) (v : ℕ) (plain : List AskedQuestion)
        → AreFrom 0 plain
        → AgreesUpTo v m n records (noted_all plain []) ↔ AgreesUpTo v m n records plain }
{}

/// A network with compound modules, worked by hand: its setup, and the orders of its calls and of
/// its end.
pub fn nested_example()
    ensures { ExampleNests }
{}

/// Messages that are sent in a network of two modules, one of them inside of a compound module,
/// worked by hand: over channels, at a busy one, to nobody, and directly.
pub fn sending_example()
    ensures { (b : Behaviour) → ExampleSends b }
{}

/// Gates that are joined and freed while a run goes on, and a run that a module ends, worked by hand.
pub fn wires_example()
    ensures runs { ExampleWires }
    ensures actions { ExampleJoins }
{}

/// Modules that are created while a run goes on, worked by hand.
pub fn creates_example()
    ensures runs { ExampleCreates }
    ensures actions { ExampleCreated }
{}

/// Modules that are deleted while a run goes on, worked by hand.
pub fn deletes_example()
    ensures runs { ExampleDeletes }
    ensures actions { ExampleDeleted }
{}
