//! The value of a key, found by following references. What waits for a value lies on a list in
//! memory, so no native recursion goes as deep as a chain of references.

ghost use Rattle.std.specs.Prelude.{◌≡◌, ◌+◌, ◌<◌, ◌≤◌, ◌^◌, ◌++◌, ◌∷◌, [], None, Some, false};
ghost use Rattle.std.specs.Prelude.{IfOk, OnOk, OnErr, length, zero};
ghost use Rattle.std.specs.List.{list_any};
ghost use Rattle.param_following.specs.Following.{value_of};
ghost use Rattle.param_engine.specs.Tables.{known, key_at, IsFoundAt, IsKept, Begins, found_in};
ghost use Rattle.param_engine.specs.Turns.{came_to, asks};
ghost use Rattle.param_engine.specs.Working.{ruled, GoesOn, IsHeldUp, AreBegunOnce, IsAnswered};
ghost use Rattle.param_engine.specs.Steps.{Steps, Falls, StopsShort, IsBusy};

use crate::asker::Asker;
use crate::frame::Frame;
use crate::table::Table;
use crate::turn::{EngineStep, QuestionStep};
use indexmap::IndexSet;
use sim_values::NoMemory;
use sqlite_items::Items;
use std::alloc::Global;
use std::hash::Hash;
use std::mem::replace;

/// The keys that are being evaluated.
#[derive(Drop)]
struct Going<K: Eq + Hash, E> {
    /// All of them, the one that was asked first first. The last one goes on.
    keys: IndexSet<K>,
    /// How those that wait go on.
    waiting: Items<Frame<E>>,
    current: Frame<E>,
}

/// Begins with a key that isn't being evaluated.
fn begin<A: Asker>(
    alloc: Global,
    asker: &A,
    table: &mut Table<A::Key, A::Value>,
    keys: &mut IndexSet<A::Key>,
    key: A::Key,
) -> Result<(Frame<A::Evaluation>, EngineStep<A::Key, A::Value, A::Fault>), NoMemory>
    requires new { list_any (A.Key.eq key) keys.old.keys ≡ false }
    requires counted { table.old.begun + 1 < 2 ^ 64 }
    ensures keys { OnOk result (keys.new.keys ≡ keys.old.keys ++ key ∷ []) }
    ensures few { OnOk result (length keys.new.keys < 2 ^ 63) }
    ensures asked { IfOk result (λ begun. begun.0.asked ≡ []) }
    ensures asking { IfOk result (λ begun. came_to (A.resumed asker.now begun.0.evaluation) begun.1
        ≡ A.asking asker.now key) }
    ensures entries { table.new.entries ≡ table.old.entries }
    ensures begun { table.new.begun ≡ table.old.begun + 1 }
{
    table.count();
    let (evaluation, turn) = asker.start(alloc, &key)?;
    keys.insert(key)?;
    let _few = keys.len();
    Ok((
        Frame {
            evaluation,
            asked: Items::new(alloc),
        },
        turn,
    ))
}

/// Goes on with the value of the key that it asked for, which stands at that place of the table.
fn resume<A: Asker>(
    alloc: Global,
    asker: &A,
    frame: &mut Frame<A::Evaluation>,
    place: usize,
    value: &A::Value,
) -> Result<EngineStep<A::Key, A::Value, A::Fault>, NoMemory>
    ensures asked { OnOk result (frame.new.asked ≡ frame.old.asked ++ place ∷ []) }
    ensures turn { IfOk result (λ turn. came_to (A.resumed asker.now frame.new.evaluation) turn
        ≡ A.resumed asker.now frame.old.evaluation value.now) }
    ensures less { IfOk result
        (λ turn. asks turn + A.left frame.new.evaluation ≤ A.left frame.old.evaluation) }
{
    frame.asked.push(place)?;
    asker.go_on(alloc, &mut frame.evaluation, value)
}

/// Goes on as long as the values that are asked for are known.
fn proceed<A: Asker>(
    alloc: Global,
    asker: &A,
    table: &Table<A::Key, A::Value>,
    frame: &mut Frame<A::Evaluation>,
    turn: EngineStep<A::Key, A::Value, A::Fault>,
) -> Result<EngineStep<A::Key, A::Value, A::Fault>, NoMemory>
    ensures goes_on { IfOk result
        (λ end. GoesOn table.now.entries (known A.Key.eq table.now.entries)
        frame.old.asked (came_to (A.resumed asker.now frame.old.evaluation) turn)
        frame.new.asked (came_to (A.resumed asker.now frame.new.evaluation) end)) }
    ensures held_up { IfOk result (λ end. IsHeldUp (known A.Key.eq table.now.entries) end) }
{
    let mut turn = turn;
    loop {
        let EngineStep::Ask(key) = &turn else {
            return Ok(turn);
        };
        let Some((place, value)) = table.find(key) else {
            return Ok(turn);
        };
        turn = resume(alloc, asker, frame, place, value)?;
    }
}

/// Lets the key that goes on wait, and begins with the one that it asks for.
fn descend<A: Asker>(
    alloc: Global,
    asker: &A,
    table: &mut Table<A::Key, A::Value>,
    going: &mut Going<A::Key, A::Evaluation>,
    key: A::Key,
) -> Result<EngineStep<A::Key, A::Value, A::Fault>, NoMemory>
    requires new { list_any (A.Key.eq key) going.old.keys.keys ≡ false }
    requires busy { IsBusy A.Key.eq table.old going.old.keys.keys }
    ensures keys { OnOk result (going.new.keys.keys ≡ going.old.keys.keys ++ key ∷ []) }
    ensures few { OnOk result (length going.new.keys.keys < 2 ^ 63) }
    ensures waiting { OnOk result (going.new.waiting
        ≡ going.old.waiting ++ going.old.current ∷ []) }
    ensures asked { OnOk result (going.new.current.asked ≡ []) }
    ensures asking { IfOk result
        (λ turn. came_to (A.resumed asker.now going.new.current.evaluation) turn
        ≡ A.asking asker.now key) }
    ensures entries { table.new.entries ≡ table.old.entries }
    ensures begun { table.new.begun ≡ table.old.begun + 1 }
{
    let _len = table.len();
    let _open = going.keys.len();
    let (above, turn) = begin(alloc, asker, table, &mut going.keys, key)?;
    let below = replace(&mut going.current, above);
    going.waiting.push(below)?;
    Ok(turn)
}

/// Notes the value of the key that goes on, and hands it to the one that waits for it.
fn ascend<A: Asker>(
    alloc: Global,
    asker: &A,
    table: &mut Table<A::Key, A::Value>,
    going: &mut Going<A::Key, A::Evaluation>,
    value: A::Value,
) -> Result<QuestionStep<A::Key, A::Value, A::Fault>, NoMemory>
    requires { IsBusy A.Key.eq table.old going.old.keys.keys }
    ensures steps { IfOk result (λ next.
        Steps (ruled A.Key.eq (A.asking asker.now) (A.circle asker.now)) (A.resumed asker.now)
        table.old going.old (EngineStep.Done value) table.new going.new next) }
    ensures falls { IfOk result (λ next.
        Falls (ruled A.Key.eq (A.asking asker.now) (A.circle asker.now)) (A.resumed asker.now)
        table.old going.old (EngineStep.Done value) table.new going.new next) }
    ensures err { OnErr result
        (StopsShort (ruled A.Key.eq (A.asking asker.now) (A.circle asker.now)) (A.resumed asker.now)
        table.old going.old (EngineStep.Done value) table.new) }
{
    let _len = table.len();
    let key = going.keys.pop().unwrap();
    let Some(below) = going.waiting.pop() else {
        let asked = replace(&mut going.current.asked, Items::new(alloc));
        let place = table.note(key, value, asked)?;
        return Ok(QuestionStep::Ended(Ok(place)));
    };
    let Frame { asked, .. } = replace(&mut going.current, below);
    let place = table.note(key, value, asked)?;
    let value = table.value(place).unwrap();
    let turn = resume(alloc, asker, &mut going.current, place, value)?;
    Ok(QuestionStep::Goes(turn))
}

/// Goes on until a key has to be evaluated first, or has its value.
fn step<A: Asker>(
    alloc: Global,
    asker: &A,
    table: &mut Table<A::Key, A::Value>,
    going: &mut Going<A::Key, A::Evaluation>,
    turn: EngineStep<A::Key, A::Value, A::Fault>,
) -> Result<QuestionStep<A::Key, A::Value, A::Fault>, NoMemory>
    requires { IsBusy A.Key.eq table.old going.old.keys.keys }
    ensures steps { IfOk result (λ next.
        Steps (ruled A.Key.eq (A.asking asker.now) (A.circle asker.now)) (A.resumed asker.now)
        table.old going.old turn table.new going.new next) }
    ensures falls { IfOk result (λ next.
        Falls (ruled A.Key.eq (A.asking asker.now) (A.circle asker.now)) (A.resumed asker.now)
        table.old going.old turn table.new going.new next) }
    ensures err { OnErr result
        (StopsShort (ruled A.Key.eq (A.asking asker.now) (A.circle asker.now)) (A.resumed asker.now)
        table.old going.old turn table.new) }
{
    let _len = table.len();
    let _few = going.keys.len();
    match proceed(alloc, asker, table, &mut going.current, turn)? {
        EngineStep::Fault(fault) => Ok(QuestionStep::Ended(Err(fault))),
        EngineStep::Ask(key) => {
            if going.keys.contains(&key) {
                return Ok(QuestionStep::Ended(Err(asker.circle())));
            }
            Ok(QuestionStep::Goes(descend(alloc, asker, table, going, key)?))
        }
        EngineStep::Done(value) => ascend(alloc, asker, table, going, value),
    }
}

/// Finds the value of a key of which none is known.
fn find<A: Asker>(
    alloc: Global,
    asker: &A,
    table: &mut Table<A::Key, A::Value>,
    key: A::Key,
) -> Result<Result<usize, A::Fault>, NoMemory>
    requires kept { IsKept (ruled A.Key.eq (A.asking asker.now) (A.circle asker.now))
        table.old.entries }
    requires new { known A.Key.eq table.old.entries key ≡ None }
    requires counted { table.old.begun ≡ 0 }
    ensures answered { IfOk result
        (λ found. IsAnswered (ruled A.Key.eq (A.asking asker.now) (A.circle asker.now))
        table.old.entries key table.new.entries table.new.begun found) }
    ensures kept { OnErr result
        (IsKept (ruled A.Key.eq (A.asking asker.now) (A.circle asker.now)) table.new.entries) }
    ensures begins { OnErr result (Begins table.old.entries table.new.entries) }
{
    let mut keys = IndexSet::new(alloc);
    let (current, turn) = begin(alloc, asker, table, &mut keys, key)?;
    let mut going = Going {
        keys,
        waiting: Items::new(alloc),
        current,
    };
    let mut turn = turn;
    loop {
        match step(alloc, asker, table, &mut going, turn)? {
            QuestionStep::Goes(next) => turn = next,
            QuestionStep::Ended(found) => return Ok(found),
        }
    }
}

/// A table of which nothing is known. It may be kept, whatever the asker.
pub fn empty_table<A: Asker>(alloc: Global, _asker: &A) -> Table<A::Key, A::Value>
    ensures entries { result.entries ≡ [] }
    ensures begun { result.begun ≡ 0 }
    ensures kept { IsKept (ruled A.Key.eq (A.asking _asker.now) (A.circle _asker.now))
        result.entries }
{
    Table::new(alloc)
}

/// The value of a key, as its place in the table, or its fault. The table, of which nothing is
/// asked but that it knows values of this asker, has what it had, and after that the values that
/// were found on the way; also after a fault, and after lack of memory.
pub fn value_of<A: Asker>(
    alloc: Global,
    asker: &A,
    table: &mut Table<A::Key, A::Value>,
    key: A::Key,
) -> Result<Result<usize, A::Fault>, NoMemory>
    requires { IsKept (ruled A.Key.eq (A.asking asker.now) (A.circle asker.now)) table.old.entries }
    ensures value { IfOk result (λ found. found_in table.new.entries found
        ≡ Some (value_of (ruled A.Key.eq (A.asking asker.now) (A.circle asker.now)) key)) }
    // The place is that of the key, and its value there is the one that is known of it.
    ensures there { IfOk result
        (λ found. IfOk found (IsFoundAt A.Key.eq table.new.entries key)) }
    ensures kept { IsKept (ruled A.Key.eq (A.asking asker.now) (A.circle asker.now))
        table.new.entries }
    ensures begins { Begins table.old.entries table.new.entries }
    // Each key was evaluated once at most: where there is a value, those that were added.
    ensures once { OnOk result
        (AreBegunOnce (ruled A.Key.eq (A.asking asker.now) (A.circle asker.now))
        table.old.entries table.new.entries table.new.begun) }
    ensures counted { IfOk result (λ found. OnOk found (table.new.begun + length table.old.entries
        ≡ length table.new.entries)) }
{
    table.count_anew();
    let _len = table.len();
    if let Some((place, _)) = table.find(&key) {
        return Ok(Ok(place));
    }
    find(alloc, asker, table, key)
}
