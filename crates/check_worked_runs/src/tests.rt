ghost use Rattle.std.specs.Prelude.{IfOk};
ghost use Rattle.desk_answers.specs.Turns.{IsSettled};

use checkpoint_runs::observer::Unobserved;
use desk_answers::desk::{Desk, DeskTurn};
use edit_session::session::{FileFault, Session};
use model_reading::begin::BeginFault;
use module_api::catalogue::Catalogue;
use module_api::simple_module::SimpleModule;
use module_stock::stock::Stock;
use ned_trees::texts::NedTexts;
use result_lines::buffer::Buffer;
use result_lines::writer::{Out, WriteFault};
use sim_values::NoMemory;
use std::alloc::{AllocError, Global};
use std::test::Fail;

/// A device with room for so many bytes.
#[derive(Drop)]
struct Shelf {
    taken: Vec<u8>,
    room: usize,
    failures: u64,
}

impl Out for Shelf {
    ghost taken = { λ shelf. record { bytes = shelf.taken.items; failures = shelf.failures } };

    fn write(&mut self, bytes: &[u8]) -> Result<usize, WriteFault> {
        let count = bytes.len().min(self.room);
        if count == 0 || self.taken.extend_from_slice(&bytes[..count]).is_err() {
            self.failures = self.failures.wrapping_add(1);
            return Err(AllocError.into());
        }
        self.room -= count;
        Ok(count)
    }
}

/// What a desk says of its files, and what a device took of each.
#[derive(Drop)]
struct Answers {
    /// Before its first run.
    before: [Result<(), FileFault>; 2],
    is_done: bool,
    /// Of the scalar file, after a run.
    scalars: (Result<(), FileFault>, Vec<u8>),
    /// Of the vector file, after a run.
    vectors: (Result<(), FileFault>, Vec<u8>),
}

/// A network without modules.
fn empty_network(alloc: Global) -> Result<NedTexts, NoMemory> {
    let mut texts = NedTexts::new(alloc);
    texts.push(b"network N {}".as_slice())?;
    Ok(texts)
}

/// A desk at the network of these texts.
fn desk_of<C: Catalogue>(alloc: Global, texts: &NedTexts) -> Result<Desk<C>, BeginFault>
    ensures { IfOk result
        (λ desk. IsSettled C.behaviour (λ b. ⟦<dyn SimpleModule as SimpleModule>⟧ b.vtable) desk) }
{
    let ini = b"[General]\nnetwork = N\n".as_slice();
    let session = Session::begin(alloc, texts, ini, b"General".as_slice(), 1000)?;
    Ok(Desk::of_session(alloc, session))
}

/// A device with room for so many bytes.
fn shelf_of(alloc: Global, room: usize) -> Shelf {
    Shelf {
        taken: Vec::new(alloc),
        room,
        failures: 0,
    }
}

/// Writes the scalar file to a device with room for so many bytes. Answers what the desk says, and
/// what the device took.
fn scalars_of<C: Catalogue>(
    alloc: Global,
    desk: &Desk<C>,
    room: usize,
) -> (Result<(), FileFault>, Vec<u8>)
    requires { IsSettled C.behaviour (λ b. ⟦<dyn SimpleModule as SimpleModule>⟧ b.vtable) desk.now }
{
    let mut shelf = shelf_of(alloc, room);
    let answer = desk.scalars(&mut shelf);
    (answer, shelf.taken)
}

/// The same of the vector file.
fn vectors_of<C: Catalogue>(
    alloc: Global,
    desk: &Desk<C>,
    room: usize,
) -> (Result<(), FileFault>, Vec<u8>)
    requires { IsSettled C.behaviour (λ b. ⟦<dyn SimpleModule as SimpleModule>⟧ b.vtable) desk.now }
{
    let mut shelf = shelf_of(alloc, room);
    let answer = desk.vectors(&mut shelf);
    (answer, shelf.taken)
}

/// Whether a run of the desk's model is done.
fn is_done<C: Catalogue>(desk: &mut Desk<C>) -> bool
    requires { IsSettled C.behaviour (λ b. ⟦<dyn SimpleModule as SimpleModule>⟧ b.vtable) desk.old }
    ensures { IsSettled C.behaviour (λ b. ⟦<dyn SimpleModule as SimpleModule>⟧ b.vtable) desk.new }
{
    matches!(desk.run(100, &mut Unobserved), Ok(DeskTurn::Text(_)))
}

/// What a desk at the network of these texts answers to devices.
fn answers_of<C: Catalogue>(alloc: Global, texts: &NedTexts) -> Result<Answers, BeginFault> {
    let mut desk = desk_of::<C>(alloc, texts)?;
    let before = [
        desk.scalars(&mut Buffer::new(alloc)),
        desk.vectors(&mut Buffer::new(alloc)),
    ];
    let is_done = is_done(&mut desk);
    let scalars = scalars_of(alloc, &desk, 11);
    let vectors = vectors_of(alloc, &desk, 10);
    // The process ends with the test, and to drop a desk would be the dearest part of the proof.
    std::mem::forget(desk);
    Ok(Answers {
        before,
        is_done,
        scalars,
        vectors,
    })
}

/// What a desk of the stock modules answers to devices.
fn answers_of_stock(alloc: Global) -> Result<Answers, Fail> {
    let texts = empty_network(alloc)?;
    Ok(answers_of::<Stock>(alloc, &texts)?)
}

/// Adds the answer to a line, and its end.
fn tell<C: Catalogue>(desk: &mut Desk<C>, line: &[u8], told: &mut Vec<u8>) -> Result<(), NoMemory>
    requires { IsSettled C.behaviour (λ b. ⟦<dyn SimpleModule as SimpleModule>⟧ b.vtable) desk.old }
    ensures { IsSettled C.behaviour (λ b. ⟦<dyn SimpleModule as SimpleModule>⟧ b.vtable) desk.new }
{
    if let DeskTurn::Text(answer) = desk.line(line, &mut Unobserved)? {
        told.extend_from_slice(answer.text.as_bytes())?;
        told.push(b'\n')?;
    }
    Ok(())
}

/// What the desk answers to an edit that is refused, to one that is made, and to what is no
/// command; and whether a run is done after the first and after the second.
fn tell_edits<C: Catalogue>(
    desk: &mut Desk<C>,
    told: &mut Vec<u8>,
) -> Result<(bool, bool), NoMemory>
    requires { IsSettled C.behaviour (λ b. ⟦<dyn SimpleModule as SimpleModule>⟧ b.vtable) desk.old }
    ensures { IsSettled C.behaviour (λ b. ⟦<dyn SimpleModule as SimpleModule>⟧ b.vtable) desk.new }
{
    tell(desk, b"run 5".as_slice(), told)?;
    tell(desk, b"ini remove 9".as_slice(), told)?;
    let behind_refusal = desk.outcome().is_some();
    tell(desk, b"ini insert 3 # nothing".as_slice(), told)?;
    let behind_edit = desk.outcome().is_some();
    tell(desk, b"jump".as_slice(), told)?;
    Ok((behind_refusal, behind_edit))
}

/// Whether a run to that limit is done anew, where it was the last one.
fn runs_again<C: Catalogue>(desk: &mut Desk<C>) -> bool
    requires { IsSettled C.behaviour (λ b. ⟦<dyn SimpleModule as SimpleModule>⟧ b.vtable) desk.old }
    ensures { IsSettled C.behaviour (λ b. ⟦<dyn SimpleModule as SimpleModule>⟧ b.vtable) desk.new }
{
    matches!(desk.run(5, &mut Unobserved), Ok(DeskTurn::Text(_)))
        && desk.config() == b"General".as_slice()
}

/// What a desk says to lines.
#[derive(Drop)]
struct Lines {
    told: Vec<u8>,
    done: Option<(bool, bool)>,
    runs_again: bool,
}

/// What a desk at the network of these texts says to lines.
fn lines_of<C: Catalogue>(alloc: Global, texts: &NedTexts) -> Result<Lines, BeginFault> {
    let mut desk = desk_of::<C>(alloc, texts)?;
    let mut told = Vec::new(alloc);
    let done = tell_edits(&mut desk, &mut told).ok();
    let runs_again = runs_again(&mut desk);
    std::mem::forget(desk);
    Ok(Lines {
        told,
        done,
        runs_again,
    })
}

/// What a desk of the stock modules says to lines.
fn lines_of_stock(alloc: Global) -> Result<Lines, Fail> {
    let texts = empty_network(alloc)?;
    Ok(lines_of::<Stock>(alloc, &texts)?)
}

#[test]
fn edits_at_a_desk(rt: HostRuntime) -> Result<(), Fail> {
    let lines = lines_of_stock(rt.alloc())?;
    let wanted =
        "done no-more-events from start executed 0\nrefused NoSuchLine\nedited valid 0\nrefused Command\n";
    assert_eq!(rt; lines.told.as_slice(), wanted.as_bytes());
    assert!(rt;
        lines.done == Some((true, false)),
        "a run is done where none is, or the reverse"
    );
    assert!(rt; lines.runs_again, "the run isn't done anew");
    Ok(())
}

#[test]
fn files_of_runs(rt: HostRuntime) -> Result<(), Fail> {
    let answers = answers_of_stock(rt.alloc())?;
    assert!(rt; answers.before == [Err(FileFault::NotDone), Err(FileFault::NotDone)]);
    assert!(rt; answers.is_done, "the run is not done");
    assert!(rt; answers.scalars.0 == Err(FileFault::Device(11)));
    assert_eq!(rt; answers.scalars.1.as_slice(), b"version 3\nr".as_slice());
    assert!(rt; answers.vectors.0 == Err(FileFault::Device(10)));
    assert_eq!(rt; answers.vectors.1.as_slice(), b"version 3\n".as_slice());
    Ok(())
}
