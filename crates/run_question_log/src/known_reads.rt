//! Parameters that modules have read, whose questions were asked, so that these are not looked for
//! again.

ghost use Rattle.std.specs.Prelude.{◌≡◌, ℕ, [], List, true};
ghost use Rattle.std.specs.List.{list_any};
ghost use Rattle.std.specs.Str.{bytes_eq};
ghost use Rattle.model_questions.specs.declared.answer.AskedQuestion.{AskedQuestion};
ghost use Rattle.model_questions.specs.declared.answer.Question.TheVariants.{Param};
ghost use Rattle.run_semantics.specs.Perform.{question_of};
ghost use Rattle.run_semantics.specs.World.{is_asked};
ghost use Rattle.run_question_log.specs.Known.{reads_in, AreKnown, WereAsked};

use module_api::names::are_same;
use module_api::reply::Read;
use module_tree::Tree;
use sim_values::text::Text;
use sqlite_items::{Items, at};
use std::alloc::Global;

/// Of how many parameters of a module it is known: what is gone through for a read stays short.
const MOST_KNOWN: usize = 16;

/// The names of some parameters whose questions were asked, by the ids of their modules. It forgets
/// what there is no room for, and costs time alone then. It holds names that are texts of their
/// own, and no read of a reply: those may refer to words of the program.
#[derive(Drop)]
pub struct KnownReads {
    lists: Tree<Items<Text>>,
}

impl KnownReads {
    /// None is known.
    pub fn new(alloc: Global) -> KnownReads
        ensures { reads_in result ≡ [] }
    {
        KnownReads {
            lists: Tree::new(alloc),
        }
    }

    /// Whether it is known that the module of that id has read this. Then its question was asked.
    /// It is looked for at that place of what is known first, as the replies of a module mostly
    /// read the same in one order.
    pub fn has(&self, id: u32, place: usize, read: &Read) -> bool
        ensures { (asked : List AskedQuestion) → AreKnown asked (reads_in self.now) → result ≡ true
            → is_asked (question_of id read.now) asked ≡ true }
    {
        match read {
            Read::Parameter(name) => self.has_named(id, place, name.as_bytes()),
            Read::Gate(_) => false,
        }
    }

    /// Whether it is known that the parameter of that name was asked of the module of that id.
    fn has_named(&self, id: u32, place: usize, name: &[u8]) -> bool
        ensures { (asked : List AskedQuestion) → AreKnown asked (reads_in self.now) → result ≡ true
            → is_asked (Param id name.now) asked ≡ true }
    {
        match self.lists.get(id) {
            Some(known) => is_among(known.as_slice(), place, name),
            None => false,
        }
    }

    /// From now on it is known that the module of that id has read this, where it is a parameter
    /// and there is room and memory for it.
    pub fn add(&mut self, alloc: Global, id: u32, read: &Read)
        ensures { (asked : List AskedQuestion) → AreKnown asked (reads_in self.old)
            → is_asked (question_of id read.now) asked ≡ true → AreKnown asked (reads_in self.new) }
    {
        if let Read::Parameter(name) = read {
            self.add_named(alloc, id, name.as_bytes());
        }
    }

    /// From now on it is known that the parameter of that name was asked of the module of that id,
    /// where there is room and memory for it.
    fn add_named(&mut self, alloc: Global, id: u32, name: &[u8])
        ensures { (asked : List AskedQuestion) → AreKnown asked (reads_in self.old)
            → is_asked (Param id name.now) asked ≡ true → AreKnown asked (reads_in self.new) }
    {
        let mut known = self.lists.take(id).unwrap_or(Items::new(alloc));
        push_few(alloc, &mut known, name);
        let _ = self.lists.place(id, known);
    }

    /// Nothing is known any more.
    pub fn clear(&mut self)
        ensures { reads_in self.new ≡ [] }
    {
        self.lists.clear();
    }
}

/// Whether it is the name at that place. Then it is one of these names.
fn is_at(names: &[Text], place: usize, name: &[u8]) -> bool
    ensures { result ≡ true → list_any (λ known. bytes_eq known name.now) names.now ≡ true }
{
    match at(names, place) {
        Some(known) => are_same(known.as_bytes(), name),
        None => false,
    }
}

/// Whether it is one of these names. It is looked for at that place first.
fn is_among(names: &[Text], place: usize, name: &[u8]) -> bool
    ensures { result ≡ list_any (λ known. bytes_eq known name.now) names.now }
{
    is_at(names, place, name) || names.iter().any(|known| are_same(known.as_bytes(), name))
}

/// Adds a name, where there is room and memory for it.
fn push_few(alloc: Global, known: &mut Items<Text>, name: &[u8])
    ensures { (asked : List AskedQuestion) (id : ℕ) → WereAsked asked id known.old
        → is_asked (Param id name.now) asked ≡ true → WereAsked asked id known.new }
{
    if known.len() >= MOST_KNOWN {
        return;
    }
    if let Ok(copy) = Text::from_bytes(alloc, name) {
        let _ = known.push(copy);
    }
}
