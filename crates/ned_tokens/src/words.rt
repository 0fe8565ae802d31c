//! The words of the language.

ghost use Rattle.std.specs.Prelude.{◌≡◌};
ghost use Rattle.ned_tokens.specs.Words as words;

use crate::token::Keyword;
use sim_values::text::spells;

/// The words that begin a type, or stand in its head or before it.
#[tactic(auto, unfolding(crate::specs::Words::head_word))]
fn head_word(word: &[u8]) -> Option<Keyword>
    ensures { result ≡ words.head_word word.now }
{
    if spells(word, b"package") {
        Some(Keyword::Package)
    } else if spells(word, b"import") {
        Some(Keyword::Import)
    } else if spells(word, b"simple") {
        Some(Keyword::Simple)
    } else if spells(word, b"module") {
        Some(Keyword::Module)
    } else if spells(word, b"network") {
        Some(Keyword::Network)
    } else if spells(word, b"channel") {
        Some(Keyword::Channel)
    } else if spells(word, b"moduleinterface") {
        Some(Keyword::ModuleInterface)
    } else if spells(word, b"channelinterface") {
        Some(Keyword::ChannelInterface)
    } else if spells(word, b"extends") {
        Some(Keyword::Extends)
    } else if spells(word, b"like") {
        Some(Keyword::Like)
    } else {
        None
    }
}

/// The words that begin a section, or a line of one.
#[tactic(auto, unfolding(crate::specs::Words::section_word))]
fn section_word(word: &[u8]) -> Option<Keyword>
    ensures { result ≡ words.section_word word.now }
{
    if spells(word, b"parameters") {
        Some(Keyword::Parameters)
    } else if spells(word, b"gates") {
        Some(Keyword::Gates)
    } else if spells(word, b"types") {
        Some(Keyword::Types)
    } else if spells(word, b"submodules") {
        Some(Keyword::Submodules)
    } else if spells(word, b"connections") {
        Some(Keyword::Connections)
    } else if spells(word, b"allowunconnected") {
        Some(Keyword::AllowUnconnected)
    } else if spells(word, b"if") {
        Some(Keyword::If)
    } else if spells(word, b"for") {
        Some(Keyword::For)
    } else {
        None
    }
}

/// The words that declare a parameter or a gate.
#[tactic(auto, unfolding(crate::specs::Words::member_word))]
fn member_word(word: &[u8]) -> Option<Keyword>
    ensures { result ≡ words.member_word word.now }
{
    if spells(word, b"volatile") {
        Some(Keyword::Volatile)
    } else if spells(word, b"bool") {
        Some(Keyword::Bool)
    } else if spells(word, b"int") {
        Some(Keyword::Int)
    } else if spells(word, b"string") {
        Some(Keyword::Text)
    } else if spells(word, b"double") {
        Some(Keyword::Double)
    } else if spells(word, b"default") {
        Some(Keyword::Default)
    } else if spells(word, b"input") {
        Some(Keyword::Input)
    } else if spells(word, b"output") {
        Some(Keyword::Output)
    } else if spells(word, b"inout") {
        Some(Keyword::Inout)
    } else {
        None
    }
}

/// The words that stand in expressions.
#[tactic(auto, unfolding(crate::specs::Words::value_word))]
fn value_word(word: &[u8]) -> Option<Keyword>
    ensures { result ≡ words.value_word word.now }
{
    if spells(word, b"true") {
        Some(Keyword::True)
    } else if spells(word, b"false") {
        Some(Keyword::False)
    } else if spells(word, b"this") {
        Some(Keyword::This)
    } else if spells(word, b"parent") {
        Some(Keyword::Parent)
    } else if spells(word, b"index") {
        Some(Keyword::Index)
    } else if spells(word, b"parentIndex") {
        Some(Keyword::ParentIndex)
    } else if spells(word, b"sizeof") {
        Some(Keyword::Sizeof)
    } else if spells(word, b"exists") {
        Some(Keyword::Exists)
    } else {
        None
    }
}

/// The word that these letters spell, if they do.
#[tactic(auto, unfolding(crate::specs::Words::keyword_of))]
pub fn keyword_of(word: &[u8]) -> Option<Keyword>
    ensures { result ≡ words.keyword_of word.now }
{
    if let Some(found) = head_word(word) {
        return Some(found);
    }
    if let Some(found) = section_word(word) {
        return Some(found);
    }
    if let Some(found) = member_word(word) {
        return Some(found);
    }
    value_word(word)
}
