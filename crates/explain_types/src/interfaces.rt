//! What types lack of their interfaces.

use crate::bases::root_first;
use crate::explanation::Explanation;
use crate::ned_files::{Files, type_named};
use crate::origins::{Kind, Origin, origin_of};
use crate::places::{Sign, Spot};
use ned_trees::declarations::{
    GateDirection, GateLine, GateSize, ParameterWord, SectionLine, TypeDeclaration,
};

/// The word of a parameter as it is written.
fn word_name(word: ParameterWord) -> &'static str {
    match word {
        ParameterWord::Bool => "bool ",
        ParameterWord::Int => "int ",
        ParameterWord::Text => "string ",
        ParameterWord::Double => "double ",
    }
}

/// The direction of a gate as it is written.
fn direction_name(direction: GateDirection) -> &'static str {
    match direction {
        GateDirection::Input => "input ",
        GateDirection::Output => "output ",
        GateDirection::Inout => "inout ",
    }
}

/// What an interface has that a type lacks, as it is declared.
#[derive(Clone, Copy)]
struct Lacking<'a> {
    what: &'static str,
    sign: Sign,
    word: &'static str,
    name: &'a [u8],
    brackets: &'static str,
}

/// What is declared there, a parameter or a gate.
fn lacking_at<'a>(interface: &'a TypeDeclaration, kind: Kind, at: usize) -> Option<Lacking<'a>> {
    if matches!(kind, Kind::Line) {
        let SectionLine::Declaration(wanted) = interface.lines.as_slice().get(at)? else {
            return None;
        };
        return Some(Lacking {
            what: "parameter '",
            sign: Sign::Parameter,
            word: word_name(wanted.word),
            name: wanted.name.as_bytes(),
            brackets: "",
        });
    }
    let GateLine::Declaration(wanted) = interface.gates.as_slice().get(at)? else {
        return None;
    };
    Some(Lacking {
        what: "gate '",
        sign: Sign::Gate,
        word: direction_name(wanted.direction),
        name: wanted.name.as_bytes(),
        brackets: match wanted.size {
            GateSize::Single => "",
            _ => "[]",
        },
    })
}

/// Says what a type lacks that is like `kept`, and which interface has it.
fn tell_lacking(
    told: &mut Explanation,
    files: &Files<'_>,
    it: &TypeDeclaration,
    kept: &[u8],
    interface: &TypeDeclaration,
    lacking: Lacking<'_>,
) {
    files.begin(told, it, Sign::Head, kept);
    told.say("the type ");
    told.say_name(it.name.as_bytes());
    told.say(" is like ");
    told.say_name(kept);
    told.say(", and lacks the ");
    told.say(lacking.what);
    told.say(lacking.word);
    told.say_front(lacking.name);
    told.say(lacking.brackets);
    told.say("' of ");
    told.say_name(interface.name.as_bytes());
    told.say(", declared at ");
    files.tell_place(told, interface, Spot::first(lacking.sign, lacking.name));
}

/// Says that a type lacks the member of that number of the flat type of an interface, the last of
/// these.
fn tell_member(
    told: &mut Explanation,
    files: &Files<'_>,
    it: &TypeDeclaration,
    line: &[&TypeDeclaration],
    kind: Kind,
    number: usize,
) {
    let (Some(kept), Some(origin)) = (line.last(), origin_of(line, kind, number)) else {
        return;
    };
    if let Some(lacking) = lacking_at(origin.it, kind, origin.at) {
        tell_lacking(told, files, it, kept.name.as_bytes(), origin.it, lacking);
    }
}

/// The interface that is named there.
fn interface_at<'a>(files: &Files<'a>, origin: Origin<'_, '_>) -> Option<&'a TypeDeclaration> {
    let name = origin.it.interfaces.as_slice().get(origin.at)?;
    type_named(files.types, name.as_bytes())
}

/// Says that the flat type of the last of these types lacks the member of the second number of the
/// interface of the first.
pub fn tell_lacked(
    told: &mut Explanation,
    files: &Files<'_>,
    order: &[&TypeDeclaration],
    number: usize,
    kind: Kind,
    at: usize,
) {
    let Some(origin) = origin_of(order, Kind::Interface, number) else {
        return;
    };
    let Some(kept) = interface_at(files, origin) else {
        return;
    };
    match root_first(told.alloc(), files.types, kept) {
        Ok(line) => tell_member(told, files, origin.it, line.as_slice(), kind, at),
        Err(error) => told.refuse(error),
    }
}
