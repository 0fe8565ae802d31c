//! Which gate has to be connected and isn't.

use crate::modules::{declared_at, module_of, placed_at, record_of};
use inside_keys::found::Found;
use inside_keys::unconnected::unconnected;
use inside_run::scene::ModuleSource;
use model_answers::plain::PlainAnswers;
use model_inside::built::name_of_part;
use model_questions::answer::{Answer, Question};
use model_questions::record::Record;
use model_settings::setting::ModelSetting;
use module_api::call::{Direction, Gate};
use ned_trees::declarations::{GateLine, TypeDeclaration};
use sim_values::NoMemory;
use sim_values::text::Text;
use std::alloc::Global;

/// How many gates are looked at, at most.
const MOST_GATES: u32 = 1000;

/// A module whose gates are looked at.
#[derive(Clone, Copy)]
struct Seen<'a> {
    answers: &'a PlainAnswers<'a>,
    records: &'a [Record],
    /// From within, as a compound module's own gates; or else from outside.
    own: bool,
}

/// Whether a line lets the gate of that name stay free.
fn loosens(line: &GateLine, name: &[u8]) -> bool {
    match line {
        GateLine::Declaration(declared) => declared.loose && declared.name.is(name),
        GateLine::Refinement(refined) => refined.loose && refined.name.is(name),
    }
}

/// Whether one of these lines does.
fn is_loose(lines: &[GateLine], name: &[u8]) -> bool {
    for line in lines {
        if loosens(line, name) {
            return true;
        }
    }
    false
}

/// The name of a gate, or of a half of it.
fn half_of(alloc: Global, gate: &Gate, mark: &[u8]) -> Result<Text, NoMemory> {
    let mut name = Vec::from_slice(alloc, gate.name.as_bytes())?;
    name.extend_from_slice(mark)?;
    Ok(Text::from_vec(name))
}

/// Whether nothing is after a hop.
fn leads_nowhere(alloc: Global, it: Seen<'_>, question: &Question) -> Result<bool, NoMemory> {
    match it.answers.answer(alloc, it.records, question)? {
        Answer::Next(None) => Ok(true),
        _ => Ok(false),
    }
}

/// Whether no message leaves by a gate or a half of one.
fn sends_nowhere(
    alloc: Global,
    it: Seen<'_>,
    gate: &Gate,
    mark: &[u8],
    index: u32,
) -> Result<bool, NoMemory> {
    let question = Question::Hop(1, half_of(alloc, gate, mark)?, index);
    leads_nowhere(alloc, it, &question)
}

/// Whether no message comes to a gate or a half of one.
fn hears_nothing(
    alloc: Global,
    it: Seen<'_>,
    gate: &Gate,
    mark: &[u8],
    index: u32,
) -> Result<bool, NoMemory> {
    let question = Question::HopBack(1, half_of(alloc, gate, mark)?, index);
    leads_nowhere(alloc, it, &question)
}

/// Whether the gate of that index isn't connected where it has to be: a submodule's on its outer
/// side, a module's own on its inner one.
fn lacks(alloc: Global, it: Seen<'_>, gate: &Gate, index: u32) -> Result<bool, NoMemory> {
    let (sends, hears) = if it.own { ("$i", "$o") } else { ("$o", "$i") };
    match (gate.direction, it.own) {
        (Direction::Input, false) | (Direction::Output, true) => {
            hears_nothing(alloc, it, gate, b"", index)
        }
        (Direction::Output, false) | (Direction::Input, true) => {
            sends_nowhere(alloc, it, gate, b"", index)
        }
        (Direction::Inout, _) => {
            let silent = hears_nothing(alloc, it, gate, hears.as_bytes(), index)?;
            Ok(silent || sends_nowhere(alloc, it, gate, sends.as_bytes(), index)?)
        }
    }
}

/// The first index of a gate that isn't connected.
fn first_lacking(alloc: Global, it: Seen<'_>, gate: &Gate) -> Result<Option<u32>, NoMemory> {
    for index in 0..gate.size.min(MOST_GATES) {
        if lacks(alloc, it, gate, index)? {
            return Ok(Some(index));
        }
    }
    Ok(None)
}

/// A gate that isn't connected.
#[derive(Drop)]
pub struct Lacking {
    /// The path of the module whose gate it is.
    pub path: Text,
    pub name: Text,
    pub index: u32,
    /// It is one of the module's own gates, which isn't connected within.
    pub own: bool,
}

/// The first of these gates that isn't connected, but those that these lines let stay free: its
/// name and its index.
fn lacking_among(
    alloc: Global,
    it: Seen<'_>,
    gates: &[Gate],
    lines: &[GateLine],
    body: &[GateLine],
) -> Result<Option<(Text, u32)>, NoMemory> {
    for gate in gates {
        let name = gate.name.as_bytes();
        if !is_loose(lines, name) && !is_loose(body, name) {
            if let Some(index) = first_lacking(alloc, it, gate)? {
                return Ok(Some((gate.name.copy(alloc)?, index)));
            }
        }
    }
    Ok(None)
}

/// A part with a gate that has to be connected and isn't.
#[derive(Drop)]
struct Part {
    path: Text,
    /// The number of its type among all.
    of_type: usize,
    /// It is the compound module itself.
    own: bool,
}

/// The first such part of the inside of the module of that path and type.
fn lacking_part(
    alloc: Global,
    setting: &ModelSetting<'_>,
    path: &[u8],
    of: &TypeDeclaration,
) -> Result<Option<Part>, NoMemory> {
    let Ok(Found::Inside(inside)) = placed_at(alloc, setting, path)? else {
        return Ok(None);
    };
    let Some(number) = unconnected(alloc, of, setting.gates(), &inside)? else {
        return Ok(None);
    };
    let Some(part) = inside.parts.parts.get(number) else {
        return Ok(None);
    };
    let site = module_of(alloc, path)?;
    let name = Text::from_bytes(alloc, name_of_part(of.submodules.as_slice(), *part))?;
    let child = site.child(alloc, &name, part.index)?;
    let path = if part.is_own { site.path } else { child.path };
    Ok(Some(Part {
        path,
        of_type: part.of_type,
        own: part.is_own,
    }))
}

/// The first gate of that part that isn't connected.
fn lacking_of(
    alloc: Global,
    answers: &PlainAnswers<'_>,
    part: Part,
    of: &TypeDeclaration,
) -> Result<Option<Lacking>, NoMemory> {
    let records = record_of(alloc, part.path.as_bytes())?;
    let gates = answers.gates_of(alloc, records.as_slice(), 1)?;
    let declared = declared_at(alloc, answers, part.path.as_bytes())?;
    let body = match declared {
        Some(declared) if !part.own => declared.submodule.body.gates.as_slice(),
        _ => &[],
    };
    let it = Seen {
        answers,
        records: records.as_slice(),
        own: part.own,
    };
    match lacking_among(alloc, it, gates.as_slice(), of.gates.as_slice(), body)? {
        Some((name, index)) => Ok(Some(Lacking {
            path: part.path,
            name,
            index,
            own: part.own,
        })),
        None => Ok(None),
    }
}

/// The first gate in the inside of the module of that path and type that has to be connected and
/// isn't.
pub fn lacking_gate(
    alloc: Global,
    answers: &PlainAnswers<'_>,
    path: &[u8],
    of: &TypeDeclaration,
) -> Result<Option<Lacking>, NoMemory> {
    let setting = answers.setting();
    let Some(part) = lacking_part(alloc, setting, path, of)? else {
        return Ok(None);
    };
    match setting.types().get(part.of_type) {
        Some(of) => lacking_of(alloc, answers, part, of),
        None => Ok(None),
    }
}
