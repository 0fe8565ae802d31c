//! Why a configuration can't be run.

use crate::reading::read_types;
use crate::sections::{Sections, sections_of};
use explain_types::explanation::Explanation;
use explain_types::names::is_near;
use explain_types::ned_files::{is_anywhere, type_named};
use explain_types::sources::Sources;
use ini_config::error::IniError;
use ini_config::parse::parse_ini;
use ini_trees::entries::network_entry;
use ini_trees::entry::EntryMeaning;
use ini_trees::error::ChainError;
use ini_trees::lines::{IniLine, IniText, LineMeaning};
use ini_trees::names::{SectionNames, section_names};
use ini_trees::speaks::last_name;
use ned_trees::declarations::{TypeDeclaration, TypeKind};
use sim_values::NoMemory;
use sim_values::text::{Text, spells};
use sqlite_items::Items;
use std::alloc::Global;

/// The lines of an ini text that was read before; none where it was not.
pub fn lines_of(alloc: Global, sources: &Sources<'_>) -> Result<IniText, NoMemory> {
    match parse_ini(alloc, sources.ini) {
        Ok(text) => Ok(text),
        Err(IniError::NoMemory(error)) => Err(error),
        Err(_) => Ok(IniText::of_lines(Items::new(alloc))),
    }
}

/// The chain of the configuration; of no section where it has none.
pub fn chain_of(alloc: Global, text: &IniText, config: &[u8]) -> Result<Items<Text>, NoMemory> {
    match text.chain(alloc, config) {
        Ok(chain) => Ok(chain),
        Err(ChainError::NoMemory(error)) => Err(error),
        Err(_) => Ok(Items::new(alloc)),
    }
}

/// Whether that name is one of these.
pub fn is_among(name: &[u8], names: &[&[u8]]) -> bool {
    for it in names {
        if *it == name {
            return true;
        }
    }
    false
}

/// The names of sections, as a list.
fn listed<'a>(alloc: Global, sections: &SectionNames<'a>) -> Result<Vec<&'a [u8]>, NoMemory> {
    let mut names: Vec<&[u8]> = Vec::new(alloc);
    for number in 0..sections.len() {
        names.push(sections.name(number))?;
    }
    Ok(names)
}

/// The names of the configurations of an ini text, each once.
fn configurations<'a>(alloc: Global, lines: &'a [IniLine]) -> Result<Vec<&'a [u8]>, NoMemory> {
    let sections = section_names(alloc, lines)?;
    listed(alloc, &sections)
}

/// Says that there is no configuration of that name, and which there are.
fn tell_others(told: &mut Explanation, sources: &Sources<'_>, names: &[&[u8]]) {
    told.say(sources.ini_path);
    told.say(": there is no configuration ");
    told.say_name(sources.config.as_bytes());
    told.say("; there are: ");
    told.say_list(names);
    told.say_near(sources.config.as_bytes(), names);
}

/// Says that no line begins the section of the configuration, and which there are.
fn tell_other_sections(told: &mut Explanation, sources: &Sources<'_>, lines: &[IniLine]) {
    match configurations(told.alloc(), lines) {
        Ok(names) => tell_others(told, sources, names.as_slice()),
        Err(error) => told.refuse(error),
    }
}

/// Says that there is no configuration of that name, and which there are.
pub fn tell_no_config(told: &mut Explanation, sources: &Sources<'_>) {
    match lines_of(told.alloc(), sources) {
        Ok(text) => tell_other_sections(told, sources, text.lines()),
        Err(error) => told.refuse(error),
    }
}

/// The number of the line that says what the section of that name extends, and the names.
fn bases_of<'a>(sections: &Sections<'a>, name: &[u8]) -> Option<(usize, &'a [Text])> {
    for it in sections.entries_under(name)? {
        if let EntryMeaning::Extends(names) = &it.entry.meaning {
            return Some((it.line, names.as_slice()));
        }
    }
    None
}

/// Whether there is a configuration of that name.
fn exists(sections: &SectionNames<'_>, name: &[u8]) -> bool {
    spells(name, b"General") || sections.number_of(name).is_some()
}

/// Begins what is wrong with the configuration of that name, which extends something in that line.
fn begin(told: &mut Explanation, sources: &Sources<'_>, line: usize, name: &[u8]) {
    told.say_place(sources.ini_path, line);
    told.say(": ");
    told.say_name(name);
    told.say(" extends ");
}

/// How many chains are looked for, at most, until it is known which configurations can't be put in
/// order.
const MOST_CHAINS: usize = 16;

/// Whether a configuration has no chain.
fn is_faulty(alloc: Global, text: &IniText, name: &[u8]) -> Result<bool, NoMemory> {
    match text.chain(alloc, name) {
        Ok(_) => Ok(false),
        Err(ChainError::NoMemory(error)) => Err(error),
        Err(_) => Ok(true),
    }
}

/// The first of these configurations that has no chain, where so many chains may still be looked
/// for. One base alone is always in order.
fn faulty_base<'a>(
    alloc: Global,
    text: &IniText,
    bases: &'a [Text],
    left: &mut usize,
) -> Result<Option<&'a [u8]>, NoMemory> {
    if let [base] = bases {
        return Ok(Some(base.as_bytes()));
    }
    for base in bases {
        if *left == 0 {
            return Ok(None);
        }
        *left -= 1;
        if is_faulty(alloc, text, base.as_bytes())? {
            return Ok(Some(base.as_bytes()));
        }
    }
    Ok(None)
}

/// The first of these names of which there is no section.
fn missing_base<'a>(sections: &SectionNames<'_>, bases: &'a [Text]) -> Option<&'a [u8]> {
    for base in bases {
        if !exists(sections, base.as_bytes()) {
            return Some(base.as_bytes());
        }
    }
    None
}

/// Says which configurations the one of that name extends, and that they can't be put in order;
/// where no more chains may be looked for, perhaps only others that these extend.
fn tell_unordered(told: &mut Explanation, bases: &[Text], left: usize) {
    let mut before = "";
    for base in bases {
        told.say(before);
        told.say_name(base.as_bytes());
        before = ", ";
    }
    told.say(if left == 0 {
        ", which, with what they extend,"
    } else {
        ", which"
    });
    told.say(
        " can't be put in order: each stands before those that it extends, and they stand as they are named",
    );
}

/// Says that the configuration of that name extends one in that line that isn't there, and which
/// there are.
fn tell_missing(
    told: &mut Explanation,
    sources: &Sources<'_>,
    sections: &SectionNames<'_>,
    line: usize,
    walked: &[u8],
    base: &[u8],
) {
    begin(told, sources, line, walked);
    told.say_name(base);
    told.say(", which isn't there; there are: ");
    match listed(told.alloc(), sections) {
        Ok(names) => told.say_list(names.as_slice()),
        Err(error) => told.refuse(error),
    }
}

/// The configuration with no chain that the one of that name extends; says what is wrong where that
/// is with this one.
fn followed<'a>(
    told: &mut Explanation,
    sources: &Sources<'_>,
    text: &IniText,
    sections: &Sections<'a>,
    walked: &[u8],
    left: &mut usize,
) -> Option<&'a [u8]> {
    let (line, bases) = bases_of(sections, walked)?;
    if let Some(base) = missing_base(&sections.names, bases) {
        tell_missing(told, sources, &sections.names, line, walked, base);
        return None;
    }
    match faulty_base(told.alloc(), text, bases, left) {
        Ok(Some(base)) => Some(base),
        Ok(None) => {
            begin(told, sources, line, walked);
            tell_unordered(told, bases, *left);
            None
        }
        Err(error) => {
            told.refuse(error);
            None
        }
    }
}

/// Says that the configuration of that name extends itself in the end.
fn tell_circle(
    told: &mut Explanation,
    sources: &Sources<'_>,
    sections: &Sections<'_>,
    walked: &[u8],
) {
    let line = match bases_of(sections, walked) {
        Some((line, _)) => line,
        None => 1,
    };
    begin(told, sources, line, walked);
    told.say("itself in the end: take one 'extends' out of the circle");
}

/// Whether the section of that number was passed before; it is from now on.
fn was_passed(passed: &mut [bool], number: usize) -> bool {
    match passed.get_mut(number) {
        Some(it) => {
            let before = *it;
            *it = true;
            before
        }
        None => false,
    }
}

/// Says what is wrong with the chain of the configuration, where none of its sections was passed.
fn tell_chain(
    told: &mut Explanation,
    sources: &Sources<'_>,
    text: &IniText,
    sections: &Sections<'_>,
    passed: &mut [bool],
) {
    let mut left = MOST_CHAINS;
    let mut walked = sources.config.as_bytes();
    for _step in 0..=passed.len() {
        let Some(number) = sections.names.number_of(walked) else {
            return;
        };
        if was_passed(passed, number) {
            return tell_circle(told, sources, sections, walked);
        }
        match followed(told, sources, text, sections, walked, &mut left) {
            Some(base) => walked = base,
            None => return,
        }
    }
}

/// Says what is wrong with the chain of the configuration in this text, which has these sections.
fn tell_chain_by(
    told: &mut Explanation,
    sources: &Sources<'_>,
    text: &IniText,
    sections: &Sections<'_>,
) -> Result<(), NoMemory> {
    let mut passed = vec![in told.alloc(); false; sections.names.len()]?;
    tell_chain(told, sources, text, sections, passed.as_mut_slice());
    Ok(())
}

/// Says what is wrong with the chain of the configuration in this text.
fn tell_chain_in(told: &mut Explanation, sources: &Sources<'_>, text: &IniText) {
    let done = match sections_of(told.alloc(), text.lines()) {
        Ok(sections) => tell_chain_by(told, sources, text, &sections),
        Err(error) => Err(error),
    };
    if let Err(error) = done {
        told.refuse(error);
    }
}

/// Says why a configuration has no chain.
pub fn tell_no_chain(told: &mut Explanation, sources: &Sources<'_>) {
    match lines_of(told.alloc(), sources) {
        Ok(text) => tell_chain_in(told, sources, &text),
        Err(error) => told.refuse(error),
    }
}

/// The number of the line whose option `network` has that value.
fn line_of_network(lines: &[IniLine], name: &[u8]) -> usize {
    for (at, line) in lines.iter().enumerate() {
        if let LineMeaning::Entry(entry) = &line.meaning {
            if let EntryMeaning::Network(found) = &entry.meaning {
                if found.is(name) {
                    return at.saturating_add(1);
                }
            }
        }
    }
    1
}

/// Says which networks there are.
fn tell_networks(told: &mut Explanation, types: &[TypeDeclaration]) {
    told.say("; the networks are: ");
    let mut before = "";
    for it in types {
        if is_anywhere(it, TypeKind::Network) {
            told.say(before);
            told.say_front(it.name.as_bytes());
            before = ", ";
        }
    }
    if before.is_empty() {
        told.say("none");
    }
}

/// Says which entry may be meant to name the network, where none does: one with a key that is near,
/// or those of a section that is written otherwise than General.
fn tell_misspelt(told: &mut Explanation, lines: &[IniLine]) {
    for (at, line) in lines.iter().enumerate() {
        match &line.meaning {
            LineMeaning::Entry(entry) if is_near(entry.key.as_bytes(), b"network".as_slice()) => {
                told.say("; line ");
                told.say_number(at.saturating_add(1));
                told.say(" has the key ");
                told.say_name(entry.key.as_bytes());
                return told.say(": did you mean 'network'?");
            }
            LineMeaning::Section(name) if is_written_otherwise(name.as_bytes()) => {
                told.say("; line ");
                told.say_number(at.saturating_add(1));
                told.say(" begins the section [");
                told.say_front(name.as_bytes());
                return told.say("]: did you mean [General]?");
            }
            _ => {}
        }
    }
}

/// Whether a section has the name General in other letters.
fn is_written_otherwise(name: &[u8]) -> bool {
    name != b"General".as_slice() && name.eq_ignore_ascii_case(b"General".as_slice())
}

/// Whether the type says that it is a network by the property of OMNeT++ 4.
fn is_marked(told: &Explanation, sources: &Sources<'_>) -> bool {
    let _alloc = told.alloc();
    for text in sources.texts.as_slice() {
        if has_word(text.as_bytes(), b"@isNetwork".as_slice()) {
            return true;
        }
    }
    false
}

/// Whether these bytes stand somewhere in a text.
fn has_word(text: &[u8], word: &[u8]) -> bool {
    for start in 0..text.len() {
        if text[start..].starts_with(word) {
            return true;
        }
    }
    false
}

/// Says what the type is that the option `network` names, which is no network.
fn tell_kind(told: &mut Explanation, sources: &Sources<'_>, declared: &TypeDeclaration) {
    match declared.kind {
        TypeKind::Simple | TypeKind::Network => told.say(" is a simple module and no network"),
        TypeKind::Module => {
            told.say(" is a compound module and no network: declare it by 'network ");
            told.say_front(declared.name.as_bytes());
            told.say("'");
            if is_marked(told, sources) {
                told.say(" (the property @isNetwork has no effect here)");
            }
        }
        TypeKind::Channel => told.say(" is a channel and no network"),
        TypeKind::ModuleInterface | TypeKind::ChannelInterface => {
            told.say(" is an interface and no network");
        }
    }
}

/// Says why the chain in these lines selects no network among these types.
fn tell_selection(
    told: &mut Explanation,
    sources: &Sources<'_>,
    lines: &[IniLine],
    chain: &[Text],
    types: &[TypeDeclaration],
) {
    let Some(name) = network_entry(lines, chain) else {
        told.say(sources.ini_path);
        told.say(": there is no entry 'network = NAME' in [");
        told.say_front(sources.config.as_bytes());
        told.say("] or what it extends");
        tell_networks(told, types);
        return tell_misspelt(told, lines);
    };
    told.say_place(sources.ini_path, line_of_network(lines, name));
    told.say(": ");
    told.say_name(name);
    match type_named(types, last_name(name)) {
        Some(declared) => tell_kind(told, sources, declared),
        None => told.say(" is declared in no NED file"),
    }
    tell_networks(told, types);
}

/// Says why the chain in these lines selects no network.
fn tell_chosen(told: &mut Explanation, sources: &Sources<'_>, lines: &[IniLine], chain: &[Text]) {
    match read_types(told.alloc(), sources) {
        Ok(types) => tell_selection(told, sources, lines, chain, types.as_slice()),
        Err(error) => told.refuse(error),
    }
}

/// Says why the configuration in this text selects no network.
fn tell_text(told: &mut Explanation, sources: &Sources<'_>, text: &IniText) {
    match chain_of(told.alloc(), text, sources.config.as_bytes()) {
        Ok(chain) => tell_chosen(told, sources, text.lines(), chain.as_slice()),
        Err(error) => told.refuse(error),
    }
}

/// Says why there is no network to run.
pub fn tell_no_network(told: &mut Explanation, sources: &Sources<'_>) {
    match lines_of(told.alloc(), sources) {
        Ok(text) => tell_text(told, sources, &text),
        Err(error) => told.refuse(error),
    }
}
