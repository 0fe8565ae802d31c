//! Lines of an ini text that have no effect.

use crate::built::{names_in, paths_in};
use crate::configurations::{chain_of, is_among, lines_of};
use crate::options::instead_of_option;
use crate::paths::{
    EntryUse, MOST_TRIES, NAMES, OptionEntry, Paths, Recorded, before_option, without_mode,
};
use crate::plain::all_have_effect;
use crate::reading::read_types;
use crate::sections::{Numbered, Sections, sections_of};
use explain_types::bases::with_bases;
use explain_types::explanation::Explanation;
use explain_types::names::shown;
use explain_types::ned_files::{Files, type_named};
use explain_types::sources::Sources;
use explain_types::values::{GivenParameter, tell_line_of_value};
use indexmap::IndexMap;
use ini_pattern::Pattern;
use ini_trees::entries::network_entry;
use ini_trees::entry::{EntryMeaning, ObjectEntry, ObjectOption};
use ini_trees::lines::{IniEntry, IniLine, IniText};
use ini_trees::speaks::last_name;
use model_reading::begin::{BeginFault, model_of};
use model_settings::standings::{before_last, name_in as own_name};
use ned_trees::declarations::{SectionLine, Submodule, SubmoduleType, TypeDeclaration};
use ned_types::flat::{last_value, submodule_named};
use ned_types::given::{fixes, name_in};
use sim_values::NoMemory;
use sim_values::text::Text;
use std::alloc::Global;

/// The options that have an effect, or whose only value has.
pub(crate) const OPTIONS: [&[u8]; 5] = [
    b"network",
    b"extends",
    b"sim-time-limit",
    b"repeat",
    b"simtime-resolution",
];

/// The per-object options that have an effect.
const OBJECT_OPTIONS: [&[u8]; 4] = [
    b"result-recording-modes",
    b"scalar-recording",
    b"vector-recording",
    b"statistic-recording",
];

/// Of how many fixed values the line in the NED file is looked for, at most.
const MOST_PLACES: usize = 16;

/// What was seen of the entries so far.
#[derive(Drop)]
struct Seen {
    /// Of how many fixed values the line in the NED file may still be looked for.
    places: usize,
    /// For each parameter the line of the first entry of the section that is for it, 0 where there
    /// is none.
    parameters: Vec<usize>,
    /// The same for each name of each statistic.
    statistics: Vec<usize>,
}

/// What entries are compared with.
#[derive(Clone, Copy)]
struct Case<'a> {
    sources: &'a Sources<'a>,
    types: &'a [TypeDeclaration],
    network: &'a TypeDeclaration,
    paths: &'a Paths,
}

/// Says that the entry of that key has no effect, and why.
fn tell_useless(told: &mut Explanation, sources: &Sources<'_>, line: usize, key: &[u8], why: &str) {
    told.say_place(sources.ini_path, line);
    told.say(": warning: ");
    told.say_name(key);
    told.say(" has no effect: ");
    told.say(why);
}

/// Says that there is no such option; of one of OMNeT++'s own what serves instead.
fn tell_no_option(
    told: &mut Explanation,
    sources: &Sources<'_>,
    line: usize,
    key: &[u8],
    option: &[u8],
) {
    match instead_of_option(shown(option)) {
        Some(instead) => {
            tell_useless(
                told,
                sources,
                line,
                key,
                "it is OMNeT++'s own, and not of this profile: ",
            );
            told.say(instead);
        }
        None => tell_useless(told, sources, line, key, "there is no such option here"),
    }
}

/// Says under which names an option is for statistics, and how the key is written then.
fn tell_misnamed(
    told: &mut Explanation,
    sources: &Sources<'_>,
    line: usize,
    key: &[u8],
    option: &str,
) {
    let (why, ending) = match option {
        "scalar-recording" => (
            "the scalars of a statistic are named by it and the mode: write '",
            ":*",
        ),
        "vector-recording" => (
            "the vector of a statistic is named by it and ':vector': write '",
            ":vector",
        ),
        _ => ("the option is for the statistic as a whole: write '", ""),
    };
    tell_useless(told, sources, line, key, why);
    told.say_front(without_mode(before_option(key)));
    told.say(ending);
    told.say(".");
    told.say(option);
    told.say("'\n");
}

/// What is said of an entry that others hide, before what they give and their lines.
const PARAMETER_HIDDEN: &str =
    "each parameter that it matches gets its value from an entry before it in the same section, as '";

const STATISTIC_HIDDEN: &str =
    "each statistic that it matches gets the option from an entry before it in the same section, as '";

/// Says that an entry has no effect, as entries before it in its section are for all that it
/// matches: for that of the path the entry of line `first` is first.
fn tell_hidden(
    told: &mut Explanation,
    sources: &Sources<'_>,
    line: usize,
    key: &[u8],
    why: &str,
    path: &str,
    first: usize,
) {
    tell_useless(told, sources, line, key, why);
    told.say_front(path.as_bytes());
    told.say("' from line ");
    told.say_number(first);
    told.say("\n");
}

/// Says that no statistic has the path or the name of an entry.
fn tell_no_statistic(told: &mut Explanation, it: Case<'_>, line: usize, key: &[u8]) {
    let why = if it.paths.exact {
        "no statistic of the network has that path\n"
    } else {
        "no type declares a statistic of that name\n"
    };
    tell_useless(told, it.sources, line, key, why);
}

/// Says that an option of statistics has no effect, where it has none.
fn tell_statistic(told: &mut Explanation, it: Case<'_>, entry: OptionEntry<'_>, seen: &mut Seen) {
    let OptionEntry {
        key,
        pattern: _,
        option,
        line,
    } = entry;
    let taken = seen.statistics.as_mut_slice();
    match it.paths.statistic_for(told.alloc(), entry, taken) {
        Ok(Recorded::There) => {}
        Ok(Recorded::Hidden(path, first)) => {
            tell_hidden(told, it.sources, line, key, STATISTIC_HIDDEN, path, first)
        }
        Ok(Recorded::Misnamed) => tell_misnamed(told, it.sources, line, key, option),
        Ok(Recorded::Nowhere) => tell_no_statistic(told, it, line, key),
        Err(error) => told.refuse(error),
    }
}

/// Says that an entry for objects has no effect, where it has none.
fn tell_object(
    told: &mut Explanation,
    it: Case<'_>,
    line: usize,
    key: &[u8],
    object: &ObjectEntry,
    seen: &mut Seen,
) {
    let option = object.option.as_bytes();
    if matches!(object.says, ObjectOption::Other) {
        tell_no_option(told, it.sources, line, key, option);
        told.say_near(option, OBJECT_OPTIONS.as_slice());
        told.say("\n");
        return;
    }
    let entry = OptionEntry {
        key,
        pattern: &object.pattern,
        option: shown(option),
        line,
    };
    tell_statistic(told, it, entry, seen);
}

/// Says where a type gives a parameter a value, or what it extends: `path:line`. Answers whether it
/// does.
fn tell_value_of(
    told: &mut Explanation,
    it: Case<'_>,
    of: &TypeDeclaration,
    parameter: GivenParameter<'_>,
) -> bool {
    let files = Files {
        sources: it.sources,
        types: it.types,
    };
    tell_line_of_value(told, &files, of.name.as_bytes(), parameter)
}

/// A submodule as the files declare it, and the type in which it is, which may extend the one that
/// declares it.
#[derive(Clone, Copy)]
struct Site<'a> {
    around: &'a TypeDeclaration,
    submodule: &'a Submodule,
}

/// The type of a submodule, where it leaves it not open.
pub(crate) fn type_within<'a>(
    types: &'a [TypeDeclaration],
    submodule: &Submodule,
) -> Option<&'a TypeDeclaration> {
    match &submodule.submodule_type {
        SubmoduleType::Named(name) => type_named(types, name.as_bytes()),
        SubmoduleType::Like(_) => None,
    }
}

/// Says where the type of a submodule, or its body, gives the parameter of that name a value:
/// `path:line`. Answers whether one does.
fn tell_value_within(told: &mut Explanation, it: Case<'_>, site: Site<'_>, name: &[u8]) -> bool {
    if last_value(name, site.submodule.body.lines.as_slice()).is_some() {
        let parameter = GivenParameter {
            submodule: Some(site.submodule.name.as_bytes()),
            name,
        };
        return tell_value_of(told, it, site.around, parameter);
    }
    let parameter = GivenParameter {
        submodule: None,
        name,
    };
    match type_within(it.types, site.submodule) {
        Some(of) => tell_value_of(told, it, of, parameter),
        None => false,
    }
}

/// The submodule of that name of a type or what it extends.
fn submodule_along<'a>(along: &[&'a TypeDeclaration], name: &[u8]) -> Option<&'a Submodule> {
    for of in along {
        if let Some(found) = submodule_named(name, of.submodules.as_slice()) {
            return Some(found);
        }
    }
    None
}

/// The submodule of that name of a type.
fn site_in<'a>(
    alloc: Global,
    types: &'a [TypeDeclaration],
    around: &'a TypeDeclaration,
    name: &[u8],
) -> Result<Option<Site<'a>>, NoMemory> {
    let along = with_bases(alloc, types, around)?;
    match submodule_along(along.as_slice(), name) {
        Some(submodule) => Ok(Some(Site { around, submodule })),
        None => Ok(None),
    }
}

/// The submodule of that name within a module, which is the network where none is given.
fn site_below<'a>(
    alloc: Global,
    it: Case<'a>,
    above: Option<Site<'a>>,
    name: &[u8],
) -> Result<Option<Site<'a>>, NoMemory> {
    let around = match above {
        None => Some(it.network),
        Some(site) => type_within(it.types, site.submodule),
    };
    match around {
        Some(of) => site_in(alloc, it.types, of, name),
        None => Ok(None),
    }
}

/// The declaration of the module of that path, where it is below the network and no module around
/// it leaves its type open.
fn site_at<'a>(alloc: Global, it: Case<'a>, path: &str) -> Result<Option<Site<'a>>, NoMemory> {
    let mut found = None;
    let mut below = false;
    for own in path.split('.') {
        if below {
            found = site_below(alloc, it, found, own_name(own.as_bytes()))?;
            if found.is_none() {
                return Ok(None);
            }
        }
        below = true;
    }
    Ok(found)
}

/// Says where a NED file gives the parameter of that path a value: `path:line`. Answers whether one
/// is known that does.
fn tell_value_at(told: &mut Explanation, it: Case<'_>, path: &[u8]) -> Result<bool, NoMemory> {
    let name = last_name(path);
    let around = before_last(path).unwrap_or(b"".as_slice());
    if before_last(around).is_none() {
        let parameter = GivenParameter {
            submodule: None,
            name,
        };
        return Ok(tell_value_of(told, it, it.network, parameter));
    }
    match site_at(told.alloc(), it, shown(around))? {
        Some(site) => Ok(tell_value_within(told, it, site, name)),
        None => Ok(false),
    }
}

/// Whether one of the lines declares a parameter of that name with a fixed value.
fn declares_fixed(lines: &[SectionLine], name: &[u8]) -> bool {
    for line in lines {
        if matches!(line, SectionLine::Declaration(_)) && fixes(line) && name_in(line) == name {
            return true;
        }
    }
    false
}

/// Says where a type declares the parameter of that name with a fixed value: `path:line`. Answers
/// whether one does.
fn tell_value_named(told: &mut Explanation, it: Case<'_>, name: &[u8]) -> bool {
    for of in it.types {
        if declares_fixed(of.lines.as_slice(), name) {
            let parameter = GivenParameter {
                submodule: None,
                name,
            };
            return tell_value_of(told, it, of, parameter);
        }
    }
    false
}

/// Says where a NED file gives the parameter of that path or name a fixed value: `path:line`.
/// Answers whether it is known.
fn tell_fixed_place(told: &mut Explanation, it: Case<'_>, path: &str) -> bool {
    if !it.paths.exact {
        return tell_value_named(told, it, path.as_bytes());
    }
    match tell_value_at(told, it, path.as_bytes()) {
        Ok(found) => found,
        Err(error) => {
            told.refuse(error);
            false
        }
    }
}

/// Says that an entry has no effect as the NED files give the parameter of that path or name a
/// fixed value; and where, for the first few such entries.
fn tell_fixed(
    told: &mut Explanation,
    it: Case<'_>,
    line: usize,
    key: &[u8],
    path: &str,
    places: &mut usize,
) {
    tell_useless(told, it.sources, line, key, "");
    let mut found = false;
    if *places > 0 {
        *places -= 1;
        found = tell_fixed_place(told, it, path);
    }
    if !found {
        told.say("a NED file");
    }
    told.say(" gives '");
    told.say_front(path.as_bytes());
    told.say("' a fixed value; with default(..) there an entry could change it\n");
}

/// Says that no parameter has the path or the name of an entry.
fn tell_nowhere(told: &mut Explanation, it: Case<'_>, line: usize, key: &[u8]) {
    let why = if it.paths.exact {
        "no parameter of the network has that path"
    } else {
        "no type declares a parameter of that name"
    };
    tell_useless(told, it.sources, line, key, why);
    it.paths.say_near(told, last_name(key));
    told.say("\n");
}

/// Says that an entry for parameters has no effect, where it has none.
fn tell_parameter(
    told: &mut Explanation,
    it: Case<'_>,
    line: usize,
    key: &[u8],
    pattern: &Pattern,
    seen: &mut Seen,
) {
    let taken = seen.parameters.as_mut_slice();
    match it.paths.parameter_for(key, pattern, line, taken) {
        EntryUse::Open => {}
        EntryUse::Hidden(path, first) => {
            tell_hidden(told, it.sources, line, key, PARAMETER_HIDDEN, path, first)
        }
        EntryUse::Fixed(path) => tell_fixed(told, it, line, key, path, &mut seen.places),
        EntryUse::Nowhere => tell_nowhere(told, it, line, key),
    }
}

/// Says that an entry has no effect, where it has none.
fn tell_entry(
    told: &mut Explanation,
    it: Case<'_>,
    line: usize,
    entry: &IniEntry,
    seen: &mut Seen,
) {
    let key = entry.key.as_bytes();
    match &entry.meaning {
        EntryMeaning::Other if !is_among(key, OPTIONS.as_slice()) => {
            tell_no_option(told, it.sources, line, key, key);
            told.say_near(key, OPTIONS.as_slice());
            told.say("\n");
        }
        EntryMeaning::Parameter(entry) => {
            tell_parameter(told, it, line, key, &entry.pattern, seen)
        }
        EntryMeaning::Type(_) if !it.paths.open => {
            let why = "no submodule leaves its type open\n";
            tell_useless(told, it.sources, line, key, why);
        }
        EntryMeaning::Object(object) => tell_object(told, it, line, key, object, seen),
        _ => {}
    }
}

/// The lines of the first entries of keys.
type FirstLines<'a> = IndexMap<&'a [u8], usize>;

/// An entry before another one of its section that takes the effect of it, by its line.
#[derive(Clone, Copy)]
enum Earlier {
    /// It has the same key.
    Same(usize),
    /// Its key is `**.` and the last name of the other's.
    Wider(usize),
}

/// What stands before the last name in a key that is for everything of that name.
const ANYWHERE: &[u8] = b"**.";

/// The key that is for everything of the last name of this one.
fn widest_key(alloc: Global, key: &[u8]) -> Result<Vec<u8>, NoMemory> {
    let mut wide = Vec::from_slice(alloc, ANYWHERE)?;
    wide.extend_from_slice(last_name(key))?;
    Ok(wide)
}

/// Whether an entry is for parameters, types or statistics by a pattern, and not an option of the
/// run.
fn has_pattern(entry: &IniEntry) -> bool {
    matches!(
        entry.meaning,
        EntryMeaning::Parameter(_) | EntryMeaning::Type(_) | EntryMeaning::Object(_)
    )
}

/// The line of the first entry with the key that is for everything of the last name of an entry's,
/// where it has a pattern.
fn line_of_wider(
    alloc: Global,
    lines: &FirstLines<'_>,
    entry: &IniEntry,
) -> Result<Option<usize>, NoMemory> {
    if !has_pattern(entry) {
        return Ok(None);
    }
    let wide = widest_key(alloc, entry.key.as_bytes())?;
    Ok(lines.get(wide.as_slice()).copied())
}

/// The entry of a section before this one that takes its effect. Where there is none this one is
/// noted. One of an option without effect is not noted.
fn entry_before<'a>(
    alloc: Global,
    lines: &mut FirstLines<'a>,
    it: Numbered<'a>,
) -> Result<Option<Earlier>, NoMemory> {
    if matches!(it.entry.meaning, EntryMeaning::Other) {
        return Ok(None);
    }
    let key = it.entry.key.as_bytes();
    if let Some(line) = lines.get(key).copied() {
        return Ok(Some(Earlier::Same(line)));
    }
    if let Some(line) = line_of_wider(alloc, lines, it.entry)? {
        return Ok(Some(Earlier::Wider(line)));
    }
    lines.insert(key, it.line)?;
    Ok(None)
}

/// Says that an entry has no effect, as an earlier one of its section takes it.
fn tell_earlier(told: &mut Explanation, sources: &Sources<'_>, it: Numbered<'_>, first: Earlier) {
    let key = it.entry.key.as_bytes();
    tell_useless(told, sources, it.line, key, "line ");
    match first {
        Earlier::Same(line) => {
            told.say_number(line);
            told.say(" has the same key in the same section, and the first one counts\n");
        }
        Earlier::Wider(line) => {
            told.say_number(line);
            told.say(" has '**.");
            told.say_front(last_name(key));
            told.say(
                "' in the same section, which is for all of that name, and the first one that matches counts: write this one before it\n",
            );
        }
    }
}

/// Says a line for each of the entries of a section that has no effect. Where the names are too
/// many, only for those whose effect an earlier one takes.
fn tell_section(
    told: &mut Explanation,
    it: Case<'_>,
    entries: &[Numbered<'_>],
    looks: bool,
    seen: &mut Seen,
) {
    let mut lines = IndexMap::new(told.alloc());
    for entry in entries {
        match entry_before(told.alloc(), &mut lines, *entry) {
            Ok(Some(first)) => tell_earlier(told, it.sources, *entry, first),
            Ok(None) if looks => tell_entry(told, it, entry.line, entry.entry, seen),
            Ok(None) => {}
            Err(error) => told.refuse(error),
        }
    }
}

/// Says a line for each of the entries of a section that has no effect, after those of others.
fn tell_next_section(
    told: &mut Explanation,
    it: Case<'_>,
    entries: &[Numbered<'_>],
    looks: bool,
    places: &mut usize,
) -> Result<(), NoMemory> {
    let mut seen = Seen {
        places: *places,
        parameters: vec![in told.alloc(); 0; it.paths.parameter_count]?,
        statistics: vec![in told.alloc(); 0; it.paths.statistic_count.saturating_mul(NAMES)]?,
    };
    tell_section(told, it, entries, looks, &mut seen);
    *places = seen.places;
    Ok(())
}

/// Says a line for each entry of a chain of these sections that has no effect.
fn tell_sections(
    told: &mut Explanation,
    it: Case<'_>,
    sections: &Sections<'_>,
    chain: &[Text],
    looks: bool,
) {
    let mut places = MOST_PLACES;
    for name in chain {
        if let Some(entries) = sections.entries_under(name.as_bytes()) {
            if let Err(error) = tell_next_section(told, it, entries, looks, &mut places) {
                told.refuse(error);
            }
        }
    }
}

/// Says a line for each entry of a chain that has no effect; where the names are too many for the
/// lines, only for those whose effect an earlier one takes.
fn tell_chain(told: &mut Explanation, it: Case<'_>, lines: &[IniLine], chain: &[Text]) {
    let looks = it.paths.count.saturating_mul(lines.len()) <= MOST_TRIES;
    match sections_of(told.alloc(), lines) {
        Ok(sections) => tell_sections(told, it, &sections, chain, looks),
        Err(error) => told.refuse(error),
    }
}

/// The network that the chain selects among these types.
fn selected<'a>(
    lines: &[IniLine],
    chain: &[Text],
    types: &'a [TypeDeclaration],
) -> Option<&'a TypeDeclaration> {
    type_named(types, last_name(network_entry(lines, chain)?))
}

/// What keys can be for in the network that the configuration selects, of an ini text of so many
/// lines.
fn paths_for(
    alloc: Global,
    sources: &Sources<'_>,
    types: &[TypeDeclaration],
    lines: usize,
) -> Result<Paths, NoMemory> {
    match model_of(alloc, sources.texts, sources.ini, sources.config.as_bytes()) {
        Ok(model) => paths_in(alloc, &model, types, lines),
        Err(BeginFault::NoMemory(error)) => Err(error),
        Err(_) => names_in(alloc, types),
    }
}

/// Says a line for each entry without effect of a chain, which selects that network.
fn tell_network(
    told: &mut Explanation,
    sources: &Sources<'_>,
    lines: &[IniLine],
    chain: &[Text],
    types: &[TypeDeclaration],
    network: &TypeDeclaration,
) {
    match all_have_effect(told.alloc(), lines, chain, types, network) {
        Ok(true) => {}
        Ok(false) => tell_by_paths(told, sources, lines, chain, types, network),
        Err(error) => told.refuse(error),
    }
}

/// Says a line for each entry without effect of a chain, which selects that network, by the paths
/// in the network.
fn tell_by_paths(
    told: &mut Explanation,
    sources: &Sources<'_>,
    lines: &[IniLine],
    chain: &[Text],
    types: &[TypeDeclaration],
    network: &TypeDeclaration,
) {
    match paths_for(told.alloc(), sources, types, lines.len()) {
        Ok(paths) => {
            let it = Case {
                sources,
                types,
                network,
                paths: &paths,
            };
            tell_chain(told, it, lines, chain);
        }
        Err(error) => told.refuse(error),
    }
}

/// Says a line for each entry without effect of a chain of these lines.
fn tell_lines(
    told: &mut Explanation,
    sources: &Sources<'_>,
    lines: &[IniLine],
    chain: &[Text],
    types: &[TypeDeclaration],
) {
    if let Some(network) = selected(lines, chain, types) {
        tell_network(told, sources, lines, chain, types, network);
    }
}

/// Says a line for each entry without effect of a chain of these lines.
fn tell_of_chain(told: &mut Explanation, sources: &Sources<'_>, lines: &[IniLine], chain: &[Text]) {
    match read_types(told.alloc(), sources) {
        Ok(types) => tell_lines(told, sources, lines, chain, types.as_slice()),
        Err(error) => told.refuse(error),
    }
}

/// Says a line for each entry without effect of the configuration in this text.
fn tell_text(told: &mut Explanation, sources: &Sources<'_>, text: &IniText) {
    match chain_of(told.alloc(), text, sources.config.as_bytes()) {
        Ok(chain) => tell_of_chain(told, sources, text.lines(), chain.as_slice()),
        Err(error) => told.refuse(error),
    }
}

/// Diagnostics on the entries of the configuration that have no effect at all: unknown options;
/// keys that no parameter or statistic of the network has, or only parameters with a fixed value;
/// and entries of which earlier ones of the same section take the effect: as one has the same key,
/// or `**.` and the same last name, or as for each parameter that the entry matches one comes
/// first. Where the network can't be built, or has more than 10,000 modules or very many parameters
/// and lines, those whose last name no type declares, or each only with a fixed value. The files
/// make a model.
pub fn warning_lines(alloc: Global, sources: &Sources<'_>) -> Result<Text, NoMemory> {
    let mut told = Explanation::new(alloc);
    match lines_of(alloc, sources) {
        Ok(text) => tell_text(&mut told, sources, &text),
        Err(error) => told.refuse(error),
    }
    told.said()
}
