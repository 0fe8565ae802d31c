//! What keys of an ini text can be for: the parameters and statistics of a network.

use explain_types::explanation::Explanation;
use explain_types::names::shown;
use indexmap::IndexSet;
use ini_pattern::Pattern;
use ini_trees::speaks::last_name;
use model_settings::standings::before_last;
use ned_trees::declarations::{SectionLine, Submodule, SubmoduleType, TypeDeclaration, TypeKind};
use ned_types::given::{fixes, name_in};
use sim_values::NoMemory;
use std::alloc::Global;
use std::fmt::Write;

/// Keys are compared with the paths of a network at most so often.
pub const MOST_TRIES: usize = 4_000_000;

/// The names of the parameters of the built-in channels.
const BUILT_IN: &str = "delay\ndisabled\ndatarate\nber\nper\n";

/// What a key can be for, each on a line: paths in the network, or else the names that types
/// declare, where the network can't be built or has very many modules.
#[derive(Drop)]
pub struct Paths {
    /// The parameters to which no NED file gives a fixed value.
    parameters: String,
    /// Those to which one does.
    fixed: String,
    statistics: String,
    /// The names of parameters that channels may have.
    channels: String,
    pub count: usize,
    /// How many of them are parameters to which no NED file gives a fixed value.
    pub parameter_count: usize,
    /// How many of them are statistics.
    pub statistic_count: usize,
    /// They are paths, and not names.
    pub exact: bool,
    /// A submodule leaves its type open.
    pub open: bool,
}

/// Whether a submodule leaves its type open.
fn is_open(it: &Submodule) -> bool {
    matches!(it.submodule_type, SubmoduleType::Like(_))
}

/// Whether one of the types has a submodule that leaves its type open.
fn has_open(types: &[TypeDeclaration]) -> bool {
    for of in types {
        for it in of.submodules.as_slice() {
            if is_open(it) {
                return true;
            }
        }
    }
    false
}

/// Whether one of the types has connections.
fn has_connections(types: &[TypeDeclaration]) -> bool {
    for of in types {
        if !of.connections.items.is_empty() {
            return true;
        }
    }
    false
}

/// Whether a name has a character that patterns read otherwise than as itself.
fn is_pattern(name: &[u8]) -> bool {
    for byte in name {
        if matches!(*byte, b'*' | b'?' | b'{' | b'[' | b'\\') {
            return true;
        }
    }
    false
}

/// Whether one of these lines is that name, which a pattern may be too.
fn is_named(lines: &str, name: &[u8]) -> bool {
    if is_pattern(name) {
        return true;
    }
    named(lines, name).is_some()
}

/// The name of a statistic, and the colon and what stands after it.
fn split_mode(name: &[u8]) -> (&[u8], &[u8]) {
    for (at, byte) in name.iter().enumerate() {
        if *byte == b':' {
            return (&name[..at], &name[at..]);
        }
    }
    (name, &[])
}

/// The name of a statistic without what stands after a colon.
pub fn without_mode(name: &[u8]) -> &[u8] {
    let (statistic, _mode) = split_mode(name);
    statistic
}

/// Names of parameters.
type Names<'a> = IndexSet<&'a [u8]>;

/// Adds the names of the parameters to which the lines give a fixed value.
fn add_fixed<'a>(names: &mut Names<'a>, lines: &'a [SectionLine]) -> Result<(), NoMemory> {
    for line in lines {
        if fixes(line) {
            names.insert(name_in(line))?;
        }
    }
    Ok(())
}

/// What there is for an entry for parameters.
#[derive(Clone, Copy)]
pub enum EntryUse<'a> {
    /// A parameter, perhaps, whose value it gives.
    Open,
    /// Parameters alone that entries before it in its section are for: the path of the first of
    /// them, and the line of the entry that is first for it.
    Hidden(&'a str, usize),
    /// Parameters alone that have a fixed value: the first of them, by its path or its name.
    Fixed(&'a str),
    Nowhere,
}

/// An entry that gives statistics an option, and its line.
#[derive(Clone, Copy)]
pub struct OptionEntry<'a> {
    pub key: &'a [u8],
    pub pattern: &'a Pattern,
    pub option: &'a str,
    pub line: usize,
}

/// What there is for an option of statistics.
#[derive(Clone, Copy)]
pub enum Recorded<'a> {
    There,
    /// Statistics alone that entries before it in its section give the option: the path of the
    /// first of them, and the line of the entry that is first for it.
    Hidden(&'a str, usize),
    /// A statistic, but the option is for other names of it.
    Misnamed,
    Nowhere,
}

/// What may stand after the name of a statistic, with blanks between: nothing, or what makes the
/// names of the scalars and the vector of it.
const ENDINGS: &str = " :count :sum :min :max :last :vector";

/// What stands after the name of a statistic where that option is for it.
fn endings_of(option: &str) -> &'static str {
    match option {
        "scalar-recording" => ":count :sum :min :max :last",
        "vector-recording" => ":vector",
        _ => "",
    }
}

/// For how many names of a statistic there are options: for five of scalars, and one of each other
/// option.
pub const NAMES: usize = 8;

/// How many of these names are numbered before those of that option.
fn names_before(option: &str) -> usize {
    match option {
        "statistic-recording" => 0,
        "result-recording-modes" => 1,
        "vector-recording" => 2,
        _ => 3,
    }
}

/// Whether these bytes are one of the endings.
fn is_ending(found: &[u8], endings: &str) -> bool {
    for ending in endings.split(' ') {
        if ending.as_bytes() == found {
            return true;
        }
    }
    false
}

/// The key of an option of statistics without the option.
pub fn before_option(key: &[u8]) -> &[u8] {
    match before_last(key) {
        Some(path) => path,
        None => key,
    }
}

/// The first of these lines that a pattern is for.
fn matching<'a>(lines: &'a str, pattern: &Pattern) -> Option<&'a str> {
    for line in lines.lines() {
        if pattern.matches(line) {
            return Some(line);
        }
    }
    None
}

/// The line of the entry that was first for the parameter, or the name of a statistic, of that
/// number. Where none was, 0, and then the one of this line is.
fn first_for(taken: &mut [usize], number: usize, line: usize) -> usize {
    match taken.get_mut(number) {
        Some(it) => {
            let before = *it;
            if before == 0 {
                *it = line;
            }
            before
        }
        None => 0,
    }
}

/// What there is for an entry, with one more parameter or statistic that it matches, for which the
/// entry of that line is first, or none where that is 0.
fn with_match<'a>(standing: EntryUse<'a>, path: &'a str, first: usize) -> EntryUse<'a> {
    if first == 0 {
        return EntryUse::Open;
    }
    match standing {
        EntryUse::Nowhere => EntryUse::Hidden(path, first),
        it => it,
    }
}

/// What there is, where no parameter without a fixed value is: one that has it, or none.
fn fixed_or_none(fixed: Option<&str>) -> EntryUse<'_> {
    match fixed {
        Some(path) => EntryUse::Fixed(path),
        None => EntryUse::Nowhere,
    }
}

/// The line that is that name.
fn named<'a>(lines: &'a str, name: &[u8]) -> Option<&'a str> {
    for line in lines.lines() {
        if line.as_bytes() == name {
            return Some(line);
        }
    }
    None
}

impl Paths {
    /// None yet.
    pub fn new(alloc: Global) -> Paths {
        Paths {
            parameters: String::new(alloc),
            fixed: String::new(alloc),
            statistics: String::new(alloc),
            channels: String::new(alloc),
            count: 0,
            parameter_count: 0,
            statistic_count: 0,
            exact: true,
            open: false,
        }
    }

    /// Adds what a line of a type declares, at that path, where parameters of these names have a
    /// fixed value.
    fn push_line(
        &mut self,
        path: &str,
        line: &SectionLine,
        fixed: &Names<'_>,
    ) -> Result<(), NoMemory> {
        match line {
            SectionLine::Declaration(it) if fixed.contains(it.name.as_bytes()) => {
                writeln!(self.fixed, "{path}.{}", shown(it.name.as_bytes()))?
            }
            SectionLine::Declaration(it) => {
                writeln!(self.parameters, "{path}.{}", shown(it.name.as_bytes()))?;
                self.parameter_count = self.parameter_count.saturating_add(1);
            }
            SectionLine::Statistic(it) => {
                writeln!(self.statistics, "{path}.{}", shown(it.name.as_bytes()))?;
                self.statistic_count = self.statistic_count.saturating_add(1);
            }
            _ => return Ok(()),
        }
        self.count = self.count.saturating_add(1);
        Ok(())
    }

    /// Adds what a type has at a path, with all that it extends, where a body has these lines.
    pub fn push_type(
        &mut self,
        alloc: Global,
        path: &str,
        of: &TypeDeclaration,
        body: &[SectionLine],
    ) -> Result<(), NoMemory> {
        let mut fixed = IndexSet::new(alloc);
        add_fixed(&mut fixed, body)?;
        add_fixed(&mut fixed, of.lines.as_slice())?;
        for line in of.lines.as_slice() {
            self.push_line(path, line, &fixed)?;
        }
        Ok(())
    }

    /// Adds the name that a line declares.
    fn push_name(&mut self, line: &SectionLine) -> Result<(), NoMemory> {
        match line {
            SectionLine::Declaration(it) if fixes(line) => {
                writeln!(self.fixed, "{}", shown(it.name.as_bytes()))?
            }
            SectionLine::Declaration(it) => {
                writeln!(self.parameters, "{}", shown(it.name.as_bytes()))?
            }
            SectionLine::Statistic(it) => {
                writeln!(self.statistics, "{}", shown(it.name.as_bytes()))?
            }
            _ => return Ok(()),
        }
        self.count = self.count.saturating_add(1);
        Ok(())
    }

    /// Adds the names that types declare, and those of the parameters of the built-in channels.
    pub fn push_names(&mut self, types: &[TypeDeclaration]) -> Result<(), NoMemory> {
        self.exact = false;
        self.parameters.push_str(BUILT_IN)?;
        for it in types {
            for line in it.lines.as_slice() {
                self.push_name(line)?;
            }
        }
        Ok(())
    }

    /// Adds the names of the parameters that a channel of one of these types may have.
    fn push_channel_names(&mut self, types: &[TypeDeclaration]) -> Result<(), NoMemory> {
        self.channels.push_str(BUILT_IN)?;
        for it in types {
            if it.kind == TypeKind::Channel {
                for line in it.lines.as_slice() {
                    writeln!(self.channels, "{}", shown(name_in(line)))?;
                }
            }
        }
        Ok(())
    }

    /// Adds what can be said of these types alone: whether a submodule leaves its type open, and
    /// what channels may have.
    pub fn push_open(&mut self, types: &[TypeDeclaration]) -> Result<(), NoMemory> {
        self.open = has_open(types);
        if has_connections(types) {
            self.push_channel_names(types)?;
        }
        Ok(())
    }

    /// Whether an entry may be for the parameter of a channel, by the last name of its key. The
    /// paths of channels are not looked at.
    fn may_be_of_channel(&self, name: &[u8]) -> bool {
        !self.channels.is_empty() && is_named(self.channels.as_str(), name)
    }

    /// The parameters that a pattern matches, where they are paths: whether the entry of that line
    /// is the first for one of them, of those of its section. It is noted for which it is.
    fn matched(&self, pattern: &Pattern, line: usize, taken: &mut [usize]) -> EntryUse<'_> {
        let mut standing = EntryUse::Nowhere;
        let mut number: usize = 0;
        for path in self.parameters.lines() {
            if pattern.matches(path) {
                standing = with_match(standing, path, first_for(taken, number, line));
            }
            number = number.saturating_add(1);
        }
        match standing {
            EntryUse::Nowhere => fixed_or_none(matching(self.fixed.as_str(), pattern)),
            it => it,
        }
    }

    /// What there is for an entry for parameters by the last name of its key.
    fn parameter_named(&self, name: &[u8]) -> EntryUse<'_> {
        if is_named(self.parameters.as_str(), name) {
            return EntryUse::Open;
        }
        fixed_or_none(named(self.fixed.as_str(), name))
    }

    /// What there is for the entry for parameters in that line, of that key and pattern. `taken`
    /// are the lines of the first entries of its section for each parameter, 0 where there is none
    /// yet.
    pub fn parameter_for(
        &self,
        key: &[u8],
        pattern: &Pattern,
        line: usize,
        taken: &mut [usize],
    ) -> EntryUse<'_> {
        let name = last_name(key);
        if !self.exact {
            return self.parameter_named(name);
        }
        let standing = self.matched(pattern, line, taken);
        if self.may_be_of_channel(name) {
            return EntryUse::Open;
        }
        standing
    }

    /// Whether an option is for a statistic with one of these endings after its name, by a key of
    /// that pattern.
    fn has_ending(
        &self,
        alloc: Global,
        pattern: &Pattern,
        option: &str,
        endings: &str,
    ) -> Result<bool, NoMemory> {
        for path in self.statistics.lines() {
            if is_for_statistic(alloc, pattern, path, option, endings)? {
                return Ok(true);
            }
        }
        Ok(false)
    }

    /// The statistics that get the option of an entry, where they are paths: whether the entry is
    /// the first for a name of one of them, of those of its section. It is noted for which it is.
    fn recorded(
        &self,
        alloc: Global,
        entry: OptionEntry<'_>,
        taken: &mut [usize],
    ) -> Result<EntryUse<'_>, NoMemory> {
        let mut standing = EntryUse::Nowhere;
        let mut number = names_before(entry.option);
        for path in self.statistics.lines() {
            standing = with_names(alloc, standing, path, entry, number, taken)?;
            number = number.saturating_add(NAMES);
        }
        Ok(standing)
    }

    /// Where an option is for the statistics, which are paths.
    fn exact_statistic(
        &self,
        alloc: Global,
        entry: OptionEntry<'_>,
        taken: &mut [usize],
    ) -> Result<Recorded<'_>, NoMemory> {
        match self.recorded(alloc, entry, taken)? {
            EntryUse::Open => return Ok(Recorded::There),
            EntryUse::Hidden(path, first) => return Ok(Recorded::Hidden(path, first)),
            _ => {}
        }
        if self.has_ending(alloc, entry.pattern, entry.option, ENDINGS)? {
            return Ok(Recorded::Misnamed);
        }
        Ok(Recorded::Nowhere)
    }

    /// Where an option is for a statistic, by the name that stands before it.
    fn named_statistic(&self, name: &[u8], option: &str) -> Recorded<'_> {
        let (statistic, ending) = split_mode(name);
        if !is_named(self.statistics.as_str(), statistic) {
            return Recorded::Nowhere;
        }
        if is_pattern(name) || is_ending(ending, endings_of(option)) {
            return Recorded::There;
        }
        Recorded::Misnamed
    }

    /// What there is for the option of an entry. `taken` are the lines of the first entries of its
    /// section for each name of each statistic, 0 where there is none yet.
    pub fn statistic_for(
        &self,
        alloc: Global,
        entry: OptionEntry<'_>,
        taken: &mut [usize],
    ) -> Result<Recorded<'_>, NoMemory> {
        if self.exact {
            return self.exact_statistic(alloc, entry, taken);
        }
        Ok(self.named_statistic(last_name(before_option(entry.key)), entry.option))
    }

    /// The path of the first parameter of that name.
    fn path_named(&self, name: &[u8]) -> Option<&str> {
        for path in self.parameters.lines() {
            if last_name(path.as_bytes()) == name {
                return Some(path);
            }
        }
        None
    }

    /// Says the path of the first parameter of that name; or, where there is none, the first whose
    /// name is near, as a question.
    pub fn say_near(&self, told: &mut Explanation, name: &[u8]) {
        if let Some(path) = self.path_named(name) {
            told.say("; one of that name is '");
            told.say_front(path.as_bytes());
            told.say("'");
            return;
        }
        for path in self.parameters.lines() {
            if told.say_if_near(name, last_name(path.as_bytes())) {
                return;
            }
        }
    }
}

/// Whether a pattern is for that ending of a statistic's name, and the option.
fn is_for_ending(
    alloc: Global,
    pattern: &Pattern,
    path: &str,
    ending: &str,
    option: &str,
) -> Result<bool, NoMemory> {
    let name = format!(in alloc; "{path}{ending}.{option}")?;
    Ok(pattern.matches(name.as_str()))
}

/// Whether a pattern is for a statistic with one of these endings after its name, and the option.
fn is_for_statistic(
    alloc: Global,
    pattern: &Pattern,
    path: &str,
    option: &str,
    endings: &str,
) -> Result<bool, NoMemory> {
    for ending in endings.split(' ') {
        if is_for_ending(alloc, pattern, path, ending, option)? {
            return Ok(true);
        }
    }
    Ok(false)
}

/// What there is for an entry, with one more statistic, the first of whose names for its option has
/// that number.
fn with_names<'a>(
    alloc: Global,
    before: EntryUse<'a>,
    path: &'a str,
    entry: OptionEntry<'_>,
    first_number: usize,
    taken: &mut [usize],
) -> Result<EntryUse<'a>, NoMemory> {
    let mut standing = before;
    let mut number = first_number;
    for ending in endings_of(entry.option).split(' ') {
        if is_for_ending(alloc, entry.pattern, path, ending, entry.option)? {
            standing = with_match(standing, path, first_for(taken, number, entry.line));
        }
        number = number.saturating_add(1);
    }
    Ok(standing)
}
