//! What the program is asked for.

ghost use Rattle.std.specs.Prelude.{◌≡◌, ◌≤◌, ◌++◌, IfErr, IfOk, OnOk, codes, map, option_and_then};
ghost use Rattle.std.specs.Prelude.{option_map, string_bytes};
ghost use Rattle.clap.specs.Matches.{first_value, found_of, matched_of, one_text};
ghost use Rattle.nedrun_exit.specs.Stops.{Fails};
ghost use Rattle.nedrun_options.specs.Words.{begins_with_ini, files_of, folder_of, ini_of};
ghost use Rattle.nedrun_options.specs.Words.{is_given, is_ned, texts_of, values_of, AreUnreadWords};
ghost use Rattle.nedrun_options.specs.Words.{IsGiven, IsIntervalOf, IsLimitOf};

use clap::error::ErrorKind;
use clap::parser::ValueSource;
use clap::{Arg, ArgAction, ArgMatches, Command, value_parser};
use nedrun_exit::stops::ExitReason;
use std::alloc::{AllocError, Global};
use std::env;
use std::rt::Env;

/// The version of the program.
const VERSION: &str = "0.1.0";

/// The user interfaces.
const INTERFACES: [&str; 1] = ["Cmdenv"];

/// What `--help` says at its end.
const MORE: &str = "Examples:
  nedrun -o results omnetpp.ini network.ned
  nedrun --config Fast --limit 1000 omnetpp.ini network.ned more.ned

After the run it reads commands from standard input, a line each, and answers each with a line, until its end or the line quit; < /dev/null gives it none.

Exit status: 0 at the end of standard input, whatever the answers were; 1 a file or a stream failed, memory ran out, or 1000000 lines were read; 2 the words or the texts are refused; 3 with --strict, the last run ended in a fault.
docs/REFUSALS.md says what each refusal and fault means, and what to change.";

/// What the program is asked for.
#[derive(Drop)]
pub struct Options {
    /// The name of the configuration.
    pub config: String,
    /// The run ends after so many events.
    pub limit: u64,
    /// Whether that limit was given, and is not the word's default.
    pub names_limit: bool,
    /// A run leaves a position after each multiple of so many events.
    pub interval: u64,
    /// Where the result files are written.
    pub directory: String,
    /// Whether a fault of the last run is told by the status.
    pub strict: bool,
    /// Whether it is reported how far a run is, where standard error is no terminal too.
    pub progress: bool,
    /// The path of the ini file.
    pub ini: String,
    /// The paths of the NED files that are named.
    pub texts: Vec<String>,
    /// Folders, with `:` or `;` between them, below which all NED files are taken besides.
    pub folders: Option<String>,
}

/// `-c CONFIG`.
fn config_word<'a>(alloc: Global) -> Arg<'a> {
    Arg::new(alloc, "config")
        .short('c')
        .long("config")
        .value_name("CONFIG")
        .default_value("General")
        .help("The configuration of the ini file that is run")
}

/// `-l LIMIT`.
fn limit_word<'a>(alloc: Global) -> Arg<'a> {
    Arg::new(alloc, "limit")
        .short('l')
        .long("limit")
        .value_name("LIMIT")
        .value_parser(value_parser!(u64))
        .default_value("1000000")
        .help("How many events are executed at most")
}

/// `-k INTERVAL`.
fn interval_word<'a>(alloc: Global) -> Arg<'a> {
    Arg::new(alloc, "interval")
        .short('k')
        .long("interval")
        .value_name("INTERVAL")
        .value_parser(value_parser!(u64).range(1..=1000000))
        .default_value("1000")
        .help(
            "After each multiple of how many events the state is stored, to which a run after an edit can go back: 1 to 1000000",
        )
}

/// `-o DIR`.
fn directory_word<'a>(alloc: Global) -> Arg<'a> {
    Arg::new(alloc, "directory")
        .short('o')
        .long("output")
        .value_name("DIR")
        .default_value(".")
        .help("Where the result files are written")
}

/// `--strict`.
fn strict_word<'a>(alloc: Global) -> Arg<'a> {
    Arg::new(alloc, "strict")
        .long("strict")
        .action(ArgAction::SetTrue)
        .help("The exit status is 3 if the last run ended in a fault")
}

/// `--progress`.
fn progress_word<'a>(alloc: Global) -> Arg<'a> {
    Arg::new(alloc, "progress")
        .long("progress")
        .action(ArgAction::SetTrue)
        .help("While a run goes on, a line every two seconds on standard error, as at a terminal")
}

/// `-f FILE`.
fn file_word<'a>(alloc: Global) -> Arg<'a> {
    Arg::new(alloc, "file").short('f').value_name("FILE").help(
        "The ini file, so that all files after the options are NED files; omnetpp.ini if only NED files are named",
    )
}

/// `-n DIR`.
fn folders_word<'a>(alloc: Global) -> Arg<'a> {
    Arg::new(alloc, "folders").short('n').value_name("DIR").help(
        "All NED files below this folder; several have ':' between them",
    )
}

/// `-u UI`.
fn interface_word<'a>(alloc: Global) -> Arg<'a> {
    Arg::new(alloc, "interface")
        .short('u')
        .value_name("UI")
        .value_parser(INTERFACES.as_slice())
        .help("The user interface, of which there is this one")
}

/// `-r RUN`.
fn run_word<'a>(alloc: Global) -> Arg<'a> {
    Arg::new(alloc, "run")
        .short('r')
        .value_name("RUN")
        .value_parser(value_parser!(u64).range(0..=0))
        .help("The number of the run, of which there is 0 alone")
}

/// `INI`.
fn ini_word<'a>(alloc: Global, is_wanted: bool) -> Arg<'a> {
    Arg::new(alloc, "ini")
        .value_name("INI")
        .required(is_wanted)
        .help("The ini file")
}

/// `NED..`.
fn ned_word<'a>(alloc: Global, is_wanted: bool) -> Arg<'a> {
    Arg::new(alloc, "ned")
        .value_name("NED")
        .required(is_wanted)
        .action(ArgAction::Append)
        .num_args(1..)
        .help("The NED files")
}

/// A command with the options: the configuration, the limit, the interval, the directory, whether
/// faults are told by the status, and whether it is reported how far a run is.
fn with_options<'a>(alloc: Global, command: Command<'a>) -> Result<Command<'a>, AllocError> {
    let command = command.arg(config_word(alloc))?;
    let command = command.arg(limit_word(alloc))?;
    let command = command.arg(interval_word(alloc))?;
    let command = command.arg(directory_word(alloc))?;
    let command = command.arg(strict_word(alloc))?;
    command.arg(progress_word(alloc))
}

/// A command with the words that the program has in common with OMNeT++'s own: an ini file,
/// folders, the user interface and the run.
fn with_common<'a>(alloc: Global, command: Command<'a>) -> Result<Command<'a>, AllocError> {
    let command = command.arg(file_word(alloc))?;
    let command = command.arg(folders_word(alloc))?;
    let command = command.arg(interface_word(alloc))?;
    command.arg(run_word(alloc))
}

/// A command with the files: the ini file, and the NED files. They are wanted, or may be left out.
fn with_files<'a>(
    alloc: Global,
    command: Command<'a>,
    are_wanted: bool,
) -> Result<Command<'a>, AllocError> {
    let command = command.arg(ini_word(alloc, are_wanted))?;
    command.arg(ned_word(alloc, are_wanted))
}

/// The words that the program takes, among which both kinds of files are wanted or not.
fn command<'a>(alloc: Global, wants_files: bool) -> Result<Command<'a>, AllocError> {
    let command = Command::new(alloc, "nedrun");
    let command = command.about("Runs a network of modules and writes its result files");
    let command = command.version(VERSION).after_help(MORE);
    let command = with_options(alloc, command)?;
    let command = with_common(alloc, command)?;
    with_files(alloc, command, wants_files)
}

/// The limit that was given.
fn given_limit(matches: &ArgMatches<'_>) -> u64
    ensures { IsLimitOf (one_text (found_of matches.now) (codes "limit")) result }
{
    matches.get_one::<u64>("limit").unwrap_or(1000000)
}

/// Whether the word of that name was given.
fn names(matches: &ArgMatches<'_>, name: &str) -> bool
    ensures { result ≡ is_given (option_and_then (λ a. a.source)
        (matched_of (found_of matches.now) name.now)) }
{
    match matches.value_source(name) {
        Some(ValueSource::CommandLine) => true,
        Some(ValueSource::DefaultValue) | None => false,
    }
}

/// The interval that was given: `clap` takes none below 1.
fn given_interval(matches: &ArgMatches<'_>) -> u64
    ensures given { IsIntervalOf (one_text (found_of matches.now) (codes "interval")) result }
    ensures positive { 1 ≤ result }
{
    match matches.get_one::<u64>("interval") {
        Some(interval) if interval >= 1 => interval,
        _ => 1000,
    }
}

/// The folder of that name: an empty one is the folder that the program runs in.
fn folder(name: &str) -> &str
    ensures { result.now ≡ folder_of name.now }
{
    if name.is_empty() { "." } else { name }
}

/// Whether that is the name of a NED file.
fn is_ned(name: &str) -> bool
    ensures { result ≡ is_ned name.now }
{
    name.as_bytes().ends_with(b".ned")
}

/// Adds texts of their own after others, in the same order.
fn add_copies(alloc: Global, copies: &mut Vec<String>, texts: &[&str]) -> Result<(), AllocError>
    ensures { OnOk result (map string_bytes copies.new.items
        ≡ map string_bytes copies.old.items ++ map (λ text. text.now) texts.now) }
{
    for text in texts {
        copies.push(String::from_str(alloc, text)?)?;
    }
    Ok(())
}

/// Adds what was found of the word of that name after other texts.
fn add_found(
    alloc: Global,
    copies: &mut Vec<String>,
    matches: &ArgMatches<'_>,
    name: &str,
) -> Result<(), AllocError>
    ensures { OnOk result (map string_bytes copies.new.items
        ≡ map string_bytes copies.old.items ++ values_of (found_of matches.now) name.now) }
{
    match matches.get_strs(name) {
        Some(texts) => add_copies(alloc, copies, texts),
        None => Ok(()),
    }
}

/// The paths of files that were given after the options.
fn given_files(alloc: Global, matches: &ArgMatches<'_>) -> Result<Vec<String>, AllocError>
    ensures { IfOk result
        (λ files. map string_bytes files.items ≡ files_of (found_of matches.now)) }
{
    let mut files = Vec::new(alloc);
    add_found(alloc, &mut files, matches, "ini")?;
    add_found(alloc, &mut files, matches, "ned")?;
    Ok(files)
}

/// Whether the first of these files is an ini file.
fn begins_with_ini(files: &[String]) -> bool
    ensures { result ≡ begins_with_ini (map string_bytes files.now) }
{
    match files.first() {
        Some(first) => !is_ned(first.as_str()),
        None => false,
    }
}

/// Takes the path of the ini file out of the files, where it is among them: the one that the word
/// for it names goes before that.
fn take_ini(
    alloc: Global,
    files: &mut Vec<String>,
    named: Option<&str>,
) -> Result<String, AllocError>
    ensures ini { IfOk result (λ ini. string_bytes ini
        ≡ ini_of (option_map (λ s. s.now) named.entry) (map string_bytes files.old.items)) }
    ensures texts { OnOk result (map string_bytes files.new.items
        ≡ texts_of (option_map (λ s. s.now) named.entry) (map string_bytes files.old.items)) }
{
    match named {
        Some(path) => String::from_str(alloc, path),
        None if begins_with_ini(files.as_slice()) => Ok(files.remove(0)),
        None => String::from_str(alloc, "omnetpp.ini"),
    }
}

/// The folders that were given.
fn given_folders(alloc: Global, matches: &ArgMatches<'_>) -> Result<Option<String>, AllocError>
    ensures { IfOk result (λ folders. option_map string_bytes folders
        ≡ first_value (found_of matches.now) (codes "folders")) }
{
    match matches.get_str("folders") {
        Some(folders) => Ok(Some(String::from_str(alloc, folders)?)),
        None => Ok(None),
    }
}

/// Whether words that lack an ini file or NED files name enough: a folder of NED files, or NED
/// files alone.
fn names_enough(matches: &ArgMatches<'_>) -> bool {
    if matches.contains_id("folders") {
        return true;
    }
    match matches.get_str("ini") {
        Some(first) => matches.contains_id("file") || is_ned(first),
        None => false,
    }
}

/// What `clap` makes of words that lack an ini file or NED files, which it refused with that error.
fn parsed_without<'a>(
    alloc: Global,
    given: &'a [String],
    error: clap::Error,
) -> Result<ArgMatches<'a>, clap::Error> {
    let matches = command(alloc, false)?.try_get_matches_from(given)?;
    if names_enough(&matches) {
        Ok(matches)
    } else {
        Err(error)
    }
}

/// What `clap` makes of the words.
fn parsed<'a>(alloc: Global, given: &'a [String]) -> Result<ArgMatches<'a>, clap::Error> {
    match command(alloc, true)?.try_get_matches_from(given) {
        Ok(matches) => Ok(matches),
        Err(error) if error.kind() == ErrorKind::MissingRequiredArgument => {
            parsed_without(alloc, given, error)
        }
        Err(error) => Err(error),
    }
}

/// The words that the program was started with.
fn given_words<R: Env + AllocGlobal>(rt: &R) -> Result<Vec<String>, ExitReason>
    ensures { IfErr result (λ stop.
        Fails (codes "the words can't be read") (codes "command line") stop) }
{
    match env::args(rt) {
        Ok(words) => Ok(words.collect(rt.alloc())?),
        Err(error) => Err(ExitReason::failed(
            rt.alloc(),
            "the words can't be read",
            "command line",
            error,
        )),
    }
}

impl Options {
    /// What the words say that were given: what `clap` found of each, by its name, or else the
    /// word's default. Fails where memory runs out.
    pub fn given(alloc: Global, matches: &ArgMatches<'_>) -> Result<Options, AllocError>
        ensures given { IfOk result (λ words. IsGiven (found_of matches.now) words) }
        ensures interval { IfOk result (λ words. 1 ≤ words.interval) }
    {
        let mut files = given_files(alloc, matches)?;
        let ini = take_ini(alloc, &mut files, matches.get_str("file"))?;
        Ok(Options {
            config: String::from_str(alloc, matches.get_str("config").unwrap_or("General"))?,
            limit: given_limit(matches),
            names_limit: names(matches, "limit"),
            interval: given_interval(matches),
            directory: String::from_str(
                alloc,
                folder(matches.get_str("directory").unwrap_or(".")),
            )?,
            strict: names(matches, "strict"),
            progress: names(matches, "progress"),
            ini,
            texts: files,
            folders: given_folders(alloc, matches)?,
        })
    }

    /// The program's own words. Fails where they can't be had, where `clap` refuses them or they
    /// ask for help, or where memory runs out.
    pub fn read<R: Env + AllocGlobal>(rt: &R) -> Result<Options, ExitReason>
        ensures interval { IfOk result (λ words. 1 ≤ words.interval) }
        ensures failed { IfErr result AreUnreadWords }
    {
        let alloc = rt.alloc();
        let given = given_words(rt)?;
        let matches = parsed(alloc, given.as_slice())?;
        Ok(Options::given(alloc, &matches)?)
    }
}
