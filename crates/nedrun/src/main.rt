//! Runs a network of modules from its files, and writes the result files of the run.
#![tactic(auto)]

ghost use Rattle.std.specs.Prelude.{◌≡◌, ◌≢◌, ◌≤◌, ◌⊎◌, ◌&&◌, [], Some, Err, IsErrAnd, IsSomeAnd};
ghost use Rattle.std.specs.Prelude.{IfErr, IfOk, OnOk, string_bytes};
ghost use Rattle.model_data.specs.declared.model.Model.{Model};
ghost use Rattle.model_reading.specs.Models.{IsModelOf, IsRuledOut, Refuses};
ghost use Rattle.module_network.specs.Library.{library};
ghost use Rattle.desk_server.specs.Served.{fresh_machine};
ghost use Rattle.desk_server.specs.Serving.{Ends};
ghost use Rattle.desk_client.specs.Stops.{at_stop};
ghost use Rattle.desk_client.specs.declared.clients.ServeEnd.TheVariants as why;
ghost use Rattle.nedrun.specs.Stops.{EndsEarly, IsStopOf, end_of};
ghost use Rattle.nedrun_client.specs.Stops.{IsLost, IsReason};
ghost use Rattle.nedrun_script.specs.Typing.{AsksInOrder};
ghost use Rattle.nedrun_script.specs.Faults.{ends_in_fault};
ghost use Rattle.nedrun_script.specs.declared.dialogue.Ask.TheVariants as ask;
ghost use Rattle.nedrun_exit.specs.declared.stops.ExitReason.{ExitReason};

mod observed;
mod refusals;

use desk_client::clients;
use desk_server::serving::serve;
use explain_types::sources::Sources;
use model_reading::begin::BeginFault;
use nedrun_client::user::User;
use nedrun_exit::stops::ExitReason;
use nedrun_files::progress::Progress;
use nedrun_files::{endings, files, folders};
use nedrun_options::other_words::instead_of_words;
use nedrun_options::words::Options;
use observed::Reporter;
use std::io::IsTerminal;
use std::process::ExitCode;
use std::rt::{Clock, Env, Files};

/// Serves the user at a desk of the model that the files make, until the user asks nothing more or
/// can't go on. It is reported how far runs are, or not.
fn serve_user<'a, R: Files + Input + Print + Eprint + Clock + AllocGlobal>(
    rt: &'a R,
    words: &'a Options,
    sources: &'a Sources<'a>,
    at_terminal: bool,
    reports_progress: bool,
) -> Result<(User<'a, R>, clients::ServeEnd), BeginFault>
    requires interval { 1 ≤ words.now.interval }
    // What the user hears is what the plain machine says to what the user asks.
    ensures served { IfOk result (λ r. (model : Model)
        × IsModelOf sources.now.texts.now sources.now.ini.now (string_bytes words.now.config) model
        × Ends library (fresh_machine model words.now.interval) r.0.dialogue.transcript.asked
        r.0.dialogue.transcript.heard r.1) }
    // What is asked: the run of the words, then to write its files, then the lines of standard
    // input;
    ensures asked { IfOk result (λ r. AsksInOrder words.now.limit r.0.dialogue.at_terminal
        r.0.dialogue.ask r.0.dialogue.transcript.asked
        r.0.dialogue.lines.source.given.bytes r.0.dialogue.lines.buffer) }
    // and nothing that it gave is left unasked up to `quit`, unless the user can't go on, or a
    // device fails, and knows why.
    ensures stopped { IfOk result (λ r. at_stop (((r.0.dialogue.ask ≡ ask.Line)
        × (r.0.dialogue.lines.buffer.bytes ≡ [])) ⊎ (r.0.dialogue.ask ≡ ask.Nothing))
        (IsSomeAnd r.0.stop (IsReason r.0.dialogue.lines.buffer))
        (λ _ _. IsSomeAnd r.0.stop IsLost) r.1) }
    // The user knows whether the last run ended in a fault.
    ensures fault { IfOk result
        (λ r. r.0.dialogue.has_fault ≡ ends_in_fault r.0.dialogue.transcript.heard) }
    // It is refused only where the texts are, and for that reason.
    ensures refused { IfErr result (λ fault.
        Refuses sources.now.texts.now sources.now.ini.now (string_bytes words.now.config) fault) }
    // Where the texts make a model the user is served, unless memory runs out.
    ensures complete { IfErr result (λ fault. IsRuledOut sources.now.texts.now
        sources.now.ini.now (string_bytes words.now.config) fault) }
{
    let user = User::new(rt, words, sources, at_terminal);
    let mut reporter = Reporter {
        progress: Progress::new(rt, reports_progress),
    };
    serve(
        rt.alloc(),
        sources.texts,
        sources.ini,
        words.config.as_bytes(),
        words.interval,
        user,
        &mut reporter,
    )
}

/// What becomes of a session at its end, where a fault of its last run is told or not.
fn at_end(tells_fault: bool) -> Result<(), ExitReason>
    ensures { result ≡ end_of tells_fault }
{
    if tells_fault {
        Err(ExitReason::Fault)
    } else {
        Ok(())
    }
}

/// Why the program ends early, where it does, after a user who was served so.
fn ended<R: Files + Input + Print + Eprint + AllocGlobal>(
    rt: &R,
    words: &Options,
    sources: &Sources<'_>,
    served: Result<(User<'_, R>, clients::ServeEnd), BeginFault>,
) -> Result<(), ExitReason>
    ensures over { IfOk served.entry (λ r. r.1 ≡ why.End
        → result ≡ end_of (words.now.strict && r.0.dialogue.has_fault)) }
    ensures stuck { IfOk served.entry (λ r. r.1 ≢ why.End
        → (stop : ExitReason) → r.0.stop ≡ Some stop → result ≡ Err stop) }
    ensures refused { IfErr served.entry (λ fault. IsErrAnd result (IsStopOf fault)) }
{
    match served {
        Ok((user, clients::ServeEnd::End)) => at_end(words.strict && user.dialogue.has_fault),
        Ok((user, _)) => Err(user.into_stop()),
        Err(fault) => Err(refusals::refused(rt.alloc(), fault, sources)),
    }
}

/// Serves the user, and tells why it ended early where it did.
fn session<R: Files + Input + Print + Eprint + Clock + AllocGlobal>(
    rt: &R,
    words: &Options,
    sources: &Sources<'_>,
    at_terminal: bool,
    reports_progress: bool,
) -> Result<(), ExitReason>
    requires interval { 1 ≤ words.now.interval }
    ensures served { OnOk result ((model : Model)
        × IsModelOf sources.now.texts.now sources.now.ini.now
        (string_bytes words.now.config) model) }
    ensures early { IfErr result (EndsEarly
        sources.now.texts.now sources.now.ini.now (string_bytes words.now.config)
        words.now.strict) }
{
    let served = serve_user(rt, words, sources, at_terminal, reports_progress);
    ended(rt, words, sources, served)
}

/// Does what the words ask for, with standard input at a terminal or not, and standard error.
fn work<R: Files + Env + Input + Print + Eprint + Clock + AllocGlobal + Clone + Drop>(
    rt: &R,
    at_terminal: bool,
    tells_terminal: bool,
) -> Result<(), ExitReason> {
    let mut words = Options::read(rt)?;
    if let Some(folders) = words.folders.take() {
        folders::add_ned_paths(rt, folders.as_str(), &mut words.texts)?;
    }
    let ini = files::read_text(rt, words.ini.as_str())?;
    let texts = files::read_texts(rt, words.texts.as_slice())?;
    let sources = Sources {
        ini_path: words.ini.as_str(),
        ini: ini.as_slice(),
        ned_paths: words.texts.as_slice(),
        texts: &texts,
        config: words.config.as_str(),
        has_other_connections: false,
    };
    let reports_progress = words.progress || tells_terminal;
    session(rt, &words, &sources, at_terminal, reports_progress)
}

/// How a word of OMNeT++'s own is called that the words were refused for, and what serves instead.
fn instead<R: Env + AllocGlobal>(
    rt: &R,
    ended: &Result<(), ExitReason>,
) -> Option<(&'static str, &'static str)> {
    match ended {
        Err(ExitReason::Words(error)) => instead_of_words(rt, error),
        _ => None,
    }
}

fn main(rt: HostRuntime) -> ExitCode {
    let at_terminal = rt.stdin().is_terminal();
    let tells_terminal = rt.stderr().is_terminal();
    let ended = work(&rt, at_terminal, tells_terminal);
    let instead = instead(&rt, &ended);
    let status = endings::status(&rt, ended);
    if let Some((word, other)) = instead {
        let _said = eprintln!(rt; "{word} is OMNeT++'s own, and not of this program: {other}");
    }
    status
}
