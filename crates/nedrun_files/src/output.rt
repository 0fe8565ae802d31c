//! What the program prints and writes.

ghost use Rattle.std.specs.Prelude.{◌≡◌, IfErr, IfOk, codes, string_bytes};
ghost use Rattle.nedrun_exit.specs.Stops.{Fails, IsFailed};
ghost use Rattle.nedrun_files.specs.Paths.{file_path};
ghost use Rattle.nedrun_files.specs.Stops.{IsUnadvised, IsUnsaid};

use explain_types::names::shown;
use nedrun_exit::stops::ExitReason;
use std::alloc::{AllocError, Global};
use std::io::{ErrorKind, Write};
use std::rt::Files;
use std::{fs, io};

/// Prints a line of bytes on standard output.
fn print<R: Print>(rt: &R, line: &[u8]) -> io::Result<()> {
    let mut out = io::writer(rt);
    out.write_all(line)?;
    out.write_all(b"\n".as_slice())
}

/// What ends the program where an answer can't be printed.
fn unsaid<R: AllocGlobal>(rt: &R, error: io::Error) -> ExitReason
    ensures { IsFailed (codes "the answer can't be printed") (codes "standard output")
        error result }
{
    ExitReason::failed(
        rt.alloc(),
        "the answer can't be printed",
        "standard output",
        error,
    )
}

/// What ends the program where an answer wasn't printed, and no more is known.
pub fn unprinted<R: AllocGlobal>(rt: &R) -> ExitReason
    ensures { IsUnsaid result }
{
    unsaid(rt, io::Error::from(ErrorKind::WriteZero))
}

/// Prints a line on standard output, or says that it failed.
pub fn say<R: Print + AllocGlobal>(rt: &R, line: &[u8]) -> Result<(), ExitReason>
    ensures { IfErr result IsUnsaid }
{
    match print(rt, line) {
        Ok(()) => Ok(()),
        Err(error) => Err(unsaid(rt, error)),
    }
}

/// Prints diagnostics on standard error, where there are any.
pub fn advise<R: Eprint + AllocGlobal>(rt: &R, lines: &str) -> Result<(), ExitReason>
    ensures { IfErr result IsUnadvised }
{
    if lines.is_empty() {
        return Ok(());
    }
    match eprintln!(rt; "{}", lines.trim_ascii_end()) {
        Ok(()) => Ok(()),
        Err(error) => Err(ExitReason::failed(
            rt.alloc(),
            "a warning can't be printed",
            "standard error",
            error,
        )),
    }
}

/// Makes the folder of the result files, where it is not there.
pub fn make_folder<R: Files + AllocGlobal>(rt: &R, directory: &str) -> Result<(), ExitReason>
    ensures { IfErr result (λ stop. Fails (codes "this folder can't be made") directory.now stop) }
{
    match fs::create_dir_all(rt, directory) {
        Ok(()) => Ok(()),
        Err(error) => Err(ExitReason::failed(
            rt.alloc(),
            "this folder can't be made",
            directory,
            error,
        )),
    }
}

/// The path of a file of a run, by the last part of its name: it is named by the configuration, in
/// the folder.
pub fn file_path(
    alloc: Global,
    directory: &str,
    config: &[u8],
    ending: &str,
) -> Result<String, AllocError>
    ensures { IfOk result (λ path.
        string_bytes path ≡ file_path directory.now config.now ending.now) }
{
    let config = shown(config);
    format!(in alloc; "{directory}/{config}-#0.{ending}")
}
