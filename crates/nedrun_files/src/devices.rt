//! The files that a run is written to.

ghost use Rattle.std.specs.Prelude.{◌≡◌, [], Some, None, IfErr, IfOk, OnOk, codes, string_bytes};
ghost use Rattle.std.specs.Io.Buffered.{writer_inner};
ghost use Rattle.std.specs.declared.io.Error.{Error as SystemError};
ghost use Rattle.sim_values.specs.Counts.{next_count};
ghost use Rattle.nedrun_exit.specs.Stops.{IsFailed};
ghost use Rattle.nedrun_files.specs.Devices.{taken_by, unwritten};
ghost use Rattle.nedrun_files.specs.Paths.{part_path};
ghost use Rattle.result_lines.specs.Taken.{untouched};
ghost use Rattle.nedrun_files.specs.Stops.{IsShortOf, IsUnwritable};

use nedrun_exit::stops::ExitReason;
use result_lines::writer::{Out, WriteFault};
use std::fs::File;
use std::io::{BufWriter, ErrorKind, Write};
use std::rt::Files;
use std::{fs, io};
use text_writer::noted::GhostBytes;

/// A file of the system that is made at the first write.
#[derive(Drop)]
struct LateFile<'a, R: Files> {
    rt: &'a R,
    path: String,
    file: Option<R::File>,
}

impl<R: Files> Write for LateFile<'_, R> {
    fn write(&mut self, buf: &[u8]) -> io::Result<usize> {
        if self.file.is_none() {
            self.file = Some(File::create(self.rt, self.path.as_str())?);
        }
        match &mut self.file {
            Some(file) => file.write(buf),
            None => Ok(0),
        }
    }

    fn flush(&mut self) -> io::Result<()> {
        Ok(())
    }
}

/// A file as a device. Bytes are gathered before they are written, in room that is there before the
/// first of them. They are written to another file beside it, which takes its place when all is
/// written: so a write that fails leaves the file that was there.
#[derive(Drop)]
pub struct FileOut<'a, R: Files> {
    rt: &'a R,
    path: String,
    /// The path of the file beside it.
    part: String,
    writer: BufWriter<LateFile<'a, R>>,
    content: GhostBytes,
    failures: u64,
    /// What failed last.
    fault: Option<io::Error>,
}

impl<'a, R: Files + AllocGlobal> FileOut<'a, R> {
    /// The file of that path. It is not made yet.
    pub fn new(rt: &'a R, path: String) -> Result<FileOut<'a, R>, ExitReason>
        ensures taken { IfOk result (λ out. taken_by out ≡ untouched) }
        ensures path { IfOk result (λ out. out.path ≡ path) }
        ensures part { IfOk result (λ out. string_bytes out.part ≡ part_path (string_bytes path)) }
        ensures file { IfOk result (λ out.
            string_bytes (writer_inner out.writer).path ≡ part_path (string_bytes path)) }
        ensures unmade { IfOk result (λ out. (writer_inner out.writer).file ≡ None) }
        // Only memory can be wanting: nothing is asked of the system yet.
        ensures failed { IfErr result (IsShortOf (string_bytes path)) }
    {
        let part = format!(in rt.alloc(); "{path}.part")?;
        let file = LateFile {
            rt,
            path: String::from_str(rt.alloc(), part.as_str())?,
            file: None,
        };
        match BufWriter::new(rt.alloc(), file) {
            Ok(writer) => Ok(FileOut {
                rt,
                path,
                part,
                writer,
                content: GhostBytes::new(),
                failures: 0,
                fault: None,
            }),
            Err(error) => Err(unwritable(rt, path.as_str(), error)),
        }
    }

    /// Writes what is gathered still. Where that succeeds, all that it took is written.
    pub fn finish(&mut self) -> Result<(), ExitReason>
        ensures written { OnOk result (unwritten self.new ≡ []) }
        ensures content { self.new.content.bytes ≡ self.old.content.bytes }
        ensures path { self.new.path ≡ self.old.path }
        ensures failed { IfErr result (λ stop. IsUnwritable (string_bytes self.old.path) stop) }
    {
        match self.writer.flush() {
            Ok(()) => Ok(()),
            Err(error) => Err(unwritable(self.rt, self.path.as_str(), error)),
        }
    }

    /// Sees to it that the file can take its place: no folder stands there.
    pub fn look(&self) -> Result<(), ExitReason>
        ensures { IfErr result (λ stop. IsUnwritable (string_bytes self.now.path) stop) }
    {
        match fs::metadata(self.rt, self.path.as_str()) {
            Ok(found) if found.is_dir() => {
                let fault = io::Error::from(ErrorKind::IsADirectory);
                Err(unwritable(self.rt, self.path.as_str(), fault))
            }
            _ => Ok(()),
        }
    }

    /// Puts the file, which is written whole, in the place of the one that was there.
    pub fn take_place(&self) -> Result<(), ExitReason>
        requires whole { unwritten self.now ≡ [] }
        ensures { IfErr result (λ stop. IsUnwritable (string_bytes self.now.path) stop) }
    {
        match fs::rename(self.rt, self.part.as_str(), self.path.as_str()) {
            Ok(()) => Ok(()),
            Err(error) => Err(unwritable(self.rt, self.path.as_str(), error)),
        }
    }

    /// Removes what was written of it and has not taken its place, where something was. What is
    /// gathered still is not written.
    pub fn discard(self) {
        let FileOut {
            rt,
            path: _,
            part,
            writer,
            content: _,
            failures: _,
            fault: _,
        } = self;
        let (file, _gathered) = writer.into_parts();
        if file.file.is_some() {
            let _removed = fs::remove_file(rt, part.as_str());
        }
    }

    /// What it took.
    pub fn content(&self) -> &GhostBytes
        ensures { result.now ≡ self.now.content }
    {
        &self.content
    }

    /// What ends the program where the last write failed.
    pub fn stop(&self) -> ExitReason
        ensures unwritable { IsUnwritable (string_bytes self.now.path) result }
        ensures fault { (error : SystemError) → self.now.fault ≡ Some error
            → IsFailed (codes "this file can't be written") (string_bytes self.now.path)
            error result }
    {
        let fault = self.fault.unwrap_or(io::Error::from(ErrorKind::WriteZero));
        unwritable(self.rt, self.path.as_str(), fault)
    }
}

/// What ends the program where the file of that path can't be written.
fn unwritable<R: AllocGlobal>(rt: &R, path: &str, error: io::Error) -> ExitReason
    ensures { IsFailed (codes "this file can't be written") path.now error result }
{
    ExitReason::failed(rt.alloc(), "this file can't be written", path, error)
}

impl<R: Files> FileOut<'_, R> {
    /// Keeps why a write failed.
    fn failed(&mut self, error: io::Error) -> WriteFault
        ensures content { self.new.content.bytes ≡ self.old.content.bytes }
        ensures failures { self.new.failures ≡ next_count self.old.failures }
        ensures fault { self.new.fault ≡ Some error }
        ensures path { self.new.path ≡ self.old.path }
    {
        self.failures = self.failures.wrapping_add(1);
        self.fault = Some(error);
        error.into()
    }
}

impl<R: Files> Out for FileOut<'_, R> {
    ghost taken = { taken_by };

    fn write(&mut self, bytes: &[u8]) -> Result<usize, WriteFault> {
        match self.writer.write(bytes) {
            Ok(count) if count > 0 || bytes.is_empty() => {
                self.content.note(&bytes[..count]);
                Ok(count)
            }
            Ok(_) => Err(self.failed(io::Error::from(ErrorKind::WriteZero))),
            Err(error) => Err(self.failed(error)),
        }
    }
}
