//! The result files of a run.

ghost use Rattle.std.specs.Prelude.{◌≡◌, ◌<◌, ◌^◌, IfOk, length};
ghost use Rattle.result_lines.specs.Written.{answer_of, IsWritten};
ghost use Rattle.result_lines.specs.ScalarText.{scalar_text};
ghost use Rattle.result_lines.specs.VectorText.{vector_text};
ghost use Rattle.result_files.specs.Files.{files_of};

use model_answers::evaluated::EvaluatedModel;
use model_answers::plain::PlainAnswers;
use model_questions::record::Record;
use recorders::run_results::results;
use recorders::scalar_line::ScalarLine;
use recorders::vector_line::VectorLine;
use result_lines::header::header;
use result_lines::lines::{put_data_lines, put_scalar_lines, put_vector_lines};
use result_lines::progress::{WriteProgress, put};
use result_lines::writer::{Device, Out};
use run_semantics::traces::{Emission, Scalar};
use sim_values::NoMemory;
use sim_values::text::Text;
use sqlite_items::Items;
use std::alloc::Global;

/// What is known of a run's result files before they are written.
pub struct ResultFiles {
    /// All lines of both files up to the first empty one, which ends it.
    pub header: Text,
    /// The lines of the scalar file after the header.
    pub scalars: Items<ScalarLine>,
    /// The vectors; their numbers count up from 0.
    pub vectors: Items<VectorLine>,
}

// Written out, so that a crate which drops one need not prove what that does.
impl Drop for ResultFiles {
    fn drop(self) {
        let ResultFiles {
            header: _,
            scalars: _,
            vectors: _,
        } = self;
    }
}

/// Gathers what the result files need, so that they are written without memory: of a run with the
/// modules of these records, of which those with these ids were finished, with the scalars that
/// they recorded, and with these emissions.
pub fn prepare(
    alloc: Global,
    model: &EvaluatedModel,
    records: &[Record],
    finished: &[u32],
    recorded: &[Scalar],
    emissions: &[Emission],
) -> Result<ResultFiles, NoMemory>
    requires few { length records.now < 2 ^ 32 }
    ensures { IfOk result (λ files. files
        ≡ files_of model.now records.now finished.now recorded.now emissions.now) }
{
    let answers = PlainAnswers::new(model);
    let header = header(alloc, model.model())?;
    let (scalars, vectors) = results(alloc, &answers, records, finished, recorded, emissions)?;
    Ok(ResultFiles {
        header,
        scalars,
        vectors,
    })
}

/// What a call answers that has written a text so far.
fn answer_of(progress: WriteProgress) -> Result<(), Device>
    ensures { result ≡ answer_of progress }
{
    match progress {
        WriteProgress::Whole(_) => Ok(()),
        WriteProgress::Short(written) => Err(Device { written }),
    }
}

/// Writes the scalar file of a run, which takes no memory. Where the device fails or takes nothing,
/// no more is written, and the error tells how many bytes of the text it took. See OMNeT++
/// Simulation Manual, "Native Result Files".
pub fn write_scalars<O: Out>(out: &mut O, files: &ResultFiles) -> Result<(), Device>
    ensures { IsWritten (O.taken out.old) (O.taken out.new)
        (scalar_text files.now.header files.now.scalars) result }
{
    let progress = put(out, WriteProgress::Whole(0), files.header.as_bytes());
    let progress = put_scalar_lines(out, progress, files.scalars.as_slice());
    answer_of(progress)
}

/// Writes the vector file of a run with the modules of these records and these emissions, which
/// takes no memory. Where the device fails or takes nothing, no more is written, and the error
/// tells how many bytes of the text it took.
/// See OMNeT++ Simulation Manual, "Native Result Files".
pub fn write_vectors<O: Out>(
    out: &mut O,
    files: &ResultFiles,
    records: &[Record],
    emissions: &[Emission],
) -> Result<(), Device>
    ensures { IsWritten (O.taken out.old) (O.taken out.new)
        (vector_text files.now.header files.now.vectors records.now emissions.now) result }
{
    let vectors = files.vectors.as_slice();
    let progress = put(out, WriteProgress::Whole(0), files.header.as_bytes());
    let progress = put_vector_lines(out, progress, vectors);
    let progress = put_data_lines(out, progress, records, vectors, emissions);
    answer_of(progress)
}
