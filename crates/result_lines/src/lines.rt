//! The lines of result files.

ghost use Rattle.std.specs.Prelude.{◌≡◌, ◌+◌, ◌*◌, ◌^◌, ◌≤◌, ◌<◌, IsTrue};
ghost use Rattle.result_lines.specs.Rising.{AreByModule};
ghost use Rattle.result_lines.specs.Written.{Adds, written_in};
ghost use Rattle.result_lines.specs.ScalarText.{scalar_line, scalar_lines};
ghost use Rattle.result_lines.specs.VectorText.{vector_line, vector_lines, data_line, heard_line};
ghost use Rattle.result_lines.specs.VectorText.{heard_lines, data_lines};

use crate::line_bytes::{MAX_LINE, data_line_start};
use crate::next_vector::{are_by_module, next_place};
use crate::progress::{WriteProgress, put, put_field, put_number, put_wide};
use crate::writer::Out;
use model_questions::record::Record;
use recorders::hearing::hears;
use recorders::scalar_line::ScalarLine;
use recorders::vector_line::VectorLine;
use run_semantics::traces::Emission;

/// Writes the line of a scalar.
fn put_scalar_line<O: Out>(
    out: &mut O,
    progress: WriteProgress,
    scalar: &ScalarLine,
) -> WriteProgress
    requires { written_in progress < 2 ^ 125 }
    ensures adds { Adds progress (O.taken out.old) result (O.taken out.new)
        (scalar_line scalar.now) }
    ensures short { written_in result ≤ written_in progress + 2 ^ 65 }
{
    let progress = put(out, progress, b"scalar ");
    let progress = put_field(out, progress, scalar.path.as_bytes(), b' ');
    let progress = put_field(out, progress, scalar.name.as_bytes(), b' ');
    put_wide(out, progress, scalar.value, b'\n')
}

/// Writes the lines of scalars, in their order.
pub fn put_scalar_lines<O: Out>(
    out: &mut O,
    progress: WriteProgress,
    scalars: &[ScalarLine],
) -> WriteProgress
    requires { written_in progress < 2 ^ 65 }
    ensures { Adds progress (O.taken out.old) result (O.taken out.new) (scalar_lines scalars.now) }
{
    let mut progress = progress;
    for scalar in scalars {
        progress = put_scalar_line(out, progress, scalar);
    }
    progress
}

/// Writes the line that declares a vector of that number.
fn put_vector_line<O: Out>(
    out: &mut O,
    progress: WriteProgress,
    number: u64,
    vector: &VectorLine,
) -> WriteProgress
    requires { written_in progress < 2 ^ 125 }
    ensures adds { Adds progress (O.taken out.old) result (O.taken out.new)
        (vector_line number vector.now) }
    ensures short { written_in result ≤ written_in progress + 2 ^ 65 }
{
    let progress = put(out, progress, b"vector ");
    let progress = put_number(out, progress, number, b' ');
    let progress = put_field(out, progress, vector.path.as_bytes(), b' ');
    let progress = put_field(out, progress, vector.statistic.as_bytes(), b':');
    put(out, progress, b"vector ETV\n")
}

/// Writes the lines that declare the vectors, numbered from 0.
pub fn put_vector_lines<O: Out>(
    out: &mut O,
    progress: WriteProgress,
    vectors: &[VectorLine],
) -> WriteProgress
    requires { written_in progress < 2 ^ 65 }
    ensures adds { Adds progress (O.taken out.old) result (O.taken out.new)
        (vector_lines 0 vectors.now) }
    ensures short { written_in result ≤ written_in progress + 2 ^ 122 }
{
    let mut progress = progress;
    for (number, vector) in vectors.iter().enumerate() {
        progress = put_vector_line(out, progress, number as u64, vector);
    }
    progress
}

/// Writes the line of a value in the vector of that number. It is put together in place, and given
/// to the device at once.
fn put_data_line<O: Out>(
    out: &mut O,
    progress: WriteProgress,
    number: u64,
    emission: &Emission,
) -> WriteProgress
    requires { written_in progress < 2 ^ 125 }
    ensures adds { Adds progress (O.taken out.old) result (O.taken out.new)
        (data_line number emission.now) }
    ensures short { written_in result ≤ written_in progress + 256 }
{
    let mut line = [0; MAX_LINE];
    let start = data_line_start(&mut line, number, emission);
    put(out, progress, &line[start..])
}

/// Writes the line of a value in the vector of that number, where it hears it.
fn put_heard_line<O: Out>(
    out: &mut O,
    progress: WriteProgress,
    records: &[Record],
    emission: &Emission,
    number: u64,
    vector: &VectorLine,
) -> WriteProgress
    requires { written_in progress < 2 ^ 125 }
    ensures adds { Adds progress (O.taken out.old) result (O.taken out.new)
        (heard_line records.now emission.now number vector.now) }
    ensures short { written_in result ≤ written_in progress + 256 }
{
    if hears(records, vector, emission) {
        put_data_line(out, progress, number, emission)
    } else {
        progress
    }
}

/// Writes the lines of a value, one for each vector that hears it, which is looked for among all
/// vectors.
fn put_heard_lines<O: Out>(
    out: &mut O,
    progress: WriteProgress,
    records: &[Record],
    emission: &Emission,
    vectors: &[VectorLine],
) -> WriteProgress
    requires { written_in progress < 2 ^ 124 }
    ensures adds { Adds progress (O.taken out.old) result (O.taken out.new)
        (heard_lines records.now emission.now 0 vectors.now) }
    ensures short { written_in result ≤ written_in progress + 2 ^ 65 }
{
    let mut progress = progress;
    for (number, vector) in vectors.iter().enumerate() {
        progress = put_heard_line(out, progress, records, emission, number as u64, vector);
    }
    progress
}

/// Writes the lines of a value, one for each vector that hears it, where the vectors stand by
/// rising id of the module: those of modules that aren't around the emitter are passed over.
fn put_lines_around<O: Out>(
    out: &mut O,
    progress: WriteProgress,
    records: &[Record],
    emission: &Emission,
    vectors: &[VectorLine],
) -> WriteProgress
    requires rising { AreByModule vectors.now }
    requires few { written_in progress < 2 ^ 124 }
    ensures adds { Adds progress (O.taken out.old) result (O.taken out.new)
        (heard_lines records.now emission.now 0 vectors.now) }
    ensures short { written_in result ≤ written_in progress + 2 ^ 65 }
{
    let mut progress = progress;
    let mut number = 0;
    while number < vectors.len() {
        let place = next_place(records, vectors, emission.id, number);
        if place == vectors.len() {
            return progress;
        }
        let vector = &vectors[place];
        progress = put_heard_line(out, progress, records, emission, place as u64, vector);
        number = place + 1;
    }
    progress
}

/// Writes the lines of a value, one for each vector that hears it.
fn put_value<O: Out>(
    out: &mut O,
    progress: WriteProgress,
    records: &[Record],
    emission: &Emission,
    vectors: &[VectorLine],
    by_module: bool,
) -> WriteProgress
    requires rising { IsTrue by_module → AreByModule vectors.now }
    requires few { written_in progress < 2 ^ 124 }
    ensures adds { Adds progress (O.taken out.old) result (O.taken out.new)
        (heard_lines records.now emission.now 0 vectors.now) }
    ensures short { written_in result ≤ written_in progress + 2 ^ 65 }
{
    if by_module {
        put_lines_around(out, progress, records, emission, vectors)
    } else {
        put_heard_lines(out, progress, records, emission, vectors)
    }
}

/// Writes the lines of all values, in the order of their emission. Where the vectors stand by
/// rising id of the module, which is tested once, the time is in proportion to the emissions and
/// not to emissions times vectors.
pub fn put_data_lines<O: Out>(
    out: &mut O,
    progress: WriteProgress,
    records: &[Record],
    vectors: &[VectorLine],
    emissions: &[Emission],
) -> WriteProgress
    requires { written_in progress < 2 ^ 123 }
    ensures { Adds progress (O.taken out.old) result (O.taken out.new)
        (data_lines records.now vectors.now emissions.now) }
{
    let by_module = are_by_module(vectors);
    let mut progress = progress;
    for emission in emissions {
        progress = put_value(out, progress, records, emission, vectors, by_module);
    }
    progress
}
