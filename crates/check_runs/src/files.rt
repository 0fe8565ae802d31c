//! Result files: their header, and devices that fail.

use ini_trees::entry::EntryMeaning;
use ini_trees::lines::{IniEntry, IniLine, LineMeaning};
use recorders::scalar_line::ScalarLine;
use recorders::vector_line::VectorLine;
use result_files::files::{ResultFiles, write_scalars, write_vectors};
use result_lines::header::header_text;
use result_lines::writer::{Device, Out, WriteFault};
use run_semantics::signals::SignalName;
use run_semantics::traces::Emission;
use sim_time::SimTime;
use sim_values::NoMemory;
use sim_values::text::Text;
use sqlite_items::Items;
use std::alloc::{AllocError, Global};
use std::process::Abort;
use std::test::Fail;

/// A device with room for so many bytes, which takes at most so many in a call.
#[derive(Drop)]
struct Shelf {
    taken: Vec<u8>,
    room: usize,
    step: usize,
    failures: u64,
}

impl Out for Shelf {
    ghost taken = { λ shelf. record { bytes = shelf.taken.items; failures = shelf.failures } };

    fn write(&mut self, bytes: &[u8]) -> Result<usize, WriteFault> {
        let count = bytes.len().min(self.step).min(self.room);
        if count == 0 || self.taken.extend_from_slice(&bytes[..count]).is_err() {
            self.failures = self.failures.wrapping_add(1);
            return Err(AllocError.into());
        }
        self.room -= count;
        Ok(count)
    }
}

/// A line `KEY = VALUE`.
fn option_line(alloc: Global, key: &str, value: &str) -> Result<IniLine, AllocError> {
    let key = Text::from_str(alloc, key)?;
    let value = Text::from_str(alloc, value)?;
    let meaning = EntryMeaning::Network(Text::empty(alloc));
    let meaning = LineMeaning::Entry(IniEntry {
        key,
        value,
        meaning,
    });
    let text = Text::empty(alloc);
    Ok(IniLine { text, meaning })
}

/// The files, with a number of 65 bits in the first.
const TEXTS: [&str; 2] = [
    "version 3\n\nscalar N.t fired:sum -18446744073709551616\n",
    "version 3\n\nvector 0 N.t fired:vector ETV\n0\t2\t0.0005\t-7\n",
];

/// What is known of the files, whose one value is that of a module with the id 1.
fn files_of_one(alloc: Global) -> Result<ResultFiles, AllocError> {
    let scalar = ScalarLine {
        path: Text::from_str(alloc, "N.t")?,
        name: Text::from_str(alloc, "fired:sum")?,
        value: -18446744073709551616,
    };
    let vector = VectorLine {
        id: 1,
        path: Text::from_str(alloc, "N.t")?,
        statistic: Text::from_str(alloc, "fired")?,
        source: Text::from_str(alloc, "tick")?,
    };
    let mut scalars = Items::new(alloc);
    scalars.push(scalar)?;
    let mut vectors = Items::new(alloc);
    vectors.push(vector)?;
    Ok(ResultFiles {
        header: Text::from_str(alloc, "version 3\n\n")?,
        scalars,
        vectors,
    })
}

/// A value of the module with the id 1.
fn emission(alloc: Global, time: SimTime) -> Result<Emission, AllocError> {
    Ok(Emission {
        id: 1,
        signal: SignalName::new(alloc, Text::from_str(alloc, "tick")?)?,
        event: 2,
        time,
        value: -7,
    })
}

/// Whether a device has taken what of the text it has room for.
fn has_taken(text: &str, taken: &[u8], room: usize) -> bool {
    taken.len() == room.min(text.len()) && text.as_bytes().starts_with(taken)
}

/// A device with room for so many bytes, which takes at most so many in a call.
fn shelf_of(alloc: Global, room: usize, step: usize) -> Shelf {
    Shelf {
        taken: Vec::new(alloc),
        room,
        step,
        failures: 0,
    }
}

/// Writes both files, each to a device with room for so many bytes, which takes at most so many in
/// a call. Answers what the writes answer, and whether the devices have then taken what they have
/// room for.
fn try_device(
    alloc: Global,
    files: &ResultFiles,
    emissions: &[Emission],
    room: usize,
    step: usize,
) -> ([Result<(), Device>; 2], bool) {
    let mut first = shelf_of(alloc, room, step);
    let mut second = shelf_of(alloc, room, step);
    let answers = [
        write_scalars(&mut first, files),
        write_vectors(&mut second, files, &[], emissions),
    ];
    let taken = has_taken(TEXTS[0], first.taken.as_slice(), room)
        && has_taken(TEXTS[1], second.taken.as_slice(), room);
    (answers, taken)
}

/// Writes the files to devices.
fn try_devices<R: Abort>(
    rt: &R,
    alloc: Global,
    files: &ResultFiles,
    emissions: &[Emission],
) -> Result<(), Fail> {
    for (room, step, want) in [
        (
            10,
            100,
            [Err(Device { written: 10 }), Err(Device { written: 10 })],
        ),
        (
            0,
            1,
            [Err(Device { written: 0 }), Err(Device { written: 0 })],
        ),
        (
            53,
            7,
            [Err(Device { written: 53 }), Err(Device { written: 53 })],
        ),
        (54, 7, [Ok(()), Err(Device { written: 54 })]),
        (55, 7, [Ok(()), Ok(())]),
        (usize::MAX, 1, [Ok(()), Ok(())]),
    ] {
        let (answers, has_taken) = try_device(alloc, files, emissions, room, step);
        assert!(rt; answers == want, "{room} {step}");
        assert!(rt; has_taken, "{room} {step}");
    }
    Ok(())
}

#[test]
fn devices(rt: HostRuntime) -> Result<(), Fail> {
    let alloc = rt.alloc();
    let time = SimTime::from_ps(500_000_000).ok_or("in range")?;
    let files = files_of_one(alloc)?;
    let emission = emission(alloc, time)?;
    try_devices(&rt, alloc, &files, std::slice::from_ref(&emission))
}

/// The lines of a configuration of that name.
fn lines_of(alloc: Global, name: &Text) -> Result<Vec<IniLine>, AllocError> {
    let section = IniLine {
        text: Text::from_str(alloc, "[General]")?,
        meaning: LineMeaning::Section(name.copy(alloc)?),
    };
    let mut lines = Vec::new(alloc);
    lines.push(section)?;
    lines.push(option_line(alloc, "network", "N")?)?;
    lines.push(option_line(alloc, "**.count", "3")?)?;
    lines.push(option_line(alloc, "**.name", "a\"b \\")?)?;
    Ok(lines)
}

/// The header of a run of a configuration with four lines.
fn header(alloc: Global) -> Result<Text, NoMemory> {
    let general = Text::from_str(alloc, "General")?;
    let lines = lines_of(alloc, &general)?;
    let chain = std::slice::from_ref(&general);
    header_text(alloc, b"General", b"N", chain, lines.as_slice())
}

#[test]
fn headers(rt: HostRuntime) -> Result<(), Fail> {
    let header = header(rt.alloc())?;
    let want =
        "version 3\nrun General-0\nattr configname General\nattr network N\nattr runnumber 0\nconfig network N\nconfig **.count 3\nconfig **.name \"a\\\"b \\\\\"\n\n";
    assert_eq!(rt; header.as_bytes(), want.as_bytes());
    Ok(())
}
