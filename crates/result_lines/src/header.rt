//! The header of a result file.

ghost use Rattle.std.specs.Prelude.{◌≡◌, ◌++◌, ◌<◌, length, IfOk, OnOk};
ghost use Rattle.std.specs.List.{flat_map};
ghost use Rattle.ini_trees.specs.Sections.{entries_along};
ghost use Rattle.result_lines.specs.Header.{escaped, value_text, item_line, run_lines};
ghost use Rattle.result_lines.specs.Header.{attribute_lines, config_line, config_lines};
ghost use Rattle.result_lines.specs.Header.{header_text, network_name, header_of};
ghost use Rattle.result_lines.specs.Sections.{entries_at, entries_in};

use crate::sections::section_entries;
use ini_trees::entries::network_entry;
use ini_trees::entry::EntryMeaning;
use ini_trees::lines::{IniEntry, IniLine};
use ini_trees::names::section_names;
use ini_trees::speaks::last_name;
use model_data::model::Model;
use module_api::names::{is_all_plain, is_quoting};
use sim_values::NoMemory;
use sim_values::text::Text;
use std::alloc::{AllocError, Global};
use text_writer::writer::TextWriter;

/// Adds a byte of a value between quotes.
fn push_escaped(header: &mut TextWriter, byte: u8)
    ensures { header.new ≡ header.old ++ escaped byte }
{
    if is_quoting(byte) {
        header.push_byte(b'\\');
    }
    header.push_byte(byte);
}

/// Adds the bytes of a value between quotes.
fn push_all_escaped(header: &mut TextWriter, value: &[u8])
    ensures { header.new ≡ header.old ++ flat_map escaped value.now }
{
    for byte in value {
        push_escaped(header, *byte);
    }
}

/// Adds a value: as it is where all its bytes are plain, else between quotes.
fn push_value(header: &mut TextWriter, value: &[u8])
    ensures { header.new ≡ header.old ++ value_text value.now }
{
    if is_all_plain(value) {
        header.push(value);
    } else {
        header.push_byte(b'"');
        push_all_escaped(header, value);
        header.push_byte(b'"');
    }
}

/// Adds a line that gives a value to a key.
#[tactic(auto, unfolding(crate::specs::Header::item_line))]
fn push_item(header: &mut TextWriter, word: &[u8], key: &[u8], value: &[u8])
    ensures { header.new ≡ header.old ++ item_line word.now key.now value.now }
{
    header.push(word);
    header.push_byte(b' ');
    header.push(key);
    header.push_byte(b' ');
    push_value(header, value);
    header.push_byte(b'\n');
}

/// Adds the line of an entry, but for one of the option `extends`.
fn push_entry(header: &mut TextWriter, entry: &IniEntry)
    ensures { header.new ≡ header.old ++ config_line entry.now }
{
    match &entry.meaning {
        EntryMeaning::Extends(_) => {}
        _ => push_item(
            header,
            b"config",
            entry.key.as_bytes(),
            entry.value.as_bytes(),
        ),
    }
}

/// Adds the lines of these entries.
fn push_listed(header: &mut TextWriter, entries: &[&IniEntry])
    ensures { header.new ≡ header.old ++ config_lines (entries_in entries.now) }
{
    let mut rest = entries;
    while let [entry, after @ ..] = rest {
        push_entry(header, entry);
        rest = after;
    }
}

/// Adds the lines of the entries of the section of that number.
fn push_section(header: &mut TextWriter, lists: &[Vec<&IniEntry>], number: usize)
    requires { number < length lists.now }
    ensures { header.new ≡ header.old ++ config_lines (entries_at lists.now number) }
{
    push_listed(header, lists[number].as_slice());
}

/// Adds the lines of all entries of the chain. The text is walked once, and not once for each
/// section of the chain.
fn push_entries(
    alloc: Global,
    header: &mut TextWriter,
    chain: &[Text],
    lines: &[IniLine],
) -> Result<(), AllocError>
    ensures { OnOk result (header.new
        ≡ header.old ++ config_lines (entries_along chain.now lines.now)) }
{
    let names = section_names(alloc, lines)?;
    let lists = section_entries(alloc, lines, &names)?;
    for name in chain {
        if let Some(number) = names.number_of(name.as_bytes()) {
            push_section(header, lists.as_slice(), number);
        }
    }
    Ok(())
}

/// The name of the network without that of its package.
fn network_name(model: &Model) -> &[u8]
    ensures { result.now ≡ network_name model.now }
{
    match network_entry(model.ini.lines(), model.chain.as_slice()) {
        Some(name) => last_name(name),
        None => last_name(b""),
    }
}

/// Adds the lines that name the run with the number 0 of a configuration.
fn push_run(header: &mut TextWriter, config: &[u8])
    ensures { header.new ≡ header.old ++ run_lines config.now }
{
    header.push(b"version 3\nrun ");
    header.push(config);
    header.push(b"-0\n");
}

/// Adds the lines of the run's attributes.
fn push_attributes(header: &mut TextWriter, config: &[u8], network: &[u8])
    ensures { header.new ≡ header.old ++ attribute_lines config.now network.now }
{
    push_item(header, b"attr", b"configname", config);
    push_item(header, b"attr", b"network", network);
    push_item(header, b"attr", b"runnumber", b"0");
}

/// The header of the run with the number 0 of a configuration of that name, network, chain and
/// lines.
pub fn header_text(
    alloc: Global,
    config: &[u8],
    network: &[u8],
    chain: &[Text],
    lines: &[IniLine],
) -> Result<Text, NoMemory>
    ensures { IfOk result (λ header. header
        ≡ header_text config.now network.now (entries_along chain.now lines.now)) }
{
    let mut header = TextWriter::new(alloc);
    push_run(&mut header, config);
    push_attributes(&mut header, config, network);
    push_entries(alloc, &mut header, chain, lines)?;
    header.push_byte(b'\n');
    header.finish()
}

/// The header of the result files of a run of the model.
pub fn header(alloc: Global, model: &Model) -> Result<Text, NoMemory>
    ensures { IfOk result (λ header. header ≡ header_of model.now) }
{
    header_text(
        alloc,
        model.config.as_bytes(),
        network_name(model),
        model.chain.as_slice(),
        model.ini.lines(),
    )
}
