//! The model that texts make.

ghost use Rattle.std.specs.Prelude.{◌≡◌, ◌++◌, [], ◌∷◌, None, true, OnOk, IfOk, IfErr};
ghost use Rattle.std.specs.List.{list_any};
ghost use Rattle.sim_values.specs.Memory.{no_memory};
ghost use Rattle.ini_config.specs.Meaning.{IsIniText};
ghost use Rattle.ini_trees.specs.Sections.{IsChain, is_section};
ghost use Rattle.ned_syntax.specs.NedText.{IsNedFile};
ghost use Rattle.ned_scopes.specs.Scopes.{types_of};
ghost use Rattle.ned_inheritance.specs.Inheritance.{flat_types};
ghost use Rattle.ned_inheritance.specs.Building.{fault_of};
ghost use Rattle.model_reading.specs.Faults.{begin_fault_name};
ghost use Rattle.model_reading.specs.Models.{AreNedFiles, IsModelOf, IsOnlyModelOf, IsRuledOut};
ghost use Rattle.model_reading.specs.Models.{RefusesFile, RefusesFiles, RefusesIni, RefusesTypes};
ghost use Rattle.model_reading.specs.Models.{RefusesConfig, Refuses, is_large, is_too_large};

use file_edits::tables;
use ini_config::error::IniError;
use ini_config::parse::parse_ini;
use ini_entries::reason::Reason;
use ini_trees::error::ChainError;
use ini_trees::lines::IniText;
use model_data::faults::ConfigFault;
use model_data::model::Model;
use ned_files::shared;
use ned_files::shared::SharedFile;
use ned_inheritance::table::{BuildError, TypeFault};
use ned_leaves::error::NedError;
use ned_syntax::parse::parse_ned;
use ned_trees::declarations::NedFile;
use ned_trees::texts::NedTexts;
use ned_types::table::TypeTable;
use sim_values::NoMemory;
use sim_values::text::{MAX_LENGTH, Text};
use sqlite_items::Items;
use std::alloc::{AllocError, Global};

/// How many NED files a model has at most.
pub const MAX_FILES: usize = 256;

/// Why texts make no model. Of several reasons the first in this order is told, and lack of memory
/// in any place.
#[derive(Clone, Copy, Debug, PartialEq, Eq)]
pub enum BeginFault {
    /// A text is longer than 1 MiB, or there are more than 256 NED files.
    TooLarge,
    /// A NED file, counted from 0, and the line of the first byte that can't go on.
    NedSyntax(usize, usize),
    /// The first line of the ini text that means nothing, and why.
    IniSyntax(usize, Reason),
    /// The types of the NED files make no model.
    Types(TypeFault),
    /// The configuration can't be run.
    Config(ConfigFault),
    /// Memory ran out.
    NoMemory(NoMemory),
}

impl BeginFault {
    /// Its name, as answers have it.
    pub fn name(self) -> &'static [u8]
        ensures { result.now ≡ begin_fault_name self }
    {
        match self {
            BeginFault::TooLarge => b"TooLarge",
            BeginFault::NedSyntax(_, _) => b"NedSyntax",
            BeginFault::IniSyntax(_, _) => b"IniSyntax",
            BeginFault::Types(fault) => fault.name(),
            BeginFault::Config(fault) => fault.name(),
            BeginFault::NoMemory(_) => b"NoMemory",
        }
    }
}

impl From<AllocError> for BeginFault {
    ghost use Rattle.std.specs.Prelude.{◌≡◌};
    ghost use Rattle.model_reading.specs.declared.begin.BeginFault.TheVariants.{NoMemory};
    ghost use Rattle.sim_values.specs.Memory.{no_memory};

    ghost from_gives = { λ _ e. e ≡ NoMemory no_memory };

    fn from(error: AllocError) -> BeginFault {
        BeginFault::NoMemory(error.into())
    }
}

/// Whether a text is longer than what is read.
fn is_large(bytes: &[u8]) -> bool
    ensures { result ≡ is_large bytes.now }
{
    bytes.len() > MAX_LENGTH
}

/// Whether one of the texts is longer than what is read.
fn holds_large(texts: &[Text]) -> bool
    ensures { result ≡ list_any is_large texts.now }
{
    texts.iter().any(|text| is_large(text.as_bytes()))
}

/// Whether the texts are too many, or one is too long.
fn is_too_large(texts: &NedTexts, ini: &[u8]) -> bool
    ensures { result ≡ is_too_large texts.now ini.now }
{
    texts.len() > MAX_FILES || holds_large(texts.as_slice()) || is_large(ini)
}

/// What a NED text declares, which is the file of that number.
fn file_of(alloc: Global, number: usize, bytes: &[u8]) -> Result<NedFile, BeginFault>
    ensures accepted { IfOk result (λ file. IsNedFile bytes.now file) }
    ensures refused { IfErr result (λ fault. RefusesFile number bytes.now fault) }
{
    match parse_ned(alloc, bytes) {
        Ok(file) => Ok(file),
        Err(NedError::NedSyntax(line)) => Err(BeginFault::NedSyntax(number, line)),
        Err(NedError::TooLarge) => Err(BeginFault::TooLarge),
        Err(NedError::NoMemory(error)) => Err(BeginFault::NoMemory(error)),
    }
}

/// Adds a file at the end.
fn push_file(alloc: Global, files: &mut Items<SharedFile>, file: NedFile) -> Result<(), BeginFault>
    ensures ok { OnOk result (files.new ≡ files.old ++ file ∷ []) }
    ensures err { IfErr result (λ fault. fault ≡ BeginFault.NoMemory no_memory) }
{
    match shared::push_file(alloc, files, file) {
        Ok(()) => Ok(()),
        Err(error) => Err(BeginFault::NoMemory(error.into())),
    }
}

/// What the NED texts declare.
fn files_of(alloc: Global, texts: &NedTexts) -> Result<Items<SharedFile>, BeginFault>
    ensures accepted { IfOk result (λ files. AreNedFiles texts.now files) }
    ensures refused { IfErr result (λ fault. RefusesFiles texts.now fault) }
{
    let mut files = Items::new(alloc);
    for (number, text) in texts.as_slice().iter().enumerate() {
        let file = file_of(alloc, number, text.as_bytes())?;
        push_file(alloc, &mut files, file)?;
    }
    Ok(files)
}

/// The lines of the ini text.
fn lines_of(alloc: Global, bytes: &[u8]) -> Result<IniText, BeginFault>
    ensures accepted { IfOk result (λ lines. IsIniText bytes.now lines) }
    ensures refused { IfErr result (λ fault. RefusesIni bytes.now fault) }
{
    match parse_ini(alloc, bytes) {
        Ok(lines) => Ok(lines),
        Err(IniError::IniSyntax(line, why)) => Err(BeginFault::IniSyntax(line, why)),
        Err(IniError::TooLarge) => Err(BeginFault::TooLarge),
        Err(IniError::NoMemory(error)) => Err(BeginFault::NoMemory(error)),
    }
}

/// The flat types that the files declare.
fn table_of(alloc: Global, files: &Items<SharedFile>) -> Result<TypeTable, BeginFault>
    ensures accepted { let types = types_of files.now in
        IfOk result (λ table. (table ≡ flat_types types) × (fault_of types ≡ None)) }
    ensures refused { IfErr result (λ fault. RefusesTypes (types_of files.now) fault) }
{
    match tables::table_of(alloc, files.as_slice()) {
        Ok(table) => Ok(table),
        Err(BuildError::Fault(fault, _)) => Err(BeginFault::Types(fault)),
        Err(BuildError::NoMemory(error)) => Err(BeginFault::NoMemory(error)),
    }
}

/// The chain of a configuration.
fn chain_of(alloc: Global, lines: &IniText, config: &[u8]) -> Result<Items<Text>, BeginFault>
    ensures accepted { IfOk result (λ chain. IsChain lines.now config.now chain
        × (is_section config.now lines.now ≡ true)) }
    ensures refused { IfErr result (λ fault. RefusesConfig lines.now config.now fault) }
{
    match lines.chain(alloc, config) {
        Ok(chain) => Ok(chain),
        Err(ChainError::NoSuchConfig) => Err(BeginFault::Config(ConfigFault::NoSuchConfig)),
        Err(ChainError::ChainFault) => Err(BeginFault::Config(ConfigFault::ChainFault)),
        Err(ChainError::NoMemory(error)) => Err(BeginFault::NoMemory(error)),
    }
}

/// Reads the model that these texts make, or finds why they make none.
fn read_model(
    alloc: Global,
    texts: &NedTexts,
    ini: &[u8],
    config: &[u8],
) -> Result<Model, BeginFault>
    ensures accepted { IfOk result (λ model. IsModelOf texts.now ini.now config.now model) }
    ensures refused { IfErr result (λ fault. Refuses texts.now ini.now config.now fault) }
{
    if is_too_large(texts, ini) {
        return Err(BeginFault::TooLarge);
    }
    let files = files_of(alloc, texts)?;
    let lines = lines_of(alloc, ini)?;
    let types = table_of(alloc, &files)?;
    let chain = chain_of(alloc, &lines, config)?;
    let config = Text::from_bytes(alloc, config)?;
    let model = Model {
        files,
        types,
        ini: lines,
        config,
        chain,
        injections: Items::new(alloc),
        last_injection: 0,
    };
    if model.network().is_none() {
        return Err(BeginFault::Config(ConfigFault::NoSuchNetwork));
    }
    Ok(model)
}

/// The model that these texts make, or why they make none.
pub fn model_of(
    alloc: Global,
    texts: &NedTexts,
    ini: &[u8],
    config: &[u8],
) -> Result<Model, BeginFault>
    ensures accepted { IfOk result (λ model. IsModelOf texts.now ini.now config.now model) }
    // The texts make no other model.
    ensures only { IfOk result (λ model. IsOnlyModelOf texts.now ini.now config.now model) }
    ensures refused { IfErr result (λ fault. Refuses texts.now ini.now config.now fault) }
    // Where the texts make a model, it is answered, unless memory runs out.
    ensures complete { IfErr result (λ fault. IsRuledOut texts.now ini.now config.now fault) }
{
    read_model(alloc, texts, ini, config)
}
