//! Modules of a run, with all that their values rest on.

ghost use Rattle.std.specs.Prelude.{◌≡◌, ◌+◌, ◌≤◌, ◌<◌, ◌^◌, ◌++◌, true, IfOk, IfSome, OnOk, map};
ghost use Rattle.std.specs.Prelude.{is_some};
ghost use Rattle.model_answers.specs.Lines as lines;
ghost use Rattle.model_keeping.specs.Held.{AreRight};
ghost use Rattle.model_answers.specs.Reading.{AreOfModel, IsPlaced, IsReadable, IsRight, StandsAt};
ghost use Rattle.model_questions.specs.Records.{lineage_up, place_of, record_there};
ghost use Rattle.model_settings.specs.Created.{rules_by};

use crate::reading::Sources;
use inside_keys::found::Found;
use inside_keys::key::{Key, Module};
use inside_keys::planned::Planned;
use inside_run::scene::Stands;
use inside_run::values::empty_table;
use model_keeping::values::{ReadValues, of_table};
use model_questions::record::{
    MAX_NESTING, Origin, Record, own_name, path_of, path_under, record_at,
};
use model_settings::created::{Creation, RunSetting};
use model_settings::setting::{ModelSetting, wide};
use module_api::reply::{FixedSize, FixedValue, Plan};
use ned_trees::declarations::{
    Assignment, GateLine, GateRefinement, ParameterValue, SectionLine, SubmoduleBody,
};
use ned_trees::expressions::Expression;
use param_engine::table::Table;
use sim_values::NoMemory;
use sim_values::text::Text;
use sim_values::value::Value;
use sqlite_items::Items;
use std::alloc::Global;

// ---- plans

/// A value that a plan fixes, as the body of a submodule does.
fn fixed_line(alloc: Global, fixed: &FixedValue) -> Result<SectionLine, NoMemory>
    ensures { IfOk result (λ line. line ≡ lines.fixed_line fixed.now) }
{
    let value = fixed.value.copy(alloc)?;
    Ok(SectionLine::Assignment(Assignment {
        name: fixed.name.copy(alloc)?,
        value: Some(ParameterValue::Fixed(Expression::Literal(value))),
    }))
}

/// All of them.
fn fixed_lines(alloc: Global, values: &[FixedValue]) -> Result<Items<SectionLine>, NoMemory>
    ensures { IfOk result (λ written. written ≡ map lines.fixed_line values.now) }
{
    let mut written = Items::new(alloc);
    for value in values {
        written.push(fixed_line(alloc, value)?)?;
    }
    Ok(written)
}

/// A size that a plan fixes, as the body of a submodule does.
fn sized_line(alloc: Global, fixed: &FixedSize) -> Result<GateLine, NoMemory>
    ensures { IfOk result (λ line. line ≡ lines.sized_line fixed.now) }
{
    Ok(GateLine::Refinement(GateRefinement {
        name: fixed.name.copy(alloc)?,
        size: Some(Expression::Literal(Value::Whole(fixed.size))),
        loose: false,
    }))
}

/// All of them.
fn sized_lines(alloc: Global, sizes: &[FixedSize]) -> Result<Items<GateLine>, NoMemory>
    ensures { IfOk result (λ written. written ≡ map lines.sized_line sizes.now) }
{
    let mut written = Items::new(alloc);
    for size in sizes {
        written.push(sized_line(alloc, size)?)?;
    }
    Ok(written)
}

/// What a module was created as: a submodule of which its plan is the body.
fn planned_as(alloc: Global, plan: &Plan) -> Result<Planned, NoMemory>
    ensures { IfOk result (λ planned. planned ≡ lines.planned_as plan.now) }
{
    Ok(Planned {
        type_name: plan.type_name.copy(alloc)?,
        body: SubmoduleBody {
            lines: fixed_lines(alloc, plan.parameters.as_slice())?,
            gates: sized_lines(alloc, plan.sizes.as_slice())?,
        },
    })
}

// ---- lines of records

/// One more where a module was created.
fn counted(origin: &Origin, created: u32) -> u32
    requires { created + 1 < 2 ^ 32 }
    ensures value { result ≡ lines.counted origin.now created }
    ensures small { result ≤ created + 1 }
{
    match origin {
        Origin::Built => created,
        Origin::Created(_) => created + 1,
    }
}

/// How many modules were created of those in the line of the module of that id, of so many at
/// most.
fn created_up(records: &[Record], depth: u32, id: u32) -> u32
    requires { depth ≤ 32 }
    ensures value { result ≡ lines.created_in (lineage_up depth records.now id) }
    ensures small { result ≤ depth }
{
    if depth == 0 {
        return 0;
    }
    match record_at(records, id) {
        Some(record) => counted(
            &record.origin,
            created_up(records, depth - 1, record.parent),
        ),
        None => 0,
    }
}

/// The path of a module in the one of that path, or of one that none is around.
fn path_in(alloc: Global, around: &Option<Module>, recorded: &Record) -> Result<Text, NoMemory>
    ensures { IfOk result (λ path. path ≡ lines.path_in around.now recorded.now) }
{
    let own = own_name(alloc, recorded.name.as_bytes(), recorded.index)?;
    match around {
        Some(around) => Ok(path_under(alloc, around.path.as_bytes(), own.as_bytes())?),
        None => Ok(own),
    }
}

/// How many modules were created of those that a module is in, and itself.
fn created_around(around: &Option<Module>) -> u32
    ensures { result ≡ lines.created_around around.now }
{
    match around {
        Some(around) => around.created,
        None => 0,
    }
}

/// The module of that record in that one.
fn site_in(alloc: Global, around: &Option<Module>, recorded: &Record) -> Result<Module, NoMemory>
    requires { IfSome around.now (λ m. m.created ≤ 32) }
    ensures site { IfOk result (λ site. site ≡ lines.site_in around.now recorded.now) }
    ensures small { IfOk result (λ site. site.created ≤ lines.created_around around.now + 1) }
{
    let path = path_in(alloc, around, recorded)?;
    let created = counted(&recorded.origin, created_around(around));
    Ok(Module { created, path })
}

/// Adds the module of that record, where it was created, in that one.
fn push_created(
    created: &mut Items<Creation>,
    alloc: Global,
    around: Option<Module>,
    recorded: &Record,
    site: &Module,
) -> Result<(), NoMemory>
    ensures { OnOk result (created.new
        ≡ created.old ++ lines.made_in around site.now recorded.now recorded.now.origin) }
{
    let Origin::Created(plan) = &recorded.origin else {
        return Ok(());
    };
    let stands = Stands {
        around,
        name: recorded.name.copy(alloc)?,
        index: wide(recorded.index),
        is_declared: false,
    };
    created.push(Creation {
        site: site.copy(alloc)?,
        stands,
        planned: planned_as(alloc, plan)?,
    })?;
    Ok(())
}

/// The module of that id, in a line of so many at most. All in it that were created are added, the
/// outermost first.
fn line_up(
    created: &mut Items<Creation>,
    alloc: Global,
    records: &[Record],
    depth: u32,
    id: u32,
) -> Result<Option<Module>, NoMemory>
    requires { depth ≤ 32 }
    ensures site { IfOk result
        (λ site. site ≡ lines.maybe_site (lineage_up depth records.now id)) }
    ensures small { IfOk result (λ site. IfSome site (λ m. m.created ≤ depth)) }
    ensures created { OnOk result (created.new
        ≡ created.old ++ lines.creations_in (lineage_up depth records.now id)) }
{
    if depth == 0 {
        return Ok(None);
    }
    let Some(record) = record_at(records, id) else {
        return Ok(None);
    };
    let around = line_up(created, alloc, records, depth - 1, record.parent)?;
    let site = site_in(alloc, &around, record)?;
    push_created(created, alloc, around, record, &site)?;
    Ok(Some(site))
}

// ---- what is asked about

/// A model, and values that are kept of it.
#[derive(Clone, Copy)]
pub struct ModelValues<'a> {
    pub setting: &'a ModelSetting<'a>,
    pub kept: ReadValues<'a>,
}

/// A module of a run, with all that its values rest on.
#[derive(Drop)]
pub struct PlacedModule<'a> {
    pub site: Module,
    pub setting: RunSetting<'a>,
    /// The values that are kept; none where a module of its line was created while the run went
    /// on, about which nothing is kept.
    pub kept: Option<ReadValues<'a>>,
    /// In place of these.
    pub fresh: Table<Key, Found>,
}

impl<'a> PlacedModule<'a> {
    /// The values that may be read.
    fn values(&self) -> ReadValues<'_>
        requires { IsReadable self.now }
        ensures { AreRight (rules_by self.now.setting) result }
    {
        match self.kept {
            Some(kept) => kept,
            None => of_table(&self.fresh),
        }
    }

    /// What its values are read of.
    pub fn sources(&self) -> Sources<'_>
        requires { IsReadable self.now }
        ensures setting { result.setting.now ≡ self.now.setting }
        ensures right { IsRight result }
    {
        Sources {
            setting: &self.setting,
            kept: self.values(),
        }
    }
}

/// The module of that id in a line where none was created.
#[tactic(auto, using(crate::proofs::Lines::built_site, crate::proofs::Lines::none_created_in, crate::proofs::Lines::kept_there))]
fn built_at<'a>(
    alloc: Global,
    values: ModelValues<'a>,
    records: &[Record],
    id: u32,
) -> Result<PlacedModule<'a>, NoMemory>
    requires right { AreOfModel values }
    requires there { is_some (record_there (place_of records.now id)) ≡ true }
    requires none { lines.created_in (place_of records.now id) ≡ 0 }
    ensures stands { IfOk result
        (λ p. StandsAt p values.entry.setting.now (place_of records.now id)) }
    ensures readable { IfOk result IsReadable }
{
    let site = Module {
        created: 0,
        path: path_of(alloc, records, id)?,
    };
    let setting = RunSetting {
        model: values.setting,
        created: Items::new(alloc),
    };
    let fresh = empty_table(alloc, &setting);
    Ok(PlacedModule {
        site,
        setting,
        kept: Some(values.kept),
        fresh,
    })
}

/// The module of that id, whatever was created in its line.
#[tactic(auto, using(crate::proofs::Lines::no_site, crate::proofs::Lines::some_there, crate::proofs::Lines::some_site), unfolding(model_questions::specs::Records::place_of))]
fn created_at<'a>(
    alloc: Global,
    values: ModelValues<'a>,
    records: &[Record],
    id: u32,
) -> Result<Option<PlacedModule<'a>>, NoMemory>
    ensures stands { IfOk result
        (λ p. IsPlaced p values.entry.setting.now (place_of records.now id)) }
    ensures readable { IfOk result (λ p. IfSome p IsReadable) }
{
    let mut created = Items::new(alloc);
    let Some(site) = line_up(&mut created, alloc, records, MAX_NESTING, id)? else {
        return Ok(None);
    };
    let setting = RunSetting {
        model: values.setting,
        created,
    };
    let fresh = empty_table(alloc, &setting);
    Ok(Some(PlacedModule {
        site,
        setting,
        kept: None,
        fresh,
    }))
}

/// The module of that id, where there is one.
#[tactic(auto, using(crate::proofs::Lines::line_there, crate::proofs::Lines::line_none), unfolding(model_questions::specs::Records::place_of))]
pub fn placed_at<'a>(
    alloc: Global,
    values: ModelValues<'a>,
    records: &[Record],
    id: u32,
) -> Result<Option<PlacedModule<'a>>, NoMemory>
    requires { AreOfModel values }
    ensures stands { IfOk result
        (λ p. IsPlaced p values.entry.setting.now (place_of records.now id)) }
    ensures readable { IfOk result (λ p. IfSome p IsReadable) }
{
    let Some(_record) = record_at(records, id) else {
        return Ok(None);
    };
    if created_up(records, MAX_NESTING, id) == 0 {
        return Ok(Some(built_at(alloc, values, records, id)?));
    }
    created_at(alloc, values, records, id)
}
