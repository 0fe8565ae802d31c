//! What the built-in channels have.
//! See OMNeT++ Simulation Manual, "Channels".

ghost use Rattle.std.specs.Prelude.{◌≡◌, ◌++◌, ◌∷◌, [], IfOk, OnOk};
ghost use Rattle.ned_types.specs.Channels.{built_in_line, built_in_lines, delay_lines, error_lines};
ghost use Rattle.ned_types.specs.Channels.{rate_lines, root_lines};

use ned_trees::declarations::{Declaration, ParameterValue, ParameterWord, SectionLine};
use ned_trees::expressions::Expression;
use sim_values::text::{Text, spells};
use sim_values::value::{Dimension, Value};
use sqlite_items::Items;
use std::alloc::{AllocError, Global};
use std::marker::Model;

/// A parameter with a default.
fn built_in_line(
    alloc: Global,
    name: &[u8],
    word: ParameterWord,
    unit: Option<Dimension>,
    value: Value,
) -> Result<SectionLine, AllocError>
    ensures { IfOk result (λ line. line ≡ built_in_line name.now word unit value) }
{
    Ok(SectionLine::Declaration(Declaration {
        name: Text::from_bytes(alloc, name)?,
        word,
        unit,
        value: Some(ParameterValue::Default(Expression::Literal(value))),
    }))
}

/// Adds one after these lines.
fn add_line(
    alloc: Global,
    lines: &mut Items<SectionLine>,
    name: &[u8],
    word: ParameterWord,
    unit: Option<Dimension>,
    value: Value,
) -> Result<(), AllocError>
    ensures { OnOk result (lines.new ≡ lines.old ++ built_in_line name.now word unit value ∷ []) }
{
    lines.push(built_in_line(alloc, name, word, unit, value)?)
}

/// Adds what a DelayChannel has.
fn add_delay(alloc: Global, lines: &mut Items<SectionLine>) -> Result<(), AllocError>
    ensures { OnOk result (lines.new ≡ lines.old ++ delay_lines) }
{
    let (unit, time) = (Some(Dimension::Time), Value::Quantity(Dimension::Time, 0));
    let name = b"delay".as_slice();
    add_line(alloc, lines, name, ParameterWord::Double, unit, time)?;
    let (name, flag) = (b"disabled".as_slice(), Value::Truth(false));
    add_line(alloc, lines, name, ParameterWord::Bool, None, flag)?;
    Ok(())
}

/// Adds how often bits and packets are lost.
fn add_errors(alloc: Global, lines: &mut Items<SectionLine>) -> Result<(), AllocError>
    ensures { OnOk result (lines.new ≡ lines.old ++ error_lines) }
{
    let (ber, per) = (b"ber".as_slice(), b"per".as_slice());
    add_line(alloc, lines, ber, ParameterWord::Int, None, Value::Whole(0))?;
    add_line(alloc, lines, per, ParameterWord::Int, None, Value::Whole(0))?;
    Ok(())
}

/// Adds what a DatarateChannel has besides.
fn add_rate(alloc: Global, lines: &mut Items<SectionLine>) -> Result<(), AllocError>
    ensures { OnOk result (lines.new ≡ lines.old ++ rate_lines) }
{
    let (unit, rate) = (Some(Dimension::Rate), Value::Quantity(Dimension::Rate, 0));
    let name = b"datarate".as_slice();
    add_line(alloc, lines, name, ParameterWord::Double, unit, rate)?;
    add_errors(alloc, lines)?;
    Ok(())
}

/// Adds what the built-in channel of that name has.
pub fn add_built_in(
    alloc: Global,
    lines: &mut Items<SectionLine>,
    name: &[u8],
) -> Result<(), AllocError>
    ensures { OnOk result (lines.new ≡ lines.old ++ built_in_lines name.now) }
{
    if spells(name, b"DelayChannel") {
        return add_delay(alloc, lines);
    }
    if spells(name, b"DatarateChannel") {
        add_delay(alloc, lines)?;
        add_rate(alloc, lines)?;
    }
    Ok(())
}

/// Adds what the built-in channel has that a type extends, where it extends one.
pub fn add_root(
    alloc: Global,
    lines: &mut Items<SectionLine>,
    base: &Option<Text>,
) -> Result<(), AllocError>
    ensures { OnOk result (lines.new ≡ lines.old ++ root_lines base.now) }
{
    match base {
        Some(name) => add_built_in(alloc, lines, name.as_bytes()),
        None => Ok(()),
    }
}

/// The lines of the built-in channels, made once.
#[derive(Drop)]
pub struct BuiltInChannels {
    none: Items<SectionLine>,
    delay: Items<SectionLine>,
    rate: Items<SectionLine>,
}

impl Model for BuiltInChannels {
    ghost use Rattle.std.specs.Prelude.{◌≡◌, ◌++◌, []};
    ghost use Rattle.ned_types.specs.Channels.{delay_lines, rate_lines};

    ghost Value = { Unit {0} };

    ghost view = { λ c. tt };

    ghost invariant = { λ c. (c.none ≡ []) × (c.delay ≡ delay_lines)
        × (c.rate ≡ delay_lines ++ rate_lines) };
}

impl BuiltInChannels {
    /// The lines of all of them.
    pub fn new(alloc: Global) -> Result<BuiltInChannels, AllocError> {
        let mut delay = Items::new(alloc);
        add_delay(alloc, &mut delay)?;
        let mut rate = Items::new(alloc);
        add_delay(alloc, &mut rate)?;
        add_rate(alloc, &mut rate)?;
        Ok(BuiltInChannels {
            none: Items::new(alloc),
            delay,
            rate,
        })
    }

    /// The lines of the one of that name: an IdealChannel has none.
    pub fn lines(&self, name: &[u8]) -> &[SectionLine]
        ensures { result.now ≡ built_in_lines name.now }
    {
        if spells(name, b"DelayChannel") {
            return self.delay.as_slice();
        }
        if spells(name, b"DatarateChannel") {
            return self.rate.as_slice();
        }
        self.none.as_slice()
    }
}
