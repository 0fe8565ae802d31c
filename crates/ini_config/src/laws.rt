//! What holds of the definitions themselves.

ghost use Rattle.ini_config.specs.Meaning.{HasOneMeaning, HasOneReason};

use sim_values::text::Text;

/// Two meanings of one text are equal.
pub fn one_meaning(bytes: &[u8])
    ensures { HasOneMeaning bytes.now }
{}

/// A line is refused for one reason at most, where it stands.
pub fn one_reason(section: &Option<Text>, line: &[u8])
    ensures { HasOneReason section.now line.now }
{}
