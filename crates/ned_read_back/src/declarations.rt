//! The standard spelling of declarations: what they are written as, and that it is read as them.

ghost use Rattle.ned_read_back.specs.Declarations.{ConnectionIsReadBack, ExpressionIsReadBack};
ghost use Rattle.ned_read_back.specs.Declarations.{IsReadBack, SaysTheSame, SpellingDecides};
ghost use Rattle.ned_read_back.specs.Example.{ExampleIsSpelled};

/// What a text declares, written in the standard spelling and read again, is the same.
pub fn read_back(bytes: &[u8])
    ensures file { IsReadBack bytes.now }
    ensures long { SaysTheSame bytes.now }
    ensures expression { ExpressionIsReadBack bytes.now }
    ensures connection { ConnectionIsReadBack bytes.now }
{}

/// What two texts declare is the same where it is spelled the same.
pub fn one_spelling(first: &[u8], second: &[u8])
    ensures { SpellingDecides first.now second.now }
{}

/// A file with a line, a gate and a type of each kind, and its standard spelling.
pub fn spelled_example()
    ensures { ExampleIsSpelled }
{}
