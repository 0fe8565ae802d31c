//! What holds of the definitions themselves.

ghost use Rattle.ned_expressions.specs.ExpressionText.{IsOneExpression};
ghost use Rattle.ned_expressions.specs.Spelling.{IsSpelledByItself, IsShallow, IsReadBack};
ghost use Rattle.ned_expressions.specs.Spelling.{SpellingDecides};

/// Two expressions that one text is are equal.
pub fn one_meaning(bytes: &[u8])
    ensures { IsOneExpression bytes.now }
{}

/// A text's tokens are the spelling of the expression that it is, which is at most 64 deep.
pub fn own_spelling(bytes: &[u8])
    ensures spelled { IsSpelledByItself bytes.now }
    ensures shallow { IsShallow bytes.now }
{}

/// The standard spelling of what a text says, as tokens, is read as that.
pub fn read_back(bytes: &[u8])
    ensures { IsReadBack bytes.now }
{}

/// Of what two texts say, what is spelled the same is the same.
pub fn one_spelling(first: &[u8], second: &[u8])
    ensures { SpellingDecides first.now second.now }
{}
