//! The standard spelling of tokens.

ghost use Rattle.ned_read_back.specs.Tokens.{AreReadBack, IsReadBack};

use ned_tokens::token::Token;

/// Tokens in their standard spelling are read as themselves.
pub fn read_back(tokens: &[Token])
    ensures { AreReadBack tokens.now }
{}

/// The tokens of a text, none of them stray, are read from their standard spelling too.
pub fn text_read_back(bytes: &[u8])
    ensures { IsReadBack bytes.now }
{}
