//! Laws of types within others.

ghost use Rattle.ned_scopes.specs.Example.{ExampleScopes};

/// Which types names mean in a small example.
pub fn examples()
    ensures { ExampleScopes }
{}
