//! Laws of types.

ghost use Rattle.ned_inheritance.specs.Circles.{CirclesAreFound};
ghost use Rattle.ned_inheritance.specs.ClashExample.{ExampleClashes};
ghost use Rattle.ned_inheritance.specs.Example.{ExampleBodies, ExampleChannels, ExampleExtending};
ghost use Rattle.ned_inheritance.specs.Example.{ExampleFaults, ExampleGates, ExampleInsides};
ghost use Rattle.ned_inheritance.specs.Example.{ExampleInterfaces, ExampleIsFlat, ExampleNetworks};
ghost use Rattle.ned_inheritance.specs.Example.{ExampleParts};

/// The flat types of small examples, their faults, and those of bodies of submodules.
pub fn examples()
    ensures flat { ExampleIsFlat }
    ensures faults { ExampleFaults }
    ensures bodies { ExampleBodies }
    ensures networks { ExampleNetworks }
    ensures channels { ExampleChannels }
    ensures gates { ExampleGates }
    ensures interfaces { ExampleInterfaces }
    ensures extending { ExampleExtending }
    ensures insides { ExampleInsides }
    ensures parts { ExampleParts }
    ensures clashes { ExampleClashes }
{}

/// A circle is found exactly where one of the types extends itself, perhaps by way of others: it is
/// no matter that the definition counts steps.
pub fn circles()
    ensures { CirclesAreFound }
{}
