//! What holds of the inside of each compound module. The functions do nothing: their contracts are
//! the laws.

ghost use Rattle.std.specs.Prelude.{◌≡◌, ◌⊎◌, List, Ok, None};
ghost use Rattle.ned_trees.specs.declared.declarations.TypeDeclaration.{TypeDeclaration};
ghost use Rattle.inside_parts.specs.declared.gates.TypeGates.{TypeGates};
ghost use Rattle.inside_keys.specs.declared.found.Found.TheVariants as found;
ghost use Rattle.inside_keys.specs.declared.found.Inside.{Inside};
ghost use Rattle.inside_keys.specs.declared.key.Module.{Module};
ghost use Rattle.inside_keys.specs.declared.key.What.TheVariants as what;
ghost use Rattle.inside_keys.specs.Keys.{key};
ghost use Rattle.inside_keys.specs.Settings.{ModuleRules, type_gates};
ghost use Rattle.inside_keys.specs.Unconnected.{unconnected};
ghost use Rattle.inside_keys.specs.Values.{value_at};
ghost use Rattle.inside_laws.specs.Connected.{NothingLacks};
ghost use Rattle.inside_laws.specs.Sound.{IsSound};

/// Each inside that is found is sound, whatever the texts and the ini text say: no two of its links
/// share the gate that they begin at, or the gate that they end at; each begins at a gate that
/// messages leave by and ends at one that they come in by, each of a part that has it, at an index
/// within its vector; and its parts are the module itself and its submodules in the order of their
/// declarations, the elements of a vector by their indexes. So it is too where an inside is built
/// only as far as gate sizes need it.
pub fn insides_are_sound()
    ensures whole { (s : ModuleRules) (m : Module) (i : Inside)
        → value_at s (key m what.Inside) ≡ Ok (found.Inside i) → IsSound (type_gates s) i }
    ensures joined { (s : ModuleRules) (m : Module) (i : Inside)
        → value_at s (key m what.Joined) ≡ Ok (found.Inside i) → IsSound (type_gates s) i }
{}

/// An inside has no gate that has to be connected and isn't, exactly where at each index of each
/// gate vector of each part, but for those that may stay free, a link begins or ends as its
/// direction needs it; or where the type allows all gates to stay free.
pub fn nothing_lacks_where_all_are_connected()
    ensures none { (t : TypeDeclaration) (gates : List TypeGates) (i : Inside)
        → unconnected t gates i ≡ None → NothingLacks t gates i }
    ensures all { (t : TypeDeclaration) (gates : List TypeGates) (i : Inside)
        → NothingLacks t gates i → unconnected t gates i ≡ None }
{}
