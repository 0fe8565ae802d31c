//! Whether the values of two models rest on the same.

ghost use Rattle.std.specs.Prelude.{◌≡◌, true};
ghost use Rattle.model_data.specs.Models.{entries_in};
ghost use Rattle.ini_trees.specs.Entries.{network_entry};
ghost use Rattle.ini_trees.specs.Sections.{entries_along};
ghost use Rattle.same_entries.specs.Counted.{counted, AreSaid};
ghost use Rattle.model_agreement.specs.Models.{RestOnSame};
ghost use Rattle.model_keeping.specs.Keeping.{IsIniEdited};

use crate::same::same_names;
use ini_trees::entries::network_entry;
use model_data::model::Model;
use same_entries::entries::same_along;

/// Whether two chains have the same names.
fn same_chain(one: &Model, other: &Model) -> bool
    ensures { result ≡ true → one.now.chain ≡ other.now.chain }
{
    same_names(one.chain.as_slice(), other.chain.as_slice())
}

/// Whether the ini texts of two models have the same entries that count along the chain of the
/// first.
fn same_counted(one: &Model, other: &Model) -> bool
    ensures { result ≡ true → AreSaid one.now.ini → AreSaid other.now.ini
        → counted (entries_along one.now.chain one.now.ini)
        ≡ counted (entries_along one.now.chain other.now.ini) }
{
    same_along(one.chain.as_slice(), one.ini.lines(), other.ini.lines())
}

/// Whether both ini texts name the same network.
fn same_network(one: &Model, other: &Model) -> bool
    ensures { result ≡ true
        → network_entry (entries_in one.now) ≡ network_entry (entries_in other.now) }
{
    let first = network_entry(one.ini.lines(), one.chain.as_slice());
    let second = network_entry(other.ini.lines(), other.chain.as_slice());
    match (first, second) {
        (None, None) => true,
        (Some(name), Some(named)) => name == named,
        _ => false,
    }
}

/// Whether one model is seen to be another one of the same types with another ini text: they run the
/// same network.
pub fn is_ini_edited(one: &Model, other: &Model) -> bool
    requires { one.now.types ≡ other.now.types }
    ensures { result ≡ true → IsIniEdited one.now other.now }
{
    same_network(one, other)
}

/// Whether the values of two models of the same types rest on the same, and the same network is run.
/// Their lines are to be read of texts. It may be that they do where this is false.
pub fn rest_on_same(one: &Model, other: &Model) -> bool
    requires types { one.now.types ≡ other.now.types }
    requires one { AreSaid one.now.ini }
    requires other { AreSaid other.now.ini }
    ensures { result ≡ true → RestOnSame one.now other.now }
{
    if !same_chain(one, other) {
        return false;
    }
    if !same_network(one, other) {
        return false;
    }
    same_counted(one, other)
}
