//! The laws of scripts, of catalogues and of paths. The functions do nothing: their contracts are the laws.

ghost use Rattle.std.specs.Prelude.{◌≡◌, ℕ, false, List};
ghost use Rattle.module_api.specs.Behaviour.{Behaviour};
ghost use Rattle.module_api.specs.Laws.{law_of_reads, IsLawful};
ghost use Rattle.module_parts.specs.Catalogues.{CatalogueEntry, catalogue};
ghost use Rattle.module_parts.specs.CatalogueLaws.{AllLawful};
ghost use Rattle.module_parts.specs.Joined.{joined};
ghost use Rattle.module_parts.specs.Paths.{has_dot, parent_path, path_in};
ghost use Rattle.module_parts.specs.Scripts.{naming_of};

use crate::player::Scripted;

/// Of every module that goes by a script, what a reply lists as read decides the reply and the
/// state after it.
pub fn scripts_read_by_listing<S: Scripted>()
    ensures { law_of_reads (naming_of S.script) }
{}

/// A catalogue of lawful kinds is lawful, at kinds that it doesn't know too.
pub fn lawful_kinds_make_a_catalogue()
    ensures { (entries : List CatalogueEntry) → AllLawful entries → IsLawful (catalogue entries) }
{}

/// Two lawful catalogues as one are lawful.
pub fn lawful_catalogues_join()
    ensures { (a b : Behaviour) → IsLawful a → IsLawful b → IsLawful (joined a b) }
{}

/// The path of a module tells that of the module around it, since no name has a dot.
pub fn parents_are_told()
    ensures { (path name : List ℕ) → has_dot name ≡ false
        → parent_path (path_in path name) ≡ path }
{}
