//! The stock catalogue.

ghost use Rattle.std.specs.Prelude.{◌≡◌, ◌↔◌, ◌⊎◌, ℕ, List, IsTrue, codes};
ghost use Rattle.module_api.specs.Laws.{law_of_reads, KeepsStates};
ghost use Rattle.module_stock.specs.Stock.{stock};

use module_api::catalogue::Catalogue;
use module_api::law::{reads_decide, states_are_kept};

/// The stock kinds. It has no code: a type parameter stands for it.
pub struct Stock;

impl Catalogue for Stock {
    ghost use Rattle.module_stock.specs.StockLaws.{stock_lawful};

    ghost behaviour = { stock };

    ghost lawful = { stock_lawful };
}

/// Exactly Tick, Source, Queue, Sink, Router and Spawner are known. It does nothing: its contract is
/// the law.
pub fn stock_kinds_are_known()
    ensures { (kind : List ℕ)
        → IsTrue (stock.known kind) ↔ ((kind ≡ codes "Tick") ⊎ ((kind ≡ codes "Source")
        ⊎ ((kind ≡ codes "Queue") ⊎ ((kind ≡ codes "Sink")
        ⊎ ((kind ≡ codes "Router") ⊎ (kind ≡ codes "Spawner")))))) }
{}

/// What a reply of a stock module lists as read decides the reply and the state after it. It does
/// nothing: its contract is the law.
pub fn stock_reads_decide()
    ensures { (kind : List ℕ) → law_of_reads (stock.naming kind) }
{
    reads_decide::<Stock>()
}

/// A stock module starts in a state of its own, and a call in a state leaves one. It does nothing:
/// its contract is the law.
pub fn stock_states_are_kept()
    ensures { (kind : List ℕ) → IsTrue (stock.known kind) → KeepsStates (stock.naming kind) }
{
    states_are_kept::<Stock>()
}
