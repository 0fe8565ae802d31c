//! A law of injections. The function does nothing: its contract is the law.

ghost use Rattle.std.specs.Prelude.{◌≡◌, List, Option, Some};
ghost use Rattle.model_injections.specs.declared.injection.Injection.{Injection};
ghost use Rattle.model_injections.specs.declared.injection.InjectionTurn.{InjectionTurn};
ghost use Rattle.model_injections.specs.Injections.{first_undelivered, DeliversOne, OfEach};

/// What is delivered is told by one place in the order of injections: all before it are delivered,
/// and no other. Delivering the first that is left delivers that one alone.
#[tactic(auto, using(crate::proofs::Left::one_more))]
pub fn one_more_is_delivered()
    ensures { (last : Option InjectionTurn) (is : List Injection) (first : Injection)
        → first_undelivered last is ≡ Some first
        → OfEach (λ i. DeliversOne last first i) is }
{}
