#![tactic(auto)]

ghost use Rattle.examples.specs.Settling.{SettlingCases};
ghost use Rattle.examples.specs.Store.{StoreCases};

/// The worked cases of settling and of the store (docs/RULES.md) hold of the definitions: their proof is a computation.
pub fn worked_cases_hold() -> bool
    ensures settling { SettlingCases }
    ensures store { StoreCases }
{
    true
}
