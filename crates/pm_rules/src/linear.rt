//! Facts as a linear rule has them, and its certificates.

ghost use Rattle.std.specs.Prelude.{◌≡◌, ◌↔◌, IsTrue};
ghost use Rattle.pm_rules.specs.Equations.{IsFacts, IsLinear};

use pm_logic::{Formula, Pure};

/// Whether the pure formula is a list of conjunctions to the right that ends in truth.
#[tactic(auto, using(crate::proofs::Conjunctions::conjunctions))]
fn is_facts(p: &Pure) -> bool
    ensures { IsTrue result ↔ IsFacts p.now }
{
    match p {
        Pure::True => true,
        Pure::And(_, rest) => is_facts(rest.get()),
        Pure::False | Pure::Eq(..) | Pure::Le(..) | Pure::Lt(..) => false,
        Pure::Or(..) | Pure::Not(_) => false,
    }
}

/// Whether the sides are facts and a pure formula.
pub fn is_linear(left: &Formula, right: &Formula) -> bool
    ensures { IsTrue result ↔ IsLinear left.now right.now }
{
    match (left, right) {
        (Formula::Pure(p), Formula::Pure(_)) => is_facts(p),
        _ => false,
    }
}
