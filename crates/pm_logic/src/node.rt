//! Trees with the connective of another.

ghost use Rattle.std.specs.Prelude.{◌≡◌, IfOk};
ghost use Rattle.pm_logic.specs.Nodes.{HasTwoParts, HasOnePart, IsComparison, IsJoined, paired, single, compared, joined};

use crate::building::{all, and, ex, imp, later, or, pers, pure_and, pure_or, sep, upd, wand};
use crate::formula::{Formula, Pure, Term};
use crate::list::Memory;
use std::alloc::Global;

/// The comparison of `like` between the two terms.
#[tactic(auto, using(crate::proofs::Connectives::comparisons))]
pub fn compared(like: &Pure, s: Term, t: Term) -> Pure
    requires { IsComparison like.now }
    ensures { result ≡ compared like.now s t }
{
    match like {
        Pure::Eq(..) => Pure::Eq(s, t),
        Pure::Le(..) => Pure::Le(s, t),
        Pure::Lt(..) => Pure::Lt(s, t),
        _ => unreachable!(),
    }
}

/// The conjunction or disjunction of the two, whichever `like` is.
#[tactic(auto, using(crate::proofs::Connectives::joints))]
pub fn joined(alloc: Global, like: &Pure, a: Pure, b: Pure) -> Result<Pure, Memory>
    requires { IsJoined like.now }
    ensures { IfOk result (λ p. p ≡ joined like.now a b) }
{
    match like {
        Pure::And(..) => pure_and(alloc, a, b),
        Pure::Or(..) => pure_or(alloc, a, b),
        _ => unreachable!(),
    }
}

/// The two parts under the connective of `like`.
#[tactic(auto, using(crate::proofs::Connectives::pairs))]
pub fn pair(alloc: Global, like: &Formula, a: Formula, b: Formula) -> Result<Formula, Memory>
    requires { HasTwoParts like.now }
    ensures { IfOk result (λ f. f ≡ paired like.now a b) }
{
    match like {
        Formula::Sep(..) => sep(alloc, a, b),
        Formula::Wand(..) => wand(alloc, a, b),
        Formula::And(..) => and(alloc, a, b),
        Formula::Or(..) => or(alloc, a, b),
        Formula::Imp(..) => imp(alloc, a, b),
        _ => unreachable!(),
    }
}

/// The part under the quantifier or modality of `like`.
#[tactic(auto, using(crate::proofs::Connectives::singles))]
pub fn single(alloc: Global, like: &Formula, a: Formula) -> Result<Formula, Memory>
    requires { HasOnePart like.now }
    ensures { IfOk result (λ f. f ≡ single like.now a) }
{
    match like {
        Formula::All(_) => all(alloc, a),
        Formula::Ex(_) => ex(alloc, a),
        Formula::Later(_) => later(alloc, a),
        Formula::Pers(_) => pers(alloc, a),
        Formula::Upd(_) => upd(alloc, a),
        _ => unreachable!(),
    }
}
