//! The two rows with a shifted letter.

ghost use Rattle.std.specs.Prelude.{◌≡◌, ◌↔◌, ◌≤◌, [], ◌∷◌, IsTrue};
ghost use Rattle.pm_logic.specs.Size.{depth_of};
ghost use Rattle.pm_rules.specs.Notation.{◌⊢◌, All, Ex, P, Q, B, P↑, Q↑};
ghost use Rattle.pm_rules.specs.Rules.{HasLetters};
ghost use Rattle.pm_rules.specs.Equations.{IsGeneralized, IsEliminated};
ghost use Rattle.pm_rules.specs.Read.{given_of};

use crate::given::Given;
use crate::rules::Entail;
use pm_logic::{BOUND, Formula, is_shift, same};

/// Whether the premise's sides are `left` shifted and the body of the universal `right`.
fn is_generalized(p: &Entail, left: &Formula, right: &Formula) -> bool
    requires { depth_of left.now ≤ BOUND }
    ensures { IsTrue result ↔ IsGeneralized p.now.left p.now.right left.now right.now }
{
    match right {
        Formula::All(b) => is_shift(left, &p.left) && same(&p.right, b.get()),
        _ => false,
    }
}

/// Whether the premise's sides are the body of the existential `left`, and `right` shifted.
fn is_eliminated(p: &Entail, left: &Formula, right: &Formula) -> bool
    requires { depth_of right.now ≤ BOUND }
    ensures { IsTrue result ↔ IsEliminated p.now.left p.now.right left.now right.now }
{
    match left {
        Formula::Ex(b) => same(&p.left, b.get()) && is_shift(right, &p.right),
        _ => false,
    }
}

/// Whether the one premise and the conclusion are those of all-introduction.
pub fn is_all_intro(ps: Given, e: &Entail) -> bool
    requires { depth_of e.now.left ≤ BOUND }
    ensures { IsTrue result ↔ HasLetters ((P↑ ⊢ B) ∷ []) (P ⊢ All B) (given_of ps.entry) e.now }
{
    match ps {
        Given::One(p) => is_generalized(p, &e.left, &e.right),
        _ => false,
    }
}

/// Whether the one premise and the conclusion are those of exists-elimination.
pub fn is_ex_elim(ps: Given, e: &Entail) -> bool
    requires { depth_of e.now.right ≤ BOUND }
    ensures { IsTrue result ↔ HasLetters ((B ⊢ Q↑) ∷ []) (Ex B ⊢ Q) (given_of ps.entry) e.now }
{
    match ps {
        Given::One(p) => is_eliminated(p, &e.left, &e.right),
        _ => false,
    }
}
