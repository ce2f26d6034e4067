//! Sums of the forms of linear atoms.

ghost use Rattle.std.specs.Prelude.{◌≡◌, ◌^◌, pos, neg_ℤ, Some};
ghost use Rattle.pm_logic.specs.declared.formula.TheConstants.{BOUND};
ghost use Rattle.pm_logic.specs.Scope.{TermScoped, PureScoped};
ghost use Rattle.pm_linform.specs.Entries.{IsAtMost};
ghost use Rattle.pm_rules.specs.Linear.{number};
ghost use Rattle.pm_rules.specs.Sums.{AddsTerm, DifferenceAdded, StrictAdded, HoldingAdded, FailingAdded, IsRoomy};

use crate::forms::{form_of, shifted, sum};
use pm_linform::{Form, VARIABLES};
use pm_logic::{Pure, Term};

/// The factor with the other sign.
fn opposite(c: i64) -> i64
    requires { IsAtMost (pos (2 ^ 31)) c }
    ensures { result ≡ neg_ℤ c }
{
    -c
}

/// Adds `c` times the form of `s - t`, where both terms are small.
#[tactic(auto, using(crate::proofs::Adding::differences))]
fn add_difference(total: Form, c: i64, s: &Term, t: &Term) -> Option<Form>
    requires left { TermScoped VARIABLES s.now }
    requires right { TermScoped VARIABLES t.now }
    requires factor { IsAtMost (pos (2 ^ 31)) c }
    requires room { IsRoomy total }
    ensures { DifferenceAdded c s.now t.now total result }
{
    let plus = form_of(s)?;
    let minus = form_of(t)?;
    Some(sum(sum(total, c, &plus), opposite(c), &minus))
}

/// Adds `c` times the form of `s - t + 1`, where both terms are small.
#[tactic(auto, using(crate::proofs::Adding::differences))]
pub fn add_strict(total: Form, c: i64, s: &Term, t: &Term) -> Option<Form>
    requires left { TermScoped VARIABLES s.now }
    requires right { TermScoped VARIABLES t.now }
    requires factor { IsAtMost (pos (2 ^ 31)) c }
    requires room { IsRoomy total }
    ensures { StrictAdded c s.now t.now total result }
{
    Some(shifted(add_difference(total, c, s, t)?, c))
}

/// Adds `c`.
fn add_one(total: Form, c: i64) -> Form
    requires room { IsRoomy total }
    ensures { AddsTerm c (number 1) total result }
{
    shifted(total, c)
}

/// Adds `c` times the form that is at most 0 where the atom holds, where it is one and its terms are small.
#[tactic(auto, using(crate::proofs::Facts::holding_atoms))]
pub fn add_holding(total: Form, c: i64, p: &Pure) -> Option<Form>
    requires scoped { PureScoped VARIABLES p.now }
    requires factor { IsAtMost (pos (2 ^ 31)) c }
    requires room { IsRoomy total }
    ensures { HoldingAdded c p.now total result }
{
    match p {
        Pure::True => Some(total),
        Pure::False => Some(add_one(total, c)),
        Pure::Eq(s, t) | Pure::Le(s, t) => add_difference(total, c, s, t),
        Pure::Lt(s, t) => add_strict(total, c, s, t),
        Pure::Not(q) => match q.get() {
            Pure::Le(s, t) => add_strict(total, c, t, s),
            Pure::Lt(s, t) => add_difference(total, c, t, s),
            _ => None,
        },
        Pure::And(..) | Pure::Or(..) => None,
    }
}

/// Adds `c` times the form that is at most 0 where the atom fails, where it is one and its terms are small. An equation
/// fails here where its first side is the greater.
#[tactic(auto, using(crate::proofs::Facts::failing_atoms))]
pub fn add_failing(total: Form, c: i64, p: &Pure) -> Option<Form>
    requires scoped { PureScoped VARIABLES p.now }
    requires factor { IsAtMost (pos (2 ^ 31)) c }
    requires room { IsRoomy total }
    ensures { FailingAdded c p.now total result }
{
    match p {
        Pure::True => Some(add_one(total, c)),
        Pure::False => Some(total),
        Pure::Eq(s, t) | Pure::Le(s, t) => add_strict(total, c, t, s),
        Pure::Lt(s, t) => add_difference(total, c, t, s),
        Pure::Not(q) => match q.get() {
            Pure::Le(s, t) => add_difference(total, c, s, t),
            Pure::Lt(s, t) => add_strict(total, c, s, t),
            _ => None,
        },
        Pure::And(..) | Pure::Or(..) => None,
    }
}
