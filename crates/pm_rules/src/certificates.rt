//! Certificates of linear rules.

ghost use Rattle.std.specs.Prelude.{◌≡◌, ◌↔◌, ◌≤◌, ◌<◌, ◌^◌, pos, [], ◌∷◌, IsTrue, MatchOption};
ghost use Rattle.pm_logic.specs.Scope.{TermScoped, PureScoped, ScopedIn};
ghost use Rattle.pm_logic.specs.Size.{pure_depth, depth_of};
ghost use Rattle.pm_linform.specs.Entries.{IsAtMost};
ghost use Rattle.pm_rules.specs.Equations.{IsFacts};
ghost use Rattle.pm_rules.specs.Linear.{IsEquation, HasFactors};
ghost use Rattle.pm_rules.specs.Certificates.{IsFactor, IsFirstFactor, FactsAdded, HasRoom, Starts, Closing, Shows, StartsWithRoom, ShowsSecond};

use crate::atoms::{add_failing, add_holding, add_strict};
use pm_linform::{Form, VARIABLES};
use pm_logic::{BOUND, Formula, Pure, Term};

/// How large a factor may be.
const FACTOR: i64 = 1 << 31;

/// Whether the pure formula is an equation.
#[tactic(auto, using(crate::proofs::Sums::equations))]
fn is_equation(p: &Pure) -> bool
    ensures { IsTrue result ↔ IsEquation p.now }
{
    matches!(p, Pure::Eq(..))
}

/// Whether `c` is no larger than a factor may be.
fn is_size(c: i64) -> bool
    ensures { IsTrue result ↔ IsAtMost (pos (2 ^ 31)) c }
{
    -FACTOR <= c && c <= FACTOR
}

/// Whether `c` may be the factor of the fact: it is negative only where that is an equation.
#[tactic(auto, unfolding(crate::specs::Certificates::IsFactor))]
fn is_factor(c: i64, f: &Pure) -> bool
    ensures { IsTrue result ↔ IsFactor c f.now }
{
    is_size(c) && (c >= 0 || is_equation(f))
}

/// Whether `c` may be the factor of the negated conclusion.
#[tactic(auto, unfolding(crate::specs::Certificates::IsFirstFactor))]
fn is_first_factor(c: i64) -> bool
    ensures { IsTrue result ↔ IsFirstFactor c }
{
    is_size(c) && c >= 0
}

/// The first factor and the others.
fn first_and_rest(factors: &[i64]) -> Option<(i64, &[i64])>
    ensures { MatchOption result (factors.now ≡ []) (λ x. factors.now ≡ x.0 ∷ x.1.now) }
{
    let (c, cs) = factors.split_first()?;
    Some((*c, cs))
}

/// Adds each factor times the form of its fact, where `p` is a list of facts, and there is a factor for each.
#[tactic(auto, using(crate::proofs::Sums::sums))]
fn add_facts(total: Form, factors: &[i64], p: &Pure) -> Option<Form>
    requires scoped { PureScoped VARIABLES p.now }
    requires depth { pure_depth p.now ≤ BOUND }
    requires room { HasRoom total (pure_depth p.now) }
    ensures { FactsAdded factors.now p.now total result }
{
    match p {
        Pure::True => match first_and_rest(factors) {
            Some(_) => None,
            None => Some(total),
        },
        Pure::And(f, rest) => {
            let (c, cs) = first_and_rest(factors)?;
            if !is_factor(c, f.get()) {
                return None;
            }
            add_facts(add_holding(total, c, f.get())?, cs, rest.get())
        }
        Pure::False | Pure::Eq(..) | Pure::Le(..) | Pure::Lt(..) => None,
        Pure::Or(..) | Pure::Not(_) => None,
    }
}

/// `c` times the form of the negated atom, where `g` is one and its terms are small.
#[tactic(auto, using(crate::proofs::Shown::starts))]
fn start(c: i64, g: &Pure) -> Option<Form>
    requires scoped { PureScoped VARIABLES g.now }
    requires factor { IsFirstFactor c }
    ensures { Starts c g.now result }
{
    add_failing(Form::zero(), c, g)
}

/// The same for the equation of `t` and `s`.
#[tactic(auto, using(crate::proofs::Shown::starts))]
fn start_mirrored(c: i64, s: &Term, t: &Term) -> Option<Form>
    requires left { TermScoped VARIABLES s.now }
    requires right { TermScoped VARIABLES t.now }
    requires factor { IsFirstFactor c }
    ensures { Starts c (Pure.Eq t.now s.now) result }
{
    add_strict(Form::zero(), c, s, t)
}

/// Whether with the facts times their factors the sum has no variable and is at least 1.
#[tactic(auto, using(crate::proofs::Shown::closings))]
fn closes(start: Option<Form>, factors: &[i64], facts: &Pure) -> bool
    requires scoped { PureScoped VARIABLES facts.now }
    requires depth { pure_depth facts.now ≤ BOUND }
    requires room { StartsWithRoom start (pure_depth facts.now) }
    ensures { IsTrue result ↔ Closing start factors.now facts.now }
{
    let Some(total) = start else {
        return false;
    };
    match add_facts(total, factors, facts) {
        Some(sum) => sum.is_positive_constant(),
        None => false,
    }
}

/// Whether the factors show that the facts give the atom.
#[tactic(auto, using(crate::proofs::Shown::shown))]
fn shows(factors: &[i64], facts: &Pure, g: &Pure) -> bool
    requires facts { PureScoped VARIABLES facts.now }
    requires goal { PureScoped VARIABLES g.now }
    requires depth { pure_depth facts.now < BOUND }
    ensures { IsTrue result ↔ Shows factors.now facts.now g.now }
{
    match first_and_rest(factors) {
        Some((c, cs)) => is_first_factor(c) && closes(start(c, g), cs, facts),
        None => false,
    }
}

/// The same for the equation of `t` and `s`.
#[tactic(auto, using(crate::proofs::Shown::shown))]
fn shows_mirrored(factors: &[i64], facts: &Pure, s: &Term, t: &Term) -> bool
    requires facts { PureScoped VARIABLES facts.now }
    requires left { TermScoped VARIABLES s.now }
    requires right { TermScoped VARIABLES t.now }
    requires depth { pure_depth facts.now < BOUND }
    ensures { IsTrue result ↔ Shows factors.now facts.now (Pure.Eq t.now s.now) }
{
    match first_and_rest(factors) {
        Some((c, cs)) => is_first_factor(c) && closes(start_mirrored(c, s, t), cs, facts),
        None => false,
    }
}

/// Whether the second list of factors is what `g` takes: none, or for an equation one that shows it read the other way.
#[tactic(auto, using(crate::proofs::Facts::scopes))]
fn has_second(factors: &[i64], facts: &Pure, g: &Pure) -> bool
    requires facts { PureScoped VARIABLES facts.now }
    requires goal { PureScoped VARIABLES g.now }
    requires depth { pure_depth facts.now < BOUND }
    requires list { IsFacts facts.now }
    ensures { IsTrue result ↔ ShowsSecond factors.now facts.now g.now }
{
    match g {
        Pure::Eq(s, t) => shows_mirrored(factors, facts, s, t),
        _ => factors.is_empty(),
    }
}

/// Whether the factors show in so many variables that the facts on the left give the atom on the right.
#[tactic(auto, using(crate::proofs::Certified::linears))]
pub fn has_factors(
    first: &[i64],
    second: &[i64],
    vars: u32,
    left: &Formula,
    right: &Formula,
) -> bool
    requires left { ScopedIn vars left.now }
    requires right { ScopedIn vars right.now }
    requires depth { depth_of left.now ≤ BOUND }
    ensures { IsTrue result ↔ HasFactors first.now second.now vars left.now right.now }
{
    if vars as usize > VARIABLES {
        return false;
    }
    match (left, right) {
        (Formula::Pure(facts), Formula::Pure(g)) => shows(first, facts, g)
            && has_second(second, facts, g),
        _ => false,
    }
}
