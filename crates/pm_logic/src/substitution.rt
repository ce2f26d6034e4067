//! Substitution, shift, opening, copying and abstraction, tests of the first three, and laws.
//!
//! Under a binder index 0 is the bound variable. So it stays, and the indices of what is put in are one higher there.
//! What takes memory answers `Memory` where a growth is refused, and drops what it made so far.

ghost use Rattle.std.specs.Prelude.{◌≡◌, ◌↔◌, ◌+◌, ◌≤◌, length, IfOk, IsTrue};
ghost use Rattle.pm_logic.specs.Abstraction.{abstract_of, AbstractedOpens, EqualityIsTested};
ghost use Rattle.pm_logic.specs.Bounds.{past_indices, IsBounded};
ghost use Rattle.pm_logic.specs.Kept.{ScopeIsKept, AreSubstitutions};
ghost use Rattle.pm_logic.specs.Scope.{TermScoped, TermsScoped, ScopedIn};
ghost use Rattle.pm_logic.specs.Size.{depth_of};
ghost use Rattle.pm_logic.specs.Substitution.{subst_of, shift_of, opened_of};

use crate::change::{Change, change_formula, change_pure, change_term};
use crate::compare::is_formula_replaced;
use crate::filling::Fill;
use crate::formula::{BOUND, Formula, Pure, Term};
use crate::list::{List, Memory};
use std::alloc::Global;

/// Whether `g` is `f` with entry `i` of `sigma` for each free index `i`, all at once. The free indices of `f` are
/// below the length of `sigma`, which is, with the depth of `f`, at most `BOUND`.
#[tactic(auto, using(crate::proofs::Substitutions::tests))]
pub fn is_subst(f: &Formula, sigma: &List<Term>, g: &Formula) -> bool
    requires scoped { ScopedIn (length sigma.now) f.now }
    requires size { length sigma.now + depth_of f.now ≤ BOUND }
    ensures { IsTrue result ↔ (g.now ≡ subst_of f.now sigma.now) }
{
    is_formula_replaced(Fill::Entries, sigma.as_slice(), 0, f, g)
}

/// Whether `g` is `f` with each free index one higher. The depth of `f` is at most `BOUND`.
#[tactic(auto, using(crate::proofs::Substitutions::tests))]
pub fn is_shift(f: &Formula, g: &Formula) -> bool
    requires { depth_of f.now ≤ BOUND }
    ensures { IsTrue result ↔ (g.now ≡ shift_of f.now) }
{
    is_formula_replaced(Fill::OneUp, &[], 0, f, g)
}

/// Whether `g` is `body` with `t` for the free index 0, and each other free index one lower. The depth of `body` is at
/// most `BOUND`.
#[tactic(auto, using(crate::proofs::Substitutions::tests))]
pub fn is_opened(body: &Formula, t: &Term, g: &Formula) -> bool
    requires { depth_of body.now ≤ BOUND }
    ensures { IsTrue result ↔ (g.now ≡ opened_of body.now t.now) }
{
    is_formula_replaced(Fill::First, std::slice::from_ref(t), 0, body, g)
}

/// `f` with entry `i` of `sigma` for each free index `i`, all at once. The free indices of `f` are below the length
/// of `sigma`, which is, with the depth of `f`, at most `BOUND`, and no index in `sigma` is above `BOUND`.
#[tactic(auto, using(crate::proofs::Substitutions::fillings))]
pub fn subst(alloc: Global, f: &Formula, sigma: &List<Term>) -> Result<Formula, Memory>
    requires scoped { ScopedIn (length sigma.now) f.now }
    requires size { length sigma.now + depth_of f.now ≤ BOUND }
    requires terms { TermsScoped past_indices sigma.now }
    ensures { IfOk result (λ g. g ≡ subst_of f.now sigma.now) }
{
    change_formula(
        alloc,
        Change::Replace(Fill::Entries),
        sigma.as_slice(),
        0,
        f,
    )
}

/// `f` with each free index one higher. It is scoped in some number of variables that is, with its depth, at most
/// `BOUND`.
#[tactic(auto, using(crate::proofs::Substitutions::fillings))]
pub fn shift(alloc: Global, f: &Formula) -> Result<Formula, Memory>
    requires { IsBounded f.now }
    ensures { IfOk result (λ g. g ≡ shift_of f.now) }
{
    change_formula(alloc, Change::Replace(Fill::OneUp), &[], 0, f)
}

/// `body` with `t` for the free index 0, and each other free index one lower. `body` is scoped in some number of
/// variables that is, with its depth, at most `BOUND`, and no index of `t` is above `BOUND`.
#[tactic(auto, using(crate::proofs::Substitutions::fillings))]
pub fn opened(alloc: Global, body: &Formula, t: &Term) -> Result<Formula, Memory>
    requires body { IsBounded body.now }
    requires term { TermScoped past_indices t.now }
    ensures { IfOk result (λ g. g ≡ opened_of body.now t.now) }
{
    change_formula(
        alloc,
        Change::Replace(Fill::First),
        std::slice::from_ref(t),
        0,
        body,
    )
}

/// The body, one variable wider than `f`, in which every subterm equal to `s` is the new free index 0, and nothing
/// else is. Under binders it is `s` with its indices raised by their number that counts. `f` is scoped in some
/// number of variables that is, with its depth, at most `BOUND`, and no index of `s` is above `BOUND`.
#[tactic(auto, using(crate::proofs::Substitutions::fillings))]
pub fn abstract_term(alloc: Global, f: &Formula, s: &Term) -> Result<Formula, Memory>
    requires formula { IsBounded f.now }
    requires term { TermScoped past_indices s.now }
    ensures { IfOk result (λ body. body ≡ abstract_of f.now s.now) }
{
    change_formula(alloc, Change::Abstract, std::slice::from_ref(s), 0, f)
}

/// Opened with the term, what `abstract_term` gives is the formula again.
pub fn abstracted_opens()
    ensures { AbstractedOpens }
{}

/// Abstraction's test tells whether terms are equal trees.
pub fn equality_is_tested()
    ensures { EqualityIsTested }
{}

/// Of a scoped formula, substitution of terms in `k` variables is scoped in `k`, shift and abstraction in one variable
/// more, and opening in one fewer. After each, calls that fit a table still do.
pub fn scope_is_kept()
    ensures { ScopeIsKept }
{}

/// Shift is the substitution of the variables from index 1 on, and opening that of the term and the variables from
/// index 0 on, as many as the formula has.
pub fn are_substitutions()
    ensures { AreSubstitutions }
{}
