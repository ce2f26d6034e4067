//! Terms for the indices of formulas when a goal loses a variable.

ghost use Rattle.std.specs.Prelude.{◌≡◌, ◌<◌, ◌≤◌, pos, pred, nat_eq, nat_lt, suc, IfOk, if◌then◌else◌};
ghost use Rattle.pm_logic.specs.declared.formula.Term.TheVariants.{Lit, Var};
ghost use Rattle.pm_logic.specs.declared.formula.TheConstants.{BOUND};
ghost use Rattle.pm_basic.specs.Replacements.{term_for, first_terms};

use pm_logic::{List, Memory, Term};
use std::alloc::Global;

/// What becomes of a formula by the terms. The variable is the one that the goal loses.
#[derive(Clone, Copy)]
pub(crate) enum Role {
    /// It loses the variable.
    Losing,
    /// It goes under a binder of its own, which binds the variable.
    Binding,
    /// After it lost the variable, it gets it back.
    Regaining,
    /// As by `Binding`, and the variable stays where it was.
    Rebinding,
    /// The variable becomes 0.
    Testing,
}

fn losing(i: u32, j: u32) -> u32
    ensures { result ≡ (if nat_lt i j then pred j else j) }
{
    if i < j { j - 1 } else { j }
}

fn binding(i: u32, j: u32) -> u32
    requires { j < BOUND }
    ensures { result ≡ (if nat_eq i j then 0 else (if nat_lt i j then j else suc j)) }
{
    if i == j {
        return 0;
    }
    if i < j { j } else { j + 1 }
}

fn regaining(i: u32, j: u32) -> u32
    requires { j < BOUND }
    ensures { result ≡ (if nat_lt j i then j else suc j) }
{
    if j < i { j } else { j + 1 }
}

fn rebinding(i: u32, j: u32) -> u32
    requires { j < BOUND }
    ensures { result ≡ (if nat_eq i j then 0 else suc j) }
{
    if i == j { 0 } else { j + 1 }
}

fn testing(i: u32, j: u32) -> Term
    ensures { result ≡ (if nat_eq i j then Lit (pos 0) else Var j) }
{
    if i == j { Term::Lit(0) } else { Term::Var(j) }
}

/// The term for index `j`, where the variable has index `i`.
fn term_for(role: Role, i: u32, j: u32) -> Term
    requires { j < BOUND }
    ensures { result ≡ term_for role i j }
{
    match role {
        Role::Losing => Term::Var(losing(i, j)),
        Role::Binding => Term::Var(binding(i, j)),
        Role::Regaining => Term::Var(regaining(i, j)),
        Role::Rebinding => Term::Var(rebinding(i, j)),
        Role::Testing => testing(i, j),
    }
}

/// The terms for the first `count` indices, where the variable has index `i`.
pub(crate) fn terms_for(alloc: Global, role: Role, i: u32, count: u32) -> Result<List<Term>, Memory>
    requires { count ≤ BOUND }
    ensures { IfOk result (λ ts. ts ≡ first_terms (term_for role i) count) }
{
    let mut out = List::new(alloc);
    for j in 0..count {
        out.push(term_for(role, i, j))?;
    }
    Ok(out)
}
