//! Trees from their parts. The error is want of memory, and then the parts are dropped.

ghost use Rattle.std.specs.Prelude.{◌≡◌, IfOk};
ghost use Rattle.pm_logic.specs.declared.formula.Term.TheViews as term;
ghost use Rattle.pm_logic.specs.declared.formula.Pure.TheViews as pure;
ghost use Rattle.pm_logic.specs.declared.formula.Formula.TheViews as view;

use crate::formula::{Formula, Pure, Term};
use crate::list::Memory;
use pm_shared::Shared;
use std::alloc::Global;

fn owned<T: Drop>(alloc: Global, part: T) -> Result<Shared<T>, Memory>
    ensures { IfOk result (λ owner. owner ≡ part) }
{
    Ok(Shared::new(alloc, part)?)
}

/// The sum of two terms.
pub fn add(alloc: Global, a: Term, b: Term) -> Result<Term, Memory>
    ensures { IfOk result (λ made. made ≡ term.Add a b) }
{
    Ok(Term::Add(owned(alloc, a)?, owned(alloc, b)?))
}

/// The difference of two terms.
pub fn sub(alloc: Global, a: Term, b: Term) -> Result<Term, Memory>
    ensures { IfOk result (λ made. made ≡ term.Sub a b) }
{
    Ok(Term::Sub(owned(alloc, a)?, owned(alloc, b)?))
}

/// The negation of a term.
pub fn neg(alloc: Global, a: Term) -> Result<Term, Memory>
    ensures { IfOk result (λ made. made ≡ term.Neg a) }
{
    Ok(Term::Neg(owned(alloc, a)?))
}

/// A factor times a term.
pub fn scale(alloc: Global, factor: i64, a: Term) -> Result<Term, Memory>
    ensures { IfOk result (λ made. made ≡ term.Scale factor a) }
{
    Ok(Term::Scale(factor, owned(alloc, a)?))
}

/// The conjunction of two pure formulas.
pub fn pure_and(alloc: Global, p: Pure, q: Pure) -> Result<Pure, Memory>
    ensures { IfOk result (λ made. made ≡ pure.And p q) }
{
    Ok(Pure::And(owned(alloc, p)?, owned(alloc, q)?))
}

/// The disjunction of two pure formulas.
pub fn pure_or(alloc: Global, p: Pure, q: Pure) -> Result<Pure, Memory>
    ensures { IfOk result (λ made. made ≡ pure.Or p q) }
{
    Ok(Pure::Or(owned(alloc, p)?, owned(alloc, q)?))
}

/// The negation of a pure formula.
pub fn pure_not(alloc: Global, p: Pure) -> Result<Pure, Memory>
    ensures { IfOk result (λ made. made ≡ pure.Not p) }
{
    Ok(Pure::Not(owned(alloc, p)?))
}

/// The separating conjunction of two formulas.
pub fn sep(alloc: Global, a: Formula, b: Formula) -> Result<Formula, Memory>
    ensures { IfOk result (λ made. made ≡ view.Sep a b) }
{
    Ok(Formula::Sep(owned(alloc, a)?, owned(alloc, b)?))
}

/// The magic wand from the first formula to the second.
pub fn wand(alloc: Global, a: Formula, b: Formula) -> Result<Formula, Memory>
    ensures { IfOk result (λ made. made ≡ view.Wand a b) }
{
    Ok(Formula::Wand(owned(alloc, a)?, owned(alloc, b)?))
}

/// The conjunction of two formulas.
pub fn and(alloc: Global, a: Formula, b: Formula) -> Result<Formula, Memory>
    ensures { IfOk result (λ made. made ≡ view.And a b) }
{
    Ok(Formula::And(owned(alloc, a)?, owned(alloc, b)?))
}

/// The disjunction of two formulas.
pub fn or(alloc: Global, a: Formula, b: Formula) -> Result<Formula, Memory>
    ensures { IfOk result (λ made. made ≡ view.Or a b) }
{
    Ok(Formula::Or(owned(alloc, a)?, owned(alloc, b)?))
}

/// The implication from the first formula to the second.
pub fn imp(alloc: Global, a: Formula, b: Formula) -> Result<Formula, Memory>
    ensures { IfOk result (λ made. made ≡ view.Imp a b) }
{
    Ok(Formula::Imp(owned(alloc, a)?, owned(alloc, b)?))
}

/// The body, for every integer.
pub fn all(alloc: Global, a: Formula) -> Result<Formula, Memory>
    ensures { IfOk result (λ made. made ≡ view.All a) }
{
    Ok(Formula::All(owned(alloc, a)?))
}

/// The body, for some integer.
pub fn ex(alloc: Global, a: Formula) -> Result<Formula, Memory>
    ensures { IfOk result (λ made. made ≡ view.Ex a) }
{
    Ok(Formula::Ex(owned(alloc, a)?))
}

/// The formula one step later.
pub fn later(alloc: Global, a: Formula) -> Result<Formula, Memory>
    ensures { IfOk result (λ made. made ≡ view.Later a) }
{
    Ok(Formula::Later(owned(alloc, a)?))
}

/// The formula under the persistence modality.
pub fn pers(alloc: Global, a: Formula) -> Result<Formula, Memory>
    ensures { IfOk result (λ made. made ≡ view.Pers a) }
{
    Ok(Formula::Pers(owned(alloc, a)?))
}

/// The formula after an update.
pub fn upd(alloc: Global, a: Formula) -> Result<Formula, Memory>
    ensures { IfOk result (λ made. made ≡ view.Upd a) }
{
    Ok(Formula::Upd(owned(alloc, a)?))
}
