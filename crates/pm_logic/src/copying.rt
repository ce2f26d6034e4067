//! Copies of trees, which share their parts.

ghost use Rattle.std.specs.Prelude.{◌≡◌, IfOk};

use crate::formula::{Formula, Pure, Term};
use crate::list::{List, Memory};
use pm_shared::Shared;
use std::alloc::Global;

fn share<T: Drop>(part: &Shared<T>) -> Result<Shared<T>, Memory>
    ensures { IfOk result (λ owner. owner ≡ part.now) }
{
    Ok(part.share()?)
}

fn share_both<T: Drop>(a: &Shared<T>, b: &Shared<T>) -> Result<(Shared<T>, Shared<T>), Memory>
    ensures { IfOk result (λ owners. (owners.0 ≡ a.now) × (owners.1 ≡ b.now)) }
{
    Ok((share(a)?, share(b)?))
}

/// The same term once more. It shares the parts, so it takes constant time and no memory. `Memory` says that a part has as
/// many owners as can be counted.
pub fn copy_term(_alloc: Global, t: &Term) -> Result<Term, Memory>
    ensures { IfOk result (λ u. u ≡ t.now) }
{
    match t {
        Term::Lit(z) => Ok(Term::Lit(*z)),
        Term::Var(i) => Ok(Term::Var(*i)),
        Term::Add(a, b) => {
            let (a, b) = share_both(a, b)?;
            Ok(Term::Add(a, b))
        }
        Term::Sub(a, b) => {
            let (a, b) = share_both(a, b)?;
            Ok(Term::Sub(a, b))
        }
        Term::Neg(a) => Ok(Term::Neg(share(a)?)),
        Term::Scale(z, a) => Ok(Term::Scale(*z, share(a)?)),
    }
}

fn copy_two(alloc: Global, s: &Term, t: &Term) -> Result<(Term, Term), Memory>
    ensures { IfOk result (λ terms. (terms.0 ≡ s.now) × (terms.1 ≡ t.now)) }
{
    Ok((copy_term(alloc, s)?, copy_term(alloc, t)?))
}

fn copy_terms(alloc: Global, ts: &[Term]) -> Result<List<Term>, Memory>
    ensures { IfOk result (λ us. us ≡ ts.now) }
{
    let mut out = List::new(alloc);
    for t in ts {
        out.push(copy_term(alloc, t)?)?;
    }
    Ok(out)
}

/// The same pure formula once more. It shares the parts, so it takes constant time and no memory. `Memory` says that a part
/// has as many owners as can be counted.
pub fn copy_pure(alloc: Global, p: &Pure) -> Result<Pure, Memory>
    ensures { IfOk result (λ q. q ≡ p.now) }
{
    match p {
        Pure::True => Ok(Pure::True),
        Pure::False => Ok(Pure::False),
        Pure::Eq(s, t) => {
            let (s, t) = copy_two(alloc, s, t)?;
            Ok(Pure::Eq(s, t))
        }
        Pure::Le(s, t) => {
            let (s, t) = copy_two(alloc, s, t)?;
            Ok(Pure::Le(s, t))
        }
        Pure::Lt(s, t) => {
            let (s, t) = copy_two(alloc, s, t)?;
            Ok(Pure::Lt(s, t))
        }
        Pure::And(a, b) => {
            let (a, b) = share_both(a, b)?;
            Ok(Pure::And(a, b))
        }
        Pure::Or(a, b) => {
            let (a, b) = share_both(a, b)?;
            Ok(Pure::Or(a, b))
        }
        Pure::Not(a) => Ok(Pure::Not(share(a)?)),
    }
}

/// The same formula once more. It shares the parts, so that it takes constant time and no memory but for the list of a
/// call's arguments. `Memory` says that there is none, or that a part has as many owners as can be counted.
pub fn copy(alloc: Global, f: &Formula) -> Result<Formula, Memory>
    ensures { IfOk result (λ g. g ≡ f.now) }
{
    match f {
        Formula::Pure(p) => Ok(Formula::Pure(copy_pure(alloc, p)?)),
        Formula::Sep(a, b) => {
            let (a, b) = share_both(a, b)?;
            Ok(Formula::Sep(a, b))
        }
        Formula::Wand(a, b) => {
            let (a, b) = share_both(a, b)?;
            Ok(Formula::Wand(a, b))
        }
        Formula::And(a, b) => {
            let (a, b) = share_both(a, b)?;
            Ok(Formula::And(a, b))
        }
        Formula::Or(a, b) => {
            let (a, b) = share_both(a, b)?;
            Ok(Formula::Or(a, b))
        }
        Formula::Imp(a, b) => {
            let (a, b) = share_both(a, b)?;
            Ok(Formula::Imp(a, b))
        }
        Formula::All(a) => Ok(Formula::All(share(a)?)),
        Formula::Ex(a) => Ok(Formula::Ex(share(a)?)),
        Formula::Later(a) => Ok(Formula::Later(share(a)?)),
        Formula::Pers(a) => Ok(Formula::Pers(share(a)?)),
        Formula::Upd(a) => Ok(Formula::Upd(share(a)?)),
        Formula::Pts { loc, units, val } => {
            let (loc, val) = copy_two(alloc, loc, val)?;
            let units = *units;
            Ok(Formula::Pts { loc, units, val })
        }
        Formula::Call { pred, args } => {
            let args = copy_terms(alloc, args.as_slice())?;
            Ok(Formula::Call { pred: *pred, args })
        }
    }
}
