//! The integers of a tree that code holds have 64 bits. Contracts see them as any integers; these calls walk a tree and
//! give what its type promises, to whoever has to write the integers down and read them again.

ghost use Rattle.pm_logic.specs.Integers.{TermIsI64, TermsAreI64, PureIsI64, FormulaIsI64};

use crate::formula::{Formula, Pure, Term};

/// The integers in `t` have 64 bits.
#[tactic(auto, using(crate::proofs::Words64::term_integers))]
pub fn term_is_i64(t: &Term)
    ensures { TermIsI64 t.now }
{
    match t {
        Term::Lit(z) => {
            let _z = *z;
        }
        Term::Var(_) => {}
        Term::Add(a, b) | Term::Sub(a, b) => {
            term_is_i64(a.get());
            term_is_i64(b.get());
        }
        Term::Neg(a) => term_is_i64(a.get()),
        Term::Scale(z, a) => {
            let _z = *z;
            term_is_i64(a.get());
        }
    }
}

#[tactic(auto, using(crate::proofs::Words64::list_integers))]
fn terms_are_i64(ts: &[Term])
    ensures { TermsAreI64 ts.now }
{
    for t in ts {
        term_is_i64(t);
    }
}

/// The integers in `p` have 64 bits.
#[tactic(auto, using(crate::proofs::Words64::pure_integers))]
pub fn pure_is_i64(p: &Pure)
    ensures { PureIsI64 p.now }
{
    match p {
        Pure::True | Pure::False => {}
        Pure::Eq(s, t) | Pure::Le(s, t) | Pure::Lt(s, t) => {
            term_is_i64(s);
            term_is_i64(t);
        }
        Pure::And(a, b) | Pure::Or(a, b) => {
            pure_is_i64(a.get());
            pure_is_i64(b.get());
        }
        Pure::Not(a) => pure_is_i64(a.get()),
    }
}

/// The integers in `f` have 64 bits.
#[tactic(auto, using(crate::proofs::Words64::formula_integers))]
pub fn formula_is_i64(f: &Formula)
    ensures { FormulaIsI64 f.now }
{
    match f {
        Formula::Pure(p) => pure_is_i64(p),
        Formula::Sep(a, b)
        | Formula::Wand(a, b)
        | Formula::And(a, b)
        | Formula::Or(a, b)
        | Formula::Imp(a, b) => {
            formula_is_i64(a.get());
            formula_is_i64(b.get());
        }
        Formula::All(a) | Formula::Ex(a) => formula_is_i64(a.get()),
        Formula::Later(a) | Formula::Pers(a) | Formula::Upd(a) => formula_is_i64(a.get()),
        Formula::Pts { loc, val, .. } => {
            term_is_i64(loc);
            term_is_i64(val);
        }
        Formula::Call { args, .. } => terms_are_i64(args.as_slice()),
    }
}
