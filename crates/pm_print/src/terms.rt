//! Terms, in the scope of named variables and of so many binders.

ghost use Rattle.std.specs.Prelude.{◌≡◌, ◌++◌, OnOk};
ghost use Rattle.pm_print.specs.Printing.{text_of, term_pieces, terms_pieces};
ghost use Rattle.pm_print.specs.Parts.{bound_by, sum_sign, more_terms};

use crate::names::add_variable;
use crate::sign::Sign;
use crate::text::{add_literal, add_sign, close, open};
use pm_logic::{Bytes, Memory, Name, Term};

/// The sign of a sum.
#[tactic(auto, using(crate::proofs::TermCases::sum_signs))]
fn sum_sign(t: &Term) -> Sign
    ensures { result ≡ sum_sign t.now }
{
    match t {
        Term::Add(_, _) => Sign::Plus,
        Term::Lit(_) | Term::Var(_) | Term::Sub(_, _) | Term::Neg(_) | Term::Scale(_, _) => {
            Sign::Minus
        }
    }
}

/// A term where the level `needs` is needed: sums 1, products and negations 2, literals and variables 3.
#[tactic(auto, using(crate::proofs::TermCases::term_leaves))]
pub fn add_term(
    text: &mut Bytes,
    needs: u8,
    vars: &[Name],
    binders: u32,
    t: &Term,
) -> Result<(), Memory>
    ensures { OnOk result (text.new ≡ text.old ++ text_of (term_pieces needs (bound_by binders vars.now) t.now)) }
{
    match t {
        Term::Lit(z) => add_literal(text, z),
        Term::Var(index) => add_variable(text, vars, binders, *index),
        Term::Add(a, b) | Term::Sub(a, b) => {
            open(text, 1, needs)?;
            add_term(text, 1, vars, binders, a.get())?;
            add_sign(text, sum_sign(t))?;
            add_term(text, 2, vars, binders, b.get())?;
            close(text, 1, needs)
        }
        Term::Neg(a) => {
            open(text, 2, needs)?;
            add_sign(text, Sign::Negation)?;
            add_term(text, 0, vars, binders, a.get())?;
            add_sign(text, Sign::Close)?;
            close(text, 2, needs)
        }
        Term::Scale(z, a) => {
            open(text, 2, needs)?;
            add_literal(text, z)?;
            add_sign(text, Sign::Times)?;
            add_term(text, 2, vars, binders, a.get())?;
            close(text, 2, needs)
        }
    }
}

/// Terms, each behind a comma.
#[tactic(auto, using(crate::proofs::TermCases::more_rules))]
fn add_more(text: &mut Bytes, vars: &[Name], binders: u32, ts: &[Term]) -> Result<(), Memory>
    ensures { OnOk result (text.new ≡ text.old ++ text_of (more_terms (bound_by binders vars.now) ts.now)) }
{
    for t in ts {
        add_sign(text, Sign::Comma)?;
        add_term(text, 0, vars, binders, t)?;
    }
    Ok(())
}

/// Terms with commas between.
pub fn add_terms(text: &mut Bytes, vars: &[Name], binders: u32, ts: &[Term]) -> Result<(), Memory>
    ensures { OnOk result (text.new ≡ text.old ++ text_of (terms_pieces (bound_by binders vars.now) ts.now)) }
{
    match ts {
        [] => Ok(()),
        [first, rest @ ..] => {
            add_term(text, 0, vars, binders, first)?;
            add_more(text, vars, binders, rest)
        }
    }
}
