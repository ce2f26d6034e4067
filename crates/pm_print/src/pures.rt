//! Pure formulas, in the scope of named variables and of so many binders.

ghost use Rattle.std.specs.Prelude.{◌≡◌, ◌++◌, OnOk};
ghost use Rattle.pm_print.specs.Printing.{text_of, pure_pieces};
ghost use Rattle.pm_print.specs.Parts.{bound_by, comparison_sign, pure_shape};

use crate::sign::{Shape, Sign};
use crate::terms::add_term;
use crate::text::{add_sign, close, open};
use pm_logic::{Bytes, Memory, Name, Pure};

/// The sign of a comparison.
#[tactic(auto, using(crate::proofs::PureCases::comparison_signs))]
fn comparison_sign(p: &Pure) -> Sign
    ensures { result ≡ comparison_sign p.now }
{
    match p {
        Pure::Eq(_, _) => Sign::Equals,
        Pure::Le(_, _) => Sign::AtMost,
        Pure::Lt(_, _)
        | Pure::True
        | Pure::False
        | Pure::And(_, _)
        | Pure::Or(_, _)
        | Pure::Not(_) => Sign::Less,
    }
}

/// The shape of an infix.
#[tactic(auto, using(crate::proofs::PureCases::pure_shapes))]
fn pure_shape(p: &Pure) -> Shape
    ensures { result ≡ pure_shape p.now }
{
    match p {
        Pure::And(_, _) => Shape::new(2, 3, 2, Sign::And),
        Pure::Or(_, _)
        | Pure::True
        | Pure::False
        | Pure::Eq(_, _)
        | Pure::Le(_, _)
        | Pure::Lt(_, _)
        | Pure::Not(_) => Shape::new(1, 2, 1, Sign::Or),
    }
}

/// A pure formula where the level `needs` is needed: disjunctions 1, conjunctions 2, negations 3, others 4.
#[tactic(auto, using(crate::proofs::PureCases::pure_leaves))]
pub fn add_pure(
    text: &mut Bytes,
    needs: u8,
    vars: &[Name],
    binders: u32,
    p: &Pure,
) -> Result<(), Memory>
    ensures { OnOk result (text.new ≡ text.old ++ text_of (pure_pieces needs (bound_by binders vars.now) p.now)) }
{
    match p {
        Pure::True => add_sign(text, Sign::True),
        Pure::False => add_sign(text, Sign::False),
        Pure::Eq(a, b) | Pure::Le(a, b) | Pure::Lt(a, b) => {
            add_term(text, 0, vars, binders, a)?;
            add_sign(text, comparison_sign(p))?;
            add_term(text, 0, vars, binders, b)
        }
        Pure::And(a, b) | Pure::Or(a, b) => {
            let shape = pure_shape(p);
            open(text, shape.level, needs)?;
            add_pure(text, shape.left, vars, binders, a.get())?;
            add_sign(text, shape.sign)?;
            add_pure(text, shape.right, vars, binders, b.get())?;
            close(text, shape.level, needs)
        }
        Pure::Not(a) => {
            open(text, 3, needs)?;
            add_sign(text, Sign::Not)?;
            add_pure(text, 3, vars, binders, a.get())?;
            close(text, 3, needs)
        }
    }
}
