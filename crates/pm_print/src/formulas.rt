//! Formulas, in the scope of named variables and of so many binders.

ghost use Rattle.std.specs.Prelude.{◌≡◌, ◌+◌, ◌≤◌, [], ◌∷◌, ◌++◌, OnOk};
ghost use Rattle.pm_logic.specs.declared.formula.TheConstants.{BOUND};
ghost use Rattle.pm_logic.specs.Size.{depth_of};
ghost use Rattle.pm_tokens.specs.declared.symbol.Symbol.TheVariants as s;
ghost use Rattle.pm_print.specs.Printing.{text_of, word, names_of, between, pure_pieces, terms_pieces, term_pieces, units_pieces, formula_pieces};
ghost use Rattle.pm_print.specs.Parts.{bound_by, formula_shape};

use crate::names::{add_predicate, add_quantifier};
use crate::pures::add_pure;
use crate::sign::{Shape, Sign};
use crate::terms::{add_term, add_terms};
use crate::text::{add_sign, close, open};
use crate::units::add_units;
use pm_logic::{Bytes, Formula, Memory, Name, Pred, Pure, Term};

/// The shape of an infix, a prefix or a quantifier: quantifiers, updates, wands and implications have the level 0,
/// disjunctions 1, conjunctions and stars 2, laters and persistence 3.
#[tactic(auto, using(crate::proofs::FormulaCases::formula_shapes))]
fn formula_shape(f: &Formula) -> Shape
    ensures { result ≡ formula_shape f.now }
{
    match f {
        Formula::Sep(_, _) => Shape::new(2, 3, 2, Sign::Star),
        Formula::And(_, _) => Shape::new(2, 3, 2, Sign::And),
        Formula::Or(_, _) => Shape::new(1, 2, 1, Sign::Or),
        Formula::Imp(_, _) => Shape::new(0, 1, 0, Sign::Arrow),
        Formula::Wand(_, _) => Shape::new(0, 1, 0, Sign::Wand),
        Formula::All(_) => Shape::new(0, 0, 0, Sign::Forall),
        Formula::Ex(_) => Shape::new(0, 0, 0, Sign::Exists),
        Formula::Later(_) => Shape::new(3, 3, 3, Sign::Later),
        Formula::Pers(_) => Shape::new(3, 3, 3, Sign::Persistently),
        Formula::Upd(_) => Shape::new(0, 0, 0, Sign::Update),
        Formula::Pure(_) | Formula::Pts { .. } | Formula::Call { .. } => {
            Shape::new(0, 0, 0, Sign::Wand)
        }
    }
}

fn add_fact(text: &mut Bytes, vars: &[Name], binders: u32, p: &Pure) -> Result<(), Memory>
    ensures { OnOk result (text.new ≡ text.old ++ text_of (between s.OpenPure s.ClosePure (pure_pieces 0 (bound_by binders vars.now) p.now))) }
{
    add_sign(text, Sign::OpenPure)?;
    add_pure(text, 0, vars, binders, p)?;
    add_sign(text, Sign::ClosePure)
}

fn add_points_to(
    text: &mut Bytes,
    vars: &[Name],
    binders: u32,
    loc: &Term,
    units: u32,
    val: &Term,
) -> Result<(), Memory>
    ensures { OnOk result (text.new ≡ text.old ++ text_of (term_pieces 3 (bound_by binders vars.now) loc.now ++ units_pieces units ++ term_pieces 3 (bound_by binders vars.now) val.now)) }
{
    add_term(text, 3, vars, binders, loc)?;
    add_units(text, units)?;
    add_term(text, 3, vars, binders, val)
}

fn add_call(
    text: &mut Bytes,
    preds: &[Pred],
    vars: &[Name],
    binders: u32,
    pred: u32,
    args: &[Term],
) -> Result<(), Memory>
    ensures { OnOk result (text.new ≡ text.old ++ text_of (word (names_of preds.now) pred ∷ between s.Open s.Close (terms_pieces (bound_by binders vars.now) args.now))) }
{
    add_predicate(text, preds, pred)?;
    add_sign(text, Sign::Open)?;
    add_terms(text, vars, binders, args)?;
    add_sign(text, Sign::Close)
}

/// A formula where the level `needs` is needed.
#[tactic(auto, using(crate::proofs::FormulaCases::formula_leaves))]
pub fn add_formula(
    text: &mut Bytes,
    preds: &[Pred],
    needs: u8,
    vars: &[Name],
    binders: u32,
    f: &Formula,
) -> Result<(), Memory>
    requires { binders + depth_of f.now ≤ BOUND }
    ensures { OnOk result (text.new ≡ text.old ++ text_of (formula_pieces preds.now needs (bound_by binders vars.now) f.now)) }
{
    match f {
        Formula::Pure(p) => add_fact(text, vars, binders, p),
        Formula::Sep(a, b)
        | Formula::Wand(a, b)
        | Formula::And(a, b)
        | Formula::Or(a, b)
        | Formula::Imp(a, b) => {
            let shape = formula_shape(f);
            open(text, shape.level, needs)?;
            add_formula(text, preds, shape.left, vars, binders, a.get())?;
            add_sign(text, shape.sign)?;
            add_formula(text, preds, shape.right, vars, binders, b.get())?;
            close(text, shape.level, needs)
        }
        Formula::All(a) | Formula::Ex(a) => {
            let shape = formula_shape(f);
            open(text, shape.level, needs)?;
            add_quantifier(text, shape.sign, vars.len() + binders as usize)?;
            add_formula(text, preds, shape.right, vars, binders + 1, a.get())?;
            close(text, shape.level, needs)
        }
        Formula::Later(a) | Formula::Pers(a) | Formula::Upd(a) => {
            let shape = formula_shape(f);
            open(text, shape.level, needs)?;
            add_sign(text, shape.sign)?;
            add_formula(text, preds, shape.right, vars, binders, a.get())?;
            close(text, shape.level, needs)
        }
        Formula::Pts { loc, units, val } => add_points_to(text, vars, binders, loc, *units, val),
        Formula::Call { pred, args } => {
            add_call(text, preds, vars, binders, *pred, args.as_slice())
        }
    }
}
