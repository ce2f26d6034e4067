//! Framing where no part is looked at.

ghost use Rattle.std.specs.Prelude.{◌≡◌, ◌+◌, ◌-◌, ◌<◌, ◌&&◌, nat_lt, [], ◌∷◌, IfOk};
ghost use Rattle.pm_logic.specs.declared.formula.Formula.TheVariants.{Pts};
ghost use Rattle.pm_logic.specs.declared.formula.Formula.TheViews as view;
ghost use Rattle.pm_logic.specs.Abstraction.{term_eq};
ghost use Rattle.pm_proof.specs.Trees.{entail};
ghost use Rattle.pm_proof.specs.Known.{Proves, Every};
ghost use Rattle.pm_schemes.specs.Sketches.{deepest};
ghost use Rattle.pm_table.specs.Basic as table;
ghost use Rattle.pm_table.specs.Framing.{truth, fewer_units as table_fewer_units};
ghost use Rattle.pm_frame.specs.Frames.{FrameAnswers, IsFramed};

use crate::framed::Framed;
use pm_logic::{Formula, Memory, Pure, Term, copy, copy_term, same_term, sep};
use pm_proof::{Proof, by_rule};
use pm_rules::{Entail, Rule};
use pm_schemes::{Letters, Pattern, PurePattern, Scheme, derive, step};
use std::alloc::Global;

const R: Pattern = Pattern::Letter(0);

const TRUTH: Pattern = Pattern::Pure(&PurePattern::True);

/// R ∗ ⊤ ⊢ R
static WHOLE: Scheme = step!(SepWeaken, pm_schemes::sep!(R, TRUTH) => R);

/// Whether the formula is `⌜True⌝`.
pub fn is_truth(f: &Formula) -> bool
    ensures { result ≡ table.is_truth f.now }
{
    matches!(f, Formula::Pure(Pure::True))
}

/// Nothing but truth is left of a formula without itself.
pub fn whole(alloc: Global, vars: u32, r: &Formula) -> Result<Framed, Memory>
    ensures { IfOk result (λ f. IsFramed vars r.now r.now truth f) }
{
    let proof = itself(alloc, vars, r)?;
    let rest = Formula::Pure(Pure::True);
    Ok(Framed { rest, proof })
}

#[tactic(auto, unfolding(pm_schemes::specs::Tests::passes, pm_schemes::specs::Tests::fits_row))]
fn itself(alloc: Global, vars: u32, r: &Formula) -> Result<Proof, Memory>
    ensures { IfOk result (λ p. Proves Every (entail vars (view.Sep r.now truth) r.now) [] 1 (deepest (r.now ∷ []) [] + 3) vars p) }
{
    let letters = Letters {
        formulas: &[r],
        pures: &[],
    };
    let proof = derive(alloc, vars, &WHOLE, letters)?;
    Ok(proof)
}

/// What is left of a points-to, where the hypothesis is one of the same location and value and has fewer units: one of the
/// other units.
pub fn fewer_units(
    alloc: Global,
    vars: u32,
    r: &Formula,
    loc: &Term,
    units: u32,
    val: &Term,
) -> Result<Option<Framed>, Memory>
    ensures { IfOk result (λ f. FrameAnswers vars r.now (Pts loc.now units val.now) (table_fewer_units r.now loc.now units val.now) f) }
{
    let Formula::Pts {
        loc: other,
        units: fewer,
        val: held,
    } = r
    else {
        return Ok(None);
    };
    if is_more(other, *fewer, held, loc, units, val) {
        let framed = other_units(alloc, vars, loc, *fewer, units, val)?;
        return Ok(Some(framed));
    }
    Ok(None)
}

/// Whether the second points-to is of the same location and value, and has more units.
fn is_more(other: &Term, fewer: u32, held: &Term, loc: &Term, units: u32, val: &Term) -> bool
    ensures { result ≡ (term_eq other.now loc.now && term_eq held.now val.now && nat_lt fewer units) }
{
    let same_location = is_same(other, loc);
    let same_value = is_same(held, val);
    same_location && same_value && fewer < units
}

fn is_same(s: &Term, t: &Term) -> bool
    ensures { result ≡ term_eq s.now t.now }
{
    same_term(s, t)
}

/// The units of a points-to besides these.
fn other_units(
    alloc: Global,
    vars: u32,
    loc: &Term,
    fewer: u32,
    units: u32,
    val: &Term,
) -> Result<Framed, Memory>
    requires { fewer < units }
    ensures { IfOk result (λ f. IsFramed vars (Pts loc.now fewer val.now) (Pts loc.now units val.now) (Pts loc.now (units - fewer) val.now) f) }
{
    let rest = pts(alloc, loc, units - fewer, val)?;
    let first = pts(alloc, loc, fewer, val)?;
    let left = sep(alloc, first, copy(alloc, &rest)?)?;
    let right = pts(alloc, loc, units, val)?;
    let conclusion = Entail { vars, left, right };
    let proof = by_rule(alloc, Rule::PtsJoin, None, None, conclusion)?;
    Ok(Framed { rest, proof })
}

fn pts(alloc: Global, loc: &Term, units: u32, val: &Term) -> Result<Formula, Memory>
    ensures { IfOk result (λ f. f ≡ Pts loc.now units val.now) }
{
    let loc = copy_term(alloc, loc)?;
    let val = copy_term(alloc, val)?;
    Ok(Formula::Pts { loc, units, val })
}
