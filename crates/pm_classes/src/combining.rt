//! Two formulas as one.

ghost use Rattle.std.specs.Prelude.{◌≡◌, ◌+◌, ◌<◌, ◌≤◌, [], ◌∷◌, IfOk};
ghost use Rattle.pm_logic.specs.declared.formula.Formula.TheVariants.{Pure as Fact, Pts};
ghost use Rattle.pm_logic.specs.declared.formula.Formula.TheViews as view;
ghost use Rattle.pm_logic.specs.declared.formula.Pure.TheVariants as pure;
ghost use Rattle.pm_logic.specs.declared.formula.Term.TheVariants.{Var};
ghost use Rattle.pm_logic.specs.declared.formula.TheConstants.{UNIT};
ghost use Rattle.pm_logic.specs.declared.limits.TheConstants.{MAX_LINE_LEVELS};
ghost use Rattle.pm_logic.specs.Size.{depth_of};
ghost use Rattle.pm_logic.specs.Substitution.{in_term, one_up};
ghost use Rattle.pm_proof.specs.Trees.{entail};
ghost use Rattle.pm_proof.specs.Known.{Proves, Every};
ghost use Rattle.pm_schemes.specs.Sketches.{deepest};
ghost use Rattle.pm_classes.specs.Entries.{IsHanded, Combines, CombinesTo};
ghost use Rattle.pm_classes.specs.Classes.{together};

use crate::closing::same;
use crate::entry::One;
use pm_logic::{Formula, Memory, Pure, Term, UNIT, copy, copy_term, same_term, shift};
use pm_proof::Proof;
use pm_schemes::{
    Letters, Pattern, PurePattern, Scheme, agree, and, derive, gap, join_units, overfull, pers,
    rewrite, sep, step,
};
use std::alloc::Global;

const A: Pattern = Pattern::Letter(0);

const B: Pattern = Pattern::Letter(1);

const C: Pattern = Pattern::Letter(2);

const D: Pattern = Pattern::Letter(3);

const FACT: Pattern = Pattern::Pure(&PurePattern::Letter(0));

const OTHER: Pattern = Pattern::Pure(&PurePattern::Letter(1));

/// From B ∗ A ⊢ ⌜ψ⌝: A ∗ B ⊢ □ ⌜ψ⌝ ∗ (A ∗ B).
const BOXED: Scheme = step!(
    Trans, sep!(A, B) => sep!(pers!(OTHER), sep!(A, B));
    step!(
        AndI, sep!(A, B) => and!(pers!(OTHER), sep!(A, B));
        step!(
            Trans, sep!(A, B) => pers!(OTHER);
            step!(
                Trans, sep!(A, B) => OTHER;
                step!(SepComm, sep!(A, B) => sep!(B, A));
                gap!(sep!(B, A) => OTHER)
            );
            step!(PersPure, OTHER => pers!(OTHER))
        );
        step!(Refl, sep!(A, B) => sep!(A, B))
    );
    step!(PersDup, and!(pers!(OTHER), sep!(A, B)) => sep!(pers!(OTHER), sep!(A, B)))
);

/// From ⌜ψ⌝ ∧ B ⊢ C: B ∗ □ ⌜ψ⌝ ⊢ C.
const CHANGED: Scheme = step!(
    Trans, sep!(B, pers!(OTHER)) => C;
    step!(
        AndI, sep!(B, pers!(OTHER)) => and!(OTHER, B);
        step!(
            Trans, sep!(B, pers!(OTHER)) => OTHER;
            step!(
                Trans, sep!(B, pers!(OTHER)) => pers!(OTHER);
                step!(SepComm, sep!(B, pers!(OTHER)) => sep!(pers!(OTHER), B));
                step!(SepWeaken, sep!(pers!(OTHER), B) => pers!(OTHER))
            );
            step!(PersElim, pers!(OTHER) => OTHER)
        );
        step!(SepWeaken, sep!(B, pers!(OTHER)) => B)
    );
    gap!(and!(OTHER, B) => C)
);

/// From B ∗ A ⊢ ⌜ψ⌝ and ⌜ψ⌝ ∧ B ⊢ C: A ∗ B ⊢ A ∗ C.
const REPLACED: Scheme = step!(
    Trans, sep!(A, B) => sep!(A, C);
    BOXED;
    step!(
        Trans, sep!(pers!(OTHER), sep!(A, B)) => sep!(A, C);
        step!(SepComm, sep!(pers!(OTHER), sep!(A, B)) => sep!(sep!(A, B), pers!(OTHER)));
        step!(
            Trans, sep!(sep!(A, B), pers!(OTHER)) => sep!(A, C);
            step!(SepAssocR, sep!(sep!(A, B), pers!(OTHER)) => sep!(A, sep!(B, pers!(OTHER))));
            step!(
                SepMono, sep!(A, sep!(B, pers!(OTHER))) => sep!(A, C);
                step!(Refl, A => A);
                CHANGED
            )
        )
    )
);

/// From A ∗ B ⊢ ⌜φ⌝, B ∗ A ⊢ ⌜ψ⌝, ⌜ψ⌝ ∧ B ⊢ C and A ∗ C ⊢ D: A ∗ B ⊢ ⌜φ⌝ ∗ D.
static AGREED: Scheme = step!(
    Trans, sep!(A, B) => sep!(FACT, D);
    step!(
        AndI, sep!(A, B) => and!(pers!(FACT), D);
        step!(
            Trans, sep!(A, B) => pers!(FACT);
            gap!(sep!(A, B) => FACT);
            step!(PersPure, FACT => pers!(FACT))
        );
        step!(Trans, sep!(A, B) => D; REPLACED; gap!(sep!(A, C) => D))
    );
    step!(
        Trans, and!(pers!(FACT), D) => sep!(FACT, D);
        step!(PersDup, and!(pers!(FACT), D) => sep!(pers!(FACT), D));
        step!(
            SepMono, sep!(pers!(FACT), D) => sep!(FACT, D);
            step!(PersElim, pers!(FACT) => FACT);
            step!(Refl, D => D)
        )
    )
);

/// What `a ∗ b` is as one formula: of two points-to at one location falsehood where they are more than a whole, else one
/// points-to of their units together, beside the equation of their values where these differ. Of all others it is `a ∗ b`.
///
/// The formulas are no deeper than a line of a derivation has room for. The error is want of memory.
pub fn combine(alloc: Global, vars: u32, a: &Formula, b: &Formula) -> Result<One, Memory>
    requires left { IsHanded vars a.now }
    requires right { IsHanded vars b.now }
    requires levels { depth_of a.now ≤ MAX_LINE_LEVELS }
    ensures { IfOk result (λ r. Combines vars a.now b.now r) }
{
    match a {
        Formula::Pts { loc, units, val } => {
            let Formula::Pts {
                loc: other,
                units: more,
                val: new,
            } = b
            else {
                return apart(alloc, vars, a, b);
            };
            if same_term(loc, other) {
                joined(alloc, vars, loc, *units, val, *more, new)
            } else {
                apart(alloc, vars, a, b)
            }
        }
        _ => apart(alloc, vars, a, b),
    }
}

fn apart(alloc: Global, vars: u32, a: &Formula, b: &Formula) -> Result<One, Memory>
    ensures { IfOk result (λ r. CombinesTo vars a.now b.now (view.Sep a.now b.now) r) }
{
    let formula = pm_logic::sep(alloc, copy(alloc, a)?, copy(alloc, b)?)?;
    let proof = same(alloc, vars, &formula)?;
    Ok(One { formula, proof })
}

/// Two points-to at one location.
fn joined(
    alloc: Global,
    vars: u32,
    loc: &Term,
    units: u32,
    val: &Term,
    more: u32,
    new: &Term,
) -> Result<One, Memory>
    requires left { IsHanded vars (Pts loc.now units val.now) }
    requires right { IsHanded vars (Pts loc.now more new.now) }
    requires levels { depth_of (Pts loc.now units val.now) ≤ MAX_LINE_LEVELS }
    ensures { IfOk result (λ r. CombinesTo vars (Pts loc.now units val.now) (Pts loc.now more new.now) (together loc.now units val.now more new.now) r) }
{
    if u64::from(units) + u64::from(more) > u64::from(UNIT) {
        let proof = overfull(alloc, vars, loc, units, val, more, new)?;
        let formula = Formula::Pure(Pure::False);
        return Ok(One { formula, proof });
    }
    let sum = pts(alloc, loc, units + more, val)?;
    if same_term(val, new) {
        let proof = join_units(alloc, vars, loc, units, more, val)?;
        return Ok(One {
            formula: sum,
            proof,
        });
    }
    let proof = agreed(alloc, vars, loc, units, val, more, new)?;
    let equal = equation(alloc, val, new)?;
    let formula = pm_logic::sep(alloc, Formula::Pure(equal), sum)?;
    Ok(One { formula, proof })
}

fn pts(alloc: Global, loc: &Term, units: u32, val: &Term) -> Result<Formula, Memory>
    ensures { IfOk result (λ f. f ≡ Pts loc.now units val.now) }
{
    let loc = copy_term(alloc, loc)?;
    let val = copy_term(alloc, val)?;
    Ok(Formula::Pts { loc, units, val })
}

fn equation(alloc: Global, v: &Term, w: &Term) -> Result<Pure, Memory>
    ensures { IfOk result (λ p. p ≡ pure.Eq v.now w.now) }
{
    let v = copy_term(alloc, v)?;
    let w = copy_term(alloc, w)?;
    Ok(Pure::Eq(v, w))
}

/// `l ↦{a} v ∗ l ↦{b} w ⊢ ⌜v = w⌝ ∗ l ↦{a+b} v`
fn agreed(
    alloc: Global,
    vars: u32,
    loc: &Term,
    units: u32,
    val: &Term,
    more: u32,
    new: &Term,
) -> Result<Proof, Memory>
    requires left { IsHanded vars (Pts loc.now units val.now) }
    requires right { IsHanded vars (Pts loc.now more new.now) }
    requires levels { depth_of (Pts loc.now units val.now) ≤ MAX_LINE_LEVELS }
    requires sum { units + more ≤ UNIT }
    ensures { IfOk result (λ p. Proves Every (entail vars (view.Sep (Pts loc.now units val.now) (Pts loc.now more new.now)) (view.Sep (Fact (pure.Eq val.now new.now)) (Pts loc.now (units + more) val.now))) [] 37 (deepest (Pts loc.now units val.now ∷ Pts loc.now more new.now ∷ []) [] + 4) vars p) }
{
    let same_location = agree(alloc, vars, loc, units, val, more, new)?;
    let reversed = agree(alloc, vars, loc, more, new, units, val)?;
    let replaced = replace(alloc, vars, loc, more, new, val)?;
    let together = join_units(alloc, vars, loc, units, more, val)?;
    let step = agreement(alloc, vars, loc, units, val, more, new)?;
    let step = step.fill(0, same_location);
    let step = step.fill(0, reversed);
    let step = step.fill(0, replaced);
    Ok(step.fill(0, together))
}

/// The step from these four to their conclusion.
fn agreement(
    alloc: Global,
    vars: u32,
    loc: &Term,
    units: u32,
    val: &Term,
    more: u32,
    new: &Term,
) -> Result<Proof, Memory>
    requires { units + more ≤ UNIT }
    ensures { IfOk result (λ p. Proves Every (entail vars (view.Sep (Pts loc.now units val.now) (Pts loc.now more new.now)) (view.Sep (Fact (pure.Eq val.now new.now)) (Pts loc.now (units + more) val.now))) (entail vars (view.Sep (Pts loc.now units val.now) (Pts loc.now more new.now)) (Fact (pure.Eq val.now new.now)) ∷ entail vars (view.Sep (Pts loc.now more new.now) (Pts loc.now units val.now)) (Fact (pure.Eq new.now val.now)) ∷ entail vars (view.And (Fact (pure.Eq new.now val.now)) (Pts loc.now more new.now)) (Pts loc.now more val.now) ∷ entail vars (view.Sep (Pts loc.now units val.now) (Pts loc.now more val.now)) (Pts loc.now (units + more) val.now) ∷ []) 33 (deepest (Pts loc.now units val.now ∷ Pts loc.now more new.now ∷ []) [] + 4) vars p) }
{
    let first = pts(alloc, loc, units, val)?;
    let second = pts(alloc, loc, more, new)?;
    let changed = pts(alloc, loc, more, val)?;
    let sum = pts(alloc, loc, units + more, val)?;
    let equal = equation(alloc, val, new)?;
    let back = equation(alloc, new, val)?;
    let proof = agreeing(alloc, vars, &first, &second, &changed, &sum, &equal, &back)?;
    Ok(proof)
}

#[tactic(auto, unfolding(pm_schemes::specs::Tests::passes, pm_schemes::specs::Tests::fits_row))]
fn agreeing(
    alloc: Global,
    vars: u32,
    a: &Formula,
    b: &Formula,
    c: &Formula,
    d: &Formula,
    p: &Pure,
    q: &Pure,
) -> Result<Proof, Memory>
    ensures { IfOk result (λ t. Proves Every (entail vars (view.Sep a.now b.now) (view.Sep (Fact p.now) d.now)) (entail vars (view.Sep a.now b.now) (Fact p.now) ∷ entail vars (view.Sep b.now a.now) (Fact q.now) ∷ entail vars (view.And (Fact q.now) b.now) c.now ∷ entail vars (view.Sep a.now c.now) d.now ∷ []) 33 (deepest (a.now ∷ b.now ∷ c.now ∷ d.now ∷ []) (p.now ∷ q.now ∷ []) + 4) vars t) }
{
    let letters = Letters {
        formulas: &[a, b, c, d],
        pures: &[p, q],
    };
    let proof = derive(alloc, vars, &AGREED, letters)?;
    Ok(proof)
}

/// `⌜w = v⌝ ∧ l ↦{b} w ⊢ l ↦{b} v`
fn replace(
    alloc: Global,
    vars: u32,
    loc: &Term,
    units: u32,
    old: &Term,
    new: &Term,
) -> Result<Proof, Memory>
    requires left { IsHanded vars (Pts loc.now units old.now) }
    requires right { IsHanded vars (Pts loc.now units new.now) }
    requires levels { depth_of (Pts loc.now units new.now) ≤ MAX_LINE_LEVELS }
    ensures { IfOk result (λ p. Proves Every (entail vars (view.And (Fact (pure.Eq old.now new.now)) (Pts loc.now units old.now)) (Pts loc.now units new.now)) [] 1 (deepest (Pts loc.now units old.now ∷ Pts loc.now units new.now ∷ []) [] + 4) vars p) }
{
    let template = template(alloc, vars, loc, units)?;
    let proof = rewrite(alloc, vars, &template, old, new)?;
    Ok(proof)
}

/// The points-to of the location with one variable more, which is its value.
fn template(alloc: Global, vars: u32, loc: &Term, units: u32) -> Result<Formula, Memory>
    requires { IsHanded vars (Pts loc.now units loc.now) }
    ensures { IfOk result (λ f. f ≡ Pts (in_term one_up loc.now) units (Var 0)) }
{
    let twice = pts(alloc, loc, units, loc)?;
    let shifted = shift(alloc, &twice)?;
    let Formula::Pts { loc: raised, .. } = &shifted else {
        unreachable!();
    };
    let loc = copy_term(alloc, raised)?;
    let val = Term::Var(0);
    Ok(Formula::Pts { loc, units, val })
}
