//! Formulas split into two separate parts.

ghost use Rattle.std.specs.Prelude.{◌≡◌, ◌+◌, ◌/◌, ◌%◌, [], ◌∷◌, IfOk};
ghost use Rattle.pm_logic.specs.declared.formula.Formula.TheVariants.{Pure as Fact, Pts};
ghost use Rattle.pm_logic.specs.declared.formula.Formula.TheViews as view;
ghost use Rattle.pm_logic.specs.declared.formula.Pure.TheViews as pure;
ghost use Rattle.pm_proof.specs.Trees.{entail, conclusion, side_depth};
ghost use Rattle.pm_proof.specs.Known.{Proves, Every};
ghost use Rattle.pm_schemes.specs.Sketches.{deepest};
ghost use Rattle.pm_classes.specs.Classes.{half};
ghost use Rattle.pm_classes.specs.Closing.{Closes};
ghost use Rattle.pm_classes.specs.Entries.{IsHanded, SepAnswer, AndAnswer};

use crate::closing::{close, whole_pair};
use crate::conjoining::into_and;
use crate::entry::Pair;
use crate::persistence::persists;
use pm_logic::{Formula, Memory, Pure, Term, copy, copy_pure, copy_term, persistent};
use pm_proof::{Proof, by_rule};
use pm_rules::{Entail, Rule};
use pm_schemes::{Letters, Pattern, PurePattern, Scheme, and, derive, gap, later, pers, sep, step};
use std::alloc::Global;

const A: Pattern = Pattern::Letter(0);

const B: Pattern = Pattern::Letter(1);

const X: Pattern = Pattern::Letter(1);

const Y: Pattern = Pattern::Letter(2);

const FACT: Pattern = Pattern::Pure(&PurePattern::Letter(0));

const OTHER: Pattern = Pattern::Pure(&PurePattern::Letter(1));

const FACTS: Pattern = Pattern::Pure(&PurePattern::And(
    &PurePattern::Letter(0),
    &PurePattern::Letter(1),
));

/// ⌜φ⌝ ∧ ⌜ψ⌝ ⊢ □ ⌜φ⌝ ∗ ⌜ψ⌝
const ONE_BOXED: Scheme = step!(
    Trans, and!(FACT, OTHER) => sep!(pers!(FACT), OTHER);
    step!(
        AndI, and!(FACT, OTHER) => and!(pers!(FACT), OTHER);
        step!(
            Trans, and!(FACT, OTHER) => pers!(FACT);
            step!(AndL, and!(FACT, OTHER) => FACT);
            step!(PersPure, FACT => pers!(FACT))
        );
        step!(AndR, and!(FACT, OTHER) => OTHER)
    );
    step!(PersDup, and!(pers!(FACT), OTHER) => sep!(pers!(FACT), OTHER))
);

/// ⌜φ ∧ ψ⌝ ⊢ ⌜φ⌝ ∗ ⌜ψ⌝
static BOTH_FACTS: Scheme = step!(
    Trans, FACTS => sep!(FACT, OTHER);
    step!(PureAnd, FACTS => and!(FACT, OTHER));
    step!(
        Trans, and!(FACT, OTHER) => sep!(FACT, OTHER);
        ONE_BOXED;
        step!(
            SepMono, sep!(pers!(FACT), OTHER) => sep!(FACT, OTHER);
            step!(PersElim, pers!(FACT) => FACT);
            step!(Refl, OTHER => OTHER)
        )
    )
);

/// From A ⊢ □ A: A ∧ B ⊢ A ∗ B.
static LEFT_BOXED: Scheme = step!(
    Trans, and!(A, B) => sep!(A, B);
    step!(
        AndI, and!(A, B) => and!(pers!(A), B);
        step!(Trans, and!(A, B) => pers!(A); step!(AndL, and!(A, B) => A); gap!(A => pers!(A)));
        step!(AndR, and!(A, B) => B)
    );
    step!(
        Trans, and!(pers!(A), B) => sep!(A, B);
        step!(PersDup, and!(pers!(A), B) => sep!(pers!(A), B));
        step!(
            SepMono, sep!(pers!(A), B) => sep!(A, B);
            step!(PersElim, pers!(A) => A);
            step!(Refl, B => B)
        )
    )
);

/// From B ⊢ □ B: A ∧ B ⊢ A ∗ B.
static RIGHT_BOXED: Scheme = step!(
    Trans, and!(A, B) => sep!(A, B);
    step!(
        AndI, and!(A, B) => and!(pers!(B), A);
        step!(Trans, and!(A, B) => pers!(B); step!(AndR, and!(A, B) => B); gap!(B => pers!(B)));
        step!(AndL, and!(A, B) => A)
    );
    step!(
        Trans, and!(pers!(B), A) => sep!(A, B);
        step!(PersDup, and!(pers!(B), A) => sep!(pers!(B), A));
        step!(
            Trans, sep!(pers!(B), A) => sep!(A, B);
            step!(SepComm, sep!(pers!(B), A) => sep!(A, pers!(B)));
            step!(
                SepMono, sep!(A, pers!(B)) => sep!(A, B);
                step!(Refl, A => A);
                step!(PersElim, pers!(B) => B)
            )
        )
    )
);

/// From A ⊢ X ∗ Y: ▷ A ⊢ ▷ X ∗ ▷ Y.
static LATER: Scheme = step!(
    Trans, later!(A) => sep!(later!(X), later!(Y));
    step!(LaterMono, later!(A) => later!(sep!(X, Y)); gap!(A => sep!(X, Y)));
    step!(LaterSep, later!(sep!(X, Y)) => sep!(later!(X), later!(Y)))
);

/// The entry of `f ⊢ a ∗ b`: the parts of a separating conjunction, of a pure conjunction or of a conjunction with a
/// persistent part, the halves of a points-to of an even number of units, the parts of what stands under later modalities,
/// each behind them, and those of `into_and` under a persistence modality. `None` exactly where there is none. The error is
/// want of memory.
pub fn into_sep(alloc: Global, vars: u32, f: &Formula) -> Result<Option<Pair>, Memory>
    requires { IsHanded vars f.now }
    ensures { IfOk result (λ r. SepAnswer vars f.now r) }
{
    match f {
        Formula::Sep(a, b) => {
            let entry = whole_pair(alloc, vars, f, a.get(), b.get())?;
            Ok(Some(entry))
        }
        Formula::Pure(fact) => in_fact(alloc, vars, fact),
        Formula::And(a, b) => in_conjunction(alloc, vars, a.get(), b.get()),
        Formula::Pts { loc, units, val } => in_points_to(alloc, vars, loc, *units, val),
        Formula::Later(a) => {
            let Some(entry) = into_sep(alloc, vars, a.get())? else {
                return Ok(None);
            };
            let entry = under_later(alloc, vars, a.get(), entry)?;
            Ok(Some(entry))
        }
        Formula::Pers(a) => {
            let Some(entry) = into_and(alloc, vars, a.get())? else {
                return Ok(None);
            };
            let entry = boxed(alloc, entry)?;
            Ok(Some(entry))
        }
        _ => Ok(None),
    }
}

/// The entry of a pure formula.
fn in_fact(alloc: Global, vars: u32, fact: &Pure) -> Result<Option<Pair>, Memory>
    ensures { IfOk result (λ r. SepAnswer vars (Fact fact.now) r) }
{
    match fact {
        Pure::And(p, q) => {
            let entry = both_facts(alloc, vars, p.get(), q.get())?;
            Ok(Some(entry))
        }
        _ => Ok(None),
    }
}

/// The entry of a conjunction.
fn in_conjunction(
    alloc: Global,
    vars: u32,
    a: &Formula,
    b: &Formula,
) -> Result<Option<Pair>, Memory>
    requires left { IsHanded vars a.now }
    requires right { IsHanded vars b.now }
    ensures { IfOk result (λ r. SepAnswer vars (view.And a.now b.now) r) }
{
    if persistent(a) {
        let proof = persists(alloc, vars, a)?;
        let entry = left_boxed(alloc, vars, a, b, proof)?;
        Ok(Some(entry))
    } else if persistent(b) {
        let proof = persists(alloc, vars, b)?;
        let entry = right_boxed(alloc, vars, a, b, proof)?;
        Ok(Some(entry))
    } else {
        Ok(None)
    }
}

/// The entry of a points-to.
fn in_points_to(
    alloc: Global,
    vars: u32,
    loc: &Term,
    units: u32,
    val: &Term,
) -> Result<Option<Pair>, Memory>
    ensures { IfOk result (λ r. SepAnswer vars (Pts loc.now units val.now) r) }
{
    if units % 2 != 0 {
        return Ok(None);
    }
    let entry = halves(alloc, vars, loc, units, val)?;
    Ok(Some(entry))
}

#[tactic(auto, unfolding(pm_schemes::specs::Tests::passes, pm_schemes::specs::Tests::fits_row))]
fn both_facts(alloc: Global, vars: u32, p: &Pure, q: &Pure) -> Result<Pair, Memory>
    ensures first { IfOk result (λ r. r.first ≡ Fact p.now) }
    ensures second { IfOk result (λ r. r.second ≡ Fact q.now) }
    ensures proof { IfOk result (λ r. Proves Every (entail vars (Fact (pure.And p.now q.now)) (view.Sep (Fact p.now) (Fact q.now))) [] 13 (deepest [] (p.now ∷ q.now ∷ []) + 3) vars r.proof) }
{
    let letters = Letters {
        formulas: &[],
        pures: &[p, q],
    };
    let proof = derive(alloc, vars, &BOTH_FACTS, letters)?;
    let first = Formula::Pure(copy_pure(alloc, p)?);
    let second = Formula::Pure(copy_pure(alloc, q)?);
    Ok(Pair {
        first,
        second,
        proof,
    })
}

/// The parts of a conjunction, where the left one persists.
#[tactic(auto, unfolding(pm_schemes::specs::Tests::passes, pm_schemes::specs::Tests::fits_row))]
fn left_boxed(
    alloc: Global,
    vars: u32,
    a: &Formula,
    b: &Formula,
    boxed: Proof,
) -> Result<Pair, Memory>
    requires { conclusion boxed ≡ entail vars a.now (view.Pers a.now) }
    ensures first { IfOk result (λ r. r.first ≡ a.now) }
    ensures second { IfOk result (λ r. r.second ≡ b.now) }
    ensures proof { IfOk result (λ r. Closes boxed (entail vars (view.And a.now b.now) (view.Sep a.now b.now)) 10 (deepest (a.now ∷ b.now ∷ []) [] + 2) vars r.proof) }
{
    let letters = Letters {
        formulas: &[a, b],
        pures: &[],
    };
    let proof = close(alloc, vars, &LEFT_BOXED, letters, boxed)?;
    let first = copy(alloc, a)?;
    let second = copy(alloc, b)?;
    Ok(Pair {
        first,
        second,
        proof,
    })
}

/// The parts of a conjunction, where the right one persists.
#[tactic(auto, unfolding(pm_schemes::specs::Tests::passes, pm_schemes::specs::Tests::fits_row))]
fn right_boxed(
    alloc: Global,
    vars: u32,
    a: &Formula,
    b: &Formula,
    boxed: Proof,
) -> Result<Pair, Memory>
    requires { conclusion boxed ≡ entail vars b.now (view.Pers b.now) }
    ensures first { IfOk result (λ r. r.first ≡ a.now) }
    ensures second { IfOk result (λ r. r.second ≡ b.now) }
    ensures proof { IfOk result (λ r. Closes boxed (entail vars (view.And a.now b.now) (view.Sep a.now b.now)) 12 (deepest (a.now ∷ b.now ∷ []) [] + 2) vars r.proof) }
{
    let letters = Letters {
        formulas: &[a, b],
        pures: &[],
    };
    let proof = close(alloc, vars, &RIGHT_BOXED, letters, boxed)?;
    let first = copy(alloc, a)?;
    let second = copy(alloc, b)?;
    Ok(Pair {
        first,
        second,
        proof,
    })
}

fn pts(alloc: Global, loc: &Term, units: u32, val: &Term) -> Result<Formula, Memory>
    ensures { IfOk result (λ f. f ≡ Pts loc.now units val.now) }
{
    let loc = copy_term(alloc, loc)?;
    let val = copy_term(alloc, val)?;
    Ok(Formula::Pts { loc, units, val })
}

/// The two halves of a points-to of an even number of units.
#[tactic(auto, using(crate::proofs::Halves::halved))]
fn halves(alloc: Global, vars: u32, loc: &Term, units: u32, val: &Term) -> Result<Pair, Memory>
    requires { units % 2 ≡ 0 }
    ensures first { IfOk result (λ r. r.first ≡ half loc.now units val.now) }
    ensures second { IfOk result (λ r. r.second ≡ half loc.now units val.now) }
    ensures proof { IfOk result (λ r. Proves Every (entail vars (Pts loc.now units val.now) (view.Sep (half loc.now units val.now) (half loc.now units val.now))) [] 1 (side_depth (entail vars (Pts loc.now units val.now) (view.Sep (half loc.now units val.now) (half loc.now units val.now)))) vars r.proof) }
{
    let first = pts(alloc, loc, units / 2, val)?;
    let second = pts(alloc, loc, units / 2, val)?;
    let left = pts(alloc, loc, units, val)?;
    let right = pm_logic::sep(alloc, copy(alloc, &first)?, copy(alloc, &second)?)?;
    let conclusion = Entail { vars, left, right };
    let proof = by_rule(alloc, Rule::PtsSplit, None, None, conclusion)?;
    Ok(Pair {
        first,
        second,
        proof,
    })
}

/// The entry one step later.
#[tactic(auto, unfolding(pm_schemes::specs::Tests::passes, pm_schemes::specs::Tests::fits_row))]
fn under_later(alloc: Global, vars: u32, a: &Formula, entry: Pair) -> Result<Pair, Memory>
    requires { conclusion entry.proof ≡ entail vars a.now (view.Sep entry.first entry.second) }
    ensures first { IfOk result (λ r. r.first ≡ view.Later entry.first) }
    ensures second { IfOk result (λ r. r.second ≡ view.Later entry.second) }
    ensures proof { IfOk result (λ r. Closes entry.proof (entail vars (view.Later a.now) (view.Sep (view.Later entry.first) (view.Later entry.second))) 3 (deepest (a.now ∷ entry.first ∷ entry.second ∷ []) [] + 2) vars r.proof) }
{
    let Pair {
        first,
        second,
        proof,
    } = entry;
    let letters = Letters {
        formulas: &[a, &first, &second],
        pures: &[],
    };
    let proof = close(alloc, vars, &LATER, letters, proof)?;
    let first = pm_logic::later(alloc, first)?;
    let second = pm_logic::later(alloc, second)?;
    Ok(Pair {
        first,
        second,
        proof,
    })
}

/// The parts under a persistence modality, with the same proof.
fn boxed(alloc: Global, entry: Pair) -> Result<Pair, Memory>
    ensures first { IfOk result (λ r. r.first ≡ view.Pers entry.first) }
    ensures second { IfOk result (λ r. r.second ≡ view.Pers entry.second) }
    ensures proof { IfOk result (λ r. r.proof ≡ entry.proof) }
{
    let Pair {
        first,
        second,
        proof,
    } = entry;
    let first = pm_logic::pers(alloc, first)?;
    let second = pm_logic::pers(alloc, second)?;
    Ok(Pair {
        first,
        second,
        proof,
    })
}
