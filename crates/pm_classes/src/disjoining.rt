//! Formulas split into two alternatives.

ghost use Rattle.std.specs.Prelude.{◌≡◌, ◌+◌, [], ◌∷◌, IfOk};
ghost use Rattle.pm_logic.specs.declared.formula.Formula.TheVariants.{Pure as Fact};
ghost use Rattle.pm_logic.specs.declared.formula.Formula.TheViews as view;
ghost use Rattle.pm_logic.specs.declared.formula.Pure.TheViews as pure;
ghost use Rattle.pm_proof.specs.Trees.{entail, conclusion};
ghost use Rattle.pm_proof.specs.Known.{Proves, Every};
ghost use Rattle.pm_schemes.specs.Sketches.{deepest};
ghost use Rattle.pm_classes.specs.Closing.{Closes};
ghost use Rattle.pm_classes.specs.Entries.{OrAnswer};

use crate::closing::{close, whole_pair};
use crate::entry::Pair;
use pm_logic::{Formula, Memory, Pure, copy_pure};
use pm_schemes::{Letters, Pattern, PurePattern, Scheme, derive, gap, later, or, pers, step};
use std::alloc::Global;

const A: Pattern = Pattern::Letter(0);

const X: Pattern = Pattern::Letter(1);

const Y: Pattern = Pattern::Letter(2);

const FACT: Pattern = Pattern::Pure(&PurePattern::Letter(0));

const OTHER: Pattern = Pattern::Pure(&PurePattern::Letter(1));

const FACTS: Pattern = Pattern::Pure(&PurePattern::Or(
    &PurePattern::Letter(0),
    &PurePattern::Letter(1),
));

/// ⌜φ ∨ ψ⌝ ⊢ ⌜φ⌝ ∨ ⌜ψ⌝
static EITHER_FACT: Scheme = step!(PureOr, FACTS => or!(FACT, OTHER));

/// From A ⊢ X ∨ Y: ▷ A ⊢ ▷ X ∨ ▷ Y.
static LATER: Scheme = step!(
    Trans, later!(A) => or!(later!(X), later!(Y));
    step!(LaterMono, later!(A) => later!(or!(X, Y)); gap!(A => or!(X, Y)));
    step!(LaterOr, later!(or!(X, Y)) => or!(later!(X), later!(Y)))
);

/// From A ⊢ X ∨ Y: □ A ⊢ □ X ∨ □ Y.
static PERS: Scheme = step!(
    Trans, pers!(A) => or!(pers!(X), pers!(Y));
    step!(PersMono, pers!(A) => pers!(or!(X, Y)); gap!(A => or!(X, Y)));
    step!(PersOr, pers!(or!(X, Y)) => or!(pers!(X), pers!(Y)))
);

/// The entry of `f ⊢ a ∨ b`: the parts of a disjunction or a pure disjunction, or those of what stands under later or
/// persistence modalities, each behind them. `None` exactly where there is none. The error is want of memory.
pub fn into_or(alloc: Global, vars: u32, f: &Formula) -> Result<Option<Pair>, Memory>
    ensures { IfOk result (λ r. OrAnswer vars f.now r) }
{
    match f {
        Formula::Or(a, b) => {
            let entry = whole_pair(alloc, vars, f, a.get(), b.get())?;
            Ok(Some(entry))
        }
        Formula::Pure(fact) => in_fact(alloc, vars, fact),
        Formula::Later(a) => {
            let Some(entry) = into_or(alloc, vars, a.get())? else {
                return Ok(None);
            };
            let entry = under_later(alloc, vars, a.get(), entry)?;
            Ok(Some(entry))
        }
        Formula::Pers(a) => {
            let Some(entry) = into_or(alloc, vars, a.get())? else {
                return Ok(None);
            };
            let entry = under_pers(alloc, vars, a.get(), entry)?;
            Ok(Some(entry))
        }
        _ => Ok(None),
    }
}

/// The entry of a pure formula.
fn in_fact(alloc: Global, vars: u32, fact: &Pure) -> Result<Option<Pair>, Memory>
    ensures { IfOk result (λ r. OrAnswer vars (Fact fact.now) r) }
{
    match fact {
        Pure::Or(p, q) => {
            let entry = either_fact(alloc, vars, p.get(), q.get())?;
            Ok(Some(entry))
        }
        _ => Ok(None),
    }
}

#[tactic(auto, unfolding(pm_schemes::specs::Tests::passes, pm_schemes::specs::Tests::fits_row))]
fn either_fact(alloc: Global, vars: u32, p: &Pure, q: &Pure) -> Result<Pair, Memory>
    ensures first { IfOk result (λ r. r.first ≡ Fact p.now) }
    ensures second { IfOk result (λ r. r.second ≡ Fact q.now) }
    ensures proof { IfOk result (λ r. Proves Every (entail vars (Fact (pure.Or p.now q.now)) (view.Or (Fact p.now) (Fact q.now))) [] 1 (deepest [] (p.now ∷ q.now ∷ []) + 2) vars r.proof) }
{
    let letters = Letters {
        formulas: &[],
        pures: &[p, q],
    };
    let proof = derive(alloc, vars, &EITHER_FACT, letters)?;
    let first = Formula::Pure(copy_pure(alloc, p)?);
    let second = Formula::Pure(copy_pure(alloc, q)?);
    Ok(Pair {
        first,
        second,
        proof,
    })
}

/// The entry one step later.
#[tactic(auto, unfolding(pm_schemes::specs::Tests::passes, pm_schemes::specs::Tests::fits_row))]
fn under_later(alloc: Global, vars: u32, a: &Formula, entry: Pair) -> Result<Pair, Memory>
    requires { conclusion entry.proof ≡ entail vars a.now (view.Or entry.first entry.second) }
    ensures first { IfOk result (λ r. r.first ≡ view.Later entry.first) }
    ensures second { IfOk result (λ r. r.second ≡ view.Later entry.second) }
    ensures proof { IfOk result (λ r. Closes entry.proof (entail vars (view.Later a.now) (view.Or (view.Later entry.first) (view.Later entry.second))) 3 (deepest (a.now ∷ entry.first ∷ entry.second ∷ []) [] + 2) vars r.proof) }
{
    let Pair {
        first,
        second,
        proof,
    } = entry;
    let letters = Letters {
        formulas: &[a, &first, &second],
        pures: &[],
    };
    let proof = close(alloc, vars, &LATER, letters, proof)?;
    let first = pm_logic::later(alloc, first)?;
    let second = pm_logic::later(alloc, second)?;
    Ok(Pair {
        first,
        second,
        proof,
    })
}

/// The entry under a persistence modality.
#[tactic(auto, unfolding(pm_schemes::specs::Tests::passes, pm_schemes::specs::Tests::fits_row))]
fn under_pers(alloc: Global, vars: u32, a: &Formula, entry: Pair) -> Result<Pair, Memory>
    requires { conclusion entry.proof ≡ entail vars a.now (view.Or entry.first entry.second) }
    ensures first { IfOk result (λ r. r.first ≡ view.Pers entry.first) }
    ensures second { IfOk result (λ r. r.second ≡ view.Pers entry.second) }
    ensures proof { IfOk result (λ r. Closes entry.proof (entail vars (view.Pers a.now) (view.Or (view.Pers entry.first) (view.Pers entry.second))) 3 (deepest (a.now ∷ entry.first ∷ entry.second ∷ []) [] + 2) vars r.proof) }
{
    let Pair {
        first,
        second,
        proof,
    } = entry;
    let letters = Letters {
        formulas: &[a, &first, &second],
        pures: &[],
    };
    let proof = close(alloc, vars, &PERS, letters, proof)?;
    let first = pm_logic::pers(alloc, first)?;
    let second = pm_logic::pers(alloc, second)?;
    Ok(Pair {
        first,
        second,
        proof,
    })
}
