//! Formulas as universal quantifiers.

ghost use Rattle.std.specs.Prelude.{◌≡◌, ◌+◌, [], ◌∷◌, IfOk};
ghost use Rattle.pm_logic.specs.declared.formula.Formula.TheViews as view;
ghost use Rattle.pm_logic.specs.Size.{depth_of};
ghost use Rattle.pm_proof.specs.Trees.{entail, conclusion};
ghost use Rattle.pm_schemes.specs.Sketches.{deepest};
ghost use Rattle.pm_classes.specs.Closing.{Closes, ClosesBoth};
ghost use Rattle.pm_classes.specs.Entries.{IsHanded, ForallAnswer};

use crate::binders::{later_inward, pers_inward};
use crate::closing::{close_both, whole_one};
use crate::entry::One;
use pm_logic::{Formula, Memory};
use pm_proof::Proof;
use pm_schemes::{Letters, Pattern, Scheme, all, gap, later, pers, step};
use std::alloc::Global;

const A: Pattern = Pattern::Letter(0);

/// A body, which stands under the binder alone.
const X: Pattern = Pattern::Letter(1);

/// From A ⊢ ∀ X and ▷ ∀ X ⊢ ∀ ▷ X: ▷ A ⊢ ∀ ▷ X.
static LATER: Scheme = step!(
    Trans, later!(A) => all!(later!(X));
    step!(LaterMono, later!(A) => later!(all!(X)); gap!(A => all!(X)));
    gap!(later!(all!(X)) => all!(later!(X)))
);

/// From A ⊢ ∀ X and □ ∀ X ⊢ ∀ □ X: □ A ⊢ ∀ □ X.
static PERS: Scheme = step!(
    Trans, pers!(A) => all!(pers!(X));
    step!(PersMono, pers!(A) => pers!(all!(X)); gap!(A => all!(X)));
    gap!(pers!(all!(X)) => all!(pers!(X)))
);

/// The entry of `f ⊢ ∀ b`: the body of a universal quantifier, or that of what stands under later or persistence modalities,
/// behind them. `None` exactly where there is none. The error is want of memory.
pub fn into_forall(alloc: Global, vars: u32, f: &Formula) -> Result<Option<One>, Memory>
    requires { IsHanded vars f.now }
    ensures { IfOk result (λ r. ForallAnswer vars f.now r) }
{
    match f {
        Formula::All(a) => {
            let entry = whole_one(alloc, vars, f, a.get())?;
            Ok(Some(entry))
        }
        Formula::Later(a) => {
            let Some(entry) = into_forall(alloc, vars, a.get())? else {
                return Ok(None);
            };
            let inward = later_inward(alloc, vars, &entry.formula)?;
            let entry = under_later(alloc, vars, a.get(), entry, inward)?;
            Ok(Some(entry))
        }
        Formula::Pers(a) => {
            let Some(entry) = into_forall(alloc, vars, a.get())? else {
                return Ok(None);
            };
            let inward = pers_inward(alloc, vars, &entry.formula)?;
            let entry = under_pers(alloc, vars, a.get(), entry, inward)?;
            Ok(Some(entry))
        }
        _ => Ok(None),
    }
}

/// The entry one step later.
#[tactic(auto, unfolding(pm_schemes::specs::Tests::passes, pm_schemes::specs::Tests::fits_row))]
fn under_later(
    alloc: Global,
    vars: u32,
    a: &Formula,
    entry: One,
    inward: Proof,
) -> Result<One, Memory>
    requires entry { conclusion entry.proof ≡ entail vars a.now (view.All entry.formula) }
    requires inward { conclusion inward ≡ entail vars (view.Later (view.All entry.formula)) (view.All (view.Later entry.formula)) }
    ensures formula { IfOk result (λ r. r.formula ≡ view.Later entry.formula) }
    ensures proof { IfOk result (λ r. ClosesBoth entry.proof inward (entail vars (view.Later a.now) (view.All (view.Later entry.formula))) 2 (deepest (a.now ∷ entry.formula ∷ []) [] + 2) vars r.proof) }
{
    let One { formula, proof } = entry;
    let letters = Letters {
        formulas: &[a, &formula],
        pures: &[],
    };
    let proof = close_both(alloc, vars, &LATER, letters, proof, inward)?;
    let formula = pm_logic::later(alloc, formula)?;
    Ok(One { formula, proof })
}

/// The entry under a persistence modality.
#[tactic(auto, unfolding(pm_schemes::specs::Tests::passes, pm_schemes::specs::Tests::fits_row))]
fn under_pers(
    alloc: Global,
    vars: u32,
    a: &Formula,
    entry: One,
    inward: Proof,
) -> Result<One, Memory>
    requires entry { conclusion entry.proof ≡ entail vars a.now (view.All entry.formula) }
    requires inward { conclusion inward ≡ entail vars (view.Pers (view.All entry.formula)) (view.All (view.Pers entry.formula)) }
    ensures formula { IfOk result (λ r. r.formula ≡ view.Pers entry.formula) }
    ensures proof { IfOk result (λ r. ClosesBoth entry.proof inward (entail vars (view.Pers a.now) (view.All (view.Pers entry.formula))) 2 (deepest (a.now ∷ entry.formula ∷ []) [] + 2) vars r.proof) }
{
    let One { formula, proof } = entry;
    let letters = Letters {
        formulas: &[a, &formula],
        pures: &[],
    };
    let proof = close_both(alloc, vars, &PERS, letters, proof, inward)?;
    let formula = pm_logic::pers(alloc, formula)?;
    Ok(One { formula, proof })
}
