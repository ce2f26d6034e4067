//! Formulas as existential quantifiers.

ghost use Rattle.std.specs.Prelude.{◌≡◌, ◌+◌, [], ◌∷◌, IfOk};
ghost use Rattle.pm_logic.specs.declared.formula.Formula.TheViews as view;
ghost use Rattle.pm_proof.specs.Trees.{entail, conclusion};
ghost use Rattle.pm_schemes.specs.Sketches.{deepest};
ghost use Rattle.pm_classes.specs.Closing.{Closes};
ghost use Rattle.pm_classes.specs.Entries.{ExistAnswer};

use crate::closing::{close, whole_one};
use crate::entry::One;
use pm_logic::{Formula, Memory};
use pm_schemes::{Letters, Pattern, Scheme, ex, gap, later, pers, step};
use std::alloc::Global;

const A: Pattern = Pattern::Letter(0);

/// A body, which stands under the binder alone.
const X: Pattern = Pattern::Letter(1);

/// From A ⊢ ∃ X: ▷ A ⊢ ∃ ▷ X.
static LATER: Scheme = step!(
    Trans, later!(A) => ex!(later!(X));
    step!(LaterMono, later!(A) => later!(ex!(X)); gap!(A => ex!(X)));
    step!(LaterEx, later!(ex!(X)) => ex!(later!(X)))
);

/// From A ⊢ ∃ X: □ A ⊢ ∃ □ X.
static PERS: Scheme = step!(
    Trans, pers!(A) => ex!(pers!(X));
    step!(PersMono, pers!(A) => pers!(ex!(X)); gap!(A => ex!(X)));
    step!(PersEx, pers!(ex!(X)) => ex!(pers!(X)))
);

/// The entry of `f ⊢ ∃ b`: the body of an existential quantifier, or that of what stands under later or persistence
/// modalities, behind them. `None` exactly where there is none. The error is want of memory.
pub fn into_exist(alloc: Global, vars: u32, f: &Formula) -> Result<Option<One>, Memory>
    ensures { IfOk result (λ r. ExistAnswer vars f.now r) }
{
    match f {
        Formula::Ex(a) => {
            let entry = whole_one(alloc, vars, f, a.get())?;
            Ok(Some(entry))
        }
        Formula::Later(a) => {
            let Some(entry) = into_exist(alloc, vars, a.get())? else {
                return Ok(None);
            };
            let entry = under_later(alloc, vars, a.get(), entry)?;
            Ok(Some(entry))
        }
        Formula::Pers(a) => {
            let Some(entry) = into_exist(alloc, vars, a.get())? else {
                return Ok(None);
            };
            let entry = under_pers(alloc, vars, a.get(), entry)?;
            Ok(Some(entry))
        }
        _ => Ok(None),
    }
}

/// The entry one step later.
#[tactic(auto, unfolding(pm_schemes::specs::Tests::passes, pm_schemes::specs::Tests::fits_row))]
fn under_later(alloc: Global, vars: u32, a: &Formula, entry: One) -> Result<One, Memory>
    requires { conclusion entry.proof ≡ entail vars a.now (view.Ex entry.formula) }
    ensures formula { IfOk result (λ r. r.formula ≡ view.Later entry.formula) }
    ensures proof { IfOk result (λ r. Closes entry.proof (entail vars (view.Later a.now) (view.Ex (view.Later entry.formula))) 3 (deepest (a.now ∷ entry.formula ∷ []) [] + 2) vars r.proof) }
{
    let One { formula, proof } = entry;
    let letters = Letters {
        formulas: &[a, &formula],
        pures: &[],
    };
    let proof = close(alloc, vars, &LATER, letters, proof)?;
    let formula = pm_logic::later(alloc, formula)?;
    Ok(One { formula, proof })
}

/// The entry under a persistence modality.
#[tactic(auto, unfolding(pm_schemes::specs::Tests::passes, pm_schemes::specs::Tests::fits_row))]
fn under_pers(alloc: Global, vars: u32, a: &Formula, entry: One) -> Result<One, Memory>
    requires { conclusion entry.proof ≡ entail vars a.now (view.Ex entry.formula) }
    ensures formula { IfOk result (λ r. r.formula ≡ view.Pers entry.formula) }
    ensures proof { IfOk result (λ r. Closes entry.proof (entail vars (view.Pers a.now) (view.Ex (view.Pers entry.formula))) 3 (deepest (a.now ∷ entry.formula ∷ []) [] + 2) vars r.proof) }
{
    let One { formula, proof } = entry;
    let letters = Letters {
        formulas: &[a, &formula],
        pures: &[],
    };
    let proof = close(alloc, vars, &PERS, letters, proof)?;
    let formula = pm_logic::pers(alloc, formula)?;
    Ok(One { formula, proof })
}
