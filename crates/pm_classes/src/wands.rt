//! Formulas as wands.

ghost use Rattle.std.specs.Prelude.{◌≡◌, ◌+◌, [], ◌∷◌, IfOk};
ghost use Rattle.pm_logic.specs.declared.formula.Formula.TheViews as view;
ghost use Rattle.pm_proof.specs.Trees.{entail, conclusion};
ghost use Rattle.pm_proof.specs.Known.{Proves, Every};
ghost use Rattle.pm_schemes.specs.Sketches.{deepest};
ghost use Rattle.pm_classes.specs.Closing.{Closes};
ghost use Rattle.pm_classes.specs.Entries.{WandAnswer};

use crate::closing::{close, whole_pair};
use crate::entry::Pair;
use pm_logic::{Formula, Memory, copy, persistent};
use pm_schemes::{Letters, Pattern, Scheme, and, derive, gap, imp, later, pers, sep, step, wand};
use std::alloc::Global;

const A: Pattern = Pattern::Letter(0);

const B: Pattern = Pattern::Letter(1);

const X: Pattern = Pattern::Letter(1);

const Y: Pattern = Pattern::Letter(2);

/// A → B ⊢ A -∗ B
static IMPLICATION: Scheme = step!(
    WandI, imp!(A, B) => wand!(A, B);
    step!(
        Trans, sep!(imp!(A, B), A) => B;
        step!(
            AndI, sep!(imp!(A, B), A) => and!(imp!(A, B), A);
            step!(SepWeaken, sep!(imp!(A, B), A) => imp!(A, B));
            step!(
                Trans, sep!(imp!(A, B), A) => A;
                step!(SepComm, sep!(imp!(A, B), A) => sep!(A, imp!(A, B)));
                step!(SepWeaken, sep!(A, imp!(A, B)) => A)
            )
        );
        step!(
            ImpE, and!(imp!(A, B), A) => B;
            step!(Refl, imp!(A, B) => imp!(A, B))
        )
    )
);

/// From A ⊢ X -∗ Y: ▷ A ⊢ ▷ X -∗ ▷ Y.
static LATER: Scheme = step!(
    WandI, later!(A) => wand!(later!(X), later!(Y));
    step!(
        Trans, sep!(later!(A), later!(X)) => later!(Y);
        step!(SepLater, sep!(later!(A), later!(X)) => later!(sep!(A, X)));
        step!(
            LaterMono, later!(sep!(A, X)) => later!(Y);
            step!(WandE, sep!(A, X) => Y; gap!(A => wand!(X, Y)))
        )
    )
);

/// From A ⊢ X -∗ Y: □ A ⊢ X -∗ Y.
static PERS: Scheme = step!(
    Trans, pers!(A) => wand!(X, Y);
    step!(PersElim, pers!(A) => A);
    gap!(A => wand!(X, Y))
);

/// The entry of `f ⊢ a -∗ b`: the parts of a wand, or of an implication with a persistent left side, or those of what stands
/// under later modalities, each behind them, or under persistence modalities. `None` exactly where there is none. The error
/// is want of memory.
pub fn into_wand(alloc: Global, vars: u32, f: &Formula) -> Result<Option<Pair>, Memory>
    ensures { IfOk result (λ r. WandAnswer vars f.now r) }
{
    match f {
        Formula::Wand(a, b) => {
            let entry = whole_pair(alloc, vars, f, a.get(), b.get())?;
            Ok(Some(entry))
        }
        Formula::Imp(a, b) => from_implication(alloc, vars, a.get(), b.get()),
        Formula::Later(a) => {
            let Some(entry) = into_wand(alloc, vars, a.get())? else {
                return Ok(None);
            };
            let entry = under_later(alloc, vars, a.get(), entry)?;
            Ok(Some(entry))
        }
        Formula::Pers(a) => {
            let Some(entry) = into_wand(alloc, vars, a.get())? else {
                return Ok(None);
            };
            let entry = under_pers(alloc, vars, a.get(), entry)?;
            Ok(Some(entry))
        }
        _ => Ok(None),
    }
}

/// The entry of an implication.
fn from_implication(
    alloc: Global,
    vars: u32,
    a: &Formula,
    b: &Formula,
) -> Result<Option<Pair>, Memory>
    ensures { IfOk result (λ r. WandAnswer vars (view.Imp a.now b.now) r) }
{
    if !persistent(a) {
        return Ok(None);
    }
    let entry = implication(alloc, vars, a, b)?;
    Ok(Some(entry))
}

#[tactic(auto, unfolding(pm_schemes::specs::Tests::passes, pm_schemes::specs::Tests::fits_row))]
fn implication(alloc: Global, vars: u32, a: &Formula, b: &Formula) -> Result<Pair, Memory>
    ensures first { IfOk result (λ r. r.first ≡ a.now) }
    ensures second { IfOk result (λ r. r.second ≡ b.now) }
    ensures proof { IfOk result (λ r. Proves Every (entail vars (view.Imp a.now b.now) (view.Wand a.now b.now)) [] 9 (deepest (a.now ∷ b.now ∷ []) [] + 2) vars r.proof) }
{
    let letters = Letters {
        formulas: &[a, b],
        pures: &[],
    };
    let proof = derive(alloc, vars, &IMPLICATION, letters)?;
    let first = copy(alloc, a)?;
    let second = copy(alloc, b)?;
    Ok(Pair {
        first,
        second,
        proof,
    })
}

/// The entry one step later.
#[tactic(auto, unfolding(pm_schemes::specs::Tests::passes, pm_schemes::specs::Tests::fits_row))]
fn under_later(alloc: Global, vars: u32, a: &Formula, entry: Pair) -> Result<Pair, Memory>
    requires { conclusion entry.proof ≡ entail vars a.now (view.Wand entry.first entry.second) }
    ensures first { IfOk result (λ r. r.first ≡ view.Later entry.first) }
    ensures second { IfOk result (λ r. r.second ≡ view.Later entry.second) }
    ensures proof { IfOk result (λ r. Closes entry.proof (entail vars (view.Later a.now) (view.Wand (view.Later entry.first) (view.Later entry.second))) 5 (deepest (a.now ∷ entry.first ∷ entry.second ∷ []) [] + 2) vars r.proof) }
{
    let Pair {
        first,
        second,
        proof,
    } = entry;
    let letters = Letters {
        formulas: &[a, &first, &second],
        pures: &[],
    };
    let proof = close(alloc, vars, &LATER, letters, proof)?;
    let first = pm_logic::later(alloc, first)?;
    let second = pm_logic::later(alloc, second)?;
    Ok(Pair {
        first,
        second,
        proof,
    })
}

/// The same parts, from under a persistence modality.
#[tactic(auto, unfolding(pm_schemes::specs::Tests::passes, pm_schemes::specs::Tests::fits_row))]
fn under_pers(alloc: Global, vars: u32, a: &Formula, entry: Pair) -> Result<Pair, Memory>
    requires { conclusion entry.proof ≡ entail vars a.now (view.Wand entry.first entry.second) }
    ensures first { IfOk result (λ r. r.first ≡ entry.first) }
    ensures second { IfOk result (λ r. r.second ≡ entry.second) }
    ensures proof { IfOk result (λ r. Closes entry.proof (entail vars (view.Pers a.now) (view.Wand entry.first entry.second)) 2 (deepest (a.now ∷ entry.first ∷ entry.second ∷ []) [] + 1) vars r.proof) }
{
    let Pair {
        first,
        second,
        proof,
    } = entry;
    let letters = Letters {
        formulas: &[a, &first, &second],
        pures: &[],
    };
    let proof = close(alloc, vars, &PERS, letters, proof)?;
    Ok(Pair {
        first,
        second,
        proof,
    })
}
