//! Proofs that persistent formulas entail themselves under a persistence modality.

ghost use Rattle.std.specs.Prelude.{◌≡◌, ◌+◌, [], ◌∷◌, IfOk};
ghost use Rattle.pm_logic.specs.declared.formula.Formula.TheVariants.{Pure as Fact};
ghost use Rattle.pm_logic.specs.declared.formula.Formula.TheViews as view;
ghost use Rattle.pm_logic.specs.Classes.{IsPersistent};
ghost use Rattle.pm_proof.specs.Trees.{entail, conclusion};
ghost use Rattle.pm_proof.specs.Known.{Proves, Every};
ghost use Rattle.pm_schemes.specs.Sketches.{deepest};
ghost use Rattle.pm_classes.specs.Closing.{Closes, ClosesBoth};
ghost use Rattle.pm_classes.specs.Entries.{HasProof, IsHanded, PersistentAnswer};

use crate::binders::{boxed_all, boxed_ex};
use crate::closing::{close, close_both, whole_one};
use crate::entry::One;
use pm_logic::{Formula, Memory, Pure, copy, persistent};
use pm_proof::Proof;
use pm_schemes::{
    Letters, Pattern, PurePattern, Scheme, and, derive, gap, later, or, pers, sep, step,
};
use std::alloc::Global;

const A: Pattern = Pattern::Letter(0);

const B: Pattern = Pattern::Letter(1);

const FACT: Pattern = Pattern::Pure(&PurePattern::Letter(0));

/// ⌜φ⌝ ⊢ □ ⌜φ⌝
static PURE: Scheme = step!(PersPure, FACT => pers!(FACT));

/// □ A ∗ □ B ⊢ □ □ A ∧ □ □ B
const BOTH_TWICE: Scheme = step!(
    AndI, sep!(pers!(A), pers!(B)) => and!(pers!(pers!(A)), pers!(pers!(B)));
    step!(
        Trans, sep!(pers!(A), pers!(B)) => pers!(pers!(A));
        step!(SepWeaken, sep!(pers!(A), pers!(B)) => pers!(A));
        step!(PersIdem, pers!(A) => pers!(pers!(A)))
    );
    step!(
        Trans, sep!(pers!(A), pers!(B)) => pers!(pers!(B));
        step!(
            Trans, sep!(pers!(A), pers!(B)) => pers!(B);
            step!(SepComm, sep!(pers!(A), pers!(B)) => sep!(pers!(B), pers!(A)));
            step!(SepWeaken, sep!(pers!(B), pers!(A)) => pers!(B))
        );
        step!(PersIdem, pers!(B) => pers!(pers!(B)))
    )
);

/// □ □ A ∧ □ □ B ⊢ □ (A ∗ B)
const TWICE_STAR: Scheme = step!(
    Trans, and!(pers!(pers!(A)), pers!(pers!(B))) => pers!(sep!(A, B));
    step!(PersAnd, and!(pers!(pers!(A)), pers!(pers!(B))) => pers!(and!(pers!(A), pers!(B))));
    step!(
        PersMono, pers!(and!(pers!(A), pers!(B))) => pers!(sep!(A, B));
        step!(
            Trans, and!(pers!(A), pers!(B)) => sep!(A, B);
            step!(PersDup, and!(pers!(A), pers!(B)) => sep!(pers!(A), pers!(B)));
            step!(
                SepMono, sep!(pers!(A), pers!(B)) => sep!(A, B);
                step!(PersElim, pers!(A) => A);
                step!(PersElim, pers!(B) => B)
            )
        )
    )
);

/// From A ⊢ □ A and B ⊢ □ B: A ∗ B ⊢ □ (A ∗ B).
static SEP: Scheme = step!(
    Trans, sep!(A, B) => pers!(sep!(A, B));
    step!(
        SepMono, sep!(A, B) => sep!(pers!(A), pers!(B));
        gap!(A => pers!(A));
        gap!(B => pers!(B))
    );
    step!(
        Trans, sep!(pers!(A), pers!(B)) => pers!(sep!(A, B));
        BOTH_TWICE;
        TWICE_STAR
    )
);

/// From A ⊢ □ A and B ⊢ □ B: A ∧ B ⊢ □ (A ∧ B).
static AND: Scheme = step!(
    Trans, and!(A, B) => pers!(and!(A, B));
    step!(
        AndI, and!(A, B) => and!(pers!(A), pers!(B));
        step!(Trans, and!(A, B) => pers!(A); step!(AndL, and!(A, B) => A); gap!(A => pers!(A)));
        step!(Trans, and!(A, B) => pers!(B); step!(AndR, and!(A, B) => B); gap!(B => pers!(B)))
    );
    step!(PersAnd, and!(pers!(A), pers!(B)) => pers!(and!(A, B)))
);

/// From A ⊢ □ A and B ⊢ □ B: A ∨ B ⊢ □ (A ∨ B).
static OR: Scheme = step!(
    OrE, or!(A, B) => pers!(or!(A, B));
    step!(
        Trans, A => pers!(or!(A, B));
        gap!(A => pers!(A));
        step!(PersMono, pers!(A) => pers!(or!(A, B)); step!(OrL, A => or!(A, B)))
    );
    step!(
        Trans, B => pers!(or!(A, B));
        gap!(B => pers!(B));
        step!(PersMono, pers!(B) => pers!(or!(A, B)); step!(OrR, B => or!(A, B)))
    )
);

/// From A ⊢ □ A: ▷ A ⊢ □ ▷ A.
static LATER: Scheme = step!(
    Trans, later!(A) => pers!(later!(A));
    step!(LaterMono, later!(A) => later!(pers!(A)); gap!(A => pers!(A)));
    step!(LaterPers, later!(pers!(A)) => pers!(later!(A)))
);

/// □ A ⊢ □ □ A
static PERS: Scheme = step!(PersIdem, pers!(A) => pers!(pers!(A)));

/// The entry of `f ⊢ □ g`: what stands under a persistence modality, else a persistent formula itself. `None` exactly where
/// there is none. The error is want of memory.
pub fn into_persistent(alloc: Global, vars: u32, f: &Formula) -> Result<Option<One>, Memory>
    requires { IsHanded vars f.now }
    ensures { IfOk result (λ r. PersistentAnswer vars f.now r) }
{
    if let Formula::Pers(a) = f {
        let entry = whole_one(alloc, vars, f, a.get())?;
        return Ok(Some(entry));
    }
    if !persistent(f) {
        return Ok(None);
    }
    let proof = persists(alloc, vars, f)?;
    let formula = copy(alloc, f)?;
    Ok(Some(One { formula, proof }))
}

/// `f ⊢ □ f`
pub fn persists(alloc: Global, vars: u32, f: &Formula) -> Result<Proof, Memory>
    requires handed { IsHanded vars f.now }
    requires persistent { IsPersistent f.now }
    ensures { IfOk result (λ p. HasProof vars f.now (entail vars f.now (view.Pers f.now)) p) }
{
    match f {
        Formula::Pure(fact) => {
            let proof = boxed_fact(alloc, vars, fact)?;
            Ok(proof)
        }
        Formula::Sep(a, b) => {
            let first = persists(alloc, vars, a.get())?;
            let second = persists(alloc, vars, b.get())?;
            let proof = boxed_star(alloc, vars, a.get(), b.get(), first, second)?;
            Ok(proof)
        }
        Formula::And(a, b) => {
            let first = persists(alloc, vars, a.get())?;
            let second = persists(alloc, vars, b.get())?;
            let proof = boxed_conjunction(alloc, vars, a.get(), b.get(), first, second)?;
            Ok(proof)
        }
        Formula::Or(a, b) => {
            let first = persists(alloc, vars, a.get())?;
            let second = persists(alloc, vars, b.get())?;
            let proof = boxed_disjunction(alloc, vars, a.get(), b.get(), first, second)?;
            Ok(proof)
        }
        Formula::All(a) => {
            let inner = persists(alloc, vars + 1, a.get())?;
            let proof = boxed_all(alloc, vars, a.get(), inner)?;
            Ok(proof)
        }
        Formula::Ex(a) => {
            let inner = persists(alloc, vars + 1, a.get())?;
            let proof = boxed_ex(alloc, vars, a.get(), inner)?;
            Ok(proof)
        }
        Formula::Later(a) => {
            let inner = persists(alloc, vars, a.get())?;
            let proof = boxed_later(alloc, vars, a.get(), inner)?;
            Ok(proof)
        }
        Formula::Pers(a) => {
            let proof = boxed_again(alloc, vars, a.get())?;
            Ok(proof)
        }
        _ => unreachable!(),
    }
}

#[tactic(auto, unfolding(pm_schemes::specs::Tests::passes, pm_schemes::specs::Tests::fits_row))]
fn boxed_fact(alloc: Global, vars: u32, fact: &Pure) -> Result<Proof, Memory>
    ensures { IfOk result (λ p. Proves Every (entail vars (Fact fact.now) (view.Pers (Fact fact.now))) [] 1 (deepest [] (fact.now ∷ []) + 2) vars p) }
{
    let letters = Letters {
        formulas: &[],
        pures: &[fact],
    };
    let proof = derive(alloc, vars, &PURE, letters)?;
    Ok(proof)
}

#[tactic(auto, unfolding(pm_schemes::specs::Tests::passes, pm_schemes::specs::Tests::fits_row))]
fn boxed_again(alloc: Global, vars: u32, a: &Formula) -> Result<Proof, Memory>
    ensures { IfOk result (λ p. Proves Every (entail vars (view.Pers a.now) (view.Pers (view.Pers a.now))) [] 1 (deepest (a.now ∷ []) [] + 2) vars p) }
{
    let letters = Letters {
        formulas: &[a],
        pures: &[],
    };
    let proof = derive(alloc, vars, &PERS, letters)?;
    Ok(proof)
}

#[tactic(auto, unfolding(pm_schemes::specs::Tests::passes, pm_schemes::specs::Tests::fits_row))]
fn boxed_later(alloc: Global, vars: u32, a: &Formula, inner: Proof) -> Result<Proof, Memory>
    requires { conclusion inner ≡ entail vars a.now (view.Pers a.now) }
    ensures { IfOk result (λ p. Closes inner (entail vars (view.Later a.now) (view.Pers (view.Later a.now))) 3 (deepest (a.now ∷ []) [] + 2) vars p) }
{
    let letters = Letters {
        formulas: &[a],
        pures: &[],
    };
    let proof = close(alloc, vars, &LATER, letters, inner)?;
    Ok(proof)
}

#[tactic(auto, unfolding(pm_schemes::specs::Tests::passes, pm_schemes::specs::Tests::fits_row))]
fn boxed_star(
    alloc: Global,
    vars: u32,
    a: &Formula,
    b: &Formula,
    first: Proof,
    second: Proof,
) -> Result<Proof, Memory>
    requires first { conclusion first ≡ entail vars a.now (view.Pers a.now) }
    requires second { conclusion second ≡ entail vars b.now (view.Pers b.now) }
    ensures { IfOk result (λ p. ClosesBoth first second (entail vars (view.Sep a.now b.now) (view.Pers (view.Sep a.now b.now))) 20 (deepest (a.now ∷ b.now ∷ []) [] + 3) vars p) }
{
    let letters = Letters {
        formulas: &[a, b],
        pures: &[],
    };
    let proof = close_both(alloc, vars, &SEP, letters, first, second)?;
    Ok(proof)
}

#[tactic(auto, unfolding(pm_schemes::specs::Tests::passes, pm_schemes::specs::Tests::fits_row))]
fn boxed_conjunction(
    alloc: Global,
    vars: u32,
    a: &Formula,
    b: &Formula,
    first: Proof,
    second: Proof,
) -> Result<Proof, Memory>
    requires first { conclusion first ≡ entail vars a.now (view.Pers a.now) }
    requires second { conclusion second ≡ entail vars b.now (view.Pers b.now) }
    ensures { IfOk result (λ p. ClosesBoth first second (entail vars (view.And a.now b.now) (view.Pers (view.And a.now b.now))) 7 (deepest (a.now ∷ b.now ∷ []) [] + 2) vars p) }
{
    let letters = Letters {
        formulas: &[a, b],
        pures: &[],
    };
    let proof = close_both(alloc, vars, &AND, letters, first, second)?;
    Ok(proof)
}

#[tactic(auto, unfolding(pm_schemes::specs::Tests::passes, pm_schemes::specs::Tests::fits_row))]
fn boxed_disjunction(
    alloc: Global,
    vars: u32,
    a: &Formula,
    b: &Formula,
    first: Proof,
    second: Proof,
) -> Result<Proof, Memory>
    requires first { conclusion first ≡ entail vars a.now (view.Pers a.now) }
    requires second { conclusion second ≡ entail vars b.now (view.Pers b.now) }
    ensures { IfOk result (λ p. ClosesBoth first second (entail vars (view.Or a.now b.now) (view.Pers (view.Or a.now b.now))) 7 (deepest (a.now ∷ b.now ∷ []) [] + 2) vars p) }
{
    let letters = Letters {
        formulas: &[a, b],
        pures: &[],
    };
    let proof = close_both(alloc, vars, &OR, letters, first, second)?;
    Ok(proof)
}
