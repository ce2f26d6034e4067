//! Schemes with proofs at their gaps, and the entries whose parts stand in the formula itself.

ghost use Rattle.std.specs.Prelude.{◌≡◌, ◌+◌, [], ◌∷◌, map, IfOk, IsTrue};
ghost use Rattle.pm_logic.specs.declared.formula.Formula.TheVariants.{Pure as Fact};
ghost use Rattle.pm_proof.specs.Trees.{entail, conclusion};
ghost use Rattle.pm_proof.specs.Known.{Proves, Every};
ghost use Rattle.pm_schemes.specs.Sketches.{claim, gaps, steps, height, deepest, entail_of};
ghost use Rattle.pm_schemes.specs.Tests.{passes};
ghost use Rattle.pm_schemes.specs.Read.{sketch_of, letters_of, formulas_of, pures_of};
ghost use Rattle.pm_classes.specs.Closing.{is_stated, Closes, ClosesBoth};
ghost use Rattle.pm_classes.specs.Entries.{HasProof};

use crate::entry::{One, OnePure, Pair};
use pm_logic::{Formula, Memory, Pure, copy, copy_pure};
use pm_proof::Proof;
use pm_schemes::{Letters, Pattern, Scheme, derive, step};
use std::alloc::Global;

/// The scheme's proof, with this one at its gap. Each letter of the gap stands also in the scheme's sides.
pub fn close(
    alloc: Global,
    vars: u32,
    scheme: &Scheme,
    letters: Letters,
    inner: Proof,
) -> Result<Proof, Memory>
    requires passes { IsTrue (passes (sketch_of scheme.now)) }
    requires stated { IsTrue (is_stated (sketch_of scheme.now)) }
    requires gap { map (entail_of vars (letters_of letters)) (gaps (sketch_of scheme.now)) ≡ conclusion inner ∷ [] }
    ensures { IfOk result (λ p. Closes inner (entail_of vars (letters_of letters.entry) (claim (sketch_of scheme.now))) (steps (sketch_of scheme.now)) (deepest (formulas_of letters.entry) (pures_of letters.entry) + height (sketch_of scheme.now)) vars p) }
{
    let step = derive(alloc, vars, scheme, letters)?;
    Ok(step.fill(0, inner))
}

/// The scheme's proof, with these two at its gaps, as for `close`.
pub fn close_both(
    alloc: Global,
    vars: u32,
    scheme: &Scheme,
    letters: Letters,
    first: Proof,
    second: Proof,
) -> Result<Proof, Memory>
    requires passes { IsTrue (passes (sketch_of scheme.now)) }
    requires stated { IsTrue (is_stated (sketch_of scheme.now)) }
    requires gaps { map (entail_of vars (letters_of letters)) (gaps (sketch_of scheme.now)) ≡ conclusion first ∷ conclusion second ∷ [] }
    ensures { IfOk result (λ p. ClosesBoth first second (entail_of vars (letters_of letters.entry) (claim (sketch_of scheme.now))) (steps (sketch_of scheme.now)) (deepest (formulas_of letters.entry) (pures_of letters.entry) + height (sketch_of scheme.now)) vars p) }
{
    let step = derive(alloc, vars, scheme, letters)?;
    let step = step.fill(1, second);
    Ok(step.fill(0, first))
}

const A: Pattern = Pattern::Letter(0);

/// A ⊢ A
static SAME: Scheme = step!(Refl, A => A);

/// `f ⊢ f`
#[tactic(auto, unfolding(pm_schemes::specs::Tests::passes, pm_schemes::specs::Tests::fits_row))]
pub fn same(alloc: Global, vars: u32, f: &Formula) -> Result<Proof, Memory>
    ensures { IfOk result (λ p. Proves Every (entail vars f.now f.now) [] 1 (deepest (f.now ∷ []) []) vars p) }
{
    let letters = Letters {
        formulas: &[f],
        pures: &[],
    };
    let proof = derive(alloc, vars, &SAME, letters)?;
    Ok(proof)
}

/// The two parts, and that the formula entails itself.
pub fn whole_pair(
    alloc: Global,
    vars: u32,
    f: &Formula,
    a: &Formula,
    b: &Formula,
) -> Result<Pair, Memory>
    ensures first { IfOk result (λ r. r.first ≡ a.now) }
    ensures second { IfOk result (λ r. r.second ≡ b.now) }
    ensures proof { IfOk result (λ r. HasProof vars f.now (entail vars f.now f.now) r.proof) }
{
    let first = copy(alloc, a)?;
    let second = copy(alloc, b)?;
    let proof = same(alloc, vars, f)?;
    Ok(Pair {
        first,
        second,
        proof,
    })
}

/// The part, and that the formula entails itself.
pub fn whole_one(alloc: Global, vars: u32, f: &Formula, a: &Formula) -> Result<One, Memory>
    ensures formula { IfOk result (λ r. r.formula ≡ a.now) }
    ensures proof { IfOk result (λ r. HasProof vars f.now (entail vars f.now f.now) r.proof) }
{
    let formula = copy(alloc, a)?;
    let proof = same(alloc, vars, f)?;
    Ok(One { formula, proof })
}

/// The pure formula, and that the formula that it is entails itself.
pub fn whole_pure(alloc: Global, vars: u32, p: &Pure) -> Result<OnePure, Memory>
    ensures pure { IfOk result (λ r. r.pure ≡ p.now) }
    ensures proof { IfOk result (λ r. HasProof vars (Fact p.now) (entail vars (Fact p.now) (Fact p.now)) r.proof) }
{
    let copied = copy_pure(alloc, p)?;
    let fact = Formula::Pure(copied);
    let proof = same(alloc, vars, &fact)?;
    let pure = copy_pure(alloc, p)?;
    Ok(OnePure { pure, proof })
}
