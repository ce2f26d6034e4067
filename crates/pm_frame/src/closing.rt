//! Schemes with proofs at their gaps.

ghost use Rattle.std.specs.Prelude.{◌≡◌, ◌+◌, [], ◌∷◌, map, IfOk, IsTrue};
ghost use Rattle.std.specs.List.{AllByRecursion};
ghost use Rattle.pm_logic.specs.declared.formula.Preds.{Preds};
ghost use Rattle.pm_proof.specs.Trees.{conclusion};
ghost use Rattle.pm_proof.specs.Valid.{EntailScoped};
ghost use Rattle.pm_schemes.specs.Sketches.{claim, gaps, steps, height, deepest, entail_of};
ghost use Rattle.pm_schemes.specs.Tests.{passes};
ghost use Rattle.pm_schemes.specs.Read.{sketch_of, letters_of, formulas_of, pures_of};
ghost use Rattle.pm_classes.specs.Closing.{is_stated, Closes, ClosesBoth};

use pm_logic::Memory;
use pm_proof::Proof;
use pm_schemes::{Letters, Scheme, derive};
use std::alloc::Global;

/// The scheme's proof, with this one at its gap. Each letter of the gap stands also in the scheme's sides.
pub fn close(
    alloc: Global,
    vars: u32,
    scheme: &Scheme,
    letters: Letters,
    inner: Proof,
) -> Result<Proof, Memory>
    requires passes { IsTrue (passes (sketch_of scheme.now)) }
    requires stated { IsTrue (is_stated (sketch_of scheme.now)) }
    requires gap { map (entail_of vars (letters_of letters)) (gaps (sketch_of scheme.now)) ≡ conclusion inner ∷ [] }
    ensures { IfOk result (λ p. Closes inner (entail_of vars (letters_of letters.entry) (claim (sketch_of scheme.now))) (steps (sketch_of scheme.now)) (deepest (formulas_of letters.entry) (pures_of letters.entry) + height (sketch_of scheme.now)) vars p) }
{
    let step = derive(alloc, vars, scheme, letters)?;
    Ok(step.fill(0, inner))
}

/// The scheme's proof, with these two at its gaps, as for `close`.
pub fn close_both(
    alloc: Global,
    vars: u32,
    scheme: &Scheme,
    letters: Letters,
    first: Proof,
    second: Proof,
) -> Result<Proof, Memory>
    requires passes { IsTrue (passes (sketch_of scheme.now)) }
    requires stated { IsTrue (is_stated (sketch_of scheme.now)) }
    requires gaps { map (entail_of vars (letters_of letters)) (gaps (sketch_of scheme.now)) ≡ conclusion first ∷ conclusion second ∷ [] }
    ensures { IfOk result (λ p. ClosesBoth first second (entail_of vars (letters_of letters.entry) (claim (sketch_of scheme.now))) (steps (sketch_of scheme.now)) (deepest (formulas_of letters.entry) (pures_of letters.entry) + height (sketch_of scheme.now)) vars p) }
{
    let step = derive(alloc, vars, scheme, letters)?;
    let step = step.fill(1, second);
    Ok(step.fill(0, first))
}

/// The scheme's proof, with these two at its gaps, where what they prove is scoped wherever the scheme's sides are, though it
/// has letters that don't stand in these.
pub fn close_where(
    alloc: Global,
    vars: u32,
    scheme: &Scheme,
    letters: Letters,
    first: Proof,
    second: Proof,
) -> Result<Proof, Memory>
    requires passes { IsTrue (passes (sketch_of scheme.now)) }
    requires gaps { map (entail_of vars (letters_of letters)) (gaps (sketch_of scheme.now)) ≡ conclusion first ∷ conclusion second ∷ [] }
    requires scoped { (preds : Preds) → EntailScoped preds (entail_of vars (letters_of letters) (claim (sketch_of scheme.now))) → AllByRecursion (EntailScoped preds) (conclusion first ∷ conclusion second ∷ []) }
    ensures { IfOk result (λ p. ClosesBoth first second (entail_of vars (letters_of letters.entry) (claim (sketch_of scheme.now))) (steps (sketch_of scheme.now)) (deepest (formulas_of letters.entry) (pures_of letters.entry) + height (sketch_of scheme.now)) vars p) }
{
    let step = derive(alloc, vars, scheme, letters)?;
    let step = step.fill(1, second);
    Ok(step.fill(0, first))
}
