//! Proofs of `⌜True⌝ ⊢ ⌜True⌝` with any number of levels.

ghost use Rattle.std.specs.Prelude.{◌≤◌, [], ◌∷◌, IfOk};
ghost use Rattle.pm_proof.specs.Trees.{empty};
ghost use Rattle.pm_proof.specs.Known.{Proves, Every};
ghost use Rattle.pm_samples.specs.Whole.{IsWhole, IsChain};

use pm_logic::{Formula, Memory, Pure};
use pm_proof::{Proof, hole};
use pm_rules::Entail;
use pm_schemes::{Letters, Pattern, PurePattern, Scheme, derive, gap, step};
use std::alloc::Global;

const TRUTH: Pattern = Pattern::Pure(&PurePattern::True);

/// ⌜True⌝ ⊢ ⌜True⌝
static SAME: Scheme = step!(Refl, TRUTH => TRUTH);

/// From ⌜True⌝ ⊢ ⌜True⌝ twice: ⌜True⌝ ⊢ ⌜True⌝.
static TWICE: Scheme = step!(Trans, TRUTH => TRUTH; gap!(TRUTH => TRUTH); gap!(TRUTH => TRUTH));

/// By reflexivity.
#[tactic(auto, unfolding(pm_schemes::specs::Tests::passes, pm_schemes::specs::Tests::fits_row))]
fn same(alloc: Global) -> Result<Proof, Memory>
    ensures { IfOk result (λ p. Proves Every empty [] 1 4 0 p) }
{
    let letters = Letters {
        formulas: &[],
        pures: &[],
    };
    let proof = derive(alloc, 0, &SAME, letters)?;
    Ok(proof)
}

/// By transitivity, over two holes.
#[tactic(auto, unfolding(pm_schemes::specs::Tests::passes, pm_schemes::specs::Tests::fits_row))]
fn twice(alloc: Global) -> Result<Proof, Memory>
    ensures { IfOk result (λ p. Proves Every empty (empty ∷ empty ∷ []) 1 4 0 p) }
{
    let letters = Letters {
        formulas: &[],
        pures: &[],
    };
    let proof = derive(alloc, 0, &TWICE, letters)?;
    Ok(proof)
}

#[tactic(auto, using(crate::proofs::Whole::chain_hole))]
fn bare(alloc: Global) -> Result<Proof, Memory>
    ensures { IfOk result (λ p. IsChain (empty ∷ []) p) }
{
    let e = Entail {
        vars: 0,
        left: Formula::Pure(Pure::True),
        right: Formula::Pure(Pure::True),
    };
    let proof = hole(alloc, e)?;
    Ok(proof)
}

/// The place of the hole that is filled by reflexivity, so that the left or the right one stays open.
fn filled_place(left: bool) -> u64
    ensures { result ≤ 1 }
{
    if left { 1 } else { 0 }
}

/// A step by transitivity of which one hole is left, the first one or the second one.
fn around(alloc: Global, left: bool) -> Result<Proof, Memory>
    ensures { IfOk result (λ p. IsChain (empty ∷ []) p) }
{
    let step = same(alloc)?;
    let open = twice(alloc)?;
    Ok(open.fill(filled_place(left), step))
}

/// One level more around the proof, on the left or on the right of a step by reflexivity.
fn deeper(alloc: Global, left: bool, inner: Proof) -> Result<Proof, Memory>
    requires { IsChain (empty ∷ []) inner }
    ensures { IfOk result (λ p. IsChain (empty ∷ []) p) }
{
    let open = around(alloc, left)?;
    Ok(open.fill(0, inner))
}

/// So many levels around a hole, on the left or on the right. The error is want of memory.
pub fn deep(alloc: Global, left: bool, levels: u32) -> Result<Proof, Memory>
    ensures { IfOk result (λ p. IsChain (empty ∷ []) p) }
{
    let mut made = bare(alloc)?;
    for _ in 0..levels {
        made = deeper(alloc, left, made)?;
    }
    Ok(made)
}

/// The proof with its hole filled, by reflexivity. The error is want of memory.
pub fn filled(alloc: Global, proof: Proof) -> Result<Proof, Memory>
    requires { IsChain (empty ∷ []) proof }
    ensures { IfOk result (λ p. IsWhole p) }
{
    let step = same(alloc)?;
    Ok(proof.fill(0, step))
}
