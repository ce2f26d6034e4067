//! Derived rules of the actions.

ghost use Rattle.std.specs.Prelude.{◌≡◌, ◌+◌, [], ◌∷◌, IfOk};
ghost use Rattle.pm_logic.specs.declared.formula.Pure.TheVariants as pure;
ghost use Rattle.pm_logic.specs.declared.formula.Pure.TheViews as pure_view;
ghost use Rattle.pm_logic.specs.declared.formula.Formula.TheVariants.{Pure as Assert};
ghost use Rattle.pm_logic.specs.declared.formula.Formula.TheViews as view;
ghost use Rattle.pm_proof.specs.Trees.{entail};
ghost use Rattle.pm_proof.specs.Known.{Proves, Every};
ghost use Rattle.pm_schemes.specs.Sketches.{deepest};

use pm_logic::{Formula, Memory, Pure};
use pm_proof::Proof;
use pm_schemes::{Letters, Pattern, PurePattern, Scheme, and, derive, gap, or, sep, step, wand};
use std::alloc::Global;

const A: Pattern = Pattern::Letter(0);

const B: Pattern = Pattern::Letter(1);

const C: Pattern = Pattern::Letter(2);

const D: Pattern = Pattern::Letter(3);

const FALSITY: Pattern = Pattern::Pure(&PurePattern::False);

const FACT: Pattern = Pattern::Pure(&PurePattern::Letter(0));

const OTHER: Pattern = Pattern::Pure(&PurePattern::Letter(1));

const EITHER: Pattern = Pattern::Pure(&PurePattern::Or(
    &PurePattern::Letter(0),
    &PurePattern::Letter(1),
));

const BOTH: Pattern = Pattern::Pure(&PurePattern::And(
    &PurePattern::Letter(0),
    &PurePattern::Letter(1),
));

/// A ⊢ A
static SAME: Scheme = step!(Refl, A => A);

/// False ⊢ A
static ANYTHING: Scheme = step!(False, FALSITY => A);

/// A ⊢ A ∨ B
static LEFT: Scheme = step!(OrL, A => or!(A, B));

/// B ⊢ A ∨ B
static RIGHT: Scheme = step!(OrR, B => or!(A, B));

/// ⌜φ⌝ ⊢ ⌜φ ∨ ψ⌝
static LEFT_FACT: Scheme = step!(
    Trans, FACT => EITHER;
    step!(OrL, FACT => or!(FACT, OTHER));
    step!(OrPure, or!(FACT, OTHER) => EITHER)
);

/// ⌜ψ⌝ ⊢ ⌜φ ∨ ψ⌝
static RIGHT_FACT: Scheme = step!(
    Trans, OTHER => EITHER;
    step!(OrR, OTHER => or!(FACT, OTHER));
    step!(OrPure, or!(FACT, OTHER) => EITHER)
);

/// ⌜φ⌝ ∧ ⌜ψ⌝ ⊢ ⌜φ ∧ ψ⌝
static BOTH_FACTS: Scheme = step!(AndPure, and!(FACT, OTHER) => BOTH);

/// From A ⊢ B and A ⊢ C: A ⊢ B ∧ C.
static CONJOINED: Scheme = step!(AndI, A => and!(B, C); gap!(A => B); gap!(A => C));

/// From A ⊢ C and B ⊢ D: A ∗ B ⊢ C ∗ D.
static BESIDE: Scheme = step!(SepMono, sep!(A, B) => sep!(C, D); gap!(A => C); gap!(B => D));

/// From B ⊢ A -∗ C: A ∗ B ⊢ C.
static APPLIED: Scheme = step!(
    Trans, sep!(A, B) => C;
    step!(SepComm, sep!(A, B) => sep!(B, A));
    step!(WandE, sep!(B, A) => C; gap!(B => wand!(A, C)))
);

/// `A ⊢ A`
#[tactic(auto, unfolding(pm_schemes::specs::Tests::passes, pm_schemes::specs::Tests::fits_row))]
pub fn same(alloc: Global, vars: u32, a: &Formula) -> Result<Proof, Memory>
    ensures { IfOk result (λ p. Proves Every (entail vars a.now a.now) [] 1 (deepest (a.now ∷ []) []) vars p) }
{
    let letters = Letters {
        formulas: &[a],
        pures: &[],
    };
    let proof = derive(alloc, vars, &SAME, letters)?;
    Ok(proof)
}

/// `⌜False⌝ ⊢ A`
#[tactic(auto, unfolding(pm_schemes::specs::Tests::passes, pm_schemes::specs::Tests::fits_row))]
pub fn anything(alloc: Global, vars: u32, a: &Formula) -> Result<Proof, Memory>
    ensures { IfOk result (λ p. Proves Every (entail vars (Assert pure.False) a.now) [] 1 (deepest (a.now ∷ []) [] + 2) vars p) }
{
    let letters = Letters {
        formulas: &[a],
        pures: &[],
    };
    let proof = derive(alloc, vars, &ANYTHING, letters)?;
    Ok(proof)
}

/// `A ⊢ A ∨ B`
#[tactic(auto, unfolding(pm_schemes::specs::Tests::passes, pm_schemes::specs::Tests::fits_row))]
pub fn left(alloc: Global, vars: u32, a: &Formula, b: &Formula) -> Result<Proof, Memory>
    ensures { IfOk result (λ p. Proves Every (entail vars a.now (view.Or a.now b.now)) [] 1 (deepest (a.now ∷ b.now ∷ []) [] + 1) vars p) }
{
    let letters = Letters {
        formulas: &[a, b],
        pures: &[],
    };
    let proof = derive(alloc, vars, &LEFT, letters)?;
    Ok(proof)
}

/// `B ⊢ A ∨ B`
#[tactic(auto, unfolding(pm_schemes::specs::Tests::passes, pm_schemes::specs::Tests::fits_row))]
pub fn right(alloc: Global, vars: u32, a: &Formula, b: &Formula) -> Result<Proof, Memory>
    ensures { IfOk result (λ p. Proves Every (entail vars b.now (view.Or a.now b.now)) [] 1 (deepest (a.now ∷ b.now ∷ []) [] + 1) vars p) }
{
    let letters = Letters {
        formulas: &[a, b],
        pures: &[],
    };
    let proof = derive(alloc, vars, &RIGHT, letters)?;
    Ok(proof)
}

/// `⌜φ⌝ ⊢ ⌜φ ∨ ψ⌝`
#[tactic(auto, unfolding(pm_schemes::specs::Tests::passes, pm_schemes::specs::Tests::fits_row))]
pub fn left_fact(alloc: Global, vars: u32, p: &Pure, q: &Pure) -> Result<Proof, Memory>
    ensures { IfOk result (λ t. Proves Every (entail vars (Assert p.now) (Assert (pure_view.Or p.now q.now))) [] 3 (deepest [] (p.now ∷ q.now ∷ []) + 2) vars t) }
{
    let letters = Letters {
        formulas: &[],
        pures: &[p, q],
    };
    let proof = derive(alloc, vars, &LEFT_FACT, letters)?;
    Ok(proof)
}

/// `⌜ψ⌝ ⊢ ⌜φ ∨ ψ⌝`
#[tactic(auto, unfolding(pm_schemes::specs::Tests::passes, pm_schemes::specs::Tests::fits_row))]
pub fn right_fact(alloc: Global, vars: u32, p: &Pure, q: &Pure) -> Result<Proof, Memory>
    ensures { IfOk result (λ t. Proves Every (entail vars (Assert q.now) (Assert (pure_view.Or p.now q.now))) [] 3 (deepest [] (p.now ∷ q.now ∷ []) + 2) vars t) }
{
    let letters = Letters {
        formulas: &[],
        pures: &[p, q],
    };
    let proof = derive(alloc, vars, &RIGHT_FACT, letters)?;
    Ok(proof)
}

/// `⌜φ⌝ ∧ ⌜ψ⌝ ⊢ ⌜φ ∧ ψ⌝`
#[tactic(auto, unfolding(pm_schemes::specs::Tests::passes, pm_schemes::specs::Tests::fits_row))]
pub fn both_facts(alloc: Global, vars: u32, p: &Pure, q: &Pure) -> Result<Proof, Memory>
    ensures { IfOk result (λ t. Proves Every (entail vars (view.And (Assert p.now) (Assert q.now)) (Assert (pure_view.And p.now q.now))) [] 1 (deepest [] (p.now ∷ q.now ∷ []) + 2) vars t) }
{
    let letters = Letters {
        formulas: &[],
        pures: &[p, q],
    };
    let proof = derive(alloc, vars, &BOTH_FACTS, letters)?;
    Ok(proof)
}

/// From `A ⊢ B` and `A ⊢ C`, which are its holes: `A ⊢ B ∧ C`.
#[tactic(auto, unfolding(pm_schemes::specs::Tests::passes, pm_schemes::specs::Tests::fits_row))]
pub fn conjoined(
    alloc: Global,
    vars: u32,
    a: &Formula,
    b: &Formula,
    c: &Formula,
) -> Result<Proof, Memory>
    ensures { IfOk result (λ p. Proves Every (entail vars a.now (view.And b.now c.now)) (entail vars a.now b.now ∷ entail vars a.now c.now ∷ []) 1 (deepest (a.now ∷ b.now ∷ c.now ∷ []) [] + 1) vars p) }
{
    let letters = Letters {
        formulas: &[a, b, c],
        pures: &[],
    };
    let proof = derive(alloc, vars, &CONJOINED, letters)?;
    Ok(proof)
}

/// From `A ⊢ C` and `B ⊢ D`, which are its holes: `A ∗ B ⊢ C ∗ D`.
#[tactic(auto, unfolding(pm_schemes::specs::Tests::passes, pm_schemes::specs::Tests::fits_row))]
pub fn beside(
    alloc: Global,
    vars: u32,
    a: &Formula,
    b: &Formula,
    c: &Formula,
    d: &Formula,
) -> Result<Proof, Memory>
    ensures { IfOk result (λ p. Proves Every (entail vars (view.Sep a.now b.now) (view.Sep c.now d.now)) (entail vars a.now c.now ∷ entail vars b.now d.now ∷ []) 1 (deepest (a.now ∷ b.now ∷ c.now ∷ d.now ∷ []) [] + 1) vars p) }
{
    let letters = Letters {
        formulas: &[a, b, c, d],
        pures: &[],
    };
    let proof = derive(alloc, vars, &BESIDE, letters)?;
    Ok(proof)
}

/// From `B ⊢ A -∗ C`, which is its hole: `A ∗ B ⊢ C`.
#[tactic(auto, unfolding(pm_schemes::specs::Tests::passes, pm_schemes::specs::Tests::fits_row))]
pub fn applied(
    alloc: Global,
    vars: u32,
    a: &Formula,
    b: &Formula,
    c: &Formula,
) -> Result<Proof, Memory>
    ensures { IfOk result (λ p. Proves Every (entail vars (view.Sep a.now b.now) c.now) (entail vars b.now (view.Wand a.now c.now) ∷ []) 3 (deepest (a.now ∷ b.now ∷ c.now ∷ []) [] + 1) vars p) }
{
    let letters = Letters {
        formulas: &[a, b, c],
        pures: &[],
    };
    let proof = derive(alloc, vars, &APPLIED, letters)?;
    Ok(proof)
}
