//! Derivations of one proof.

ghost use Rattle.std.specs.Prelude.{◌≡◌, ◌+◌, [], ◌∷◌, IfOk, IfSome, IsTrue};
ghost use Rattle.pm_logic.specs.declared.formula.Formula.TheVariants.{Pure as Fact};
ghost use Rattle.pm_logic.specs.declared.formula.Formula.TheViews as view;
ghost use Rattle.pm_logic.specs.declared.formula.Pure.TheVariants.{True};
ghost use Rattle.pm_dtext.specs.Texts.{arities_of};
ghost use Rattle.pm_check.specs.Table.{BeginsTable};
ghost use Rattle.pm_check.specs.Derivation.{IsDerivation};
ghost use Rattle.pm_proof.specs.Trees.{entail, conclusion};
ghost use Rattle.pm_proof.specs.Known.{Proves, Every};
ghost use Rattle.pm_schemes.specs.Sketches.{deepest};
ghost use Rattle.pm_samples.specs.Whole.{IsWhole, IsStatable, only};

use pm_logic::{Bytes, Formula, List, Memory, Name, Preds, Pure, depth, scoped};
use pm_names::is_name;
use pm_proof::Proof;
use pm_rules::Entail;
use pm_schemes::{Letters, Pattern, PurePattern, Scheme, derive, gap, sep, step, wand};
use pm_write::{Named, write_derivation};
use std::alloc::Global;

const TRUTH: Pattern = Pattern::Pure(&PurePattern::True);

const A: Pattern = Pattern::Letter(0);

const B: Pattern = Pattern::Letter(1);

/// From A ⊢ B: ⌜True⌝ ⊢ A -∗ B.
static STATED: Scheme = step!(
    WandI, TRUTH => wand!(A, B);
    step!(
        Trans, sep!(TRUTH, A) => B;
        step!(
            Trans, sep!(TRUTH, A) => A;
            step!(SepComm, sep!(TRUTH, A) => sep!(A, TRUTH));
            step!(SepWeaken, sep!(A, TRUTH) => A)
        );
        gap!(A => B)
    )
);

/// From `A ⊢ B`, which is its hole: `⌜True⌝ ⊢ A -∗ B`.
#[tactic(auto, unfolding(pm_schemes::specs::Tests::passes, pm_schemes::specs::Tests::fits_row))]
fn stating(alloc: Global, a: &Formula, b: &Formula) -> Result<Proof, Memory>
    ensures { IfOk result (λ p. Proves Every (entail 0 (Fact True) (view.Wand a.now b.now)) (entail 0 a.now b.now ∷ []) 5 (deepest (a.now ∷ b.now ∷ []) [] + 3) 0 p) }
{
    let letters = Letters {
        formulas: &[a, b],
        pures: &[],
    };
    let proof = derive(alloc, 0, &STATED, letters)?;
    Ok(proof)
}

/// From a proof of `A ⊢ B`: `⌜True⌝ ⊢ A -∗ B`. The error is want of memory.
#[tactic(auto, using(crate::proofs::Whole::stating_hole))]
pub fn stated(alloc: Global, proof: Proof) -> Result<Proof, Memory>
    requires { IsWhole proof }
    ensures { IfOk result (λ p. IsWhole p) }
{
    let e = proof.conclusion();
    let open = stating(alloc, &e.left, &e.right)?;
    Ok(open.fill(0, proof))
}

/// Whether a derivation can state what is proved, under a table of predicates.
#[tactic(auto, using(crate::proofs::Whole::statable))]
fn is_statable(preds: &Preds, e: &Entail) -> bool
    ensures { IsTrue result → IsStatable preds.now e.now }
{
    e.vars == 0
        && matches!(&e.left, Formula::Pure(Pure::True))
        && depth(&e.right) <= 900
        && scoped(preds, 0, &e.right)
}

/// The table of no predicates.
#[tactic(auto, using(crate::proofs::Whole::none_begins))]
fn no_predicates(alloc: Global) -> Preds
    ensures none { result.list ≡ [] }
    ensures begins { BeginsTable (arities_of result.list) result.list }
{
    Preds {
        list: List::new(alloc),
    }
}

/// The derivation that has this proof alone and states what it proves, under the name. `None` where the name is none, where
/// the left side isn't truth, or where what is proved has variables or calls, or is deeper than 900. The error is want of
/// memory.
#[tactic(auto, using(crate::proofs::Whole::derived))]
pub fn derivation(alloc: Global, name: &str, proof: Proof) -> Result<Option<Bytes>, Memory>
    requires { IsWhole proof }
    ensures { IfOk result (λ found. IfSome found (λ text. IsDerivation text (record { list = [] }) (only name.now (conclusion proof).right))) }
{
    let preds = no_predicates(alloc);
    let name = Name::new(alloc, name)?;
    if !is_name(name.bytes()) || !is_statable(&preds, proof.conclusion()) {
        return Ok(None);
    }
    let mut proofs = List::new(alloc);
    proofs.push(Named { name, proof })?;
    let text = write_derivation(alloc, &preds, &proofs)?;
    Ok(Some(text))
}
