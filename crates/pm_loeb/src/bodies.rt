//! Calls of predicates and their bodies.

ghost use Rattle.std.specs.Prelude.{◌≡◌, ◌≤◌, IfOk};
ghost use Rattle.pm_logic.specs.declared.formula.TheConstants.{BOUND};
ghost use Rattle.pm_loeb.specs.Calls.{IsFoldable, IsUnfolded, IsFolded};

use pm_classes::One;
use pm_logic::{Formula, List, Memory, Preds, Term, copy, copy_term};
use pm_schemes::{fold, unfold_call};
use std::alloc::Global;

fn copy_terms(alloc: Global, terms: &[Term]) -> Result<List<Term>, Memory>
    ensures { IfOk result (λ copy. copy ≡ terms.now) }
{
    let mut out = List::new(alloc);
    for term in terms {
        out.push(copy_term(alloc, term)?)?;
    }
    Ok(out)
}

/// The body of the call, from which it follows; `None` where the formula is no call.
#[tactic(auto, unfolding(pm_table::specs::Loeb::body_of_call))]
pub fn unfolded(alloc: Global, vars: u32, preds: &Preds, f: &Formula) -> Result<Option<One>, Memory>
    requires few { vars ≤ BOUND }
    requires scoped { IsFoldable preds.now vars f.now }
    ensures { IfOk result (IsUnfolded preds.now vars f.now) }
{
    match f {
        Formula::Call { pred, args } => {
            let args = copy_terms(alloc, args.as_slice())?;
            let proof = unfold_call(alloc, vars, preds, *pred, args)?;
            let formula = copy(alloc, &proof.conclusion().right)?;
            Ok(Some(One { formula, proof }))
        }
        _ => Ok(None),
    }
}

/// The body of the call, which follows from it; `None` where the formula is no call.
#[tactic(auto, unfolding(pm_table::specs::Loeb::body_of_call))]
pub fn folded(alloc: Global, vars: u32, preds: &Preds, f: &Formula) -> Result<Option<One>, Memory>
    requires few { vars ≤ BOUND }
    requires scoped { IsFoldable preds.now vars f.now }
    ensures { IfOk result (IsFolded preds.now vars f.now) }
{
    match f {
        Formula::Call { pred, args } => {
            let args = copy_terms(alloc, args.as_slice())?;
            let proof = fold(alloc, vars, preds, *pred, args)?;
            let formula = copy(alloc, &proof.conclusion().left)?;
            Ok(Some(One { formula, proof }))
        }
        _ => Ok(None),
    }
}
