//! Proofs by the rules of predicates.

ghost use Rattle.std.specs.Prelude.{◌≡◌, ◌+◌, ◌<◌, ◌≤◌, [], length, IfOk};
ghost use Rattle.pm_logic.specs.declared.formula.Formula.TheVariants as formula;
ghost use Rattle.pm_logic.specs.declared.formula.TheConstants.{BOUND};
ghost use Rattle.pm_logic.specs.Bounds.{past_indices};
ghost use Rattle.pm_logic.specs.Scope.{ScopedIn, TermsScoped, body_of};
ghost use Rattle.pm_logic.specs.Size.{depth_of};
ghost use Rattle.pm_logic.specs.Substitution.{subst_of};
ghost use Rattle.pm_proof.specs.Trees.{entail, side_depth};
ghost use Rattle.pm_proof.specs.Known.{Proves, From};

use pm_logic::{Formula, List, Memory, Preds, Term, subst};
use pm_proof::{Proof, by_rule};
use pm_rules::{Entail, Rule};
use std::alloc::Global;

/// `p[args] ⊢ p(args)`, from the body of the predicate at `pred` with the arguments to its call. The body is scoped in their
/// number. The proof is valid under the table, and under each that has more predicates at its end.
pub fn fold(
    alloc: Global,
    vars: u32,
    preds: &Preds,
    pred: u32,
    args: List<Term>,
) -> Result<Proof, Memory>
    requires there { pred < length preds.now.list }
    requires scoped { ScopedIn (length args) (body_of preds.now.list pred) }
    requires size { length args + depth_of (body_of preds.now.list pred) ≤ BOUND }
    requires terms { TermsScoped past_indices args }
    ensures { IfOk result (λ t. Proves (From preds.now) (entail vars (subst_of (body_of preds.now.list pred) args) (formula.Call pred args)) [] 1 (side_depth (entail vars (subst_of (body_of preds.now.list pred) args) (formula.Call pred args))) vars t) }
{
    let left = body(alloc, preds, pred, &args)?;
    let right = Formula::Call { pred, args };
    let conclusion = Entail { vars, left, right };
    let proof = by_rule(alloc, Rule::Fold, None, None, conclusion)?;
    Ok(proof)
}

/// `p(args) ⊢ p[args]`, as for `fold`
pub fn unfold_call(
    alloc: Global,
    vars: u32,
    preds: &Preds,
    pred: u32,
    args: List<Term>,
) -> Result<Proof, Memory>
    requires there { pred < length preds.now.list }
    requires scoped { ScopedIn (length args) (body_of preds.now.list pred) }
    requires size { length args + depth_of (body_of preds.now.list pred) ≤ BOUND }
    requires terms { TermsScoped past_indices args }
    ensures { IfOk result (λ t. Proves (From preds.now) (entail vars (formula.Call pred args) (subst_of (body_of preds.now.list pred) args)) [] 1 (side_depth (entail vars (formula.Call pred args) (subst_of (body_of preds.now.list pred) args))) vars t) }
{
    let right = body(alloc, preds, pred, &args)?;
    let left = Formula::Call { pred, args };
    let conclusion = Entail { vars, left, right };
    let proof = by_rule(alloc, Rule::Unfold, None, None, conclusion)?;
    Ok(proof)
}

/// The body with the arguments.
#[tactic(auto, using(pm_logic::proofs::Guards::body_some))]
fn body(alloc: Global, preds: &Preds, pred: u32, args: &List<Term>) -> Result<Formula, Memory>
    requires there { pred < length preds.now.list }
    requires scoped { ScopedIn (length args.now) (body_of preds.now.list pred) }
    requires size { length args.now + depth_of (body_of preds.now.list pred) ≤ BOUND }
    requires terms { TermsScoped past_indices args.now }
    ensures { IfOk result (λ f. f ≡ subst_of (body_of preds.now.list pred) args.now) }
{
    let Some(q) = preds.list.get(pred as usize) else {
        unreachable!();
    };
    subst(alloc, &q.body, args)
}
