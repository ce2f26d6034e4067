//! One proof after another.

ghost use Rattle.std.specs.Prelude.{◌≡◌, IfOk};
ghost use Rattle.pm_proof.specs.Trees.{conclusion};
ghost use Rattle.pm_star.specs.Levels.{left_side, right_side};
ghost use Rattle.pm_star.specs.Chains.{Follows, ChainProves, ChainExtends, ChainContinues};

use pm_logic::{Memory, copy};
use pm_proof::{Proof, by_rule};
use pm_rules::{Entail, Rule};
use std::alloc::Global;

/// From the left side of the first proof to the right side of the second, which meet in between. Its holes are those of the
/// first, then those of the second. After the error, which is want of memory, both are dropped.
pub fn compose(alloc: Global, first: Proof, second: Proof) -> Result<Proof, Memory>
    requires vars { (conclusion second).vars ≡ (conclusion first).vars }
    requires meet { left_side second ≡ right_side first }
    ensures follows { IfOk result (λ p. Follows first second p) }
    ensures proves { IfOk result (λ p. ChainProves first second p) }
    ensures extends { IfOk result (λ p. ChainExtends first second p) }
    ensures continues { IfOk result (λ p. ChainContinues first second p) }
{
    let e = first.conclusion();
    let vars = e.vars;
    let left = copy(alloc, &e.left)?;
    let right = copy(alloc, &second.conclusion().right)?;
    let conclusion = Entail { vars, left, right };
    let proof = by_rule(alloc, Rule::Trans, Some(first), Some(second), conclusion)?;
    Ok(proof)
}
