//! More in hand.

ghost use Rattle.std.specs.Prelude.{◌≡◌, ◌+◌, ◌*◌, ◌<◌, ◌^◌, [], IfOk, length};
ghost use Rattle.pm_logic.specs.declared.formula.Formula.TheVariants.{Pure as Fact};
ghost use Rattle.pm_goal.specs.declared.work.Kind.TheVariants as kind;
ghost use Rattle.pm_goal.specs.Left.{left_of_work};
ghost use Rattle.pm_proof.specs.Trees.{entail};
ghost use Rattle.pm_proof.specs.Known.{Proves, Every};
ghost use Rattle.pm_star.specs.Stars.{work_parts};
ghost use Rattle.pm_table.specs.Limits.{hypotheses};
ghost use Rattle.pm_table.specs.Works.{hold};
ghost use Rattle.pm_action.specs.Meanings.{height};

use crate::steps::boxed;
use pm_goal::{Held, Kind, Work, copy_work};
use pm_logic::{Formula, Memory, Pure, copy_pure};
use pm_proof::Proof;
use pm_star::replace_at_held;
use std::alloc::Global;

/// How many parts the star has.
pub fn count(work: &Work) -> u32
    requires { hypotheses work.now < 2 ^ 32 }
    ensures { result ≡ hypotheses work.now }
{
    let goal = &work.goal;
    (goal.pures.len() + goal.ints.len() + goal.spats.len() + work.held.len()) as u32
}

/// The work with one more in hand.
pub fn hold(work: Work, kind: Kind, formula: Formula) -> Result<Work, Memory>
    ensures { IfOk result (λ w. w ≡ hold kind formula work) }
{
    let mut work = work;
    work.held.push(Held { kind, formula })?;
    Ok(work)
}

/// From the star with the fact last in hand to the star with the fact in hand as an intuitionistic one.
pub fn boxed_last(alloc: Global, work: &Work, pure: &Pure) -> Result<Proof, Memory>
    requires vars { length work.now.goal.vars < 2 ^ 32 }
    requires few { hypotheses work.now < 2 ^ 32 }
    ensures { IfOk result (λ p. Proves Every (entail (length work.now.goal.vars) (left_of_work (hold kind.Spat (Fact pure.now) work.now)) (left_of_work (hold kind.Int (Fact pure.now) work.now))) [] (100 * length (work_parts work.now) + 201) (height (hold kind.Int (Fact pure.now) work.now) + 16) (length work.now.goal.vars) p) }
{
    let fact = Formula::Pure(copy_pure(alloc, pure)?);
    let middle = hold(copy_work(alloc, work)?, Kind::Spat, fact)?;
    let by = boxed(alloc, work.goal.vars.len() as u32, pure)?;
    let proof = replace_at_held(alloc, &middle, count(work), by)?;
    Ok(proof)
}
