//! The end of actions that change the conclusion alone.

ghost use Rattle.std.specs.Prelude.{◌≡◌, ℕ, ◌<◌, ◌^◌, [], length};
ghost use Rattle.pm_table.specs.Limits.{limited};
ghost use Rattle.pm_table.specs.Basic as table;
ghost use Rattle.pm_action.specs.Acting.{Answers};
ghost use Rattle.pm_basic.specs.Enough.{Suffices};

use crate::steps::{at_rest, concluding};
use pm_action::{finish_one, wanted};
use pm_classes::One;
use pm_goal::{StepFault, Work};
use pm_proof::Parts;
use pm_star::compose;
use pm_table::Place;
use std::alloc::Global;

/// The goal with the entry's formula as its conclusion, in the place of the old one.
pub fn conclude(alloc: Global, work: &Work, entry: One) -> Result<Parts<Place>, StepFault>
    requires few { length work.now.goal.vars < 2 ^ 32 }
    requires nothing { work.now.held ≡ [] }
    requires proof { Suffices (length work.now.goal.vars) work.now.goal.concl entry.formula entry.proof }
    ensures { (s : ℕ) → Answers s work.now (limited (table.gives_goal (table.for entry.formula work.now.goal))) result }
{
    let One { formula, proof } = entry;
    let goal = concluding(alloc, &work.goal, formula)?;
    let new = at_rest(alloc, goal);
    let wanted = wanted(alloc, &new)?;
    let proof = compose(alloc, wanted, proof)?;
    finish_one(alloc, new, proof)
}
