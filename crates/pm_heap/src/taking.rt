//! Spatial hypotheses that come into hand.

ghost use Rattle.std.specs.Prelude.{◌≡◌, ◌+◌, ◌<◌, ◌^◌, IfOk, length};
ghost use Rattle.pm_goal.specs.declared.work.Kind.TheVariants as kind;
ghost use Rattle.pm_goal.specs.Left.{left_of_work};
ghost use Rattle.pm_star.specs.Stars.{work_parts, Moves};
ghost use Rattle.pm_table.specs.Limits.{hypotheses};
ghost use Rattle.pm_table.specs.Stepping.{NamesDiffer};
ghost use Rattle.pm_table.specs.Works.{hold};
ghost use Rattle.pm_hand.specs.Changed.{less};
ghost use Rattle.pm_hand.specs.Looking.{IsAt};
ghost use Rattle.pm_heap.specs.Taken.{taken};

use pm_goal::{Held, Kind, Work, copy_work};
use pm_hand::without_named;
use pm_logic::{Formula, Memory, Name, copy};
use pm_proof::Proof;
use pm_star::carry_held;
use std::alloc::Global;

/// How many parts the star has.
pub fn count(work: &Work) -> u32
    requires { hypotheses work.now < 2 ^ 32 }
    ensures { result ≡ hypotheses work.now }
{
    let goal = &work.goal;
    (goal.pures.len() + goal.ints.len() + goal.spats.len() + work.held.len()) as u32
}

/// The work with one more in hand, spatial.
pub fn hold(alloc: Global, work: &Work, formula: &Formula) -> Result<Work, Memory>
    ensures { IfOk result (λ w. w ≡ hold kind.Spat formula.now work.now) }
{
    let mut new = copy_work(alloc, work)?;
    let formula = copy(alloc, formula)?;
    new.held.push(Held {
        kind: Kind::Spat,
        formula,
    })?;
    Ok(new)
}

/// The work without the hypothesis of the name.
pub fn less(alloc: Global, work: &Work, name: &Name) -> Result<Work, Memory>
    requires { NamesDiffer work.now.goal }
    ensures { IfOk result (λ w. w ≡ less work.now name.now) }
{
    let mut new = copy_work(alloc, work)?;
    new.goal = without_named(alloc, &work.goal, name)?;
    Ok(new)
}

/// From the star to the star with the spatial hypothesis of the name at its end.
pub fn carried(
    alloc: Global,
    work: &Work,
    name: &Name,
    place: u32,
    formula: &Formula,
) -> Result<Proof, Memory>
    requires vars { length work.now.goal.vars < 2 ^ 32 }
    requires few { hypotheses work.now < 2 ^ 32 }
    requires at { IsAt work.now.goal name.now place formula.now }
    ensures { IfOk result (λ p. Moves (length work.now.goal.vars) (length (work_parts work.now)) (left_of_work work.now) (left_of_work (taken work.now name.now formula.now)) p) }
{
    let proof = carry_held(alloc, work, place, count(work) - 1)?;
    Ok(proof)
}
