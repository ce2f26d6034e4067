//! Goals with another conclusion, and with nothing in hand.

ghost use Rattle.std.specs.Prelude.{◌≡◌, IfOk};
ghost use Rattle.pm_table.specs.Limits.{resting};
ghost use Rattle.pm_table.specs.Basic as table;

use pm_goal::{Goal, Work, copy_goal};
use pm_logic::{Formula, List, Memory};
use std::alloc::Global;

/// The goal with this conclusion.
pub fn concluding(alloc: Global, goal: &Goal, concl: Formula) -> Result<Goal, Memory>
    ensures { IfOk result (λ g. g ≡ table.for concl goal.now) }
{
    let mut new = copy_goal(alloc, goal)?;
    new.concl = concl;
    Ok(new)
}

/// The goal with nothing in hand.
pub fn at_rest(alloc: Global, goal: Goal) -> Work
    ensures { result ≡ resting goal }
{
    Work {
        goal,
        held: List::new(alloc),
    }
}
