//! Names that a goal doesn't have.

ghost use Rattle.std.specs.Prelude.{◌≡◌, ◌<◌, ◌^◌, length, IfOk};
ghost use Rattle.pm_goal.specs.Fresh.{numbered, IsFresh};

use crate::finding::find;
use crate::goal::Goal;
use pm_logic::{Memory, Name};
use std::alloc::Global;

/// `_H` and a number.
fn numbered(alloc: Global, n: u64) -> Result<Name, Memory>
    ensures { IfOk result (λ name. name ≡ numbered n) }
{
    let text = format!(in alloc; "_H{n}")?;
    Name::from_bytes(alloc, text.as_bytes())
}

/// `_H` and the least number from 1 that gives a name which the goal doesn't have. The error is want of memory.
pub fn fresh(alloc: Global, goal: &Goal) -> Result<Name, Memory>
    requires vars { length goal.now.vars < 2 ^ 32 }
    requires pures { length goal.now.pures < 2 ^ 32 }
    requires ints { length goal.now.ints < 2 ^ 32 }
    requires spats { length goal.now.spats < 2 ^ 32 }
    ensures { IfOk result (IsFresh goal.now) }
{
    let mut n: u64 = 1;
    loop {
        let name = numbered(alloc, n)?;
        if find(goal, &name).is_none() {
            return Ok(name);
        }
        n = n.checked_add(1).ok_or(Memory)?;
    }
}
