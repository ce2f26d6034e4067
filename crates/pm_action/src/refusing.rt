//! Refusals.

ghost use Rattle.std.specs.Prelude.{◌≡◌};
ghost use Rattle.pm_goal.specs.declared.refusal.StepFault.TheVariants as fault;
ghost use Rattle.pm_action.specs.Acting.{Refuses, plainly};

use pm_goal::{Refusal, Row, StepFault};
use pm_logic::{Name, copy_name};
use std::alloc::Global;

/// The refusal by the row of what is about this name, which it gives where the row gives one; or want of memory.
pub fn refuse(alloc: Global, row: Row, name: &Name) -> StepFault
    ensures { Refuses row name.now result }
{
    if !row.gives_name() {
        return refuse_plain(row);
    }
    match copy_name(alloc, name) {
        Ok(name) => {
            let name = Some(name);
            StepFault::Refused(Refusal { row, name })
        }
        Err(_) => StepFault::Memory,
    }
}

/// The refusal by the row, with no name.
pub fn refuse_plain(row: Row) -> StepFault
    ensures { result ≡ fault.Refused (plainly row) }
{
    StepFault::Refused(Refusal { row, name: None })
}
