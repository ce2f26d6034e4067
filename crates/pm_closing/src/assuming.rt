//! `iAssumption`.

ghost use Rattle.std.specs.Prelude.{◌≡◌, []};
ghost use Rattle.pm_table.specs.Basic as table;
ghost use Rattle.pm_table.specs.Basic.{on_goal};
ghost use Rattle.pm_table.specs.Limits.{all_nodes, work_formulas, limited};
ghost use Rattle.pm_action.specs.Acting.{Answers, IsHanded};

use crate::finding::by_assumption;
use crate::taking::close_by;
use pm_action::refuse_plain;
use pm_goal::{Row, StepFault, Work};
use pm_proof::Parts;
use pm_table::Place;
use std::alloc::Global;

/// `iAssumption`: the goal is closed by the first spatial hypothesis that is the conclusion, else by the first intuitionistic
/// one that is, or of which that is the box, else by the first fact that it says.
///
/// It is refused where none gives the conclusion.
pub fn assumption(alloc: Global, work: &Work) -> Result<Parts<Place>, StepFault>
    requires handed { IsHanded work.now }
    requires nothing { work.now.held ≡ [] }
    ensures { Answers (all_nodes (work_formulas work.now)) work.now (limited (on_goal table.assumption work.now)) result }
{
    match by_assumption(&work.goal) {
        Some(found) => close_by(alloc, work, found),
        None => Err(refuse_plain(Row::NoAssumption)),
    }
}
