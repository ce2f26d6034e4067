//! `iExact`.

ghost use Rattle.std.specs.Prelude.{◌≡◌, []};
ghost use Rattle.pm_table.specs.Basic as table;
ghost use Rattle.pm_table.specs.Basic.{on_goal};
ghost use Rattle.pm_table.specs.Limits.{all_nodes, work_formulas, limited};
ghost use Rattle.pm_action.specs.Acting.{Answers, IsHanded};

use crate::naming::{by_name, is_named};
use crate::taking::close_by;
use pm_action::{refuse, refuse_plain};
use pm_goal::{Row, StepFault, Work};
use pm_logic::Name;
use pm_proof::Parts;
use pm_table::Place;
use std::alloc::Global;

/// `iExact "H"`: the goal is closed by the hypothesis or the fact of the name, which is the conclusion; an intuitionistic
/// hypothesis also closes its box.
///
/// It is refused where nothing has the name, and where that doesn't give the conclusion.
pub fn exact(alloc: Global, work: &Work, h: &Name) -> Result<Parts<Place>, StepFault>
    requires handed { IsHanded work.now }
    requires nothing { work.now.held ≡ [] }
    ensures { Answers (all_nodes (work_formulas work.now)) work.now (limited (on_goal (table.exact h.now) work.now)) result }
{
    if !is_named(&work.goal, h) {
        return Err(refuse(alloc, Row::NoSuchHypothesis, h));
    }
    match by_name(&work.goal, h) {
        Some(found) => close_by(alloc, work, found),
        None => Err(refuse_plain(Row::NotTheConclusion)),
    }
}
