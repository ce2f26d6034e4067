//! Bodies of predicates that become calls.

ghost use Rattle.std.specs.Prelude.{◌≡◌, ◌+◌, [], length};
ghost use Rattle.pm_logic.specs.Size.{nodes_of};
ghost use Rattle.pm_proof.specs.Known.{From};
ghost use Rattle.pm_table.specs.Basic.{on_goal};
ghost use Rattle.pm_table.specs.Loeb as table;
ghost use Rattle.pm_table.specs.Limits.{all_nodes, work_formulas, limited};
ghost use Rattle.pm_action.specs.Acting.{AnswersOver, IsHanded};
ghost use Rattle.pm_action.specs.Meanings.{width};
ghost use Rattle.pm_loeb.specs.Calls.{IsFoldable};

use crate::bodies::folded;
use crate::putting::{become_one, find_hyp};
use pm_action::{refuse, refuse_plain};
use pm_goal::{Row, StepFault, Work};
use pm_logic::{Formula, Name, Preds, same};
use pm_proof::Parts;
use pm_table::Place;
use std::alloc::Global;

/// The same, on the goal.
#[tactic(auto, using(crate::proofs::Ending::no_memory))]
fn fold_goal(
    alloc: Global,
    preds: &Preds,
    work: &Work,
    call: &Formula,
    name: &Name,
) -> Result<Parts<Place>, StepFault>
    requires handed { IsHanded work.now }
    requires nothing { work.now.held ≡ [] }
    requires scoped { IsFoldable preds.now (length work.now.goal.vars) call.now }
    ensures { AnswersOver (From preds.now) (width work.now) (all_nodes (work_formulas work.now) + nodes_of call.now) work.now (limited (table.fold_call preds.now call.now name.now work.now.goal)) result }
{
    let vars = work.goal.vars.len() as u32;
    let body = folded(alloc, vars, preds, call)?;
    let Some(entry) = body else {
        return Err(refuse_plain(Row::NotPredicateCall));
    };
    let found = find_hyp(alloc, &work.goal, name)?;
    let Some(spot) = found else {
        return Err(refuse(alloc, Row::NoSuchHypothesis, name));
    };
    if !same(&spot.formula, &entry.formula) {
        return Err(refuse_plain(Row::NotPredicateBody));
    }
    become_one(alloc, work, name, &spot, call, entry.proof)
}

/// `iFold`: the hypothesis of the name, which is the body of the call, becomes the call, in its place.
///
/// It is refused where the formula is no call, where there is no hypothesis of the name, where that is another formula than the
/// body, and where the work passes a limit. The proof is valid under the table, and under each that has more predicates at its end.
pub fn fold(
    alloc: Global,
    preds: &Preds,
    work: &Work,
    call: &Formula,
    name: &Name,
) -> Result<Parts<Place>, StepFault>
    requires handed { IsHanded work.now }
    requires nothing { work.now.held ≡ [] }
    requires scoped { IsFoldable preds.now (length work.now.goal.vars) call.now }
    ensures { AnswersOver (From preds.now) (width work.now) (all_nodes (work_formulas work.now) + nodes_of call.now) work.now (limited (on_goal (table.fold_call preds.now call.now name.now) work.now)) result }
{
    fold_goal(alloc, preds, work, call, name)
}
