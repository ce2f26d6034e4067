//! Calls of predicates that become bodies.

ghost use Rattle.std.specs.Prelude.{◌≡◌, [], Some, None};
ghost use Rattle.std.specs.Option.{option_copied};
ghost use Rattle.pm_proof.specs.Known.{From};
ghost use Rattle.pm_table.specs.Basic.{on_goal};
ghost use Rattle.pm_table.specs.Loeb as table;
ghost use Rattle.pm_table.specs.Limits.{all_nodes, work_formulas, limited};
ghost use Rattle.pm_action.specs.Acting.{AnswersOver, IsHanded};
ghost use Rattle.pm_action.specs.Meanings.{width};
ghost use Rattle.pm_loeb.specs.Calls.{IsUnfoldable};

use crate::bodies::{folded, unfolded};
use crate::finishing::conclude;
use crate::putting::{become_one, find_hyp};
use pm_action::{refuse, refuse_plain};
use pm_classes::One;
use pm_goal::{Row, StepFault, Work};
use pm_logic::{Name, Preds};
use pm_proof::Parts;
use pm_table::Place;
use std::alloc::Global;

/// The call in the conclusion.
#[tactic(auto, using(crate::proofs::Ending::no_memory))]
fn unfold_concl(alloc: Global, preds: &Preds, work: &Work) -> Result<Parts<Place>, StepFault>
    requires handed { IsHanded work.now }
    requires nothing { work.now.held ≡ [] }
    requires scoped { IsUnfoldable preds.now work.now }
    ensures { AnswersOver (From preds.now) (width work.now) (all_nodes (work_formulas work.now)) work.now (limited (table.unfold_call preds.now None work.now.goal)) result }
{
    let vars = work.goal.vars.len() as u32;
    let found = folded(alloc, vars, preds, &work.goal.concl)?;
    match found {
        Some(entry) => conclude(alloc, work, entry),
        None => Err(refuse_plain(Row::NotPredicateCall)),
    }
}

/// The call in the hypothesis of the name.
#[tactic(auto, using(crate::proofs::Ending::no_memory))]
fn unfold_named(
    alloc: Global,
    preds: &Preds,
    work: &Work,
    name: &Name,
) -> Result<Parts<Place>, StepFault>
    requires handed { IsHanded work.now }
    requires nothing { work.now.held ≡ [] }
    requires scoped { IsUnfoldable preds.now work.now }
    ensures { AnswersOver (From preds.now) (width work.now) (all_nodes (work_formulas work.now)) work.now (limited (table.unfold_call preds.now (Some name.now) work.now.goal)) result }
{
    let found = find_hyp(alloc, &work.goal, name)?;
    let Some(spot) = found else {
        return Err(refuse(alloc, Row::NoSuchHypothesis, name));
    };
    let vars = work.goal.vars.len() as u32;
    let body = unfolded(alloc, vars, preds, &spot.formula)?;
    let Some(entry) = body else {
        return Err(refuse_plain(Row::NotPredicateCall));
    };
    let One { formula, proof } = entry;
    become_one(alloc, work, name, &spot, &formula, proof)
}

/// The same, on the goal.
fn unfold_goal(
    alloc: Global,
    preds: &Preds,
    work: &Work,
    name: Option<&Name>,
) -> Result<Parts<Place>, StepFault>
    requires handed { IsHanded work.now }
    requires nothing { work.now.held ≡ [] }
    requires scoped { IsUnfoldable preds.now work.now }
    ensures { AnswersOver (From preds.now) (width work.now) (all_nodes (work_formulas work.now)) work.now (limited (table.unfold_call preds.now (option_copied name.entry) work.now.goal)) result }
{
    match name {
        Some(name) => unfold_named(alloc, preds, work, name),
        None => unfold_concl(alloc, preds, work),
    }
}

/// `iUnfold`: the call in the conclusion, or in the hypothesis of the name, becomes its body, in its place.
///
/// It is refused where there is no hypothesis of the name, where the formula is no call, and where the work passes a limit. The
/// proof is valid under the table, and under each that has more predicates at its end.
pub fn unfold(
    alloc: Global,
    preds: &Preds,
    work: &Work,
    name: Option<&Name>,
) -> Result<Parts<Place>, StepFault>
    requires handed { IsHanded work.now }
    requires nothing { work.now.held ≡ [] }
    requires scoped { IsUnfoldable preds.now work.now }
    ensures { AnswersOver (From preds.now) (width work.now) (all_nodes (work_formulas work.now)) work.now (limited (on_goal (table.unfold_call preds.now (option_copied name.entry)) work.now)) result }
{
    unfold_goal(alloc, preds, work, name)
}
