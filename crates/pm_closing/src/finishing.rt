//! `done`, and `//` in patterns.

ghost use Rattle.std.specs.Prelude.{◌≡◌, ◌≤◌, ◌||◌, [], IfOk};
ghost use Rattle.pm_logic.specs.declared.limits.TheConstants.{MAX_LINE_LEVELS};
ghost use Rattle.pm_logic.specs.Size.{depth_of};
ghost use Rattle.pm_table.specs.Basic as table;
ghost use Rattle.pm_table.specs.Basic.{on_goal};
ghost use Rattle.pm_table.specs.Limits.{all_nodes, work_formulas, limited};
ghost use Rattle.pm_action.specs.Acting.{Answers, IsActed, IsHanded};
ghost use Rattle.pm_closing.specs.Ways.{Tells};

use crate::falsehoods::by_part;
use crate::opposites::by_opposites;
use crate::reflexive::{by_reflexivity, by_truth};
use crate::taking::by_found;
use pm_action::{finish_closed, refuse_plain, unmoved};
use pm_goal::{Row, StepFault, Work, copy_work};
use pm_logic::Memory;
use pm_proof::{Parts, Proof};
use pm_table::Place;
use std::alloc::Global;

/// The conclusion, where it says that a term is equal to itself, or where a fact and its negation are there.
fn by_facts(alloc: Global, work: &Work) -> Result<Option<Proof>, Memory>
    requires handed { IsHanded work.now }
    requires shallow { depth_of work.now.goal.concl ≤ MAX_LINE_LEVELS }
    ensures { IfOk result (Tells (table.is_reflexive work.now.goal.concl || table.is_contradictory work.now.goal.pures) (IsActed (all_nodes (work_formulas work.now)) work.now [])) }
{
    if let Some(proof) = by_reflexivity(alloc, work)? {
        return Ok(Some(proof));
    }
    by_opposites(alloc, work)
}

/// The conclusion, where a part of the star gives it, or else as `by_facts`.
fn by_context(alloc: Global, work: &Work) -> Result<Option<Proof>, Memory>
    requires handed { IsHanded work.now }
    requires shallow { depth_of work.now.goal.concl ≤ MAX_LINE_LEVELS }
    ensures { IfOk result (Tells ((table.has_falsehood work.now.goal || (table.is_hypothesis work.now.goal || table.is_fact work.now.goal)) || (table.is_reflexive work.now.goal.concl || table.is_contradictory work.now.goal.pures)) (IsActed (all_nodes (work_formulas work.now)) work.now [])) }
{
    if let Some(found) = by_part(&work.goal) {
        let proof = by_found(alloc, work, found)?;
        return Ok(Some(proof));
    }
    by_facts(alloc, work)
}

/// The conclusion, where it can be seen at once.
fn at_once(alloc: Global, work: &Work) -> Result<Option<Proof>, Memory>
    requires handed { IsHanded work.now }
    requires shallow { depth_of work.now.goal.concl ≤ MAX_LINE_LEVELS }
    ensures { IfOk result (Tells (table.is_done work.now.goal) (IsActed (all_nodes (work_formulas work.now)) work.now [])) }
{
    if let Some(proof) = by_truth(alloc, work)? {
        return Ok(Some(proof));
    }
    by_context(alloc, work)
}

/// `done`: the goal is closed where its conclusion is `True`, where a fact or a hypothesis is `False`, where a hypothesis or
/// a fact is the conclusion, where that says that a term is equal to itself, and where a fact and its negation are there.
///
/// It is refused where none of these is so. The conclusion is as shallow as a line of a derivation has room for, since its
/// terms stand in one.
pub fn done(alloc: Global, work: &Work) -> Result<Parts<Place>, StepFault>
    requires handed { IsHanded work.now }
    requires nothing { work.now.held ≡ [] }
    requires shallow { depth_of work.now.goal.concl ≤ MAX_LINE_LEVELS }
    ensures { Answers (all_nodes (work_formulas work.now)) work.now (limited (on_goal table.done work.now)) result }
{
    match at_once(alloc, work)? {
        Some(proof) => finish_closed(alloc, proof),
        None => Err(refuse_plain(Row::NotDone)),
    }
}

/// `//` in a pattern: as `done`, but where that is refused the work stays as it is.
pub fn try_done(alloc: Global, work: &Work) -> Result<Parts<Place>, StepFault>
    requires handed { IsHanded work.now }
    requires nothing { work.now.held ≡ [] }
    requires shallow { depth_of work.now.goal.concl ≤ MAX_LINE_LEVELS }
    ensures { Answers (all_nodes (work_formulas work.now)) work.now (limited (on_goal table.try_done work.now)) result }
{
    match at_once(alloc, work)? {
        Some(proof) => finish_closed(alloc, proof),
        None => {
            let same = copy_work(alloc, work)?;
            unmoved(alloc, work, same)
        }
    }
}
