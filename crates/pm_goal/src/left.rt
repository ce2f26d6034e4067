//! The left side of what a goal means.

ghost use Rattle.std.specs.Prelude.{◌≡◌, IfOk};
ghost use Rattle.pm_goal.specs.Left.{of_kind, facts, hyps_as, held_parts, star_onto, left_onto, left_of, left_of_work};

use crate::context::{Ctx, Facts};
use crate::goal::Goal;
use crate::work::{Held, Kind, Work};
use pm_logic::{Formula, Memory, Pure, copy, copy_pure, pers, sep};
use std::alloc::Global;

/// The formula as its kind stands in a star: an intuitionistic one under `□`.
fn of_kind(alloc: Global, kind: Kind, formula: &Formula) -> Result<Formula, Memory>
    ensures { IfOk result (λ f. f ≡ of_kind kind formula.now) }
{
    let formula = copy(alloc, formula)?;
    match kind {
        Kind::Int => pers(alloc, formula),
        Kind::Spat => Ok(formula),
    }
}

#[tactic(auto, using(crate::proofs::Stars::star_none))]
fn facts_onto(alloc: Global, list: &Facts, end: Formula) -> Result<Formula, Memory>
    ensures { IfOk result (λ f. f ≡ star_onto (facts list.now) end) }
{
    let mut left = end;
    let mut i = list.len();
    while i > 0 {
        i -= 1;
        if let Some(pure) = list.pure(i) {
            let asserted = Formula::Pure(copy_pure(alloc, pure)?);
            left = sep(alloc, asserted, left)?;
        }
    }
    Ok(left)
}

/// The hypotheses of one kind.
#[tactic(auto, using(crate::proofs::Stars::star_none))]
fn hyps_onto(alloc: Global, kind: Kind, list: &Ctx, end: Formula) -> Result<Formula, Memory>
    ensures { IfOk result (λ f. f ≡ star_onto (hyps_as kind list.now) end) }
{
    let mut left = end;
    let mut i = list.len();
    while i > 0 {
        i -= 1;
        if let Some(formula) = list.formula(i) {
            let part = of_kind(alloc, kind, formula)?;
            left = sep(alloc, part, left)?;
        }
    }
    Ok(left)
}

#[tactic(auto, using(crate::proofs::Stars::star_none))]
fn held_onto(alloc: Global, list: &[Held], end: Formula) -> Result<Formula, Memory>
    ensures { IfOk result (λ f. f ≡ star_onto (held_parts list.now) end) }
{
    let mut left = end;
    let mut i = list.len();
    while i > 0 {
        i -= 1;
        let held = &list[i];
        let formula = of_kind(alloc, held.kind, &held.formula)?;
        left = sep(alloc, formula, left)?;
    }
    Ok(left)
}

/// The star of a goal's contexts, ending in this formula.
fn left_onto(alloc: Global, goal: &Goal, end: Formula) -> Result<Formula, Memory>
    ensures { IfOk result (λ f. f ≡ left_onto goal.now end) }
{
    let left = hyps_onto(alloc, Kind::Spat, &goal.spats, end)?;
    let left = hyps_onto(alloc, Kind::Int, &goal.ints, left)?;
    facts_onto(alloc, &goal.pures, left)
}

/// The star of the facts, the intuitionistic hypotheses, each under `□`, and the spatial ones, in the order of the goal,
/// nested to the right and ending in `⌜True⌝`. The error is want of memory.
pub fn left_of(alloc: Global, goal: &Goal) -> Result<Formula, Memory>
    ensures { IfOk result (λ f. f ≡ left_of goal.now) }
{
    left_onto(alloc, goal, Formula::Pure(Pure::True))
}

/// The same with the hypotheses in hand behind the spatial ones, in their order. The error is want of memory.
pub fn left_of_work(alloc: Global, work: &Work) -> Result<Formula, Memory>
    ensures { IfOk result (λ f. f ≡ left_of_work work.now) }
{
    let end = held_onto(alloc, work.held.as_slice(), Formula::Pure(Pure::True))?;
    left_onto(alloc, &work.goal, end)
}
