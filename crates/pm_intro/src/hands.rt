//! What is last in hand, and what stands in its place.

ghost use Rattle.std.specs.Prelude.{◌≡◌, ◌<◌, [], ◌∷◌, IfOk, length};
ghost use Rattle.pm_goal.specs.Left.{of_kind};
ghost use Rattle.pm_table.specs.Works.{holding};
ghost use Rattle.pm_intro.specs.Hands.{kept, rest};

use pm_action::others;
use pm_goal::{Held, Kind, Work, copy_goal};
use pm_logic::{Formula, Memory, copy, pers};
use std::alloc::Global;

/// The formula as its kind stands in a star.
pub fn of_kind(alloc: Global, kind: Kind, formula: &Formula) -> Result<Formula, Memory>
    ensures { IfOk result (λ f. f ≡ of_kind kind formula.now) }
{
    let formula = copy(alloc, formula)?;
    match kind {
        Kind::Int => pers(alloc, formula),
        Kind::Spat => Ok(formula),
    }
}

/// The work without what is last in hand.
pub fn rest(alloc: Global, work: &Work) -> Result<Work, Memory>
    requires { 0 < length work.now.held }
    ensures { IfOk result (λ w. w ≡ rest work.now) }
{
    let goal = copy_goal(alloc, &work.goal)?;
    let held = others(alloc, work)?;
    Ok(Work { goal, held })
}

/// The work with this in place of what is last in hand.
pub fn with_one(alloc: Global, work: &Work, kind: Kind, formula: &Formula) -> Result<Work, Memory>
    requires { 0 < length work.now.held }
    ensures { IfOk result (λ w. w ≡ kept work.now (holding kind formula.now ∷ [])) }
{
    let goal = copy_goal(alloc, &work.goal)?;
    let mut held = others(alloc, work)?;
    let formula = copy(alloc, formula)?;
    held.push(Held { kind, formula })?;
    Ok(Work { goal, held })
}

/// The work with these two in place of what is last in hand.
pub fn with_two(
    alloc: Global,
    work: &Work,
    kind: Kind,
    before: &Formula,
    last: &Formula,
) -> Result<Work, Memory>
    requires { 0 < length work.now.held }
    ensures { IfOk result (λ w. w ≡ kept work.now (holding kind before.now ∷ holding kind last.now ∷ [])) }
{
    let goal = copy_goal(alloc, &work.goal)?;
    let mut held = others(alloc, work)?;
    let formula = copy(alloc, before)?;
    held.push(Held { kind, formula })?;
    let formula = copy(alloc, last)?;
    held.push(Held { kind, formula })?;
    Ok(Work { goal, held })
}
