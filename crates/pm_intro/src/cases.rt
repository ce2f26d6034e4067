//! What is last in hand is taken apart into two alternatives.

ghost use Rattle.std.specs.Prelude.{◌≡◌, ◌<◌, [], ◌∷◌, IfOk, length};
ghost use Rattle.pm_goal.specs.Left.{of_kind};
ghost use Rattle.pm_table.specs.Limits.{all_nodes, work_formulas, limited};
ghost use Rattle.pm_table.specs.Outcomes.{gives};
ghost use Rattle.pm_table.specs.Destructs as table;
ghost use Rattle.pm_table.specs.Works.{holding};
ghost use Rattle.pm_action.specs.Acting.{Answers, IsHanded, IsLast};
ghost use Rattle.pm_intro.specs.Hands.{kept, HasCases};
ghost use Rattle.pm_intro.specs.Cases.{cases, Splits};

use crate::ending::{finish_cases, reach};
use crate::entries::into_cases;
use crate::fronts::front;
use crate::hands::{of_kind, rest, with_one};
use crate::steps::by_cases;
use pm_action::{last, refuse_plain};
use pm_classes::Pair;
use pm_goal::{Held, Kind, Row, StepFault, Work, left_of_work};
use pm_logic::{Formula, Memory};
use pm_proof::{Parts, Proof};
use pm_star::compose;
use pm_table::Place;
use std::alloc::Global;

/// From what the new works mean, which are the holes: the conclusion, by the alternatives beside what is left of the star.
fn split(
    alloc: Global,
    work: &Work,
    kind: Kind,
    a: &Formula,
    b: &Formula,
    left: &Work,
    right: &Work,
) -> Result<Proof, Memory>
    requires handed { IsHanded work.now }
    requires some { 0 < length work.now.held }
    requires left { left.now ≡ kept work.now (holding kind a.now ∷ []) }
    requires right { right.now ≡ kept work.now (holding kind b.now ∷ []) }
    ensures { IfOk result (Splits work.now (of_kind kind a.now) (of_kind kind b.now) left.now right.now) }
{
    let vars = work.goal.vars.len() as u32;
    let rest = rest(alloc, work)?;
    let a = of_kind(alloc, kind, a)?;
    let b = of_kind(alloc, kind, b)?;
    let first = reach(alloc, &rest, &a, left)?;
    let second = reach(alloc, &rest, &b, right)?;
    let star = left_of_work(alloc, &rest)?;
    let concl = &work.goal.concl;
    let proof = by_cases(alloc, vars, &a, &b, &star, concl, first, second)?;
    Ok(proof)
}

/// Two works, with the alternatives in place of what is last in hand.
#[tactic(auto, using(crate::proofs::Answered::wants_memory))]
fn alternatives(
    alloc: Global,
    work: &Work,
    held: &Held,
    entry: Pair,
) -> Result<Parts<Place>, StepFault>
    requires handed { IsHanded work.now }
    requires some { 0 < length work.now.held }
    requires last { IsLast work.now held.now }
    requires says { HasCases held.now.kind (length work.now.goal.vars) held.now.formula entry }
    ensures { Answers (all_nodes (work_formulas work.now)) work.now (limited (gives (cases (kept work.now (holding held.now.kind entry.first ∷ [])) (kept work.now (holding held.now.kind entry.second ∷ []))))) result }
{
    let Pair {
        first,
        second,
        proof,
    } = entry;
    let left = with_one(alloc, work, held.kind, &first)?;
    let right = with_one(alloc, work, held.kind, &second)?;
    let split = split(alloc, work, held.kind, &first, &second, &left, &right)?;
    let front = front(alloc, work, held, proof)?;
    let proof = compose(alloc, front, split)?;
    finish_cases(alloc, left, right, proof)
}

/// `[p|q]`: two works, the first pattern for the first and the second for the second.
///
/// It is refused where what is last in hand isn't taken apart into alternatives, and where one of the works passes a limit.
#[tactic(auto, using(crate::proofs::Answered::wants_memory))]
pub fn either(alloc: Global, work: &Work) -> Result<Parts<Place>, StepFault>
    requires handed { IsHanded work.now }
    requires some { 0 < length work.now.held }
    ensures { Answers (all_nodes (work_formulas work.now)) work.now (limited (table.either work.now)) result }
{
    let held = last(work);
    let vars = work.goal.vars.len() as u32;
    let Some(entry) = into_cases(alloc, vars, held)? else {
        return Err(refuse_plain(Row::NotAlternatives));
    };
    alternatives(alloc, work, held, entry)
}
