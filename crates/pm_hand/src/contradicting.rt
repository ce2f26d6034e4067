//! What is last in hand is falsehood.

ghost use Rattle.std.specs.Prelude.{◌≡◌, ◌<◌, IfOk, [], length};
ghost use Rattle.pm_logic.specs.declared.formula.Formula.TheVariants.{Pure as Fact};
ghost use Rattle.pm_logic.specs.declared.formula.Pure.TheVariants as pure;
ghost use Rattle.pm_goal.specs.Left.{of_kind};
ghost use Rattle.pm_table.specs.Limits.{all_nodes, work_formulas, limited};
ghost use Rattle.pm_table.specs.Destructs as table;
ghost use Rattle.pm_action.specs.Acting.{Answers, IsHanded, IsLast, IsActed};
ghost use Rattle.pm_hand.specs.Changed.{FromStar};

use crate::steps::{first, from_absurd};
use pm_action::{finish_closed, last, last_place, refuse_plain};
use pm_goal::{Held, Row, StepFault, Work};
use pm_logic::{Formula, Memory, Pure};
use pm_proof::{Parts, Proof};
use pm_star::{bring_front_held, compose};
use pm_table::Place;
use std::alloc::Global;

fn is_falsehood(f: &Formula) -> bool
    ensures { result ≡ table.is_falsehood f.now }
{
    matches!(f, Formula::Pure(Pure::False))
}

/// From the star to its last part.
fn to_last(alloc: Global, work: &Work, held: &Held) -> Result<Proof, Memory>
    requires handed { IsHanded work.now }
    requires some { 0 < length work.now.held }
    requires last { IsLast work.now held.now }
    ensures { IfOk result (λ p. FromStar work.now (of_kind held.now.kind held.now.formula) p) }
{
    let front = bring_front_held(alloc, work, last_place(work))?;
    let proof = first(alloc, front)?;
    Ok(proof)
}

/// From the star to the conclusion, over the contradiction last in hand.
fn close(alloc: Global, work: &Work, held: &Held) -> Result<Proof, Memory>
    requires handed { IsHanded work.now }
    requires some { 0 < length work.now.held }
    requires last { IsLast work.now held.now }
    requires falsehood { held.now.formula ≡ Fact pure.False }
    ensures { IfOk result (λ p. IsActed (all_nodes (work_formulas work.now)) work.now [] p) }
{
    let reached = to_last(alloc, work, held)?;
    let vars = work.goal.vars.len() as u32;
    let rest = from_absurd(alloc, vars, held.kind, &work.goal.concl)?;
    let proof = compose(alloc, reached, rest)?;
    Ok(proof)
}

/// `[]`: what is last in hand is falsehood, and the goal is closed.
///
/// It is refused where it isn't falsehood.
pub fn absurd_held(alloc: Global, work: &Work) -> Result<Parts<Place>, StepFault>
    requires handed { IsHanded work.now }
    requires some { 0 < length work.now.held }
    ensures { Answers (all_nodes (work_formulas work.now)) work.now (limited (table.absurd_held work.now)) result }
{
    let held = last(work);
    if !is_falsehood(&held.formula) {
        return Err(refuse_plain(Row::NotFalsehood));
    }
    let proof = close(alloc, work, held)?;
    finish_closed(alloc, proof)
}
