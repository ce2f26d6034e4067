//! Cases by a pure formula and its negation.

ghost use Rattle.std.specs.Prelude.{◌≡◌, ◌+◌, [], true, IfOk};
ghost use Rattle.pm_logic.specs.Size.{pure_nodes};
ghost use Rattle.pm_logic.specs.declared.formula.Pure.TheViews as pure_view;
ghost use Rattle.pm_table.specs.Basic.{on_goal, gives_goals};
ghost use Rattle.pm_table.specs.Limits.{all_nodes, work_formulas, limited, resting};
ghost use Rattle.pm_table.specs.Rewriting as table;
ghost use Rattle.pm_table.specs.Works.{fits, with_fact};
ghost use Rattle.pm_action.specs.Acting.{Answers, IsHanded};
ghost use Rattle.pm_pure.specs.Cases.{IsCase, CaseShown, CasesShown};

use crate::rules::by_cases;
use pm_action::{finish_two, is_free, refuse, wanted};
use pm_goal::{Fact, Goal, Row, StepFault, Work, copy_goal, left_of_work};
use pm_logic::{Formula, List, Memory, Name, Pure, copy_name, copy_pure, pure_not};
use pm_proof::{Parts, Proof};
use pm_star::{compose, sink_held};
use pm_table::Place;
use std::alloc::Global;

/// The goal with a fact more.
#[tactic(auto, using(pm_hand::proofs::Free::free_fact))]
fn push(goal: Goal, fact: Fact) -> Result<Goal, Memory>
    requires { fits goal fact.name ≡ true }
    ensures { IfOk result (λ g. g ≡ with_fact fact.name fact.pure goal) }
{
    let mut goal = goal;
    goal.pures.push(fact)?;
    Ok(goal)
}

/// The goal with the fact of this name.
fn knowing(alloc: Global, goal: &Goal, name: &Name, pure: &Pure) -> Result<Work, Memory>
    requires { fits goal.now name.now ≡ true }
    ensures { IfOk result (λ w. w ≡ resting (with_fact name.now pure.now goal.now)) }
{
    let own = copy_goal(alloc, goal)?;
    let name = copy_name(alloc, name)?;
    let pure = copy_pure(alloc, pure)?;
    let goal = push(own, Fact { name, pure })?;
    Ok(Work {
        goal,
        held: List::new(alloc),
    })
}

/// From the fact beside the star to the conclusion, from what the goal with the fact means.
fn case_shown(alloc: Global, work: &Work, pure: &Pure, new: &Work) -> Result<Proof, Memory>
    requires handed { IsHanded work.now }
    requires nothing { work.now.held ≡ [] }
    requires new { IsCase work.now pure.now new.now }
    ensures { IfOk result (λ p. CaseShown work.now pure.now new.now p) }
{
    let fact = Formula::Pure(copy_pure(alloc, pure)?);
    let place = work.goal.pures.len() as u32;
    let first = sink_held(alloc, work, &fact, place)?;
    let wanted = wanted(alloc, new)?;
    let proof = compose(alloc, first, wanted)?;
    Ok(proof)
}

/// From the star to the conclusion, from what both goals mean.
fn both_cases(
    alloc: Global,
    work: &Work,
    pure: &Pure,
    denial: &Pure,
    first: &Work,
    second: &Work,
) -> Result<Proof, Memory>
    requires handed { IsHanded work.now }
    requires nothing { work.now.held ≡ [] }
    requires denial { denial.now ≡ pure_view.Not pure.now }
    requires first { IsCase work.now pure.now first.now }
    requires second { IsCase work.now denial.now second.now }
    ensures { IfOk result (λ p. CasesShown work.now first.now second.now p) }
{
    let holds = case_shown(alloc, work, pure, first)?;
    let fails = case_shown(alloc, work, denial, second)?;
    let left = left_of_work(alloc, work)?;
    let vars = work.goal.vars.len();
    let step = by_cases(alloc, vars as u32, &left, &work.goal.concl, pure)?;
    let half = step.fill(1, fails);
    let proof = half.fill(0, holds);
    Ok(proof)
}

/// Both goals.
fn decide(alloc: Global, work: &Work, pure: &Pure, name: &Name) -> Result<Parts<Place>, StepFault>
    requires handed { IsHanded work.now }
    requires nothing { work.now.held ≡ [] }
    requires free { fits work.now.goal name.now ≡ true }
    ensures { Answers (all_nodes (work_formulas work.now) + pure_nodes pure.now) work.now (limited (gives_goals (with_fact name.now pure.now work.now.goal) (with_fact name.now (pure_view.Not pure.now) work.now.goal))) result }
{
    let denial = pure_not(alloc, copy_pure(alloc, pure)?)?;
    let first = knowing(alloc, &work.goal, name, pure)?;
    let second = knowing(alloc, &work.goal, name, &denial)?;
    let proof = both_cases(alloc, work, pure, &denial, &first, &second)?;
    finish_two(alloc, first, second, proof)
}

/// `iCases`: two goals, with the fact that the pure formula holds, and with the fact that it doesn't.
///
/// It is refused where the name is in use, or is `_` and digits, and where a work passes a limit.
pub fn cases(alloc: Global, work: &Work, p: &Pure, name: &Name) -> Result<Parts<Place>, StepFault>
    requires handed { IsHanded work.now }
    requires nothing { work.now.held ≡ [] }
    ensures { Answers (all_nodes (work_formulas work.now) + pure_nodes p.now) work.now (limited (on_goal (table.cases p.now name.now) work.now)) result }
{
    if !is_free(&work.goal, name) {
        return Err(refuse(alloc, Row::NameInUse, name));
    }
    decide(alloc, work, p, name)
}
