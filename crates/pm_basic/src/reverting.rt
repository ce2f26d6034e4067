//! Hypotheses and facts that go to the conclusion.

ghost use Rattle.std.specs.Prelude.{◌≡◌, ◌+◌, ◌<◌, ◌^◌, [], ◌∷◌, Some, IfOk, length};
ghost use Rattle.pm_logic.specs.declared.formula.Formula.TheViews as view;
ghost use Rattle.pm_goal.specs.Left.{left_of_work};
ghost use Rattle.pm_proof.specs.Trees.{entail};
ghost use Rattle.pm_proof.specs.Known.{Proves, Every};
ghost use Rattle.pm_schemes.specs.Sketches.{deepest};
ghost use Rattle.pm_star.specs.Stars.{star, work_parts, part_at, without};
ghost use Rattle.pm_table.specs.Basic as table;
ghost use Rattle.pm_table.specs.Limits.{all_nodes, work_formulas, limited};
ghost use Rattle.pm_table.specs.Stepping.{NamesDiffer};
ghost use Rattle.pm_table.specs.Works as works;
ghost use Rattle.pm_action.specs.Acting.{Answers, IsHanded};
ghost use Rattle.pm_action.specs.Meanings.{meaning};
ghost use Rattle.pm_basic.specs.Fronts.{IsFront};
ghost use Rattle.pm_basic.specs.Named.{place_named};

use crate::clearing::without_named;
use crate::finding::place_named;
use crate::rules::applied;
use crate::steps::at_rest;
use pm_action::{finish_one, refuse};
use pm_goal::{Goal, Row, StepFault, Work, left_of_work};
use pm_logic::{Formula, Memory, Name, copy, wand};
use pm_proof::{Parts, Proof};
use pm_star::{bring_front_held, compose};
use pm_table::Place;
use std::alloc::Global;

/// A part of a star, with the proof that brings it to the front.
#[derive(Drop)]
pub(crate) struct Front {
    pub(crate) part: Formula,
    pub(crate) moved: Proof,
}

/// The part at the place.
fn to_front(alloc: Global, work: &Work, place: u32) -> Result<Front, Memory>
    requires vars { length work.now.goal.vars < 2 ^ 32 }
    requires place { place < length (work_parts work.now) }
    ensures { IfOk result (IsFront work.now (part_at (work_parts work.now) place) (star (without (work_parts work.now) place))) }
{
    let moved = bring_front_held(alloc, work, place)?;
    let e = moved.conclusion();
    match &e.right {
        Formula::Sep(part, _) => {
            let part = copy(alloc, part.get())?;
            Ok(Front { part, moved })
        }
        _ => unreachable!(),
    }
}

/// The goal without what has the name, and with this before its conclusion.
fn reverted(alloc: Global, goal: &Goal, name: &Name, part: &Formula) -> Result<Goal, Memory>
    requires { NamesDiffer goal.now }
    ensures { IfOk result (λ g. g ≡ table.for (view.Wand part.now goal.now.concl) (works.without_named name.now goal.now)) }
{
    let mut new = without_named(alloc, goal, name)?;
    let part = copy(alloc, part)?;
    let concl = copy(alloc, &goal.concl)?;
    new.concl = wand(alloc, part, concl)?;
    Ok(new)
}

/// From what the new work means: the part beside its star entails the old conclusion.
fn back(alloc: Global, new: &Work, part: &Formula, concl: &Formula) -> Result<Proof, Memory>
    requires vars { length new.now.goal.vars < 2 ^ 32 }
    requires concl { new.now.goal.concl ≡ view.Wand part.now concl.now }
    ensures { IfOk result (λ p. Proves Every (entail (length new.now.goal.vars) (view.Sep part.now (left_of_work new.now)) concl.now) (meaning new.now ∷ []) 3 (deepest (part.now ∷ left_of_work new.now ∷ concl.now ∷ []) [] + 1) (length new.now.goal.vars) p) }
{
    let vars = new.goal.vars.len();
    let left = left_of_work(alloc, new)?;
    let proof = applied(alloc, vars as u32, part, &left, concl)?;
    Ok(proof)
}

/// `iRevert` of a hypothesis or fact: it goes before the conclusion, an intuitionistic one in its box.
///
/// It is refused where the goal has none of this name, and where the work passes a limit.
#[tactic(auto, using(crate::proofs::Ending::no_memory))]
pub fn revert(alloc: Global, work: &Work, name: &Name) -> Result<Parts<Place>, StepFault>
    requires handed { IsHanded work.now }
    requires nothing { work.now.held ≡ [] }
    ensures { Answers (all_nodes (work_formulas work.now)) work.now (limited (table.on_goal (table.revert name.now) work.now)) result }
{
    let Some(place) = place_named(&work.goal, name) else {
        return Err(refuse(alloc, Row::NoSuchHypothesis, name));
    };
    let front = to_front(alloc, work, place)?;
    let Front { part, moved } = front;
    let goal = reverted(alloc, &work.goal, name, &part)?;
    let new = at_rest(alloc, goal);
    let back = back(alloc, &new, &part, &work.goal.concl)?;
    let proof = compose(alloc, moved, back)?;
    finish_one(alloc, new, proof)
}
