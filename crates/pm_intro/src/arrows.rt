//! A left side of the conclusion comes into hand.

ghost use Rattle.std.specs.Prelude.{◌≡◌, ◌<◌, [], ◌∷◌, IfOk};
ghost use Rattle.pm_logic.specs.declared.formula.Formula.TheViews as view;
ghost use Rattle.pm_logic.specs.Classes.{IsPersistent};
ghost use Rattle.pm_proof.specs.Trees.{entail};
ghost use Rattle.pm_classes.specs.Entries.{HasProof, IsHanded as IsFormulaHanded};
ghost use Rattle.pm_table.specs.Limits.{all_nodes, work_formulas, limited};
ghost use Rattle.pm_table.specs.Outcomes.{one};
ghost use Rattle.pm_table.specs.Introductions as table;
ghost use Rattle.pm_table.specs.declared.place.Place.TheVariants.{Current as current};
ghost use Rattle.pm_action.specs.Acting.{Answers, IsActed, IsHanded};
ghost use Rattle.pm_intro.specs.Arrows.{introduced, Splits};

use crate::ending::reach;
use crate::steps::{box_boxed, left_boxed, right_boxed, to_imp, to_wand};
use pm_action::{finish_one, refuse_plain};
use pm_classes::into_persistent;
use pm_goal::{Held, Kind, Row, StepFault, Work, copy_goal, left_of_work};
use pm_logic::{Formula, List, Memory, copy, persistent};
use pm_proof::{Parts, Proof};
use pm_star::{boxed, compose};
use pm_table::Place;
use std::alloc::Global;

/// The work with the left side in hand, and the right side as its conclusion.
fn introduced(alloc: Global, work: &Work, a: &Formula, b: &Formula) -> Result<Work, Memory>
    requires { work.now.held ≡ [] }
    ensures { IfOk result (λ w. w ≡ introduced work.now a.now b.now) }
{
    let mut goal = copy_goal(alloc, &work.goal)?;
    goal.concl = copy(alloc, b)?;
    let mut held = List::new(alloc);
    let formula = copy(alloc, a)?;
    held.push(Held {
        kind: Kind::Spat,
        formula,
    })?;
    Ok(Work { goal, held })
}

/// From what the new work means, which is the hole, to what the old one means whose conclusion is a wand.
fn wand_proof(
    alloc: Global,
    work: &Work,
    a: &Formula,
    b: &Formula,
    new: &Work,
) -> Result<Proof, Memory>
    requires handed { IsHanded work.now }
    requires concl { work.now.goal.concl ≡ view.Wand a.now b.now }
    requires nothing { work.now.held ≡ [] }
    requires new { new.now ≡ introduced work.now a.now b.now }
    ensures { IfOk result (IsActed (all_nodes (work_formulas work.now)) work.now (current [] new.now ∷ [])) }
{
    let vars = work.goal.vars.len() as u32;
    let star = left_of_work(alloc, work)?;
    let reached = reach(alloc, work, a, new)?;
    let proof = to_wand(alloc, vars, a, b, &star, reached)?;
    Ok(proof)
}

#[tactic(auto, using(crate::proofs::Answered::wants_memory))]
fn by_wand(alloc: Global, work: &Work, a: &Formula, b: &Formula) -> Result<Parts<Place>, StepFault>
    requires handed { IsHanded work.now }
    requires concl { work.now.goal.concl ≡ view.Wand a.now b.now }
    requires nothing { work.now.held ≡ [] }
    ensures { Answers (all_nodes (work_formulas work.now)) work.now (limited (table.intro_hyp work.now)) result }
{
    let new = introduced(alloc, work, a, b)?;
    let proof = wand_proof(alloc, work, a, b, &new)?;
    finish_one(alloc, new, proof)
}

/// `a ⊢ □ a`, where it is persistent.
fn own_box(alloc: Global, vars: u32, a: &Formula) -> Result<Proof, Memory>
    requires handed { IsFormulaHanded vars a.now }
    requires persistent { IsPersistent a.now }
    ensures { IfOk result (HasProof vars a.now (entail vars a.now (view.Pers a.now))) }
{
    if let Formula::Pers(g) = a {
        let proof = box_boxed(alloc, vars, g.get())?;
        return Ok(proof);
    }
    match into_persistent(alloc, vars, a)? {
        Some(entry) => Ok(entry.proof),
        None => unreachable!(),
    }
}

/// From both by and, to `a` beside the star: `a` is persistent.
fn split_by_left(alloc: Global, work: &Work, a: &Formula, b: &Formula) -> Result<Proof, Memory>
    requires handed { IsHanded work.now }
    requires concl { work.now.goal.concl ≡ view.Imp a.now b.now }
    requires persistent { IsPersistent a.now }
    ensures { IfOk result (Splits work.now a.now) }
{
    let vars = work.goal.vars.len() as u32;
    let star = left_of_work(alloc, work)?;
    let own = own_box(alloc, vars, a)?;
    let proof = right_boxed(alloc, vars, a, &star, own)?;
    Ok(proof)
}

/// From both by and, to `a` beside the star: no spatial hypothesis is there.
fn split_by_star(alloc: Global, work: &Work, a: &Formula, b: &Formula) -> Result<Proof, Memory>
    requires handed { IsHanded work.now }
    requires concl { work.now.goal.concl ≡ view.Imp a.now b.now }
    requires nothing { work.now.held ≡ [] }
    requires alone { work.now.goal.spats ≡ [] }
    ensures { IfOk result (Splits work.now a.now) }
{
    let vars = work.goal.vars.len() as u32;
    let star = left_of_work(alloc, work)?;
    let own = boxed(alloc, &work.goal)?;
    let proof = left_boxed(alloc, vars, a, &star, own)?;
    Ok(proof)
}

/// From what the new work means, which is the hole, to what the old one means whose conclusion is an implication.
fn imp_proof(
    alloc: Global,
    work: &Work,
    a: &Formula,
    b: &Formula,
    new: &Work,
    split: Proof,
) -> Result<Proof, Memory>
    requires handed { IsHanded work.now }
    requires concl { work.now.goal.concl ≡ view.Imp a.now b.now }
    requires nothing { work.now.held ≡ [] }
    requires new { new.now ≡ introduced work.now a.now b.now }
    requires split { Splits work.now a.now split }
    ensures { IfOk result (IsActed (all_nodes (work_formulas work.now)) work.now (current [] new.now ∷ [])) }
{
    let vars = work.goal.vars.len() as u32;
    let star = left_of_work(alloc, work)?;
    let reached = reach(alloc, work, a, new)?;
    let both = compose(alloc, split, reached)?;
    let proof = to_imp(alloc, vars, a, b, &star, both)?;
    Ok(proof)
}

/// The end for an implication whose left side may stand beside the star.
#[tactic(auto, using(crate::proofs::Answered::wants_memory))]
fn beside_star(
    alloc: Global,
    work: &Work,
    a: &Formula,
    b: &Formula,
    split: Proof,
) -> Result<Parts<Place>, StepFault>
    requires handed { IsHanded work.now }
    requires concl { work.now.goal.concl ≡ view.Imp a.now b.now }
    requires nothing { work.now.held ≡ [] }
    requires split { Splits work.now a.now split }
    ensures { Answers (all_nodes (work_formulas work.now)) work.now (limited (one (introduced work.now a.now b.now))) result }
{
    let new = introduced(alloc, work, a, b)?;
    let proof = imp_proof(alloc, work, a, b, &new, split)?;
    finish_one(alloc, new, proof)
}

#[tactic(auto, using(crate::proofs::Answered::wants_memory))]
fn by_imp(alloc: Global, work: &Work, a: &Formula, b: &Formula) -> Result<Parts<Place>, StepFault>
    requires handed { IsHanded work.now }
    requires concl { work.now.goal.concl ≡ view.Imp a.now b.now }
    requires nothing { work.now.held ≡ [] }
    ensures { Answers (all_nodes (work_formulas work.now)) work.now (limited (table.intro_hyp work.now)) result }
{
    if persistent(a) {
        let split = split_by_left(alloc, work, a, b)?;
        return beside_star(alloc, work, a, b, split);
    }
    if work.goal.spats.len() > 0 {
        return Err(refuse_plain(Row::ImplicationOverSpatial));
    }
    let split = split_by_star(alloc, work, a, b)?;
    beside_star(alloc, work, a, b, split)
}

/// The conclusion is `A -∗ B` or `A → B`: it becomes `B`, and `A` is held, spatial.
///
/// It is refused where the conclusion is neither, where it is an implication whose left side isn't persistent while there are
/// spatial hypotheses, and where the work passes a limit.
pub fn intro_hyp(alloc: Global, work: &Work) -> Result<Parts<Place>, StepFault>
    requires handed { IsHanded work.now }
    requires nothing { work.now.held ≡ [] }
    ensures { Answers (all_nodes (work_formulas work.now)) work.now (limited (table.intro_hyp work.now)) result }
{
    match &work.goal.concl {
        Formula::Wand(a, b) => by_wand(alloc, work, a.get(), b.get()),
        Formula::Imp(a, b) => by_imp(alloc, work, a.get(), b.get()),
        _ => Err(refuse_plain(Row::NoHypothesisToIntroduce)),
    }
}
