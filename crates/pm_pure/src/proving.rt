//! Conclusions that are pure.

ghost use Rattle.std.specs.Prelude.{◌≡◌, ◌+◌, ◌<◌, ◌^◌, [], ◌∷◌, IfOk, length};
ghost use Rattle.pm_logic.specs.declared.formula.Formula.TheVariants.{Pure as Assert};
ghost use Rattle.pm_logic.specs.declared.formula.Formula.TheViews as view;
ghost use Rattle.pm_logic.specs.declared.formula.Pure.TheVariants as pure;
ghost use Rattle.pm_goal.specs.Left.{facts, left_of};
ghost use Rattle.pm_proof.specs.Trees.{entail, conclusion};
ghost use Rattle.pm_proof.specs.Known.{Proves, Every};
ghost use Rattle.pm_schemes.specs.Sketches.{deepest};
ghost use Rattle.pm_star.specs.Levels.{Around, IsBehind, left_side, right_side};
ghost use Rattle.pm_table.specs.Basic.{on_goal, gives_goal};
ghost use Rattle.pm_table.specs.Limits.{all_nodes, work_formulas, limited, resting};
ghost use Rattle.pm_table.specs.Rewriting as table;
ghost use Rattle.pm_action.specs.Acting.{Answers, IsHanded};
ghost use Rattle.pm_pure.specs.Goals.{factless, facts_alone, IsFollowed, FactsReached};

use crate::rules::{behind, nothing};
use pm_action::{finish_one, refuse_plain, wanted};
use pm_classes::{OnePure, from_pure};
use pm_goal::{Ctx, Facts, Goal, Row, StepFault, Work, copy_goal, left_of};
use pm_logic::{Formula, List, Memory, Pure, copy_pure};
use pm_proof::{Parts, Proof};
use pm_star::compose;
use pm_table::Place;
use std::alloc::Global;

/// The goal without its facts.
fn factless(alloc: Global, goal: &Goal) -> Result<Goal, Memory>
    ensures { IfOk result (λ g. g ≡ factless goal.now) }
{
    let mut new = copy_goal(alloc, goal)?;
    new.pures = Facts::new(alloc);
    Ok(new)
}

/// The facts, with nothing else in the contexts, and a pure conclusion.
fn facts_alone(alloc: Global, goal: &Goal, concl: Pure) -> Result<Work, Memory>
    ensures { IfOk result (λ w. w ≡ resting (facts_alone goal.now concl)) }
{
    let mut goal = copy_goal(alloc, goal)?;
    goal.ints = Ctx::new(alloc);
    goal.spats = Ctx::new(alloc);
    goal.concl = Formula::Pure(concl);
    Ok(Work {
        goal,
        held: List::new(alloc),
    })
}

/// The facts as formulas.
fn facts_of(alloc: Global, list: &Facts) -> Result<List<Formula>, Memory>
    ensures { IfOk result (λ l. l ≡ facts list.now) }
{
    let len = list.len();
    let mut out = List::new(alloc);
    let mut next = 0;
    while next < len {
        let i = next;
        next += 1;
        if let Some(pure) = list.pure(i) {
            out.push(Formula::Pure(copy_pure(alloc, pure)?))?;
        }
    }
    Ok(out)
}

/// The same entailment behind the part on both sides.
fn behind_one(alloc: Global, vars: u32, part: &Formula, inner: Proof) -> Result<Proof, Memory>
    requires { (conclusion inner).vars ≡ vars }
    ensures { IfOk result (λ p. Around vars 2 inner (view.Sep part.now (left_side inner)) (view.Sep part.now (right_side inner)) p) }
{
    let e = inner.conclusion();
    let step = behind(alloc, vars, part, &e.left, &e.right)?;
    Ok(step.fill(0, inner))
}

/// The same entailment behind all the parts on both sides.
fn behind_all(alloc: Global, vars: u32, parts: &[Formula], inner: Proof) -> Result<Proof, Memory>
    requires { (conclusion inner).vars ≡ vars }
    ensures { IfOk result (λ p. IsBehind vars parts.now 0 inner p) }
{
    let mut made = inner;
    let mut i = parts.len();
    while i > 0 {
        i -= 1;
        made = behind_one(alloc, vars, &parts[i], made)?;
    }
    Ok(made)
}

/// From the star of all but the facts to truth.
fn others_dropped(alloc: Global, vars: u32, goal: &Goal) -> Result<Proof, Memory>
    ensures { IfOk result (λ p. Proves Every (entail vars (left_of (factless goal.now)) (Assert pure.True)) [] 1 (deepest (left_of (factless goal.now) ∷ []) [] + 2) vars p) }
{
    let others = factless(alloc, goal)?;
    let left = left_of(alloc, &others)?;
    let proof = nothing(alloc, vars, &left)?;
    Ok(proof)
}

/// From the star to the star of the facts.
fn to_facts(alloc: Global, work: &Work) -> Result<Proof, Memory>
    requires few { length work.now.goal.vars < 2 ^ 32 }
    requires nothing { work.now.held ≡ [] }
    ensures { IfOk result (λ p. FactsReached work.now p) }
{
    let vars = work.goal.vars.len() as u32;
    let inner = others_dropped(alloc, vars, &work.goal)?;
    let parts = facts_of(alloc, &work.goal.pures)?;
    let proof = behind_all(alloc, vars, parts.as_slice(), inner)?;
    Ok(proof)
}

/// The goal with the facts alone, from which the conclusion follows by the entry.
fn enter(alloc: Global, work: &Work, entry: OnePure) -> Result<Parts<Place>, StepFault>
    requires handed { IsHanded work.now }
    requires nothing { work.now.held ≡ [] }
    requires entry { IsFollowed work.now entry }
    ensures { Answers (all_nodes (work_formulas work.now)) work.now (limited (gives_goal (facts_alone work.now.goal entry.pure))) result }
{
    let OnePure { pure, proof } = entry;
    let first = to_facts(alloc, work)?;
    let new = facts_alone(alloc, &work.goal, pure)?;
    let wanted = wanted(alloc, &new)?;
    let shown = compose(alloc, wanted, proof)?;
    let proof = compose(alloc, first, shown)?;
    finish_one(alloc, new, proof)
}

/// `iPureIntro`: the conclusion becomes the pure fact that entails it, and all hypotheses but the facts are dropped.
///
/// It is refused where the conclusion isn't pure, and where the work passes a limit.
pub fn pure_intro(alloc: Global, work: &Work) -> Result<Parts<Place>, StepFault>
    requires handed { IsHanded work.now }
    requires nothing { work.now.held ≡ [] }
    ensures { Answers (all_nodes (work_formulas work.now)) work.now (limited (on_goal table.pure_intro work.now)) result }
{
    let vars = work.goal.vars.len();
    let found = from_pure(alloc, vars as u32, &work.goal.concl)?;
    match found {
        Some(entry) => enter(alloc, work, entry),
        None => Err(refuse_plain(Row::ConclusionNotPure)),
    }
}
