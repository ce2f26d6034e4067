//! A variable of the conclusion comes into the goal.

ghost use Rattle.std.specs.Prelude.{◌≡◌, [], ◌∷◌, IfOk};
ghost use Rattle.pm_logic.specs.declared.formula.Formula.TheViews as view;
ghost use Rattle.pm_table.specs.Limits.{all_nodes, work_formulas, limited};
ghost use Rattle.pm_table.specs.Introductions as table;
ghost use Rattle.pm_table.specs.declared.place.Place.TheVariants.{Current as current};
ghost use Rattle.pm_action.specs.Acting.{Answers, IsActed, IsHanded};
ghost use Rattle.pm_intro.specs.Variables.{lifted};

use crate::variables::lift;
use pm_action::{finish_one, fresh_name, is_free, refuse, refuse_plain};
use pm_goal::{Row, StepFault, Work, left_of_work};
use pm_logic::{Formula, Memory, Name, copy};
use pm_proof::{Parts, Proof};
use pm_schemes::generalize;
use pm_table::Place;
use std::alloc::Global;

/// From what the new work means, which is the hole, to what the old one means.
fn all_proof(alloc: Global, work: &Work, name: &Name, b: &Formula) -> Result<Proof, Memory>
    requires handed { IsHanded work.now }
    requires concl { work.now.goal.concl ≡ view.All b.now }
    ensures { IfOk result (IsActed (all_nodes (work_formulas work.now)) work.now (current [] (lifted name.now b.now work.now) ∷ [])) }
{
    let vars = work.goal.vars.len() as u32;
    let star = left_of_work(alloc, work)?;
    let proof = generalize(alloc, vars, &star, b)?;
    Ok(proof)
}

#[tactic(auto, using(crate::proofs::Answered::wants_memory))]
fn by_all(alloc: Global, work: &Work, name: &Name, b: &Formula) -> Result<Parts<Place>, StepFault>
    requires handed { IsHanded work.now }
    requires concl { work.now.goal.concl ≡ view.All b.now }
    requires nothing { work.now.held ≡ [] }
    ensures { Answers (all_nodes (work_formulas work.now)) work.now (limited (table.intro_all name.now work.now)) result }
{
    if !is_free(&work.goal, name) {
        return Err(refuse(alloc, Row::NameInUse, name));
    }
    let proof = all_proof(alloc, work, name, b)?;
    let body = copy(alloc, b)?;
    let new = lift(alloc, work, name, body)?;
    finish_one(alloc, new, proof)
}

/// The conclusion is `∀ B`: the goal gains the variable, which is the newest, and the conclusion becomes `B`.
///
/// It is refused where the conclusion is no universal, where the name is in use, or is `_` and digits, and where the work passes
/// a limit.
pub fn intro_all(alloc: Global, work: &Work, name: &Name) -> Result<Parts<Place>, StepFault>
    requires handed { IsHanded work.now }
    requires nothing { work.now.held ≡ [] }
    ensures { Answers (all_nodes (work_formulas work.now)) work.now (limited (table.intro_all name.now work.now)) result }
{
    match &work.goal.concl {
        Formula::All(b) => by_all(alloc, work, name, b.get()),
        _ => Err(refuse_plain(Row::NoVariableToIntroduce)),
    }
}

/// The conclusion is `∀ B`: the goal gains a variable with a name that it doesn't have, as by `intro_all`.
#[tactic(auto, using(crate::proofs::Answered::wants_memory))]
pub fn intro_all_fresh(alloc: Global, work: &Work) -> Result<Parts<Place>, StepFault>
    requires handed { IsHanded work.now }
    requires nothing { work.now.held ≡ [] }
    ensures { Answers (all_nodes (work_formulas work.now)) work.now (limited (table.intro_all_fresh work.now)) result }
{
    let name = fresh_name(alloc, &work.goal)?;
    intro_all(alloc, work, &name)
}
