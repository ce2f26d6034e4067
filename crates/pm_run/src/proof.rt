//! The proof that is open.

ghost use Rattle.std.specs.Prelude.{◌≡◌, IfOk, OnOk, reverse, ◌++◌};
ghost use Rattle.pm_directives.specs.Built.{IsBuilt};
ghost use Rattle.pm_run.specs.Keeping.{AreSound, FitsFirst, StepsFirst, IsStepped};

use pm_directives::step;
use pm_goal::{Goal, Lemmas, Refusal, Row, StepFault};
use pm_logic::{Formula, List, Memory, Name, Preds};
use pm_proof::Parts;
use pm_script::Directive;
use std::alloc::Global;

/// The lemma whose proof is open, the steps that were done, and the goals that are left.
#[derive(Drop)]
pub struct Proof {
    pub name: Name,
    pub statement: Formula,
    /// The steps, in order.
    pub steps: Vec<pm_proof::Step>,
    /// What is left, the first goal last.
    pub goals: List<Goal>,
}

/// Adds goals, of which the first one is to be last.
pub fn add_goals(goals: &mut List<Goal>, more: List<Goal>) -> Result<(), Memory>
    ensures { OnOk result (reverse goals.new ≡ more ++ reverse goals.old) }
{
    let mut more = more;
    while let Some(goal) = more.pop() {
        goals.push(goal)?;
    }
    Ok(())
}

impl Proof {
    /// What the directive makes of the first goal that is left, with a proof of it from what it makes; or the refusal, which
    /// is that no goal is left where none is, or want of memory.
    pub fn first_step(
        &self,
        alloc: Global,
        preds: &Preds,
        lemmas: &Lemmas,
        directive: &Directive,
    ) -> Result<Parts<Goal>, StepFault>
        requires built { IsBuilt directive.now }
        requires sound { AreSound (reverse self.now.goals) }
        requires handed { FitsFirst directive.now (reverse self.now.goals) }
        ensures { StepsFirst preds.now lemmas.now (reverse self.now.goals) directive.now result }
    {
        match self.goals.as_slice().last() {
            Some(goal) => step(alloc, preds, lemmas, goal, directive),
            None => Err(StepFault::Refused(Refusal {
                row: Row::NoGoalInFocus,
                name: None,
            })),
        }
    }

    /// The proof with these goals in the place of the first one, which a step more proves from them. The error is want of
    /// memory.
    pub fn stepped(self, parts: Parts<Goal>) -> Result<Proof, Memory>
        ensures { IfOk result (IsStepped self parts) }
    {
        let Proof {
            name,
            statement,
            steps,
            goals,
        } = self;
        let Parts { goals: more, proof } = parts;
        let mut steps = steps;
        let mut goals = goals;
        goals.pop();
        let count = more.len() as u64;
        steps.push(pm_proof::Step {
            proof,
            goals: count,
        })?;
        add_goals(&mut goals, more)?;
        Ok(Proof {
            name,
            statement,
            steps,
            goals,
        })
    }
}
