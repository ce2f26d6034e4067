//! Ends of framing: the conclusion is what is left of it, and where that is truth the goal is closed.

ghost use Rattle.std.specs.Prelude.{◌≡◌, ◌<◌, ◌^◌, length};
ghost use Rattle.pm_goal.specs.Left.{of_kind, left_of_work};
ghost use Rattle.pm_table.specs.Basic as basic;
ghost use Rattle.pm_table.specs.Framing.{truth};
ghost use Rattle.pm_table.specs.Limits.{all_nodes, work_formulas, limited};
ghost use Rattle.pm_table.specs.Outcomes as outcomes;
ghost use Rattle.pm_table.specs.Works.{with_concl, work_of};
ghost use Rattle.pm_table.specs.Terms as table;
ghost use Rattle.pm_action.specs.Acting.{Answers};
ghost use Rattle.pm_frame.specs.Frames.{FrameProof};
ghost use Rattle.pm_framing.specs.Parting.{IsApart, IsLess, Opens};

use crate::opening::opened;
use crate::rules::always;
use pm_action::{finish_closed, finish_one};
use pm_frame::Framed;
use pm_goal::{Kind, StepFault, Work, left_of_work};
use pm_logic::{Formula, Pure};
use pm_proof::{Parts, Proof};
use pm_table::Place;
use std::alloc::Global;

fn is_truth(f: &Formula) -> bool
    ensures { result ≡ basic.is_truth f.now }
{
    matches!(f, Formula::Pure(Pure::True))
}

/// Truth is left, which everything entails.
fn close(
    alloc: Global,
    work: &Work,
    left: &Formula,
    opened: Proof,
) -> Result<Parts<Place>, StepFault>
    requires few { length work.now.goal.vars < 2 ^ 32 }
    requires left { IsLess work.now left.now }
    requires opened { Opens work.now left.now truth opened }
    ensures { Answers (all_nodes (work_formulas work.now)) work.now (limited outcomes.closed) result }
{
    let vars = work.goal.vars.len() as u32;
    let by = always(alloc, vars, left)?;
    let proof = opened.fill(0, by);
    finish_closed(alloc, proof)
}

/// The work without what was framed, for what is left of the conclusion.
fn go_on(
    alloc: Global,
    work: &Work,
    rest: Work,
    concl: Formula,
    opened: Proof,
) -> Result<Parts<Place>, StepFault>
    requires vars { length rest.goal.vars ≡ length work.now.goal.vars }
    requires opened { Opens work.now (left_of_work rest) concl opened }
    ensures { Answers (all_nodes (work_formulas work.now)) work.now (limited (outcomes.one (work_of (with_concl concl rest.goal) rest.held))) result }
{
    let mut new = rest;
    new.goal.concl = concl;
    finish_one(alloc, new, opened)
}

/// The conclusion is what framing leaves, over the work without what was framed; where that is truth, the goal is closed.
pub fn conclude(
    alloc: Global,
    work: &Work,
    kind: Kind,
    formula: &Formula,
    rest: Work,
    moved: Proof,
    framed: Framed,
) -> Result<Parts<Place>, StepFault>
    requires few { length work.now.goal.vars < 2 ^ 32 }
    requires vars { length rest.goal.vars ≡ length work.now.goal.vars }
    requires apart { IsApart work.now (of_kind kind formula.now) (left_of_work rest) moved }
    requires framed { FrameProof (length work.now.goal.vars) formula.now work.now.goal.concl framed.rest framed.proof }
    ensures { Answers (all_nodes (work_formulas work.now)) work.now (limited (table.concluding framed.rest rest)) result }
{
    let Framed { rest: concl, proof } = framed;
    let left = left_of_work(alloc, &rest)?;
    let open = opened(alloc, work, kind, formula, &left, &concl, moved, proof)?;
    if is_truth(&concl) {
        close(alloc, work, &left, open)
    } else {
        go_on(alloc, work, rest, concl, open)
    }
}
