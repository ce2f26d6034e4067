//! Hypotheses and facts are framed by their names.

ghost use Rattle.std.specs.Prelude.{◌≡◌, Some, IfOk, length};
ghost use Rattle.pm_table.specs.Limits.{all_nodes, work_formulas, limited};
ghost use Rattle.pm_table.specs.Terms as table;
ghost use Rattle.pm_action.specs.Acting.{Answers, IsHanded, StaysAs};
ghost use Rattle.pm_frame.specs.Frames.{FrameAnswer};
ghost use Rattle.pm_framing.specs.Sources.{IsSource, spent};

use crate::concluding::conclude;
use crate::sources::{Source, apart, find, rest_of};
use pm_action::{refuse, unmoved};
use pm_frame::{Framed, frame};
use pm_goal::{Row, StepFault, Work, copy_work};
use pm_logic::{Memory, Name};
use pm_proof::Parts;
use pm_table::Place;
use std::alloc::Global;

/// What is left of the conclusion without the source.
fn left_by(
    alloc: Global,
    work: &Work,
    name: &Name,
    source: &Source,
) -> Result<Option<Framed>, Memory>
    requires handed { IsHanded work.now }
    requires source { IsSource work.now.goal name.now source.now }
    ensures { IfOk result (λ f. FrameAnswer (length work.now.goal.vars) source.now.formula work.now.goal.concl f) }
{
    let vars = work.goal.vars.len() as u32;
    let found = frame(alloc, vars, &source.formula, &work.goal.concl)?;
    Ok(found)
}

/// What framing leaves is concluded, and a spatial source is used up.
fn frame_source(
    alloc: Global,
    work: &Work,
    name: &Name,
    source: &Source,
    framed: Framed,
) -> Result<Parts<Place>, StepFault>
    requires handed { IsHanded work.now }
    requires source { IsSource work.now.goal name.now source.now }
    requires framed { FrameAnswer (length work.now.goal.vars) source.now.formula work.now.goal.concl (Some framed) }
    ensures { Answers (all_nodes (work_formulas work.now)) work.now (limited (table.concluding framed.rest (spent work.now name.now))) result }
{
    let moved = apart(alloc, work, name, source)?;
    let rest = rest_of(alloc, work, name, source)?;
    conclude(
        alloc,
        work,
        source.kind,
        &source.formula,
        rest,
        moved,
        framed,
    )
}

/// The same work, in place of the old one.
fn as_it_is(alloc: Global, work: &Work) -> Result<Parts<Place>, StepFault>
    requires { IsHanded work.now }
    ensures { StaysAs work.now work.now result }
{
    let new = copy_work(alloc, work)?;
    unmoved(alloc, work, new)
}

/// `iFrame` of one name: the hypothesis or fact is framed, and a spatial hypothesis is used up. The conclusion is what is left
/// of it; where that is truth, the goal is closed.
///
/// It is refused where there is none of the name, where nothing of the conclusion is framed, and where the work passes a
/// limit. The error is the refusal, or want of memory.
pub fn frame_named(alloc: Global, work: &Work, name: &Name) -> Result<Parts<Place>, StepFault>
    requires { IsHanded work.now }
    ensures { Answers (all_nodes (work_formulas work.now)) work.now (limited (table.frame_named name.now work.now)) result }
{
    let found = find(alloc, work, name)?;
    let Some(source) = found else {
        return Err(refuse(alloc, Row::NoSuchHypothesis, name));
    };
    let left = left_by(alloc, work, name, &source)?;
    match left {
        Some(framed) => frame_source(alloc, work, name, &source, framed),
        None => Err(refuse(alloc, Row::NothingFramed, name)),
    }
}

/// `iFrame` of one name of a group: as by `frame_named`, but where nothing of the conclusion is framed the work stays as it
/// is.
///
/// It is refused where there is none of the name, and where the work passes a limit. The error is the refusal, or want of
/// memory.
pub fn frame_member(alloc: Global, work: &Work, name: &Name) -> Result<Parts<Place>, StepFault>
    requires { IsHanded work.now }
    ensures { Answers (all_nodes (work_formulas work.now)) work.now (limited (table.frame_member name.now work.now)) result }
{
    let found = find(alloc, work, name)?;
    let Some(source) = found else {
        return Err(refuse(alloc, Row::NoSuchHypothesis, name));
    };
    let left = left_by(alloc, work, name, &source)?;
    match left {
        Some(framed) => frame_source(alloc, work, name, &source, framed),
        None => as_it_is(alloc, work),
    }
}
