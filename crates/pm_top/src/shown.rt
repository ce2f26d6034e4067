//! What is written for the goals of a script.

ghost use Rattle.std.specs.Prelude.{◌≡◌, ◌≤◌, ◌++◌, length, All, IfOk, OnOk};
ghost use Rattle.pm_display.specs.Goals.{IsShallow};
ghost use Rattle.pm_run.specs.Coming.{limit};
ghost use Rattle.pm_top.specs.Shown.{goal_head, numbered_goal, numbered_goals, count_line, proof_text, stop_line, stop_status, Shows, EachShallow};

use crate::answer::{refusal, unreadable};
use crate::status::Status;
use pm_display::print_goal;
use pm_goal::Goal;
use pm_logic::{Bytes, List, Memory, Preds};
use pm_run::{Halted, Stop, halt_script};
use std::alloc::Global;

/// Appends the line before the goal of this number.
fn add_head(alloc: Global, number: usize, text: &mut Bytes) -> Result<(), Memory>
    ensures { OnOk result (text.new ≡ text.old ++ goal_head number) }
{
    let line = format!(in alloc; "goal {number}:\n")?;
    text.extend(line.as_bytes())
}

/// Appends a goal behind the line of its number.
fn add_goal(
    alloc: Global,
    number: usize,
    goal: &Goal,
    preds: &Preds,
    text: &mut Bytes,
) -> Result<(), Memory>
    requires { IsShallow goal.now }
    ensures { OnOk result (text.new ≡ text.old ++ numbered_goal preds.now.list number goal.now) }
{
    add_head(alloc, number, text)?;
    print_goal(alloc, goal, preds, text)
}

/// Appends goals, each behind the line of its number.
fn add_goals(alloc: Global, goals: &[Goal], preds: &Preds, text: &mut Bytes) -> Result<(), Memory>
    requires { All IsShallow goals.now }
    ensures { OnOk result (text.new ≡ text.old ++ numbered_goals preds.now.list 1 goals.now) }
{
    for (i, goal) in goals.iter().enumerate() {
        add_goal(alloc, i + 1, goal, preds, text)?;
    }
    Ok(())
}

/// Appends the line that says how many goals there are.
fn add_count(alloc: Global, count: usize, text: &mut Bytes) -> Result<(), Memory>
    ensures { OnOk result (text.new ≡ text.old ++ count_line count) }
{
    let line = format!(in alloc; "goals: {count}\n")?;
    text.extend(line.as_bytes())
}

/// Appends the goals that are left, where a proof is open.
fn add_proof(
    alloc: Global,
    goals: &Option<List<Goal>>,
    preds: &Preds,
    text: &mut Bytes,
) -> Result<(), Memory>
    requires { EachShallow goals.now }
    ensures { OnOk result (text.new ≡ text.old ++ proof_text preds.now.list goals.now) }
{
    match goals {
        Some(goals) => {
            add_count(alloc, goals.len(), text)?;
            add_goals(alloc, goals.as_slice(), preds, text)
        }
        None => text.extend(b"no proof\n"),
    }
}

/// The status of what stopped a run, and its line.
fn stopped(alloc: Global, stop: Option<Stop>) -> Result<(Status, Bytes), Memory>
    ensures { IfOk result (λ x. (x.0 ≡ stop_status stop) × (x.1 ≡ stop_line stop)) }
{
    match stop {
        None => Ok((Status::Done, Bytes::new(alloc))),
        Some(
            Stop::Refused {
                number,
                offset,
                refusal: why,
            },
        ) => Ok((Status::Refused, refusal(alloc, number, offset, &why)?)),
        Some(Stop::Unreadable(fault)) => Ok((Status::Unreadable, unreadable(alloc, fault)?)),
    }
}

/// What `goals` answers to an input within its limit, and what it writes for it.
pub fn shown(alloc: Global, bytes: &[u8]) -> Result<(Status, Bytes), Memory>
    requires { length bytes.now ≤ limit }
    ensures { IfOk result (λ x. Shows bytes.now x.0 x.1) }
{
    let Halted { preds, goals, stop } = halt_script(alloc, bytes)?;
    let mut text = Bytes::new(alloc);
    add_proof(alloc, &goals, &preds, &mut text)?;
    let (status, line) = stopped(alloc, stop)?;
    text.extend(line.as_slice())?;
    Ok((status, text))
}
