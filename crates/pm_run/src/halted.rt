//! Where scripts end.

ghost use Rattle.std.specs.Prelude.{◌≡◌, ◌≤◌, length, reverse, option_map, IfOk};
ghost use Rattle.pm_cutter.specs.Spans.{end_from};
ghost use Rattle.pm_run.specs.Runs.{start};
ghost use Rattle.pm_run.specs.Coming.{limit};
ghost use Rattle.pm_run.specs.Keeping.{Keeps, IsKept};
ghost use Rattle.pm_run.specs.Looping.{EndIsShort, IsCut, HaltsAtEnd, HaltsKept};
ghost use Rattle.pm_run.specs.Halting.{HaltsAs, halted};

use crate::proof::{Proof, add_goals};
use crate::running::Running;
use crate::script::{cut, do_span, do_spans};
use crate::stop::Stop;
use pm_cutter::{Ended, Span};
use pm_goal::Goal;
use pm_logic::{List, Memory, Preds};
use pm_terms::TextFault;
use std::alloc::Global;

/// Where a script ends: the state behind the last sentence that is done, and what stops the run there.
#[derive(Drop)]
pub struct Halted {
    pub preds: Preds,
    /// The goals that are left, the first one first, where a proof is open.
    pub goals: Option<List<Goal>>,
    /// What stops the run, and `None` where every sentence is done, be a proof open or not.
    pub stop: Option<Stop>,
}

/// The goals that are left of a proof, the first one first.
fn goals_of(alloc: Global, proof: Proof) -> Result<List<Goal>, Memory>
    ensures { IfOk result (λ goals. goals ≡ reverse proof.goals) }
{
    let Proof {
        name: _,
        statement: _,
        steps: _,
        goals,
    } = proof;
    let mut first = List::new(alloc);
    add_goals(&mut first, goals)?;
    Ok(first)
}

fn goals_left(alloc: Global, proof: Option<Proof>) -> Result<Option<List<Goal>>, Memory>
    ensures { IfOk result (λ goals. goals ≡ option_map (λ p. reverse p.goals) proof) }
{
    match proof {
        Some(proof) => Ok(Some(goals_of(alloc, proof)?)),
        None => Ok(None),
    }
}

/// Where a script ends of which this is kept.
fn end_of(alloc: Global, running: Running, stop: Option<Stop>) -> Result<Halted, Memory>
    ensures { IfOk result (λ h. h ≡ halted running stop) }
{
    let Running {
        preds,
        names: _,
        lemmas: _,
        proofs: _,
        proof,
    } = running;
    let goals = goals_left(alloc, proof)?;
    Ok(Halted { preds, goals, stop })
}

/// Does what the end finishes; what stops the run there.
fn halt_end(
    alloc: Global,
    running: &mut Running,
    number: u64,
    end: &Ended,
) -> Result<Option<Stop>, Memory>
    requires kept { IsKept running.now }
    requires short { EndIsShort end.now }
    ensures { IfOk result (HaltsAtEnd running.old number (end_from end.now) running.new) }
{
    match end {
        Ended::Clean => Ok(None),
        Ended::Last(span) => do_span(alloc, running, number, span),
        Ended::Rest(at) => Ok(Some(Stop::Unreadable(TextFault::Unexpected(*at)))),
    }
}

/// Does the sentences of a script that is cut; what stops them.
fn halt_cut(
    alloc: Global,
    running: &mut Running,
    bytes: &[u8],
    spans: &[Span],
    last: &Ended,
) -> Result<Option<Stop>, Memory>
    requires fresh { Keeps running.now start }
    requires short { length bytes.now ≤ limit }
    requires cut { IsCut bytes.now spans.now last.now }
    ensures { IfOk result (HaltsKept bytes.now running.new) }
{
    let mut number = 1;
    match do_spans(alloc, running, &mut number, spans)? {
        Some(stop) => Ok(Some(stop)),
        None => halt_end(alloc, running, number, last),
    }
}

/// Does a script of at most `MAX_SCRIPT` bytes up to the first sentence that is refused or can't be read, and gives the
/// state behind the last sentence that is done. The error is want of memory, and then nothing is known of it.
pub fn halt_script(alloc: Global, bytes: &[u8]) -> Result<Halted, Memory>
    requires { length bytes.now ≤ limit }
    ensures { IfOk result (HaltsAs bytes.now) }
{
    let (spans, last) = cut(alloc, bytes)?;
    let mut running = Running::new(alloc);
    let stop = halt_cut(alloc, &mut running, bytes, spans.as_slice(), &last)?;
    end_of(alloc, running, stop)
}
