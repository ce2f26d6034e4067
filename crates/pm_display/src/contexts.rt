//! The parts of a goal: a line for each of its variables, facts and hypotheses.

ghost use Rattle.std.specs.Prelude.{◌≡◌, ◌++◌, slice_get, All, OnOk};
ghost use Rattle.pm_display.specs.Goals.{IsShallowHyp, lines_of, line_at, variable_line, fact_line_of, hyp_line_of};

use crate::lines::{add_fact, add_hyp, add_variable};
use pm_goal::{Ctx, Facts};
use pm_logic::{Bytes, List, Memory, Name, Preds};
use std::alloc::Global;

/// The names of variables, oldest first.
pub fn add_variables(vars: &[Name], text: &mut Bytes) -> Result<(), Memory>
    ensures { OnOk result (text.new ≡ text.old ++ lines_of variable_line vars.now) }
{
    for name in vars {
        add_variable(name, text)?;
    }
    Ok(())
}

/// The fact at a place, if there is one.
#[tactic(auto, using(crate::proofs::Shown::fact_rules))]
fn add_fact_at(
    alloc: Global,
    names: &List<Name>,
    facts: &Facts,
    i: usize,
    text: &mut Bytes,
) -> Result<(), Memory>
    ensures { OnOk result (text.new ≡ text.old ++ line_at (fact_line_of names.now) (slice_get facts.now i)) }
{
    match facts.name(i) {
        Some(name) => match facts.pure(i) {
            Some(pure) => add_fact(alloc, names, name, pure, text),
            None => Ok(()),
        },
        None => Ok(()),
    }
}

pub fn add_facts(
    alloc: Global,
    names: &List<Name>,
    facts: &Facts,
    text: &mut Bytes,
) -> Result<(), Memory>
    ensures { OnOk result (text.new ≡ text.old ++ lines_of (fact_line_of names.now) facts.now) }
{
    for i in 0..facts.len() {
        add_fact_at(alloc, names, facts, i, text)?;
    }
    Ok(())
}

/// The hypothesis at a place, if there is one.
#[tactic(auto, using(crate::proofs::Shown::hyp_rules))]
fn add_hyp_at(
    alloc: Global,
    names: &List<Name>,
    preds: &Preds,
    hyps: &Ctx,
    i: usize,
    text: &mut Bytes,
) -> Result<(), Memory>
    requires { All IsShallowHyp hyps.now }
    ensures { OnOk result (text.new ≡ text.old ++ line_at (hyp_line_of preds.now.list names.now) (slice_get hyps.now i)) }
{
    match hyps.name(i) {
        Some(name) => match hyps.formula(i) {
            Some(formula) => add_hyp(alloc, names, preds, name, formula, text),
            None => Ok(()),
        },
        None => Ok(()),
    }
}

pub fn add_hyps(
    alloc: Global,
    names: &List<Name>,
    preds: &Preds,
    hyps: &Ctx,
    text: &mut Bytes,
) -> Result<(), Memory>
    requires { All IsShallowHyp hyps.now }
    ensures { OnOk result (text.new ≡ text.old ++ lines_of (hyp_line_of preds.now.list names.now) hyps.now) }
{
    for i in 0..hyps.len() {
        add_hyp_at(alloc, names, preds, hyps, i, text)?;
    }
    Ok(())
}
