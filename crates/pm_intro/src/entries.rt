//! What is last in hand, taken apart by the classes of formulas: an intuitionistic one into parts under boxes.

ghost use Rattle.std.specs.Prelude.{◌≡◌, IfOk};
ghost use Rattle.pm_logic.specs.declared.formula.Formula.TheViews as view;
ghost use Rattle.pm_proof.specs.Trees.{entail};
ghost use Rattle.pm_classes.specs.Entries.{IsHanded, HasProof};
ghost use Rattle.pm_goal.specs.declared.work.Kind.TheVariants.{Int};
ghost use Rattle.pm_intro.specs.Hands.{PartsAnswer, CasesAnswer, BodyAnswer, HasCases, HasBody};

use crate::steps::{boxed_either, boxed_exists};
use pm_classes::{One, Pair, into_and, into_exist, into_or, into_sep};
use pm_goal::{Held, Kind};
use pm_logic::{Formula, Memory};
use std::alloc::Global;

/// The two separate parts.
pub fn into_parts(alloc: Global, vars: u32, held: &Held) -> Result<Option<Pair>, Memory>
    requires { IsHanded vars held.now.formula }
    ensures { IfOk result (PartsAnswer held.now.kind vars held.now.formula) }
{
    match held.kind {
        Kind::Spat => {
            let entry = into_sep(alloc, vars, &held.formula)?;
            Ok(entry)
        }
        Kind::Int => {
            let entry = into_and(alloc, vars, &held.formula)?;
            Ok(entry)
        }
    }
}

/// The alternatives under boxes.
fn box_cases(alloc: Global, vars: u32, f: &Formula, entry: Pair) -> Result<Pair, Memory>
    requires { HasProof vars f.now (entail vars f.now (view.Or entry.first entry.second)) entry.proof }
    ensures first { IfOk result (λ r. r.first ≡ entry.first) }
    ensures second { IfOk result (λ r. r.second ≡ entry.second) }
    ensures proof { IfOk result (λ r. HasCases Int vars f.now r) }
{
    let Pair {
        first,
        second,
        proof,
    } = entry;
    let proof = boxed_either(alloc, vars, f, &first, &second, proof)?;
    Ok(Pair {
        first,
        second,
        proof,
    })
}

/// The two alternatives.
pub fn into_cases(alloc: Global, vars: u32, held: &Held) -> Result<Option<Pair>, Memory>
    requires { IsHanded vars held.now.formula }
    ensures { IfOk result (CasesAnswer held.now.kind vars held.now.formula) }
{
    let Some(entry) = into_or(alloc, vars, &held.formula)? else {
        return Ok(None);
    };
    match held.kind {
        Kind::Spat => Ok(Some(entry)),
        Kind::Int => {
            let boxed = box_cases(alloc, vars, &held.formula, entry)?;
            Ok(Some(boxed))
        }
    }
}

/// The body under a box.
fn box_body(alloc: Global, vars: u32, f: &Formula, entry: One) -> Result<One, Memory>
    requires { HasProof vars f.now (entail vars f.now (view.Ex entry.formula)) entry.proof }
    ensures formula { IfOk result (λ r. r.formula ≡ entry.formula) }
    ensures proof { IfOk result (λ r. HasBody Int vars f.now r) }
{
    let One { formula, proof } = entry;
    let proof = boxed_exists(alloc, vars, f, &formula, proof)?;
    Ok(One { formula, proof })
}

/// The body of an existential.
pub fn into_body(alloc: Global, vars: u32, held: &Held) -> Result<Option<One>, Memory>
    requires { IsHanded vars held.now.formula }
    ensures { IfOk result (BodyAnswer held.now.kind vars held.now.formula) }
{
    let Some(entry) = into_exist(alloc, vars, &held.formula)? else {
        return Ok(None);
    };
    match held.kind {
        Kind::Spat => Ok(Some(entry)),
        Kind::Int => {
            let boxed = box_body(alloc, vars, &held.formula, entry)?;
            Ok(Some(boxed))
        }
    }
}
