//! Proofs: filled, copied and written down, a million levels deep.

ghost use Rattle.pm_samples.specs.Whole.{IsWhole};

use crate::given::truth;
use pm_check::check_bytes;
use pm_logic::{Bytes, Formula, Memory, same};
use pm_proof::Proof;
use pm_samples::{deep, derivation, filled};
use std::alloc::Global;
use std::process::Abort;
use std::test::Fail;

/// The proof concludes this in no variables, and has so many holes.
pub fn concludes(rt: &impl Abort, proof: &Proof, left: &Formula, right: &Formula, holes: u64) {
    let e = proof.conclusion();
    assert_eq!(rt; e.vars, 0);
    assert!(rt; same(&e.left, left));
    assert!(rt; same(&e.right, right));
    assert_eq!(rt; proof.holes(), holes);
}

/// The text is accepted, and states just this formula, under the name `it`.
fn states(rt: &impl Abort, alloc: Global, text: &Bytes, formula: &Formula) -> Result<(), Memory> {
    let Ok(checked) = check_bytes(alloc, text.as_slice()) else {
        return Err(Memory);
    };
    assert!(rt; checked.preds.list.is_empty());
    assert_eq!(rt; checked.statements.len(), 1);
    let last = checked.statements.get(0).ok_or(Memory)?;
    assert_eq!(rt; last.name.bytes(), b"it".as_slice());
    assert!(rt; same(&last.formula, formula));
    Ok(())
}

/// The derivation of the proof is accepted, and states just this formula.
pub fn is_accepted(
    rt: &impl Abort,
    alloc: Global,
    proof: Proof,
    formula: &Formula,
) -> Result<(), Memory>
    requires { IsWhole proof }
{
    let Some(text) = derivation(alloc, "it", proof)? else {
        return Err(Memory);
    };
    states(rt, alloc, &text, formula)
}

/// A deep proof is filled at its deepest place, copied, let go, written and let go.
fn goes_deep(rt: &impl Abort, alloc: Global, left: bool, levels: u32) -> Result<(), Memory> {
    let open = deep(alloc, left, levels)?;
    concludes(rt, &open, &truth(), &truth(), 1);
    let whole = filled(alloc, open)?;
    concludes(rt, &whole, &truth(), &truth(), 0);
    let same = whole.copy(alloc)?;
    drop(whole);
    is_accepted(rt, alloc, same, &truth())
}

/// As many levels as a long script could make.
const LEVELS: u32 = 1_000_000;

#[test]
fn a_million_levels_on_the_left(rt: HostRuntime) -> Result<(), Fail> {
    goes_deep(&rt, rt.alloc(), true, LEVELS)?;
    Ok(())
}

#[test]
fn a_million_levels_on_the_right(rt: HostRuntime) -> Result<(), Fail> {
    goes_deep(&rt, rt.alloc(), false, LEVELS)?;
    Ok(())
}
