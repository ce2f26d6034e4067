//! The premises by which a conclusion is reached, and the proof that it is.

ghost use Rattle.std.specs.Prelude.{◌≡◌, [], ◌∷◌, Some, IfOk};
ghost use Rattle.pm_proof.specs.Trees.{entail, conclusion};
ghost use Rattle.pm_classes.specs.Entries.{WandAnswer};
ghost use Rattle.pm_apply.specs.Reaching.{ground, IsReached, IsOneMore, ReachAnswer};

use crate::rules::{at_once, last_step, more_step};
use pm_classes::{Pair, into_wand};
use pm_logic::{Formula, List, Memory, same};
use pm_proof::Proof;
use std::alloc::Global;

/// The premises, the last one first, and the proof that the conclusion follows from them and the context.
#[derive(Drop)]
pub struct Reached {
    pub premises: List<Formula>,
    pub proof: Proof,
}

/// The conclusion itself is applied.
fn reached_at_once(
    alloc: Global,
    vars: u32,
    whole: &Formula,
    shared: &Formula,
    r: &Formula,
) -> Result<Reached, Memory>
    ensures { IfOk result (λ x. IsReached vars whole.now shared.now r.now r.now [] x) }
{
    let proof = at_once(alloc, vars, whole, shared, r)?;
    let premises = List::new(alloc);
    Ok(Reached { premises, proof })
}

/// A wand to the conclusion is applied: its premise has the whole context.
fn by_last(
    alloc: Global,
    vars: u32,
    whole: &Formula,
    shared: &Formula,
    r: &Formula,
    entry: Pair,
) -> Result<Reached, Memory>
    requires { WandAnswer vars r.now (Some entry) }
    ensures { IfOk result (λ x. IsReached vars whole.now shared.now entry.second r.now (entry.first ∷ []) x) }
{
    let Pair {
        first,
        second,
        proof,
    } = entry;
    let step = last_step(alloc, vars, whole, shared, r, &first, &second)?;
    let proof = step.fill(1, proof);
    let mut premises = List::new(alloc);
    premises.push(first)?;
    Ok(Reached { premises, proof })
}

/// A wand to what the conclusion is reached from is applied: its premise has the shared part of the context.
fn by_more(
    alloc: Global,
    vars: u32,
    whole: &Formula,
    shared: &Formula,
    concl: &Formula,
    r: &Formula,
    entry: Pair,
    inner: Reached,
) -> Result<Reached, Memory>
    requires entry { WandAnswer vars r.now (Some entry) }
    requires inner { conclusion inner.proof ≡ entail vars (ground whole.now shared.now entry.second) concl.now }
    ensures { IfOk result (λ x. IsOneMore vars whole.now shared.now concl.now r.now entry inner x) }
{
    let Pair {
        first,
        second,
        proof,
    } = entry;
    let Reached {
        premises,
        proof: behind,
    } = inner;
    let step = more_step(alloc, vars, whole, shared, r, &first, &second, concl)?;
    let proof = step.fill(1, proof).fill(1, behind);
    let mut premises = premises;
    premises.push(first)?;
    Ok(Reached { premises, proof })
}

/// The same from a formula that isn't the conclusion.
fn reach_by_wands(
    alloc: Global,
    vars: u32,
    whole: &Formula,
    shared: &Formula,
    concl: &Formula,
    r: &Formula,
) -> Result<Option<Reached>, Memory>
    requires { r.now ≡ concl.now → ⊥ }
    ensures { IfOk result (ReachAnswer vars whole.now shared.now concl.now r.now) }
{
    let found = into_wand(alloc, vars, r)?;
    let Some(entry) = found else {
        return Ok(None);
    };
    if same(&entry.second, concl) {
        let last = by_last(alloc, vars, whole, shared, r, entry)?;
        return Ok(Some(last));
    }
    let behind = reach_by_wands(alloc, vars, whole, shared, concl, &entry.second)?;
    let Some(inner) = behind else {
        return Ok(None);
    };
    let more = by_more(alloc, vars, whole, shared, concl, r, entry, inner)?;
    Ok(Some(more))
}

/// The fewest premises by which the conclusion is reached from the formula, and `None` where it isn't reached. The error is want
/// of memory.
pub fn reach(
    alloc: Global,
    vars: u32,
    whole: &Formula,
    shared: &Formula,
    concl: &Formula,
    r: &Formula,
) -> Result<Option<Reached>, Memory>
    ensures { IfOk result (ReachAnswer vars whole.now shared.now concl.now r.now) }
{
    if same(r, concl) {
        let made = reached_at_once(alloc, vars, whole, shared, r)?;
        return Ok(Some(made));
    }
    reach_by_wands(alloc, vars, whole, shared, concl, r)
}
