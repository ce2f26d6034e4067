//! Proofs of a size.

ghost use Rattle.std.specs.Prelude.{◌≡◌, ◌<◌, length, IfOk, IfSome};
ghost use Rattle.pm_samples.specs.Whole.{IsWhole};
ghost use Rattle.pm_star.specs.Stars.{parts};

use pm_goal::{Ctx, Facts, Goal, Hyp};
use pm_logic::{Formula, List, Memory, Name, Pure, Term, UNIT};
use pm_proof::Proof;
use pm_samples::{deep, filled};
use pm_star::{bring_front, partition};
use std::alloc::Global;

/// `i ↦ 0`
fn cell(i: u32) -> Formula {
    Formula::Pts {
        loc: Term::Lit(i64::from(i)),
        units: UNIT,
        val: Term::Lit(0),
    }
}

/// That many different hypotheses.
fn cells(alloc: Global, count: u32) -> Result<Ctx, Memory> {
    let mut cells = Ctx::new(alloc);
    for i in 0..count {
        let text = format!(in alloc; "H{i}")?;
        let name = Name::from_bytes(alloc, text.as_bytes())?;
        if cells.place(&name).is_none() {
            let formula = cell(i);
            cells.push(Hyp { name, formula })?;
        }
    }
    Ok(cells)
}

/// A goal with so many spatial hypotheses.
fn goal(alloc: Global, count: u32) -> Result<Goal, Memory>
    ensures { IfOk result (λ g. length g.vars ≡ 0) }
{
    Ok(Goal {
        vars: List::new(alloc),
        pures: Facts::new(alloc),
        ints: Ctx::new(alloc),
        spats: cells(alloc, count)?,
        concl: Formula::Pure(Pure::True),
    })
}

/// The place of the last hypothesis.
#[tactic(auto, using(crate::proofs::Counts::within))]
fn last_place(goal: &Goal) -> Option<u32>
    ensures { IfSome result (λ i. i < length (parts goal.now)) }
{
    let last = goal.spats.len().checked_sub(1)?;
    u32::try_from(last).ok()
}

/// The last one of so many hypotheses is brought to the front. Where there is none, memory counts as wanting.
#[tactic(auto, using(pm_samples::proofs::Whole::moved_whole))]
pub fn moved_front(alloc: Global, count: u32) -> Result<Proof, Memory>
    ensures { IfOk result (λ p. IsWhole p) }
{
    let goal = goal(alloc, count)?;
    match last_place(&goal) {
        Some(place) => bring_front(alloc, &goal, place),
        None => Err(Memory),
    }
}

/// Every other one of so many hypotheses goes to the left.
#[tactic(auto, using(pm_samples::proofs::Whole::moved_whole))]
pub fn parted(alloc: Global, count: u32) -> Result<Proof, Memory>
    ensures { IfOk result (λ p. IsWhole p) }
{
    let goal = goal(alloc, count)?;
    let mut left = List::new(alloc);
    for i in 0..count {
        if i % 2 == 0 {
            left.push(i)?;
        }
    }
    let proof = partition(alloc, &goal, &left)?;
    Ok(proof)
}

/// `⌜True⌝ ⊢ ⌜True⌝` by so many steps of transitivity, each over the one before.
pub fn tree(alloc: Global, levels: u32) -> Result<Proof, Memory>
    ensures { IfOk result (λ p. IsWhole p) }
{
    let open = deep(alloc, true, levels)?;
    filled(alloc, open)
}
