//! Proofs that were found step by step, put together.

ghost use Rattle.std.specs.Prelude.{◌≡◌, ◌≤◌, List, [], ◌∷◌, ◌++◌, length, map, reverse, IfOk};
ghost use Rattle.pm_rules.specs.declared.rules.Entail.{Entail};
ghost use Rattle.pm_proof.specs.Trees.{conclusion, holes_of, hole_count};
ghost use Rattle.pm_proof.specs.declared.joining.Step.{Step};
ghost use Rattle.pm_proof.specs.Joins.{goals_of, Leads, IsComplete, filled_from, joined, Joins};

use crate::proof::Proof;
use pm_logic::Memory;
use std::alloc::Global;

/// A step of a proof: it proves a goal, and leaves goals.
#[derive(Drop)]
pub struct Step {
    /// Its conclusion is the goal that it proves. Its first holes are the goals that it leaves, the others lemmas that it
    /// uses.
    pub proof: Proof,
    /// How many goals it leaves.
    pub goals: u64,
}

/// The proof that the steps make, each of which proves the first of the goals that those before it left, until none is left.
/// It takes a loop, no step is walked through more than once for each goal that it leaves, and the proofs that are put in are
/// not walked through at all. The error is want of memory.
pub fn join(alloc: Global, mut steps: Vec<Step>) -> Result<Proof, Memory>
    requires { IsComplete steps.items }
    ensures tree { IfOk result (λ p. joined steps.items ≡ p ∷ []) }
    ensures joins { IfOk result (λ p. Joins steps.items p) }
{
    // The proofs of the goals that are left before the steps that were done so far, the first one at the end.
    let mut finished = Vec::new(alloc);
    while let Some(step) = steps.pop() {
        let Step { proof, goals } = step;
        let inner = take_last(alloc, &mut finished, goals)?;
        finished.push(fill_first(proof, inner))?;
    }
    // One is left, that of the goal that the first step proves.
    match finished.pop() {
        Some(whole) => Ok(whole),
        None => Err(Memory),
    }
}

/// Takes so many proofs from the end, the last one first.
fn take_last(alloc: Global, finished: &mut Vec<Proof>, count: u64) -> Result<Vec<Proof>, Memory>
    requires { count ≤ length finished.old.items }
    ensures count { IfOk result (λ taken. length taken.items ≡ count) }
    ensures order { IfOk result (λ taken. reverse finished.old.items ≡ taken.items ++ reverse finished.new.items) }
{
    let mut taken = Vec::new(alloc);
    for _ in 0..count {
        if let Some(proof) = finished.pop() {
            taken.push(proof)?;
        }
    }
    Ok(taken)
}

/// Fills the first holes, the last one of them first: the places of those before it stay.
fn fill_first(mut proof: Proof, mut inner: Vec<Proof>) -> Proof
    requires { (others : List Entail) × (holes_of proof ≡ map conclusion inner.items ++ others) }
    ensures { result ≡ filled_from proof 0 inner.items }
{
    while let Some(last) = inner.pop() {
        proof = proof.fill(inner.len() as u64, last);
    }
    proof
}

/// Steps that lead from goals to others lead on by one step more, which proves the first one that is left.
pub fn one_step_more()
    ensures { (gs : List Entail) (ss : List Step) (s : Step) (g : Entail) (left : List Entail) → Leads gs ss (g ∷ left) → conclusion s.proof ≡ g → s.goals ≤ hole_count s.proof → Leads gs (ss ++ s ∷ []) (goals_of s ++ left) }
{}
