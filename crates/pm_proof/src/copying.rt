//! Copies of proofs, by loops, so that one of a million levels needs no deep stack.

ghost use Rattle.std.specs.Prelude.{◌≡◌, List, [], ◌∷◌, ◌++◌, reverse, IfOk, OnOk};
ghost use Rattle.pm_proof.specs.Trees.{Tree};
ghost use Rattle.pm_proof.specs.Parts.{premises_of, parts_of_all};

use crate::branch::Branch;
use crate::copying_rules::{copy_entail, copy_rule};
use crate::proof::{Proof, by_rule, hole};
use pm_logic::Memory;
use std::alloc::Global;

impl Proof {
    /// The same proof once more. Its formulas share their parts with those of this one. After the error, which is want of
    /// memory, there is no copy.
    pub fn copy(&self, alloc: Global) -> Result<Proof, Memory>
        ensures { IfOk result (λ same. same ≡ self.now) }
    {
        let mut parts = in_order(alloc, self)?;
        let mut built = Vec::new(alloc);
        while let Some(part) = parts.pop() {
            build(alloc, &part, &mut built)?;
        }
        // One is left, the whole proof's.
        match built.pop() {
            Some(same) => Ok(same),
            None => Err(Memory),
        }
    }
}

/// All parts of the proof, each before those of its premises, those of the first premise before those of the second. It takes
/// a loop, and memory for as many parts as there are. The error is want of it.
pub fn in_order(alloc: Global, whole: &Proof) -> Result<Vec<Branch<'_>>, Memory>
    ensures { IfOk result (λ parts. parts.items ≡ parts_of_all (whole.now ∷ [])) }
{
    let mut parts = Vec::new(alloc);
    let mut ahead = Vec::new(alloc);
    ahead.push(whole.root())?;
    while let Some(part) = ahead.pop() {
        push_premises(&part, &mut ahead)?;
        parts.push(part)?;
    }
    Ok(parts)
}

/// Adds the premises at the end, the first one last.
fn push_premises<'a>(part: &Branch<'a>, ahead: &mut Vec<Branch<'a>>) -> Result<(), Memory>
    ensures { OnOk result (reverse ahead.new.items ≡ premises_of part.now ++ reverse ahead.old.items) }
{
    if let Some(second) = part.second() {
        ahead.push(second)?;
    }
    if let Some(first) = part.first() {
        ahead.push(first)?;
    }
    Ok(())
}

/// Adds a copy of the part at the end, for which the copies of its premises are taken from there, the first one last.
fn build(alloc: Global, part: &Branch, built: &mut Vec<Proof>) -> Result<(), Memory>
    ensures { (rest : List Tree) → reverse built.old.items ≡ premises_of part.now ++ rest → OnOk result (reverse built.new.items ≡ part.now ∷ rest) }
{
    let e = copy_entail(alloc, part.entail())?;
    let whole = match part.rule() {
        None => hole(alloc, e)?,
        Some(rule) => {
            let rule = copy_rule(alloc, rule)?;
            let first = match part.first() {
                Some(_) => built.pop(),
                None => None,
            };
            let second = match part.second() {
                Some(_) => built.pop(),
                None => None,
            };
            by_rule(alloc, rule, first, second, e)?
        }
    };
    built.push(whole)?;
    Ok(())
}
