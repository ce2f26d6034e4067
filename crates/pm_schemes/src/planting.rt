//! Proofs by schemes.

ghost use Rattle.std.specs.Prelude.{◌≡◌, ◌+◌, IfOk, IsTrue, map};
ghost use Rattle.pm_proof.specs.Known.{Proves, Every};
ghost use Rattle.pm_schemes.specs.Sketches.{planted, claim, gaps, steps, height, deepest, entail_of};
ghost use Rattle.pm_schemes.specs.Tests.{passes};
ghost use Rattle.pm_schemes.specs.Read.{sketch_of, letters_of, formulas_of, pures_of};

use crate::bare::rule;
use crate::instances::{Letters, entailment};
use crate::scheme::Scheme;
use pm_logic::Memory;
use pm_proof::{Proof, by_rule, hole};
use std::alloc::Global;

/// The scheme's tree, node by node.
fn plant(alloc: Global, vars: u32, scheme: &Scheme, letters: Letters) -> Result<Proof, Memory>
    ensures { IfOk result (λ p. p ≡ planted vars (letters_of letters.entry) (sketch_of scheme.now)) }
{
    match scheme {
        Scheme::Gap(sides) => hole(alloc, entailment(alloc, vars, sides, letters)?),
        Scheme::Axiom(bare, sides) => {
            let e = entailment(alloc, vars, sides, letters)?;
            by_rule(alloc, rule(*bare), None, None, e)
        }
        Scheme::One(bare, sides, a) => {
            let e = entailment(alloc, vars, sides, letters)?;
            let a = plant(alloc, vars, a, letters)?;
            by_rule(alloc, rule(*bare), Some(a), None, e)
        }
        Scheme::Two(bare, sides, a, b) => {
            let e = entailment(alloc, vars, sides, letters)?;
            let a = plant(alloc, vars, a, letters)?;
            let b = plant(alloc, vars, b, letters)?;
            by_rule(alloc, rule(*bare), Some(a), Some(b), e)
        }
    }
}

/// A proof, in `vars` variables, of the scheme's sides where its letters stand for these formulas, with a hole for each gap
/// in order. It has as many rules as the scheme, and no formula in it is deeper than the deepest of the letters and the
/// scheme's height.
///
/// Each step of the scheme fits its rule, and each letter of a step stands also in the scheme's sides or in a gap, under as
/// many binders; so what the steps say is scoped where these are. Both are found by computing where the scheme is a static.
///
/// The error is want of memory, and then there is no proof.
#[tactic(auto, using(crate::proofs::Sound::planted_proves))]
pub fn derive(alloc: Global, vars: u32, scheme: &Scheme, letters: Letters) -> Result<Proof, Memory>
    requires { IsTrue (passes (sketch_of scheme.now)) }
    ensures { IfOk result (λ p. Proves Every (entail_of vars (letters_of letters.entry) (claim (sketch_of scheme.now))) (map (entail_of vars (letters_of letters.entry)) (gaps (sketch_of scheme.now))) (steps (sketch_of scheme.now)) (deepest (formulas_of letters.entry) (pures_of letters.entry) + height (sketch_of scheme.now)) vars p) }
{
    plant(alloc, vars, scheme, letters)
}
