//! Goals closed by a fact and its negation.

ghost use Rattle.std.specs.Prelude.{◌≡◌, ◌+◌, [], ◌∷◌, IfOk, Some, option_map, slice_get};
ghost use Rattle.std.specs.List.{list_any};
ghost use Rattle.pm_logic.specs.declared.formula.Formula.TheVariants.{Pure as Assert};
ghost use Rattle.pm_logic.specs.declared.formula.Pure.TheViews as pure;
ghost use Rattle.pm_logic.specs.Trees.{nope};
ghost use Rattle.pm_proof.specs.Trees.{entail, conclusion, holes_of};
ghost use Rattle.pm_proof.specs.Known.{Proves, Every};
ghost use Rattle.pm_schemes.specs.Sketches.{deepest};
ghost use Rattle.pm_table.specs.Basic.{is_contradictory};
ghost use Rattle.pm_table.specs.Equality.{pure_eq};
ghost use Rattle.pm_table.specs.Limits.{all_nodes, work_formulas};
ghost use Rattle.pm_action.specs.Acting.{IsActed, IsHanded};
ghost use Rattle.pm_closing.specs.Ways.{Tells};
ghost use Rattle.pm_closing.specs.Closed.{AreOpposite, FillsTwo};

use crate::finding::fact_place;
use crate::searching::fact_at;
use crate::taking::part;
use pm_goal::{Facts, Work};
use pm_logic::{Formula, Memory, Pure, copy_pure, pure_not};
use pm_proof::Proof;
use pm_schemes::{Letters, Pattern, PurePattern, Scheme, and, derive, gap, step};
use std::alloc::Global;

const X: Pattern = Pattern::Letter(0);

const C: Pattern = Pattern::Letter(1);

const FACT: Pattern = Pattern::Pure(&PurePattern::Letter(0));

const OPPOSITE: Pattern = Pattern::Pure(&PurePattern::Not(&PurePattern::Letter(0)));

const NEVER: Pattern = Pattern::Pure(&PurePattern::False);

/// From X ⊢ ⌜φ⌝ and X ⊢ ⌜¬φ⌝: X ⊢ C.
static CONTRADICTION: Scheme = step!(
    Trans, X => C;
    step!(
        AndI, X => and!(FACT, OPPOSITE);
        gap!(X => FACT);
        gap!(X => OPPOSITE)
    );
    step!(
        Trans, and!(FACT, OPPOSITE) => C;
        step!(Not, and!(FACT, OPPOSITE) => NEVER);
        step!(False, NEVER => C)
    )
);

/// From `X ⊢ ⌜φ⌝` and `X ⊢ ⌜¬φ⌝`, which are its holes: `X ⊢ C`.
#[tactic(auto, unfolding(pm_schemes::specs::Tests::passes, pm_schemes::specs::Tests::fits_row))]
fn contradiction(
    alloc: Global,
    vars: u32,
    x: &Formula,
    c: &Formula,
    fact: &Pure,
) -> Result<Proof, Memory>
    ensures { IfOk result (λ p. Proves Every (entail vars x.now c.now) (entail vars x.now (Assert fact.now) ∷ entail vars x.now (Assert (pure.Not fact.now)) ∷ []) 5 (deepest (x.now ∷ c.now ∷ []) (fact.now ∷ []) + 3) vars p) }
{
    let letters = Letters {
        formulas: &[x, c],
        pures: &[fact],
    };
    let proof = derive(alloc, vars, &CONTRADICTION, letters)?;
    Ok(proof)
}

/// The proof with others at its two holes.
fn with_two(step: Proof, a: Proof, b: Proof) -> Proof
    requires { holes_of step ≡ conclusion a ∷ conclusion b ∷ [] }
    ensures { FillsTwo step a b result }
{
    step.fill(1, b).fill(0, a)
}

/// The place of the negation of a fact.
fn negation_at(alloc: Global, facts: &Facts, fact: &Pure) -> Result<Option<usize>, Memory>
    ensures { IfOk result (Tells (list_any (λ g. pure_eq g.pure (nope fact.now)) facts.now) (λ j. option_map (λ g. g.pure) (slice_get facts.now j) ≡ Some (nope fact.now))) }
{
    let same = copy_pure(alloc, fact)?;
    let wanted = pure_not(alloc, same)?;
    Ok(fact_at(facts, &wanted))
}

/// The places of a fact and its negation.
fn opposites(alloc: Global, facts: &Facts) -> Result<Option<(usize, usize)>, Memory>
    ensures { IfOk result (Tells (is_contradictory facts.now) (AreOpposite facts.now)) }
{
    let len = facts.len();
    let mut next = 0;
    while next < len {
        let i = next;
        next += 1;
        if let Some(fact) = facts.pure(i) {
            let found = negation_at(alloc, facts, fact)?;
            if let Some(j) = found {
                return Ok(Some((i, j)));
            }
        }
    }
    Ok(None)
}

/// The conclusion by a fact and its negation, at these places.
fn by_two(alloc: Global, work: &Work, i: usize, j: usize) -> Result<Proof, Memory>
    requires handed { IsHanded work.now }
    requires opposite { AreOpposite work.now.goal.pures (i, j) }
    ensures { IfOk result (IsActed (all_nodes (work_formulas work.now)) work.now []) }
{
    let goal = &work.goal;
    let Some(fact) = goal.pures.pure(i) else {
        unreachable!()
    };
    let holds = part(alloc, work, fact_place(goal, i))?;
    let fails = part(alloc, work, fact_place(goal, j))?;
    let left = &holds.conclusion().left;
    let step = contradiction(alloc, goal.vars.len() as u32, left, &goal.concl, fact)?;
    Ok(with_two(step, holds, fails))
}

/// The conclusion, where a fact and its negation are there.
pub fn by_opposites(alloc: Global, work: &Work) -> Result<Option<Proof>, Memory>
    requires { IsHanded work.now }
    ensures { IfOk result (Tells (is_contradictory work.now.goal.pures) (IsActed (all_nodes (work_formulas work.now)) work.now [])) }
{
    let Some((i, j)) = opposites(alloc, &work.goal.pures)? else {
        return Ok(None);
    };
    let proof = by_two(alloc, work, i, j)?;
    Ok(Some(proof))
}
