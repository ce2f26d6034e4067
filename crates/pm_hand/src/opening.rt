//! A universal that is last in hand is opened with a term.

ghost use Rattle.std.specs.Prelude.{◌≡◌, ◌<◌, ◌+◌, [], ◌∷◌, Some, IfOk, length};
ghost use Rattle.pm_logic.specs.declared.formula.TheConstants.{BOUND};
ghost use Rattle.pm_logic.specs.declared.formula.Formula.TheViews as view;
ghost use Rattle.pm_logic.specs.Scope.{ScopedIn};
ghost use Rattle.pm_logic.specs.Size.{term_nodes, depth_of};
ghost use Rattle.pm_logic.specs.Substitution.{opened_of};
ghost use Rattle.pm_goal.specs.Left.{of_kind};
ghost use Rattle.pm_proof.specs.Trees.{entail, conclusion};
ghost use Rattle.pm_proof.specs.Known.{Proves, Every};
ghost use Rattle.pm_proof.specs.Valid.{TermFits};
ghost use Rattle.pm_schemes.specs.Sketches.{deepest};
ghost use Rattle.pm_classes.specs.Entries.{ForallAnswer};
ghost use Rattle.pm_table.specs.Limits.{all_nodes, work_formulas, limited};
ghost use Rattle.pm_table.specs.Terms as table;
ghost use Rattle.pm_action.specs.Acting.{Answers, IsHanded, IsLast};
ghost use Rattle.pm_hand.specs.Changed.{opening, IsOpened};

use crate::replacing::become_one;
use pm_action::{last, refuse_plain};
use pm_classes::{One, into_forall};
use pm_goal::{Held, Kind, Row, StepFault, Work};
use pm_logic::{Formula, Memory, Term, all, copy, opened};
use pm_proof::{Parts, Proof};
use pm_schemes::{Letters, Pattern, Scheme, derive, gap, pers, specialize, step};
use pm_table::Place;
use std::alloc::Global;

const A: Pattern = Pattern::Letter(0);

const X: Pattern = Pattern::Letter(1);

const Y: Pattern = Pattern::Letter(2);

/// From A ⊢ X and X ⊢ Y: A ⊢ Y.
static THROUGH: Scheme = step!(Trans, A => Y; gap!(A => X); gap!(X => Y));

/// From A ⊢ X and X ⊢ Y: □ A ⊢ □ Y.
static THROUGH_BOXED: Scheme = step!(
    PersMono, pers!(A) => pers!(Y);
    step!(Trans, A => Y; gap!(A => X); gap!(X => Y))
);

#[tactic(auto, unfolding(pm_schemes::specs::Tests::passes, pm_schemes::specs::Tests::fits_row))]
fn through_spat(
    alloc: Global,
    vars: u32,
    a: &Formula,
    x: &Formula,
    y: &Formula,
) -> Result<Proof, Memory>
    ensures { IfOk result (λ p. Proves Every (entail vars a.now y.now) (entail vars a.now x.now ∷ entail vars x.now y.now ∷ []) 2 (deepest (a.now ∷ x.now ∷ y.now ∷ []) [] + 1) vars p) }
{
    let letters = Letters {
        formulas: &[a, x, y],
        pures: &[],
    };
    let proof = derive(alloc, vars, &THROUGH, letters)?;
    Ok(proof)
}

#[tactic(auto, unfolding(pm_schemes::specs::Tests::passes, pm_schemes::specs::Tests::fits_row))]
fn through_int(
    alloc: Global,
    vars: u32,
    a: &Formula,
    x: &Formula,
    y: &Formula,
) -> Result<Proof, Memory>
    ensures { IfOk result (λ p. Proves Every (entail vars (view.Pers a.now) (view.Pers y.now)) (entail vars a.now x.now ∷ entail vars x.now y.now ∷ []) 2 (deepest (a.now ∷ x.now ∷ y.now ∷ []) [] + 1) vars p) }
{
    let letters = Letters {
        formulas: &[a, x, y],
        pures: &[],
    };
    let proof = derive(alloc, vars, &THROUGH_BOXED, letters)?;
    Ok(proof)
}

/// From `a ⊢ x` and `x ⊢ y`, which are its holes, the same of the kind.
fn through(
    alloc: Global,
    vars: u32,
    kind: Kind,
    a: &Formula,
    x: &Formula,
    y: &Formula,
) -> Result<Proof, Memory>
    ensures { IfOk result (λ p. Proves Every (entail vars (of_kind kind a.now) (of_kind kind y.now)) (entail vars a.now x.now ∷ entail vars x.now y.now ∷ []) 2 (deepest (a.now ∷ x.now ∷ y.now ∷ []) [] + 1) vars p) }
{
    match kind {
        Kind::Int => through_int(alloc, vars, a, x, y),
        Kind::Spat => through_spat(alloc, vars, a, x, y),
    }
}

/// From what is in hand, of which `by` proves the universal, to the body opened with the term.
fn instance(
    alloc: Global,
    vars: u32,
    held: &Held,
    body: &Formula,
    t: &Term,
    by: Proof,
) -> Result<Proof, Memory>
    requires scoped { ScopedIn (vars + 1) body.now }
    requires small { vars + 1 + depth_of body.now < BOUND }
    requires term { TermFits vars t.now }
    requires says { conclusion by ≡ entail vars held.now.formula (view.All body.now) }
    ensures { IfOk result (λ p. IsOpened vars held.now.kind held.now.formula body.now t.now by p) }
{
    let universal = all(alloc, copy(alloc, body)?)?;
    let formula = opened(alloc, body, t)?;
    let special = specialize(alloc, vars, body, t)?;
    let step = through(alloc, vars, held.kind, &held.formula, &universal, &formula)?;
    Ok(step.fill(1, special).fill(0, by))
}

/// What is last in hand becomes the body of its entry, opened with the term.
fn open_last(
    alloc: Global,
    work: &Work,
    held: &Held,
    entry: One,
    t: &Term,
) -> Result<Parts<Place>, StepFault>
    requires handed { IsHanded work.now }
    requires some { 0 < length work.now.held }
    requires last { IsLast work.now held.now }
    requires fits { TermFits (length work.now.goal.vars) t.now }
    requires entry { ForallAnswer (length work.now.goal.vars) held.now.formula (Some entry) }
    ensures { Answers (all_nodes (work_formulas work.now) + term_nodes t.now) work.now (limited (opening work.now held.now t.now)) result }
{
    let One {
        formula: body,
        proof,
    } = entry;
    let vars = work.goal.vars.len() as u32;
    let by = instance(alloc, vars, held, &body, t, proof)?;
    let formula = opened(alloc, &body, t)?;
    become_one(alloc, work, held, held.kind, formula, by)
}

/// The universal that is last in hand is opened with the term; its kind is kept.
///
/// It is refused where it is no universal, and where the work passes a limit. A line of a derivation has room for the term.
pub fn with_term(alloc: Global, work: &Work, t: &Term) -> Result<Parts<Place>, StepFault>
    requires handed { IsHanded work.now }
    requires some { 0 < length work.now.held }
    requires fits { TermFits (length work.now.goal.vars) t.now }
    ensures { Answers (all_nodes (work_formulas work.now) + term_nodes t.now) work.now (limited (table.with_term t.now work.now)) result }
{
    let held = last(work);
    let vars = work.goal.vars.len() as u32;
    let found = into_forall(alloc, vars, &held.formula)?;
    match found {
        Some(entry) => open_last(alloc, work, held, entry, t),
        None => Err(refuse_plain(Row::NotUniversal)),
    }
}
