//! Formulas that entail pure ones.

ghost use Rattle.std.specs.Prelude.{◌≡◌, ◌+◌, [], ◌∷◌, IfOk};
ghost use Rattle.pm_logic.specs.declared.formula.Formula.TheVariants.{Pure as Fact};
ghost use Rattle.pm_logic.specs.declared.formula.Formula.TheViews as view;
ghost use Rattle.pm_logic.specs.declared.formula.Pure.TheViews as pure;
ghost use Rattle.pm_proof.specs.Trees.{entail, conclusion};
ghost use Rattle.pm_schemes.specs.Sketches.{deepest};
ghost use Rattle.pm_classes.specs.Closing.{Closes, ClosesBoth};
ghost use Rattle.pm_classes.specs.Entries.{IntoPureAnswer};

use crate::closing::{close, close_both, whole_pure};
use crate::entry::OnePure;
use pm_logic::{Formula, Memory};
use pm_schemes::{Letters, Pattern, PurePattern, Scheme, and, gap, or, pers, sep, step, upd};
use std::alloc::Global;

const A: Pattern = Pattern::Letter(0);

const B: Pattern = Pattern::Letter(1);

const FACT: Pattern = Pattern::Pure(&PurePattern::Letter(0));

const OTHER: Pattern = Pattern::Pure(&PurePattern::Letter(1));

const BOTH: Pattern = Pattern::Pure(&PurePattern::And(
    &PurePattern::Letter(0),
    &PurePattern::Letter(1),
));

const EITHER: Pattern = Pattern::Pure(&PurePattern::Or(
    &PurePattern::Letter(0),
    &PurePattern::Letter(1),
));

/// From A ⊢ ⌜φ⌝ and B ⊢ ⌜ψ⌝: A ∗ B ⊢ ⌜φ ∧ ψ⌝.
static SEP: Scheme = step!(
    Trans, sep!(A, B) => BOTH;
    step!(
        AndI, sep!(A, B) => and!(FACT, OTHER);
        step!(
            Trans, sep!(A, B) => FACT;
            step!(SepWeaken, sep!(A, B) => A);
            gap!(A => FACT)
        );
        step!(
            Trans, sep!(A, B) => OTHER;
            step!(
                Trans, sep!(A, B) => B;
                step!(SepComm, sep!(A, B) => sep!(B, A));
                step!(SepWeaken, sep!(B, A) => B)
            );
            gap!(B => OTHER)
        )
    );
    step!(AndPure, and!(FACT, OTHER) => BOTH)
);

/// From A ⊢ ⌜φ⌝ and B ⊢ ⌜ψ⌝: A ∧ B ⊢ ⌜φ ∧ ψ⌝.
static AND: Scheme = step!(
    Trans, and!(A, B) => BOTH;
    step!(
        AndI, and!(A, B) => and!(FACT, OTHER);
        step!(Trans, and!(A, B) => FACT; step!(AndL, and!(A, B) => A); gap!(A => FACT));
        step!(Trans, and!(A, B) => OTHER; step!(AndR, and!(A, B) => B); gap!(B => OTHER))
    );
    step!(AndPure, and!(FACT, OTHER) => BOTH)
);

/// From A ⊢ ⌜φ⌝ and B ⊢ ⌜ψ⌝: A ∨ B ⊢ ⌜φ ∨ ψ⌝.
static OR: Scheme = step!(
    Trans, or!(A, B) => EITHER;
    step!(
        OrE, or!(A, B) => or!(FACT, OTHER);
        step!(Trans, A => or!(FACT, OTHER); gap!(A => FACT); step!(OrL, FACT => or!(FACT, OTHER)));
        step!(Trans, B => or!(FACT, OTHER); gap!(B => OTHER); step!(OrR, OTHER => or!(FACT, OTHER)))
    );
    step!(OrPure, or!(FACT, OTHER) => EITHER)
);

/// From A ⊢ ⌜φ⌝: □ A ⊢ ⌜φ⌝.
static PERS: Scheme = step!(
    Trans, pers!(A) => FACT;
    step!(PersElim, pers!(A) => A);
    gap!(A => FACT)
);

/// From A ⊢ ⌜φ⌝: |==> A ⊢ ⌜φ⌝.
static UPD: Scheme = step!(
    Trans, upd!(A) => FACT;
    step!(UpdMono, upd!(A) => upd!(FACT); gap!(A => FACT));
    step!(UpdPure, upd!(FACT) => FACT)
);

/// The entry of `f ⊢ ⌜p⌝`: of a pure formula, of separating conjunctions, conjunctions and disjunctions of what has one, and
/// of what has one under persistence and update modalities. `None` exactly where there is none. The error is want of memory.
pub fn into_pure(alloc: Global, vars: u32, f: &Formula) -> Result<Option<OnePure>, Memory>
    ensures { IfOk result (λ r. IntoPureAnswer vars f.now r) }
{
    match f {
        Formula::Pure(fact) => {
            let entry = whole_pure(alloc, vars, fact)?;
            Ok(Some(entry))
        }
        Formula::Sep(a, b) => {
            let Some(x) = into_pure(alloc, vars, a.get())? else {
                return Ok(None);
            };
            let Some(y) = into_pure(alloc, vars, b.get())? else {
                return Ok(None);
            };
            let entry = of_star(alloc, vars, a.get(), b.get(), x, y)?;
            Ok(Some(entry))
        }
        Formula::And(a, b) => {
            let Some(x) = into_pure(alloc, vars, a.get())? else {
                return Ok(None);
            };
            let Some(y) = into_pure(alloc, vars, b.get())? else {
                return Ok(None);
            };
            let entry = of_conjunction(alloc, vars, a.get(), b.get(), x, y)?;
            Ok(Some(entry))
        }
        Formula::Or(a, b) => {
            let Some(x) = into_pure(alloc, vars, a.get())? else {
                return Ok(None);
            };
            let Some(y) = into_pure(alloc, vars, b.get())? else {
                return Ok(None);
            };
            let entry = of_disjunction(alloc, vars, a.get(), b.get(), x, y)?;
            Ok(Some(entry))
        }
        Formula::Pers(a) => {
            let Some(entry) = into_pure(alloc, vars, a.get())? else {
                return Ok(None);
            };
            let entry = of_persistent(alloc, vars, a.get(), entry)?;
            Ok(Some(entry))
        }
        Formula::Upd(a) => {
            let Some(entry) = into_pure(alloc, vars, a.get())? else {
                return Ok(None);
            };
            let entry = of_update(alloc, vars, a.get(), entry)?;
            Ok(Some(entry))
        }
        _ => Ok(None),
    }
}

/// The entry of a separating conjunction.
#[tactic(auto, unfolding(pm_schemes::specs::Tests::passes, pm_schemes::specs::Tests::fits_row))]
fn of_star(
    alloc: Global,
    vars: u32,
    a: &Formula,
    b: &Formula,
    x: OnePure,
    y: OnePure,
) -> Result<OnePure, Memory>
    requires first { conclusion x.proof ≡ entail vars a.now (Fact x.pure) }
    requires second { conclusion y.proof ≡ entail vars b.now (Fact y.pure) }
    ensures pure { IfOk result (λ r. r.pure ≡ pure.And x.pure y.pure) }
    ensures proof { IfOk result (λ r. ClosesBoth x.proof y.proof (entail vars (view.Sep a.now b.now) (Fact (pure.And x.pure y.pure))) 9 (deepest (a.now ∷ b.now ∷ []) (x.pure ∷ y.pure ∷ []) + 2) vars r.proof) }
{
    let OnePure {
        pure: p,
        proof: first,
    } = x;
    let OnePure {
        pure: q,
        proof: second,
    } = y;
    let letters = Letters {
        formulas: &[a, b],
        pures: &[&p, &q],
    };
    let proof = close_both(alloc, vars, &SEP, letters, first, second)?;
    let pure = pm_logic::pure_and(alloc, p, q)?;
    Ok(OnePure { pure, proof })
}

/// The entry of a conjunction.
#[tactic(auto, unfolding(pm_schemes::specs::Tests::passes, pm_schemes::specs::Tests::fits_row))]
fn of_conjunction(
    alloc: Global,
    vars: u32,
    a: &Formula,
    b: &Formula,
    x: OnePure,
    y: OnePure,
) -> Result<OnePure, Memory>
    requires first { conclusion x.proof ≡ entail vars a.now (Fact x.pure) }
    requires second { conclusion y.proof ≡ entail vars b.now (Fact y.pure) }
    ensures pure { IfOk result (λ r. r.pure ≡ pure.And x.pure y.pure) }
    ensures proof { IfOk result (λ r. ClosesBoth x.proof y.proof (entail vars (view.And a.now b.now) (Fact (pure.And x.pure y.pure))) 7 (deepest (a.now ∷ b.now ∷ []) (x.pure ∷ y.pure ∷ []) + 2) vars r.proof) }
{
    let OnePure {
        pure: p,
        proof: first,
    } = x;
    let OnePure {
        pure: q,
        proof: second,
    } = y;
    let letters = Letters {
        formulas: &[a, b],
        pures: &[&p, &q],
    };
    let proof = close_both(alloc, vars, &AND, letters, first, second)?;
    let pure = pm_logic::pure_and(alloc, p, q)?;
    Ok(OnePure { pure, proof })
}

/// The entry of a disjunction.
#[tactic(auto, unfolding(pm_schemes::specs::Tests::passes, pm_schemes::specs::Tests::fits_row))]
fn of_disjunction(
    alloc: Global,
    vars: u32,
    a: &Formula,
    b: &Formula,
    x: OnePure,
    y: OnePure,
) -> Result<OnePure, Memory>
    requires first { conclusion x.proof ≡ entail vars a.now (Fact x.pure) }
    requires second { conclusion y.proof ≡ entail vars b.now (Fact y.pure) }
    ensures pure { IfOk result (λ r. r.pure ≡ pure.Or x.pure y.pure) }
    ensures proof { IfOk result (λ r. ClosesBoth x.proof y.proof (entail vars (view.Or a.now b.now) (Fact (pure.Or x.pure y.pure))) 7 (deepest (a.now ∷ b.now ∷ []) (x.pure ∷ y.pure ∷ []) + 2) vars r.proof) }
{
    let OnePure {
        pure: p,
        proof: first,
    } = x;
    let OnePure {
        pure: q,
        proof: second,
    } = y;
    let letters = Letters {
        formulas: &[a, b],
        pures: &[&p, &q],
    };
    let proof = close_both(alloc, vars, &OR, letters, first, second)?;
    let pure = pm_logic::pure_or(alloc, p, q)?;
    Ok(OnePure { pure, proof })
}

/// The same entry, under a persistence modality.
#[tactic(auto, unfolding(pm_schemes::specs::Tests::passes, pm_schemes::specs::Tests::fits_row))]
fn of_persistent(alloc: Global, vars: u32, a: &Formula, entry: OnePure) -> Result<OnePure, Memory>
    requires { conclusion entry.proof ≡ entail vars a.now (Fact entry.pure) }
    ensures pure { IfOk result (λ r. r.pure ≡ entry.pure) }
    ensures proof { IfOk result (λ r. Closes entry.proof (entail vars (view.Pers a.now) (Fact entry.pure)) 2 (deepest (a.now ∷ []) (entry.pure ∷ []) + 1) vars r.proof) }
{
    let OnePure { pure, proof } = entry;
    let letters = Letters {
        formulas: &[a],
        pures: &[&pure],
    };
    let proof = close(alloc, vars, &PERS, letters, proof)?;
    Ok(OnePure { pure, proof })
}

/// The same entry, under an update modality.
#[tactic(auto, unfolding(pm_schemes::specs::Tests::passes, pm_schemes::specs::Tests::fits_row))]
fn of_update(alloc: Global, vars: u32, a: &Formula, entry: OnePure) -> Result<OnePure, Memory>
    requires { conclusion entry.proof ≡ entail vars a.now (Fact entry.pure) }
    ensures pure { IfOk result (λ r. r.pure ≡ entry.pure) }
    ensures proof { IfOk result (λ r. Closes entry.proof (entail vars (view.Upd a.now) (Fact entry.pure)) 3 (deepest (a.now ∷ []) (entry.pure ∷ []) + 2) vars r.proof) }
{
    let OnePure { pure, proof } = entry;
    let letters = Letters {
        formulas: &[a],
        pures: &[&pure],
    };
    let proof = close(alloc, vars, &UPD, letters, proof)?;
    Ok(OnePure { pure, proof })
}
