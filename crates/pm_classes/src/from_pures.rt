//! Formulas that pure ones entail.

ghost use Rattle.std.specs.Prelude.{◌≡◌, ◌+◌, [], ◌∷◌, IfOk};
ghost use Rattle.pm_logic.specs.declared.formula.Formula.TheVariants.{Pure as Fact};
ghost use Rattle.pm_logic.specs.declared.formula.Formula.TheViews as view;
ghost use Rattle.pm_logic.specs.declared.formula.Pure.TheViews as pure;
ghost use Rattle.pm_proof.specs.Trees.{entail, conclusion};
ghost use Rattle.pm_schemes.specs.Sketches.{deepest};
ghost use Rattle.pm_classes.specs.Closing.{Closes, ClosesBoth};
ghost use Rattle.pm_classes.specs.Entries.{FromPureAnswer};

use crate::closing::{close, close_both, whole_pure};
use crate::entry::OnePure;
use pm_logic::{Formula, Memory};
use pm_schemes::{
    Letters, Pattern, PurePattern, Scheme, and, gap, later, or, pers, sep, step, upd,
};
use std::alloc::Global;

const A: Pattern = Pattern::Letter(0);

const B: Pattern = Pattern::Letter(1);

const FACT: Pattern = Pattern::Pure(&PurePattern::Letter(0));

const OTHER: Pattern = Pattern::Pure(&PurePattern::Letter(1));

const BOTH: Pattern = Pattern::Pure(&PurePattern::And(
    &PurePattern::Letter(0),
    &PurePattern::Letter(1),
));

const EITHER: Pattern = Pattern::Pure(&PurePattern::Or(
    &PurePattern::Letter(0),
    &PurePattern::Letter(1),
));

/// ⌜φ⌝ ∧ ⌜ψ⌝ ⊢ □ ⌜φ⌝ ∗ ⌜ψ⌝
const ONE_BOXED: Scheme = step!(
    Trans, and!(FACT, OTHER) => sep!(pers!(FACT), OTHER);
    step!(
        AndI, and!(FACT, OTHER) => and!(pers!(FACT), OTHER);
        step!(
            Trans, and!(FACT, OTHER) => pers!(FACT);
            step!(AndL, and!(FACT, OTHER) => FACT);
            step!(PersPure, FACT => pers!(FACT))
        );
        step!(AndR, and!(FACT, OTHER) => OTHER)
    );
    step!(PersDup, and!(pers!(FACT), OTHER) => sep!(pers!(FACT), OTHER))
);

/// From ⌜φ⌝ ⊢ A and ⌜ψ⌝ ⊢ B: ⌜φ ∧ ψ⌝ ⊢ A ∗ B.
static SEP: Scheme = step!(
    Trans, BOTH => sep!(A, B);
    step!(PureAnd, BOTH => and!(FACT, OTHER));
    step!(
        Trans, and!(FACT, OTHER) => sep!(A, B);
        ONE_BOXED;
        step!(
            SepMono, sep!(pers!(FACT), OTHER) => sep!(A, B);
            step!(Trans, pers!(FACT) => A; step!(PersElim, pers!(FACT) => FACT); gap!(FACT => A));
            gap!(OTHER => B)
        )
    )
);

/// From ⌜φ⌝ ⊢ A and ⌜ψ⌝ ⊢ B: ⌜φ ∧ ψ⌝ ⊢ A ∧ B.
static AND: Scheme = step!(
    Trans, BOTH => and!(A, B);
    step!(PureAnd, BOTH => and!(FACT, OTHER));
    step!(
        AndI, and!(FACT, OTHER) => and!(A, B);
        step!(Trans, and!(FACT, OTHER) => A; step!(AndL, and!(FACT, OTHER) => FACT); gap!(FACT => A));
        step!(Trans, and!(FACT, OTHER) => B; step!(AndR, and!(FACT, OTHER) => OTHER); gap!(OTHER => B))
    )
);

/// From ⌜φ⌝ ⊢ A and ⌜ψ⌝ ⊢ B: ⌜φ ∨ ψ⌝ ⊢ A ∨ B.
static OR: Scheme = step!(
    Trans, EITHER => or!(A, B);
    step!(PureOr, EITHER => or!(FACT, OTHER));
    step!(
        OrE, or!(FACT, OTHER) => or!(A, B);
        step!(Trans, FACT => or!(A, B); gap!(FACT => A); step!(OrL, A => or!(A, B)));
        step!(Trans, OTHER => or!(A, B); gap!(OTHER => B); step!(OrR, B => or!(A, B)))
    )
);

/// From ⌜φ⌝ ⊢ A: ⌜φ⌝ ⊢ □ A.
static PERS: Scheme = step!(
    Trans, FACT => pers!(A);
    step!(PersPure, FACT => pers!(FACT));
    step!(PersMono, pers!(FACT) => pers!(A); gap!(FACT => A))
);

/// From ⌜φ⌝ ⊢ A: ⌜φ⌝ ⊢ ▷ A.
static LATER: Scheme = step!(
    Trans, FACT => later!(A);
    gap!(FACT => A);
    step!(LaterIntro, A => later!(A))
);

/// From ⌜φ⌝ ⊢ A: ⌜φ⌝ ⊢ |==> A.
static UPD: Scheme = step!(
    Trans, FACT => upd!(A);
    gap!(FACT => A);
    step!(UpdIntro, A => upd!(A))
);

/// The entry of `⌜p⌝ ⊢ f`: of a pure formula, of separating conjunctions, conjunctions and disjunctions of what has one, and
/// of what has one under persistence, later and update modalities. `None` exactly where there is none. The error is want of
/// memory.
pub fn from_pure(alloc: Global, vars: u32, f: &Formula) -> Result<Option<OnePure>, Memory>
    ensures { IfOk result (λ r. FromPureAnswer vars f.now r) }
{
    match f {
        Formula::Pure(fact) => {
            let entry = whole_pure(alloc, vars, fact)?;
            Ok(Some(entry))
        }
        Formula::Sep(a, b) => {
            let Some(x) = from_pure(alloc, vars, a.get())? else {
                return Ok(None);
            };
            let Some(y) = from_pure(alloc, vars, b.get())? else {
                return Ok(None);
            };
            let entry = to_star(alloc, vars, a.get(), b.get(), x, y)?;
            Ok(Some(entry))
        }
        Formula::And(a, b) => {
            let Some(x) = from_pure(alloc, vars, a.get())? else {
                return Ok(None);
            };
            let Some(y) = from_pure(alloc, vars, b.get())? else {
                return Ok(None);
            };
            let entry = to_conjunction(alloc, vars, a.get(), b.get(), x, y)?;
            Ok(Some(entry))
        }
        Formula::Or(a, b) => {
            let Some(x) = from_pure(alloc, vars, a.get())? else {
                return Ok(None);
            };
            let Some(y) = from_pure(alloc, vars, b.get())? else {
                return Ok(None);
            };
            let entry = to_disjunction(alloc, vars, a.get(), b.get(), x, y)?;
            Ok(Some(entry))
        }
        Formula::Pers(a) => {
            let Some(entry) = from_pure(alloc, vars, a.get())? else {
                return Ok(None);
            };
            let entry = to_persistent(alloc, vars, a.get(), entry)?;
            Ok(Some(entry))
        }
        Formula::Later(a) => {
            let Some(entry) = from_pure(alloc, vars, a.get())? else {
                return Ok(None);
            };
            let entry = to_later(alloc, vars, a.get(), entry)?;
            Ok(Some(entry))
        }
        Formula::Upd(a) => {
            let Some(entry) = from_pure(alloc, vars, a.get())? else {
                return Ok(None);
            };
            let entry = to_update(alloc, vars, a.get(), entry)?;
            Ok(Some(entry))
        }
        _ => Ok(None),
    }
}

/// The entry of a separating conjunction.
#[tactic(auto, unfolding(pm_schemes::specs::Tests::passes, pm_schemes::specs::Tests::fits_row))]
fn to_star(
    alloc: Global,
    vars: u32,
    a: &Formula,
    b: &Formula,
    x: OnePure,
    y: OnePure,
) -> Result<OnePure, Memory>
    requires first { conclusion x.proof ≡ entail vars (Fact x.pure) a.now }
    requires second { conclusion y.proof ≡ entail vars (Fact y.pure) b.now }
    ensures pure { IfOk result (λ r. r.pure ≡ pure.And x.pure y.pure) }
    ensures proof { IfOk result (λ r. ClosesBoth x.proof y.proof (entail vars (Fact (pure.And x.pure y.pure)) (view.Sep a.now b.now)) 13 (deepest (a.now ∷ b.now ∷ []) (x.pure ∷ y.pure ∷ []) + 3) vars r.proof) }
{
    let OnePure {
        pure: p,
        proof: first,
    } = x;
    let OnePure {
        pure: q,
        proof: second,
    } = y;
    let letters = Letters {
        formulas: &[a, b],
        pures: &[&p, &q],
    };
    let proof = close_both(alloc, vars, &SEP, letters, first, second)?;
    let pure = pm_logic::pure_and(alloc, p, q)?;
    Ok(OnePure { pure, proof })
}

/// The entry of a conjunction.
#[tactic(auto, unfolding(pm_schemes::specs::Tests::passes, pm_schemes::specs::Tests::fits_row))]
fn to_conjunction(
    alloc: Global,
    vars: u32,
    a: &Formula,
    b: &Formula,
    x: OnePure,
    y: OnePure,
) -> Result<OnePure, Memory>
    requires first { conclusion x.proof ≡ entail vars (Fact x.pure) a.now }
    requires second { conclusion y.proof ≡ entail vars (Fact y.pure) b.now }
    ensures pure { IfOk result (λ r. r.pure ≡ pure.And x.pure y.pure) }
    ensures proof { IfOk result (λ r. ClosesBoth x.proof y.proof (entail vars (Fact (pure.And x.pure y.pure)) (view.And a.now b.now)) 7 (deepest (a.now ∷ b.now ∷ []) (x.pure ∷ y.pure ∷ []) + 2) vars r.proof) }
{
    let OnePure {
        pure: p,
        proof: first,
    } = x;
    let OnePure {
        pure: q,
        proof: second,
    } = y;
    let letters = Letters {
        formulas: &[a, b],
        pures: &[&p, &q],
    };
    let proof = close_both(alloc, vars, &AND, letters, first, second)?;
    let pure = pm_logic::pure_and(alloc, p, q)?;
    Ok(OnePure { pure, proof })
}

/// The entry of a disjunction.
#[tactic(auto, unfolding(pm_schemes::specs::Tests::passes, pm_schemes::specs::Tests::fits_row))]
fn to_disjunction(
    alloc: Global,
    vars: u32,
    a: &Formula,
    b: &Formula,
    x: OnePure,
    y: OnePure,
) -> Result<OnePure, Memory>
    requires first { conclusion x.proof ≡ entail vars (Fact x.pure) a.now }
    requires second { conclusion y.proof ≡ entail vars (Fact y.pure) b.now }
    ensures pure { IfOk result (λ r. r.pure ≡ pure.Or x.pure y.pure) }
    ensures proof { IfOk result (λ r. ClosesBoth x.proof y.proof (entail vars (Fact (pure.Or x.pure y.pure)) (view.Or a.now b.now)) 7 (deepest (a.now ∷ b.now ∷ []) (x.pure ∷ y.pure ∷ []) + 2) vars r.proof) }
{
    let OnePure {
        pure: p,
        proof: first,
    } = x;
    let OnePure {
        pure: q,
        proof: second,
    } = y;
    let letters = Letters {
        formulas: &[a, b],
        pures: &[&p, &q],
    };
    let proof = close_both(alloc, vars, &OR, letters, first, second)?;
    let pure = pm_logic::pure_or(alloc, p, q)?;
    Ok(OnePure { pure, proof })
}

/// The same entry, under a persistence modality.
#[tactic(auto, unfolding(pm_schemes::specs::Tests::passes, pm_schemes::specs::Tests::fits_row))]
fn to_persistent(alloc: Global, vars: u32, a: &Formula, entry: OnePure) -> Result<OnePure, Memory>
    requires { conclusion entry.proof ≡ entail vars (Fact entry.pure) a.now }
    ensures pure { IfOk result (λ r. r.pure ≡ entry.pure) }
    ensures proof { IfOk result (λ r. Closes entry.proof (entail vars (Fact entry.pure) (view.Pers a.now)) 3 (deepest (a.now ∷ []) (entry.pure ∷ []) + 2) vars r.proof) }
{
    let OnePure { pure, proof } = entry;
    let letters = Letters {
        formulas: &[a],
        pures: &[&pure],
    };
    let proof = close(alloc, vars, &PERS, letters, proof)?;
    Ok(OnePure { pure, proof })
}

/// The same entry, one step later.
#[tactic(auto, unfolding(pm_schemes::specs::Tests::passes, pm_schemes::specs::Tests::fits_row))]
fn to_later(alloc: Global, vars: u32, a: &Formula, entry: OnePure) -> Result<OnePure, Memory>
    requires { conclusion entry.proof ≡ entail vars (Fact entry.pure) a.now }
    ensures pure { IfOk result (λ r. r.pure ≡ entry.pure) }
    ensures proof { IfOk result (λ r. Closes entry.proof (entail vars (Fact entry.pure) (view.Later a.now)) 2 (deepest (a.now ∷ []) (entry.pure ∷ []) + 1) vars r.proof) }
{
    let OnePure { pure, proof } = entry;
    let letters = Letters {
        formulas: &[a],
        pures: &[&pure],
    };
    let proof = close(alloc, vars, &LATER, letters, proof)?;
    Ok(OnePure { pure, proof })
}

/// The same entry, under an update modality.
#[tactic(auto, unfolding(pm_schemes::specs::Tests::passes, pm_schemes::specs::Tests::fits_row))]
fn to_update(alloc: Global, vars: u32, a: &Formula, entry: OnePure) -> Result<OnePure, Memory>
    requires { conclusion entry.proof ≡ entail vars (Fact entry.pure) a.now }
    ensures pure { IfOk result (λ r. r.pure ≡ entry.pure) }
    ensures proof { IfOk result (λ r. Closes entry.proof (entail vars (Fact entry.pure) (view.Upd a.now)) 2 (deepest (a.now ∷ []) (entry.pure ∷ []) + 1) vars r.proof) }
{
    let OnePure { pure, proof } = entry;
    let letters = Letters {
        formulas: &[a],
        pures: &[&pure],
    };
    let proof = close(alloc, vars, &UPD, letters, proof)?;
    Ok(OnePure { pure, proof })
}
