//! What stands under a persistence modality, split into two.

ghost use Rattle.std.specs.Prelude.{◌≡◌, ◌+◌, [], ◌∷◌, IfOk};
ghost use Rattle.pm_logic.specs.declared.formula.Formula.TheVariants.{Pure as Fact};
ghost use Rattle.pm_logic.specs.declared.formula.Formula.TheViews as view;
ghost use Rattle.pm_logic.specs.declared.formula.Pure.TheViews as pure;
ghost use Rattle.pm_proof.specs.Trees.{entail, conclusion};
ghost use Rattle.pm_proof.specs.Known.{Proves, Every};
ghost use Rattle.pm_schemes.specs.Sketches.{deepest};
ghost use Rattle.pm_classes.specs.Closing.{Closes};
ghost use Rattle.pm_classes.specs.Entries.{AndAnswer};

use crate::closing::close;
use crate::entry::Pair;
use pm_logic::{Formula, Memory, Pure, copy, copy_pure};
use pm_schemes::{Letters, Pattern, PurePattern, Scheme, and, derive, gap, later, pers, sep, step};
use std::alloc::Global;

const A: Pattern = Pattern::Letter(0);

const B: Pattern = Pattern::Letter(1);

const X: Pattern = Pattern::Letter(1);

const Y: Pattern = Pattern::Letter(2);

const FACT: Pattern = Pattern::Pure(&PurePattern::Letter(0));

const OTHER: Pattern = Pattern::Pure(&PurePattern::Letter(1));

const FACTS: Pattern = Pattern::Pure(&PurePattern::And(
    &PurePattern::Letter(0),
    &PurePattern::Letter(1),
));

/// □ (A ∗ B) ⊢ □ A ∗ □ B
static SEP: Scheme = step!(
    Trans, pers!(sep!(A, B)) => sep!(pers!(A), pers!(B));
    step!(
        AndI, pers!(sep!(A, B)) => and!(pers!(A), pers!(B));
        step!(
            PersMono, pers!(sep!(A, B)) => pers!(A);
            step!(SepWeaken, sep!(A, B) => A)
        );
        step!(
            PersMono, pers!(sep!(A, B)) => pers!(B);
            step!(
                Trans, sep!(A, B) => B;
                step!(SepComm, sep!(A, B) => sep!(B, A));
                step!(SepWeaken, sep!(B, A) => B)
            )
        )
    );
    step!(PersDup, and!(pers!(A), pers!(B)) => sep!(pers!(A), pers!(B)))
);

/// □ (A ∧ B) ⊢ □ A ∗ □ B
static AND: Scheme = step!(
    Trans, pers!(and!(A, B)) => sep!(pers!(A), pers!(B));
    step!(
        AndI, pers!(and!(A, B)) => and!(pers!(A), pers!(B));
        step!(
            PersMono, pers!(and!(A, B)) => pers!(A);
            step!(AndL, and!(A, B) => A)
        );
        step!(
            PersMono, pers!(and!(A, B)) => pers!(B);
            step!(AndR, and!(A, B) => B)
        )
    );
    step!(PersDup, and!(pers!(A), pers!(B)) => sep!(pers!(A), pers!(B)))
);

/// □ (⌜φ⌝ ∧ ⌜ψ⌝) ⊢ □ ⌜φ⌝ ∗ □ ⌜ψ⌝
const TWO_FACTS: Scheme = step!(
    Trans, pers!(and!(FACT, OTHER)) => sep!(pers!(FACT), pers!(OTHER));
    step!(
        AndI, pers!(and!(FACT, OTHER)) => and!(pers!(FACT), pers!(OTHER));
        step!(
            PersMono, pers!(and!(FACT, OTHER)) => pers!(FACT);
            step!(AndL, and!(FACT, OTHER) => FACT)
        );
        step!(
            PersMono, pers!(and!(FACT, OTHER)) => pers!(OTHER);
            step!(AndR, and!(FACT, OTHER) => OTHER)
        )
    );
    step!(PersDup, and!(pers!(FACT), pers!(OTHER)) => sep!(pers!(FACT), pers!(OTHER)))
);

/// □ ⌜φ ∧ ψ⌝ ⊢ □ ⌜φ⌝ ∗ □ ⌜ψ⌝
static BOTH_FACTS: Scheme = step!(
    Trans, pers!(FACTS) => sep!(pers!(FACT), pers!(OTHER));
    step!(
        PersMono, pers!(FACTS) => pers!(and!(FACT, OTHER));
        step!(PureAnd, FACTS => and!(FACT, OTHER))
    );
    TWO_FACTS
);

/// From □ A ⊢ □ X ∗ □ Y: □ ▷ A ⊢ □ ▷ X ∗ □ ▷ Y.
static LATER: Scheme = step!(
    Trans, pers!(later!(A)) => sep!(pers!(later!(X)), pers!(later!(Y)));
    step!(PersLater, pers!(later!(A)) => later!(pers!(A)));
    step!(
        Trans, later!(pers!(A)) => sep!(pers!(later!(X)), pers!(later!(Y)));
        step!(
            LaterMono, later!(pers!(A)) => later!(sep!(pers!(X), pers!(Y)));
            gap!(pers!(A) => sep!(pers!(X), pers!(Y)))
        );
        step!(
            Trans, later!(sep!(pers!(X), pers!(Y))) => sep!(pers!(later!(X)), pers!(later!(Y)));
            step!(
                LaterSep,
                later!(sep!(pers!(X), pers!(Y))) => sep!(later!(pers!(X)), later!(pers!(Y)))
            );
            step!(
                SepMono,
                sep!(later!(pers!(X)), later!(pers!(Y))) => sep!(pers!(later!(X)), pers!(later!(Y)));
                step!(LaterPers, later!(pers!(X)) => pers!(later!(X)));
                step!(LaterPers, later!(pers!(Y)) => pers!(later!(Y)))
            )
        )
    )
);

/// From □ A ⊢ □ X ∗ □ Y: □ □ A ⊢ □ □ X ∗ □ □ Y.
static PERS: Scheme = step!(
    Trans, pers!(pers!(A)) => sep!(pers!(pers!(X)), pers!(pers!(Y)));
    step!(PersElim, pers!(pers!(A)) => pers!(A));
    step!(
        Trans, pers!(A) => sep!(pers!(pers!(X)), pers!(pers!(Y)));
        gap!(pers!(A) => sep!(pers!(X), pers!(Y)));
        step!(
            SepMono, sep!(pers!(X), pers!(Y)) => sep!(pers!(pers!(X)), pers!(pers!(Y)));
            step!(PersIdem, pers!(X) => pers!(pers!(X)));
            step!(PersIdem, pers!(Y) => pers!(pers!(Y)))
        )
    )
);

/// The entry of `□ f ⊢ □ a ∗ □ b`: the parts of a separating conjunction, a conjunction or a pure conjunction, or those of
/// what stands under later or persistence modalities, each behind them. `None` exactly where there is none. The error is want
/// of memory.
pub fn into_and(alloc: Global, vars: u32, f: &Formula) -> Result<Option<Pair>, Memory>
    ensures { IfOk result (λ r. AndAnswer vars f.now r) }
{
    match f {
        Formula::Sep(a, b) => {
            let entry = separated(alloc, vars, a.get(), b.get())?;
            Ok(Some(entry))
        }
        Formula::And(a, b) => {
            let entry = conjoined(alloc, vars, a.get(), b.get())?;
            Ok(Some(entry))
        }
        Formula::Pure(fact) => in_fact(alloc, vars, fact),
        Formula::Later(a) => {
            let Some(entry) = into_and(alloc, vars, a.get())? else {
                return Ok(None);
            };
            let entry = under_later(alloc, vars, a.get(), entry)?;
            Ok(Some(entry))
        }
        Formula::Pers(a) => {
            let Some(entry) = into_and(alloc, vars, a.get())? else {
                return Ok(None);
            };
            let entry = under_pers(alloc, vars, a.get(), entry)?;
            Ok(Some(entry))
        }
        _ => Ok(None),
    }
}

/// The entry of a pure formula.
fn in_fact(alloc: Global, vars: u32, fact: &Pure) -> Result<Option<Pair>, Memory>
    ensures { IfOk result (λ r. AndAnswer vars (Fact fact.now) r) }
{
    match fact {
        Pure::And(p, q) => {
            let entry = both_facts(alloc, vars, p.get(), q.get())?;
            Ok(Some(entry))
        }
        _ => Ok(None),
    }
}

#[tactic(auto, unfolding(pm_schemes::specs::Tests::passes, pm_schemes::specs::Tests::fits_row))]
fn separated(alloc: Global, vars: u32, a: &Formula, b: &Formula) -> Result<Pair, Memory>
    ensures first { IfOk result (λ r. r.first ≡ a.now) }
    ensures second { IfOk result (λ r. r.second ≡ b.now) }
    ensures proof { IfOk result (λ r. Proves Every (entail vars (view.Pers (view.Sep a.now b.now)) (view.Sep (view.Pers a.now) (view.Pers b.now))) [] 9 (deepest (a.now ∷ b.now ∷ []) [] + 2) vars r.proof) }
{
    let letters = Letters {
        formulas: &[a, b],
        pures: &[],
    };
    let proof = derive(alloc, vars, &SEP, letters)?;
    let first = copy(alloc, a)?;
    let second = copy(alloc, b)?;
    Ok(Pair {
        first,
        second,
        proof,
    })
}

#[tactic(auto, unfolding(pm_schemes::specs::Tests::passes, pm_schemes::specs::Tests::fits_row))]
fn conjoined(alloc: Global, vars: u32, a: &Formula, b: &Formula) -> Result<Pair, Memory>
    ensures first { IfOk result (λ r. r.first ≡ a.now) }
    ensures second { IfOk result (λ r. r.second ≡ b.now) }
    ensures proof { IfOk result (λ r. Proves Every (entail vars (view.Pers (view.And a.now b.now)) (view.Sep (view.Pers a.now) (view.Pers b.now))) [] 7 (deepest (a.now ∷ b.now ∷ []) [] + 2) vars r.proof) }
{
    let letters = Letters {
        formulas: &[a, b],
        pures: &[],
    };
    let proof = derive(alloc, vars, &AND, letters)?;
    let first = copy(alloc, a)?;
    let second = copy(alloc, b)?;
    Ok(Pair {
        first,
        second,
        proof,
    })
}

#[tactic(auto, unfolding(pm_schemes::specs::Tests::passes, pm_schemes::specs::Tests::fits_row))]
fn both_facts(alloc: Global, vars: u32, p: &Pure, q: &Pure) -> Result<Pair, Memory>
    ensures first { IfOk result (λ r. r.first ≡ Fact p.now) }
    ensures second { IfOk result (λ r. r.second ≡ Fact q.now) }
    ensures proof { IfOk result (λ r. Proves Every (entail vars (view.Pers (Fact (pure.And p.now q.now))) (view.Sep (view.Pers (Fact p.now)) (view.Pers (Fact q.now)))) [] 10 (deepest [] (p.now ∷ q.now ∷ []) + 3) vars r.proof) }
{
    let letters = Letters {
        formulas: &[],
        pures: &[p, q],
    };
    let proof = derive(alloc, vars, &BOTH_FACTS, letters)?;
    let first = Formula::Pure(copy_pure(alloc, p)?);
    let second = Formula::Pure(copy_pure(alloc, q)?);
    Ok(Pair {
        first,
        second,
        proof,
    })
}

/// The entry one step later.
#[tactic(auto, unfolding(pm_schemes::specs::Tests::passes, pm_schemes::specs::Tests::fits_row))]
fn under_later(alloc: Global, vars: u32, a: &Formula, entry: Pair) -> Result<Pair, Memory>
    requires { conclusion entry.proof ≡ entail vars (view.Pers a.now) (view.Sep (view.Pers entry.first) (view.Pers entry.second)) }
    ensures first { IfOk result (λ r. r.first ≡ view.Later entry.first) }
    ensures second { IfOk result (λ r. r.second ≡ view.Later entry.second) }
    ensures proof { IfOk result (λ r. Closes entry.proof (entail vars (view.Pers (view.Later a.now)) (view.Sep (view.Pers (view.Later entry.first)) (view.Pers (view.Later entry.second)))) 9 (deepest (a.now ∷ entry.first ∷ entry.second ∷ []) [] + 3) vars r.proof) }
{
    let Pair {
        first,
        second,
        proof,
    } = entry;
    let letters = Letters {
        formulas: &[a, &first, &second],
        pures: &[],
    };
    let proof = close(alloc, vars, &LATER, letters, proof)?;
    let first = pm_logic::later(alloc, first)?;
    let second = pm_logic::later(alloc, second)?;
    Ok(Pair {
        first,
        second,
        proof,
    })
}

/// The entry under one more persistence modality.
#[tactic(auto, unfolding(pm_schemes::specs::Tests::passes, pm_schemes::specs::Tests::fits_row))]
fn under_pers(alloc: Global, vars: u32, a: &Formula, entry: Pair) -> Result<Pair, Memory>
    requires { conclusion entry.proof ≡ entail vars (view.Pers a.now) (view.Sep (view.Pers entry.first) (view.Pers entry.second)) }
    ensures first { IfOk result (λ r. r.first ≡ view.Pers entry.first) }
    ensures second { IfOk result (λ r. r.second ≡ view.Pers entry.second) }
    ensures proof { IfOk result (λ r. Closes entry.proof (entail vars (view.Pers (view.Pers a.now)) (view.Sep (view.Pers (view.Pers entry.first)) (view.Pers (view.Pers entry.second)))) 6 (deepest (a.now ∷ entry.first ∷ entry.second ∷ []) [] + 3) vars r.proof) }
{
    let Pair {
        first,
        second,
        proof,
    } = entry;
    let letters = Letters {
        formulas: &[a, &first, &second],
        pures: &[],
    };
    let proof = close(alloc, vars, &PERS, letters, proof)?;
    let first = pm_logic::pers(alloc, first)?;
    let second = pm_logic::pers(alloc, second)?;
    Ok(Pair {
        first,
        second,
        proof,
    })
}
