//! Derived rules of application: from a context `L ∗ □ S`, of which the shared part may be used again, beside what is applied.

ghost use Rattle.std.specs.Prelude.{◌≡◌, ◌+◌, [], ◌∷◌, IfOk};
ghost use Rattle.pm_logic.specs.declared.formula.Formula.TheViews as view;
ghost use Rattle.pm_goal.specs.Left.{of_kind};
ghost use Rattle.pm_proof.specs.Trees.{entail};
ghost use Rattle.pm_proof.specs.Known.{Proves, Every};
ghost use Rattle.pm_schemes.specs.Sketches.{deepest};
ghost use Rattle.pm_apply.specs.Reaching.{ground};

use pm_goal::Kind;
use pm_logic::{Formula, Memory};
use pm_proof::Proof;
use pm_schemes::{Letters, Pattern, Scheme, and, derive, gap, pers, sep, step, wand};
use std::alloc::Global;

const L: Pattern = Pattern::Letter(0);

const S: Pattern = Pattern::Letter(1);

const R: Pattern = Pattern::Letter(2);

const C: Pattern = Pattern::Letter(3);

const P: Pattern = Pattern::Letter(4);

const Q: Pattern = Pattern::Letter(5);

const CONTEXT: Pattern = sep!(L, pers!(S));

/// (L ∗ □ S) ∗ R ⊢ R
static AT_ONCE: Scheme = step!(
    Trans, sep!(CONTEXT, R) => R;
    step!(SepComm, sep!(CONTEXT, R) => sep!(R, CONTEXT));
    step!(SepWeaken, sep!(R, CONTEXT) => R)
);

/// From L ⊢ P and R ⊢ P -∗ C: (L ∗ □ S) ∗ R ⊢ C.
static LAST: Scheme = step!(
    Trans, sep!(CONTEXT, R) => C;
    step!(
        SepMono, sep!(CONTEXT, R) => sep!(P, R);
        step!(
            Trans, CONTEXT => P;
            step!(SepWeaken, CONTEXT => L);
            gap!(L => P)
        );
        step!(Refl, R => R)
    );
    step!(
        Trans, sep!(P, R) => C;
        step!(SepComm, sep!(P, R) => sep!(R, P));
        step!(WandE, sep!(R, P) => C; gap!(R => wand!(P, C)))
    )
);

/// From S ⊢ P: L ∗ □ S ⊢ (L ∗ □ S) ∗ P.
const GIVEN: Scheme = step!(
    Trans, CONTEXT => sep!(CONTEXT, P);
    step!(
        SepMono, CONTEXT => sep!(L, sep!(pers!(S), P));
        step!(Refl, L => L);
        step!(
            Trans, pers!(S) => sep!(pers!(S), P);
            step!(
                AndI, pers!(S) => and!(pers!(S), P);
                step!(Refl, pers!(S) => pers!(S));
                step!(
                    Trans, pers!(S) => P;
                    step!(PersElim, pers!(S) => S);
                    gap!(S => P)
                )
            );
            step!(PersDup, and!(pers!(S), P) => sep!(pers!(S), P))
        )
    );
    step!(SepAssocL, sep!(L, sep!(pers!(S), P)) => sep!(CONTEXT, P))
);

/// From R ⊢ P -∗ Q: ((L ∗ □ S) ∗ P) ∗ R ⊢ (L ∗ □ S) ∗ Q.
const APPLIED: Scheme = step!(
    Trans, sep!(sep!(CONTEXT, P), R) => sep!(CONTEXT, Q);
    step!(SepAssocR, sep!(sep!(CONTEXT, P), R) => sep!(CONTEXT, sep!(P, R)));
    step!(
        SepMono, sep!(CONTEXT, sep!(P, R)) => sep!(CONTEXT, Q);
        step!(Refl, CONTEXT => CONTEXT);
        step!(
            Trans, sep!(P, R) => Q;
            step!(SepComm, sep!(P, R) => sep!(R, P));
            step!(WandE, sep!(R, P) => Q; gap!(R => wand!(P, Q)))
        )
    )
);

/// From S ⊢ P, R ⊢ P -∗ Q and (L ∗ □ S) ∗ Q ⊢ C: (L ∗ □ S) ∗ R ⊢ C.
static MORE: Scheme = step!(
    Trans, sep!(CONTEXT, R) => C;
    step!(
        Trans, sep!(CONTEXT, R) => sep!(CONTEXT, Q);
        step!(
            SepMono, sep!(CONTEXT, R) => sep!(sep!(CONTEXT, P), R);
            GIVEN;
            step!(Refl, R => R)
        );
        APPLIED
    );
    gap!(sep!(CONTEXT, Q) => C)
);

/// From L ⊢ □ S: L ⊢ L ∗ □ S.
const SHARED: Scheme = step!(
    Trans, L => CONTEXT;
    step!(
        AndI, L => and!(pers!(S), L);
        gap!(L => pers!(S));
        step!(Refl, L => L)
    );
    step!(
        Trans, and!(pers!(S), L) => CONTEXT;
        step!(PersDup, and!(pers!(S), L) => sep!(pers!(S), L));
        step!(SepComm, sep!(pers!(S), L) => CONTEXT)
    )
);

/// From L ⊢ □ S and (L ∗ □ S) ∗ R ⊢ C: R ∗ L ⊢ C.
static SPAT: Scheme = step!(
    Trans, sep!(R, L) => C;
    step!(
        Trans, sep!(R, L) => sep!(CONTEXT, R);
        step!(SepComm, sep!(R, L) => sep!(L, R));
        step!(
            SepMono, sep!(L, R) => sep!(CONTEXT, R);
            SHARED;
            step!(Refl, R => R)
        )
    );
    gap!(sep!(CONTEXT, R) => C)
);

/// From L ⊢ □ S and (L ∗ □ S) ∗ R ⊢ C: □ R ∗ L ⊢ C.
static INT: Scheme = step!(
    Trans, sep!(pers!(R), L) => C;
    step!(
        Trans, sep!(pers!(R), L) => sep!(CONTEXT, R);
        step!(SepComm, sep!(pers!(R), L) => sep!(L, pers!(R)));
        step!(
            SepMono, sep!(L, pers!(R)) => sep!(CONTEXT, R);
            SHARED;
            step!(PersElim, pers!(R) => R)
        )
    );
    gap!(sep!(CONTEXT, R) => C)
);

/// `(L ∗ □ S) ∗ R ⊢ R`
#[tactic(auto, unfolding(pm_schemes::specs::Tests::passes, pm_schemes::specs::Tests::fits_row))]
pub fn at_once(
    alloc: Global,
    vars: u32,
    l: &Formula,
    s: &Formula,
    r: &Formula,
) -> Result<Proof, Memory>
    ensures { IfOk result (λ p. Proves Every (entail vars (ground l.now s.now r.now) r.now) [] 3 (deepest (l.now ∷ s.now ∷ r.now ∷ []) [] + 3) vars p) }
{
    let letters = Letters {
        formulas: &[l, s, r],
        pures: &[],
    };
    let proof = derive(alloc, vars, &AT_ONCE, letters)?;
    Ok(proof)
}

/// From `L ⊢ P` and `R ⊢ P -∗ C`, which are its holes: `(L ∗ □ S) ∗ R ⊢ C`.
#[tactic(auto, unfolding(pm_schemes::specs::Tests::passes, pm_schemes::specs::Tests::fits_row))]
pub fn last_step(
    alloc: Global,
    vars: u32,
    l: &Formula,
    s: &Formula,
    r: &Formula,
    p: &Formula,
    c: &Formula,
) -> Result<Proof, Memory>
    ensures { IfOk result (λ t. Proves Every (entail vars (ground l.now s.now r.now) c.now) (entail vars l.now p.now ∷ entail vars r.now (view.Wand p.now c.now) ∷ []) 8 (deepest (l.now ∷ s.now ∷ r.now ∷ c.now ∷ p.now ∷ []) [] + 3) vars t) }
{
    let letters = Letters {
        formulas: &[l, s, r, c, p],
        pures: &[],
    };
    let proof = derive(alloc, vars, &LAST, letters)?;
    Ok(proof)
}

/// From `S ⊢ P`, `R ⊢ P -∗ Q` and `(L ∗ □ S) ∗ Q ⊢ C`, which are its holes: `(L ∗ □ S) ∗ R ⊢ C`.
#[tactic(auto, unfolding(pm_schemes::specs::Tests::passes, pm_schemes::specs::Tests::fits_row))]
pub fn more_step(
    alloc: Global,
    vars: u32,
    l: &Formula,
    s: &Formula,
    r: &Formula,
    p: &Formula,
    q: &Formula,
    c: &Formula,
) -> Result<Proof, Memory>
    ensures { IfOk result (λ t. Proves Every (entail vars (ground l.now s.now r.now) c.now) (entail vars s.now p.now ∷ entail vars r.now (view.Wand p.now q.now) ∷ entail vars (ground l.now s.now q.now) c.now ∷ []) 21 (deepest (l.now ∷ s.now ∷ r.now ∷ c.now ∷ p.now ∷ q.now ∷ []) [] + 4) vars t) }
{
    let letters = Letters {
        formulas: &[l, s, r, c, p, q],
        pures: &[],
    };
    let proof = derive(alloc, vars, &MORE, letters)?;
    Ok(proof)
}

#[tactic(auto, unfolding(pm_schemes::specs::Tests::passes, pm_schemes::specs::Tests::fits_row))]
fn in_context_spat(
    alloc: Global,
    vars: u32,
    l: &Formula,
    s: &Formula,
    r: &Formula,
    c: &Formula,
) -> Result<Proof, Memory>
    ensures { IfOk result (λ t. Proves Every (entail vars (view.Sep r.now l.now) c.now) (entail vars l.now (view.Pers s.now) ∷ entail vars (ground l.now s.now r.now) c.now ∷ []) 11 (deepest (l.now ∷ s.now ∷ r.now ∷ c.now ∷ []) [] + 3) vars t) }
{
    let letters = Letters {
        formulas: &[l, s, r, c],
        pures: &[],
    };
    let proof = derive(alloc, vars, &SPAT, letters)?;
    Ok(proof)
}

#[tactic(auto, unfolding(pm_schemes::specs::Tests::passes, pm_schemes::specs::Tests::fits_row))]
fn in_context_int(
    alloc: Global,
    vars: u32,
    l: &Formula,
    s: &Formula,
    r: &Formula,
    c: &Formula,
) -> Result<Proof, Memory>
    ensures { IfOk result (λ t. Proves Every (entail vars (view.Sep (view.Pers r.now) l.now) c.now) (entail vars l.now (view.Pers s.now) ∷ entail vars (ground l.now s.now r.now) c.now ∷ []) 11 (deepest (l.now ∷ s.now ∷ r.now ∷ c.now ∷ []) [] + 3) vars t) }
{
    let letters = Letters {
        formulas: &[l, s, r, c],
        pures: &[],
    };
    let proof = derive(alloc, vars, &INT, letters)?;
    Ok(proof)
}

/// From `L ⊢ □ S` and `(L ∗ □ S) ∗ R ⊢ C`, which are its holes: `R ∗ L ⊢ C`, where `R` stands as its kind does.
pub fn in_context(
    alloc: Global,
    vars: u32,
    kind: Kind,
    l: &Formula,
    s: &Formula,
    r: &Formula,
    c: &Formula,
) -> Result<Proof, Memory>
    ensures { IfOk result (λ t. Proves Every (entail vars (view.Sep (of_kind kind r.now) l.now) c.now) (entail vars l.now (view.Pers s.now) ∷ entail vars (ground l.now s.now r.now) c.now ∷ []) 11 (deepest (l.now ∷ s.now ∷ r.now ∷ c.now ∷ []) [] + 3) vars t) }
{
    match kind {
        Kind::Int => in_context_int(alloc, vars, l, s, r, c),
        Kind::Spat => in_context_spat(alloc, vars, l, s, r, c),
    }
}
