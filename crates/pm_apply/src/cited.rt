//! The derived rule by which a lemma is cited, and the lemma in the variables of a work.

ghost use Rattle.std.specs.Prelude.{◌≡◌, ◌+◌, ◌≤◌, [], ◌∷◌, IfOk};
ghost use Rattle.pm_logic.specs.declared.formula.Formula.TheVariants.{Pure as Assert};
ghost use Rattle.pm_logic.specs.declared.formula.Formula.TheViews as view;
ghost use Rattle.pm_logic.specs.declared.formula.Pure.TheVariants as pure;
ghost use Rattle.pm_logic.specs.declared.formula.TheConstants.{BOUND};
ghost use Rattle.pm_logic.specs.Scope.{ScopedIn};
ghost use Rattle.pm_logic.specs.Size.{depth_of};
ghost use Rattle.pm_proof.specs.Trees.{entail};
ghost use Rattle.pm_proof.specs.Known.{Proves, Every};
ghost use Rattle.pm_schemes.specs.Sketches.{deepest};
ghost use Rattle.pm_apply.specs.Citing.{says};

use pm_logic::{Formula, List, Memory, Pure, copy};
use pm_proof::Proof;
use pm_rules::Entail;
use pm_schemes::{
    Letters, Pattern, PurePattern, Scheme, and, derive, gap, instantiate, pers, sep, step, wand,
};
use std::alloc::Global;

const L: Pattern = Pattern::Letter(0);

const F: Pattern = Pattern::Letter(1);

const C: Pattern = Pattern::Letter(2);

const TRUTH: Pattern = Pattern::Pure(&PurePattern::True);

const WAND: Pattern = wand!(pers!(F), C);

/// From □ F ∗ L ⊢ C and True ⊢ F: L ⊢ (□ F -∗ C) ∧ □ F.
const BOTH: Scheme = step!(
    AndI, L => and!(WAND, pers!(F));
    step!(
        WandI, L => WAND;
        step!(
            Trans, sep!(L, pers!(F)) => C;
            step!(SepComm, sep!(L, pers!(F)) => sep!(pers!(F), L));
            gap!(sep!(pers!(F), L) => C)
        )
    );
    step!(
        Trans, L => pers!(F);
        step!(True, L => TRUTH);
        step!(
            Trans, TRUTH => pers!(F);
            step!(PersPure, TRUTH => pers!(TRUTH));
            step!(PersMono, pers!(TRUTH) => pers!(F); gap!(TRUTH => F))
        )
    )
);

/// (□ F -∗ C) ∧ □ F ⊢ C
const USED: Scheme = step!(
    Trans, and!(WAND, pers!(F)) => C;
    step!(
        AndI, and!(WAND, pers!(F)) => and!(pers!(F), WAND);
        step!(AndR, and!(WAND, pers!(F)) => pers!(F));
        step!(AndL, and!(WAND, pers!(F)) => WAND)
    );
    step!(
        Trans, and!(pers!(F), WAND) => C;
        step!(PersDup, and!(pers!(F), WAND) => sep!(pers!(F), WAND));
        step!(
            Trans, sep!(pers!(F), WAND) => C;
            step!(SepComm, sep!(pers!(F), WAND) => sep!(WAND, pers!(F)));
            step!(WandE, sep!(WAND, pers!(F)) => C; step!(Refl, WAND => WAND))
        )
    )
);

/// From □ F ∗ L ⊢ C and True ⊢ F: L ⊢ C.
static CITED: Scheme = step!(Trans, L => C; BOTH; USED);

/// From `□ F ∗ L ⊢ C` and `True ⊢ F`, which are its holes: `L ⊢ C`.
#[tactic(auto, unfolding(pm_schemes::specs::Tests::passes, pm_schemes::specs::Tests::fits_row))]
pub fn cited(
    alloc: Global,
    vars: u32,
    l: &Formula,
    f: &Formula,
    c: &Formula,
) -> Result<Proof, Memory>
    ensures { IfOk result (λ t. Proves Every (entail vars l.now c.now) (entail vars (view.Sep (view.Pers f.now) l.now) c.now ∷ entail vars (Assert pure.True) f.now ∷ []) 20 (deepest (l.now ∷ f.now ∷ c.now ∷ []) [] + 3) vars t) }
{
    let letters = Letters {
        formulas: &[l, f, c],
        pures: &[],
    };
    let proof = derive(alloc, vars, &CITED, letters)?;
    Ok(proof)
}

/// From what a lemma says, which is its hole: the same in these variables.
pub fn in_variables(alloc: Global, vars: u32, f: &Formula) -> Result<Proof, Memory>
    requires vars { vars ≤ BOUND }
    requires closed { ScopedIn 0 f.now }
    requires shallow { depth_of f.now ≤ BOUND }
    ensures { IfOk result (λ t. Proves Every (entail vars (Assert pure.True) f.now) (says f.now ∷ []) 1 (depth_of f.now + 2) vars t) }
{
    let right = copy(alloc, f)?;
    let sigma = List::new(alloc);
    let premise = Entail {
        vars: 0,
        left: Formula::Pure(Pure::True),
        right,
    };
    let proof = instantiate(alloc, vars, sigma, premise)?;
    Ok(proof)
}
