//! Goals closed by their conclusion alone.

ghost use Rattle.std.specs.Prelude.{◌≡◌, ◌+◌, ◌≤◌, [], ◌∷◌, pos, IfOk};
ghost use Rattle.pm_logic.specs.declared.formula.Formula.TheVariants.{Pure as Assert};
ghost use Rattle.pm_logic.specs.declared.formula.Pure.TheVariants as pure;
ghost use Rattle.pm_logic.specs.declared.formula.TheConstants.{BOUND};
ghost use Rattle.pm_logic.specs.declared.limits.TheConstants.{MAX_LINE_LEVELS};
ghost use Rattle.pm_logic.specs.Size.{depth_of, term_depth};
ghost use Rattle.pm_proof.specs.Trees.{entail};
ghost use Rattle.pm_proof.specs.Known.{Proves, Every};
ghost use Rattle.pm_proof.specs.Valid.{TermFits};
ghost use Rattle.pm_schemes.specs.Sketches.{deepest};
ghost use Rattle.pm_table.specs.Basic as basic;
ghost use Rattle.pm_table.specs.Limits.{all_nodes, work_formulas};
ghost use Rattle.pm_action.specs.Acting.{IsActed, IsHanded};
ghost use Rattle.pm_closing.specs.Ways.{Tells};
ghost use Rattle.pm_closing.specs.Closed.{GivesTruth, one_variable, itself};

use pm_goal::{Work, left_of_work};
use pm_logic::{Formula, List, Memory, Pure, Term, copy_term, same_term};
use pm_proof::Proof;
use pm_rules::Entail;
use pm_schemes::{Letters, Pattern, PurePattern, Scheme, derive, instantiate, linear, step};
use pm_star::compose;
use std::alloc::Global;

const X: Pattern = Pattern::Letter(0);

const ALWAYS: Pattern = Pattern::Pure(&PurePattern::True);

/// X ⊢ ⌜True⌝
static TRUTH: Scheme = step!(True, X => ALWAYS);

/// `X ⊢ ⌜True⌝`
#[tactic(auto, unfolding(pm_schemes::specs::Tests::passes, pm_schemes::specs::Tests::fits_row))]
fn truth(alloc: Global, vars: u32, x: &Formula) -> Result<Proof, Memory>
    ensures { IfOk result (λ p. Proves Every (entail vars x.now (Assert pure.True)) [] 1 (deepest (x.now ∷ []) [] + 2) vars p) }
{
    let letters = Letters {
        formulas: &[x],
        pures: &[],
    };
    let proof = derive(alloc, vars, &TRUTH, letters)?;
    Ok(proof)
}

/// From the star to `⌜True⌝`.
fn to_truth(alloc: Global, work: &Work) -> Result<Proof, Memory>
    requires { IsHanded work.now }
    ensures { IfOk result (GivesTruth work.now) }
{
    let left = left_of_work(alloc, work)?;
    let proof = truth(alloc, work.goal.vars.len() as u32, &left)?;
    Ok(proof)
}

/// The one factor that shows a variable equal to itself.
fn factor(alloc: Global) -> Result<List<i64>, Memory>
    ensures { IfOk result (λ factors. factors ≡ pos 1 ∷ []) }
{
    let mut factors = List::new(alloc);
    factors.push(1)?;
    Ok(factors)
}

/// `⌜True⌝ ⊢ ⌜v = v⌝`, in one variable. A term of any kind can't be shown equal to itself by factors, since they show only
/// what has small coefficients.
fn variable_itself(alloc: Global) -> Result<Proof, Memory>
    ensures { IfOk result (λ p. Proves Every one_variable [] 1 8 1 p) }
{
    let first = factor(alloc)?;
    let second = factor(alloc)?;
    let equal = Pure::Eq(Term::Var(0), Term::Var(0));
    let proof = linear(alloc, 1, first, second, &Pure::True, &equal)?;
    Ok(proof)
}

/// `⌜True⌝ ⊢ ⌜v = v⌝`
fn premise() -> Entail
    ensures { result ≡ one_variable }
{
    Entail {
        vars: 1,
        left: Formula::Pure(Pure::True),
        right: Formula::Pure(Pure::Eq(Term::Var(0), Term::Var(0))),
    }
}

/// From `⌜True⌝ ⊢ ⌜v = v⌝`, which is its hole: `⌜True⌝ ⊢ ⌜t = t⌝`.
fn instance(alloc: Global, vars: u32, t: &Term) -> Result<Proof, Memory>
    requires vars { vars ≤ BOUND }
    requires term { TermFits vars t.now }
    ensures { IfOk result (λ p. Proves Every (itself vars t.now) (one_variable ∷ []) 1 (term_depth t.now + 8) (vars + 1) p) }
{
    let mut sigma = List::new(alloc);
    sigma.push(copy_term(alloc, t)?)?;
    let proof = instantiate(alloc, vars, sigma, premise())?;
    Ok(proof)
}

/// `⌜True⌝ ⊢ ⌜t = t⌝`
fn term_itself(alloc: Global, vars: u32, t: &Term) -> Result<Proof, Memory>
    requires vars { vars ≤ BOUND }
    requires term { TermFits vars t.now }
    ensures { IfOk result (λ p. Proves Every (itself vars t.now) [] 2 (term_depth t.now + 8) (vars + 1) p) }
{
    let inner = variable_itself(alloc)?;
    let step = instance(alloc, vars, t)?;
    Ok(step.fill(0, inner))
}

/// The term that the equation has on both sides.
fn both_sides(fact: &Pure) -> Option<&Term>
    ensures { Tells (basic.is_reflexive (Assert fact.now)) (λ t. fact.now ≡ pure.Eq t.now t.now) result }
{
    let Pure::Eq(s, t) = fact else {
        return None;
    };
    if same_term(s, t) { Some(s) } else { None }
}

/// The term that the conclusion says is equal to itself.
fn term_of(concl: &Formula) -> Option<&Term>
    ensures { Tells (basic.is_reflexive concl.now) (λ t. concl.now ≡ Assert (pure.Eq t.now t.now)) result }
{
    let Formula::Pure(fact) = concl else {
        return None;
    };
    match both_sides(fact) {
        Some(t) => Some(t),
        None => None,
    }
}

/// The conclusion, where it is `⌜True⌝`.
pub fn by_truth(alloc: Global, work: &Work) -> Result<Option<Proof>, Memory>
    requires { IsHanded work.now }
    ensures { IfOk result (Tells (basic.is_truth work.now.goal.concl) (IsActed (all_nodes (work_formulas work.now)) work.now [])) }
{
    match &work.goal.concl {
        Formula::Pure(Pure::True) => {
            let proof = to_truth(alloc, work)?;
            Ok(Some(proof))
        }
        _ => Ok(None),
    }
}

/// The conclusion, where it says that a term is equal to itself.
pub fn by_reflexivity(alloc: Global, work: &Work) -> Result<Option<Proof>, Memory>
    requires handed { IsHanded work.now }
    requires shallow { depth_of work.now.goal.concl ≤ MAX_LINE_LEVELS }
    ensures { IfOk result (Tells (basic.is_reflexive work.now.goal.concl) (IsActed (all_nodes (work_formulas work.now)) work.now [])) }
{
    let Some(t) = term_of(&work.goal.concl) else {
        return Ok(None);
    };
    let to_truth = to_truth(alloc, work)?;
    let equal = term_itself(alloc, work.goal.vars.len() as u32, t)?;
    let proof = compose(alloc, to_truth, equal)?;
    Ok(Some(proof))
}
