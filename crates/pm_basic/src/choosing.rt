//! Conclusions that follow from one new conclusion.

ghost use Rattle.std.specs.Prelude.{◌≡◌, ◌+◌, ◌<◌, ◌^◌, [], IfOk, length, option_map, if◌then◌else◌};
ghost use Rattle.pm_logic.specs.declared.formula.Formula.TheVariants.{Pure as Assert};
ghost use Rattle.pm_logic.specs.declared.formula.Formula.TheViews as view;
ghost use Rattle.pm_logic.specs.declared.formula.Pure.TheViews as pure_view;
ghost use Rattle.pm_logic.specs.declared.formula.TheConstants.{BOUND};
ghost use Rattle.pm_logic.specs.Scope.{ScopedIn};
ghost use Rattle.pm_logic.specs.Size.{depth_of, term_nodes};
ghost use Rattle.pm_logic.specs.Substitution.{opened_of};
ghost use Rattle.pm_proof.specs.Valid.{TermFits};
ghost use Rattle.pm_table.specs.Basic as table;
ghost use Rattle.pm_table.specs.Limits.{all_nodes, work_formulas, limited};
ghost use Rattle.pm_action.specs.Acting.{Answers, IsHanded};
ghost use Rattle.pm_basic.specs.Enough.{Enough, IsEnough, picked};

use crate::concluding::conclude;
use crate::rules::{anything, left, left_fact, right, right_fact};
use pm_action::refuse_plain;
use pm_classes::One;
use pm_goal::{Row, StepFault, Work};
use pm_logic::{Formula, Memory, Pure, Term, copy, copy_pure, opened};
use pm_proof::Parts;
use pm_schemes::witness;
use pm_table::Place;
use std::alloc::Global;

/// `iExFalso`: the conclusion becomes falsehood.
///
/// It is refused where the work passes a limit.
pub fn exfalso(alloc: Global, work: &Work) -> Result<Parts<Place>, StepFault>
    requires handed { IsHanded work.now }
    requires nothing { work.now.held ≡ [] }
    ensures { Answers (all_nodes (work_formulas work.now)) work.now (limited (table.on_goal table.exfalso work.now)) result }
{
    let vars = work.goal.vars.len();
    let proof = anything(alloc, vars as u32, &work.goal.concl)?;
    let formula = Formula::Pure(Pure::False);
    conclude(alloc, work, One { formula, proof })
}

/// A side of a disjunction.
fn in_or(alloc: Global, vars: u32, a: &Formula, b: &Formula, first: bool) -> Result<One, Memory>
    ensures { IfOk result (IsEnough vars (view.Or a.now b.now) (if first then a.now else b.now)) }
{
    if first {
        let proof = left(alloc, vars, a, b)?;
        let formula = copy(alloc, a)?;
        Ok(One { formula, proof })
    } else {
        let proof = right(alloc, vars, a, b)?;
        let formula = copy(alloc, b)?;
        Ok(One { formula, proof })
    }
}

/// A side of a pure disjunction.
fn in_either(alloc: Global, vars: u32, p: &Pure, q: &Pure, first: bool) -> Result<One, Memory>
    ensures { IfOk result (IsEnough vars (Assert (pure_view.Or p.now q.now)) (if first then Assert p.now else Assert q.now)) }
{
    if first {
        let proof = left_fact(alloc, vars, p, q)?;
        let formula = Formula::Pure(copy_pure(alloc, p)?);
        Ok(One { formula, proof })
    } else {
        let proof = right_fact(alloc, vars, p, q)?;
        let formula = Formula::Pure(copy_pure(alloc, q)?);
        Ok(One { formula, proof })
    }
}

/// A side of a pure formula that is a disjunction.
fn side_of_pure(alloc: Global, vars: u32, fact: &Pure, first: bool) -> Result<Option<One>, Memory>
    ensures { IfOk result (Enough vars (Assert fact.now) (option_map (picked first) (table.or_parts (Assert fact.now)))) }
{
    match fact {
        Pure::Or(p, q) => {
            let entry = in_either(alloc, vars, p.get(), q.get(), first)?;
            Ok(Some(entry))
        }
        _ => Ok(None),
    }
}

/// A side of a conclusion that is a disjunction.
fn side_of(alloc: Global, vars: u32, concl: &Formula, first: bool) -> Result<Option<One>, Memory>
    ensures { IfOk result (Enough vars concl.now (option_map (picked first) (table.or_parts concl.now))) }
{
    match concl {
        Formula::Or(a, b) => {
            let entry = in_or(alloc, vars, a.get(), b.get(), first)?;
            Ok(Some(entry))
        }
        Formula::Pure(fact) => side_of_pure(alloc, vars, fact, first),
        _ => Ok(None),
    }
}

/// `iLeft` and `iRight`: the conclusion, which is a disjunction, becomes that side of it.
///
/// It is refused where the conclusion is no disjunction, and where the work passes a limit.
pub fn side(alloc: Global, work: &Work, left: bool) -> Result<Parts<Place>, StepFault>
    requires handed { IsHanded work.now }
    requires nothing { work.now.held ≡ [] }
    ensures { Answers (all_nodes (work_formulas work.now)) work.now (limited (table.on_goal (table.side left) work.now)) result }
{
    let vars = work.goal.vars.len();
    match side_of(alloc, vars as u32, &work.goal.concl, left)? {
        Some(entry) => conclude(alloc, work, entry),
        None => Err(refuse_plain(Row::ConclusionNotDisjunction)),
    }
}

/// The body opened with the term.
fn instance(alloc: Global, vars: u32, body: &Formula, t: &Term) -> Result<One, Memory>
    requires scoped { ScopedIn (vars + 1) body.now }
    requires small { vars + depth_of body.now < BOUND }
    requires term { TermFits vars t.now }
    ensures { IfOk result (IsEnough vars (view.Ex body.now) (opened_of body.now t.now)) }
{
    let proof = witness(alloc, vars, body, t)?;
    let formula = opened(alloc, body, t)?;
    Ok(One { formula, proof })
}

/// What the term gives where the conclusion is existential.
fn instance_of(alloc: Global, vars: u32, concl: &Formula, t: &Term) -> Result<Option<One>, Memory>
    requires scoped { ScopedIn vars concl.now }
    requires small { vars + depth_of concl.now < BOUND }
    requires term { TermFits vars t.now }
    ensures { IfOk result (Enough vars concl.now (option_map (λ b. opened_of b t.now) (table.body_of_ex concl.now))) }
{
    match concl {
        Formula::Ex(body) => {
            let entry = instance(alloc, vars, body.get(), t)?;
            Ok(Some(entry))
        }
        _ => Ok(None),
    }
}

/// `iExists`: the conclusion, which is existential, becomes what is said of the term.
///
/// It is refused where the conclusion isn't existential, and where the work passes a limit.
pub fn exists(alloc: Global, work: &Work, t: &Term) -> Result<Parts<Place>, StepFault>
    requires handed { IsHanded work.now }
    requires nothing { work.now.held ≡ [] }
    requires fits { TermFits (length work.now.goal.vars) t.now }
    ensures { Answers (all_nodes (work_formulas work.now) + term_nodes t.now) work.now (limited (table.on_goal (table.exists t.now) work.now)) result }
{
    let vars = work.goal.vars.len();
    match instance_of(alloc, vars as u32, &work.goal.concl, t)? {
        Some(entry) => conclude(alloc, work, entry),
        None => Err(refuse_plain(Row::ConclusionNotExistential)),
    }
}
