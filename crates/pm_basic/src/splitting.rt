//! Conclusions of two parts, of which each is shown by all that the goal has.

ghost use Rattle.std.specs.Prelude.{◌≡◌, ◌<◌, ◌^◌, [], IfOk, length};
ghost use Rattle.pm_logic.specs.declared.formula.Formula.TheVariants.{Pure as Assert};
ghost use Rattle.pm_logic.specs.declared.formula.Formula.TheViews as view;
ghost use Rattle.pm_logic.specs.declared.formula.Pure.TheViews as pure_view;
ghost use Rattle.pm_proof.specs.Trees.{entail, conclusion};
ghost use Rattle.pm_classes.specs.Classes.{parts};
ghost use Rattle.pm_classes.specs.Entries.{IsHanded as IsFormulaHanded, IsPair};
ghost use Rattle.pm_table.specs.Basic as table;
ghost use Rattle.pm_table.specs.Limits.{all_nodes, work_formulas, limited};
ghost use Rattle.pm_action.specs.Acting.{Answers, IsHanded};
ghost use Rattle.pm_basic.specs.Halves.{both_say, SplitAnswer, AreHalves, Joined};

use crate::rules::{both_facts, conjoined, same};
use crate::steps::{at_rest, concluding};
use pm_action::{finish_two, refuse_plain};
use pm_classes::{Pair, into_sep};
use pm_goal::{Row, StepFault, Work, left_of_work};
use pm_logic::{Formula, Memory, Pure, and, copy, copy_pure};
use pm_proof::{Parts, Proof};
use pm_star::compose;
use pm_table::Place;
use std::alloc::Global;

/// The parts of a conjunction.
fn in_and(
    alloc: Global,
    vars: u32,
    whole: &Formula,
    a: &Formula,
    b: &Formula,
) -> Result<Pair, Memory>
    requires { whole.now ≡ view.And a.now b.now }
    ensures { IfOk result (IsPair (both_say vars whole.now) vars whole.now (parts a.now b.now)) }
{
    let proof = same(alloc, vars, whole)?;
    let first = copy(alloc, a)?;
    let second = copy(alloc, b)?;
    Ok(Pair {
        first,
        second,
        proof,
    })
}

/// The parts of a pure conjunction.
fn in_both(alloc: Global, vars: u32, p: &Pure, q: &Pure) -> Result<Pair, Memory>
    ensures { IfOk result (IsPair (both_say vars (Assert (pure_view.And p.now q.now))) vars (Assert (pure_view.And p.now q.now)) (parts (Assert p.now) (Assert q.now))) }
{
    let proof = both_facts(alloc, vars, p, q)?;
    let first = Formula::Pure(copy_pure(alloc, p)?);
    let second = Formula::Pure(copy_pure(alloc, q)?);
    Ok(Pair {
        first,
        second,
        proof,
    })
}

/// The parts of a pure formula that is a conjunction.
fn halves_of_pure(alloc: Global, vars: u32, fact: &Pure) -> Result<Option<Pair>, Memory>
    ensures { IfOk result (SplitAnswer vars (Assert fact.now)) }
{
    match fact {
        Pure::And(p, q) => {
            let entry = in_both(alloc, vars, p.get(), q.get())?;
            Ok(Some(entry))
        }
        _ => Ok(None),
    }
}

/// The parts of a star, where one is persistent.
fn halves_of_star(
    alloc: Global,
    vars: u32,
    a: &Formula,
    b: &Formula,
) -> Result<Option<Pair>, Memory>
    requires { IsFormulaHanded vars (view.Sep a.now b.now) }
    ensures { IfOk result (SplitAnswer vars (view.Sep a.now b.now)) }
{
    let first = copy(alloc, a)?;
    let second = copy(alloc, b)?;
    let both = and(alloc, first, second)?;
    let entry = into_sep(alloc, vars, &both)?;
    Ok(entry)
}

/// The parts of a conclusion that both together entail.
fn halves_of(alloc: Global, vars: u32, concl: &Formula) -> Result<Option<Pair>, Memory>
    requires { IsFormulaHanded vars concl.now }
    ensures { IfOk result (SplitAnswer vars concl.now) }
{
    match concl {
        Formula::And(a, b) => {
            let entry = in_and(alloc, vars, concl, a.get(), b.get())?;
            Ok(Some(entry))
        }
        Formula::Pure(fact) => halves_of_pure(alloc, vars, fact),
        Formula::Sep(a, b) => halves_of_star(alloc, vars, a.get(), b.get()),
        _ => Ok(None),
    }
}

/// From both parts by the star, which are its holes: what they entail by `closing`.
fn joined(
    alloc: Global,
    work: &Work,
    first: &Formula,
    second: &Formula,
    closing: Proof,
) -> Result<Proof, Memory>
    requires few { length work.now.goal.vars < 2 ^ 32 }
    requires closing { conclusion closing ≡ entail (length work.now.goal.vars) (view.And first.now second.now) work.now.goal.concl }
    ensures { IfOk result (Joined work.now first.now second.now closing) }
{
    let vars = work.goal.vars.len();
    let left = left_of_work(alloc, work)?;
    let both = conjoined(alloc, vars as u32, &left, first, second)?;
    let proof = compose(alloc, both, closing)?;
    Ok(proof)
}

/// The goal once for each part as its conclusion.
fn split_by(alloc: Global, work: &Work, entry: Pair) -> Result<Parts<Place>, StepFault>
    requires handed { IsHanded work.now }
    requires nothing { work.now.held ≡ [] }
    requires entry { AreHalves (length work.now.goal.vars) work.now.goal.concl entry }
    ensures { Answers (all_nodes (work_formulas work.now)) work.now (limited (table.gives_goals (table.for entry.first work.now.goal) (table.for entry.second work.now.goal))) result }
{
    let Pair {
        first,
        second,
        proof,
    } = entry;
    let proof = joined(alloc, work, &first, &second, proof)?;
    let left = concluding(alloc, &work.goal, first)?;
    let right = concluding(alloc, &work.goal, second)?;
    let left_work = at_rest(alloc, left);
    let right_work = at_rest(alloc, right);
    finish_two(alloc, left_work, right_work, proof)
}

/// `iSplit`: the conclusion, which is a conjunction or a star with a persistent part, is split, and each part is to be shown by
/// all hypotheses.
///
/// It is refused where the conclusion isn't of this form, and where a work passes a limit.
pub fn split(alloc: Global, work: &Work) -> Result<Parts<Place>, StepFault>
    requires handed { IsHanded work.now }
    requires nothing { work.now.held ≡ [] }
    ensures { Answers (all_nodes (work_formulas work.now)) work.now (limited (table.on_goal table.split work.now)) result }
{
    let vars = work.goal.vars.len();
    match halves_of(alloc, vars as u32, &work.goal.concl)? {
        Some(entry) => split_by(alloc, work, entry),
        None => Err(refuse_plain(Row::ConclusionNotSplit)),
    }
}
