//! Variables that go to the conclusion.

ghost use Rattle.std.specs.Prelude.{◌≡◌, ◌≤◌, ◌<◌, ◌^◌, ◌++◌, ◌∷◌, [], Some, IfOk, OnOk, IfSome, length, position, take, drop, suc};
ghost use Rattle.std.specs.Str.{bytes_eq};
ghost use Rattle.pm_logic.specs.declared.limits.TheConstants.{MAX_LINE_TERMS};
ghost use Rattle.pm_logic.specs.Substitution.{in_formula};
ghost use Rattle.pm_logic.specs.declared.formula.Formula.TheViews as view;
ghost use Rattle.pm_table.specs.declared.place.Place.TheVariants.{Current as current};
ghost use Rattle.pm_table.specs.Basic as table;
ghost use Rattle.pm_table.specs.Limits.{all_nodes, work_formulas, limited};
ghost use Rattle.pm_table.specs.Occurrences.{to_front};
ghost use Rattle.pm_table.specs.Outcomes.{one};
ghost use Rattle.pm_table.specs.Works as works;
ghost use Rattle.pm_action.specs.Acting.{Answers, IsActed, IsHanded};
ghost use Rattle.pm_basic.specs.Losses.{Loses, IsRegained, IsSpecial};

use crate::changing::{each_fact, each_hyp};
use crate::indices::{Role, terms_for};
use crate::steps::at_rest;
use pm_action::{finish_one, refuse, refuse_plain};
use pm_goal::{Goal, Row, StepFault, Work, left_of_work};
use pm_logic::{
    Formula, List, MAX_VARIABLES, Memory, Name, Term, all, copy, copy_name, is_subst, subst,
};
use pm_proof::{Parts, Proof};
use pm_rules::Entail;
use pm_schemes::{instantiate, specialize};
use pm_star::compose;
use pm_table::Place;
use std::alloc::Global;

/// The first place of the name.
fn place_of(vars: &[Name], name: &Name) -> Option<usize>
    ensures place { result ≡ position (λ n. bytes_eq name.now n) vars.now }
    ensures within { IfSome result (λ i. i < length vars.now) }
{
    vars.iter().position(|n| name.bytes() == n.bytes())
}

/// The index of the variable of this name.
fn index_of(vars: &[Name], name: &Name) -> Option<u32>
    requires { length vars.now < 2 ^ 32 }
    ensures { result ≡ works.index_named name.now vars.now }
{
    match place_of(vars, name) {
        Some(place) => Some((vars.len() - 1 - place) as u32),
        None => None,
    }
}

fn push_names(alloc: Global, names: &[Name], out: &mut List<Name>) -> Result<(), Memory>
    ensures { OnOk result (out.new ≡ out.old ++ names.now) }
{
    for name in names {
        out.push(copy_name(alloc, name)?)?;
    }
    Ok(())
}

/// The names but the one at the place.
fn others(alloc: Global, vars: &[Name], place: usize) -> Result<List<Name>, Memory>
    requires { place < length vars.now }
    ensures { IfOk result (λ xs. xs ≡ take place vars.now ++ drop (suc place) vars.now) }
{
    let mut out = List::new(alloc);
    push_names(alloc, &vars[..place], &mut out)?;
    push_names(alloc, &vars[place + 1..], &mut out)?;
    Ok(out)
}

fn all_names(alloc: Global, vars: &[Name]) -> Result<List<Name>, Memory>
    ensures { IfOk result (λ xs. xs ≡ vars.now) }
{
    let mut out = List::new(alloc);
    push_names(alloc, vars, &mut out)?;
    Ok(out)
}

/// The names but the first that is this one.
fn names_but(alloc: Global, vars: &[Name], name: &Name) -> Result<List<Name>, Memory>
    ensures { IfOk result (λ xs. xs ≡ table.names_but name.now vars.now) }
{
    let Some(place) = place_of(vars, name) else {
        let copied = all_names(alloc, vars)?;
        return Ok(copied);
    };
    let names = others(alloc, vars, place)?;
    Ok(names)
}

/// Whether a hypothesis or fact mentions the variable of this index.
fn is_mentioned(alloc: Global, work: &Work, index: u32) -> Result<bool, Memory>
    requires handed { IsHanded work.now }
    requires nothing { work.now.held ≡ [] }
    ensures { IfOk result (λ b. b ≡ table.mentions index work.now.goal) }
{
    let vars = work.goal.vars.len() as u32;
    let star = left_of_work(alloc, work)?;
    let zeroed = terms_for(alloc, Role::Testing, index, vars)?;
    let kept = is_subst(&star, &zeroed, &star);
    Ok(!kept)
}

/// The conclusion under a binder that binds the variable of this index.
fn bound(alloc: Global, work: &Work, index: u32) -> Result<Formula, Memory>
    requires { IsHanded work.now }
    ensures { IfOk result (λ f. f ≡ view.All (in_formula (to_front index) work.now.goal.concl)) }
{
    let vars = work.goal.vars.len() as u32;
    let binding = terms_for(alloc, Role::Binding, index, vars)?;
    let body = subst(alloc, &work.goal.concl, &binding)?;
    let concl = all(alloc, body)?;
    Ok(concl)
}

/// The goal without the variable, which a binder of the conclusion binds.
fn without_var(alloc: Global, work: &Work, name: &Name, index: u32) -> Result<Goal, Memory>
    requires { IsHanded work.now }
    ensures { IfOk result (λ g. g ≡ table.without_var name.now index work.now.goal) }
{
    let old = &work.goal;
    let losing = terms_for(alloc, Role::Losing, index, old.vars.len() as u32)?;
    let vars = names_but(alloc, old.vars.as_slice(), name)?;
    let pures = each_fact(alloc, &old.pures, &losing)?;
    let ints = each_hyp(alloc, &old.ints, &losing)?;
    let spats = each_hyp(alloc, &old.spats, &losing)?;
    let concl = bound(alloc, work, index)?;
    Ok(Goal {
        vars,
        pures,
        ints,
        spats,
        concl,
    })
}

/// From what the new work means to the old conclusion for all values of the variable.
fn regained(alloc: Global, work: &Work, new: &Work, index: u32) -> Result<Proof, Memory>
    requires handed { IsHanded work.now }
    requires loses { Loses index work.now new.now }
    requires few { length new.now.goal.vars ≤ MAX_LINE_TERMS }
    ensures { IfOk result (IsRegained index work.now new.now) }
{
    let vars = new.goal.vars.len() as u32;
    let sigma = terms_for(alloc, Role::Regaining, index, vars)?;
    let left = left_of_work(alloc, new)?;
    let right = copy(alloc, &new.goal.concl)?;
    let premise = Entail { vars, left, right };
    let proof = instantiate(alloc, vars + 1, sigma, premise)?;
    Ok(proof)
}

/// From the conclusion for all values of the variable to the conclusion.
fn special(alloc: Global, work: &Work, new: &Work, index: u32) -> Result<Proof, Memory>
    requires handed { IsHanded work.now }
    requires loses { Loses index work.now new.now }
    ensures { IfOk result (IsSpecial index work.now new.now) }
{
    let vars = work.goal.vars.len() as u32;
    let rebinding = terms_for(alloc, Role::Rebinding, index, vars)?;
    let body = subst(alloc, &work.goal.concl, &rebinding)?;
    let var = Term::Var(index);
    let proof = specialize(alloc, vars, &body, &var)?;
    Ok(proof)
}

/// From what the new work means to what the old one means.
fn generalized(alloc: Global, work: &Work, new: &Work, index: u32) -> Result<Proof, Memory>
    requires handed { IsHanded work.now }
    requires loses { Loses index work.now new.now }
    requires few { length new.now.goal.vars ≤ MAX_LINE_TERMS }
    ensures { IfOk result (IsActed (all_nodes (work_formulas work.now)) work.now (current [] new.now ∷ [])) }
{
    let first = regained(alloc, work, new, index)?;
    let second = special(alloc, work, new, index)?;
    let proof = compose(alloc, first, second)?;
    Ok(proof)
}

/// The new work in the place of the old one, unless it has too many variables.
#[tactic(auto, using(crate::proofs::Ending::no_memory))]
fn end(alloc: Global, work: &Work, new: Work, index: u32) -> Result<Parts<Place>, StepFault>
    requires handed { IsHanded work.now }
    requires loses { Loses index work.now new }
    ensures { Answers (all_nodes (work_formulas work.now)) work.now (limited (one new)) result }
{
    if new.goal.vars.len() > MAX_VARIABLES {
        return Err(refuse_plain(Row::TooManyVariables));
    }
    let proof = generalized(alloc, work, &new, index)?;
    finish_one(alloc, new, proof)
}

/// The variable of this index goes to the conclusion, unless something mentions it.
#[tactic(auto, using(crate::proofs::Ending::no_memory))]
fn by_index(alloc: Global, work: &Work, name: &Name, index: u32) -> Result<Parts<Place>, StepFault>
    requires handed { IsHanded work.now }
    requires nothing { work.now.held ≡ [] }
    requires index { works.index_named name.now work.now.goal.vars ≡ Some index }
    ensures { Answers (all_nodes (work_formulas work.now)) work.now (limited (table.on_goal (table.revert_var name.now) work.now)) result }
{
    let mentioned = is_mentioned(alloc, work, index)?;
    if mentioned {
        return Err(refuse_plain(Row::VariableMentioned));
    }
    let goal = without_var(alloc, work, name, index)?;
    let new = at_rest(alloc, goal);
    end(alloc, work, new, index)
}

/// `iRevert` of a variable: the conclusion is to be shown for all its values.
///
/// It is refused where the goal has no variable of this name, where a hypothesis or fact mentions it, and where the work
/// passes a limit.
pub fn revert_var(alloc: Global, work: &Work, name: &Name) -> Result<Parts<Place>, StepFault>
    requires handed { IsHanded work.now }
    requires nothing { work.now.held ≡ [] }
    ensures { Answers (all_nodes (work_formulas work.now)) work.now (limited (table.on_goal (table.revert_var name.now) work.now)) result }
{
    match index_of(work.goal.vars.as_slice(), name) {
        Some(index) => by_index(alloc, work, name, index),
        None => Err(refuse(alloc, Row::NoSuchVariable, name)),
    }
}
