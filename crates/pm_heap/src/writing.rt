//! A term is written to a location.

ghost use Rattle.std.specs.Prelude.{◌≡◌, ◌==◌, ◌+◌, ◌<◌, ◌≤◌, ◌^◌, [], ◌∷◌, IfOk, insert, length, is_some};
ghost use Rattle.pm_logic.specs.declared.formula.Formula.TheVariants.{Pts};
ghost use Rattle.pm_logic.specs.declared.formula.Formula.TheViews as view;
ghost use Rattle.pm_logic.specs.declared.formula.TheConstants.{UNIT as WHOLE};
ghost use Rattle.pm_logic.specs.Size.{term_nodes};
ghost use Rattle.pm_goal.specs.declared.refusal.Row.TheVariants as row;
ghost use Rattle.pm_proof.specs.Trees.{entail, conclusion};
ghost use Rattle.pm_proof.specs.Valid.{TermFits};
ghost use Rattle.pm_star.specs.Stars.{work_parts};
ghost use Rattle.pm_table.specs.Basic.{on_goal, gives_goal};
ghost use Rattle.pm_table.specs.Heap as table;
ghost use Rattle.pm_table.specs.Limits.{all_nodes, work_formulas, resting, limited};
ghost use Rattle.pm_table.specs.Modalities.{under_update};
ghost use Rattle.pm_table.specs.Outcomes.{require_plain};
ghost use Rattle.pm_table.specs.Stepping.{NamesDiffer};
ghost use Rattle.pm_table.specs.Works.{hyp};
ghost use Rattle.pm_table.specs.declared.place.Place.TheVariants.{Current as current};
ghost use Rattle.pm_action.specs.Acting.{Answers, IsActed, IsHanded};
ghost use Rattle.pm_action.specs.Naming.{HypsDiffer};
ghost use Rattle.pm_heap.specs.Found.{IsSpatialAt, placed};
ghost use Rattle.pm_heap.specs.Updates.{write_row, RunsTo};

use crate::finding::{Spatial, find_spatial, is_hypothesis};
use crate::running::{reach, run_beside};
use crate::taking::less;
use pm_action::{finish_one, refuse, refuse_plain};
use pm_goal::{Ctx, Hyp, Row, StepFault, Work, copy_goal, left_of_work};
use pm_logic::{Formula, List, Memory, Name, Term, UNIT, copy, copy_name, copy_term};
use pm_proof::{Parts, Proof};
use pm_star::{bring_front_held, compose};
use pm_table::Place;
use std::alloc::Global;

/// `loc ↦ val`
fn pts(alloc: Global, loc: &Term, val: &Term) -> Result<Formula, Memory>
    ensures { IfOk result (λ f. f ≡ Pts loc.now WHOLE val.now) }
{
    let loc = copy_term(alloc, loc)?;
    let val = copy_term(alloc, val)?;
    Ok(Formula::Pts {
        loc,
        units: UNIT,
        val,
    })
}

fn is_whole(units: u32) -> bool
    ensures { result ≡ (units == WHOLE) }
{
    units == UNIT
}

/// The hypothesis, which is this formula where it has the name.
fn put_hyp(
    alloc: Global,
    name: &Name,
    formula: &Formula,
    own: &Name,
    old: &Formula,
) -> Result<Hyp, Memory>
    ensures { IfOk result (λ h. h ≡ placed name.now formula.now (hyp own.now old.now)) }
{
    let chosen = if name.bytes() == own.bytes() {
        formula
    } else {
        old
    };
    let formula = copy(alloc, chosen)?;
    let name = copy_name(alloc, own)?;
    Ok(Hyp { name, formula })
}

/// The hypotheses with this formula in the place of the one of the name.
fn put_in(alloc: Global, name: &Name, formula: &Formula, hyps: &Ctx) -> Result<Ctx, Memory>
    requires { HypsDiffer hyps.now }
    ensures { IfOk result (λ hs. hs ≡ table.put_in name.now formula.now hyps.now) }
{
    let len = hyps.len();
    let mut out = Ctx::new(alloc);
    let mut next = 0;
    while next < len {
        let i = next;
        next += 1;
        if let Some(own) = hyps.name(i) {
            if let Some(old) = hyps.formula(i) {
                out.push(put_hyp(alloc, name, formula, own, old)?)?;
            }
        }
    }
    Ok(out)
}

/// The work with nothing in hand, with this formula in the place of the one of the name.
fn with_put(alloc: Global, work: &Work, name: &Name, formula: &Formula) -> Result<Work, Memory>
    requires { NamesDiffer work.now.goal }
    ensures { IfOk result (λ w. w ≡ resting (table.put name.now formula.now work.now.goal)) }
{
    let ints = put_in(alloc, name, formula, &work.goal.ints)?;
    let spats = put_in(alloc, name, formula, &work.goal.spats)?;
    let mut goal = copy_goal(alloc, &work.goal)?;
    goal.ints = ints;
    goal.spats = spats;
    Ok(Work {
        goal,
        held: List::new(alloc),
    })
}

/// From what the new work means, which is the hole: the update of `q`, by the old part beside the star of the rest, from an update
/// of the old part to the new one.
fn run_update(
    alloc: Global,
    rest: &Work,
    place: u32,
    old: &Formula,
    part: &Formula,
    q: &Formula,
    update: Proof,
    new: &Work,
) -> Result<Proof, Memory>
    requires few { length rest.now.goal.vars < 2 ^ 32 }
    requires update { conclusion update ≡ entail (length rest.now.goal.vars) old.now (view.Upd part.now) }
    requires vars { length new.now.goal.vars ≡ length rest.now.goal.vars }
    requires concl { new.now.goal.concl ≡ view.Upd q.now }
    requires within { place ≤ length (work_parts rest.now) }
    requires more { work_parts new.now ≡ insert (work_parts rest.now) place part.now }
    ensures { IfOk result (RunsTo rest.now old.now part.now q.now update new.now) }
{
    let vars = rest.goal.vars.len() as u32;
    let follows = reach(alloc, rest, part, place, new)?;
    let star = left_of_work(alloc, rest)?;
    let proof = run_beside(alloc, vars, old, part, &star, q, update, follows)?;
    Ok(proof)
}

/// From what the new work means, which is the hole: what the old one means.
fn write_proof(
    alloc: Global,
    work: &Work,
    name: &Name,
    place: u32,
    loc: &Term,
    val: &Term,
    term: &Term,
    q: &Formula,
    new: &Work,
) -> Result<Proof, Memory>
    requires handed { IsHanded work.now }
    requires nothing { work.now.held ≡ [] }
    requires at { IsSpatialAt work.now.goal name.now place (Pts loc.now WHOLE val.now) }
    requires concl { work.now.goal.concl ≡ view.Upd q.now }
    requires new { new.now ≡ resting (table.put name.now (Pts loc.now WHOLE term.now) work.now.goal) }
    ensures { IfOk result (IsActed (all_nodes (work_formulas work.now) + term_nodes term.now) work.now (current [] new.now ∷ [])) }
{
    let old = pts(alloc, loc, val)?;
    let part = pts(alloc, loc, term)?;
    let rest = less(alloc, work, name)?;
    let vars = work.goal.vars.len() as u32;
    let update = pm_schemes::write(alloc, vars, loc, val, term)?;
    let updated = run_update(alloc, &rest, place, &old, &part, q, update, new)?;
    let front = bring_front_held(alloc, work, place)?;
    let proof = compose(alloc, front, updated)?;
    Ok(proof)
}

/// The term is written, where the conclusion is this update.
#[tactic(auto, using(pm_basic::proofs::Ending::no_memory))]
fn write_under(
    alloc: Global,
    work: &Work,
    name: &Name,
    place: u32,
    loc: &Term,
    val: &Term,
    term: &Term,
    q: &Formula,
) -> Result<Parts<Place>, StepFault>
    requires handed { IsHanded work.now }
    requires nothing { work.now.held ≡ [] }
    requires at { IsSpatialAt work.now.goal name.now place (Pts loc.now WHOLE val.now) }
    requires concl { work.now.goal.concl ≡ view.Upd q.now }
    ensures { Answers (all_nodes (work_formulas work.now) + term_nodes term.now) work.now (limited (gives_goal (table.put name.now (Pts loc.now WHOLE term.now) work.now.goal))) result }
{
    let part = pts(alloc, loc, term)?;
    let new = with_put(alloc, work, name, &part)?;
    let proof = write_proof(alloc, work, name, place, loc, val, term, q, &new)?;
    finish_one(alloc, new, proof)
}

/// The term is written to the location of the hypothesis at the place, which is a points-to of all units.
fn write_full(
    alloc: Global,
    work: &Work,
    name: &Name,
    place: u32,
    loc: &Term,
    val: &Term,
    term: &Term,
) -> Result<Parts<Place>, StepFault>
    requires handed { IsHanded work.now }
    requires nothing { work.now.held ≡ [] }
    requires at { IsSpatialAt work.now.goal name.now place (Pts loc.now WHOLE val.now) }
    ensures { Answers (all_nodes (work_formulas work.now) + term_nodes term.now) work.now (limited (require_plain (is_some (under_update work.now.goal.concl)) row.ConclusionNotUpdate (gives_goal (table.put name.now (Pts loc.now WHOLE term.now) work.now.goal)))) result }
{
    match &work.goal.concl {
        Formula::Upd(q) => write_under(alloc, work, name, place, loc, val, term, q.get()),
        _ => Err(refuse_plain(Row::ConclusionNotUpdate)),
    }
}

/// The term is written, where the spatial hypothesis is a points-to of all units.
fn write_at(
    alloc: Global,
    work: &Work,
    name: &Name,
    found: &Spatial,
    term: &Term,
) -> Result<Parts<Place>, StepFault>
    requires handed { IsHanded work.now }
    requires nothing { work.now.held ≡ [] }
    requires at { IsSpatialAt work.now.goal name.now found.now.place found.now.formula }
    ensures { Answers (all_nodes (work_formulas work.now) + term_nodes term.now) work.now (limited (write_row name.now found.now.formula term.now work.now.goal)) result }
{
    match &found.formula {
        Formula::Pts { loc, units, val } => {
            if is_whole(*units) {
                write_full(alloc, work, name, found.place, loc, val, term)
            } else {
                Err(refuse_plain(Row::NotFullPointsTo))
            }
        }
        _ => Err(refuse_plain(Row::NotFullPointsTo)),
    }
}

/// `iWrite`: the spatial hypothesis `l ↦ w` of all units becomes `l ↦ t` in its place, where the conclusion is an update.
///
/// It is refused where the name is no hypothesis or no spatial one, where that is no points-to of all units, where the conclusion
/// is no update, and where the work passes a limit.
pub fn write(
    alloc: Global,
    work: &Work,
    name: &Name,
    term: &Term,
) -> Result<Parts<Place>, StepFault>
    requires handed { IsHanded work.now }
    requires nothing { work.now.held ≡ [] }
    requires fits { TermFits (length work.now.goal.vars) term.now }
    ensures { Answers (all_nodes (work_formulas work.now) + term_nodes term.now) work.now (limited (on_goal (table.write name.now term.now) work.now)) result }
{
    if !is_hypothesis(&work.goal, name) {
        return Err(refuse(alloc, Row::NoSuchHypothesis, name));
    }
    let found = find_spatial(alloc, &work.goal, name)?;
    match found {
        Some(spatial) => write_at(alloc, work, name, &spatial, term),
        None => Err(refuse(alloc, Row::NotSpatial, name)),
    }
}
