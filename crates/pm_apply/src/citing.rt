//! A lemma is taken in hand.

ghost use Rattle.std.specs.Prelude.{◌≡◌, ◌+◌, ◌<◌, ◌^◌, ◌≤◌, suc, [], ◌∷◌, Some, IfOk, length};
ghost use Rattle.std.specs.List.{find};
ghost use Rattle.std.specs.Option.{option_copied};
ghost use Rattle.std.specs.Str.{bytes_eq};
ghost use Rattle.pm_logic.specs.Scope.{ScopedIn};
ghost use Rattle.pm_logic.specs.Size.{depth_of, nodes_of};
ghost use Rattle.pm_goal.specs.declared.work.Kind.TheVariants as kind;
ghost use Rattle.pm_table.specs.Limits.{all_nodes, work_formulas, limited, hypotheses};
ghost use Rattle.pm_table.specs.Outcomes as outcomes;
ghost use Rattle.pm_table.specs.Terms as table;
ghost use Rattle.pm_table.specs.Works as works;
ghost use Rattle.pm_action.specs.Acting.{IsHanded};
ghost use Rattle.pm_action.specs.declared.limits.TheConstants.{MOST};
ghost use Rattle.pm_apply.specs.Citing.{AreCitable, AnswersCiting, IsFromNew, IsCiting, EndsCiting, cited_nodes};

use crate::cited::{cited, in_variables};
use pm_action::{limit_row, refuse, refuse_plain, wanted};
use pm_goal::{Held, Kind, Lemma, Lemmas, Row, StepFault, Work, copy_work, left_of_work};
use pm_logic::{Formula, List, Memory, Name, copy, pers};
use pm_proof::{Parts, Proof};
use pm_star::{compose, sink_held};
use pm_table::Place;
use std::alloc::Global;

/// The first lemma of this name.
fn lemma_of<'a>(lemmas: &'a [Lemma], name: &Name) -> Option<&'a Lemma>
    ensures { option_copied result ≡ find (λ l. bytes_eq name.now l.name) lemmas.now }
{
    lemmas.iter().find(|l| name.bytes() == l.name.bytes())
}

/// The work with the formula in hand.
fn with_lemma(alloc: Global, work: &Work, f: &Formula) -> Result<Work, Memory>
    ensures { IfOk result (λ w. w ≡ works.hold kind.Int f.now work.now) }
{
    let mut new = copy_work(alloc, work)?;
    let formula = copy(alloc, f)?;
    let kind = Kind::Int;
    new.held.push(Held { kind, formula })?;
    Ok(new)
}

/// From the new work: the formula's box beside the star of the old one entails the conclusion.
fn from_new(alloc: Global, work: &Work, f: &Formula, new: &Work) -> Result<Proof, Memory>
    requires vars { length work.now.goal.vars < 2 ^ 32 }
    requires few { hypotheses work.now < 2 ^ 32 }
    requires new { new.now ≡ works.hold kind.Int f.now work.now }
    ensures { IfOk result (IsFromNew work.now f.now) }
{
    let goal = &work.goal;
    let place = goal.pures.len() + goal.ints.len() + goal.spats.len() + work.held.len();
    let boxed = pers(alloc, copy(alloc, f)?)?;
    let sunk = sink_held(alloc, work, &boxed, place as u32)?;
    let hole = wanted(alloc, new)?;
    let proof = compose(alloc, sunk, hole)?;
    Ok(proof)
}

/// What the old work means, from what the new one means and from what the lemma says.
fn citing(alloc: Global, work: &Work, f: &Formula, by: Proof) -> Result<Proof, Memory>
    requires handed { IsHanded work.now }
    requires closed { ScopedIn 0 f.now }
    requires shallow { suc (depth_of f.now) ≤ MOST }
    requires by { IsFromNew work.now f.now by }
    ensures { IfOk result (IsCiting work.now f.now) }
{
    let vars = work.goal.vars.len() as u32;
    let left = left_of_work(alloc, work)?;
    let said = in_variables(alloc, vars, f)?;
    let rule = cited(alloc, vars, &left, f, &work.goal.concl)?;
    Ok(rule.fill(1, said).fill(0, by))
}

/// The new work with this proof, or the first limit that it passes.
fn within(alloc: Global, new: Work, proof: Proof) -> Result<Parts<Place>, StepFault>
    ensures { EndsCiting new proof result }
{
    let found = limit_row(alloc, &new.goal, new.held.as_slice())?;
    if let Some(row) = found {
        return Err(refuse_plain(row));
    }
    let mut goals = List::new(alloc);
    goals.push(Place::Current(List::new(alloc), new))?;
    Ok(Parts { goals, proof })
}

/// The lemma's formula is taken in hand.
fn cite(alloc: Global, work: &Work, f: &Formula) -> Result<Parts<Place>, StepFault>
    requires handed { IsHanded work.now }
    requires closed { ScopedIn 0 f.now }
    requires shallow { suc (depth_of f.now) ≤ MOST }
    ensures { AnswersCiting (all_nodes (work_formulas work.now) + nodes_of f.now) work.now (Some f.now) (limited (outcomes.one (works.hold kind.Int f.now work.now))) result }
{
    let new = with_lemma(alloc, work, f)?;
    let by = from_new(alloc, work, f, &new)?;
    let proof = citing(alloc, work, f, by)?;
    within(alloc, new, proof)
}

/// The formula of the lemma of this name is last in hand, intuitionistic. The last hole of the proof, behind the one of the new
/// work, is what the lemma says.
///
/// It is refused where there is no lemma of this name, and where the new work passes a limit. The error is the refusal, or want
/// of memory.
pub fn lemma(
    alloc: Global,
    work: &Work,
    lemmas: &Lemmas,
    name: &Name,
) -> Result<Parts<Place>, StepFault>
    requires handed { IsHanded work.now }
    requires citable { AreCitable lemmas.now }
    ensures { AnswersCiting (cited_nodes work.now (table.lemma_named name.now lemmas.now.list)) work.now (table.lemma_named name.now lemmas.now.list) (limited (table.lemma lemmas.now name.now work.now)) result }
{
    match lemma_of(lemmas.list.as_slice(), name) {
        Some(found) => cite(alloc, work, &found.formula),
        None => Err(refuse(alloc, Row::NoSuchLemma, name)),
    }
}
