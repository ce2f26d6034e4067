//! What is framed by its name, in its place beside the others.

ghost use Rattle.std.specs.Prelude.{◌≡◌, IfOk};
ghost use Rattle.pm_goal.specs.Left.{of_kind, left_of_work};
ghost use Rattle.pm_action.specs.Acting.{IsHanded};
ghost use Rattle.pm_hand.specs.Looking.{IsHypAt, IsFactAt};
ghost use Rattle.pm_framing.specs.Parting.{IsApart};
ghost use Rattle.pm_framing.specs.Sources.{IsSource, Finds, spent};

use pm_goal::{Kind, Work, copy_work};
use pm_hand::{Lookup, look_up, without_named};
use pm_logic::{Formula, Memory, Name, Pure};
use pm_proof::Proof;
use pm_star::{bring_front_held, duplicate_held};
use std::alloc::Global;

/// A hypothesis or fact: its place in the star, how it stands there, its formula, and whether framing leaves it in the goal.
#[derive(Drop)]
pub(crate) struct Source {
    pub(crate) place: u32,
    pub(crate) kind: Kind,
    pub(crate) formula: Formula,
    pub(crate) stays: bool,
}

/// A hypothesis; a spatial one is used up.
fn hypothesis(work: &Work, name: &Name, place: u32, kind: Kind, formula: Formula) -> Source
    requires { IsHypAt work.now.goal name.now place kind formula }
    ensures { IsSource work.now.goal name.now result }
{
    match kind {
        Kind::Int => Source {
            place,
            kind: Kind::Int,
            formula,
            stays: true,
        },
        Kind::Spat => Source {
            place,
            kind: Kind::Spat,
            formula,
            stays: false,
        },
    }
}

/// A fact, which stands in the star as it is.
fn fact(work: &Work, name: &Name, place: u32, pure: Pure) -> Source
    requires { IsFactAt work.now.goal name.now place pure }
    ensures { IsSource work.now.goal name.now result }
{
    Source {
        place,
        kind: Kind::Spat,
        formula: Formula::Pure(pure),
        stays: true,
    }
}

/// What the name names, and `None` where it names nothing.
pub(crate) fn find(alloc: Global, work: &Work, name: &Name) -> Result<Option<Source>, Memory>
    requires { IsHanded work.now }
    ensures { IfOk result (Finds work.now.goal name.now) }
{
    let found = look_up(alloc, &work.goal, name)?;
    match found {
        Some(Lookup::Hyp(place, kind, formula)) => {
            Ok(Some(hypothesis(work, name, place, kind, formula)))
        }
        Some(Lookup::Fact(place, pure)) => Ok(Some(fact(work, name, place, pure))),
        None => Ok(None),
    }
}

/// The work without what is used up.
pub(crate) fn rest_of(
    alloc: Global,
    work: &Work,
    name: &Name,
    source: &Source,
) -> Result<Work, Memory>
    requires handed { IsHanded work.now }
    requires source { IsSource work.now.goal name.now source.now }
    ensures { IfOk result (λ w. w ≡ spent work.now name.now) }
{
    let mut rest = copy_work(alloc, work)?;
    if !source.stays {
        rest.goal = without_named(alloc, &work.goal, name)?;
    }
    Ok(rest)
}

/// From the star to the source beside the star of the rest.
pub(crate) fn apart(
    alloc: Global,
    work: &Work,
    name: &Name,
    source: &Source,
) -> Result<Proof, Memory>
    requires handed { IsHanded work.now }
    requires source { IsSource work.now.goal name.now source.now }
    ensures { IfOk result (λ p. IsApart work.now (of_kind source.now.kind source.now.formula) (left_of_work (spent work.now name.now)) p) }
{
    if source.stays {
        let proof = duplicate_held(alloc, work, source.place)?;
        Ok(proof)
    } else {
        let proof = bring_front_held(alloc, work, source.place)?;
        Ok(proof)
    }
}
