//! Patterns: what is in hand, destructed.

ghost use Rattle.pm_table.specs.Patterns as table;
ghost use Rattle.pm_sweep.specs.Acts.{handling};
ghost use Rattle.pm_directives.specs.Built.{IsBuiltPattern};
ghost use Rattle.pm_sweep.specs.Standing.{IsStanding, Follows};

use pm_goal::StepFault;
use pm_patterns::Pat;
use pm_proof::Parts;
use pm_sweep::{Act, Handling, Turn, sweep};
use pm_table::Place;
use std::alloc::Global;

/// The action of a pattern that has so many parts, on the works that it is for.
fn turn(
    alloc: Global,
    standing: Parts<Place>,
    parts: usize,
    act: Handling,
) -> Result<Parts<Place>, StepFault>
    requires { IsStanding standing }
    ensures { Follows standing (table.turn parts (handling act.entry) standing.goals) result }
{
    sweep(alloc, standing, Turn::Next(parts), Act::Handle(act))
}

/// The pattern, on what is last in hand of the works that it is for.
pub fn destruct(alloc: Global, pat: &Pat, standing: Parts<Place>) -> Result<Parts<Place>, StepFault>
    requires built { IsBuiltPattern pat.now }
    requires standing { IsStanding standing }
    ensures { Follows standing (table.destruct pat.now standing.goals) result }
{
    match pat {
        Pat::Name(name) => turn(alloc, standing, 0, Handling::Name(name)),
        Pat::Fresh => turn(alloc, standing, 0, Handling::NameFresh),
        Pat::Drop => turn(alloc, standing, 0, Handling::Drop),
        Pat::Frame => turn(alloc, standing, 0, Handling::Frame),
        Pat::Pair(a, b) => {
            let first = a.get();
            let second = b.get();
            let opened = turn(alloc, standing, 2, Handling::Pair(first, second))?;
            let halved = destruct(alloc, first, opened)?;
            destruct(alloc, second, halved)
        }
        Pat::Either(a, b) => {
            let left = a.get();
            let right = b.get();
            let opened = turn(alloc, standing, 2, Handling::Either)?;
            let halved = destruct(alloc, left, opened)?;
            destruct(alloc, right, halved)
        }
        Pat::Absurd => turn(alloc, standing, 0, Handling::Absurd),
        Pat::PureName(name) => turn(alloc, standing, 0, Handling::ToPure(name)),
        Pat::PureFresh => turn(alloc, standing, 0, Handling::ToPureFresh),
        Pat::Int(a) => {
            let boxed = a.get();
            let opened = turn(alloc, standing, 1, Handling::ToInt)?;
            destruct(alloc, boxed, opened)
        }
        Pat::Spat(a) => {
            let spatial = a.get();
            let opened = turn(alloc, standing, 1, Handling::ToSpat)?;
            destruct(alloc, spatial, opened)
        }
        _ => unreachable!(),
    }
}
