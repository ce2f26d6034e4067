//! Copies of goals, which share their formulas.

ghost use Rattle.std.specs.Prelude.{◌≡◌, IfOk, OnOk};
ghost use Rattle.std.specs.Str.{bytes_eq};
ghost use Rattle.indexmap.specs.IndexMap.{insert_entry};

use crate::goal::Goal;
use crate::work::{Held, Work};
use indexmap::IndexMap;
use pm_logic::{Formula, List, Memory, Name, Pure, copy, copy_name, copy_pure};
use std::alloc::Global;

/// What can be copied into memory that may be wanting.
pub trait Copied: Drop + Sized {
    /// The same once more.
    fn copied(&self, alloc: Global) -> Result<Self, Memory>
        ensures { IfOk result (λ copy. copy ≡ self.now) };
}

impl Copied for Name {
    fn copied(&self, alloc: Global) -> Result<Name, Memory> {
        copy_name(alloc, self)
    }
}

impl Copied for Formula {
    fn copied(&self, alloc: Global) -> Result<Formula, Memory> {
        copy(alloc, self)
    }
}

impl Copied for Pure {
    fn copied(&self, alloc: Global) -> Result<Pure, Memory> {
        copy_pure(alloc, self)
    }
}

impl Copied for Held {
    fn copied(&self, alloc: Global) -> Result<Held, Memory> {
        let formula = copy(alloc, &self.formula)?;
        Ok(Held {
            kind: self.kind,
            formula,
        })
    }
}

fn copy_list<T: Copied>(alloc: Global, list: &[T]) -> Result<List<T>, Memory>
    ensures { IfOk result (λ copy. copy ≡ list.now) }
{
    let mut out = List::new(alloc);
    for item in list {
        out.push(item.copied(alloc)?)?;
    }
    Ok(out)
}

/// Adds a copy of an entry whose name isn't in the map yet.
fn copy_entry<V: Copied>(
    alloc: Global,
    out: &mut IndexMap<Name, V>,
    name: &Name,
    value: &V,
) -> Result<(), Memory>
    ensures { OnOk result (out.new.entries ≡ insert_entry bytes_eq out.old.entries name.now value.now) }
{
    let name = copy_name(alloc, name)?;
    let value = value.copied(alloc)?;
    out.insert(name, value)?;
    Ok(())
}

/// The same map from names once more.
pub fn copy_map<V: Copied>(
    alloc: Global,
    map: &IndexMap<Name, V>,
) -> Result<IndexMap<Name, V>, Memory>
    ensures { IfOk result (λ copy. copy.entries ≡ map.now.entries) }
{
    let mut out = IndexMap::new(alloc);
    let len = map.len();
    let mut i = 0;
    while i < len {
        let Some((name, value)) = map.get_index(i) else {
            return Ok(out);
        };
        copy_entry(alloc, &mut out, name, value)?;
        i += 1;
    }
    Ok(out)
}

/// The same goal once more. It shares the formulas, and has names of its own. The error is want of memory, and then there is
/// no copy.
pub fn copy_goal(alloc: Global, goal: &Goal) -> Result<Goal, Memory>
    ensures { IfOk result (λ copy. copy ≡ goal.now) }
{
    let vars = copy_list(alloc, goal.vars.as_slice())?;
    let pures = goal.pures.copy(alloc)?;
    let ints = goal.ints.copy(alloc)?;
    let spats = goal.spats.copy(alloc)?;
    let concl = copy(alloc, &goal.concl)?;
    Ok(Goal {
        vars,
        pures,
        ints,
        spats,
        concl,
    })
}

/// The same goal with the same hypotheses in hand once more, as `copy_goal` does.
pub fn copy_work(alloc: Global, work: &Work) -> Result<Work, Memory>
    ensures { IfOk result (λ copy. copy ≡ work.now) }
{
    let held = copy_list(alloc, work.held.as_slice())?;
    let goal = copy_goal(alloc, &work.goal)?;
    Ok(Work { goal, held })
}
