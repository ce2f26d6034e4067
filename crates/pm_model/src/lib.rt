//! The step-indexed model: resources, forcing and its laws, true entailment, and heaps.
#![tactic(auto)]

ghost use Rattle.pm_model.specs.Heap.{HeapLaws};
ghost use Rattle.pm_model.specs.Laws.{BodiesAreForced, Bound, CoreLaws, IsTable, Monotone, PersistentIsBoxed, Substitution};

mod heap;

pub use heap::{Cell, Heap, join};

/// The core of a resource is a part that adds nothing, is its own core, and grows with the resource.
pub fn core_laws()
    ensures { CoreLaws }
{}

/// Forcing is its table, row by row.
pub fn table()
    ensures { IsTable }
{}

/// The meaning of a predicate's body is that the body is forced, with the predicate's number as the bound.
pub fn bodies_are_forced()
    ensures { BodiesAreForced }
{}

/// What is forced stays forced at smaller steps and by larger resources.
pub fn monotone()
    ensures { Monotone }
{}

/// Where all calls that stand under no later are below both bounds, a formula is forced with the one exactly where it is
/// with the other.
pub fn bound()
    ensures { Bound }
{}

/// After a substitution a formula is forced exactly where it is forced in the values of the terms.
pub fn substitution()
    ensures { Substitution }
{}

/// What is persistent by its form entails its own box.
pub fn persistent_is_boxed()
    ensures { PersistentIsBoxed }
{}

/// Heaps are resources. Where heaps are together their resources join, and where they clash no resource is their resources
/// together.
pub fn heap_laws()
    ensures { HeapLaws }
{}
