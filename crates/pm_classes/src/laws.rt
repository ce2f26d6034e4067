//! Laws of the class table: facts over the definitions, each the contract of a function with nothing to do.

ghost use Rattle.pm_classes.specs.Laws.{EntriesAreNoLarger, EntriesAreScoped};

/// The parts of an entry have neither more nodes nor more levels than the formula.
#[tactic(auto, using(crate::proofs::Smaller::no_larger))]
pub fn entries_are_no_larger()
    ensures { EntriesAreNoLarger }
{}

/// The parts of an entry are scoped where the formula is, and the body of a quantifier in one variable more.
#[tactic(auto, using(crate::proofs::Scoped::scoped))]
pub fn entries_are_scoped()
    ensures { EntriesAreScoped }
{}
