//! Soundness of the rule table in the step-indexed model: in a guarded table with scoped bodies, each rule leads from
//! true premises to a true conclusion. These are facts over the definitions alone, each the contract of a function with
//! nothing to do.
#![tactic(auto)]

ghost use Rattle.pm_sound.specs.Groups.{ConnectivesAreSound, LaterIsSound, PersistenceIsSound, PointsToIsSound, PureIsSound, RecursionIsSound, StarIsSound, UpdatesAreSound};
ghost use Rattle.pm_sound.specs.Laws.{AllAreSound, TablesAreConsistent};

/// Identity, cut and instantiation, the propositional connectives and the quantifiers.
pub fn connectives_are_sound()
    ensures { ConnectivesAreSound }
{}

/// Star and wand.
pub fn star_is_sound()
    ensures { StarIsSound }
{}

/// The later modality and Löb induction.
pub fn later_is_sound()
    ensures { LaterIsSound }
{}

/// The persistence modality.
pub fn persistence_is_sound()
    ensures { PersistenceIsSound }
{}

/// The update modality.
pub fn updates_are_sound()
    ensures { UpdatesAreSound }
{}

/// Pure formulas, linear certificates and rewriting.
pub fn pure_is_sound()
    ensures { PureIsSound }
{}

/// Points-to, its fractions, and how it is written and allocated.
pub fn points_to_is_sound()
    ensures { PointsToIsSound }
{}

/// Calls of predicates, which are folded and unfolded, and timeless formulas.
pub fn recursion_is_sound()
    ensures { RecursionIsSound }
{}

/// Every rule of the table.
pub fn all_sound()
    ensures { AllAreSound }
{}

/// In no table does truth entail falsehood, nor falsehood one step later.
pub fn tables_are_consistent()
    ensures { TablesAreConsistent }
{}
