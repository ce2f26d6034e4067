//! Laws about framing, application and certificates, each the contract of a function with nothing to do.

ghost use Rattle.pm_table.specs.FramingLaws.{FramingShrinks};
ghost use Rattle.pm_table.specs.LinearLaws.{BoxIsRule};
ghost use Rattle.pm_table.specs.ApplicationLaws.{ApplyTakesLeast};

/// What framing leaves of a conclusion is truth, or has no more nodes than the conclusion and isn't deeper.
#[tactic(auto, using(crate::proofs::Framings::framing_shrinks))]
pub fn framing_shrinks()
    ensures { FramingShrinks }
{}

/// An application makes the fewest premises by which its result reaches the conclusion, and is refused where no number
/// of premises reaches it.
#[tactic(auto, using(crate::proofs::Applications::apply_takes_least))]
pub fn apply_takes_least()
    ensures { ApplyTakesLeast }
{}

/// Where the box has a certificate, the rule of linear arithmetic takes the conjunction of the atoms that are looked at to
/// the conclusion.
#[tactic(auto, using(crate::proofs::Boxes::box_is_rule))]
pub fn box_is_rule()
    ensures { BoxIsRule }
{}
