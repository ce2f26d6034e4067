//! Laws over the definitions alone, each the contract of a function with nothing to do.

ghost use Rattle.pm_dtext.specs.Laws.{LinesAreRead, HeadersAreRead, AritiesAreRead, PredsAreRead, RangesAreScopes, NamesAreNumbered};

/// A line is read exactly where it is in its ranges and spelled so.
#[tactic(auto, using(crate::proofs::Stated::lines))]
pub fn lines_are_read()
    ensures { LinesAreRead }
{}

/// The first line is read exactly where it is spelled so.
#[tactic(auto, using(crate::proofs::Stated::headers))]
pub fn headers_are_read()
    ensures { HeadersAreRead }
{}

/// The arities are read exactly where they are in their ranges and spelled so.
#[tactic(auto, using(crate::proofs::Stated::arities))]
pub fn arities_are_read()
    ensures { AritiesAreRead }
{}

/// A predicate is read exactly where it is in its ranges and spelled so.
#[tactic(auto, using(crate::proofs::Stated::preds))]
pub fn preds_are_read()
    ensures { PredsAreRead }
{}

/// A formula is in its range over the arities of a table exactly where it is scoped in the table and its integers have 64
/// bits, which pm_logic's `formula_is_i64` gives of every formula that code holds.
#[tactic(auto, using(crate::proofs::Stated::scopes))]
pub fn ranges_are_scopes()
    ensures { RangesAreScopes }
{}

/// The name of a rule is the one of its number.
#[tactic(auto, using(crate::proofs::Stated::names))]
pub fn names_are_numbered()
    ensures { NamesAreNumbered }
{}
