//! Laws over the definitions, each the contract of a function with nothing to do.

ghost use Rattle.pm_roundtrip.specs.PrintingLaws.{PrintedIsRead, PrintingIsDerived, PrintingIsLexed, ShallowPrintedIsRead};

/// The grammar derives the tokens of a printed term, pure formula or formula for that tree.
#[tactic(auto, using(crate::proofs::FormulasDerived::printing_is_derived))]
pub fn printing_is_derived()
    ensures { PrintingIsDerived }
{}

/// The tokens of a printed term, pure formula or formula are those that were printed, up to its end.
#[tactic(auto, using(crate::proofs::Printed::printing_is_lexed))]
pub fn printing_is_lexed()
    ensures { PrintingIsLexed }
{}

/// A printed term, pure formula or formula is read again, or it is too deep.
#[tactic(auto, using(crate::proofs::ReadAgain::printed_is_read))]
pub fn printed_is_read()
    ensures { PrintedIsRead }
{}

/// It isn't too deep where its tokens open fewer than `MAX_LEVELS` constructs and its tree has no more than `MAX_LEVELS` levels.
#[tactic(auto, using(crate::proofs::ReadAgain::shallow_printed_is_read))]
pub fn shallow_printed_is_read()
    ensures { ShallowPrintedIsRead }
{}
