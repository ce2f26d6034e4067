//! Laws over the definitions alone, each the contract of a function with nothing to do.

ghost use Rattle.pm_check.specs.Laws.{VerdictsAreOne, NoneLacksVerdict, ProofLinesAreTrue, DerivationsAreTrue, NothingAbsurd};

/// Fewer than 2^64 bytes determine the table and the statements of a derivation, and the first offence, and never have
/// both.
#[tactic(auto, using(crate::proofs::Verdicts::verdicts_are_one))]
pub fn verdicts_are_one()
    ensures { VerdictsAreOne }
{}

/// No bytes are neither a derivation nor have a first offence.
pub fn none_lacks_verdict()
    ensures { NoneLacksVerdict }
{}

/// Each proof line of a text that begins a derivation is true in the step-indexed model under the text's table, in every
/// environment of its variables, at every step and for every resource.
pub fn proof_lines_are_true()
    ensures { ProofLinesAreTrue }
{}

/// Each statement of a derivation is true in the step-indexed model under the derivation's table, at every step and for
/// every resource, whoever wrote the derivation.
pub fn derivations_are_true()
    ensures { DerivationsAreTrue }
{}

/// No derivation states falsehood, nor falsehood one step later.
pub fn nothing_absurd_is_derived()
    ensures { NothingAbsurd }
{}
