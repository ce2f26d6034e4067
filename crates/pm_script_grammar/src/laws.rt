//! Laws of the reading of sentences, each the contract of a function with nothing to do.

ghost use Rattle.pm_script_grammar.specs.Fitting.{WhatIsDerivedFits, WhatIsReadFits};
ghost use Rattle.pm_script_grammar.specs.SentenceLaws.{SentencesAreComplete, SentencesAreSound};

/// What the grammar of formulas derives is in range.
#[tactic(auto, using(crate::proofs::Derived::derived_fits))]
pub fn derived_texts_fit()
    ensures { WhatIsDerivedFits }
{}

/// The trees and the name of a lemma or a predicate that is read are in range.
#[tactic(auto, using(crate::proofs::Fitted::sentences_fit))]
pub fn read_sentences_fit()
    ensures { WhatIsReadFits }
{}

/// A sentence that is read is derived by the grammar.
#[tactic(auto, using(crate::proofs::SentencesDerived::sentences_sound))]
pub fn read_sentences_are_derived()
    ensures { SentencesAreSound }
{}

/// A sentence that the grammar derives is read, wherever its tokens stand, or it is too deep.
#[tactic(auto, using(crate::proofs::SentencesRead::sentences_complete))]
pub fn derived_sentences_are_read()
    ensures { SentencesAreComplete }
{}
