//! Laws between reading and the grammar, each the contract of a function with nothing to do.

ghost use Rattle.pm_grammar.specs.ReadingLaws.{GrammarIsUnambiguous, ReadingIsComplete, ReadingIsSound, ShallowIsRead};
ghost use Rattle.pm_grammar.specs.Parts.{PartsAreDerived, PartsAreRead};

/// What is read is derived by the grammar.
#[tactic(auto, using(crate::proofs::Sound::sound))]
pub fn read_texts_are_derived()
    ensures { ReadingIsSound }
{}

/// What the grammar derives is read, wherever its tokens stand, or it is too deep.
#[tactic(auto, using(crate::proofs::Complete::complete))]
pub fn derived_texts_are_read()
    ensures { ReadingIsComplete }
{}

/// What the grammar derives is read, where its tokens open fewer than `MAX_LEVELS` constructs and its tree has no more than `MAX_LEVELS` levels.
#[tactic(auto, using(crate::proofs::Complete::shallow_is_read))]
pub fn shallow_texts_are_read()
    ensures { ShallowIsRead }
{}

/// The grammar derives one tree at most for a list of tokens.
#[tactic(auto, using(crate::proofs::Complete::unambiguous))]
pub fn texts_have_one_tree()
    ensures { GrammarIsUnambiguous }
{}

/// What is read in the middle of a text is derived from the tokens before those that are left.
#[tactic(auto, using(crate::proofs::Sound::parts))]
pub fn read_parts_are_derived()
    ensures { PartsAreDerived }
{}

/// What the grammar derives is read in the middle of a text, where it can't go on with what follows, or it is too deep.
#[tactic(auto, using(crate::proofs::Complete::parts))]
pub fn derived_parts_are_read()
    ensures { PartsAreRead }
{}
