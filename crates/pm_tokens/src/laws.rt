//! Laws over the definitions.

ghost use Rattle.pm_tokens.specs.Spelling.{NamesAreRead, NumbersAreRead, SymbolsAreRead};
ghost use Rattle.pm_tokens.specs.Texts.{HasOneList};

/// Each text has one list of tokens, and one place where they stop.
pub fn texts_have_one_list()
    ensures { HasOneList }
{}

/// A name before bytes that do not continue it is read as this name, but `_` alone between quotes, which is a symbol.
pub fn names_are_read()
    ensures { NamesAreRead }
{}

/// Digits before what is no digit are read as their number.
pub fn numbers_are_read()
    ensures { NumbersAreRead }
{}

/// The longest symbol is read where its first character starts no name and no comment.
pub fn symbols_are_read()
    ensures { SymbolsAreRead }
{}
