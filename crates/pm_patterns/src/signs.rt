//! What the symbols between quotes begin.

ghost use Rattle.std.specs.Prelude.{◌≡◌};
ghost use Rattle.pm_tokens.specs.Tokens.{token_of};
ghost use Rattle.pm_patterns.specs.Signs.{pattern_sign, item_of, sel_of, premise_of, nesting_of, token_nesting};

use crate::pattern::{Pat, Sel, Spat};
use pm_tokens::{Symbol, Token};

/// How a pattern begins.
#[derive(Clone, Copy)]
pub enum PatternSign {
    Name,
    Fresh,
    Drop,
    Frame,
    Rewrite,
    RewriteBack,
    Bracket,
    Group,
    Fact,
    Int,
    Spat,
    Elim,
}

/// What a token is to the brackets and parentheses around an ampersand.
#[derive(Clone, Copy)]
pub enum Nesting {
    Opens,
    Closes,
    Ampersand,
    Quote,
    Inside,
}

/// The pattern that begins with a symbol.
#[tactic(auto, unfolding(crate::specs::Signs::pattern_sign))]
pub fn pattern_sign(symbol: Symbol) -> Option<PatternSign>
    ensures { result ≡ pattern_sign symbol }
{
    match symbol {
        Symbol::Question => Some(PatternSign::Fresh),
        Symbol::Wildcard => Some(PatternSign::Drop),
        Symbol::Dollar => Some(PatternSign::Frame),
        Symbol::Arrow => Some(PatternSign::Rewrite),
        Symbol::BackArrow => Some(PatternSign::RewriteBack),
        Symbol::OpenBracket => Some(PatternSign::Bracket),
        Symbol::Open => Some(PatternSign::Group),
        Symbol::Percent => Some(PatternSign::Fact),
        Symbol::Hash => Some(PatternSign::Int),
        Symbol::MinusHash => Some(PatternSign::Spat),
        Symbol::Greater => Some(PatternSign::Elim),
        _ => None,
    }
}

/// The introduction item that is a symbol alone.
#[tactic(auto, unfolding(crate::specs::Signs::item_of))]
pub fn item_of(symbol: Symbol) -> Option<Pat>
    ensures { result ≡ item_of symbol }
{
    match symbol {
        Symbol::Modality => Some(Pat::ModIntro),
        Symbol::DoubleSlash => Some(Pat::Done),
        Symbol::Asterisk => Some(Pat::Alls),
        Symbol::DoubleAsterisk => Some(Pat::AllsWands),
        _ => None,
    }
}

/// The selection that is a symbol alone.
#[tactic(auto, unfolding(crate::specs::Signs::sel_of))]
pub fn sel_of(symbol: Symbol) -> Option<Sel>
    ensures { result ≡ sel_of symbol }
{
    match symbol {
        Symbol::Percent => Some(Sel::Pures),
        Symbol::Hash => Some(Sel::Ints),
        Symbol::Asterisk => Some(Sel::Spats),
        _ => None,
    }
}

/// The specialisation pattern that is a symbol alone in its brackets.
#[tactic(auto, unfolding(crate::specs::Signs::premise_of))]
pub fn premise_of(symbol: Symbol) -> Option<Spat>
    ensures { result ≡ premise_of symbol }
{
    match symbol {
        Symbol::Hash => Some(Spat::Persistent),
        Symbol::Percent => Some(Spat::Pure),
        Symbol::DoubleSlash => Some(Spat::Done),
        _ => None,
    }
}

#[tactic(auto, unfolding(crate::specs::Signs::nesting_of))]
fn nesting_of(symbol: Symbol) -> Nesting
    ensures { result ≡ nesting_of symbol }
{
    match symbol {
        Symbol::Open => Nesting::Opens,
        Symbol::OpenBracket => Nesting::Opens,
        Symbol::Close => Nesting::Closes,
        Symbol::CloseBracket => Nesting::Closes,
        Symbol::Ampersand => Nesting::Ampersand,
        Symbol::Quote => Nesting::Quote,
        _ => Nesting::Inside,
    }
}

pub fn token_nesting(token: Token<'_>) -> Nesting
    ensures { result ≡ token_nesting (token_of token.entry) }
{
    match token {
        Token::Name(_) => Nesting::Inside,
        Token::Number(_) => Nesting::Inside,
        Token::Symbol(symbol) => nesting_of(symbol),
    }
}
