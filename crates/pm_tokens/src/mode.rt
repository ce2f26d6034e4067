//! Where in a text a token stands.

ghost use Rattle.std.specs.Prelude.{◌≡◌};
ghost use Rattle.pm_tokens.specs.Tokens.{token_of};
ghost use Rattle.pm_tokens.specs.Modes.{started, after_quote, after};

use crate::symbol::Symbol;
use crate::token::Token;

/// Which symbols may come next. A text that starts with `linear` has more of them between quotes.
#[derive(Clone, Copy, PartialEq, Eq)]
pub enum Mode {
    /// Before the first token.
    Start,
    Outside,
    Quoted,
    OutsideLinear,
    QuotedLinear,
}

/// Behind a token that is no quote.
fn started(mode: Mode, linear: bool) -> Mode
    ensures { result ≡ started mode linear }
{
    match mode {
        Mode::Start => {
            if linear {
                Mode::OutsideLinear
            } else {
                Mode::Outside
            }
        }
        Mode::Outside => Mode::Outside,
        Mode::Quoted => Mode::Quoted,
        Mode::OutsideLinear => Mode::OutsideLinear,
        Mode::QuotedLinear => Mode::QuotedLinear,
    }
}

fn after_quote(mode: Mode) -> Mode
    ensures { result ≡ after_quote mode }
{
    match mode {
        Mode::Start => Mode::Quoted,
        Mode::Outside => Mode::Quoted,
        Mode::Quoted => Mode::Outside,
        Mode::OutsideLinear => Mode::QuotedLinear,
        Mode::QuotedLinear => Mode::OutsideLinear,
    }
}

/// The mode behind a token.
#[tactic(auto, unfolding(crate::specs::Modes::after))]
pub fn after(mode: Mode, token: Token) -> Mode
    ensures { result ≡ after mode (token_of token.entry) }
{
    match token {
        Token::Name(name) => started(mode, name == "linear".as_bytes()),
        Token::Number(_) => started(mode, false),
        Token::Symbol(symbol) => {
            if symbol == Symbol::Quote {
                after_quote(mode)
            } else {
                started(mode, false)
            }
        }
    }
}
