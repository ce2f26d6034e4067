//! Steps of a reader over a slice of tokens. `stop` is the offset in bytes at which the tokens end.

ghost use Rattle.std.specs.Prelude.{◌≡◌, ◌≤◌, ◌==◌, ◌&&◌, length, drop, zero, IsTrue};
ghost use Rattle.pm_tokens.specs.Tokens.{places, token_of};
ghost use Rattle.pm_terms.specs.Steps.{LeavesExactly, same_symbol, is_symbol, sees, sees_number, offset, unexpected, expect, after_group};

use crate::fault::TextFault;
use pm_tokens::{Placed, Symbol, Token};

#[tactic(auto, unfolding(crate::specs::Steps::same_symbol))]
fn same_symbol(a: Symbol, b: Symbol) -> bool
    ensures { result ≡ same_symbol a b }
{
    a == b
}

/// Whether the token is this symbol.
pub fn is_symbol(symbol: Symbol, token: Token<'_>) -> bool
    ensures { result ≡ is_symbol symbol (token_of token.entry) }
{
    match token {
        Token::Name(_) => false,
        Token::Number(_) => false,
        Token::Symbol(found) => same_symbol(found, symbol),
    }
}

/// Whether this symbol is next.
#[tactic(auto, unfolding(crate::specs::Steps::sees))]
pub fn sees(symbol: Symbol, tokens: &[Placed<'_>]) -> bool
    ensures value { result ≡ sees symbol (places tokens.now) }
    ensures some { IsTrue result → 1 ≤ length tokens.now }
{
    match tokens {
        [] => false,
        [first, ..] => is_symbol(symbol, first.token),
    }
}

/// Whether a number is next.
#[tactic(auto, unfolding(crate::specs::Steps::sees_number))]
pub fn sees_number(tokens: &[Placed<'_>]) -> bool
    ensures value { result ≡ sees_number (places tokens.now) }
    ensures some { IsTrue result → 1 ≤ length tokens.now }
{
    match tokens {
        [] => false,
        [first, ..] => match first.token {
            Token::Name(_) => false,
            Token::Number(_) => true,
            Token::Symbol(_) => false,
        },
    }
}

/// The tokens behind the next one, none where there is none.
pub fn behind<'a, 'b>(tokens: &'a [Placed<'b>]) -> &'a [Placed<'b>]
    ensures value { places result.now ≡ drop 1 (places tokens.now) }
    ensures within { length result.now ≤ length tokens.now }
{
    match tokens {
        [] => tokens,
        [_, rest @ ..] => rest,
    }
}

/// The offset of the next token, or of the end.
pub fn offset(stop: usize, tokens: &[Placed<'_>]) -> u64
    ensures { result ≡ offset stop (places tokens.now) }
{
    match tokens {
        [] => stop as u64,
        [first, ..] => first.at as u64,
    }
}

/// The fault that the next token, or the end, can't stand there.
#[tactic(auto, unfolding(crate::specs::Steps::unexpected))]
pub fn unexpected(stop: usize, tokens: &[Placed<'_>]) -> TextFault
    ensures { result ≡ unexpected stop (places tokens.now) }
{
    TextFault::Unexpected(offset(stop, tokens))
}

/// Whether all tokens are read, and they end with the text, whose length in bytes is `end`.
pub fn is_whole(end: usize, stop: usize, tokens: &[Placed<'_>]) -> bool
    ensures { result ≡ (length (places tokens.now) == 0 && (stop == end)) }
{
    tokens.is_empty() && stop == end
}

/// The tokens behind this symbol, which must be next, else `Unexpected` at what is.
#[tactic(auto, unfolding(crate::specs::Steps::expect))]
pub fn expect<'a, 'b>(
    symbol: Symbol,
    stop: usize,
    tokens: &'a [Placed<'b>],
) -> Result<&'a [Placed<'b>], TextFault>
    ensures { LeavesExactly result (expect symbol stop (places tokens.now)) }
{
    if sees(symbol, tokens) {
        Ok(behind(tokens))
    } else {
        Err(unexpected(stop, tokens))
    }
}

/// Of the tokens behind a parenthesis that opens, those behind the one that closes it. There are none where it isn't
/// closed before a quote or the end.
#[tactic(auto, unfolding(crate::specs::Steps::after_group))]
pub fn after_group<'a, 'b>(tokens: &'a [Placed<'b>]) -> &'a [Placed<'b>]
    ensures { places result.now ≡ after_group zero (places tokens.now) }
{
    let mut open: usize = 0;
    let mut rest = tokens;
    while let [first, after @ ..] = rest {
        match first.token {
            Token::Symbol(Symbol::Quote) => return &tokens[..0],
            Token::Symbol(Symbol::Open) => open += 1,
            Token::Symbol(Symbol::Close) => {
                if open == 0 {
                    return after;
                }
                open -= 1;
            }
            _ => {}
        }
        rest = after;
    }
    rest
}
