//! Numbers and literals. `stop` is the offset in bytes at which the tokens end, and `at` that of the digits.

ghost use Rattle.std.specs.Prelude.{◌≡◌};
ghost use Rattle.pm_tokens.specs.Tokens.{places};
ghost use Rattle.pm_terms.specs.Steps.{ReadsExactly, natural, positive, negative, digits, literal};
ghost use Rattle.pm_terms.specs.TermReading.{begins_literal, after_literal, begins_scale, begins_negation};

use crate::fault::TextFault;
use crate::steps::{behind, sees, sees_number};
use pm_tokens::{Placed, Symbol, Token};

/// The number, where it is below 2^63, else `Number`.
pub fn natural(number: u64, at: usize) -> Result<u64, TextFault>
    ensures { result ≡ natural number at }
{
    if number < 1 << 63 {
        Ok(number)
    } else {
        Err(TextFault::Number(at as u64))
    }
}

/// The number as a literal with no minus, else `Number`.
pub fn positive(number: u64, at: usize) -> Result<i64, TextFault>
    ensures { result ≡ positive number at }
{
    if number < 1 << 63 {
        Ok(number as i64)
    } else {
        Err(TextFault::Number(at as u64))
    }
}

/// The number as a literal behind a minus, else `Number`.
pub fn negative(number: u64, at: usize) -> Result<i64, TextFault>
    ensures { result ≡ negative number at }
{
    if number < 1 << 63 {
        Ok(-(number as i64))
    } else if number == 1 << 63 {
        Ok(i64::MIN)
    } else {
        Err(TextFault::Number(at as u64))
    }
}

/// A number below 2^63, and the tokens behind it: `Unexpected` at the next token where it is no number, and else `Number`.
#[tactic(auto, unfolding(crate::specs::Steps::digits))]
pub fn read_natural<'a, 'b>(
    stop: usize,
    tokens: &'a [Placed<'b>],
) -> Result<(u64, &'a [Placed<'b>]), TextFault>
    ensures { ReadsExactly result (digits stop natural (places tokens.now)) }
{
    let [first, rest @ ..] = tokens else {
        return Err(TextFault::Unexpected(stop as u64));
    };
    match first.token {
        Token::Name(_) => Err(TextFault::Unexpected(first.at as u64)),
        Token::Number(number) => Ok((natural(number, first.at)?, rest)),
        Token::Symbol(_) => Err(TextFault::Unexpected(first.at as u64)),
    }
}

/// A literal with no minus, and the tokens behind it.
#[tactic(auto, unfolding(crate::specs::Steps::digits))]
fn read_positive<'a, 'b>(
    stop: usize,
    tokens: &'a [Placed<'b>],
) -> Result<(i64, &'a [Placed<'b>]), TextFault>
    ensures { ReadsExactly result (digits stop positive (places tokens.now)) }
{
    let [first, rest @ ..] = tokens else {
        return Err(TextFault::Unexpected(stop as u64));
    };
    match first.token {
        Token::Name(_) => Err(TextFault::Unexpected(first.at as u64)),
        Token::Number(number) => Ok((positive(number, first.at)?, rest)),
        Token::Symbol(_) => Err(TextFault::Unexpected(first.at as u64)),
    }
}

/// A literal from behind its minus on, and the tokens behind it.
#[tactic(auto, unfolding(crate::specs::Steps::digits))]
fn read_negative<'a, 'b>(
    stop: usize,
    tokens: &'a [Placed<'b>],
) -> Result<(i64, &'a [Placed<'b>]), TextFault>
    ensures { ReadsExactly result (digits stop negative (places tokens.now)) }
{
    let [first, rest @ ..] = tokens else {
        return Err(TextFault::Unexpected(stop as u64));
    };
    match first.token {
        Token::Name(_) => Err(TextFault::Unexpected(first.at as u64)),
        Token::Number(number) => Ok((negative(number, first.at)?, rest)),
        Token::Symbol(_) => Err(TextFault::Unexpected(first.at as u64)),
    }
}

/// A literal with a minus or without, and the tokens behind it: `Unexpected` where no digits are, and `Number` at the
/// digits.
#[tactic(auto, unfolding(crate::specs::Steps::literal))]
pub fn literal<'a, 'b>(
    stop: usize,
    tokens: &'a [Placed<'b>],
) -> Result<(i64, &'a [Placed<'b>]), TextFault>
    ensures { ReadsExactly result (literal stop (places tokens.now)) }
{
    if sees(Symbol::Minus, tokens) {
        read_negative(stop, behind(tokens))
    } else {
        read_positive(stop, tokens)
    }
}

/// Whether a literal comes.
#[tactic(auto, unfolding(crate::specs::TermReading::begins_literal))]
fn begins_literal(tokens: &[Placed<'_>]) -> bool
    ensures { result ≡ begins_literal (places tokens.now) }
{
    sees_number(tokens) || (sees(Symbol::Minus, tokens) && sees_number(behind(tokens)))
}

/// The tokens behind a literal.
fn after_literal<'a, 'b>(tokens: &'a [Placed<'b>]) -> &'a [Placed<'b>]
    ensures { places result.now ≡ after_literal (places tokens.now) }
{
    if sees(Symbol::Minus, tokens) {
        behind(behind(tokens))
    } else {
        behind(tokens)
    }
}

/// Whether a literal comes that is the factor of a product.
#[tactic(auto, unfolding(crate::specs::TermReading::begins_scale))]
pub fn begins_scale(tokens: &[Placed<'_>]) -> bool
    ensures { result ≡ begins_scale (places tokens.now) }
{
    begins_literal(tokens) && sees(Symbol::Asterisk, after_literal(tokens))
}

/// Whether a minus comes that is no literal's.
#[tactic(auto, unfolding(crate::specs::TermReading::begins_negation))]
pub fn begins_negation(tokens: &[Placed<'_>]) -> bool
    ensures { result ≡ begins_negation (places tokens.now) }
{
    sees(Symbol::Minus, tokens) && !sees_number(behind(tokens))
}
