//! Patterns. `room` is how many may still stand one in another, and `stop` the offset in bytes at which the tokens end.

ghost use Rattle.std.specs.Prelude.{◌≡◌, zero, ◌≤◌, length, IfSome, IfOk};
ghost use Rattle.pm_tokens.specs.Tokens.{places};
ghost use Rattle.pm_terms.specs.Steps.{ReadsAs, closed_by, made};
ghost use Rattle.pm_tokens.specs.declared.symbol.Symbol.TheVariants.{Close, CloseBracket};
ghost use Rattle.pm_patterns.specs.declared.extent.Extent.TheVariants.{One};
ghost use Rattle.pm_patterns.specs.declared.pattern.Pat.TheVariants as pat;
ghost use Rattle.pm_patterns.specs.declared.pattern.Pat.TheViews as pair;
ghost use Rattle.pm_patterns.specs.PatternReading.{another_follows, begins, deep_pattern, pure_pattern, bracket_end, bracket_at, ampersand_at, pattern_by, one_at, pattern_at, pattern_in, quoted_pattern};
ghost use Rattle.pm_patterns.specs.PatternReading.{name_in};

use crate::extent::Extent;
use crate::names::name_in;
use crate::part::closed;
use crate::pattern::Pat;
use crate::signs::{Nesting, PatternSign, pattern_sign, token_nesting};
use pm_terms::{TextFault, behind, expect, offset, sees, unexpected};
use pm_tokens::{Placed, Symbol, Token};
use sqlite_items::Boxed;
use std::alloc::{AllocError, Global};

/// A pattern, and the tokens behind it.
pub type ReadPat<'a> = Result<(Pat, &'a [Placed<'a>]), TextFault>;

/// Whether an ampersand follows before the parenthesis closes, of the tokens inside it.
#[tactic(auto, unfolding(crate::specs::PatternReading::another_follows))]
fn another_follows(tokens: &[Placed<'_>]) -> bool
    ensures { result ≡ another_follows zero (places tokens.now) }
{
    let mut open: usize = 0;
    let mut rest = tokens;
    while let [first, after @ ..] = rest {
        match token_nesting(first.token) {
            Nesting::Opens => open += 1,
            Nesting::Closes => {
                if open == 0 {
                    return false;
                }
                open -= 1;
            }
            Nesting::Ampersand => {
                if open == 0 {
                    return true;
                }
            }
            Nesting::Quote => return false,
            Nesting::Inside => {}
        }
        rest = after;
    }
    false
}

/// How a pattern begins, if one does.
#[tactic(auto, unfolding(crate::specs::PatternReading::begins))]
fn begins(tokens: &[Placed<'_>]) -> Option<PatternSign>
    ensures { result ≡ begins (places tokens.now) }
{
    let [first, ..] = tokens else {
        return None;
    };
    match first.token {
        Token::Name(_) => Some(PatternSign::Name),
        Token::Number(_) => None,
        Token::Symbol(symbol) => pattern_sign(symbol),
    }
}

/// The fault at a pattern that stands in as many others as may be.
#[tactic(auto, unfolding(crate::specs::PatternReading::deep_pattern))]
fn deep_pattern(stop: usize, tokens: &[Placed<'_>]) -> TextFault
    ensures { result ≡ deep_pattern stop (places tokens.now) }
{
    match begins(tokens) {
        Some(_) => TextFault::Deep(offset(stop, tokens)),
        None => unexpected(stop, tokens),
    }
}

/// Two patterns in brackets.
pub fn pair(alloc: Global, first: Pat, second: Pat) -> Result<Pat, AllocError>
    ensures { IfOk result (λ p. p ≡ pair.Pair first second) }
{
    let first = Boxed::new(alloc, first)?;
    let second = Boxed::new(alloc, second)?;
    Ok(Pat::Pair(first, second))
}

fn either(alloc: Global, first: Pat, second: Pat) -> Result<Pat, AllocError>
    ensures { IfOk result (λ p. p ≡ pair.Either first second) }
{
    let first = Boxed::new(alloc, first)?;
    let second = Boxed::new(alloc, second)?;
    Ok(Pat::Either(first, second))
}

/// A name as a pattern.
fn name_pattern<'a>(alloc: Global, stop: usize, tokens: &'a [Placed<'a>]) -> ReadPat<'a>
    ensures { ReadsAs result (made pat.Name (name_in stop (places tokens.now))) }
{
    let (name, rest) = name_in(alloc, stop, tokens)?;
    Ok((Pat::Name(name), rest))
}

/// Behind `%`.
#[tactic(auto, unfolding(crate::specs::PatternReading::pure_pattern))]
fn pure_pattern<'a>(alloc: Global, stop: usize, tokens: &'a [Placed<'a>]) -> ReadPat<'a>
    ensures { ReadsAs result (pure_pattern stop (places tokens.now)) }
{
    if sees(Symbol::Question, tokens) {
        return Ok((Pat::PureFresh, behind(tokens)));
    }
    let (name, rest) = name_in(alloc, stop, tokens)?;
    Ok((Pat::PureName(name), rest))
}

/// The second pattern of a bracket, and the bracket that closes.
#[cycle(patterns)]
#[tactic(auto, unfolding(pm_terms::specs::Steps::closed_by))]
fn second_pair<'a>(
    alloc: Global,
    stop: usize,
    room: u32,
    first: Pat,
    tokens: &'a [Placed<'a>],
) -> ReadPat<'a>
    ensures { ReadsAs result (closed_by CloseBracket stop (made (pair.Pair first) (pattern_in stop room One (places tokens.now)))) }
{
    let (second, rest) = pattern_in(alloc, stop, room, Extent::One, tokens)?;
    let both = pair(alloc, first, second)?;
    closed(Symbol::CloseBracket, stop, both, rest)
}

/// The same behind a bar.
#[cycle(patterns)]
#[tactic(auto, unfolding(pm_terms::specs::Steps::closed_by))]
fn second_either<'a>(
    alloc: Global,
    stop: usize,
    room: u32,
    first: Pat,
    tokens: &'a [Placed<'a>],
) -> ReadPat<'a>
    ensures { ReadsAs result (closed_by CloseBracket stop (made (pair.Either first) (pattern_in stop room One (places tokens.now)))) }
{
    let (second, rest) = pattern_in(alloc, stop, room, Extent::One, tokens)?;
    let both = either(alloc, first, second)?;
    closed(Symbol::CloseBracket, stop, both, rest)
}

/// Behind the first pattern of a bracket.
#[cycle(patterns)]
#[tactic(auto, unfolding(crate::specs::PatternReading::bracket_end))]
fn bracket_end<'a>(
    alloc: Global,
    stop: usize,
    room: u32,
    first: Pat,
    tokens: &'a [Placed<'a>],
) -> ReadPat<'a>
    ensures { ReadsAs result (bracket_end stop (pattern_in stop room) first (places tokens.now)) }
{
    if sees(Symbol::Bar, tokens) {
        second_either(alloc, stop, room, first, behind(tokens))
    } else {
        second_pair(alloc, stop, room, first, tokens)
    }
}

/// Behind `[`.
#[cycle(patterns)]
#[tactic(auto, unfolding(crate::specs::PatternReading::bracket_at))]
fn bracket_at<'a>(alloc: Global, stop: usize, room: u32, tokens: &'a [Placed<'a>]) -> ReadPat<'a>
    ensures { ReadsAs result (bracket_at stop (pattern_in stop room) (places tokens.now)) }
{
    if sees(Symbol::CloseBracket, tokens) {
        return Ok((Pat::Absurd, behind(tokens)));
    }
    let (first, rest) = pattern_in(alloc, stop, room, Extent::One, tokens)?;
    bracket_end(alloc, stop, room, first, rest)
}

/// A pattern, an ampersand and the others.
#[cycle(patterns)]
#[tactic(auto, unfolding(crate::specs::PatternReading::ampersand_at))]
fn ampersand_at<'a>(alloc: Global, stop: usize, room: u32, tokens: &'a [Placed<'a>]) -> ReadPat<'a>
    ensures { ReadsAs result (ampersand_at stop (pattern_in stop room) (places tokens.now)) }
{
    let (first, rest) = pattern_in(alloc, stop, room, Extent::One, tokens)?;
    let rest = expect(Symbol::Ampersand, stop, rest)?;
    let (others, rest) = pattern_in(alloc, stop, room, Extent::Others, rest)?;
    Ok((pair(alloc, first, others)?, rest))
}

/// Behind `(`.
#[cycle(patterns)]
#[tactic(auto, unfolding(pm_terms::specs::Steps::closed_by))]
fn group<'a>(alloc: Global, stop: usize, room: u32, tokens: &'a [Placed<'a>]) -> ReadPat<'a>
    ensures { ReadsAs result (closed_by Close stop (ampersand_at stop (pattern_in stop room) (places tokens.now))) }
{
    let (inner, rest) = ampersand_at(alloc, stop, room, tokens)?;
    closed(Symbol::Close, stop, inner, rest)
}

/// A pattern in a box.
#[cycle(patterns)]
fn boxed<'a>(
    alloc: Global,
    stop: usize,
    room: u32,
    tokens: &'a [Placed<'a>],
) -> Result<(Boxed<Pat>, &'a [Placed<'a>]), TextFault>
    ensures { ReadsAs result (pattern_in stop room One (places tokens.now)) }
{
    let (inner, rest) = pattern_in(alloc, stop, room, Extent::One, tokens)?;
    Ok((Boxed::new(alloc, inner)?, rest))
}

/// The pattern that begins so.
#[cycle(patterns)]
#[tactic(auto, unfolding(crate::specs::PatternReading::pattern_by))]
fn pattern_by<'a>(
    alloc: Global,
    stop: usize,
    room: u32,
    sign: PatternSign,
    tokens: &'a [Placed<'a>],
) -> ReadPat<'a>
    ensures { ReadsAs result (pattern_by stop (pattern_in stop room) sign (places tokens.now)) }
{
    let rest = behind(tokens);
    match sign {
        PatternSign::Name => name_pattern(alloc, stop, tokens),
        PatternSign::Fresh => Ok((Pat::Fresh, rest)),
        PatternSign::Drop => Ok((Pat::Drop, rest)),
        PatternSign::Frame => Ok((Pat::Frame, rest)),
        PatternSign::Rewrite => Ok((Pat::Rewrite, rest)),
        PatternSign::RewriteBack => Ok((Pat::RewriteBack, rest)),
        PatternSign::Bracket => bracket_at(alloc, stop, room, rest),
        PatternSign::Group => group(alloc, stop, room, rest),
        PatternSign::Fact => pure_pattern(alloc, stop, rest),
        PatternSign::Int => {
            let (inner, rest) = boxed(alloc, stop, room, rest)?;
            Ok((Pat::Int(inner), rest))
        }
        PatternSign::Spat => {
            let (inner, rest) = boxed(alloc, stop, room, rest)?;
            Ok((Pat::Spat(inner), rest))
        }
        PatternSign::Elim => {
            let (inner, rest) = boxed(alloc, stop, room, rest)?;
            Ok((Pat::Elim(inner), rest))
        }
    }
}

#[cycle(patterns)]
#[tactic(auto, unfolding(crate::specs::PatternReading::one_at))]
fn one_at<'a>(alloc: Global, stop: usize, room: u32, tokens: &'a [Placed<'a>]) -> ReadPat<'a>
    ensures { ReadsAs result (one_at stop (pattern_in stop room) (places tokens.now)) }
{
    match begins(tokens) {
        Some(sign) => pattern_by(alloc, stop, room, sign, tokens),
        None => Err(unexpected(stop, tokens)),
    }
}

#[cycle(patterns)]
#[tactic(auto, unfolding(crate::specs::PatternReading::pattern_at))]
fn pattern_at<'a>(
    alloc: Global,
    stop: usize,
    room: u32,
    extent: Extent,
    tokens: &'a [Placed<'a>],
) -> ReadPat<'a>
    ensures { ReadsAs result (pattern_at stop (pattern_in stop room) extent (places tokens.now)) }
{
    match extent {
        Extent::One => one_at(alloc, stop, room, tokens),
        Extent::Others => {
            if another_follows(tokens) {
                ampersand_at(alloc, stop, room, tokens)
            } else {
                one_at(alloc, stop, room, tokens)
            }
        }
    }
}

/// A pattern, or those behind an ampersand as pairs, and the tokens behind them. The faults are those of the tokens from
/// left to right: `Unexpected`, and `Deep` at a pattern for which there is no room.
#[cycle(patterns)]
pub fn pattern_in<'a>(
    alloc: Global,
    stop: usize,
    room: u32,
    extent: Extent,
    tokens: &'a [Placed<'a>],
) -> ReadPat<'a>
    ensures { ReadsAs result (pattern_in stop room extent (places tokens.now)) }
{
    if room == 0 {
        Err(deep_pattern(stop, tokens))
    } else {
        pattern_at(alloc, stop, room - 1, extent, tokens)
    }
}

/// A pattern between quotes. The faults are `Unexpected`, `Deep` at a pattern for which there is no room, and `Memory`.
#[tactic(auto, unfolding(crate::specs::PatternReading::quoted_pattern, crate::specs::PatternReading::quoted, pm_terms::specs::Steps::closed_by))]
pub fn quoted_pattern<'a>(
    alloc: Global,
    stop: usize,
    room: u32,
    tokens: &'a [Placed<'a>],
) -> ReadPat<'a>
    ensures { ReadsAs result (quoted_pattern stop room (places tokens.now)) }
{
    let rest = expect(Symbol::Quote, stop, tokens)?;
    let (inner, rest) = pattern_in(alloc, stop, room, Extent::One, rest)?;
    closed(Symbol::Quote, stop, inner, rest)
}
