//! Patterns behind `as` and in `iIntros`. `stop` is the offset in bytes at which the tokens end.

ghost use Rattle.std.specs.Prelude.{◌≡◌};
ghost use Rattle.pm_tokens.specs.Tokens.{places};
ghost use Rattle.pm_terms.specs.Steps.{ReadsAs};
ghost use Rattle.pm_patterns.specs.PatternReading.{deep_name, behind_name, named_at, named_pattern, bound_pattern, clear_or_pattern, intro_in, quoted_intros, further_intros, next_item};

use crate::extent::Extent;
use crate::names::name_in;
use crate::part::{Part, ReadList, closed, quoted_list, some_behind, some_until};
use crate::pattern::Pat;
use crate::patterns::{ReadPat, pair, pattern_in, quoted_pattern};
use crate::signs::item_of;
use pm_logic::{List, MAX_LEVELS};
use pm_terms::{TextFault, behind, expect, sees};
use pm_tokens::{Placed, Symbol, Token};
use std::alloc::Global;

/// The fault at a name of `( x … )` that stands in as many patterns as may be.
#[tactic(auto, unfolding(crate::specs::PatternReading::deep_name))]
fn deep_name(stop: usize, tokens: &[Placed<'_>]) -> TextFault
    ensures { result ≡ deep_name stop (places tokens.now) }
{
    let [first, ..] = tokens else {
        return TextFault::Unexpected(stop as u64);
    };
    match first.token {
        Token::Name(_) => TextFault::Deep(first.at as u64),
        Token::Number(_) => TextFault::Unexpected(first.at as u64),
        Token::Symbol(_) => TextFault::Unexpected(first.at as u64),
    }
}

/// Behind a name of `( x … )`.
#[cycle(named)]
#[tactic(auto, unfolding(crate::specs::PatternReading::behind_name))]
fn behind_name<'a>(alloc: Global, stop: usize, room: u32, tokens: &'a [Placed<'a>]) -> ReadPat<'a>
    ensures { ReadsAs result (behind_name stop (named_pattern stop room) room (places tokens.now)) }
{
    if sees(Symbol::Close, tokens) {
        quoted_pattern(alloc, stop, room, behind(tokens))
    } else {
        named_pattern(alloc, stop, room, tokens)
    }
}

/// A name of `( x … )`, and what follows it.
#[cycle(named)]
#[tactic(auto, unfolding(crate::specs::PatternReading::named_at))]
fn named_at<'a>(alloc: Global, stop: usize, room: u32, tokens: &'a [Placed<'a>]) -> ReadPat<'a>
    ensures { ReadsAs result (named_at stop (named_pattern stop room) room (places tokens.now)) }
{
    let (name, rest) = name_in(alloc, stop, tokens)?;
    let (inner, rest) = behind_name(alloc, stop, room, rest)?;
    Ok((pair(alloc, Pat::PureName(name), inner)?, rest))
}

/// `x … ) "pat"`, which is `[%x … pat]`, where so many patterns may still stand one in another.
#[cycle(named)]
fn named_pattern<'a>(alloc: Global, stop: usize, room: u32, tokens: &'a [Placed<'a>]) -> ReadPat<'a>
    ensures { ReadsAs result (named_pattern stop room (places tokens.now)) }
{
    if room <= 1 {
        Err(deep_name(stop, tokens))
    } else {
        named_at(alloc, stop, room - 1, tokens)
    }
}

/// A pattern between quotes, or names in parentheses and one. The faults are `Unexpected`, `Deep` at a pattern or a name that
/// stands in `MAX_LEVELS` patterns, and `Memory`.
#[tactic(auto, unfolding(crate::specs::PatternReading::bound_pattern))]
pub fn bound_pattern<'a>(alloc: Global, stop: usize, tokens: &'a [Placed<'a>]) -> ReadPat<'a>
    ensures { ReadsAs result (bound_pattern stop (places tokens.now)) }
{
    if sees(Symbol::Open, tokens) {
        named_pattern(alloc, stop, MAX_LEVELS, behind(tokens))
    } else {
        quoted_pattern(alloc, stop, MAX_LEVELS, tokens)
    }
}

/// The introduction item that the next token alone is.
#[tactic(auto, unfolding(crate::specs::PatternReading::at_symbol))]
fn next_item(tokens: &[Placed<'_>]) -> Option<Pat>
    ensures { result ≡ next_item (places tokens.now) }
{
    let [first, ..] = tokens else {
        return None;
    };
    match first.token {
        Token::Name(_) => None,
        Token::Number(_) => None,
        Token::Symbol(symbol) => item_of(symbol),
    }
}

/// `{ sel … }`, or a pattern.
#[tactic(auto, unfolding(crate::specs::PatternReading::clear_or_pattern, pm_terms::specs::Steps::closed_by))]
fn clear_or_pattern<'a>(alloc: Global, stop: usize, tokens: &'a [Placed<'a>]) -> ReadPat<'a>
    ensures { ReadsAs result (clear_or_pattern stop (places tokens.now)) }
{
    if !sees(Symbol::OpenBrace, tokens) {
        return pattern_in(alloc, stop, MAX_LEVELS, Extent::One, tokens);
    }
    let (sels, rest) = some_until(alloc, stop, Symbol::CloseBrace, behind(tokens))?;
    closed(Symbol::CloseBrace, stop, Pat::Clear(sels), rest)
}

impl Part for Pat {
    ghost reads = { intro_in };

    /// An item of `iIntros`.
    #[tactic(auto, unfolding(crate::specs::PatternReading::intro_in))]
    fn read<'a>(
        alloc: Global,
        stop: usize,
        tokens: &'a [Placed<'a>],
    ) -> Result<(Pat, &'a [Placed<'a>]), TextFault> {
        match next_item(tokens) {
            Some(item) => Ok((item, behind(tokens))),
            None => clear_or_pattern(alloc, stop, tokens),
        }
    }
}

/// The items of `iIntros` between quotes, one at least. The faults are `Unexpected`, `Deep` at a pattern that stands in `MAX_LEVELS`
/// others, and `Memory`.
#[tactic(auto, unfolding(crate::specs::PatternReading::quoted_intros))]
pub fn quoted_intros<'a>(alloc: Global, stop: usize, tokens: &'a [Placed<'a>]) -> ReadList<'a, Pat>
    ensures { ReadsAs result (quoted_intros stop (places tokens.now)) }
{
    quoted_list(alloc, stop, tokens)
}

/// The same behind others, with the same faults.
#[tactic(auto, unfolding(crate::specs::PatternReading::further_intros, crate::specs::PatternReading::quoted, pm_terms::specs::Steps::closed_by))]
pub fn further_intros<'a>(
    alloc: Global,
    stop: usize,
    found: List<Pat>,
    tokens: &'a [Placed<'a>],
) -> ReadList<'a, Pat>
    ensures { ReadsAs result (further_intros stop found (places tokens.now)) }
{
    let rest = expect(Symbol::Quote, stop, tokens)?;
    let (items, rest) = some_behind(alloc, stop, Symbol::Quote, found, rest)?;
    closed(Symbol::Quote, stop, items, rest)
}
