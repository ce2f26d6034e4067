//! Specialisation patterns. `stop` is the offset in bytes at which the tokens end.

ghost use Rattle.std.specs.Prelude.{◌≡◌};
ghost use Rattle.pm_tokens.specs.Tokens.{places};
ghost use Rattle.pm_terms.specs.Steps.{ReadsAs};
ghost use Rattle.pm_patterns.specs.PatternReading.{pick_in, spatial_in, premise_in, premise, quoted_premise, spat_in, quoted_spats, next_premise};

use crate::names::name_in;
use crate::part::{Part, ReadList, closed, quoted_list, until};
use crate::pattern::{Pick, Spat};
use crate::signs::premise_of;
use pm_logic::List;
use pm_terms::{TextFault, behind, expect, sees};
use pm_tokens::{Placed, Symbol, Token};
use std::alloc::Global;

/// A specialisation pattern, and the tokens behind it.
pub type ReadSpat<'a> = Result<(Spat, &'a [Placed<'a>]), TextFault>;

impl Part for Pick {
    ghost reads = { pick_in };

    #[tactic(auto, unfolding(crate::specs::PatternReading::pick_in))]
    fn read<'a>(
        alloc: Global,
        stop: usize,
        tokens: &'a [Placed<'a>],
    ) -> Result<(Pick, &'a [Placed<'a>]), TextFault> {
        if sees(Symbol::Dollar, tokens) {
            let (name, rest) = name_in(alloc, stop, behind(tokens))?;
            Ok((Pick { framed: true, name }, rest))
        } else {
            let (name, rest) = name_in(alloc, stop, tokens)?;
            Ok((
                Pick {
                    framed: false,
                    name,
                },
                rest,
            ))
        }
    }
}

/// Spatial hypotheses, up to the bracket that closes.
#[tactic(auto, unfolding(crate::specs::PatternReading::spatial_in))]
fn spatial_in<'a>(alloc: Global, stop: usize, tokens: &'a [Placed<'a>]) -> ReadSpat<'a>
    ensures { ReadsAs result (spatial_in stop (places tokens.now)) }
{
    if sees(Symbol::Minus, tokens) {
        let none = List::new(alloc);
        let (names, rest) = until(alloc, stop, Symbol::CloseBracket, none, behind(tokens))?;
        Ok((Spat::Rest(names), rest))
    } else {
        let none = List::new(alloc);
        let (picks, rest) = until(alloc, stop, Symbol::CloseBracket, none, tokens)?;
        Ok((Spat::Goal(picks), rest))
    }
}

/// The specialisation pattern that the next token alone is in its brackets.
#[tactic(auto, unfolding(crate::specs::PatternReading::at_symbol))]
fn next_premise(tokens: &[Placed<'_>]) -> Option<Spat>
    ensures { result ≡ next_premise (places tokens.now) }
{
    let [first, ..] = tokens else {
        return None;
    };
    match first.token {
        Token::Name(_) => None,
        Token::Number(_) => None,
        Token::Symbol(symbol) => premise_of(symbol),
    }
}

/// Behind `[`, without the bracket that closes it.
#[tactic(auto, unfolding(crate::specs::PatternReading::premise_in))]
fn premise_in<'a>(alloc: Global, stop: usize, tokens: &'a [Placed<'a>]) -> ReadSpat<'a>
    ensures { ReadsAs result (premise_in stop (places tokens.now)) }
{
    match next_premise(tokens) {
        Some(found) => Ok((found, behind(tokens))),
        None => spatial_in(alloc, stop, tokens),
    }
}

/// A specialisation pattern in brackets.
#[tactic(auto, unfolding(crate::specs::PatternReading::premise, pm_terms::specs::Steps::closed_by))]
fn premise<'a>(alloc: Global, stop: usize, tokens: &'a [Placed<'a>]) -> ReadSpat<'a>
    ensures { ReadsAs result (premise stop (places tokens.now)) }
{
    let rest = expect(Symbol::OpenBracket, stop, tokens)?;
    let (inner, rest) = premise_in(alloc, stop, rest)?;
    closed(Symbol::CloseBracket, stop, inner, rest)
}

/// A specialisation pattern in brackets and quotes. The faults are `Unexpected` and `Memory`.
#[tactic(auto, unfolding(crate::specs::PatternReading::quoted_premise, crate::specs::PatternReading::quoted, pm_terms::specs::Steps::closed_by))]
pub fn quoted_premise<'a>(alloc: Global, stop: usize, tokens: &'a [Placed<'a>]) -> ReadSpat<'a>
    ensures { ReadsAs result (quoted_premise stop (places tokens.now)) }
{
    let rest = expect(Symbol::Quote, stop, tokens)?;
    let (inner, rest) = premise(alloc, stop, rest)?;
    closed(Symbol::Quote, stop, inner, rest)
}

impl Part for Spat {
    ghost reads = { spat_in };

    #[tactic(auto, unfolding(crate::specs::PatternReading::spat_in))]
    fn read<'a>(
        alloc: Global,
        stop: usize,
        tokens: &'a [Placed<'a>],
    ) -> Result<(Spat, &'a [Placed<'a>]), TextFault> {
        if sees(Symbol::OpenBracket, tokens) {
            return premise(alloc, stop, tokens);
        }
        let (name, rest) = name_in(alloc, stop, tokens)?;
        Ok((Spat::Name(name), rest))
    }
}

/// Specialisation patterns between quotes, one at least. The faults are `Unexpected` and `Memory`.
#[tactic(auto, unfolding(crate::specs::PatternReading::quoted_spats))]
pub fn quoted_spats<'a>(alloc: Global, stop: usize, tokens: &'a [Placed<'a>]) -> ReadList<'a, Spat>
    ensures { ReadsAs result (quoted_spats stop (places tokens.now)) }
{
    quoted_list(alloc, stop, tokens)
}
