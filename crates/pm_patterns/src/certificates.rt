//! Certificates. `stop` is the offset in bytes at which the tokens end.

ghost use Rattle.std.specs.Prelude.{◌≡◌, ℤ, Some, None, length};
ghost use Rattle.pm_tokens.specs.Tokens.{places};
ghost use Rattle.pm_terms.specs.Steps.{ReadsAs};
ghost use Rattle.pm_patterns.specs.PatternReading.{takes_goal, fact_in, entry_in, entries_in, cert_of, cert_in, quoted_cert};

use crate::names::name_in;
use crate::part::closed;
use crate::pattern::{Cert, Item};
use pm_logic::List;
use pm_terms::{TextFault, behind, expect, literal, sees};
use pm_tokens::{Placed, Symbol};
use std::alloc::Global;

/// The part of a certificate that is read.
#[derive(Drop)]
pub struct Found {
    pub goal: Option<i64>,
    pub facts: List<Item>,
}

/// What is found, and the tokens behind it.
type ReadFound<'a> = Result<(Found, &'a [Placed<'a>]), TextFault>;

/// Whether the goal stands behind the factor, where it may: `tokens` are those from the factor on, and `rest` those
/// behind its asterisk.
fn takes_goal(found: &Found, tokens: &[Placed<'_>], rest: &[Placed<'_>]) -> bool
    ensures { result ≡ takes_goal found.now (places tokens.now) (places rest.now) }
{
    sees(Symbol::Entails, rest) && found.goal.is_none() && !sees(Symbol::Minus, tokens)
}

/// The fact of a factor.
#[tactic(auto, unfolding(crate::specs::PatternReading::fact_in))]
fn fact_in<'a>(
    alloc: Global,
    stop: usize,
    mut found: Found,
    factor: i64,
    tokens: &'a [Placed<'a>],
) -> ReadFound<'a>
    ensures { ReadsAs result (fact_in stop found factor (places tokens.now)) }
{
    let (fact, rest) = name_in(alloc, stop, tokens)?;
    found.facts.push(Item { factor, fact })?;
    Ok((found, rest))
}

/// A factor with its fact, or with the goal, where that one may still come.
#[tactic(auto, unfolding(crate::specs::PatternReading::entry_in))]
fn entry_in<'a>(alloc: Global, stop: usize, found: Found, tokens: &'a [Placed<'a>]) -> ReadFound<'a>
    ensures { ReadsAs result (entry_in stop found (places tokens.now)) }
{
    let (factor, rest) = literal(stop, tokens)?;
    let rest = expect(Symbol::Asterisk, stop, rest)?;
    if takes_goal(&found, tokens, rest) {
        let Found { goal: _, facts } = found;
        return Ok((
            Found {
                goal: Some(factor),
                facts,
            },
            behind(rest),
        ));
    }
    fact_in(alloc, stop, found, factor, rest)
}

/// At most `most` entries up to the quote. By halves, so that the stack stays small.
#[tactic(auto, using(crate::proofs::Entries::none_left, crate::proofs::Entries::at_quote, crate::proofs::Entries::one_entry))]
fn entries_in<'a>(
    alloc: Global,
    stop: usize,
    most: usize,
    found: Found,
    tokens: &'a [Placed<'a>],
) -> ReadFound<'a>
    ensures { ReadsAs result (entries_in stop most found (places tokens.now)) }
{
    if most == 0 {
        return Ok((found, tokens));
    }
    if sees(Symbol::Quote, tokens) {
        return Ok((found, tokens));
    }
    if most == 1 {
        return entry_in(alloc, stop, found, tokens);
    }
    let half = most / 2;
    let (found, rest) = entries_in(alloc, stop, half, found, tokens)?;
    entries_in(alloc, stop, most - half, found, rest)
}

fn cert_of(found: Found) -> Cert
    ensures { result ≡ cert_of found }
{
    match found.goal {
        Some(goal) => Cert {
            goal,
            facts: found.facts,
        },
        None => Cert {
            goal: 0,
            facts: found.facts,
        },
    }
}

/// All entries up to the quote.
#[tactic(auto, unfolding(crate::specs::PatternReading::cert_in))]
fn cert_in<'a>(
    alloc: Global,
    stop: usize,
    tokens: &'a [Placed<'a>],
) -> Result<(Cert, &'a [Placed<'a>]), TextFault>
    ensures { ReadsAs result (cert_in stop (places tokens.now)) }
{
    let none = Found {
        goal: None,
        facts: List::new(alloc),
    };
    let (found, rest) = entries_in(alloc, stop, tokens.len(), none, tokens)?;
    Ok((cert_of(found), rest))
}

/// A certificate between quotes. The faults are `Unexpected`, `Number` at a factor that is no 64-bit integer, and `Memory`.
#[tactic(auto, unfolding(crate::specs::PatternReading::quoted_cert, crate::specs::PatternReading::quoted, pm_terms::specs::Steps::closed_by))]
pub fn quoted_cert<'a>(
    alloc: Global,
    stop: usize,
    tokens: &'a [Placed<'a>],
) -> Result<(Cert, &'a [Placed<'a>]), TextFault>
    ensures { ReadsAs result (quoted_cert stop (places tokens.now)) }
{
    let rest = expect(Symbol::Quote, stop, tokens)?;
    let (cert, rest) = cert_in(alloc, stop, rest)?;
    closed(Symbol::Quote, stop, cert, rest)
}
