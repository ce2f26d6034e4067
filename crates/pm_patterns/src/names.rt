//! Names and selections. `stop` is the offset in bytes at which the tokens end. Each reader answers what it read and the
//! tokens behind it; the faults are those of the tokens from left to right.

ghost use Rattle.std.specs.Prelude.{◌≡◌, ◌<◌, length, IfOk};
ghost use Rattle.pm_tokens.specs.Tokens.{places};
ghost use Rattle.pm_terms.specs.Steps.{ReadsAs};
ghost use Rattle.pm_patterns.specs.PatternReading.{name_in, quoted_name, quoted_names, grouped_names, sel_in, quoted_sels, next_sel};

use crate::part::{Part, ReadList, closed, quoted_list, some_until};
use crate::pattern::Sel;
use crate::signs::sel_of;
use pm_logic::Name;
use pm_terms::{TextFault, behind, expect};
use pm_tokens::{Placed, Symbol, Token};
use std::alloc::Global;

/// A name, and the tokens behind it.
pub type ReadName<'a> = Result<(Name, &'a [Placed<'a>]), TextFault>;

/// A name. The faults are `Unexpected` at a token that is none, and `Memory`.
#[tactic(auto, unfolding(crate::specs::PatternReading::name_in))]
pub fn name_in<'a>(alloc: Global, stop: usize, tokens: &'a [Placed<'a>]) -> ReadName<'a>
    ensures within { IfOk result (λ x. length x.1.now < length tokens.now) }
    ensures value { ReadsAs result (name_in stop (places tokens.now)) }
{
    let [first, rest @ ..] = tokens else {
        return Err(TextFault::Unexpected(stop as u64));
    };
    match first.token {
        Token::Name(name) => Ok((Name::from_bytes(alloc, name)?, rest)),
        Token::Number(_) => Err(TextFault::Unexpected(first.at as u64)),
        Token::Symbol(_) => Err(TextFault::Unexpected(first.at as u64)),
    }
}

impl Part for Name {
    ghost reads = { name_in };

    fn read<'a>(alloc: Global, stop: usize, tokens: &'a [Placed<'a>]) -> ReadName<'a> {
        name_in(alloc, stop, tokens)
    }
}

/// A name between quotes. The faults are `Unexpected` and `Memory`.
#[tactic(auto, unfolding(crate::specs::PatternReading::quoted_name, crate::specs::PatternReading::quoted, pm_terms::specs::Steps::closed_by))]
pub fn quoted_name<'a>(alloc: Global, stop: usize, tokens: &'a [Placed<'a>]) -> ReadName<'a>
    ensures { ReadsAs result (quoted_name stop (places tokens.now)) }
{
    let rest = expect(Symbol::Quote, stop, tokens)?;
    let (name, rest) = name_in(alloc, stop, rest)?;
    closed(Symbol::Quote, stop, name, rest)
}

/// Names between quotes, one at least. The faults are `Unexpected` and `Memory`.
#[tactic(auto, unfolding(crate::specs::PatternReading::quoted_names))]
pub fn quoted_names<'a>(alloc: Global, stop: usize, tokens: &'a [Placed<'a>]) -> ReadList<'a, Name>
    ensures { ReadsAs result (quoted_names stop (places tokens.now)) }
{
    quoted_list(alloc, stop, tokens)
}

/// Names between parentheses, one at least. The faults are `Unexpected` and `Memory`.
#[tactic(auto, unfolding(crate::specs::PatternReading::grouped_names, pm_terms::specs::Steps::closed_by))]
pub fn grouped_names<'a>(alloc: Global, stop: usize, tokens: &'a [Placed<'a>]) -> ReadList<'a, Name>
    ensures { ReadsAs result (grouped_names stop (places tokens.now)) }
{
    let rest = expect(Symbol::Open, stop, tokens)?;
    let (names, rest) = some_until(alloc, stop, Symbol::Close, rest)?;
    closed(Symbol::Close, stop, names, rest)
}

/// The selection that the next token alone is.
#[tactic(auto, unfolding(crate::specs::PatternReading::at_symbol))]
fn next_sel(tokens: &[Placed<'_>]) -> Option<Sel>
    ensures { result ≡ next_sel (places tokens.now) }
{
    let [first, ..] = tokens else {
        return None;
    };
    match first.token {
        Token::Name(_) => None,
        Token::Number(_) => None,
        Token::Symbol(symbol) => sel_of(symbol),
    }
}

impl Part for Sel {
    ghost reads = { sel_in };

    #[tactic(auto, unfolding(crate::specs::PatternReading::sel_in))]
    fn read<'a>(
        alloc: Global,
        stop: usize,
        tokens: &'a [Placed<'a>],
    ) -> Result<(Sel, &'a [Placed<'a>]), TextFault> {
        match next_sel(tokens) {
            Some(sel) => Ok((sel, behind(tokens))),
            None => {
                let (name, rest) = name_in(alloc, stop, tokens)?;
                Ok((Sel::Name(name), rest))
            }
        }
    }
}

/// Selections between quotes, one at least. The faults are `Unexpected` and `Memory`.
#[tactic(auto, unfolding(crate::specs::PatternReading::quoted_sels))]
pub fn quoted_sels<'a>(alloc: Global, stop: usize, tokens: &'a [Placed<'a>]) -> ReadList<'a, Sel>
    ensures { ReadsAs result (quoted_sels stop (places tokens.now)) }
{
    quoted_list(alloc, stop, tokens)
}
