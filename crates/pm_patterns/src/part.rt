//! Lists of parts.

ghost use Rattle.std.specs.Prelude.{◌≡◌, ℕ, List, not, length, Ok};
ghost use Rattle.pm_tokens.specs.Tokens.{Place, places};
ghost use Rattle.pm_terms.specs.Steps.{ReadsAs, Read, sees, parts, closed_by};
ghost use Rattle.pm_patterns.specs.PatternReading.{behind, once, until, some_until, quoted};
ghost use Rattle.pm_tokens.specs.declared.symbol.Symbol.TheVariants.{Quote};

use pm_logic::List;
use pm_terms::{TextFault, expect, sees};
use pm_tokens::{Placed, Symbol};
use std::alloc::Global;

/// Parts, and the tokens behind them.
pub type ReadList<'a, T> = Result<(List<T>, &'a [Placed<'a>]), TextFault>;

/// What is read, where this symbol stands behind it, and else the fault at what does.
#[tactic(auto, unfolding(pm_terms::specs::Steps::closed_by))]
pub fn closed<'a, T: Drop>(
    symbol: Symbol,
    stop: usize,
    value: T,
    tokens: &'a [Placed<'a>],
) -> Result<(T, &'a [Placed<'a>]), TextFault>
    ensures { ReadsAs result (closed_by symbol stop (Ok (value, places tokens.now))) }
{
    let rest = expect(symbol, stop, tokens)?;
    Ok((value, rest))
}

/// What may stand several times, one after another. `stop` is the offset in bytes at which the tokens end.
pub trait Part: Drop {
    ghost reads: { ℕ → List Place → Read Self };

    /// One of them, and the tokens behind it. The faults are those of the tokens from left to right.
    fn read<'a>(
        alloc: Global,
        stop: usize,
        tokens: &'a [Placed<'a>],
    ) -> Result<(Self, &'a [Placed<'a>]), TextFault>
        ensures { ReadsAs result (reads stop (places tokens.now)) };
}

/// Whether anything but this symbol comes.
fn goes_on(closer: Symbol, tokens: &[Placed<'_>]) -> bool
    ensures { result ≡ not (sees closer (places tokens.now)) }
{
    !sees(closer, tokens)
}

/// One part more, behind those that are found.
fn one_part<'a, T: Part>(
    alloc: Global,
    stop: usize,
    mut found: List<T>,
    tokens: &'a [Placed<'a>],
) -> ReadList<'a, T>
    ensures { ReadsAs result (behind found (once (T.reads stop) (places tokens.now))) }
{
    let (part, rest) = T::read(alloc, stop, tokens)?;
    found.push(part)?;
    Ok((found, rest))
}

/// At most `most` parts up to a symbol, behind those that are found. By halves, so that the stack stays small.
#[tactic(auto, using(crate::proofs::Parts::stopped, crate::proofs::Parts::used_up, crate::proofs::Parts::single, crate::proofs::Parts::halved_ok, crate::proofs::Parts::halved_err))]
fn more_parts<'a, T: Part>(
    alloc: Global,
    stop: usize,
    closer: Symbol,
    most: usize,
    found: List<T>,
    tokens: &'a [Placed<'a>],
) -> ReadList<'a, T>
    ensures { ReadsAs result (behind found (parts most (λ us. not (sees closer us)) (T.reads stop) (places tokens.now))) }
{
    if most == 0 {
        return Ok((found, tokens));
    }
    if !goes_on(closer, tokens) {
        return Ok((found, tokens));
    }
    if most == 1 {
        return one_part(alloc, stop, found, tokens);
    }
    let half = most / 2;
    let (found, rest) = more_parts(alloc, stop, closer, half, found, tokens)?;
    more_parts(alloc, stop, closer, most - half, found, rest)
}

/// All parts up to a symbol, behind those that are found.
#[tactic(auto, unfolding(crate::specs::PatternReading::until, pm_terms::specs::Steps::many))]
pub fn until<'a, T: Part>(
    alloc: Global,
    stop: usize,
    closer: Symbol,
    found: List<T>,
    tokens: &'a [Placed<'a>],
) -> ReadList<'a, T>
    ensures { ReadsAs result (behind found (until closer (T.reads stop) (places tokens.now))) }
{
    more_parts(alloc, stop, closer, tokens.len(), found, tokens)
}

/// Parts up to a symbol, one at least.
#[tactic(auto, unfolding(crate::specs::PatternReading::some_until))]
pub fn some_until<'a, T: Part>(
    alloc: Global,
    stop: usize,
    closer: Symbol,
    tokens: &'a [Placed<'a>],
) -> ReadList<'a, T>
    ensures { ReadsAs result (some_until closer (T.reads stop) (places tokens.now)) }
{
    let (first, rest) = T::read(alloc, stop, tokens)?;
    let mut found = List::new(alloc);
    found.push(first)?;
    until(alloc, stop, closer, found, rest)
}

/// Parts up to a symbol, one at least, behind those that are found.
#[tactic(auto, unfolding(crate::specs::PatternReading::some_until), using(crate::proofs::Parts::again))]
pub fn some_behind<'a, T: Part>(
    alloc: Global,
    stop: usize,
    closer: Symbol,
    mut found: List<T>,
    tokens: &'a [Placed<'a>],
) -> ReadList<'a, T>
    ensures { ReadsAs result (behind found (some_until closer (T.reads stop) (places tokens.now))) }
{
    let (first, rest) = T::read(alloc, stop, tokens)?;
    found.push(first)?;
    until(alloc, stop, closer, found, rest)
}

/// Parts between quotes, one at least.
#[tactic(auto, unfolding(crate::specs::PatternReading::quoted, pm_terms::specs::Steps::closed_by))]
pub fn quoted_list<'a, T: Part>(
    alloc: Global,
    stop: usize,
    tokens: &'a [Placed<'a>],
) -> ReadList<'a, T>
    ensures { ReadsAs result (quoted stop (some_until Quote (T.reads stop)) (places tokens.now)) }
{
    let rest = expect(Symbol::Quote, stop, tokens)?;
    let (list, rest) = some_until(alloc, stop, Symbol::Quote, rest)?;
    closed(Symbol::Quote, stop, list, rest)
}
