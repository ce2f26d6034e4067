//! The units of a points-to, read from tokens.

ghost use Rattle.std.specs.Prelude.{◌≡◌, ◌<◌, ◌≤◌, ◌*◌, ◌^◌, length, Result};
ghost use Rattle.pm_tokens.specs.Tokens.{places};
ghost use Rattle.pm_terms.specs.Steps as steps;
ghost use Rattle.pm_terms.specs.Steps.{ReadsExactly};
ghost use Rattle.pm_text.specs.FormulaReading as spec;
ghost use Rattle.pm_text.specs.Parts.{shared};

use pm_logic::UNIT;
use pm_terms::{TextFault, behind, expect, natural, read_natural, sees};
use pm_tokens::{Placed, Symbol, Token};

/// A number of units, and the tokens behind it.
type ReadUnits<'a, 'b> = Result<(u32, &'a [Placed<'b>]), TextFault>;

#[tactic(auto, unfolding(crate::specs::FormulaReading::units_of, crate::specs::FormulaReading::is_share))]
fn shared(n: u64, d: u64) -> Option<u32>
    ensures { result ≡ shared n d }
{
    if d == 0 {
        return None;
    }
    let whole = n as u128 * UNIT as u128;
    let units = whole / d as u128;
    if whole % d as u128 == 0 && 1 <= units && units <= UNIT as u128 {
        Some(units as u32)
    } else {
        None
    }
}

#[tactic(auto, unfolding(crate::specs::FormulaReading::share))]
fn share(n: u64, d: u64, at: usize) -> Result<u32, TextFault>
    ensures { result ≡ spec.share n d at }
{
    let d = natural(d, at)?;
    match shared(n, d) {
        Some(units) => Ok(units),
        None => Err(TextFault::Fraction(at as u64)),
    }
}

/// The number behind the slash.
#[tactic(auto, unfolding(pm_terms::specs::Steps::digits))]
fn share_at<'a, 'b>(stop: usize, n: u64, tokens: &'a [Placed<'b>]) -> ReadUnits<'a, 'b>
    ensures { ReadsExactly result (steps.digits stop (spec.share n) (places tokens.now)) }
{
    let [first, rest @ ..] = tokens else {
        return Err(TextFault::Unexpected(stop as u64));
    };
    match first.token {
        Token::Number(d) => Ok((share(n, d, first.at)?, rest)),
        _ => Err(TextFault::Unexpected(first.at as u64)),
    }
}

#[tactic(auto, unfolding(crate::specs::FormulaReading::fraction))]
fn fraction<'a, 'b>(stop: usize, tokens: &'a [Placed<'b>]) -> ReadUnits<'a, 'b>
    ensures { ReadsExactly result (spec.fraction stop (places tokens.now)) }
{
    let (n, rest) = read_natural(stop, tokens)?;
    let rest = expect(Symbol::Slash, stop, rest)?;
    let (units, rest) = share_at(stop, n, rest)?;
    let rest = expect(Symbol::CloseBrace, stop, rest)?;
    Ok((units, rest))
}

/// The units of a points-to, a whole where none are named.
#[tactic(auto, unfolding(crate::specs::FormulaReading::units))]
pub fn units<'a, 'b>(stop: usize, tokens: &'a [Placed<'b>]) -> ReadUnits<'a, 'b>
    ensures { ReadsExactly result (spec.units stop (places tokens.now)) }
{
    if sees(Symbol::OpenBrace, tokens) {
        fraction(stop, behind(tokens))
    } else {
        Ok((UNIT, tokens))
    }
}
