//! The sign of a points-to with its units.

ghost use Rattle.std.specs.Prelude.{◌≡◌, ◌/◌, ◌++◌, OnOk};
ghost use Rattle.std.specs.Int.{IsGcd};
ghost use Rattle.pm_logic.specs.declared.formula.TheConstants.{UNIT};
ghost use Rattle.pm_print.specs.Printing.{text_of, common_divisor, units_pieces};

use crate::sign::Sign;
use crate::text::{add_number, add_sign};
use pm_logic::{Bytes, Memory, UNIT};

/// By Euclid's algorithm.
fn greatest_divisor(a: u32, b: u32) -> u32
    ensures { IsGcd a b result }
{
    let mut x = a;
    let mut y = b;
    while y != 0 {
        let rest = x % y;
        x = y;
        y = rest;
    }
    x
}

/// The units as a fraction of a whole in lowest terms, and 0 and 0 for no units.
#[tactic(auto, using(crate::proofs::Divisors::divisor_is, crate::proofs::Divisors::no_units))]
fn lowest_terms(units: u32) -> (u32, u32)
    ensures { result ≡ (units / common_divisor units UNIT, UNIT / common_divisor units UNIT) }
{
    if units == 0 {
        return (0, 0);
    }
    let divisor = greatest_divisor(units, UNIT);
    (units / divisor, UNIT / divisor)
}

#[tactic(auto, using(crate::proofs::Divisors::whole_pieces))]
pub fn add_units(text: &mut Bytes, units: u32) -> Result<(), Memory>
    ensures { OnOk result (text.new ≡ text.old ++ text_of (units_pieces units)) }
{
    if units == UNIT {
        return add_sign(text, Sign::PointsTo);
    }
    let (n, d) = lowest_terms(units);
    add_sign(text, Sign::OpenUnits)?;
    add_number(text, n)?;
    add_sign(text, Sign::Slash)?;
    add_number(text, d)?;
    add_sign(text, Sign::CloseUnits)
}
