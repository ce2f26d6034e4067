//! What the first symbol of an operand opens.

ghost use Rattle.std.specs.Prelude.{◌≡◌, IfOk};
ghost use Rattle.pm_text.specs.Parts.{opening_of, is_formula_only, level_under, under};

use crate::level::{Binder, Level};
use pm_logic::{Formula, Memory, later, pers, upd};
use pm_tokens::Symbol;
use std::alloc::Global;

/// A modality.
#[derive(Clone, Copy, PartialEq, Eq)]
pub enum Modality {
    Later,
    Persistently,
    Update,
}

/// What the first symbol of an operand opens.
#[derive(Clone, Copy, PartialEq, Eq)]
pub enum Opening {
    Modal(Modality),
    Quantifier(Binder),
    /// A formula in parentheses, or a location that begins with a term in parentheses.
    Group,
    Fact,
    Truth,
    Falsehood,
    /// A location, or nothing.
    Location,
}

/// What the symbol opens.
pub fn opening_of(symbol: Symbol) -> Opening
    ensures { result ≡ opening_of symbol }
{
    match symbol {
        Symbol::Later => Opening::Modal(Modality::Later),
        Symbol::Persistently => Opening::Modal(Modality::Persistently),
        Symbol::Update => Opening::Modal(Modality::Update),
        Symbol::Forall => Opening::Quantifier(Binder::All),
        Symbol::Exists => Opening::Quantifier(Binder::Ex),
        Symbol::Open => Opening::Group,
        Symbol::OpenPure => Opening::Fact,
        Symbol::Emp | Symbol::True => Opening::Truth,
        Symbol::False => Opening::Falsehood,
        _ => Opening::Location,
    }
}

/// Whether this begins an operand that is no location.
pub fn is_formula_only(opening: Opening) -> bool
    ensures { result ≡ is_formula_only opening }
{
    match opening {
        Opening::Modal(_) => true,
        Opening::Quantifier(_) => true,
        Opening::Group => false,
        Opening::Fact => true,
        Opening::Truth => true,
        Opening::Falsehood => true,
        Opening::Location => false,
    }
}

/// What of a formula the modality is put before.
pub fn level_under(modality: Modality) -> Level
    ensures { result ≡ level_under modality }
{
    match modality {
        Modality::Later | Modality::Persistently => Level::Prefixes,
        Modality::Update => Level::Wands,
    }
}

/// The formula under the modality.
#[tactic(auto, unfolding(crate::specs::Parts::under))]
pub fn under(alloc: Global, modality: Modality, inner: Formula) -> Result<Formula, Memory>
    ensures { IfOk result (λ f. f ≡ under modality inner) }
{
    match modality {
        Modality::Later => later(alloc, inner),
        Modality::Persistently => pers(alloc, inner),
        Modality::Update => upd(alloc, inner),
    }
}
