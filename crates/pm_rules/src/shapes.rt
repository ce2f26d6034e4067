//! Whether entailments have the shapes of a row.

ghost use Rattle.std.specs.Prelude.{◌≡◌, ◌↔◌, IsTrue};
ghost use Rattle.pm_rules.specs.Rules.{IsInstance, AreInstances, HasLetters};
ghost use Rattle.pm_rules.specs.Read.{sequent_of, sequents_of, given_of};
ghost use Rattle.pm_rules.specs.Matching.{known, known_of, nothing, Learns};

use crate::given::Given;
use crate::matching::{Found, matches};
use crate::pattern::Sides;
use crate::rules::Entail;
use crate::table::Premises;

/// No letter is met yet.
fn nothing_found<'a>() -> Found<'a>
    ensures { known result ≡ nothing }
{
    Found {
        first: None,
        second: None,
        third: None,
        fourth: None,
        pure_first: None,
        pure_second: None,
    }
}

/// The letters under which the entailment has the sides, where those that were met before stand for what they did.
#[tactic(auto, using(crate::proofs::Letters::side_denied, crate::proofs::Letters::sides_learned))]
fn side_letters<'a>(sides: &Sides, e: &'a Entail, found: Found<'a>) -> Option<Found<'a>>
    ensures { Learns (known found.entry) (λ s. IsInstance s (sequent_of sides.now) e.now) (known_of result) }
{
    let found = matches(&sides.left, &e.left, found)?;
    matches(&sides.right, &e.right, found)
}

/// The same for each premise.
fn premise_letters<'a>(premises: &Premises, ps: Given<'a>, found: Found<'a>) -> Option<Found<'a>>
    ensures { Learns (known found.entry) (λ s. AreInstances s (sequents_of premises.now) (given_of ps.entry)) (known_of result) }
{
    match (premises, ps) {
        (Premises::Zero, Given::Zero) => Some(found),
        (Premises::One(a), Given::One(p)) => side_letters(a, p, found),
        (Premises::Two(a, b), Given::Two(p, q)) => {
            let found = side_letters(a, p, found)?;
            side_letters(b, q, found)
        }
        _ => None,
    }
}

/// Whether some letters give premises and conclusion the shapes.
#[tactic(auto, using(crate::proofs::Letters::no_conclusion, crate::proofs::Letters::no_premises))]
pub fn has_letters(premises: &Premises, gives: &Sides, ps: Given, e: &Entail) -> bool
    ensures { IsTrue result ↔ HasLetters (sequents_of premises.now) (sequent_of gives.now) (given_of ps.entry) e.now }
{
    let Some(found) = side_letters(gives, e, nothing_found()) else {
        return false;
    };
    match premise_letters(premises, ps, found) {
        Some(_) => true,
        None => false,
    }
}
