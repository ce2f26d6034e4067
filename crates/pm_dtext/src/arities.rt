//! Predicates by their places in a table.

ghost use Rattle.std.specs.Prelude.{◌≡◌, ◌≤◌, length, slice_get};
ghost use Rattle.pm_logic.specs.declared.limits.TheConstants.{MAX_TABLE};
ghost use Rattle.pm_dtext.specs.Texts.{ReadsExactly, told};
ghost use Rattle.pm_dtext.specs.Reading.{predicate_of, says_at};

use crate::fault::Fault;
use crate::words::{number_of, word_of};
use pm_logic::Pred;

/// What tells the arities of predicates.
#[derive(Clone, Copy)]
pub enum Arities<'a> {
    /// The arities themselves.
    Listed(&'a [u32]),
    /// The table.
    Table(&'a [Pred]),
}

#[tactic(auto, using(crate::proofs::Tables::arity_listed))]
fn arity_of(arities: Arities, place: u64) -> Option<u32>
    ensures { result ≡ slice_get (told arities.entry) place }
{
    match arities {
        Arities::Listed(list) => list.get(place as usize).copied(),
        Arities::Table(preds) => match preds.get(place as usize) {
            Some(pred) => Some(pred.arity),
            None => None,
        },
    }
}

/// The predicate that a word names, and its arity.
#[tactic(auto, unfolding(crate::specs::Reading::predicate_of), using(crate::proofs::Tables::place_within))]
fn predicate_of(arities: Arities, word: &[u8]) -> Option<(u32, u32)>
    requires { length (told arities) ≤ MAX_TABLE }
    ensures { result ≡ predicate_of (told arities.entry) word.now }
{
    match number_of(word) {
        Some(place) => match arity_of(arities, place) {
            Some(arity) => Some((place as u32, arity)),
            None => None,
        },
        None => None,
    }
}

/// The predicate at the front with its arity, and what follows it.
#[tactic(auto, unfolding(crate::specs::Reading::says_at))]
pub fn predicate<'a>(arities: Arities, bytes: &'a [u8]) -> Result<((u32, u32), &'a [u8]), Fault>
    requires { length (told arities) ≤ MAX_TABLE }
    ensures { ReadsExactly result (says_at (predicate_of (told arities.entry)) bytes.now) }
{
    let (word, rest) = word_of(bytes);
    match predicate_of(arities, word) {
        Some(found) => Ok((found, rest)),
        None => Err(Fault::Syntax(bytes.len())),
    }
}
