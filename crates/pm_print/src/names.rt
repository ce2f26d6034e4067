//! Names of variables and of predicates. `binders` counts the binders between the variables that have names and a place.

ghost use Rattle.std.specs.Prelude.{◌≡◌, [], ◌∷◌, ◌++◌, OnOk, length};
ghost use Rattle.pm_print.specs.Printing.{text_of, word, names_of};
ghost use Rattle.pm_print.specs.Parts.{bound_by, quantifier_pieces};

use crate::sign::Sign;
use crate::text::{add, add_binder, add_sign};
use pm_logic::{Bytes, Memory, Name, Pred};

#[tactic(auto, using(crate::proofs::Named::free_word))]
pub fn add_variable(text: &mut Bytes, vars: &[Name], binders: u32, index: u32) -> Result<(), Memory>
    ensures { OnOk result (text.new ≡ text.old ++ text_of (word (bound_by binders vars.now) index ∷ [])) }
{
    if index < binders {
        add_binder(text, vars.len() + (binders - 1 - index) as usize)
    } else {
        add_name(text, vars, (index - binders) as usize)
    }
}

fn add_name(text: &mut Bytes, vars: &[Name], index: usize) -> Result<(), Memory>
    ensures { OnOk result (text.new ≡ text.old ++ text_of (word vars.now index ∷ [])) }
{
    match vars.get(index) {
        Some(name) => add(text, name.bytes()),
        None => Ok(()),
    }
}

pub fn add_predicate(text: &mut Bytes, preds: &[Pred], place: u32) -> Result<(), Memory>
    ensures { OnOk result (text.new ≡ text.old ++ text_of (word (names_of preds.now) place ∷ [])) }
{
    match preds.get(place as usize) {
        Some(pred) => add(text, pred.name.bytes()),
        None => Ok(()),
    }
}

/// A quantifier's sign and its variable, around which there are so many variables.
pub fn add_quantifier(text: &mut Bytes, sign: Sign, around: usize) -> Result<(), Memory>
    ensures { OnOk result (text.new ≡ text.old ++ text_of (quantifier_pieces sign around)) }
{
    add_sign(text, sign)?;
    add_binder(text, around)?;
    add_sign(text, Sign::Comma)
}
