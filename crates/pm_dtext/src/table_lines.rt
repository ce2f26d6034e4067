//! The lines before the proof lines: the version, the arities, and the predicates.

ghost use Rattle.std.specs.Prelude.{◌≡◌, ◌≤◌, length};
ghost use Rattle.std.specs.List.{list_any};
ghost use Rattle.std.specs.Str.{bytes_eq};
ghost use Rattle.pm_logic.specs.declared.limits.TheConstants.{MAX_PREDICATES, MAX_VARIABLES};
ghost use Rattle.pm_dtext.specs.Texts.{ReadsAs, LeavesExactly, ReadsWord, names_of};
ghost use Rattle.pm_dtext.specs.Reading.{part_at, says_at, up_to, ends_at, ends_line, header_at, numbers_at, arities_at, new_name_of, pred_at};

use crate::arities::Arities;
use crate::fault::{Fault, ReadFault};
use crate::formulas;
use crate::words::{expect, skip, up_to, word_of};
use pm_logic::{List, MAX_LINE_LEVELS, MAX_PREDICATES, MAX_VARIABLES, Name, Pred};
use pm_names::is_name;
use std::alloc::Global;

/// What follows the first line.
#[tactic(auto, unfolding(crate::specs::Reading::header_at))]
pub fn header(bytes: &[u8]) -> Result<&[u8], Fault>
    ensures { LeavesExactly result (header_at bytes.now) }
{
    let rest = expect("mosel-derivation", bytes)?;
    let rest = expect("1", skip(b' ', rest)?)?;
    skip(b'\n', rest)
}

fn ends_line(bytes: &[u8]) -> bool
    ensures { result ≡ ends_line bytes.now }
{
    match bytes {
        [] => false,
        [b, ..] => *b == b'\n',
    }
}

/// An arity behind a blank.
#[tactic(auto, unfolding(crate::specs::Reading::part_at))]
fn arity(bytes: &[u8]) -> Result<(u32, &[u8]), ReadFault>
    ensures { ReadsAs result (part_at (says_at (up_to MAX_VARIABLES)) bytes.now) }
{
    Ok(up_to(MAX_VARIABLES as u32, skip(b' ', bytes)?)?)
}

/// The arities that were read, behind which the line ends.
#[tactic(auto, unfolding(crate::specs::Reading::ends_at))]
fn closed(arities: List<u32>, bytes: &[u8]) -> Result<(List<u32>, &[u8]), ReadFault>
    ensures { ReadsAs result (ends_at (arities, bytes.now)) }
{
    let rest = skip(b'\n', bytes)?;
    Ok((arities, rest))
}

/// At most so many arities up to the line's end.
#[tactic(auto, using(crate::proofs::Lists::numbers_begun, crate::proofs::Lists::numbers_turned, crate::proofs::Lists::numbers_failed, crate::proofs::Lists::numbers_ended))]
fn numbers(alloc: Global, most: u32, bytes: &[u8]) -> Result<(List<u32>, &[u8]), ReadFault>
    ensures { ReadsAs result (numbers_at most bytes.now) }
{
    let mut numbers = List::new(alloc);
    let mut rest = bytes;
    for _i in 0..most {
        if ends_line(rest) {
            return closed(numbers, rest);
        }
        let (n, behind) = arity(rest)?;
        numbers.push(n)?;
        rest = behind;
    }
    closed(numbers, rest)
}

/// The arities at the front, and what follows their line.
#[tactic(auto, unfolding(crate::specs::Reading::arities_at))]
pub fn arities(alloc: Global, bytes: &[u8]) -> Result<(List<u32>, &[u8]), ReadFault>
    ensures { ReadsAs result (arities_at bytes.now) }
{
    numbers(alloc, MAX_PREDICATES as u32, expect("arities", bytes)?)
}

fn has_name(pred: &Pred, word: &[u8]) -> bool
    ensures { result ≡ bytes_eq pred.now.name word.now }
{
    pred.name.bytes() == word
}

fn some_has_name(preds: &[Pred], word: &[u8]) -> bool
    ensures { result ≡ list_any (λ q. bytes_eq q.name word.now) preds.now }
{
    preds.iter().any(|pred| has_name(pred, word))
}

/// Whether one of the predicates has this name.
fn is_taken(preds: &[Pred], word: &[u8]) -> bool
    ensures { result ≡ list_any (λ x. bytes_eq x word.now) (names_of preds.now) }
{
    some_has_name(preds, word)
}

/// The name at the front, which none of the predicates may have, and what follows it.
#[tactic(auto, unfolding(crate::specs::Reading::says_at, crate::specs::Reading::new_name_of))]
fn new_name<'a>(preds: &[Pred], bytes: &'a [u8]) -> Result<(&'a [u8], &'a [u8]), Fault>
    ensures { ReadsWord result (says_at (new_name_of (names_of preds.now)) bytes.now) }
{
    let (word, rest) = word_of(bytes);
    if is_name(word) && !is_taken(preds, word) {
        Ok((word, rest))
    } else {
        Err(Fault::Syntax(bytes.len()))
    }
}

/// Such a name behind a blank.
#[tactic(auto, unfolding(crate::specs::Reading::part_at))]
fn name_part<'a>(preds: &[Pred], bytes: &'a [u8]) -> Result<(&'a [u8], &'a [u8]), Fault>
    ensures { ReadsWord result (part_at (says_at (new_name_of (names_of preds.now))) bytes.now) }
{
    new_name(preds, skip(b' ', bytes)?)
}

/// The predicate behind those of the table, and what follows its line.
#[tactic(auto, unfolding(crate::specs::Reading::pred_at, crate::specs::Reading::ends_at))]
pub fn pred<'a>(
    alloc: Global,
    arities: &[u32],
    preds: &[Pred],
    arity: u32,
    bytes: &'a [u8],
) -> Result<(Pred, &'a [u8]), ReadFault>
    requires table { length arities.now ≤ MAX_PREDICATES }
    requires few { arity ≤ MAX_VARIABLES }
    ensures { ReadsAs result (pred_at arities.now (names_of preds.now) arity bytes.now) }
{
    let rest = expect("pred", bytes)?;
    let (name, rest) = name_part(preds, rest)?;
    let (body, rest) = formulas::part(
        alloc,
        Arities::Listed(arities),
        MAX_LINE_LEVELS,
        arity,
        rest,
    )?;
    let rest = skip(b'\n', rest)?;
    let name = Name::from_bytes(alloc, name)?;
    Ok((Pred { name, arity, body }, rest))
}
