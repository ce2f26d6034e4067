//! The table of predicates at the head of a text.

ghost use Rattle.std.specs.Prelude.{◌≡◌, ◌<◌, length, []};
ghost use Rattle.pm_dtext.specs.Ranges.{AritiesFit};
ghost use Rattle.pm_check.specs.Table.{table_text};
ghost use Rattle.pm_check.specs.Offence.{FirstOffence};
ghost use Rattle.pm_check.specs.Answers.{Gives};
ghost use Rattle.pm_check.specs.Kept.{answered, AddsPred, HasTable};

use crate::fault::CheckFault;
use pm_dtext::{
    Fault, ReadFault, arities_are_read, headers_are_read, next_arities, next_header, next_pred,
    preds_are_read,
};
use pm_logic::{List, MAX_PREDICATES, Pred, Preds, guarded};
use std::alloc::Global;

/// The answer to a fault of reading the text, by its offset; a citation is one of this line.
pub fn answered(text: &[u8], line: u64, fault: ReadFault) -> CheckFault
    ensures { result ≡ answered text.now line fault }
{
    let fault = match fault {
        ReadFault::Memory => return CheckFault::Memory,
        ReadFault::Fault(fault) => fault,
    };
    match fault {
        Fault::Syntax(left) => CheckFault::Syntax(text.len().saturating_sub(left) as u64),
        Fault::NoLine(cited) => CheckFault::NoLine { line, cited },
        Fault::Deep(left) => CheckFault::Deep(text.len().saturating_sub(left) as u64),
    }
}

/// Adds the next predicate to the table, where it is guarded.
#[tactic(auto, using(crate::proofs::Tables::adds_pred, crate::proofs::Tables::lacks_guard))]
fn add(preds: &mut Preds, pred: Pred) -> Result<(), CheckFault>
    requires { length preds.now.list < MAX_PREDICATES }
    ensures { AddsPred preds.old.list pred preds.new.list result }
{
    let place = preds.list.len();
    preds.list.push(pred)?;
    if guarded(preds, place as u32) {
        Ok(())
    } else {
        Err(CheckFault::Unguarded(place as u32))
    }
}

/// Reads the predicates behind their arities.
#[tactic(auto, using(crate::proofs::Tables::table_begun, crate::proofs::Tables::table_grown, crate::proofs::Tables::pred_unread, crate::proofs::Tables::pred_refused, crate::proofs::Tables::table_read, crate::proofs::Tables::table_room, crate::proofs::Tables::arity_small))]
fn predicates<'a>(
    alloc: Global,
    text: &'a [u8],
    arities: &[u32],
    rest: &'a [u8],
) -> Result<(Preds, &'a [u8]), CheckFault>
    requires text { text.now ≡ table_text arities.now [] rest.now }
    requires fit { AritiesFit arities.now }
    ensures { Gives (λ x. HasTable text.now x.0 x.1.now) (FirstOffence text.now) result }
{
    preds_are_read();
    let mut preds = Preds {
        list: List::new(alloc),
    };
    let mut rest = rest;
    for arity in arities {
        let (pred, after) = match next_pred(alloc, arities, &preds, *arity, rest) {
            Ok(read) => read,
            Err(fault) => return Err(answered(text, 0, fault)),
        };
        add(&mut preds, pred)?;
        rest = after;
    }
    Ok((preds, rest))
}

/// Reads the table at the head of a text, and answers what comes behind it too.
#[tactic(auto, using(crate::proofs::Tables::header_unread, crate::proofs::Tables::arities_unread, crate::proofs::Tables::arities_text_is, crate::proofs::Tables::arities_fit))]
pub fn table(alloc: Global, text: &[u8]) -> Result<(Preds, &[u8]), CheckFault>
    ensures { Gives (λ x. HasTable text.now x.0 x.1.now) (FirstOffence text.now) result }
{
    headers_are_read();
    arities_are_read();
    let rest = match next_header(text) {
        Ok(rest) => rest,
        Err(fault) => return Err(answered(text, 0, ReadFault::Fault(fault))),
    };
    let (arities, rest) = match next_arities(alloc, rest) {
        Ok(read) => read,
        Err(fault) => return Err(answered(text, 0, fault)),
    };
    predicates(alloc, text, arities.as_slice(), rest)
}
