//! The text of a table of predicates.

ghost use Rattle.std.specs.Prelude.{◌≡◌, [], ◌++◌, length, OnOk};
ghost use Rattle.pm_dtext.specs.Spelling.{items_text, number_text, pred_text};
ghost use Rattle.pm_dtext.specs.Texts.{arities_of};
ghost use Rattle.pm_check.specs.Table.{preds_text, table_text};

use crate::texts::{put, put_formula};
use pm_logic::{Bytes, Memory, Pred};
use std::alloc::Global;

/// The arities of the predicates, each behind a blank.
fn put_arities(alloc: Global, out: &mut Bytes, preds: &[Pred]) -> Result<(), Memory>
    ensures { OnOk result (out.new ≡ out.old ++ items_text number_text (arities_of preds.now) []) }
{
    match preds {
        [] => Ok(()),
        [pred, rest @ ..] => {
            let arity = pred.arity;
            put(out, format!(in alloc; " {arity}")?.as_str())?;
            put_arities(alloc, out, rest)
        }
    }
}

/// The line of a predicate.
fn put_pred(alloc: Global, out: &mut Bytes, pred: &Pred) -> Result<(), Memory>
    ensures { OnOk result (out.new ≡ out.old ++ pred_text pred.now []) }
{
    put(out, "pred ")?;
    out.extend(pred.name.bytes())?;
    put(out, " ")?;
    put_formula(alloc, out, &pred.body)?;
    put(out, "\n")
}

fn put_preds(alloc: Global, out: &mut Bytes, preds: &[Pred]) -> Result<(), Memory>
    ensures { OnOk result (out.new ≡ out.old ++ preds_text preds.now []) }
{
    match preds {
        [] => Ok(()),
        [pred, rest @ ..] => {
            put_pred(alloc, out, pred)?;
            put_preds(alloc, out, rest)
        }
    }
}

/// The first line of a derivation, the arities and the predicates.
pub fn put_table(alloc: Global, out: &mut Bytes, preds: &[Pred]) -> Result<(), Memory>
    ensures { OnOk result (out.new ≡ out.old ++ table_text (arities_of preds.now) preds.now []) }
{
    put(out, "mosel-derivation 1\narities")?;
    put_arities(alloc, out, preds)?;
    put(out, "\n")?;
    put_preds(alloc, out, preds)
}
