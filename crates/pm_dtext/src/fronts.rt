//! The lines of a text one after another: what is read at the front of its rest, and what follows.

ghost use Rattle.std.specs.Prelude.{◌≡◌, ◌≤◌, length};
ghost use Rattle.pm_logic.specs.declared.limits.TheConstants.{MAX_PREDICATES, MAX_TABLE, MAX_VARIABLES};
ghost use Rattle.pm_dtext.specs.Texts.{ReadsAs, LeavesExactly, arities_of, names_of};
ghost use Rattle.pm_dtext.specs.Reading.{header_at, arities_at, pred_at, line_at};

use crate::arities::Arities;
use crate::fault::{Fault, ReadFault};
use crate::line::Line;
use crate::lines::line;
use crate::table_lines::{arities, header, pred};
use pm_logic::{List, Pred, Preds};
use std::alloc::Global;

/// What follows the first line.
pub fn next_header(bytes: &[u8]) -> Result<&[u8], Fault>
    ensures { LeavesExactly result (header_at bytes.now) }
{
    header(bytes)
}

/// The arities, and what follows their line.
pub fn next_arities(alloc: Global, bytes: &[u8]) -> Result<(List<u32>, &[u8]), ReadFault>
    ensures { ReadsAs result (arities_at bytes.now) }
{
    arities(alloc, bytes)
}

/// The predicate behind those of the table, and what follows its line.
pub fn next_pred<'a>(
    alloc: Global,
    arities: &[u32],
    preds: &Preds,
    arity: u32,
    bytes: &'a [u8],
) -> Result<(Pred, &'a [u8]), ReadFault>
    requires table { length arities.now ≤ MAX_PREDICATES }
    requires few { arity ≤ MAX_VARIABLES }
    ensures { ReadsAs result (pred_at arities.now (names_of preds.now.list) arity bytes.now) }
{
    pred(alloc, arities, preds.list.as_slice(), arity, bytes)
}

/// The line behind the table, where `next` is the number of the next proof line, and what follows it.
pub fn next_line<'a>(
    alloc: Global,
    preds: &Preds,
    next: u64,
    bytes: &'a [u8],
) -> Result<(Line, &'a [u8]), ReadFault>
    requires { length preds.now.list ≤ MAX_TABLE }
    ensures { ReadsAs result (line_at (arities_of preds.now.list) next bytes.now) }
{
    line(alloc, Arities::Table(preds.list.as_slice()), next, bytes)
}
