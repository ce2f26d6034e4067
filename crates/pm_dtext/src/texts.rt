//! The calls that read one line each.

ghost use Rattle.std.specs.Prelude.{◌≡◌, ◌+◌, ◌^◌, ◌<◌, ◌≤◌, length, slice_index, IfOk};
ghost use Rattle.pm_logic.specs.declared.limits.TheConstants.{MAX_TABLE};
ghost use Rattle.pm_dtext.specs.Ranges.{AritiesFit};
ghost use Rattle.pm_dtext.specs.Texts.{Answers, offset, placed_fault, whole, only_rest, arities_of, names_of};
ghost use Rattle.pm_dtext.specs.Reading.{header_at, arities_at, pred_at, line_at};

use crate::arities::Arities;
use crate::fault::{Fault, LineFault, ReadFault};
use crate::line::Line;
use crate::lines::line;
use crate::table_lines::{arities, header, pred};
use pm_logic::{List, Pred, Preds};
use std::alloc::Global;

/// The offset behind the base of a place where so many bytes of the text are left.
fn offset(base: u64, text: &[u8], left: usize) -> u64
    requires { base + length text.now < 2 ^ 64 }
    ensures { result ≡ offset base text.now left }
{
    base + text.len().saturating_sub(left) as u64
}

/// The fault with its place.
fn placed(base: u64, text: &[u8], fault: ReadFault) -> LineFault
    requires { base + length text.now < 2 ^ 64 }
    ensures { result ≡ placed_fault base text.now fault }
{
    match fault {
        ReadFault::Memory => LineFault::Memory,
        ReadFault::Fault(Fault::Syntax(left)) => LineFault::Syntax(offset(base, text, left)),
        ReadFault::Fault(Fault::NoLine(n)) => LineFault::NoLine(n),
        ReadFault::Fault(Fault::Deep(left)) => LineFault::Deep(offset(base, text, left)),
    }
}

/// Reads the first line, which begins at the offset `base` and is the whole `text`. An error is the first fault from
/// left to right: a word or a separator that can't stand there, the end, or what follows the line.
pub fn read_header(text: &[u8], base: u64) -> Result<(), LineFault>
    requires { base + length text.now < 2 ^ 64 }
    ensures { Answers result (whole base text.now (only_rest (header_at text.now))) }
{
    match header(text) {
        Ok([]) => Ok(()),
        Ok(rest) => Err(LineFault::Syntax(offset(base, text, rest.len()))),
        Err(fault) => Err(placed(base, text, ReadFault::Fault(fault))),
    }
}

/// Reads the line of the predicates' arities, which begins at the offset `base` and is the whole `text`. An error is
/// the first fault from left to right, or want of memory.
pub fn read_arities(alloc: Global, text: &[u8], base: u64) -> Result<List<u32>, LineFault>
    requires { base + length text.now < 2 ^ 64 }
    ensures reads { Answers result (whole base text.now (arities_at text.now)) }
    ensures fit { IfOk result AritiesFit }
{
    match arities(alloc, text) {
        Ok((arities, [])) => Ok(arities),
        Ok((_, rest)) => Err(LineFault::Syntax(offset(base, text, rest.len()))),
        Err(fault) => Err(placed(base, text, fault)),
    }
}

/// Reads the line of the predicate behind those in `preds`, where `arities` are those of all predicates. The line
/// begins at the offset `base` and is the whole `text`. An error is the first fault from left to right, or want of
/// memory. A name that is no name, or that a predicate before has, can't stand there.
pub fn read_pred(
    alloc: Global,
    text: &[u8],
    base: u64,
    arities: &[u32],
    preds: &Preds,
) -> Result<Pred, LineFault>
    requires place { base + length text.now < 2 ^ 64 }
    requires fit { AritiesFit arities.now }
    requires missing { length preds.now.list < length arities.now }
    ensures { Answers result (whole base text.now (pred_at arities.now (names_of preds.now.list) (slice_index arities.now (length preds.now.list)) text.now)) }
{
    let arity = arities[preds.list.len()];
    match pred(alloc, arities, preds.list.as_slice(), arity, text) {
        Ok((pred, [])) => Ok(pred),
        Ok((_, rest)) => Err(LineFault::Syntax(offset(base, text, rest.len()))),
        Err(fault) => Err(placed(base, text, fault)),
    }
}

/// Reads a line behind the table `preds`, where `number` is the number of the next proof line. The line begins at the
/// offset `base` and is the whole `text`. An error is the first fault from left to right, or want of memory: a word or
/// a separator that can't stand there, the end, or what follows the line; a citation that isn't the number of an
/// earlier proof line; a word on level 1,001 of its formula, or of its term where a term stands by itself.
pub fn read_line(
    alloc: Global,
    text: &[u8],
    base: u64,
    number: u64,
    preds: &Preds,
) -> Result<Line, LineFault>
    requires place { base + length text.now < 2 ^ 64 }
    requires table { length preds.now.list ≤ MAX_TABLE }
    ensures { Answers result (whole base text.now (line_at (arities_of preds.now.list) number text.now)) }
{
    match line(alloc, Arities::Table(preds.list.as_slice()), number, text) {
        Ok((line, [])) => Ok(line),
        Ok((_, rest)) => Err(LineFault::Syntax(offset(base, text, rest.len()))),
        Err(fault) => Err(placed(base, text, fault)),
    }
}
