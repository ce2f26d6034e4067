//! Heaps, which are resources as lists of cells, and how two join.

ghost use Rattle.std.specs.Prelude.{◌≡◌, ◌++◌, ◌≤◌, [], IfOk, IfNone, IfSome, OnOk};
ghost use Rattle.std.specs.Bool.{OnTrue, OnFalse};
ghost use Rattle.pm_model.specs.Resource.{Compatible, plus};
ghost use Rattle.pm_model.specs.Heap.{content_of, AreTogether, Clash, IsHeap};

use pm_logic::{List, Memory, UNIT};
use std::alloc::Global;
use std::cmp::Ordering;

/// So many units of a location, with the value that it holds.
#[derive(Clone, Copy, Debug, PartialEq, Eq)]
pub struct Cell {
    /// The location.
    pub loc: i64,
    /// How many units of it are owned, 1 to `UNIT`.
    pub units: u32,
    /// The value that it holds.
    pub val: i64,
}

/// The cells of a resource, sorted by location, no location twice, each with 1 to `UNIT` units.
#[derive(Debug, Drop)]
pub struct Heap {
    pub cells: List<Cell>,
}

/// The two heaps together, and `None` exactly where a location of both has two values, or more than `UNIT` units together.
/// Both have to be sorted, with no location twice and with 1 to `UNIT` units in each cell. The error is want of memory, and
/// then nothing is kept.
pub fn join(alloc: Global, a: &Heap, b: &Heap) -> Result<Option<Heap>, Memory>
    requires left { IsHeap a.now.cells }
    requires right { IsHeap b.now.cells }
    ensures some { IfOk result (λ h. IfSome h (λ c. AreTogether a.now.cells b.now.cells c.cells)) }
    ensures none { IfOk result (λ h. IfNone h (Clash a.now.cells b.now.cells)) }
{
    let mut cells = List::new(alloc);
    if merge(&mut cells, a.cells.as_slice(), b.cells.as_slice())? {
        Ok(Some(Heap { cells }))
    } else {
        Ok(None)
    }
}

/// Fills the empty list with the two heaps together, and answers whether they fit.
fn merge(cells: &mut List<Cell>, a: &[Cell], b: &[Cell]) -> Result<bool, Memory>
    requires empty { cells.old ≡ [] }
    requires left { IsHeap a.now }
    requires right { IsHeap b.now }
    ensures yes { IfOk result (λ fit. OnTrue fit (AreTogether a.now b.now cells.new)) }
    ensures no { IfOk result (λ fit. OnFalse fit (Clash a.now b.now)) }
{
    let mut left = a;
    let mut right = b;
    while let ([x, xs @ ..], [y, ys @ ..]) = (left, right) {
        match x.loc.cmp(&y.loc) {
            Ordering::Less => {
                cells.push(*x)?;
                left = xs;
            }
            Ordering::Greater => {
                cells.push(*y)?;
                right = ys;
            }
            Ordering::Equal => match both(*x, *y) {
                Some(cell) => {
                    cells.push(cell)?;
                    left = xs;
                    right = ys;
                }
                None => return Ok(false),
            },
        }
    }
    push_all(cells, left)?;
    push_all(cells, right)?;
    Ok(true)
}

/// The two cells of one location together, and `None` where the values differ or the units are more than a whole.
fn both(x: Cell, y: Cell) -> Option<Cell>
    requires left { x.units ≤ UNIT }
    requires right { y.units ≤ UNIT }
    ensures apart { IfNone result (¬ Compatible (content_of x) (content_of y)) }
    ensures fits { IfSome result (λ c. Compatible (content_of x) (content_of y)) }
    ensures loc { IfSome result (λ c. c.loc ≡ x.loc) }
    ensures sum { IfSome result (λ c. content_of c ≡ plus (content_of x) (content_of y)) }
{
    let units = x.units + y.units;
    if x.val == y.val && units <= UNIT {
        Some(Cell {
            loc: x.loc,
            units,
            val: x.val,
        })
    } else {
        None
    }
}

/// Adds all the cells at the end.
fn push_all(cells: &mut List<Cell>, more: &[Cell]) -> Result<(), Memory>
    ensures { OnOk result (cells.new ≡ cells.old ++ more.now) }
{
    for cell in more {
        cells.push(*cell)?;
    }
    Ok(())
}
