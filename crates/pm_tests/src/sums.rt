//! Heaps together, and linear forms.

ghost use Rattle.std.specs.Prelude.{◌≡◌, [], ◌++◌};
ghost use Rattle.pm_model.specs.Heap.{IsHeap};

use pm_linform::Form;
use pm_logic::List;
use pm_model::{Cell, Heap, join};
use std::alloc::Global;
use std::process::Abort;

const AMPLE: &str = "memory is ample";

fn cell(loc: i64, units: u32, val: i64) -> Cell
    ensures loc { result.loc ≡ loc }
    ensures units { result.units ≡ units }
    ensures val { result.val ≡ val }
{
    Cell { loc, units, val }
}

fn heap(rt: &impl Abort, alloc: Global, cells: &[Cell]) -> Heap
    ensures { result.cells ≡ cells.now }
{
    let mut list = List::new(alloc);
    for cell in cells {
        list.push(*cell).expect(rt, AMPLE);
    }
    Heap { cells: list }
}

fn join_is(rt: &impl Abort, alloc: Global, a: &[Cell], b: &[Cell], want: Option<&[Cell]>) -> bool
    requires left { IsHeap a.now }
    requires right { IsHeap b.now }
{
    let a = heap(rt, alloc, a);
    let b = heap(rt, alloc, b);
    match join(alloc, &a, &b).expect(rt, AMPLE) {
        Some(both) => want == Some(both.cells.as_slice()),
        None => want.is_none(),
    }
}

#[test]
fn units_add_up(rt: HostRuntime) {
    let alloc = rt.alloc();
    let four = [cell(1, 400_000, 5)];
    let three = [cell(1, 300_000, 5)];
    let other = [cell(1, 300_000, 6)];
    let seven = [cell(1, 700_000, 5)];
    assert!(&rt; join_is(&rt, alloc, &four, &three, Some(&seven)));
    assert!(&rt; join_is(&rt, alloc, &four, &other, None));
    assert!(&rt; join_is(&rt, alloc, &four, &four, None));
}

#[test]
fn cells_stay_sorted(rt: HostRuntime) {
    let alloc = rt.alloc();
    let low = cell(-7, 1, 0);
    let middle = cell(0, 720_720, -1);
    let high = cell(9, 2, 3);
    let ends = [low, high];
    let all = [low, middle, high];
    assert!(&rt; join_is(&rt, alloc, &ends, &[middle], Some(&all)));
    assert!(&rt; join_is(&rt, alloc, &[middle], &ends, Some(&all)));
    assert!(&rt; join_is(&rt, alloc, &[], &[middle], Some(&[middle])));
    assert!(&rt; join_is(&rt, alloc, &[], &[], Some(&[])));
}

/// The entries are the constant 1 and -2^61 for the last variable, and then -8 times these.
#[test]
fn linear_forms(rt: HostRuntime) {
    let mut form = Form::zero();
    form.add_const(1);
    assert!(rt; form.within(1));
    form.add_var(64, -(1 << 61));
    assert!(rt; form.within(1 << 61));
    let mut sum = Form::zero();
    sum.add_scaled(-8, &form);
    assert!(rt; !form.within((1 << 61) - 1) && !form.is_positive_constant());
    assert!(rt; sum.within(1 << 64) && !sum.within((1 << 64) - 1));
    let mut one = Form::zero();
    assert!(rt; one.within(0) && !one.within(-1) && !one.is_positive_constant());
    one.add_const(1);
    assert!(rt; one.within(1) && !one.within(0) && one.is_positive_constant());
}
