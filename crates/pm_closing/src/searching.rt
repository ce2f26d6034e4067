//! Searches of contexts for a formula.

ghost use Rattle.std.specs.Prelude.{◌≡◌, Some, option_map, slice_get};
ghost use Rattle.std.specs.List.{list_any};
ghost use Rattle.pm_table.specs.Equality.{pure_eq, formula_eq};
ghost use Rattle.pm_closing.specs.Ways.{Tells};

use pm_goal::{Ctx, Facts};
use pm_logic::{Formula, Pure, same, same_pure};

/// The place of the first hypothesis that is the formula.
pub fn hypothesis_at(hyps: &Ctx, wanted: &Formula) -> Option<usize>
    ensures { Tells (list_any (λ h. formula_eq wanted.now h.formula) hyps.now) (λ i. option_map (λ h. h.formula) (slice_get hyps.now i) ≡ Some wanted.now) result }
{
    let len = hyps.len();
    let mut next = 0;
    while next < len {
        let i = next;
        next += 1;
        if let Some(formula) = hyps.formula(i) {
            if same(wanted, formula) {
                return Some(i);
            }
        }
    }
    None
}

/// The place of the first fact that is the pure formula.
pub fn fact_at(facts: &Facts, wanted: &Pure) -> Option<usize>
    ensures { Tells (list_any (λ f. pure_eq wanted.now f.pure) facts.now) (λ i. option_map (λ f. f.pure) (slice_get facts.now i) ≡ Some wanted.now) result }
{
    let len = facts.len();
    let mut next = 0;
    while next < len {
        let i = next;
        next += 1;
        if let Some(pure) = facts.pure(i) {
            if same_pure(wanted, pure) {
                return Some(i);
            }
        }
    }
    None
}
