//! Bodies that call only earlier predicates, but for calls under a later.

ghost use Rattle.std.specs.Prelude.{◌↔◌, ◌<◌, length, IsTrue};
ghost use Rattle.pm_logic.specs.Guard.{CallsBelow};
ghost use Rattle.pm_logic.specs.Scope.{body_of};

use crate::formula::{Formula, Preds};

/// Whether the body of predicate `p` is guarded: each of its calls that stands under no later names a predicate
/// below `p`, which is below the number of predicates.
pub fn guarded(preds: &Preds, p: u32) -> bool
    requires { p < length preds.now.list }
    ensures { IsTrue result ↔ CallsBelow p (body_of preds.now.list p) }
{
    match preds.list.get(p as usize) {
        Some(pred) => calls_below(p, &pred.body),
        None => true,
    }
}

#[tactic(auto, using(crate::proofs::Guards::guards))]
fn calls_below(p: u32, f: &Formula) -> bool
    ensures { IsTrue result ↔ CallsBelow p f.now }
{
    match f {
        Formula::Pure(_) | Formula::Later(_) | Formula::Pts { .. } => true,
        Formula::Sep(a, b)
        | Formula::Wand(a, b)
        | Formula::And(a, b)
        | Formula::Or(a, b)
        | Formula::Imp(a, b) => calls_below(p, a.get()) && calls_below(p, b.get()),
        Formula::All(a) | Formula::Ex(a) => calls_below(p, a.get()),
        Formula::Pers(a) | Formula::Upd(a) => calls_below(p, a.get()),
        Formula::Call { pred, .. } => *pred < p,
    }
}
