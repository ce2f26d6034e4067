//! What is left of a conclusion, by its form.

ghost use Rattle.std.specs.Prelude.{IfOk};
ghost use Rattle.pm_frame.specs.Frames.{AreHanded, FrameAnswer};

use crate::framed::Framed;
use crate::leaves::{fewer_units, whole};
use crate::modal::{in_both_later, in_later, in_update, in_wand};
use crate::quantified::{in_existential, in_universal};
use crate::sides::{in_conjunction, in_disjunction};
use crate::stars::{on_left, on_right};
use pm_logic::{Formula, Memory, same, shift};
use std::alloc::Global;

/// What is left of the conclusion `q` when the hypothesis `r` is taken out of it, with a proof, in so many variables, that `r`
/// beside what is left entails `q`. `None` exactly where the table has no entry. The error is want of memory.
pub fn frame(alloc: Global, vars: u32, r: &Formula, q: &Formula) -> Result<Option<Framed>, Memory>
    requires { AreHanded vars r.now q.now }
    ensures { IfOk result (λ f. FrameAnswer vars r.now q.now f) }
{
    if same(r, q) {
        let framed = whole(alloc, vars, r)?;
        return Ok(Some(framed));
    }
    match q {
        Formula::Pts { loc, units, val } => fewer_units(alloc, vars, r, loc, *units, val),
        Formula::Sep(a, b) => {
            let a = a.get();
            let b = b.get();
            let Some(x) = frame(alloc, vars, r, a)? else {
                let y = frame(alloc, vars, r, b)?;
                return on_right(alloc, vars, r, a, b, y);
            };
            on_left(alloc, vars, r, a, b, x)
        }
        Formula::And(a, b) => {
            let a = a.get();
            let b = b.get();
            let x = frame(alloc, vars, r, a)?;
            let y = frame(alloc, vars, r, b)?;
            in_conjunction(alloc, vars, r, a, b, x, y)
        }
        Formula::Or(a, b) => {
            let a = a.get();
            let b = b.get();
            let x = frame(alloc, vars, r, a)?;
            let y = frame(alloc, vars, r, b)?;
            in_disjunction(alloc, vars, r, a, b, x, y)
        }
        Formula::Ex(a) => {
            let a = a.get();
            let s = shift(alloc, r)?;
            let x = frame(alloc, vars + 1, &s, a)?;
            in_existential(alloc, vars, r, &s, a, x)
        }
        Formula::All(a) => {
            let a = a.get();
            let s = shift(alloc, r)?;
            let x = frame(alloc, vars + 1, &s, a)?;
            in_universal(alloc, vars, r, &s, a, x)
        }
        Formula::Later(a) => {
            let a = a.get();
            let Formula::Later(r0) = r else {
                let x = frame(alloc, vars, r, a)?;
                return in_later(alloc, vars, r, a, x);
            };
            let r0 = r0.get();
            let Some(x) = frame(alloc, vars, r0, a)? else {
                let x = frame(alloc, vars, r, a)?;
                return in_later(alloc, vars, r, a, x);
            };
            in_both_later(alloc, vars, r0, a, Some(x))
        }
        Formula::Upd(a) => {
            let a = a.get();
            let x = frame(alloc, vars, r, a)?;
            in_update(alloc, vars, r, a, x)
        }
        Formula::Wand(a, b) => {
            let b = b.get();
            let x = frame(alloc, vars, r, b)?;
            in_wand(alloc, vars, r, a.get(), b, x)
        }
        _ => Ok(None),
    }
}
