//! Formulas that are taken as persistent or as timeless by their form.

ghost use Rattle.std.specs.Prelude.{◌↔◌, IsTrue};
ghost use Rattle.pm_logic.specs.Classes.{IsPersistent, IsTimeless};

use crate::formula::Formula;

/// Whether `f` is persistent by its form: pure, under a persistence modality, or a conjunction, disjunction,
/// separating conjunction, quantifier or later of such parts.
#[tactic(auto, using(crate::proofs::Forms::persistence))]
pub fn persistent(f: &Formula) -> bool
    ensures { IsTrue result ↔ IsPersistent f.now }
{
    match f {
        Formula::Pure(_) | Formula::Pers(_) => true,
        Formula::Sep(a, b) | Formula::And(a, b) | Formula::Or(a, b) => {
            persistent(a.get()) && persistent(b.get())
        }
        Formula::All(a) | Formula::Ex(a) | Formula::Later(a) => persistent(a.get()),
        Formula::Wand(..) | Formula::Imp(..) | Formula::Upd(_) => false,
        Formula::Pts { .. } | Formula::Call { .. } => false,
    }
}

/// Whether `f` is timeless by its form: pure, a points-to, or a conjunction, disjunction, separating conjunction,
/// quantifier or persistence modality of such parts.
#[tactic(auto, using(crate::proofs::Forms::timelessness))]
pub fn timeless(f: &Formula) -> bool
    ensures { IsTrue result ↔ IsTimeless f.now }
{
    match f {
        Formula::Pure(_) | Formula::Pts { .. } => true,
        Formula::Sep(a, b) | Formula::And(a, b) | Formula::Or(a, b) => {
            timeless(a.get()) && timeless(b.get())
        }
        Formula::All(a) | Formula::Ex(a) | Formula::Pers(a) => timeless(a.get()),
        Formula::Wand(..) | Formula::Imp(..) => false,
        Formula::Later(_) | Formula::Upd(_) | Formula::Call { .. } => false,
    }
}
