//! The linear forms of terms.

ghost use Rattle.std.specs.Prelude.{◌≡◌, ◌<◌, ◌^◌, pos};
ghost use Rattle.pm_logic.specs.declared.formula.Term as term;
ghost use Rattle.pm_logic.specs.Scope.{TermScoped};
ghost use Rattle.pm_linform.specs.Entries.{room, IsWithin};
ghost use Rattle.pm_linform.specs.Sums.{AddsConstant, AddsScaled};
ghost use Rattle.pm_rules.specs.Sums.{IsFormOf, FormOf, IsMultiple, Kept};

use pm_linform::{Form, VARIABLES};
use pm_logic::Term;

/// How large an entry of a term's form may be.
const SMALL: i128 = 1 << 62;

/// The form with `c` more for a constant.
pub fn shifted(f: Form, c: i64) -> Form
    requires { IsWithin room f }
    ensures { AddsConstant c f result }
{
    let mut form = f;
    form.add_const(c);
    form
}

/// The form with `c` times `g` more.
pub fn sum(f: Form, c: i64, g: &Form) -> Form
    requires first { IsWithin room f }
    requires second { IsWithin (pos (2 ^ 62)) g.now }
    ensures { AddsScaled c g.now f result }
{
    let mut form = f;
    form.add_scaled(c, g);
    form
}

/// The form of a literal.
fn constant(z: i64) -> Form
    ensures { IsFormOf result (Term.Lit z) }
{
    shifted(Form::zero(), z)
}

/// The form of a variable.
fn variable(i: u32) -> Form
    requires { i < VARIABLES }
    ensures { IsFormOf result (Term.Var i) }
{
    let mut form = Form::zero();
    form.add_var(i, 1);
    form
}

/// `c` times the form.
fn multiple(c: i64, f: &Form) -> Form
    requires { IsWithin (pos (2 ^ 62)) f.now }
    ensures { IsMultiple c f.now result }
{
    sum(Form::zero(), c, f)
}

/// The form where its entries are small.
#[tactic(auto, unfolding(crate::specs::Sums::Kept))]
fn kept(form: Form) -> Option<Form>
    ensures { Kept form result }
{
    if form.within(SMALL) { Some(form) } else { None }
}

/// The form of the term, where each subterm's has small entries.
#[tactic(auto, using(crate::proofs::Terms::term_forms))]
pub fn form_of(t: &Term) -> Option<Form>
    requires { TermScoped VARIABLES t.now }
    ensures { FormOf t.now result }
{
    match t {
        Term::Lit(z) => kept(constant(*z)),
        Term::Var(i) => kept(variable(*i)),
        Term::Add(a, b) => kept(sum(form_of(a.get())?, 1, &form_of(b.get())?)),
        Term::Sub(a, b) => kept(sum(form_of(a.get())?, -1, &form_of(b.get())?)),
        Term::Neg(a) => kept(multiple(-1, &form_of(a.get())?)),
        Term::Scale(z, a) => kept(multiple(*z, &form_of(a.get())?)),
    }
}
