//! The texts of terms and formulas.

ghost use Rattle.std.specs.Prelude.{◌≡◌, [], ◌++◌, codes, OnOk, IfOk};
ghost use Rattle.std.specs.String.{string_bytes};
ghost use Rattle.std.specs.Fmt.{decimal, signed_decimal};
ghost use Rattle.pm_dtext.specs.Spelling.{term_text, pure_text, items_text, formula_text};
ghost use Rattle.pm_write.specs.Signs.{term_sign, pure_sign, formula_sign};

use pm_logic::{Bytes, Formula, Memory, Pure, Term};
use std::alloc::Global;

/// Appends the text.
pub fn put(out: &mut Bytes, text: &str) -> Result<(), Memory>
    ensures { OnOk result (out.new ≡ out.old ++ text.now) }
{
    out.extend(text.as_bytes())
}

/// The word that a compound term begins with.
#[tactic(auto, using(crate::proofs::Spelled::term_signs))]
fn term_sign(t: &Term) -> &'static str
    ensures { result.now ≡ term_sign t.now }
{
    match t {
        Term::Lit(_) => "",
        Term::Var(_) => "v",
        Term::Add(..) => "add ",
        Term::Sub(..) => "sub ",
        Term::Neg(_) => "neg ",
        Term::Scale(_, _) => "mul ",
    }
}

#[tactic(auto, using(crate::proofs::Spelled::pure_signs))]
fn pure_sign(p: &Pure) -> &'static str
    ensures { result.now ≡ pure_sign p.now }
{
    match p {
        Pure::True => "T",
        Pure::False => "F",
        Pure::Eq(..) => "eq ",
        Pure::Le(..) => "le ",
        Pure::Lt(..) => "lt ",
        Pure::And(..) => "cj ",
        Pure::Or(..) => "dj ",
        Pure::Not(_) => "no ",
    }
}

#[tactic(auto, using(crate::proofs::Spelled::formula_signs))]
fn formula_sign(f: &Formula) -> &'static str
    ensures { result.now ≡ formula_sign f.now }
{
    match f {
        Formula::Pure(_) => "pure ",
        Formula::Sep(..) => "sep ",
        Formula::Wand(..) => "wand ",
        Formula::And(..) => "and ",
        Formula::Or(..) => "or ",
        Formula::Imp(..) => "imp ",
        Formula::All(_) => "all ",
        Formula::Ex(_) => "ex ",
        Formula::Later(_) => "later ",
        Formula::Pers(_) => "pers ",
        Formula::Upd(_) => "upd ",
        Formula::Pts { .. } => "pts ",
        Formula::Call { .. } => "call ",
    }
}

/// The word of a product, and its factor.
fn factor(alloc: Global, z: &i64) -> Result<String, Memory>
    ensures { IfOk result (λ text. string_bytes text ≡ codes "mul " ++ (signed_decimal z.now ++ codes " ")) }
{
    Ok(format!(in alloc; "mul {z} ")?)
}

/// The units of a points-to between blanks.
fn between(alloc: Global, units: u32) -> Result<String, Memory>
    ensures { IfOk result (λ text. string_bytes text ≡ codes " " ++ (decimal units ++ codes " ")) }
{
    Ok(format!(in alloc; " {units} ")?)
}

/// The word of a call, and its predicate.
fn call(alloc: Global, pred: u32) -> Result<String, Memory>
    ensures { IfOk result (λ text. string_bytes text ≡ codes "call " ++ decimal pred) }
{
    Ok(format!(in alloc; "call {pred}")?)
}

#[tactic(auto, using(crate::proofs::Spelled::term_texts))]
pub fn put_term(alloc: Global, out: &mut Bytes, t: &Term) -> Result<(), Memory>
    ensures { OnOk result (out.new ≡ out.old ++ term_text t.now []) }
{
    match t {
        Term::Lit(z) => put(out, format!(in alloc; "{z}")?.as_str()),
        Term::Var(i) => put(out, format!(in alloc; "v{i}")?.as_str()),
        Term::Add(a, b) | Term::Sub(a, b) => {
            put(out, term_sign(t))?;
            put_term(alloc, out, a.get())?;
            put(out, " ")?;
            put_term(alloc, out, b.get())
        }
        Term::Neg(a) => {
            put(out, "neg ")?;
            put_term(alloc, out, a.get())
        }
        Term::Scale(z, a) => {
            let factor = factor(alloc, z)?;
            put(out, factor.as_str())?;
            put_term(alloc, out, a.get())
        }
    }
}

/// Terms, each behind a blank.
pub fn put_terms(alloc: Global, out: &mut Bytes, ts: &[Term]) -> Result<(), Memory>
    ensures { OnOk result (out.new ≡ out.old ++ items_text term_text ts.now []) }
{
    match ts {
        [] => Ok(()),
        [t, rest @ ..] => {
            put(out, " ")?;
            put_term(alloc, out, t)?;
            put_terms(alloc, out, rest)
        }
    }
}

#[tactic(auto, using(crate::proofs::Spelled::pure_texts))]
fn put_pure(alloc: Global, out: &mut Bytes, p: &Pure) -> Result<(), Memory>
    ensures { OnOk result (out.new ≡ out.old ++ pure_text p.now []) }
{
    match p {
        Pure::True => put(out, "T"),
        Pure::False => put(out, "F"),
        Pure::Eq(s, t) | Pure::Le(s, t) | Pure::Lt(s, t) => {
            put(out, pure_sign(p))?;
            put_term(alloc, out, s)?;
            put(out, " ")?;
            put_term(alloc, out, t)
        }
        Pure::And(a, b) | Pure::Or(a, b) => {
            put(out, pure_sign(p))?;
            put_pure(alloc, out, a.get())?;
            put(out, " ")?;
            put_pure(alloc, out, b.get())
        }
        Pure::Not(a) => {
            put(out, "no ")?;
            put_pure(alloc, out, a.get())
        }
    }
}

/// Appends the formula's text.
pub fn put_formula(alloc: Global, out: &mut Bytes, f: &Formula) -> Result<(), Memory>
    ensures { OnOk result (out.new ≡ out.old ++ formula_text f.now []) }
{
    match f {
        Formula::Pure(p) => {
            put(out, "pure ")?;
            put_pure(alloc, out, p)
        }
        Formula::Sep(a, b)
        | Formula::Wand(a, b)
        | Formula::And(a, b)
        | Formula::Or(a, b)
        | Formula::Imp(a, b) => {
            put(out, formula_sign(f))?;
            put_formula(alloc, out, a.get())?;
            put(out, " ")?;
            put_formula(alloc, out, b.get())
        }
        Formula::All(a) | Formula::Ex(a) | Formula::Later(a) | Formula::Pers(a) | Formula::Upd(a) =>
            {
                put(out, formula_sign(f))?;
                put_formula(alloc, out, a.get())
            }
        Formula::Pts { loc, units, val } => {
            put(out, "pts ")?;
            put_term(alloc, out, loc)?;
            let units = between(alloc, *units)?;
            put(out, units.as_str())?;
            put_term(alloc, out, val)
        }
        Formula::Call { pred, args } => {
            let head = call(alloc, *pred)?;
            put(out, head.as_str())?;
            put_terms(alloc, out, args.as_slice())
        }
    }
}
