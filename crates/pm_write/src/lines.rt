//! The texts of lines.

ghost use Rattle.std.specs.Prelude.{◌≡◌, [], ◌∷◌, ◌++◌, OnOk};
ghost use Rattle.std.specs.Fmt.{decimal};
ghost use Rattle.pm_dtext.specs.declared.line.Line.TheVariants.{Step, Qed};
ghost use Rattle.pm_dtext.specs.Spelling.{formula_text, rule_name, args_text, cite_text, line_text};

use crate::rules::{put_arguments, rule_word};
use crate::texts::{put, put_formula};
use pm_logic::{Bytes, Memory};
use pm_rules::{Entail, Rule};
use std::alloc::Global;

/// The number of a line, the rule's name and how many variables there are.
fn put_head(
    alloc: Global,
    out: &mut Bytes,
    number: u64,
    rule: &Rule,
    vars: u32,
) -> Result<(), Memory>
    ensures { OnOk result (out.new ≡ out.old ++ (decimal number ++ (32 ∷ (rule_name rule.now ++ (32 ∷ decimal vars))))) }
{
    put(out, format!(in alloc; "{number} ")?.as_str())?;
    put(out, rule_word(rule))?;
    put(out, format!(in alloc; " {vars}")?.as_str())
}

/// The number of a cited line behind a blank, where there is one.
fn put_cited(alloc: Global, out: &mut Bytes, cited: Option<u64>) -> Result<(), Memory>
    ensures { OnOk result (out.new ≡ out.old ++ cite_text cited []) }
{
    match cited {
        Some(number) => put(out, format!(in alloc; " {number}")?.as_str()),
        None => Ok(()),
    }
}

/// Both sides, each behind a blank, and the line's end.
fn put_sides(alloc: Global, out: &mut Bytes, e: &Entail) -> Result<(), Memory>
    ensures { OnOk result (out.new ≡ out.old ++ (32 ∷ (formula_text e.now.left [] ++ (32 ∷ (formula_text e.now.right [] ++ 10 ∷ []))))) }
{
    put(out, " ")?;
    put_formula(alloc, out, &e.left)?;
    put(out, " ")?;
    put_formula(alloc, out, &e.right)?;
    put(out, "\n")
}

/// A proof line of this number.
pub fn put_step(
    alloc: Global,
    out: &mut Bytes,
    number: u64,
    rule: &Rule,
    first: Option<u64>,
    second: Option<u64>,
    e: &Entail,
) -> Result<(), Memory>
    ensures { OnOk result (out.new ≡ out.old ++ line_text number (Step rule.now first second e.now) []) }
{
    put_head(alloc, out, number, rule, e.vars)?;
    put_cited(alloc, out, first)?;
    put_cited(alloc, out, second)?;
    put_arguments(alloc, out, rule)?;
    put_sides(alloc, out, e)
}

/// The line that states a proof line under a name.
pub fn put_qed(alloc: Global, out: &mut Bytes, name: &[u8], cited: u64) -> Result<(), Memory>
    ensures { OnOk result (out.new ≡ out.old ++ line_text cited (Qed name.now cited) []) }
{
    put(out, "qed ")?;
    out.extend(name)?;
    put(out, format!(in alloc; " {cited}\n")?.as_str())
}
