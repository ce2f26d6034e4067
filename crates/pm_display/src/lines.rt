//! The lines of a goal.

ghost use Rattle.std.specs.Prelude.{◌≡◌, ◌≤◌, ◌++◌, length, OnOk};
ghost use Rattle.pm_logic.specs.declared.formula.TheConstants.{BOUND};
ghost use Rattle.pm_logic.specs.Size.{depth_of};
ghost use Rattle.pm_display.specs.Goals.{variable_line, fact_line, hyp_line, formula_line, box_line, star_line, parting};

use pm_goal::Ctx;
use pm_logic::{Bytes, Formula, List, Memory, Name, Preds, Pure};
use pm_print::{print_formula, print_pure};
use std::alloc::Global;

pub fn add_variable(name: &Name, text: &mut Bytes) -> Result<(), Memory>
    ensures { OnOk result (text.new ≡ text.old ++ variable_line name.now) }
{
    text.extend(name.bytes())?;
    text.extend(b" : Z\n")
}

pub fn add_fact(
    alloc: Global,
    names: &List<Name>,
    name: &Name,
    pure: &Pure,
    text: &mut Bytes,
) -> Result<(), Memory>
    ensures { OnOk result (text.new ≡ text.old ++ fact_line names.now name.now pure.now) }
{
    text.extend(name.bytes())?;
    text.extend(b" : ")?;
    print_pure(alloc, pure, names, text)?;
    text.extend(b"\n")
}

pub fn add_formula(
    alloc: Global,
    names: &List<Name>,
    preds: &Preds,
    formula: &Formula,
    text: &mut Bytes,
) -> Result<(), Memory>
    requires { depth_of formula.now ≤ BOUND }
    ensures { OnOk result (text.new ≡ text.old ++ formula_line preds.now.list names.now formula.now) }
{
    print_formula(alloc, formula, names, preds, text)?;
    text.extend(b"\n")
}

pub fn add_hyp(
    alloc: Global,
    names: &List<Name>,
    preds: &Preds,
    name: &Name,
    formula: &Formula,
    text: &mut Bytes,
) -> Result<(), Memory>
    requires { depth_of formula.now ≤ BOUND }
    ensures { OnOk result (text.new ≡ text.old ++ hyp_line preds.now.list names.now name.now formula.now) }
{
    text.extend(b"\"")?;
    text.extend(name.bytes())?;
    text.extend(b"\" : ")?;
    add_formula(alloc, names, preds, formula, text)
}

/// The line between the intuitionistic hypotheses and the spatial ones, where there are intuitionistic ones.
#[tactic(auto, using(crate::proofs::Shown::sign_rules, std::proofs::lemmas::Grind::common_steps))]
pub fn add_parting(ints: &Ctx, text: &mut Bytes) -> Result<(), Memory>
    ensures { OnOk result (text.new ≡ text.old ++ parting ints.now) }
{
    if ints.len() == 0 {
        Ok(())
    } else {
        text.extend("--------------------□\n".as_bytes())
    }
}

/// The line over the conclusion.
#[tactic(auto, using(crate::proofs::Shown::sign_rules))]
pub fn add_star(text: &mut Bytes) -> Result<(), Memory>
    ensures { OnOk result (text.new ≡ text.old ++ star_line) }
{
    text.extend("--------------------∗\n".as_bytes())
}
