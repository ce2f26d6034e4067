//! Goals, printed.

ghost use Rattle.std.specs.Prelude.{◌≡◌, ◌++◌, reverse, IfOk, OnOk, OnErr};
ghost use Rattle.pm_display.specs.Goals.{shown_goal, shown_ints, shown_spats, index_names, IsShallow};

use crate::contexts::{add_facts, add_hyps, add_variables};
use crate::lines::{add_formula, add_parting, add_star};
use pm_goal::Goal;
use pm_logic::{Bytes, List, Memory, Name, Preds, copy_name};
use std::alloc::Global;

/// The names of the variables by their index, the newest first.
fn index_names(alloc: Global, vars: &[Name]) -> Result<List<Name>, Memory>
    ensures { IfOk result (λ names. names ≡ reverse vars.now) }
{
    let mut names = List::new(alloc);
    let mut i = vars.len();
    while i > 0 {
        i -= 1;
        names.push(copy_name(alloc, &vars[i])?)?;
    }
    Ok(names)
}

fn add_ints(
    alloc: Global,
    goal: &Goal,
    names: &List<Name>,
    preds: &Preds,
    text: &mut Bytes,
) -> Result<(), Memory>
    requires shallow { IsShallow goal.now }
    requires names { names.now ≡ index_names goal.now }
    ensures { OnOk result (text.new ≡ text.old ++ shown_ints preds.now.list goal.now) }
{
    add_hyps(alloc, names, preds, &goal.ints, text)?;
    add_parting(&goal.ints, text)
}

fn add_spats(
    alloc: Global,
    goal: &Goal,
    names: &List<Name>,
    preds: &Preds,
    text: &mut Bytes,
) -> Result<(), Memory>
    requires shallow { IsShallow goal.now }
    requires names { names.now ≡ index_names goal.now }
    ensures { OnOk result (text.new ≡ text.old ++ shown_spats preds.now.list goal.now) }
{
    add_hyps(alloc, names, preds, &goal.spats, text)?;
    add_star(text)
}

fn add_goal(
    alloc: Global,
    goal: &Goal,
    names: &List<Name>,
    preds: &Preds,
    text: &mut Bytes,
) -> Result<(), Memory>
    requires shallow { IsShallow goal.now }
    requires names { names.now ≡ index_names goal.now }
    ensures { OnOk result (text.new ≡ text.old ++ shown_goal preds.now.list goal.now) }
{
    add_variables(goal.vars.as_slice(), text)?;
    add_facts(alloc, names, &goal.pures, text)?;
    add_ints(alloc, goal, names, preds, text)?;
    add_spats(alloc, goal, names, preds, text)?;
    add_formula(alloc, names, preds, &goal.concl, text)
}

/// Appends the text of a goal: a line for each variable, oldest first, for each fact and each hypothesis, with a line
/// behind the intuitionistic hypotheses, where there are any, and one behind the spatial ones, and the conclusion. An
/// index of a formula is named by the goal's variables, index 0 by the newest; a bound variable is named `_k` by the
/// number `k` of variables around its binder. No formula is deeper than `BOUND`. The error is want of memory, and then
/// `out` is as before.
pub fn print_goal(alloc: Global, goal: &Goal, preds: &Preds, out: &mut Bytes) -> Result<(), Memory>
    requires { IsShallow goal.now }
    ensures ok { OnOk result (out.new ≡ out.old ++ shown_goal preds.now.list goal.now) }
    ensures err { OnErr result (out.new ≡ out.old) }
{
    let names = index_names(alloc, goal.vars.as_slice())?;
    let mut text = Bytes::new(alloc);
    add_goal(alloc, goal, &names, preds, &mut text)?;
    out.extend(text.as_slice())
}
