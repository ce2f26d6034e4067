//! How large works may be.

ghost use Rattle.std.specs.Prelude.{◌≡◌, min, IfOk};
ghost use Rattle.pm_table.specs.Limits as limits;
ghost use Rattle.pm_table.specs.Works.{work_of};

use crate::collecting::formulas_with;
use pm_goal::{Goal, Held, Row};
use pm_logic::{
    Formula, MAX_HYPOTHESES, MAX_LEVELS, MAX_NODES, MAX_VARIABLES, Memory, depth, nodes,
};
use std::alloc::Global;

/// How many variables, hypotheses and levels together a work may have that is handed to an action.
pub const MOST: usize = 1_000_000;

/// The nodes of formulas together, up to the last value of the type.
fn all_nodes(formulas: &[Formula]) -> u64
    ensures { result ≡ min (limits.all_nodes formulas.now) u64.MAX }
{
    let mut sum: u64 = 0;
    let mut i = formulas.len();
    while i > 0 {
        i -= 1;
        sum = nodes(&formulas[i]).saturating_add(sum);
    }
    sum
}

/// The greatest depth of formulas, up to the last value of the type, and 0 where there are none.
fn greatest_depth(formulas: &[Formula]) -> u32
    ensures { result ≡ min (limits.greatest_depth formulas.now) u32.MAX }
{
    let mut deepest: u32 = 0;
    let mut i = formulas.len();
    while i > 0 {
        i -= 1;
        deepest = depth(&formulas[i]).max(deepest);
    }
    deepest
}

/// How many hypotheses and facts there are, those in hand included, up to the last value of the type.
fn hypotheses(goal: &Goal, held: &[Held]) -> usize
    ensures { result ≡ min (limits.hypotheses (work_of goal.now held.now)) usize.MAX }
{
    let owned = goal.spats.len().saturating_add(held.len());
    let hyps = goal.ints.len().saturating_add(owned);
    goal.pures.len().saturating_add(hyps)
}

/// The first limit that the goal with these hypotheses in hand passes: too many variables, hypotheses or nodes, or too deep
/// a formula. The error is want of memory.
pub fn limit_row(alloc: Global, goal: &Goal, held: &[Held]) -> Result<Option<Row>, Memory>
    ensures { IfOk result (λ row. row ≡ limits.limit_row (work_of goal.now held.now)) }
{
    let formulas = formulas_with(alloc, goal, held)?;
    if goal.vars.len() > MAX_VARIABLES {
        Ok(Some(Row::TooManyVariables))
    } else if hypotheses(goal, held) > MAX_HYPOTHESES {
        Ok(Some(Row::TooManyHypotheses))
    } else if all_nodes(formulas.as_slice()) > MAX_NODES {
        Ok(Some(Row::TooManyNodes))
    } else if greatest_depth(formulas.as_slice()) > MAX_LEVELS {
        Ok(Some(Row::TooDeep))
    } else {
        Ok(None)
    }
}
