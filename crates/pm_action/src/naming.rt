//! Names for new things.

ghost use Rattle.std.specs.Prelude.{◌≡◌, IfOk, is_some};
ghost use Rattle.std.specs.List.{list_all};
ghost use Rattle.pm_tokens.specs.Characters.{is_digit};
ghost use Rattle.pm_goal.specs.Find.{find_of};
ghost use Rattle.pm_goal.specs.Fresh.{numbered};
ghost use Rattle.pm_table.specs.Works as works;
ghost use Rattle.pm_action.specs.Naming.{IsFindable};

use pm_goal::{Goal, find};
use pm_logic::{Memory, Name};
use std::alloc::Global;

fn are_digits(bytes: &[u8]) -> bool
    ensures { result ≡ list_all is_digit bytes.now }
{
    bytes.iter().all(|b| b'0' <= *b && *b <= b'9')
}

/// Whether a name is `_` and digits, which are kept for names that are printed for binders.
fn is_numbered(name: &[u8]) -> bool
    ensures { result ≡ works.is_numbered name.now }
{
    match name {
        [] => false,
        [first, rest @ ..] => *first == b'_' && !rest.is_empty() && are_digits(rest),
    }
}

/// Whether something new in the goal can have the name.
pub fn is_free(goal: &Goal, name: &Name) -> bool
    requires { IsFindable goal.now }
    ensures { result ≡ works.fits goal.now name.now }
{
    !(is_used(goal, name) || is_numbered(name.bytes()))
}

/// Whether something in the goal has the name.
fn is_used(goal: &Goal, name: &Name) -> bool
    requires { IsFindable goal.now }
    ensures { result ≡ is_some (find_of goal.now name.now) }
{
    find(goal, name).is_some()
}

/// `_H` and a number.
fn numbered(alloc: Global, n: u64) -> Result<Name, Memory>
    ensures { IfOk result (λ name. name ≡ numbered n) }
{
    let text = format!(in alloc; "_H{n}")?;
    Name::from_bytes(alloc, text.as_bytes())
}

/// `_H` and the least number from 1 that gives a name which the goal doesn't have. The error is want of memory.
pub fn fresh_name(alloc: Global, goal: &Goal) -> Result<Name, Memory>
    requires { IsFindable goal.now }
    ensures { IfOk result (λ name. name ≡ works.fresh_name goal.now) }
{
    let names = goal.vars.len() as u64
        + goal.pures.len() as u64
        + goal.ints.len() as u64
        + goal.spats.len() as u64;
    let mut n: u64 = 1;
    while n <= names {
        let name = numbered(alloc, n)?;
        if !is_used(goal, &name) {
            return Ok(name);
        }
        n += 1;
    }
    numbered(alloc, n)
}
