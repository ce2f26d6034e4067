//! Names of a goal.

ghost use Rattle.std.specs.Prelude.{◌≡◌, ◌<◌, ◌^◌, length, position, IfSome};
ghost use Rattle.std.specs.Str.{bytes_eq};
ghost use Rattle.pm_goal.specs.Find.{find_of, hyp_of};

use crate::goal::Goal;
use pm_logic::Name;

/// What a name of a goal names.
#[derive(Clone, Copy, Debug, PartialEq, Eq)]
pub enum Found {
    /// A variable, by its index; the newest is 0.
    Var(u32),
    /// A fact, by its place from 0.
    Pure(u32),
    /// An intuitionistic hypothesis, by its place from 0.
    Int(u32),
    /// A spatial hypothesis, by its place from 0.
    Spat(u32),
}

fn var_place(vars: &[Name], name: &Name) -> Option<usize>
    ensures place { result ≡ position (λ n. bytes_eq name.now n) vars.now }
    ensures within { IfSome result (λ i. i < length vars.now) }
{
    vars.iter().position(|n| name.bytes() == n.bytes())
}

fn found_hyp(goal: &Goal, name: &Name) -> Option<Found>
    requires ints { length goal.now.ints < 2 ^ 32 }
    requires spats { length goal.now.spats < 2 ^ 32 }
    ensures { result ≡ hyp_of goal.now name.now }
{
    if let Some(i) = goal.ints.place(name) {
        return Some(Found::Int(i as u32));
    }
    match goal.spats.place(name) {
        Some(i) => Some(Found::Spat(i as u32)),
        None => None,
    }
}

/// What the name names in the goal, and `None` exactly where it names nothing there.
pub fn find(goal: &Goal, name: &Name) -> Option<Found>
    requires vars { length goal.now.vars < 2 ^ 32 }
    requires pures { length goal.now.pures < 2 ^ 32 }
    requires ints { length goal.now.ints < 2 ^ 32 }
    requires spats { length goal.now.spats < 2 ^ 32 }
    ensures { result ≡ find_of goal.now name.now }
{
    let vars = goal.vars.as_slice();
    if let Some(i) = var_place(vars, name) {
        return Some(Found::Var((vars.len() - 1 - i) as u32));
    }
    if let Some(i) = goal.pures.place(name) {
        return Some(Found::Pure(i as u32));
    }
    found_hyp(goal, name)
}
