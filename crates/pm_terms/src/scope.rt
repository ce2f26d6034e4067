//! What names stand for. `bound` are the names bound in the text, the innermost last.

ghost use Rattle.std.specs.Prelude.{◌≡◌, ◌+◌, ◌≤◌, ◌<◌, ◌^◌, length, IfSome};
ghost use Rattle.std.specs.List.{position_from};
ghost use Rattle.std.specs.Str.{bytes_eq};
ghost use Rattle.pm_terms.specs.Scope.{names_in, callables, callables_of, variable_of, callable_of, callee};
ghost use Rattle.pm_terms.specs.TermReading.{variable_at};

use crate::context::{Callee, Context};
use crate::fault::TextFault;
use pm_logic::Pred;
use pm_name_sets::NameIndex;

/// The place of a name among the variables outside the text, counted from `from`.
fn find(name: &[u8], bound: &[&[u8]], vars: &NameIndex<'_>) -> Option<usize>
    requires { length bound.now + length vars.now < 2 ^ 64 }
    ensures place { result ≡ position_from (bytes_eq name.now) 0 (names_in bound.now vars.now) }
    ensures within { IfSome result (λ i. i < length bound.now + length vars.now) }
{
    let mut depth = bound.len();
    while depth > 0 {
        if name == bound[depth - 1] {
            return Some(bound.len() - depth);
        }
        depth -= 1;
    }
    vars.place(bound.len(), name)
}

/// The index of the variable of this name: the innermost of those bound in the text, else the first of those outside.
#[tactic(auto, unfolding(crate::specs::Scope::variable_of))]
pub fn variable_of(context: &Context<'_>, bound: &[&[u8]], name: &[u8]) -> Option<u32>
    requires { length bound.now ≤ 1000 }
    ensures { result ≡ variable_of (names_in bound.now context.now.vars) name.now }
{
    match find(name, bound, &context.vars) {
        Some(index) => Some(index as u32),
        None => None,
    }
}

/// The same, with `Unbound` at the offset of the name where there is none.
#[tactic(auto, unfolding(crate::specs::TermReading::variable_at))]
pub fn variable_at(
    context: &Context<'_>,
    bound: &[&[u8]],
    name: &[u8],
    at: usize,
) -> Result<u32, TextFault>
    requires { length bound.now ≤ 1000 }
    ensures { result ≡ variable_at context.now.stop (names_in bound.now context.now.vars) name.now at }
{
    match variable_of(context, bound, name) {
        Some(index) => Ok(index),
        None => Err(TextFault::Unbound(at as u64)),
    }
}

/// The first predicate of this name in a part of a table, whose places are counted from `from`.
#[tactic(auto, unfolding(crate::specs::Scope::callable_of))]
fn callable_from(name: &[u8], from: u32, preds: &[Pred]) -> Option<Callee>
    requires { from + length preds.now < 2 ^ 32 }
    ensures { result ≡ callee (callable_of (callables from preds.now) name.now) }
{
    match preds {
        [] => None,
        [first, rest @ ..] => {
            if name == first.name.bytes() {
                Some(Callee {
                    index: from,
                    arity: first.arity,
                })
            } else {
                callable_from(name, from + 1, rest)
            }
        }
    }
}

/// The predicate of this name: that whose body is read, else the first of the table.
#[tactic(auto, unfolding(crate::specs::Scope::callable_of))]
pub fn callable_of(context: &Context<'_>, name: &[u8]) -> Option<Callee>
    ensures { result ≡ callee (callable_of (callables_of context.now.own context.now.preds.now) name.now) }
{
    if let Some(own) = context.own {
        if name == own.name {
            return Some(Callee {
                index: context.preds.len() as u32,
                arity: own.arity,
            });
        }
    }
    callable_from(name, 0, context.preds)
}
