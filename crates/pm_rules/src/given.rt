//! The premises that are handed in, in order.

ghost use Rattle.std.specs.Prelude.{◌≡◌};
ghost use Rattle.std.specs.Option.{option_copied};
ghost use Rattle.pm_rules.specs.Rules.{premises};
ghost use Rattle.pm_rules.specs.Read.{given_of};

use crate::rules::Entail;

/// No premise, one, or two.
#[derive(Clone, Copy)]
pub enum Given<'a> {
    Zero,
    One(&'a Entail),
    Two(&'a Entail, &'a Entail),
}

/// Those of the two that are there.
pub fn in_order<'a>(first: Option<&'a Entail>, second: Option<&'a Entail>) -> Given<'a>
    ensures { given_of result ≡ premises (option_copied first.entry) (option_copied second.entry) }
{
    match (first, second) {
        (None, None) => Given::Zero,
        (Some(p), None) | (None, Some(p)) => Given::One(p),
        (Some(p), Some(q)) => Given::Two(p, q),
    }
}
