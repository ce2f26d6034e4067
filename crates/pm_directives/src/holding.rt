//! Proof terms: a hypothesis in hand, with terms.

ghost use Rattle.std.specs.Prelude.{◌≡◌, IsTrue};
ghost use Rattle.pm_logic.specs.Size.{term_nodes};
ghost use Rattle.pm_table.specs.Running.{in_order, act_with};
ghost use Rattle.pm_table.specs.Terms as table;
ghost use Rattle.pm_table.specs.Directives.{is_bare};
ghost use Rattle.pm_directives.specs.Built.{is_hypothesis, is_built_term};
ghost use Rattle.pm_directives.specs.Steps.{HoldsHead, HoldsTerm, TermsFitAll};
ghost use Rattle.pm_sweep.specs.Standing.{IsStanding, Follows};

use pm_goal::StepFault;
use pm_logic::Term;
use pm_patterns::{Head, ProofTerm};
use pm_proof::Parts;
use pm_sweep::{Act, Entering, Giving, Turn, sweep};
use pm_table::Place;
use std::alloc::Global;

/// The hypothesis is taken, or lent.
fn hold_head(
    alloc: Global,
    standing: Parts<Place>,
    head: &Head,
    taken: bool,
) -> Result<Parts<Place>, StepFault>
    requires built { IsTrue (is_hypothesis head.now) }
    requires standing { IsStanding standing }
    ensures { HoldsHead taken head.now standing result }
{
    match head {
        Head::Hyp(name) => {
            if taken {
                let act = Act::Enter(Entering::Take(name));
                sweep(alloc, standing, Turn::Every, act)
            } else {
                let act = Act::Enter(Entering::Lend(name));
                sweep(alloc, standing, Turn::Every, act)
            }
        }
        Head::Lemma(_) => unreachable!(),
    }
}

/// The universals in hand are opened with the terms, in order.
fn with_terms(
    alloc: Global,
    standing: Parts<Place>,
    terms: &[Term],
) -> Result<Parts<Place>, StepFault>
    requires standing { IsStanding standing }
    requires terms { TermsFitAll terms.now standing.goals }
    ensures { Follows standing (in_order (λ t. act_with (term_nodes t) (table.with_term t)) terms.now standing.goals) result }
{
    match terms {
        [] => Ok(standing),
        [term, rest @ ..] => {
            let act = Act::Give(Giving::Term(term));
            let next = sweep(alloc, standing, Turn::Every, act)?;
            with_terms(alloc, next, rest)
        }
    }
}

/// The head, each term.
pub fn hold(
    alloc: Global,
    standing: Parts<Place>,
    term: &ProofTerm,
    taken: bool,
) -> Result<Parts<Place>, StepFault>
    requires built { IsTrue (is_built_term term.now) }
    requires standing { IsStanding standing }
    requires terms { TermsFitAll term.now.terms standing.goals }
    ensures { HoldsTerm taken term.now standing result }
{
    let held = hold_head(alloc, standing, &term.head, taken)?;
    with_terms(alloc, held, term.terms.as_slice())
}

/// Whether it is a head alone.
pub fn is_bare(term: &ProofTerm) -> bool
    ensures { result ≡ is_bare term.now }
{
    term.terms.len() == 0 && term.spats.len() == 0
}
