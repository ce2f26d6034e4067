//! Directives, run on all works.

ghost use Rattle.pm_table.specs.Directives as table;
ghost use Rattle.pm_table.specs.Basic.{on_goal, exists};
ghost use Rattle.pm_table.specs.Destructs.{name_held};
ghost use Rattle.pm_table.specs.Running.{in_order, act as act_all, act_with};
ghost use Rattle.pm_table.specs.Patterns as patterns;
ghost use Rattle.pm_logic.specs.Size.{term_nodes};
ghost use Rattle.pm_directives.specs.Built.{IsBuilt, IsBuiltPattern, is_built_term};
ghost use Rattle.std.specs.Prelude.{true, IsTrue};
ghost use Rattle.pm_sweep.specs.declared.act.Act.TheVariants as act;
ghost use Rattle.pm_sweep.specs.Acts.{changing, handed_to_change};
ghost use Rattle.pm_sweep.specs.Standing.{IsStanding, IsHandedToAll, Follows};
ghost use Rattle.pm_directives.specs.Steps.{ThenFollows, FollowsTable, TermsFitAll, DirectiveFits};

use crate::holding::{hold, is_bare};
use crate::introducing::{
    clear_all, frame_all, frame_spatial, intro_each, revert_all, revert_vars,
};
use crate::patterns::destruct;
use pm_goal::StepFault;
use pm_logic::{List, Name, Term};
use pm_patterns::{Head, Pat, ProofTerm, Sel};
use pm_proof::Parts;
use pm_script::Directive;
use pm_sweep::{Act, Changing, Handling, Turn, sweep, with_turn_each};
use pm_table::Place;
use std::alloc::Global;

/// The witnesses, in order.
fn exists_each(
    alloc: Global,
    standing: Parts<Place>,
    terms: &[Term],
) -> Result<Parts<Place>, StepFault>
    requires standing { IsStanding standing }
    requires terms { TermsFitAll terms.now standing.goals }
    ensures { Follows standing (in_order (λ t. act_with (term_nodes t) (on_goal (exists t))) terms.now standing.goals) result }
{
    match terms {
        [] => Ok(standing),
        [term, rest @ ..] => {
            let act = Act::Change(Changing::Exists(term));
            let next = sweep(alloc, standing, Turn::Every, act)?;
            exists_each(alloc, next, rest)
        }
    }
}

/// The pattern, for what every work has in hand.
fn destruct_all(alloc: Global, standing: Parts<Place>, pat: &Pat) -> Result<Parts<Place>, StepFault>
    requires built { IsBuiltPattern pat.now }
    requires standing { IsStanding standing }
    ensures { Follows standing (patterns.destruct_all pat.now standing.goals) result }
{
    let Parts {
        goals: places,
        proof,
    } = standing;
    let goals = with_turn_each(alloc, places)?;
    destruct(alloc, pat, Parts { goals, proof })
}

/// What the term gives is in hand, and the pattern destructs it.
fn take_apart(
    alloc: Global,
    standing: Parts<Place>,
    term: &ProofTerm,
    taken: bool,
    pat: &Pat,
) -> Result<Parts<Place>, StepFault>
    requires term { IsTrue (is_built_term term.now) }
    requires pattern { IsBuiltPattern pat.now }
    requires standing { IsStanding standing }
    requires terms { TermsFitAll term.now.terms standing.goals }
    ensures { ThenFollows taken term.now (patterns.destruct_all pat.now) standing result }
{
    let held = hold(alloc, standing, term, taken)?;
    destruct_all(alloc, held, pat)
}

/// What the term gives has the name of its head.
fn specialize(
    alloc: Global,
    standing: Parts<Place>,
    term: &ProofTerm,
) -> Result<Parts<Place>, StepFault>
    requires term { IsTrue (is_built_term term.now) }
    requires standing { IsStanding standing }
    requires terms { TermsFitAll term.now.terms standing.goals }
    ensures { ThenFollows true term.now (act_all (name_held (table.head_name term.now.head))) standing result }
{
    let held = hold(alloc, standing, term, true)?;
    match &term.head {
        Head::Hyp(name) => {
            let act = Act::Handle(Handling::Name(name));
            sweep(alloc, held, Turn::Every, act)
        }
        Head::Lemma(_) => unreachable!(),
    }
}

/// What is selected is framed; where no list is given, all spatial hypotheses.
fn frame(
    alloc: Global,
    standing: Parts<Place>,
    sels: &Option<List<Sel>>,
) -> Result<Parts<Place>, StepFault>
    requires { IsStanding standing }
    ensures { Follows standing (in_order table.frame_selected (table.sels_or_spats sels.now) standing.goals) result }
{
    match sels {
        Some(list) => frame_all(alloc, standing, list.as_slice()),
        None => frame_spatial(alloc, standing),
    }
}

/// What is selected is reverted, then the variables.
fn revert(
    alloc: Global,
    standing: Parts<Place>,
    names: &[Name],
    sels: &[Sel],
) -> Result<Parts<Place>, StepFault>
    requires { IsStanding standing }
    ensures { Follows standing (table.revert_all names.now sels.now standing.goals) result }
{
    let next = revert_all(alloc, standing, sels)?;
    revert_vars(alloc, next, names)
}

/// A directive that is one action on all works.
fn changed(
    alloc: Global,
    standing: Parts<Place>,
    change: Changing,
) -> Result<Parts<Place>, StepFault>
    requires standing { IsStanding standing }
    requires handed { IsHandedToAll (act.Change change) standing.goals }
    ensures { Follows standing (act_with (handed_to_change change.entry) (changing change.entry) standing.goals) result }
{
    sweep(alloc, standing, Turn::Every, Act::Change(change))
}

/// The directive, on all works.
pub fn run(
    alloc: Global,
    standing: Parts<Place>,
    directive: &Directive,
) -> Result<Parts<Place>, StepFault>
    requires built { IsBuilt directive.now }
    requires standing { IsStanding standing }
    requires handed { DirectiveFits directive.now standing.goals }
    ensures { FollowsTable directive.now standing result }
{
    match directive {
        Directive::Intros(pats) => intro_each(alloc, standing, pats.as_slice()),
        Directive::Destruct(term, pat) => {
            let taken = is_bare(term);
            take_apart(alloc, standing, term, taken, pat)
        }
        Directive::PoseProof(term, pat) => take_apart(alloc, standing, term, false, pat),
        Directive::Specialize(term) => specialize(alloc, standing, term),
        Directive::Frame(sels) => frame(alloc, standing, sels),
        Directive::Split => changed(alloc, standing, Changing::Split),
        Directive::SplitL(names) => changed(alloc, standing, Changing::SplitLeft(names.as_ref())),
        Directive::SplitR(names) => changed(alloc, standing, Changing::SplitRight(names.as_ref())),
        Directive::Left => changed(alloc, standing, Changing::Left),
        Directive::Right => changed(alloc, standing, Changing::Right),
        Directive::Exists(terms) => exists_each(alloc, standing, terms.as_slice()),
        Directive::Exact(name) => changed(alloc, standing, Changing::Exact(name)),
        Directive::Assumption => changed(alloc, standing, Changing::Assumption),
        Directive::ExFalso => changed(alloc, standing, Changing::ExFalso),
        Directive::Done => changed(alloc, standing, Changing::Done),
        Directive::Clear(sels) => clear_all(alloc, standing, sels.as_slice()),
        Directive::Rename(from, to) => changed(alloc, standing, Changing::Rename(from, to)),
        Directive::Revert(names, sels) => {
            revert(alloc, standing, names.as_slice(), sels.as_slice())
        }
        _ => unreachable!(),
    }
}
