//! An action on one work.

ghost use Rattle.std.specs.Prelude.{◌≡◌, ◌<◌, ◌≤◌, ◌+◌, [], ◌∷◌, Some, true, is_some, length, MatchBool};
ghost use Rattle.pm_logic.specs.declared.limits.TheConstants.{MAX_LINE_LEVELS};
ghost use Rattle.pm_logic.specs.Size.{depth_of};
ghost use Rattle.pm_table.specs.Limits.{all_nodes, work_formulas, limited};
ghost use Rattle.pm_table.specs.Introductions as introductions;
ghost use Rattle.pm_table.specs.Patterns as table;
ghost use Rattle.pm_action.specs.Acting.{Answers, IsHanded, StaysAs};
ghost use Rattle.pm_sweep.specs.Acts.{action_of, entering, handling, giving, changing, framing, opens, handed_to, handed_to_give, handed_to_change};
ghost use Rattle.pm_sweep.specs.Standing.{AnswersOpened, IsHandedTo, IsHandedToGive, IsHandedToChange};

use crate::act::{Act, Changing, Entering, Framing, Giving, Handling};
use crate::lists::with_turns;
use pm_action::{fresh_name, unmoved};
use pm_basic::{clear, exfalso, exists, rename, revert, revert_var, side, split, split_at};
use pm_closing::{assumption, done, exact, try_done};
use pm_framing::{frame_held, frame_member, frame_named};
use pm_goal::{StepFault, Work, copy_work};
use pm_hand::{
    absurd_held, drop_held, lend, name_fresh, name_held, take, to_int, to_pure, to_pure_fresh,
    to_spat, with_term,
};
use pm_intro::{either, intro_all, intro_all_fresh, intro_hyp, pair};
use pm_logic::{Formula, Name};
use pm_patterns::Pat;
use pm_proof::Parts;
use pm_table::Place;
use std::alloc::Global;

/// The work as it is.
fn same(alloc: Global, work: &Work) -> Result<Parts<Place>, StepFault>
    requires { IsHanded work.now }
    ensures { StaysAs work.now work.now result }
{
    let copied = copy_work(alloc, work)?;
    unmoved(alloc, work, copied)
}

/// What an action answered, with a turn behind those of its places.
fn opening(
    alloc: Global,
    answered: Result<Parts<Place>, StepFault>,
    turn: bool,
) -> Result<Parts<Place>, StepFault>
    ensures { AnswersOpened turn answered result }
{
    let Parts { goals, proof } = answered?;
    let goals = with_turns(alloc, goals, &[turn])?;
    Ok(Parts { goals, proof })
}

/// The introduction of a left side, which the pattern destructs.
fn left_side(alloc: Global, work: &Work) -> Result<Parts<Place>, StepFault>
    requires handed { IsHanded work.now }
    requires nothing { work.now.held ≡ [] }
    ensures { Answers (all_nodes (work_formulas work.now)) work.now (limited (table.opening (true ∷ []) introductions.intro_hyp work.now)) result }
{
    let answered = intro_hyp(alloc, work);
    opening(alloc, answered, true)
}

/// Whether the formula is a universal.
fn is_universal(f: &Formula) -> bool
    ensures { result ≡ is_some (introductions.universal_of f.now) }
{
    matches!(f, Formula::All(_))
}

/// The introduction of a variable, after which nothing is left for the pattern; or of a left side.
fn variable(alloc: Global, work: &Work, name: &Name) -> Result<Parts<Place>, StepFault>
    requires handed { IsHanded work.now }
    requires nothing { work.now.held ≡ [] }
    ensures { Answers (all_nodes (work_formulas work.now)) work.now (limited (table.intro_var_or_hyp (Some name.now) (introductions.universal_of work.now.goal.concl) work.now)) result }
{
    if is_universal(&work.goal.concl) {
        let answered = intro_all(alloc, work, name);
        opening(alloc, answered, false)
    } else {
        left_side(alloc, work)
    }
}

/// The introduction for a pattern.
fn for_pattern(alloc: Global, work: &Work, pat: &Pat) -> Result<Parts<Place>, StepFault>
    requires handed { IsHanded work.now }
    requires nothing { work.now.held ≡ [] }
    ensures { Answers (all_nodes (work_formulas work.now)) work.now (limited (table.intro_one pat.now work.now)) result }
{
    match pat {
        Pat::PureName(name) => variable(alloc, work, name),
        Pat::PureFresh => {
            let name = fresh_name(alloc, &work.goal)?;
            variable(alloc, work, &name)
        }
        _ => left_side(alloc, work),
    }
}

fn enter(alloc: Global, work: &Work, act: Entering) -> Result<Parts<Place>, StepFault>
    requires handed { IsHanded work.now }
    requires nothing { work.now.held ≡ [] }
    ensures { Answers (all_nodes (work_formulas work.now)) work.now (limited (entering act.entry work.now)) result }
{
    match act {
        Entering::ForPattern(pat) => for_pattern(alloc, work, pat),
        Entering::LeftSide => intro_hyp(alloc, work),
        Entering::FreshVariable => intro_all_fresh(alloc, work),
        Entering::Take(name) => take(alloc, work, name),
        Entering::Lend(name) => lend(alloc, work, name),
    }
}

fn handle(alloc: Global, work: &Work, act: Handling) -> Result<Parts<Place>, StepFault>
    requires handed { IsHanded work.now }
    requires some { 0 < length work.now.held }
    ensures { Answers (all_nodes (work_formulas work.now)) work.now (limited (handling act.entry work.now)) result }
{
    match act {
        Handling::Name(name) => name_held(alloc, work, name),
        Handling::NameFresh => name_fresh(alloc, work),
        Handling::Drop => drop_held(alloc, work),
        Handling::Pair(p, q) => pair(alloc, work, p, q),
        Handling::Either => either(alloc, work),
        Handling::Absurd => absurd_held(alloc, work),
        Handling::ToPure(name) => to_pure(alloc, work, name),
        Handling::ToPureFresh => to_pure_fresh(alloc, work),
        Handling::ToInt => opening(alloc, to_int(alloc, work), true),
        Handling::ToSpat => opening(alloc, to_spat(alloc, work), true),
        Handling::Frame => frame_held(alloc, work),
    }
}

/// Whether the action leaves a pattern's part to what it has in hand.
fn opens(act: Handling) -> bool
    ensures { result ≡ opens act.entry }
{
    match act {
        Handling::ToInt | Handling::ToSpat => true,
        _ => false,
    }
}

/// The action where nothing is in hand.
fn idle(alloc: Global, work: &Work, act: Handling) -> Result<Parts<Place>, StepFault>
    requires handed { IsHanded work.now }
    requires nothing { work.now.held ≡ [] }
    ensures { Answers (all_nodes (work_formulas work.now)) work.now (limited (handling act.entry work.now)) result }
{
    let answered = same(alloc, work);
    if opens(act) {
        opening(alloc, answered, true)
    } else {
        answered
    }
}

fn change(alloc: Global, work: &Work, act: Changing) -> Result<Parts<Place>, StepFault>
    requires handed { IsHanded work.now }
    requires nothing { work.now.held ≡ [] }
    requires shallow { depth_of work.now.goal.concl ≤ MAX_LINE_LEVELS }
    requires given { IsHandedToChange act work.now }
    ensures { Answers (all_nodes (work_formulas work.now) + handed_to_change act.entry) work.now (limited (changing act.entry work.now)) result }
{
    match act {
        Changing::Split => split(alloc, work),
        Changing::SplitLeft(names) => split_at(alloc, work, true, names),
        Changing::SplitRight(names) => split_at(alloc, work, false, names),
        Changing::Left => side(alloc, work, true),
        Changing::Right => side(alloc, work, false),
        Changing::Exists(term) => exists(alloc, work, term),
        Changing::ExFalso => exfalso(alloc, work),
        Changing::Exact(name) => exact(alloc, work, name),
        Changing::Assumption => assumption(alloc, work),
        Changing::Done => done(alloc, work),
        Changing::TryDone => try_done(alloc, work),
        Changing::Clear(name) => clear(alloc, work, name),
        Changing::Rename(old, new) => rename(alloc, work, old, new),
        Changing::Revert(name) => revert(alloc, work, name),
        Changing::RevertVar(name) => revert_var(alloc, work, name),
    }
}

fn give(alloc: Global, work: &Work, act: Giving) -> Result<Parts<Place>, StepFault>
    requires handed { IsHanded work.now }
    requires some { 0 < length work.now.held }
    requires given { IsHandedToGive act work.now }
    ensures { Answers (all_nodes (work_formulas work.now) + handed_to_give act.entry) work.now (limited (giving act.entry work.now)) result }
{
    match act {
        Giving::Term(term) => with_term(alloc, work, term),
    }
}

fn frame(alloc: Global, work: &Work, act: Framing) -> Result<Parts<Place>, StepFault>
    requires { IsHanded work.now }
    ensures { Answers (all_nodes (work_formulas work.now)) work.now (limited (framing act.entry work.now)) result }
{
    match act {
        Framing::Named(name) => frame_named(alloc, work, name),
        Framing::Member(name) => frame_member(alloc, work, name),
    }
}

/// Whether nothing is in hand.
fn rests(work: &Work) -> bool
    ensures { MatchBool result (work.now.held ≡ []) (0 < length work.now.held) }
{
    work.held.is_empty()
}

/// The action on the work: its row of the directive table, with a proof. Where it is for works with nothing in hand and
/// something is, or the other way round, nothing changes. The error is the row that refuses it, or want of memory.
pub fn perform(alloc: Global, work: &Work, act: Act) -> Result<Parts<Place>, StepFault>
    requires handed { IsHanded work.now }
    requires shallow { depth_of work.now.goal.concl ≤ MAX_LINE_LEVELS }
    requires given { IsHandedTo act work.now }
    ensures { Answers (all_nodes (work_formulas work.now) + handed_to act.entry) work.now (limited (action_of act.entry work.now)) result }
{
    let rests = rests(work);
    match act {
        Act::Enter(act) => {
            if rests {
                enter(alloc, work, act)
            } else {
                same(alloc, work)
            }
        }
        Act::Handle(act) => {
            if rests {
                idle(alloc, work, act)
            } else {
                handle(alloc, work, act)
            }
        }
        Act::Give(act) => {
            if rests {
                same(alloc, work)
            } else {
                give(alloc, work, act)
            }
        }
        Act::Change(act) => {
            if rests {
                change(alloc, work, act)
            } else {
                same(alloc, work)
            }
        }
        Act::Frame(act) => frame(alloc, work, act),
    }
}
