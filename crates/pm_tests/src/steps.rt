//! Directives at the limits: of goals, of patterns, and of proofs.

ghost use Rattle.pm_table.specs.Limits.{resting};
ghost use Rattle.pm_sweep.specs.Standing.{IsSoundWork};

use crate::given::answers;
use crate::run::is_proved;
use pm_directives::step;
use pm_goal::{Ctx, Facts, Goal, Lemmas, Row, StepFault};
use pm_logic::{Bytes, Formula, List, Memory, Preds, Pure};
use pm_proof::Parts;
use pm_script::Directive;
use pm_top::Status;
use std::alloc::Global;
use std::process::Abort;
use std::test::Fail;

/// A text, as pieces that each stand so many times.
type Pieces = &'static [(&'static str, usize)];

fn text_of(alloc: Global, pieces: &[(&str, usize)]) -> Result<Bytes, Memory> {
    let mut text = Bytes::new(alloc);
    for (piece, times) in pieces {
        for _ in 0..*times {
            text.extend(piece.as_bytes())?;
        }
    }
    Ok(text)
}

/// Lemmas, as they are printed, and the sentences that prove them.
static PROVED: [(Pieces, Pieces); 7] = [
    // formulas of 200 levels
    (
        &[
            ("Lemma a : ", 1),
            ("▷ ", 197),
            ("⌜True⌝ -∗ ", 1),
            ("▷ ", 197),
            ("⌜True⌝.", 1),
        ],
        &[("iIntros \"H\". iExact \"H\".", 1)],
    ),
    // patterns that stand in 199 others
    (
        &[("Lemma a : □ 1 ↦ 2 -∗ 1 ↦ 2.", 1)],
        &[("iIntros \"", 1), ("#", 199), ("H\". iExact \"H\".", 1)],
    ),
    (
        &[
            ("Lemma a : ", 1),
            ("⌜True⌝ ∗ ", 196),
            ("⌜True⌝ -∗ ⌜True⌝.", 1),
        ],
        &[
            ("iIntros \"", 1),
            ("[_ ", 196),
            ("#-##H", 1),
            ("]", 196),
            ("\". iExact \"H\".", 1),
        ],
    ),
    (
        &[
            ("Lemma a : ", 1),
            ("⌜False⌝ ∨ ", 196),
            ("⌜True⌝ -∗ ⌜True⌝.", 1),
        ],
        &[
            ("iIntros \"", 1),
            ("[[]|", 196),
            ("#-##H", 1),
            ("]", 196),
            ("\". iExact \"H\".", 1),
        ],
    ),
    // 64 hypotheses
    (
        &[("Lemma a : ", 1), ("1 ↦ 2 -∗ ", 63), ("3 ↦ 4 -∗ 3 ↦ 4.", 1)],
        &[("iIntros \"", 1), ("? ", 64), ("\". iExact \"_H64\".", 1)],
    ),
    (
        &[("Lemma a : ", 1), ("1 ↦ 2 -∗ ", 63), ("3 ↦ 4 -∗ 3 ↦ 4.", 1)],
        &[("iIntros \"**\". iExact \"_H64\".", 1)],
    ),
    // 10,000 directives
    (
        &[("Lemma a : 1 ↦ 2 -∗ 1 ↦ 2.", 1)],
        &[
            ("iIntros \"H\". ", 1),
            ("iRevert \"H\". iIntros \"H\". ", 4_999),
            ("iExact \"H\".", 1),
        ],
    ),
];

#[test]
fn proofs_at_the_limits(rt: HostRuntime) -> Result<(), Fail> {
    for (lemma, sentences) in &PROVED {
        let lemma = text_of(rt.alloc(), lemma)?;
        let sentences = text_of(rt.alloc(), sentences)?;
        is_proved(&rt, rt.alloc(), lemma.as_slice(), sentences.as_slice())?;
    }
    Ok(())
}

/// What is done first, the sentence that is stopped, and what stops it: where it begins, the line of `run` goes on so.
static PAST: [(Pieces, Pieces, u32, &str); 11] = [
    // variables: one after the other, all at once, by a pattern
    (
        &[
            ("Lemma a : ", 1),
            ("∀ x, ", 65),
            ("True. iIntros \"", 1),
            ("%? ", 64),
            ("\". ", 1),
        ],
        &[("iIntros (x).", 1)],
        3,
        "X1",
    ),
    (
        &[("Lemma a : ", 1), ("∀ x, ", 65), ("True. ", 1)],
        &[("iIntros \"*\".", 1)],
        2,
        "X1",
    ),
    (
        &[
            ("Lemma a : ", 1),
            ("∀ x, ", 64),
            ("(∃ x, x ↦ 1) -∗ True. iIntros \"*\". ", 1),
        ],
        &[("iIntros \"[%y H]\".", 1)],
        3,
        "X1",
    ),
    // hypotheses: the last one of a list, all at once, what is dropped again, both parts of a pair
    (
        &[("Lemma a : ", 1), ("True -∗ ", 65), ("True. ", 1)],
        &[("iIntros \"", 1), ("? ", 65), ("\".", 1)],
        2,
        "X2",
    ),
    (
        &[("Lemma a : ", 1), ("True -∗ ", 65), ("True. ", 1)],
        &[("iIntros \"**\".", 1)],
        2,
        "X2",
    ),
    (
        &[
            ("Lemma a : ", 1),
            ("True -∗ ", 65),
            ("True. iIntros \"", 1),
            ("? ", 64),
            ("\". ", 1),
        ],
        &[("iIntros \"_\".", 1)],
        3,
        "X2",
    ),
    (
        &[
            ("Lemma a : ", 1),
            ("1 ↦ 2 -∗ ", 64),
            ("True. iIntros \"**\". ", 1),
        ],
        &[("iDestruct \"_H1\" as \"[A B]\".", 1)],
        3,
        "X2",
    ),
    // facts and intuitionistic ones count as well
    (
        &[
            ("Lemma a : ", 1),
            ("⌜1 < 2⌝ -∗ □ 1 ↦ 2 -∗ 3 ↦ 4 -∗ ", 21),
            ("True -∗ True -∗ True. iIntros \"", 1),
            ("%? #? ? ", 21),
            ("?\". ", 1),
        ],
        &[("iIntros \"?\".", 1)],
        3,
        "X2",
    ),
    // levels: 200 of them, which leaves the proof open, and 201
    (
        &[
            ("Lemma a : ∃ x, ", 1),
            ("▷ ", 196),
            ("⌜x = 1⌝. iExists 1 + 1. ", 1),
        ],
        &[],
        3,
        "Q3",
    ),
    (
        &[("Lemma a : ∃ x, ", 1), ("▷ ", 196), ("⌜x = 1⌝. ", 1)],
        &[("iExists 1 + 1 + 1.", 1)],
        2,
        "X4",
    ),
    (
        &[
            ("Lemma a : 1 ↦ 2 -∗ ∃ x, ", 1),
            ("▷ ", 195),
            ("⌜x = 1⌝. iIntros \"H\". iExists 1 + 1 + 1. ", 1),
        ],
        &[("iRevert \"H\".", 1)],
        4,
        "X4",
    ),
];

#[test]
fn directives_past_the_limits(rt: HostRuntime) -> Result<(), Fail> {
    let alloc = rt.alloc();
    for (before, sentence, number, row) in &PAST {
        let mut script = text_of(alloc, before)?;
        let at = script.len();
        script.extend(text_of(alloc, sentence)?.as_slice())?;
        let line = format!(in alloc; "refused: sentence {number} at {at}: {row}\n")?;
        let status = Status::Refused;
        answers(&rt, alloc, "run", script.as_slice(), status, line.as_str())?;
    }
    Ok(())
}

/// The pattern that stands in 200 others.
#[test]
fn the_deepest_pattern(rt: HostRuntime) -> Result<(), Fail> {
    let alloc = rt.alloc();
    let mut script = text_of(
        alloc,
        &[("Lemma a : True -∗ True. iIntros \"", 1), ("#", 200)],
    )?;
    let line = format!(in alloc; "unreadable at {}: deep\n", script.len())?;
    script.extend(b"H\".")?;
    let status = Status::Unreadable;
    answers(&rt, alloc, "run", script.as_slice(), status, line.as_str())?;
    Ok(())
}

/// `⌜True⌝`, over no hypotheses.
fn truth_alone(alloc: Global) -> Goal
    ensures { IsSoundWork (resting result) }
{
    let vars = List::new(alloc);
    let pures = Facts::new(alloc);
    let ints = Ctx::new(alloc);
    let spats = Ctx::new(alloc);
    Goal {
        vars,
        pures,
        ints,
        spats,
        concl: Formula::Pure(Pure::True),
    }
}

/// A step of the goal with no predicates and no lemmas: the goal is closed, or split, which it can't be.
fn step_of(alloc: Global, goal: &Goal, split: bool) -> Result<Parts<Goal>, StepFault>
    requires { IsSoundWork (resting goal.now) }
{
    let preds = Preds {
        list: List::new(alloc),
    };
    let lemmas = Lemmas {
        list: List::new(alloc),
    };
    if split {
        step(alloc, &preds, &lemmas, goal, &Directive::Split)
    } else {
        step(alloc, &preds, &lemmas, goal, &Directive::Done)
    }
}

/// A directive that is refused leaves the goal as it is: one that fits is done then.
#[test]
fn a_step_after_a_refusal(rt: HostRuntime) -> Result<(), Fail> {
    let goal = truth_alone(rt.alloc());
    let refused = step_of(rt.alloc(), &goal, true);
    assert!(rt; matches!(&refused, Err(StepFault::Refused(r)) if r.row == Row::ConclusionNotSplit));
    let parts = step_of(rt.alloc(), &goal, false).map_err(|_| Memory)?;
    assert_eq!(rt; parts.goals.len(), 0);
    assert_eq!(rt; parts.proof.holes(), 0);
    Ok(())
}
