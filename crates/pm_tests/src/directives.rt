//! Directives and patterns, each where it is done and where it is refused.

use crate::given::answers;
use crate::run::is_proved;
use pm_logic::Memory;
use pm_top::Status;
use std::alloc::Global;
use std::process::Abort;
use std::test::Fail;

/// What `iIntros` brings in: a statement, as it is printed, and the sentences that prove it.
static INTRODUCED: [(&str, &str); 23] = [
    ("⌜True⌝ -∗ ⌜True⌝", "iIntros \"?\". iExact \"_H1\"."),
    ("1 ↦ 2 -∗ ⌜True⌝", "iIntros \"_\". done."),
    ("1 ↦ 2 -∗ 3 ↦ 4 -∗ 1 ↦ 2", "iIntros \"A B\". iExact \"A\"."),
    // an implication, where there is no spatial hypothesis, and one of a persistent left side
    ("1 ↦ 2 → 1 ↦ 2", "iIntros \"A\". iExact \"A\"."),
    ("1 ↦ 2 -∗ □ 3 ↦ 4 → 1 ↦ 2", "iIntros \"A B\". iExact \"A\"."),
    (
        "□ 1 ↦ 2 -∗ 3 ↦ 4 → 3 ↦ 4",
        "iIntros \"#A B\". iExact \"B\".",
    ),
    (
        "1 ↦ 2 -∗ (∀ _0, ▷ □ _0 ↦ 1) ∨ ⌜True⌝ ∗ (∃ _0, ⌜_0 = 1⌝) → 1 ↦ 2",
        "iIntros \"A B\". iExact \"A\".",
    ),
    // variables
    ("∀ _0, ⌜_0 = _0⌝", "iIntros (x). done."),
    ("∀ _0, ⌜_0 = _0⌝", "iIntros (_). done."),
    ("∀ _0, ∃ _1, ⌜_1 = _0⌝", "iIntros \"%x\". iExists x. done."),
    (
        "∀ _0, ∃ _1, ⌜_1 = _0⌝",
        "iIntros \"%?\". iExists _H1. done.",
    ),
    (
        "∀ _0, ∀ _1, ⌜_0 < _1⌝ -∗ ⌜_0 < _1⌝",
        "iIntros (x y) \"%E\". iExact \"E\".",
    ),
    // the innermost of two variables, and the outer one
    (
        "∀ _0, ∀ _1, ∃ _2, ⌜_2 = _1⌝",
        "iIntros (x y). iExists y. done.",
    ),
    (
        "∀ _0, ∀ _1, ∃ _2, ⌜_2 = _0⌝",
        "iIntros (x y). iExists x. done.",
    ),
    // all that are in front
    (
        "∀ _0, ∀ _1, ∃ _2, ⌜_2 = _0⌝",
        "iIntros \"*\". iExists _H1. done.",
    ),
    (
        "∀ _0, _0 ↦ 1 -∗ ∀ _1, _1 ↦ 2 -∗ _0 ↦ 1",
        "iIntros \"**\". iExact \"_H2\".",
    ),
    ("1 ↦ 2 → 1 ↦ 2", "iIntros \"**\". iExact \"_H1\"."),
    // where a goal is closed, nothing is left to do for it
    ("1 ↦ 2 -∗ 1 ↦ 2", "iIntros \"// H //\"."),
    ("1 ↦ 2 -∗ ⌜True⌝", "iIntros \"H // K * []\"."),
    ("⌜False⌝ ∨ 1 ↦ 2 -∗ 1 ↦ 2", "iIntros \"[A|B] // C\"."),
    // a name is free again where its hypothesis is cleared
    (
        "1 ↦ 2 -∗ 3 ↦ 4 -∗ 3 ↦ 4",
        "iIntros \"H {H} H\". iExact \"H\".",
    ),
    (
        "⌜1 < 2⌝ -∗ □ 1 ↦ 2 -∗ 3 ↦ 4 -∗ 5 ↦ 6 -∗ 5 ↦ 6",
        "iIntros \"%A #B C {% # ∗} C\". iExact \"C\".",
    ),
    (
        "1 ↦ 2 -∗ 3 ↦ 4 -∗ ⌜True⌝ -∗ 3 ↦ 4",
        "iIntros \"A B {A} A\". iExact \"B\".",
    ),
];

/// What a pattern takes apart.
static TAKEN_APART: [(&str, &str); 46] = [
    // a pair: a star, and what is one
    ("1 ↦ 2 ∗ 3 ↦ 4 -∗ 1 ↦ 2", "iIntros \"[A B]\". iExact \"A\"."),
    ("1 ↦ 2 ∗ 3 ↦ 4 -∗ 3 ↦ 4", "iIntros \"[A B]\". iExact \"B\"."),
    (
        "1 ↦ 2 ∗ 3 ↦ 4 ∗ 5 ↦ 6 -∗ 3 ↦ 4",
        "iIntros \"(A & B & C)\". iExact \"B\".",
    ),
    (
        "1 ↦ 2 ∗ 3 ↦ 4 ∗ 5 ↦ 6 -∗ 5 ↦ 6",
        "iIntros \"[A [_ C]]\". iExact \"C\".",
    ),
    (
        "⌜1 < 2 ∧ 3 < 4⌝ -∗ ⌜3 < 4⌝",
        "iIntros \"[A B]\". iExact \"B\".",
    ),
    (
        "⌜1 < 2⌝ ∧ 3 ↦ 4 -∗ 3 ↦ 4",
        "iIntros \"[A B]\". iExact \"B\".",
    ),
    (
        "1 ↦ 2 ∧ □ 3 ↦ 4 -∗ □ 3 ↦ 4",
        "iIntros \"[A B]\". iExact \"B\".",
    ),
    ("5 ↦ 1 -∗ 5 ↦{1/2} 1", "iIntros \"[A B]\". iExact \"A\"."),
    (
        "5 ↦{1/4} 1 -∗ 5 ↦{1/8} 1 ∗ 5 ↦{1/8} 1",
        "iIntros \"[A B]\". iSplitL \"A\". iExact \"A\". iExact \"B\".",
    ),
    (
        "▷ (1 ↦ 2 ∗ 3 ↦ 4) -∗ ▷ 3 ↦ 4",
        "iIntros \"[A B]\". iExact \"B\".",
    ),
    (
        "□ (1 ↦ 2 ∧ 3 ↦ 4) -∗ □ 3 ↦ 4",
        "iIntros \"[A B]\". iExact \"B\".",
    ),
    // of what is intuitionistic, a conjunction or a star
    (
        "□ (1 ↦ 2 ∗ 3 ↦ 4) -∗ 3 ↦ 4",
        "iIntros \"#[A B]\". iExact \"B\".",
    ),
    (
        "□ (1 ↦ 2 ∧ 3 ↦ 4) -∗ □ 1 ↦ 2",
        "iIntros \"#[A B]\". iExact \"A\".",
    ),
    (
        "⌜1 < 2 ∧ 3 < 4⌝ -∗ ⌜1 < 2⌝",
        "iIntros \"#[A B]\". iExact \"A\".",
    ),
    (
        "□ ▷ (1 ↦ 2 ∧ 3 ↦ 4) -∗ ▷ 3 ↦ 4",
        "iIntros \"#[A B]\". iExact \"B\".",
    ),
    // a variable and the body
    (
        "(∃ _0, _0 ↦ 1) -∗ ∃ _0, _0 ↦ 1",
        "iIntros \"[%x H]\". iExists x. iExact \"H\".",
    ),
    (
        "(∃ _0, _0 ↦ 1) -∗ ∃ _0, _0 ↦ 1",
        "iIntros \"[%? ?]\". iExists _H1. iExact \"_H2\".",
    ),
    (
        "▷ (∃ _0, _0 ↦ 1) -∗ ∃ _0, ▷ _0 ↦ 1",
        "iIntros \"[%x H]\". iExists x. iExact \"H\".",
    ),
    (
        "□ (∃ _0, _0 ↦ 1) -∗ ∃ _0, □ _0 ↦ 1",
        "iIntros \"[%x H]\". iExists x. iExact \"H\".",
    ),
    (
        "□ (∃ _0, _0 ↦ 1) -∗ ∃ _0, _0 ↦ 1",
        "iIntros \"#[%x H]\". iExists x. iExact \"H\".",
    ),
    // beside a variable, a fact and a hypothesis that are there before
    (
        "∀ _0, ⌜_0 < 1⌝ -∗ _0 ↦ 1 -∗ (∃ _1, _1 ↦ _0) -∗ ∃ _1, _1 ↦ _0",
        "iIntros (x) \"%E H [%y K]\". iExists y. iExact \"K\".",
    ),
    (
        "∀ _0, ⌜_0 < 1⌝ -∗ _0 ↦ 1 -∗ (∃ _1, _1 ↦ _0) -∗ _0 ↦ 1",
        "iIntros (x) \"%E H [%y K]\". iExact \"H\".",
    ),
    (
        "∀ _0, ⌜_0 < 1⌝ -∗ _0 ↦ 1 -∗ (∃ _1, _1 ↦ _0) -∗ ⌜_0 < 1⌝",
        "iIntros (x) \"%E H [%y K]\". iExact \"E\".",
    ),
    // a star comes before a variable
    (
        "⌜1 < 2⌝ ∗ 3 ↦ 4 -∗ 3 ↦ 4",
        "iIntros \"[%E H]\". iExact \"H\".",
    ),
    // one part of a conjunction
    ("1 ↦ 2 ∧ 3 ↦ 4 -∗ 3 ↦ 4", "iIntros \"[_ B]\". iExact \"B\"."),
    ("1 ↦ 2 ∧ 3 ↦ 4 -∗ 1 ↦ 2", "iIntros \"[A _]\". iExact \"A\"."),
    ("1 ↦ 2 ∧ 3 ↦ 4 -∗ ⌜True⌝", "iIntros \"[_ _]\". done."),
    // two goals, of which the first is that of the first alternative
    (
        "1 ↦ 2 ∨ 3 ↦ 4 -∗ 3 ↦ 4 ∨ 1 ↦ 2",
        "iIntros \"[A|B]\". iRight. iExact \"A\". iLeft. iExact \"B\".",
    ),
    (
        "⌜1 < 2 ∨ 3 < 4⌝ -∗ ⌜3 < 4 ∨ 1 < 2⌝",
        "iIntros \"[A|B]\". iRight. iExact \"A\". iLeft. iExact \"B\".",
    ),
    (
        "▷ (1 ↦ 2 ∨ 3 ↦ 4) -∗ ▷ 3 ↦ 4 ∨ ▷ 1 ↦ 2",
        "iIntros \"[A|B]\". iRight. iExact \"A\". iLeft. iExact \"B\".",
    ),
    (
        "□ (1 ↦ 2 ∨ 3 ↦ 4) -∗ 3 ↦ 4 ∨ 1 ↦ 2",
        "iIntros \"#[A|B]\". iRight. iExact \"A\". iLeft. iExact \"B\".",
    ),
    // the patterns behind are for each of the goals
    (
        "(1 ↦ 2 ∨ 3 ↦ 4) ∗ 5 ↦ 6 -∗ 7 ↦ 8 -∗ 5 ↦ 6",
        "iIntros \"[[A|A] B] C\". iExact \"B\". iExact \"B\".",
    ),
    ("⌜False⌝ -∗ 1 ↦ 2", "iIntros \"[]\"."),
    (
        "⌜False⌝ ∨ 1 ↦ 2 -∗ 1 ↦ 2",
        "iIntros \"[[]|H]\". iExact \"H\".",
    ),
    // facts
    ("⌜1 < 2⌝ -∗ ⌜1 < 2⌝", "iIntros \"%E\". iExact \"E\"."),
    ("⌜1 < 2⌝ -∗ ⌜1 < 2⌝", "iIntros \"%?\". iExact \"_H1\"."),
    (
        "⌜1 < 2⌝ ∗ ⌜3 < 4⌝ -∗ ⌜1 < 2 ∧ 3 < 4⌝",
        "iIntros \"%E\". iExact \"E\".",
    ),
    (
        "⌜1 < 2⌝ ∧ ⌜3 < 4⌝ -∗ ⌜1 < 2 ∧ 3 < 4⌝",
        "iIntros \"%E\". iExact \"E\".",
    ),
    (
        "⌜1 < 2⌝ ∨ ⌜3 < 4⌝ -∗ ⌜1 < 2 ∨ 3 < 4⌝",
        "iIntros \"%E\". iExact \"E\".",
    ),
    ("□ ⌜1 < 2⌝ -∗ ⌜1 < 2⌝", "iIntros \"%E\". iExact \"E\"."),
    ("(|==> ⌜1 < 2⌝) -∗ ⌜1 < 2⌝", "iIntros \"%E\". iExact \"E\"."),
    // of one kind or the other
    ("□ 1 ↦ 2 -∗ □ 1 ↦ 2", "iIntros \"#H\". iExact \"H\"."),
    ("⌜1 < 2⌝ -∗ □ ⌜1 < 2⌝", "iIntros \"#H\". iExact \"H\"."),
    ("□ 1 ↦ 2 -∗ 1 ↦ 2", "iIntros \"##H\". iExact \"H\"."),
    (
        "□ 1 ↦ 2 -∗ 1 ↦ 2 ∗ 1 ↦ 2",
        "iIntros \"#H\". iSplitL. iExact \"H\". iExact \"H\".",
    ),
    (
        "□ 1 ↦ 2 -∗ 1 ↦ 2 ∗ ⌜True⌝",
        "iIntros \"#-#H\". iSplitL \"H\". iExact \"H\". done.",
    ),
];

/// Directives besides `iIntros`.
static DIRECTED: [(&str, &str); 58] = [
    (
        "1 ↦ 2 ∗ 3 ↦ 4 -∗ 3 ↦ 4",
        "iIntros \"H\". iDestruct \"H\" as \"[A B]\". iExact \"B\".",
    ),
    (
        "1 ↦ 2 ∗ 3 ↦ 4 -∗ 3 ↦ 4",
        "iIntros \"H\". iDestruct (\"H\") as \"[H K]\". iExact \"K\".",
    ),
    (
        "(∃ _0, ∃ _1, _0 ↦ _1) -∗ ∃ _0, ∃ _1, _0 ↦ _1",
        "iIntros \"H\". iDestruct \"H\" as (x y) \"H\". iExists x, y. iExact \"H\".",
    ),
    (
        "□ (1 ↦ 2 ∧ 3 ↦ 4) -∗ 3 ↦ 4",
        "iIntros \"#H\". iDestruct \"H\" as \"[H K]\". iExact \"K\".",
    ),
    // a fact counts as intuitionistic, and is taken
    (
        "⌜1 < 2 ∧ 3 < 4⌝ -∗ □ ⌜3 < 4⌝",
        "iIntros \"%E\". iDestruct \"E\" as \"[E F]\". iExact \"F\".",
    ),
    (
        "⌜1 < 2⌝ -∗ □ ⌜1 < 2⌝",
        "iIntros \"%E\". iDestruct \"E\" as \"E\". iExact \"E\".",
    ),
    // both goals have all hypotheses
    (
        "1 ↦ 2 -∗ 1 ↦ 2 ∧ 1 ↦ 2",
        "iIntros \"H\". iSplit. iExact \"H\". iExact \"H\".",
    ),
    ("⌜1 = 1 ∧ 2 = 2⌝", "iSplit. done. done."),
    (
        "1 ↦ 2 -∗ ⌜True⌝ ∗ 1 ↦ 2",
        "iIntros \"H\". iSplit. done. iExact \"H\".",
    ),
    (
        "1 ↦ 2 -∗ 1 ↦ 2 ∗ ⌜True⌝",
        "iIntros \"H\". iSplit. iExact \"H\". done.",
    ),
    // each has those that it is given
    (
        "1 ↦ 2 ∗ 3 ↦ 4 -∗ 3 ↦ 4 ∗ 1 ↦ 2",
        "iIntros \"[A B]\". iSplitL \"B\". iExact \"B\". iExact \"A\".",
    ),
    (
        "1 ↦ 2 ∗ 3 ↦ 4 -∗ 3 ↦ 4 ∗ 1 ↦ 2",
        "iIntros \"[A B]\". iSplitR \"A\". iExact \"B\". iExact \"A\".",
    ),
    (
        "1 ↦ 2 ∗ 3 ↦ 4 -∗ (3 ↦ 4 ∗ 1 ↦ 2) ∗ ⌜True⌝",
        "iIntros \"[A B]\". iSplitL \"B A\". iSplitL \"B\". iExact \"B\". iExact \"A\". done.",
    ),
    (
        "1 ↦ 2 -∗ 1 ↦ 2 ∗ ⌜True⌝",
        "iIntros \"H\". iSplitL. iExact \"H\". done.",
    ),
    (
        "1 ↦ 2 -∗ ⌜True⌝ ∗ 1 ↦ 2",
        "iIntros \"H\". iSplitR. done. iExact \"H\".",
    ),
    // facts and intuitionistic hypotheses go to both sides
    (
        "⌜1 < 2⌝ -∗ □ 3 ↦ 4 -∗ 5 ↦ 6 -∗ (⌜1 < 2⌝ ∧ 3 ↦ 4) ∗ ⌜1 < 2⌝ ∗ 3 ↦ 4",
        "iIntros \"%E #I S\". iSplitL. iSplit. iExact \"E\". iExact \"I\". iSplit. iExact \"E\". iExact \"I\".",
    ),
    (
        "1 ↦ 2 -∗ 1 ↦ 2 ∨ 3 ↦ 4",
        "iIntros \"H\". iLeft. iExact \"H\".",
    ),
    (
        "1 ↦ 2 -∗ 3 ↦ 4 ∨ 1 ↦ 2",
        "iIntros \"H\". iRight. iExact \"H\".",
    ),
    ("⌜1 = 1 ∨ 1 < 2⌝", "iLeft. done."),
    ("⌜1 < 2 ∨ 1 = 1⌝", "iRight. done."),
    ("∃ _0, ⌜_0 = 1⌝", "iExists 1. done."),
    (
        "∃ _0, ∃ _1, ⌜_0 = _1⌝",
        "iExists 2 * 3 - 4, 2 * 3 - 4. done.",
    ),
    (
        "∀ _0, ∃ _1, ⌜_0 + 1 = _1⌝",
        "iIntros (x). iExists x + 1. done.",
    ),
    // under the binder of another variable
    (
        "∀ _0, _0 ↦ 1 -∗ ∃ _1, ∃ _2, _1 ↦ _2",
        "iIntros (x) \"H\". iExists x. iExists 1. iExact \"H\".",
    ),
    ("1 ↦ 2 -∗ 1 ↦ 2", "iIntros \"H\". iAssumption."),
    ("□ 1 ↦ 2 -∗ 1 ↦ 2", "iIntros \"#H\". iAssumption."),
    ("□ 1 ↦ 2 -∗ □ 1 ↦ 2", "iIntros \"#H\". iAssumption."),
    ("⌜1 < 2⌝ -∗ ⌜1 < 2⌝", "iIntros \"%E\". iAssumption."),
    (
        "1 ↦ 2 -∗ 3 ↦ 4 -∗ 5 ↦ 6 -∗ 3 ↦ 4",
        "iIntros \"A B C\". iAssumption.",
    ),
    ("⌜False⌝ -∗ 1 ↦ 2", "iIntros \"H\". iExFalso. iExact \"H\"."),
    // by what a goal is done
    ("⌜True⌝", "done."),
    ("⌜False⌝ -∗ 1 ↦ 2", "iIntros \"%E\". done."),
    ("□ ⌜False⌝ -∗ 1 ↦ 2", "iIntros \"#H\". done."),
    ("⌜False⌝ -∗ 1 ↦ 2", "iIntros \"H\". done."),
    ("1 ↦ 2 -∗ 1 ↦ 2", "iIntros \"H\". done."),
    ("□ 1 ↦ 2 -∗ 1 ↦ 2", "iIntros \"#H\". done."),
    ("□ 1 ↦ 2 -∗ □ 1 ↦ 2", "iIntros \"#H\". done."),
    ("⌜1 < 2⌝ -∗ ⌜1 < 2⌝", "iIntros \"%E\". done."),
    ("∀ _0, ⌜_0 + 1 = _0 + 1⌝", "iIntros (x). done."),
    ("⌜1 < 2⌝ -∗ ⌜¬ 1 < 2⌝ -∗ 1 ↦ 2", "iIntros \"%A %B\". done."),
    ("⌜¬ 1 < 2⌝ -∗ ⌜1 < 2⌝ -∗ 1 ↦ 2", "iIntros \"%A %B\". done."),
    // a name is free again
    (
        "1 ↦ 2 -∗ 3 ↦ 4 -∗ 5 ↦ 6 -∗ 5 ↦ 6",
        "iIntros \"A B\". iClear \"B A\". iIntros \"A\". iExact \"A\".",
    ),
    (
        "⌜1 < 2⌝ -∗ □ 1 ↦ 2 -∗ 3 ↦ 4 -∗ 5 ↦ 6 -∗ 5 ↦ 6",
        "iIntros \"%A #B C\". iClear \"A B\". iRename \"C\" into \"A\". iIntros \"C\". iExact \"C\".",
    ),
    (
        "⌜1 < 2⌝ -∗ □ 1 ↦ 2 -∗ 3 ↦ 4 -∗ 5 ↦ 6 -∗ 5 ↦ 6",
        "iIntros \"%A #B C\". iClear \"∗ # %\". iIntros \"C\". iExact \"C\".",
    ),
    // a group without members
    ("⌜True⌝", "iClear \"% # ∗\". iRevert \"% # ∗\". done."),
    (
        "1 ↦ 2 -∗ 1 ↦ 2",
        "iIntros \"H\". iRename \"H\" into \"K\". iExact \"K\".",
    ),
    (
        "□ 1 ↦ 2 -∗ 1 ↦ 2",
        "iIntros \"#H\". iRename \"H\" into \"K\". iExact \"K\".",
    ),
    (
        "⌜1 < 2⌝ -∗ ⌜1 < 2⌝",
        "iIntros \"%H\". iRename \"H\" into \"K\". iExact \"K\".",
    ),
    (
        "1 ↦ 2 -∗ 1 ↦ 2",
        "iIntros \"H\". iRevert \"H\". iIntros \"K\". iExact \"K\".",
    ),
    // the box comes back, and so does the fact
    (
        "□ 1 ↦ 2 -∗ □ 1 ↦ 2",
        "iIntros \"#H\". iRevert \"H\". iIntros \"H\". iExact \"H\".",
    ),
    (
        "⌜1 < 2⌝ -∗ ⌜1 < 2⌝",
        "iIntros \"%E\". iRevert \"E\". iIntros \"E\". iExact \"E\".",
    ),
    // the last one first, so that the first stands in front
    (
        "1 ↦ 2 -∗ 3 ↦ 4 -∗ 1 ↦ 2",
        "iIntros \"A B\". iRevert \"A B\". iIntros \"C D\". iExact \"C\".",
    ),
    (
        "1 ↦ 2 -∗ 3 ↦ 4 -∗ 1 ↦ 2",
        "iIntros \"A B\". iRevert \"∗\". iIntros \"C D\". iExact \"C\".",
    ),
    (
        "⌜1 < 2⌝ -∗ □ 1 ↦ 2 -∗ 3 ↦ 4 -∗ 3 ↦ 4",
        "iIntros \"%A #B C\". iRevert \"% # ∗\". iIntros \"%D #E F\". iExact \"F\".",
    ),
    // variables: also where others are mentioned, inside and outside
    (
        "∀ _0, ∃ _1, ⌜_1 = _0⌝",
        "iIntros (x). iRevert (x). iIntros (y). iExists y. done.",
    ),
    (
        "∀ _0, ∀ _1, _0 ↦ 1 -∗ ∃ _2, ⌜_2 = _1⌝",
        "iIntros (x y) \"H\". iRevert (y). iIntros (z). iExists z. done.",
    ),
    (
        "∀ _0, ∀ _1, _1 ↦ 1 -∗ ∃ _2, ⌜_2 = _0⌝ ∗ _1 ↦ 1",
        "iIntros (x y) \"H\". iRevert (x). iIntros (z). iExists z. iSplitR \"H\". done. iExact \"H\".",
    ),
    (
        "∀ _0, ∀ _1, _0 ↦ _1 -∗ _0 ↦ _1",
        "iIntros (x y) \"H\". iRevert (x y) \"H\". iIntros (z w) \"K\". iExact \"K\".",
    ),
];

fn each_is_proved(rt: &impl Abort, alloc: Global, rows: &[(&str, &str)]) -> Result<(), Memory> {
    for (statement, sentences) in rows {
        let lemma = format!(in alloc; "Lemma a : {statement}.")?;
        is_proved(rt, alloc, lemma.as_bytes(), sentences.as_bytes())?;
    }
    Ok(())
}

#[test]
fn introductions(rt: HostRuntime) -> Result<(), Fail> {
    each_is_proved(&rt, rt.alloc(), &INTRODUCED)?;
    Ok(())
}

#[test]
fn patterns(rt: HostRuntime) -> Result<(), Fail> {
    each_is_proved(&rt, rt.alloc(), &TAKEN_APART)?;
    Ok(())
}

#[test]
fn directives(rt: HostRuntime) -> Result<(), Fail> {
    each_is_proved(&rt, rt.alloc(), &DIRECTED)?;
    Ok(())
}

/// A statement, what is done first, the directive that is refused, and the row that refuses it.
static REFUSED: [(&str, &str, &str, &str); 80] = [
    // introductions
    ("1 ↦ 2", "", "iIntros \"H\".", "I1"),
    ("∀ _0, ⌜True⌝", "", "iIntros \"H\".", "I1"),
    ("∀ _0, ⌜True⌝", "", "iIntros \"?\".", "I1"),
    ("∀ _0, ⌜True⌝", "", "iIntros \"_\".", "I1"),
    ("1 ↦ 2", "", "iIntros (x).", "I1"),
    ("1 ↦ 2", "", "iIntros \"%?\".", "I1"),
    ("▷ (∀ _0, ⌜True⌝)", "", "iIntros (x).", "I1"),
    ("1 ↦ 2", "", "iIntros \"**\".", "I1"),
    (
        "1 ↦ 2 -∗ 3 ↦ 4 → ⌜True⌝",
        "iIntros \"H\". ",
        "iIntros \"**\".",
        "I1",
    ),
    (
        "1 ↦ 2 -∗ 3 ↦ 4 → ⌜True⌝",
        "iIntros \"H\". ",
        "iIntros \"_\".",
        "I2",
    ),
    ("1 ↦ 2 -∗ 3 ↦ 4 → ⌜True⌝", "", "iIntros \"H K\".", "I2"),
    ("1 ↦ 2", "", "iIntros \"*\".", "I3"),
    ("⌜True⌝ -∗ ⌜True⌝", "", "iIntros \"*\".", "I3"),
    ("▷ (1 ↦ 2 -∗ 3 ↦ 4)", "", "iIntros \"H\".", "I1"),
    // the first refusal refuses all, also what could be done before it
    ("∀ _0, 1 ↦ 2", "", "iIntros (x) \"H\".", "I1"),
    // names in use: a variable, a fact, an intuitionistic hypothesis, a spatial one
    ("∀ _0, ∀ _1, ⌜True⌝", "", "iIntros (x x).", "N2 x"),
    ("∀ _0, 1 ↦ 2 -∗ ⌜True⌝", "", "iIntros (x) \"x\".", "N2 x"),
    (
        "⌜1 < 2⌝ -∗ 1 ↦ 2 -∗ ⌜True⌝",
        "",
        "iIntros \"%E E\".",
        "N2 E",
    ),
    (
        "□ 1 ↦ 2 -∗ 1 ↦ 2 -∗ ⌜True⌝",
        "",
        "iIntros \"#H H\".",
        "N2 H",
    ),
    (
        "1 ↦ 2 -∗ □ 1 ↦ 2 -∗ ⌜True⌝",
        "",
        "iIntros \"H #H\".",
        "N2 H",
    ),
    (
        "1 ↦ 2 -∗ ⌜1 < 2⌝ -∗ ⌜True⌝",
        "",
        "iIntros \"H %H\".",
        "N2 H",
    ),
    ("1 ↦ 2 -∗ ∀ _0, ⌜True⌝", "", "iIntros \"H %H\".", "N2 H"),
    ("1 ↦ 2 ∗ 3 ↦ 4 -∗ ⌜True⌝", "", "iIntros \"[A A]\".", "N2 A"),
    (
        "1 ↦ 2 -∗ (∃ _0, _0 ↦ 1) -∗ ⌜True⌝",
        "",
        "iIntros \"H [%H K]\".",
        "N2 H",
    ),
    // names that are kept for the engine, and one that isn't
    ("⌜True⌝ -∗ ⌜True⌝", "", "iIntros \"_0\".", "N2 _0"),
    ("⌜True⌝ -∗ ⌜True⌝", "", "iIntros \"_01\".", "N2 _01"),
    ("∀ _0, ⌜True⌝", "", "iIntros (_7).", "N2 _7"),
    ("⌜1 < 2⌝ -∗ ⌜True⌝", "", "iIntros \"%_1\".", "N2 _1"),
    (
        "1 ↦ 2 -∗ 3 ↦ 4 -∗ 5 ↦ 6 -∗ ⌜True⌝",
        "iIntros \"_H1\". ",
        "iIntros \"? _H2\".",
        "N2 _H2",
    ),
    // patterns
    ("1 ↦ 2 ∨ 3 ↦ 4 -∗ ⌜True⌝", "", "iIntros \"[A B]\".", "E1"),
    ("1 ↦ 2 ∧ 3 ↦ 4 -∗ ⌜True⌝", "", "iIntros \"[A B]\".", "E1"),
    // an odd number of units has no halves
    ("0 ↦{1/16} 0 -∗ ⌜True⌝", "", "iIntros \"[A B]\".", "E1"),
    ("(∃ _0, _0 ↦ 1) -∗ ⌜True⌝", "", "iIntros \"[A B]\".", "E1"),
    // one part of a conjunction isn't taken of what is intuitionistic, nor under a sign
    (
        "▷ (1 ↦ 2 ∧ 3 ↦ 4) -∗ ⌜True⌝",
        "",
        "iIntros \"[_ B]\".",
        "E1",
    ),
    (
        "□ (1 ↦ 2 ∨ 3 ↦ 4) -∗ ⌜True⌝",
        "",
        "iIntros \"#[_ B]\".",
        "E1",
    ),
    ("1 ↦ 2 ∗ 3 ↦ 4 -∗ ⌜True⌝", "", "iIntros \"[A|B]\".", "E2"),
    ("⌜True⌝ -∗ ⌜True⌝", "", "iIntros \"[]\".", "E3"),
    ("▷ ⌜False⌝ -∗ ⌜True⌝", "", "iIntros \"[]\".", "E3"),
    ("1 ↦ 2 -∗ ⌜True⌝", "", "iIntros \"%E\".", "E4"),
    ("▷ ⌜1 < 2⌝ -∗ ⌜True⌝", "", "iIntros \"%?\".", "E4"),
    ("1 ↦ 2 -∗ ⌜True⌝", "", "iIntros \"#H\".", "E5"),
    ("(|==> ⌜True⌝) -∗ ⌜True⌝", "", "iIntros \"#H\".", "E5"),
    // what can't be done comes before the name
    (
        "∀ _0, 1 ↦ 2 -∗ ⌜True⌝",
        "iIntros (x). ",
        "iIntros \"%x\".",
        "E4",
    ),
    (
        "∀ _0, 0 ↦{1/16} 0 -∗ ⌜True⌝",
        "iIntros (x). ",
        "iIntros \"[%x H]\".",
        "E1",
    ),
    // a pattern that fits one of the goals alone
    (
        "1 ↦ 2 ∗ 3 ↦ 4 ∨ 5 ↦{1/16} 6 -∗ ⌜True⌝",
        "",
        "iIntros \"[[A B]|[A B]]\".",
        "E1",
    ),
    (
        "1 ↦ 2 ∨ 3 ↦ 4 -∗ ⌜True⌝",
        "",
        "iIntros \"[A|B] {A}\".",
        "N1 A",
    ),
    ("1 ↦ 2 -∗ ⌜True⌝", "", "iIntros \"{K} H\".", "N1 K"),
    (
        "∀ _0, (∃ _1, _1 ↦ _0) -∗ ⌜True⌝",
        "iIntros (x) \"H\". ",
        "iDestruct \"H\" as (x) \"K\".",
        "N2 x",
    ),
    // things that aren't there: also where something else has the name, and where it was there before
    (
        "1 ↦ 2 -∗ ⌜True⌝",
        "iIntros \"H\". ",
        "iDestruct \"K\" as \"_\".",
        "N1 K",
    ),
    (
        "∀ _0, ⌜True⌝",
        "iIntros (x). ",
        "iDestruct \"x\" as \"_\".",
        "N1 x",
    ),
    ("∀ _0, ⌜True⌝", "iIntros (x). ", "iExact \"x\".", "N1 x"),
    ("1 ↦ 2 -∗ 3 ↦ 4", "iIntros \"H\". ", "iExact \"K\".", "N1 K"),
    (
        "1 ↦ 2 -∗ ⌜True⌝",
        "iIntros \"H\". ",
        "iClear \"H K\".",
        "N1 K",
    ),
    (
        "1 ↦ 2 -∗ ⌜True⌝",
        "iIntros \"H\". ",
        "iClear \"H H\".",
        "N1 H",
    ),
    (
        "1 ↦ 2 -∗ ⌜True⌝",
        "iIntros \"H\". ",
        "iClear \"∗ H\".",
        "N1 H",
    ),
    ("∀ _0, ⌜True⌝", "iIntros (x). ", "iClear \"x\".", "N1 x"),
    (
        "1 ↦ 2 -∗ ⌜True⌝",
        "iIntros \"H\". ",
        "iRename \"K\" into \"H\".",
        "N1 K",
    ),
    (
        "1 ↦ 2 -∗ ⌜True⌝",
        "iIntros \"H\". ",
        "iRename \"H\" into \"H\".",
        "N2 H",
    ),
    (
        "1 ↦ 2 -∗ ⌜True⌝",
        "iIntros \"H\". ",
        "iRename \"H\" into \"_2\".",
        "N2 _2",
    ),
    (
        "∀ _0, 1 ↦ 2 -∗ ⌜True⌝",
        "iIntros (x) \"H\". ",
        "iRename \"H\" into \"x\".",
        "N2 x",
    ),
    (
        "1 ↦ 2 -∗ ⌜True⌝",
        "iIntros \"H\". ",
        "iRevert \"H H\".",
        "N1 H",
    ),
    // the last one is reverted first
    (
        "1 ↦ 2 -∗ ⌜True⌝",
        "iIntros \"H\". ",
        "iRevert \"J K\".",
        "N1 K",
    ),
    ("∀ _0, ⌜True⌝", "iIntros (x). ", "iRevert (y).", "N5 y"),
    ("∀ _0, ⌜True⌝", "iIntros (x). ", "iRevert (x x).", "N5 x"),
    (
        "∀ _0, _0 ↦ 1 -∗ ⌜True⌝",
        "iIntros (x) \"H\". ",
        "iRevert (x).",
        "B8",
    ),
    (
        "∀ _0, ⌜_0 < 1⌝ -∗ ⌜True⌝",
        "iIntros (x) \"%E\". ",
        "iRevert (x).",
        "B8",
    ),
    // splits
    ("1 ↦ 2 ∗ 3 ↦ 4", "", "iSplit.", "B1"),
    ("⌜1 = 1 ∨ 2 = 2⌝", "", "iSplit.", "B1"),
    ("1 ↦ 2 ∧ 3 ↦ 4", "", "iSplitL \"K\".", "B2"),
    ("1 ↦ 2 ∧ 3 ↦ 4", "", "iSplitR.", "B2"),
    (
        "□ 1 ↦ 2 -∗ 3 ↦ 4 -∗ 3 ↦ 4 ∗ 1 ↦ 2",
        "iIntros \"#A B\". ",
        "iSplitL \"A B B K\".",
        "N1 K",
    ),
    (
        "□ 1 ↦ 2 -∗ 3 ↦ 4 -∗ 3 ↦ 4 ∗ 1 ↦ 2",
        "iIntros \"#A B\". ",
        "iSplitR \"B B A\".",
        "N3 A",
    ),
    (
        "1 ↦ 2 ∗ 3 ↦ 4 -∗ 3 ↦ 4 ∗ 1 ↦ 2",
        "iIntros \"[A B]\". ",
        "iSplitL \"A B A\".",
        "N4 A",
    ),
    ("1 ↦ 2 ∧ 3 ↦ 4", "", "iLeft.", "B3"),
    ("1 ↦ 2 ∗ 3 ↦ 4", "", "iRight.", "B3"),
    ("∀ _0, ⌜True⌝", "", "iExists 1.", "B4"),
    ("∃ _0, ⌜True⌝", "", "iExists 1, 2.", "B4"),
    // ends
    ("□ 1 ↦ 2 -∗ 3 ↦ 4", "iIntros \"#H\". ", "iAssumption.", "B6"),
    (
        "⌜1 < 2⌝ -∗ □ ⌜1 < 2⌝",
        "iIntros \"%E\". ",
        "iExact \"E\".",
        "B5",
    ),
    ("⌜1 < 2⌝ -∗ □ ⌜1 < 2⌝", "iIntros \"%E\". ", "done.", "B7"),
];

/// How many sentences there are before the first that comes behind these, where the text is that of the lemma's proof.
fn sentences_before(text: &str) -> usize {
    text.as_bytes().iter().filter(|b| **b == b'.').count()
}

fn each_is_refused(
    rt: &impl Abort,
    alloc: Global,
    rows: &[(&str, &str, &str, &str)],
) -> Result<(), Memory> {
    for (statement, first, directive, row) in rows {
        let before = format!(in alloc; "Lemma a : {statement}. {first}")?;
        let script = format!(in alloc; "{before}{directive}")?;
        let number = sentences_before(first).saturating_add(2);
        let line = format!(in alloc; "refused: sentence {number} at {}: {row}\n", before.len())?;
        let status = Status::Refused;
        answers(rt, alloc, "run", script.as_bytes(), status, line.as_str())?;
    }
    Ok(())
}

#[test]
fn refusals(rt: HostRuntime) -> Result<(), Fail> {
    each_is_refused(&rt, rt.alloc(), &REFUSED)?;
    Ok(())
}
