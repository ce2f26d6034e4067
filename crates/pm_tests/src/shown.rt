//! Goals as they are shown, and what `goals` writes for scripts.

use crate::given::{answers, words};
use pm_logic::Memory;
use pm_top::{MemSink, MemSource, Status, top};
use std::alloc::Global;
use std::process::Abort;
use std::test::Fail;

/// Scripts of which every sentence is done, and the goals that are left.
static DONE: [(&str, &str); 17] = [
    ("", "no proof\n"),
    (
        "Lemma a : True ⊢ True. iIntros \"H\".",
        "goals: 1\ngoal 1:\n\"H\" : ⌜True⌝\n--------------------∗\n⌜True⌝\n",
    ),
    (
        "Lemma a : True ⊢ True. iIntros \"H\". iExact \"H\".",
        "goals: 0\n",
    ),
    (
        "Lemma a : True ⊢ True. iIntros \"H\". iExact \"H\". Qed.",
        "no proof\n",
    ),
    (
        "Lemma a : ∀ x y, ⌜x < y⌝ ∨ ⌜y ≤ x⌝.",
        "goals: 1\ngoal 1:\n--------------------∗\n∀ _0, ∀ _1, ⌜_0 < _1⌝ ∨ ⌜_1 ≤ _0⌝\n",
    ),
    // hypotheses in their order, and predicates by their names
    (
        "Predicate p(x) := x ↦ 1. Lemma a : p(0) -∗ 1 ↦{2/4} 2 -∗ True ∗ p(7). iIntros \"K\". iIntros \"H\".",
        "goals: 1\ngoal 1:\n\"K\" : p(0)\n\"H\" : 1 ↦{1/2} 2\n--------------------∗\n⌜True⌝ ∗ p(7)\n",
    ),
    (
        "Lemma u : True ⊢ True ∧ True.\niIntros \"H\".\niSplit.",
        "goals: 2\ngoal 1:\n\"H\" : ⌜True⌝\n--------------------∗\n⌜True⌝\ngoal 2:\n\"H\" : ⌜True⌝\n--------------------∗\n⌜True⌝\n",
    ),
    (
        "Lemma s : 1 ↦ 2 ∗ 3 ↦ 4 ⊢ 1 ↦ 2 ∗ 3 ↦ 4.\niIntros \"[H1 H2]\".\niSplitL \"H1\".",
        "goals: 2\ngoal 1:\n\"H1\" : 1 ↦ 2\n--------------------∗\n1 ↦ 2\ngoal 2:\n\"H2\" : 3 ↦ 4\n--------------------∗\n3 ↦ 4\n",
    ),
    // each context in its order, and new ones last
    (
        "Lemma a : ∀ x y, ⌜x < y⌝ -∗ □ x ↦ 4 -∗ y ↦ 6 -∗ 7 ↦ 8 -∗ True. iIntros (n m) \"%E #I S T\". iRename \"S\" into \"K\". iDestruct \"K\" as \"K\". iDestruct \"E\" as \"-#F\".",
        "goals: 1\ngoal 1:\nn : Z\nm : Z\n\"I\" : n ↦ 4\n--------------------□\n\"T\" : 7 ↦ 8\n\"K\" : m ↦ 6\n\"F\" : ⌜n < m⌝\n--------------------∗\n⌜True⌝\n",
    ),
    (
        "Lemma a : ⌜1 < 2⌝ -∗ ⌜3 < 4⌝ -∗ □ 5 ↦ 6 -∗ True. iIntros \"%E %F #I\". iRename \"E\" into \"G\".",
        "goals: 1\ngoal 1:\nG : 1 < 2\nF : 3 < 4\n\"I\" : 5 ↦ 6\n--------------------□\n--------------------∗\n⌜True⌝\n",
    ),
    // parts are dealt in their order, also where they are named in another
    (
        "Lemma a : 1 ↦ 2 ∗ 3 ↦ 4 ∗ 5 ↦ 6 -∗ emp ∗ emp. iIntros \"(A & B & C)\". iSplitR \"C A\".",
        "goals: 2\ngoal 1:\n\"B\" : 3 ↦ 4\n--------------------∗\n⌜True⌝\ngoal 2:\n\"A\" : 1 ↦ 2\n\"C\" : 5 ↦ 6\n--------------------∗\n⌜True⌝\n",
    ),
    // one goal for each alternative, before those that were there
    (
        "Lemma a : (1 ↦ 2 ∨ 3 ↦ 4 -∗ 5 ↦ 6) ∧ emp. iSplit. iIntros \"[A|B]\".",
        "goals: 3\ngoal 1:\n\"A\" : 1 ↦ 2\n--------------------∗\n5 ↦ 6\ngoal 2:\n\"B\" : 3 ↦ 4\n--------------------∗\n5 ↦ 6\ngoal 3:\n--------------------∗\n⌜True⌝\n",
    ),
    // a group stands for what each goal has
    (
        "Lemma a : 1 ↦ 2 ∨ 3 ↦ 4 ∗ 5 ↦ 6 -∗ True. iIntros \"[A|[B C]] {∗}\".",
        "goals: 2\ngoal 1:\n--------------------∗\n⌜True⌝\ngoal 2:\n--------------------∗\n⌜True⌝\n",
    ),
    // new names, up to an implication that can't be introduced
    (
        "Lemma a : ∀ x, x ↦ 1 -∗ 3 ↦ 4 → 5 ↦ 6. iIntros \"**\".",
        "goals: 1\ngoal 1:\n_H1 : Z\n\"_H2\" : _H1 ↦ 1\n--------------------∗\n3 ↦ 4 → 5 ↦ 6\n",
    ),
    (
        "Lemma a : ∀ x, ∃ y, (x + y) ↦ y. iIntros (z). iExists 2 * z - 1.",
        "goals: 1\ngoal 1:\nz : Z\n--------------------∗\n(z + (2 * z - 1)) ↦ (2 * z - 1)\n",
    ),
    // the last one goes before the conclusion first
    (
        "Lemma a : ⌜1 < 2⌝ -∗ □ 3 ↦ 4 -∗ 5 ↦ 6 -∗ 7 ↦ 8 -∗ 9 ↦ 10. iIntros \"%E #I S T\". iRevert \"% # ∗\".",
        "goals: 1\ngoal 1:\n--------------------∗\n⌜1 < 2⌝ -∗ □ 3 ↦ 4 -∗ 5 ↦ 6 -∗ 7 ↦ 8 -∗ 9 ↦ 10\n",
    ),
    (
        "Lemma a : 1 ↦ 2 -∗ 3 ↦ 4 -∗ 5 ↦ 6. iIntros \"A B\". iExFalso. iRevert \"B A\".",
        "goals: 1\ngoal 1:\n--------------------∗\n3 ↦ 4 -∗ 1 ↦ 2 -∗ ⌜False⌝\n",
    ),
];

/// Scripts that are stopped by a sentence that is refused.
static REFUSED: [(&str, &str); 4] = [
    (
        "Lemma a : 1 ↦ 2 ⊢ 1 ↦ 2. iIntros \"H\". iExact \"K\". iExact \"H\".",
        "goals: 1\ngoal 1:\n\"H\" : 1 ↦ 2\n--------------------∗\n1 ↦ 2\nrefused: sentence 3 at 44: N1 K\n",
    ),
    (
        "Lemma s : 1 ↦ 2 ∗ 3 ↦ 4 ⊢ 1 ↦ 2 ∗ 3 ↦ 4.\niIntros \"[H1 H2]\".\niSplitL \"K\".",
        "goals: 1\ngoal 1:\n\"H1\" : 1 ↦ 2\n\"H2\" : 3 ↦ 4\n--------------------∗\n1 ↦ 2 ∗ 3 ↦ 4\nrefused: sentence 3 at 74: N1 K\n",
    ),
    // nothing is done of a sentence that is refused at its end
    (
        "Lemma a : 1 ↦ 2 -∗ 3 ↦ 4 -∗ 5 ↦ 6. iIntros \"A\". iIntros \"B C\".",
        "goals: 1\ngoal 1:\n\"A\" : 1 ↦ 2\n--------------------∗\n3 ↦ 4 -∗ 5 ↦ 6\nrefused: sentence 3 at 58: I1\n",
    ),
    ("Qed.", "no proof\nrefused: sentence 1 at 0: Q1\n"),
];

/// Scripts that are stopped by what can't be read, or isn't built.
static UNREADABLE: [(&str, &str); 3] = [
    (
        "Predicate p(x) := x ↦ 1. Lemma a : p(0) -∗ ∀ x, p(x). iIntros \"H\". iNext.",
        "goals: 1\ngoal 1:\n\"H\" : p(0)\n--------------------∗\n∀ _0, p(_0)\nunreadable at 73: unexpected\n",
    ),
    (
        "Lemma a : True -∗ ⌜x = 1⌝.",
        "no proof\nunreadable at 23: unbound\n",
    ),
    // the text ends inside a sentence
    (
        "Lemma a : True -∗ True. iIntros \"H\". iExact",
        "goals: 1\ngoal 1:\n\"H\" : ⌜True⌝\n--------------------∗\n⌜True⌝\nunreadable at 45: unexpected\n",
    ),
];

fn each_shows(
    rt: &impl Abort,
    alloc: Global,
    status: Status,
    rows: &[(&str, &str)],
) -> Result<(), Memory> {
    for (script, text) in rows {
        answers(rt, alloc, "goals", script.as_bytes(), status, text)?;
    }
    Ok(())
}

#[test]
fn goals_of_scripts(rt: HostRuntime) -> Result<(), Fail> {
    each_shows(&rt, rt.alloc(), Status::Done, &DONE)?;
    each_shows(&rt, rt.alloc(), Status::Refused, &REFUSED)?;
    each_shows(&rt, rt.alloc(), Status::Unreadable, &UNREADABLE)?;
    Ok(())
}

/// Shows the goals of a script over memory whose listed calls fail, and compares the status and what is written.
fn fails(
    rt: &impl Abort,
    alloc: Global,
    failing: (&[u64], &[u64]),
    status: Status,
    written: &str,
) -> Result<(), Memory> {
    let script = b"Lemma a : True -* True. iIntros \"H\".";
    let words = words(alloc, "goals")?;
    let mut source = MemSource::new(alloc, script, failing.0)?;
    let mut sink = MemSink::new(alloc, 1, failing.1)?;
    let got = top(alloc, &words, &mut source, &mut sink);
    assert_eq!(rt; got, status);
    assert_eq!(rt; sink.bytes(), written.as_bytes());
    Ok(())
}

#[test]
fn goals_over_failing_devices(rt: HostRuntime) -> Result<(), Fail> {
    fails(&rt, rt.alloc(), (&[2], &[]), Status::ReadFault, "")?;
    fails(
        &rt,
        rt.alloc(),
        (&[], &[11]),
        Status::WriteFault,
        "goals: 1\ng",
    )?;
    Ok(())
}
