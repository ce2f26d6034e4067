//! Scripts, and what is written for them.

use crate::given::{answers, words};
use pm_logic::{Bytes, Memory};
use pm_top::{MemSink, MemSource, Status, SureSource, top};
use std::alloc::Global;
use std::process::Abort;
use std::test::Fail;

/// Scripts that are accepted, and the lines of their predicates and lemmas.
static PROVED: [(&str, &str); 20] = [
    ("", "accepted: 0 statements\n"),
    (" \r\n", "accepted: 0 statements\n"),
    ("(* x (* y *) z *)", "accepted: 0 statements\n"),
    (
        "Lemma a : 1 |-> 2 ⊢ 1 ↦ 2. iIntros \"H\". iExact \"H\". Qed.",
        "Lemma a : 1 ↦ 2 -∗ 1 ↦ 2.\naccepted: 1 statements\n",
    ),
    (
        "Lemma a : True -* True.\r\n(* x (* y *) z *)\r\nProof.\r\niIntros \"H\".\r\niExact \"H\".\r\nQed.\r\n",
        "Lemma a : ⌜True⌝ -∗ ⌜True⌝.\naccepted: 1 statements\n",
    ),
    // a persistent left side of an implication, beside a hypothesis
    (
        "Lemma a : 1 ↦ 2 -∗ True → 1 ↦ 2. iIntros \"A\". iIntros \"B\". iExact \"A\". Qed.",
        "Lemma a : 1 ↦ 2 -∗ ⌜True⌝ → 1 ↦ 2.\naccepted: 1 statements\n",
    ),
    (
        "Lemma a : 1 ↦ 2 -∗ ▷ □ 3 ↦ 4 → ▷ □ 3 ↦ 4. iIntros \"A\". iIntros \"B\". iExact \"B\". Qed.",
        "Lemma a : 1 ↦ 2 -∗ ▷ □ 3 ↦ 4 → ▷ □ 3 ↦ 4.\naccepted: 1 statements\n",
    ),
    // any left side of an implication, where there is no hypothesis
    (
        "Lemma a : 1 ↦ 2 → 3 ↦ 4 -∗ 3 ↦ 4. iIntros \"A\". iIntros \"B\". iExact \"B\". Qed.",
        "Lemma a : 1 ↦ 2 → 3 ↦ 4 -∗ 3 ↦ 4.\naccepted: 1 statements\n",
    ),
    (
        "Lemma a : True ⊢ True. iIntros \"H\". iExact \"H\". Qed. Lemma b : 1 ↦{2/4} 2 ⊢ 1 ↦{1/2} 2. iIntros \"H\". iExact \"H\". Qed.",
        "Lemma a : ⌜True⌝ -∗ ⌜True⌝.\nLemma b : 1 ↦{1/2} 2 -∗ 1 ↦{1/2} 2.\naccepted: 2 statements\n",
    ),
    // each of three hypotheses
    (
        "Lemma three : 1 ↦ 2 -∗ 3 ↦ 4 ∗ 5 ↦ 6 -∗ 7 ↦ 8 -∗ 1 ↦ 2. iIntros \"A\". iIntros \"B\". iIntros \"C\". iExact \"A\". Qed.",
        "Lemma three : 1 ↦ 2 -∗ 3 ↦ 4 ∗ 5 ↦ 6 -∗ 7 ↦ 8 -∗ 1 ↦ 2.\naccepted: 1 statements\n",
    ),
    (
        "Lemma three : 1 ↦ 2 -∗ 3 ↦ 4 ∗ 5 ↦ 6 -∗ 7 ↦ 8 -∗ 3 ↦ 4 ∗ 5 ↦ 6. iIntros \"A\". iIntros \"B\". iIntros \"C\". iExact \"B\". Qed.",
        "Lemma three : 1 ↦ 2 -∗ 3 ↦ 4 ∗ 5 ↦ 6 -∗ 7 ↦ 8 -∗ 3 ↦ 4 ∗ 5 ↦ 6.\naccepted: 1 statements\n",
    ),
    (
        "Lemma three : 1 ↦ 2 -∗ 3 ↦ 4 ∗ 5 ↦ 6 -∗ 7 ↦ 8 -∗ 7 ↦ 8. iIntros \"A\". iIntros \"B\". iIntros \"C\". iExact \"C\". Qed.",
        "Lemma three : 1 ↦ 2 -∗ 3 ↦ 4 ∗ 5 ↦ 6 -∗ 7 ↦ 8 -∗ 7 ↦ 8.\naccepted: 1 statements\n",
    ),
    // predicates before and behind a lemma
    (
        "Predicate p(x) := x ↦ 1. Predicate q(y) := p(y) ∗ ▷ q(y + 1). Lemma l : q(0) ⊢ q(0). iIntros \"H\". iExact \"H\". Qed.",
        "Predicate p(_0) := _0 ↦ 1.\nPredicate q(_0) := p(_0) ∗ ▷ q(_0 + 1).\nLemma l : q(0) -∗ q(0).\naccepted: 1 statements\n",
    ),
    (
        "Lemma k : True ⊢ True. iIntros \"H\". iExact \"H\". Qed. Predicate p(x) := x ↦ 1. Predicate q(y) := p(y) ∗ ▷ q(y + 1). Lemma l : q(0) ⊢ q(0). iIntros \"H\". iExact \"H\". Qed.",
        "Predicate p(_0) := _0 ↦ 1.\nPredicate q(_0) := p(_0) ∗ ▷ q(_0 + 1).\nLemma k : ⌜True⌝ -∗ ⌜True⌝.\nLemma l : q(0) -∗ q(0).\naccepted: 2 statements\n",
    ),
    // each sign of formulas, in both places
    (
        "Predicate p(x) := x ↦ 1. Predicate q() := p(7) -∗ p(8). Lemma a : (∀ x, ⌜x = x⌝ ∗ □ (1 ↦ 2) ∨ (∃ y, ▷ ⌜y < 1⌝)) -∗ (▷ q() ∧ p(3)) -∗ (∀ x, ⌜x = x⌝ ∗ □ (1 ↦ 2) ∨ (∃ y, ▷ ⌜y < 1⌝)). iIntros \"A\". iIntros \"B\". iExact \"A\". Qed.",
        "Predicate p(_0) := _0 ↦ 1.\nPredicate q() := p(7) -∗ p(8).\nLemma a : (∀ _0, ⌜_0 = _0⌝ ∗ □ 1 ↦ 2 ∨ (∃ _1, ▷ ⌜_1 < 1⌝)) -∗ ▷ q() ∧ p(3) -∗ ∀ _0, ⌜_0 = _0⌝ ∗ □ 1 ↦ 2 ∨ (∃ _1, ▷ ⌜_1 < 1⌝).\naccepted: 1 statements\n",
    ),
    (
        "Lemma b : (∀ x, ⌜x = x⌝ ∗ □ (1 ↦ 2) ∨ (∃ y, ▷ ⌜y < 1⌝)) -∗ (▷ False ∧ 3 ↦ 4) -∗ (▷ False ∧ 3 ↦ 4). iIntros \"A\". iIntros \"B\". iExact \"B\". Qed.",
        "Lemma b : (∀ _0, ⌜_0 = _0⌝ ∗ □ 1 ↦ 2 ∨ (∃ _1, ▷ ⌜_1 < 1⌝)) -∗ ▷ ⌜False⌝ ∧ 3 ↦ 4 -∗ ▷ ⌜False⌝ ∧ 3 ↦ 4.\naccepted: 1 statements\n",
    ),
    // each way in which blanks and comments stand between sentences, a fraction, the largest numbers
    (
        "Lemma a : True.\r\n(* x (* y *) z *)\r\ndone.\r\nQed.\r\n",
        "Lemma a : ⌜True⌝.\naccepted: 1 statements\n",
    ),
    (
        "Lemma f : 0 ↦{1/16} 0 ⊢ True. iIntros \"_\". done. Qed.",
        "Lemma f : 0 ↦{1/16} 0 -∗ ⌜True⌝.\naccepted: 1 statements\n",
    ),
    (
        "Lemma n : ⌜9223372036854775807 = 9223372036854775807⌝. done. Qed.",
        "Lemma n : ⌜9223372036854775807 = 9223372036854775807⌝.\naccepted: 1 statements\n",
    ),
    (
        "Lemma c : (|==> (1 ↦ 2 → emp)) -∗ ⌜¬ 1 ≤ 2⌝ → |==> (1 ↦ 2 → emp). iIntros \"A\". iIntros \"B\". iExact \"A\". Qed.",
        "Lemma c : (|==> 1 ↦ 2 → ⌜True⌝) -∗ ⌜¬ 1 ≤ 2⌝ → |==> 1 ↦ 2 → ⌜True⌝.\naccepted: 1 statements\n",
    ),
];

/// Scripts without lemmas, and the derivations that are written for them.
static WRITTEN: [(&str, &str); 4] = [
    ("", "mosel-derivation 1\narities\n"),
    (" \r\n", "mosel-derivation 1\narities\n"),
    ("(* x (* y *) z *)", "mosel-derivation 1\narities\n"),
    (
        "Predicate p(x) := x ↦ 1. Predicate q() := p(7) -∗ p(8).",
        "mosel-derivation 1\narities 1 0\npred p pts v0 720720 1\npred q wand call 0 7 call 0 8\n",
    ),
];

static REFUSED: [(&str, &str); 23] = [
    (
        "Lemma a : True. iIntros \"H\".",
        "refused: sentence 2 at 16: I1\n",
    ),
    (
        "Lemma a : True -∗ 1 ↦ 2 → True. iIntros \"H\". iIntros \"K\".",
        "refused: sentence 3 at 51: I2\n",
    ),
    (
        "Lemma a : 1 |-> 2 |- 1 |-> 2. iIntros \"H\". iExact \"K\".",
        "refused: sentence 3 at 43: N1 K\n",
    ),
    (
        "Lemma a : True -* True -* True. iIntros \"H\". iIntros \"H\".",
        "refused: sentence 3 at 45: N2 H\n",
    ),
    (
        "Lemma a : True -* True. iIntros \"_1\".",
        "refused: sentence 2 at 24: N2 _1\n",
    ),
    (
        "Lemma a : 1 |-> 2 -* True. iIntros \"H\". iExact \"H\".",
        "refused: sentence 3 at 40: B5\n",
    ),
    (
        "Lemma a : True -* True. iIntros \"H\". iExact \"H\". iExact \"H\".",
        "refused: sentence 4 at 49: Q9\n",
    ),
    ("Lemma a : True. Qed.", "refused: sentence 2 at 16: Q3\n"),
    ("Lemma a : True.", "refused: sentence 2 at 15: Q3\n"),
    (
        "Lemma a : True -* True. iIntros \"H\". iExact \"H\".",
        "refused: sentence 4 at 48: Q3\n",
    ),
    ("Qed.", "refused: sentence 1 at 0: Q1\n"),
    (" Proof.", "refused: sentence 1 at 1: Q1\n"),
    ("iExact \"H\".", "refused: sentence 1 at 0: Q1\n"),
    (
        "Lemma a : True. Lemma b : True.",
        "refused: sentence 2 at 16: Q2\n",
    ),
    (
        "Lemma a : True. Predicate p() := True.",
        "refused: sentence 2 at 16: Q2\n",
    ),
    (
        "Lemma a : True -* True. iIntros \"H\". iExact \"H\". Qed. Lemma a : True.",
        "refused: sentence 5 at 54: Q4 a\n",
    ),
    (
        "Lemma a : True. done. Qed. Lemma a : True.",
        "refused: sentence 4 at 27: Q4 a\n",
    ),
    ("done.", "refused: sentence 1 at 0: Q1\n"),
    (
        "Lemma a : True. done. iSplit.",
        "refused: sentence 3 at 22: Q9\n",
    ),
    (
        "Lemma a : True ∧ True. iSplit. done. Qed.",
        "refused: sentence 4 at 39: Q3\n",
    ),
    (
        "Predicate p() := True. Predicate p() := True.",
        "refused: sentence 2 at 23: Q4 p\n",
    ),
    (
        "Predicate p() := True. Lemma p : True.",
        "refused: sentence 2 at 23: Q4 p\n",
    ),
    (
        "Predicate p() := p() -* False.",
        "refused: sentence 1 at 0: Q7 p\n",
    ),
];

/// What is read stands before what is refused, and what isn't built yet is unexpected where it begins.
static UNREADABLE: [(&str, &str); 19] = [
    ("Lemma a : True.done.", "unreadable at 14: unexpected\n"),
    ("Lemma a : 1.", "unreadable at 11: unexpected\n"),
    ("Lemma a : p().", "unreadable at 10: unbound\n"),
    ("Predicate p(x) := ⌜x = y⌝.", "unreadable at 25: unbound\n"),
    (
        "Lemma n : ⌜9223372036854775808 = 0⌝.",
        "unreadable at 13: number\n",
    ),
    (
        "Lemma f : 0 ↦{1/17} 0 ⊢ True.",
        "unreadable at 18: fraction\n",
    ),
    (
        "Predicate p(x) := True. Lemma a : p(1, 2).",
        "unreadable at 40: arity\n",
    ),
    ("Lemma a : True. iNext.", "unreadable at 16: unexpected\n"),
    ("Lemma a : True. Show.", "unreadable at 16: unexpected\n"),
    ("iNext.", "unreadable at 0: unexpected\n"),
    // terms are those of the goal's variables
    (
        "Lemma a : ∃ x, True. iExists x.",
        "unreadable at 31: unbound\n",
    ),
    ("iExists x.", "unreadable at 8: unbound\n"),
    ("Qed", "unreadable at 3: unexpected\n"),
    ("Qed.Qed.", "unreadable at 3: unexpected\n"),
    ("(* *", "unreadable at 4: unexpected\n"),
    (".", "unreadable at 0: unexpected\n"),
    ("Lemma forall : True.", "unreadable at 6: unexpected\n"),
    ("Lemma a : True. Lemma b.", "unreadable at 23: unexpected\n"),
    (
        "Lemma a : True. iExact \"_\".",
        "unreadable at 24: unexpected\n",
    ),
];

fn each_is_answered(
    rt: &impl Abort,
    alloc: Global,
    status: Status,
    rows: &[(&str, &str)],
) -> Result<(), Memory> {
    for (script, line) in rows {
        answers(rt, alloc, "run", script.as_bytes(), status, line)?;
    }
    Ok(())
}

#[test]
fn scripts(rt: HostRuntime) -> Result<(), Fail> {
    each_is_answered(&rt, rt.alloc(), Status::Done, &WRITTEN)?;
    each_is_answered(&rt, rt.alloc(), Status::Refused, &REFUSED)?;
    each_is_answered(&rt, rt.alloc(), Status::Unreadable, &UNREADABLE)?;
    answers(
        &rt,
        rt.alloc(),
        "run",
        b"\xff",
        Status::Unreadable,
        "unreadable at 0: unexpected\n",
    )?;
    Ok(())
}

/// Runs a script that is accepted, and checks the derivation that was written: the lines of its predicates and lemmas.
fn proves(rt: &impl Abort, alloc: Global, script: &[u8], lines: &str) -> Result<(), Memory> {
    let words = words(alloc, "run")?;
    let mut source = SureSource::new(alloc, script)?;
    let mut sink = MemSink::new(alloc, 4096, &[])?;
    let got = top(alloc, &words, &mut source, &mut sink);
    assert_eq!(rt; got, Status::Done);
    answers(rt, alloc, "check", sink.bytes(), Status::Done, lines)
}

#[test]
fn lemmas(rt: HostRuntime) -> Result<(), Fail> {
    for (script, lines) in &PROVED {
        proves(&rt, rt.alloc(), script.as_bytes(), lines)?;
    }
    Ok(())
}

/// The lemma, as it is printed, is proved by these sentences.
pub fn is_proved(
    rt: &impl Abort,
    alloc: Global,
    lemma: &[u8],
    sentences: &[u8],
) -> Result<(), Memory> {
    let mut script = Bytes::from_slice(alloc, lemma)?;
    script.push(b' ')?;
    script.extend(sentences)?;
    script.extend(b" Qed.")?;
    let mut lines = Bytes::from_slice(alloc, lemma)?;
    lines.extend(b"\naccepted: 1 statements\n")?;
    let text = std::str::from_utf8(lines.as_slice()).map_err(|_| Memory)?;
    proves(rt, alloc, script.as_slice(), text)
}

/// A lemma of so many left sides, each a cell, of which the first is its conclusion, as scripts have it.
fn wide(alloc: Global, sides: u32) -> Result<Bytes, Memory> {
    let mut line = Bytes::from_slice(alloc, b"Lemma wide : ")?;
    for i in 0..sides {
        line.extend(format!(in alloc; "{i} ↦ 0 -∗ ")?.as_bytes())?;
    }
    line.extend("0 ↦ 0.".as_bytes())?;
    Ok(line)
}

/// Introduces so many left sides, and proves the conclusion by the first one.
fn introductions(alloc: Global, sides: u32) -> Result<Bytes, Memory> {
    let mut sentences = Bytes::new(alloc);
    for i in 0..sides {
        sentences.extend(format!(in alloc; "iIntros \"H{i}\". ")?.as_bytes())?;
    }
    sentences.extend(b"iExact \"H0\".")?;
    Ok(sentences)
}

#[test]
fn a_lemma_of_sixty_left_sides(rt: HostRuntime) -> Result<(), Fail> {
    let lemma = wide(rt.alloc(), 60)?;
    let sentences = introductions(rt.alloc(), 60)?;
    is_proved(&rt, rt.alloc(), lemma.as_slice(), sentences.as_slice())?;
    Ok(())
}

/// Runs a script over memory whose listed calls fail, and compares the status and what is written.
fn fails(
    rt: &impl Abort,
    alloc: Global,
    failing: (&[u64], &[u64]),
    status: Status,
    written: &str,
) -> Result<(), Memory> {
    let script = b"Lemma a : True. done. Qed.";
    let words = words(alloc, "run")?;
    let mut source = MemSource::new(alloc, script, failing.0)?;
    let mut sink = MemSink::new(alloc, 1, failing.1)?;
    let got = top(alloc, &words, &mut source, &mut sink);
    assert_eq!(rt; got, status);
    assert_eq!(rt; sink.bytes(), written.as_bytes());
    Ok(())
}

#[test]
fn failing_devices(rt: HostRuntime) -> Result<(), Fail> {
    fails(&rt, rt.alloc(), (&[2], &[]), Status::ReadFault, "")?;
    fails(
        &rt,
        rt.alloc(),
        (&[], &[11]),
        Status::WriteFault,
        "mosel-deri",
    )?;
    Ok(())
}
