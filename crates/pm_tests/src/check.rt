//! Derivations, and what is written for them. The texts stand behind the first line.

use crate::given::{answers, words};
use pm_logic::Memory;
use pm_top::{MemSink, MemSource, Status, top};
use std::alloc::Global;
use std::process::Abort;
use std::test::Fail;

static ACCEPTED: [(&str, &str); 13] = [
    ("arities\n", "accepted: 0 statements\n"),
    (
        "arities\n1 refl 0 pure T pure T\nqed t 1\n",
        "Lemma t : ⌜True⌝.\naccepted: 1 statements\n",
    ),
    (
        "arities\n1 sep-comm 0 sep pts 1 720720 2 pts 3 720720 4 sep pts 3 720720 4 pts 1 720720 2\n2 true 0 pure T pure T\nqed t 2\n",
        "Lemma t : ⌜True⌝.\naccepted: 1 statements\n",
    ),
    (
        "arities\n1 sep-weaken 0 sep pts -1 5 2 pure T pts -1 5 2\n2 true 0 pts -1 5 2 pure T\n3 trans 0 1 2 sep pts -1 5 2 pure T pure T\n4 sep-mono 0 3 2 sep sep pts -1 5 2 pure T pts -1 5 2 sep pure T pure T\n",
        "accepted: 0 statements\n",
    ),
    (
        "arities 0 0\npred p later call 1\npred q call 0\n1 fold 0 call 0 call 1\n",
        "Predicate p() := ▷ q().\nPredicate q() := p().\naccepted: 0 statements\n",
    ),
    (
        "arities 1 2\npred p all pts v1 360360 v0\npred q pers call 0 v1\n1 true 0 pure T pure T\nqed t 1\nqed u 1\n",
        "Predicate p(_0) := ∀ _1, _0 ↦{1/2} _1.\nPredicate q(_0, _1) := □ p(_1).\nLemma t : ⌜True⌝.\nLemma u : ⌜True⌝.\naccepted: 2 statements\n",
    ),
    (
        "arities 1 2\npred inf ex sep pts v1 720720 v0 later call 0 add v1 1\npred pair pure T\n1 true 0 pure T pure T\nqed t 1\n",
        "Predicate inf(_0) := ∃ _1, _0 ↦ _1 ∗ ▷ inf(_0 + 1).\nPredicate pair(_0, _1) := ⌜True⌝.\nLemma t : ⌜True⌝.\naccepted: 1 statements\n",
    ),
    // calls of an earlier predicate, and under a later of any
    (
        "arities 1 1\npred p pure T\npred q call 0 v0\n",
        "Predicate p(_0) := ⌜True⌝.\nPredicate q(_0) := p(_0).\naccepted: 0 statements\n",
    ),
    (
        "arities 1 1\npred p later call 1 v0\npred q pure T\n",
        "Predicate p(_0) := ▷ q(_0).\nPredicate q(_0) := ⌜True⌝.\naccepted: 0 statements\n",
    ),
    (
        "arities 1 1\npred p later call 0 v0\npred q pure T\n",
        "Predicate p(_0) := ▷ p(_0).\nPredicate q(_0) := ⌜True⌝.\naccepted: 0 statements\n",
    ),
    (
        "arities 1 1\npred p pure T\npred q wand call 0 v0 pure T\n",
        "Predicate p(_0) := ⌜True⌝.\nPredicate q(_0) := p(_0) -∗ ⌜True⌝.\naccepted: 0 statements\n",
    ),
    // each argument of a rule
    (
        "arities\n1 refl 2 pure eq v0 v1 pure eq v0 v1\n2 inst 3 1 2 add v0 v2 neg sub 1 mul -2 v1 pure eq add v0 v2 neg sub 1 mul -2 v1 pure eq add v0 v2 neg sub 1 mul -2 v1\n",
        "accepted: 0 statements\n",
    ),
    (
        "arities\n1 all-e 0 9223372036854775807 all pure T pure T\n2 ex-i 0 -9223372036854775808 pure T ex pure T\n",
        "accepted: 0 statements\n",
    ),
];

static REFUSED: [(&str, &str); 21] = [
    // each sign of formulas, pure formulas and terms
    (
        "arities 2\npred p pts v0 1 v1\n1 refl 1 sep wand and or imp pure T pure F pure eq 1 v0 pure le 2 3 pure cj lt 1 2 dj no T F pts v0 720720 1 all ex later pers upd call 0 v2 v0\n",
        "refused: line 1: refl condition 4\n",
    ),
    (
        "arities\n1 sep-weaken 0 sep pure T pts 1 5 2 pts 1 5 2\n",
        "refused: line 1: sep-weaken condition 4\n",
    ),
    (
        "arities\n1 sep-comm 0 sep pure T pure F sep pure T pure F\n",
        "refused: line 1: sep-comm condition 4\n",
    ),
    (
        "arities\n1 trans 0 1 1 pure T pure T\n",
        "refused: line 1 cites 1\n",
    ),
    (
        "arities\n1 trans 0 2 2 pure T pure T\n",
        "refused: line 1 cites 2\n",
    ),
    (
        "arities\n1 trans 0 0 2 pure T pure T\n",
        "refused: line 1 cites 0\n",
    ),
    (
        "arities\n1 refl 0 pure T pure T\nqed t 2\n",
        "refused: line 1 cites 2\n",
    ),
    ("arities\nqed t 1\n", "refused: line 0 cites 1\n"),
    ("arities\nqed ä 1\n", "refused: line 0 cites 1\n"),
    (
        "arities\n1 refl 1 pure T pure T\nqed t 1\n",
        "refused: line 1: qed condition 1\n",
    ),
    (
        "arities\n1 refl 0 pure F pure F\nqed t 1\n",
        "refused: line 1: qed condition 2\n",
    ),
    (
        "arities\n1 refl 0 pts 1 1 1 pts 1 1 1\nqed t 1\n",
        "refused: line 1: qed condition 2\n",
    ),
    (
        "arities\n1 refl 0 pure T pure T\nqed t 1\nqed t 1\n2 true 0 pure T pure T\n",
        "refused: line 1: qed condition 3\n",
    ),
    (
        "arities 0\npred p imp call 0 pure F\n",
        "refused: predicate 0 is unguarded\n",
    ),
    (
        "arities 0 0\npred p call 1\npred q pure T\n",
        "refused: predicate 0 is unguarded\n",
    ),
    (
        "arities 1 1\npred p pure T\npred q call 1 v0\n",
        "refused: predicate 1 is unguarded\n",
    ),
    (
        "arities 1 1\npred p call 1 v0\npred q pure T\n",
        "refused: predicate 0 is unguarded\n",
    ),
    (
        "arities 1 1\npred p wand call 0 v0 pure T\npred q pure T\n",
        "refused: predicate 0 is unguarded\n",
    ),
    (
        "arities 1 1\npred p wand pure T call 0 v0\npred q pure T\n",
        "refused: predicate 0 is unguarded\n",
    ),
    (
        "arities 1 1\npred p imp pure T call 0 v0\npred q pure T\n",
        "refused: predicate 0 is unguarded\n",
    ),
    (
        "arities\n1 refl 2 pure eq v0 1 pure eq v0 1\n2 all-i 0 1 pure eq 1 1 all pure eq v0 1\n",
        "refused: line 2: all-i condition 2\n",
    ),
];

/// Texts, and where the first fault of spelling is.
static UNREADABLE: [(&str, u64); 25] = [
    ("arities\n1 refl 0 pure T pure T\nqed t 1", 57),
    ("arities\n1 refl 0 pure T pure T\nqed\n", 53),
    ("arities\n2 refl 0 pure T pure T\n", 27),
    ("arities\n01 refl 0 pure T pure T\n", 27),
    ("arities\n1 refl 1001 pure T pure T\n", 34),
    ("arities\n1 refl 0 pure eq v0 0 pure T\n", 44),
    ("arities\n1 refl 0 call 0 pure T\n", 41),
    ("arities\n1 refl 0 pts 1 0 1 pure T\n", 42),
    ("arities\n1 refl 0 pts 1 720721 1 pure T\n", 42),
    ("arities\n1 refl 0 pts -0 1 1 pure T\n", 40),
    ("arities\n1 refl 0 pts 9223372036854775808 1 1 pure T\n", 40),
    ("arities\n1 refl 0 pts 1 01 1 pure T\n", 42),
    (
        "arities\n1 refl 0 pure T pure T\n2 trans 0 1 18446744073709551616 pure T pure T\n",
        62,
    ),
    ("arities\n1 refl 0 pure  T pure T\n", 41),
    ("arities\n1 refl 0 pure T pure T \n", 49),
    ("arities\n1 refl 0 pure T pure T\r\n", 48),
    ("arities\n1 refl 0 pure T pure T", 49),
    ("arities\nqed emp 1\n", 31),
    ("arities\nqed 1a 1\n", 31),
    ("arities\n\n", 27),
    ("arities 0 0\npred p pure T\npred p pure T\n", 50),
    ("arities 65\n", 27),
    ("arities 1 1\npred p call 1 v0 v0\n", 47),
    ("arities 1 1\npred p call 2 v0\n", 43),
    ("arities 1 1\npred p pure eq v1 0\n", 46),
];

/// Checks texts behind the first line.
fn each_is_answered(
    rt: &impl Abort,
    alloc: Global,
    status: Status,
    rows: &[(&str, &str)],
) -> Result<(), Memory> {
    for (text, line) in rows {
        let text = format!(in alloc; "mosel-derivation 1\n{text}")?;
        answers(rt, alloc, "check", text.as_bytes(), status, line)?;
    }
    Ok(())
}

#[test]
fn derivations(rt: HostRuntime) -> Result<(), Fail> {
    each_is_answered(&rt, rt.alloc(), Status::Done, &ACCEPTED)?;
    each_is_answered(&rt, rt.alloc(), Status::Refused, &REFUSED)?;
    Ok(())
}

#[test]
fn unreadable(rt: HostRuntime) -> Result<(), Fail> {
    for (text, at) in &UNREADABLE {
        let text = format!(in rt.alloc(); "mosel-derivation 1\n{text}")?;
        let line = format!(in rt.alloc(); "unreadable at {at}: syntax\n")?;
        let status = Status::Unreadable;
        answers(
            &rt,
            rt.alloc(),
            "check",
            text.as_bytes(),
            status,
            line.as_str(),
        )?;
    }
    Ok(())
}

#[test]
fn first_lines(rt: HostRuntime) -> Result<(), Fail> {
    let rows: [(&[u8], &str); 3] = [
        (b"", "unreadable at 0: syntax\n"),
        (b"\xff", "unreadable at 0: syntax\n"),
        (
            b"mosel-derivation 2\narities\n",
            "unreadable at 17: syntax\n",
        ),
    ];
    for (text, line) in rows {
        answers(&rt, rt.alloc(), "check", text, Status::Unreadable, line)?;
    }
    Ok(())
}

/// Where a front of the text of 58 bytes is faulty, by its length: a word that is cut off is judged as it stands. Those
/// of 27 and 50 bytes are derivations.
static CUTS: [u64; 58] = [
    0, 0, 0, 0, 0, 0, 0, 0, 0, 0, 0, 0, 0, 0, 0, 0, 16, 17, 18, 19, 19, 19, 19, 19, 19, 19, 26, 0,
    28, 29, 29, 29, 29, 33, 34, 35, 36, 36, 36, 36, 40, 41, 42, 43, 43, 43, 43, 47, 48, 49, 0, 50,
    50, 53, 54, 55, 56, 57,
];

#[test]
fn cut_anywhere(rt: HostRuntime) -> Result<(), Fail> {
    let text = b"mosel-derivation 1\narities\n1 refl 0 pure T pure T\nqed t 1\n";
    for end in 0..58usize {
        let front = &text[..end];
        if end == 27 || end == 50 {
            let line = "accepted: 0 statements\n";
            answers(&rt, rt.alloc(), "check", front, Status::Done, line)?;
        } else {
            let line = format!(in rt.alloc(); "unreadable at {}: syntax\n", CUTS[end])?;
            answers(
                &rt,
                rt.alloc(),
                "check",
                front,
                Status::Unreadable,
                line.as_str(),
            )?;
        }
    }
    Ok(())
}

/// Does what the words ask for over a derivation of nothing in memory whose listed calls fail, and compares the status and
/// what is written.
fn ends(
    rt: &impl Abort,
    alloc: Global,
    word: &str,
    failing: (&[u64], &[u64]),
    status: Status,
    written: &str,
) -> Result<(), Memory> {
    let words = words(alloc, word)?;
    let mut source = MemSource::new(alloc, b"mosel-derivation 1\narities\n", failing.0)?;
    let mut sink = MemSink::new(alloc, 1, failing.1)?;
    let got = top(alloc, &words, &mut source, &mut sink);
    assert_eq!(rt; got, status);
    assert_eq!(rt; sink.bytes(), written.as_bytes());
    Ok(())
}

#[test]
fn failing_devices(rt: HostRuntime) -> Result<(), Fail> {
    ends(&rt, rt.alloc(), "check", (&[2], &[]), Status::ReadFault, "")?;
    ends(
        &rt,
        rt.alloc(),
        "check",
        (&[], &[11]),
        Status::WriteFault,
        "accepted: ",
    )?;
    Ok(())
}

/// The words are looked at before anything is read: a read would fail.
#[test]
fn other_words(rt: HostRuntime) -> Result<(), Fail> {
    let usage = "usage: mosel run | check | session | goals | selftest N\n";
    for other in ["", "chec", "check check", "session"] {
        ends(&rt, rt.alloc(), other, (&[1], &[]), Status::Usage, usage)?;
    }
    Ok(())
}
