//! Limits of depth, length and number.

use crate::given::{answers, repeated};
use crate::run::is_proved;
use pm_logic::{Bytes, Memory};
use pm_top::Status;
use std::alloc::Global;
use std::process::Abort;
use std::test::Fail;

/// A derivation whose one line is deep on its left side, and what is written for it.
fn deep_line_is(
    rt: &impl Abort,
    alloc: Global,
    sign: &str,
    count: usize,
    end: &str,
    line: &str,
) -> Result<(), Memory> {
    let begin = "mosel-derivation 1\narities\n1 refl 0 ";
    let text = repeated(alloc, begin, sign, count, end)?;
    answers(
        rt,
        alloc,
        "check",
        text.as_slice(),
        Status::Unreadable,
        line,
    )
}

/// The derivation of one reflexive line over a formula of this many stars, which is two levels deeper than they are.
fn stars(alloc: Global, count: usize) -> Result<Bytes, Memory> {
    let left = repeated(alloc, "", "sep ", count, "pure T ")?;
    let right = repeated(alloc, "", "pure T ", count, "")?;
    let mut text = Bytes::from_slice(alloc, b"mosel-derivation 1\narities\n1 refl 0 ")?;
    text.extend(left.as_slice())?;
    text.extend(right.as_slice())?;
    text.extend(left.as_slice())?;
    text.extend(right.as_slice().split_at(right.len().saturating_sub(1)).0)?;
    text.push(b'\n')?;
    Ok(text)
}

#[test]
fn deep_lines(rt: HostRuntime) -> Result<(), Fail> {
    let alloc = rt.alloc();
    let text = stars(alloc, 998)?;
    answers(
        &rt,
        alloc,
        "check",
        text.as_slice(),
        Status::Done,
        "accepted: 0 statements\n",
    )?;
    deep_line_is(
        &rt,
        alloc,
        "sep ",
        999,
        "pure T pure T\n",
        "unreadable at 4037: deep\n",
    )?;
    deep_line_is(
        &rt,
        alloc,
        "pers ",
        999,
        "pure T pure T\n",
        "unreadable at 5036: deep\n",
    )?;
    deep_line_is(
        &rt,
        alloc,
        "later ",
        999,
        "pure T pure T\n",
        "unreadable at 6035: deep\n",
    )?;
    deep_line_is(
        &rt,
        alloc,
        "later ",
        999,
        "pure x pure T\n",
        "unreadable at 6035: syntax\n",
    )?;
    deep_line_is(
        &rt,
        alloc,
        "later ",
        1000,
        "pure T pure T\n",
        "unreadable at 6036: deep\n",
    )?;
    Ok(())
}

#[test]
fn a_long_name(rt: HostRuntime) -> Result<(), Fail> {
    let begin = "mosel-derivation 1\narities\n1 refl 0 pure T pure T\nqed ";
    let text = repeated(rt.alloc(), begin, "a", 1_000_000, " 1\n")?;
    let end = " : ⌜True⌝.\naccepted: 1 statements\n";
    let lines = repeated(rt.alloc(), "Lemma ", "a", 1_000_000, end)?;
    let line = str::from_utf8(lines.as_slice())?;
    answers(
        &rt,
        rt.alloc(),
        "check",
        text.as_slice(),
        Status::Done,
        line,
    )?;
    Ok(())
}

/// A lemma of a truth in so many parentheses, and what is written for it.
fn nested_is(
    rt: &impl Abort,
    alloc: Global,
    count: usize,
    status: Status,
    line: &str,
) -> Result<(), Memory> {
    let inner = repeated(alloc, "", "(", count, "True")?;
    let closing = repeated(alloc, "", ")", count, ".")?;
    let mut text = Bytes::from_slice(alloc, b"Lemma a : ")?;
    text.extend(inner.as_slice())?;
    text.extend(closing.as_slice())?;
    answers(rt, alloc, "run", text.as_slice(), status, line)
}

#[test]
fn deep_formulas(rt: HostRuntime) -> Result<(), Fail> {
    let fits = "refused: sentence 2 at 413: Q3\n";
    nested_is(&rt, rt.alloc(), 199, Status::Refused, fits)?;
    let deep = "unreadable at 210: deep\n";
    nested_is(&rt, rt.alloc(), 200, Status::Unreadable, deep)?;
    Ok(())
}

#[test]
fn the_longest_script(rt: HostRuntime) -> Result<(), Fail> {
    let text = vec![in rt.alloc(); b'a'; 16_777_217]?;
    answers(&rt, rt.alloc(), "run", &text, Status::TooLong, "too long\n")?;
    let line = "unreadable at 16777216: unexpected\n";
    answers(&rt, rt.alloc(), "run", &text[1..], Status::Unreadable, line)?;
    Ok(())
}

/// A star of so many truths, from 1,024 to 2,047, of few levels.
fn star(alloc: Global, count: u32) -> Result<String, Memory> {
    let mut text = String::from_str(alloc, "True")?;
    for bit in (0..10u32).rev() {
        text = format!(in alloc; "({text} ∗ {text})")?;
        if (count >> bit) & 1 == 1 {
            text = format!(in alloc; "({text} ∗ True)")?;
        }
    }
    Ok(text)
}

/// Runs a sentence about such a star.
fn star_is(
    rt: &impl Abort,
    alloc: Global,
    begin: &str,
    count: u32,
    line: &str,
) -> Result<(), Memory> {
    let star = star(alloc, count)?;
    let script = repeated(alloc, begin, star.as_str(), 1, ".")?;
    answers(rt, alloc, "run", script.as_slice(), Status::Refused, line)
}

/// The lemma of such a star has three nodes a truth, but for one.
#[test]
fn large_goals(rt: HostRuntime) -> Result<(), Fail> {
    let large = "refused: sentence 1 at 0: X3\n";
    star_is(&rt, rt.alloc(), "Lemma a : ", 1334, large)?;
    star_is(&rt, rt.alloc(), "Predicate p() := ", 1334, large)?;
    let end = star(rt.alloc(), 1333)?.len().saturating_add(11);
    let line = format!(in rt.alloc(); "refused: sentence 2 at {end}: Q3\n")?;
    star_is(&rt, rt.alloc(), "Lemma a : ", 1333, line.as_str())?;
    Ok(())
}

/// What stands before a star of so many truths, and what behind it; the sentence that is refused, its number, and the row.
static LARGE: [(&str, u32, &str, &str, u32, &str); 5] = [
    // a goal of 4,000 nodes, of which the proof stays open
    ("Lemma a : ▷ ▷ ", 1333, ".", "", 2, "Q3"),
    // a cell has three nodes, and becomes two cells
    (
        "Lemma a : 1 ↦ 2 -∗ ▷ ▷ ",
        1331,
        ". iIntros \"H\". iDestruct \"H\" as \"[A B]\". ",
        "",
        4,
        "Q3",
    ),
    (
        "Lemma a : 1 ↦ 2 -∗ ▷ ▷ ▷ ",
        1331,
        ". iIntros \"H\". ",
        "iDestruct \"H\" as \"[A B]\".",
        3,
        "X3",
    ),
    (
        "Lemma a : 1 ↦ 2 -∗ ▷ ▷ ▷ ",
        1331,
        ". ",
        "iIntros \"[A B]\".",
        2,
        "X3",
    ),
    // a wand is a node
    (
        "Lemma a : 1 ↦ 2 -∗ ▷ ▷ ",
        1331,
        ". iIntros \"[A B]\". ",
        "iRevert \"A\".",
        3,
        "X3",
    ),
];

#[test]
fn large_steps(rt: HostRuntime) -> Result<(), Fail> {
    let alloc = rt.alloc();
    // of 4,001 nodes
    star_is(
        &rt,
        alloc,
        "Lemma a : ▷ ▷ ▷ ",
        1333,
        "refused: sentence 1 at 0: X3\n",
    )?;
    for (begin, count, behind, sentence, number, row) in &LARGE {
        let star = star(alloc, *count)?;
        let mut script = repeated(alloc, begin, star.as_str(), 1, behind)?;
        script.extend(sentence.as_bytes())?;
        last_is_refused(&rt, alloc, &script, sentence, *number, row)?;
    }
    Ok(())
}

/// For each number below the count the first piece, the number, and the second piece, between two others.
fn numbered(
    alloc: Global,
    begin: &str,
    pieces: (&str, &str),
    count: u32,
    end: &str,
) -> Result<Bytes, Memory> {
    let mut text = Bytes::from_slice(alloc, begin.as_bytes())?;
    for i in 0..count {
        let piece = format!(in alloc; "{}{i}{}", pieces.0, pieces.1)?;
        text.extend(piece.as_bytes())?;
    }
    text.extend(end.as_bytes())?;
    Ok(text)
}

/// Runs such a script, whose last piece is refused.
fn last_is_refused(
    rt: &impl Abort,
    alloc: Global,
    script: &Bytes,
    end: &str,
    sentence: u32,
    row: &str,
) -> Result<(), Memory> {
    let at = script.len().saturating_sub(end.len());
    let line = format!(in alloc; "refused: sentence {sentence} at {at}: {row}\n")?;
    answers(
        rt,
        alloc,
        "run",
        script.as_slice(),
        Status::Refused,
        line.as_str(),
    )
}

/// Each of 64 variables.
#[test]
fn many_variables(rt: HostRuntime) -> Result<(), Fail> {
    let end = "⌜_0 = _63⌝ -∗ ⌜_0 = _63⌝.";
    let lemma = numbered(rt.alloc(), "Lemma a : ", ("∀ _", ", "), 64, end)?;
    let end = ") \"%E\". iExact \"E\".";
    let sentences = numbered(rt.alloc(), "iIntros (", ("x", " "), 64, end)?;
    is_proved(&rt, rt.alloc(), lemma.as_slice(), sentences.as_slice())?;
    Ok(())
}

/// The 65th parameter.
#[test]
fn many_parameters(rt: HostRuntime) -> Result<(), Fail> {
    let script = numbered(rt.alloc(), "Predicate p(", ("x", ", "), 64, "y) := True.")?;
    let line = "refused: sentence 1 at 0: X1\n";
    answers(
        &rt,
        rt.alloc(),
        "run",
        script.as_slice(),
        Status::Refused,
        line,
    )?;
    Ok(())
}

/// The 65th hypothesis.
#[test]
fn many_hypotheses(rt: HostRuntime) -> Result<(), Fail> {
    let lemma = repeated(rt.alloc(), "Lemma a : ", "True -∗ ", 64, "True -∗ True. ")?;
    let begin = str::from_utf8(lemma.as_slice())?;
    let end = "iIntros \"K\".";
    let script = numbered(rt.alloc(), begin, ("iIntros \"H", "\". "), 64, end)?;
    last_is_refused(&rt, rt.alloc(), &script, end, 66, "X2")?;
    Ok(())
}

/// The 65th predicate.
#[test]
fn many_predicates(rt: HostRuntime) -> Result<(), Fail> {
    let end = "Predicate q() := True.";
    let script = numbered(rt.alloc(), "", ("Predicate p", "() := True. "), 64, end)?;
    last_is_refused(&rt, rt.alloc(), &script, end, 65, "X6")?;
    Ok(())
}

/// The 10,001st lemma.
#[test]
fn many_lemmas(rt: HostRuntime) -> Result<(), Fail> {
    let end = "Lemma k : True.";
    let lemma = (
        "Lemma l",
        " : True -∗ True. iIntros \"H\". iExact \"H\". Qed.\n",
    );
    let script = numbered(rt.alloc(), "", lemma, 10_000, end)?;
    last_is_refused(&rt, rt.alloc(), &script, end, 40001, "X7")?;
    Ok(())
}
