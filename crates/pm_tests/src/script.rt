//! Scripts: how they are cut, and sentences.

ghost use Rattle.std.specs.Prelude.{◌^◌, ◌<◌, length};

use crate::given::{names, repeated, table, truth};
use pm_cutter::{Cutter, Ended, Span};
use pm_logic::{Bytes, Formula, List, Memory, Pure, Term, same, wand};
use pm_script::{Directive, Sentence, read_sentence};
use pm_terms::TextFault::{self, Arity, Deep, Fraction, Number, Unbound, Unexpected};
use std::alloc::Global;
use std::test::Fail;

/// Appends sentences to what is written of a cut script.
fn add_spans(alloc: Global, out: &mut Bytes, spans: &List<Span>) -> Result<(), Memory> {
    for span in spans.as_slice() {
        let offset = format!(in alloc; "{} ", span.offset)?;
        out.extend(offset.as_bytes())?;
        out.extend(span.text.as_slice())?;
        out.push(b'\n')?;
    }
    Ok(())
}

/// Appends the end of a script to what is written of it.
fn add_end(alloc: Global, out: &mut Bytes, ended: &Ended) -> Result<(), Memory> {
    match ended {
        Ended::Clean => out.extend(b"clean"),
        Ended::Last(span) => {
            let offset = format!(in alloc; "last {} ", span.offset)?;
            out.extend(offset.as_bytes())?;
            out.extend(span.text.as_slice())
        }
        Ended::Rest(at) => {
            let offset = format!(in alloc; "rest {at}")?;
            out.extend(offset.as_bytes())
        }
    }
}

/// A script that comes in pieces, the first of `first` bytes and the others of `size`: a line for each sentence, with its
/// offset, and one for the end.
fn cut(alloc: Global, text: &[u8], first: usize, size: usize) -> Result<Bytes, Memory>
    requires text { length text.now < 2 ^ 32 }
    requires start { 0 < first }
    requires later { 0 < size }
{
    let mut out = Bytes::new(alloc);
    let mut cutter = Cutter::new(alloc);
    let mut rest = text;
    let mut len = first;
    'pieces: while !rest.is_empty() {
        let (piece, after) = rest.split_at(len.min(rest.len()));
        let spans = cutter.feed(piece)?;
        add_spans(alloc, &mut out, &spans)?;
        rest = after;
        len = size;
    }
    add_end(alloc, &mut out, &cutter.finish())?;
    Ok(out)
}

const SCRIPT: &str = "Predicate lseg(x, y) :=
  ⌜x = y⌝ ∨ (∃ v n, x ↦ v ∗ (x + 1) ↦ n ∗ ▷ lseg(n, y)).
Lemma lseg_app : ∀ x y z, lseg(x, y) -∗ lseg(y, z) -∗ lseg(x, z).
Proof.
  iLöb as \"IH\". iIntros (x y z) \"H1 H2\". iUnfold \"H1\".
  iDestruct \"H1\" as \"[%E | H1]\".
  { iRewrite \"E\". iExact \"H2\". }
  iDestruct \"H1\" as (v n) \"(Hx & Hn & Ht)\".
  iUnfold. iRight. iExists v, n. iFrame. iNext.
  iApply (\"IH\" $! n y z with \"Ht H2\").
Qed.
";

#[test]
fn a_script_in_pieces(rt: HostRuntime) -> Result<(), Fail> {
    let text = SCRIPT.as_bytes();
    assert!(rt; text.len() < 1000);
    let mut cutter = Cutter::new(rt.alloc());
    assert!(rt; cutter.feed(text)?.len() == 19);
    let whole = cut(rt.alloc(), text, 1000, 1000)?;
    assert!(rt; whole.as_slice().ends_with(b"\nclean"));
    let bytes = cut(rt.alloc(), text, 1, 1)?;
    assert!(rt; bytes.as_slice() == whole.as_slice());
    for place in 1..1000 {
        let halves = cut(rt.alloc(), text, place, 1000)?;
        assert!(rt; halves.as_slice() == whole.as_slice());
    }
    Ok(())
}

/// Stops, quotes and comments, and what is left at the end.
#[test]
fn texts_are_cut(rt: HostRuntime) -> Result<(), Fail> {
    let rows: [(&[u8], &str); 14] = [
        (
            b"Lemma a : True. (* x (* . *) *) done. { \"a. b\". } Qed.",
            "0 Lemma a : True\n32 done\n38 {\n40 \"a. b\"\n48 }\nlast 50 Qed",
        ),
        (b"Proof.\r\nQed.\r\n", "0 Proof\n8 Qed\nclean"),
        (b". ", "0 \nclean"),
        (b"{.", "0 {\nlast 1 "),
        (b"done.", "last 0 done"),
        (b"", "clean"),
        (b"Lemma a : True", "rest 14"),
        (b"(* x", "rest 4"),
        (b"(*)", "rest 3"),
        (b"a \"b. ", "rest 6"),
        (b"done.(* *)", "rest 10"),
        (b"a \xff (* \xff", "rest 2"),
        (b"a (* \xff *) \xfe", "rest 10"),
        (b"(* \xff", "rest 4"),
    ];
    for (text, expected) in rows {
        assert!(rt; text.len() < 1000);
        let whole = cut(rt.alloc(), text, 1000, 1000)?;
        assert!(rt; whole.as_slice() == expected.as_bytes(), "{expected}");
        let bytes = cut(rt.alloc(), text, 1, 1)?;
        assert!(rt; bytes.as_slice() == expected.as_bytes(), "{expected}");
    }
    Ok(())
}

/// Reads a sentence over the variable `x` and the predicate `p` of one parameter.
fn read(alloc: Global, base: u64, text: &[u8]) -> Result<Sentence, TextFault> {
    let vars = names(alloc, &["x"])?;
    let preds = table(alloc, &[("p", 1)])?;
    if text.len() > 100_000 || vars.len() > 1 || preds.list.len() > 1 || base > 1000 {
        return Err(TextFault::Memory);
    }
    read_sentence(alloc, text, base, &vars, &preds)
}

/// Each form of a sentence.
static SENTENCES: [&str; 55] = [
    "Predicate q(y, z) := y ↦ z ∗ ▷ q(z, y)",
    "Predicate q() := True",
    "Lemma a : p(1)",
    "Proof",
    "Qed",
    "Abort",
    "Restart",
    "Show",
    "{",
    "}",
    "iIntros \"A #B\"",
    "iIntros (y z) \"%L !> // * ** {A %}\"",
    "iIntros (y)",
    "iDestruct \"H\" as (v n) \"(A & B & _)\"",
    "iDestruct (foo $! x 3 with \"A [B $C] [-] [- D] [#] [%] [//] []\") as \"A\"",
    "iPoseProof (\"H\" with \"A\") as \"#B\"",
    "iSpecialize (\"H\" $! x (x + 1))",
    "iApply foo",
    "iMod \"H\" as \"-#A\"",
    "iAssert (x ↦ 1) %I with \"[A $B]\" as \"P\"",
    "iFold (p(x)) in \"H\"",
    "iCases (x < 1) as \"C\"",
    "iSplit",
    "iSplitL",
    "iSplitR \"A B\"",
    "iLeft",
    "iRight",
    "iExists x, x + 1",
    "iExact \"H\"",
    "iAssumption",
    "iExFalso",
    "done",
    "iClear \"A % # *\"",
    "iRename \"A\" into \"B\"",
    "iRevert (y) \"A\"",
    "iRevert (y z)",
    "iFrame",
    "iFrame \"A ∗\"",
    "iModIntro",
    "iNext",
    "iLöb as \"IH\"",
    "iLoeb as \"IH\"",
    "iUnfold \"H\"",
    "iCombine \"A B\" as \"C\"",
    "iWrite \"H\" 3",
    "iAlloc 0 as (l) \"H\"",
    "iPureIntro",
    "iRewrite \"E\"",
    "iRewrite - \"E\" in \"H\"",
    "linear",
    "linear with \"1*A 2*⊢ -5*B\"",
    "linear with \"\" \"1*|- 2*A\"",
    "Undo",
    "Lemma a :\r\n  True (* . *) ⊢\r\n  True",
    "iUnfold",
];

static FAULTS: [(&str, u64, TextFault); 22] = [
    ("Lemma f : 0 ↦{1/17} 0 ⊢ True", 0, Fraction(18)),
    ("Lemma n : ⌜9223372036854775808 = 0⌝", 0, Number(13)),
    ("Predicate q(y, y) := True", 0, Unexpected(15)),
    ("iAssert (True) with \"H\" as \"K\"", 0, Unexpected(21)),
    ("iIntros \"\"", 0, Unexpected(9)),
    ("iIntros \"(A)\"", 0, Unexpected(11)),
    ("linear with \"-1*⊢\"", 0, Unexpected(16)),
    ("linear with \"1*⊢ 2*⊢\"", 0, Unexpected(21)),
    ("Undo 9223372036854775808", 0, Number(5)),
    ("Undo .", 0, Unexpected(5)),
    ("iSpecialize a", 0, Unexpected(12)),
    ("", 100, Unexpected(100)),
    ("iFoo \"A\"", 100, Unexpected(100)),
    ("iNext 2", 100, Unexpected(106)),
    ("iExists x,", 100, Unexpected(110)),
    ("iExists y", 100, Unbound(108)),
    ("Lemma a : x ↦ 1", 100, Unbound(110)),
    ("Lemma a : p(1, 2)", 100, Arity(116)),
    ("iDestruct \"H\" as () \"p\"", 100, Unexpected(118)),
    ("iClear \"⊢\"", 100, Unexpected(108)),
    ("Undo 1 2", 100, Unexpected(107)),
    ("Qed \"", 100, Unexpected(104)),
];

#[test]
fn sentences_are_read(rt: HostRuntime) -> Result<(), Fail> {
    for text in &SENTENCES {
        assert!(rt; read(rt.alloc(), 0, text.as_bytes()).is_ok(), "{text}");
    }
    for (text, base, expected) in &FAULTS {
        let found = read(rt.alloc(), *base, text.as_bytes()).err();
        assert!(rt; found == Some(*expected), "{text}");
    }
    Ok(())
}

#[test]
fn depth_is_bounded(rt: HostRuntime) -> Result<(), Fail> {
    let rows = [
        ("iIntros \"", "#", 199, "H\"", None),
        ("iIntros \"", "#", 200, "H\"", Some(Deep(209))),
        ("Lemma a : ", "▷", 199, "True", Some(Deep(10))),
    ];
    for (begin, piece, times, end, expected) in rows {
        let text = repeated(rt.alloc(), begin, piece, times, end)?;
        assert!(rt;
            read(rt.alloc(), 0, text.as_slice()).err() == expected,
            "{begin}"
        );
    }
    Ok(())
}

/// Whether a text is a sentence that states this formula.
fn is_stated(alloc: Global, text: &str, expected: &Formula) -> Result<bool, TextFault> {
    let sentence = read(alloc, 0, text.as_bytes())?;
    Ok(match &sentence {
        Sentence::Lemma { name: _, statement } => same(statement, expected),
        Sentence::Predicate {
            name: _,
            params: _,
            body,
        } => same(body, expected),
        _ => false,
    })
}

/// The call of the predicate behind the table with `y` and `x`, which are its parameters.
fn turned(alloc: Global) -> Result<Formula, Memory> {
    let mut args = List::new(alloc);
    args.push(Term::Var(1))?;
    args.push(Term::Var(0))?;
    Ok(Formula::Call { pred: 1, args })
}

#[test]
fn values_of_statements(rt: HostRuntime) -> Result<(), Fail> {
    let alloc = rt.alloc();
    assert!(rt; is_stated(alloc, "Lemma a : True", &truth())?);
    let implied = wand(alloc, truth(), Formula::Pure(Pure::False))?;
    assert!(rt; is_stated(alloc, "Lemma a : True ⊢ False", &implied)?);
    let call = turned(alloc)?;
    assert!(rt; is_stated(alloc, "Predicate q(y, z) := q(z, y)", &call)?);
    // the predicate's own name counts before the table's
    assert!(rt; is_stated(alloc, "Predicate p(y, z) := p(z, y)", &call)?);
    Ok(())
}

/// The number that a sentence names: of the steps that are undone, or the factor of the goal in a certificate.
fn number_of(sentence: &Sentence) -> Option<i128> {
    match sentence {
        Sentence::Undo(steps) => Some(i128::from(*steps)),
        Sentence::Directive(Directive::LinearWith(certs)) => match certs.as_slice() {
            [cert, ..] => Some(i128::from(cert.goal)),
            [] => None,
        },
        _ => None,
    }
}

#[test]
fn values_of_numbers(rt: HostRuntime) -> Result<(), Fail> {
    let rows = [
        ("Undo", 1),
        ("Undo 12", 12),
        ("linear with \"-5*B 2*⊢\"", 2),
    ];
    for (text, expected) in rows {
        let sentence = read(rt.alloc(), 0, text.as_bytes())?;
        assert!(rt; number_of(&sentence) == Some(expected), "{text}");
    }
    Ok(())
}
