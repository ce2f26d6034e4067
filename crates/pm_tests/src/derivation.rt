//! Lines of derivations, read one by one.

use crate::given::{repeated, truth};
use pm_dtext::{Line, LineFault, read_arities, read_header, read_line, read_pred, rule_name};
use pm_logic::{List, Memory, Preds, same};
use pm_rules::Rule;
use std::alloc::Global;
use std::test::Fail;

/// A table of one predicate `p` with two parameters.
fn one_predicate(alloc: Global) -> Result<Preds, LineFault> {
    let mut preds = Preds {
        list: List::new(alloc),
    };
    let pred = read_pred(alloc, b"pred p pts v0 1 v1\n", 0, &[2], &preds)?;
    match preds.list.push(pred) {
        Ok(()) => Ok(preds),
        Err(_) => Err(LineFault::Memory),
    }
}

/// Reads a line that begins at offset 100 and is the second.
fn line(alloc: Global, text: &[u8]) -> Result<Line, LineFault> {
    let preds = one_predicate(alloc)?;
    if text.len() > 10_000 || preds.list.len() > 1 {
        return Err(LineFault::Memory);
    }
    read_line(alloc, text, 100, 2, &preds)
}

static READ: [&str; 10] = [
    "2 refl 0 pure T pure T\n",
    "2 trans 1000 1 1 pure T pure F\n",
    "2 inst 3 1 2 add v0 v2 neg sub 1 mul -2 v1 pure T pure T\n",
    "2 inst 0 1 0 pure T pure T\n",
    "2 all-e 0 9223372036854775807 all pure T pure T\n",
    "2 ex-i 0 -9223372036854775808 pure T ex pure T\n",
    "2 linear 0 2 1 -5 1 0 pure T pure T\n",
    "2 rewrite 1 pure eq v0 v1 pure T pure T\n",
    "2 refl 1 sep wand and or imp pure T pure F pure eq 1 v0 pure le 2 3 pure cj lt 1 2 dj no T F pts v0 720720 1 all ex later pers upd call 0 v2 v0\n",
    "qed t 1\n",
];

static FAULTS: [(&str, LineFault); 18] = [
    ("1 refl 0 pure T pure T\n", LineFault::Syntax(100)),
    ("2 qed 0 pure T pure T\n", LineFault::Syntax(102)),
    ("2 refl 01 pure T pure T\n", LineFault::Syntax(107)),
    ("2 refl 1001 pure T pure T\n", LineFault::Syntax(107)),
    ("2 refl 0 pure T  pure T\n", LineFault::Syntax(116)),
    ("2 refl 0 pure eq v0 1 pure T\n", LineFault::Syntax(117)),
    ("2 refl 0 pure eq -0 1 pure T\n", LineFault::Syntax(117)),
    ("2 refl 0 pts 0 720721 0 pure T\n", LineFault::Syntax(115)),
    ("2 refl 0 call 1 0 0 pure T\n", LineFault::Syntax(114)),
    ("2 refl 0 call 0 0 pure T\n", LineFault::Syntax(118)),
    ("2 linear 0 67", LineFault::Syntax(111)),
    ("2 refl 0 pure T pure T", LineFault::Syntax(122)),
    ("2 refl 0 pure T pure T\nq", LineFault::Syntax(123)),
    ("qed True 1\n", LineFault::Syntax(104)),
    ("2 trans 0 18446744073709551616 1\n", LineFault::Syntax(110)),
    ("2 trans 0 2 x\n", LineFault::NoLine(2)),
    ("2 trans 0 1 0 x\n", LineFault::NoLine(0)),
    (
        "qed t 18446744073709551615\n",
        LineFault::NoLine(18446744073709551615),
    ),
];

#[test]
fn lines(rt: HostRuntime) -> Result<(), Fail> {
    for text in &READ {
        assert!(rt; line(rt.alloc(), text.as_bytes()).is_ok(), "{text}");
    }
    for (text, expected) in &FAULTS {
        let found = line(rt.alloc(), text.as_bytes()).err();
        assert!(rt; found == Some(*expected), "{text}");
    }
    Ok(())
}

/// The fault of a line whose left side is so many laters over a word.
fn fault_of_laters(alloc: Global, count: usize, word: &str) -> Result<Option<LineFault>, Memory> {
    let front = repeated(alloc, "2 refl 0 ", "later ", count, word)?;
    let mut text = front;
    text.extend(b" pure T\n")?;
    Ok(line(alloc, text.as_slice()).err())
}

#[test]
fn levels(rt: HostRuntime) -> Result<(), Fail> {
    let rows = [
        (998, "pure T", None),
        (999, "pure T", Some(LineFault::Deep(6108))),
        (999, "pure x", Some(LineFault::Syntax(6108))),
        (1000, "pure T", Some(LineFault::Deep(6109))),
    ];
    for (count, word, expected) in rows {
        assert!(rt;
            fault_of_laters(rt.alloc(), count, word)? == expected,
            "{word}"
        );
    }
    Ok(())
}

/// Whether the line is a proof line by reflexivity over seven variables with both sides true.
fn is_reflexivity(line: &Line) -> bool {
    match line {
        Line::Step {
            rule: Rule::Refl,
            first: None,
            second: None,
            entail,
        } => entail.vars == 7 && same(&entail.left, &truth()) && same(&entail.right, &truth()),
        _ => false,
    }
}

#[test]
fn values(rt: HostRuntime) -> Result<(), Fail> {
    let step = line(rt.alloc(), b"2 refl 7 pure T pure T\n")?;
    assert!(rt; is_reflexivity(&step));
    let preds = one_predicate(rt.alloc())?;
    assert!(rt; matches!(preds.list.get(0), Some(pred) if pred.name.bytes() == b"p".as_slice()));
    Ok(())
}

#[test]
fn table_lines(rt: HostRuntime) -> Result<(), Fail> {
    assert!(rt; read_header(b"mosel-derivation 1\n", 0).is_ok());
    assert!(rt; read_header(b"mosel-deri", 0) == Err(LineFault::Syntax(0)));
    assert!(rt; read_header(b"mosel-derivation 1\n\n", 5) == Err(LineFault::Syntax(24)));
    let arities = read_arities(rt.alloc(), b"arities 64 0\n", 0)?;
    assert!(rt; arities.as_slice() == [64, 0].as_slice());
    let fault = read_arities(rt.alloc(), b"arities 65\n", 0).err();
    assert!(rt; fault == Some(LineFault::Syntax(8)));
    Ok(())
}

#[test]
fn names_of_rules(rt: HostRuntime) {
    assert!(rt; rule_name(1) == "refl");
    assert!(rt; rule_name(57) == "linear");
    assert!(rt; rule_name(67) == "timeless");
    assert!(rt; rule_name(68) == "qed");
}
