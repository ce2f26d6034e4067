//! Texts: names, tokens, formulas that are read, and formulas that are printed.

use crate::given::{names, repeated, table, truth};
use pm_logic::{
    BOUND, Bytes, Formula, List, Memory, Name, Preds, Pure, Term, add, all, and, copy, copy_pure,
    copy_term, depth, ex, imp, later, neg, or, pers, pure_and, pure_depth, pure_not, pure_or, same,
    same_pure, same_term, scale, sep, sub, term_depth, upd, wand,
};
use pm_print::{print_pure, print_term};
use pm_text::TextFault::{self, Arity, Deep, Fraction, Number, Unbound, Unexpected};
use pm_text::{is_name, print_formula, read_formula, read_pure, read_term};
use pm_tokens::{Symbol, Token, tokens};
use std::alloc::{AllocError, Global};
use std::test::Fail;

#[test]
fn words_that_are_names(rt: HostRuntime) {
    let good: [&[u8]; 7] = [
        b"a",
        b"_",
        b"_1",
        b"x'",
        b"Truely",
        "λx".as_bytes(),
        "été".as_bytes(),
    ];
    for word in good {
        assert!(rt; is_name(word));
    }
    let bad: [&[u8]; 12] = [
        b"", b"1", b"'", b"a-b", b"a b", b"\xff", b"a\xc3", b"forall", b"exists", b"emp", b"True",
        b"False",
    ];
    for word in bad {
        assert!(rt; !is_name(word));
    }
}

fn is_same(a: Token, b: Token) -> bool {
    match (a, b) {
        (Token::Name(a), Token::Name(b)) => a == b,
        (Token::Number(a), Token::Number(b)) => a == b,
        (Token::Symbol(a), Token::Symbol(b)) => a == b,
        _ => false,
    }
}

/// Whether these are the tokens of a text, and this is where they stop.
fn has_tokens(
    alloc: Global,
    text: &[u8],
    expected: &[(usize, Token)],
    stop: usize,
) -> Result<bool, AllocError> {
    let found = tokens(alloc, text)?;
    let mut same = found.stop == stop && found.list.len() == expected.len();
    for (placed, (at, token)) in found.list.iter().zip(expected) {
        same = same && placed.at == *at && is_same(placed.token, *token);
    }
    Ok(same)
}

static SYMBOLS: [Symbol; 17] = [
    Symbol::Forall,
    Symbol::Exists,
    Symbol::Wand,
    Symbol::UpdateWand,
    Symbol::And,
    Symbol::Or,
    Symbol::Arrow,
    Symbol::Later,
    Symbol::Persistently,
    Symbol::PointsTo,
    Symbol::OpenPure,
    Symbol::ClosePure,
    Symbol::AtMost,
    Symbol::AtLeast,
    Symbol::NotEqual,
    Symbol::Not,
    Symbol::Entails,
];

#[test]
fn both_spellings_of_symbols(rt: HostRuntime) -> Result<(), Fail> {
    let texts = [
        "∀ ∃ -∗ ==∗ ∧ ∨ → ▷ □ ↦ ⌜ ⌝ ≤ ≥ ≠ ¬ ⊢",
        "forall exists -* ==* /\\ \\/ -> |> <pers> |-> [| |] <= >= <> ~ |-",
    ];
    for text in texts {
        let found = tokens(rt.alloc(), text.as_bytes())?;
        assert!(rt; found.list.len() == 17);
        assert!(rt; found.stop == text.len());
        for (placed, symbol) in found.list.iter().zip(&SYMBOLS) {
            assert!(rt; is_same(placed.token, Token::Symbol(*symbol)));
        }
    }
    Ok(())
}

static NAMES_AND_NUMBERS: [(usize, Token<'static>); 4] = [
    (0, Token::Name(b"\xce\xbbx'")),
    (22, Token::Number(7)),
    (25, Token::Symbol(Symbol::Defines)),
    (27, Token::Name(b"foralls_18446744073709551616")),
];

static NUMBER: [(usize, Token<'static>); 1] = [(0, Token::Number(18446744073709551615))];

static NAME: [(usize, Token<'static>); 1] = [(1, Token::Name(b"a"))];

static QUOTED: [(usize, Token<'static>); 10] = [
    (0, Token::Name(b"i")),
    (1, Token::Symbol(Symbol::Quote)),
    (2, Token::Symbol(Symbol::MinusHash)),
    (4, Token::Symbol(Symbol::Wildcard)),
    (5, Token::Symbol(Symbol::Bar)),
    (6, Token::Symbol(Symbol::Minus)),
    (7, Token::Symbol(Symbol::DoubleAsterisk)),
    (9, Token::Symbol(Symbol::Asterisk)),
    (12, Token::Symbol(Symbol::Quote)),
    (13, Token::Symbol(Symbol::Entails)),
];

static CERTIFICATE: [(usize, Token<'static>); 8] = [
    (0, Token::Name(b"linear")),
    (7, Token::Symbol(Symbol::Quote)),
    (8, Token::Symbol(Symbol::Minus)),
    (9, Token::Number(2)),
    (10, Token::Symbol(Symbol::Asterisk)),
    (11, Token::Symbol(Symbol::Entails)),
    (14, Token::Symbol(Symbol::Entails)),
    (16, Token::Symbol(Symbol::Quote)),
];

#[test]
fn tokens_of_texts(rt: HostRuntime) -> Result<(), Fail> {
    let rows: [(&[u8], &[(usize, Token)], usize); 8] = [
        (
            "λx' (* a (* \" *) . *)007:=foralls_18446744073709551616.".as_bytes(),
            &NAMES_AND_NUMBERS,
            55,
        ),
        (b"18446744073709551616", &NUMBER, 20),
        (b" a (* (* *) \"", &NAME, 3),
        (b" a\xff", &NAME, 2),
        (b" a\n", &NAME, 3),
        ("i\"-#_|-**∗\"|-".as_bytes(), &QUOTED, 15),
        ("i\"⊢\"".as_bytes(), &QUOTED[..2], 2),
        ("linear \"-2*⊢|-\"".as_bytes(), &CERTIFICATE, 17),
    ];
    for (text, expected, stop) in rows {
        assert!(rt; has_tokens(rt.alloc(), text, expected, stop)?);
    }
    Ok(())
}

/// What a text is read as.
#[derive(Clone, Copy)]
enum Kind {
    Term,
    Pure,
    Formula,
}

/// The variables `x`, `y` and `z`.
fn variables(alloc: Global) -> Result<List<Name>, TextFault> {
    Ok(names(alloc, &["x", "y", "z"])?)
}

/// The predicate `p` of one parameter, and those that are printed.
fn predicates(alloc: Global) -> Result<Preds, TextFault> {
    Ok(table(alloc, &[("inf", 1), ("inf2", 1), ("lseg", 2), ("p", 1)])?)
}

fn formula(
    alloc: Global,
    vars: &List<Name>,
    preds: &Preds,
    base: u64,
    text: &[u8],
) -> Result<Formula, TextFault> {
    if text.len() > 100_000 || vars.len() > 10 || preds.list.len() > 10 || base > 1000 {
        return Err(TextFault::Memory);
    }
    read_formula(alloc, text, base, vars, preds)
}

fn pure(alloc: Global, base: u64, text: &[u8]) -> Result<Pure, TextFault> {
    let vars = variables(alloc)?;
    let preds = predicates(alloc)?;
    if text.len() > 100_000 || vars.len() > 10 || preds.list.len() > 10 || base > 1000 {
        return Err(TextFault::Memory);
    }
    read_pure(alloc, text, base, &vars, &preds)
}

fn term(alloc: Global, base: u64, text: &[u8]) -> Result<Term, TextFault> {
    let vars = variables(alloc)?;
    let preds = predicates(alloc)?;
    if text.len() > 100_000 || vars.len() > 10 || preds.list.len() > 10 || base > 1000 {
        return Err(TextFault::Memory);
    }
    read_term(alloc, text, base, &vars, &preds)
}

/// A formula over `x`, `y` and `z`.
fn read(alloc: Global, base: u64, text: &[u8]) -> Result<Formula, TextFault> {
    let vars = variables(alloc)?;
    let preds = predicates(alloc)?;
    formula(alloc, &vars, &preds, base, text)
}

fn fault(alloc: Global, kind: Kind, base: u64, text: &[u8]) -> Option<TextFault> {
    match kind {
        Kind::Term => term(alloc, base, text).err(),
        Kind::Pure => pure(alloc, base, text).err(),
        Kind::Formula => read(alloc, base, text).err(),
    }
}

static FAULTS: [(Kind, &str, TextFault); 28] = [
    (Kind::Formula, "(x + 1) ∗ emp", Unexpected(3)),
    (Kind::Formula, "(True) ↦ 1", Unexpected(1)),
    (Kind::Formula, "∀ x x", Unexpected(7)),
    (Kind::Formula, "x ↦ 1 0", Unexpected(8)),
    (Kind::Formula, "True (* x", Unexpected(5)),
    (Kind::Formula, "True -∗ w ↦ 1", Unbound(10)),
    (Kind::Formula, "q(y)", Unbound(0)),
    (Kind::Formula, "⌜-9223372036854775809 = 0⌝", Number(4)),
    (Kind::Formula, "p(1, 2)", Arity(6)),
    (Kind::Formula, "p()", Arity(2)),
    (Kind::Term, "w", Unbound(0)),
    (Kind::Term, "9223372036854775808", Number(0)),
    (Kind::Term, "- 9223372036854775809", Number(2)),
    (Kind::Term, "", Unexpected(0)),
    (Kind::Term, "x * 2", Unexpected(2)),
    (Kind::Term, "(1 +)", Unexpected(4)),
    (Kind::Term, "(1 ", Unexpected(3)),
    (Kind::Term, "1 + w", Unbound(4)),
    (Kind::Term, "1 + )", Unexpected(4)),
    (Kind::Pure, "(2) * x = 0", Unexpected(2)),
    (Kind::Pure, "x * 2 = 0", Unexpected(2)),
    (Kind::Pure, "x =", Unexpected(3)),
    (Kind::Pure, "x = w", Unbound(4)),
    (Kind::Pure, "True False", Unexpected(5)),
    (Kind::Pure, "1 < 2 3", Unexpected(6)),
    (Kind::Term, "2 * w", Unbound(4)),
    (Kind::Formula, "~ True", Unexpected(0)),
    (Kind::Formula, "1", Unexpected(1)),
];

static FAULTS_BEHIND: [(Kind, &str, TextFault); 8] = [
    (Kind::Formula, "0 ↦{1/17} 0", Fraction(108)),
    (Kind::Formula, "0 ↦{1/0} 0", Fraction(108)),
    (Kind::Formula, "0 ↦{0/1} 0", Fraction(108)),
    (Kind::Formula, "0 ↦{3/2} 0", Fraction(108)),
    (Kind::Formula, "0 ↦{1/9223372036854775808} 0", Number(108)),
    (Kind::Formula, "0 ↦{1/x} 0", Unexpected(108)),
    (Kind::Pure, "1 < 2 3", Unexpected(106)),
    (Kind::Term, "2 * w", Unbound(104)),
];

#[test]
fn faults_have_their_places(rt: HostRuntime) -> Result<(), Fail> {
    for (kind, text, expected) in &FAULTS {
        let found = fault(rt.alloc(), *kind, 0, text.as_bytes());
        assert!(rt; found == Some(*expected), "{expected:?}");
    }
    for (kind, text, expected) in &FAULTS_BEHIND {
        let found = fault(rt.alloc(), *kind, 100, text.as_bytes());
        assert!(rt; found == Some(*expected), "{expected:?}");
    }
    Ok(())
}

/// Bytes that begin no token.
#[test]
fn faults_of_other_bytes(rt: HostRuntime) -> Result<(), Fail> {
    let rows: [(Kind, &[u8], u64); 3] = [
        (Kind::Formula, b"True \xFF", 5),
        (Kind::Term, b"1 \xff", 2),
        (Kind::Pure, b"~ \xff", 2),
    ];
    for (kind, text, at) in rows {
        assert!(rt;
            fault(rt.alloc(), kind, 0, text) == Some(Unexpected(at)),
            "{at}"
        );
    }
    Ok(())
}

/// A piece so many times, a rest, and the fault of that, if it has one.
static OPEN: [(Kind, &str, usize, &str, Option<TextFault>); 20] = [
    (Kind::Formula, "(", 200, "True", Some(Deep(200))),
    (Kind::Formula, "▷", 199, "True", Some(Deep(0))),
    (Kind::Formula, "▷", 198, "True", None),
    (Kind::Formula, "▷", 199, "∀ y, True", Some(Deep(601))),
    (Kind::Formula, "▷", 198, "∀ y z, True", Some(Deep(600))),
    (Kind::Formula, "(", 199, "p()", Some(Arity(201))),
    (Kind::Formula, "(", 199, "p(x)", Some(Deep(201))),
    (Kind::Formula, "(", 199, "1 ↦ 2", Some(Deep(205))),
    (Kind::Formula, "(", 198, "True ==∗ True", Some(Deep(209))),
    (
        Kind::Formula,
        "(",
        198,
        "True -∗ True",
        Some(Unexpected(212)),
    ),
    (Kind::Formula, "(", 200, "w ↦ 2", Some(Unbound(200))),
    (Kind::Term, "(", 200, "7", Some(Deep(200))),
    (Kind::Term, "(", 199, "1 + 2", Some(Deep(203))),
    (Kind::Term, "(", 198, "1 + 2", Some(Unexpected(203))),
    (Kind::Term, "(", 199, "1 + w", Some(Unbound(203))),
    (Kind::Term, "(", 199, "1 + )", Some(Unexpected(203))),
    (Kind::Pure, "(", 200, "True", Some(Deep(200))),
    (Kind::Pure, "(", 199, "1 = 2", Some(Deep(203))),
    (Kind::Pure, "(", 199, "~ False", Some(Deep(201))),
    (Kind::Pure, "(", 199, "~ @", Some(Unexpected(201))),
];

#[test]
fn open_constructs(rt: HostRuntime) -> Result<(), Fail> {
    for (kind, piece, times, rest, expected) in &OPEN {
        let text = repeated(rt.alloc(), "", piece, *times, rest)?;
        assert!(rt;
            fault(rt.alloc(), *kind, 0, text.as_slice()) == *expected,
            "{expected:?}"
        );
    }
    for (kind, rest) in [
        (Kind::Term, "7"),
        (Kind::Pure, "True"),
        (Kind::Formula, "True"),
    ] {
        let front = repeated(rt.alloc(), "", "(", 199, rest)?;
        let mut text = repeated(rt.alloc(), "", ")", 199, "")?;
        let closing = std::mem::replace(&mut text, front);
        text.extend(closing.as_slice())?;
        assert!(rt;
            fault(rt.alloc(), kind, 0, text.as_slice()).is_none(),
            "{rest}"
        );
    }
    Ok(())
}

/// Whether both texts are read, as the same formula.
fn are_same(alloc: Global, left: &str, right: &str) -> Result<bool, TextFault> {
    let left = read(alloc, 0, left.as_bytes())?;
    let right = read(alloc, 0, right.as_bytes())?;
    Ok(same(&left, &right))
}

#[test]
fn both_spellings(rt: HostRuntime) -> Result<(), Fail> {
    let rows = [
        (
            "∀ y, ∃ z, y ↦{1/16} z ∗ ▷ p(y) -∗ □ ⌜x ≤ 1 ∧ ¬ (z ≠ 2)⌝ ∨ emp",
            "forall y,\r\n exists z, y |->{1/16} z * |> p(y) -* <pers> [|x <= 1 /\\ ~ (z <> 2)|] \\/ True",
        ),
        ("True ==∗ False -∗ emp", "True -* |==> False -* emp"),
        (
            "True ==* False → x ↦ 0",
            "True -* (|==> (False -> (x |-> 0)))",
        ),
        (
            "∀ y z, y ↦ z ∧ True",
            "∀ z, ∀ y, (z ↦ y ∧ (* the last *) True)",
        ),
        ("▷ True ∗ True ∨ False", "((▷ True) ∗ True) ∨ False"),
        ("0 ↦{9223372036854775807/9223372036854775807} x", "0 ↦ x"),
        ("⌜((x) >= (y))⌝", "⌜y ≤ x⌝"),
        ("⌜~ 2 - -3 > 1⌝", "⌜¬ (1 < 2 - -3)⌝"),
        ("⌜((x) + 1 ≠ y)⌝", "⌜¬ (x + 1 = y)⌝"),
    ];
    for (left, right) in rows {
        assert!(rt; are_same(rt.alloc(), left, right)?, "{left}");
    }
    assert!(rt; !are_same(rt.alloc(), "True -* False", "True ==* False")?);
    Ok(())
}

fn is_term(alloc: Global, text: &[u8], expected: Term) -> Result<bool, TextFault> {
    let found = term(alloc, 0, text)?;
    Ok(same_term(&found, &expected))
}

/// `2 * x - (1 + y) + - z`
fn long_sum(alloc: Global) -> Result<Term, Memory> {
    let group = add(alloc, Term::Lit(1), Term::Var(1))?;
    let left = sub(alloc, scale(alloc, 2, Term::Var(0))?, group)?;
    add(alloc, left, neg(alloc, Term::Var(2))?)
}

#[test]
fn terms(rt: HostRuntime) -> Result<(), Fail> {
    let alloc = rt.alloc();
    assert!(rt; is_term(alloc, b"x", Term::Var(0))?);
    assert!(rt; !is_term(alloc, b"y", Term::Var(0))? && !is_term(alloc, b"1", Term::Var(1))?);
    assert!(rt; is_term(alloc, b"9223372036854775807", Term::Lit(i64::MAX))?);
    assert!(rt; is_term(alloc, b"- 9223372036854775808", Term::Lit(i64::MIN))?);
    assert!(rt; is_term(alloc, b"2 * x - (1 + y) + - z", long_sum(alloc)?)?);
    let product = scale(alloc, -3, neg(alloc, Term::Lit(-2))?)?;
    assert!(rt; is_term(alloc, b"-3 * - -2", product)?);
    let difference = sub(alloc, Term::Lit(2), Term::Lit(-3))?;
    assert!(rt; is_term(alloc, b"2 - -3", difference)?);
    Ok(())
}

fn is_pure(alloc: Global, text: &str, expected: Pure) -> Result<bool, TextFault> {
    let found = pure(alloc, 0, text.as_bytes())?;
    Ok(same_pure(&found, &expected))
}

/// `x = 1 ∧ ¬ y < 2 ∨ False`
fn long_pure(alloc: Global) -> Result<Pure, Memory> {
    let less = pure_not(alloc, Pure::Lt(Term::Var(1), Term::Lit(2)))?;
    let both = pure_and(alloc, Pure::Eq(Term::Var(0), Term::Lit(1)), less)?;
    pure_or(alloc, both, Pure::False)
}

#[test]
fn pure_formulas(rt: HostRuntime) -> Result<(), Fail> {
    let alloc = rt.alloc();
    assert!(rt; is_pure(alloc, "x = 1 ∧ ¬ y < 2 ∨ False", long_pure(alloc)?)?);
    assert!(rt; !is_pure(alloc, "x < y", Pure::Le(Term::Var(0), Term::Var(1)))?);
    let most = Pure::Le(Term::Var(1), Term::Var(0));
    assert!(rt; is_pure(alloc, "((x) >= (y))", most)?);
    let sum = add(alloc, Term::Var(0), Term::Lit(1))?;
    let differs = pure_not(alloc, Pure::Eq(sum, Term::Var(1)))?;
    assert!(rt; is_pure(alloc, "((x) + 1 ≠ y)", differs)?);
    Ok(())
}

fn is_formula(alloc: Global, text: &str, expected: Formula) -> Result<bool, TextFault> {
    let found = read(alloc, 0, text.as_bytes())?;
    Ok(same(&found, &expected))
}

fn points(loc: Term, units: u32, val: Term) -> Formula {
    Formula::Pts { loc, units, val }
}

/// Under three binders: the sum of the first and the second is the variable outside.
fn shadowed(alloc: Global) -> Result<Formula, Memory> {
    let sum = add(alloc, Term::Var(0), Term::Var(1))?;
    let equal = Formula::Pure(Pure::Eq(sum, Term::Var(5)));
    all(alloc, all(alloc, all(alloc, equal)?)?)
}

/// `□ ▷ (x ↦ y ∨ False) -∗ |==> ((True ∗ False) ∧ (False → True))`
fn long_wand(alloc: Global) -> Result<Formula, Memory> {
    let pts = points(Term::Var(0), 720_720, Term::Var(1));
    let either = or(alloc, pts, Formula::Pure(Pure::False))?;
    let left = pers(alloc, later(alloc, either)?)?;
    wand(alloc, left, long_update(alloc)?)
}

/// `|==> ((True ∗ False) ∧ (False → True))`
fn long_update(alloc: Global) -> Result<Formula, Memory> {
    let star = sep(alloc, truth(), Formula::Pure(Pure::False))?;
    let implied = imp(alloc, Formula::Pure(Pure::False), truth())?;
    upd(alloc, and(alloc, star, implied)?)
}

#[test]
fn trees(rt: HostRuntime) -> Result<(), Fail> {
    let alloc = rt.alloc();
    let update = upd(alloc, Formula::Pure(Pure::False))?;
    assert!(rt; is_formula(alloc, "True ==∗ False", wand(alloc, truth(), update)?)?);
    let pts = points(Term::Var(1), 720_720, Term::Var(2));
    let quantified = all(alloc, ex(alloc, pts)?)?;
    assert!(rt; is_formula(alloc, "∀ y, ∃ z, y ↦ x", quantified)?);
    let sixteenth = points(Term::Lit(0), 45_045, Term::Var(0));
    assert!(rt; is_formula(alloc, "0 ↦{2/32} x", sixteenth)?);
    assert!(rt; is_formula(alloc, "∀ x y x, ⌜x + y = z⌝", shadowed(alloc)?)?);
    let text = "□ ▷ (x ↦ y ∨ False) -∗ |==> ((True ∗ False) ∧ (False → True))";
    assert!(rt; is_formula(alloc, text, long_wand(alloc)?)?);
    Ok(())
}

#[test]
fn copies(rt: HostRuntime) -> Result<(), Fail> {
    let alloc = rt.alloc();
    let t = long_sum(alloc)?;
    assert!(rt; same_term(&copy_term(alloc, &t)?, &t) && term_depth(&t) == 4);
    let p = long_pure(alloc)?;
    assert!(rt; same_pure(&copy_pure(alloc, &p)?, &p) && pure_depth(&p) == 5);
    let f = long_wand(alloc)?;
    assert!(rt; same(&copy(alloc, &f)?, &f) && depth(&f) == 6);
    Ok(())
}

/// A formula's text over some variables, and what is printed for it.
static PRINTED: [(&[&str], &str, &str); 10] = [
    (
        &[],
        "((1 |-> 2) * (3 |-> 4)) -* ((3 |-> 4) * (1 |-> 2))",
        "1 ↦ 2 ∗ 3 ↦ 4 -∗ 3 ↦ 4 ∗ 1 ↦ 2",
    ),
    (
        &["_0"],
        "exists v, ((_0 |-> v) * (|> (inf(_0 + 1))))",
        "∃ _1, _0 ↦ _1 ∗ ▷ inf(_0 + 1)",
    ),
    (
        &["_0"],
        "exists v, (((_0 |->{1/2} v) * (_0 |->{1/2} v)) * (|> (inf2(_0 + 1))))",
        "∃ _1, (_0 ↦{1/2} _1 ∗ _0 ↦{1/2} _1) ∗ ▷ inf2(_0 + 1)",
    ),
    (
        &[],
        "forall a, (forall b, (forall c, ((lseg(a, b)) -* ((lseg(b, c)) -* (lseg(a, c))))))",
        "∀ _0, ∀ _1, ∀ _2, lseg(_0, _1) -∗ lseg(_1, _2) -∗ lseg(_0, _2)",
    ),
    (&[], "True -* (True /\\ True)", "⌜True⌝ -∗ ⌜True⌝ ∧ ⌜True⌝"),
    (
        &[],
        "(True * False) /\\ True",
        "(⌜True⌝ ∗ ⌜False⌝) ∧ ⌜True⌝",
    ),
    (
        &[],
        "(True \\/ False) \\/ True",
        "(⌜True⌝ ∨ ⌜False⌝) ∨ ⌜True⌝",
    ),
    (
        &[],
        "<pers> (|> (True -* False))",
        "□ ▷ (⌜True⌝ -∗ ⌜False⌝)",
    ),
    (
        &[],
        "(|==> (True * False)) -> True",
        "(|==> ⌜True⌝ ∗ ⌜False⌝) → ⌜True⌝",
    ),
    (
        &["x", "n"],
        "(x + 1) |->{1/16} (- n)",
        "(x + 1) ↦{1/16} (-(n))",
    ),
];

/// What is printed for the formula of a text.
fn printed(alloc: Global, vars: &[&str], text: &str) -> Result<Bytes, TextFault> {
    let vars = names(alloc, vars)?;
    let preds = predicates(alloc)?;
    let f = formula(alloc, &vars, &preds, 0, text.as_bytes())?;
    let mut out = Bytes::new(alloc);
    if depth(&f) <= BOUND {
        print_formula(alloc, &f, &vars, &preds, &mut out)?;
    }
    Ok(out)
}

#[test]
fn formulas_are_printed(rt: HostRuntime) -> Result<(), Fail> {
    for (vars, text, expected) in &PRINTED {
        let out = printed(rt.alloc(), vars, text)?;
        assert!(rt; out.as_slice() == expected.as_bytes(), "{expected}");
    }
    Ok(())
}

/// `x - (y - 1)`, and behind it `-3 * x + -(x + y)`
fn printed_terms(alloc: Global) -> Result<Bytes, Memory> {
    let vars = names(alloc, &["x", "y"])?;
    let mut out = Bytes::new(alloc);
    let inner = sub(alloc, Term::Var(1), Term::Lit(1))?;
    print_term(alloc, &sub(alloc, Term::Var(0), inner)?, &vars, &mut out)?;
    let negated = neg(alloc, add(alloc, Term::Var(0), Term::Var(1))?)?;
    let sum = add(alloc, scale(alloc, -3, Term::Var(0))?, negated)?;
    print_term(alloc, &sum, &vars, &mut out)?;
    Ok(out)
}

/// `(x ≤ -9223372036854775808 ∨ x < y) ∧ ¬ x = y`
fn printed_pure(alloc: Global) -> Result<Bytes, Memory> {
    let vars = names(alloc, &["x", "y"])?;
    let mut out = Bytes::new(alloc);
    let least = Pure::Le(Term::Var(0), Term::Lit(-9223372036854775808));
    let either = pure_or(alloc, least, Pure::Lt(Term::Var(0), Term::Var(1)))?;
    let differs = pure_not(alloc, Pure::Eq(Term::Var(0), Term::Var(1)))?;
    print_pure(alloc, &pure_and(alloc, either, differs)?, &vars, &mut out)?;
    Ok(out)
}

#[test]
fn terms_and_pure_formulas_are_printed(rt: HostRuntime) -> Result<(), Fail> {
    let out = printed_terms(rt.alloc())?;
    assert!(rt; out.as_slice() == b"x - (y - 1)-3 * x + -(x + y)".as_slice());
    let out = printed_pure(rt.alloc())?;
    let expected = "(x ≤ -9223372036854775808 ∨ x < y) ∧ ¬ x = y";
    assert!(rt; out.as_slice() == expected.as_bytes());
    Ok(())
}
