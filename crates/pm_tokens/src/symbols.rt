//! The spellings of the symbols.
//!
//! To add a symbol: a variant in symbol.rt, a row here and in specs/Symbols, and its places in the readers above (pm_terms,
//! pm_text, pm_patterns, pm_script). `rt check` here, then in those.

ghost use Rattle.std.specs.Prelude.{◌≡◌, ◌≤◌, ◌<◌, length, map, IsTrue, IfSome};
ghost use Rattle.pm_tokens.specs.Symbols.{begins, longer, row_at, longest, keyword, symbol_at};

use crate::mode::Mode;
use crate::symbol::Symbol;
use crate::words::lookup;

type Row = (&'static str, Symbol);

const SYMBOLS: [Row; 51] = [
    ("∀", Symbol::Forall),
    ("∃", Symbol::Exists),
    ("∗", Symbol::Star),
    ("*", Symbol::Asterisk),
    ("-∗", Symbol::Wand),
    ("-*", Symbol::Wand),
    ("==∗", Symbol::UpdateWand),
    ("==*", Symbol::UpdateWand),
    ("∧", Symbol::And),
    ("/\\", Symbol::And),
    ("∨", Symbol::Or),
    ("\\/", Symbol::Or),
    ("→", Symbol::Arrow),
    ("->", Symbol::Arrow),
    ("▷", Symbol::Later),
    ("|>", Symbol::Later),
    ("□", Symbol::Persistently),
    ("<pers>", Symbol::Persistently),
    ("↦", Symbol::PointsTo),
    ("|->", Symbol::PointsTo),
    ("⌜", Symbol::OpenPure),
    ("[|", Symbol::OpenPure),
    ("⌝", Symbol::ClosePure),
    ("|]", Symbol::ClosePure),
    ("≤", Symbol::AtMost),
    ("<=", Symbol::AtMost),
    ("≥", Symbol::AtLeast),
    (">=", Symbol::AtLeast),
    ("≠", Symbol::NotEqual),
    ("<>", Symbol::NotEqual),
    ("¬", Symbol::Not),
    ("~", Symbol::Not),
    ("⊢", Symbol::Entails),
    ("|-", Symbol::Entails),
    ("|==>", Symbol::Update),
    ("(", Symbol::Open),
    (")", Symbol::Close),
    ("{", Symbol::OpenBrace),
    ("}", Symbol::CloseBrace),
    (",", Symbol::Comma),
    (":", Symbol::Colon),
    (":=", Symbol::Defines),
    ("=", Symbol::Equals),
    ("<", Symbol::Less),
    (">", Symbol::Greater),
    ("+", Symbol::Plus),
    ("-", Symbol::Minus),
    ("/", Symbol::Slash),
    ("$!", Symbol::Terms),
    ("%I", Symbol::Intuitionistic),
    ("\"", Symbol::Quote),
];

const QUOTED_SYMBOLS: [Row; 23] = [
    ("[", Symbol::OpenBracket),
    ("]", Symbol::CloseBracket),
    ("(", Symbol::Open),
    (")", Symbol::Close),
    ("{", Symbol::OpenBrace),
    ("}", Symbol::CloseBrace),
    ("|", Symbol::Bar),
    ("&", Symbol::Ampersand),
    ("?", Symbol::Question),
    ("$", Symbol::Dollar),
    ("%", Symbol::Percent),
    ("#", Symbol::Hash),
    ("-#", Symbol::MinusHash),
    ("-", Symbol::Minus),
    (">", Symbol::Greater),
    ("->", Symbol::Arrow),
    ("<-", Symbol::BackArrow),
    ("!>", Symbol::Modality),
    ("//", Symbol::DoubleSlash),
    ("*", Symbol::Asterisk),
    ("∗", Symbol::Asterisk),
    ("**", Symbol::DoubleAsterisk),
    ("\"", Symbol::Quote),
];

const CERTIFICATE_SYMBOLS: [Row; 2] = [("⊢", Symbol::Entails), ("|-", Symbol::Entails)];

const KEYWORDS: [Row; 5] = [
    ("forall", Symbol::Forall),
    ("exists", Symbol::Exists),
    ("emp", Symbol::Emp),
    ("True", Symbol::True),
    ("False", Symbol::False),
];

/// Whether the bytes begin with a text.
pub fn begins(text: &str, bytes: &[u8]) -> bool
    ensures value { result ≡ begins text.now bytes.now }
    ensures within { IsTrue result → length text.now ≤ length bytes.now }
{
    bytes.starts_with(text.as_bytes())
}

/// The longer of two symbols, the first where neither is longer.
#[tactic(auto, unfolding(crate::specs::Symbols::longer))]
fn longer(
    first: Option<(Symbol, usize)>,
    second: Option<(Symbol, usize)>,
) -> Option<(Symbol, usize)>
    ensures { result ≡ longer first second }
{
    match (first, second) {
        (Some(a), Some(b)) => { if a.1 < b.1 { Some(b) } else { Some(a) } }
        (Some(a), None) => Some(a),
        (None, b) => b,
    }
}

#[tactic(auto, unfolding(crate::specs::Symbols::row_at))]
fn row_at(row: &Row, bytes: &[u8]) -> Option<(Symbol, usize)>
    ensures { result ≡ row_at (row.now.0.now, row.now.1) bytes.now }
{
    if begins(row.0, bytes) {
        Some((row.1, row.0.len()))
    } else {
        None
    }
}

/// The longest symbol of a table that the bytes begin with, and its length.
#[tactic(auto, unfolding(crate::specs::Symbols::longest))]
fn longest(table: &[Row], bytes: &[u8]) -> Option<(Symbol, usize)>
    ensures { result ≡ longest (map (λ r. (r.0.now, r.1)) table.now) bytes.now }
{
    match table {
        [] => None,
        [row, rest @ ..] => longer(row_at(row, bytes), longest(rest, bytes)),
    }
}

/// The symbol that a word is, if it is no name.
pub fn keyword(word: &[u8]) -> Option<Symbol>
    ensures { result ≡ keyword word.now }
{
    lookup(&KEYWORDS, word)
}

/// The longest symbol that the bytes begin with, and its length.
pub fn symbol_at(mode: Mode, bytes: &[u8]) -> Option<(Symbol, usize)>
    ensures { result ≡ symbol_at mode bytes.now }
{
    match mode {
        Mode::Start => longest(&SYMBOLS, bytes),
        Mode::Outside => longest(&SYMBOLS, bytes),
        Mode::OutsideLinear => longest(&SYMBOLS, bytes),
        Mode::Quoted => longest(&QUOTED_SYMBOLS, bytes),
        Mode::QuotedLinear => longer(
            longest(&QUOTED_SYMBOLS, bytes),
            longest(&CERTIFICATE_SYMBOLS, bytes),
        ),
    }
}
