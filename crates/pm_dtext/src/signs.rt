//! What the words that terms, formulas and rules begin with say.

ghost use Rattle.std.specs.Prelude.{◌≡◌};
ghost use Rattle.pm_dtext.specs.Texts.{ReadsExactly};
ghost use Rattle.pm_dtext.specs.Reading.{leaf_of, term_sign_of, pure_sign_of, formula_sign_of, says_at};

use crate::fault::Fault;
use crate::words::{index_of, is_text, literal_of, word_of};
use pm_rules::{Binary, Rule, Unary};

/// What the first word of a term says.
#[derive(Clone, Copy)]
pub enum TermSign {
    Lit(i64),
    Var(u32),
    Add,
    Sub,
    Neg,
    Scale,
}

/// The signs of pure formulas.
#[derive(Clone, Copy)]
pub enum PureSign {
    True,
    False,
    Eq,
    Le,
    Lt,
    And,
    Or,
    Not,
}

/// The signs of formulas.
#[derive(Clone, Copy)]
pub enum FormulaSign {
    Pure,
    Two(Binary),
    One(Unary),
    Pts,
    Call,
}

/// What a rule's name says: the rule, or which arguments are still to come.
#[derive(Drop)]
pub enum RuleSign {
    Plain(Rule),
    Inst,
    AllE,
    ExI,
    Linear,
    Rewrite,
}

#[tactic(auto, unfolding(crate::specs::Reading::leaf_of))]
fn leaf_of(vars: u32, word: &[u8]) -> Option<TermSign>
    ensures { result ≡ leaf_of vars word.now }
{
    match word {
        [] => None,
        [b'v', digits @ ..] => match index_of(vars, digits) {
            Some(i) => Some(TermSign::Var(i)),
            None => None,
        },
        _ => match literal_of(word) {
            Some(z) => Some(TermSign::Lit(z)),
            None => None,
        },
    }
}

/// What the word says that begins a term with so many variables.
#[tactic(auto, unfolding(crate::specs::Reading::term_sign_of))]
fn term_sign_of(vars: u32, word: &[u8]) -> Option<TermSign>
    ensures { result ≡ term_sign_of vars word.now }
{
    if is_text(word, "add") {
        Some(TermSign::Add)
    } else if is_text(word, "sub") {
        Some(TermSign::Sub)
    } else if is_text(word, "neg") {
        Some(TermSign::Neg)
    } else if is_text(word, "mul") {
        Some(TermSign::Scale)
    } else {
        leaf_of(vars, word)
    }
}

#[tactic(auto, unfolding(crate::specs::Reading::pure_sign_of))]
fn pure_sign_of(word: &[u8]) -> Option<PureSign>
    ensures { result ≡ pure_sign_of word.now }
{
    if is_text(word, "T") {
        Some(PureSign::True)
    } else if is_text(word, "F") {
        Some(PureSign::False)
    } else if is_text(word, "eq") {
        Some(PureSign::Eq)
    } else if is_text(word, "le") {
        Some(PureSign::Le)
    } else if is_text(word, "lt") {
        Some(PureSign::Lt)
    } else if is_text(word, "cj") {
        Some(PureSign::And)
    } else if is_text(word, "dj") {
        Some(PureSign::Or)
    } else if is_text(word, "no") {
        Some(PureSign::Not)
    } else {
        None
    }
}

#[tactic(auto, unfolding(crate::specs::Reading::formula_sign_of))]
fn formula_sign_of(word: &[u8]) -> Option<FormulaSign>
    ensures { result ≡ formula_sign_of word.now }
{
    if is_text(word, "pure") {
        Some(FormulaSign::Pure)
    } else if is_text(word, "sep") {
        Some(FormulaSign::Two(Binary::Sep))
    } else if is_text(word, "wand") {
        Some(FormulaSign::Two(Binary::Wand))
    } else if is_text(word, "and") {
        Some(FormulaSign::Two(Binary::And))
    } else if is_text(word, "or") {
        Some(FormulaSign::Two(Binary::Or))
    } else if is_text(word, "imp") {
        Some(FormulaSign::Two(Binary::Imp))
    } else if is_text(word, "all") {
        Some(FormulaSign::One(Unary::All))
    } else if is_text(word, "ex") {
        Some(FormulaSign::One(Unary::Ex))
    } else if is_text(word, "later") {
        Some(FormulaSign::One(Unary::Later))
    } else if is_text(word, "pers") {
        Some(FormulaSign::One(Unary::Pers))
    } else if is_text(word, "upd") {
        Some(FormulaSign::One(Unary::Upd))
    } else if is_text(word, "pts") {
        Some(FormulaSign::Pts)
    } else if is_text(word, "call") {
        Some(FormulaSign::Call)
    } else {
        None
    }
}

/// What the word at the front of a term says, and what follows it.
#[tactic(auto, unfolding(crate::specs::Reading::says_at))]
pub fn term_sign(vars: u32, bytes: &[u8]) -> Result<(TermSign, &[u8]), Fault>
    ensures { ReadsExactly result (says_at (term_sign_of vars) bytes.now) }
{
    let (word, rest) = word_of(bytes);
    match term_sign_of(vars, word) {
        Some(sign) => Ok((sign, rest)),
        None => Err(Fault::Syntax(bytes.len())),
    }
}

/// What the word at the front of a pure formula says, and what follows it.
#[tactic(auto, unfolding(crate::specs::Reading::says_at))]
pub fn pure_sign(bytes: &[u8]) -> Result<(PureSign, &[u8]), Fault>
    ensures { ReadsExactly result (says_at pure_sign_of bytes.now) }
{
    let (word, rest) = word_of(bytes);
    match pure_sign_of(word) {
        Some(sign) => Ok((sign, rest)),
        None => Err(Fault::Syntax(bytes.len())),
    }
}

/// What the word at the front of a formula says, and what follows it.
#[tactic(auto, unfolding(crate::specs::Reading::says_at))]
pub fn formula_sign(bytes: &[u8]) -> Result<(FormulaSign, &[u8]), Fault>
    ensures { ReadsExactly result (says_at formula_sign_of bytes.now) }
{
    let (word, rest) = word_of(bytes);
    match formula_sign_of(word) {
        Some(sign) => Ok((sign, rest)),
        None => Err(Fault::Syntax(bytes.len())),
    }
}
