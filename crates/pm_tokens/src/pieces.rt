//! The pieces of a text: blanks, comments and tokens.

ghost use Rattle.std.specs.Prelude.{◌≡◌, ◌+◌, ◌^◌, ◌≤◌, ◌<◌, length, IsTrue, IfSome};
ghost use Rattle.pm_tokens.specs.Tokens.{token_of};
ghost use Rattle.pm_tokens.specs.Symbols.{symbol_at};
ghost use Rattle.pm_tokens.specs.Characters.{is_digit};
ghost use Rattle.pm_tokens.specs.Pieces.{Finds, begins_with, is_blank, comment_step, comment_end, comment, digits, is_quoted, word, sign_by, word_or_sign, first_piece};

use crate::characters::{digit_count, is_digit, name_len, number};
use crate::mode::Mode;
use crate::symbol::Symbol;
use crate::symbols::{begins, keyword, symbol_at};
use crate::token::Token;

#[derive(Clone, Copy)]
pub enum Piece<'a> {
    /// A blank or a comment.
    Gap,
    Token(Token<'a>),
}

/// Whether the byte is a space, a tab, CR or LF.
pub fn is_blank(b: u8) -> bool
    ensures { result ≡ is_blank b }
{
    b == b' ' || b == b'\t' || b == b'\r' || b == b'\n'
}

/// How many comments are open behind what the bytes begin with, and how many bytes that has.
#[tactic(auto, unfolding(crate::specs::Pieces::comment_step))]
fn comment_step(depth: usize, bytes: &[u8]) -> (usize, usize)
    requires some { 0 < length bytes.now }
    requires depth { 0 < depth }
    requires fits { depth + length bytes.now < 2 ^ 64 }
    ensures value { result ≡ comment_step depth bytes.now }
    ensures within { (0 < result.1) × (result.1 ≤ length bytes.now) }
    ensures few { result.0 ≤ depth + result.1 }
{
    if begins("(*", bytes) {
        (depth + 1, 2)
    } else if begins("*)", bytes) {
        (depth - 1, 2)
    } else {
        (depth, 1)
    }
}

/// The length of the comment that the bytes begin with, if it is closed.
fn comment_len(bytes: &[u8]) -> Option<usize>
    requires { 2 ≤ length bytes.now }
    ensures value { result ≡ comment_end 0 2 1 bytes.now }
    ensures within { IfSome result (λ n. (0 < n) × (n ≤ length bytes.now)) }
{
    let mut rest = bytes.split_at(2).1;
    let mut at = 2;
    let mut depth = 1;
    'steps: while depth > 0 {
        if rest.is_empty() {
            return None;
        }
        let (next, len) = comment_step(depth, rest);
        depth = next;
        at += len;
        rest = rest.split_at(len).1;
    }
    Some(at)
}

#[tactic(auto, unfolding(crate::specs::Pieces::comment))]
fn comment(bytes: &[u8]) -> Option<(Piece, usize)>
    requires { 2 ≤ length bytes.now }
    ensures value { Finds result (comment bytes.now) }
    ensures within { IfSome result (λ x. (0 < x.1) × (x.1 ≤ length bytes.now)) }
{
    match comment_len(bytes) {
        Some(n) => Some((Piece::Gap, n)),
        None => None,
    }
}

#[tactic(auto, unfolding(crate::specs::Pieces::digits))]
fn digits(bytes: &[u8]) -> Option<(Piece, usize)>
    requires { IsTrue (begins_with is_digit bytes.now) }
    ensures value { Finds result (digits bytes.now) }
    ensures within { IfSome result (λ x. (0 < x.1) × (x.1 ≤ length bytes.now)) }
{
    let n = digit_count(bytes);
    let value = number(bytes.split_at(n).0);
    Some((Piece::Token(Token::Number(value)), n))
}

fn is_quoted(mode: Mode) -> bool
    ensures { result ≡ is_quoted mode }
{
    match mode {
        Mode::Start => false,
        Mode::Outside => false,
        Mode::Quoted => true,
        Mode::OutsideLinear => false,
        Mode::QuotedLinear => true,
    }
}

/// The token that a word is.
#[tactic(auto, unfolding(crate::specs::Pieces::word))]
fn word(mode: Mode, letters: &[u8]) -> Token
    ensures { token_of result ≡ word mode letters.now }
{
    if is_quoted(mode) && letters == "_".as_bytes() {
        return Token::Symbol(Symbol::Wildcard);
    }
    match keyword(letters) {
        Some(symbol) => Token::Symbol(symbol),
        None => Token::Name(letters),
    }
}

fn sign(mode: Mode, bytes: &[u8]) -> Option<(Piece, usize)>
    ensures value { Finds result (sign_by (symbol_at mode bytes.now)) }
    ensures within { IfSome result (λ x. (0 < x.1) × (x.1 ≤ length bytes.now)) }
{
    match symbol_at(mode, bytes) {
        Some((symbol, n)) => Some((Piece::Token(Token::Symbol(symbol)), n)),
        None => None,
    }
}

/// A word of `n` bytes, or a symbol where `n` is 0.
#[tactic(auto, unfolding(crate::specs::Pieces::word_or_sign))]
fn word_or_sign(mode: Mode, n: usize, bytes: &[u8]) -> Option<(Piece, usize)>
    requires { n ≤ length bytes.now }
    ensures value { Finds result (word_or_sign mode n bytes.now) }
    ensures within { IfSome result (λ x. (0 < x.1) × (x.1 ≤ length bytes.now)) }
{
    if n == 0 {
        sign(mode, bytes)
    } else {
        let (letters, _) = bytes.split_at(n);
        Some((Piece::Token(word(mode, letters)), n))
    }
}

/// The piece that the bytes begin with, and its length.
#[tactic(auto, unfolding(crate::specs::Pieces::first_piece))]
pub fn first_piece(mode: Mode, bytes: &[u8]) -> Option<(Piece, usize)>
    ensures value { Finds result (first_piece mode bytes.now) }
    ensures within { IfSome result (λ x. (0 < x.1) × (x.1 ≤ length bytes.now)) }
{
    let [b, ..] = bytes else {
        return None;
    };
    if is_blank(*b) {
        Some((Piece::Gap, 1))
    } else if begins("(*", bytes) {
        comment(bytes)
    } else if is_digit(*b) {
        digits(bytes)
    } else {
        word_or_sign(mode, name_len(bytes), bytes)
    }
}
