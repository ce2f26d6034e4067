//! Words, separators and numbers.

ghost use Rattle.std.specs.Prelude.{◌≡◌, ◌↔◌, ◌≤◌, IsTrue, IfSome, IfOk, length};
ghost use Rattle.std.specs.Fmt.{decimal};
ghost use Rattle.std.specs.List.{prefix_len};
ghost use Rattle.std.specs.Str.{bytes_eq};
ghost use Rattle.pm_dtext.specs.Texts.{ReadsExactly, LeavesExactly, ReadsWord};
ghost use Rattle.pm_dtext.specs.Reading.{is_word_byte, word, after, expect_at, skip_at, says_at, part_at, HasPlainFront, number_of, up_to, units_of, index_of, literal_of, name_of};

use crate::fault::Fault;
use pm_logic::UNIT;
use pm_names::is_name;

fn word_len(bytes: &[u8]) -> usize
    ensures count { result ≡ prefix_len is_word_byte bytes.now }
    ensures within { result ≤ length bytes.now }
{
    bytes
        .iter()
        .take_while(|b| **b != b' ' && **b != b'\n')
        .count()
}

/// The word at the front, and what comes after it.
pub fn word_of(bytes: &[u8]) -> (&[u8], &[u8])
    ensures front { result.0.now ≡ word bytes.now }
    ensures rest { result.1.now ≡ after bytes.now }
{
    bytes.split_at(word_len(bytes))
}

/// Whether a word is this text.
pub fn is_text(word: &[u8], text: &str) -> bool
    ensures { result ≡ bytes_eq word.now text.now }
{
    word == text.as_bytes()
}

/// What follows a separator.
#[tactic(auto, unfolding(crate::specs::Reading::skip_at))]
pub fn skip(separator: u8, bytes: &[u8]) -> Result<&[u8], Fault>
    ensures { LeavesExactly result (skip_at separator bytes.now) }
{
    match bytes {
        [] => Err(Fault::Syntax(0)),
        [b, rest @ ..] => {
            if *b == separator {
                Ok(rest)
            } else {
                Err(Fault::Syntax(bytes.len()))
            }
        }
    }
}

/// What follows a word that has to be this text.
#[tactic(auto, unfolding(crate::specs::Reading::expect_at))]
pub fn expect<'a>(text: &str, bytes: &'a [u8]) -> Result<&'a [u8], Fault>
    ensures { LeavesExactly result (expect_at text.now bytes.now) }
{
    let (word, rest) = word_of(bytes);
    if is_text(word, text) {
        Ok(rest)
    } else {
        Err(Fault::Syntax(bytes.len()))
    }
}

/// Whether a word has no plus in front, and no zero before other digits.
fn has_plain_front(word: &[u8]) -> bool
    ensures { IsTrue result ↔ HasPlainFront word.now }
{
    if word.is_empty() {
        return true;
    }
    if word[0] == b'+' {
        return false;
    }
    word[0] != b'0' || word.len() == 1
}

/// The number that a word is the decimal form of.
#[tactic(auto, using(crate::proofs::Numbers::number_crooked, crate::proofs::Numbers::number_parsed, crate::proofs::Numbers::number_no_text))]
pub fn number_of(word: &[u8]) -> Option<u64>
    ensures { result ≡ number_of word.now }
{
    if !has_plain_front(word) {
        return None;
    }
    match std::str::from_utf8(word) {
        Ok(text) => text.parse::<u64>().ok(),
        Err(_) => None,
    }
}

/// The number, where it is at most this one.
#[tactic(auto, unfolding(crate::specs::Reading::up_to))]
fn up_to_of(most: u32, word: &[u8]) -> Option<u32>
    ensures value { result ≡ up_to most word.now }
    ensures within { IfSome result (λ n. n ≤ most) }
{
    match number_of(word) {
        Some(n) if n <= most as u64 => Some(n as u32),
        _ => None,
    }
}

#[tactic(auto, unfolding(crate::specs::Reading::units_of))]
fn units_of(word: &[u8]) -> Option<u32>
    ensures { result ≡ units_of word.now }
{
    match number_of(word) {
        Some(u) if 1 <= u && u <= UNIT as u64 => Some(u as u32),
        _ => None,
    }
}

/// The index of a variable, of which there are `vars`.
#[tactic(auto, unfolding(crate::specs::Reading::index_of))]
pub fn index_of(vars: u32, word: &[u8]) -> Option<u32>
    ensures { result ≡ index_of vars word.now }
{
    match number_of(word) {
        Some(i) if i < vars as u64 => Some(i as u32),
        _ => None,
    }
}

/// The i64 that a word is the decimal form of.
#[tactic(auto, unfolding(crate::specs::Reading::literal_of))]
pub fn literal_of(word: &[u8]) -> Option<i64>
    ensures { result ≡ literal_of word.now }
{
    match word {
        [] => None,
        [b'-', digits @ ..] => match number_of(digits) {
            Some(n) if 1 <= n && n <= 1 << 63 => Some(-((n - 1) as i64) - 1),
            _ => None,
        },
        _ => match number_of(word) {
            Some(n) if n < 1 << 63 => Some(n as i64),
            _ => None,
        },
    }
}

/// The number at the front, and what follows it.
#[tactic(auto, unfolding(crate::specs::Reading::says_at))]
pub fn number(bytes: &[u8]) -> Result<(u64, &[u8]), Fault>
    ensures { ReadsExactly result (says_at number_of bytes.now) }
{
    let (word, rest) = word_of(bytes);
    match number_of(word) {
        Some(n) => Ok((n, rest)),
        None => Err(Fault::Syntax(bytes.len())),
    }
}

/// The number at the front, which may be at most this one, and what follows it.
#[tactic(auto, unfolding(crate::specs::Reading::says_at))]
pub fn up_to(most: u32, bytes: &[u8]) -> Result<(u32, &[u8]), Fault>
    ensures reads { ReadsExactly result (says_at (up_to most) bytes.now) }
    ensures within { IfOk result (λ x. x.0 ≤ most) }
{
    let (word, rest) = word_of(bytes);
    match up_to_of(most, word) {
        Some(n) => Ok((n, rest)),
        None => Err(Fault::Syntax(bytes.len())),
    }
}

/// The units at the front, 1 to a whole, and what follows them.
#[tactic(auto, unfolding(crate::specs::Reading::says_at))]
fn units(bytes: &[u8]) -> Result<(u32, &[u8]), Fault>
    ensures { ReadsExactly result (says_at units_of bytes.now) }
{
    let (word, rest) = word_of(bytes);
    match units_of(word) {
        Some(u) => Ok((u, rest)),
        None => Err(Fault::Syntax(bytes.len())),
    }
}

/// Units behind a blank.
#[tactic(auto, unfolding(crate::specs::Reading::part_at))]
pub fn share(bytes: &[u8]) -> Result<(u32, &[u8]), Fault>
    ensures { ReadsExactly result (part_at (says_at units_of) bytes.now) }
{
    units(skip(b' ', bytes)?)
}

/// The literal at the front, and what follows it.
#[tactic(auto, unfolding(crate::specs::Reading::says_at))]
fn literal(bytes: &[u8]) -> Result<(i64, &[u8]), Fault>
    ensures { ReadsExactly result (says_at literal_of bytes.now) }
{
    let (word, rest) = word_of(bytes);
    match literal_of(word) {
        Some(z) => Ok((z, rest)),
        None => Err(Fault::Syntax(bytes.len())),
    }
}

/// A literal behind a blank.
#[tactic(auto, unfolding(crate::specs::Reading::part_at))]
pub fn factor(bytes: &[u8]) -> Result<(i64, &[u8]), Fault>
    ensures { ReadsExactly result (part_at (says_at literal_of) bytes.now) }
{
    literal(skip(b' ', bytes)?)
}

/// Whether a word is the decimal form of this number.
#[tactic(auto, using(crate::proofs::Numbers::number_is, crate::proofs::Numbers::number_isnt))]
fn is_number(word: &[u8], n: u64) -> bool
    ensures { result ≡ bytes_eq word.now (decimal n) }
{
    match number_of(word) {
        Some(m) => m == n,
        None => false,
    }
}

/// What follows a word that has to be this number.
#[tactic(auto, unfolding(crate::specs::Reading::expect_at))]
pub fn expect_number(n: u64, bytes: &[u8]) -> Result<&[u8], Fault>
    ensures { LeavesExactly result (expect_at (decimal n) bytes.now) }
{
    let (word, rest) = word_of(bytes);
    if is_number(word, n) {
        Ok(rest)
    } else {
        Err(Fault::Syntax(bytes.len()))
    }
}

/// The name at the front, and what follows it.
#[tactic(auto, unfolding(crate::specs::Reading::says_at, crate::specs::Reading::name_of))]
pub fn name(bytes: &[u8]) -> Result<(&[u8], &[u8]), Fault>
    ensures { ReadsWord result (says_at name_of bytes.now) }
{
    let (word, rest) = word_of(bytes);
    if is_name(word) {
        Ok((word, rest))
    } else {
        Err(Fault::Syntax(bytes.len()))
    }
}
