//! The characters of bytes, names and numbers.

ghost use Rattle.std.specs.Prelude.{◌≡◌, ℕ, ◌≤◌, ◌<◌, take, length, IfSome};
ghost use Rattle.std.specs.List.{prefix_len};
ghost use Rattle.std.specs.Str.{chars};
ghost use Rattle.pm_tokens.specs.Characters.{one, only_char, front_char, first_char, run, name_len, is_digit, number_of};

use pm_names::{continues_name, starts_name};

/// The character of a text that has one.
fn one(text: &str) -> Option<char>
    ensures { result ≡ one (chars text.now) }
{
    let mut rest = text.chars();
    match rest.next() {
        None => None,
        Some(first) => match rest.next() {
            None => Some(first),
            Some(_) => None,
        },
    }
}

/// The character that the bytes spell, if they spell one.
#[tactic(auto, unfolding(crate::specs::Characters::only_char))]
fn only_char(bytes: &[u8]) -> Option<char>
    ensures { result ≡ only_char bytes.now }
{
    match std::str::from_utf8(bytes) {
        Ok(text) => one(text),
        Err(_) => None,
    }
}

/// The character that the first `n` bytes spell, and `n`.
#[tactic(auto, unfolding(crate::specs::Characters::front_char))]
fn front_char(n: usize, bytes: &[u8]) -> Option<(char, usize)>
    ensures value { result ≡ front_char n bytes.now }
    ensures within { IfSome result (λ x. (x.1 ≡ n) × (n ≤ length bytes.now)) }
{
    if n <= bytes.len() {
        match only_char(&bytes[..n]) {
            Some(c) => Some((c, n)),
            None => None,
        }
    } else {
        None
    }
}

/// The first character of the bytes and its length, if they begin with one.
#[tactic(auto, unfolding(crate::specs::Characters::first_char))]
pub fn first_char(bytes: &[u8]) -> Option<(char, usize)>
    ensures value { result ≡ first_char bytes.now }
    ensures within { IfSome result (λ x. (0 < x.1) × (x.1 ≤ length bytes.now)) }
{
    if let Some(found) = front_char(1, bytes) {
        return Some(found);
    }
    if let Some(found) = front_char(2, bytes) {
        return Some(found);
    }
    if let Some(found) = front_char(3, bytes) {
        return Some(found);
    }
    front_char(4, bytes)
}

/// How many bytes the characters at the front take that continue a name.
fn run(bytes: &[u8]) -> usize
    ensures value { result ≡ run 0 bytes.now }
    ensures within { result ≤ length bytes.now }
{
    let mut rest = bytes;
    let mut found = 0;
    while let Some((c, len)) = first_char(rest) {
        if !continues_name(c) {
            break;
        }
        found += len;
        let (_, after) = rest.split_at(len);
        rest = after;
    }
    found
}

/// The length of the name at the front, 0 where none begins there.
#[tactic(auto, unfolding(crate::specs::Characters::name_len))]
pub fn name_len(bytes: &[u8]) -> usize
    ensures value { result ≡ name_len bytes.now }
    ensures within { result ≤ length bytes.now }
{
    match first_char(bytes) {
        Some((c, len)) => {
            if starts_name(c) {
                len + run(bytes.split_at(len).1)
            } else {
                0
            }
        }
        None => 0,
    }
}

pub fn is_digit(b: u8) -> bool
    ensures { result ≡ is_digit b }
{
    b'0' <= b && b <= b'9'
}

pub fn digit_count(bytes: &[u8]) -> usize
    ensures count { result ≡ prefix_len is_digit bytes.now }
    ensures within { result ≤ length bytes.now }
{
    bytes.iter().take_while(|b| is_digit(**b)).count()
}

/// The number that digits write, cut at the greatest of its type.
pub fn number(mut digits: &[u8]) -> u64
    ensures { result ≡ number_of digits.entry.now }
{
    let mut n: u64 = 0;
    while let [d, rest @ ..] = digits {
        n = n
            .saturating_mul(10)
            .saturating_add(d.saturating_sub(b'0') as u64);
        digits = rest;
    }
    n
}
