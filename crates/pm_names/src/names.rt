//! Names of predicates, statements and variables.

ghost use Rattle.std.specs.Prelude.{◌≡◌};
ghost use Rattle.std.specs.Str.{bytes_eq, chars};
ghost use Rattle.pm_names.specs.Names.{starts_name, continues_name, is_identifier, is_reserved, is_name};

use unicode_ident::{is_xid_continue, is_xid_start};

/// Whether a name may start with the character: it may start an identifier, or is `_`.
pub fn starts_name(c: char) -> bool
    ensures { result ≡ starts_name c }
{
    is_xid_start(c) || c == '_'
}

/// Whether a name may go on with the character: it may continue an identifier, or is `'`.
pub fn continues_name(c: char) -> bool
    ensures { result ≡ continues_name c }
{
    is_xid_continue(c) || c == '\''
}

fn is_identifier(text: &str) -> bool
    ensures { result ≡ is_identifier (chars text.now) }
{
    let mut rest = text.chars();
    match rest.next() {
        Some(first) => starts_name(first) && rest.all(continues_name),
        None => false,
    }
}

fn is_word(word: &[u8], text: &str) -> bool
    ensures { result ≡ bytes_eq word.now text.now }
{
    word == text.as_bytes()
}

#[tactic(auto, unfolding(crate::specs::Names::is_reserved))]
fn is_reserved(word: &[u8]) -> bool
    ensures { result ≡ is_reserved word.now }
{
    is_word(word, "forall")
        || is_word(word, "exists")
        || is_word(word, "emp")
        || is_word(word, "True")
        || is_word(word, "False")
}

/// Whether the bytes are a name: UTF-8 of a character that may start an identifier or `_`, then characters that may
/// continue one, or `'`. The words `forall`, `exists`, `emp`, `True` and `False` are no names.
#[tactic(auto, unfolding(crate::specs::Names::is_name))]
pub fn is_name(text: &[u8]) -> bool
    ensures { result ≡ is_name text.now }
{
    match std::str::from_utf8(text) {
        Ok(word) => is_identifier(word) && !is_reserved(text),
        Err(_) => false,
    }
}
