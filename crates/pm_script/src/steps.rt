//! Words in the middle of a sentence. `stop` is the offset in bytes at which the tokens end.

ghost use Rattle.std.specs.Prelude.{◌≡◌};
ghost use Rattle.pm_tokens.specs.Tokens.{places};
ghost use Rattle.pm_terms.specs.Steps.{LeavesExactly};
ghost use Rattle.pm_script.specs.SentenceReading.{sees_word, sees_keyword, expect_word};

use pm_terms::{TextFault, behind, sees, unexpected};
use pm_tokens::{Placed, Symbol, Token};

/// Whether this word is next.
#[tactic(auto, unfolding(crate::specs::SentenceReading::sees_word))]
pub fn sees_word(word: &str, tokens: &[Placed<'_>]) -> bool
    ensures { result ≡ sees_word word.now (places tokens.now) }
{
    let [first, ..] = tokens else {
        return false;
    };
    match first.token {
        Token::Name(name) => name == word.as_bytes(),
        Token::Number(_) => false,
        Token::Symbol(_) => false,
    }
}

/// Whether this word is next, before a quote.
#[tactic(auto, unfolding(crate::specs::SentenceReading::sees_keyword))]
pub fn sees_keyword(word: &str, tokens: &[Placed<'_>]) -> bool
    ensures { result ≡ sees_keyword word.now (places tokens.now) }
{
    sees_word(word, tokens) && sees(Symbol::Quote, behind(tokens))
}

/// The tokens behind this word, which must be next, else `Unexpected` at what is.
#[tactic(auto, unfolding(crate::specs::SentenceReading::expect_word))]
pub fn expect_word<'a>(
    word: &str,
    stop: usize,
    tokens: &'a [Placed<'a>],
) -> Result<&'a [Placed<'a>], TextFault>
    ensures { LeavesExactly result (expect_word stop word.now (places tokens.now)) }
{
    if sees_word(word, tokens) {
        Ok(behind(tokens))
    } else {
        Err(unexpected(stop, tokens))
    }
}
