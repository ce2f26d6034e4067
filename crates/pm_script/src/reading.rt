//! Whole sentences.

ghost use Rattle.std.specs.Prelude.{◌≡◌, ◌+◌, ◌<◌, ◌≤◌, ◌^◌, length, None};
ghost use Rattle.pm_logic.specs.declared.limits.TheConstants.{MAX_NAMES, MAX_SENTENCE, MAX_TABLE};
ghost use Rattle.pm_tokens.specs.Tokens.{places};
ghost use Rattle.pm_terms.specs.Steps.{ReadsWhole, all_of};
ghost use Rattle.pm_script.specs.SentenceReading.{sentence_in, sentence_of, read_sentence};

use crate::sentence::Sentence;
use crate::statements::sentence_in;
use pm_logic::{List, Name, Preds};
use pm_terms::{Context, TextFault, is_whole, unexpected};
use pm_text::{Readable, read_text};
use pm_tokens::Placed;
use std::alloc::Global;

/// The sentence of all tokens of a text of length `end`, with the offset of its tree that is too deep.
#[tactic(auto, unfolding(pm_terms::specs::Steps::all_of))]
fn all_in(
    context: &Context<'_>,
    end: usize,
    tokens: &[Placed<'_>],
) -> Result<(Sentence, Option<u64>), TextFault>
    requires short { length tokens.now ≤ MAX_SENTENCE }
    requires outside { context.now.own ≡ None }
    ensures { ReadsWhole result (all_of end context.now.stop (sentence_in context.now.stop context.now.preds.now context.now.vars (places tokens.now))) }
{
    let (read, rest) = sentence_in(context, tokens)?;
    if is_whole(end, context.stop, rest) {
        Ok(read)
    } else {
        Err(unexpected(context.stop, rest))
    }
}

/// The sentence of all tokens of a text of length `end`.
#[tactic(auto, unfolding(crate::specs::SentenceReading::sentence_of))]
fn whole_sentence(
    context: &Context<'_>,
    end: usize,
    tokens: &[Placed<'_>],
) -> Result<Sentence, TextFault>
    requires short { length tokens.now ≤ MAX_SENTENCE }
    requires outside { context.now.own ≡ None }
    ensures { ReadsWhole result (sentence_of context.now.preds.now context.now.vars end context.now.stop (places tokens.now)) }
{
    let (sentence, deep) = all_in(context, end, tokens)?;
    match deep {
        Some(at) => Err(TextFault::Deep(at)),
        None => Ok(sentence),
    }
}

impl Readable for Sentence {
    ghost most = { MAX_SENTENCE };

    ghost whole = { sentence_of };

    fn whole(
        context: &Context<'_>,
        end: usize,
        tokens: &[Placed<'_>],
    ) -> Result<Sentence, TextFault> {
        whole_sentence(context, end, tokens)
    }
}

/// Reads a text as one sentence, without its full stop, over these variables, index 0 first, and the predicates of the
/// table. A fault is the text's first, at the offset of its byte with `base` added: see `TextFault`. `Memory` says that
/// memory ran out, and is the only fault that the text doesn't decide.
#[tactic(auto, unfolding(crate::specs::SentenceReading::read_sentence))]
pub fn read_sentence(
    alloc: Global,
    text: &[u8],
    base: u64,
    vars: &List<Name>,
    preds: &Preds,
) -> Result<Sentence, TextFault>
    requires place { base + length text.now < 2 ^ 64 }
    requires short { length text.now ≤ MAX_SENTENCE }
    requires few_vars { length vars.now ≤ MAX_NAMES }
    requires few_preds { length preds.now.list ≤ MAX_TABLE }
    ensures { ReadsWhole result (read_sentence base preds.now.list vars.now text.now) }
{
    read_text(alloc, text, base, vars, preds)
}
