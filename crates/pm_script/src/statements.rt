//! Sentences, from their first word on.

ghost use Rattle.std.specs.Prelude.{◌≡◌, ◌≤◌, ◌<◌, [], length, None};
ghost use Rattle.pm_logic.specs.declared.limits.TheConstants.{MAX_SENTENCE};
ghost use Rattle.pm_tokens.specs.Tokens.{places};
ghost use Rattle.pm_terms.specs.Scope.{callables};
ghost use Rattle.pm_terms.specs.Steps.{ReadsAs};
ghost use Rattle.pm_text.specs.declared.level.Level.TheVariants.{Wands};
ghost use Rattle.pm_text.specs.FormulaReading.{formula_in};
ghost use Rattle.pm_script.specs.Words.{form_of, sentence_form_of};
ghost use Rattle.pm_script.specs.SentenceReading as spec;

use crate::directives::directive_in;
use crate::predicates::{ReadSentence, predicate};
use crate::sentence::Sentence;
use crate::trees::{ReadFormula, ReadIn, formula_at, measured};
use crate::words::{SentenceForm, form_of, sentence_form_of};
use pm_logic::{Formula, MAX_LEVELS, wand};
use pm_name_sets::NameIndex;
use pm_patterns::name_in;
use pm_terms::{Context, TextFault, behind, expect, read_natural, sees, unexpected};
use pm_tokens::{Placed, Symbol, Token};

/// A formula with no variables, before which so many constructs may be opened.
fn closed_formula<'a>(context: &Context<'_>, room: u32, tokens: &'a [Placed<'a>]) -> ReadFormula<'a>
    requires { room < 1000 }
    ensures { ReadsAs result (formula_in context.now.stop (callables 0 context.now.preds.now) room Wands [] (places tokens.now)) }
{
    let inside = Context {
        alloc: context.alloc,
        stop: context.stop,
        vars: NameIndex::new(context.alloc, &[])?,
        preds: context.preds,
        own: None,
    };
    formula_at(&inside, room, tokens)
}

/// `⊢ F` behind a formula, if it stands there.
#[tactic(auto, unfolding(crate::specs::SentenceReading::conclusion))]
fn conclusion<'a>(context: &Context<'_>, f: Formula, tokens: &'a [Placed<'a>]) -> ReadFormula<'a>
    ensures { ReadsAs result (spec.conclusion context.now.stop context.now.preds.now context.now.vars f (places tokens.now)) }
{
    if !sees(Symbol::Entails, tokens) {
        return Ok((f, tokens));
    }
    let (g, rest) = closed_formula(context, MAX_LEVELS - 1, behind(tokens))?;
    Ok((wand(context.alloc, f, g)?, rest))
}

/// `F` or `F ⊢ F`, with no variables.
#[tactic(auto, unfolding(crate::specs::SentenceReading::statement))]
fn statement<'a>(context: &Context<'_>, tokens: &'a [Placed<'a>]) -> ReadFormula<'a>
    ensures { ReadsAs result (spec.statement context.now.stop context.now.preds.now context.now.vars (places tokens.now)) }
{
    let (f, rest) = closed_formula(context, MAX_LEVELS, tokens)?;
    conclusion(context, f, rest)
}

#[tactic(auto, unfolding(crate::specs::SentenceReading::statement_tree))]
fn statement_tree<'a>(context: &Context<'_>, tokens: &'a [Placed<'a>]) -> ReadIn<'a, Formula>
    ensures { ReadsAs result (spec.statement_tree context.now.stop context.now.preds.now context.now.vars (places tokens.now)) }
{
    let (f, rest) = statement(context, tokens)?;
    Ok((measured(f, context.stop, tokens), rest))
}

/// `n : F` or `n : F ⊢ F`.
#[tactic(auto, unfolding(crate::specs::SentenceReading::lemma))]
fn lemma<'a>(context: &Context<'_>, tokens: &'a [Placed<'a>]) -> ReadSentence<'a>
    ensures { ReadsAs result (spec.lemma context.now.stop context.now.preds.now context.now.vars (places tokens.now)) }
{
    let (name, rest) = name_in(context.alloc, context.stop, tokens)?;
    let rest = expect(Symbol::Colon, context.stop, rest)?;
    let ((statement, deep), rest) = statement_tree(context, rest)?;
    Ok(((Sentence::Lemma { name, statement }, deep), rest))
}

/// A number of steps, one where none is named.
#[tactic(auto, unfolding(crate::specs::SentenceReading::undo))]
fn undo<'a>(context: &Context<'_>, tokens: &'a [Placed<'a>]) -> ReadSentence<'a>
    ensures { ReadsAs result (spec.undo context.now.stop context.now.preds.now context.now.vars (places tokens.now)) }
{
    match tokens {
        [] => Ok(((Sentence::Undo(1), None), tokens)),
        [_, ..] => {
            let (steps, rest) = read_natural(context.stop, tokens)?;
            Ok(((Sentence::Undo(steps), None), rest))
        }
    }
}

/// The sentence of this form, behind its first word.
#[tactic(auto, unfolding(crate::specs::SentenceReading::formed))]
fn formed<'a>(
    context: &Context<'_>,
    form: SentenceForm,
    tokens: &'a [Placed<'a>],
) -> ReadSentence<'a>
    requires { length tokens.now ≤ MAX_SENTENCE }
    ensures { ReadsAs result (spec.formed context.now.stop context.now.preds.now context.now.vars form (places tokens.now)) }
{
    match form {
        SentenceForm::Predicate => predicate(context, tokens),
        SentenceForm::Lemma => lemma(context, tokens),
        SentenceForm::Proof => Ok(((Sentence::Proof, None), tokens)),
        SentenceForm::Qed => Ok(((Sentence::Qed, None), tokens)),
        SentenceForm::Abort => Ok(((Sentence::Abort, None), tokens)),
        SentenceForm::Restart => Ok(((Sentence::Restart, None), tokens)),
        SentenceForm::Show => Ok(((Sentence::Show, None), tokens)),
        SentenceForm::Undo => undo(context, tokens),
    }
}

/// A directive, behind its first word, which is at this offset.
fn directive<'a>(
    context: &Context<'_>,
    at: usize,
    word: &[u8],
    tokens: &'a [Placed<'a>],
) -> ReadSentence<'a>
    requires { context.now.own ≡ None }
    ensures { ReadsAs result (spec.directive_by context.now.stop context.now.preds.now context.now.vars at (form_of word.now) (places tokens.now)) }
{
    match form_of(word) {
        Some(form) => {
            let ((directive, deep), rest) = directive_in(context, form, tokens)?;
            Ok(((Sentence::Directive(directive), deep), rest))
        }
        None => Err(TextFault::Unexpected(at as u64)),
    }
}

/// Behind the first word, which is at this offset.
fn worded<'a>(
    context: &Context<'_>,
    at: usize,
    word: &[u8],
    tokens: &'a [Placed<'a>],
) -> ReadSentence<'a>
    requires short { length tokens.now ≤ MAX_SENTENCE }
    requires outside { context.now.own ≡ None }
    ensures { ReadsAs result (spec.sentence_by context.now.stop context.now.preds.now context.now.vars at word.now (sentence_form_of word.now) (places tokens.now)) }
{
    match sentence_form_of(word) {
        Some(form) => formed(context, form, tokens),
        None => directive(context, at, word, tokens),
    }
}

/// A brace.
#[tactic(auto, unfolding(crate::specs::SentenceReading::brace_in))]
fn brace_in<'a>(stop: usize, tokens: &'a [Placed<'a>]) -> ReadSentence<'a>
    ensures { ReadsAs result (spec.brace_in stop (places tokens.now)) }
{
    if sees(Symbol::OpenBrace, tokens) {
        Ok(((Sentence::Enter, None), behind(tokens)))
    } else if sees(Symbol::CloseBrace, tokens) {
        Ok(((Sentence::Leave, None), behind(tokens)))
    } else {
        Err(unexpected(stop, tokens))
    }
}

/// A sentence outside the body of a predicate.
#[tactic(auto, unfolding(crate::specs::SentenceReading::sentence_in))]
pub fn sentence_in<'a>(context: &Context<'_>, tokens: &'a [Placed<'a>]) -> ReadSentence<'a>
    requires short { length tokens.now ≤ MAX_SENTENCE }
    requires outside { context.now.own ≡ None }
    ensures { ReadsAs result (spec.sentence_in context.now.stop context.now.preds.now context.now.vars (places tokens.now)) }
{
    let [first, rest @ ..] = tokens else {
        return Err(TextFault::Unexpected(context.stop as u64));
    };
    match first.token {
        Token::Name(word) => worded(context, first.at, word, rest),
        Token::Number(_) => Err(TextFault::Unexpected(first.at as u64)),
        Token::Symbol(_) => brace_in(context.stop, tokens),
    }
}
