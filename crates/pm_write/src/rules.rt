//! The texts of rules.

ghost use Rattle.std.specs.Prelude.{◌≡◌, [], ◌∷◌, ◌++◌, codes, OnOk, IfOk};
ghost use Rattle.std.specs.String.{string_bytes};
ghost use Rattle.std.specs.Fmt.{signed_decimal};
ghost use Rattle.pm_dtext.specs.Spelling.{term_text, literal_text, items_text, list_text, rule_name, args_text};

use crate::texts::{put, put_formula, put_term, put_terms};
use pm_logic::{Bytes, Memory, Term};
use pm_rules::Rule;
use std::alloc::Global;

/// The rule's name.
pub fn rule_word(rule: &Rule) -> &'static str
    ensures { result.now ≡ rule_name rule.now }
{
    match rule {
        Rule::Refl => "refl",
        Rule::Trans => "trans",
        Rule::Inst { .. } => "inst",
        Rule::True => "true",
        Rule::False => "false",
        Rule::AndL => "and-l",
        Rule::AndR => "and-r",
        Rule::AndI => "and-i",
        Rule::OrL => "or-l",
        Rule::OrR => "or-r",
        Rule::OrE => "or-e",
        Rule::ImpI => "imp-i",
        Rule::ImpE => "imp-e",
        Rule::AllI => "all-i",
        Rule::AllE { .. } => "all-e",
        Rule::ExI { .. } => "ex-i",
        Rule::ExE => "ex-e",
        Rule::SepMono => "sep-mono",
        Rule::SepComm => "sep-comm",
        Rule::SepAssocR => "sep-assoc-r",
        Rule::SepAssocL => "sep-assoc-l",
        Rule::SepUnit => "sep-unit",
        Rule::SepWeaken => "sep-weaken",
        Rule::WandI => "wand-i",
        Rule::WandE => "wand-e",
        Rule::LaterMono => "later-mono",
        Rule::LaterIntro => "later-intro",
        Rule::Loeb => "loeb",
        Rule::LaterSep => "later-sep",
        Rule::SepLater => "sep-later",
        Rule::LaterAnd => "later-and",
        Rule::LaterOr => "later-or",
        Rule::LaterAll => "later-all",
        Rule::LaterEx => "later-ex",
        Rule::PersMono => "pers-mono",
        Rule::PersElim => "pers-elim",
        Rule::PersIdem => "pers-idem",
        Rule::PersDup => "pers-dup",
        Rule::PersPure => "pers-pure",
        Rule::PersAnd => "pers-and",
        Rule::PersOr => "pers-or",
        Rule::PersAll => "pers-all",
        Rule::PersEx => "pers-ex",
        Rule::PersLater => "pers-later",
        Rule::LaterPers => "later-pers",
        Rule::UpdMono => "upd-mono",
        Rule::UpdIntro => "upd-intro",
        Rule::UpdTrans => "upd-trans",
        Rule::UpdFrame => "upd-frame",
        Rule::UpdPure => "upd-pure",
        Rule::PureAnd => "pure-and",
        Rule::AndPure => "and-pure",
        Rule::PureOr => "pure-or",
        Rule::OrPure => "or-pure",
        Rule::Not => "not",
        Rule::Em => "em",
        Rule::Linear { .. } => "linear",
        Rule::Rewrite { .. } => "rewrite",
        Rule::PtsSplit => "pts-split",
        Rule::PtsJoin => "pts-join",
        Rule::PtsAgree => "pts-agree",
        Rule::PtsOver => "pts-over",
        Rule::PtsWrite => "pts-write",
        Rule::PtsNew => "pts-new",
        Rule::Fold => "fold",
        Rule::Unfold => "unfold",
        Rule::Timeless => "timeless",
    }
}

/// A factor behind a blank.
fn factor_word(alloc: Global, factor: &i64) -> Result<String, Memory>
    ensures { IfOk result (λ text. string_bytes text ≡ codes " " ++ signed_decimal factor.now) }
{
    Ok(format!(in alloc; " {factor}")?)
}

/// Factors, each behind a blank.
fn put_factors(alloc: Global, out: &mut Bytes, factors: &[i64]) -> Result<(), Memory>
    ensures { OnOk result (out.new ≡ out.old ++ items_text literal_text factors.now []) }
{
    match factors {
        [] => Ok(()),
        [factor, rest @ ..] => {
            let word = factor_word(alloc, factor)?;
            put(out, word.as_str())?;
            put_factors(alloc, out, rest)
        }
    }
}

/// A list of factors, behind a blank and its length.
fn put_counted_factors(alloc: Global, out: &mut Bytes, factors: &[i64]) -> Result<(), Memory>
    ensures { OnOk result (out.new ≡ out.old ++ (32 ∷ list_text literal_text factors.now [])) }
{
    let count = factors.len();
    put(out, format!(in alloc; " {count}")?.as_str())?;
    put_factors(alloc, out, factors)
}

/// A list of terms, behind a blank and its length.
fn put_counted_terms(alloc: Global, out: &mut Bytes, terms: &[Term]) -> Result<(), Memory>
    ensures { OnOk result (out.new ≡ out.old ++ (32 ∷ list_text term_text terms.now [])) }
{
    let count = terms.len();
    put(out, format!(in alloc; " {count}")?.as_str())?;
    put_terms(alloc, out, terms)
}

/// What the rule takes besides its premises and its conclusion, each part behind a blank.
#[tactic(auto, unfolding(pm_dtext::specs::Spelling::args_text))]
pub fn put_arguments(alloc: Global, out: &mut Bytes, rule: &Rule) -> Result<(), Memory>
    ensures { OnOk result (out.new ≡ out.old ++ args_text rule.now []) }
{
    match rule {
        Rule::Inst { sigma } => put_counted_terms(alloc, out, sigma.as_slice()),
        Rule::AllE { t } => {
            put(out, " ")?;
            put_term(alloc, out, t)
        }
        Rule::ExI { t } => {
            put(out, " ")?;
            put_term(alloc, out, t)
        }
        Rule::Linear { first, second } => {
            put_counted_factors(alloc, out, first.as_slice())?;
            put_counted_factors(alloc, out, second.as_slice())
        }
        Rule::Rewrite { template } => {
            put(out, " ")?;
            put_formula(alloc, out, template)
        }
        _ => Ok(()),
    }
}
