//! Parameters and the lines of predicates and statements.

ghost use Rattle.std.specs.Prelude.{◌≡◌, ◌≤◌, [], ◌∷◌, ◌++◌, IfOk, OnOk};
ghost use Rattle.pm_logic.specs.declared.formula.TheConstants.{BOUND};
ghost use Rattle.pm_logic.specs.Size.{depth_of};
ghost use Rattle.pm_tokens.specs.declared.symbol.Symbol.TheVariants as s;
ghost use Rattle.pm_tokens.specs.Tokens.{name};
ghost use Rattle.pm_print.specs.Printing.{blank, token, between, text_of, binder_name, formula_text};
ghost use Rattle.pm_print.specs.Lines.{parameters, names_pieces, predicate_pieces, lemma_pieces, predicate_line, lemma_line};
ghost use Rattle.pm_print.specs.Parts.{separator};

use crate::formulas::add_formula;
use crate::sign::Sign;
use crate::text::{add, add_binder, add_sign};
use pm_logic::{Bytes, Formula, List, Memory, Name, Pred};
use std::alloc::Global;

/// A comma before a parameter that isn't the first.
#[tactic(auto, using(crate::proofs::LineCases::separator_none, crate::proofs::LineCases::separator_some, std::proofs::lemmas::Grind::common_steps))]
fn separate(text: &mut Bytes, i: u32) -> Result<(), Memory>
    ensures { OnOk result (text.new ≡ text.old ++ text_of (separator i)) }
{
    if i == 0 {
        Ok(())
    } else {
        add_sign(text, Sign::Comma)
    }
}

/// So many parameters, with commas between.
#[tactic(auto, using(crate::proofs::LineCases::parameter_rules))]
fn add_parameters(text: &mut Bytes, arity: u32) -> Result<(), Memory>
    ensures { OnOk result (text.new ≡ text.old ++ text_of (names_pieces (parameters arity))) }
{
    for i in 0..arity {
        separate(text, i)?;
        add_binder(text, i as usize)?;
    }
    Ok(())
}

/// The name of a binder around which there are so many variables.
#[tactic(auto, using(crate::proofs::Named::name_text))]
fn binder_name(alloc: Global, around: u32) -> Result<Name, Memory>
    ensures { IfOk result (λ name. name ≡ binder_name around) }
{
    let mut text = Bytes::new(alloc);
    add_binder(&mut text, around as usize)?;
    Name::from_bytes(alloc, text.as_slice())
}

/// The names of so many parameters.
#[tactic(auto, using(crate::proofs::LineCases::parameter_rules))]
fn parameters(alloc: Global, arity: u32) -> Result<List<Name>, Memory>
    ensures { IfOk result (λ names. names ≡ parameters arity) }
{
    let mut names = List::new(alloc);
    for i in 0..arity {
        let name = binder_name(alloc, i)?;
        names.push(name)?;
    }
    Ok(names)
}

#[tactic(auto, using(crate::proofs::Named::no_binders))]
fn add_whole(text: &mut Bytes, preds: &[Pred], vars: &[Name], f: &Formula) -> Result<(), Memory>
    requires { depth_of f.now ≤ BOUND }
    ensures { OnOk result (text.new ≡ text.old ++ formula_text preds.now vars.now f.now) }
{
    add_formula(text, preds, 0, vars, 0, f)
}

/// A line's first word and the name behind it.
fn add_head(text: &mut Bytes, word: &[u8], named: &Name) -> Result<(), Memory>
    ensures { OnOk result (text.new ≡ text.old ++ text_of (token (name word.now) ∷ blank ∷ token (name named.now) ∷ [])) }
{
    add(text, word)?;
    add(text, b" ")?;
    add(text, named.bytes())
}

fn add_list(text: &mut Bytes, arity: u32) -> Result<(), Memory>
    ensures { OnOk result (text.new ≡ text.old ++ text_of (between s.Open s.Close (names_pieces (parameters arity)))) }
{
    add_sign(text, Sign::Open)?;
    add_parameters(text, arity)?;
    add_sign(text, Sign::Close)
}

fn add_definition(
    text: &mut Bytes,
    vars: &[Name],
    pred: &Pred,
    preds: &[Pred],
) -> Result<(), Memory>
    requires names { vars.now ≡ parameters pred.now.arity }
    requires within { depth_of pred.now.body ≤ BOUND }
    ensures { OnOk result (text.new ≡ text.old ++ text_of (predicate_pieces preds.now pred.now)) }
{
    add_head(text, b"Predicate", &pred.name)?;
    add_list(text, pred.arity)?;
    add_sign(text, Sign::Defines)?;
    add_whole(text, preds, vars, &pred.body)
}

fn add_statement(
    text: &mut Bytes,
    vars: &[Name],
    name: &Name,
    f: &Formula,
    preds: &[Pred],
) -> Result<(), Memory>
    requires names { vars.now ≡ [] }
    requires within { depth_of f.now ≤ BOUND }
    ensures { OnOk result (text.new ≡ text.old ++ text_of (lemma_pieces preds.now name.now f.now)) }
{
    add_head(text, b"Lemma", name)?;
    add_sign(text, Sign::Colon)?;
    add_whole(text, preds, vars, f)
}

pub fn add_predicate_line(
    alloc: Global,
    text: &mut Bytes,
    pred: &Pred,
    preds: &[Pred],
) -> Result<(), Memory>
    requires { depth_of pred.now.body ≤ BOUND }
    ensures { OnOk result (text.new ≡ text.old ++ predicate_line preds.now pred.now) }
{
    let vars = parameters(alloc, pred.arity)?;
    add_definition(text, vars.as_slice(), pred, preds)?;
    add(text, b".\n")
}

pub fn add_lemma_line(
    alloc: Global,
    text: &mut Bytes,
    name: &Name,
    f: &Formula,
    preds: &[Pred],
) -> Result<(), Memory>
    requires { depth_of f.now ≤ BOUND }
    ensures { OnOk result (text.new ≡ text.old ++ lemma_line preds.now name.now f.now) }
{
    let vars = List::new(alloc);
    add_statement(text, vars.as_slice(), name, f, preds)?;
    add(text, b".\n")
}
