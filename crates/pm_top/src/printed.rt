//! What is written for a derivation that is accepted.

ghost use Rattle.std.specs.Prelude.{◌≡◌, ◌++◌, All, IfOk, OnOk};
ghost use Rattle.pm_top.specs.Printed.{IsShallowPredicate, IsShallowStatement, AreShallow, predicate_lines, statement_lines, accepted_line, accepted_text};

use pm_check::{Checked, Statement};
use pm_logic::{Bytes, Memory, Preds};
use pm_print::{print_lemma, print_predicate};
use std::alloc::Global;

/// Appends the line of each predicate.
fn add_predicates(alloc: Global, preds: &Preds, text: &mut Bytes) -> Result<(), Memory>
    requires { All IsShallowPredicate preds.now.list }
    ensures { OnOk result (text.new ≡ text.old ++ predicate_lines preds.now.list) }
{
    let list = preds.list.as_slice();
    for pred in list {
        print_predicate(alloc, pred, preds, text)?;
    }
    Ok(())
}

/// Appends the line of each statement over the table.
fn add_statements(
    alloc: Global,
    preds: &Preds,
    statements: &[Statement],
    text: &mut Bytes,
) -> Result<(), Memory>
    requires { All IsShallowStatement statements.now }
    ensures { OnOk result (text.new ≡ text.old ++ statement_lines preds.now.list statements.now) }
{
    for statement in statements {
        print_lemma(alloc, &statement.name, &statement.formula, preds, text)?;
    }
    Ok(())
}

/// Appends the line that says how many statements are accepted.
fn add_count(alloc: Global, count: usize, text: &mut Bytes) -> Result<(), Memory>
    ensures { OnOk result (text.new ≡ text.old ++ accepted_line count) }
{
    let line = format!(in alloc; "accepted: {count} statements\n")?;
    text.extend(line.as_bytes())
}

/// The lines for a derivation: its predicates, its statements, and how many statements there are.
pub fn accepted(alloc: Global, checked: &Checked) -> Result<Bytes, Memory>
    requires { AreShallow checked.now.preds checked.now.statements }
    ensures { IfOk result (λ text. text ≡ accepted_text checked.now.preds checked.now.statements) }
{
    let mut text = Bytes::new(alloc);
    add_predicates(alloc, &checked.preds, &mut text)?;
    add_statements(
        alloc,
        &checked.preds,
        checked.statements.as_slice(),
        &mut text,
    )?;
    add_count(alloc, checked.statements.len(), &mut text)?;
    Ok(text)
}
