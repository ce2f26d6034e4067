//! The answer to an input.

ghost use Rattle.std.specs.Prelude.{◌≡◌, ◌≤◌, length, IfOk};
ghost use Rattle.pm_check.specs.Lines.{failed_rule};
ghost use Rattle.pm_run.specs.Coming.{limit};
ghost use Rattle.pm_top.specs.Answers.{offence_line, Runs};
ghost use Rattle.pm_top.specs.Offences.{IsNamed, NamesRule, Tells};
ghost use Rattle.pm_top.specs.RunTexts.{row_text, name_text, refusal_line, fault_line};

use crate::status::Status;
use pm_check::{CheckFault, Failed};
use pm_dtext::rule_name;
use pm_goal::{Refusal, Row};
use pm_logic::{Bytes, Memory, Name};
use pm_run::{Ran, run_script};
use pm_terms::TextFault;
use std::alloc::Global;

/// How many bytes a derivation may have.
const MOST: u64 = 1 << 63;

/// The line of a proof line or statement that doesn't follow.
#[tactic(auto, using(crate::proofs::Offences::named), unfolding(crate::specs::Answers::offence_line))]
fn refused(alloc: Global, line: u64, failed: Failed) -> Result<Bytes, Memory>
    requires { IsNamed (failed_rule failed) }
    ensures { IfOk result (λ text. text ≡ offence_line (CheckFault.Refused line failed)) }
{
    let name = rule_name(failed.rule());
    let condition = failed.condition();
    let text = format!(in alloc; "refused: line {line}: {name} condition {condition}\n")?;
    Bytes::from_slice(alloc, text.as_bytes())
}

/// The line of a fault that has no rule.
#[tactic(auto, unfolding(crate::specs::Answers::offence_line))]
fn fault_line(alloc: Global, fault: CheckFault) -> Result<Bytes, Memory>
    requires { NamesRule fault }
    ensures { IfOk result (λ text. text ≡ offence_line fault) }
{
    let text = match fault {
        CheckFault::Syntax(at) => format!(in alloc; "unreadable at {at}: syntax\n")?,
        CheckFault::Deep(at) => format!(in alloc; "unreadable at {at}: deep\n")?,
        CheckFault::Refused { line, failed } => return refused(alloc, line, failed),
        CheckFault::NoLine { line, cited } => {
            format!(in alloc; "refused: line {line} cites {cited}\n")?
        }
        CheckFault::Unguarded(p) => { format!(in alloc; "refused: predicate {p} is unguarded\n")? }
        CheckFault::Long => return Bytes::from_slice(alloc, b"too long\n"),
        CheckFault::Read | CheckFault::Memory => return Ok(Bytes::new(alloc)),
    };
    Bytes::from_slice(alloc, text.as_bytes())
}

/// What `check` answers to a fault, and the line that it writes for it; the error is the status where nothing is written.
#[tactic(auto, unfolding(crate::specs::Answers::offence_status, crate::specs::Offences::IsTold))]
pub fn offence(alloc: Global, fault: CheckFault) -> Result<(Status, Bytes), Status>
    requires { NamesRule fault }
    ensures { Tells fault result }
{
    let Ok(line) = fault_line(alloc, fault) else {
        return Err(Status::Memory);
    };
    match fault {
        CheckFault::Syntax(_) => Ok((Status::Unreadable, line)),
        CheckFault::Deep(_) => Ok((Status::Unreadable, line)),
        CheckFault::Refused { .. } => Ok((Status::Refused, line)),
        CheckFault::NoLine { .. } => Ok((Status::Refused, line)),
        CheckFault::Unguarded(_) => Ok((Status::Refused, line)),
        CheckFault::Long => Ok((Status::TooLong, line)),
        CheckFault::Read => Err(Status::ReadFault),
        CheckFault::Memory => Err(Status::Memory),
    }
}

/// The line of a fault of a text. Want of memory is none, and has no line.
#[tactic(auto, unfolding(crate::specs::RunTexts::fault_line))]
pub fn unreadable(alloc: Global, fault: TextFault) -> Result<Bytes, Memory>
    ensures { IfOk result (λ text. text ≡ fault_line fault) }
{
    let text = match fault {
        TextFault::Unexpected(at) => format!(in alloc; "unreadable at {at}: unexpected\n")?,
        TextFault::Unbound(at) => format!(in alloc; "unreadable at {at}: unbound\n")?,
        TextFault::Number(at) => format!(in alloc; "unreadable at {at}: number\n")?,
        TextFault::Fraction(at) => format!(in alloc; "unreadable at {at}: fraction\n")?,
        TextFault::Arity(at) => format!(in alloc; "unreadable at {at}: arity\n")?,
        TextFault::Deep(at) => format!(in alloc; "unreadable at {at}: deep\n")?,
        TextFault::Memory => return Err(Memory),
    };
    Bytes::from_slice(alloc, text.as_bytes())
}

/// A row as it is printed: the letter of its family and its number.
#[tactic(auto, unfolding(crate::specs::RunTexts::row_text))]
fn row_text(alloc: Global, row: Row) -> Result<Bytes, Memory>
    ensures { IfOk result (λ text. text ≡ row_text row) }
{
    let number = row.number();
    let digits = format!(in alloc; "{number}")?;
    let mut text = Bytes::new(alloc);
    text.push(row.family())?;
    text.extend(digits.as_bytes())?;
    Ok(text)
}

/// A name behind its blank, if there is one.
fn name_text(alloc: Global, name: &Option<Name>) -> Result<Bytes, Memory>
    ensures { IfOk result (λ text. text ≡ name_text name.now) }
{
    let mut text = Bytes::new(alloc);
    if let Some(name) = name {
        text.extend(b" ")?;
        text.extend(name.bytes())?;
    }
    Ok(text)
}

/// The line of a sentence that is refused.
#[tactic(auto, using(crate::proofs::RunAnswers::spelled))]
pub fn refusal(alloc: Global, number: u64, offset: u64, refusal: &Refusal) -> Result<Bytes, Memory>
    ensures { IfOk result (λ text. text ≡ refusal_line number offset refusal.now) }
{
    let place = format!(in alloc; "refused: sentence {number} at {offset}: ")?;
    let row = row_text(alloc, refusal.row)?;
    let name = name_text(alloc, &refusal.name)?;
    let mut line = Bytes::from_slice(alloc, place.as_bytes())?;
    line.extend(row.as_slice())?;
    line.extend(name.as_slice())?;
    line.extend(b"\n")?;
    Ok(line)
}

/// What `run` answers to an input within its limit, and what it writes for it.
pub fn run(alloc: Global, bytes: &[u8]) -> Result<(Status, Bytes), Memory>
    requires { length bytes.now ≤ limit }
    ensures { IfOk result (λ x. Runs bytes.now x.0 x.1) }
{
    match run_script(alloc, bytes)? {
        // No list has so many bytes.
        Ran::Accepted(text) if text.len() as u64 > MOST => Err(Memory),
        Ran::Accepted(text) => Ok((Status::Done, text)),
        Ran::Refused {
            number,
            offset,
            refusal: why,
        } => Ok((Status::Refused, refusal(alloc, number, offset, &why)?)),
        Ran::Unreadable(fault) => Ok((Status::Unreadable, unreadable(alloc, fault)?)),
    }
}
