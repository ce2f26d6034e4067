//! Whether bytes are a derivation.

ghost use Rattle.std.specs.Prelude.{◌≡◌, ◌<◌, ◌^◌, suc, codes, length, if◌then◌else◌};
ghost use Rattle.std.specs.List.{prefix_len};
ghost use Rattle.std.specs.Str.{bytes_eq};
ghost use Rattle.pm_dtext.specs.Reading.{is_word_byte, word};
ghost use Rattle.pm_check.specs.Answers.{Judges, HasItsAnswer};
ghost use Rattle.pm_check.specs.Kept.{answered, HasTable};

use crate::checked::Checked;
use crate::fault::CheckFault;
use crate::kept::Kept;
use crate::laws::verdicts_are_one;
use crate::table::{answered, table};
use pm_dtext::{ReadFault, lines_are_read, next_line};
use pm_logic::Preds;
use std::alloc::Global;

fn word_len(bytes: &[u8]) -> usize
    ensures { result ≡ prefix_len is_word_byte bytes.now }
{
    bytes
        .iter()
        .take_while(|b| **b != b' ' && **b != b'\n')
        .count()
}

/// Whether the word at the front is `qed`.
fn is_qed(bytes: &[u8]) -> bool
    ensures { result ≡ bytes_eq (word bytes.now) (codes "qed") }
{
    &bytes[..word_len(bytes)] == b"qed".as_slice()
}

/// The answer to a fault of reading the line at the front of the rest, behind so many proof lines.
fn line_fault(text: &[u8], before: u64, rest: &[u8], fault: ReadFault) -> CheckFault
    requires { before < 2 ^ 63 }
    ensures { result ≡ answered text.now (if bytes_eq (word rest.now) (codes "qed") then before else suc before) fault }
{
    let line = if is_qed(rest) { before } else { before + 1 };
    answered(text, line, fault)
}

/// Judges the lines behind the table.
#[tactic(auto, using(crate::proofs::Lines::progress_begun, crate::proofs::Lines::progress_ready, crate::proofs::Lines::line_fits, crate::proofs::Lines::line_smaller, crate::proofs::Lines::table_small, crate::proofs::Lines::progress_more, crate::proofs::Lines::progress_refused, crate::proofs::Lines::progress_fault, crate::proofs::Lines::progress_end))]
fn judge_lines(alloc: Global, text: &[u8], preds: Preds, rest: &[u8]) -> Result<Checked, CheckFault>
    requires { HasTable text.now preds rest.now }
    ensures { Judges text.now result }
{
    lines_are_read();
    let mut kept = Kept::new(alloc, preds);
    let mut rest = rest;
    while !rest.is_empty() {
        let before = kept.steps.len() as u64;
        let (line, after) = match next_line(alloc, &kept.preds, before + 1, rest) {
            Ok(read) => read,
            Err(fault) => return Err(line_fault(text, before, rest, fault)),
        };
        if let Err(fault) = kept.take(alloc, line) {
            return Err(fault);
        }
        rest = after;
    }
    Ok(kept.checked())
}

/// Judges a whole text.
fn judge(alloc: Global, text: &[u8]) -> Result<Checked, CheckFault>
    ensures { Judges text.now result }
{
    let (preds, rest) = table(alloc, text)?;
    judge_lines(alloc, text, preds, rest)
}

/// Whether the bytes are a derivation: its table and its statements in order, and else the first offence in the order of
/// reading. `Memory` where memory is wanting; `Long` and `Read` never come.
#[tactic(auto, using(crate::proofs::OneVerdict::has_its_answer))]
pub fn check_bytes(alloc: Global, bytes: &[u8]) -> Result<Checked, CheckFault>
    ensures judged { Judges bytes.now result }
    ensures answered { HasItsAnswer bytes.now result }
{
    verdicts_are_one();
    judge(alloc, bytes)
}
