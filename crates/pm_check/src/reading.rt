//! Checking what a source gives.

ghost use Rattle.std.specs.List.{AllByRecursion};
ghost use Rattle.std.specs.Prelude.{◌≡◌, Err, IfOk};
ghost use Rattle.pm_io.specs.Causes.{Faulted};
ghost use Rattle.pm_check.specs.Answers.{HasItsAnswerRead, IfTold, IsChecked, IsReadToEnd};
ghost use Rattle.pm_check.specs.Truth.{IsTrueStatement};

use crate::checked::Checked;
use crate::fault::CheckFault;
use crate::judging::check_bytes;
use pm_io::{Source, TakeFault, read_all};
use std::alloc::Global;

/// How many bytes a text may have.
const MOST: u64 = 1 << 63;

/// Whether the bytes that a source has left are a derivation: its table and its statements in order, each of them true in
/// the step-indexed model whoever wrote the text, and the source was then read to its end. Else the first offence in the
/// order of reading; `Read` where a read failed, and then the source's count of faults rose; `Memory` where memory is
/// wanting. `Long` is for more than 2^63 bytes, which no memory holds: there it is `Memory`.
#[tactic(auto, using(crate::proofs::Told::checked, crate::proofs::Told::checked_read, crate::proofs::Told::checked_memory, crate::proofs::Told::answered, crate::proofs::Told::answered_read, crate::proofs::Told::answered_memory, crate::proofs::Told::ended, crate::proofs::Told::states_truth, crate::proofs::Told::not_read))]
pub fn check<S: Source>(alloc: Global, source: &mut S) -> Result<Checked, CheckFault>
    // Each answer has its cause.
    ensures checked { IsChecked (S.left source.old) result }

    // Each cause has its answer, unless memory is wanting or a read failed.
    ensures answered { IfTold (S.left source.old) (λ bytes. HasItsAnswerRead bytes result) }

    // What is accepted is true.
    ensures truth { IfOk result (λ c. AllByRecursion (IsTrueStatement c.preds) c.statements) }

    ensures end { IfOk result (λ c. IsReadToEnd (S.left source.old) (S.left source.new)) }
    ensures read { Faulted (result ≡ Err CheckFault.Read) (S.faults source.old) (S.faults source.new) }
{
    match read_all(alloc, source, MOST) {
        Ok(bytes) => check_bytes(alloc, bytes.as_slice()),
        Err(TakeFault::Read) => Err(CheckFault::Read),
        // No list has so many bytes, so memory was wanting before.
        Err(TakeFault::Long) => Err(CheckFault::Memory),
        Err(TakeFault::Memory) => Err(CheckFault::Memory),
    }
}
