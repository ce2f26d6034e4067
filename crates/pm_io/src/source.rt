//! Where bytes come from.

ghost use Rattle.std.specs.Prelude.{◌≡◌, ◌≤◌, ◌^◌, ◌-◌, ℕ, List, length, IfOk, IsErrOf};
ghost use Rattle.std.specs.declared.option.Option.{Option};
ghost use Rattle.std.specs.Io.{ReadsAtMost};
ghost use Rattle.std.specs.Io.KnownBytes.{ReadConsumes};
ghost use Rattle.pm_io.specs.Causes.{Rose, HasCause};
ghost use Rattle.pm_io.specs.Taken.{TakesAll, HasMoreThan};

use pm_logic::Bytes;
use std::alloc::Global;

/// A read that failed. The bytes that are left are as before.
#[derive(Clone, Copy, Debug, PartialEq, Eq)]
pub struct Failed;

/// Where bytes come from.
pub trait Source {
    /// The bytes that are left, where the source tells.
    ghost left: { Self → Option (List ℕ) };

    /// How many reads have failed. The count stands still at the last `u64`.
    ghost faults: { Self → ℕ };

    /// Takes the next bytes into the front of `buf`, and answers how many. `Ok(0)` on a buffer
    /// that isn't empty is the end. A read fails only where the count of faults rises, and takes
    /// nothing then.
    fn read(&mut self, buf: &mut [u8]) -> Result<usize, Failed>
        ensures bound { ReadsAtMost result buf.new }
        ensures bytes { ReadConsumes (left self.old) (left self.new) result buf.new }
        ensures cause { HasCause (faults self.old) (faults self.new) result };

    /// The count is that of a `u64`, in every source.
    ghost counts_fit: { (it : Self) → faults it ≤ 2 ^ 64 - 1 };
}

/// Why a source wasn't read to its end.
#[derive(Clone, Copy, Debug, PartialEq, Eq)]
pub enum TakeFault {
    /// A read failed.
    Read = 1,
    /// There is more than was asked for.
    Long,
    /// Memory is wanting.
    Memory,
}

/// How many bytes one read asks for: enough that the calls cost little beside the copying.
const PIECE: usize = 16384;

/// All bytes that are left, if they are at most `limit`, and the source is then at its end.
/// `Read` where a read failed, `Long` where there are more than `limit` bytes, `Memory` where
/// memory is wanting. After an error it isn't said how far the source was read.
pub fn read_all<S: Source>(alloc: Global, source: &mut S, limit: u64) -> Result<Bytes, TakeFault>
    ensures later { S.faults source.old ≤ S.faults source.new }
    ensures read { IsErrOf result TakeFault.Read → Rose (S.faults source.old) (S.faults source.new) }
    ensures long { IsErrOf result TakeFault.Long → HasMoreThan (S.left source.old) limit }
    ensures short { IfOk result (λ bytes. length bytes ≤ limit) }
    ensures all { IfOk result (λ bytes. TakesAll (S.left source.old) (S.left source.new) bytes) }
{
    let mut taken = Bytes::new(alloc);
    let mut buf = [0u8; PIECE];
    loop {
        match source.read(&mut buf) {
            Err(_) => return Err(TakeFault::Read),
            Ok(0) => return Ok(taken),
            Ok(count) => {
                if limit - (taken.len() as u64) < count as u64 {
                    return Err(TakeFault::Long);
                }
                if taken.extend(&buf[..count]).is_err() {
                    return Err(TakeFault::Memory);
                }
            }
        }
    }
}
