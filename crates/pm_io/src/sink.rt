//! Where bytes go.

ghost use Rattle.std.specs.Prelude.{◌≡◌, ◌≤◌, ◌^◌, ◌-◌, ℕ, List, IfOk, OnOk, OnErr, IsErrOf};
ghost use Rattle.std.specs.declared.option.Option.{Option};
ghost use Rattle.std.specs.Io.KnownBytes.{WriteAppends, Appends};
ghost use Rattle.pm_io.specs.Causes.{Rose};
ghost use Rattle.pm_io.specs.Taken.{TakesSome, AppendsFront};

/// Why a write was refused.
#[derive(Clone, Copy, Debug, PartialEq, Eq)]
pub enum SendFault {
    /// The write failed.
    Write,
    /// Memory is wanting.
    Memory,
}

/// Where bytes go.
pub trait Sink {
    ghost use Rattle.pm_io.specs.Causes.{SendCause};

    /// The bytes written so far, where the sink tells.
    ghost written: { Self → Option (List ℕ) };

    /// How many writes have failed. The count stands still at the last `u64`.
    ghost faults: { Self → ℕ };

    /// Appends a front of the piece, and answers its length, which is at least 1 where the piece
    /// has any byte. `Write` comes only where the count of faults rises, `Memory` where memory is
    /// wanting. After an error nothing was appended.
    fn write(&mut self, piece: &[u8]) -> Result<usize, SendFault>
        ensures bound { TakesSome result piece.now }
        ensures bytes { WriteAppends (written self.old) (written self.new) result piece.now }
        ensures cause { SendCause (faults self.old) (faults self.new) result };

    /// The count is that of a `u64`, in every sink.
    ghost counts_fit: { (it : Self) → faults it ≤ 2 ^ 64 - 1 };
}

/// Appends the whole piece, by as many writes as it takes. The first error ends it, and a front
/// of the piece was then appended.
#[tactic(auto, using(crate::proofs::Sent::sent_none, crate::proofs::Sent::sent_more, crate::proofs::Sent::sent_all))]
pub fn write_all<K: Sink>(sink: &mut K, piece: &[u8]) -> Result<(), SendFault>
    ensures later { K.faults sink.old ≤ K.faults sink.new }
    ensures write { IsErrOf result SendFault.Write → Rose (K.faults sink.old) (K.faults sink.new) }
    ensures ok { OnOk result (Appends (K.written sink.old) (K.written sink.new) piece.now) }
    ensures err { OnErr result (AppendsFront (K.written sink.old) (K.written sink.new) piece.now) }
{
    let mut rest = piece;
    while !rest.is_empty() {
        match sink.write(rest) {
            Ok(count) => {
                let (_, left) = rest.split_at(count);
                rest = left;
            }
            Err(fault) => return Err(fault),
        }
    }
    Ok(())
}
