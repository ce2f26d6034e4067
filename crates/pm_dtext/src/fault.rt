//! Why a text could not be read.

ghost use Rattle.std.specs.Prelude.{◌≡◌};
ghost use Rattle.pm_dtext.specs.declared.fault.ReadFault.TheVariants as faults;

use pm_logic::Memory;
use std::alloc::AllocError;

/// The first fault from left to right. A place is told by how many bytes are left there.
#[derive(Clone, Copy, Debug, PartialEq, Eq)]
pub enum Fault {
    /// A word or a separator that can't stand there, or the end.
    Syntax(usize),
    /// A citation of this number, which isn't that of an earlier proof line.
    NoLine(u64),
    /// A word below the last level of its formula or term.
    Deep(usize),
}

/// Why a reader that takes memory gave up.
#[derive(Clone, Copy, Debug, PartialEq, Eq)]
pub enum ReadFault {
    Memory,
    Fault(Fault),
}

impl From<AllocError> for ReadFault {
    ghost from_gives = { λ _ e. e ≡ faults.Memory };

    fn from(_e: AllocError) -> ReadFault {
        ReadFault::Memory
    }
}

impl From<Memory> for ReadFault {
    ghost from_gives = { λ _ e. e ≡ faults.Memory };

    fn from(_e: Memory) -> ReadFault {
        ReadFault::Memory
    }
}

impl From<Fault> for ReadFault {
    ghost from_gives = { λ f e. e ≡ faults.Fault f };

    fn from(fault: Fault) -> ReadFault {
        ReadFault::Fault(fault)
    }
}

/// Why a line could not be read: the first fault from left to right, or want of memory.
#[derive(Clone, Copy, Debug, PartialEq, Eq)]
pub enum LineFault {
    /// At this offset stands a word or a separator that can't stand there, or the end.
    Syntax(u64),
    /// The line cites this number, which isn't that of an earlier proof line.
    NoLine(u64),
    /// At this offset stands a word below the last level of its formula or term.
    Deep(u64),
    /// A growth was refused.
    Memory,
}
