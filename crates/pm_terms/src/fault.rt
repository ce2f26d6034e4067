//! What is wrong with a text.

ghost use Rattle.std.specs.Prelude.{◌≡◌, ◌≢◌, ◌+◌, ◌<◌, ◌^◌};
ghost use Rattle.pm_terms.specs.declared.fault.TextFault.TheVariants as faults;
ghost use Rattle.pm_terms.specs.Steps.{offset_of, moved};

use std::alloc::{AllocError, AllocFailed};

/// The first fault of a text, with the offset of the byte where it is. `Memory` is no fault of the text.
#[derive(Clone, Copy, Debug, PartialEq, Eq)]
pub enum TextFault {
    /// A token that can't go on, a byte that begins no token, or the end.
    Unexpected(u64),
    /// A variable or predicate that isn't there.
    Unbound(u64),
    /// A literal that is no 64-bit integer.
    Number(u64),
    /// A fraction that is no number of units from one to a whole.
    Fraction(u64),
    /// A call with other than the predicate's number of arguments.
    Arity(u64),
    /// Too many constructs are open, or the tree is too deep.
    Deep(u64),
    Memory,
}

impl From<AllocError> for TextFault {
    ghost from_gives = { λ _ e. e ≡ faults.Memory };

    fn from(_e: AllocError) -> TextFault {
        TextFault::Memory
    }
}

impl<T: Drop> From<AllocFailed<T>> for TextFault {
    ghost from_gives = { λ _ e. e ≡ faults.Memory };

    fn from(_e: AllocFailed<T>) -> TextFault {
        TextFault::Memory
    }
}

impl From<pm_logic::Memory> for TextFault {
    ghost from_gives = { λ _ e. e ≡ faults.Memory };

    fn from(_e: pm_logic::Memory) -> TextFault {
        TextFault::Memory
    }
}

/// The offset of a fault, 0 for `Memory`.
fn offset_of(fault: TextFault) -> u64
    ensures { result ≡ offset_of fault }
{
    match fault {
        TextFault::Unexpected(at) => at,
        TextFault::Unbound(at) => at,
        TextFault::Number(at) => at,
        TextFault::Fraction(at) => at,
        TextFault::Arity(at) => at,
        TextFault::Deep(at) => at,
        TextFault::Memory => 0,
    }
}

/// The fault with its offset counted from `base` bytes before, and `Memory` where that is past the greatest offset.
#[tactic(auto, unfolding(crate::specs::Steps::moved))]
pub fn moved(base: u64, fault: TextFault) -> TextFault
    ensures fits { base + offset_of fault < 2 ^ 64 → result ≡ moved base fault }
    ensures known { result ≢ faults.Memory → result ≡ moved base fault }
{
    let Some(at) = base.checked_add(offset_of(fault)) else {
        return TextFault::Memory;
    };
    match fault {
        TextFault::Unexpected(_) => TextFault::Unexpected(at),
        TextFault::Unbound(_) => TextFault::Unbound(at),
        TextFault::Number(_) => TextFault::Number(at),
        TextFault::Fraction(_) => TextFault::Fraction(at),
        TextFault::Arity(_) => TextFault::Arity(at),
        TextFault::Deep(_) => TextFault::Deep(at),
        TextFault::Memory => TextFault::Memory,
    }
}
