//! Why a text isn't accepted.

ghost use Rattle.std.specs.Prelude.{◌≡◌};
ghost use Rattle.pm_check.specs.declared.fault.CheckFault.TheVariants as faults;

use pm_logic::Memory;
use pm_rules::Unmet;
use std::alloc::{AllocError, AllocFailed};

/// What a `qed` asks, in the order in which it is tested.
#[derive(Clone, Copy, Debug, PartialEq, Eq)]
pub enum QedCondition {
    /// The line that it cites has no variables.
    Variables,
    /// The left side of that line is truth.
    LeftSide,
    /// No `qed` before has the name.
    Name,
}

impl QedCondition {
    ghost use Rattle.pm_check.specs.Lines.{qed_condition_number};

    /// The number that is printed for the condition, from 1.
    pub fn number(self) -> u8
        ensures { result ≡ qed_condition_number self }
    {
        match self {
            QedCondition::Variables => 1,
            QedCondition::LeftSide => 2,
            QedCondition::Name => 3,
        }
    }
}

/// The first condition that a line fails.
#[derive(Clone, Copy, Debug, PartialEq, Eq)]
pub enum Failed {
    /// One of the rule of a proof line.
    Step(Unmet),
    /// One of a `qed`.
    Qed(QedCondition),
}

impl Failed {
    ghost use Rattle.pm_check.specs.Lines.{failed_rule, failed_condition};

    /// The number of the rule; `qed` is 68.
    pub fn rule(self) -> u8
        ensures { result ≡ failed_rule self }
    {
        match self {
            Failed::Step(unmet) => unmet.rule,
            Failed::Qed(_) => 68,
        }
    }

    /// The number that is printed for the condition.
    pub fn condition(self) -> u8
        ensures { result ≡ failed_condition self }
    {
        match self {
            Failed::Step(unmet) => unmet.condition.number(),
            Failed::Qed(condition) => condition.number(),
        }
    }
}

/// The first offence of a text in the order of reading, or why there was no answer.
#[derive(Clone, Copy, Debug, PartialEq, Eq)]
pub enum CheckFault {
    /// At this offset stands a word or a separator that can't stand there, or the end.
    Syntax(u64),
    /// A line doesn't follow. A proof line is named by its own number, a `qed` by that of the line that it cites.
    Refused { line: u64, failed: Failed },
    /// The line cites a number that isn't that of an earlier proof line. A `qed` is named by the number of proof lines
    /// before it.
    NoLine { line: u64, cited: u64 },
    /// The body of this predicate, counted from 0, calls one that isn't before it, under no later.
    Unguarded(u32),
    /// At this offset stands a word on level 1,001 of its formula, or of its term among a rule's arguments.
    Deep(u64),
    /// There are more bytes than 2^63, and no offence is in so many.
    Long,
    /// A read failed.
    Read,
    /// A growth was refused.
    Memory,
}

impl From<Memory> for CheckFault {
    ghost from_gives = { λ _ e. e ≡ faults.Memory };

    fn from(_e: Memory) -> CheckFault {
        CheckFault::Memory
    }
}

impl From<AllocError> for CheckFault {
    ghost from_gives = { λ _ e. e ≡ faults.Memory };

    fn from(_e: AllocError) -> CheckFault {
        CheckFault::Memory
    }
}

impl<T: Drop> From<AllocFailed<T>> for CheckFault {
    ghost from_gives = { λ _ e. e ≡ faults.Memory };

    fn from(_e: AllocFailed<T>) -> CheckFault {
        CheckFault::Memory
    }
}
