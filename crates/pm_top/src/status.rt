//! How the program ends.

/// How the program ends. The numbers of the statuses, which are the program's exit statuses, are 0 to 7 in this order.
#[derive(Clone, Copy, Debug, PartialEq, Eq)]
pub enum Status {
    /// All was read, and what was asked for is written.
    Done,
    /// The input can be read, and something in it is refused.
    Refused,
    /// The input can't be read as what the command takes.
    Unreadable,
    /// The words name no command.
    Usage,
    /// A read failed.
    ReadFault,
    /// A write failed.
    WriteFault,
    /// Memory is wanting.
    Memory,
    /// The input is longer than the command takes.
    TooLong,
}
