//! What stops a run.

use pm_goal::Refusal;
use pm_terms::TextFault;

/// What stops a run.
#[derive(Drop)]
pub enum Stop {
    /// The first sentence that is refused, by its number from 1 and the offset of its first byte, and why.
    Refused {
        number: u64,
        offset: u64,
        refusal: Refusal,
    },
    /// The first fault of the text.
    Unreadable(TextFault),
}
