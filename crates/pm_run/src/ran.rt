//! What a run comes to.

use pm_goal::Refusal;
use pm_logic::Bytes;
use pm_terms::TextFault;

/// What a script comes to.
#[derive(Drop)]
pub enum Ran {
    /// Every sentence was done and no proof is open: a derivation of the proved lemmas, over the defined predicates.
    Accepted(Bytes),
    /// The first sentence that is refused, by its number from 1 and the offset of its first byte, and why. Where the
    /// script ends inside a proof, the number is one more than there are sentences and the offset is the script's length.
    Refused {
        number: u64,
        offset: u64,
        refusal: Refusal,
    },
    /// The first fault of the text.
    Unreadable(TextFault),
}
