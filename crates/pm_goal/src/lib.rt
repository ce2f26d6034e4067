//! Goals: what stands to be proved, from which facts and hypotheses; and why a sentence about them is refused.
#![tactic(auto)]

mod context;
mod copying;
mod finding;
mod goal;
mod left;
mod naming;
mod refusal;
mod work;

pub use context::{Ctx, Facts};
pub use copying::{copy_goal, copy_work};
pub use finding::{Found, find};
pub use goal::{Fact, Goal, Hyp};
pub use left::{left_of, left_of_work};
pub use naming::fresh;
pub use refusal::{Refusal, Row, StepFault};
pub use work::{Held, Kind, Lemma, Lemmas, Work};
