//! What all actions on works share: the tests of names and limits, refusals, changed works, and the passage from a move of a
//! star to the proof that an action owes.
#![tactic(auto)]

mod collecting;
mod contexts;
mod finishing;
mod limits;
mod moving;
mod naming;
mod refusing;

pub use contexts::{facts_but, hyps_but, last, last_place, others, with_held};
pub use finishing::{finish, finish_closed, finish_one, finish_over, finish_two};
pub use limits::{MOST, limit_row};
pub use moving::{by_move, unmoved, wanted, wanted_of_goal};
pub use naming::{fresh_name, is_free};
pub use refusing::{refuse, refuse_plain};
