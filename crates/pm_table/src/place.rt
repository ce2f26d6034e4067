//! Where works stand between the actions of a directive.

ghost use Rattle.std.specs.Prelude.{◌≡◌};
ghost use Rattle.pm_table.specs.Outcomes.{parts_of_place};

use pm_goal::{Goal, Work};
use pm_logic::List;

/// One of the goals that an action gives, and what is still to be done with it.
pub enum Place {
    /// A goal that no later action is for.
    Finished(Goal),
    /// A goal with hypotheses in hand, and for each of the patterns to come, the next one first, whether it is for this goal.
    Current(List<bool>, Work),
}

impl Place {
    /// The turns that are still to come and the work, or the goal that no later action is for.
    pub fn into_parts(self) -> Result<(List<bool>, Work), Goal>
        ensures { result ≡ parts_of_place self }
    {
        match self {
            Place::Finished(goal) => Err(goal),
            Place::Current(turns, work) => Ok((turns, work)),
        }
    }
}

// Written out for the same reason as those of goals.
impl Drop for Place {
    fn drop(self) {
        match self {
            Place::Finished(goal) => drop(goal),
            Place::Current(turns, work) => {
                drop(turns);
                drop(work);
            }
        }
    }
}
