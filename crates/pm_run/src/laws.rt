//! Laws of runs.

ghost use Rattle.pm_run.specs.Coming.{RunsAreOne, RunsAreTotal};
ghost use Rattle.pm_run.specs.Halting.{HaltsAreOne};

/// A script comes to one thing.
pub fn runs_are_one()
    ensures { RunsAreOne }
{}

/// A script comes to something.
pub fn runs_are_total()
    ensures { RunsAreTotal }
{}

/// A script ends in one state, stopped by one thing.
pub fn halts_are_one()
    ensures { HaltsAreOne }
{}
