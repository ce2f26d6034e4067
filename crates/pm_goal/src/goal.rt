//! Goals.

ghost use Rattle.std.specs.Prelude.{◌≡◌};

use crate::context::{Ctx, Facts};
use pm_logic::{Formula, List, Name, Pure};

/// A hypothesis.
pub struct Hyp {
    pub name: Name,
    pub formula: Formula,
}

/// A pure fact.
pub struct Fact {
    pub name: Name,
    pub pure: Pure,
}

/// A goal. All names in it differ, those of variables too.
pub struct Goal {
    /// The variables, oldest first; the newest is index 0.
    pub vars: List<Name>,
    /// The pure facts.
    pub pures: Facts,
    /// The hypotheses that may be used any number of times.
    pub ints: Ctx,
    /// The hypotheses that are used once.
    pub spats: Ctx,
    pub concl: Formula,
}

impl Hyp {
    /// The name and the formula, taken apart.
    pub fn into_parts(self) -> (Name, Formula)
        ensures { result ≡ (self.name, self.formula) }
    {
        let Hyp { name, formula } = self;
        (name, formula)
    }
}

impl Fact {
    /// The name and the pure formula, taken apart.
    pub fn into_parts(self) -> (Name, Pure)
        ensures { result ≡ (self.name, self.pure) }
    {
        let Fact { name, pure } = self;
        (name, pure)
    }
}

// Written out, since a contract then sees one call where a value is let go, and not the layout of the goal.

impl Drop for Hyp {
    fn drop(self) {
        let Hyp { name, formula } = self;
        drop(name);
        drop(formula);
    }
}

impl Drop for Fact {
    fn drop(self) {
        let Fact { name, pure } = self;
        drop(name);
        drop(pure);
    }
}

impl Drop for Goal {
    fn drop(self) {
        let Goal {
            vars,
            pures,
            ints,
            spats,
            concl,
        } = self;
        drop(vars);
        drop(pures);
        drop(ints);
        drop(spats);
        drop(concl);
    }
}
