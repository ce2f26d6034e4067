//! Goals with hypotheses in hand, and lemmas.

use crate::goal::Goal;
use pm_logic::{Formula, List, Name};

/// The two kinds of hypotheses.
#[derive(Clone, Copy, Debug, PartialEq, Eq)]
pub enum Kind {
    /// It may be used any number of times.
    Int,
    /// It is used once.
    Spat,
}

/// A hypothesis in hand, which has no name yet.
pub struct Held {
    pub kind: Kind,
    pub formula: Formula,
}

/// A goal with hypotheses in hand, which stand behind the spatial ones.
pub struct Work {
    pub goal: Goal,
    pub held: List<Held>,
}

/// A lemma that was proved, or is taken as proved.
pub struct Lemma {
    pub name: Name,
    /// What it states, in no variables.
    pub formula: Formula,
}

/// Lemmas by their names, which differ.
pub struct Lemmas {
    pub list: List<Lemma>,
}

// Written out for the same reason as those of goals.

impl Drop for Held {
    fn drop(self) {
        let Held { kind: _, formula } = self;
        drop(formula);
    }
}

impl Drop for Work {
    fn drop(self) {
        let Work { goal, held } = self;
        drop(goal);
        drop(held);
    }
}

impl Drop for Lemma {
    fn drop(self) {
        let Lemma { name, formula } = self;
        drop(name);
        drop(formula);
    }
}

impl Drop for Lemmas {
    fn drop(self) {
        let Lemmas { list } = self;
        drop(list);
    }
}
