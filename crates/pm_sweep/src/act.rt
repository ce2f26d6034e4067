//! Elementary actions as values.

use pm_logic::{List, Name, Term};
use pm_patterns::Pat;

/// An action that brings something into a goal, where nothing is in hand.
#[derive(Clone, Copy)]
pub enum Entering<'a> {
    /// The introduction for a pattern: of a variable where it names one and the conclusion is a universal, else of a left
    /// side, which the pattern destructs.
    ForPattern(&'a Pat),
    LeftSide,
    FreshVariable,
    Take(&'a Name),
    Lend(&'a Name),
}

/// An action on what is last in hand.
#[derive(Clone, Copy)]
pub enum Handling<'a> {
    Name(&'a Name),
    NameFresh,
    Drop,
    Pair(&'a Pat, &'a Pat),
    Either,
    Absurd,
    ToPure(&'a Name),
    ToPureFresh,
    ToInt,
    ToSpat,
    Frame,
}

/// An action on what is last in hand of every work, for which no pattern is to come.
#[derive(Clone, Copy)]
pub enum Giving<'a> {
    /// The universal is opened with the term.
    Term(&'a Term),
}

/// An action on a goal, where nothing is in hand.
#[derive(Clone, Copy)]
pub enum Changing<'a> {
    Split,
    SplitLeft(Option<&'a List<Name>>),
    SplitRight(Option<&'a List<Name>>),
    Left,
    Right,
    Exists(&'a Term),
    ExFalso,
    Exact(&'a Name),
    Assumption,
    Done,
    TryDone,
    Clear(&'a Name),
    Rename(&'a Name, &'a Name),
    Revert(&'a Name),
    RevertVar(&'a Name),
}

/// An action that frames a hypothesis or fact, whatever is in hand.
#[derive(Clone, Copy)]
pub enum Framing<'a> {
    /// It is refused where nothing is framed.
    Named(&'a Name),
    /// One of a group: it is passed over where nothing is framed.
    Member(&'a Name),
}

/// An action on one work, with what is handed to it. To add an action, add it to its kind, to the function that performs that
/// kind, to specs/Acts.antt, and to what is kept in proofs/Kept.antt.
#[derive(Clone, Copy)]
pub enum Act<'a> {
    Enter(Entering<'a>),
    Handle(Handling<'a>),
    Give(Giving<'a>),
    Change(Changing<'a>),
    Frame(Framing<'a>),
}

/// Where an action acts.
#[derive(Clone, Copy)]
pub enum Turn {
    /// On every work.
    Every,
    /// On the works whose turn it is; in the place of the pattern come so many parts of it.
    Next(usize),
}
