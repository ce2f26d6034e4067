//! Patterns, selections, proof terms and certificates.

use pm_logic::{List, Name, Term};
use sqlite_items::Boxed;

/// Hypotheses or facts that a directive is for.
pub enum Sel {
    Name(Name),
    /// `%`: every fact.
    Pures,
    /// `#`: every intuitionistic hypothesis.
    Ints,
    /// `∗`: every spatial hypothesis.
    Spats,
}

/// A spatial hypothesis for a premise, and whether it is framed there.
pub struct Pick {
    pub framed: bool,
    pub name: Name,
}

/// A specialisation pattern: how a premise is met.
pub enum Spat {
    /// By the hypothesis of this name.
    Name(Name),
    /// By a goal with these spatial hypotheses.
    Goal(List<Pick>),
    /// By a goal with all but these.
    Rest(List<Name>),
    /// `[#]`: by a goal for a persistent premise.
    Persistent,
    /// `[%]`: by a goal for a pure premise.
    Pure,
    /// `[//]`: at once.
    Done,
}

pub enum Head {
    Hyp(Name),
    Lemma(Name),
}

/// A hypothesis or lemma, with terms for its quantifiers and patterns for its premises.
pub struct ProofTerm {
    pub head: Head,
    pub terms: List<Term>,
    pub spats: List<Spat>,
}

/// A fact and its factor in a certificate.
pub struct Item {
    pub factor: i64,
    pub fact: Name,
}

/// Factors that add up to a contradiction: of the negated goal, and of facts.
pub struct Cert {
    pub goal: i64,
    pub facts: List<Item>,
}

/// An introduction pattern: what becomes of a hypothesis. From `ModIntro` on they stand at the top of `iIntros` alone.
pub enum Pat {
    Name(Name),
    /// `?`
    Fresh,
    /// `_`
    Drop,
    /// `$`
    Frame,
    Pair(Boxed<Pat>, Boxed<Pat>),
    Either(Boxed<Pat>, Boxed<Pat>),
    /// `[]`
    Absurd,
    /// `%H`
    PureName(Name),
    /// `%?`
    PureFresh,
    /// `#p`
    Int(Boxed<Pat>),
    /// `-#p`
    Spat(Boxed<Pat>),
    /// `>p`
    Elim(Boxed<Pat>),
    /// `->`
    Rewrite,
    /// `<-`
    RewriteBack,
    /// `!>`
    ModIntro,
    /// `//`
    Done,
    /// `*`
    Alls,
    /// `**`
    AllsWands,
    Clear(List<Sel>),
}

// Written out, since a contract then sees one call where a value is let go, and not the layout of the pattern.

impl Drop for Sel {
    fn drop(self) {
        match self {
            Sel::Name(name) => drop(name),
            Sel::Pures | Sel::Ints | Sel::Spats => {}
        }
    }
}

impl Drop for Pick {
    fn drop(self) {
        let Pick { framed: _, name } = self;
        drop(name);
    }
}

impl Drop for Spat {
    fn drop(self) {
        match self {
            Spat::Name(name) => drop(name),
            Spat::Goal(picks) => drop(picks),
            Spat::Rest(names) => drop(names),
            Spat::Persistent | Spat::Pure | Spat::Done => {}
        }
    }
}

impl Drop for Head {
    fn drop(self) {
        match self {
            Head::Hyp(name) | Head::Lemma(name) => drop(name),
        }
    }
}

impl Drop for ProofTerm {
    fn drop(self) {
        let ProofTerm { head, terms, spats } = self;
        drop(head);
        drop(terms);
        drop(spats);
    }
}

impl Drop for Item {
    fn drop(self) {
        let Item { factor: _, fact } = self;
        drop(fact);
    }
}

impl Drop for Cert {
    fn drop(self) {
        let Cert { goal: _, facts } = self;
        drop(facts);
    }
}

impl Drop for Pat {
    fn drop(self) {
        match self {
            Pat::Name(name) | Pat::PureName(name) => drop(name),
            Pat::Pair(first, second) | Pat::Either(first, second) => {
                drop(first);
                drop(second);
            }
            Pat::Int(inner) | Pat::Spat(inner) | Pat::Elim(inner) => drop(inner),
            Pat::Clear(sels) => drop(sels),
            Pat::Fresh
            | Pat::Drop
            | Pat::Frame
            | Pat::Absurd
            | Pat::PureFresh
            | Pat::Rewrite
            | Pat::RewriteBack
            | Pat::ModIntro
            | Pat::Done
            | Pat::Alls
            | Pat::AllsWands => {}
        }
    }
}
