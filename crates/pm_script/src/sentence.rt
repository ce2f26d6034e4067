//! Sentences of a script.

ghost use Rattle.std.specs.Prelude.{◌≡◌};

use crate::directive::Directive;
use pm_logic::{Formula, List, Name};

/// A sentence.
pub enum Sentence {
    /// A predicate. Its parameter `j`, counted from 0, is index `j` in the body.
    Predicate {
        name: Name,
        params: List<Name>,
        body: Formula,
    },
    Lemma {
        name: Name,
        statement: Formula,
    },
    Proof,
    Qed,
    Abort,
    Restart,
    Show,
    Undo(u64),
    /// `{`
    Enter,
    /// `}`
    Leave,
    Directive(Directive),
}

/// What a sentence states, taken apart.
#[derive(Drop)]
pub enum Stated {
    Predicate {
        name: Name,
        params: List<Name>,
        body: Formula,
    },
    Lemma {
        name: Name,
        statement: Formula,
    },
}

impl Sentence {
    ghost use Rattle.pm_script.specs.Stating.{stated_of};

    /// What the sentence states, where it states a predicate or a lemma, and else the sentence itself.
    #[tactic(auto, unfolding(crate::specs::Stating::stated_of))]
    pub fn into_stated(self) -> Result<Stated, Sentence>
        ensures { result ≡ stated_of self }
    {
        match self {
            Sentence::Predicate { name, params, body } => {
                Ok(Stated::Predicate { name, params, body })
            }
            Sentence::Lemma { name, statement } => Ok(Stated::Lemma { name, statement }),
            other => Err(other),
        }
    }
}

// Written out, since a contract then sees one call where a value is let go, and not the layout of the sentence.

impl Drop for Sentence {
    fn drop(self) {
        match self {
            Sentence::Predicate { name, params, body } => {
                drop(name);
                drop(params);
                drop(body);
            }
            Sentence::Lemma { name, statement } => {
                drop(name);
                drop(statement);
            }
            Sentence::Directive(directive) => drop(directive),
            Sentence::Proof
            | Sentence::Qed
            | Sentence::Abort
            | Sentence::Restart
            | Sentence::Show
            | Sentence::Undo(_)
            | Sentence::Enter
            | Sentence::Leave => {}
        }
    }
}
