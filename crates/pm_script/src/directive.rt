//! Directives of a proof.

use pm_logic::{Formula, List, Name, Pure, Term};
use pm_patterns::{Cert, Pat, ProofTerm, Sel, Spat};

/// A step of a proof script.
pub enum Directive {
    Intros(List<Pat>),
    Destruct(ProofTerm, Pat),
    PoseProof(ProofTerm, Pat),
    Specialize(ProofTerm),
    Apply(ProofTerm),
    Assert(Formula, Spat, Pat),
    Split,
    SplitL(Option<List<Name>>),
    SplitR(Option<List<Name>>),
    Left,
    Right,
    Exists(List<Term>),
    Exact(Name),
    Assumption,
    ExFalso,
    Done,
    Clear(List<Sel>),
    Rename(Name, Name),
    Revert(List<Name>, List<Sel>),
    Frame(Option<List<Sel>>),
    ModIntro,
    Next,
    Mod(ProofTerm, Pat),
    Loeb(Name),
    Unfold(Option<Name>),
    Fold(Formula, Name),
    Combine(Name, Name, Pat),
    Write(Name, Term),
    Alloc(Term, Name, Pat),
    PureIntro,
    Rewrite {
        back: bool,
        fact: Name,
        target: Option<Name>,
    },
    Cases(Pure, Name),
    Linear,
    LinearWith(List<Cert>),
}

// Written out, since a contract then sees one call where a value is let go, and not the layout of the directive.

impl Drop for Directive {
    fn drop(self) {
        match self {
            Directive::Intros(pats) => drop(pats),
            Directive::Destruct(proof, pat)
            | Directive::PoseProof(proof, pat)
            | Directive::Mod(proof, pat) => {
                drop(proof);
                drop(pat);
            }
            Directive::Specialize(proof) | Directive::Apply(proof) => drop(proof),
            Directive::Assert(formula, how, pat) => {
                drop(formula);
                drop(how);
                drop(pat);
            }
            Directive::SplitL(names) | Directive::SplitR(names) => drop(names),
            Directive::Exists(terms) => drop(terms),
            Directive::Exact(name) | Directive::Loeb(name) => drop(name),
            Directive::Clear(sels) => drop(sels),
            Directive::Rename(from, to) => {
                drop(from);
                drop(to);
            }
            Directive::Revert(names, sels) => {
                drop(names);
                drop(sels);
            }
            Directive::Frame(sels) => drop(sels),
            Directive::Unfold(name) => drop(name),
            Directive::Fold(formula, name) => {
                drop(formula);
                drop(name);
            }
            Directive::Combine(first, second, pat) => {
                drop(first);
                drop(second);
                drop(pat);
            }
            Directive::Write(name, value) => {
                drop(name);
                drop(value);
            }
            Directive::Alloc(value, name, pat) => {
                drop(value);
                drop(name);
                drop(pat);
            }
            Directive::Rewrite {
                back: _,
                fact,
                target,
            } => {
                drop(fact);
                drop(target);
            }
            Directive::Cases(pure, name) => {
                drop(pure);
                drop(name);
            }
            Directive::LinearWith(certs) => drop(certs),
            Directive::Split
            | Directive::Left
            | Directive::Right
            | Directive::Assumption
            | Directive::ExFalso
            | Directive::Done
            | Directive::ModIntro
            | Directive::Next
            | Directive::PureIntro
            | Directive::Linear => {}
        }
    }
}
