//! Which directives are built.

ghost use Rattle.std.specs.Prelude.{◌≡◌};
ghost use Rattle.std.specs.List.{list_all};
ghost use Rattle.pm_directives.specs.Built.{is_built_pattern, is_built_intro, is_built_term, is_built};

use pm_patterns::{Head, Pat, ProofTerm};
use pm_script::Directive;

/// Whether the pattern, for what is in hand, is built.
#[tactic(auto, unfolding(crate::specs::Built::is_built_pattern))]
fn is_built_pattern(pat: &Pat) -> bool
    ensures { result ≡ is_built_pattern pat.now }
{
    match pat {
        Pat::Pair(a, b) => {
            let p = a.get();
            let q = b.get();
            let first = is_built_pattern(p);
            let second = is_built_pattern(q);
            first && second
        }
        Pat::Either(a, b) => {
            let p = a.get();
            let q = b.get();
            let left = is_built_pattern(p);
            let right = is_built_pattern(q);
            left && right
        }
        Pat::Int(a) => {
            let boxed = a.get();
            is_built_pattern(boxed)
        }
        Pat::Spat(a) => {
            let spatial = a.get();
            is_built_pattern(spatial)
        }
        Pat::Name(_) | Pat::Fresh | Pat::Drop | Pat::Frame => true,
        Pat::Absurd | Pat::PureName(_) | Pat::PureFresh => true,
        _ => false,
    }
}

/// Whether the pattern, at the top of `iIntros`, is built.
fn is_built_intro(pat: &Pat) -> bool
    ensures { result ≡ is_built_intro pat.now }
{
    match pat {
        Pat::Done | Pat::Alls | Pat::AllsWands | Pat::Clear(_) => true,
        _ => is_built_pattern(pat),
    }
}

fn are_built_intros(pats: &[Pat]) -> bool
    ensures { result ≡ list_all is_built_intro pats.now }
{
    match pats {
        [] => true,
        [pat, rest @ ..] => is_built_intro(pat) && are_built_intros(rest),
    }
}

fn is_built_term(term: &ProofTerm) -> bool
    ensures { result ≡ is_built_term term.now }
{
    match &term.head {
        Head::Hyp(_) => term.spats.len() == 0,
        Head::Lemma(_) => false,
    }
}

/// Whether the directive is one that `step` runs.
pub fn is_built(directive: &Directive) -> bool
    ensures { result ≡ is_built directive.now }
{
    match directive {
        Directive::Intros(pats) => are_built_intros(pats.as_slice()),
        Directive::Destruct(term, pat) | Directive::PoseProof(term, pat) => {
            is_built_term(term) && is_built_pattern(pat)
        }
        Directive::Specialize(term) => is_built_term(term),
        Directive::Split | Directive::SplitL(_) | Directive::SplitR(_) => true,
        Directive::Left | Directive::Right | Directive::Exists(_) => true,
        Directive::Exact(_) | Directive::Assumption | Directive::ExFalso => true,
        Directive::Done | Directive::Clear(_) | Directive::Frame(_) => true,
        Directive::Rename(_, _) | Directive::Revert(_, _) => true,
        _ => false,
    }
}
