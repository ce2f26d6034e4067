//! Proofs as code reads them.

ghost use Rattle.std.specs.Prelude.{◌≡◌};
ghost use Rattle.std.specs.Option.{option_copied};
ghost use Rattle.pm_proof.specs.Trees.{conclusion, rule_of, first_of, second_of};

use crate::proof::{Node, Proof};
use pm_rules::{Entail, Rule};
use std::marker::Model;

/// A part of a proof, which contracts see as its tree.
#[derive(Drop)]
pub struct Branch<'a> {
    at: &'a Proof,
}

impl<'a> Model for Branch<'a> {
    ghost use Rattle.pm_proof.specs.Trees.{Tree, tree_code};

    ghost Value = { Tree };

    ghost coded = { tree_code };

    ghost view = { λ b. b.at.now };
}

impl Proof {
    /// The whole proof.
    pub fn root(&self) -> Branch<'_>
        ensures { result ≡ self.now }
    {
        Branch { at: self }
    }
}

impl<'a> Branch<'a> {
    /// What the part proves.
    pub fn entail(&self) -> &'a Entail
        ensures { result.now ≡ conclusion self.now }
    {
        let at = self.at;
        at.conclusion()
    }

    /// The rule that it ends with, and `None` at a hole.
    pub fn rule(&self) -> Option<&'a Rule>
        ensures { option_copied result ≡ rule_of self.now }
    {
        let at = self.at;
        match &*at.node {
            Node::Hole(_) => None,
            Node::Axiom(rule, _)
            | Node::First(rule, _, _)
            | Node::Second(rule, _, _)
            | Node::Both(rule, _, _, _) => Some(rule),
        }
    }

    /// The proof of its first premise, and `None` where it has none.
    pub fn first(&self) -> Option<Branch<'a>>
        ensures { result ≡ first_of self.now }
    {
        let at = self.at;
        match &*at.node {
            Node::First(_, _, a) | Node::Both(_, _, a, _) => Some(Branch { at: a }),
            Node::Hole(_) | Node::Axiom(_, _) | Node::Second(_, _, _) => None,
        }
    }

    /// The proof of its second premise, and `None` where it has none.
    pub fn second(&self) -> Option<Branch<'a>>
        ensures { result ≡ second_of self.now }
    {
        let at = self.at;
        match &*at.node {
            Node::Second(_, _, b) | Node::Both(_, _, _, b) => Some(Branch { at: b }),
            Node::Hole(_) | Node::Axiom(_, _) | Node::First(_, _, _) => None,
        }
    }
}
