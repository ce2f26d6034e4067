//! Proofs, and how they are made.

ghost use Rattle.std.specs.Prelude.{◌≡◌, ◌^◌, ◌-◌, min, IfOk};
ghost use Rattle.pm_logic.specs.declared.formula.Preds.{Preds};
ghost use Rattle.pm_rules.specs.Rules.{premises, RuleOk};
ghost use Rattle.pm_proof.specs.Trees.{Hole, node, conclusion, conclusion_of, hole_count, empty};
ghost use Rattle.pm_proof.specs.Nodes.{tree_of};
ghost use Rattle.pm_proof.specs.Valid.{Valid, ValidWhere};

use pm_logic::{Formula, List, Memory, Pure};
use pm_rules::{Entail, Rule};
use std::alloc::Global;
use std::marker::Model;
use std::mem;

/// A proof, which contracts see as its tree.
#[cycle(proof)]
pub struct Proof {
    /// How many holes it has, and the greatest number of the type where there are more. It lets a hole be found without a
    /// walk over the whole tree.
    pub(crate) count: u64,
    pub(crate) node: Box<Node>,
}

/// The root of a proof: a hole, or a rule with the premises that it has.
#[cycle(proof)]
#[derive(Drop)]
pub(crate) enum Node {
    Hole(Entail),
    Axiom(Rule, Entail),
    First(Rule, Entail, Proof),
    Second(Rule, Entail, Proof),
    Both(Rule, Entail, Proof, Proof),
}

impl Model for Proof {
    ghost use Rattle.pm_proof.specs.Trees.{Tree, tree_code, levels, IsCount};

    ghost Value = { Tree };

    ghost coded = { tree_code };

    ghost use Rattle.pm_proof.specs.Nodes.{tree_of};

    ghost view = { λ p. tree_of p.node.value };

    ghost invariant = { λ p. IsCount p.count (tree_of p.node.value) };

    ghost size = { levels };

    ghost use Rattle.std.proofs.Common.{arith};

    ghost size_decreases = { λ a h. Prim.grind arith };
}

// By a loop, so that a proof of a million levels needs no deep stack.
impl Drop for Proof {
    #[cycle(gone)]
    fn drop(self) {
        let mut node = self.open();
        loop {
            match node {
                Node::Hole(_) => return,
                Node::Axiom(_, _) => return,
                Node::First(_, _, a) => node = a.open(),
                Node::Second(_, _, b) => node = b.open(),
                // The first premise's own first premise comes up, until there is none.
                Node::Both(rule, e, mut a, b) => match a.emptied() {
                    Node::Hole(_) => node = b.open(),
                    Node::Axiom(_, _) => node = b.open(),
                    Node::First(_, _, x) => node = Node::Both(rule, e, x, b),
                    Node::Second(_, _, x) => node = Node::Both(rule, e, x, b),
                    Node::Both(inner, f, x, y) => {
                        *a.node = Node::Both(inner, f, y, b);
                        a.count = count_of(&a.node);
                        node = Node::Both(rule, e, x, a);
                    }
                },
            }
        }
    }
}

/// What a step leads to: goals, and a proof of what it began with, whose holes are what the goals mean, in order. Where a
/// lemma was used, one more hole comes after these.
#[derive(Drop)]
pub struct Parts<G> {
    pub goals: List<G>,
    pub proof: Proof,
}

/// A place for a proof of `e`. After the error, which is want of memory, `e` is dropped.
pub fn hole(alloc: Global, e: Entail) -> Result<Proof, Memory>
    ensures { IfOk result (λ p. p ≡ Hole e) }
{
    let node = Box::new(alloc, Node::Hole(e))?;
    Ok(Proof::around(node))
}

/// The proof that ends with `rule`, which leads from the premises to `conclusion`. It is valid under each table under which
/// its premises are and the rule leads from their conclusions to this one. Its holes are those of `first`, then those of
/// `second`. After the error, which is want of memory, all that was handed in is dropped.
pub fn by_rule(
    alloc: Global,
    rule: Rule,
    first: Option<Proof>,
    second: Option<Proof>,
    conclusion: Entail,
) -> Result<Proof, Memory>
    ensures tree { IfOk result (λ p. p ≡ node rule first second conclusion) }
    ensures valid { IfOk result (λ p. (preds : Preds) → ValidWhere preds first → ValidWhere preds second → RuleOk preds rule (premises (conclusion_of first) (conclusion_of second)) conclusion → Valid preds p) }
{
    let node = match (first, second) {
        (None, None) => Node::Axiom(rule, conclusion),
        (Some(a), None) => Node::First(rule, conclusion, a),
        (None, Some(b)) => Node::Second(rule, conclusion, b),
        (Some(a), Some(b)) => Node::Both(rule, conclusion, a, b),
    };
    let node = Box::new(alloc, node)?;
    Ok(Proof::around(node))
}

impl Proof {
    /// What it proves.
    pub fn conclusion(&self) -> &Entail
        ensures { result.now ≡ conclusion self.now }
    {
        match &*self.node {
            Node::Hole(e)
            | Node::Axiom(_, e)
            | Node::First(_, e, _)
            | Node::Second(_, e, _)
            | Node::Both(_, e, _, _) => e,
        }
    }

    /// How many holes it has, and the greatest number of the type where there are more. It takes constant time.
    pub fn holes(&self) -> u64
        ensures { result ≡ min (hole_count self.now) (2 ^ 64 - 1) }
    {
        self.count
    }

    /// The proof with this root.
    pub(crate) fn around(node: Box<Node>) -> Proof
        ensures { result ≡ tree_of node.value }
    {
        let count = count_of(&node);
        Proof { count, node }
    }

    /// The root, taken out.
    pub(crate) fn open(self) -> Node
        ensures { tree_of result ≡ self }
    {
        let Proof { count: _, node } = self;
        Box::into_inner(node)
    }

    /// The root's place, taken out.
    pub(crate) fn into_root(self) -> Box<Node>
        ensures { tree_of result.value ≡ self }
    {
        let Proof { count: _, node } = self;
        node
    }

    /// The root, with a hole left in its place.
    fn emptied(&mut self) -> Node
        ensures taken { tree_of result ≡ self.old }
        ensures left { self.new ≡ Hole empty }
    {
        self.count = 1;
        taken(&mut self.node)
    }

    /// How many holes it has, and the greatest number of the type where there are more. No memory holds a proof whose holes
    /// want the walk.
    pub(crate) fn counted(&self) -> u128
        ensures { result ≡ min (hole_count self.now) (2 ^ 128 - 1) }
    {
        if self.count < u64::MAX {
            u128::from(self.count)
        } else {
            self.counted_by_walk()
        }
    }

    /// The same by a walk over the whole tree.
    #[cycle(counting)]
    fn counted_by_walk(&self) -> u128
        ensures { result ≡ min (hole_count self.now) (2 ^ 128 - 1) }
    {
        match &*self.node {
            Node::Hole(_) => 1,
            Node::Axiom(_, _) => 0,
            Node::First(_, _, a) => a.counted_by_walk(),
            Node::Second(_, _, b) => b.counted_by_walk(),
            Node::Both(_, _, a, b) => a.counted_by_walk().saturating_add(b.counted_by_walk()),
        }
    }
}

/// How many holes there are under the root, and the greatest number of the type where there are more.
pub(crate) fn count_of(node: &Node) -> u64
    ensures { result ≡ min (hole_count (tree_of node.now)) (2 ^ 64 - 1) }
{
    match node {
        Node::Hole(_) => 1,
        Node::Axiom(_, _) => 0,
        Node::First(_, _, a) => a.holes(),
        Node::Second(_, _, b) => b.holes(),
        Node::Both(_, _, a, b) => a.holes().saturating_add(b.holes()),
    }
}

/// The root, with a hole left in its place.
pub(crate) fn taken(node: &mut Node) -> Node
    ensures taken { result ≡ node.old }
    ensures left { tree_of node.new ≡ Hole empty }
{
    let empty = Entail {
        vars: 0,
        left: Formula::Pure(Pure::True),
        right: Formula::Pure(Pure::True),
    };
    mem::replace(node, Node::Hole(empty))
}
