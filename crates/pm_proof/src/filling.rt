//! Proofs for holes.

ghost use Rattle.std.specs.Prelude.{◌≡◌, ◌↔◌, ◌+◌, ◌<◌, Some, slice_get, MatchOption, IsTrue};
ghost use Rattle.pm_proof.specs.Trees.{conclusion, holes_of, hole_count, filled, levels};
ghost use Rattle.pm_proof.specs.Nodes.{tree_of};
ghost use Rattle.pm_proof.specs.Cuts.{part_at, index_at, rest_at};
ghost use Rattle.pm_proof.specs.Known.{FillProves, FillExtends};

use crate::proof::{Node, Proof, count_of, taken};

/// How many levels are gone down at a time. What a walk takes of the stack is this and one in so many levels of the proof.
const LEVELS: u32 = 1000;

/// A part that was cut out, and the place of a hole of the whole among the part's own.
struct Cut {
    part: Node,
    index: u64,
}

impl Proof {
    /// The proof with `inner` in the place of hole `i`, counted from 0 and from left to right. The holes of `inner` take
    /// its place among the holes. It takes no memory, and its time is that of the way down to the hole.
    ///
    /// Hole `i` exists and is the conclusion of `inner`.
    pub fn fill(self, i: u64, inner: Proof) -> Proof
        requires { slice_get (holes_of self) i ≡ Some (conclusion inner) }
        ensures tree { result ≡ filled self i inner }
        ensures proves { FillProves self i inner result }
        ensures extends { FillExtends self i inner result }
    {
        let mut node = self.into_root();
        fill_deep(&mut node, i, inner.open());
        Proof::around(node)
    }

    /// The place of hole `i` after those of this proof, and `None` where it is one of them.
    fn past(&self, i: u64) -> Option<u64>
        ensures { MatchOption result (i < hole_count self.now) (λ j. i ≡ hole_count self.now + j) }
    {
        let count = self.counted();
        if u128::from(i) < count {
            None
        } else {
            i.checked_sub(count as u64)
        }
    }

    #[cycle(filling)]
    fn fill_in(&mut self, i: u64, inner: Node)
        ensures { self.new ≡ filled self.old i (tree_of inner) }
    {
        fill_at(&mut self.node, i, inner);
        self.count = count_of(&self.node);
    }

    #[cycle(cutting)]
    fn cut(&mut self, i: u64, levels: u32) -> Cut
        ensures part { tree_of result.part ≡ part_at self.old i levels }
        ensures index { result.index ≡ index_at self.old i levels }
        ensures rest { self.new ≡ rest_at self.old i levels }
    {
        let cut = cut_at(&mut self.node, i, levels);
        self.count = count_of(&self.node);
        cut
    }
}

/// Puts the root at hole `i`, by a walk as deep as the hole.
#[cycle(filling)]
fn fill_at(node: &mut Node, i: u64, inner: Node)
    ensures { tree_of node.new ≡ filled (tree_of node.old) i (tree_of inner) }
{
    match node {
        Node::Hole(_) => *node = inner,
        Node::Axiom(_, _) => {}
        Node::First(_, _, a) => a.fill_in(i, inner),
        Node::Second(_, _, b) => b.fill_in(i, inner),
        Node::Both(_, _, a, b) => match a.past(i) {
            None => a.fill_in(i, inner),
            Some(j) => b.fill_in(j, inner),
        },
    }
}

/// Cuts out the part so many levels down on the way to hole `i`, or the hole itself where it comes sooner, and leaves a hole
/// there.
#[cycle(cutting)]
fn cut_at(node: &mut Node, i: u64, levels: u32) -> Cut
    ensures part { tree_of result.part ≡ part_at (tree_of node.old) i levels }
    ensures index { result.index ≡ index_at (tree_of node.old) i levels }
    ensures rest { tree_of node.new ≡ rest_at (tree_of node.old) i levels }
{
    if levels > 0 {
        match node {
            Node::Hole(_) | Node::Axiom(_, _) => {}
            Node::First(_, _, a) => return a.cut(i, levels - 1),
            Node::Second(_, _, b) => return b.cut(i, levels - 1),
            Node::Both(_, _, a, b) => {
                return match a.past(i) {
                    None => a.cut(i, levels - 1),
                    Some(j) => b.cut(j, levels - 1),
                };
            }
        }
    }
    let part = taken(node);
    Cut { part, index: i }
}

/// Whether the root is a rule with premises.
fn has_premises(node: &Node) -> bool
    ensures { IsTrue result ↔ (0 < levels (tree_of node.now)) }
{
    match node {
        Node::Hole(_) | Node::Axiom(_, _) => false,
        Node::First(_, _, _) | Node::Second(_, _, _) | Node::Both(_, _, _, _) => true,
    }
}

/// Puts the root at hole `i`: the part below some levels is filled apart and put back.
fn fill_deep(node: &mut Node, i: u64, inner: Node)
    requires { i < hole_count (tree_of node.old) }
    ensures { tree_of node.new ≡ filled (tree_of node.old) i (tree_of inner) }
{
    if has_premises(node) {
        let Cut { mut part, index } = cut_at(node, i, LEVELS);
        fill_deep(&mut part, index, inner);
        fill_at(node, i - index, part);
    } else {
        fill_at(node, i, inner);
    }
}
