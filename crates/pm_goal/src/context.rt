//! Contexts: hypotheses and facts in their order, each found by its name.

ghost use Rattle.std.specs.Prelude.{◌≡◌, ◌∷◌, ◌++◌, ◌<◌, ◌^◌, [], None, length, position, slice_get, option_map, IfOk, IfSome, OnOk, OnErr};
ghost use Rattle.std.specs.Option.{option_copied};
ghost use Rattle.std.specs.Str.{bytes_eq};

use crate::copying::copy_map;
use crate::goal::{Fact, Hyp};
use indexmap::IndexMap;
use pm_logic::{Formula, Memory, Name, Pure};
use std::alloc::Global;
use std::marker::Model;

/// Hypotheses, no two of one name, in the order in which they were added. Contracts see the list of them. It keeps the
/// allocator that it was made with.
#[derive(Drop)]
pub struct Ctx {
    hyps: IndexMap<Name, Formula>,
}

impl Model for Ctx {
    ghost use Rattle.std.specs.Prelude.{List, ℕ, map};
    ghost use Rattle.pm_logic.specs.declared.formula.Formula.{Formula};
    ghost use Rattle.pm_goal.specs.declared.goal.Hyp.{Hyp};
    ghost use Rattle.std.specs.Coded.{codes};
    ghost use Rattle.pm_logic.specs.contracts.formula.Formula as e;

    ghost Value = { List Hyp };

    ghost coded = { Prim.hlevel (codes, e.the_row.coded) };

    ghost view = { λ it. map (λ (e : List ℕ × Formula). record { name = e.0; formula = e.1 }) it.hyps.entries };
}

impl Ctx {
    /// The context of no hypotheses. It takes no memory until it grows.
    pub fn new(alloc: Global) -> Ctx
        ensures { result ≡ [] }
    {
        Ctx {
            hyps: IndexMap::new(alloc),
        }
    }

    /// The same context once more, which shares the formulas. The error is want of memory, and then there is no copy.
    pub fn copy(&self, alloc: Global) -> Result<Ctx, Memory>
        ensures { IfOk result (λ copy. copy ≡ self.now) }
    {
        let hyps = copy_map(alloc, &self.hyps)?;
        Ok(Ctx { hyps })
    }

    /// Adds the hypothesis at the end. Its name isn't in the context. After an error, which is want of memory, the context is
    /// as before, and the hypothesis is dropped.
    pub fn push(&mut self, hyp: Hyp) -> Result<(), Memory>
        requires { position (λ h. bytes_eq hyp.name h.name) self.now ≡ None }
        ensures ok { OnOk result (self.new ≡ self.old ++ hyp ∷ []) }
        ensures err { OnErr result (self.new ≡ self.old) }
    {
        let (name, formula) = hyp.into_parts();
        self.hyps.insert(name, formula)?;
        Ok(())
    }

    /// How many hypotheses there are.
    pub fn len(&self) -> usize
        ensures { result ≡ length self.now }
    {
        self.hyps.len()
    }

    /// The name of the hypothesis at place `i`, counted from 0, and `None` from the length on.
    pub fn name(&self, i: usize) -> Option<&Name>
        ensures { option_map (λ x. x.now) result ≡ option_map (λ h. h.name) (slice_get self.now i) }
    {
        match self.hyps.get_index(i) {
            Some((name, _)) => Some(name),
            None => None,
        }
    }

    /// The formula of the hypothesis at place `i`, counted from 0, and `None` from the length on.
    pub fn formula(&self, i: usize) -> Option<&Formula>
        ensures { option_map (λ x. x.now) result ≡ option_map (λ h. h.formula) (slice_get self.now i) }
    {
        match self.hyps.get_index(i) {
            Some((_, formula)) => Some(formula),
            None => None,
        }
    }

    /// The place of the hypothesis of this name, counted from 0, and `None` where there is none.
    pub fn place(&self, name: &Name) -> Option<usize>
        ensures place { result ≡ position (λ h. bytes_eq name.now h.name) self.now }
        ensures within { IfSome result (λ i. i < length self.now) }
    {
        self.hyps.get_index_of(name)
    }
}

/// Facts, no two of one name, in the order in which they were added. Contracts see the list of them. It keeps the
/// allocator that it was made with.
#[derive(Drop)]
pub struct Facts {
    facts: IndexMap<Name, Pure>,
}

impl Model for Facts {
    ghost use Rattle.std.specs.Prelude.{List, ℕ, map};
    ghost use Rattle.pm_logic.specs.declared.formula.Pure.{Pure};
    ghost use Rattle.pm_goal.specs.declared.goal.Fact.{Fact};
    ghost use Rattle.std.specs.Coded.{codes};
    ghost use Rattle.pm_logic.specs.contracts.formula.Pure as e;

    ghost Value = { List Fact };

    ghost coded = { Prim.hlevel (codes, e.the_row.coded) };

    ghost view = { λ it. map (λ (e : List ℕ × Pure). record { name = e.0; pure = e.1 }) it.facts.entries };
}

impl Facts {
    /// The context of no facts. It takes no memory until it grows.
    pub fn new(alloc: Global) -> Facts
        ensures { result ≡ [] }
    {
        Facts {
            facts: IndexMap::new(alloc),
        }
    }

    /// The same context once more, which shares the pure formulas. The error is want of memory, and then there is no copy.
    pub fn copy(&self, alloc: Global) -> Result<Facts, Memory>
        ensures { IfOk result (λ copy. copy ≡ self.now) }
    {
        let facts = copy_map(alloc, &self.facts)?;
        Ok(Facts { facts })
    }

    /// Adds the fact at the end. Its name isn't in the context. After an error, which is want of memory, the context is
    /// as before, and the fact is dropped.
    pub fn push(&mut self, fact: Fact) -> Result<(), Memory>
        requires { position (λ f. bytes_eq fact.name f.name) self.now ≡ None }
        ensures ok { OnOk result (self.new ≡ self.old ++ fact ∷ []) }
        ensures err { OnErr result (self.new ≡ self.old) }
    {
        let (name, pure) = fact.into_parts();
        self.facts.insert(name, pure)?;
        Ok(())
    }

    /// How many facts there are.
    pub fn len(&self) -> usize
        ensures { result ≡ length self.now }
    {
        self.facts.len()
    }

    /// The name of the fact at place `i`, counted from 0, and `None` from the length on.
    pub fn name(&self, i: usize) -> Option<&Name>
        ensures { option_map (λ x. x.now) result ≡ option_map (λ f. f.name) (slice_get self.now i) }
    {
        match self.facts.get_index(i) {
            Some((name, _)) => Some(name),
            None => None,
        }
    }

    /// The pure formula of the fact at place `i`, counted from 0, and `None` from the length on.
    pub fn pure(&self, i: usize) -> Option<&Pure>
        ensures { option_map (λ x. x.now) result ≡ option_map (λ f. f.pure) (slice_get self.now i) }
    {
        match self.facts.get_index(i) {
            Some((_, pure)) => Some(pure),
            None => None,
        }
    }

    /// The place of the fact of this name, counted from 0, and `None` where there is none.
    pub fn place(&self, name: &Name) -> Option<usize>
        ensures place { result ≡ position (λ f. bytes_eq name.now f.name) self.now }
        ensures within { IfSome result (λ i. i < length self.now) }
    {
        self.facts.get_index_of(name)
    }
}
