//! Lines that are being written, each behind those that it cites.

ghost use Rattle.std.specs.Prelude.{◌≡◌, ◌↔◌, ◌<◌, [], ◌++◌, List, Some, length, reverse, IsTrue, IfOk, OnOk, IfSome};
ghost use Rattle.pm_logic.specs.declared.formula.Preds.{Preds};
ghost use Rattle.pm_logic.specs.Integers.{TermsAreI64};
ghost use Rattle.pm_dtext.specs.declared.line.Line.{Line};
ghost use Rattle.pm_dtext.specs.declared.line.Line.TheVariants.{Step};
ghost use Rattle.pm_proof.specs.Trees.{Tree, conclusion, rule_of};
ghost use Rattle.pm_proof.specs.Parts.{premises_of};
ghost use Rattle.pm_write.specs.Writing.{Keeps, Holds, Adds, Closes, Recalls, Stand, Cites, AreThere, AreRecalled, IsConcluded, IsSound, RuleIsI64, EntailIsI64};

use crate::lines::{put_qed, put_step};
use crate::recalled::{number_at, place_of};
use pm_logic::{Bytes, Memory, Name, Term, formula_is_i64, same, term_is_i64};
use pm_proof::Branch;
use pm_rules::{Entail, Rule};
use std::alloc::Global;

/// What an earlier proof concludes, and the number of the proof line that says so.
#[derive(Clone, Copy)]
pub struct Earlier<'a> {
    pub entail: &'a Entail,
    pub number: u64,
}

/// The numbers of the proof lines that a line cites.
#[derive(Clone, Copy)]
pub struct Citations {
    pub first: Option<u64>,
    pub second: Option<u64>,
}

/// The lines behind a table of predicates.
#[derive(Drop)]
pub struct Written {
    /// The lines as they are spelled.
    pub text: Bytes,
    /// How many of them are proof lines.
    pub count: u64,
}

/// Whether both are the same entailment.
pub fn same_entail(a: &Entail, b: &Entail) -> bool
    ensures { IsTrue result ↔ (a.now ≡ b.now) }
{
    a.vars == b.vars && same(&a.left, &b.left) && same(&a.right, &b.right)
}

/// The number of the line of the first earlier proof that concludes `e`.
fn earlier_line(e: &Entail, earlier: &[Earlier]) -> Option<u64>
    ensures { IfSome result (λ n. IsConcluded earlier.now e.now n) }
{
    for known in earlier {
        if same_entail(known.entail, e) {
            return Some(known.number);
        }
    }
    None
}

#[tactic(auto, using(pm_logic::proofs::Words64::list_integers))]
fn terms_are_i64(ts: &[Term])
    ensures { TermsAreI64 ts.now }
{
    for t in ts {
        term_is_i64(t);
    }
}

/// The integers in what the rule takes besides its premises and its conclusion have 64 bits.
#[tactic(auto, unfolding(crate::specs::Writing::RuleIsI64))]
fn rule_is_i64(rule: &Rule)
    ensures { RuleIsI64 rule.now }
{
    match rule {
        Rule::Inst { sigma } => terms_are_i64(sigma.as_slice()),
        Rule::AllE { t } => term_is_i64(t),
        Rule::ExI { t } => term_is_i64(t),
        Rule::Rewrite { template } => formula_is_i64(template),
        _ => {}
    }
}

fn entail_is_i64(e: &Entail)
    ensures { EntailIsI64 e.now }
{
    formula_is_i64(&e.left);
    formula_is_i64(&e.right);
}

/// Takes the numbers of the lines of the part's premises from the end, where the first one's stands last.
pub fn take_citations(part: &Branch, built: &mut Vec<u64>) -> Citations
    ensures { (lines : List Line) (rest : List Tree) → Stand lines (premises_of part.now ++ rest) (reverse built.old.items) → Cites lines (premises_of part.now) result.first result.second × Stand lines rest (reverse built.new.items) }
{
    match (part.first(), part.second()) {
        (None, None) => Citations {
            first: None,
            second: None,
        },
        (Some(_), Some(_)) => {
            let first = built.pop();
            let second = built.pop();
            Citations { first, second }
        }
        _ => Citations {
            first: built.pop(),
            second: None,
        },
    }
}

impl Written {
    /// No lines.
    pub fn new(alloc: Global) -> Written
        ensures { Keeps result [] }
    {
        Written {
            text: Bytes::new(alloc),
            count: 0,
        }
    }

    /// Adds a proof line, and answers its number.
    fn step(
        &mut self,
        alloc: Global,
        rule: &Rule,
        cited: Citations,
        e: &Entail,
    ) -> Result<u64, Memory>
        ensures { IfOk result (λ n. Adds self.old self.new n (Step rule.now cited.first cited.second e.now)) }
    {
        let number = self.count.checked_add(1).ok_or(Memory)?;
        put_step(
            alloc,
            &mut self.text,
            number,
            rule,
            cited.first,
            cited.second,
            e,
        )?;
        self.count = number;
        Ok(number)
    }

    /// Adds the statement of the proof line of this number.
    pub fn state(&mut self, alloc: Global, name: &Name, number: u64) -> Result<(), Memory>
        ensures { OnOk result (Closes self.old self.new name.now number) }
    {
        put_qed(alloc, &mut self.text, name.bytes(), number)
    }

    /// Adds the line of a rule.
    fn rule(
        &mut self,
        alloc: Global,
        rule: &Rule,
        cited: Citations,
        e: &Entail,
    ) -> Result<u64, Memory>
        ensures line { IfOk result (λ n. Adds self.old self.new n (Step rule.now cited.first cited.second e.now)) }
        ensures rule { RuleIsI64 rule.now }
        ensures entail { EntailIsI64 e.now }
    {
        rule_is_i64(rule);
        entail_is_i64(e);
        self.step(alloc, rule, cited, e)
    }

    /// The number of the line that a part with a rule ends with: one that is recalled, or else a line more.
    fn line<'a>(
        &mut self,
        alloc: Global,
        part: &Branch<'a>,
        rule: &Rule,
        cited: Citations,
        recalled: &mut [Option<Earlier<'a>>],
    ) -> Result<u64, Memory>
        requires rule { Some rule.now ≡ rule_of part.now }
        requires places { 0 < length recalled.old }
        ensures length { length recalled.new ≡ length recalled.old }
        ensures line { IfOk result (λ n. (preds : Preds) (lines : List Line) → Holds preds self.old lines → AreRecalled lines recalled.old → IsSound preds part.now → Cites lines (premises_of part.now) cited.first cited.second → Recalls preds lines self.new n (conclusion part.now) recalled.new) }
    {
        let entail = part.entail();
        let at = place_of(entail, recalled.len());
        if let Some(number) = number_at(recalled, at, entail) {
            return Ok(number);
        }
        let number = self.rule(alloc, rule, cited, entail)?;
        recalled[at] = Some(Earlier { entail, number });
        Ok(number)
    }

    /// The number of the line that a part ends with. Where it is a hole, that is the line of an earlier proof.
    pub fn place<'a>(
        &mut self,
        alloc: Global,
        earlier: &[Earlier],
        part: &Branch<'a>,
        cited: Citations,
        recalled: &mut [Option<Earlier<'a>>],
    ) -> Result<u64, Memory>
        requires { 0 < length recalled.old }
        ensures length { length recalled.new ≡ length recalled.old }
        ensures line { IfOk result (λ n. (preds : Preds) (lines : List Line) → Holds preds self.old lines → AreThere lines earlier.now → AreRecalled lines recalled.old → IsSound preds part.now → Cites lines (premises_of part.now) cited.first cited.second → Recalls preds lines self.new n (conclusion part.now) recalled.new) }
    {
        match part.rule() {
            // A hole that no earlier proof concludes is none that can be written.
            None => match earlier_line(part.entail(), earlier) {
                Some(number) => Ok(number),
                None => Err(Memory),
            },
            Some(rule) => self.line(alloc, part, rule, cited, recalled),
        }
    }
}
