//! What is kept of the lines that were read, and one line more.

ghost use Rattle.std.specs.Prelude.{◌≡◌, ◌↔◌, ◌≤◌, ◌<◌, suc, IsTrue, length, Some};
ghost use Rattle.std.specs.Option.{option_copied};
ghost use Rattle.pm_logic.specs.declared.formula.Formula.TheVariants.{Pure as Fact};
ghost use Rattle.pm_logic.specs.declared.formula.Pure.TheVariants.{True};
ghost use Rattle.pm_check.specs.Lines.{cited, proof_line};

use crate::checked::{Checked, Statement};
use crate::fault::{CheckFault, Failed, QedCondition};
use pm_dtext::Line;
use pm_logic::{Formula, List, Name, Preds, Pure, copy};
use pm_name_sets::NameSet;
use pm_rules::{Entail, Rule, rule_ok};
use std::alloc::Global;

/// The proof line of this number, counted from 1.
fn proof_line(steps: &[Entail], number: u64) -> Option<&Entail>
    ensures { option_copied result ≡ proof_line steps.now number }
{
    if number == 0 {
        return None;
    }
    steps.get((number - 1) as usize)
}

/// The proof line of this number, which there is.
#[tactic(auto, using(crate::proofs::Keeping::line_there))]
fn line_of(steps: &[Entail], number: u64) -> &Entail
    requires some { 1 ≤ number }
    requires within { number ≤ length steps.now }
    ensures { proof_line steps.now number ≡ Some result.now }
{
    &steps[(number - 1) as usize]
}

fn is_truth(f: &Formula) -> bool
    ensures { IsTrue result ↔ (f.now ≡ Fact True) }
{
    matches!(f, Formula::Pure(Pure::True))
}

/// The refusal of a `qed` that cites this line.
fn qed_refused(line: u64, condition: QedCondition) -> CheckFault
    ensures { result ≡ CheckFault.Refused line (Failed.Qed condition) }
{
    CheckFault::Refused {
        line,
        failed: Failed::Qed(condition),
    }
}

/// What is kept of lines, each of which follows.
#[derive(Drop)]
pub struct Kept {
    pub preds: Preds,
    /// The proof lines.
    pub steps: Vec<Entail>,
    /// The names of the statements.
    pub names: NameSet,
    pub statements: List<Statement>,
}

impl Kept {
    ghost use Rattle.std.specs.Prelude.{[], suc, length};
    ghost use Rattle.pm_dtext.specs.declared.line.Line.TheVariants.{Step, Qed};
    ghost use Rattle.pm_dtext.specs.Ranges.{LineFits};
    ghost use Rattle.pm_dtext.specs.Texts.{arities_of};
    ghost use Rattle.pm_check.specs.Kept.{IsReady, Keeps, TakesLine};

    /// Nothing is kept yet.
    #[tactic(auto, using(crate::proofs::Keeping::keeps_none))]
    pub fn new(alloc: Global, preds: Preds) -> Kept
        ensures { Keeps preds [] result }
    {
        Kept {
            preds,
            steps: Vec::new(alloc),
            names: NameSet::new(alloc),
            statements: List::new(alloc),
        }
    }

    /// The premise that a citation gives.
    fn premise(&self, number: Option<u64>) -> Option<&Entail>
        ensures { option_copied result ≡ cited self.now.steps.items number }
    {
        match number {
            None => None,
            Some(number) => proof_line(&self.steps, number),
        }
    }

    /// Keeps a proof line that follows.
    #[tactic(auto, using(crate::proofs::Keeping::template_fit, crate::proofs::Keeping::line_fit, crate::proofs::Keeping::premises_fit, crate::proofs::Keeping::step_refused, crate::proofs::Keeping::step_kept, crate::proofs::Keeping::no_memory))]
    fn step(
        &mut self,
        rule: Rule,
        first: Option<u64>,
        second: Option<u64>,
        entail: Entail,
    ) -> Result<(), CheckFault>
        requires ready { IsReady self.now.preds self.now.steps.items }
        requires fits { LineFits (arities_of self.now.preds.list) (suc (length self.now.steps.items)) (Step rule first second entail) }
        ensures { TakesLine self.old (Step rule first second entail) self.new result }
    {
        let before = self.steps.len() as u64;
        let first = self.premise(first);
        let second = self.premise(second);
        if let Err(unmet) = rule_ok(&self.preds, &rule, first, second, &entail) {
            return Err(CheckFault::Refused {
                line: before + 1,
                failed: Failed::Step(unmet),
            });
        }
        self.steps.push(entail)?;
        Ok(())
    }

    /// Keeps a statement that follows.
    #[tactic(auto, using(crate::proofs::Keeping::has_variables, crate::proofs::Keeping::lacks_truth, crate::proofs::Keeping::name_taken, crate::proofs::Keeping::qed_kept, crate::proofs::Keeping::no_memory))]
    fn qed(&mut self, alloc: Global, name: Name, cited: u64) -> Result<(), CheckFault>
        requires fits { LineFits (arities_of self.now.preds.list) (suc (length self.now.steps.items)) (Qed name cited) }
        ensures { TakesLine self.old (Qed name cited) self.new result }
    {
        let line = line_of(&self.steps, cited);
        if line.vars != 0 {
            return Err(qed_refused(cited, QedCondition::Variables));
        }
        if !is_truth(&line.left) {
            return Err(qed_refused(cited, QedCondition::LeftSide));
        }
        if !self.names.insert(alloc, name.bytes())? {
            return Err(qed_refused(cited, QedCondition::Name));
        }
        let formula = copy(alloc, &line.right)?;
        self.statements.push(Statement { name, formula })?;
        Ok(())
    }

    /// Keeps the next line, where it follows.
    pub fn take(&mut self, alloc: Global, line: Line) -> Result<(), CheckFault>
        requires ready { IsReady self.now.preds self.now.steps.items }
        requires fits { LineFits (arities_of self.now.preds.list) (suc (length self.now.steps.items)) line }
        ensures { TakesLine self.old line self.new result }
    {
        match line {
            Line::Step {
                rule,
                first,
                second,
                entail,
            } => self.step(rule, first, second, entail),
            Line::Qed { name, cited } => self.qed(alloc, name, cited),
        }
    }

    /// The table and the statements.
    pub fn checked(self) -> Checked
        ensures preds { result.preds ≡ self.preds }
        ensures statements { result.statements ≡ self.statements }
    {
        Checked {
            preds: self.preds,
            statements: self.statements,
        }
    }
}
