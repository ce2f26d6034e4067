//! Whether a rule leads from premises to a conclusion.

ghost use Rattle.std.specs.Prelude.{◌≡◌, ◌↔◌, IsOk};
ghost use Rattle.std.specs.List.{AllByRecursion};
ghost use Rattle.std.specs.Option.{option_copied};
ghost use Rattle.pm_rules.specs.Rules.{premises, RuleOk, Decides, AreFit, HasFitTemplate, HasFitBodies};

use crate::conditions::{
    has_arguments, has_bracket, has_premises, has_shape, has_variables, rule_number,
};
use crate::given::in_order;
use crate::rules::{Condition, Entail, Rule, Unmet};
use pm_logic::Preds;

/// Whether `rule` leads from the premises, which are those of `first` and `second` that are there, in this order, to
/// `conclusion` under the table `preds`. It takes no memory.
///
/// The error names the rule and the first condition of its row that is unmet.
///
/// Each formula is scoped in the table and in its entailment's variables, a rule's template in one variable more than the
/// conclusion has, and each body of the table in its arity. Each such number is, with the formula's depth, at most `BOUND`.
pub fn rule_ok(
    preds: &Preds,
    rule: &Rule,
    first: Option<&Entail>,
    second: Option<&Entail>,
    conclusion: &Entail,
) -> Result<(), Unmet>
    requires bodies { HasFitBodies preds.now }
    requires template { HasFitTemplate preds.now rule.now conclusion.now.vars }
    requires premises { AllByRecursion (AreFit preds.now) (premises (option_copied first) (option_copied second)) }
    requires conclusion { AreFit preds.now conclusion.now }
    ensures exactly { IsOk result ↔ RuleOk preds.now rule.now (premises (option_copied first.entry) (option_copied second.entry)) conclusion.now }
    ensures decides { Decides preds.now rule.now (premises (option_copied first.entry) (option_copied second.entry)) conclusion.now result }
{
    let number = rule_number(rule);
    let unmet = |condition: Condition| Unmet {
        rule: number,
        condition,
    };
    let ps = in_order(first, second);
    if !has_premises(rule, ps) {
        return Err(unmet(Condition::Premises));
    }
    if !has_variables(rule, ps, conclusion) {
        return Err(unmet(Condition::Variables));
    }
    if !has_arguments(rule, ps) {
        return Err(unmet(Condition::Arguments));
    }
    if !has_shape(preds, rule, ps, conclusion) {
        return Err(unmet(Condition::Shape));
    }
    if !has_bracket(rule, conclusion) {
        return Err(unmet(Condition::Bracket));
    }
    Ok(())
}
