//! The conditions of a row.

ghost use Rattle.std.specs.Prelude.{◌≡◌, ◌↔◌, ◌≤◌, IsTrue, length};
ghost use Rattle.std.specs.List.{AllByRecursion};
ghost use Rattle.pm_logic.specs.Scope.{ScopedIn};
ghost use Rattle.pm_logic.specs.Size.{depth_of};
ghost use Rattle.pm_rules.specs.Rows.{row, HasArguments, HasBracket};
ghost use Rattle.pm_rules.specs.Read.{frame_of, HasEquations, given_of};
ghost use Rattle.pm_rules.specs.Rules.{number_of, rule_number, count_of, premise_count, HasPremises, HasVariables, HasShape, AreFit, HasFitTemplate, HasFitBodies};

use crate::certificates::has_factors;
use crate::equations::{
    is_all_e, is_ex_i, is_fold, is_inst, is_later_timeless, is_overfull, is_pts_agree, is_pts_new,
    is_pts_over, is_pts_split, is_pts_write, is_rewrite,
};
use crate::given::Given;
use crate::linear::is_linear;
use crate::quantifiers::{is_all_intro, is_ex_elim};
use crate::rules::{Entail, Rule};
use crate::shapes::has_letters;
use crate::table::{Premises, Row, row_for};
use pm_logic::{BOUND, Preds};

/// The number of the row.
fn row_number(row: &Row) -> u8
    ensures { result ≡ number_of (frame_of row.now) }
{
    match row {
        Row::Shapes { number, .. }
        | Row::AllIntro { number }
        | Row::ExElim { number }
        | Row::Computed { number, .. } => *number,
    }
}

/// The number of the rule's row.
pub fn rule_number(rule: &Rule) -> u8
    ensures { result ≡ rule_number rule.now }
{
    row_number(row_for(rule))
}

/// How many premises the row has.
fn row_count(row: &Row) -> u8
    ensures { result ≡ count_of (frame_of row.now) }
{
    match row {
        Row::Shapes { premises, .. } => match premises {
            Premises::Zero => 0,
            Premises::One(_) => 1,
            Premises::Two(..) => 2,
        },
        Row::AllIntro { .. } | Row::ExElim { .. } => 1,
        Row::Computed { premises, .. } => *premises,
    }
}

/// How many premises the rule takes.
pub fn premise_count(rule: &Rule) -> u8
    ensures { result ≡ premise_count rule.now }
{
    row_count(row_for(rule))
}

/// How many premises there are.
fn given_count(ps: Given) -> u8
    ensures { result ≡ length (given_of ps.entry) }
{
    match ps {
        Given::Zero => 0,
        Given::One(_) => 1,
        Given::Two(..) => 2,
    }
}

/// Whether there are as many premises as the row has.
pub fn has_premises(rule: &Rule, ps: Given) -> bool
    ensures { IsTrue result ↔ HasPremises rule.now (given_of ps.entry) }
{
    given_count(ps) == premise_count(rule)
}

/// Whether each premise has so many variables.
fn have_variables(ps: Given, vars: u64) -> bool
    ensures { IsTrue result ↔ AllByRecursion (λ p. p.vars ≡ vars) (given_of ps.entry) }
{
    match ps {
        Given::Zero => true,
        Given::One(p) => u64::from(p.vars) == vars,
        Given::Two(p, q) => u64::from(p.vars) == vars && u64::from(q.vars) == vars,
    }
}

/// Whether the premises have the row's variables.
pub fn has_variables(rule: &Rule, ps: Given, e: &Entail) -> bool
    ensures { IsTrue result ↔ HasVariables rule.now (given_of ps.entry) e.now }
{
    match row_for(rule) {
        Row::Shapes { .. } => have_variables(ps, u64::from(e.vars)),
        Row::AllIntro { .. } | Row::ExElim { .. } => have_variables(ps, u64::from(e.vars) + 1),
        Row::Computed { .. } => true,
    }
}

/// Whether there is a term for each variable of the premise.
#[tactic(auto, unfolding(crate::specs::Rows::HasArguments))]
pub fn has_arguments(rule: &Rule, ps: Given) -> bool
    ensures { IsTrue result ↔ HasArguments rule.now (given_of ps.entry) }
{
    match rule {
        Rule::Inst { sigma } => have_variables(ps, sigma.len() as u64),
        _ => true,
    }
}

/// Whether the sides are computed as the row says.
#[tactic(auto, unfolding(crate::specs::Rules::HasFitTemplate, crate::specs::Rows::HasArguments))]
fn has_equations(preds: &Preds, rule: &Rule, ps: Given, e: &Entail) -> bool
    requires bodies { HasFitBodies preds.now }
    requires template { HasFitTemplate preds.now rule.now e.now.vars }
    requires premises { AllByRecursion (AreFit preds.now) (given_of ps) }
    requires conclusion { AreFit preds.now e.now }
    requires arguments { HasArguments rule.now (given_of ps) }
    ensures { IsTrue result ↔ HasEquations (row rule.now) preds.now (given_of ps.entry) e.now }
{
    let left = &e.left;
    let right = &e.right;
    match rule {
        Rule::Inst { sigma } => match ps {
            Given::One(p) => is_inst(sigma, p, e),
            _ => false,
        },
        Rule::AllE { t } => is_all_e(t, left, right),
        Rule::ExI { t } => is_ex_i(t, left, right),
        Rule::Linear { .. } => is_linear(left, right),
        Rule::Rewrite { template } => is_rewrite(template, left, right),
        Rule::PtsSplit => is_pts_split(left, right),
        Rule::PtsJoin => is_pts_split(right, left),
        Rule::PtsAgree => is_pts_agree(left, right),
        Rule::PtsOver => is_pts_over(left, right),
        Rule::PtsWrite => is_pts_write(left, right),
        Rule::PtsNew => is_pts_new(right),
        Rule::Fold => is_fold(preds, left, right),
        Rule::Unfold => is_fold(preds, right, left),
        _ => false,
    }
}

/// Whether premises and conclusion have the row's shapes, or stand in its relation.
#[tactic(auto, using(crate::proofs::Framed::related))]
pub fn has_shape(preds: &Preds, rule: &Rule, ps: Given, e: &Entail) -> bool
    requires bodies { HasFitBodies preds.now }
    requires template { HasFitTemplate preds.now rule.now e.now.vars }
    requires premises { AllByRecursion (AreFit preds.now) (given_of ps) }
    requires conclusion { AreFit preds.now e.now }
    requires arguments { HasArguments rule.now (given_of ps) }
    ensures { IsTrue result ↔ HasShape preds.now rule.now (given_of ps.entry) e.now }
{
    match row_for(rule) {
        Row::Shapes {
            premises,
            gives,
            ..
        } => has_letters(premises, gives, ps, e),
        Row::AllIntro { .. } => is_all_intro(ps, e),
        Row::ExElim { .. } => is_ex_elim(ps, e),
        Row::Computed { .. } => has_equations(preds, rule, ps, e),
    }
}

/// Whether the row's bracket holds.
#[tactic(auto, unfolding(crate::specs::Rows::HasBracket))]
pub fn has_bracket(rule: &Rule, e: &Entail) -> bool
    requires left { ScopedIn e.now.vars e.now.left }
    requires right { ScopedIn e.now.vars e.now.right }
    requires depth { depth_of e.now.left ≤ BOUND }
    ensures { IsTrue result ↔ HasBracket rule.now e.now }
{
    match rule {
        Rule::Linear { first, second } => has_factors(
            first.as_slice(),
            second.as_slice(),
            e.vars,
            &e.left,
            &e.right,
        ),
        Rule::PtsOver => is_overfull(&e.left),
        Rule::Timeless => is_later_timeless(&e.left),
        _ => true,
    }
}
