//! Copies of entailments and rules, whose formulas share their parts.

ghost use Rattle.std.specs.Prelude.{◌≡◌, IfOk};

use pm_logic::{List, Memory, Term, copy, copy_term};
use pm_rules::{Entail, Rule};
use std::alloc::Global;

/// The same entailment once more. `Memory` is that of the copies of its sides.
pub fn copy_entail(alloc: Global, e: &Entail) -> Result<Entail, Memory>
    ensures { IfOk result (λ same. same ≡ e.now) }
{
    let left = copy(alloc, &e.left)?;
    let right = copy(alloc, &e.right)?;
    Ok(Entail {
        vars: e.vars,
        left,
        right,
    })
}

fn copy_terms(alloc: Global, terms: &[Term]) -> Result<List<Term>, Memory>
    ensures { IfOk result (λ same. same ≡ terms.now) }
{
    let mut same = List::new(alloc);
    for t in terms {
        same.push(copy_term(alloc, t)?)?;
    }
    Ok(same)
}

fn copy_factors(alloc: Global, factors: &[i64]) -> Result<List<i64>, Memory>
    ensures { IfOk result (λ same. same ≡ factors.now) }
{
    let mut same = List::new(alloc);
    for factor in factors {
        same.push(*factor)?;
    }
    Ok(same)
}

/// The same rule once more. `Memory` says that there is none for the list of an argument, or that a part has as many owners
/// as can be counted.
pub(crate) fn copy_rule(alloc: Global, rule: &Rule) -> Result<Rule, Memory>
    ensures { IfOk result (λ same. same ≡ rule.now) }
{
    match rule {
        Rule::Inst { sigma } => {
            let sigma = copy_terms(alloc, sigma.as_slice())?;
            Ok(Rule::Inst { sigma })
        }
        Rule::AllE { t } => Ok(Rule::AllE {
            t: copy_term(alloc, t)?,
        }),
        Rule::ExI { t } => Ok(Rule::ExI {
            t: copy_term(alloc, t)?,
        }),
        Rule::Linear { first, second } => {
            let first = copy_factors(alloc, first.as_slice())?;
            let second = copy_factors(alloc, second.as_slice())?;
            Ok(Rule::Linear { first, second })
        }
        Rule::Rewrite { template } => Ok(Rule::Rewrite {
            template: copy(alloc, template)?,
        }),
        Rule::Refl => Ok(Rule::Refl),
        Rule::Trans => Ok(Rule::Trans),
        Rule::True => Ok(Rule::True),
        Rule::False => Ok(Rule::False),
        Rule::AndL => Ok(Rule::AndL),
        Rule::AndR => Ok(Rule::AndR),
        Rule::AndI => Ok(Rule::AndI),
        Rule::OrL => Ok(Rule::OrL),
        Rule::OrR => Ok(Rule::OrR),
        Rule::OrE => Ok(Rule::OrE),
        Rule::ImpI => Ok(Rule::ImpI),
        Rule::ImpE => Ok(Rule::ImpE),
        Rule::AllI => Ok(Rule::AllI),
        Rule::ExE => Ok(Rule::ExE),
        Rule::SepMono => Ok(Rule::SepMono),
        Rule::SepComm => Ok(Rule::SepComm),
        Rule::SepAssocR => Ok(Rule::SepAssocR),
        Rule::SepAssocL => Ok(Rule::SepAssocL),
        Rule::SepUnit => Ok(Rule::SepUnit),
        Rule::SepWeaken => Ok(Rule::SepWeaken),
        Rule::WandI => Ok(Rule::WandI),
        Rule::WandE => Ok(Rule::WandE),
        Rule::LaterMono => Ok(Rule::LaterMono),
        Rule::LaterIntro => Ok(Rule::LaterIntro),
        Rule::Loeb => Ok(Rule::Loeb),
        Rule::LaterSep => Ok(Rule::LaterSep),
        Rule::SepLater => Ok(Rule::SepLater),
        Rule::LaterAnd => Ok(Rule::LaterAnd),
        Rule::LaterOr => Ok(Rule::LaterOr),
        Rule::LaterAll => Ok(Rule::LaterAll),
        Rule::LaterEx => Ok(Rule::LaterEx),
        Rule::PersMono => Ok(Rule::PersMono),
        Rule::PersElim => Ok(Rule::PersElim),
        Rule::PersIdem => Ok(Rule::PersIdem),
        Rule::PersDup => Ok(Rule::PersDup),
        Rule::PersPure => Ok(Rule::PersPure),
        Rule::PersAnd => Ok(Rule::PersAnd),
        Rule::PersOr => Ok(Rule::PersOr),
        Rule::PersAll => Ok(Rule::PersAll),
        Rule::PersEx => Ok(Rule::PersEx),
        Rule::PersLater => Ok(Rule::PersLater),
        Rule::LaterPers => Ok(Rule::LaterPers),
        Rule::UpdMono => Ok(Rule::UpdMono),
        Rule::UpdIntro => Ok(Rule::UpdIntro),
        Rule::UpdTrans => Ok(Rule::UpdTrans),
        Rule::UpdFrame => Ok(Rule::UpdFrame),
        Rule::UpdPure => Ok(Rule::UpdPure),
        Rule::PureAnd => Ok(Rule::PureAnd),
        Rule::AndPure => Ok(Rule::AndPure),
        Rule::PureOr => Ok(Rule::PureOr),
        Rule::OrPure => Ok(Rule::OrPure),
        Rule::Not => Ok(Rule::Not),
        Rule::Em => Ok(Rule::Em),
        Rule::PtsSplit => Ok(Rule::PtsSplit),
        Rule::PtsJoin => Ok(Rule::PtsJoin),
        Rule::PtsAgree => Ok(Rule::PtsAgree),
        Rule::PtsOver => Ok(Rule::PtsOver),
        Rule::PtsWrite => Ok(Rule::PtsWrite),
        Rule::PtsNew => Ok(Rule::PtsNew),
        Rule::Fold => Ok(Rule::Fold),
        Rule::Unfold => Ok(Rule::Unfold),
        Rule::Timeless => Ok(Rule::Timeless),
    }
}
