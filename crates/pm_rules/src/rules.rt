//! Entailments, rules and what is answered of them.

ghost use Rattle.std.specs.Prelude.{◌≡◌};

use pm_logic::{Formula, List, Term};

/// With `vars` variables, `left` entails `right`.
pub struct Entail {
    pub vars: u32,
    pub left: Formula,
    pub right: Formula,
}

/// The rules, by the names of their rows in the table of `specs/Rows.antt`, with what a row takes besides its premises and
/// its conclusion.
pub enum Rule {
    Refl,
    Trans,
    /// A term for each variable of the premise.
    Inst { sigma: List<Term> },
    True,
    False,
    AndL,
    AndR,
    AndI,
    OrL,
    OrR,
    OrE,
    ImpI,
    ImpE,
    AllI,
    /// The term that stands for the bound variable in the body.
    AllE { t: Term },
    /// The term that stands for the bound variable in the body.
    ExI { t: Term },
    ExE,
    SepMono,
    SepComm,
    SepAssocR,
    SepAssocL,
    SepUnit,
    SepWeaken,
    WandI,
    WandE,
    LaterMono,
    LaterIntro,
    Loeb,
    LaterSep,
    SepLater,
    LaterAnd,
    LaterOr,
    LaterAll,
    LaterEx,
    PersMono,
    PersElim,
    PersIdem,
    PersDup,
    PersPure,
    PersAnd,
    PersOr,
    PersAll,
    PersEx,
    PersLater,
    LaterPers,
    UpdMono,
    UpdIntro,
    UpdTrans,
    UpdFrame,
    UpdPure,
    PureAnd,
    AndPure,
    PureOr,
    OrPure,
    Not,
    Em,
    /// The factors of the negated conclusion and of each fact, and where the conclusion is an equation a second such list,
    /// for it read the other way.
    Linear { first: List<i64>, second: List<i64> },
    Rewrite { template: Formula },
    PtsSplit,
    PtsJoin,
    PtsAgree,
    PtsOver,
    PtsWrite,
    PtsNew,
    Fold,
    Unfold,
    Timeless,
}

/// What the row of a rule asks, in the order in which it is tested.
#[derive(Clone, Copy, Debug, PartialEq, Eq)]
pub enum Condition {
    /// There are as many premises as the row has.
    Premises,
    /// They have the row's number of variables.
    Variables,
    /// An instance has a term for each variable of its premise.
    Arguments,
    /// Premises and conclusion have the row's shapes, where a letter stands for one formula throughout.
    Shape,
    /// What the row asks besides holds.
    Bracket,
}

impl Condition {
    ghost use Rattle.pm_rules.specs.Rules.{condition_number};

    /// The number that is printed for the condition, from 1.
    pub fn number(self) -> u8
        ensures { result ≡ condition_number self }
    {
        match self {
            Condition::Premises => 1,
            Condition::Variables => 2,
            Condition::Arguments => 3,
            Condition::Shape => 4,
            Condition::Bracket => 5,
        }
    }
}

/// The number of a rule, and the first condition of its row that is unmet.
#[derive(Clone, Copy, Debug, PartialEq, Eq)]
pub struct Unmet {
    pub rule: u8,
    pub condition: Condition,
}

// Written out, since a contract then sees one call where a value is let go, and not the layout of the rule.

impl Drop for Entail {
    fn drop(self) {
        let Entail {
            vars: _,
            left,
            right,
        } = self;
        drop(left);
        drop(right);
    }
}

impl Drop for Rule {
    fn drop(self) {
        match self {
            Rule::Inst { sigma } => drop(sigma),
            Rule::AllE { t } | Rule::ExI { t } => drop(t),
            Rule::Linear { first, second } => {
                drop(first);
                drop(second);
            }
            Rule::Rewrite { template } => drop(template),
            Rule::Refl
            | Rule::Trans
            | Rule::True
            | Rule::False
            | Rule::AndL
            | Rule::AndR
            | Rule::AndI
            | Rule::OrL
            | Rule::OrR
            | Rule::OrE
            | Rule::ImpI
            | Rule::ImpE
            | Rule::AllI
            | Rule::ExE
            | Rule::SepMono
            | Rule::SepComm
            | Rule::SepAssocR
            | Rule::SepAssocL
            | Rule::SepUnit
            | Rule::SepWeaken
            | Rule::WandI
            | Rule::WandE
            | Rule::LaterMono
            | Rule::LaterIntro
            | Rule::Loeb
            | Rule::LaterSep
            | Rule::SepLater
            | Rule::LaterAnd
            | Rule::LaterOr
            | Rule::LaterAll
            | Rule::LaterEx
            | Rule::PersMono
            | Rule::PersElim
            | Rule::PersIdem
            | Rule::PersDup
            | Rule::PersPure
            | Rule::PersAnd
            | Rule::PersOr
            | Rule::PersAll
            | Rule::PersEx
            | Rule::PersLater
            | Rule::LaterPers
            | Rule::UpdMono
            | Rule::UpdIntro
            | Rule::UpdTrans
            | Rule::UpdFrame
            | Rule::UpdPure
            | Rule::PureAnd
            | Rule::AndPure
            | Rule::PureOr
            | Rule::OrPure
            | Rule::Not
            | Rule::Em
            | Rule::PtsSplit
            | Rule::PtsJoin
            | Rule::PtsAgree
            | Rule::PtsOver
            | Rule::PtsWrite
            | Rule::PtsNew
            | Rule::Fold
            | Rule::Unfold
            | Rule::Timeless => {}
        }
    }
}
