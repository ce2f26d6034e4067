//! Why sentences are refused: the rows of refusals, and what a refusal says.

ghost use Rattle.std.specs.Prelude.{◌≡◌, ◌≤◌};
ghost use Rattle.pm_goal.specs.Refusals.{entry, family, number, gives_name};
ghost use Rattle.pm_goal.specs.declared.refusal.StepFault.TheVariants as fault;

use pm_logic::{Memory, Name};

/// The rows of refusals, in the order in which they are printed in tables. A refused sentence is refused by the first row
/// that holds, in the order that the directive gives them. To add a row, add it here, in `entry` below and in
/// specs/Refusals.antt, and say it in the table of refusals of docs/LANGUAGE.md; then `rt check` in this crate's folder.
#[derive(Clone, Copy, Debug, PartialEq, Eq)]
pub enum Row {
    /// The goal has no hypothesis or fact of this name of the kind that is wanted.
    NoSuchHypothesis,
    /// A name for a new thing is in use, or is `_` and digits.
    NameInUse,
    /// The hypothesis isn't spatial.
    NotSpatial,
    /// A name is given twice.
    NameGivenTwice,
    /// The goal has no variable of this name.
    NoSuchVariable,
    /// The conclusion is neither a wand nor an implication.
    NoHypothesisToIntroduce,
    /// An implication whose left side isn't persistent, and there are spatial hypotheses.
    ImplicationOverSpatial,
    /// The conclusion is no universal.
    NoVariableToIntroduce,
    /// The hypothesis doesn't split into two: no entry for `[p q]`.
    NotPair,
    /// The hypothesis has no two alternatives: no entry for `[p | q]`.
    NotAlternatives,
    /// The hypothesis isn't falsehood: no entry for `[]`.
    NotFalsehood,
    /// The hypothesis isn't pure: no entry for `%x`.
    NotPure,
    /// The hypothesis isn't persistent: no entry for `#p`.
    NotPersistent,
    /// The hypothesis is no equation: no entry for `->` or `<-`.
    NotEquation,
    /// What is specialised to a term is no universal.
    NotUniversal,
    /// What is specialised to a premise is no wand.
    NotWand,
    /// The hypothesis isn't the premise.
    NotThePremise,
    /// The premise isn't persistent.
    PremiseNotPersistent,
    /// The premise isn't pure.
    PremiseNotPure,
    /// The premise isn't closed by `//`.
    PremiseNotClosed,
    /// There is no lemma of this name.
    NoSuchLemma,
    /// What is applied doesn't reach the conclusion.
    ConclusionNotReached,
    /// The conclusion isn't one that `iSplit` splits.
    ConclusionNotSplit,
    /// The conclusion is no star.
    ConclusionNotStar,
    /// The conclusion is no disjunction.
    ConclusionNotDisjunction,
    /// The conclusion is no existential.
    ConclusionNotExistential,
    /// The hypothesis isn't the conclusion.
    NotTheConclusion,
    /// No hypothesis or fact proves the conclusion by itself.
    NoAssumption,
    /// `done` doesn't close the goal.
    NotDone,
    /// A hypothesis or fact mentions the variable.
    VariableMentioned,
    /// The hypothesis can't be framed in the conclusion.
    NothingFramed,
    /// The conclusion has no modality to introduce.
    NoModality,
    /// The modality doesn't allow what is in a context.
    ContextNotAllowed,
    /// The hypothesis is no update.
    NotUpdate,
    /// The conclusion is no update.
    ConclusionNotUpdate,
    /// What is to be unfolded is no call of a predicate.
    NotPredicateCall,
    /// What is to be folded isn't the body of that call.
    NotPredicateBody,
    /// The hypothesis isn't a points-to of all units.
    NotFullPointsTo,
    /// The conclusion has no pure reading.
    ConclusionNotPure,
    /// The conclusion is no linear atom.
    ConclusionNotLinear,
    /// There is no certificate among those that are tried.
    NoCertificate,
    /// The fact is no linear atom.
    FactNotLinear,
    /// The certificate doesn't add up.
    CertificateFails,
    /// The fact is no equation.
    FactNotEquation,
    /// The term doesn't occur.
    TermNotFound,
    /// An equation needs two certificates, any other conclusion one.
    WrongCertificateCount,
    /// No proof is open.
    NoOpenProof,
    /// A proof is open.
    ProofIsOpen,
    /// Goals remain, or the script ends inside a proof.
    GoalsRemain,
    /// A predicate or a proved lemma has this name.
    NameIsDefined,
    /// Fewer states are kept than `Undo` wants, or it wants none.
    TooFewStates,
    /// A brace with nothing to enter or to leave, or goals that remain in one that is left, or one that is open at
    /// `Qed`.
    WrongBrace,
    /// The predicate isn't guarded.
    NotGuarded,
    /// A sentence that only a session has.
    OutsideSession,
    /// A directive, and no goal is in focus.
    NoGoalInFocus,
    /// More variables, or parameters of a predicate, than a goal may have.
    TooManyVariables,
    /// More hypotheses and facts than a goal may have.
    TooManyHypotheses,
    /// More nodes than a goal or a body may have.
    TooManyNodes,
    /// A formula that is deeper than a goal's may be.
    TooDeep,
    /// A coefficient in linear arithmetic that is larger than 2^62.
    CoefficientTooLarge,
    /// One predicate more than a script may have.
    TooManyPredicates,
    /// One lemma more than a script may have.
    TooManyLemmas,
}

/// A refusal by a row, and the name that it names, if it names one.
#[derive(Debug)]
pub struct Refusal {
    pub row: Row,
    pub name: Option<Name>,
}

impl Drop for Refusal {
    fn drop(self) {
        let Refusal { row: _, name } = self;
        drop(name);
    }
}

/// Why a step gives no goals.
pub enum StepFault {
    /// The first row that holds, and what it is about.
    Refused(Refusal),
    /// Memory is wanting.
    Memory,
}

impl Drop for StepFault {
    fn drop(self) {
        match self {
            StepFault::Refused(refusal) => drop(refusal),
            StepFault::Memory => {}
        }
    }
}

impl From<Memory> for StepFault {
    ghost from_gives = { λ _ e. e ≡ fault.Memory };

    fn from(_e: Memory) -> StepFault {
        StepFault::Memory
    }
}

impl Row {
    /// The table of rows: the letter of the family and the number in it, by which the row is printed, and whether a refusal
    /// names the thing in question, where that was written as a name.
    fn entry(self) -> (u8, u8, bool)
        ensures { result ≡ entry self }
    {
        match self {
            Row::NoSuchHypothesis => (b'N', 1, true),
            Row::NameInUse => (b'N', 2, true),
            Row::NotSpatial => (b'N', 3, true),
            Row::NameGivenTwice => (b'N', 4, true),
            Row::NoSuchVariable => (b'N', 5, true),
            Row::NoHypothesisToIntroduce => (b'I', 1, false),
            Row::ImplicationOverSpatial => (b'I', 2, false),
            Row::NoVariableToIntroduce => (b'I', 3, false),
            Row::NotPair => (b'E', 1, false),
            Row::NotAlternatives => (b'E', 2, false),
            Row::NotFalsehood => (b'E', 3, false),
            Row::NotPure => (b'E', 4, false),
            Row::NotPersistent => (b'E', 5, false),
            Row::NotEquation => (b'E', 6, false),
            Row::NotUniversal => (b'S', 1, false),
            Row::NotWand => (b'S', 2, false),
            Row::NotThePremise => (b'S', 3, true),
            Row::PremiseNotPersistent => (b'S', 4, false),
            Row::PremiseNotPure => (b'S', 5, false),
            Row::PremiseNotClosed => (b'S', 6, false),
            Row::NoSuchLemma => (b'S', 7, true),
            Row::ConclusionNotReached => (b'A', 1, false),
            Row::ConclusionNotSplit => (b'B', 1, false),
            Row::ConclusionNotStar => (b'B', 2, false),
            Row::ConclusionNotDisjunction => (b'B', 3, false),
            Row::ConclusionNotExistential => (b'B', 4, false),
            Row::NotTheConclusion => (b'B', 5, false),
            Row::NoAssumption => (b'B', 6, false),
            Row::NotDone => (b'B', 7, false),
            Row::VariableMentioned => (b'B', 8, false),
            Row::NothingFramed => (b'F', 1, true),
            Row::NoModality => (b'M', 1, false),
            Row::ContextNotAllowed => (b'M', 2, false),
            Row::NotUpdate => (b'M', 3, false),
            Row::ConclusionNotUpdate => (b'M', 4, false),
            Row::NotPredicateCall => (b'L', 1, false),
            Row::NotPredicateBody => (b'L', 2, false),
            Row::NotFullPointsTo => (b'H', 1, false),
            Row::ConclusionNotPure => (b'P', 1, false),
            Row::ConclusionNotLinear => (b'P', 2, false),
            Row::NoCertificate => (b'P', 3, false),
            Row::FactNotLinear => (b'P', 4, true),
            Row::CertificateFails => (b'P', 5, false),
            Row::FactNotEquation => (b'P', 6, false),
            Row::TermNotFound => (b'P', 7, false),
            Row::WrongCertificateCount => (b'P', 8, false),
            Row::NoOpenProof => (b'Q', 1, false),
            Row::ProofIsOpen => (b'Q', 2, false),
            Row::GoalsRemain => (b'Q', 3, false),
            Row::NameIsDefined => (b'Q', 4, true),
            Row::TooFewStates => (b'Q', 5, false),
            Row::WrongBrace => (b'Q', 6, false),
            Row::NotGuarded => (b'Q', 7, true),
            Row::OutsideSession => (b'Q', 8, false),
            Row::NoGoalInFocus => (b'Q', 9, false),
            Row::TooManyVariables => (b'X', 1, false),
            Row::TooManyHypotheses => (b'X', 2, false),
            Row::TooManyNodes => (b'X', 3, false),
            Row::TooDeep => (b'X', 4, false),
            Row::CoefficientTooLarge => (b'X', 5, false),
            Row::TooManyPredicates => (b'X', 6, false),
            Row::TooManyLemmas => (b'X', 7, false),
        }
    }

    /// The letter of the row's family, in ASCII.
    pub fn family(self) -> u8
        ensures { result ≡ family self }
    {
        self.entry().0
    }

    /// The row's number in its family, from 1.
    pub fn number(self) -> u8
        ensures { result ≡ number self }
    {
        self.entry().1
    }

    /// Whether a refusal by the row names the thing in question. What has no name, as the pattern `$` or a group, isn't named.
    pub fn gives_name(self) -> bool
        ensures { result ≡ gives_name self }
    {
        self.entry().2
    }
}
