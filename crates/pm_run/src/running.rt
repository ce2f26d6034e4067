//! A script that is being run.

ghost use Rattle.std.specs.Prelude.{◌≡◌, ◌≤◌, ◌<◌, ◌^◌, not, IfOk, OnOk, IsTrue, length, is_some};
ghost use Rattle.pm_name_sets.specs.Sets.{has};
ghost use Rattle.pm_goal.specs.Refusals.{refusal};
ghost use Rattle.pm_goal.specs.declared.refusal.StepFault.TheVariants.{Refused};
ghost use Rattle.pm_proof.specs.Joins.{IsComplete};
ghost use Rattle.pm_run.specs.Runs.{start, opening};
ghost use Rattle.pm_directives.specs.Built.{IsBuilt};
ghost use Rattle.pm_run.specs.Keeping.{Keeps, IsKept, scope_of, TermsFit, IsHanded, TakesBack, UsesLastName, PredicateRow, LemmaRow, AddsPredicate, Opens, Begins, IsBegun, IsProved, Closes, Directs, DirectsIf, StatesNothing, DoesSentence};

use crate::proof::Proof;
use crate::rows::{row_if, size_row};
use pm_directives::is_built;
use pm_goal::{Ctx, Facts, Goal, Lemma, Lemmas, Refusal, Row, StepFault};
use pm_logic::{
    Formula, List, MAX_LEMMAS, MAX_LEVELS, MAX_NODES, MAX_PREDICATES, MAX_VARIABLES, Memory, Name,
    Pred, Preds, copy, copy_name, depth, guarded, nodes,
};
use pm_name_sets::NameSet;
use pm_proof::join;
use pm_script::{Directive, Sentence, Stated};
use pm_write::Named;
use std::alloc::Global;

/// What has become of a script so far: its predicates, its proved lemmas, and the proof that is open.
#[derive(Drop)]
pub struct Running {
    pub preds: Preds,
    /// The names of predicates and proved lemmas.
    pub names: NameSet,
    /// The proved lemmas, in order.
    pub lemmas: Lemmas,
    /// Proofs of them.
    pub proofs: List<Named>,
    pub proof: Option<Proof>,
}

/// What has become of a sentence.
#[derive(Drop)]
pub enum Done {
    /// It was done.
    Moved,
    Refused(Refusal),
    /// It is none that is built.
    Unbuilt,
}

/// A refusal by this row of what is about this name.
fn refused(row: Row, name: Name) -> Done
    ensures { result ≡ Done.Refused (refusal row name) }
{
    if row.gives_name() {
        let name = Some(name);
        Done::Refused(Refusal { row, name })
    } else {
        Done::Refused(Refusal { row, name: None })
    }
}

fn copy_refusal(alloc: Global, refusal: &Refusal) -> Result<Refusal, Memory>
    ensures { IfOk result (λ copy. copy ≡ refusal.now) }
{
    match &refusal.name {
        Some(name) => {
            let name = Some(copy_name(alloc, name)?);
            Ok(Refusal {
                row: refusal.row,
                name,
            })
        }
        None => Ok(Refusal {
            row: refusal.row,
            name: None,
        }),
    }
}

/// The refusal of a step that gives no goals. The error is want of memory, also where that is why it gives none.
fn refusal_of(alloc: Global, fault: &StepFault) -> Result<Refusal, Memory>
    ensures { IfOk result (λ refusal. fault.now ≡ Refused refusal) }
{
    match fault {
        StepFault::Refused(refusal) => copy_refusal(alloc, refusal),
        StepFault::Memory => Err(Memory),
    }
}

/// The proof of a lemma, of which nothing is done.
fn opened(alloc: Global, name: Name, statement: Formula) -> Result<Proof, Memory>
    ensures { IfOk result (IsBegun name statement) }
{
    let mut goals = List::new(alloc);
    goals.push(opening(alloc, &statement)?)?;
    Ok(Proof {
        name,
        statement,
        steps: Vec::new(alloc),
        goals,
    })
}

/// The goal that a lemma opens with.
fn opening(alloc: Global, statement: &Formula) -> Result<Goal, Memory>
    ensures { IfOk result (λ goal. goal ≡ opening statement.now) }
{
    let concl = copy(alloc, statement)?;
    Ok(Goal {
        vars: List::new(alloc),
        pures: Facts::new(alloc),
        ints: Ctx::new(alloc),
        spats: Ctx::new(alloc),
        concl,
    })
}

impl Running {
    /// Nothing was done yet.
    pub fn new(alloc: Global) -> Running
        ensures { Keeps result start }
    {
        Running {
            preds: Preds {
                list: List::new(alloc),
            },
            names: NameSet::new(alloc),
            lemmas: Lemmas {
                list: List::new(alloc),
            },
            proofs: List::new(alloc),
            proof: None,
        }
    }

    fn is_open(&self) -> bool
        ensures { result ≡ is_some self.now.proof }
    {
        self.proof.is_some()
    }

    fn is_used(&self, name: &Name) -> bool
        ensures { result ≡ has self.now.names name.now }
    {
        self.names.contains(name.bytes())
    }

    /// The row that refuses a predicate, which is the last of the table already: with this many parameters, and a body of
    /// so many nodes and so deep.
    fn predicate_row(&self, used: bool, count: usize, all: u64, deepest: u32) -> Option<Row>
        requires some { 1 ≤ length self.now.preds.list }
        requires few { length self.now.preds.list < 2 ^ 32 }
        ensures { PredicateRow self.now used count all deepest result }
    {
        let last = self.preds.list.len() - 1;
        let deep = row_if(deepest > MAX_LEVELS, Row::TooDeep, None);
        let large = row_if(all > MAX_NODES, Row::TooManyNodes, deep);
        let wide = row_if(count > MAX_VARIABLES, Row::TooManyVariables, large);
        let many = row_if(last >= MAX_PREDICATES, Row::TooManyPredicates, wide);
        let free = row_if(!guarded(&self.preds, last as u32), Row::NotGuarded, many);
        row_if(
            self.is_open(),
            Row::ProofIsOpen,
            row_if(used, Row::NameIsDefined, free),
        )
    }

    /// Takes the last predicate away again, which this row refuses.
    fn take_back(&mut self, row: Row) -> Done
        ensures { TakesBack self.old row self.new result }
    {
        match self.preds.list.pop() {
            Some(pred) => {
                let Pred {
                    name,
                    arity: _,
                    body: _,
                } = pred;
                refused(row, name)
            }
            None => Done::Unbuilt,
        }
    }

    /// Adds the name of the last predicate to those that are used.
    fn use_last_name(&mut self, alloc: Global) -> Result<(), Memory>
        ensures { OnOk result (UsesLastName self.old self.new) }
    {
        if let Some(pred) = self.preds.list.as_slice().last() {
            self.names.insert(alloc, pred.name.bytes())?;
        }
        Ok(())
    }

    /// Defines a predicate with this many parameters.
    pub fn predicate(
        &mut self,
        alloc: Global,
        name: Name,
        count: usize,
        body: Formula,
    ) -> Result<Done, Memory>
        requires { IsKept self.now }
        ensures { IfOk result (AddsPredicate self.old name count body self.new) }
    {
        let used = self.is_used(&name);
        let all = nodes(&body);
        let deepest = depth(&body);
        // More are refused.
        let arity = count.min(MAX_VARIABLES + 1) as u32;
        self.preds.list.push(Pred { name, arity, body })?;
        match self.predicate_row(used, count, all, deepest) {
            Some(row) => Ok(self.take_back(row)),
            None => {
                self.use_last_name(alloc)?;
                Ok(Done::Moved)
            }
        }
    }

    /// The row that refuses a lemma whose statement has so many nodes and is so deep.
    fn lemma_row(&self, used: bool, all: u64, deepest: u32) -> Option<Row>
        ensures { LemmaRow self.now used all deepest result }
    {
        let large = size_row(0, 0, all, deepest, None);
        let many = row_if(
            self.lemmas.list.len() >= MAX_LEMMAS,
            Row::TooManyLemmas,
            large,
        );
        row_if(
            self.is_open(),
            Row::ProofIsOpen,
            row_if(used, Row::NameIsDefined, many),
        )
    }

    /// Opens the proof of a lemma.
    pub fn lemma(&mut self, alloc: Global, name: Name, statement: Formula) -> Result<Done, Memory>
        ensures { IfOk result (Opens self.old name statement self.new) }
    {
        let used = self.is_used(&name);
        let all = nodes(&statement);
        let deepest = depth(&statement);
        match self.lemma_row(used, all, deepest) {
            Some(row) => Ok(refused(row, name)),
            None => {
                self.proof = Some(opened(alloc, name, statement)?);
                Ok(Done::Moved)
            }
        }
    }

    /// Begins a proof that is open.
    pub fn begin(&mut self) -> Done
        ensures { Begins self.old self.new result }
    {
        if self.is_open() {
            Done::Moved
        } else {
            Done::Refused(Refusal {
                row: Row::NoOpenProof,
                name: None,
            })
        }
    }

    /// Keeps the lemma of the proof that was open.
    fn prove(&mut self, alloc: Global, proof: Proof) -> Result<(), Memory>
        requires { IsComplete proof.steps.items }
        ensures { OnOk result (IsProved self.old proof self.new) }
    {
        let Proof {
            name,
            statement,
            steps,
            goals: _,
        } = proof;
        let proof = join(alloc, steps)?;
        self.names.insert(alloc, name.bytes())?;
        let stated = copy_name(alloc, &name)?;
        self.lemmas.list.push(Lemma {
            name: stated,
            formula: statement,
        })?;
        self.proofs.push(Named { name, proof })?;
        Ok(())
    }

    /// Ends the open proof.
    pub fn qed(&mut self, alloc: Global) -> Result<Done, Memory>
        requires { IsKept self.now }
        ensures { IfOk result (Closes self.old self.new) }
    {
        let Some(proof) = self.proof.take() else {
            return Ok(Done::Refused(Refusal {
                row: Row::NoOpenProof,
                name: None,
            }));
        };
        if proof.goals.is_empty() {
            self.prove(alloc, proof)?;
            return Ok(Done::Moved);
        }
        self.proof = Some(proof);
        Ok(Done::Refused(Refusal {
            row: Row::GoalsRemain,
            name: None,
        }))
    }

    /// Does a directive that is built on the first goal that is left.
    fn directive(&mut self, alloc: Global, directive: &Directive) -> Result<Done, Memory>
        requires kept { IsKept self.now }
        requires built { IsBuilt directive.now }
        requires handed { TermsFit (length (scope_of self.now)) directive.now }
        ensures { IfOk result (Directs self.old directive.now self.new) }
    {
        let Some(proof) = self.proof.take() else {
            return Ok(Done::Refused(Refusal {
                row: Row::NoOpenProof,
                name: None,
            }));
        };
        match proof.first_step(alloc, &self.preds, &self.lemmas, directive) {
            Ok(parts) => {
                self.proof = Some(proof.stepped(parts)?);
                Ok(Done::Moved)
            }
            Err(fault) => {
                let refusal = refusal_of(alloc, &fault)?;
                self.proof = Some(proof);
                Ok(Done::Refused(refusal))
            }
        }
    }

    /// Does a directive, if it is built.
    fn any_directive(&mut self, alloc: Global, directive: &Directive) -> Result<Done, Memory>
        requires kept { IsKept self.now }
        requires handed { TermsFit (length (scope_of self.now)) directive.now }
        ensures { IfOk result (DirectsIf self.old directive.now self.new) }
    {
        if is_built(directive) {
            self.directive(alloc, directive)
        } else {
            Ok(Done::Unbuilt)
        }
    }

    /// Does a sentence that states neither a predicate nor a lemma.
    fn other_sentence(&mut self, alloc: Global, sentence: &Sentence) -> Result<Done, Memory>
        requires kept { IsKept self.now }
        requires handed { IsHanded self.now sentence.now }
        ensures { StatesNothing sentence.now → IfOk result (DoesSentence self.old sentence.now self.new) }
    {
        match sentence {
            Sentence::Proof => Ok(self.begin()),
            Sentence::Qed => self.qed(alloc),
            Sentence::Directive(directive) => self.any_directive(alloc, directive),
            Sentence::Predicate { .. } | Sentence::Lemma { .. } => Ok(Done::Unbuilt),
            Sentence::Abort
            | Sentence::Restart
            | Sentence::Show
            | Sentence::Undo(_)
            | Sentence::Enter
            | Sentence::Leave => Ok(Done::Unbuilt),
        }
    }

    /// Does a sentence, whose names and trees go into what is kept.
    pub fn sentence(&mut self, alloc: Global, sentence: Sentence) -> Result<Done, Memory>
        requires kept { IsKept self.now }
        requires handed { IsHanded self.now sentence }
        ensures { IfOk result (DoesSentence self.old sentence self.new) }
    {
        match sentence.into_stated() {
            Ok(Stated::Predicate { name, params, body }) => {
                self.predicate(alloc, name, params.len(), body)
            }
            Ok(Stated::Lemma { name, statement }) => self.lemma(alloc, name, statement),
            Err(other) => self.other_sentence(alloc, &other),
        }
    }
}
