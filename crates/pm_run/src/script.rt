//! Whole scripts.

ghost use Rattle.std.specs.Prelude.{◌≡◌, ◌≤◌, ◌+◌, IfOk, Ok, length, reverse};
ghost use Rattle.pm_script.specs.SentenceReading.{read_sentence};
ghost use Rattle.pm_cutter.specs.Cutting.{clean, finished, end_of};
ghost use Rattle.pm_cutter.specs.Spans.{part_of, parts_of, end_from};
ghost use Rattle.pm_run.specs.Coming.{limit, ComesTo};
ghost use Rattle.pm_run.specs.Keeping.{IsKept, scope_of};
ghost use Rattle.pm_run.specs.Looping.{stop_of, AtSpan, AtSpans, Ends, EndsWith, IsShort, AreShort, EndIsShort, IsCut, stopped};

use crate::ran::Ran;
use crate::running::{Done, Running};
use crate::stop::Stop;
use pm_cutter::{Cutter, Ended, Span};
use pm_goal::{Goal, Refusal, Row};
use pm_logic::{List, MAX_NAMES, MAX_TABLE, Memory, Name, Preds, copy_name};
use pm_script::{Sentence, read_sentence};
use pm_terms::TextFault;
use pm_write::write_derivation;
use std::alloc::Global;

/// What a run comes to that stops there.
fn stopped(stop: Stop) -> Ran
    ensures { result ≡ stopped stop }
{
    match stop {
        Stop::Refused {
            number,
            offset,
            refusal,
        } => Ran::Refused {
            number,
            offset,
            refusal,
        },
        Stop::Unreadable(fault) => Ran::Unreadable(fault),
    }
}

/// The names of a goal's variables, the newest first.
fn names_of(alloc: Global, goal: &Goal) -> Result<List<Name>, Memory>
    ensures { IfOk result (λ names. names ≡ reverse goal.now.vars) }
{
    let vars = goal.vars.as_slice();
    let mut names = List::new(alloc);
    let mut i = vars.len();
    while i > 0 {
        i -= 1;
        names.push(copy_name(alloc, &vars[i])?)?;
    }
    Ok(names)
}

/// The names that a sentence may speak of, the newest first: those of the first goal's variables.
fn scope(alloc: Global, running: &Running) -> Result<List<Name>, Memory>
    ensures { IfOk result (λ names. names ≡ scope_of running.now) }
{
    match &running.proof {
        Some(proof) => match proof.goals.as_slice().last() {
            Some(goal) => names_of(alloc, goal),
            None => Ok(List::new(alloc)),
        },
        None => Ok(List::new(alloc)),
    }
}

/// Reads a sentence over these predicates with these names. The inner error is the first fault of its text.
fn read_span(
    alloc: Global,
    preds: &Preds,
    names: &List<Name>,
    span: &Span,
) -> Result<Result<Sentence, TextFault>, Memory>
    requires short { IsShort span.now }
    requires few { length preds.now.list ≤ MAX_TABLE }
    requires few_names { length names.now ≤ MAX_NAMES }
    ensures { IfOk result (λ read. read_sentence span.now.offset preds.now.list names.now span.now.text ≡ read) }
{
    match read_sentence(alloc, span.text.as_slice(), span.offset, names, preds) {
        Ok(sentence) => Ok(Ok(sentence)),
        Err(TextFault::Memory) => Err(Memory),
        Err(fault) => Ok(Err(fault)),
    }
}

/// Where a run stops at the sentence of this number, if it does, by what has become of it.
fn stop_at(number: u64, span: &Span, done: Done) -> Option<Stop>
    ensures { result ≡ stop_of number (part_of span.now) done }
{
    match done {
        Done::Moved => None,
        Done::Refused(refusal) => Some(Stop::Refused {
            number,
            offset: span.offset,
            refusal,
        }),
        Done::Unbuilt => Some(Stop::Unreadable(TextFault::Unexpected(span.offset))),
    }
}

/// Does the sentence of this number, which is read; where the run stops at it.
fn do_read(
    alloc: Global,
    running: &mut Running,
    number: u64,
    span: &Span,
    sentence: Sentence,
) -> Result<Option<Stop>, Memory>
    requires kept { IsKept running.now }
    requires read { read_sentence span.now.offset running.now.preds.list (scope_of running.now) span.now.text ≡ Ok sentence }
    ensures { IfOk result (AtSpan running.old number span.now running.new) }
{
    let done = running.sentence(alloc, sentence)?;
    Ok(stop_at(number, span, done))
}

/// Reads the sentence of this number and does it; where the run stops at it.
pub fn do_span(
    alloc: Global,
    running: &mut Running,
    number: u64,
    span: &Span,
) -> Result<Option<Stop>, Memory>
    requires kept { IsKept running.now }
    requires short { IsShort span.now }
    ensures { IfOk result (AtSpan running.old number span.now running.new) }
{
    let names = scope(alloc, running)?;
    let read = read_span(alloc, &running.preds, &names, span)?;
    match read {
        Ok(sentence) => do_read(alloc, running, number, span, sentence),
        Err(fault) => Ok(Some(Stop::Unreadable(fault))),
    }
}

/// The number of the sentence behind this one.
fn following(number: u64) -> Result<u64, Memory>
    ensures { IfOk result (λ next. next ≡ number + 1) }
{
    number.checked_add(1).ok_or(Memory)
}

/// Does the sentences of a slice, from one of this number on; where the run stops at one of them.
pub fn do_spans(
    alloc: Global,
    running: &mut Running,
    number: &mut u64,
    spans: &[Span],
) -> Result<Option<Stop>, Memory>
    requires kept { IsKept running.now }
    requires short { AreShort spans.now }
    ensures { IfOk result (AtSpans running.old number.old spans.now running.new number.new) }
{
    let mut rest = spans;
    'spans: while let [span, behind @ ..] = rest {
        if let Some(stop) = do_span(alloc, running, *number, span)? {
            return Ok(Some(stop));
        }
        *number = following(*number)?;
        rest = behind;
    }
    Ok(None)
}

/// What a run comes to whose sentences are done, so that this is the number of the next one, in a script of so many
/// bytes.
fn ended(alloc: Global, running: Running, number: u64, size: u64) -> Result<Ran, Memory>
    requires { IsKept running }
    ensures { IfOk result (Ends running number size clean) }
{
    if running.proof.is_some() {
        let refusal = Refusal {
            row: Row::GoalsRemain,
            name: None,
        };
        return Ok(Ran::Refused {
            number,
            offset: size,
            refusal,
        });
    }
    let Running {
        preds,
        names: _,
        lemmas: _,
        proofs,
        proof: _,
    } = running;
    Ok(Ran::Accepted(write_derivation(alloc, &preds, &proofs)?))
}

/// Does the sentence that the end finishes, and ends.
fn end_with(
    alloc: Global,
    running: Running,
    number: u64,
    size: u64,
    span: &Span,
) -> Result<Ran, Memory>
    requires kept { IsKept running }
    requires short { IsShort span.now }
    ensures { IfOk result (EndsWith running number size span.now) }
{
    let mut running = running;
    match do_span(alloc, &mut running, number, span)? {
        Some(stop) => Ok(stopped(stop)),
        None => {
            let next = following(number)?;
            ended(alloc, running, next, size)
        }
    }
}

/// What is done with the end.
fn end(alloc: Global, running: Running, number: u64, size: u64, end: &Ended) -> Result<Ran, Memory>
    requires kept { IsKept running }
    requires short { EndIsShort end.now }
    ensures { IfOk result (Ends running number size (end_from end.now)) }
{
    match end {
        Ended::Clean => ended(alloc, running, number, size),
        Ended::Last(span) => end_with(alloc, running, number, size, span),
        Ended::Rest(at) => Ok(Ran::Unreadable(TextFault::Unexpected(*at))),
    }
}

/// Cuts a script into the sentences that are finished and the end.
pub fn cut(alloc: Global, bytes: &[u8]) -> Result<(List<Span>, Ended), Memory>
    requires { length bytes.now ≤ limit }
    ensures { IfOk result (λ cut. IsCut bytes.now cut.0 cut.1) }
{
    let mut cutter = Cutter::new(alloc);
    let spans = cutter.feed(bytes)?;
    Ok((spans, cutter.finish()))
}

/// Does the sentences of a script that is cut.
fn run_cut(alloc: Global, bytes: &[u8], spans: &[Span], last: &Ended) -> Result<Ran, Memory>
    requires short { length bytes.now ≤ limit }
    requires cut { IsCut bytes.now spans.now last.now }
    ensures { IfOk result (ComesTo bytes.now) }
{
    let mut running = Running::new(alloc);
    let mut number = 1;
    match do_spans(alloc, &mut running, &mut number, spans)? {
        Some(stop) => Ok(stopped(stop)),
        None => end(alloc, running, number, bytes.len() as u64, last),
    }
}

/// Does a script of at most `MAX_SCRIPT` bytes. The error is want of memory, and then nothing is known of it.
pub fn run_script(alloc: Global, bytes: &[u8]) -> Result<Ran, Memory>
    requires { length bytes.now ≤ limit }
    ensures { IfOk result (ComesTo bytes.now) }
{
    let (spans, last) = cut(alloc, bytes)?;
    run_cut(alloc, bytes, spans.as_slice(), &last)
}
