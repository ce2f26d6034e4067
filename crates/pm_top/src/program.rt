//! All that the program does.

ghost use Rattle.std.specs.Prelude.{◌≡◌, ◌≤◌, length, IfOk, Some, None};
ghost use Rattle.std.specs.Io.KnownBytes.{Appends};
ghost use Rattle.pm_io.specs.Causes.{Faulted};
ghost use Rattle.pm_io.specs.Taken.{AppendsFront};
ghost use Rattle.pm_check.specs.Answers.{IfTold, IsReadToEnd};
ghost use Rattle.pm_run.specs.Coming.{limit};
ghost use Rattle.pm_top.specs.Answers.{command_of, Answers, ReadsScripts};
ghost use Rattle.pm_top.specs.Truth.{SaysTrue};
ghost use Rattle.pm_top.specs.Leaves.{IsAnswer, Leaves, IsDefined};

use crate::answer::{offence, run};
use crate::command::{Command, command_of};
use crate::printed::accepted;
use crate::shown::shown;
use crate::status::Status;
use pm_check::check;
use pm_io::{SendFault, Sink, Source, TakeFault, read_all, write_all};
use pm_logic::{Bytes, MAX_SCRIPT, Memory};
use std::alloc::Global;

/// Writes the text of an answer.
fn say<K: Sink>(sink: &mut K, status: Status, text: &[u8]) -> Status
    requires { IsAnswer status }
    ensures not_read { result ≡ Status.ReadFault → ⊥ }
    ensures write { Faulted (result ≡ Status.WriteFault) (K.faults sink.old) (K.faults sink.new) }
    ensures whole { IsAnswer result → (result ≡ status) × Appends (K.written sink.old) (K.written sink.new) text.now }
    ensures front { (IsAnswer result → ⊥) → AppendsFront (K.written sink.old) (K.written sink.new) text.now }
{
    match write_all(sink, text) {
        Ok(()) => status,
        Err(SendFault::Write) => Status::WriteFault,
        Err(SendFault::Memory) => Status::Memory,
    }
}

/// Does what `check` asks for.
#[tactic(auto, using(crate::proofs::Leaving::leaves, crate::proofs::Offences::told_answers, crate::proofs::Offences::defines_told))]
fn check_command<S: Source, K: Sink>(alloc: Global, source: &mut S, sink: &mut K) -> Status
    ensures output { Leaves (Some Command.Check) (S.left source.old) (K.written sink.old) (K.written sink.new) result }
    ensures end { result ≡ Status.Done → IsReadToEnd (S.left source.old) (S.left source.new) }
    ensures read { Faulted (result ≡ Status.ReadFault) (S.faults source.old) (S.faults source.new) }
    ensures write { Faulted (result ≡ Status.WriteFault) (K.faults sink.old) (K.faults sink.new) }
{
    match check(alloc, source) {
        Ok(checked) => match accepted(alloc, &checked) {
            Ok(text) => say(sink, Status::Done, text.as_slice()),
            Err(_) => Status::Memory,
        },
        Err(fault) => match offence(alloc, fault) {
            Ok((status, line)) => say(sink, status, line.as_slice()),
            Err(status) => status,
        },
    }
}

/// What a command that reads scripts answers to an input within its limit, and what it writes for it.
fn script_answer(alloc: Global, command: Command, bytes: &[u8]) -> Result<(Status, Bytes), Memory>
    requires scripts { ReadsScripts command }
    requires short { length bytes.now ≤ limit }
    ensures { IfOk result (λ x. Answers command bytes.now x.0 x.1) }
{
    match command {
        Command::Run => run(alloc, bytes),
        Command::Goals => shown(alloc, bytes),
        Command::Check => unreachable!(),
    }
}

/// Does what a command asks for that reads scripts.
#[tactic(auto, using(crate::proofs::Leaving::leaves, crate::proofs::Leaving::defines_long, crate::proofs::Leaving::defines_script))]
fn script_command<S: Source, K: Sink>(
    alloc: Global,
    command: Command,
    source: &mut S,
    sink: &mut K,
) -> Status
    requires { ReadsScripts command }
    ensures output { Leaves (Some command) (S.left source.old) (K.written sink.old) (K.written sink.new) result }
    ensures end { result ≡ Status.Done → IsReadToEnd (S.left source.old) (S.left source.new) }
    ensures read { Faulted (result ≡ Status.ReadFault) (S.faults source.old) (S.faults source.new) }
    ensures write { Faulted (result ≡ Status.WriteFault) (K.faults sink.old) (K.faults sink.new) }
{
    let bytes = match read_all(alloc, source, MAX_SCRIPT) {
        Ok(bytes) => bytes,
        Err(TakeFault::Read) => return Status::ReadFault,
        Err(TakeFault::Long) => return say(sink, Status::TooLong, b"too long\n"),
        Err(TakeFault::Memory) => return Status::Memory,
    };
    match script_answer(alloc, command, bytes.as_slice()) {
        Ok((status, text)) => say(sink, status, text.as_slice()),
        Err(_) => Status::Memory,
    }
}

/// Does all that the program does. `words` are the words of the command line after the program's name; `source` is read
/// and `sink` written. The answer is the status that the program ends with. Of devices that tell their bytes more is known:
/// what was written then is the whole text of that status, for `check` and `Done` the lines of the derivation's predicates
/// and statements and of their number, for `run` and `Done` a derivation of exactly the script's lemmas over exactly its
/// predicates, for `goals` the goals of the script's last state and the line of what stopped it; and `Done` says that the input was read to its end and, but for `goals`, that each of its statements is true,
/// for `check` those of the derivation, whoever wrote it, for `run` the script's lemmas. Where the words name no command nothing is read.
/// After `WriteFault` and `Memory` a front of a text that answers the words and the input was written, or nothing, and after
/// `ReadFault` nothing.
pub fn top<S: Source, K: Sink>(
    alloc: Global,
    words: &Vec<String>,
    source: &mut S,
    sink: &mut K,
) -> Status
    // Each answer has its cause, and the sink holds what it defines.
    ensures output { Leaves (command_of words.now.items) (S.left source.old) (K.written sink.old) (K.written sink.new) result }

    // Each cause has its answer, unless a device fails or memory is wanting.
    ensures defined { IsDefined (command_of words.now.items) (S.left source.old) (K.written sink.old) (K.written sink.new) result }

    // What is accepted is true, and was read to its end.
    ensures truth { result ≡ Status.Done → IfTold (S.left source.old) (SaysTrue (command_of words.now.items) (K.written sink.old) (K.written sink.new)) }
    ensures end { result ≡ Status.Done → IsReadToEnd (S.left source.old) (S.left source.new) }

    ensures unread { command_of words.now.items ≡ None → source.new ≡ source.old }
    ensures read { Faulted (result ≡ Status.ReadFault) (S.faults source.old) (S.faults source.new) }
    ensures write { Faulted (result ≡ Status.WriteFault) (K.faults sink.old) (K.faults sink.new) }
{
    match command_of(words.as_slice()) {
        None => {
            let usage = b"usage: mosel run | check | session | goals | selftest N\n";
            say(sink, Status::Usage, usage)
        }
        Some(Command::Check) => check_command(alloc, source, sink),
        Some(Command::Run) => script_command(alloc, Command::Run, source, sink),
        Some(Command::Goals) => script_command(alloc, Command::Goals, source, sink),
    }
}
