//! Builds a proof of a size and writes its derivation to standard output, so that time and memory can be measured.
//!
//!     measure bring_front N     the last one of N spatial hypotheses in front of the others
//!     measure partition N       N spatial hypotheses dealt into two stars
//!     measure tree N            N levels of transitivity
//!
//! The status is 0, 2 for other words, 3 for want of memory, 4 for a write that failed, and 5 for a proof that can't be
//! written.
#![tactic(auto)]

ghost use Rattle.std.specs.Prelude.{IfOk};
ghost use Rattle.pm_samples.specs.Whole.{IsWhole};

mod building;
mod command;

use building::{moved_front, parted, tree};
use command::{Command, command_of};
use pm_io::{SendFault, StdSink, write_all};
use pm_logic::{Bytes, Memory};
use pm_proof::Proof;
use pm_samples::{derivation, stated};
use std::alloc::Global;
use std::env;
use std::io::ErrorKind;
use std::process::ExitCode;

/// How the program ends.
#[derive(Clone, Copy)]
enum Status {
    Done = 0,
    Usage = 2,
    Memory = 3,
    Write = 4,
    Unwritable = 5,
}

/// The words after the program's name, unless memory is wanting. A word that isn't UTF-8 makes them no words at all.
fn words(rt: &HostRuntime) -> Option<Vec<String>> {
    let mut words = Vec::new(rt.alloc());
    match env::args(rt) {
        Ok(args) => {
            for word in args.skip(1) {
                words.push(word).ok()?;
            }
        }
        Err(e) if e.kind() == ErrorKind::OutOfMemory => return None,
        Err(_) => {}
    }
    Some(words)
}

/// The proof that the command asks for, so that a derivation can state it.
fn built(alloc: Global, command: Command) -> Result<Proof, Memory>
    ensures { IfOk result (λ p. IsWhole p) }
{
    match command {
        Command::BringFront(count) => stated(alloc, moved_front(alloc, count)?),
        Command::Partition(count) => stated(alloc, parted(alloc, count)?),
        Command::Tree(levels) => tree(alloc, levels),
    }
}

/// The derivation of its proof, and `None` where it can't be written.
fn text(alloc: Global, command: Command) -> Result<Option<Bytes>, Memory> {
    derivation(alloc, "it", built(alloc, command)?)
}

fn run(rt: &HostRuntime) -> Status {
    let Some(words) = words(rt) else {
        return Status::Memory;
    };
    let Some(command) = command_of(words.as_slice()) else {
        return Status::Usage;
    };
    let text = match text(rt.alloc(), command) {
        Ok(Some(text)) => text,
        Ok(None) => return Status::Unwritable,
        Err(Memory) => return Status::Memory,
    };
    let mut sink = StdSink::new(rt.stdout());
    match write_all(&mut sink, text.as_slice()) {
        Ok(()) => Status::Done,
        Err(SendFault::Write) => Status::Write,
        Err(SendFault::Memory) => Status::Memory,
    }
}

fn main(rt: HostRuntime) -> ExitCode {
    ExitCode::from(run(&rt) as u8)
}
