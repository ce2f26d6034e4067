//! The edge: std's readers and writers, which tell no content.

ghost use Rattle.std.specs.Prelude.{◌≡◌, ◌≢◌, ◌≤◌, [], None, IfSome, length, OnOk, OnErr, IfErr};
ghost use Rattle.std.specs.Io.{ReadsAtMost};
ghost use Rattle.std.specs.Io.KnownBytes.{ReadConsumes, WriteAppends};
ghost use Rattle.pm_io.specs.Causes.{one_more, counted, counted_within, HasCause, SendCause};
ghost use Rattle.pm_io.specs.Taken.{TakesSome};

use crate::sink::{SendFault, Sink};
use crate::source::{Failed, Source};
use std::io::{Read, Write};
use std::marker::Model;

/// A reader of std as a source. Contracts see it as its count of failed reads.
#[derive(Drop)]
pub struct StdSource<R: Read> {
    reader: R,
    faults: u64,
}

impl<R: Read> Model for StdSource<R> {
    ghost use Rattle.std.specs.Prelude.{ℕ};

    ghost Value = { ℕ };

    ghost view = { λ it. it.faults };
}

impl<R: Read> StdSource<R> {
    /// The reader's bytes from where it stands. No read has failed yet.
    pub fn new(reader: R) -> StdSource<R>
        ensures { result ≡ 0 }
    {
        StdSource { reader, faults: 0 }
    }
}

impl<R: Read> Source for StdSource<R> {
    ghost left = { λ _. None };

    ghost faults = { λ it. counted it };

    ghost counts_fit = { λ it. counted_within it };

    fn read(&mut self, buf: &mut [u8]) -> Result<usize, Failed>
        ensures bound { ReadsAtMost result buf.new }
        ensures bytes { ReadConsumes None None result buf.new }
        ensures cause { HasCause (counted self.old) (counted self.new) result }
        ensures steady { OnOk result (self.new ≡ self.old) }
        ensures raised { OnErr result (self.new ≡ one_more self.old) }
    {
        match self.reader.read(buf) {
            Ok(count) => Ok(count),
            Err(_) => {
                self.faults = self.faults.saturating_add(1);
                Err(Failed)
            }
        }
    }
}

/// A writer of std as a sink. Contracts see it as its count of failed writes.
#[derive(Drop)]
pub struct StdSink<W: Write> {
    writer: W,
    faults: u64,
}

impl<W: Write> Model for StdSink<W> {
    ghost use Rattle.std.specs.Prelude.{ℕ};

    ghost Value = { ℕ };

    ghost view = { λ it. it.faults };
}

impl<W: Write> StdSink<W> {
    /// What is written goes to the writer after what it has taken. No write has failed yet.
    pub fn new(writer: W) -> StdSink<W>
        ensures { result ≡ 0 }
    {
        StdSink { writer, faults: 0 }
    }
}

impl<W: Write> Sink for StdSink<W> {
    ghost written = { λ _. None };

    ghost faults = { λ it. counted it };

    ghost counts_fit = { λ it. counted_within it };

    /// Writes and flushes, so that the writer holds back nothing that is answered as written.
    /// Every error is `Write`, also where nothing is taken of a piece that has a byte. Where the
    /// flush fails, the writer may have taken a front of the piece.
    fn write(&mut self, piece: &[u8]) -> Result<usize, SendFault>
        ensures bound { TakesSome result piece.now }
        ensures bytes { WriteAppends None None result piece.now }
        ensures cause { SendCause (counted self.old) (counted self.new) result }
        ensures steady { OnOk result (self.new ≡ self.old) }
        ensures raised { OnErr result (self.new ≡ one_more self.old) }
        ensures sure { IfErr result (λ fault. fault ≡ SendFault.Write) }
    {
        match send(&mut self.writer, piece) {
            Some(count) => Ok(count),
            None => {
                self.faults = self.faults.saturating_add(1);
                Err(SendFault::Write)
            }
        }
    }
}

/// Writes once and flushes. `None` where either fails, or nothing is taken of a piece that has
/// a byte.
fn send<W: Write>(writer: &mut W, piece: &[u8]) -> Option<usize>
    ensures { IfSome result (λ n. (n ≤ length piece.now) × (piece.now ≢ [] → 1 ≤ n)) }
{
    let count = writer.write(piece).ok()?;
    writer.flush().ok()?;
    if count == 0 && !piece.is_empty() {
        None
    } else {
        Some(count)
    }
}
