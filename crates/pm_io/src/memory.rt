//! Sources and sinks in memory, which fail at the calls that they were told to.

ghost use Rattle.std.specs.Prelude.{◌≡◌, ◌++◌, ◌<◌, ◌≤◌, ◌↔◌, Some, false, IsTrue, IsOk, IsErr, IfOk, OnOk, OnErr, IsErrOf, min, take, length};
ghost use Rattle.std.specs.Io.{ReadsAtMost};
ghost use Rattle.std.specs.Io.KnownBytes.{ReadConsumes, WriteAppends};
ghost use Rattle.pm_io.specs.Causes.{one_more, counted, counted_within, HasCause, SendCause};
ghost use Rattle.pm_io.specs.Taken.{TakesSome};
ghost use Rattle.pm_io.specs.Devices.{IsListed, new_input, new_output};

use crate::sink::{SendFault, Sink};
use crate::source::{Failed, Source};
use pm_logic::{Bytes, Memory};
use std::alloc::Global;
use std::marker::Model;

/// Bytes that are given away from the front. Contracts see those that are left.
#[derive(Drop)]
struct Rest {
    bytes: Bytes,
    at: usize,
}

impl Model for Rest {
    ghost use Rattle.std.specs.Prelude.{List, ℕ, ◌≤◌, drop, length};

    ghost Value = { List ℕ };

    ghost view = { λ it. drop it.at it.bytes };

    ghost invariant = { λ it. it.at ≤ length it.bytes };
}

impl Rest {
    fn new(alloc: Global, bytes: &[u8]) -> Result<Rest, Memory>
        ensures { IfOk result (λ rest. rest ≡ bytes.now) }
    {
        let bytes = Bytes::from_slice(alloc, bytes)?;
        Ok(Rest { bytes, at: 0 })
    }

    /// Moves as many bytes as fit into the front of `buf`, and answers how many.
    fn give(&mut self, buf: &mut [u8]) -> usize
        ensures count { result ≡ min (length buf.new) (length self.old) }
        ensures bytes { self.old ≡ take result buf.new ++ self.new }
    {
        let count = fill(buf, &self.bytes.as_slice()[self.at..]);
        self.at += count;
        count
    }
}

/// Copies as many bytes as fit into the front of `buf`, and answers how many.
fn fill(buf: &mut [u8], from: &[u8]) -> usize
    ensures count { result ≡ min (length buf.new) (length from.now) }
    ensures bytes { take result buf.new ≡ take result from.now }
{
    let count = buf.len().min(from.len());
    buf[..count].copy_from_slice(&from[..count]);
    count
}

/// Which calls of a device fail, by their numbers from 1, and how many were made and have failed.
#[derive(Drop)]
struct Schedule {
    failing: Vec<u64>,
    calls: u64,
    faults: u64,
}

impl Schedule {
    fn new(alloc: Global, failing: &[u64]) -> Result<Schedule, Memory>
        ensures failing { IfOk result (λ it. it.failing.items ≡ failing.now) }
        ensures counts { IfOk result (λ it. (it.calls ≡ 0) × (it.faults ≡ 0)) }
    {
        let failing = Vec::from_slice(alloc, failing)?;
        Ok(Schedule {
            failing,
            calls: 0,
            faults: 0,
        })
    }

    /// Counts one more call, and answers whether it fails.
    fn call_fails(&mut self) -> bool
        ensures fails { IsTrue result ↔ IsListed self.old.failing.items (one_more self.old.calls) }
        ensures calls { self.new.calls ≡ one_more self.old.calls }
        ensures raised { IsTrue result → self.new.faults ≡ one_more self.old.faults }
        ensures steady { result ≡ false → self.new.faults ≡ self.old.faults }
        ensures later { self.old.faults ≤ self.new.faults }
        ensures failing { self.new.failing.items ≡ self.old.failing.items }
    {
        self.calls = self.calls.saturating_add(1);
        let fails = is_listed(&self.failing, self.calls);
        if fails {
            self.faults = self.faults.saturating_add(1);
        }
        fails
    }
}

/// Whether a call of this number is listed. The last `u64` is no number of a call.
fn is_listed(failing: &[u64], number: u64) -> bool
    ensures { IsTrue result ↔ IsListed failing.now number }
{
    number != u64::MAX && failing.contains(&number)
}

/// Bytes in memory. The listed reads fail, and every other one gives as much as fits.
#[derive(Drop)]
pub struct MemSource {
    rest: Rest,
    schedule: Schedule,
}

impl Model for MemSource {
    ghost use Rattle.pm_io.specs.Devices.{MemoryInput};

    ghost Value = { MemoryInput };

    ghost view = { λ it. record {
      left = it.rest;
      failing = it.schedule.failing.items;
      calls = it.schedule.calls;
      faults = it.schedule.faults;
    } };
}

impl MemSource {
    /// A source of these bytes, whose reads with the numbers in `failing` fail. Reads are counted
    /// from 1, those that fail too. Those from the last `u64` on have no number and never fail.
    /// The error is want of memory.
    pub fn new(alloc: Global, bytes: &[u8], failing: &[u64]) -> Result<MemSource, Memory>
        ensures { IfOk result (λ source. source ≡ new_input bytes.now failing.now) }
    {
        let rest = Rest::new(alloc, bytes)?;
        let schedule = Schedule::new(alloc, failing)?;
        Ok(MemSource { rest, schedule })
    }
}

impl Source for MemSource {
    ghost left = { λ it. Some it.left };

    ghost faults = { λ it. counted it.faults };

    ghost counts_fit = { λ it. counted_within it.faults };

    fn read(&mut self, buf: &mut [u8]) -> Result<usize, Failed>
        ensures bound { ReadsAtMost result buf.new }
        ensures bytes { ReadConsumes (Some self.old.left) (Some self.new.left) result buf.new }
        ensures cause { HasCause (counted self.old.faults) (counted self.new.faults) result }
        ensures fails { IsErr result ↔ IsListed self.old.failing (one_more self.old.calls) }
        ensures raised { OnErr result (self.new.faults ≡ one_more self.old.faults) }
        ensures steady { OnOk result (self.new.faults ≡ self.old.faults) }
        ensures calls { self.new.calls ≡ one_more self.old.calls }
        ensures failing { self.new.failing ≡ self.old.failing }
        ensures count { IfOk result (λ n. n ≡ min (length buf.new) (length self.old.left)) }
    {
        if self.schedule.call_fails() {
            Err(Failed)
        } else {
            Ok(self.rest.give(buf))
        }
    }
}

/// Bytes in memory, whose reads never fail and give as much as fits. Contracts see the bytes that
/// are left.
#[derive(Drop)]
pub struct SureSource {
    rest: Rest,
}

impl Model for SureSource {
    ghost use Rattle.std.specs.Prelude.{List, ℕ};

    ghost Value = { List ℕ };

    ghost view = { λ it. it.rest };
}

impl SureSource {
    /// A source of these bytes. The error is want of memory.
    pub fn new(alloc: Global, bytes: &[u8]) -> Result<SureSource, Memory>
        ensures { IfOk result (λ source. source ≡ bytes.now) }
    {
        let rest = Rest::new(alloc, bytes)?;
        Ok(SureSource { rest })
    }
}

impl Source for SureSource {
    ghost left = { λ it. Some it };

    ghost faults = { λ _. 0 };

    ghost counts_fit = { λ _. counted_within 0 };

    fn read(&mut self, buf: &mut [u8]) -> Result<usize, Failed>
        ensures bound { ReadsAtMost result buf.new }
        ensures bytes { ReadConsumes (Some self.old) (Some self.new) result buf.new }
        ensures cause { HasCause 0 0 result }
        ensures sure { IsOk result }
        ensures count { IfOk result (λ n. n ≡ min (length buf.new) (length self.old)) }
    {
        Ok(self.rest.give(buf))
    }
}

/// Memory that takes at most `step` bytes a write. The listed writes fail, and every other one
/// takes as much as it may, unless memory is wanting.
#[derive(Drop)]
pub struct MemSink {
    written: Bytes,
    step: usize,
    schedule: Schedule,
}

impl Model for MemSink {
    ghost use Rattle.std.specs.Prelude.{◌≤◌};
    ghost use Rattle.pm_io.specs.Devices.{MemoryOutput};

    ghost Value = { MemoryOutput };

    ghost view = { λ it. record {
      written = it.written;
      step = it.step;
      failing = it.schedule.failing.items;
      calls = it.schedule.calls;
      faults = it.schedule.faults;
    } };

    ghost invariant = { λ it. 1 ≤ it.step };
}

impl MemSink {
    /// An empty sink that takes at most `step` bytes a write, and whose writes with the numbers in
    /// `failing` fail with `Write`. Writes are counted from 1, those that fail too. Those from the
    /// last `u64` on have no number and never fail so. The error is want of memory.
    pub fn new(alloc: Global, step: usize, failing: &[u64]) -> Result<MemSink, Memory>
        requires { 1 ≤ step }
        ensures { IfOk result (λ sink. sink ≡ new_output step failing.now) }
    {
        let schedule = Schedule::new(alloc, failing)?;
        Ok(MemSink {
            written: Bytes::new(alloc),
            step,
            schedule,
        })
    }

    /// What was written so far.
    pub fn bytes(&self) -> &[u8]
        ensures { result.now ≡ self.now.written }
    {
        self.written.as_slice()
    }
}

impl Sink for MemSink {
    ghost written = { λ it. Some it.written };

    ghost faults = { λ it. counted it.faults };

    ghost counts_fit = { λ it. counted_within it.faults };

    fn write(&mut self, piece: &[u8]) -> Result<usize, SendFault>
        ensures bound { TakesSome result piece.now }
        ensures bytes { WriteAppends (Some self.old.written) (Some self.new.written) result piece.now }
        ensures cause { SendCause (counted self.old.faults) (counted self.new.faults) result }
        ensures fails { IsErrOf result SendFault.Write ↔ IsListed self.old.failing (one_more self.old.calls) }
        ensures raised { IsErrOf result SendFault.Write → self.new.faults ≡ one_more self.old.faults }
        ensures steady { ¬ IsErrOf result SendFault.Write → self.new.faults ≡ self.old.faults }
        ensures calls { self.new.calls ≡ one_more self.old.calls }
        ensures failing { self.new.failing ≡ self.old.failing }
        ensures step { self.new.step ≡ self.old.step }
        ensures count { IfOk result (λ n. n ≡ min (length piece.now) self.old.step) }
    {
        if self.schedule.call_fails() {
            return Err(SendFault::Write);
        }
        let count = piece.len().min(self.step);
        match self.written.extend(&piece[..count]) {
            Ok(()) => Ok(count),
            Err(_) => Err(SendFault::Memory),
        }
    }
}
