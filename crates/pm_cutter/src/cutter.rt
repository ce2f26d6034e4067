//! Scripts whose bytes come in pieces.

ghost use Rattle.std.specs.Prelude.{◌≡◌, ◌≤◌, [], ◌∷◌, ◌++◌, OnOk};
ghost use Rattle.pm_cutter.specs.Cutting.{gap, start_of};
ghost use Rattle.pm_cutter.specs.Machine.{region_of, mode_of, held_by, held_part};
ghost use Rattle.pm_cutter.specs.Spans.{parts_of};

use crate::finish::ended;
use crate::mode::{Mode, Move, Region};
use crate::moves::{between, ends_waiting, step};
use crate::span::{Ended, Span};
use pm_logic::{Bytes, List, Memory};
use std::alloc::Global;

/// Cuts a script into sentences, however its bytes come. It holds the bytes of the sentence that isn't finished.
#[derive(Drop)]
pub struct Cutter {
    alloc: Global,
    /// A feed was refused memory.
    failed: bool,
    mode: Mode,
    /// How many bytes were moved over.
    at: u64,
    /// The bytes up to there of the sentence that isn't finished.
    held: Bytes,
    /// The byte behind them, where what it does depends on the next one.
    waiting: Option<u8>,
    ghost nested: { mode.depth ≤ at },
}

/// Holds a byte of a sentence, and nothing between sentences.
#[tactic(auto, unfolding(crate::specs::Cutting::start_of))]
fn hold(alloc: Global, held: &mut Bytes, region: Region, b: u8) -> Result<(), Memory>
    ensures { OnOk result (held.new ≡ held_by (start_of (region_of region)) (held.old ++ b ∷ [])) }
{
    match region {
        Region::Gap => {
            *held = Bytes::new(alloc);
            Ok(())
        }
        Region::Sentence { .. } => held.push(b),
    }
}

/// Hands out the sentence from `start` to `end` that the byte at `at` finishes.
fn hand_out(
    alloc: Global,
    spans: &mut List<Span>,
    held: &mut Bytes,
    at: u64,
    b: u8,
    start: u64,
    end: u64,
) -> Result<(), Memory>
    ensures spans { OnOk result (parts_of spans.new ≡ parts_of spans.old ++ held_part at held.old b (start, end) ∷ []) }
    ensures held { OnOk result (held.new ≡ []) }
{
    if at < end {
        held.push(b)?;
    }
    let text = std::mem::replace(held, Bytes::new(alloc));
    spans.push(Span {
        offset: start,
        text,
    })
}

impl Cutter {
    ghost use Rattle.std.specs.Prelude.{ℕ, ◌+◌, ◌^◌, ◌<◌, true, false, List, length, IfOk, OnErr, IsErr};
    ghost use Rattle.pm_cutter.specs.Cutting.{end_of};
    ghost use Rattle.pm_cutter.specs.Machine.{waiting_bytes, Waits, Takes, GoesOn};
    ghost use Rattle.pm_cutter.specs.Spans.{end_from};
    ghost use Rattle.pm_cutter.specs.Fed.{IsFed, kept_of, fed_count, newly_finished};

    /// A cutter that was fed no bytes. It takes no memory until it holds some.
    pub fn new(alloc: Global) -> Cutter
        ensures fed { IsFed result [] }
        ensures count { fed_count result ≡ 0 }
    {
        Cutter {
            alloc,
            failed: false,
            mode: between(),
            at: 0,
            held: Bytes::new(alloc),
            waiting: None,
        }
    }

    /// The sentences that are finished by the piece behind the bytes fed before, the end counting as no blank. The error is
    /// want of memory, and then each later feed answers it too.
    pub fn feed(&mut self, piece: &[u8]) -> Result<List<Span>, Memory>
        requires { self.old.failed ≡ false → fed_count self.old + length piece.now < 2 ^ 64 }
        ensures spans { IfOk result (λ spans. (bytes : List ℕ) → IsFed self.old bytes → parts_of spans ≡ newly_finished bytes piece.now) }
        ensures fed { OnOk result ((bytes : List ℕ) → IsFed self.old bytes → IsFed self.new (bytes ++ piece.now)) }
        ensures count { OnOk result (fed_count self.new ≡ fed_count self.old + length piece.now) }
        ensures sound { OnOk result ((self.old.failed ≡ false) × (self.new.failed ≡ false)) }
        ensures failed { OnErr result (self.new.failed ≡ true) }
        ensures stays { self.old.failed ≡ true → IsErr result }
    {
        if self.failed {
            return Err(Memory);
        }
        let mut spans = List::new(self.alloc);
        match self.cut(&mut spans, piece) {
            Ok(()) => Ok(spans),
            Err(e) => {
                self.failed = true;
                Err(e)
            }
        }
    }

    /// Moves over the first of the bytes.
    fn take(&mut self, spans: &mut List<Span>, bytes: &[u8]) -> Result<(), Memory>
        requires some { 0 < length bytes.now }
        requires place { self.old.at + 1 < 2 ^ 64 }
        ensures taken { OnOk result (Takes (parts_of spans.old) (kept_of self.old) bytes.now (parts_of spans.new) (kept_of self.new)) }
        ensures failed { self.new.failed ≡ self.old.failed }
        ensures waiting { self.new.waiting ≡ self.old.waiting }
    {
        let b = bytes[0];
        match step(false, self.mode, self.at, bytes) {
            Move::On(mode) => {
                hold(self.alloc, &mut self.held, mode.region, b)?;
                self.mode = mode;
                self.at += 1;
            }
            Move::Finished { start, end } => {
                hand_out(self.alloc, spans, &mut self.held, self.at, b, start, end)?;
                self.mode = between();
                self.at += 1;
            }
        }
        Ok(())
    }

    /// Moves over the bytes, but for a last one that waits.
    fn take_all(&mut self, spans: &mut List<Span>, piece: &[u8]) -> Result<(), Memory>
        requires place { self.old.at + length piece.now < 2 ^ 64 }
        requires none { self.old.waiting ≡ None }
        ensures goes_on { OnOk result (GoesOn (parts_of spans.old) (kept_of self.old) piece.now (parts_of spans.new) (kept_of self.new) (waiting_bytes self.new.waiting)) }
        ensures waits { OnOk result (Waits (mode_of self.new.mode) (waiting_bytes self.new.waiting)) }
        ensures failed { self.new.failed ≡ self.old.failed }
    {
        let mut rest = piece;
        'bytes: while !rest.is_empty() {
            if ends_waiting(self.mode, rest) {
                self.waiting = Some(rest[0]);
                return Ok(());
            }
            self.take(spans, rest)?;
            rest = rest.split_at(1).1;
        }
        Ok(())
    }

    /// Moves over the byte that waits, if one does, before the next one.
    fn take_waiting(&mut self, spans: &mut List<Span>, next: u8) -> Result<(), Memory>
        requires { fed_count self.old + 1 < 2 ^ 64 }
        ensures goes_on { OnOk result ((bytes : List ℕ) → GoesOn (parts_of spans.old) (kept_of self.old) (waiting_bytes self.old.waiting ++ next ∷ bytes) (parts_of spans.new) (kept_of self.new) (next ∷ bytes)) }
        ensures none { OnOk result (self.new.waiting ≡ None) }
        ensures count { OnOk result (self.new.at ≡ fed_count self.old) }
        ensures failed { self.new.failed ≡ self.old.failed }
    {
        let Some(b) = self.waiting else {
            return Ok(());
        };
        self.take(spans, &[b, next])?;
        self.waiting = None;
        Ok(())
    }

    /// Cuts the piece behind the bytes fed before.
    fn cut(&mut self, spans: &mut List<Span>, piece: &[u8]) -> Result<(), Memory>
        requires { fed_count self.old + length piece.now < 2 ^ 64 }
        ensures goes_on { OnOk result (GoesOn (parts_of spans.old) (kept_of self.old) (waiting_bytes self.old.waiting ++ piece.now) (parts_of spans.new) (kept_of self.new) (waiting_bytes self.new.waiting)) }
        ensures waits { Waits (mode_of self.old.mode) (waiting_bytes self.old.waiting) → OnOk result (Waits (mode_of self.new.mode) (waiting_bytes self.new.waiting)) }
        ensures failed { self.new.failed ≡ self.old.failed }
    {
        if piece.is_empty() {
            return Ok(());
        }
        self.take_waiting(spans, piece[0])?;
        self.take_all(spans, piece)
    }

    /// What is left of the bytes fed, whose end counts as a blank. No feed may have answered `Memory`.
    pub fn finish(self) -> Ended
        requires { (bytes : List ℕ) × IsFed self bytes }
        ensures { (bytes : List ℕ) → IsFed self bytes → end_from result ≡ end_of bytes }
    {
        let Cutter {
            alloc: _,
            failed: _,
            mode,
            at,
            held,
            waiting,
        } = self;
        ended(mode, at, held, waiting)
    }
}
