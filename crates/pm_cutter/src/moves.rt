//! What each byte does.

ghost use Rattle.std.specs.Prelude.{◌≡◌, ℕ, ◌+◌, ◌^◌, ◌≤◌, ◌<◌, ◌==◌, ◌&&◌, Bool, true, length, slice_index};
ghost use Rattle.pm_tokens.specs.Symbols.{begins};
ghost use Rattle.pm_tokens.specs.Pieces.{is_blank, begins_with};
ghost use Rattle.pm_cutter.specs.Cutting.{gap, inside, uncommented, is_stop, is_brace, in_sentence, move_over};
ghost use Rattle.pm_cutter.specs.Machine.{region_of, mode_of, moved, depth_of, waits};

use crate::mode::{Mode, Move, Region};
use pm_tokens::{begins, is_blank};

/// A full stop before a blank; the flag says whether the end of the bytes counts as one.
#[tactic(auto, unfolding(crate::specs::Cutting::is_stop))]
fn is_stop(end: bool, bytes: &[u8]) -> bool
    ensures { result ≡ is_stop end bytes.now }
{
    match bytes {
        [] => false,
        [b] => *b == b'.' && end,
        [b, c, ..] => *b == b'.' && is_blank(*c),
    }
}

#[tactic(auto, unfolding(crate::specs::Cutting::is_brace))]
fn is_brace(bytes: &[u8]) -> bool
    ensures { result ≡ is_brace bytes.now }
{
    begins("{", bytes) || begins("}", bytes)
}

fn begins_blank(bytes: &[u8]) -> bool
    ensures { result ≡ begins_with is_blank bytes.now }
{
    match bytes {
        [] => false,
        [b, ..] => is_blank(*b),
    }
}

fn outside(region: Region) -> Mode
    ensures mode { mode_of result ≡ region_of region }
    ensures depth { result.depth ≡ 0 }
{
    Mode {
        region,
        depth: 0,
        passing: false,
    }
}

fn opened(region: Region, depth: u64) -> Move
    ensures { result ≡ Move.On (record { region = region; depth = depth; passing = true }) }
{
    Move::On(Mode {
        region,
        depth,
        passing: true,
    })
}

/// The mode between sentences.
pub fn between() -> Mode
    ensures mode { mode_of result ≡ gap }
    ensures depth { result.depth ≡ 0 }
{
    Mode {
        region: Region::Gap,
        depth: 0,
        passing: false,
    }
}

/// The mode behind what a byte does.
pub fn mode_behind(behind: Move) -> Mode
    ensures mode { mode_of result ≡ (moved behind).0 }
    ensures depth { result.depth ≡ depth_of behind }
{
    match behind {
        Move::On(mode) => mode,
        Move::Finished { .. } => between(),
    }
}

/// In the sentence that starts there, where no comment begins.
#[tactic(auto, unfolding(crate::specs::Cutting::in_sentence))]
fn in_sentence(end: bool, start: u64, quoted: bool, at: u64, bytes: &[u8]) -> Move
    ensures value { moved result ≡ in_sentence end start quoted at bytes.now }
    ensures depth { depth_of result ≡ 0 }
{
    if begins("\"", bytes) {
        Move::On(outside(Region::Sentence {
            start,
            quoted: !quoted,
        }))
    } else if !quoted && is_stop(end, bytes) {
        Move::Finished { start, end: at }
    } else {
        Move::On(outside(Region::Sentence { start, quoted }))
    }
}

/// Between sentences.
#[tactic(auto, unfolding(crate::specs::Cutting::move_over))]
fn in_gap(end: bool, at: u64, bytes: &[u8]) -> Move
    requires { at + 1 < 2 ^ 64 }
    ensures value { moved result ≡ move_over end gap at bytes.now }
    ensures depth { depth_of result ≤ 1 }
{
    if begins("(*", bytes) {
        opened(Region::Gap, 1)
    } else if begins_blank(bytes) {
        Move::On(outside(Region::Gap))
    } else if is_brace(bytes) {
        Move::Finished {
            start: at,
            end: at + 1,
        }
    } else {
        in_sentence(end, at, false, at, bytes)
    }
}

/// In the sentence that starts there.
#[tactic(auto, unfolding(crate::specs::Cutting::move_over))]
fn in_text(end: bool, start: u64, quoted: bool, at: u64, bytes: &[u8]) -> Move
    ensures value { moved result ≡ move_over end (inside start quoted) at bytes.now }
    ensures depth { depth_of result ≤ 1 }
{
    if begins("(*", bytes) {
        opened(Region::Sentence { start, quoted }, 1)
    } else {
        in_sentence(end, start, quoted, at, bytes)
    }
}

/// In so many comments.
fn in_comment(region: Region, depth: u64, bytes: &[u8]) -> Move
    requires some { 0 < depth }
    requires fits { depth + 1 < 2 ^ 64 }
    ensures value { (end : Bool) (at : ℕ) → moved result ≡ move_over end (uncommented depth (region_of region)) at bytes.now }
    ensures depth { depth_of result ≤ depth + 1 }
{
    if begins("(*", bytes) {
        opened(region, depth + 1)
    } else if begins("*)", bytes) {
        opened(region, depth - 1)
    } else {
        Move::On(Mode {
            region,
            depth,
            passing: false,
        })
    }
}

fn outside_comments(end: bool, region: Region, at: u64, bytes: &[u8]) -> Move
    requires { at + 1 < 2 ^ 64 }
    ensures value { moved result ≡ move_over end (region_of region) at bytes.now }
    ensures depth { depth_of result ≤ 1 }
{
    match region {
        Region::Gap => in_gap(end, at, bytes),
        Region::Sentence { start, quoted } => in_text(end, start, quoted, at, bytes),
    }
}

/// What the first of the bytes does. The flag says whether their end counts as a blank.
#[tactic(auto, unfolding(crate::specs::Cutting::move_over))]
pub fn step(end: bool, mode: Mode, at: u64, bytes: &[u8]) -> Move
    requires place { at + 1 < 2 ^ 64 }
    requires nested { mode.depth ≤ at }
    ensures value { moved result ≡ move_over end (mode_of mode) at bytes.now }
    ensures depth { depth_of result ≤ at + 1 }
{
    if mode.passing {
        Move::On(Mode {
            region: mode.region,
            depth: mode.depth,
            passing: false,
        })
    } else if mode.depth == 0 {
        outside_comments(end, mode.region, at, bytes)
    } else {
        in_comment(mode.region, mode.depth, bytes)
    }
}

/// Whether what the byte does depends on the next one.
#[tactic(auto, unfolding(crate::specs::Machine::waits))]
fn waits(mode: Mode, b: u8) -> bool
    ensures { result ≡ waits (mode_of mode) b }
{
    if mode.passing {
        return false;
    }
    if mode.depth > 0 {
        return b == b'(' || b == b'*';
    }
    match mode.region {
        Region::Gap => b == b'.' || b == b'(',
        Region::Sentence { start: _, quoted } => (b == b'.' && !quoted) || b == b'(',
    }
}

/// Whether the only byte waits for the next one.
pub fn ends_waiting(mode: Mode, bytes: &[u8]) -> bool
    requires { 0 < length bytes.now }
    ensures { result ≡ (length bytes.now == 1 && waits (mode_of mode) (slice_index bytes.now 0)) }
{
    bytes.len() == 1 && waits(mode, bytes[0])
}
