//! What is left of a script at its end.

ghost use Rattle.std.specs.Prelude.{◌≡◌, ◌↔◌, ℕ, ◌+◌, ◌^◌, ◌≤◌, ◌<◌, length, IsTrue, Some};
ghost use Rattle.pm_cutter.specs.Cutting.{gap, is_commented, bad_byte, start_of};
ghost use Rattle.pm_cutter.specs.Machine.{mode_of, waiting_bytes, from_of, left_behind, left_by, ended_by};
ghost use Rattle.pm_cutter.specs.Spans.{end_from};

use crate::mode::{Mode, Move, Region};
use crate::moves::{between, mode_behind, step};
use crate::span::{Ended, Span};
use pm_logic::Bytes;
use pm_tokens::first_char;

fn is_commented(mode: Mode) -> bool
    ensures { result ≡ is_commented (mode_of mode) }
{
    mode.passing || mode.depth > 0
}

/// How many bytes behind the first are left of its character, where it stands outside comments. `None` where no character
/// begins.
fn left_behind(mode: Mode, left: usize, bytes: &[u8]) -> Option<usize>
    ensures { result ≡ left_behind (mode_of mode) left bytes.now }
{
    if left > 0 {
        return Some(left - 1);
    }
    if is_commented(mode) {
        return Some(0);
    }
    match first_char(bytes) {
        Some((_, len)) => Some(len - 1),
        None => None,
    }
}

/// The first byte outside comments at which no character begins, from a sentence's first byte on.
fn bad_byte(start: u64, bytes: &[u8]) -> Option<u64>
    requires { start + length bytes.now < 2 ^ 64 }
    ensures { result ≡ bad_byte gap 0 start bytes.now }
{
    let mut mode = between();
    let mut left = 0;
    let mut at = start;
    let mut rest = bytes;
    'bytes: while !rest.is_empty() {
        let Some(next) = left_behind(mode, left, rest) else {
            return Some(at);
        };
        left = next;
        mode = mode_behind(step(true, mode, at, rest));
        at += 1;
        rest = rest.split_at(1).1;
    }
    None
}

fn is_gap(mode: Mode) -> bool
    ensures { IsTrue result ↔ (mode_of mode ≡ gap) }
{
    if mode.passing || mode.depth > 0 {
        return false;
    }
    match mode.region {
        Region::Gap => true,
        Region::Sentence { .. } => false,
    }
}

/// What is left behind so many bytes, of which these are held.
fn left(mode: Mode, held: &[u8], count: u64) -> Ended
    requires { (start : ℕ) → start_of (mode_of mode) ≡ Some start → start + length held.now ≤ count }
    ensures { end_from result ≡ left_by (mode_of mode) held.now count }
{
    if is_gap(mode) {
        return Ended::Clean;
    }
    match mode.region {
        Region::Gap => Ended::Rest(count),
        Region::Sentence { start, quoted: _ } => match bad_byte(start, held) {
            Some(at) => Ended::Rest(at),
            None => Ended::Rest(count),
        },
    }
}

/// How the bytes end that are held and wait, where their end counts as a blank.
pub fn ended(mode: Mode, at: u64, held: Bytes, waiting: Option<u8>) -> Ended
    requires place { at + length (waiting_bytes waiting) < 2 ^ 64 }
    requires nested { mode.depth ≤ at }
    requires held { from_of (mode_of mode) at + length held ≡ at }
    ensures { end_from result ≡ ended_by (mode_of mode) at held (waiting_bytes waiting) }
{
    match waiting {
        None => left(mode, held.as_slice(), at),
        Some(b) => {
            let last = [b];
            match step(true, mode, at, &last) {
                Move::On(next) => left(next, held.as_slice(), at + 1),
                Move::Finished { start, end: _ } => Ended::Last(Span {
                    offset: start,
                    text: held,
                }),
            }
        }
    }
}
