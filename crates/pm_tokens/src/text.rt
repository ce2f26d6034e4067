//! The tokens of a text.

ghost use Rattle.std.specs.Prelude.{◌≡◌, ◌≤◌, ◌++◌, length, IsTrue, IfOk, OnOk};
ghost use Rattle.pm_tokens.specs.Tokens.{places};
ghost use Rattle.pm_tokens.specs.Names.{are_named};
ghost use Rattle.pm_tokens.specs.Pieces.{piece_of};
ghost use Rattle.pm_tokens.specs.Texts.{added, behind, tokens, lexed, Rise};

use crate::mode::{Mode, after};
use crate::pieces::{Piece, first_piece};
use crate::token::{Placed, Tokens};
use std::alloc::{AllocError, Global};

/// Adds the token that a piece is, and answers the mode behind the piece.
fn add<'a>(
    list: &mut Vec<Placed<'a>>,
    mode: Mode,
    piece: Piece<'a>,
    at: usize,
) -> Result<Mode, AllocError>
    ensures list { OnOk result (places list.new.items ≡ places list.old.items ++ added at (piece_of piece.entry)) }
    ensures mode { IfOk result (λ next. next ≡ behind mode (piece_of piece.entry)) }
{
    match piece {
        Piece::Gap => Ok(mode),
        Piece::Token(token) => {
            list.push(Placed { token, at })?;
            Ok(after(mode, token))
        }
    }
}

/// All tokens of a text, and where they stop.
pub fn tokens(alloc: Global, text: &[u8]) -> Result<Tokens, AllocError>
    ensures value { IfOk result (λ found. lexed found ≡ tokens text.now) }
    ensures offsets { IfOk result (λ found. Rise 0 (places found.list.items) found.stop) }
    ensures within { IfOk result (λ found. found.stop ≤ length text.now) }
    ensures names { IfOk result (λ found. IsTrue (are_named (places found.list.items))) }
{
    let mut list = Vec::new(alloc);
    let mut mode = Mode::Start;
    let mut at = 0;
    let mut rest = text;
    'pieces: while let Some((piece, len)) = first_piece(mode, rest) {
        mode = add(&mut list, mode, piece, at)?;
        at += len;
        rest = rest.split_at(len).1;
    }
    Ok(Tokens { list, stop: at })
}
