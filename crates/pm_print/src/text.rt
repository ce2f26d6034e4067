//! Pieces of text, which are added to what is printed so far.

ghost use Rattle.std.specs.Prelude.{◌≡◌, [], ◌∷◌, ◌++◌, OnOk};
ghost use Rattle.pm_tokens.specs.Tokens.{name, number};
ghost use Rattle.pm_print.specs.Printing.{token, text_of, literal, binder_name};
ghost use Rattle.pm_print.specs.Parts.{sign_pieces, opening, closing};

use crate::sign::{Sign, sign_text};
use itoa::Buffer;
use pm_logic::{Bytes, Memory};

pub fn add(text: &mut Bytes, piece: &[u8]) -> Result<(), Memory>
    ensures { OnOk result (text.new ≡ text.old ++ piece.now) }
{
    text.extend(piece)
}

pub fn add_sign(text: &mut Bytes, sign: Sign) -> Result<(), Memory>
    ensures { OnOk result (text.new ≡ text.old ++ text_of (sign_pieces sign)) }
{
    add(text, sign_text(sign).as_bytes())
}

#[tactic(auto, using(crate::proofs::Joined::number_text))]
pub fn add_number(text: &mut Bytes, n: u32) -> Result<(), Memory>
    ensures { OnOk result (text.new ≡ text.old ++ text_of (token (number n) ∷ [])) }
{
    let mut buffer = Buffer::new();
    add(text, buffer.format(n).as_bytes())
}

#[tactic(auto, using(crate::proofs::Joined::literal_text))]
pub fn add_literal(text: &mut Bytes, z: &i64) -> Result<(), Memory>
    ensures { OnOk result (text.new ≡ text.old ++ text_of (literal z.now)) }
{
    let mut buffer = Buffer::new();
    add(text, buffer.format(*z).as_bytes())
}

/// The name of a binder around which there are so many variables.
pub fn add_binder(text: &mut Bytes, around: usize) -> Result<(), Memory>
    ensures { OnOk result (text.new ≡ text.old ++ text_of (token (name (binder_name around)) ∷ [])) }
{
    let mut buffer = Buffer::new();
    text.push(b'_')?;
    add(text, buffer.format(around).as_bytes())
}

/// A parenthesis where a part of the level `has` stands where the level `needs` is needed.
#[tactic(auto, using(crate::proofs::Joined::parentheses))]
pub fn open(text: &mut Bytes, has: u8, needs: u8) -> Result<(), Memory>
    ensures { OnOk result (text.new ≡ text.old ++ text_of (opening has needs)) }
{
    if has < needs {
        add_sign(text, Sign::Open)
    } else {
        Ok(())
    }
}

#[tactic(auto, using(crate::proofs::Joined::parentheses))]
pub fn close(text: &mut Bytes, has: u8, needs: u8) -> Result<(), Memory>
    ensures { OnOk result (text.new ≡ text.old ++ text_of (closing has needs)) }
{
    if has < needs {
        add_sign(text, Sign::Close)
    } else {
        Ok(())
    }
}
