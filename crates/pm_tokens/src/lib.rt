//! The tokens of scripts and formulas.
#![tactic(auto)]

mod characters;
mod laws;
mod mode;
mod pieces;
mod symbol;
mod symbols;
mod text;
mod token;
mod words;

pub use characters::first_char;
pub use laws::{names_are_read, numbers_are_read, symbols_are_read, texts_have_one_list};
pub use pieces::is_blank;
pub use symbol::Symbol;
pub use symbols::begins;
pub use text::tokens;
pub use token::{Placed, Token, Tokens};
pub use words::lookup;
