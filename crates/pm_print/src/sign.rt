//! What stands before, between and behind the parts of what is printed.

ghost use Rattle.std.specs.Prelude.{◌≡◌};
ghost use Rattle.pm_print.specs.Printing.{text_of};
ghost use Rattle.pm_print.specs.Parts.{sign_pieces, shape};

#[derive(Clone, Copy)]
pub enum Sign {
    Plus,
    Minus,
    Times,
    Equals,
    AtMost,
    Less,
    Star,
    Wand,
    And,
    Or,
    Arrow,
    PointsTo,
    Defines,
    Colon,
    Not,
    Later,
    Persistently,
    Update,
    Forall,
    Exists,
    Comma,
    True,
    False,
    Open,
    Close,
    OpenPure,
    ClosePure,
    Slash,
    Negation,
    OpenUnits,
    CloseUnits,
}

/// An infix or a prefix: its level, those that its parts need, and its sign. A prefix has a right part alone.
#[derive(Clone, Copy)]
pub struct Shape {
    pub level: u8,
    pub left: u8,
    pub right: u8,
    pub sign: Sign,
}

impl Shape {
    pub fn new(level: u8, left: u8, right: u8, sign: Sign) -> Shape
        ensures { result ≡ shape level left right sign }
    {
        Shape {
            level,
            left,
            right,
            sign,
        }
    }
}

/// The text of a sign, with the blanks around it.
#[tactic(auto, unfolding(crate::specs::Parts::sign_pieces, crate::specs::Printing::text_of, crate::specs::Printing::spelled, crate::specs::Printing::spelling, crate::specs::Printing::same_symbol, pm_tokens::specs::Symbols::symbols, pm_tokens::specs::Symbols::keywords))]
pub fn sign_text(sign: Sign) -> &'static str
    ensures { result.now ≡ text_of (sign_pieces sign) }
{
    match sign {
        Sign::Plus => " + ",
        Sign::Minus => " - ",
        Sign::Times => " * ",
        Sign::Equals => " = ",
        Sign::AtMost => " ≤ ",
        Sign::Less => " < ",
        Sign::Star => " ∗ ",
        Sign::Wand => " -∗ ",
        Sign::And => " ∧ ",
        Sign::Or => " ∨ ",
        Sign::Arrow => " → ",
        Sign::PointsTo => " ↦ ",
        Sign::Defines => " := ",
        Sign::Colon => " : ",
        Sign::Not => "¬ ",
        Sign::Later => "▷ ",
        Sign::Persistently => "□ ",
        Sign::Update => "|==> ",
        Sign::Forall => "∀ ",
        Sign::Exists => "∃ ",
        Sign::Comma => ", ",
        Sign::True => "True",
        Sign::False => "False",
        Sign::Open => "(",
        Sign::Close => ")",
        Sign::OpenPure => "⌜",
        Sign::ClosePure => "⌝",
        Sign::Slash => "/",
        Sign::Negation => "-(",
        Sign::OpenUnits => " ↦{",
        Sign::CloseUnits => "} ",
    }
}
