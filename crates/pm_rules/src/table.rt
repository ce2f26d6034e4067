//! The rule table.

ghost use Rattle.std.specs.Prelude.{◌≡◌};
ghost use Rattle.pm_rules.specs.Rows.{frame_for};
ghost use Rattle.pm_rules.specs.Read.{frame_of};

use crate::pattern::{Binary, Letter, Pattern, PureLetter, PurePattern, Sides, Unary};
use crate::rules::Rule;

/// The premises of a row of shapes.
#[derive(Clone, Copy)]
pub enum Premises {
    Zero,
    One(Sides),
    Two(Sides, Sides),
}

/// A row of the table, with its number. All-introduction and exists-elimination have a shifted letter and one variable
/// more in the premise. Where formulas are computed, no static data tells them, but a function for each rule.
#[derive(Clone, Copy)]
pub enum Row {
    Shapes {
        number: u8,
        premises: Premises,
        gives: Sides,
    },
    AllIntro {
        number: u8,
    },
    ExElim {
        number: u8,
    },
    Computed {
        number: u8,
        premises: u8,
    },
}

const P: Pattern = Pattern::Letter(Letter::First);

const Q: Pattern = Pattern::Letter(Letter::Second);

const R: Pattern = Pattern::Letter(Letter::Third);

const B: Pattern = Pattern::Letter(Letter::Third);

const P1: Pattern = Pattern::Letter(Letter::Third);

const Q1: Pattern = Pattern::Letter(Letter::Fourth);

const PHI: PurePattern = PurePattern::Letter(PureLetter::First);

const PSI: PurePattern = PurePattern::Letter(PureLetter::Second);

macro_rules! pure {
    ($a:expr) => {
        Pattern::Pure(&$a)
    };
}

macro_rules! sep {
    ($a:expr, $b:expr) => {
        Pattern::Two(Binary::Sep, &$a, &$b)
    };
}

macro_rules! wand {
    ($a:expr, $b:expr) => {
        Pattern::Two(Binary::Wand, &$a, &$b)
    };
}

macro_rules! and {
    ($a:expr, $b:expr) => {
        Pattern::Two(Binary::And, &$a, &$b)
    };
}

macro_rules! or {
    ($a:expr, $b:expr) => {
        Pattern::Two(Binary::Or, &$a, &$b)
    };
}

macro_rules! imp {
    ($a:expr, $b:expr) => {
        Pattern::Two(Binary::Imp, &$a, &$b)
    };
}

macro_rules! all {
    ($a:expr) => {
        Pattern::One(Unary::All, &$a)
    };
}

macro_rules! ex {
    ($a:expr) => {
        Pattern::One(Unary::Ex, &$a)
    };
}

macro_rules! later {
    ($a:expr) => {
        Pattern::One(Unary::Later, &$a)
    };
}

macro_rules! pers {
    ($a:expr) => {
        Pattern::One(Unary::Pers, &$a)
    };
}

macro_rules! upd {
    ($a:expr) => {
        Pattern::One(Unary::Upd, &$a)
    };
}

macro_rules! plain {
    ($n:expr, $a:expr => $b:expr) => {
        Row::Shapes {
            number: $n,
            premises: Premises::Zero,
            gives: Sides { left: $a, right: $b },
        }
    };
}

macro_rules! by {
    ($n:expr, $c:expr => $d:expr; $a:expr => $b:expr) => {
        Row::Shapes {
            number: $n,
            premises: Premises::One(Sides { left: $c, right: $d }),
            gives: Sides { left: $a, right: $b },
        }
    };
}

macro_rules! both {
    ($n:expr, $c:expr => $d:expr; $e:expr => $f:expr; $a:expr => $b:expr) => {
        Row::Shapes {
            number: $n,
            premises: Premises::Two(Sides { left: $c, right: $d }, Sides { left: $e, right: $f }),
            gives: Sides { left: $a, right: $b },
        }
    };
}

macro_rules! computed {
    ($n:expr, $premises:expr) => {
        Row::Computed { number: $n, premises: $premises }
    };
}

static REFL: Row = plain!(1, P => P);

static TRANS: Row = both!(2, P => R; R => Q; P => Q);

static INST: Row = computed!(3, 1);

static TRUE: Row = plain!(4, P => pure!(PurePattern::True));

static FALSE: Row = plain!(5, pure!(PurePattern::False) => P);

static AND_L: Row = plain!(6, and!(P, Q) => P);

static AND_R: Row = plain!(7, and!(P, Q) => Q);

static AND_I: Row = both!(8, P => Q; P => R; P => and!(Q, R));

static OR_L: Row = plain!(9, P => or!(P, Q));

static OR_R: Row = plain!(10, Q => or!(P, Q));

static OR_E: Row = both!(11, P => R; Q => R; or!(P, Q) => R);

static IMP_I: Row = by!(12, and!(P, Q) => R; P => imp!(Q, R));

static IMP_E: Row = by!(13, P => imp!(Q, R); and!(P, Q) => R);

static ALL_I: Row = Row::AllIntro { number: 14 };

static ALL_E: Row = computed!(15, 0);

static EX_I: Row = computed!(16, 0);

static EX_E: Row = Row::ExElim { number: 17 };

static SEP_MONO: Row = both!(18, P => P1; Q => Q1; sep!(P, Q) => sep!(P1, Q1));

static SEP_COMM: Row = plain!(19, sep!(P, Q) => sep!(Q, P));

static SEP_ASSOC_R: Row = plain!(20, sep!(sep!(P, Q), R) => sep!(P, sep!(Q, R)));

static SEP_ASSOC_L: Row = plain!(21, sep!(P, sep!(Q, R)) => sep!(sep!(P, Q), R));

static SEP_UNIT: Row = plain!(22, P => sep!(pure!(PurePattern::True), P));

static SEP_WEAKEN: Row = plain!(23, sep!(P, Q) => P);

static WAND_I: Row = by!(24, sep!(P, Q) => R; P => wand!(Q, R));

static WAND_E: Row = by!(25, P => wand!(Q, R); sep!(P, Q) => R);

static LATER_MONO: Row = by!(26, P => Q; later!(P) => later!(Q));

static LATER_INTRO: Row = plain!(27, P => later!(P));

static LOEB: Row = plain!(28, imp!(later!(P), P) => P);

static LATER_SEP: Row = plain!(29, later!(sep!(P, Q)) => sep!(later!(P), later!(Q)));

static SEP_LATER: Row = plain!(30, sep!(later!(P), later!(Q)) => later!(sep!(P, Q)));

static LATER_AND: Row = plain!(31, and!(later!(P), later!(Q)) => later!(and!(P, Q)));

static LATER_OR: Row = plain!(32, later!(or!(P, Q)) => or!(later!(P), later!(Q)));

static LATER_ALL: Row = plain!(33, all!(later!(B)) => later!(all!(B)));

static LATER_EX: Row = plain!(34, later!(ex!(B)) => ex!(later!(B)));

static PERS_MONO: Row = by!(35, P => Q; pers!(P) => pers!(Q));

static PERS_ELIM: Row = plain!(36, pers!(P) => P);

static PERS_IDEM: Row = plain!(37, pers!(P) => pers!(pers!(P)));

static PERS_DUP: Row = plain!(38, and!(pers!(P), Q) => sep!(pers!(P), Q));

static PERS_PURE: Row = plain!(39, pure!(PHI) => pers!(pure!(PHI)));

static PERS_AND: Row = plain!(40, and!(pers!(P), pers!(Q)) => pers!(and!(P, Q)));

static PERS_OR: Row = plain!(41, pers!(or!(P, Q)) => or!(pers!(P), pers!(Q)));

static PERS_ALL: Row = plain!(42, all!(pers!(B)) => pers!(all!(B)));

static PERS_EX: Row = plain!(43, pers!(ex!(B)) => ex!(pers!(B)));

static PERS_LATER: Row = plain!(44, pers!(later!(P)) => later!(pers!(P)));

static LATER_PERS: Row = plain!(45, later!(pers!(P)) => pers!(later!(P)));

static UPD_MONO: Row = by!(46, P => Q; upd!(P) => upd!(Q));

static UPD_INTRO: Row = plain!(47, P => upd!(P));

static UPD_TRANS: Row = plain!(48, upd!(upd!(P)) => upd!(P));

static UPD_FRAME: Row = plain!(49, sep!(Q, upd!(P)) => upd!(sep!(Q, P)));

static UPD_PURE: Row = plain!(50, upd!(pure!(PHI)) => pure!(PHI));

static PURE_AND: Row =
    plain!(51, pure!(PurePattern::And(&PHI, &PSI)) => and!(pure!(PHI), pure!(PSI)));

static AND_PURE: Row =
    plain!(52, and!(pure!(PHI), pure!(PSI)) => pure!(PurePattern::And(&PHI, &PSI)));

static PURE_OR: Row = plain!(53, pure!(PurePattern::Or(&PHI, &PSI)) => or!(pure!(PHI), pure!(PSI)));

static OR_PURE: Row = plain!(54, or!(pure!(PHI), pure!(PSI)) => pure!(PurePattern::Or(&PHI, &PSI)));

static NOT: Row =
    plain!(55, and!(pure!(PHI), pure!(PurePattern::Not(&PHI))) => pure!(PurePattern::False));

static EM: Row = plain!(56, P => or!(pure!(PHI), pure!(PurePattern::Not(&PHI))));

static LINEAR: Row = computed!(57, 0);

static REWRITE: Row = computed!(58, 0);

static PTS_SPLIT: Row = computed!(59, 0);

static PTS_JOIN: Row = computed!(60, 0);

static PTS_AGREE: Row = computed!(61, 0);

static PTS_OVER: Row = computed!(62, 0);

static PTS_WRITE: Row = computed!(63, 0);

static PTS_NEW: Row = computed!(64, 0);

static FOLD: Row = computed!(65, 0);

static UNFOLD: Row = computed!(66, 0);

static TIMELESS: Row = plain!(67, later!(P) => or!(later!(pure!(PurePattern::False)), P));

/// The rule's row.
pub fn row_for(rule: &Rule) -> &'static Row
    ensures { frame_of result.now ≡ frame_for rule.now }
{
    match rule {
        Rule::Refl => &REFL,
        Rule::Trans => &TRANS,
        Rule::Inst { .. } => &INST,
        Rule::True => &TRUE,
        Rule::False => &FALSE,
        Rule::AndL => &AND_L,
        Rule::AndR => &AND_R,
        Rule::AndI => &AND_I,
        Rule::OrL => &OR_L,
        Rule::OrR => &OR_R,
        Rule::OrE => &OR_E,
        Rule::ImpI => &IMP_I,
        Rule::ImpE => &IMP_E,
        Rule::AllI => &ALL_I,
        Rule::AllE { .. } => &ALL_E,
        Rule::ExI { .. } => &EX_I,
        Rule::ExE => &EX_E,
        Rule::SepMono => &SEP_MONO,
        Rule::SepComm => &SEP_COMM,
        Rule::SepAssocR => &SEP_ASSOC_R,
        Rule::SepAssocL => &SEP_ASSOC_L,
        Rule::SepUnit => &SEP_UNIT,
        Rule::SepWeaken => &SEP_WEAKEN,
        Rule::WandI => &WAND_I,
        Rule::WandE => &WAND_E,
        Rule::LaterMono => &LATER_MONO,
        Rule::LaterIntro => &LATER_INTRO,
        Rule::Loeb => &LOEB,
        Rule::LaterSep => &LATER_SEP,
        Rule::SepLater => &SEP_LATER,
        Rule::LaterAnd => &LATER_AND,
        Rule::LaterOr => &LATER_OR,
        Rule::LaterAll => &LATER_ALL,
        Rule::LaterEx => &LATER_EX,
        Rule::PersMono => &PERS_MONO,
        Rule::PersElim => &PERS_ELIM,
        Rule::PersIdem => &PERS_IDEM,
        Rule::PersDup => &PERS_DUP,
        Rule::PersPure => &PERS_PURE,
        Rule::PersAnd => &PERS_AND,
        Rule::PersOr => &PERS_OR,
        Rule::PersAll => &PERS_ALL,
        Rule::PersEx => &PERS_EX,
        Rule::PersLater => &PERS_LATER,
        Rule::LaterPers => &LATER_PERS,
        Rule::UpdMono => &UPD_MONO,
        Rule::UpdIntro => &UPD_INTRO,
        Rule::UpdTrans => &UPD_TRANS,
        Rule::UpdFrame => &UPD_FRAME,
        Rule::UpdPure => &UPD_PURE,
        Rule::PureAnd => &PURE_AND,
        Rule::AndPure => &AND_PURE,
        Rule::PureOr => &PURE_OR,
        Rule::OrPure => &OR_PURE,
        Rule::Not => &NOT,
        Rule::Em => &EM,
        Rule::Linear { .. } => &LINEAR,
        Rule::Rewrite { .. } => &REWRITE,
        Rule::PtsSplit => &PTS_SPLIT,
        Rule::PtsJoin => &PTS_JOIN,
        Rule::PtsAgree => &PTS_AGREE,
        Rule::PtsOver => &PTS_OVER,
        Rule::PtsWrite => &PTS_WRITE,
        Rule::PtsNew => &PTS_NEW,
        Rule::Fold => &FOLD,
        Rule::Unfold => &UNFOLD,
        Rule::Timeless => &TIMELESS,
    }
}
