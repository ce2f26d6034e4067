//! The rules' names.

ghost use Rattle.std.specs.Prelude.{◌≡◌, ◌-◌, ◌≤◌, ◌<◌, Some, map, slice_get};
ghost use Rattle.pm_dtext.specs.Texts.{ReadsExactly, printed_names};
ghost use Rattle.pm_dtext.specs.Reading.{named, rule_signs, rule_sign_of, says_at};

use crate::fault::Fault;
use crate::signs::RuleSign;
use crate::words::{is_text, word_of};
use pm_rules::Rule;

/// The name of the rule of this number, 1 to 67, and `qed` for 68.
pub fn rule_name(number: u8) -> &'static str
    requires some { 1 ≤ number }
    requires within { number ≤ 68 }
    ensures { slice_get printed_names (number - 1) ≡ Some result.now }
{
    match number {
        1 => "refl",
        2 => "trans",
        3 => "inst",
        4 => "true",
        5 => "false",
        6 => "and-l",
        7 => "and-r",
        8 => "and-i",
        9 => "or-l",
        10 => "or-r",
        11 => "or-e",
        12 => "imp-i",
        13 => "imp-e",
        14 => "all-i",
        15 => "all-e",
        16 => "ex-i",
        17 => "ex-e",
        18 => "sep-mono",
        19 => "sep-comm",
        20 => "sep-assoc-r",
        21 => "sep-assoc-l",
        22 => "sep-unit",
        23 => "sep-weaken",
        24 => "wand-i",
        25 => "wand-e",
        26 => "later-mono",
        27 => "later-intro",
        28 => "loeb",
        29 => "later-sep",
        30 => "sep-later",
        31 => "later-and",
        32 => "later-or",
        33 => "later-all",
        34 => "later-ex",
        35 => "pers-mono",
        36 => "pers-elim",
        37 => "pers-idem",
        38 => "pers-dup",
        39 => "pers-pure",
        40 => "pers-and",
        41 => "pers-or",
        42 => "pers-all",
        43 => "pers-ex",
        44 => "pers-later",
        45 => "later-pers",
        46 => "upd-mono",
        47 => "upd-intro",
        48 => "upd-trans",
        49 => "upd-frame",
        50 => "upd-pure",
        51 => "pure-and",
        52 => "and-pure",
        53 => "pure-or",
        54 => "or-pure",
        55 => "not",
        56 => "em",
        57 => "linear",
        58 => "rewrite",
        59 => "pts-split",
        60 => "pts-join",
        61 => "pts-agree",
        62 => "pts-over",
        63 => "pts-write",
        64 => "pts-new",
        65 => "fold",
        66 => "unfold",
        67 => "timeless",
        68 => "qed",
        _ => unreachable!(),
    }
}

/// What the name of the rule of this number says.
fn sign_numbered(number: u8) -> RuleSign
    requires some { 1 ≤ number }
    requires within { number ≤ 67 }
    ensures { slice_get (map (λ e. e.1) rule_signs) (number - 1) ≡ Some result }
{
    match number {
        1 => RuleSign::Plain(Rule::Refl),
        2 => RuleSign::Plain(Rule::Trans),
        3 => RuleSign::Inst,
        4 => RuleSign::Plain(Rule::True),
        5 => RuleSign::Plain(Rule::False),
        6 => RuleSign::Plain(Rule::AndL),
        7 => RuleSign::Plain(Rule::AndR),
        8 => RuleSign::Plain(Rule::AndI),
        9 => RuleSign::Plain(Rule::OrL),
        10 => RuleSign::Plain(Rule::OrR),
        11 => RuleSign::Plain(Rule::OrE),
        12 => RuleSign::Plain(Rule::ImpI),
        13 => RuleSign::Plain(Rule::ImpE),
        14 => RuleSign::Plain(Rule::AllI),
        15 => RuleSign::AllE,
        16 => RuleSign::ExI,
        17 => RuleSign::Plain(Rule::ExE),
        18 => RuleSign::Plain(Rule::SepMono),
        19 => RuleSign::Plain(Rule::SepComm),
        20 => RuleSign::Plain(Rule::SepAssocR),
        21 => RuleSign::Plain(Rule::SepAssocL),
        22 => RuleSign::Plain(Rule::SepUnit),
        23 => RuleSign::Plain(Rule::SepWeaken),
        24 => RuleSign::Plain(Rule::WandI),
        25 => RuleSign::Plain(Rule::WandE),
        26 => RuleSign::Plain(Rule::LaterMono),
        27 => RuleSign::Plain(Rule::LaterIntro),
        28 => RuleSign::Plain(Rule::Loeb),
        29 => RuleSign::Plain(Rule::LaterSep),
        30 => RuleSign::Plain(Rule::SepLater),
        31 => RuleSign::Plain(Rule::LaterAnd),
        32 => RuleSign::Plain(Rule::LaterOr),
        33 => RuleSign::Plain(Rule::LaterAll),
        34 => RuleSign::Plain(Rule::LaterEx),
        35 => RuleSign::Plain(Rule::PersMono),
        36 => RuleSign::Plain(Rule::PersElim),
        37 => RuleSign::Plain(Rule::PersIdem),
        38 => RuleSign::Plain(Rule::PersDup),
        39 => RuleSign::Plain(Rule::PersPure),
        40 => RuleSign::Plain(Rule::PersAnd),
        41 => RuleSign::Plain(Rule::PersOr),
        42 => RuleSign::Plain(Rule::PersAll),
        43 => RuleSign::Plain(Rule::PersEx),
        44 => RuleSign::Plain(Rule::PersLater),
        45 => RuleSign::Plain(Rule::LaterPers),
        46 => RuleSign::Plain(Rule::UpdMono),
        47 => RuleSign::Plain(Rule::UpdIntro),
        48 => RuleSign::Plain(Rule::UpdTrans),
        49 => RuleSign::Plain(Rule::UpdFrame),
        50 => RuleSign::Plain(Rule::UpdPure),
        51 => RuleSign::Plain(Rule::PureAnd),
        52 => RuleSign::Plain(Rule::AndPure),
        53 => RuleSign::Plain(Rule::PureOr),
        54 => RuleSign::Plain(Rule::OrPure),
        55 => RuleSign::Plain(Rule::Not),
        56 => RuleSign::Plain(Rule::Em),
        57 => RuleSign::Linear,
        58 => RuleSign::Rewrite,
        59 => RuleSign::Plain(Rule::PtsSplit),
        60 => RuleSign::Plain(Rule::PtsJoin),
        61 => RuleSign::Plain(Rule::PtsAgree),
        62 => RuleSign::Plain(Rule::PtsOver),
        63 => RuleSign::Plain(Rule::PtsWrite),
        64 => RuleSign::Plain(Rule::PtsNew),
        65 => RuleSign::Plain(Rule::Fold),
        66 => RuleSign::Plain(Rule::Unfold),
        67 => RuleSign::Plain(Rule::Timeless),
        _ => unreachable!(),
    }
}

/// What a word says that is a rule's name.
#[tactic(auto, using(crate::proofs::Named::begun, crate::proofs::Named::ended))]
fn rule_sign_of(word: &[u8]) -> Option<RuleSign>
    ensures { result ≡ rule_sign_of word.now }
{
    for number in 1..68 {
        if is_text(word, rule_name(number)) {
            return Some(sign_numbered(number));
        }
    }
    None
}

/// The rule's name at the front, and what follows it.
#[tactic(auto, unfolding(crate::specs::Reading::says_at))]
pub fn rule_sign(bytes: &[u8]) -> Result<(RuleSign, &[u8]), Fault>
    ensures { ReadsExactly result (says_at rule_sign_of bytes.now) }
{
    let (word, rest) = word_of(bytes);
    match rule_sign_of(word) {
        Some(sign) => Ok((sign, rest)),
        None => Err(Fault::Syntax(bytes.len())),
    }
}
