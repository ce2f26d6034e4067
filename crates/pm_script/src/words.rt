//! The words that sentences begin with.

ghost use Rattle.std.specs.Prelude.{◌≡◌};
ghost use Rattle.pm_script.specs.Words.{sentence_form_of, form_of};

use pm_tokens::lookup;

/// What the first word of a sentence says, if it is no directive.
#[derive(Clone, Copy)]
pub enum SentenceForm {
    Predicate,
    Lemma,
    Proof,
    Qed,
    Abort,
    Restart,
    Show,
    Undo,
}

/// Which directive a word begins that has no terms and formulas.
#[derive(Clone, Copy)]
pub enum PlainForm {
    Intros,
    Split,
    SplitL,
    SplitR,
    Left,
    Right,
    Assumption,
    ExFalso,
    Done,
    Exact,
    Clear,
    Rename,
    Revert,
    Frame,
    ModIntro,
    Next,
    Loeb,
    Unfold,
    Combine,
    PureIntro,
    Rewrite,
    Linear,
}

/// Which directive a word begins.
#[derive(Clone, Copy)]
pub enum Form {
    Plain(PlainForm),
    Destruct,
    PoseProof,
    Mod,
    Specialize,
    Apply,
    Assert,
    Exists,
    Fold,
    Write,
    Alloc,
    Cases,
}

const SENTENCE_WORDS: [(&'static str, SentenceForm); 8] = [
    ("Predicate", SentenceForm::Predicate),
    ("Lemma", SentenceForm::Lemma),
    ("Proof", SentenceForm::Proof),
    ("Qed", SentenceForm::Qed),
    ("Abort", SentenceForm::Abort),
    ("Restart", SentenceForm::Restart),
    ("Show", SentenceForm::Show),
    ("Undo", SentenceForm::Undo),
];

const DIRECTIVE_WORDS: [(&'static str, Form); 34] = [
    ("iIntros", Form::Plain(PlainForm::Intros)),
    ("iDestruct", Form::Destruct),
    ("iPoseProof", Form::PoseProof),
    ("iMod", Form::Mod),
    ("iSpecialize", Form::Specialize),
    ("iApply", Form::Apply),
    ("iAssert", Form::Assert),
    ("iSplit", Form::Plain(PlainForm::Split)),
    ("iSplitL", Form::Plain(PlainForm::SplitL)),
    ("iSplitR", Form::Plain(PlainForm::SplitR)),
    ("iLeft", Form::Plain(PlainForm::Left)),
    ("iRight", Form::Plain(PlainForm::Right)),
    ("iAssumption", Form::Plain(PlainForm::Assumption)),
    ("iExFalso", Form::Plain(PlainForm::ExFalso)),
    ("done", Form::Plain(PlainForm::Done)),
    ("iExists", Form::Exists),
    ("iExact", Form::Plain(PlainForm::Exact)),
    ("iClear", Form::Plain(PlainForm::Clear)),
    ("iRename", Form::Plain(PlainForm::Rename)),
    ("iRevert", Form::Plain(PlainForm::Revert)),
    ("iFrame", Form::Plain(PlainForm::Frame)),
    ("iModIntro", Form::Plain(PlainForm::ModIntro)),
    ("iNext", Form::Plain(PlainForm::Next)),
    ("iLöb", Form::Plain(PlainForm::Loeb)),
    ("iLoeb", Form::Plain(PlainForm::Loeb)),
    ("iUnfold", Form::Plain(PlainForm::Unfold)),
    ("iFold", Form::Fold),
    ("iCombine", Form::Plain(PlainForm::Combine)),
    ("iWrite", Form::Write),
    ("iAlloc", Form::Alloc),
    ("iPureIntro", Form::Plain(PlainForm::PureIntro)),
    ("iRewrite", Form::Plain(PlainForm::Rewrite)),
    ("iCases", Form::Cases),
    ("linear", Form::Plain(PlainForm::Linear)),
];

/// What the first word of a sentence says, if it is no directive.
pub fn sentence_form_of(word: &[u8]) -> Option<SentenceForm>
    ensures { result ≡ sentence_form_of word.now }
{
    lookup(&SENTENCE_WORDS, word)
}

/// The directive that the word begins.
pub fn form_of(word: &[u8]) -> Option<Form>
    ensures { result ≡ form_of word.now }
{
    lookup(&DIRECTIVE_WORDS, word)
}
