//! How schemes are written: as the rows of the rule table are.

/// `A ∗ B`
#[macro_export]
macro_rules! sep {
    ($a:expr, $b:expr) => {
        $crate::Pattern::Two($crate::Binary::Sep, &$a, &$b)
    };
}

/// `A -∗ B`
#[macro_export]
macro_rules! wand {
    ($a:expr, $b:expr) => {
        $crate::Pattern::Two($crate::Binary::Wand, &$a, &$b)
    };
}

/// `A ∧ B`
#[macro_export]
macro_rules! and {
    ($a:expr, $b:expr) => {
        $crate::Pattern::Two($crate::Binary::And, &$a, &$b)
    };
}

/// `A ∨ B`
#[macro_export]
macro_rules! or {
    ($a:expr, $b:expr) => {
        $crate::Pattern::Two($crate::Binary::Or, &$a, &$b)
    };
}

/// `A → B`
#[macro_export]
macro_rules! imp {
    ($a:expr, $b:expr) => {
        $crate::Pattern::Two($crate::Binary::Imp, &$a, &$b)
    };
}

/// `∀ B`, where the letters stand for formulas under the binder
#[macro_export]
macro_rules! all {
    ($a:expr) => {
        $crate::Pattern::One($crate::Unary::All, &$a)
    };
}

/// `∃ B`, where the letters stand for formulas under the binder
#[macro_export]
macro_rules! ex {
    ($a:expr) => {
        $crate::Pattern::One($crate::Unary::Ex, &$a)
    };
}

/// `▷ A`
#[macro_export]
macro_rules! later {
    ($a:expr) => {
        $crate::Pattern::One($crate::Unary::Later, &$a)
    };
}

/// `□ A`
#[macro_export]
macro_rules! pers {
    ($a:expr) => {
        $crate::Pattern::One($crate::Unary::Pers, &$a)
    };
}

/// `|==> A`
#[macro_export]
macro_rules! upd {
    ($a:expr) => {
        $crate::Pattern::One($crate::Unary::Upd, &$a)
    };
}

/// A place for a proof of `A ⊢ B`
#[macro_export]
macro_rules! gap {
    ($a:expr => $b:expr) => {
        $crate::Scheme::Gap($crate::Sides { left: $a, right: $b })
    };
}

/// A step to `A ⊢ B` by the rule of this name, over the derivations of its premises
#[macro_export]
macro_rules! step {
    ($rule:ident, $a:expr => $b:expr) => {
        $crate::Scheme::Axiom($crate::Bare::$rule, $crate::Sides { left: $a, right: $b })
    };
    ($rule:ident, $a:expr => $b:expr; $first:expr) => {
        $crate::Scheme::One($crate::Bare::$rule, $crate::Sides { left: $a, right: $b }, &$first)
    };
    ($rule:ident, $a:expr => $b:expr; $first:expr; $second:expr) => {
        $crate::Scheme::Two(
            $crate::Bare::$rule,
            $crate::Sides { left: $a, right: $b },
            &$first,
            &$second
        )
    };
}
