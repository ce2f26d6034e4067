//! Linear forms: sums of variables times coefficients, and a constant. All sums are exact, and no call takes memory.
#![tactic(auto)]

ghost use Rattle.std.specs.Prelude.{◌≡◌, ◌+ℤ◌, ◌*ℤ◌, ◌≤ℤ◌, ◌<◌, ◌↔◌, ℕ, pos, IsTrue, EachIndex, slice_index_or};
ghost use Rattle.pm_linform.specs.Entries as entries;
ghost use Rattle.pm_linform.specs.Sums as sums;
ghost use Rattle.pm_linform.specs.Values as values;

/// How many variables a form has. They are numbered from 0.
pub const VARIABLES: usize = 65;

/// A linear form: a coefficient for each variable, and a constant. These are its entries.
#[derive(Drop)]
pub struct Form {
    coefficients: [i128; VARIABLES],
    constant: i128,
}

/// The sum of an entry and a number.
#[tactic(auto, using(crate::proofs::Entries::seen), unfolding(crate::specs::Entries::room))]
fn plus(entry: i128, c: i64) -> i128
    requires { entries.IsAtMost entries.room entry }
    ensures { result ≡ entry +ℤ c }
{
    entry + i128::from(c)
}

/// A multiple of an entry.
#[tactic(auto, using(crate::proofs::Entries::seen), unfolding(crate::specs::Entries::room))]
fn times(c: i64, entry: i128) -> i128
    requires { entries.IsAtMost entries.room (c *ℤ entry) }
    ensures { result ≡ c *ℤ entry }
{
    i128::from(c) * entry
}

/// The sum of an entry and a multiple of another.
#[tactic(auto, using(crate::proofs::Entries::seen), unfolding(crate::specs::Entries::room))]
fn plus_scaled(entry: i128, c: i64, other: i128) -> i128
    requires room { entries.IsAtMost entries.room entry }
    requires scaled { entries.IsAtMost entries.room (c *ℤ other) }
    ensures { result ≡ entry +ℤ (c *ℤ other) }
{
    entry + times(c, other)
}

/// Whether `x` is at most `bound` in size.
fn is_at_most(x: i128, bound: i128) -> bool
    requires { pos 0 ≤ℤ bound }
    ensures { IsTrue result ↔ entries.IsAtMost bound x }
{
    -bound <= x && x <= bound
}

/// Whether all of `xs` are at most `bound` in size.
fn are_at_most(xs: &[i128], bound: i128) -> bool
    requires { pos 0 ≤ℤ bound }
    ensures { IsTrue result ↔ EachIndex xs.now (λ i. entries.IsAtMost bound (slice_index_or xs.now i (pos 0))) }
{
    for x in xs {
        if !is_at_most(*x, bound) {
            return false;
        }
    }
    true
}

impl Form {
    /// The form 0.
    pub fn zero() -> Form
        ensures { sums.IsZero result }
    {
        Form {
            coefficients: [0; VARIABLES],
            constant: 0,
        }
    }

    /// Adds `c` times variable `i`. No entry may be larger than 2^125 in size before.
    pub fn add_var(&mut self, i: u32, c: i64)
        requires variable { i < VARIABLES }
        requires room { entries.IsWithin entries.room self.old }
        ensures { sums.AddsVariable i c self.old self.new }
    {
        self.coefficients[i as usize] = plus(self.coefficients[i as usize], c);
    }

    /// Adds the constant `c`. No entry may be larger than 2^125 in size before.
    pub fn add_const(&mut self, c: i64)
        requires { entries.IsWithin entries.room self.old }
        ensures { sums.AddsConstant c self.old self.new }
    {
        self.constant = plus(self.constant, c);
    }

    /// Adds `c` times `other`. No entry, and no entry of `other` times `c`, may be larger than 2^125 in size before.
    pub fn add_scaled(&mut self, c: i64, other: &Form)
        requires room { entries.IsWithin entries.room self.old }
        requires scaled { entries.IsWithinTimes entries.room c other.now }
        ensures { sums.AddsScaled c other.now self.old self.new }
    {
        for i in 0..VARIABLES {
            self.coefficients[i] = plus_scaled(self.coefficients[i], c, other.coefficients[i]);
        }
        self.constant = plus_scaled(self.constant, c, other.constant);
    }

    /// Whether all coefficients are 0 and the constant is at least 1.
    pub fn is_positive_constant(&self) -> bool
        ensures { IsTrue result ↔ sums.IsPositiveConstant self.now }
    {
        self.coefficients.iter().all(|x| *x == 0) && self.constant >= 1
    }

    /// Whether no entry is larger than `bound` in size. No form is within a negative bound.
    pub fn within(&self, bound: i128) -> bool
        ensures { IsTrue result ↔ entries.IsWithin bound self.now }
    {
        if bound < 0 {
            return false;
        }
        is_at_most(self.constant, bound) && are_at_most(&self.coefficients, bound)
    }
}

/// The values of forms in an environment: that of the form 0 is 0, each call that adds makes the value greater by the
/// value of what it adds, and a form without variables has its constant as its value.
pub fn sums_are_exact()
    ensures { values.SumsAreExact }
{}
