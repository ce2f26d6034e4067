//! The tests of all crates.
//!
//! To add a test: a `#[test]` function in the module of what it is about, through public calls alone, with what is expected
//! taken from outside. `rt try --test` tries it before it is proved, `rt test` proves and runs it.
#![tactic(auto)]

#[cfg(test)]
mod check;
#[cfg(test)]
mod derivation;
#[cfg(test)]
mod devices;
#[cfg(test)]
mod directives;
#[cfg(test)]
mod given;
#[cfg(test)]
mod goals;
#[cfg(test)]
mod limits;
#[cfg(test)]
mod logic;
#[cfg(test)]
mod named;
#[cfg(test)]
mod proof_trees;
#[cfg(test)]
mod rules;
#[cfg(test)]
mod run;
#[cfg(test)]
mod script;
#[cfg(test)]
mod shown;
#[cfg(test)]
mod stars;
#[cfg(test)]
mod steps;
#[cfg(test)]
mod sums;
#[cfg(test)]
mod text;
