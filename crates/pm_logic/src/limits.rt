//! What scripts, goals and lines of text may have at most. Code, definitions and documents take these numbers from here.
//! Bounds of numbers themselves (integers, coefficients, units) stand with what they bound.

/// Variables of a goal, and parameters of a predicate.
pub const MAX_VARIABLES: usize = 64;

/// Hypotheses and facts of a goal.
pub const MAX_HYPOTHESES: usize = 64;

/// Predicates of a script, and of a derivation.
pub const MAX_PREDICATES: usize = 64;

/// Lemmas of a script.
pub const MAX_LEMMAS: usize = 10_000;

/// Bytes of a script.
pub const MAX_SCRIPT: u64 = 16_777_216;

/// Nodes of a goal, and of a predicate's body.
pub const MAX_NODES: u64 = 4_000;

/// Levels of a formula, a pure formula or a term of a script.
pub const MAX_LEVELS: u32 = 200;

/// Levels of a formula, a pure formula or a term of a derivation's line.
pub const MAX_LINE_LEVELS: u32 = 1_000;

/// Variables of a derivation's line.
pub const MAX_LINE_VARIABLES: u32 = 1_000;

/// Terms that a derivation's line puts in place of variables.
pub const MAX_LINE_TERMS: u32 = 1_000;

/// Names of variables that are handed to a reader.
pub const MAX_NAMES: usize = 999_000;

/// Predicates of a table that is handed to a reader.
pub const MAX_TABLE: usize = 1_000_000;

/// Bytes of a sentence that is handed to a reader.
pub const MAX_SENTENCE: usize = 100_000_000;
