//! What stands for the free indices of a tree.

/// What stands for the free indices of a tree, by the terms that are handed with it.
#[derive(Clone, Copy)]
pub enum Fill {
    /// The index itself.
    Itself,
    /// The term in its place, and 0 past their end.
    Entries,
    /// The first term for index 0, and one index lower for each other.
    First,
    /// One index higher.
    OneUp,
}
