//! What statements begin with.

/// The word that a statement begins with; `Other` begins none.
#[derive(Clone, Copy, Debug, PartialEq, Eq)]
pub enum Keyword {
    Tff,
    Include,
    Other,
}
