//! The languages that files are written in.

/// The rules that a file may use. A profile is a choice of signs: what only rules outside it use is no
/// sign of the grammar there.
#[derive(Clone, Copy, Debug, PartialEq, Eq)]
pub enum Profile {
    /// Problems of modal logic: all rules but `$distinct`, nesting up to 1,000, and names with up to
    /// 1,000 arguments.
    Problem,
    /// Classical problems: no include, logic statement or modality, nesting up to 4,000, and names with
    /// up to 1,001 arguments.
    Classical,
    /// Finite interpretations: as classical problems, with `$distinct` besides, but nesting up to 1,000.
    Interpretation,
}
