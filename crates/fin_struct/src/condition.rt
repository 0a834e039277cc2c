//! The conditions on a Kripke structure that is a countermodel.

use nxf_tree::Scheme;

/// A condition that a countermodel meets, with the numbers of its index, sort, symbol or statement: indexes, sorts and
/// symbols count from 0 in the signature, statements from 1 in the gathered file. `nxf_tree`'s specs define when each holds.
#[derive(Clone, Copy, Debug, PartialEq, Eq)]
pub enum Condition {
    /// The relation of the index meets the scheme.
    Frame(u32, Scheme),
    /// At each world some element of the sort exists.
    Empty(u32),
    /// Each element of the sort exists at some world.
    Union(u32),
    /// The sort's elements go along the relation of the index as its regime asks; the sort comes first.
    Monotone(u32, u32),
    /// The values of the symbol for arguments that exist at a world exist there.
    Local(u32),
    /// The premise holds where it counts.
    Premise(u32),
    /// The conjecture is false where it counts.
    Conjecture(u32),
}
