//! Terms and formulas with numbers in place of names.

use nxf_base::{List, Text};
use nxf_tree::{Mode, Op, Quantifier};
use sqlite_items::Boxed;

/// A term with numbers for names. `Bound(k)` is the variable of the k-th enclosing quantifier, counted from the outside
/// and from 0; modalities don't count. `App` has the number of its symbol in the signature.
#[derive(Debug, Drop)]
pub enum NTerm {
    Bound(u32),
    App(u32, List<NTerm>),
}

/// A formula with numbers for names: symbols, sorts and indexes have their numbers in the signature. A `Quant` keeps its
/// sort's number and its variable's text. The sides of an equation stand apart, so that atoms take less room.
#[derive(Debug, Drop)]
pub enum Node {
    True,
    False,
    Atom(u32, List<NTerm>),
    Same(Boxed<NTerm>, Boxed<NTerm>),
    Differ(Boxed<NTerm>, Boxed<NTerm>),
    Not(Boxed<Node>),
    And(List<Node>),
    Or(List<Node>),
    Pair(Op, Boxed<Node>, Boxed<Node>),
    Quant(Quantifier, u32, Text, Boxed<Node>),
    Modal(Mode, u32, Boxed<Node>),
}

/// The formula of statement `place`, counted from 1, with the statement's name.
#[derive(Debug, Drop)]
pub struct Numbered {
    pub place: u32,
    pub name: Text,
    pub node: Node,
}
