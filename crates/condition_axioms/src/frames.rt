//! The axioms of all schemes of a signature.
ghost use Rattle.std.specs.Prelude.{◌≡◌, ◌++◌, map, IfOk, OnOk};
ghost use Rattle.nxf_tree.specs.Axioms.{frame_axiom, frame_axioms};
ghost use Rattle.nxf_tree.specs.Countermodels.{Say};
ghost use Rattle.nxf_tree.specs.Conditions.{meets_frames};

use crate::schemes::axiom;
use nxf_base::{List, Memory};
use nxf_tree::{Formula, IndexEntry, Signature};
use std::alloc::Global;

/// The axioms of the relations: for each index one for each of its schemes, in order. In a classical structure they are true
/// exactly where the relations of the corresponding Kripke structure meet their schemes.
pub fn axioms(alloc: Global, signature: &Signature) -> Result<List<Formula>, Memory>
    ensures written { IfOk result (λ made. made ≡ frame_axioms signature.now.indexes) }
    ensures say { IfOk result (λ made. Say signature.now made meets_frames) }
{
    let mut made = List::new(alloc);
    for index in signature.indexes.as_slice() {
        add_axioms(alloc, index, &mut made)?;
    }
    Ok(made)
}

/// Adds the axioms of one index.
fn add_axioms(alloc: Global, index: &IndexEntry, made: &mut List<Formula>) -> Result<(), Memory>
    ensures { OnOk result (made.new ≡ made.old ++ map (frame_axiom index.now.name) index.now.schemes) }
{
    for scheme in index.schemes.as_slice() {
        made.push(axiom(alloc, &index.name, *scheme)?)?;
    }
    Ok(())
}
