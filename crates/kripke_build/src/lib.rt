//! Corresponding structures: a classical structure as a Kripke structure, and the way back.
#![tactic(auto)]

ghost use Rattle.std.specs.Prelude.{◌≡◌, IfOk};
ghost use Rattle.nxf_tree.specs.ClassicalSignature.{classical_signature_of};
ghost use Rattle.nxf_tree.specs.Structures.{Corresponds};
ghost use Rattle.nxf_tree.specs.WellFormed.{IsWellFormed};
ghost use Rattle.fin_struct.specs.StructureTables.{IsFor, classical_structure};
ghost use Rattle.fin_struct.specs.KripkeTables.{IsKripke, IsKripkeFor, kripke_structure};
ghost use Rattle.fin_struct.specs.Corresponding.{lowered, lifted};

use fin_struct::{Kripke, Structure};
use nxf_base::Memory;
use nxf_tree::Signature;
use std::alloc::Global;

/// The Kripke structure over the signature that corresponds to a structure over its classical signature: the elements of
/// `mk_world` are the worlds, and the pairs, the elements that exist, the values and the true rows are those of the tables.
/// `lower` undoes it. There is no other error than want of memory.
pub fn lift(alloc: Global, over: &Signature, structure: &Structure) -> Result<Kripke, Memory>
    requires well_formed { IsWellFormed over.now }
    requires over { IsFor (classical_signature_of over.now) structure.now }
    ensures made { IfOk result (λ made. made ≡ lifted over.now structure.now) }
    ensures over { IfOk result (λ made. IsKripkeFor over.now made) }
    ensures within { IfOk result (λ made. IsKripke made) }
    ensures corresponds { IfOk result (λ made. Corresponds (kripke_structure made) (classical_structure structure.now)) }
    ensures undone { IfOk result (λ made. lowered made ≡ structure.now) }
{
    Kripke::lifted(alloc, over, structure)
}

/// The structure over the classical signature of the signature that corresponds to a Kripke structure over it. `lift` undoes
/// it. There is no other error than want of memory.
pub fn lower(alloc: Global, over: &Signature, kripke: &Kripke) -> Result<Structure, Memory>
    requires { IsKripkeFor over.now kripke.now }
    ensures made { IfOk result (λ made. made ≡ lowered kripke.now) }
    ensures over { IfOk result (λ made. IsFor (classical_signature_of over.now) made) }
    ensures corresponds { IfOk result (λ made. Corresponds (kripke_structure kripke.now) (classical_structure made)) }
    ensures undone { IfOk result (λ made. lifted over.now made ≡ kripke.now) }
{
    Structure::lowered(alloc, kripke)
}
