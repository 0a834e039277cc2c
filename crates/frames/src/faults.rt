//! The first scheme that the relation of an index doesn't meet.
ghost use Rattle.std.specs.Prelude.{◌≡◌, ◌↔◌, ◌<◌, None, not};
ghost use Rattle.std.specs.List.{find};
ghost use Rattle.nxf_tree.specs.Conditions.{MeetsFrames, meets_scheme};
ghost use Rattle.nxf_tree.specs.WellFormed.{IsWellFormed};
ghost use Rattle.fin_struct.specs.FirstFault.{meets_in_tables, IsFirstFailing, frame_conditions};
ghost use Rattle.fin_struct.specs.KripkeTables.{IsKripkeFor, kripke_structure, related_in};

use crate::relations::meets;
use fin_struct::{Condition, Kripke};
use nxf_tree::{Scheme, Signature};

/// The first scheme that a relation doesn't meet, by index, and within an index by scheme. There is none exactly where the
/// relation of each index meets all its schemes. It takes no memory.
pub fn first_fault(over: &Signature, kripke: &Kripke) -> Option<Condition>
    requires well_formed { IsWellFormed over.now }
    requires over { IsKripkeFor over.now kripke.now }
    ensures first { IsFirstFailing (meets_in_tables over.now kripke.now) (frame_conditions over.now) result }
    ensures none { (result ≡ None) ↔ MeetsFrames over.now (kripke_structure kripke.now) }
{
    let worlds = kripke.worlds();
    prove!(worlds > 0);
    for (place, index) in over.indexes.as_slice().iter().enumerate() {
        let number = place as u32;
        if let Some(scheme) = first_unmet(kripke, number, index.schemes.as_slice()) {
            return Some(Condition::Frame(number, scheme));
        }
    }
    None
}

/// The first of the schemes that the relation of the index doesn't meet.
fn first_unmet(kripke: &Kripke, index: u32, schemes: &[Scheme]) -> Option<Scheme>
    requires { index < kripke.now.indexes }
    ensures { result ≡ find (λ scheme. not (meets_scheme scheme kripke.now.worlds (related_in kripke.now index))) schemes.now }
{
    for scheme in schemes {
        if !meets(kripke, index, *scheme) {
            return Some(*scheme);
        }
    }
    None
}
