//! The first function whose values don't exist where they should.
ghost use Rattle.std.specs.Prelude.{◌≡◌, ◌↔◌, None, Some, slice_get};
ghost use Rattle.nxf_tree.specs.Conditions.{MeetsTerms};
ghost use Rattle.nxf_tree.specs.Structures.{kripke_model};
ghost use Rattle.nxf_tree.specs.WellFormed.{IsWellFormed};
ghost use Rattle.fin_struct.specs.FirstFault.{meets_in_tables, IsFirstFailing, term_conditions};
ghost use Rattle.fin_struct.specs.FirstFault as meant;
ghost use Rattle.fin_struct.specs.KripkeTables.{IsKripkeFor, kripke_structure};
ghost use Rattle.designation.specs.steps.RowTests.{meets_result_in};

use crate::values::values_exist;
use classical_syntax::is_constant;
use fin_struct::{Condition, Kripke};
use nxf_tree::{Locality, Signature, SymbolEntry};

/// The first local function, by number, whose value for some arguments that exist at a world doesn't exist there, where the
/// sort of its values isn't constant. There is none exactly where all local functions meet this condition. It takes no
/// memory.
pub fn first_fault(over: &Signature, kripke: &Kripke) -> Option<Condition>
    requires well_formed { IsWellFormed over.now }
    requires over { IsKripkeFor over.now kripke.now }
    ensures first { IsFirstFailing (meets_in_tables over.now kripke.now) (term_conditions over.now) result }
    ensures none { (result ≡ None) ↔ MeetsTerms over.now (kripke_structure kripke.now) }
{
    for (place, symbol) in over.symbols.as_slice().iter().enumerate() {
        let number = place as u32;
        if !meets_term(over, kripke, number, symbol) {
            return Some(Condition::Local(number));
        }
    }
    None
}

/// Whether the symbol with the number meets its condition, where it has one.
fn meets_term(over: &Signature, kripke: &Kripke, number: u32, symbol: &SymbolEntry) -> bool
    requires well_formed { IsWellFormed over.now }
    requires over { IsKripkeFor over.now kripke.now }
    requires place { slice_get over.now.symbols number ≡ Some symbol.now }
    ensures { result ≡ meant.meets_term over.now (kripke_model over.now (kripke_structure kripke.now)) symbol.now }
{
    match symbol.locality {
        Locality::Local => meets_local(over, kripke, number, symbol),
        Locality::Global => true,
    }
}

/// Whether the values of the symbol exist where its arguments do, where they are of a sort that isn't constant.
fn meets_local(over: &Signature, kripke: &Kripke, number: u32, symbol: &SymbolEntry) -> bool
    requires well_formed { IsWellFormed over.now }
    requires over { IsKripkeFor over.now kripke.now }
    requires place { slice_get over.now.symbols number ≡ Some symbol.now }
    ensures { result ≡ meets_result_in over.now kripke.now symbol.now }
{
    let worlds = kripke.worlds();
    prove!(worlds > 0);
    match symbol.gives {
        None => true,
        Some(gives) => {
            if is_constant(over, gives) {
                return true;
            }
            values_exist(kripke, number, symbol.args.as_slice(), gives)
        }
    }
}
