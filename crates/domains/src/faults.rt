//! The first condition on the elements of a sort that fails.
ghost use Rattle.std.specs.Prelude.{◌≡◌, ◌↔◌, ◌<◌, ◌≤◌, length, None};
ghost use Rattle.nxf_tree.specs.Conditions.{MeetsDomains};
ghost use Rattle.nxf_tree.specs.WellFormed.{IsWellFormed};
ghost use Rattle.fin_struct.specs.FirstFault.{meets_in_tables, IsFirstFailing, domain_conditions, sort_conditions, monotone_from};
ghost use Rattle.fin_struct.specs.KripkeTables.{IsKripkeFor, kripke_structure};
ghost use Rattle.domains.specs.steps.WorldTests.{first_failing, existence_conditions};

use crate::existence::{everyone_exists, goes_along, someone_exists};
use fin_struct::{Condition, Kripke};
use nxf_base::List;
use nxf_tree::{IndexEntry, Regime, Signature};

/// The first condition on domains that fails, by sort: that at each world some element exists, that each element exists at
/// some world, and then, by index, that the elements go along the relation as the regime asks. There is none exactly where
/// existence meets the regimes. It takes no memory.
pub fn first_fault(over: &Signature, kripke: &Kripke) -> Option<Condition>
    requires well_formed { IsWellFormed over.now }
    requires over { IsKripkeFor over.now kripke.now }
    ensures first { IsFirstFailing (meets_in_tables over.now kripke.now) (domain_conditions over.now) result }
    ensures none { (result ≡ None) ↔ MeetsDomains over.now (kripke_structure kripke.now) }
{
    let worlds = kripke.worlds();
    prove!(worlds > 0);
    for (place, sort) in over.sorts.as_slice().iter().enumerate() {
        let number = place as u32;
        if let Some(fault) = sort_fault(kripke, &over.indexes, number, sort.regime) {
            return Some(fault);
        }
    }
    None
}

/// The first condition on a sort that fails; a constant one has none.
fn sort_fault(
    kripke: &Kripke,
    indexes: &List<IndexEntry>,
    sort: u32,
    regime: Regime,
) -> Option<Condition>
    requires sort_in { sort < length kripke.now.existence }
    requires indexes { length indexes.now ≡ kripke.now.indexes }
    requires few { length indexes.now ≤ 2147483648 }
    ensures { result ≡ first_failing kripke.now regime (sort_conditions indexes.now sort regime) }
{
    match regime {
        Regime::Constant => None,
        Regime::Varying => existence_fault(kripke, sort),
        Regime::Cumulative | Regime::Decreasing => match existence_fault(kripke, sort) {
            Some(fault) => Some(fault),
            None => monotone_fault(kripke, indexes, sort, regime),
        },
    }
}

/// The first that fails of the two conditions that each sort has that isn't constant.
fn existence_fault(kripke: &Kripke, sort: u32) -> Option<Condition>
    requires { sort < length kripke.now.existence }
    ensures { result ≡ first_failing kripke.now Regime.Varying (existence_conditions sort) }
{
    if !someone_exists(kripke, sort) {
        return Some(Condition::Empty(sort));
    }
    if !everyone_exists(kripke, sort) {
        return Some(Condition::Union(sort));
    }
    None
}

/// The first index along whose relation the elements don't go as the regime asks.
fn monotone_fault(
    kripke: &Kripke,
    indexes: &List<IndexEntry>,
    sort: u32,
    regime: Regime,
) -> Option<Condition>
    requires sort_in { sort < length kripke.now.existence }
    requires indexes { length indexes.now ≡ kripke.now.indexes }
    requires few { length indexes.now ≤ 2147483648 }
    ensures { result ≡ first_failing kripke.now regime (monotone_from sort 0 indexes.now) }
{
    for index in 0..indexes.len() {
        let number = index as u32;
        if !goes_along(kripke, sort, regime, number) {
            return Some(Condition::Monotone(sort, number));
        }
    }
    None
}
