//! What a signature says of a sort by its number. The definitions look names up; where names differ, an entry is found at
//! its own place.
ghost use Rattle.std.specs.Prelude.{◌≡◌, slice_get, Some, IsTrue};
ghost use Rattle.nxf_tree.specs.Signature as meant;
ghost use Rattle.nxf_tree.specs.Sorting.{in_range};
ghost use Rattle.nxf_tree.specs.WellFormed.{HasDifferentNames};

use nxf_tree::{Designation, Regime, Signature, SortEntry, SortName};

fn sort_entry(signature: &Signature, number: u32) -> &SortEntry
    requires { IsTrue (in_range signature.now.sorts number) }
    ensures { slice_get signature.now.sorts number ≡ Some result.now }
{
    signature.sorts.get(number as usize)
}

/// The name of the sort with the number, counted from 0.
pub fn sort_at(signature: &Signature, number: u32) -> &SortName
    requires { IsTrue (in_range signature.now.sorts number) }
    ensures { result.now ≡ meant.sort_at signature.now.sorts number }
{
    &sort_entry(signature, number).name
}

/// Whether every element of the sort with the number, counted from 0, exists at every world.
pub fn is_constant(signature: &Signature, number: u32) -> bool
    requires different { HasDifferentNames signature.now }
    requires in_range { IsTrue (in_range signature.now.sorts number) }
    ensures { result ≡ meant.is_constant signature.now (meant.sort_at signature.now.sorts number) }
{
    is_constant_regime(sort_entry(signature, number).regime)
}

/// Whether the regime is that of constant domains.
pub fn is_constant_regime(regime: Regime) -> bool
    ensures { result ≡ meant.constant_regime regime }
{
    matches!(regime, Regime::Constant)
}

/// Whether a function's values depend on the world.
pub fn is_flexible_designation(designation: Designation) -> bool
    ensures { result ≡ meant.flexible_designation designation }
{
    matches!(designation, Designation::Flexible)
}
