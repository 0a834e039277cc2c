//! The overrides of a specification are judged.

ghost use Rattle.std.specs.Prelude.{◌≡◌};
ghost use Rattle.std.specs.Option.{option_map};
ghost use Rattle.nxf_tree.specs.Sorting.{modal_language};
ghost use Rattle.nxf_tree.specs.SortFaults as faults;
ghost use Rattle.nxf_tree.specs.SortFaults.{override_fault, overrides_fault};
ghost use Rattle.nxf_sorts.specs.Judging.{Judges, JudgesFile};

use crate::error::{SortError, at_statement};
use crate::fault::{Fault, fault_of};
use nxf_base::{List, SortKind, Text};
use nxf_signatures::Names;
use nxf_tree::{Override, SpecKey};
use std::alloc::Global;

/// Whether the name is that of a function symbol.
fn is_function(names: &Names, name: &Text) -> bool
    ensures { result ≡ faults.is_function ((modal_language names.now.signature).type_of name.now) }
{
    match names.symbol(name) {
        Some((_, entry)) => entry.gives.is_some(),
        None => false,
    }
}

/// An override of a name in the list of the key `of`.
fn judge_named(alloc: Global, names: &Names, of: &Text, name: &Text) -> Result<(), Fault>
    ensures { Judges (faults.named_fault (modal_language names.now.signature) of.now name.now) result }
{
    let known = if of.bytes() == b"$domains".as_slice() {
        names.has_sort(name)
    } else {
        is_function(names, name)
    };
    if known {
        Ok(())
    } else {
        Err(fault_of(alloc, SortKind::UnknownOverride, name.bytes()))
    }
}

fn judge_override(alloc: Global, names: &Names, item: &Override) -> Result<(), Fault>
    ensures { Judges (override_fault (modal_language names.now.signature) item.now.of item.now.key) result }
{
    match &item.key {
        SpecKey::Dollar(_) => Ok(()),
        SpecKey::Index(_) => Ok(()),
        SpecKey::Name(name) => judge_named(alloc, names, &item.of, name),
    }
}

/// The overrides in order; or the first that has a fault, with the number of the logic statement.
pub fn judge_overrides(
    alloc: Global,
    names: &Names,
    place: u32,
    overrides: &List<Override>,
) -> Result<(), SortError>
    ensures { JudgesFile (option_map (λ f. (place, f)) (overrides_fault (modal_language names.now.signature) overrides.now)) result }
{
    for item in overrides.as_slice() {
        match judge_override(alloc, names, item) {
            Err(fault) => return Err(at_statement(fault, place)),
            Ok(()) => {}
        }
    }
    Ok(())
}
