//! Hashed tables in which the first entry of a name stays.
ghost use Rattle.std.specs.Prelude.{◌≡◌, OnOk};
ghost use Rattle.interpretation_parts.specs.steps.Tables.{noted};

use indexmap::IndexMap;
use interpretation_definitions::Element;
use nxf_base::{Memory, Text};
use std::alloc::Global;

/// Adds a number for a name, unless it has one.
pub fn note_number(
    alloc: Global,
    map: &mut IndexMap<Text, u32>,
    name: &Text,
    number: u32,
) -> Result<(), Memory>
    ensures { OnOk result (map.new.entries ≡ noted map.old.entries name.now number) }
{
    match map.get(name) {
        Some(_) => Ok(()),
        None => {
            map.insert(name.copy(alloc)?, number)?;
            Ok(())
        }
    }
}

/// Adds an element for a name, unless it has one.
pub fn note_element(
    alloc: Global,
    map: &mut IndexMap<Text, Element>,
    name: &Text,
    element: Element,
) -> Result<(), Memory>
    ensures { OnOk result (map.new.entries ≡ noted map.old.entries name.now element) }
{
    match map.get(name) {
        Some(_) => Ok(()),
        None => {
            map.insert(name.copy(alloc)?, element)?;
            Ok(())
        }
    }
}
