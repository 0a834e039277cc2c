//! The symbols of which some row is given.
ghost use Rattle.std.specs.Prelude.{IfOk, OnOk};
ghost use Rattle.std.specs.Map.Iter.{deref_pair};
ghost use Rattle.std.specs.Option.{option_map};
ghost use Rattle.interp_reader.specs.steps.Filling.{begins_at, begins_in, AddsPlaces, ArePlaces};

use indexmap::{IndexMap, IndexSet};
use interpretation_parts::Key;
use nxf_base::Memory;
use std::alloc::Global;

/// Notes the number with which a key begins.
fn note_place(places: &mut IndexSet<u32>, key: &Key) -> Result<(), Memory>
    ensures { OnOk result (AddsPlaces places.old.keys (λ k. begins_at k key.now) places.new.keys) }
{
    match key.first() {
        None => Ok(()),
        Some(place) => {
            places.insert(place)?;
            Ok(())
        }
    }
}

/// The same for an entry of the map, if there is one.
fn note_entry(places: &mut IndexSet<u32>, entry: Option<(&Key, &u32)>) -> Result<(), Memory>
    ensures { OnOk result (AddsPlaces places.old.keys (λ k. begins_in k (option_map deref_pair entry.entry)) places.new.keys) }
{
    match entry {
        None => Ok(()),
        Some((key, _)) => note_place(places, key),
    }
}

/// The numbers of the symbols of which some row is given.
pub fn given_places(alloc: Global, rows: &IndexMap<Key, u32>) -> Result<IndexSet<u32>, Memory>
    ensures { IfOk result (λ places. ArePlaces places.keys rows.now.entries) }
{
    let mut places = IndexSet::new(alloc);
    for at in 0..rows.len() {
        note_entry(&mut places, rows.get_index(at))?;
    }
    Ok(places)
}
