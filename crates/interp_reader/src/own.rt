//! The rows that closures give: a constant that is listed for its own sort is that element.
ghost use Rattle.std.specs.Prelude.{◌≡◌, IfOk, OnOk};
ghost use Rattle.interpretation_definitions.specs.Given as meant;
ghost use Rattle.interpretation_parts.specs.steps.Held.{context_in, HasRows};
ghost use Rattle.interpretation_parts.specs.steps.Tables.{IsWritten};
ghost use Rattle.interp_reader.specs.steps.Own.{own_row_in, own_value, GivesFirst};

use indexmap::IndexMap;
use interpretation_definitions::Element;
use interpretation_parts::{Context, Key};
use nxf_base::Memory;
use nxf_tree::TableEntry;
use std::alloc::Global;

/// The value of a symbol that is listed, if it is a constant of the element's sort.
fn value_listed(args: &[u32], gives: Option<u32>, element: Option<Element>) -> Option<u32>
    ensures { result ≡ own_value args.now gives element }
{
    match element {
        None => None,
        Some(element) => {
            if args.is_empty() && gives == Some(element.sort) {
                Some(element.number)
            } else {
                None
            }
        }
    }
}

/// Gives the row of a symbol without arguments.
fn put(rows: &mut IndexMap<Key, u32>, key: Key, value: u32) -> Result<(), Memory>
    ensures { OnOk result (IsWritten rows.old.entries key value rows.new.entries) }
{
    rows.insert(key, value)?;
    Ok(())
}

/// Gives the row of a symbol that is listed as a constant.
fn give_own(
    alloc: Global,
    context: &Context,
    rows: &mut IndexMap<Key, u32>,
    place: u32,
    entry: &TableEntry,
) -> Result<(), Memory>
    ensures { GivesFirst result rows.old.entries (own_row_in context.now place entry.now) rows.new.entries }
{
    let element = context.element(&entry.name);
    match value_listed(entry.args.as_slice(), entry.gives, element) {
        None => Ok(()),
        Some(value) => {
            let mut numbers = Vec::new(alloc);
            numbers.push(place)?;
            put(rows, Key::of(numbers), value)
        }
    }
}

/// The rows that closures give.
pub fn own_rows(alloc: Global, context: &Context) -> Result<IndexMap<Key, u32>, Memory>
    ensures { IfOk result (λ rows. HasRows rows.entries (meant.own_rows (context_in context.now))) }
{
    let mut rows = IndexMap::new(alloc);
    let tables = context.known.tables();
    for at in (0..tables.len()).rev() {
        give_own(alloc, context, &mut rows, at as u32 + 1, &tables[at])?;
    }
    give_own(alloc, context, &mut rows, 0, context.known.actual())?;
    Ok(rows)
}
