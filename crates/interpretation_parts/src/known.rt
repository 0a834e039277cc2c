//! The names of the classical signature, with their numbers.
ghost use Rattle.std.specs.Prelude.{◌≡◌, ◌∷◌, ◌+◌, ◌^◌, ◌<◌, length, is_some, IfSome, IfOk, OnOk};
ghost use Rattle.std.specs.Option.{option_or};
ghost use Rattle.nxf_tree.specs.declared.tree.SortName.{SortName as sort_name};
ghost use Rattle.interpretation_definitions.specs.Context.{sort_number, symbol_in, symbol_number, symbols_of, actual_entry};
ghost use Rattle.interpretation_parts.specs.steps.Entries.{entry_in};
ghost use Rattle.interpretation_parts.specs.steps.Tables.{GivesNumbers, IsExtended, Knows, own_individual, own_number, own_symbol};

use crate::note::note_number;
use indexmap::IndexMap;
use nxf_base::{List, Memory, Text};
use nxf_tree::{ClassicalSignature, SortName, TableEntry};
use std::alloc::Global;

/// The classical signature, with hashed tables of its names. `mk_actual` has number 0, and a table the next number after
/// its place.
#[derive(Drop)]
pub struct Known<'a> {
    over: &'a ClassicalSignature,
    sorts: IndexMap<Text, u32>,
    individual: Option<u32>,
    symbols: IndexMap<Text, u32>,
    actual: TableEntry,
    ghost few_sorts: { length over.now.sorts < 2 ^ 32 },
    ghost few_tables: { length over.now.tables + 1 < 2 ^ 32 },
    ghost own: { actual ≡ actual_entry },
    ghost knows: { Knows over.now sorts.entries individual symbols.entries },
}

fn note_sort(
    alloc: Global,
    map: &mut IndexMap<Text, u32>,
    sort: &SortName,
    number: u32,
) -> Result<(), Memory>
    ensures { OnOk result (IsExtended map.old.entries (λ q. own_number q sort.now number) map.new.entries) }
{
    match sort {
        SortName::Individual => Ok(()),
        SortName::User(name) => {
            note_number(alloc, map, name, number)?;
            Ok(())
        }
    }
}

/// The user's sorts.
fn sort_table(alloc: Global, sorts: &[SortName]) -> Result<IndexMap<Text, u32>, Memory>
    requires { length sorts.now < 2 ^ 32 }
    ensures { IfOk result (λ map. GivesNumbers map.entries (λ q. sort_number sorts.now (sort_name.User q))) }
{
    let mut map = IndexMap::new(alloc);
    for (number, sort) in sorts.iter().enumerate() {
        note_sort(alloc, &mut map, sort, number as u32)?;
    }
    Ok(map)
}

/// The number of `$i`.
fn individual_number(sorts: &[SortName]) -> Option<u32>
    requires { length sorts.now < 2 ^ 32 }
    ensures { result ≡ sort_number sorts.now sort_name.Individual }
{
    let mut found = None;
    for (number, sort) in sorts.iter().enumerate() {
        found = or_individual(found, sort, number as u32);
    }
    found
}

fn or_individual(found: Option<u32>, sort: &SortName, number: u32) -> Option<u32>
    ensures { result ≡ option_or found (own_individual sort.now number) }
{
    match found {
        Some(old) => Some(old),
        None => match sort {
            SortName::Individual => Some(number),
            SortName::User(_) => None,
        },
    }
}

fn note_symbol(
    alloc: Global,
    map: &mut IndexMap<Text, u32>,
    name: &Text,
    number: u32,
) -> Result<(), Memory>
    ensures { OnOk result (IsExtended map.old.entries (λ q. own_symbol q name.now number) map.new.entries) }
{
    note_number(alloc, map, name, number)?;
    Ok(())
}

/// `mk_actual` and the tables.
fn symbol_table(alloc: Global, tables: &[TableEntry]) -> Result<IndexMap<Text, u32>, Memory>
    requires { length tables.now + 1 < 2 ^ 32 }
    ensures { IfOk result (λ map. GivesNumbers map.entries (symbol_number (actual_entry ∷ tables.now))) }
{
    let mut map = IndexMap::new(alloc);
    let actual = Text::from_bytes(alloc, b"mk_actual")?;
    note_symbol(alloc, &mut map, &actual, 0)?;
    for (number, table) in tables.iter().enumerate() {
        note_symbol(alloc, &mut map, &table.name, number as u32 + 1)?;
    }
    Ok(map)
}

/// `mk_actual`, a constant of the first sort.
fn actual_symbol(alloc: Global) -> Result<TableEntry, Memory>
    ensures { IfOk result (λ entry. entry ≡ actual_entry) }
{
    let name = Text::from_bytes(alloc, b"mk_actual")?;
    let args = List::new(alloc);
    Ok(TableEntry {
        name,
        args,
        gives: Some(0),
    })
}

impl<'a> Known<'a> {
    /// The names of a classical signature.
    pub fn of(alloc: Global, over: &'a ClassicalSignature) -> Result<Known<'a>, Memory>
        requires sorts { length over.now.sorts < 2 ^ 32 }
        requires tables { length over.now.tables + 1 < 2 ^ 32 }
        ensures { IfOk result (λ known. known.over.now ≡ over.now) }
    {
        let sorts = sort_table(alloc, over.sorts.as_slice())?;
        let individual = individual_number(over.sorts.as_slice());
        let symbols = symbol_table(alloc, over.tables.as_slice())?;
        let actual = actual_symbol(alloc)?;
        Ok(Known {
            over,
            sorts,
            individual,
            symbols,
            actual,
        })
    }

    /// The number of a sort.
    pub fn sort(&self, sort: &SortName) -> Option<u32>
        ensures number { result ≡ sort_number self.now.over.now.sorts sort.now }
        ensures within { IfSome result (λ k. k < length self.now.over.now.sorts) }
    {
        match sort {
            SortName::Individual => self.individual,
            SortName::User(name) => self.sorts.get(name).copied(),
        }
    }

    /// The number of a symbol.
    pub fn symbol(&self, name: &Text) -> Option<u32>
        ensures { result ≡ symbol_number (symbols_of self.now.over.now) name.now }
    {
        self.symbols.get(name).copied()
    }

    /// The symbol of a name, with its number.
    pub fn entry(&self, name: &Text) -> Option<(u32, &TableEntry)>
        ensures { entry_in result ≡ symbol_in (symbols_of self.now.over.now) name.now }
    {
        match self.symbol(name) {
            None => None,
            Some(number) => {
                if number == 0 {
                    Some((0, &self.actual))
                } else {
                    Some((number, &self.over.tables.as_slice()[number as usize - 1]))
                }
            }
        }
    }

    /// `mk_actual`.
    pub fn actual(&self) -> &TableEntry
        ensures { result.now ≡ actual_entry }
    {
        &self.actual
    }

    /// The tables in their order, fewer than 2^32.
    pub fn tables(&self) -> &[TableEntry]
        ensures tables { result.now ≡ self.now.over.now.tables }
        ensures few { length self.now.over.now.tables + 1 < 2 ^ 32 }
    {
        self.over.tables.as_slice()
    }

    /// The sorts in their order.
    pub fn sorts(&self) -> &[SortName]
        ensures { result.now ≡ self.now.over.now.sorts }
    {
        self.over.sorts.as_slice()
    }

    /// Whether a name is that of a user's sort.
    pub fn is_sort(&self, name: &Text) -> bool
        ensures { result ≡ is_some (sort_number self.now.over.now.sorts (sort_name.User name.now)) }
    {
        self.sorts.get(name).is_some()
    }

    /// How many sorts there are.
    pub fn sort_count(&self) -> usize
        ensures { result ≡ length self.now.over.now.sorts }
    {
        self.over.sorts.len()
    }
}
