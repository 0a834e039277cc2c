//! The entries of a signature.

ghost use Rattle.std.specs.Prelude.{◌≡◌, ◌<◌, ◌^◌, ◌||◌, [], IfOk, map, length};
ghost use Rattle.std.specs.List.{list_any};
ghost use Rattle.nxf_tree.specs.Counting.{has};
ghost use Rattle.nxf_tree.specs.Signature.{same_sort};
ghost use Rattle.nxf_tree.specs.SignatureOf as signature;
ghost use Rattle.logic_spec.specs.Asked.{asked_by};
ghost use Rattle.nxf_signatures.specs.steps.Tables.{uses_in};
ghost use Rattle.nxf_signatures.specs.Places.{sort_list, index_list};

use crate::places::sort_number;
use crate::symbol_type::SymbolType;
use crate::tables::Tables;
use indexmap::{IndexMap, IndexSet};
use logic_spec::Spec;
use nxf_base::{List, Memory, Text};
use nxf_tree::{
    Designation, IndexEntry, IndexName, Locality, Scheme, Signature, SortEntry, SortName,
    SymbolEntry,
};
use std::alloc::Global;

fn is_individual_sort(sort: &SortName) -> bool
    ensures { result ≡ same_sort sort.now SortName.Individual }
{
    match sort {
        SortName::Individual => true,
        SortName::User(_) => false,
    }
}

/// Whether `$i` is among the sorts.
fn has_individual(sorts: &List<SortName>) -> bool
    ensures { result ≡ has same_sort SortName.Individual sorts.now }
{
    for sort in sorts.as_slice() {
        if is_individual_sort(sort) {
            return true;
        }
    }
    false
}

/// Whether `$i` is among the sorts of the type.
fn has_individual_sort(kind: &SymbolType) -> bool
    ensures { result ≡ (has same_sort SortName.Individual kind.now.args || signature.is_individual kind.now.gives) }
{
    if has_individual(&kind.args) {
        return true;
    }
    match &kind.gives {
        Some(sort) => is_individual_sort(sort),
        None => false,
    }
}

/// Whether `$i` is among the sorts of a symbol's type.
pub fn any_has_individual(symbols: &IndexMap<Text, SymbolType>) -> bool
    ensures { result ≡ list_any signature.mentions_individual (uses_in symbols.now.entries) }
{
    for (_, kind) in symbols {
        if has_individual_sort(kind) {
            return true;
        }
    }
    false
}

fn sort_entry(spec: &Spec, name: SortName) -> SortEntry
    ensures { result ≡ record { name = name; regime = (asked_by spec.now).regime name } }
{
    let regime = spec.regime(&name);
    SortEntry { name, regime }
}

/// `$i` where it is one of the sorts.
fn first_sort(alloc: Global, individual: bool, spec: &Spec) -> Result<List<SortEntry>, Memory>
    ensures { IfOk result (λ l. l ≡ map (λ s. record { name = s; regime = (asked_by spec.now).regime s }) (sort_list individual [])) }
{
    let mut entries = List::new(alloc);
    if individual {
        entries.push(sort_entry(spec, SortName::Individual))?;
    }
    Ok(entries)
}

/// The sorts with their regimes.
fn sort_entries(
    alloc: Global,
    individual: bool,
    sorts: &IndexSet<Text>,
    spec: &Spec,
) -> Result<List<SortEntry>, Memory>
    ensures { IfOk result (λ l. l ≡ map (λ s. record { name = s; regime = (asked_by spec.now).regime s }) (sort_list individual sorts.now.keys)) }
{
    let mut entries = first_sort(alloc, individual, spec)?;
    for name in sorts.as_slice() {
        entries.push(sort_entry(spec, SortName::User(name.copy(alloc)?)))?;
    }
    Ok(entries)
}

/// The numbers of the sorts of arguments.
fn sort_numbers(
    alloc: Global,
    individual: bool,
    sorts: &IndexSet<Text>,
    args: &List<SortName>,
) -> Result<List<u32>, Memory>
    requires { length sorts.now.keys < 2 ^ 31 }
    ensures { IfOk result (λ l. l ≡ map (signature.sort_number (sort_list individual sorts.now.keys)) args.now) }
{
    let mut numbers = List::with_capacity(alloc, args.len())?;
    for sort in args.as_slice() {
        numbers.push(sort_number(individual, sorts, sort))?;
    }
    Ok(numbers)
}

/// The entry of a symbol.
fn symbol_entry(
    alloc: Global,
    individual: bool,
    sorts: &IndexSet<Text>,
    spec: &Spec,
    name: &Text,
    kind: &SymbolType,
) -> Result<SymbolEntry, Memory>
    requires { length sorts.now.keys < 2 ^ 31 }
    ensures { IfOk result (λ e. e ≡ signature.symbol_entry (sort_list individual sorts.now.keys) (asked_by spec.now) (record { name = name.now; type = kind.now })) }
{
    let args = sort_numbers(alloc, individual, sorts, &kind.args)?;
    match &kind.gives {
        Some(sort) => Ok(SymbolEntry {
            name: name.copy(alloc)?,
            args,
            gives: Some(sort_number(individual, sorts, sort)),
            designation: spec.designation(name),
            locality: spec.locality(name),
        }),
        None => Ok(SymbolEntry {
            name: name.copy(alloc)?,
            args,
            gives: None,
            designation: Designation::Flexible,
            locality: Locality::Global,
        }),
    }
}

/// The symbols with their designations and localities.
fn symbol_entries(alloc: Global, tables: &Tables, spec: &Spec) -> Result<List<SymbolEntry>, Memory>
    requires { length tables.now.declarations.sorts.keys < 2 ^ 31 }
    ensures { IfOk result (λ l. l ≡ map (signature.symbol_entry (sort_list tables.now.individual tables.now.declarations.sorts.keys) (asked_by spec.now)) (uses_in tables.now.occurring.symbols.entries)) }
{
    let symbols = &tables.occurring.symbols;
    let mut entries = List::with_capacity(alloc, symbols.len())?;
    for (name, kind) in symbols {
        let entry = symbol_entry(
            alloc,
            tables.individual,
            &tables.declarations.sorts,
            spec,
            name,
            kind,
        )?;
        entries.push(entry)?;
    }
    Ok(entries)
}

fn copy_schemes(alloc: Global, schemes: &List<Scheme>) -> Result<List<Scheme>, Memory>
    ensures { IfOk result (λ l. l ≡ schemes.now) }
{
    let mut copies = List::with_capacity(alloc, schemes.len())?;
    for scheme in schemes.as_slice() {
        copies.push(*scheme)?;
    }
    Ok(copies)
}

fn index_entry(alloc: Global, spec: &Spec, name: IndexName) -> Result<IndexEntry, Memory>
    ensures { IfOk result (λ e. e ≡ record { name = name; schemes = (asked_by spec.now).schemes name }) }
{
    let schemes = copy_schemes(alloc, spec.schemes(&name))?;
    Ok(IndexEntry { name, schemes })
}

/// The unindexed modality where it occurs.
fn first_index(alloc: Global, plain: bool, spec: &Spec) -> Result<List<IndexEntry>, Memory>
    ensures { IfOk result (λ l. l ≡ map (λ i. record { name = i; schemes = (asked_by spec.now).schemes i }) (index_list plain [])) }
{
    let mut entries = List::new(alloc);
    if plain {
        entries.push(index_entry(alloc, spec, IndexName::Plain)?)?;
    }
    Ok(entries)
}

/// The indexes with their schemes.
fn index_entries(
    alloc: Global,
    plain: bool,
    indexes: &IndexSet<Text>,
    spec: &Spec,
) -> Result<List<IndexEntry>, Memory>
    ensures { IfOk result (λ l. l ≡ map (λ i. record { name = i; schemes = (asked_by spec.now).schemes i }) (index_list plain indexes.now.keys)) }
{
    let mut entries = first_index(alloc, plain, spec)?;
    for name in indexes.as_slice() {
        entries.push(index_entry(alloc, spec, IndexName::Named(name.copy(alloc)?))?)?;
    }
    Ok(entries)
}

/// The signature of the names in the tables.
pub fn signature(alloc: Global, tables: &Tables, spec: &Spec) -> Result<Signature, Memory>
    requires { length tables.now.declarations.sorts.keys < 2 ^ 31 }
    ensures sorts { IfOk result (λ sig. sig.sorts ≡ map (λ s. record { name = s; regime = (asked_by spec.now).regime s }) (sort_list tables.now.individual tables.now.declarations.sorts.keys)) }
    ensures symbols { IfOk result (λ sig. sig.symbols ≡ map (signature.symbol_entry (sort_list tables.now.individual tables.now.declarations.sorts.keys) (asked_by spec.now)) (uses_in tables.now.occurring.symbols.entries)) }
    ensures indexes { IfOk result (λ sig. sig.indexes ≡ map (λ i. record { name = i; schemes = (asked_by spec.now).schemes i }) (index_list tables.now.occurring.plain tables.now.occurring.indexes.keys)) }
{
    let sorts = sort_entries(alloc, tables.individual, &tables.declarations.sorts, spec)?;
    let symbols = symbol_entries(alloc, tables, spec)?;
    let indexes = index_entries(
        alloc,
        tables.occurring.plain,
        &tables.occurring.indexes,
        spec,
    )?;
    Ok(Signature {
        sorts,
        symbols,
        indexes,
    })
}
