//! The tables of a signature and of a structure, one by one.
ghost use Rattle.std.specs.Prelude.{◌≡◌, ◌<◌, ◌≤◌, ◌^◌, ◌+◌, ◌∷◌, ◌++◌, [], true, false, length, None, IfOk, OnOk, if◌then◌else◌, ℕ};
ghost use Rattle.nxf_tree.specs.Signature as named;
ghost use Rattle.nxf_tree.specs.WellFormed.{IsWellFormed};
ghost use Rattle.fin_struct.specs.Cells.{cell};
ghost use Rattle.fin_struct.specs.FirstFault.{index_at};
ghost use Rattle.fin_struct.specs.Places.{InRange};
ghost use Rattle.fin_struct.specs.KripkeTables.{IsKripke, IsKripkeFor, symbol_row, symbol_table};
ghost use Rattle.kripke_text_definitions.specs.KripkeText as text;
ghost use Rattle.kripke_text.specs.steps.Lines.{shown};
ghost use Rattle.kripke_text.specs.steps.Subjects.{symbol_at, label_of, IsIn, table_of, relations_from, existences_from, symbols_from, subjects_of};

use classical_syntax::{is_constant_regime, is_flexible_designation};
use fin_struct::Kripke;
use nxf_base::{List, Memory};
use nxf_tree::{IndexEntry, IndexName, Signature, SortEntry, SymbolEntry};
use std::alloc::Global;

/// What a table is of, by its number in the signature.
#[derive(Clone, Copy, Debug)]
pub enum Subject {
    /// The relation of an index.
    Relation(u32),
    /// Existence in a sort that isn't constant.
    Existence(u32),
    /// A symbol.
    Symbol(u32),
}

/// The name of an index by its number.
pub fn index_name(over: &Signature, index: u32) -> &IndexName
    requires { index < length over.now.indexes }
    ensures { result.now ≡ index_at over.now.indexes index }
{
    &over.indexes.get(index as usize).name
}

/// A symbol by its number.
pub fn symbol_entry(over: &Signature, symbol: u32) -> &SymbolEntry
    requires { symbol < length over.now.symbols }
    ensures { result.now ≡ symbol_at over.now symbol }
{
    over.symbols.get(symbol as usize)
}

/// The name of the table's statement.
pub fn statement_name(over: &Signature, subject: Subject) -> &[u8]
    requires { IsIn over.now subject }
    ensures { result.now ≡ text.label_name (label_of over.now subject) }
{
    match subject {
        Subject::Relation(_) => b"access",
        Subject::Existence(_) => b"exists",
        Subject::Symbol(symbol) => symbol_entry(over, symbol).name.bytes(),
    }
}

/// All tables of the signature, in their order.
pub fn subjects(alloc: Global, over: &Signature) -> Result<List<Subject>, Memory>
    requires { IsWellFormed over.now }
    ensures { IfOk result (λ made. made ≡ subjects_of over.now) }
{
    let mut made = List::new(alloc);
    add_relations(&over.indexes, &mut made)?;
    add_existences(&over.sorts, &mut made)?;
    add_symbols(&over.symbols, &mut made)?;
    Ok(made)
}

fn add_relations(indexes: &List<IndexEntry>, made: &mut List<Subject>) -> Result<(), Memory>
    requires { length indexes.now ≤ 2 ^ 31 }
    ensures { OnOk result (made.new ≡ made.old ++ relations_from 0 indexes.now) }
{
    for place in 0..indexes.len() {
        made.push(Subject::Relation(place as u32))?;
    }
    Ok(())
}

fn add_existences(sorts: &List<SortEntry>, made: &mut List<Subject>) -> Result<(), Memory>
    requires { length sorts.now ≤ 2 ^ 31 }
    ensures { OnOk result (made.new ≡ made.old ++ existences_from 0 sorts.now) }
{
    for (place, sort) in sorts.as_slice().iter().enumerate() {
        if !is_constant_regime(sort.regime) {
            made.push(Subject::Existence(place as u32))?;
        }
    }
    Ok(())
}

fn add_symbols(symbols: &List<SymbolEntry>, made: &mut List<Subject>) -> Result<(), Memory>
    requires { length symbols.now ≤ 2 ^ 31 }
    ensures { OnOk result (made.new ≡ made.old ++ symbols_from 0 symbols.now) }
{
    for place in 0..symbols.len() {
        made.push(Subject::Symbol(place as u32))?;
    }
    Ok(())
}

/// Whether the rows of a symbol have a world in front.
pub fn takes_world(symbol: &SymbolEntry) -> bool
    ensures { result ≡ named.takes_world symbol.now }
{
    match symbol.gives {
        Some(_) => is_flexible_designation(symbol.designation),
        None => true,
    }
}

/// A row without the world in front, and this world, or any number where there is none.
pub fn split_row(with_world: bool, row: &[u32]) -> (u32, &[u32])
    requires { with_world ≡ true → 0 < length row.now }
    ensures { row.now ≡ (if with_world then result.0 ∷ result.1.now else result.1.now) }
{
    if !with_world {
        return (0, row);
    }
    match row.split_first() {
        Some((world, args)) => (*world, args),
        None => (0, row),
    }
}

fn chosen(is_true: bool) -> Option<u32>
    ensures { result ≡ (if is_true then Some 0 else None) }
{
    if is_true { Some(0) } else { None }
}

/// The world and the arguments in a row of a symbol's table; any number for the world where the row has none.
pub fn symbol_parts<'a>(
    over: &Signature,
    kripke: &Kripke,
    symbol: u32,
    row: &'a [u32],
) -> (u32, &'a [u32])
    requires within { IsKripke kripke.now }
    requires over { IsKripkeFor over.now kripke.now }
    requires symbol_in { symbol < length over.now.symbols }
    requires row_in { InRange (symbol_table kripke.now symbol).sizes row.now }
    ensures row { symbol_row kripke.now symbol result.0 result.1.now ≡ row.now }
    ensures predicate { (symbol_at over.now symbol).gives ≡ None → result.0 ∷ result.1.now ≡ row.now }
{
    split_row(takes_world(symbol_entry(over, symbol)), row)
}

/// The two numbers of a row of pairs.
pub fn pair(row: &[u32]) -> (u32, u32)
    requires { length row.now ≡ 2 }
    ensures { result.0 ∷ result.1 ∷ [] ≡ row.now }
{
    (row[0], row[1])
}

/// The value that is printed for a row, or None where the row isn't printed.
pub fn line(over: &Signature, kripke: &Kripke, subject: Subject, row: &[u32]) -> Option<u32>
    requires within { IsKripke kripke.now }
    requires over { IsKripkeFor over.now kripke.now }
    requires subject_in { IsIn over.now subject }
    requires row_in { InRange (table_of kripke.now subject).sizes row.now }
    ensures { result ≡ shown (table_of kripke.now subject).values (cell (table_of kripke.now subject) row.now) }
{
    match subject {
        Subject::Relation(index) => {
            let (from, to) = pair(row);
            chosen(kripke.related(index, from, to))
        }
        Subject::Existence(sort) => {
            let (world, element) = pair(row);
            chosen(kripke.exists(sort, world, element))
        }
        Subject::Symbol(symbol) => symbol_line(over, kripke, symbol, row),
    }
}

fn symbol_line(over: &Signature, kripke: &Kripke, symbol: u32, row: &[u32]) -> Option<u32>
    requires within { IsKripke kripke.now }
    requires over { IsKripkeFor over.now kripke.now }
    requires symbol_in { symbol < length over.now.symbols }
    requires row_in { InRange (symbol_table kripke.now symbol).sizes row.now }
    ensures { result ≡ shown (symbol_table kripke.now symbol).values (cell (symbol_table kripke.now symbol) row.now) }
{
    let (world, args) = symbol_parts(over, kripke, symbol, row);
    let entry = symbol_entry(over, symbol);
    match entry.gives {
        Some(_) => Some(kripke.value(symbol, world, args)),
        None => chosen(kripke.holds(symbol, world, args)),
    }
}
