//! Parts are judged.
ghost use Rattle.std.specs.Prelude.{◌≡◌, ◌∷◌, false, IfOk, OnOk};
ghost use Rattle.std.specs.Map.{lookup};
ghost use Rattle.nxf_tree.specs.Names.{same_text};
ghost use Rattle.interpretation_definitions.specs.Judging.{tried, is_other, sorts_of, wrong_predicate, wrong_function};
ghost use Rattle.interpretation_definitions.specs.Context as spec;
ghost use Rattle.interpretation_definitions.specs.Given.{row_given};
ghost use Rattle.interpretation_parts.specs.steps.Entries.{entry_in};
ghost use Rattle.interpretation_parts.specs.steps.Held.{context_in, elements_in, numbers_in, clash_if};
ghost use Rattle.interpretation_parts.specs.steps.Held.{Gives, Judges, JudgesClash, JudgesRows};
ghost use Rattle.interpretation_parts.specs.steps.Held.{row_clashes, value_clashes, value_row, atom_tries, atom_fault_in, atom_rows};
ghost use Rattle.interpretation_parts.specs.steps.Held.{equation_tries, equation_fault_in, equation_rows};
ghost use Rattle.interpretation_parts.specs.steps.Tables.{IsWritten};

use crate::argument::plain;
use crate::context::{Context, all_plain};
use crate::key::Key;
use indexmap::IndexMap;
use interpretation_definitions::{Element, PartFault};
use nxf_base::{Memory, Text};
use nxf_tree::{TableEntry, Term};
use std::alloc::Global;

/// Why a part is refused: it has a fault, or there is no memory.
#[derive(Clone, Copy, Debug, PartialEq, Eq)]
pub enum PartError {
    Fault(PartFault),
    Memory,
}

/// The first fault of form, of symbols and of elements.
pub fn early(form: bool, symbols: bool, elements: bool) -> Option<PartFault>
    ensures { result ≡ tried form symbols elements false }
{
    if form {
        Some(PartFault::Form)
    } else if symbols {
        Some(PartFault::UnknownSymbol)
    } else if elements {
        Some(PartFault::UnknownElement)
    } else {
        None
    }
}

/// A clash, where there is one.
pub fn clash_error(clash: bool) -> Result<(), PartError>
    ensures { Judges (clash_if clash) result }
{
    if clash {
        Err(PartError::Fault(PartFault::Clash))
    } else {
        Ok(())
    }
}

/// Gives a row, and answers whether it had another value before.
pub fn give(rows: &mut IndexMap<Key, u32>, key: Key, value: u32) -> Result<bool, Memory>
    ensures clash { IfOk result (λ clash. clash ≡ is_other (lookup (same_text key) rows.old.entries) value) }
    ensures rows { OnOk result (IsWritten rows.old.entries key value rows.new.entries) }
{
    match rows.insert(key, value)? {
        Some(old) => Ok(old != value),
        None => Ok(false),
    }
}

/// The sorts and the numbers of the elements of a row, the numbers behind that of the symbol.
#[derive(Drop)]
struct Row {
    sorts: Vec<u32>,
    numbers: Vec<u32>,
}

fn row_of(alloc: Global, context: &Context, place: u32, terms: &[Term]) -> Result<Row, Memory>
    ensures sorts { IfOk result (λ r. r.sorts.items ≡ sorts_of (elements_in context.now terms.now)) }
    ensures numbers { IfOk result (λ r. r.numbers.items ≡ place ∷ numbers_in context.now terms.now) }
{
    let mut sorts = Vec::new(alloc);
    let mut numbers = Vec::new(alloc);
    numbers.push(place)?;
    context.push_elements(terms, &mut sorts, &mut numbers)?;
    Ok(Row { sorts, numbers })
}

/// Gives the row of a known symbol, or finds the clash.
fn judge_row(
    alloc: Global,
    context: &Context,
    rows: &mut IndexMap<Key, u32>,
    place: u32,
    entry: &TableEntry,
    terms: &[Term],
    value: u32,
) -> Result<(), PartError>
    ensures judged { JudgesClash rows.old.entries (row_clashes (place, entry.now) (elements_in context.now terms.now) value) result }
    ensures rows { Gives result rows.old.entries (row_given place (numbers_in context.now terms.now) value) rows.new.entries }
{
    match row_of(alloc, context, place, terms) {
        Err(Memory) => Err(PartError::Memory),
        Ok(Row { sorts, numbers }) => {
            if sorts.as_slice() != entry.args.as_slice() {
                return Err(PartError::Fault(PartFault::Clash));
            }
            match give(rows, Key::of(numbers), value) {
                Err(Memory) => Err(PartError::Memory),
                Ok(clash) => {
                    if clash {
                        Err(PartError::Fault(PartFault::Clash))
                    } else {
                        Ok(())
                    }
                }
            }
        }
    }
}

/// Whether a symbol is no predicate with so many arguments.
fn is_wrong_predicate(symbol: Option<(u32, &TableEntry)>, count: usize) -> bool
    ensures { result ≡ wrong_predicate (entry_in symbol.entry) count }
{
    match symbol {
        None => false,
        Some((_, entry)) => entry.gives.is_some() || entry.args.len() != count,
    }
}

/// The fault of a predicate's form, symbol or elements.
fn atom_early(
    context: &Context,
    symbol: Option<(u32, &TableEntry)>,
    name: &Text,
    terms: &[Term],
) -> Option<PartFault>
    ensures { result ≡ atom_tries context.now (entry_in symbol.entry) name.now terms.now }
{
    let listed = context.element(name).is_some();
    let form = !all_plain(terms)
        || listed
        || context.known.is_sort(name)
        || is_wrong_predicate(symbol, terms.len());
    let unknown = !context.is_known(name) && !listed;
    early(form, unknown, context.any_unlisted(terms))
}

/// Judges a predicate with its arguments, and gives its row.
pub fn judge_atom(
    alloc: Global,
    context: &Context,
    rows: &mut IndexMap<Key, u32>,
    symbol: Option<(u32, &TableEntry)>,
    truth: bool,
    name: &Text,
    terms: &[Term],
) -> Result<(), PartError>
    requires { entry_in symbol ≡ spec.symbol (context_in context.now) name.now }
    ensures judged { JudgesRows rows.old.entries (atom_fault_in context.now truth name.now terms.now) result }
    ensures rows { Gives result rows.old.entries (atom_rows context.now truth name.now terms.now) rows.new.entries }
{
    if context.is_extra(name) {
        return Ok(());
    }
    match atom_early(context, symbol, name, terms) {
        Some(fault) => Err(PartError::Fault(fault)),
        None => match symbol {
            None => Ok(()),
            Some((place, entry)) => {
                judge_row(alloc, context, rows, place, entry, terms, u32::from(truth))
            }
        },
    }
}

/// Whether a symbol is no function with so many arguments.
fn is_wrong_function(
    context: &Context,
    name: &Text,
    symbol: Option<(u32, &TableEntry)>,
    count: usize,
) -> bool
    ensures { result ≡ wrong_function (context_in context.now) name.now (entry_in symbol.entry) count }
{
    match symbol {
        None => context.element(name).is_some(),
        Some((_, entry)) => entry.gives.is_none() || entry.args.len() != count,
    }
}

/// The fault of an equation's form, symbol or elements.
fn equation_early(
    context: &Context,
    symbol: Option<(u32, &TableEntry)>,
    name: &Text,
    terms: &[Term],
    value: &Term,
) -> Option<PartFault>
    ensures { result ≡ equation_tries context.now (entry_in symbol.entry) name.now terms.now value.now }
{
    let form = !all_plain(terms)
        || plain(value).is_none()
        || context.known.is_sort(name)
        || is_wrong_function(context, name, symbol, terms.len());
    let unknown = !context.is_known(name) && context.element(name).is_none();
    let unlisted = context.any_unlisted(terms) || context.element_of(value).is_none();
    early(form, unknown, unlisted)
}

/// Gives the row of a known function, or finds the clash.
fn judge_value(
    alloc: Global,
    context: &Context,
    rows: &mut IndexMap<Key, u32>,
    place: u32,
    entry: &TableEntry,
    terms: &[Term],
    value: Option<Element>,
) -> Result<(), PartError>
    ensures judged { JudgesClash rows.old.entries (value_clashes (place, entry.now) (elements_in context.now terms.now) value) result }
    ensures rows { Gives result rows.old.entries (value_row (place, entry.now) (numbers_in context.now terms.now) value) rows.new.entries }
{
    match entry.gives {
        None => Ok(()),
        Some(sort) => match value {
            None => Ok(()),
            Some(element) => {
                if element.sort != sort {
                    return Err(PartError::Fault(PartFault::Clash));
                }
                judge_row(alloc, context, rows, place, entry, terms, element.number)
            }
        },
    }
}

/// Judges an equation, and gives its row.
pub fn judge_equation(
    alloc: Global,
    context: &Context,
    rows: &mut IndexMap<Key, u32>,
    symbol: Option<(u32, &TableEntry)>,
    name: &Text,
    terms: &[Term],
    value: &Term,
) -> Result<(), PartError>
    requires { entry_in symbol ≡ spec.symbol (context_in context.now) name.now }
    ensures judged { JudgesRows rows.old.entries (equation_fault_in context.now name.now terms.now value.now) result }
    ensures rows { Gives result rows.old.entries (equation_rows context.now name.now terms.now value.now) rows.new.entries }
{
    if context.is_extra(name) {
        return Ok(());
    }
    match equation_early(context, symbol, name, terms, value) {
        Some(fault) => Err(PartError::Fault(fault)),
        None => match symbol {
            None => Ok(()),
            Some((place, entry)) => judge_value(
                alloc,
                context,
                rows,
                place,
                entry,
                terms,
                context.element_of(value),
            ),
        },
    }
}
