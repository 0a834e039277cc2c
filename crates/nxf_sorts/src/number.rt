//! Terms become numbers.

ghost use Rattle.std.specs.Prelude.{◌≡◌, ◌++◌, ◌∷◌, [], OnOk, IfOk, IfErr, MatchResult, true, false, Some, None};
ghost use Rattle.nxf_sorts.specs.steps.Numbering.{IsFault, IsGoodSignature, IsScope, wrong_symbol, FindsUse, Misuses, PutsSortedTerm, PutsArgument, PutsArguments, PutsEquation};
ghost use Rattle.nxf_tree.specs.Sorting as sorting;
ghost use Rattle.std.specs.List.{list_all};

use crate::binders::Binders;
use crate::fault::{Fault, fault_of};
use formula_cells::Cells;
use nxf_base::{List, Memory, SortKind, Text};
use nxf_signatures::Names;
use nxf_tree::Term;
use sqlite_items::Boxed;
use std::alloc::Global;

/// Appends an item.
pub fn put<T: Drop>(list: &mut List<T>, item: T) -> Result<(), Memory>
    ensures { OnOk result (list.new ≡ list.old ++ item ∷ []) }
{
    list.push(item)?;
    Ok(())
}

/// An empty list with room for that many items.
pub fn room<T>(alloc: Global, count: usize) -> Result<List<T>, Fault>
    ensures empty { IfOk result (λ list. list ≡ []) }
    ensures refused { IfErr result (λ fault. fault ≡ Fault.Memory) }
{
    Ok(List::with_capacity(alloc, count)?)
}

/// The fault of a symbol that is used in another way than its own.
fn wrong_use(alloc: Global, names: &Names, name: &Text) -> Fault
    ensures { IsFault (wrong_symbol names.now.declared name.now) result }
{
    if names.is_declared(name) {
        fault_of(alloc, SortKind::Mismatch, name.bytes())
    } else {
        fault_of(alloc, SortKind::DoubleName, name.bytes())
    }
}

/// The number of a function that is used with so many arguments, the sorts of its arguments and of its value.
fn used_function<'a>(
    alloc: Global,
    names: &'a Names,
    name: &Text,
    count: usize,
) -> Result<(u32, &'a [u32], u32), Fault>
    requires { IsGoodSignature names.now.signature }
    ensures { MatchResult result (λ p. FindsUse names.now name.now count (Some p.2) p.0 p.1.now) (Misuses names.now name.now count true) }
{
    if names.has_sort(name) {
        return Err(fault_of(alloc, SortKind::DoubleName, name.bytes()));
    }
    match names.symbol(name) {
        None => Err(wrong_use(alloc, names, name)),
        Some((number, entry)) => match entry.gives {
            None => Err(wrong_use(alloc, names, name)),
            Some(gives) => {
                if entry.args.len() == count {
                    Ok((number, entry.args.as_slice(), gives))
                } else {
                    Err(wrong_use(alloc, names, name))
                }
            }
        },
    }
}

/// The number of a predicate that is used with so many arguments, and the sorts of its arguments.
pub fn used_predicate<'a>(
    alloc: Global,
    names: &'a Names,
    name: &Text,
    count: usize,
) -> Result<(u32, &'a [u32]), Fault>
    requires { IsGoodSignature names.now.signature }
    ensures { MatchResult result (λ p. FindsUse names.now name.now count None p.0 p.1.now) (Misuses names.now name.now count false) }
{
    if names.has_sort(name) {
        return Err(fault_of(alloc, SortKind::DoubleName, name.bytes()));
    }
    match names.symbol(name) {
        None => Err(wrong_use(alloc, names, name)),
        Some((number, entry)) => match entry.gives {
            Some(_) => Err(wrong_use(alloc, names, name)),
            None => {
                if entry.args.len() == count {
                    Ok((number, entry.args.as_slice()))
                } else {
                    Err(wrong_use(alloc, names, name))
                }
            }
        },
    }
}

/// A term as cells, with numbers for names, and the number of its sort; or its first fault.
#[cycle(number_term)]
pub fn number_term(
    alloc: Global,
    names: &Names,
    binders: &Binders,
    cells: &mut Cells,
    term: &Term,
) -> Result<(usize, u32), Fault>
    requires good { IsGoodSignature names.now.signature }
    requires scope { IsScope names.now.signature binders.now }
    ensures { PutsSortedTerm names.now binders.now term.now cells.old cells.new result }
{
    match term {
        Term::Var(name) => match binders.find(name) {
            Some((level, sort)) => {
                let at = cells.put_bound(level)?;
                Ok((at, sort))
            }
            None => Err(fault_of(alloc, SortKind::FreeVariable, name.bytes())),
        },
        Term::App(name, terms) => {
            let (number, sorts, gives) = used_function(alloc, names, name, terms.len())?;
            let args = number_terms(alloc, names, binders, cells, name, sorts, terms.as_slice())?;
            let at = cells.put_app(number, args.as_slice())?;
            Ok((at, gives))
        }
    }
}

/// An argument of a symbol, of the sort that is wanted; or its fault.
#[cycle(number_term)]
fn number_argument(
    alloc: Global,
    names: &Names,
    binders: &Binders,
    cells: &mut Cells,
    of: &Text,
    wanted: u32,
    term: &Term,
) -> Result<usize, Fault>
    requires good { IsGoodSignature names.now.signature }
    requires scope { IsScope names.now.signature binders.now }
    requires wanted { sorting.in_range names.now.signature.sorts wanted ≡ true }
    ensures { PutsArgument names.now binders.now of.now wanted term.now cells.old cells.new result }
{
    let (argument, sort) = number_term(alloc, names, binders, cells, term)?;
    if sort == wanted {
        Ok(argument)
    } else {
        Err(fault_of(alloc, SortKind::Mismatch, of.bytes()))
    }
}

/// The arguments of a symbol as cells, each of the sort that is wanted; or their first fault.
#[cycle(number_term)]
pub fn number_terms(
    alloc: Global,
    names: &Names,
    binders: &Binders,
    cells: &mut Cells,
    of: &Text,
    sorts: &[u32],
    terms: &[Term],
) -> Result<List<usize>, Fault>
    requires good { IsGoodSignature names.now.signature }
    requires scope { IsScope names.now.signature binders.now }
    requires sorts { list_all (sorting.in_range names.now.signature.sorts) sorts.now ≡ true }
    ensures { PutsArguments names.now binders.now of.now sorts.now terms.now cells.old cells.new result }
{
    let mut args = room(alloc, terms.len())?;
    let mut at = 0;
    for term in terms {
        if at >= sorts.len() {
            return Err(fault_of(alloc, SortKind::Mismatch, of.bytes()));
        }
        let argument = number_argument(alloc, names, binders, cells, of, sorts[at], term)?;
        put(&mut args, argument)?;
        at += 1;
    }
    Ok(args)
}

/// Two terms of one sort, as cells; or the first fault of the left, of the right, or of both together.
pub fn number_sides(
    alloc: Global,
    names: &Names,
    binders: &Binders,
    cells: &mut Cells,
    left: &Boxed<Term>,
    right: &Boxed<Term>,
) -> Result<(usize, usize), Fault>
    requires good { IsGoodSignature names.now.signature }
    requires scope { IsScope names.now.signature binders.now }
    ensures { PutsEquation names.now binders.now left.now right.now cells.old cells.new result }
{
    let (a, s) = number_term(alloc, names, binders, cells, left.get())?;
    let (b, t) = number_term(alloc, names, binders, cells, right.get())?;
    if s == t {
        Ok((a, b))
    } else {
        Err(fault_of(alloc, SortKind::Mismatch, b"="))
    }
}
