//! Declarations: a known name keeps its type, and a listed element its sort.
ghost use Rattle.std.specs.Prelude.{◌≡◌, [], ◌∷◌};
ghost use Rattle.interpretation_definitions.specs.Judging as judging;
ghost use Rattle.interpretation_definitions.specs.Judging.{declaration_clash, is_sort_at, moved, retyped, same_sorts, same_value};
ghost use Rattle.nxf_tree.specs.Signature as signature;
ghost use Rattle.interpretation_parts.specs.steps.Held.{context_in};
ghost use Rattle.interpretation_parts.specs.steps.Entries.{entry_in};

use crate::context::Context;
use interpretation_definitions::Element;
use nxf_tree::{SortName, TableEntry, Typing};

fn same_sort(left: &SortName, right: &SortName) -> bool
    ensures { result ≡ signature.same_sort left.now right.now }
{
    match left {
        SortName::Individual => match right {
            SortName::Individual => true,
            SortName::User(_) => false,
        },
        SortName::User(s) => match right {
            SortName::Individual => false,
            SortName::User(t) => s == t,
        },
    }
}

/// Whether the number is that of the sort.
fn has_number(sorts: &[SortName], number: u32, sort: &SortName) -> bool
    ensures { result ≡ is_sort_at sorts.now number sort.now }
{
    match sorts.get(number as usize) {
        Some(own) => same_sort(own, sort),
        None => false,
    }
}

/// Whether the numbers are those of the sorts.
fn have_numbers(sorts: &[SortName], numbers: &[u32], names: &[SortName]) -> bool
    ensures { result ≡ same_sorts sorts.now numbers.now names.now }
{
    if numbers.len() != names.len() {
        return false;
    }
    let mut same = true;
    for (at, number) in numbers.iter().enumerate() {
        let has = has_number(sorts, *number, &names[at]);
        same &= has;
    }
    same
}

/// Whether a symbol's values are of the sort, or both are of a predicate.
fn has_value(sorts: &[SortName], gives: Option<u32>, value: &Option<SortName>) -> bool
    ensures { result ≡ same_value sorts.now gives value.now }
{
    match gives {
        None => match value {
            None => true,
            Some(_) => false,
        },
        Some(number) => match value {
            None => false,
            Some(sort) => has_number(sorts, number, sort),
        },
    }
}

/// Whether a symbol is known with another type.
fn is_retyped(
    context: &Context,
    symbol: Option<(u32, &TableEntry)>,
    args: &[SortName],
    gives: &Option<SortName>,
) -> bool
    ensures { result ≡ retyped (context_in context.now) (entry_in symbol.entry) args.now gives.now }
{
    match symbol {
        None => false,
        Some((_, entry)) => {
            let sorts = context.known.sorts();
            let args = have_numbers(sorts, entry.args.as_slice(), args);
            !(args && has_value(sorts, entry.gives, gives))
        }
    }
}

/// Whether an element is declared otherwise than as a constant of its sort.
fn is_moved(
    context: &Context,
    element: Option<Element>,
    args: &[SortName],
    gives: &Option<SortName>,
) -> bool
    ensures { result ≡ moved (context_in context.now) element args.now gives.now }
{
    match element {
        None => false,
        Some(element) => {
            let sorts = context.known.sorts();
            let args = have_numbers(sorts, &[], args);
            !(args && has_value(sorts, Some(element.sort), gives))
        }
    }
}

/// Whether a declaration contradicts the signature or a closure.
pub fn declaration_clashes(context: &Context, typing: &Typing) -> bool
    ensures { result ≡ declaration_clash (context_in context.now) typing.now }
{
    match typing {
        Typing::Individual => false,
        Typing::Sort(name) => {
            context.known.entry(name).is_some() || context.element(name).is_some()
        }
        Typing::Symbol(name, args, gives) => {
            let args = args.as_slice();
            context.known.is_sort(name)
                || is_retyped(context, context.known.entry(name), args, gives)
                || is_moved(context, context.element(name), args, gives)
        }
    }
}
