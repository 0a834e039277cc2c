//! Typings and types.

ghost use Rattle.std.specs.Prelude.{[], ◌≡◌, true, Some};
ghost use Rattle.nxf_terminals.specs.Input as input;
ghost use Rattle.nxf_terminals.specs.Input.{Gives};
ghost use Rattle.nxf_tree.specs.declared.tree.Typing.{Typing};
ghost use Rattle.syntax_definitions.specs.steps.ReadTypings as spec;

use nxf_base::{List, Text};
use nxf_formulas::sort_name;
use nxf_terminals::{Cursor, GrammarError, Sign, push};
use nxf_tree::{SortName, Typing};
use std::alloc::Global;

#[tactic(auto, unfolding(syntax_definitions::specs::steps::ReadTypings::result))]
fn result_sort(alloc: Global, cursor: &mut Cursor<'_>) -> Result<Option<SortName>, GrammarError>
    ensures { Gives (spec.result cursor.old) result cursor.new }
{
    match cursor.peek() {
        Sign::Truth => {
            cursor.step();
            Ok(None)
        }
        _ => Ok(Some(sort_name(alloc, cursor)?)),
    }
}

/// No more sorts than the count, up to the closing bracket.
fn sorts(
    alloc: Global,
    cursor: &mut Cursor<'_>,
    count: usize,
) -> Result<List<SortName>, GrammarError>
    ensures { Gives (spec.sorts_from count [] cursor.old) result cursor.new }
{
    let mut found = List::new(alloc);
    for _turn in 0..count {
        push(&mut found, sort_name(alloc, cursor)?)?;
        match cursor.peek() {
            Sign::Star => cursor.step(),
            Sign::Close => {
                cursor.step();
                return Ok(found);
            }
            _ => return Err(GrammarError::Syntax(0)),
        }
    }
    Err(GrammarError::Syntax(0))
}

#[tactic(auto, unfolding(syntax_definitions::specs::steps::ReadTypings::are_arguments))]
fn are_arguments(cursor: &Cursor<'_>) -> bool
    ensures { result ≡ spec.are_arguments cursor.now }
{
    match cursor.second() {
        Sign::Star => true,
        Sign::Close => match cursor.third() {
            Sign::Greater => true,
            _ => false,
        },
        _ => false,
    }
}

fn symbol(
    alloc: Global,
    cursor: &mut Cursor<'_>,
    name: Text,
    sorts: List<SortName>,
) -> Result<Typing, GrammarError>
    ensures { Gives (spec.symbol name sorts cursor.old) result cursor.new }
{
    cursor.expect(Sign::Greater)?;
    let gives = result_sort(alloc, cursor)?;
    Ok(Typing::Symbol(name, sorts, gives))
}

fn after_sort(
    alloc: Global,
    cursor: &mut Cursor<'_>,
    name: Text,
    sort: SortName,
) -> Result<Typing, GrammarError>
    ensures { Gives (spec.after_sort name sort (input.kind cursor.old) cursor.old) result cursor.new }
{
    let mut sorts = List::new(alloc);
    match cursor.peek() {
        Sign::Greater => {
            cursor.step();
            let gives = result_sort(alloc, cursor)?;
            push(&mut sorts, sort)?;
            Ok(Typing::Symbol(name, sorts, gives))
        }
        _ => Ok(Typing::Symbol(name, sorts, Some(sort))),
    }
}

/// What stands after an opening bracket.
#[cycle(type_of)]
fn in_brackets(
    alloc: Global,
    cursor: &mut Cursor<'_>,
    name: Text,
    left: usize,
    most: usize,
) -> Result<Typing, GrammarError>
    ensures { Gives (spec.in_brackets name (spec.inner_type most name left) (spec.arguments most left) (spec.are_arguments cursor.old) cursor.old) result cursor.new }
{
    if left == 0 {
        return Err(GrammarError::Syntax(0));
    }
    if are_arguments(cursor) {
        let arguments = sorts(alloc, cursor, most)?;
        return symbol(alloc, cursor, name, arguments);
    }
    let found = type_of(alloc, cursor, name, left - 1, most)?;
    cursor.expect(Sign::Close)?;
    Ok(found)
}

#[cycle(type_of)]
fn type_of(
    alloc: Global,
    cursor: &mut Cursor<'_>,
    name: Text,
    left: usize,
    most: usize,
) -> Result<Typing, GrammarError>
    ensures { Gives (spec.type_of most name left cursor.old) result cursor.new }
{
    type_from(alloc, cursor, name, left, most)
}

#[cycle(type_of)]
fn type_from(
    alloc: Global,
    cursor: &mut Cursor<'_>,
    name: Text,
    left: usize,
    most: usize,
) -> Result<Typing, GrammarError>
    ensures { Gives (spec.type_by name (spec.inner_type most name left) (spec.arguments most left) (input.kind cursor.old) cursor.old) result cursor.new }
{
    match cursor.peek() {
        Sign::Open => {
            cursor.step();
            in_brackets(alloc, cursor, name, left, most)
        }
        Sign::Truth => {
            cursor.step();
            Ok(Typing::Symbol(name, List::new(alloc), None))
        }
        _ => {
            let sort = sort_name(alloc, cursor)?;
            after_sort(alloc, cursor, name, sort)
        }
    }
}

fn named(
    alloc: Global,
    cursor: &mut Cursor<'_>,
    name: Text,
    left: usize,
    most: usize,
) -> Result<Typing, GrammarError>
    ensures { Gives (spec.named (spec.type_of most name left) name (input.kind cursor.old) cursor.old) result cursor.new }
{
    match cursor.peek() {
        Sign::SortType => {
            cursor.step();
            Ok(Typing::Sort(name))
        }
        _ => type_of(alloc, cursor, name, left, most),
    }
}

/// A typing, with so many levels of nesting and sorts of arguments at most.
#[cycle(typing)]
pub fn typing(
    alloc: Global,
    cursor: &mut Cursor<'_>,
    left: usize,
    most: usize,
) -> Result<Typing, GrammarError>
    ensures { Gives (spec.typing_of most left cursor.old) result cursor.new }
{
    typing_from(alloc, cursor, left, most)
}

/// A typing one deeper, up to the closing bracket.
#[cycle(typing)]
fn grouped(
    alloc: Global,
    cursor: &mut Cursor<'_>,
    left: usize,
    most: usize,
) -> Result<Typing, GrammarError>
    ensures { Gives (spec.grouped (spec.inner_typing most left) cursor.old) result cursor.new }
{
    if left == 0 {
        return Err(GrammarError::Syntax(0));
    }
    let found = typing(alloc, cursor, left - 1, most)?;
    cursor.expect(Sign::Close)?;
    Ok(found)
}

#[cycle(typing)]
fn typing_from(
    alloc: Global,
    cursor: &mut Cursor<'_>,
    left: usize,
    most: usize,
) -> Result<Typing, GrammarError>
    ensures { Gives (spec.typing_by (λ a. spec.type_of most a left) (spec.inner_typing most left) (input.kind cursor.old) cursor.old) result cursor.new }
{
    match cursor.peek() {
        Sign::Open => {
            cursor.step();
            grouped(alloc, cursor, left, most)
        }
        Sign::Individual => {
            cursor.step();
            cursor.expect(Sign::Colon)?;
            cursor.expect(Sign::SortType)?;
            Ok(Typing::Individual)
        }
        Sign::Name => {
            let name = cursor.take_name(alloc)?;
            cursor.expect(Sign::Colon)?;
            named(alloc, cursor, name, left, most)
        }
        _ => Err(GrammarError::Syntax(0)),
    }
}
