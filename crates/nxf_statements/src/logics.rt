//! Logic statements.

ghost use Rattle.std.specs.Prelude.{[], ◌≡◌, length};
ghost use Rattle.nxf_terminals.specs.Input as input;
ghost use Rattle.nxf_terminals.specs.Input.{Gives};
ghost use Rattle.nxf_tree.specs.declared.tree.LogicSpec.{LogicSpec};
ghost use Rattle.syntax_definitions.specs.steps.ReadLists as lists;
ghost use Rattle.syntax_definitions.specs.steps.ReadLogic as spec;

use nxf_base::{List, Text};
use nxf_formulas::{index_text, long_index};
use nxf_terminals::{Cursor, GrammarError, Sign, is_dollar, push};
use nxf_tree::{IndexName, LogicSpec, SpecEntry, SpecItem, SpecKey, SpecValue};
use std::alloc::Global;

#[tactic(auto, unfolding(syntax_definitions::specs::steps::ReadLogic::spec_key))]
fn key(alloc: Global, cursor: &mut Cursor<'_>) -> Result<SpecKey, GrammarError>
    ensures { Gives (spec.spec_key cursor.old) result cursor.new }
{
    match cursor.peek() {
        Sign::Name => Ok(SpecKey::Name(cursor.take_name(alloc)?)),
        Sign::Box => {
            cursor.step();
            Ok(SpecKey::Index(IndexName::Plain))
        }
        Sign::LeftBracket => {
            cursor.step();
            cursor.expect(Sign::Hash)?;
            let index = index_text(alloc, cursor)?;
            cursor.expect(Sign::RightBracket)?;
            Ok(SpecKey::Index(IndexName::Named(index)))
        }
        Sign::LeftBrace => {
            cursor.step();
            cursor.expect(Sign::Boxes)?;
            Ok(SpecKey::Index(long_index(alloc, cursor)?))
        }
        sign => dollar_key(alloc, cursor, is_dollar(sign)),
    }
}

fn dollar_key(
    alloc: Global,
    cursor: &mut Cursor<'_>,
    is_dollar: bool,
) -> Result<SpecKey, GrammarError>
    ensures { Gives (spec.dollar_key is_dollar cursor.old) result cursor.new }
{
    if is_dollar {
        Ok(SpecKey::Dollar(cursor.take_text(alloc)?))
    } else {
        Err(GrammarError::Syntax(0))
    }
}

fn dollar_value(
    alloc: Global,
    cursor: &mut Cursor<'_>,
    is_dollar: bool,
) -> Result<SpecValue, GrammarError>
    ensures { Gives (spec.dollar_value is_dollar cursor.old) result cursor.new }
{
    if is_dollar {
        Ok(SpecValue::Word(cursor.take_text(alloc)?))
    } else {
        Err(GrammarError::Syntax(0))
    }
}

/// Whether a word stands here that is an item by itself.
#[tactic(auto, unfolding(syntax_definitions::specs::steps::ReadLogic::stands_alone))]
fn stands_alone(cursor: &Cursor<'_>) -> bool
    ensures { result ≡ spec.stands_alone cursor.now }
{
    match cursor.second() {
        Sign::Is => false,
        _ => is_dollar(cursor.peek()),
    }
}

#[cycle(value)]
fn entry(alloc: Global, cursor: &mut Cursor<'_>, left: usize) -> Result<SpecEntry, GrammarError>
    ensures { Gives (spec.entry_with (spec.value_of left) cursor.old) result cursor.new }
{
    let key = key(alloc, cursor)?;
    cursor.expect(Sign::Is)?;
    let value = value(alloc, cursor, left)?;
    Ok(SpecEntry { key, value })
}

#[cycle(value)]
fn inner_entry(
    alloc: Global,
    cursor: &mut Cursor<'_>,
    left: usize,
) -> Result<SpecEntry, GrammarError>
    ensures { Gives (spec.inner_entry left cursor.old) result cursor.new }
{
    if left == 0 {
        return Err(GrammarError::Syntax(0));
    }
    entry(alloc, cursor, left - 1)
}

#[cycle(value)]
#[tactic(auto, unfolding(syntax_definitions::specs::steps::ReadLogic::item_of))]
fn item(alloc: Global, cursor: &mut Cursor<'_>, left: usize) -> Result<SpecItem, GrammarError>
    ensures { Gives (spec.item_of (spec.inner_entry left) cursor.old) result cursor.new }
{
    if stands_alone(cursor) {
        return Ok(SpecItem::Word(cursor.take_text(alloc)?));
    }
    Ok(SpecItem::Entry(inner_entry(alloc, cursor, left)?))
}

#[cycle(value)]
fn items(
    alloc: Global,
    cursor: &mut Cursor<'_>,
    left: usize,
) -> Result<List<SpecItem>, GrammarError>
    ensures { Gives (lists.list_from (spec.item_of (spec.inner_entry left)) (length cursor.old) [] cursor.old) result cursor.new }
{
    let mut found = List::new(alloc);
    for _turn in 0..cursor.len() {
        push(&mut found, item(alloc, cursor, left)?)?;
        match cursor.peek() {
            Sign::Comma => cursor.step(),
            Sign::RightBracket => {
                cursor.step();
                return Ok(found);
            }
            _ => return Err(GrammarError::Syntax(0)),
        }
    }
    Err(GrammarError::Syntax(0))
}

/// What stands after an opening bracket.
#[cycle(value)]
fn bracketed(alloc: Global, cursor: &mut Cursor<'_>, left: usize) -> Result<SpecValue, GrammarError>
    ensures { Gives (spec.items_by (spec.item_of (spec.inner_entry left)) (input.kind cursor.old) cursor.old) result cursor.new }
{
    match cursor.peek() {
        Sign::RightBracket => {
            cursor.step();
            Ok(SpecValue::Items(List::new(alloc)))
        }
        _ => Ok(SpecValue::Items(items(alloc, cursor, left)?)),
    }
}

#[cycle(value)]
fn value_from(
    alloc: Global,
    cursor: &mut Cursor<'_>,
    left: usize,
) -> Result<SpecValue, GrammarError>
    ensures { Gives (spec.value_by (spec.item_of (spec.inner_entry left)) (input.kind cursor.old) cursor.old) result cursor.new }
{
    match cursor.peek() {
        Sign::LeftBracket => {
            cursor.step();
            bracketed(alloc, cursor, left)
        }
        sign => dollar_value(alloc, cursor, is_dollar(sign)),
    }
}

#[cycle(value)]
fn value(alloc: Global, cursor: &mut Cursor<'_>, left: usize) -> Result<SpecValue, GrammarError>
    ensures { Gives (spec.value_of left cursor.old) result cursor.new }
{
    value_from(alloc, cursor, left)
}

fn entries(
    alloc: Global,
    cursor: &mut Cursor<'_>,
    left: usize,
) -> Result<List<SpecEntry>, GrammarError>
    ensures { Gives (lists.list_from (spec.entry_with (spec.value_of left)) (length cursor.old) [] cursor.old) result cursor.new }
{
    let mut found = List::new(alloc);
    for _turn in 0..cursor.len() {
        push(&mut found, entry(alloc, cursor, left)?)?;
        match cursor.peek() {
            Sign::Comma => cursor.step(),
            Sign::RightBracket => {
                cursor.step();
                return Ok(found);
            }
            _ => return Err(GrammarError::Syntax(0)),
        }
    }
    Err(GrammarError::Syntax(0))
}

fn bracketed_entries(
    alloc: Global,
    cursor: &mut Cursor<'_>,
    left: usize,
    logic: Text,
) -> Result<LogicSpec, GrammarError>
    ensures { Gives (spec.entries_by (spec.entry_with (spec.value_of left)) logic (input.kind cursor.old) cursor.old) result cursor.new }
{
    match cursor.peek() {
        Sign::RightBracket => {
            cursor.step();
            Ok(LogicSpec {
                logic,
                entries: List::new(alloc),
            })
        }
        _ => {
            let entries = entries(alloc, cursor, left)?;
            Ok(LogicSpec { logic, entries })
        }
    }
}

/// A logic statement's body, with so many levels of nesting.
#[tactic(auto, unfolding(syntax_definitions::specs::steps::ReadLogic::logic_spec))]
pub fn logic(alloc: Global, cursor: &mut Cursor<'_>, left: usize) -> Result<LogicSpec, GrammarError>
    ensures { Gives (spec.logic_spec left cursor.old) result cursor.new }
{
    if !is_dollar(cursor.peek()) {
        return Err(GrammarError::Syntax(0));
    }
    let logic = cursor.take_text(alloc)?;
    cursor.expect(Sign::Is)?;
    cursor.expect(Sign::LeftBracket)?;
    bracketed_entries(alloc, cursor, left, logic)
}
