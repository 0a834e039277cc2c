//! Recursive descent. Each function goes on with what it read, and its depth is bounded by the levels that are left.
//! The functions on the way down are kept apart, so that a level takes little of the stack.

ghost use Rattle.std.specs.Prelude.{[]};
ghost use Rattle.nxf_terminals.specs.Input as input;
ghost use Rattle.nxf_terminals.specs.Input.{Gives};
ghost use Rattle.nxf_tree.specs.declared.tree.Formula.{Formula};
ghost use Rattle.syntax_definitions.specs.steps.ReadFormulas as spec;

use crate::operators::{mode_of, operator};
use nxf_base::{List, Text};
use nxf_terminals::{Cursor, GrammarError, Sign, push};
use nxf_tree::{Formula, IndexName, Mode, Op, Quantifier, SortName, Term, equation, inequation};
use sqlite_items::Boxed;
use std::alloc::Global;

// ---- terms

#[cycle(term)]
#[tactic(auto, unfolding(syntax_definitions::specs::steps::ReadFormulas::term))]
fn term(
    alloc: Global,
    cursor: &mut Cursor<'_>,
    left: usize,
    most: usize,
) -> Result<Term, GrammarError>
    ensures { Gives (spec.term most left cursor.old) result cursor.new }
{
    match cursor.peek() {
        Sign::Upper => Ok(Term::Var(cursor.take_text(alloc)?)),
        Sign::Name => {
            let name = cursor.take_name(alloc)?;
            Ok(Term::App(name, arguments(alloc, cursor, left, most)?))
        }
        _ => Err(GrammarError::Syntax(0)),
    }
}

#[cycle(term)]
#[tactic(auto, unfolding(syntax_definitions::specs::steps::ReadFormulas::arguments))]
fn arguments(
    alloc: Global,
    cursor: &mut Cursor<'_>,
    left: usize,
    most: usize,
) -> Result<List<Term>, GrammarError>
    ensures { Gives (spec.arguments most (spec.argument most left) cursor.old) result cursor.new }
{
    if !cursor.eat(Sign::Open) {
        return Ok(List::new(alloc));
    }
    if left == 0 {
        return Err(GrammarError::Syntax(0));
    }
    terms(alloc, cursor, left - 1, most, most)
}

/// Any number of terms, up to the closing bracket.
fn many(
    alloc: Global,
    cursor: &mut Cursor<'_>,
    left: usize,
    most: usize,
) -> Result<List<Term>, GrammarError>
    ensures { Gives (spec.many most (spec.argument most left) cursor.old) result cursor.new }
{
    if left == 0 {
        return Err(GrammarError::Syntax(0));
    }
    terms(alloc, cursor, left - 1, most, cursor.len())
}

/// No more terms than the count, up to the closing bracket.
#[cycle(term)]
fn terms(
    alloc: Global,
    cursor: &mut Cursor<'_>,
    left: usize,
    most: usize,
    count: usize,
) -> Result<List<Term>, GrammarError>
    ensures { Gives (spec.terms_from most (spec.term most left) count [] cursor.old) result cursor.new }
{
    let mut found = List::new(alloc);
    for _turn in 0..count {
        push(&mut found, term(alloc, cursor, left, most)?)?;
        if !cursor.eat(Sign::Comma) {
            cursor.expect(Sign::Close)?;
            return Ok(found);
        }
    }
    Err(GrammarError::Syntax(0))
}

// ---- formulas over units

#[inline(never)]
#[cycle(unit)]
#[tactic(auto, unfolding(syntax_definitions::specs::steps::ReadFormulas::whole))]
fn whole(
    alloc: Global,
    cursor: &mut Cursor<'_>,
    left: usize,
    most: usize,
) -> Result<Formula, GrammarError>
    ensures { Gives (spec.whole (spec.unit most left) cursor.old) result cursor.new }
{
    let first = unit(alloc, cursor, left, most)?;
    chain(alloc, cursor, left, most, first)
}

#[cycle(unit)]
fn chain(
    alloc: Global,
    cursor: &mut Cursor<'_>,
    left: usize,
    most: usize,
    first: Formula,
) -> Result<Formula, GrammarError>
    ensures { Gives (spec.chain (spec.unit most left) first (input.kind cursor.old) cursor.old) result cursor.new }
{
    match cursor.peek() {
        Sign::And => {
            cursor.step();
            Ok(Formula::And(units(alloc, cursor, left, most, Sign::And, first)?))
        }
        Sign::Or => {
            cursor.step();
            Ok(Formula::Or(units(alloc, cursor, left, most, Sign::Or, first)?))
        }
        sign => pair(alloc, cursor, left, most, first, operator(sign)),
    }
}

#[inline(never)]
#[cycle(unit)]
fn pair(
    alloc: Global,
    cursor: &mut Cursor<'_>,
    left: usize,
    most: usize,
    first: Formula,
    op: Option<Op>,
) -> Result<Formula, GrammarError>
    ensures { Gives (spec.pair (spec.unit most left) first op cursor.old) result cursor.new }
{
    let Some(op) = op else {
        return Ok(first);
    };
    cursor.step();
    let second = unit(alloc, cursor, left, most)?;
    let first = Boxed::new(alloc, first)?;
    Ok(Formula::Pair(op, first, Boxed::new(alloc, second)?))
}

#[inline(never)]
#[cycle(unit)]
fn units(
    alloc: Global,
    cursor: &mut Cursor<'_>,
    left: usize,
    most: usize,
    joint: Sign,
    first: Formula,
) -> Result<List<Formula>, GrammarError>
    ensures { Gives (spec.units (spec.unit most left) joint first cursor.old) result cursor.new }
{
    let mut found = List::new(alloc);
    push(&mut found, first)?;
    for _turn in 0..cursor.len() {
        push(&mut found, unit(alloc, cursor, left, most)?)?;
        if !cursor.eat(joint) {
            return Ok(found);
        }
    }
    Err(GrammarError::Syntax(0))
}

// ---- units

/// A sort: `$i` or a name.
#[tactic(auto, unfolding(syntax_definitions::specs::steps::ReadFormulas::sort_name))]
pub fn sort_name(alloc: Global, cursor: &mut Cursor<'_>) -> Result<SortName, GrammarError>
    ensures { Gives (spec.sort_name cursor.old) result cursor.new }
{
    match cursor.peek() {
        Sign::Individual => {
            cursor.step();
            Ok(SortName::Individual)
        }
        Sign::Name => Ok(SortName::User(cursor.take_name(alloc)?)),
        _ => Err(GrammarError::Syntax(0)),
    }
}

#[inline(never)]
#[tactic(auto, unfolding(syntax_definitions::specs::steps::ReadFormulas::bound_sort))]
fn bound_sort(alloc: Global, cursor: &mut Cursor<'_>) -> Result<SortName, GrammarError>
    ensures { Gives (spec.bound_sort cursor.old) result cursor.new }
{
    match cursor.peek() {
        Sign::Colon => {
            cursor.step();
            sort_name(alloc, cursor)
        }
        _ => Ok(SortName::Individual),
    }
}

/// The text of an index or a label: a name or an integer.
#[tactic(auto, unfolding(syntax_definitions::specs::steps::ReadFormulas::index_text))]
pub fn index_text(alloc: Global, cursor: &mut Cursor<'_>) -> Result<Text, GrammarError>
    ensures { Gives (spec.index_text cursor.old) result cursor.new }
{
    match cursor.peek() {
        Sign::Name => cursor.take_name(alloc),
        Sign::Integer => cursor.take_name(alloc),
        _ => Err(GrammarError::Syntax(0)),
    }
}

/// What follows the word of a modality in braces: an index in brackets or none, and the brace.
#[tactic(auto, unfolding(syntax_definitions::specs::steps::ReadFormulas::long_index))]
pub fn long_index(alloc: Global, cursor: &mut Cursor<'_>) -> Result<IndexName, GrammarError>
    ensures { Gives (spec.long_index cursor.old) result cursor.new }
{
    match cursor.peek() {
        Sign::RightBrace => {
            cursor.step();
            Ok(IndexName::Plain)
        }
        Sign::Open => {
            cursor.step();
            cursor.expect(Sign::Hash)?;
            let index = index_text(alloc, cursor)?;
            cursor.expect(Sign::Close)?;
            cursor.expect(Sign::RightBrace)?;
            Ok(IndexName::Named(index))
        }
        _ => Err(GrammarError::Syntax(0)),
    }
}

#[inline(never)]
fn comparison(
    alloc: Global,
    cursor: &mut Cursor<'_>,
    left: usize,
    most: usize,
    first: Term,
) -> Result<Formula, GrammarError>
    ensures { Gives (spec.comparison (spec.term most left) first (input.kind cursor.old) cursor.old) result cursor.new }
{
    match cursor.peek() {
        Sign::Equal => {
            cursor.step();
            let second = term(alloc, cursor, left, most)?;
            Ok(equation(alloc, first, second)?)
        }
        Sign::Differ => {
            cursor.step();
            let second = term(alloc, cursor, left, most)?;
            Ok(inequation(alloc, first, second)?)
        }
        _ => Err(GrammarError::Syntax(0)),
    }
}

#[inline(never)]
fn after_name(
    alloc: Global,
    cursor: &mut Cursor<'_>,
    left: usize,
    most: usize,
    name: Text,
    arguments: List<Term>,
) -> Result<Formula, GrammarError>
    ensures { Gives (spec.after_name (spec.term most left) name arguments (input.kind cursor.old) cursor.old) result cursor.new }
{
    match cursor.peek() {
        Sign::Equal => comparison(alloc, cursor, left, most, Term::App(name, arguments)),
        Sign::Differ => comparison(alloc, cursor, left, most, Term::App(name, arguments)),
        _ => Ok(Formula::Atom(name, arguments)),
    }
}

#[inline(never)]
#[cycle(unit)]
#[tactic(auto, unfolding(syntax_definitions::specs::steps::ReadFormulas::scope))]
fn scope(
    alloc: Global,
    cursor: &mut Cursor<'_>,
    left: usize,
    most: usize,
    quantifier: Quantifier,
) -> Result<Formula, GrammarError>
    ensures { Gives (spec.scope (spec.unit most left) (spec.quantified most quantifier left) cursor.old) result cursor.new }
{
    if cursor.eat(Sign::Comma) {
        return quantified(alloc, cursor, left, most, quantifier);
    }
    cursor.expect(Sign::RightBracket)?;
    cursor.expect(Sign::Colon)?;
    unit(alloc, cursor, left, most)
}

#[inline(never)]
#[cycle(unit)]
#[tactic(auto, unfolding(syntax_definitions::specs::steps::ReadFormulas::variable, syntax_definitions::specs::steps::ReadFormulas::unit))]
fn quantified(
    alloc: Global,
    cursor: &mut Cursor<'_>,
    left: usize,
    most: usize,
    quantifier: Quantifier,
) -> Result<Formula, GrammarError>
    ensures { Gives (spec.quantified most quantifier left cursor.old) result cursor.new }
{
    if left == 0 || !cursor.sees(Sign::Upper) {
        return Err(GrammarError::Syntax(0));
    }
    let variable = cursor.take_text(alloc)?;
    let sort = bound_sort(alloc, cursor)?;
    let bound = scope(alloc, cursor, left - 1, most, quantifier)?;
    Ok(Formula::Quant(quantifier, variable, sort, Boxed::new(alloc, bound)?))
}

/// A unit one deeper.
#[cycle(unit)]
fn inner(
    alloc: Global,
    cursor: &mut Cursor<'_>,
    left: usize,
    most: usize,
) -> Result<Formula, GrammarError>
    ensures { Gives (spec.inner most left cursor.old) result cursor.new }
{
    if left == 0 {
        return Err(GrammarError::Syntax(0));
    }
    unit(alloc, cursor, left - 1, most)
}

/// A formula one deeper, up to the closing bracket.
#[inline(never)]
#[cycle(unit)]
#[tactic(auto, unfolding(syntax_definitions::specs::steps::ReadFormulas::group))]
fn group(
    alloc: Global,
    cursor: &mut Cursor<'_>,
    left: usize,
    most: usize,
) -> Result<Formula, GrammarError>
    ensures { Gives (spec.group (spec.inner most left) cursor.old) result cursor.new }
{
    if left == 0 {
        return Err(GrammarError::Syntax(0));
    }
    let found = whole(alloc, cursor, left - 1, most)?;
    cursor.expect(Sign::Close)?;
    Ok(found)
}

/// What stands after the opening bracket of an indexed modality.
#[inline(never)]
#[cycle(unit)]
#[tactic(auto, unfolding(syntax_definitions::specs::steps::ReadFormulas::modal_of))]
fn modal_of(
    alloc: Global,
    cursor: &mut Cursor<'_>,
    left: usize,
    most: usize,
    mode: Mode,
    close: Sign,
) -> Result<Formula, GrammarError>
    ensures { Gives (spec.modal_of (spec.inner most left) mode close cursor.old) result cursor.new }
{
    cursor.expect(Sign::Hash)?;
    let index = index_text(alloc, cursor)?;
    cursor.expect(close)?;
    let found = inner(alloc, cursor, left, most)?;
    Ok(Formula::Modal(mode, IndexName::Named(index), Boxed::new(alloc, found)?))
}

/// What stands after the brace of a long form.
#[inline(never)]
#[cycle(unit)]
#[tactic(auto, unfolding(syntax_definitions::specs::steps::ReadFormulas::long))]
fn long(
    alloc: Global,
    cursor: &mut Cursor<'_>,
    left: usize,
    most: usize,
    mode: Option<Mode>,
) -> Result<Formula, GrammarError>
    ensures { Gives (spec.long (spec.inner most left) mode cursor.old) result cursor.new }
{
    let Some(mode) = mode else {
        return Err(GrammarError::Syntax(0));
    };
    cursor.step();
    let index = long_index(alloc, cursor)?;
    cursor.expect(Sign::At)?;
    cursor.expect(Sign::Open)?;
    let found = group(alloc, cursor, left, most)?;
    Ok(Formula::Modal(mode, index, Boxed::new(alloc, found)?))
}

/// An atom, or a comparison whose left side is a name.
#[inline(never)]
fn from_name(
    alloc: Global,
    cursor: &mut Cursor<'_>,
    left: usize,
    most: usize,
) -> Result<Formula, GrammarError>
    ensures { Gives (spec.from_name (spec.term most left) (spec.arguments most (spec.argument most left)) cursor.old) result cursor.new }
{
    let name = cursor.take_name(alloc)?;
    let given = arguments(alloc, cursor, left, most)?;
    after_name(alloc, cursor, left, most, name, given)
}

/// A comparison whose left side is a variable.
#[inline(never)]
fn from_variable(
    alloc: Global,
    cursor: &mut Cursor<'_>,
    left: usize,
    most: usize,
) -> Result<Formula, GrammarError>
    ensures { Gives (spec.from_variable (spec.term most left) (spec.arguments most (spec.argument most left)) cursor.old) result cursor.new }
{
    let variable = cursor.take_text(alloc)?;
    comparison(alloc, cursor, left, most, Term::Var(variable))
}

/// What is behind `$distinct`.
#[inline(never)]
fn distinct(
    alloc: Global,
    cursor: &mut Cursor<'_>,
    left: usize,
    most: usize,
) -> Result<Formula, GrammarError>
    ensures { Gives (spec.distinct (spec.many most (spec.argument most left)) cursor.old) result cursor.new }
{
    cursor.expect(Sign::Open)?;
    Ok(Formula::Distinct(many(alloc, cursor, left, most)?))
}

/// What is behind `~`.
#[inline(never)]
#[cycle(unit)]
fn negation(
    alloc: Global,
    cursor: &mut Cursor<'_>,
    left: usize,
    most: usize,
) -> Result<Formula, GrammarError>
    ensures { Gives (spec.negation (spec.inner most left) cursor.old) result cursor.new }
{
    let part = inner(alloc, cursor, left, most)?;
    Ok(Formula::Not(Boxed::new(alloc, part)?))
}

/// What is behind a modality without an index.
#[inline(never)]
#[cycle(unit)]
fn plain_modal(
    alloc: Global,
    cursor: &mut Cursor<'_>,
    left: usize,
    most: usize,
    mode: Mode,
) -> Result<Formula, GrammarError>
    ensures { Gives (spec.plain_modal (spec.inner most left) mode cursor.old) result cursor.new }
{
    let part = inner(alloc, cursor, left, most)?;
    Ok(Formula::Modal(mode, IndexName::Plain, Boxed::new(alloc, part)?))
}

#[cycle(unit)]
fn unit_from(
    alloc: Global,
    cursor: &mut Cursor<'_>,
    left: usize,
    most: usize,
) -> Result<Formula, GrammarError>
    ensures { Gives (spec.unit_from most left cursor.old) result cursor.new }
{
    match cursor.peek() {
        Sign::Open => {
            cursor.step();
            group(alloc, cursor, left, most)
        }
        Sign::Not => {
            cursor.step();
            negation(alloc, cursor, left, most)
        }
        Sign::Box => {
            cursor.step();
            plain_modal(alloc, cursor, left, most, Mode::Box)
        }
        Sign::Dia => {
            cursor.step();
            plain_modal(alloc, cursor, left, most, Mode::Dia)
        }
        Sign::LeftBracket => {
            cursor.step();
            modal_of(alloc, cursor, left, most, Mode::Box, Sign::RightBracket)
        }
        Sign::Less => {
            cursor.step();
            modal_of(alloc, cursor, left, most, Mode::Dia, Sign::Greater)
        }
        Sign::LeftBrace => {
            cursor.step();
            let mode = mode_of(cursor.peek());
            long(alloc, cursor, left, most, mode)
        }
        Sign::Distinct => {
            cursor.step();
            distinct(alloc, cursor, left, most)
        }
        Sign::All => {
            cursor.step();
            cursor.expect(Sign::LeftBracket)?;
            quantified(alloc, cursor, left, most, Quantifier::All)
        }
        Sign::Exists => {
            cursor.step();
            cursor.expect(Sign::LeftBracket)?;
            quantified(alloc, cursor, left, most, Quantifier::Exists)
        }
        Sign::True => {
            cursor.step();
            Ok(Formula::True)
        }
        Sign::False => {
            cursor.step();
            Ok(Formula::False)
        }
        Sign::Name => from_name(alloc, cursor, left, most),
        Sign::Upper => from_variable(alloc, cursor, left, most),
        _ => Err(GrammarError::Syntax(0)),
    }
}

#[cycle(unit)]
fn unit(
    alloc: Global,
    cursor: &mut Cursor<'_>,
    left: usize,
    most: usize,
) -> Result<Formula, GrammarError>
    ensures { Gives (spec.unit most left cursor.old) result cursor.new }
{
    unit_from(alloc, cursor, left, most)
}

/// A formula, with so many levels of nesting and arguments of a name at most.
#[tactic(auto, unfolding(syntax_definitions::specs::steps::ReadFormulas::formula))]
pub fn formula(
    alloc: Global,
    cursor: &mut Cursor<'_>,
    left: usize,
    most: usize,
) -> Result<Formula, GrammarError>
    ensures { Gives (spec.formula most left cursor.old) result cursor.new }
{
    whole(alloc, cursor, left, most)
}
