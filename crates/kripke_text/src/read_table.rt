//! Reads the statement of a table.
ghost use Rattle.std.specs.Prelude.{◌≡◌, ◌<◌, None, Some, length, IfOk, IsSome, IsTrue, if◌then◌else◌};
ghost use Rattle.nxf_tree.specs.Sorting.{gives_in_range};
ghost use Rattle.nxf_tree.specs.WellFormed.{IsWellFormed};
ghost use Rattle.fin_struct.specs.Places.{InRange};
ghost use Rattle.fin_struct.specs.KripkeTables.{IsKripke, IsKripkeFor, symbol_table};
ghost use Rattle.kripke_text.specs.steps.ReadBySubject.{TakesResult, TakesValue, TakesLiteral, with_literal, with_symbol_literal, ReadsLiteral, ReadsStatement};
ghost use Rattle.kripke_text.specs.steps.Reading.{Bounded, IsBlank};
ghost use Rattle.kripke_text_laws.specs.steps.Labels.{has_values, row_length};
ghost use Rattle.kripke_text.specs.steps.Subjects.{IsIn, label_of, table_of};

use crate::columns::column_sizes;
use crate::matcher::Matcher;
use crate::pieces::{close_statement, equals, lead, open_statement, prefix, truth};
use crate::subject::{Subject, pair, statement_name, symbol_entry, symbol_parts};
use crate::table::{back, front};
use classical_syntax::sort_at as sort_name;
use fin_struct::{Kripke, Rows};
use nxf_base::Memory;
use nxf_tree::Signature;
use std::alloc::Global;

/// Takes the value of a function's literal, where it comes next; 0 for a predicate.
fn take_result(
    matcher: &mut Matcher<'_>,
    over: &Signature,
    kripke: &Kripke,
    gives: Option<u32>,
) -> Result<Option<u32>, Memory>
    requires in_range { IsTrue (gives_in_range over.now.sorts gives) }
    requires agrees { IsSome matcher.old }
    ensures { IfOk result (TakesResult over.now kripke.now gives matcher.old matcher.new) }
{
    match gives {
        None => Ok(Some(0)),
        Some(sort) => {
            equals(matcher)?;
            Ok(matcher.take_number(prefix(sort_name(over, sort)), kripke.size(sort)))
        }
    }
}

/// Takes the value of a literal, where it comes next; 0 where the table has none.
fn take_value(
    matcher: &mut Matcher<'_>,
    over: &Signature,
    kripke: &Kripke,
    subject: Subject,
) -> Result<Option<u32>, Memory>
    requires well_formed { IsWellFormed over.now }
    requires within { IsKripke kripke.now }
    requires over { IsKripkeFor over.now kripke.now }
    requires subject_in { IsIn over.now subject }
    requires agrees { IsSome matcher.old }
    ensures { IfOk result (TakesValue over.now kripke.now subject matcher.old matcher.new) }
{
    match subject {
        Subject::Relation(_) => Ok(Some(0)),
        Subject::Existence(_) => Ok(Some(0)),
        Subject::Symbol(symbol) => {
            take_result(matcher, over, kripke, symbol_entry(over, symbol).gives)
        }
    }
}

/// Takes the literal of a row, where it comes next, and gives its value.
fn take_line(
    matcher: &mut Matcher<'_>,
    over: &Signature,
    kripke: &Kripke,
    subject: Subject,
    row: &[u32],
    none: bool,
) -> Result<Option<u32>, Memory>
    requires well_formed { IsWellFormed over.now }
    requires within { IsKripke kripke.now }
    requires over { IsKripkeFor over.now kripke.now }
    requires subject_in { IsIn over.now subject }
    requires long { length row.now ≡ row_length (label_of over.now subject) }
    ensures { IfOk result (TakesLiteral over.now kripke.now subject none row.now matcher.old matcher.new) }
{
    let mut trial = matcher.again();
    lead(&mut trial, none)?;
    front(&mut trial, over, subject, row)?;
    if !trial.agrees() {
        return Ok(None);
    }
    let Some(number) = take_value(&mut trial, over, kripke, subject)? else {
        return Ok(None);
    };
    back(&mut trial, over, subject)?;
    if !trial.agrees() {
        return Ok(None);
    }
    *matcher = trial;
    Ok(Some(number))
}

/// Writes what the literal of a row says.
fn write_line(over: &Signature, kripke: &mut Kripke, subject: Subject, row: &[u32], number: u32)
    requires within { IsKripke kripke.old }
    requires over { IsKripkeFor over.now kripke.old }
    requires subject_in { IsIn over.now subject }
    requires row_in { InRange (table_of kripke.old subject).sizes row.now }
    requires bounded { Bounded (table_of kripke.old subject).values number }
    ensures { kripke.new ≡ with_literal kripke.old subject row.now number }
{
    match subject {
        Subject::Relation(index) => {
            let (from, to) = pair(row);
            kripke.set_related(index, from, to, true)
        }
        Subject::Existence(sort) => {
            let (world, element) = pair(row);
            kripke.set_exists(sort, world, element, true)
        }
        Subject::Symbol(symbol) => write_symbol(over, kripke, symbol, row, number),
    }
}

fn write_symbol(over: &Signature, kripke: &mut Kripke, symbol: u32, row: &[u32], number: u32)
    requires within { IsKripke kripke.old }
    requires over { IsKripkeFor over.now kripke.old }
    requires symbol_in { symbol < length over.now.symbols }
    requires row_in { InRange (symbol_table kripke.old symbol).sizes row.now }
    requires bounded { Bounded (symbol_table kripke.old symbol).values number }
    ensures { kripke.new ≡ with_symbol_literal kripke.old symbol row.now number }
{
    let (world, args) = symbol_parts(over, kripke, symbol, row);
    let entry = symbol_entry(over, symbol);
    match entry.gives {
        Some(_) => kripke.set_value(symbol, world, args, number),
        None => kripke.set_holds(symbol, world, args, true),
    }
}

/// Whether the table is a function's.
fn is_function(over: &Signature, subject: Subject) -> bool
    requires { IsIn over.now subject }
    ensures { result ≡ has_values (label_of over.now subject) }
{
    match subject {
        Subject::Relation(_) => false,
        Subject::Existence(_) => false,
        Subject::Symbol(symbol) => symbol_entry(over, symbol).gives.is_some(),
    }
}

/// Reads a row: its literal, where it comes next, is written. Tells whether there was no literal so far, or nothing where a
/// function's row has none.
fn read_line(
    matcher: &mut Matcher<'_>,
    over: &Signature,
    kripke: &mut Kripke,
    subject: Subject,
    row: &[u32],
    none: bool,
) -> Result<Option<bool>, Memory>
    requires well_formed { IsWellFormed over.now }
    requires within { IsKripke kripke.old }
    requires over { IsKripkeFor over.now kripke.old }
    requires subject_in { IsIn over.now subject }
    requires row_in { InRange (table_of kripke.old subject).sizes row.now }
    ensures read { IfOk result (ReadsLiteral over.now subject none row.now matcher.old matcher.new kripke.old kripke.new) }
    ensures within { IfOk result (λ _. IsKripke kripke.new) }
    ensures over { IfOk result (λ _. IsKripkeFor over.now kripke.new) }
{
    match take_line(matcher, over, kripke, subject, row, none)? {
        Some(number) => {
            write_line(over, kripke, subject, row, number);
            Ok(Some(false))
        }
        None => Ok(only_if(!is_function(over, subject), none)),
    }
}

fn only_if(is_well: bool, none: bool) -> Option<bool>
    ensures { result ≡ (if is_well then Some none else None) }
{
    if is_well { Some(none) } else { None }
}

/// Whether the tokens are the statement of a table. Where they are, it is written into the structure.
pub fn read_table(
    alloc: Global,
    matcher: &Matcher<'_>,
    over: &Signature,
    kripke: &mut Kripke,
    subject: Subject,
) -> Result<bool, Memory>
    requires well_formed { IsWellFormed over.now }
    requires within { IsKripke kripke.old }
    requires over { IsKripkeFor over.now kripke.old }
    requires subject_in { IsIn over.now subject }
    requires blank { IsBlank (table_of kripke.old subject) }
    ensures read { IfOk result (ReadsStatement over.now subject matcher.now kripke.old kripke.new) }
    ensures within { IfOk result (λ _. IsKripke kripke.new) }
    ensures over { IfOk result (λ _. IsKripkeFor over.now kripke.new) }
{
    let mut left = matcher.again();
    open_statement(&mut left, statement_name(over, subject))?;
    let sizes = column_sizes(alloc, over, kripke, subject)?;
    let mut rows = Rows::new(alloc, sizes.as_slice())?;
    let mut none = true;
    while let Some(row) = rows.row() {
        let Some(after) = read_line(&mut left, over, kripke, subject, row, none)? else {
            return Ok(false);
        };
        none = after;
        rows.advance();
    }
    truth(&mut left, none)?;
    close_statement(&mut left)?;
    Ok(left.is_done())
}
