//! The statement of a table.
ghost use Rattle.std.specs.Prelude.{◌≡◌, ◌<◌, ◌∷◌, [], All, IsTrue, length, IfOk, OnOk};
ghost use Rattle.std.specs.List.{fold};
ghost use Rattle.nxf_tree.specs.WellFormed.{IsWellFormed, has_sorts_in_range};
ghost use Rattle.nxf_tree.specs.Rows.{all_rows};
ghost use Rattle.fin_struct.specs.Places.{InRange};
ghost use Rattle.fin_struct.specs.KripkeTables.{IsKripke, IsKripkeFor};
ghost use Rattle.kripke_text_definitions.specs.KripkeText as text;
ghost use Rattle.kripke_text.specs.steps.Lines.{line_marks, none_after, lines_in, none_in};
ghost use Rattle.kripke_text_laws.specs.steps.Labels.{row_length};
ghost use Rattle.kripke_text.specs.steps.Subjects.{IsIn, label_of, table_of};
ghost use Rattle.kripke_text.specs.steps.Written.{table_marks};

use crate::columns::column_sizes;
use crate::pieces::{
    access, application, close_statement, end_place, existence, lead, open_statement, place, truth,
    value_of,
};
use crate::subject::{
    Subject, index_name, line, split_row, statement_name, symbol_entry, takes_world,
};
use crate::taker::Taker;
use classical_syntax::sort_at;
use fin_struct::{Kripke, Rows};
use nxf_base::Memory;
use nxf_tree::{Signature, SymbolEntry};
use std::alloc::Global;

/// A row's literal up to its value.
pub fn front<M: Taker>(
    out: &mut M,
    over: &Signature,
    subject: Subject,
    row: &[u32],
) -> Result<(), Memory>
    requires well_formed { IsWellFormed over.now }
    requires subject_in { IsIn over.now subject }
    requires long { length row.now ≡ row_length (label_of over.now subject) }
    ensures { OnOk result (out.new ≡ fold M.takes out.old (text.front (label_of over.now subject) row.now)) }
{
    match subject {
        Subject::Relation(index) => access(out, index_name(over, index), row[0], row[1]),
        Subject::Existence(sort) => existence(out, sort_at(over, sort), row[0], row[1]),
        Subject::Symbol(symbol) => symbol_front(out, over, symbol_entry(over, symbol), row),
    }
}

fn symbol_front<M: Taker>(
    out: &mut M,
    over: &Signature,
    symbol: &SymbolEntry,
    row: &[u32],
) -> Result<(), Memory>
    requires in_range { IsTrue (has_sorts_in_range over.now symbol.now) }
    requires long { length row.now ≡ row_length (text.symbol_label over.now.sorts symbol.now) }
    ensures { OnOk result (out.new ≡ fold M.takes out.old (text.front (text.symbol_label over.now.sorts symbol.now) row.now)) }
{
    let with_world = takes_world(symbol);
    let (world, args) = split_row(with_world, row);
    place(out, with_world, world)?;
    application(out, over, &symbol.name, symbol.args.as_slice(), args)
}

/// The value in a row's literal, if it has one.
fn value<M: Taker>(
    out: &mut M,
    over: &Signature,
    subject: Subject,
    number: u32,
) -> Result<(), Memory>
    requires well_formed { IsWellFormed over.now }
    requires subject_in { IsIn over.now subject }
    ensures { OnOk result (out.new ≡ fold M.takes out.old (text.label_value (label_of over.now subject) number)) }
{
    match subject {
        Subject::Relation(_) => Ok(()),
        Subject::Existence(_) => Ok(()),
        Subject::Symbol(symbol) => value_of(out, over, symbol_entry(over, symbol).gives, number),
    }
}

/// What ends a row's literal.
pub fn back<M: Taker>(out: &mut M, over: &Signature, subject: Subject) -> Result<(), Memory>
    requires { IsIn over.now subject }
    ensures { OnOk result (out.new ≡ fold M.takes out.old (text.back (label_of over.now subject))) }
{
    match subject {
        Subject::Relation(_) => out.sign(b")"),
        Subject::Existence(_) => out.sign(b")"),
        Subject::Symbol(symbol) => end_place(out, takes_world(symbol_entry(over, symbol))),
    }
}

/// The literal of a row and its value.
#[tactic(auto, using(crate::proofs::Folds::fold_more))]
fn literal<M: Taker>(
    out: &mut M,
    over: &Signature,
    subject: Subject,
    row: &[u32],
    number: u32,
) -> Result<(), Memory>
    requires well_formed { IsWellFormed over.now }
    requires subject_in { IsIn over.now subject }
    requires long { length row.now ≡ row_length (label_of over.now subject) }
    ensures { OnOk result (out.new ≡ fold M.takes out.old (text.literal (label_of over.now subject) row.now number)) }
{
    front(out, over, subject, row)?;
    value(out, over, subject, number)?;
    back(out, over, subject)
}

/// The literal of a row, if it is printed. Tells whether no literal was printed so far.
fn put_line<M: Taker>(
    out: &mut M,
    over: &Signature,
    subject: Subject,
    row: &[u32],
    shown: Option<u32>,
    none: bool,
) -> Result<bool, Memory>
    requires well_formed { IsWellFormed over.now }
    requires subject_in { IsIn over.now subject }
    requires long { length row.now ≡ row_length (label_of over.now subject) }
    ensures none { IfOk result (λ after. after ≡ none_after none shown) }
    ensures marks { OnOk result (out.new ≡ fold M.takes out.old (line_marks (label_of over.now subject) none row.now shown)) }
{
    let Some(number) = shown else {
        return Ok(none);
    };
    lead(out, none)?;
    literal(out, over, subject, row, number)?;
    Ok(false)
}

/// The literals of a table. Tells whether there is none.
fn literals<M: Taker>(
    alloc: Global,
    out: &mut M,
    over: &Signature,
    kripke: &Kripke,
    subject: Subject,
) -> Result<bool, Memory>
    requires well_formed { IsWellFormed over.now }
    requires within { IsKripke kripke.now }
    requires over { IsKripkeFor over.now kripke.now }
    requires subject_in { IsIn over.now subject }
    ensures none { IfOk result (λ none. none ≡ none_in (table_of kripke.now subject)) }
    ensures marks { OnOk result (out.new ≡ fold M.takes out.old (lines_in (label_of over.now subject) (table_of kripke.now subject))) }
{
    let sizes = column_sizes(alloc, over, kripke, subject)?;
    let mut rows = Rows::new(alloc, sizes.as_slice())?;
    let mut none = true;
    while let Some(row) = rows.row() {
        let shown = line(over, kripke, subject, row);
        none = put_line(out, over, subject, row, shown, none)?;
        rows.advance();
    }
    Ok(none)
}

/// The statement of a table of the structure.
pub fn table_statement<M: Taker>(
    alloc: Global,
    out: &mut M,
    over: &Signature,
    kripke: &Kripke,
    subject: Subject,
) -> Result<(), Memory>
    requires well_formed { IsWellFormed over.now }
    requires within { IsKripke kripke.now }
    requires over { IsKripkeFor over.now kripke.now }
    requires subject_in { IsIn over.now subject }
    ensures { OnOk result (out.new ≡ fold M.takes out.old (table_marks over.now kripke.now subject)) }
{
    open_statement(out, statement_name(over, subject))?;
    let none = literals(alloc, out, over, kripke, subject)?;
    truth(out, none)?;
    close_statement(out)
}
