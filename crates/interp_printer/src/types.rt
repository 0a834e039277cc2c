//! The declarations of symbols.
ghost use Rattle.std.specs.Prelude.{◌≡◌, ◌<◌, ◌++◌, map, codes, length, OnOk};
ghost use Rattle.std.specs.List.{join_by};
ghost use Rattle.std.specs.Option.{option_map};
ghost use Rattle.nxf_tree.specs.Rows.{AllBelow};
ghost use Rattle.nxf_tree.specs.Problem.{classical_sort_at, table_declaration};
ghost use Rattle.nxf_tree.specs.Text.{sort_text, result_text, statement_text};
ghost use Rattle.classical_signature_laws.specs.ClassicalSignatures.{GivesBelow};
ghost use Rattle.interp_printer.specs.steps.Pieces.{symbol_type};

use crate::names::{open_statement, sort_at};
use nxf_base::Memory;
use nxf_tree::{SortName, TableEntry};
use std::alloc::Global;
use text_writer::{put, put_between, write_name, write_sort};

fn write_sorts(out: &mut Vec<u8>, sorts: &[SortName], args: &[u32]) -> Result<(), Memory>
    requires { AllBelow (length sorts.now) args.now }
    ensures { OnOk result (out.new.items ≡ out.old.items ++ join_by sort_text (codes " * ") (map (classical_sort_at sorts.now) args.now)) }
{
    for (at, sort) in args.iter().enumerate() {
        put_between(out, b" * ", at)?;
        write_sort(out, sort_at(sorts, *sort as usize))?;
    }
    Ok(())
}

fn write_result(out: &mut Vec<u8>, sorts: &[SortName], gives: Option<u32>) -> Result<(), Memory>
    requires { GivesBelow (length sorts.now) gives }
    ensures { OnOk result (out.new.items ≡ out.old.items ++ result_text (option_map (classical_sort_at sorts.now) gives)) }
{
    match gives {
        None => put(out, b"$o"),
        Some(sort) => write_sort(out, sort_at(sorts, sort as usize)),
    }
}

/// The sorts of the arguments, in brackets where there are several, and the sort of the values.
fn write_type(
    out: &mut Vec<u8>,
    sorts: &[SortName],
    args: &[u32],
    gives: Option<u32>,
) -> Result<(), Memory>
    requires args_in { AllBelow (length sorts.now) args.now }
    requires gives_in { GivesBelow (length sorts.now) gives }
    ensures { OnOk result (out.new.items ≡ out.old.items ++ symbol_type sorts.now args.now gives) }
{
    match args {
        [] => {}
        [sort] => {
            write_sort(out, sort_at(sorts, *sort as usize))?;
            put(out, b" > ")?;
        }
        _ => {
            put(out, b"( ")?;
            write_sorts(out, sorts, args)?;
            put(out, b" ) > ")?;
        }
    }
    write_result(out, sorts, gives)
}

/// The declaration of a symbol.
pub fn declare_table(
    alloc: Global,
    out: &mut Vec<u8>,
    sorts: &[SortName],
    entry: &TableEntry,
) -> Result<(), Memory>
    requires args_in { AllBelow (length sorts.now) entry.now.args }
    requires gives_in { GivesBelow (length sorts.now) entry.now.gives }
    ensures { OnOk result (out.new.items ≡ out.old.items ++ statement_text (table_declaration sorts.now entry.now)) }
{
    open_statement(alloc, out, &entry.name, b"type")?;
    write_name(out, &entry.name)?;
    put(out, b": ")?;
    write_type(out, sorts, entry.args.as_slice(), entry.gives)?;
    put(out, b").\n")
}
