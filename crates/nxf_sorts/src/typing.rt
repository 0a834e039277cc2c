//! Type statements are judged.

ghost use Rattle.std.specs.Prelude.{◌≡◌, ◌++◌, [], ◌<◌, ◌^◌, length};
ghost use Rattle.std.specs.Option.{option_copied};
ghost use Rattle.std.specs.Cmp.Lexicographic.{pointwise};
ghost use Rattle.nxf_tree.specs.Signature as signature;
ghost use Rattle.nxf_tree.specs.Sorting.{modal_language};
ghost use Rattle.nxf_tree.specs.Faults.{first_fault};
ghost use Rattle.nxf_tree.specs.SortFaults as faults;
ghost use Rattle.nxf_tree.specs.SortFaults.{gives_list, unknown_sorts, type_statement_fault};
ghost use Rattle.nxf_sorts.specs.Judging.{Judges, JudgesFile, type_after, typing_after, statement_after};

use crate::error::{SortError, at_statement};
use crate::fault::{Fault, fault_of};
use crate::formula::{found_sort, unknown_sort};
use nxf_base::{List, SortKind, Text};
use nxf_signatures::{Declarations, Names, SymbolType};
use nxf_tree::{Body, SortName, Statement, Typing};
use std::alloc::Global;

fn same_sort(a: &SortName, b: &SortName) -> bool
    ensures { result ≡ signature.same_sort a.now b.now }
{
    match a {
        SortName::Individual => match b {
            SortName::Individual => true,
            SortName::User(_) => false,
        },
        SortName::User(s) => match b {
            SortName::Individual => false,
            SortName::User(t) => s.bytes() == t.bytes(),
        },
    }
}

fn same_sorts(a: &List<SortName>, b: &List<SortName>) -> bool
    ensures { result ≡ pointwise signature.same_sort a.now b.now }
{
    if a.len() != b.len() {
        return false;
    }
    for at in 0..a.len() {
        if !same_sort(a.get(at), b.get(at)) {
            return false;
        }
    }
    true
}

fn same_value(a: &Option<SortName>, b: &Option<SortName>) -> bool
    ensures { result ≡ pointwise signature.same_sort (gives_list a.now) (gives_list b.now) }
{
    match a {
        None => b.is_none(),
        Some(s) => match b {
            None => false,
            Some(t) => same_sort(s, t),
        },
    }
}

fn same_type(kind: &SymbolType, args: &List<SortName>, gives: &Option<SortName>) -> bool
    ensures { result ≡ faults.same_type kind.now (record { args = args.now; gives = gives.now }) }
{
    same_sorts(&kind.args, args) && same_value(&kind.gives, gives)
}

fn judge_sort(alloc: Global, names: &Names, sort: &SortName) -> Result<(), Fault>
    ensures { Judges (faults.unknown_sort (modal_language names.now.signature) sort.now) result }
{
    match found_sort(names, sort) {
        Some(_) => Ok(()),
        None => Err(unknown_sort(alloc, sort)),
    }
}

fn judge_sorts(alloc: Global, names: &Names, sorts: &List<SortName>) -> Result<(), Fault>
    ensures { Judges (unknown_sorts (modal_language names.now.signature) sorts.now) result }
{
    for sort in sorts.as_slice() {
        judge_sort(alloc, names, sort)?;
    }
    Ok(())
}

/// The sorts of a type: those of the arguments, and then that of the value.
fn judge_type(
    alloc: Global,
    names: &Names,
    args: &List<SortName>,
    gives: &Option<SortName>,
) -> Result<(), Fault>
    ensures { Judges (unknown_sorts (modal_language names.now.signature) (args.now ++ gives_list gives.now)) result }
{
    judge_sorts(alloc, names, args)?;
    match gives {
        Some(sort) => judge_sort(alloc, names, sort),
        None => Ok(()),
    }
}

/// A symbol's declaration after the type with which it was declared before, if it was.
fn judge_again(
    alloc: Global,
    names: &Names,
    earlier: Option<&SymbolType>,
    name: &Text,
    args: &List<SortName>,
    gives: &Option<SortName>,
) -> Result<(), Fault>
    ensures { Judges (type_after names.now name.now args.now gives.now (option_copied earlier.entry)) result }
{
    match earlier {
        None => judge_type(alloc, names, args, gives),
        Some(kind) => {
            if same_type(kind, args, gives) {
                Ok(())
            } else {
                Err(fault_of(alloc, SortKind::DoubleName, name.bytes()))
            }
        }
    }
}

/// A typing after what was declared before it.
fn judge_typing(
    alloc: Global,
    names: &Names,
    before: &Declarations,
    typing: &Typing,
) -> Result<(), Fault>
    ensures { Judges (typing_after (modal_language names.now.signature) before.now typing.now) result }
{
    match typing {
        Typing::Individual => Ok(()),
        Typing::Sort(name) => match before.type_of(name) {
            Some(_) => Err(fault_of(alloc, SortKind::DoubleName, name.bytes())),
            None => Ok(()),
        },
        Typing::Symbol(name, args, gives) => {
            if before.has_sort(name) {
                Err(fault_of(alloc, SortKind::DoubleName, name.bytes()))
            } else {
                judge_again(alloc, names, before.type_of(name), name, args, gives)
            }
        }
    }
}

fn judge_statement(
    alloc: Global,
    names: &Names,
    before: &Declarations,
    statement: &Statement,
) -> Result<(), Fault>
    ensures { Judges (statement_after (modal_language names.now.signature) before.now statement.now) result }
{
    match statement {
        Statement::Annotated {
            name: _,
            role: _,
            body,
        } => match body {
            Body::Typing(typing) => judge_typing(alloc, names, before, typing),
            Body::Formula(_) => Ok(()),
            Body::Logic(_) => Ok(()),
        },
        Statement::Include { file: _, names: _ } => Ok(()),
    }
}

/// The type statements in order; or the first that has a fault.
pub fn judge_typings(
    alloc: Global,
    names: &Names,
    statements: &[Statement],
) -> Result<(), SortError>
    requires { length statements.now < 2 ^ 31 }
    ensures { JudgesFile (first_fault (type_statement_fault (modal_language names.now.signature)) 1 [] statements.now) result }
{
    let mut before = Declarations::new(alloc);
    let mut place = 0;
    for statement in statements {
        place += 1;
        match judge_statement(alloc, names, &before, statement) {
            Err(fault) => return Err(at_statement(fault, place)),
            Ok(()) => before.note(alloc, statement)?,
        }
    }
    Ok(())
}
