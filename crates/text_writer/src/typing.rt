//! Declarations of sorts and symbols.
ghost use Rattle.std.specs.Prelude.{◌≡◌, ◌++◌, codes, OnOk, OnErr};
ghost use Rattle.std.specs.List.{join_by};
ghost use Rattle.std.specs.Io.{StartsWith};
ghost use Rattle.nxf_tree.specs.Text.{typing_text, type_text, result_text, sort_text};

use crate::bytes::{put, put_between};
use crate::name::{write_name, write_sort};
use nxf_base::Memory;
use nxf_tree::{SortName, Typing};

/// Appends a declaration: `s: $tType` for a sort, `f: ( s * t ) > u` for a symbol. Where there is no memory, what the buffer
/// held stays at its front.
#[tactic(auto, using(crate::proofs::Starts::starts_after, crate::proofs::Starts::starts_same))]
pub fn write_typing(out: &mut Vec<u8>, typing: &Typing) -> Result<(), Memory>
    ensures text { OnOk result (out.new.items ≡ out.old.items ++ typing_text typing.now) }
    ensures kept { OnErr result (StartsWith out.new.items out.old.items) }
{
    match typing {
        Typing::Individual => put(out, b"$i: $tType"),
        Typing::Sort(name) => {
            write_name(out, name)?;
            put(out, b": $tType")
        }
        Typing::Symbol(name, args, gives) => {
            write_name(out, name)?;
            put(out, b": ")?;
            write_type(out, args.as_slice(), gives)
        }
    }
}

// The sorts of the arguments, in brackets where there are several, and the sort of the values.
#[tactic(auto, using(crate::proofs::Starts::starts_after, crate::proofs::Starts::starts_same))]
fn write_type(out: &mut Vec<u8>, args: &[SortName], gives: &Option<SortName>) -> Result<(), Memory>
    ensures text { OnOk result (out.new.items ≡ out.old.items ++ type_text args.now gives.now) }
    ensures kept { OnErr result (StartsWith out.new.items out.old.items) }
{
    match args {
        [] => {}
        [sort] => {
            write_sort(out, sort)?;
            put(out, b" > ")?;
        }
        _ => {
            put(out, b"( ")?;
            write_sorts(out, args)?;
            put(out, b" ) > ")?;
        }
    }
    write_result(out, gives)
}

#[tactic(auto, using(crate::proofs::Starts::starts_after, crate::proofs::Starts::starts_same))]
fn write_sorts(out: &mut Vec<u8>, sorts: &[SortName]) -> Result<(), Memory>
    ensures text { OnOk result (out.new.items ≡ out.old.items ++ join_by sort_text (codes " * ") sorts.now) }
    ensures kept { OnErr result (StartsWith out.new.items out.old.items) }
{
    for (at, sort) in sorts.iter().enumerate() {
        put_between(out, b" * ", at)?;
        write_sort(out, sort)?;
    }
    Ok(())
}

#[tactic(auto, using(crate::proofs::Starts::starts_same))]
fn write_result(out: &mut Vec<u8>, gives: &Option<SortName>) -> Result<(), Memory>
    ensures text { OnOk result (out.new.items ≡ out.old.items ++ result_text gives.now) }
    ensures kept { OnErr result (StartsWith out.new.items out.old.items) }
{
    match gives {
        None => put(out, b"$o"),
        Some(sort) => write_sort(out, sort),
    }
}
