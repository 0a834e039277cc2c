//! The statements of a sort, and those of the actual world.
ghost use Rattle.std.specs.Prelude.{◌≡◌, ◌<◌, ◌++◌, ◌∷◌, [], map, codes, length, OnOk};
ghost use Rattle.nxf_tree.specs.declared.tree.Formula.{Or};
ghost use Rattle.nxf_tree.specs.Shapes.{Name0};
ghost use Rattle.nxf_tree.specs.Problem.{sort_declarations};
ghost use Rattle.nxf_tree.specs.Text.{statement_text, formula_text, unit_text, terms_text};
ghost use Rattle.interpretation_text_definitions.specs.ElementNames as spelled;
ghost use Rattle.interpretation_text_definitions.specs.ElementNames.{element_names};
ghost use Rattle.interpretation_text_definitions.specs.InterpretationText as text;
ghost use Rattle.interpretation_text_definitions.specs.InterpretationText.{joined, is_element};
ghost use Rattle.interp_printer.specs.steps.Pieces.{lines_of, element_declarations, members, joined_text, closure_statement};

use crate::names::{element_name, open_statement, sort_at, write_element};
use nxf_base::Memory;
use nxf_tree::SortName;
use std::alloc::Global;
use text_writer::{put, put_between, write_name, write_sort};

/// The declaration of a sort; `$i` needs none.
fn declare_sort(alloc: Global, out: &mut Vec<u8>, sort: &SortName) -> Result<(), Memory>
    ensures { OnOk result (out.new.items ≡ out.old.items ++ lines_of (sort_declarations (sort.now ∷ []))) }
{
    match sort {
        SortName::Individual => Ok(()),
        SortName::User(name) => {
            open_statement(alloc, out, name, b"type")?;
            write_name(out, name)?;
            put(out, b": $tType).\n")
        }
    }
}

/// `tff(mk_w_0,type,mk_w_0: mk_world).`
fn declare_element(
    alloc: Global,
    out: &mut Vec<u8>,
    sorts: &[SortName],
    sort: usize,
    number: u32,
) -> Result<(), Memory>
    requires { sort < length sorts.now }
    ensures { OnOk result (out.new.items ≡ out.old.items ++ statement_text (text.element_declaration sorts.now sort number)) }
{
    let name = element_name(alloc, sorts, sort, number)?;
    open_statement(alloc, out, &name, b"type")?;
    write_name(out, &name)?;
    put(out, b": ")?;
    write_sort(out, sort_at(sorts, sort))?;
    put(out, b").\n")
}

fn declare_elements(
    alloc: Global,
    out: &mut Vec<u8>,
    sorts: &[SortName],
    sort: usize,
    size: u32,
) -> Result<(), Memory>
    requires { sort < length sorts.now }
    ensures { OnOk result (out.new.items ≡ out.old.items ++ lines_of (element_declarations sorts.now sort size)) }
{
    for number in 0..size {
        declare_element(alloc, out, sorts, sort, number)?;
    }
    Ok(())
}

/// `X = mk_w_0`
fn write_member(
    alloc: Global,
    out: &mut Vec<u8>,
    sorts: &[SortName],
    sort: usize,
    number: u32,
) -> Result<(), Memory>
    requires { sort < length sorts.now }
    ensures { OnOk result (out.new.items ≡ out.old.items ++ formula_text (is_element (spelled.element_name sorts.now sort number))) }
{
    put(out, b"X = ")?;
    write_element(alloc, out, sorts, sort, number)
}

/// `X = mk_w_0 | X = mk_w_1`
fn write_members(
    alloc: Global,
    out: &mut Vec<u8>,
    sorts: &[SortName],
    sort: usize,
    size: u32,
) -> Result<(), Memory>
    requires { sort < length sorts.now }
    ensures { OnOk result (out.new.items ≡ out.old.items ++ joined_text (codes " | ") (members sorts.now sort size)) }
{
    for number in 0..size {
        put_between(out, b" | ", number as usize)?;
        write_member(alloc, out, sorts, sort, number)?;
    }
    Ok(())
}

/// The members, in brackets unless there is one.
fn write_alternatives(
    alloc: Global,
    out: &mut Vec<u8>,
    sorts: &[SortName],
    sort: usize,
    size: u32,
) -> Result<(), Memory>
    requires { sort < length sorts.now }
    ensures { OnOk result (out.new.items ≡ out.old.items ++ unit_text (joined Or (members sorts.now sort size))) }
{
    if size == 1 {
        return write_members(alloc, out, sorts, sort, size);
    }
    put(out, b"( ")?;
    write_members(alloc, out, sorts, sort, size)?;
    put(out, b" )")
}

/// That there is no other element.
fn close_sort(
    alloc: Global,
    out: &mut Vec<u8>,
    sorts: &[SortName],
    sort: usize,
    size: u32,
) -> Result<(), Memory>
    requires { sort < length sorts.now }
    ensures { OnOk result (out.new.items ≡ out.old.items ++ statement_text (closure_statement sorts.now sort size)) }
{
    put(out, b"tff(mk_domain,axiom,! [X: ")?;
    write_sort(out, sort_at(sorts, sort))?;
    put(out, b"] : ")?;
    write_alternatives(alloc, out, sorts, sort, size)?;
    put(out, b").\n")
}

/// The elements of a sort, between commas.
fn write_elements(
    alloc: Global,
    out: &mut Vec<u8>,
    sorts: &[SortName],
    sort: usize,
    size: u32,
) -> Result<(), Memory>
    requires { sort < length sorts.now }
    ensures { OnOk result (out.new.items ≡ out.old.items ++ terms_text (map Name0 (element_names sorts.now sort size))) }
{
    for number in 0..size {
        put_between(out, b",", number as usize)?;
        write_element(alloc, out, sorts, sort, number)?;
    }
    Ok(())
}

/// That the elements differ, where there are two or more.
fn tell_apart(
    alloc: Global,
    out: &mut Vec<u8>,
    sorts: &[SortName],
    sort: usize,
    size: u32,
) -> Result<(), Memory>
    requires { sort < length sorts.now }
    ensures { OnOk result (out.new.items ≡ out.old.items ++ lines_of (text.distinct_statements sorts.now sort size)) }
{
    if size < 2 {
        return Ok(());
    }
    put(out, b"tff(mk_distinct,axiom,$distinct(")?;
    write_elements(alloc, out, sorts, sort, size)?;
    put(out, b")).\n")
}

/// The statements of a sort.
pub fn sort_statements(
    alloc: Global,
    out: &mut Vec<u8>,
    sorts: &[SortName],
    sort: usize,
    size: u32,
) -> Result<(), Memory>
    requires { sort < length sorts.now }
    ensures { OnOk result (out.new.items ≡ out.old.items ++ lines_of (text.sort_statements sorts.now sort size)) }
{
    declare_sort(alloc, out, sort_at(sorts, sort))?;
    declare_elements(alloc, out, sorts, sort, size)?;
    close_sort(alloc, out, sorts, sort, size)?;
    tell_apart(alloc, out, sorts, sort, size)
}

/// The statements of the actual world.
#[tactic(auto, unfolding(nxf_tree::specs::Names::actual_name, nxf_tree::specs::Names::world_name))]
pub fn actual_statements(
    alloc: Global,
    out: &mut Vec<u8>,
    sorts: &[SortName],
    world: u32,
) -> Result<(), Memory>
    requires { 0 < length sorts.now }
    ensures { OnOk result (out.new.items ≡ out.old.items ++ lines_of (text.actual_statements sorts.now world)) }
{
    put(out, b"tff(mk_actual,type,mk_actual: mk_world).\n")?;
    put(out, b"tff(mk_actual,axiom,mk_actual = ")?;
    write_element(alloc, out, sorts, 0, world)?;
    put(out, b").\n")
}
