//! A whole file is read.
ghost use Rattle.std.specs.Prelude.{◌≡◌, ◌+◌, ◌<◌, ◌^◌, ◌↔◌, [], length, None, Ok, IfErr, IfOk, IsTrue, OnOk};
ghost use Rattle.classical_signature_laws.specs.ClassicalSignatures.{HasSorts};
ghost use Rattle.fin_struct.specs.StructureTables.{IsFor};
ghost use Rattle.interpretation_definitions.specs.Context.{context_of};
ghost use Rattle.interpretation_definitions.specs.Given.{given_by};
ghost use Rattle.interpretation_definitions.specs.Interpretation as meant;
ghost use Rattle.interpretation_definitions.specs.Interpretation.{interpretation_of};
ghost use Rattle.interpretation_parts.specs.steps.After.{RefusesFault};
ghost use Rattle.interpretation_parts.specs.steps.Held.{context_in, HasRows};
ghost use Rattle.interpretation_parts.specs.steps.Items.{item_fault, items_in, parts_in_items};
ghost use Rattle.interp_reader.specs.Refusals.{Refuses};

use crate::fill::fill;
use crate::own::own_rows;
use crate::sizes::sizes_of;
use fin_struct::Structure;
use indexmap::IndexMap;
use interpretation_definitions::InterpError;
use interpretation_parts::{
    Closures, Context, Item, Key, Known, Said, items_of, judge_items, said_by,
};
use nxf_base::{List, Memory};
use nxf_tree::{ClassicalSignature, File};
use std::alloc::Global;

/// Whether the sorts, and the symbols with `mk_actual`, can be numbered by 32 bits.
fn can_number(over: &ClassicalSignature) -> bool
    ensures { IsTrue result ↔ ((length over.now.sorts < 2 ^ 32) × (length over.now.tables + 1 < 2 ^ 32)) }
{
    over.sorts.len() <= 0xFFFF_FFFF && over.tables.len() < 0xFFFF_FFFF
}

/// What statements are judged against, and the size of each sort.
#[derive(Drop)]
struct Frame<'a> {
    context: Context<'a>,
    sizes: List<u32>,
}

/// What the items of a file list and declare.
fn frame_of<'a>(
    alloc: Global,
    over: &'a ClassicalSignature,
    items: &[Item],
) -> Result<Frame<'a>, Memory>
    requires sorts { length over.now.sorts < 2 ^ 32 }
    requires tables { length over.now.tables + 1 < 2 ^ 32 }
    ensures context { IfOk result (λ frame. context_in frame.context ≡ context_of over.now (parts_in_items items.now)) }
    ensures sizes { IfOk result (λ frame. frame.sizes ≡ meant.sizes_of (context_of over.now (parts_in_items items.now))) }
{
    let known = Known::of(alloc, over)?;
    let Said {
        elements,
        counts,
        declared,
    } = said_by(alloc, &known, items)?;
    let sizes = sizes_of(alloc, counts.as_slice())?;
    let context = Context {
        known,
        elements,
        declared,
    };
    Ok(Frame { context, sizes })
}

/// The rows that the items give, or the refusal of the first that has a fault.
fn rows_of(
    alloc: Global,
    context: &Context,
    items: &[Item],
) -> Result<IndexMap<Key, u32>, InterpError>
    ensures judged { OnOk result (item_fault (context_in context.now) [] (items_in items.now) ≡ None) }
    ensures rows { IfOk result (λ rows. HasRows rows.entries (given_by (context_in context.now) (parts_in_items items.now))) }
    ensures refused { IfErr result (RefusesFault (item_fault (context_in context.now) [] (items_in items.now))) }
{
    let mut rows = own_rows(alloc, context)?;
    let mut closures = Closures::new(alloc, context)?;
    judge_items(alloc, context, &mut rows, &mut closures, items)?;
    Ok(rows)
}

/// The structure that an interpretation gives over a classical signature. Statements are judged in their order, each with
/// the closures and declarations of the whole file, and the first that has a fault is named by its number, counted from 1;
/// then come the limits of structures, and then the first symbol of which some rows are given and others aren't. There is
/// no other error than want of memory.
pub fn read(alloc: Global, over: &ClassicalSignature, file: &File) -> Result<Structure, InterpError>
    requires sorts { HasSorts over.now }
    requires statements { length file.now.statements < 2 ^ 31 }
    ensures exact { IfOk result (λ structure. interpretation_of over.now file.now ≡ Ok structure) }
    ensures over { IfOk result (IsFor over.now) }
    ensures refused { IfErr result (Refuses (interpretation_of over.now file.now)) }
{
    if !can_number(over) {
        return Err(InterpError::Memory);
    }
    let items = items_of(alloc, file.statements.as_slice())?;
    let frame = frame_of(alloc, over, items.as_slice())?;
    let rows = rows_of(alloc, &frame.context, items.as_slice())?;
    fill(alloc, over, &frame.sizes, &rows)
}
