//! The parts of a file are judged one after the other, up to the first that has a fault.
ghost use Rattle.std.specs.Prelude.{◌≡◌, [], length, Err, None, Option, OnOk, IfErr};
ghost use Rattle.std.specs.Option.{option_map};
ghost use Rattle.interpretation_definitions.specs.declared.fault.PartFault.{PartFault as Fault};
ghost use Rattle.interpretation_definitions.specs.Interpretation.{kind_of};
ghost use Rattle.interpretation_parts.specs.steps.After.{AddsPart, IsAfter, JudgesPart, RefusesFault};
ghost use Rattle.interpretation_parts.specs.steps.Held.{context_in, Judges};
ghost use Rattle.interpretation_parts.specs.steps.Items.{items_in, item_fault, parts_in_items};
ghost use Rattle.interpretation_parts.specs.steps.Readings.{reading_part};

use crate::closures::{Closures, judge_closure};
use crate::context::Context;
use crate::declarations::declaration_clashes;
use crate::disequations::{judge_differ, judge_distinct};
use crate::items::Item;
use crate::judge::{PartError, clash_error, judge_atom, judge_equation};
use crate::key::Key;
use crate::reading::{Reading, read_item};
use indexmap::IndexMap;
use interpretation_definitions::{InterpError, PartFault};
use nxf_base::{InterpKind, Memory};
use std::alloc::Global;

/// Judges a part with those before it, and notes what it states and lists.
fn judge_part(
    alloc: Global,
    context: &Context,
    rows: &mut IndexMap<Key, u32>,
    closures: &mut Closures,
    reading: &Reading,
) -> Result<(), PartError>
    requires { length closures.old.closed.items ≡ length context.now.known.over.now.sorts }
    ensures judged { JudgesPart context.now rows.old.entries closures.old (reading_part reading.now) result }
    ensures after { AddsPart result context.now (reading_part reading.now) rows.old.entries closures.old rows.new.entries closures.new }
    ensures count { length closures.new.closed.items ≡ length closures.old.closed.items }
{
    match reading {
        Reading::Formless => Err(PartError::Fault(PartFault::Form)),
        Reading::Declares(typing) => clash_error(declaration_clashes(context, typing)),
        Reading::Closes(sort, names) => {
            judge_closure(alloc, context, closures, sort, names.as_slice())
        }
        Reading::Applies(truth, name, terms) => {
            let symbol = context.known.entry(name);
            judge_atom(alloc, context, rows, symbol, *truth, name, terms)
        }
        Reading::Equates(name, terms, value) => {
            let symbol = context.known.entry(name);
            judge_equation(alloc, context, rows, symbol, name, terms, value)
        }
        Reading::Differs(left, right) => judge_differ(context, left, right),
        Reading::AllDiffer(terms) => judge_distinct(alloc, context, terms),
        Reading::SaysNothing => Ok(()),
    }
}

/// The refusal of a statement with this fault, or want of memory.
fn refused(statement: u32, error: PartError) -> InterpError
    ensures { (fault : Option Fault) → Judges fault (Err error) → RefusesFault (option_map (λ f. (statement, f)) fault) result }
{
    match error {
        PartError::Memory => InterpError::Memory,
        PartError::Fault(fault) => InterpError::Kind(kind_of_fault(statement, fault)),
    }
}

fn kind_of_fault(statement: u32, fault: PartFault) -> InterpKind
    ensures { result ≡ kind_of statement fault }
{
    match fault {
        PartFault::Form => InterpKind::Form(statement),
        PartFault::UnknownSymbol => InterpKind::UnknownSymbol(statement),
        PartFault::UnknownElement => InterpKind::UnknownElement(statement),
        PartFault::Clash => InterpKind::Clash(statement),
    }
}

/// Judges the parts in their order, and notes what they state and list.
pub fn judge_items(
    alloc: Global,
    context: &Context,
    rows: &mut IndexMap<Key, u32>,
    closures: &mut Closures,
    items: &[Item],
) -> Result<(), InterpError>
    requires { IsAfter (context_in context.now) rows.old.entries closures.old [] }
    ensures judged { OnOk result (item_fault (context_in context.now) [] (items_in items.now) ≡ None) }
    ensures after { OnOk result (IsAfter (context_in context.now) rows.new.entries closures.new (parts_in_items items.now)) }
    ensures refused { IfErr result (RefusesFault (item_fault (context_in context.now) [] (items_in items.now))) }
{
    for item in items {
        let reading = read_item(alloc, item.said)?;
        match judge_part(alloc, context, rows, closures, &reading) {
            Ok(()) => {}
            Err(error) => return Err(refused(item.statement, error)),
        }
    }
    Ok(())
}
