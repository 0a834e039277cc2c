//! Closures: each sort has one at most, and each name is listed once at most.
ghost use Rattle.std.specs.Prelude.{◌≡◌, ◌<◌, [], length, IfOk, OnOk};
ghost use Rattle.std.specs.List.{list_any};
ghost use Rattle.indexmap.specs.IndexSet.{insert_all, insert_key};
ghost use Rattle.nxf_tree.specs.Names.{same_text};
ghost use Rattle.interpretation_definitions.specs.Context.{listed_under};
ghost use Rattle.interpretation_definitions.specs.Parts.{Closes};
ghost use Rattle.interpretation_definitions.specs.Judging as judging;
ghost use Rattle.interpretation_definitions.specs.Judging.{is_constant_of, listing_clash, symbol_of_another};
ghost use Rattle.interpretation_parts.specs.steps.Closed.{AreNoted, JudgesClosure, Lists, TellsListed};
ghost use Rattle.interpretation_parts.specs.steps.Entries.{entry_in};
ghost use Rattle.interpretation_parts.specs.steps.Held.{context_in, listings_in};
ghost use Rattle.interpretation_parts.specs.steps.Readings.{texts};
ghost use Rattle.interpretation_parts.specs.steps.Tables.{repeated};

use crate::context::Context;
use crate::judge::{PartError, clash_error};
use indexmap::IndexSet;
use interpretation_definitions::PartFault;
use nxf_base::{Memory, Text};
use nxf_tree::{SortName, TableEntry};
use std::alloc::Global;

/// The names that closures listed so far, and for each sort whether it had a closure.
#[derive(Drop)]
pub struct Closures {
    pub listed: IndexSet<Text>,
    pub closed: Vec<bool>,
}

impl Closures {
    /// Before any closure.
    pub fn new(alloc: Global, context: &Context) -> Result<Closures, Memory>
        ensures noted { IfOk result (λ closures. AreNoted [] closures) }
        ensures count { IfOk result (λ closures. length closures.closed.items ≡ length context.now.known.over.now.sorts) }
    {
        let closed = vec![in alloc; false; context.known.sort_count()]?;
        Ok(Closures {
            listed: IndexSet::new(alloc),
            closed,
        })
    }
}

/// Adds a name, and answers whether it was there before.
fn note_name(listed: &mut IndexSet<Text>, name: Text) -> Result<bool, Memory>
    ensures known { IfOk result (λ known. known ≡ list_any (same_text name) listed.old.keys) }
    ensures keys { OnOk result (listed.new.keys ≡ insert_key same_text listed.old.keys name) }
{
    let known = listed.contains(&name);
    listed.insert(name)?;
    Ok(known)
}

/// Adds the names, and answers whether one was there before, or stands twice among them.
fn note_names(alloc: Global, listed: &mut IndexSet<Text>, names: &[&Text]) -> Result<bool, Memory>
    ensures repeat { IfOk result (λ repeat. repeat ≡ repeated listed.old.keys (texts names.now)) }
    ensures listed { OnOk result (listed.new.keys ≡ insert_all same_text listed.old.keys (texts names.now)) }
{
    let mut repeat = false;
    for name in names {
        let copy = name.copy(alloc)?;
        let known = note_name(listed, copy)?;
        repeat |= known;
    }
    Ok(repeat)
}

/// Whether a symbol is another thing than a constant of the sort.
fn is_of_another(sort: u32, symbol: Option<(u32, &TableEntry)>) -> bool
    ensures { result ≡ symbol_of_another sort (entry_in symbol.entry) }
{
    match symbol {
        None => false,
        Some((_, entry)) => !is_constant(sort, entry.args.as_slice(), entry.gives),
    }
}

fn is_constant(sort: u32, args: &[u32], gives: Option<u32>) -> bool
    ensures { result ≡ is_constant_of sort args.now gives }
{
    match gives {
        None => false,
        Some(gives) => args.is_empty() && gives == sort,
    }
}

/// Whether one of the names is known as another thing than a constant of the sort.
fn any_taken(context: &Context, sort: u32, names: &[&Text]) -> bool
    ensures { result ≡ list_any (judging.is_taken (context_in context.now) sort) (texts names.now) }
{
    let mut any = false;
    for name in names {
        any = any || context.known.is_sort(name) || is_of_another(sort, context.known.entry(name));
    }
    any
}

/// Whether the sort of a closure is extra.
fn is_extra_sort(context: &Context, sort: &SortName) -> bool
    ensures { result ≡ judging.extra_sort (context_in context.now) sort.now }
{
    match sort {
        SortName::Individual => false,
        SortName::User(name) => context.is_extra(name),
    }
}

/// Notes a closure of a known sort, and answers whether it clashes.
fn close(
    alloc: Global,
    context: &Context,
    closures: &mut Closures,
    sort: u32,
    names: &[&Text],
) -> Result<bool, Memory>
    requires { sort < length closures.old.closed.items }
    ensures clash { TellsListed closures.old (λ before. listing_clash (context_in context.now) before sort (texts names.now)) result }
    ensures noted { Lists result closures.old (listed_under (Some sort) (texts names.now)) closures.new }
    ensures count { length closures.new.closed.items ≡ length closures.old.closed.items }
{
    let closed = closures.closed[sort as usize];
    let repeat = note_names(alloc, &mut closures.listed, names)?;
    closures.closed[sort as usize] = closed | !names.is_empty();
    Ok((closed | repeat) | any_taken(context, sort, names))
}

/// Judges a closure, and notes what it lists.
pub fn judge_closure(
    alloc: Global,
    context: &Context,
    closures: &mut Closures,
    sort: &SortName,
    names: &[&Text],
) -> Result<(), PartError>
    requires { length closures.old.closed.items ≡ length context.now.known.over.now.sorts }
    ensures judged { JudgesClosure context.now closures.old sort.now (texts names.now) result }
    ensures noted { Lists result closures.old (listings_in context.now (Closes sort.now (texts names.now))) closures.new }
    ensures count { length closures.new.closed.items ≡ length closures.old.closed.items }
{
    if is_extra_sort(context, sort) {
        return Ok(());
    }
    match context.known.sort(sort) {
        None => Err(PartError::Fault(PartFault::UnknownSymbol)),
        Some(number) => match close(alloc, context, closures, number, names) {
            Err(Memory) => Err(PartError::Memory),
            Ok(clash) => clash_error(clash),
        },
    }
}
