//! `!=` and `$distinct`: elements that have to be of one sort and to differ.
ghost use Rattle.std.specs.Prelude.{◌≡◌, [], ◌∷◌, ◌++◌, not, map, IfOk, OnOk};
ghost use Rattle.interpretation_definitions.specs.Judging as judging;
ghost use Rattle.interpretation_definitions.specs.Judging.{differ_clash, distinct_fault, pair_fault, same_element, two_sorts};
ghost use Rattle.interpretation_definitions.specs.Parts.{argument};
ghost use Rattle.indexmap.specs.IndexSet.{insert_key};
ghost use Rattle.nxf_tree.specs.Counting.{all_different};
ghost use Rattle.nxf_tree.specs.Names.{same_text};
ghost use Rattle.std.specs.List.{list_any};
ghost use Rattle.interpretation_parts.specs.steps.Held.{context_in, elements_in, Judges, one_of};

use crate::argument::plain;
use crate::context::{Context, all_plain};
use crate::judge::{PartError, clash_error, early};
use crate::key::Key;
use indexmap::IndexSet;
use interpretation_definitions::Element;
use nxf_base::Memory;
use nxf_tree::Term;
use std::alloc::Global;

/// Appends the element, if there is one.
fn push_one(element: Option<Element>, elements: &mut Vec<Element>) -> Result<(), Memory>
    ensures { OnOk result (elements.new.items ≡ elements.old.items ++ one_of element) }
{
    match element {
        Some(element) => {
            elements.push(element)?;
            Ok(())
        }
        None => Ok(()),
    }
}

/// The elements that the terms name.
fn named(alloc: Global, context: &Context, terms: &[Term]) -> Result<Vec<Element>, Memory>
    ensures { IfOk result (λ named. named.items ≡ elements_in context.now terms.now) }
{
    let mut named = Vec::new(alloc);
    for term in terms {
        push_one(context.element_of(term), &mut named)?;
    }
    Ok(named)
}

/// Whether one of the elements is of another sort than the first.
fn are_of_two_sorts(elements: &[Element]) -> bool
    ensures { result ≡ two_sorts elements.now }
{
    match elements.first() {
        None => false,
        Some(first) => {
            let sort = first.sort;
            let mut two = false;
            for element in elements {
                two = two || element.sort != sort;
            }
            two
        }
    }
}

/// The key of an element.
fn key_of(alloc: Global, element: Element) -> Result<Key, Memory>
    ensures { IfOk result (λ key. key ≡ element.sort ∷ element.number ∷ []) }
{
    let mut numbers = Vec::with_capacity(alloc, 2)?;
    numbers.push(element.sort)?;
    numbers.push(element.number)?;
    Ok(Key::of(numbers))
}

/// Adds a key, and answers whether it was there before.
fn note_key(seen: &mut IndexSet<Key>, key: Key) -> Result<bool, Memory>
    ensures known { IfOk result (λ known. known ≡ list_any (same_text key) seen.old.keys) }
    ensures keys { OnOk result (seen.new.keys ≡ insert_key same_text seen.old.keys key) }
{
    let known = seen.contains(&key);
    seen.insert(key)?;
    Ok(known)
}

/// Whether an element is named twice.
fn has_repeat(alloc: Global, elements: &[Element]) -> Result<bool, Memory>
    ensures { IfOk result (λ repeat. repeat ≡ not (all_different same_element elements.now)) }
{
    let mut seen = IndexSet::new(alloc);
    let mut repeat = false;
    for element in elements {
        let key = key_of(alloc, *element)?;
        let known = note_key(&mut seen, key)?;
        repeat |= known;
    }
    Ok(repeat)
}

/// Whether the elements clash.
fn clash(alloc: Global, elements: &[Element]) -> Result<bool, Memory>
    ensures { IfOk result (λ clash. clash ≡ differ_clash elements.now) }
{
    let repeat = has_repeat(alloc, elements)?;
    Ok(are_of_two_sorts(elements) || repeat)
}

/// Judges `$distinct`.
pub fn judge_distinct(alloc: Global, context: &Context, terms: &[Term]) -> Result<(), PartError>
    ensures { Judges (distinct_fault (context_in context.now) (map argument terms.now)) result }
{
    if any_extra_head(context, terms) {
        return Ok(());
    }
    match early(!all_plain(terms), false, context.any_unlisted(terms)) {
        Some(fault) => Err(PartError::Fault(fault)),
        None => match named(alloc, context, terms) {
            Err(Memory) => Err(PartError::Memory),
            Ok(elements) => match clash(alloc, elements.as_slice()) {
                Err(Memory) => Err(PartError::Memory),
                Ok(clash) => clash_error(clash),
            },
        },
    }
}

fn any_extra_head(context: &Context, terms: &[Term]) -> bool
    ensures { result ≡ list_any (judging.has_extra_head (context_in context.now)) (map argument terms.now) }
{
    let mut any = false;
    for term in terms {
        any = any || context.has_extra_head(term);
    }
    any
}

/// Whether two elements are of two sorts, or one.
fn two_clash(left: Option<Element>, right: Option<Element>) -> bool
    ensures { result ≡ differ_clash (one_of left ++ one_of right) }
{
    match left {
        None => false,
        Some(left) => match right {
            None => false,
            Some(right) => left.sort != right.sort || left.number == right.number,
        },
    }
}

/// Judges `!=`.
pub fn judge_differ(context: &Context, left: &Term, right: &Term) -> Result<(), PartError>
    ensures { Judges (pair_fault (context_in context.now) (argument left.now) (argument right.now)) result }
{
    if context.has_extra_head(left) {
        return Ok(());
    }
    let form = plain(left).is_none() || plain(right).is_none();
    let unlisted = context.element_of(left).is_none() || context.element_of(right).is_none();
    match early(form, false, unlisted) {
        Some(fault) => Err(PartError::Fault(fault)),
        None => clash_error(two_clash(context.element_of(left), context.element_of(right))),
    }
}
