//! What the whole of a file says before its statements are judged: the elements that closures list, and the names that
//! type statements declare.
ghost use Rattle.std.specs.Prelude.{◌≡◌, ◌∷◌, [], ◌++◌, ◌<◌, map, length, IfOk, OnOk};
ghost use Rattle.indexmap.specs.IndexSet.{insert_all};
ghost use Rattle.nxf_tree.specs.Names.{same_text};
ghost use Rattle.std.specs.List.{list_any, list_all};
ghost use Rattle.interpretation_definitions.specs.Parts.{Part, argument};
ghost use Rattle.interpretation_definitions.specs.Given.{element_of, numbers_of};
ghost use Rattle.interpretation_definitions.specs.Judging as judging;
ghost use Rattle.interpretation_definitions.specs.Judging.{is_plain, is_unlisted, sorts_of};
ghost use Rattle.interpretation_parts.specs.steps.Held.{context_in, elements_after, elements_in, numbers_in, one_of};
ghost use Rattle.interpretation_definitions.specs.Context as spec;
ghost use Rattle.interpretation_definitions.specs.Context.{and_listing, and_listings, declared_by, elements_listed, names_declared};
ghost use Rattle.interpretation_parts.specs.steps.Readings.{lent_under, reading_part};
ghost use Rattle.interpretation_parts.specs.steps.Items.{parts_in_items};
ghost use Rattle.interpretation_parts.specs.steps.Tables.{Counted};

use crate::argument::{head, plain};
use crate::items::Item;
use crate::known::Known;
use crate::reading::{Reading, read_item};
use indexmap::{IndexMap, IndexSet};
use interpretation_definitions::Element;
use nxf_base::{Memory, Text};
use nxf_tree::{Term, Typing};
use std::alloc::Global;

/// Lists a name for a sort, unless it was listed before.
fn note_listing(
    alloc: Global,
    elements: &mut IndexMap<Text, Element>,
    counts: &mut Vec<u32>,
    name: &Text,
    sort: u32,
) -> Result<(), Memory>
    requires sort_in { sort < length counts.old.items }
    requires counted { Counted elements.old.entries counts.old.items }
    ensures elements { OnOk result (elements.new.entries ≡ and_listing elements.old.entries (name.now, sort)) }
    ensures counted { OnOk result (Counted elements.new.entries counts.new.items) }
    ensures length { length counts.new.items ≡ length counts.old.items }
{
    match elements.get(name) {
        Some(_) => Ok(()),
        None => {
            let number = counts[sort as usize];
            if number == u32::MAX {
                return Err(Memory);
            }
            elements.insert(name.copy(alloc)?, Element { sort, number })?;
            counts[sort as usize] = number + 1;
            Ok(())
        }
    }
}

/// Lists names for a sort.
fn note_listings(
    alloc: Global,
    elements: &mut IndexMap<Text, Element>,
    counts: &mut Vec<u32>,
    names: &[&Text],
    sort: u32,
) -> Result<(), Memory>
    requires sort_in { sort < length counts.old.items }
    requires counted { Counted elements.old.entries counts.old.items }
    ensures elements { OnOk result (elements.new.entries ≡ and_listings elements.old.entries (lent_under sort names.now)) }
    ensures counted { OnOk result (Counted elements.new.entries counts.new.items) }
    ensures length { length counts.new.items ≡ length counts.old.items }
{
    for name in names {
        note_listing(alloc, elements, counts, name, sort)?;
    }
    Ok(())
}

/// Adds a text behind those that were seen before, unless it is among them.
fn note_text(alloc: Global, texts: &mut IndexSet<Text>, text: &Text) -> Result<(), Memory>
    ensures { OnOk result (texts.new.keys ≡ insert_all same_text texts.old.keys (text.now ∷ [])) }
{
    if !texts.contains(text) {
        texts.insert(text.copy(alloc)?)?;
    }
    Ok(())
}

/// Adds the name that a typing declares.
fn note_typing(alloc: Global, texts: &mut IndexSet<Text>, typing: &Typing) -> Result<(), Memory>
    ensures { OnOk result (texts.new.keys ≡ insert_all same_text texts.old.keys (declared_by (Part.Declares typing.now))) }
{
    match typing {
        Typing::Individual => Ok(()),
        Typing::Sort(name) => note_text(alloc, texts, name),
        Typing::Symbol(name, _, _) => note_text(alloc, texts, name),
    }
}

/// Adds what a part lists.
fn note_closure(
    alloc: Global,
    known: &Known,
    elements: &mut IndexMap<Text, Element>,
    counts: &mut Vec<u32>,
    reading: &Reading,
) -> Result<(), Memory>
    requires sorts { length counts.old.items ≡ length known.now.over.now.sorts }
    requires counted { Counted elements.old.entries counts.old.items }
    ensures elements { OnOk result (elements.new.entries ≡ elements_after known.now elements.old.entries (reading_part reading.now)) }
    ensures counted { OnOk result (Counted elements.new.entries counts.new.items) }
    ensures length { length counts.new.items ≡ length counts.old.items }
{
    match reading {
        Reading::Closes(sort, names) => match known.sort(sort) {
            Some(number) => note_listings(alloc, elements, counts, names.as_slice(), number),
            None => Ok(()),
        },
        Reading::Formless => Ok(()),
        Reading::Declares(_) => Ok(()),
        Reading::Applies(_, _, _) => Ok(()),
        Reading::Equates(_, _, _) => Ok(()),
        Reading::Differs(_, _) => Ok(()),
        Reading::AllDiffer(_) => Ok(()),
        Reading::SaysNothing => Ok(()),
    }
}

/// Adds what a part declares.
fn note_declaration(
    alloc: Global,
    texts: &mut IndexSet<Text>,
    reading: &Reading,
) -> Result<(), Memory>
    ensures { OnOk result (texts.new.keys ≡ insert_all same_text texts.old.keys (declared_by (reading_part reading.now))) }
{
    match reading {
        Reading::Declares(typing) => note_typing(alloc, texts, typing),
        Reading::Closes(_, _) => Ok(()),
        Reading::Formless => Ok(()),
        Reading::Applies(_, _, _) => Ok(()),
        Reading::Equates(_, _, _) => Ok(()),
        Reading::Differs(_, _) => Ok(()),
        Reading::AllDiffer(_) => Ok(()),
        Reading::SaysNothing => Ok(()),
    }
}

/// What the whole of a file says: the elements that its closures list, how many each sort has, and the names that its type
/// statements declare.
pub struct Said {
    pub elements: IndexMap<Text, Element>,
    pub counts: Vec<u32>,
    pub declared: IndexSet<Text>,
}

/// What the items of a file say.
pub fn said_by(alloc: Global, known: &Known, items: &[Item]) -> Result<Said, Memory>
    ensures elements { IfOk result (λ said. said.elements.entries ≡ elements_listed known.now.over.now.sorts (parts_in_items items.now)) }
    ensures counted { IfOk result (λ said. Counted said.elements.entries said.counts.items) }
    ensures length { IfOk result (λ said. length said.counts.items ≡ length known.now.over.now.sorts) }
    ensures declared { IfOk result (λ said. said.declared.keys ≡ names_declared (parts_in_items items.now)) }
{
    let mut elements = IndexMap::new(alloc);
    let mut counts = vec![in alloc; 0; known.sort_count()]?;
    let mut declared = IndexSet::new(alloc);
    for item in items {
        let reading = read_item(alloc, item.said)?;
        note_closure(alloc, known, &mut elements, &mut counts, &reading)?;
        note_declaration(alloc, &mut declared, &reading)?;
    }
    Ok(Said {
        elements,
        counts,
        declared,
    })
}

/// What the statements of a file are judged against.
#[derive(Drop)]
pub struct Context<'a> {
    pub known: Known<'a>,
    pub elements: IndexMap<Text, Element>,
    pub declared: IndexSet<Text>,
}

impl<'a> Context<'a> {
    /// The element that a name stands for.
    pub fn element(&self, name: &Text) -> Option<Element>
        ensures { result ≡ spec.element (context_in self.now) name.now }
    {
        self.elements.get(name).copied()
    }

    /// The element that a term names.
    pub fn element_of(&self, term: &Term) -> Option<Element>
        ensures { result ≡ element_of (context_in self.now) (argument term.now) }
    {
        match plain(term) {
            Some(name) => self.element(name),
            None => None,
        }
    }

    /// Whether a name is that of a sort or of a symbol.
    pub fn is_known(&self, name: &Text) -> bool
        ensures { result ≡ spec.is_known (context_in self.now) name.now }
    {
        self.known.symbol(name).is_some() || self.known.is_sort(name)
    }

    /// Whether a name is extra.
    pub fn is_extra(&self, name: &Text) -> bool
        ensures { result ≡ spec.is_extra (context_in self.now) name.now }
    {
        self.declared.contains(name) && !self.is_known(name) && self.element(name).is_none()
    }

    /// Whether the symbol at the head of a term is extra.
    pub fn has_extra_head(&self, term: &Term) -> bool
        ensures { result ≡ judging.has_extra_head (context_in self.now) (argument term.now) }
    {
        match head(term) {
            Some(name) => self.is_extra(name),
            None => false,
        }
    }

    /// Whether one of the terms names no element.
    pub fn any_unlisted(&self, terms: &[Term]) -> bool
        ensures { result ≡ list_any (is_unlisted (context_in self.now)) (map argument terms.now) }
    {
        let mut any = false;
        for term in terms {
            any = any || self.element_of(term).is_none();
        }
        any
    }

    /// Appends the sorts and the numbers of the elements that the terms name.
    pub fn push_elements(
        &self,
        terms: &[Term],
        sorts: &mut Vec<u32>,
        numbers: &mut Vec<u32>,
    ) -> Result<(), Memory>
        ensures sorts { OnOk result (sorts.new.items ≡ sorts.old.items ++ sorts_of (elements_in self.now terms.now)) }
        ensures numbers { OnOk result (numbers.new.items ≡ numbers.old.items ++ numbers_in self.now terms.now) }
    {
        for term in terms {
            push_element(self.element_of(term), sorts, numbers)?;
        }
        Ok(())
    }
}

fn push_element(
    element: Option<Element>,
    sorts: &mut Vec<u32>,
    numbers: &mut Vec<u32>,
) -> Result<(), Memory>
    ensures sorts { OnOk result (sorts.new.items ≡ sorts.old.items ++ sorts_of (one_of element)) }
    ensures numbers { OnOk result (numbers.new.items ≡ numbers.old.items ++ numbers_of (one_of element)) }
{
    match element {
        Some(element) => {
            sorts.push(element.sort)?;
            numbers.push(element.number)?;
            Ok(())
        }
        None => Ok(()),
    }
}

/// Whether each term is a plain name.
pub fn all_plain(terms: &[Term]) -> bool
    ensures { result ≡ list_all is_plain (map argument terms.now) }
{
    let mut all = true;
    for term in terms {
        all = all && plain(term).is_some();
    }
    all
}
