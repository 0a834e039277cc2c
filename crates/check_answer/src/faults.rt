//! How messages name a condition that fails.
ghost use Rattle.std.specs.Prelude.{◌≡◌, ◌⊎◌, IfOk};
ghost use Rattle.nxf_tree.specs.Signature.{sort_at};
ghost use Rattle.fin_struct.specs.FirstFault.{index_at};
ghost use Rattle.answer_definitions.specs.FaultNames.{fails_of, index_words, sort_words, scheme_words, symbol_words};

use fin_struct::Condition;
use nxf_base::{Fails, Memory, Status, Text};
use nxf_tree::{IndexName, Scheme, Signature, SortName};
use std::alloc::Global;

/// The status in which a condition is named that fails, with the names that the signature has for its numbers, or want of memory
/// for these.
pub fn not_countermodel(alloc: Global, over: &Signature, fault: Condition) -> Status
    ensures { result ≡ Status.NotCountermodel (fails_of over.now fault) ⊎ result ≡ Status.Memory }
{
    match named(alloc, over, fault) {
        Ok(fails) => Status::NotCountermodel(fails),
        Err(Memory) => Status::Memory,
    }
}

/// A condition, by the names of the signature.
fn named(alloc: Global, over: &Signature, fault: Condition) -> Result<Fails, Memory>
    ensures { IfOk result (λ fails. fails ≡ fails_of over.now fault) }
{
    match fault {
        Condition::Frame(index, scheme) => {
            let index = index_text(alloc, over, index)?;
            let scheme = Text::from_bytes(alloc, scheme_word(scheme))?;
            Ok(Fails::Frame(index, scheme))
        }
        Condition::Empty(sort) => Ok(Fails::Empty(sort_text(alloc, over, sort)?)),
        Condition::Union(sort) => Ok(Fails::Union(sort_text(alloc, over, sort)?)),
        Condition::Monotone(sort, index) => {
            let sort = sort_text(alloc, over, sort)?;
            let index = index_text(alloc, over, index)?;
            Ok(Fails::Monotone(sort, index))
        }
        Condition::Local(symbol) => Ok(Fails::Local(symbol_text(alloc, over, symbol)?)),
        Condition::Premise(place) => Ok(Fails::Premise(place)),
        Condition::Conjecture(place) => Ok(Fails::Conjecture(place)),
    }
}

/// `[#a]` for the named index with the number, else `[.]`.
fn index_text(alloc: Global, over: &Signature, index: u32) -> Result<Text, Memory>
    ensures { IfOk result (λ text. text ≡ index_words (index_at over.now.indexes index)) }
{
    match over.indexes.as_slice().get(index as usize) {
        Some(entry) => index_name_text(alloc, &entry.name),
        None => Text::from_bytes(alloc, b"[.]"),
    }
}

fn index_name_text(alloc: Global, name: &IndexName) -> Result<Text, Memory>
    ensures { IfOk result (λ text. text ≡ index_words name.now) }
{
    match name {
        IndexName::Plain => Text::from_bytes(alloc, b"[.]"),
        IndexName::Named(name) => {
            let front = Text::joined(alloc, b"[#", name.bytes())?;
            Text::joined(alloc, front.bytes(), b"]")
        }
    }
}

/// The name of the user's sort with the number, else `$i`.
fn sort_text(alloc: Global, over: &Signature, sort: u32) -> Result<Text, Memory>
    ensures { IfOk result (λ text. text ≡ sort_words (sort_at over.now.sorts sort)) }
{
    match over.sorts.as_slice().get(sort as usize) {
        Some(entry) => sort_name_text(alloc, &entry.name),
        None => Text::from_bytes(alloc, b"$i"),
    }
}

fn sort_name_text(alloc: Global, name: &SortName) -> Result<Text, Memory>
    ensures { IfOk result (λ text. text ≡ sort_words name.now) }
{
    match name {
        SortName::Individual => Text::from_bytes(alloc, b"$i"),
        SortName::User(name) => name.copy(alloc),
    }
}

/// The name of the symbol with the number.
fn symbol_text(alloc: Global, over: &Signature, symbol: u32) -> Result<Text, Memory>
    ensures { IfOk result (λ text. text ≡ symbol_words over.now.symbols symbol) }
{
    match over.symbols.as_slice().get(symbol as usize) {
        Some(entry) => entry.name.copy(alloc),
        None => Text::from_bytes(alloc, b""),
    }
}

fn scheme_word(scheme: Scheme) -> &'static [u8]
    ensures { result.now ≡ scheme_words scheme }
{
    match scheme {
        Scheme::T => b"T",
        Scheme::D => b"D",
        Scheme::B => b"B",
        Scheme::Four => b"4",
        Scheme::Five => b"5",
        Scheme::CD => b"CD",
        Scheme::BoxM => b"BoxM",
        Scheme::C4 => b"C4",
        Scheme::C => b"C",
        Scheme::U => b"U",
    }
}
