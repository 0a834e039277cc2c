//! The first fault of a logic statement.

ghost use Rattle.std.specs.Prelude.{◌≡◌, OnOk, Some, ◌++◌, ◌∷◌, []};
ghost use Rattle.std.specs.List.{list_all};
ghost use Rattle.std.specs.Option.{option_map};
ghost use Rattle.nxf_base.specs.declared.status.SpecKind.TheVariants.{UnknownKey, DuplicateKey, UnknownValue};
ghost use Rattle.nxf_tree.specs.declared.tree.SpecKey.TheVariants.{Dollar};
ghost use Rattle.nxf_tree.specs.declared.tree.SpecItem.{SpecItem as AnyItem, out-SpecItem};
ghost use Rattle.nxf_tree.specs.declared.tree.SpecItem.TheOpen as open_item;
ghost use Rattle.nxf_tree.specs.declared.tree.SpecValue.{out-SpecValue};
ghost use Rattle.nxf_tree.specs.Faults.{first_fault};
ghost use Rattle.nxf_tree.specs.SpecificationWords as words;
ghost use Rattle.nxf_tree.specs.Specification as spec;
ghost use Rattle.logic_spec.specs.steps.Judging.{Judges};
ghost use Rattle.logic_spec.specs.steps.Seen as known;

use crate::error::SpecError;
use crate::keys::{key_text, same_key, setting_name, setting_of};
use crate::seen::{Seen, SeenKeys};
use crate::words::{joins, stands_alone};
use nxf_base::{Memory, SpecKind, Text};
use nxf_tree::{LogicSpec, Setting, SpecEntry, SpecItem, SpecKey, SpecValue};
use std::alloc::Global;

/// Whether no word is among the items.
#[tactic(auto, using(nxf_tree::proofs::Opened::opened))]
fn has_no_word(mut items: &[SpecItem]) -> bool
    ensures { result ≡ spec.is_empty (spec.words_of items.entry.now) }
{
    while let [item, rest @ ..] = items {
        match item {
            SpecItem::Word(_) => return false,
            SpecItem::Entry(_) => {}
        }
        items = rest;
    }
    true
}

/// Whether all words among the items join others.
#[tactic(auto, using(nxf_tree::proofs::Opened::opened))]
fn all_join(setting: Setting, mut items: &[SpecItem]) -> bool
    ensures { result ≡ list_all (words.joins setting) (spec.words_of items.entry.now) }
{
    while let [item, rest @ ..] = items {
        match item {
            SpecItem::Word(word) => {
                if !joins(setting, word) {
                    return false;
                }
            }
            SpecItem::Entry(_) => {}
        }
        items = rest;
    }
    true
}

/// Whether no override is among the items.
#[tactic(auto, using(nxf_tree::proofs::Opened::opened))]
fn has_no_override(mut items: &[SpecItem]) -> bool
    ensures { result ≡ spec.is_empty (spec.overrides_of items.entry.now) }
{
    while let [item, rest @ ..] = items {
        match item {
            SpecItem::Word(_) => {}
            SpecItem::Entry(_) => return false,
        }
        items = rest;
    }
    true
}

/// Whether the word is a choice.
#[tactic(auto, using(crate::proofs::Choices::choice_alone))]
fn is_word_choice(setting: Setting, word: &Text) -> bool
    ensures { result ≡ words.is_choice setting (word.now ∷ []) }
{
    stands_alone(setting, word) || joins(setting, word)
}

/// Whether the items have one word, and it stands alone.
#[tactic(auto, using(nxf_tree::proofs::Opened::opened))]
fn is_one_alone(setting: Setting, mut items: &[SpecItem]) -> bool
    ensures { result ≡ words.one_alone setting (spec.words_of items.entry.now) }
{
    while let [item, rest @ ..] = items {
        match item {
            SpecItem::Word(word) => return stands_alone(setting, word) && has_no_word(rest),
            SpecItem::Entry(_) => {}
        }
        items = rest;
    }
    false
}

/// Whether the words among the items are a choice.
#[tactic(auto, using(crate::proofs::Choices::choice_is))]
fn is_choice(setting: Setting, items: &[SpecItem]) -> bool
    ensures { result ≡ words.is_choice setting (spec.words_of items.now) }
{
    is_one_alone(setting, items) || (!has_no_word(items) && all_join(setting, items))
}

/// Whether an override of the setting may have this key.
#[tactic(auto, unfolding(nxf_tree::specs::Specification::takes_key))]
fn takes_key(setting: Setting, key: &SpecKey) -> bool
    ensures { result ≡ spec.takes_key setting key.now }
{
    match setting {
        Setting::Domains => match key {
            SpecKey::Dollar(word) => word.bytes() == b"$i".as_slice(),
            SpecKey::Name(_) => true,
            SpecKey::Index(_) => false,
        },
        Setting::Designation => match key {
            SpecKey::Dollar(_) => false,
            SpecKey::Name(_) => true,
            SpecKey::Index(_) => false,
        },
        Setting::Terms => match key {
            SpecKey::Dollar(_) => false,
            SpecKey::Name(_) => true,
            SpecKey::Index(_) => false,
        },
        Setting::Modalities => match key {
            SpecKey::Dollar(_) => false,
            SpecKey::Name(_) => false,
            SpecKey::Index(_) => true,
        },
    }
}

/// Whether an override of the setting may have this list.
fn takes_list(setting: Setting, items: &[SpecItem]) -> bool
    ensures { result ≡ spec.takes_list setting items.now }
{
    match setting {
        Setting::Domains => false,
        Setting::Designation => false,
        Setting::Terms => false,
        Setting::Modalities => has_no_override(items) && is_choice(Setting::Modalities, items),
    }
}

/// Whether an override of the setting may have this value.
#[tactic(auto, using(nxf_tree::proofs::Opened::opened))]
fn takes_value(setting: Setting, value: &SpecValue) -> bool
    ensures { result ≡ spec.takes_value setting (out-SpecValue value.now) }
{
    match value {
        SpecValue::Word(word) => is_word_choice(setting, word),
        SpecValue::Items(items) => takes_list(setting, items.as_slice()),
    }
}

fn unknown_value(alloc: Global, setting: Setting) -> Result<(), SpecError>
    ensures { Judges (Some (UnknownValue (spec.setting_name setting))) result }
{
    match Text::from_bytes(alloc, setting_name(setting)) {
        Ok(text) => Err(SpecError::Kind(SpecKind::UnknownValue(text))),
        Err(_) => Err(SpecError::Memory),
    }
}

fn duplicate_key(alloc: Global, key: &SpecKey) -> Result<(), SpecError>
    ensures { Judges (Some (DuplicateKey (spec.key_text key.now))) result }
{
    match key_text(alloc, key) {
        Ok(text) => Err(SpecError::Kind(SpecKind::DuplicateKey(text))),
        Err(_) => Err(SpecError::Memory),
    }
}

fn unknown_key(alloc: Global, key: &SpecKey) -> Result<(), SpecError>
    ensures { Judges (Some (UnknownKey (spec.key_text key.now))) result }
{
    match key_text(alloc, key) {
        Ok(text) => Err(SpecError::Kind(SpecKind::UnknownKey(text))),
        Err(_) => Err(SpecError::Memory),
    }
}

/// The fault of an item after items of which this was seen. Where it has none, the item is seen too.
#[tactic(auto, using(nxf_tree::proofs::Opened::opened))]
fn judge_item(
    alloc: Global,
    setting: Setting,
    seen: &mut Seen,
    item: &SpecItem,
) -> Result<(), SpecError>
    ensures judged { Judges (known.fault_after setting (known.known seen.old) (out-SpecItem item.now)) result }
    ensures noted { OnOk result (known.known seen.new ≡ known.and_item setting (known.known seen.old) (out-SpecItem item.now)) }
{
    match item {
        SpecItem::Word(word) => judge_word(alloc, setting, seen, word),
        SpecItem::Entry(entry) => judge_override(alloc, setting, seen, entry),
    }
}

fn judge_word(
    alloc: Global,
    setting: Setting,
    seen: &mut Seen,
    word: &Text,
) -> Result<(), SpecError>
    ensures judged { Judges (known.fault_after setting (known.known seen.old) (open_item.SpecItem::Word word.now)) result }
    ensures noted { OnOk result (known.known seen.new ≡ known.and_item setting (known.known seen.old) (open_item.SpecItem::Word word.now)) }
{
    let joins = joins(setting, word);
    if (seen.no_word && stands_alone(setting, word)) || (seen.all_join && joins) {
        seen.no_word = false;
        seen.all_join = seen.all_join && joins;
        Ok(())
    } else {
        unknown_value(alloc, setting)
    }
}

fn judge_override(
    alloc: Global,
    setting: Setting,
    seen: &mut Seen,
    entry: &SpecEntry,
) -> Result<(), SpecError>
    ensures judged { Judges (known.fault_after setting (known.known seen.old) (open_item.Entry entry.now)) result }
    ensures noted { OnOk result (known.known seen.new ≡ known.and_item setting (known.known seen.old) (open_item.Entry entry.now)) }
{
    if seen.keys.contains(&entry.key) {
        duplicate_key(alloc, &entry.key)
    } else if takes_key(setting, &entry.key) && takes_value(setting, &entry.value) {
        match seen.keys.insert(alloc, &entry.key) {
            Ok(()) => Ok(()),
            Err(Memory) => Err(SpecError::Memory),
        }
    } else {
        unknown_value(alloc, setting)
    }
}

/// The first fault of a list of items.
fn judge_items(alloc: Global, setting: Setting, mut items: &[SpecItem]) -> Result<(), SpecError>
    ensures { Judges (option_map (λ fault. fault.1) (first_fault (λ before (x : AnyItem). spec.item_fault setting before (out-SpecItem x)) 0 [] items.entry.now)) result }
{
    let mut seen = Seen {
        no_word: true,
        all_join: true,
        keys: SeenKeys::new(alloc),
    };
    while let [item, rest @ ..] = items {
        judge_item(alloc, setting, &mut seen, item)?;
        items = rest;
    }
    Ok(())
}

/// The first fault of a value.
#[tactic(auto, using(nxf_tree::proofs::Opened::opened))]
fn judge_value(alloc: Global, setting: Setting, value: &SpecValue) -> Result<(), SpecError>
    ensures { Judges (spec.value_fault setting (out-SpecValue value.now)) result }
{
    match value {
        SpecValue::Word(word) => {
            if is_word_choice(setting, word) {
                Ok(())
            } else {
                unknown_value(alloc, setting)
            }
        }
        SpecValue::Items(items) => {
            if items.len() == 0 {
                unknown_value(alloc, setting)
            } else {
                judge_items(alloc, setting, items.as_slice())
            }
        }
    }
}

/// Whether the key has an entry.
fn has_key(entries: &[SpecEntry], key: &SpecKey) -> bool
    ensures { result ≡ spec.has_key entries.now key.now }
{
    entries.iter().any(|entry| same_key(&entry.key, key))
}

/// The fault of an entry after the entries before it.
fn judge_entry(alloc: Global, before: &[SpecEntry], entry: &SpecEntry) -> Result<(), SpecError>
    ensures { Judges (spec.entry_fault before.now entry.now) result }
{
    match setting_of(&entry.key) {
        None => unknown_key(alloc, &entry.key),
        Some(setting) => {
            if has_key(before, &entry.key) {
                duplicate_key(alloc, &entry.key)
            } else {
                judge_value(alloc, setting, &entry.value)
            }
        }
    }
}

/// The first fault of a list of entries.
fn judge_entries(alloc: Global, entries: &[SpecEntry]) -> Result<(), SpecError>
    ensures { Judges (option_map (λ fault. fault.1) (first_fault spec.entry_fault 0 [] entries.now)) result }
{
    for (i, entry) in entries.iter().enumerate() {
        judge_entry(alloc, &entries[..i], entry)?;
    }
    Ok(())
}

/// The first fault of a logic statement.
pub fn judge_logic(alloc: Global, logic: &LogicSpec) -> Result<(), SpecError>
    ensures { Judges (spec.logic_fault logic.now) result }
{
    if logic.logic.bytes() != b"$modal".as_slice() {
        return Err(SpecError::Kind(SpecKind::NotModal));
    }
    judge_entries(alloc, logic.entries.as_slice())?;
    if has_modalities(logic.entries.as_slice()) {
        Ok(())
    } else {
        Err(SpecError::Kind(SpecKind::NoModalities))
    }
}

/// Whether an entry sets the modalities.
fn has_modalities(entries: &[SpecEntry]) -> bool
    ensures { result ≡ spec.has_key entries.now (Dollar (spec.setting_name Setting.Modalities)) }
{
    entries.iter().any(|entry| names_modalities(&entry.key))
}

fn names_modalities(key: &SpecKey) -> bool
    ensures { result ≡ spec.same_key key.now (Dollar (spec.setting_name Setting.Modalities)) }
{
    match key {
        SpecKey::Dollar(word) => word.bytes() == setting_name(Setting::Modalities),
        SpecKey::Name(_) => false,
        SpecKey::Index(_) => false,
    }
}
