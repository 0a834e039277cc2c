//! Reading the logic statement of a file.

ghost use Rattle.std.specs.Prelude.{◌≡◌, ◌++◌, ◌∷◌, [], ◌<◌, ◌≤◌, ◌+◌, ◌^◌, map, filter, length, drop, slice_get, IfOk, IfSome, OnOk, MatchOption, Some, None, if◌then◌else◌};
ghost use Rattle.std.specs.List.{list_any};
ghost use Rattle.std.specs.Option.{option_copied, option_map, option_or};
ghost use Rattle.nxf_tree.specs.declared.tree.SpecValue.{out-SpecValue};
ghost use Rattle.nxf_tree.specs.Counting.{has};
ghost use Rattle.nxf_tree.specs.SpecificationWords as words;
ghost use Rattle.nxf_tree.specs.Specification as spec;
ghost use Rattle.logic_spec.specs.Asked as asked;
ghost use Rattle.logic_spec.specs.Asked.{asked_by};
ghost use Rattle.nxf_tree.specs.Signature as indexes;
ghost use Rattle.nxf_tree.specs.declared.tree.IndexName.{IndexName as AnyIndex};
ghost use Rattle.logic_spec.specs.steps.Judging as judging;
ghost use Rattle.logic_spec.specs.steps.Noting as noting;

use crate::error::SpecError;
use crate::judge::judge_logic;
use crate::keys::{is_setting, key_text};
use crate::overrides::Overrides;
use crate::spec::{SchemeTable, Spec, WordTable};
use crate::words::asks;
use nxf_base::{List, Memory, SpecKind, Text};
use nxf_tree::{
    Body, File, IndexName, LogicSpec, Override, Scheme, Setting, SpecEntry, SpecItem, SpecKey,
    SpecValue, Statement,
};
use std::alloc::Global;

/// The schemes in their usual order.
pub const SCHEME_ORDER: [Scheme; 10] = [
    Scheme::T,
    Scheme::D,
    Scheme::B,
    Scheme::Four,
    Scheme::Five,
    Scheme::CD,
    Scheme::BoxM,
    Scheme::C4,
    Scheme::C,
    Scheme::U,
];

/// The first word among the items.
#[tactic(auto, using(nxf_tree::proofs::Opened::opened))]
fn first_word(mut items: &[SpecItem]) -> Option<&Text>
    ensures { option_copied result ≡ slice_get (spec.words_of items.entry.now) 0 }
{
    while let [item, rest @ ..] = items {
        match item {
            SpecItem::Word(word) => return Some(word),
            SpecItem::Entry(_) => {}
        }
        items = rest;
    }
    None
}

/// The first word of a value.
#[tactic(auto, using(nxf_tree::proofs::Opened::opened))]
fn word_in(value: &SpecValue) -> Option<&Text>
    ensures { option_copied result ≡ slice_get (spec.words_in (out-SpecValue value.now)) 0 }
{
    match value {
        SpecValue::Word(word) => Some(word),
        SpecValue::Items(items) => first_word(items.as_slice()),
    }
}

fn copy_word(alloc: Global, word: Option<&Text>) -> Result<Option<Text>, Memory>
    ensures { IfOk result (λ w. w ≡ option_copied word.entry) }
{
    match word {
        Some(word) => Ok(Some(word.copy(alloc)?)),
        None => Ok(None),
    }
}

/// Whether some word among the items asks the scheme.
#[tactic(auto, using(nxf_tree::proofs::Opened::opened))]
fn some_asks(mut items: &[SpecItem], scheme: Scheme) -> bool
    ensures { result ≡ list_any (λ word. has words.same_scheme scheme (words.schemes_of_word word)) (spec.words_of items.entry.now) }
{
    while let [item, rest @ ..] = items {
        match item {
            SpecItem::Word(word) => {
                if asks(word, scheme) {
                    return true;
                }
            }
            SpecItem::Entry(_) => {}
        }
        items = rest;
    }
    false
}

/// Whether some word of the value asks the scheme.
#[tactic(auto, using(nxf_tree::proofs::Opened::opened))]
fn value_asks(value: &SpecValue, scheme: Scheme) -> bool
    ensures { result ≡ list_any (λ word. has words.same_scheme scheme (words.schemes_of_word word)) (spec.words_in (out-SpecValue value.now)) }
{
    match value {
        SpecValue::Word(word) => asks(word, scheme),
        SpecValue::Items(items) => some_asks(items.as_slice(), scheme),
    }
}

/// The schemes that the words of the value ask.
#[tactic(auto, unfolding(crate::specs::steps::Noting::schemes_said))]
fn schemes_in(alloc: Global, value: &SpecValue) -> Result<List<Scheme>, Memory>
    ensures { IfOk result (λ l. l ≡ noting.schemes_said (spec.words_in (out-SpecValue value.now))) }
{
    let mut schemes = List::new(alloc);
    for scheme in SCHEME_ORDER.as_slice() {
        if value_asks(value, *scheme) {
            schemes.push(*scheme)?;
        }
    }
    Ok(schemes)
}

/// Notes an override of a sort or a function with its word. Other keys have no override there.
fn note_word(
    alloc: Global,
    overrides: &mut Overrides<Option<Text>>,
    entry: &SpecEntry,
) -> Result<(), Memory>
    ensures { OnOk result (noting.NotesWords overrides.old (entry.now ∷ []) overrides.new) }
{
    match &entry.key {
        SpecKey::Dollar(text) => {
            if text.bytes() == b"$i".as_slice() {
                overrides.note_nameless(copy_word(alloc, word_in(&entry.value))?);
            }
            Ok(())
        }
        SpecKey::Name(name) => {
            let word = copy_word(alloc, word_in(&entry.value))?;
            overrides.note_name(alloc, name, word)
        }
        SpecKey::Index(_) => Ok(()),
    }
}

/// Notes the overrides of a list of items, each with its word.
#[tactic(auto, using(nxf_tree::proofs::Opened::opened))]
fn note_words(
    alloc: Global,
    overrides: &mut Overrides<Option<Text>>,
    mut items: &[SpecItem],
) -> Result<(), Memory>
    ensures { OnOk result (noting.NotesWords overrides.old (spec.overrides_of items.entry.now) overrides.new) }
{
    while let [item, rest @ ..] = items {
        match item {
            SpecItem::Word(_) => {}
            SpecItem::Entry(entry) => note_word(alloc, overrides, entry)?,
        }
        items = rest;
    }
    Ok(())
}

fn note_index(
    alloc: Global,
    overrides: &mut Overrides<List<Scheme>>,
    index: &IndexName,
    schemes: List<Scheme>,
) -> Result<(), Memory>
    ensures { OnOk result ((other : AnyIndex) → asked.override_of overrides.new (asked.text_of_index other) ≡ option_or (asked.override_of overrides.old (asked.text_of_index other)) (if indexes.same_index index.now other then Some schemes else None)) }
{
    match index {
        IndexName::Plain => {
            overrides.note_nameless(schemes);
            Ok(())
        }
        IndexName::Named(name) => overrides.note_name(alloc, name, schemes),
    }
}

/// Notes an override of an index with its schemes. Other keys have no override there.
fn note_scheme(
    alloc: Global,
    overrides: &mut Overrides<List<Scheme>>,
    entry: &SpecEntry,
) -> Result<(), Memory>
    ensures { OnOk result (noting.NotesSchemes overrides.old (entry.now ∷ []) overrides.new) }
{
    match &entry.key {
        SpecKey::Dollar(_) => Ok(()),
        SpecKey::Name(_) => Ok(()),
        SpecKey::Index(index) => {
            let schemes = schemes_in(alloc, &entry.value)?;
            note_index(alloc, overrides, index, schemes)
        }
    }
}

/// Notes the overrides of a list of items, each with its schemes.
#[tactic(auto, using(nxf_tree::proofs::Opened::opened))]
fn note_schemes(
    alloc: Global,
    overrides: &mut Overrides<List<Scheme>>,
    mut items: &[SpecItem],
) -> Result<(), Memory>
    ensures { OnOk result (noting.NotesSchemes overrides.old (spec.overrides_of items.entry.now) overrides.new) }
{
    while let [item, rest @ ..] = items {
        match item {
            SpecItem::Word(_) => {}
            SpecItem::Entry(entry) => note_scheme(alloc, overrides, entry)?,
        }
        items = rest;
    }
    Ok(())
}

/// The value that sets the setting.
fn value_of(setting: Setting, mut entries: &[SpecEntry]) -> Option<&SpecValue>
    ensures words { MatchOption result (spec.default_words setting entries.entry.now ≡ []) (λ value. spec.default_words setting entries.entry.now ≡ spec.words_in (out-SpecValue value.now)) }
    ensures overrides { MatchOption result (spec.setting_overrides setting entries.entry.now ≡ []) (λ value. spec.setting_overrides setting entries.entry.now ≡ spec.overrides_in (out-SpecValue value.now)) }
{
    while let [entry, rest @ ..] = entries {
        if is_setting(setting, &entry.key) {
            return Some(&entry.value);
        }
        entries = rest;
    }
    None
}

/// The default and the overrides of a value of a setting of one word.
#[tactic(auto, using(nxf_tree::proofs::Opened::opened))]
fn word_table_in(alloc: Global, value: &SpecValue) -> Result<WordTable, Memory>
    ensures { IfOk result (noting.IsWordTable (spec.words_in (out-SpecValue value.now)) (spec.overrides_in (out-SpecValue value.now))) }
{
    let mut overrides = Overrides::new(alloc);
    match value {
        SpecValue::Word(_) => {}
        SpecValue::Items(items) => note_words(alloc, &mut overrides, items.as_slice())?,
    }
    let default = copy_word(alloc, word_in(value))?;
    Ok(WordTable { default, overrides })
}

/// The default and the overrides of a setting of one word.
fn word_table(alloc: Global, setting: Setting, entries: &[SpecEntry]) -> Result<WordTable, Memory>
    ensures { IfOk result (noting.IsWordTable (spec.default_words setting entries.now) (spec.setting_overrides setting entries.now)) }
{
    match value_of(setting, entries) {
        Some(value) => word_table_in(alloc, value),
        None => Ok(WordTable {
            default: None,
            overrides: Overrides::new(alloc),
        }),
    }
}

/// The default and the overrides of a value of the modalities.
#[tactic(auto, using(nxf_tree::proofs::Opened::opened))]
fn scheme_table_in(alloc: Global, value: &SpecValue) -> Result<SchemeTable, Memory>
    ensures { IfOk result (noting.IsSchemeTable (spec.words_in (out-SpecValue value.now)) (spec.overrides_in (out-SpecValue value.now))) }
{
    let mut overrides = Overrides::new(alloc);
    match value {
        SpecValue::Word(_) => {}
        SpecValue::Items(items) => note_schemes(alloc, &mut overrides, items.as_slice())?,
    }
    let default = schemes_in(alloc, value)?;
    Ok(SchemeTable { default, overrides })
}

/// The default and the overrides of the modalities.
#[tactic(auto, unfolding(crate::specs::steps::Noting::schemes_said))]
fn scheme_table(alloc: Global, entries: &[SpecEntry]) -> Result<SchemeTable, Memory>
    ensures { IfOk result (noting.IsSchemeTable (spec.default_words Setting.Modalities entries.now) (spec.setting_overrides Setting.Modalities entries.now)) }
{
    match value_of(Setting::Modalities, entries) {
        Some(value) => scheme_table_in(alloc, value),
        None => Ok(SchemeTable {
            default: List::new(alloc),
            overrides: Overrides::new(alloc),
        }),
    }
}

fn override_under(alloc: Global, of: &SpecKey, key: &SpecKey) -> Result<Override, Memory>
    ensures { IfOk result (λ o. o ≡ record { of = spec.key_text of.now; key = key.now }) }
{
    let of = key_text(alloc, of)?;
    Ok(Override {
        of,
        key: key.copy(alloc)?,
    })
}

/// Appends the overrides of a list of items, which stands under the key.
#[tactic(auto, using(nxf_tree::proofs::Opened::opened))]
fn put_overrides(
    alloc: Global,
    into: &mut List<Override>,
    of: &SpecKey,
    mut items: &[SpecItem],
) -> Result<(), Memory>
    ensures { OnOk result (into.new ≡ into.old ++ map (λ (o : SpecEntry). record { of = spec.key_text of.now; key = o.key }) (spec.overrides_of items.entry.now)) }
{
    while let [item, rest @ ..] = items {
        match item {
            SpecItem::Word(_) => {}
            SpecItem::Entry(entry) => {
                let made = override_under(alloc, of, &entry.key)?;
                into.push(made)?;
            }
        }
        items = rest;
    }
    Ok(())
}

/// Appends the overrides of an entry.
#[tactic(auto, using(nxf_tree::proofs::Opened::opened))]
fn put_entry(alloc: Global, into: &mut List<Override>, entry: &SpecEntry) -> Result<(), Memory>
    ensures { OnOk result (into.new ≡ into.old ++ spec.override_list (entry.now ∷ [])) }
{
    match &entry.value {
        SpecValue::Word(_) => Ok(()),
        SpecValue::Items(items) => put_overrides(alloc, into, &entry.key, items.as_slice()),
    }
}

/// The overrides of all entries, in order.
fn all_overrides(alloc: Global, entries: &[SpecEntry]) -> Result<List<Override>, Memory>
    ensures { IfOk result (λ l. l ≡ spec.override_list entries.now) }
{
    let mut overrides = List::new(alloc);
    for entry in entries {
        put_entry(alloc, &mut overrides, entry)?;
    }
    Ok(overrides)
}

/// The tables of the entries of a logic statement.
fn tables(alloc: Global, place: u32, entries: &[SpecEntry]) -> Result<Spec, Memory>
    ensures { IfOk result (λ s. asked_by s ≡ spec.specification place entries.now) }
{
    let domains = word_table(alloc, Setting::Domains, entries)?;
    let designation = word_table(alloc, Setting::Designation, entries)?;
    let terms = word_table(alloc, Setting::Terms, entries)?;
    let modalities = scheme_table(alloc, entries)?;
    let overrides = all_overrides(alloc, entries)?;
    Ok(Spec {
        place,
        domains,
        designation,
        terms,
        modalities,
        overrides,
    })
}

/// The next logic statement from a place on, with its place, counted from 0.
fn next_logic(statements: &[Statement], from: usize) -> Option<(usize, &LogicSpec)>
    requires { from ≤ length statements.now }
    ensures next { MatchOption result (spec.logic_statements (from + 1) (drop from statements.now) ≡ []) (λ f. spec.logic_statements (from + 1) (drop from statements.now) ≡ (f.0 + 1, f.1.now) ∷ spec.logic_statements (f.0 + 1 + 1) (drop (f.0 + 1) statements.now)) }
    ensures within { IfSome result (λ f. f.0 < length statements.now) }
{
    for at in from..statements.len() {
        match &statements[at] {
            Statement::Annotated {
                name: _,
                role: _,
                body,
            } => match body {
                Body::Logic(logic) => return Some((at, logic)),
                Body::Formula(_) => {}
                Body::Typing(_) => {}
            },
            Statement::Include { file: _, names: _ } => {}
        }
    }
    None
}

/// Reads what the only logic statement of a file asks. It refuses, in this order, a file without one or with a second
/// one; one whose logic is not `$modal`; the first fault of the entries from left to right, each key before its value;
/// and one that leaves the modalities out. There is no other error than want of memory.
pub fn read_spec(alloc: Global, file: &File) -> Result<Spec, SpecError>
    requires { length file.now.statements < 2 ^ 31 }
    ensures { judging.Reads (spec.spec_of file.now) result }
{
    let statements = file.statements.as_slice();
    match next_logic(statements, 0) {
        None => Err(SpecError::Kind(SpecKind::Absent)),
        Some((first, logic)) => match next_logic(statements, first + 1) {
            Some((second, _)) => Err(SpecError::Kind(SpecKind::Two(second as u32 + 1))),
            None => read_one(alloc, first as u32 + 1, logic),
        },
    }
}

fn read_one(alloc: Global, place: u32, logic: &LogicSpec) -> Result<Spec, SpecError>
    ensures { judging.Reads (spec.only_logic ((place, logic.now) ∷ [])) result }
{
    judge_logic(alloc, logic)?;
    match tables(alloc, place, logic.entries.as_slice()) {
        Ok(spec) => Ok(spec),
        Err(_) => Err(SpecError::Memory),
    }
}
