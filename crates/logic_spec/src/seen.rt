//! What was seen of a list of items.

ghost use Rattle.std.specs.Prelude.{◌≡◌, ◌||◌, ◌&&◌, false, true, List, ℕ, OnOk};
ghost use Rattle.indexmap.specs.IndexSet.{contains};
ghost use Rattle.nxf_tree.specs.declared.tree.SpecKey.{SpecKey as AnyKey};
ghost use Rattle.nxf_tree.specs.Names.{same_text};
ghost use Rattle.nxf_tree.specs.Specification as spec;
ghost use Rattle.logic_spec.specs.steps.Seen as seen;

use indexmap::IndexSet;
use nxf_base::{Memory, Text};
use nxf_tree::{IndexName, SpecKey};
use std::alloc::Global;

/// Keys by their kind.
#[derive(Drop)]
pub struct SeenKeys {
    words: IndexSet<Text>,
    names: IndexSet<Text>,
    indexes: IndexSet<Text>,
    unindexed: bool,
}

/// Whether no item was a word, whether all words join others, and the keys of the overrides.
#[derive(Drop)]
pub struct Seen {
    pub no_word: bool,
    pub all_join: bool,
    pub keys: SeenKeys,
}

impl SeenKeys {
    /// No keys.
    pub fn new(alloc: Global) -> SeenKeys
        ensures { (key : AnyKey) → seen.is_seen result key ≡ false }
    {
        SeenKeys {
            words: IndexSet::new(alloc),
            names: IndexSet::new(alloc),
            indexes: IndexSet::new(alloc),
            unindexed: false,
        }
    }

    /// Whether the key is among them.
    pub fn contains(&self, key: &SpecKey) -> bool
        ensures { result ≡ seen.is_seen self.now key.now }
    {
        match key {
            SpecKey::Dollar(word) => self.words.contains(word),
            SpecKey::Name(name) => self.names.contains(name),
            SpecKey::Index(index) => match index {
                IndexName::Plain => self.unindexed,
                IndexName::Named(name) => self.indexes.contains(name),
            },
        }
    }

    /// Adds a key.
    pub fn insert(&mut self, alloc: Global, key: &SpecKey) -> Result<(), Memory>
        ensures { OnOk result ((other : AnyKey) → seen.is_seen self.new other ≡ (seen.is_seen self.old other || spec.same_key key.now other)) }
    {
        match key {
            SpecKey::Dollar(word) => insert_text(alloc, &mut self.words, word),
            SpecKey::Name(name) => insert_text(alloc, &mut self.names, name),
            SpecKey::Index(index) => match index {
                IndexName::Plain => {
                    self.unindexed = true;
                    Ok(())
                }
                IndexName::Named(name) => insert_text(alloc, &mut self.indexes, name),
            },
        }
    }
}

fn insert_text(alloc: Global, texts: &mut IndexSet<Text>, text: &Text) -> Result<(), Memory>
    ensures { OnOk result ((other : List ℕ) → contains same_text texts.new other ≡ (contains same_text texts.old other || same_text text.now other)) }
{
    texts.insert(text.copy(alloc)?)?;
    Ok(())
}
