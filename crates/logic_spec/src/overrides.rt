//! What overrides say, each found by one look-up.

ghost use Rattle.std.specs.Prelude.{◌≡◌, List, ℕ, Option, None, Some, if◌then◌else◌, OnOk};
ghost use Rattle.std.specs.Option.{option_copied, option_or};
ghost use Rattle.logic_spec.specs.Asked as asked;

use indexmap::IndexMap;
use nxf_base::{Memory, Text};
use std::alloc::Global;

/// The first override of each name, and that of the one thing without a name: `$i`, or the unindexed modality.
#[derive(Drop)]
pub struct Overrides<T> {
    pub nameless: Option<T>,
    pub named: IndexMap<Text, T>,
}

impl<T: Drop> Overrides<T> {
    /// No overrides.
    pub fn new(alloc: Global) -> Overrides<T>
        ensures { (name : Option (List ℕ)) → asked.override_of result name ≡ None }
    {
        Overrides {
            nameless: None,
            named: IndexMap::new(alloc),
        }
    }

    /// What the override says of the thing without a name.
    pub fn of_nameless(&self) -> Option<&T>
        ensures { option_copied result ≡ asked.override_of self.now None }
    {
        match &self.nameless {
            Some(value) => Some(value),
            None => None,
        }
    }

    /// What the override of the name says.
    pub fn of_name(&self, name: &Text) -> Option<&T>
        ensures { option_copied result ≡ asked.override_of self.now (Some name.now) }
    {
        self.named.get(name)
    }

    /// Keeps an override of the thing without a name, unless there was one before.
    pub fn note_nameless(&mut self, value: T)
        ensures { (name : Option (List ℕ)) → asked.override_of self.new name ≡ option_or (asked.override_of self.old name) (if asked.same_name None name then Some value else None) }
    {
        if self.nameless.is_none() {
            self.nameless = Some(value);
        }
    }

    /// Keeps an override of the name, unless there was one before.
    pub fn note_name(&mut self, alloc: Global, text: &Text, value: T) -> Result<(), Memory>
        ensures { OnOk result ((name : Option (List ℕ)) → asked.override_of self.new name ≡ option_or (asked.override_of self.old name) (if asked.same_name (Some text.now) name then Some value else None)) }
    {
        if !self.named.contains_key(text) {
            self.named.insert(text.copy(alloc)?, value)?;
        }
        Ok(())
    }
}
