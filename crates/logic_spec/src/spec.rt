//! The tables of a logic statement, and what they ask.

ghost use Rattle.std.specs.Prelude.{◌≡◌, Some, None};
ghost use Rattle.std.specs.Option.{option_copied, option_and_then, unwrap_or};
ghost use Rattle.nxf_tree.specs.declared.tree.Regime.TheVariants.{Constant};
ghost use Rattle.nxf_tree.specs.SpecificationWords.{regime_named};
ghost use Rattle.logic_spec.specs.Asked.{asked_by, word_for};

use crate::overrides::Overrides;
use crate::words::{designation_named, locality_named, regime_named};
use nxf_base::{List, Text};
use nxf_tree::{Designation, IndexName, Locality, Override, Regime, Scheme, SortName};

/// The default's word of a setting, and the words of its overrides, for `$i` and for names.
#[derive(Drop)]
pub struct WordTable {
    pub default: Option<Text>,
    pub overrides: Overrides<Option<Text>>,
}

/// The default's schemes, and those of the overrides, for the unindexed modality and for the names of indexes.
#[derive(Drop)]
pub struct SchemeTable {
    pub default: List<Scheme>,
    pub overrides: Overrides<List<Scheme>>,
}

/// What the logic statement of a file asks of sorts, functions and indexes.
#[derive(Drop)]
pub struct Spec {
    pub(crate) place: u32,
    pub(crate) domains: WordTable,
    pub(crate) designation: WordTable,
    pub(crate) terms: WordTable,
    pub(crate) modalities: SchemeTable,
    pub(crate) overrides: List<Override>,
}

impl Spec {
    /// The number of the logic statement in its file, counted from 1.
    pub fn place(&self) -> u32
        ensures { result ≡ (asked_by self.now).place }
    {
        self.place
    }

    /// The overrides of all settings, in the order in which they stand in the logic statement.
    pub fn overrides(&self) -> &List<Override>
        ensures { result.now ≡ (asked_by self.now).overrides }
    {
        &self.overrides
    }

    /// The regime of a sort: that of its override, else the default.
    pub fn regime(&self, sort: &SortName) -> Regime
        ensures { result ≡ (asked_by self.now).regime sort.now }
    {
        match sort {
            SortName::Individual => regime_or(self.domains.word_of_individual()),
            SortName::User(name) => regime_or(self.domains.word_of(name)),
        }
    }

    /// The designation of a function: that of its override, else the default.
    pub fn designation(&self, symbol: &Text) -> Designation
        ensures { result ≡ (asked_by self.now).designation symbol.now }
    {
        match self.designation.word_of(symbol) {
            Some(word) => match designation_named(word) {
                Some(designation) => designation,
                None => Designation::Rigid,
            },
            None => Designation::Rigid,
        }
    }

    /// The locality of a function: that of its override, else the default.
    pub fn locality(&self, symbol: &Text) -> Locality
        ensures { result ≡ (asked_by self.now).locality symbol.now }
    {
        match self.terms.word_of(symbol) {
            Some(word) => match locality_named(word) {
                Some(locality) => locality,
                None => Locality::Local,
            },
            None => Locality::Local,
        }
    }

    /// The schemes of an index, in the usual order, each once: those of its override, else the default's.
    pub fn schemes(&self, index: &IndexName) -> &List<Scheme>
        ensures { result.now ≡ (asked_by self.now).schemes index.now }
    {
        let own = match index {
            IndexName::Plain => self.modalities.overrides.of_nameless(),
            IndexName::Named(name) => self.modalities.overrides.of_name(name),
        };
        match own {
            Some(schemes) => schemes,
            None => &self.modalities.default,
        }
    }
}

impl WordTable {
    /// The word for `$i`: that of its override, else the default.
    fn word_of_individual(&self) -> Option<&Text>
        ensures { option_copied result ≡ word_for self.now None }
    {
        match self.overrides.of_nameless() {
            Some(word) => lent(word),
            None => lent(&self.default),
        }
    }

    /// The word for a name: that of its override, else the default.
    fn word_of(&self, name: &Text) -> Option<&Text>
        ensures { option_copied result ≡ word_for self.now (Some name.now) }
    {
        match self.overrides.of_name(name) {
            Some(word) => lent(word),
            None => lent(&self.default),
        }
    }
}

fn lent(word: &Option<Text>) -> Option<&Text>
    ensures { option_copied result ≡ word.now }
{
    match word {
        Some(word) => Some(word),
        None => None,
    }
}

fn regime_or(word: Option<&Text>) -> Regime
    ensures { result ≡ unwrap_or (option_and_then regime_named (option_copied word.entry)) Constant }
{
    match word {
        Some(word) => match regime_named(word) {
            Some(regime) => regime,
            None => Regime::Constant,
        },
        None => Regime::Constant,
    }
}
