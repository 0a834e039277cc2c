//! The parts of a problem, in the order of its file.
ghost use Rattle.std.specs.Prelude.{◌≡◌, ◌<◌, length, slice_get, Some};

use crate::PartEntry;
use std::marker::Model;

/// The part of each formula of a file. Contracts see a list of entries in the order of the file.
#[derive(Debug, Drop)]
pub struct Parts {
    pub(crate) entries: Vec<PartEntry>,
}

impl Model for Parts {
    ghost use Rattle.std.specs.Prelude.{List};
    ghost use Rattle.nxf_tree.specs.declared.tree.PartEntry.{PartEntry};

    ghost Value = { List PartEntry };

    ghost view = { λ p. p.entries.items };
}

impl Parts {
    /// The number of formulas.
    pub fn len(&self) -> usize
        ensures { result ≡ length self.now }
    {
        self.entries.len()
    }

    /// The entry at a place of the list, counted from 0.
    pub fn get(&self, at: usize) -> &PartEntry
        requires { at < length self.now }
        ensures { slice_get self.now at ≡ Some result.now }
    {
        &self.entries[at]
    }
}
