//! The variables that the enclosing quantifiers bind.

ghost use Rattle.std.specs.Prelude.{◌≡◌, ◌∷◌, [], OnOk};
ghost use Rattle.nxf_sorts.specs.steps.Scope.{found, tail};

use indexmap::IndexMap;
use nxf_base::{Memory, Text};
use std::alloc::Global;
use std::marker::Model;

/// A binder: its variable with the number of its sort, and the level and sort of the binder that it hides.
#[derive(Drop)]
pub struct Binder {
    name: Text,
    sort: u32,
    hidden: Option<(u32, u32)>,
}

/// The binders from the outside in, and for each bound variable the level and the sort of its innermost binder.
#[derive(Drop)]
pub struct Binders {
    stack: Vec<Binder>,
    innermost: IndexMap<Text, (u32, u32)>,
}

impl Model for Binders {
    ghost use Rattle.std.specs.Prelude.{List, ℕ};
    ghost use Rattle.nxf_sorts.specs.steps.InStep.{scope_of, IsInStep};

    ghost Value = { List (List ℕ × ℕ) };

    ghost view = { λ b. scope_of b.stack.items };

    ghost invariant = { λ b. IsInStep b.stack.items b.innermost.entries };
}

impl Binders {
    /// No binders.
    pub fn new(alloc: Global) -> Binders
        ensures { result ≡ [] }
    {
        Binders {
            stack: Vec::new(alloc),
            innermost: IndexMap::new(alloc),
        }
    }

    /// The level and the sort of the innermost binder of a variable.
    pub fn find(&self, name: &Text) -> Option<(u32, u32)>
        ensures { result ≡ found self.now name.now }
    {
        match self.innermost.get(name) {
            Some(place) => Some(*place),
            None => None,
        }
    }

    /// Enters a quantifier.
    pub fn enter(&mut self, alloc: Global, name: &Text, sort: u32) -> Result<(), Memory>
        ensures { OnOk result (self.new ≡ (name.now, sort) ∷ self.old) }
    {
        if self.stack.len() >= 0xffff_ffff {
            return Err(Memory);
        }
        let level = self.stack.len() as u32;
        let hidden = self.find(name);
        let key = name.copy(alloc)?;
        let binder = Binder {
            name: name.copy(alloc)?,
            sort,
            hidden,
        };
        self.stack.push(binder)?;
        match self.innermost.insert(key, (level, sort)) {
            Ok(_) => Ok(()),
            Err(_) => {
                let _ = self.stack.pop();
                Err(Memory)
            }
        }
    }

    /// Leaves the innermost quantifier.
    pub fn leave(&mut self)
        ensures { self.new ≡ tail self.old }
    {
        if let Some(binder) = self.stack.pop() {
            match binder.hidden {
                Some(place) => match self.innermost.insert(binder.name, place) {
                    Ok(_) => {}
                    Err(_) => {}
                },
                None => {
                    let _ = self.innermost.swap_remove(&binder.name);
                }
            }
        }
    }
}
