//! What type statements declare.

ghost use Rattle.std.specs.Prelude.{◌≡◌, ◌∷◌, [], OnOk, IfOk};
ghost use Rattle.std.specs.List.{list_any};
ghost use Rattle.std.specs.Option.{option_copied};
ghost use Rattle.indexmap.specs.IndexSet.{insert_all};
ghost use Rattle.nxf_tree.specs.Names.{same_text};
ghost use Rattle.nxf_tree.specs.Occurrences.{declared};
ghost use Rattle.nxf_tree.specs.SignatureOf.{same_symbol, type_in};
ghost use Rattle.nxf_signatures.specs.steps.Tables.{uses_in, sort_texts};

use crate::symbol_type::{SymbolType, note_text, push_symbol, type_in_table};
use indexmap::{IndexMap, IndexSet};
use nxf_base::{List, Memory, Text};
use nxf_tree::{Body, SortName, Statement, Typing};
use std::alloc::Global;

/// The declared sorts, and the declared symbols with their first types, each in the order of the first declarations.
#[derive(Drop)]
pub struct Declarations {
    pub sorts: IndexSet<Text>,
    pub symbols: IndexMap<Text, SymbolType>,
}

impl Declarations {
    /// No declarations.
    pub fn new(alloc: Global) -> Declarations
        ensures sorts { result.sorts.keys ≡ [] }
        ensures symbols { result.symbols.entries ≡ [] }
    {
        Declarations {
            sorts: IndexSet::new(alloc),
            symbols: IndexMap::new(alloc),
        }
    }

    /// The first type with which a symbol is declared.
    pub fn type_of(&self, name: &Text) -> Option<&SymbolType>
        ensures { option_copied result ≡ type_in (uses_in self.now.symbols.entries) name.now }
    {
        type_in_table(&self.symbols, name)
    }

    /// Whether a sort of the name is declared.
    pub fn has_sort(&self, name: &Text) -> bool
        ensures { result ≡ list_any (same_text name.now) self.now.sorts.keys }
    {
        self.sorts.contains(name)
    }

    /// Adds what a statement declares.
    pub fn note(&mut self, alloc: Global, statement: &Statement) -> Result<(), Memory>
        ensures sorts { OnOk result (self.new.sorts.keys ≡ insert_all same_text self.old.sorts.keys (sort_texts (statement.now ∷ []))) }
        ensures symbols { let old = uses_in self.old.symbols.entries in
            OnOk result (uses_in self.new.symbols.entries ≡ insert_all same_symbol old (declared (statement.now ∷ []))) }
    {
        match statement {
            Statement::Annotated {
                name: _,
                role: _,
                body,
            } => match body {
                Body::Typing(typing) => match typing {
                    Typing::Individual => Ok(()),
                    Typing::Sort(name) => note_text(alloc, &mut self.sorts, name),
                    Typing::Symbol(name, args, gives) => self.note_symbol(alloc, name, args, gives),
                },
                Body::Formula(_) => Ok(()),
                Body::Logic(_) => Ok(()),
            },
            Statement::Include { file: _, names: _ } => Ok(()),
        }
    }

    fn note_symbol(
        &mut self,
        alloc: Global,
        name: &Text,
        args: &List<SortName>,
        gives: &Option<SortName>,
    ) -> Result<(), Memory>
        ensures sorts { self.new.sorts.keys ≡ self.old.sorts.keys }
        ensures symbols { OnOk result (uses_in self.new.symbols.entries ≡ insert_all same_symbol (uses_in self.old.symbols.entries) (record { name = name.now; type = record { args = args.now; gives = gives.now } } ∷ [])) }
    {
        match type_in_table(&self.symbols, name) {
            Some(_) => Ok(()),
            None => {
                let kind = SymbolType::copied(alloc, args, gives)?;
                push_symbol(alloc, &mut self.symbols, name, kind)
            }
        }
    }

    /// What the statements declare.
    pub fn of(alloc: Global, statements: &[Statement]) -> Result<Declarations, Memory>
        ensures sorts { IfOk result (λ d. d.sorts.keys ≡ insert_all same_text [] (sort_texts statements.now)) }
        ensures symbols { IfOk result (λ d. uses_in d.symbols.entries ≡ insert_all same_symbol [] (declared statements.now)) }
    {
        let mut declarations = Declarations::new(alloc);
        for statement in statements {
            declarations.note(alloc, statement)?;
        }
        Ok(declarations)
    }
}
