//! Types of symbols, and tables of symbols and texts in the order in which they were first seen.

ghost use Rattle.std.specs.Prelude.{◌≡◌, ◌∷◌, [], ◌++◌, IfOk, OnOk, None};
ghost use Rattle.std.specs.Option.{option_copied};
ghost use Rattle.indexmap.specs.IndexSet.{insert_all};
ghost use Rattle.nxf_tree.specs.Names.{same_text};
ghost use Rattle.nxf_tree.specs.SignatureOf.{type_in};
ghost use Rattle.nxf_signatures.specs.steps.Tables.{uses_in};

use indexmap::{IndexMap, IndexSet};
use nxf_base::{List, Memory, Text};
use nxf_tree::SortName;
use std::alloc::Global;
use std::marker::Model;

/// The sorts of a symbol's arguments, and of its value where it is a function.
#[derive(Drop)]
pub struct SymbolType {
    pub args: List<SortName>,
    pub gives: Option<SortName>,
}

impl Model for SymbolType {
    ghost use Rattle.nxf_tree.specs.Sorting as sorting;

    ghost Value = { sorting.SymbolType };

    ghost view = { λ t. record { args = t.args; gives = t.gives } };
}

impl SymbolType {
    /// A type of these sorts.
    pub fn copied(
        alloc: Global,
        args: &List<SortName>,
        gives: &Option<SortName>,
    ) -> Result<SymbolType, Memory>
        ensures { IfOk result (λ t. t ≡ record { args = args.now; gives = gives.now }) }
    {
        let args = copy_sorts(alloc, args)?;
        let gives = match gives {
            Some(sort) => Some(sort.copy(alloc)?),
            None => None,
        };
        Ok(SymbolType { args, gives })
    }

    /// An equal type.
    pub fn copy(&self, alloc: Global) -> Result<SymbolType, Memory>
        ensures { IfOk result (λ t. t ≡ self.now) }
    {
        SymbolType::copied(alloc, &self.args, &self.gives)
    }
}

fn copy_sorts(alloc: Global, sorts: &List<SortName>) -> Result<List<SortName>, Memory>
    ensures { IfOk result (λ l. l ≡ sorts.now) }
{
    let mut copies = List::with_capacity(alloc, sorts.len())?;
    for sort in sorts.as_slice() {
        copies.push(sort.copy(alloc)?)?;
    }
    Ok(copies)
}

/// Adds a text behind those that were seen before, unless it is among them.
pub fn note_text(alloc: Global, texts: &mut IndexSet<Text>, text: &Text) -> Result<(), Memory>
    ensures { OnOk result (texts.new.keys ≡ insert_all same_text texts.old.keys (text.now ∷ [])) }
{
    if !texts.contains(text) {
        texts.insert(text.copy(alloc)?)?;
    }
    Ok(())
}

/// The type of a symbol in a table.
pub fn type_in_table<'a>(
    symbols: &'a IndexMap<Text, SymbolType>,
    name: &Text,
) -> Option<&'a SymbolType>
    ensures { option_copied result ≡ type_in (uses_in symbols.now.entries) name.now }
{
    symbols.get(name)
}

/// Adds a symbol behind those that were seen before. It was not among them.
pub fn push_symbol(
    alloc: Global,
    symbols: &mut IndexMap<Text, SymbolType>,
    name: &Text,
    kind: SymbolType,
) -> Result<(), Memory>
    requires { type_in (uses_in symbols.old.entries) name.now ≡ None }
    ensures { OnOk result (uses_in symbols.new.entries ≡ uses_in symbols.old.entries ++ record { name = name.now; type = kind } ∷ []) }
{
    symbols.insert(name.copy(alloc)?, kind)?;
    Ok(())
}
