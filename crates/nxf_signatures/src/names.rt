//! The signature of a file, with the number of each name.

ghost use Rattle.std.specs.Prelude.{◌≡◌, ◌+◌, ◌^◌, ◌<◌, ◌≤◌, length, IfOk, Ok, is_some};
ghost use Rattle.std.specs.Option.{option_map};
ghost use Rattle.nxf_tree.specs.Counting.{has};
ghost use Rattle.nxf_tree.specs.Signature.{same_sort, same_index, sort_names, index_names};
ghost use Rattle.nxf_tree.specs.Occurrences.{declared};
ghost use Rattle.nxf_tree.specs.SignatureOf.{firsts, same_symbol, signature_of, type_in};
ghost use Rattle.nxf_tree.specs.Specification.{spec_of};
ghost use Rattle.nxf_tree.specs.Weight.{file_weight};
ghost use Rattle.logic_spec.specs.Asked.{asked_by};
ghost use Rattle.nxf_signatures.specs.Places.{place, numbered_entry};

use crate::places::{index_place, sort_place};
use crate::signature::signature;
use crate::tables::{Tables, tables_of};
use logic_spec::Spec;
use nxf_base::{Memory, Text};
use nxf_tree::{File, IndexName, Signature, SortName, SymbolEntry};
use std::alloc::Global;
use std::marker::Model;

/// The signature of a file, with hashed tables of its names, and the symbols that type statements declare.
#[derive(Drop)]
pub struct Names {
    tables: Tables,
    signature: Signature,
}

impl Model for Names {
    ghost use Rattle.nxf_signatures.specs.Naming.{Naming, HasNames};
    ghost use Rattle.nxf_signatures.specs.steps.Tables.{uses_in};

    ghost Value = { Naming };

    ghost view = { λ n. record { signature = n.signature; declared = uses_in n.tables.declarations.symbols.entries } };

    ghost invariant = { λ n. HasNames n.signature n.tables.individual n.tables.declarations.sorts.keys n.tables.occurring.symbols.entries n.tables.occurring.plain n.tables.occurring.indexes.keys };
}

impl Names {
    /// The names of a file, over the signature that the definitions give it. There is no other error than want of memory:
    /// a file has fewer names than its weight, so numbers of 32 bits are enough for them.
    pub fn of(alloc: Global, file: &File, spec: &Spec) -> Result<Names, Memory>
        requires spec { spec_of file.now ≡ Ok (asked_by spec.now) }
        requires weight { file_weight file.now < 2 ^ 31 }
        ensures signature { IfOk result (λ n. n.signature ≡ signature_of (asked_by spec.now) file.now) }
        ensures declared { IfOk result (λ n. n.declared ≡ firsts same_symbol (declared file.now.statements)) }
    {
        let tables = tables_of(alloc, file, spec)?;
        let signature = signature(alloc, &tables, spec)?;
        Ok(Names { tables, signature })
    }

    /// The signature.
    pub fn signature(&self) -> &Signature
        ensures { result.now ≡ self.now.signature }
    {
        &self.signature
    }

    /// The signature alone. Numbers of 32 bits are enough for it.
    pub fn into_signature(self) -> Signature
        ensures value { result ≡ self.signature }
        ensures small { length result.sorts + length result.symbols + length result.indexes ≤ 2 ^ 31 }
    {
        self.signature
    }

    /// The number of a symbol and its entry.
    pub fn symbol(&self, name: &Text) -> Option<(u32, &SymbolEntry)>
        ensures { option_map (λ p. (p.0, p.1.now)) result ≡ numbered_entry self.now.signature.symbols name.now }
    {
        match self.tables.occurring.symbols.get_index_of(name) {
            Some(number) => Some((number as u32, self.signature.symbols.get(number))),
            None => None,
        }
    }

    /// The number of a sort.
    pub fn sort(&self, sort: &SortName) -> Option<u32>
        ensures { result ≡ place (same_sort sort.now) (sort_names self.now.signature.sorts) }
    {
        let number = sort_place(
            self.tables.individual,
            &self.tables.declarations.sorts,
            sort,
        )?;
        Some(number as u32)
    }

    /// Whether a user's sort has the name.
    pub fn has_sort(&self, name: &Text) -> bool
        ensures { result ≡ has same_sort (SortName.User name.now) (sort_names self.now.signature.sorts) }
    {
        self.tables.declarations.has_sort(name)
    }

    /// The number of an index.
    pub fn index(&self, index: &IndexName) -> Option<u32>
        ensures { result ≡ place (same_index index.now) (index_names self.now.signature.indexes) }
    {
        let occurring = &self.tables.occurring;
        let number = index_place(occurring.plain, &occurring.indexes, index)?;
        Some(number as u32)
    }

    /// Whether a type statement declares the symbol.
    pub fn is_declared(&self, name: &Text) -> bool
        ensures { result ≡ is_some (type_in self.now.declared name.now) }
    {
        self.tables.declarations.type_of(name).is_some()
    }
}
