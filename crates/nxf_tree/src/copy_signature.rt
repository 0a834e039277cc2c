//! Copies of signatures.

ghost use Rattle.std.specs.Prelude.{◌≡◌, IfOk};

use crate::tree::{IndexEntry, Scheme, Signature, SortEntry, SymbolEntry};
use nxf_base::{List, Memory};
use std::alloc::Global;

impl SortEntry {
    /// An equal entry, or want of memory.
    pub fn copy(&self, alloc: Global) -> Result<SortEntry, Memory>
        ensures { IfOk result (λ e. e ≡ self.now) }
    {
        Ok(SortEntry {
            name: self.name.copy(alloc)?,
            regime: self.regime,
        })
    }
}

fn copy_numbers(alloc: Global, numbers: &List<u32>) -> Result<List<u32>, Memory>
    ensures { IfOk result (λ l. l ≡ numbers.now) }
{
    let mut copies = List::new(alloc);
    for number in numbers.as_slice() {
        copies.push(*number)?;
    }
    Ok(copies)
}

impl SymbolEntry {
    /// An equal entry, or want of memory.
    pub fn copy(&self, alloc: Global) -> Result<SymbolEntry, Memory>
        ensures { IfOk result (λ e. e ≡ self.now) }
    {
        let name = self.name.copy(alloc)?;
        Ok(SymbolEntry {
            name,
            args: copy_numbers(alloc, &self.args)?,
            gives: self.gives,
            designation: self.designation,
            locality: self.locality,
        })
    }
}

fn copy_schemes(alloc: Global, schemes: &List<Scheme>) -> Result<List<Scheme>, Memory>
    ensures { IfOk result (λ l. l ≡ schemes.now) }
{
    let mut copies = List::new(alloc);
    for scheme in schemes.as_slice() {
        copies.push(*scheme)?;
    }
    Ok(copies)
}

impl IndexEntry {
    /// An equal entry, or want of memory.
    pub fn copy(&self, alloc: Global) -> Result<IndexEntry, Memory>
        ensures { IfOk result (λ e. e ≡ self.now) }
    {
        let name = self.name.copy(alloc)?;
        Ok(IndexEntry {
            name,
            schemes: copy_schemes(alloc, &self.schemes)?,
        })
    }
}

fn copy_sorts(alloc: Global, sorts: &List<SortEntry>) -> Result<List<SortEntry>, Memory>
    ensures { IfOk result (λ l. l ≡ sorts.now) }
{
    let mut copies = List::new(alloc);
    for sort in sorts.as_slice() {
        let copied = sort.copy(alloc)?;
        copies.push(copied)?;
    }
    Ok(copies)
}

fn copy_symbols(alloc: Global, symbols: &List<SymbolEntry>) -> Result<List<SymbolEntry>, Memory>
    ensures { IfOk result (λ l. l ≡ symbols.now) }
{
    let mut copies = List::new(alloc);
    for symbol in symbols.as_slice() {
        let copied = symbol.copy(alloc)?;
        copies.push(copied)?;
    }
    Ok(copies)
}

fn copy_indexes(alloc: Global, indexes: &List<IndexEntry>) -> Result<List<IndexEntry>, Memory>
    ensures { IfOk result (λ l. l ≡ indexes.now) }
{
    let mut copies = List::new(alloc);
    for index in indexes.as_slice() {
        let copied = index.copy(alloc)?;
        copies.push(copied)?;
    }
    Ok(copies)
}

impl Signature {
    /// An equal signature, or want of memory.
    pub fn copy(&self, alloc: Global) -> Result<Signature, Memory>
        ensures { IfOk result (λ s. s ≡ self.now) }
    {
        let sorts = copy_sorts(alloc, &self.sorts)?;
        let symbols = copy_symbols(alloc, &self.symbols)?;
        Ok(Signature {
            sorts,
            symbols,
            indexes: copy_indexes(alloc, &self.indexes)?,
        })
    }
}
