//! The sizes of the columns of a table.
ghost use Rattle.std.specs.Prelude.{◌≡◌, ◌∷◌, ◌++◌, [], map, IfOk, OnOk, if◌then◌else◌};
ghost use Rattle.nxf_tree.specs.Rows.{size_at};
ghost use Rattle.fin_struct.specs.KripkeTables.{IsKripke, IsKripkeFor};
ghost use Rattle.nxf_tree.specs.Structures.{symbol_shape};
ghost use Rattle.kripke_text.specs.steps.Subjects.{IsIn, table_of};

use crate::subject::{Subject, symbol_entry, takes_world};
use fin_struct::Kripke;
use nxf_base::{List, Memory};
use nxf_tree::{Signature, SymbolEntry};
use std::alloc::Global;

/// The sizes of the columns of a table.
pub fn column_sizes(
    alloc: Global,
    over: &Signature,
    kripke: &Kripke,
    subject: Subject,
) -> Result<List<u32>, Memory>
    requires within { IsKripke kripke.now }
    requires over { IsKripkeFor over.now kripke.now }
    requires subject_in { IsIn over.now subject }
    ensures { IfOk result (λ sizes. sizes ≡ (table_of kripke.now subject).sizes) }
{
    match subject {
        Subject::Relation(_) => two_sizes(alloc, kripke.worlds(), kripke.worlds()),
        Subject::Existence(sort) => two_sizes(alloc, kripke.worlds(), kripke.size(sort)),
        Subject::Symbol(symbol) => symbol_sizes(alloc, kripke, symbol_entry(over, symbol)),
    }
}

fn two_sizes(alloc: Global, first: u32, second: u32) -> Result<List<u32>, Memory>
    ensures { IfOk result (λ sizes. sizes ≡ first ∷ second ∷ []) }
{
    let mut sizes = List::new(alloc);
    sizes.push(first)?;
    sizes.push(second)?;
    Ok(sizes)
}

fn symbol_sizes(alloc: Global, kripke: &Kripke, symbol: &SymbolEntry) -> Result<List<u32>, Memory>
    ensures { IfOk result (λ sizes. sizes ≡ (symbol_shape kripke.now.worlds kripke.now.sizes symbol.now).sizes) }
{
    let mut sizes = world_size(alloc, kripke, takes_world(symbol))?;
    add_sizes(kripke, symbol.args.as_slice(), &mut sizes)?;
    Ok(sizes)
}

fn world_size(alloc: Global, kripke: &Kripke, with_world: bool) -> Result<List<u32>, Memory>
    ensures { IfOk result (λ sizes. sizes ≡ (if with_world then kripke.now.worlds ∷ [] else [])) }
{
    let mut sizes = List::new(alloc);
    if with_world {
        sizes.push(kripke.worlds())?;
    }
    Ok(sizes)
}

fn add_sizes(kripke: &Kripke, sorts: &[u32], sizes: &mut List<u32>) -> Result<(), Memory>
    ensures { OnOk result (sizes.new ≡ sizes.old ++ map (size_at kripke.now.sizes) sorts.now) }
{
    for sort in sorts {
        sizes.push(kripke.size(*sort))?;
    }
    Ok(())
}
