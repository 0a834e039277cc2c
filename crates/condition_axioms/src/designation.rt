//! The axioms of all local functions of a signature.
ghost use Rattle.std.specs.Prelude.{◌≡◌, ◌++◌, IfOk, OnOk, IsTrue};
ghost use Rattle.std.specs.Option.{option_map};
ghost use Rattle.nxf_tree.specs.Axioms as meant;
ghost use Rattle.nxf_tree.specs.Countermodels.{Say};
ghost use Rattle.nxf_tree.specs.Conditions.{argument_sorts, meets_terms};
ghost use Rattle.nxf_tree.specs.Conditions as condition;
ghost use Rattle.nxf_tree.specs.Sorting.{gives_in_range};
ghost use Rattle.nxf_tree.specs.WellFormed.{IsWellFormed};
ghost use Rattle.condition_axioms.specs.steps.Listed.{IsListed};

use crate::term_axiom::{for_each_row, row_guards, under_guards, value_exists};
use classical_syntax::{for_each_world, is_constant, sort_at};
use nxf_base::{List, Memory};
use nxf_tree::{Formula, Locality, Signature, SortName, SymbolEntry};
use std::alloc::Global;

/// The axioms of the values: for each local function into a sort that isn't constant that its value exists at each world
/// where its arguments exist. In a classical structure they are true exactly where the functions of the corresponding
/// Kripke structure meet this condition.
pub fn axioms(alloc: Global, signature: &Signature) -> Result<List<Formula>, Memory>
    requires { IsWellFormed signature.now }
    ensures written { IfOk result (λ made. made ≡ meant.term_axioms signature.now) }
    ensures say { IfOk result (λ made. Say signature.now made meets_terms) }
{
    let mut made = List::new(alloc);
    for symbol in signature.symbols.as_slice() {
        add_axiom(alloc, signature, symbol, &mut made)?;
    }
    Ok(made)
}

/// Adds the axiom of a symbol, where it has one.
fn add_axiom(
    alloc: Global,
    signature: &Signature,
    symbol: &SymbolEntry,
    made: &mut List<Formula>,
) -> Result<(), Memory>
    requires well_formed { IsWellFormed signature.now }
    requires listed { IsListed signature.now symbol.now }
    ensures { OnOk result (made.new ≡ made.old ++ meant.result_axioms signature.now symbol.now.name (argument_sorts signature.now symbol.now) (condition.local_result signature.now symbol.now.gives symbol.now.locality)) }
{
    if let Some(sort) = local_result(signature, symbol) {
        made.push(axiom(alloc, signature, symbol, sort)?)?;
    }
    Ok(())
}

/// The sort of the values of a local function, where it isn't constant.
fn local_result<'a>(signature: &'a Signature, symbol: &SymbolEntry) -> Option<&'a SortName>
    requires well_formed { IsWellFormed signature.now }
    requires listed { IsListed signature.now symbol.now }
    ensures { option_map (λ sort. sort.now) result ≡ condition.local_result signature.now symbol.now.gives symbol.now.locality }
{
    match symbol.locality {
        Locality::Local => varying_result(signature, symbol.gives),
        Locality::Global => None,
    }
}

fn varying_result(signature: &Signature, gives: Option<u32>) -> Option<&SortName>
    requires well_formed { IsWellFormed signature.now }
    requires in_range { IsTrue (gives_in_range signature.now.sorts gives) }
    ensures { option_map (λ sort. sort.now) result ≡ condition.varying_result signature.now gives }
{
    match gives {
        Some(number) => {
            if is_constant(signature, number) {
                None
            } else {
                Some(sort_at(signature, number))
            }
        }
        None => None,
    }
}

/// The axiom of a function into a sort.
fn axiom(
    alloc: Global,
    signature: &Signature,
    symbol: &SymbolEntry,
    sort: &SortName,
) -> Result<Formula, Memory>
    requires well_formed { IsWellFormed signature.now }
    requires listed { IsListed signature.now symbol.now }
    ensures { IfOk result (λ f. f ≡ meant.term_axiom signature.now symbol.now.name (argument_sorts signature.now symbol.now) sort.now) }
{
    let value = value_exists(alloc, symbol, sort)?;
    let guards = row_guards(alloc, signature, symbol.args.as_slice())?;
    let guarded = under_guards(alloc, guards, value)?;
    let row = for_each_row(alloc, signature, symbol.args.as_slice(), guarded)?;
    for_each_world(alloc, 0, row)
}
