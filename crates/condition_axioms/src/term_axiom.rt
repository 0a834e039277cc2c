//! The parts of the axiom of a function: its value, the guards of its arguments, and the quantifiers over them.
ghost use Rattle.std.specs.Prelude.{◌≡◌, ◌∷◌, [], ◌++◌, if◌then◌else◌, map, IfOk, OnOk, IsTrue};
ghost use Rattle.std.specs.List.{list_all};
ghost use Rattle.nxf_tree.specs.Axioms as meant;
ghost use Rattle.nxf_tree.specs.Embedding.{at_world};
ghost use Rattle.nxf_tree.specs.Signature as signatures;
ghost use Rattle.nxf_tree.specs.Sorting.{in_range};
ghost use Rattle.nxf_tree.specs.WellFormed.{IsWellFormed};
ghost use Rattle.condition_axioms.specs.steps.Listed.{elements_upto, value_term, value_of};

use classical_syntax::{
    element, existence_name, exists_at, for_each_element, implies, is_constant,
    is_flexible_designation, sort_at, two_terms, user_name, world,
};
use nxf_base::{List, Memory};
use nxf_tree::{Formula, Signature, SortName, SymbolEntry, Term};
use std::alloc::Global;

// the world that an axiom speaks of
const W: u64 = 0;

/// The atom that says that the function's value exists.
pub fn value_exists(alloc: Global, symbol: &SymbolEntry, sort: &SortName) -> Result<Formula, Memory>
    ensures { IfOk result (λ f. f ≡ value_of symbol.now sort.now) }
{
    let value = value(alloc, symbol)?;
    let name = existence_name(alloc, sort)?;
    let at = world(alloc, W)?;
    Ok(Formula::Atom(name, two_terms(alloc, at, value)?))
}

/// The function's value for the elements of the row.
fn value(alloc: Global, symbol: &SymbolEntry) -> Result<Term, Memory>
    ensures { IfOk result (λ t. t ≡ value_term symbol.now) }
{
    let name = user_name(alloc, &symbol.name)?;
    let terms = row_terms(
        alloc,
        is_flexible_designation(symbol.designation),
        symbol.args.len(),
    )?;
    Ok(Term::App(name, terms))
}

/// The elements of a row, with the world in front where the function depends on it.
fn row_terms(alloc: Global, flexible: bool, count: usize) -> Result<List<Term>, Memory>
    ensures { IfOk result (λ terms. terms ≡ at_world flexible (meant.world 0) (elements_upto 0 count)) }
{
    let mut terms = front(alloc, flexible)?;
    for number in 0..count {
        terms.push(element(alloc, number as u64)?)?;
    }
    Ok(terms)
}

/// The world where the function depends on it, else nothing.
fn front(alloc: Global, flexible: bool) -> Result<List<Term>, Memory>
    ensures { IfOk result (λ terms. terms ≡ at_world flexible (meant.world 0) []) }
{
    if !flexible {
        return Ok(List::new(alloc));
    }
    let mut terms = List::new(alloc);
    terms.push(world(alloc, W)?)?;
    Ok(terms)
}

/// For each element of a row of the sorts with these numbers that isn't constant, the atom that says that it exists.
pub fn row_guards(
    alloc: Global,
    signature: &Signature,
    sorts: &[u32],
) -> Result<List<Formula>, Memory>
    requires well_formed { IsWellFormed signature.now }
    requires in_range { IsTrue (list_all (in_range signature.now.sorts) sorts.now) }
    ensures { IfOk result (λ guards. guards ≡ meant.row_guards signature.now 0 (map (signatures.sort_at signature.now.sorts) sorts.now)) }
{
    let mut guards = List::new(alloc);
    for (place, number) in sorts.iter().enumerate() {
        add_guard(alloc, signature, *number, place as u64, &mut guards)?;
    }
    Ok(guards)
}

/// Adds the guard of an element of the sort with the number, unless the sort is constant.
fn add_guard(
    alloc: Global,
    signature: &Signature,
    number: u32,
    place: u64,
    guards: &mut List<Formula>,
) -> Result<(), Memory>
    requires well_formed { IsWellFormed signature.now }
    requires in_range { IsTrue (in_range signature.now.sorts number) }
    ensures { OnOk result (guards.new ≡ guards.old ++ (if signatures.is_constant signature.now (signatures.sort_at signature.now.sorts number) then [] else meant.exists_at (signatures.sort_at signature.now.sorts number) 0 place ∷ [])) }
{
    if is_constant(signature, number) {
        return Ok(());
    }
    guards.push(exists_at(alloc, sort_at(signature, number), W, place)?)?;
    Ok(())
}

/// A formula under its guards: one stands alone, several are joined.
pub fn under_guards(alloc: Global, guards: List<Formula>, body: Formula) -> Result<Formula, Memory>
    ensures { IfOk result (λ f. f ≡ meant.under_guards guards body) }
{
    if guards.len() > 1 {
        return implies(alloc, Formula::And(guards), body);
    }
    match guards.into_vec().pop() {
        Some(guard) => implies(alloc, guard, body),
        None => Ok(body),
    }
}

/// What holds of every row of elements of the sorts with these numbers.
pub fn for_each_row(
    alloc: Global,
    signature: &Signature,
    sorts: &[u32],
    body: Formula,
) -> Result<Formula, Memory>
    requires { IsTrue (list_all (in_range signature.now.sorts) sorts.now) }
    ensures { IfOk result (λ f. f ≡ meant.for_each_row 0 (map (signatures.sort_at signature.now.sorts) sorts.now) body) }
{
    let mut row = body;
    let mut place = sorts.len();
    while place > 0 {
        place -= 1;
        row = for_each_element(alloc, place as u64, sort_at(signature, sorts[place]), row)?;
    }
    Ok(row)
}
