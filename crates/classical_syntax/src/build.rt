//! Small formulas about worlds and elements, as the added axioms are made of them. A part comes by value, and goes where
//! there is no memory. The definitions are those of the axioms.
ghost use Rattle.std.specs.Prelude.{◌≡◌, ◌∷◌, [], IfOk};
ghost use Rattle.nxf_tree.specs.Axioms as meant;
ghost use Rattle.nxf_tree.specs.Names as spelled;
ghost use Rattle.nxf_tree.specs.Shapes.{Pair2, Quant1};
ghost use Rattle.nxf_tree.specs.declared.tree.Formula.{Same};

use crate::names::{
    element_variable, existence_name, relation_name, user_sort, world_sort, world_variable,
};
use nxf_base::{List, Memory};
pub use nxf_tree::both;
use nxf_tree::{Formula, IndexName, Op, Quantifier, SortName, Term, equation, pair, quantified};
use std::alloc::Global;

/// The variable of a world as a term.
pub fn world(alloc: Global, number: u64) -> Result<Term, Memory>
    ensures { IfOk result (λ t. t ≡ meant.world number) }
{
    Ok(Term::Var(world_variable(alloc, number)?))
}

/// The variable of an element as a term.
pub fn element(alloc: Global, number: u64) -> Result<Term, Memory>
    ensures { IfOk result (λ t. t ≡ meant.element number) }
{
    Ok(Term::Var(element_variable(alloc, number)?))
}

/// Two terms in order.
pub fn two_terms(alloc: Global, first: Term, second: Term) -> Result<List<Term>, Memory>
    ensures { IfOk result (λ l. l ≡ first ∷ second ∷ []) }
{
    let mut terms = List::with_capacity(alloc, 2)?;
    terms.push(first)?;
    terms.push(second)?;
    Ok(terms)
}

/// The atom that says that world `to` is reached from world `from` for an index.
pub fn reaches(alloc: Global, index: &IndexName, from: u64, to: u64) -> Result<Formula, Memory>
    ensures { IfOk result (λ f. f ≡ meant.reaches index.now from to) }
{
    let name = relation_name(alloc, index)?;
    let from = world(alloc, from)?;
    let to = world(alloc, to)?;
    Ok(Formula::Atom(name, two_terms(alloc, from, to)?))
}

/// The atom that says that an element of a sort exists at a world.
pub fn exists_at(alloc: Global, sort: &SortName, at: u64, what: u64) -> Result<Formula, Memory>
    ensures { IfOk result (λ f. f ≡ meant.exists_at sort.now at what) }
{
    let name = existence_name(alloc, sort)?;
    let at = world(alloc, at)?;
    let what = element(alloc, what)?;
    Ok(Formula::Atom(name, two_terms(alloc, at, what)?))
}

/// The equation of two worlds.
pub fn same_worlds(alloc: Global, left: u64, right: u64) -> Result<Formula, Memory>
    ensures { IfOk result (λ f. f ≡ Same (meant.world left) (meant.world right)) }
{
    let left = world(alloc, left)?;
    equation(alloc, left, world(alloc, right)?)
}

/// An implication.
pub fn implies(alloc: Global, left: Formula, right: Formula) -> Result<Formula, Memory>
    ensures { IfOk result (λ f. f ≡ Pair2 Op.Implies left right) }
{
    pair(alloc, Op::Implies, left, right)
}

/// What holds of every world.
pub fn for_each_world(alloc: Global, number: u64, body: Formula) -> Result<Formula, Memory>
    ensures { IfOk result (λ f. f ≡ meant.for_each_world number body) }
{
    over_worlds(alloc, Quantifier::All, number, body)
}

/// What holds of some world.
pub fn for_some_world(alloc: Global, number: u64, body: Formula) -> Result<Formula, Memory>
    ensures { IfOk result (λ f. f ≡ meant.for_some_world number body) }
{
    over_worlds(alloc, Quantifier::Exists, number, body)
}

fn over_worlds(
    alloc: Global,
    quantifier: Quantifier,
    number: u64,
    body: Formula,
) -> Result<Formula, Memory>
    ensures { IfOk result (λ f. f ≡ Quant1 quantifier (spelled.world_variable number) (SortName.User spelled.world_name) body) }
{
    let variable = world_variable(alloc, number)?;
    let sort = world_sort(alloc)?;
    quantified(alloc, quantifier, variable, sort, body)
}

/// What holds of every element of a sort, existing or not.
pub fn for_each_element(
    alloc: Global,
    number: u64,
    sort: &SortName,
    body: Formula,
) -> Result<Formula, Memory>
    ensures { IfOk result (λ f. f ≡ meant.for_each_element number sort.now body) }
{
    over_elements(alloc, Quantifier::All, number, sort, body)
}

/// What holds of some element of a sort, existing or not.
pub fn for_some_element(
    alloc: Global,
    number: u64,
    sort: &SortName,
    body: Formula,
) -> Result<Formula, Memory>
    ensures { IfOk result (λ f. f ≡ meant.for_some_element number sort.now body) }
{
    over_elements(alloc, Quantifier::Exists, number, sort, body)
}

fn over_elements(
    alloc: Global,
    quantifier: Quantifier,
    number: u64,
    sort: &SortName,
    body: Formula,
) -> Result<Formula, Memory>
    ensures { IfOk result (λ f. f ≡ Quant1 quantifier (spelled.element_variable number) (spelled.user_sort sort.now) body) }
{
    let variable = element_variable(alloc, number)?;
    let sort = user_sort(alloc, sort)?;
    quantified(alloc, quantifier, variable, sort, body)
}
