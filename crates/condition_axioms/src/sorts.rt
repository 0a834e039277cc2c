//! The axioms of one sort that isn't constant.
ghost use Rattle.std.specs.Prelude.{◌≡◌, IfOk};
ghost use Rattle.nxf_tree.specs.Axioms as meant;

use classical_syntax::{
    both, exists_at, for_each_element, for_each_world, for_some_element, for_some_world, implies,
    reaches,
};
use nxf_base::Memory;
use nxf_tree::{Formula, IndexName, SortName};
use std::alloc::Global;

// the worlds and the element that an axiom speaks of
const W: u64 = 0;

const V: u64 = 1;

const X: u64 = 0;

/// At each world some element exists.
pub fn someone(alloc: Global, sort: &SortName) -> Result<Formula, Memory>
    ensures { IfOk result (λ f. f ≡ meant.someone_axiom sort.now) }
{
    let there = exists_at(alloc, sort, W, X)?;
    let some = for_some_element(alloc, X, sort, there)?;
    for_each_world(alloc, W, some)
}

/// Each element exists at some world.
pub fn everyone(alloc: Global, sort: &SortName) -> Result<Formula, Memory>
    ensures { IfOk result (λ f. f ≡ meant.everyone_axiom sort.now) }
{
    let there = exists_at(alloc, sort, W, X)?;
    let some = for_some_world(alloc, W, there)?;
    for_each_element(alloc, X, sort, some)
}

/// What exists at a world exists at each that is reached from it.
pub fn stay(alloc: Global, sort: &SortName, index: &IndexName) -> Result<Formula, Memory>
    ensures { IfOk result (λ f. f ≡ meant.stay_axiom sort.now index.now) }
{
    let step = reaches(alloc, index, W, V)?;
    let before = exists_at(alloc, sort, W, X)?;
    let guard = both(alloc, step, before)?;
    let after = exists_at(alloc, sort, V, X)?;
    let body = implies(alloc, guard, after)?;
    everywhere(alloc, sort, body)
}

/// What exists at a world exists at each from which it is reached.
pub fn were_there(alloc: Global, sort: &SortName, index: &IndexName) -> Result<Formula, Memory>
    ensures { IfOk result (λ f. f ≡ meant.were_there_axiom sort.now index.now) }
{
    let step = reaches(alloc, index, W, V)?;
    let after = exists_at(alloc, sort, V, X)?;
    let guard = both(alloc, step, after)?;
    let before = exists_at(alloc, sort, W, X)?;
    let body = implies(alloc, guard, before)?;
    everywhere(alloc, sort, body)
}

/// For two worlds and an element.
fn everywhere(alloc: Global, sort: &SortName, body: Formula) -> Result<Formula, Memory>
    ensures { IfOk result (λ f. f ≡ meant.for_each_world 0 (meant.for_each_world 1 (meant.for_each_element 0 sort.now body))) }
{
    let of_elements = for_each_element(alloc, X, sort, body)?;
    let of_worlds = for_each_world(alloc, V, of_elements)?;
    for_each_world(alloc, W, of_worlds)
}
