//! The axiom of each scheme for the relation of an index: the standard first-order frame conditions.
ghost use Rattle.std.specs.Prelude.{◌≡◌, IfOk};
ghost use Rattle.nxf_tree.specs.Axioms as meant;
ghost use Rattle.nxf_tree.specs.Shapes.{And2};

use classical_syntax::{both, for_each_world, for_some_world, implies, reaches, same_worlds};
use nxf_base::Memory;
use nxf_tree::{Formula, IndexName, Scheme};
use std::alloc::Global;

// the worlds that an axiom speaks of
const W: u64 = 0;

const V: u64 = 1;

const U: u64 = 2;

const X: u64 = 3;

/// The axiom of a scheme for an index.
pub fn axiom(alloc: Global, index: &IndexName, scheme: Scheme) -> Result<Formula, Memory>
    ensures { IfOk result (λ f. f ≡ meant.frame_axiom index.now scheme) }
{
    match scheme {
        Scheme::T => for_each_world(alloc, W, reaches(alloc, index, W, W)?),
        Scheme::D => serial(alloc, index),
        Scheme::B => symmetric(alloc, index),
        Scheme::Four => transitive(alloc, index),
        Scheme::Five => euclidean(alloc, index),
        Scheme::CD => functional(alloc, index),
        Scheme::BoxM => shift_reflexive(alloc, index),
        Scheme::C4 => dense(alloc, index),
        Scheme::C => convergent(alloc, index),
        Scheme::U => for_pairs(alloc, reaches(alloc, index, W, V)?),
    }
}

fn for_pairs(alloc: Global, body: Formula) -> Result<Formula, Memory>
    ensures { IfOk result (λ f. f ≡ meant.for_each_world 0 (meant.for_each_world 1 body)) }
{
    let inner = for_each_world(alloc, V, body)?;
    for_each_world(alloc, W, inner)
}

fn for_triples(alloc: Global, body: Formula) -> Result<Formula, Memory>
    ensures { IfOk result (λ f. f ≡ meant.for_each_world 0 (meant.for_each_world 1 (meant.for_each_world 2 body))) }
{
    let inner = for_each_world(alloc, U, body)?;
    for_pairs(alloc, inner)
}

/// The atoms that say that two worlds are reached from W.
fn fork(alloc: Global, index: &IndexName) -> Result<Formula, Memory>
    ensures { IfOk result (λ f. f ≡ And2 (meant.reaches index.now 0 1) (meant.reaches index.now 0 2)) }
{
    let left = reaches(alloc, index, W, V)?;
    let right = reaches(alloc, index, W, U)?;
    both(alloc, left, right)
}

fn serial(alloc: Global, index: &IndexName) -> Result<Formula, Memory>
    ensures { IfOk result (λ f. f ≡ meant.frame_axiom index.now Scheme.D) }
{
    let step = reaches(alloc, index, W, V)?;
    let some = for_some_world(alloc, V, step)?;
    for_each_world(alloc, W, some)
}

fn symmetric(alloc: Global, index: &IndexName) -> Result<Formula, Memory>
    ensures { IfOk result (λ f. f ≡ meant.frame_axiom index.now Scheme.B) }
{
    let step = reaches(alloc, index, W, V)?;
    let back = reaches(alloc, index, V, W)?;
    let body = implies(alloc, step, back)?;
    for_pairs(alloc, body)
}

fn transitive(alloc: Global, index: &IndexName) -> Result<Formula, Memory>
    ensures { IfOk result (λ f. f ≡ meant.frame_axiom index.now Scheme.Four) }
{
    let first = reaches(alloc, index, W, V)?;
    let second = reaches(alloc, index, V, U)?;
    let steps = both(alloc, first, second)?;
    let whole = reaches(alloc, index, W, U)?;
    let body = implies(alloc, steps, whole)?;
    for_triples(alloc, body)
}

fn euclidean(alloc: Global, index: &IndexName) -> Result<Formula, Memory>
    ensures { IfOk result (λ f. f ≡ meant.frame_axiom index.now Scheme.Five) }
{
    let steps = fork(alloc, index)?;
    let across = reaches(alloc, index, V, U)?;
    let body = implies(alloc, steps, across)?;
    for_triples(alloc, body)
}

fn functional(alloc: Global, index: &IndexName) -> Result<Formula, Memory>
    ensures { IfOk result (λ f. f ≡ meant.frame_axiom index.now Scheme.CD) }
{
    let steps = fork(alloc, index)?;
    let same = same_worlds(alloc, V, U)?;
    let body = implies(alloc, steps, same)?;
    for_triples(alloc, body)
}

fn shift_reflexive(alloc: Global, index: &IndexName) -> Result<Formula, Memory>
    ensures { IfOk result (λ f. f ≡ meant.frame_axiom index.now Scheme.BoxM) }
{
    let step = reaches(alloc, index, W, V)?;
    let stay = reaches(alloc, index, V, V)?;
    let body = implies(alloc, step, stay)?;
    for_pairs(alloc, body)
}

fn dense(alloc: Global, index: &IndexName) -> Result<Formula, Memory>
    ensures { IfOk result (λ f. f ≡ meant.frame_axiom index.now Scheme.C4) }
{
    let step = reaches(alloc, index, W, V)?;
    let first = reaches(alloc, index, W, U)?;
    let second = reaches(alloc, index, U, V)?;
    let steps = both(alloc, first, second)?;
    let between = for_some_world(alloc, U, steps)?;
    let body = implies(alloc, step, between)?;
    for_pairs(alloc, body)
}

fn convergent(alloc: Global, index: &IndexName) -> Result<Formula, Memory>
    ensures { IfOk result (λ f. f ≡ meant.frame_axiom index.now Scheme.C) }
{
    let steps = fork(alloc, index)?;
    let left = reaches(alloc, index, V, X)?;
    let right = reaches(alloc, index, U, X)?;
    let joined = both(alloc, left, right)?;
    let meeting = for_some_world(alloc, X, joined)?;
    let body = implies(alloc, steps, meeting)?;
    for_triples(alloc, body)
}
