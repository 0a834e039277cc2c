//! Formulas made of their parts. A part comes by value, and goes where there is no memory.
ghost use Rattle.std.specs.Prelude.{◌≡◌, IfOk};
ghost use Rattle.nxf_tree.specs.Shapes.{Not1, And2, Pair2, Quant1, Modal1};
ghost use Rattle.nxf_tree.specs.declared.tree.Formula.{Same, Differ};

use crate::copy::boxed;
use crate::tree::{Formula, IndexName, Mode, Op, Quantifier, SortName, Term};
use nxf_base::{List, Memory, Text};
use std::alloc::Global;

/// Two terms with `=` between them.
pub fn equation(alloc: Global, left: Term, right: Term) -> Result<Formula, Memory>
    ensures { IfOk result (λ f. f ≡ Same left right) }
{
    let left = boxed(alloc, left)?;
    Ok(Formula::Same(left, boxed(alloc, right)?))
}

/// Two terms with `!=` between them.
pub fn inequation(alloc: Global, left: Term, right: Term) -> Result<Formula, Memory>
    ensures { IfOk result (λ f. f ≡ Differ left right) }
{
    let left = boxed(alloc, left)?;
    Ok(Formula::Differ(left, boxed(alloc, right)?))
}

/// The negation of a formula.
pub fn negated(alloc: Global, part: Formula) -> Result<Formula, Memory>
    ensures { IfOk result (λ f. f ≡ Not1 part) }
{
    match boxed(alloc, part) {
        Ok(part) => Ok(Formula::Not(part)),
        Err(Memory) => Err(Memory),
    }
}

/// Two formulas joined by an operator.
pub fn pair(alloc: Global, op: Op, left: Formula, right: Formula) -> Result<Formula, Memory>
    ensures { IfOk result (λ f. f ≡ Pair2 op left right) }
{
    let left = boxed(alloc, left)?;
    Ok(Formula::Pair(op, left, boxed(alloc, right)?))
}

/// The conjunction of two formulas.
pub fn both(alloc: Global, left: Formula, right: Formula) -> Result<Formula, Memory>
    ensures { IfOk result (λ f. f ≡ And2 left right) }
{
    let mut parts = List::with_capacity(alloc, 2)?;
    parts.push(left)?;
    parts.push(right)?;
    Ok(Formula::And(parts))
}

/// A formula under a quantifier over one variable.
pub fn quantified(
    alloc: Global,
    quantifier: Quantifier,
    variable: Text,
    sort: SortName,
    body: Formula,
) -> Result<Formula, Memory>
    ensures { IfOk result (λ f. f ≡ Quant1 quantifier variable sort body) }
{
    match boxed(alloc, body) {
        Ok(body) => Ok(Formula::Quant(quantifier, variable, sort, body)),
        Err(Memory) => Err(Memory),
    }
}

/// A formula under a box or a diamond.
pub fn modal(alloc: Global, mode: Mode, index: IndexName, body: Formula) -> Result<Formula, Memory>
    ensures { IfOk result (λ f. f ≡ Modal1 mode index body) }
{
    match boxed(alloc, body) {
        Ok(body) => Ok(Formula::Modal(mode, index, body)),
        Err(Memory) => Err(Memory),
    }
}
