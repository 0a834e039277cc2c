//! The added axioms as statements.
ghost use Rattle.std.specs.Prelude.{◌≡◌, ◌+◌, ◌∷◌, [], ◌++◌, length, IfOk, OnOk};
ghost use Rattle.nxf_tree.specs.Axioms.{added_axioms};
ghost use Rattle.nxf_tree.specs.Problem.{axiom_statements};
ghost use Rattle.nxf_tree.specs.WellFormed.{IsWellFormed};

use crate::declare::formula_statement;
use classical_syntax::axiom_name;
use condition_axioms::{designation, domains, frames};
use nxf_base::{List, Memory};
use nxf_tree::{Formula, Signature, Statement};
use std::alloc::Global;

/// Adds the axioms of a signature, numbered from 1: frames by index and scheme, domains by sort, terms by symbol.
pub fn add_axioms(
    alloc: Global,
    signature: &Signature,
    statements: &mut List<Statement>,
) -> Result<(), Memory>
    requires { IsWellFormed signature.now }
    ensures { OnOk result (statements.new ≡ statements.old ++ axiom_statements 1 (added_axioms signature.now)) }
{
    let of_frames = frames::axioms(alloc, signature)?;
    let next = add_numbered(alloc, 1, of_frames, statements)?;
    let of_domains = domains::axioms(alloc, signature)?;
    let next = add_numbered(alloc, next, of_domains, statements)?;
    let of_terms = designation::axioms(alloc, signature)?;
    add_numbered(alloc, next, of_terms, statements)?;
    Ok(())
}

/// Adds axioms whose numbers begin with `first`, and answers with the number of the next one.
fn add_numbered(
    alloc: Global,
    first: u64,
    axioms: List<Formula>,
    statements: &mut List<Statement>,
) -> Result<u64, Memory>
    ensures added { OnOk result (statements.new ≡ statements.old ++ axiom_statements first axioms) }
    ensures next { IfOk result (λ next. next ≡ first + length axioms) }
{
    let mut number = first;
    for formula in axioms.into_vec() {
        add_axiom(alloc, number, formula, statements)?;
        // no memory holds as many axioms as there are numbers
        let Some(next) = number.checked_add(1) else {
            return Err(Memory);
        };
        number = next;
    }
    Ok(number)
}

fn add_axiom(
    alloc: Global,
    number: u64,
    formula: Formula,
    statements: &mut List<Statement>,
) -> Result<(), Memory>
    ensures { OnOk result (statements.new ≡ statements.old ++ axiom_statements number (formula ∷ [])) }
{
    let name = axiom_name(alloc, number)?;
    statements.push(formula_statement(alloc, name.bytes(), b"axiom", formula)?)?;
    Ok(())
}
