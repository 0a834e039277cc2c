//! The sort check of a file.

ghost use Rattle.std.specs.Prelude.{◌≡◌, ◌-◌, ◌^◌, ◌<◌, min, max, length, IfOk, Ok, Some};
ghost use Rattle.nxf_tree.specs.FileDepth.{statement_depth, statement_list_depth};
ghost use Rattle.nxf_tree.specs.Occurrences.{declared};
ghost use Rattle.nxf_tree.specs.SignatureOf.{firsts, same_symbol, signature_of};
ghost use Rattle.nxf_tree.specs.SortFaults.{sort_fault_of};
ghost use Rattle.nxf_tree.specs.Specification.{spec_of};
ghost use Rattle.logic_spec.specs.Asked.{asked_by};
ghost use Rattle.nxf_tree.specs.Weight.{file_weight};
ghost use Rattle.nxf_tree.specs.WellFormed.{IsWellFormed};
ghost use Rattle.nxf_tree.specs.declared.profile.Profile.TheVariants as profiles;
ghost use Rattle.nxf_tree.specs.Regular.{IsRegular};
ghost use Rattle.nxf_tree.specs.Profiles.{allowed_in};
ghost use Rattle.numbered_definitions.specs.NamedForm.{all_named, formulas_of};
ghost use Rattle.formula_cells.specs.Stored.{formulas_in};
ghost use Rattle.nxf_sorts.specs.Judging.{JudgesFile};

use crate::error::SortError;
use crate::overrides::judge_overrides;
use crate::statements::number_statements;
use crate::typing::judge_typings;
use formula_cells::{Cells, Checked};
use logic_spec::Spec;
use nxf_signatures::Names;
use nxf_tree::{Body, File, Statement};
use std::alloc::Global;

/// The depth of a statement's formula, or 0 where it has none.
fn depth_of(statement: &Statement) -> usize
    ensures { result ≡ min (statement_depth statement.now) (2 ^ 64 - 1) }
{
    match statement {
        Statement::Annotated {
            name: _,
            role: _,
            body,
        } => match body {
            Body::Formula(formula) => formula.depth(),
            Body::Typing(_) => 0,
            Body::Logic(_) => 0,
        },
        Statement::Include { file: _, names: _ } => 0,
    }
}

fn larger(a: usize, b: usize) -> usize
    ensures { result ≡ max a b }
{
    if a < b { b } else { a }
}

/// The greatest depth of the formulas of statements.
fn greatest_depth(statements: &[Statement]) -> usize
    ensures { result ≡ min (statement_list_depth statements.now) (2 ^ 64 - 1) }
{
    let mut deepest = 0;
    for statement in statements {
        deepest = larger(deepest, depth_of(statement));
    }
    deepest
}

/// The formulas of a file as cells, with numbers for names; or the first fault of its type statements, formulas and overrides.
fn number_file(alloc: Global, names: &Names, file: &File, spec: &Spec) -> Result<Cells, SortError>
    requires signature { names.now.signature ≡ signature_of (asked_by spec.now) file.now }
    requires declared { names.now.declared ≡ firsts same_symbol (declared file.now.statements) }
    requires few { length file.now.statements < 2 ^ 31 }
    ensures judged { JudgesFile (sort_fault_of (asked_by spec.now) file.now) result }
    ensures formulas { IfOk result (λ cells. all_named names.now.signature (formulas_in cells) ≡ Some (formulas_of file.now)) }
{
    let statements = file.statements.as_slice();
    judge_typings(alloc, names, statements)?;
    let cells = number_statements(alloc, names, statements)?;
    judge_overrides(alloc, names, spec.place(), spec.overrides())?;
    Ok(cells)
}

/// The sort check: formulas with numbers for names, over the signature of the file; or the first fault of its type
/// statements, then of its formulas, then of the overrides of its logic statement. `spec` is what the logic statement
/// says. There is no other error than that first fault and want of memory.
pub fn check(alloc: Global, file: &File, spec: &Spec) -> Result<Checked, SortError>
    requires spec { spec_of file.now ≡ Ok (asked_by spec.now) }
    requires regular { IsRegular (allowed_in profiles.Problem) file.now }
    requires weight { file_weight file.now < 2 ^ 31 }
    ensures judged { JudgesFile (sort_fault_of (asked_by spec.now) file.now) result }
    ensures signature { IfOk result (λ c. c.signature ≡ signature_of (asked_by spec.now) file.now) }
    ensures well_formed { IfOk result (λ c. IsWellFormed c.signature) }
    ensures formulas { IfOk result (λ c. all_named c.signature c.formulas ≡ Some (formulas_of file.now)) }
{
    let names = Names::of(alloc, file, spec)?;
    let cells = number_file(alloc, &names, file, spec)?;
    let depth = greatest_depth(file.statements.as_slice());
    Ok(Checked::new(names.into_signature(), cells, depth))
}
