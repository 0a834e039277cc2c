//! The tables of a file's names.

ghost use Rattle.std.specs.Prelude.{◌≡◌, ◌||◌, IfOk, Ok};
ghost use Rattle.std.specs.List.{list_any};
ghost use Rattle.nxf_tree.specs.SignatureOf.{mentions_individual};
ghost use Rattle.nxf_signatures.specs.steps.Tables.{uses_in};
ghost use Rattle.nxf_tree.specs.Specification.{spec_of};
ghost use Rattle.logic_spec.specs.Asked.{asked_by};
ghost use Rattle.nxf_signatures.specs.steps.TablesOf.{AreTablesOf};

use crate::declarations::Declarations;
use crate::occurring::Occurring;
use crate::signature::any_has_individual;
use logic_spec::Spec;
use nxf_base::Memory;
use nxf_tree::File;
use std::alloc::Global;

/// What is declared, what occurs, and whether `$i` is one of the sorts.
#[derive(Drop)]
pub struct Tables {
    pub declarations: Declarations,
    pub occurring: Occurring,
    pub individual: bool,
}

/// Whether `$i` occurs: in the type of a symbol, or as the sort of a variable or the subject of a type statement.
fn has_individual(occurring: &Occurring) -> bool
    ensures { result ≡ (list_any mentions_individual (uses_in occurring.now.symbols.entries) || occurring.now.individual) }
{
    if any_has_individual(&occurring.symbols) {
        return true;
    }
    occurring.individual
}

/// The tables of a file. There is no other error than want of memory.
pub fn tables_of(alloc: Global, file: &File, spec: &Spec) -> Result<Tables, Memory>
    requires { spec_of file.now ≡ Ok (asked_by spec.now) }
    ensures { IfOk result (λ t. AreTablesOf file.now.statements t) }
{
    let statements = file.statements.as_slice();
    let declarations = Declarations::of(alloc, statements)?;
    let occurring = Occurring::of(alloc, &declarations, spec.overrides(), statements)?;
    let individual = has_individual(&occurring);
    Ok(Tables {
        declarations,
        occurring,
        individual,
    })
}
