//! A file with all that it includes.
ghost use Rattle.std.specs.Prelude.{◌≡◌, ◌≤◌, ◌+◌, Err, IfOk, length, map};
ghost use Rattle.nxf_tree.specs.Weight.{statement_list_weight};
ghost use Rattle.nxf_include.specs.Roots.{files_of, shelves_of, KeepEach, SomeFaultRose, EachMissRose};
ghost use Rattle.syntax_definitions.specs.Gathered.{Visits, Gathers};
ghost use Rattle.syntax_definitions.specs.Promises.{IsFine, AreFine};
ghost use Rattle.syntax_definitions.specs.Refusals.{Meets, OnNoFile};

use crate::gather_error::deep;
use crate::reading::enter;
use crate::selection::{add, add_selected};
use crate::{GatherError, Roots};
use nxf_base::{Library, List, Text};
use nxf_tree::{File, Statement};
use std::alloc::Global;
use syntax_definitions::Visited;

/// How many levels of files there may be: includes may be sixteen deep.
const LEVELS: u32 = 17;

/// The gathered file of this name: its statements, each include replaced by what it brings. Where the libraries tell their files,
/// the answer is theirs by `Gathers`, or a read fault, or want of memory. Whatever they tell, a file is absent only where each
/// library missed it, there is a read fault only where a library failed, and the file is fine.
pub fn gather(alloc: Global, roots: &mut Roots, name: &Text) -> Result<File, GatherError>
    ensures answers { Meets (files_of (shelves_of shelf roots.old)) (λ files. Gathers files name.now) result }
    ensures fine { IfOk result (λ file. IsFine file) }
    ensures no_file { OnNoFile result (EachMissRose (shelves_of shelf roots.old) (shelves_of shelf roots.new)) }
    ensures read_fault { result ≡ Err GatherError.ReadFault → SomeFaultRose (shelves_of shelf roots.old) (shelves_of shelf roots.new) }
    ensures keeps { KeepEach (shelves_of shelf roots.old) (shelves_of shelf roots.new) }
{
    gather_from(alloc, &mut roots.libraries, name)
}

/// The same over any libraries.
pub fn gather_from<L: Library>(
    alloc: Global,
    libraries: &mut [L],
    name: &Text,
) -> Result<File, GatherError>
    ensures answers { Meets (files_of (map L.shelf libraries.old)) (λ files. Gathers files name.now) result }
    ensures fine { IfOk result (λ file. IsFine file) }
    ensures no_file { OnNoFile result (EachMissRose (map L.shelf libraries.old) (map L.shelf libraries.new)) }
    ensures read_fault { result ≡ Err GatherError.ReadFault → SomeFaultRose (map L.shelf libraries.old) (map L.shelf libraries.new) }
    ensures keeps { KeepEach (map L.shelf libraries.old) (map L.shelf libraries.new) }
{
    let whole = visit(alloc, libraries, name, LEVELS, 0)?;
    Ok(File {
        statements: whole.statements,
    })
}

/// A file and all that it includes, where it may stand at so many levels, and files of this length were loaded before.
fn visit<L: Library>(
    alloc: Global,
    libraries: &mut [L],
    name: &Text,
    levels: u32,
    sum: u64,
) -> Result<Visited, GatherError>
    requires { sum ≤ 67108864 }
    ensures answers { Meets (files_of (map L.shelf libraries.old)) (λ files. Visits files levels sum name.now) result }
    ensures fine { IfOk result (λ whole. AreFine whole.statements) }
    ensures counts { IfOk result (λ whole. (whole.sum ≤ 67108864) × (sum + statement_list_weight whole.statements ≤ whole.sum)) }
    ensures no_file { OnNoFile result (EachMissRose (map L.shelf libraries.old) (map L.shelf libraries.new)) }
    ensures read_fault { result ≡ Err GatherError.ReadFault → SomeFaultRose (map L.shelf libraries.old) (map L.shelf libraries.new) }
    ensures keeps { KeepEach (map L.shelf libraries.old) (map L.shelf libraries.new) }
{
    if levels == 0 {
        return Err(deep(alloc, name));
    }
    let file = enter(alloc, libraries, name, sum)?;
    let mut sum = file.sum;
    let mut statements = List::new(alloc);
    for statement in file.statements.into_vec() {
        match statement {
            Statement::Include { file, names } => {
                let part = visit(alloc, libraries, &file, levels - 1, sum)?;
                sum = part.sum;
                add_selected(alloc, &mut statements, &file, &names, part.statements)?;
            }
            Statement::Annotated { name, role, body } => {
                add(&mut statements, Statement::Annotated { name, role, body })?;
            }
        }
    }
    Ok(Visited { statements, sum })
}
