//! The classical problem of a file.
ghost use Rattle.std.specs.Prelude.{◌≡◌, IfOk, IsTrue};
ghost use Rattle.nxf_tree.specs.ClassicalSignature.{classical_signature_of};
ghost use Rattle.nxf_tree.specs.Problem.{problem_of};
ghost use Rattle.nxf_tree.specs.Sorting.{FileIsOver};
ghost use Rattle.nxf_tree.specs.Text.{is_printable};
ghost use Rattle.nxf_tree.specs.declared.tree.File.{File};
ghost use Rattle.formula_cells.specs.ReadAs.{OfItsFile};
ghost use Rattle.nxf_tree.specs.Countermodels.{KeepsCountermodels};
ghost use Rattle.nxf_tree.specs.Countermodels.{KeepsWorlds};
ghost use Rattle.nxf_embed.specs.Kept.{HasOneConjectureAtMost};

use crate::added::add_axioms;
use crate::chosen::add_formulas;
use crate::declare::declarations;
use classical_signatures::classical;
use formula_cells::Checked;
use nxf_base::Memory;
use nxf_roles::Parts;
use nxf_tree::File;
use std::alloc::Global;

/// The classical problem of the file that the checked formulas and the parts are read from: the declarations of its
/// classical signature, the added axioms, and the translations of the formulas in the order of the file, premises as
/// axioms. It is over the classical signature, its countermodels are those of the file, one for one, and with as many
/// worlds, and it has at most one conjecture. There is no other error than want of memory.
pub fn embed(alloc: Global, checked: &Checked, parts: &Parts) -> Result<File, Memory>
    ensures written { IfOk result (λ made. OfItsFile checked.now parts.now (λ sig file. made ≡ problem_of sig file)) }
    ensures printable { IfOk result (λ made. OfItsFile checked.now parts.now (λ sig file. IsTrue (is_printable made))) }
    ensures over { IfOk result (λ made. OfItsFile checked.now parts.now (λ sig file. FileIsOver (classical_signature_of sig) made)) }
    ensures keeps_countermodels { IfOk result (λ made. OfItsFile checked.now parts.now (λ sig file. KeepsCountermodels sig file made)) }
    ensures equal_worlds { IfOk result (λ made. OfItsFile checked.now parts.now (λ sig file. KeepsWorlds sig file made)) }
    ensures one_conjecture { IfOk result (λ made. OfItsFile checked.now parts.now (λ sig file. HasOneConjectureAtMost made)) }
{
    let tables = classical(alloc, checked.signature())?;
    let mut statements = declarations(alloc, &tables)?;
    drop(tables);
    add_axioms(alloc, checked.signature(), &mut statements)?;
    add_formulas(alloc, checked, parts, &mut statements)?;
    Ok(File { statements })
}
