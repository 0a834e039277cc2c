//! The variables of enclosing quantifiers, from the outside in.
ghost use Rattle.std.specs.Prelude.{◌≡◌, ◌++◌, ◌∷◌, [], true, false, OnOk, IfOk, MatchOption, Some};
ghost use Rattle.nxf_tree.specs.Counting.{has};
ghost use Rattle.nxf_tree.specs.Names.{same_text};
ghost use Rattle.numbered_definitions.specs.NamedForm.{variable};
ghost use Rattle.formula_cells.specs.Putting.{PutsTerm};
ghost use Rattle.classical_numbering.specs.steps.Numbering.{IsVariable};

use formula_cells::Cells;
use nxf_base::{Memory, Text};
use std::alloc::Global;

/// The level of the innermost quantifier that binds a variable, counted from the outside and from 0.
fn level_of(binders: &[Text], name: &Text) -> Option<usize>
    ensures { MatchOption result (has same_text name.now binders.now ≡ false) (λ k. variable binders.now k ≡ Some name.now) }
{
    for level in (0..binders.len()).rev() {
        if binders[level].bytes() == name.bytes() {
            return Some(level);
        }
    }
    None
}

/// The cell of a variable that some quantifier binds.
pub(crate) fn put_variable(
    binders: &[Text],
    cells: &mut Cells,
    name: &Text,
) -> Result<usize, Memory>
    requires { has same_text name.now binders.now ≡ true }
    ensures { IfOk result (PutsTerm (IsVariable binders.now name.now) cells.old cells.new) }
{
    let Some(level) = level_of(binders, name) else {
        unreachable!();
    };
    // no memory holds a formula that is nested as deep as numbers of 32 bits go
    if level > 0xffff_ffff {
        return Err(Memory);
    }
    cells.put_bound(level as u32)
}

/// Enters a quantifier: its variable is the last binder.
pub(crate) fn enter(alloc: Global, binders: &mut Vec<Text>, variable: &Text) -> Result<(), Memory>
    ensures { OnOk result (binders.new.items ≡ binders.old.items ++ variable.now ∷ []) }
{
    binders.push(variable.copy(alloc)?)?;
    Ok(())
}
