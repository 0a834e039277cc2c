// Formulas over one sort and one predicate.
ghost use Rattle.std.specs.Prelude.{◌≡◌, IfOk};
ghost use Rattle.std.specs.List.{All};
ghost use Rattle.classical_evaluation_definitions.specs.ClassicalSorting.{HasClassicalFormulas};
ghost use Rattle.evaluation_tests.specs.Flat.{flat, IsFlat};

use classical_syntax::{actual_name, world_sort};
use nxf_base::{List, Memory, Text};
use nxf_tree::{
    Body, ClassicalSignature, File, Formula, Op, Quantifier, Role, Statement, TableEntry, Term,
    negated, pair, quantified,
};
use std::alloc::Global;

// The sort of worlds, and a predicate of a world.
pub fn signature(alloc: Global) -> Result<ClassicalSignature, Memory>
    ensures { IfOk result (λ over. over ≡ flat) }
{
    let mut sorts = List::new(alloc);
    sorts.push(world_sort(alloc)?)?;
    let mut args = List::new(alloc);
    args.push(0)?;
    let name = Text::from_bytes(alloc, b"p")?;
    let mut tables = List::new(alloc);
    tables.push(TableEntry {
        name,
        args,
        gives: None,
    })?;
    Ok(ClassicalSignature { sorts, tables })
}

// The predicate of the actual world.
pub fn atom(alloc: Global) -> Result<Formula, Memory>
    ensures { IfOk result IsFlat }
{
    let actual = Term::App(actual_name(alloc)?, List::new(alloc));
    let mut args = List::new(alloc);
    args.push(actual)?;
    let name = Text::from_bytes(alloc, b"p")?;
    Ok(Formula::Atom(name, args))
}

// That it isn't so of the actual world, so many times.
pub fn conjunction(alloc: Global, count: usize) -> Result<Formula, Memory>
    ensures { IfOk result IsFlat }
{
    let mut parts = List::new(alloc);
    'more: for _ in 0..count {
        parts.push(negated(alloc, atom(alloc)?)?)?;
    }
    Ok(Formula::And(parts))
}

// For each world: where the atom holds, the same again, so many times; and at last the atom.
pub fn nest(alloc: Global, depth: usize) -> Result<Formula, Memory>
    ensures { IfOk result IsFlat }
{
    let mut formula = atom(alloc)?;
    'deeper: for _ in 0..depth {
        let guarded = pair(alloc, Op::Implies, atom(alloc)?, formula)?;
        let variable = Text::from_bytes(alloc, b"W")?;
        formula = quantified(
            alloc,
            Quantifier::All,
            variable,
            world_sort(alloc)?,
            guarded,
        )?;
    }
    Ok(formula)
}

// A file with this axiom alone.
pub fn alone(alloc: Global, formula: Formula) -> Result<File, Memory>
    requires { IsFlat formula }
    ensures { IfOk result (HasClassicalFormulas flat) }
{
    let role = Role {
        word: Text::from_bytes(alloc, b"axiom")?,
        suffix: None,
    };
    let mut statements = List::new(alloc);
    statements.push(Statement::Annotated {
        name: Text::from_bytes(alloc, b"a")?,
        role,
        body: Body::Formula(formula),
    })?;
    Ok(File { statements })
}
