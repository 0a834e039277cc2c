// Files are judged in structures in which the predicate holds nowhere.
ghost use Rattle.std.specs.Prelude.{◌≡◌, ◌<◌};
ghost use Rattle.classical_evaluation_definitions.specs.ClassicalSorting.{HasClassicalFormulas};
ghost use Rattle.evaluation_tests.specs.Flat.{flat};

use crate::formulas::{alone, conjunction, nest, signature};
use fin_struct::Structure;
use nxf_base::{List, Memory};
use nxf_tree::File;
use std::alloc::Global;
use std::marker::Brand;
use std::sync::ledger::{Blank, Ledger};
use std::test::Fail;
use structure_views::{Steps, StructureView};
use tf0_eval::{Eval, prepare};

// The first fault of a file in a structure with so many worlds.
fn fault_in<L: Ledger>(
    alloc: Global,
    file: &File,
    worlds: u32,
    blank: Blank,
) -> Result<Option<usize>, Fail>
    requires formulas { HasClassicalFormulas flat file.now }
    requires worlds { 0 < worlds }
    requires name { blank.name ≡ L.name }
    requires parts { blank.parts ≡ L.parts }
    requires some { 0 < blank.parts }
{
    let over = signature(alloc)?;
    let mut sizes = List::new(alloc);
    sizes.push(worlds)?;
    let structure = Structure::new(alloc, &over, &sizes)?;
    let prepared = prepare(alloc, file, &over)?;
    let mut eval = Eval::new(alloc, &prepared, &structure)?;
    let view = StructureView::new(&structure);
    let mut steps = Steps::<L>::new(blank);
    Ok(eval.first_fault(&prepared, &view, &mut steps))
}

#[test]
fn conjunction_of_a_hundred_thousand_atoms(rt: HostRuntime) -> Result<(), Fail> {
    let alloc = rt.alloc();
    let file = alone(alloc, conjunction(alloc, 100_000)?)?;
    assert_eq!(rt; fault_in::<Brand>(alloc, &file, 1, Blank::new(1))?, None);
    Ok(())
}

// As deep as a printed problem is: two levels for each modality of a formula that is nested a thousand deep.
#[test]
fn four_thousand_levels(rt: HostRuntime) -> Result<(), Fail> {
    let alloc = rt.alloc();
    let file = alone(alloc, nest(alloc, 2_000)?)?;
    assert_eq!(rt; fault_in::<Brand>(alloc, &file, 1, Blank::new(1))?, None);
    Ok(())
}

#[test]
fn ten_million_atoms(rt: HostRuntime) -> Result<(), Fail> {
    let alloc = rt.alloc();
    let file = alone(alloc, nest(alloc, 2)?)?;
    assert_eq!(rt;
        fault_in::<Brand>(alloc, &file, 2_300, Blank::new(1))?,
        None
    );
    Ok(())
}
