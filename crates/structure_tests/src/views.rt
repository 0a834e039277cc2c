// Views: what they read, and that a caller of them in loops can say how many steps it makes at most.
ghost use Rattle.std.specs.Prelude.{◌≡◌, ◌+◌, ◌*◌, ◌<◌, ◌≤◌, length};
ghost use Rattle.fin_struct.specs.Places.{InRange};
ghost use Rattle.fin_struct.specs.Cells.{table_at};

use crate::structures::{numbers, small, small_structure};
use fin_struct::{Kripke, Structure, classical};
use std::marker::Brand;
use std::sync::ledger::{Blank, Ledger};
use std::test::Fail;
use structure_views::{KripkeView, Steps, StructureView};

// Whether a world reaches some world: at most one step for each world.
fn reaches_some<L: Ledger>(view: &KripkeView, index: u32, from: u32, steps: &mut Steps<L>) -> bool
    requires index_in { index < view.now.indexes }
    requires from_in { from < view.now.worlds }
    ensures { steps.new ≤ steps.old + view.now.worlds }
{
    for to in 0..view.worlds() {
        if view.related(index, from, to, steps) {
            return true;
        }
    }
    false
}

// Whether each world reaches some world: at most one step for each pair of worlds.
fn each_reaches_some<L: Ledger>(view: &KripkeView, index: u32, steps: &mut Steps<L>) -> bool
    requires { index < view.now.indexes }
    ensures { steps.new ≤ steps.old + view.now.worlds * view.now.worlds }
{
    for from in 0..view.worlds() {
        if !reaches_some(view, index, from, steps) {
            return false;
        }
    }
    true
}

// The same of a structure, with a counter of its own.
fn is_serial<L: Ledger>(kripke: &Kripke, index: u32, blank: Blank) -> bool
    requires name { blank.name ≡ L.name }
    requires parts { blank.parts ≡ L.parts }
    requires some { 0 < blank.parts }
    requires index_in { index < kripke.now.indexes }
{
    let mut steps = Steps::<L>::new(blank);
    each_reaches_some(&KripkeView::new(kripke), index, &mut steps)
}

#[test]
fn pairs_through_a_view(rt: HostRuntime) -> Result<(), Fail> {
    let alloc = rt.alloc();
    let mut kripke = small_structure(alloc, &small(alloc)?)?;
    kripke.set_related(0, 0, 1, true);
    assert!(rt; !is_serial::<Brand>(&kripke, 0, Blank::new(1)));
    kripke.set_related(0, 1, 1, true);
    assert!(rt; is_serial::<Brand>(&kripke, 0, Blank::new(1)));
    Ok(())
}

// What a table has at a row, with a counter of its own.
fn read<L: Ledger>(structure: &Structure, table: u32, args: &[u32], blank: Blank) -> u32
    requires name { blank.name ≡ L.name }
    requires parts { blank.parts ≡ L.parts }
    requires some { 0 < blank.parts }
    requires table_in { table < length structure.now.tables }
    requires row_in { InRange (table_at structure.now.tables table).sizes args.now }
{
    let mut steps = Steps::<L>::new(blank);
    StructureView::new(structure).get(table, args, &mut steps)
}

#[test]
fn cells_through_a_view(rt: HostRuntime) -> Result<(), Fail> {
    let alloc = rt.alloc();
    let tables = classical(alloc, &small(alloc)?)?;
    let sizes = numbers(alloc, &[2, 2, 3])?;
    let mut structure = Structure::new(alloc, &tables, &sizes)?;
    structure.set(3, &[1], 2);
    assert_eq!(rt; read::<Brand>(&structure, 3, &[1], Blank::new(1)), 2);
    assert_eq!(rt; read::<Brand>(&structure, 3, &[0], Blank::new(1)), 0);
    Ok(())
}
