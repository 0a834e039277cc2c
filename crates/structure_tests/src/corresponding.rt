// Structures that correspond, made from each other, and the rows of a table.
ghost use Rattle.std.specs.Prelude.{◌<◌};
ghost use Rattle.fin_struct.specs.KripkeTables.{IsKripkeFor};

use crate::structures::{sized_structure, small, small_structure};
use fin_struct::{Kripke, Rows};
use kripke_build::{lift, lower};
use nxf_tree::Signature;
use std::test::Fail;

// Relates two worlds, which leaves the structure one for the signature.
fn relate(over: &Signature, kripke: &mut Kripke, from: u32, to: u32)
    requires over { IsKripkeFor over.now kripke.old }
    requires index_in { 0 < kripke.old.indexes }
    requires from_in { from < kripke.old.worlds }
    requires to_in { to < kripke.old.worlds }
    ensures { IsKripkeFor over.now kripke.new }
{
    kripke.set_related(0, from, to, true);
}

#[test]
fn there_and_back(rt: HostRuntime) -> Result<(), Fail> {
    let alloc = rt.alloc();
    let signature = small(alloc)?;
    let mut kripke = small_structure(alloc, &signature)?;
    relate(&signature, &mut kripke, 0, 1);
    let structure = lower(alloc, &signature, &kripke)?;
    assert_eq!(rt; (structure.size(0), structure.size(2)), (2, 3));
    assert_eq!(rt; structure.tables().cells(0), [0, 1, 0, 0].as_slice());
    let back = lift(alloc, &signature, &structure)?;
    assert_eq!(rt; back.tables().cells(0), [0, 1, 0, 0].as_slice());
    Ok(())
}

// The most cells that the limits allow, but for some: the tables are the same behind both ways.
#[test]
fn four_million_cells_there_and_back(rt: HostRuntime) -> Result<(), Fail> {
    let alloc = rt.alloc();
    let signature = small(alloc)?;
    let mut kripke = sized_structure(alloc, &signature, 2_040, 2, 3)?;
    relate(&signature, &mut kripke, 7, 2_039);
    let structure = lower(alloc, &signature, &kripke)?;
    let back = lift(alloc, &signature, &structure)?;
    let again = lower(alloc, &signature, &back)?;
    assert_eq!(rt; structure.tables().cells(0).len(), 4_161_600);
    assert_eq!(rt; structure.tables().cells(0).get(16_319), Some(&1));
    assert_eq!(rt; back.tables().cells(0), kripke.tables().cells(0));
    assert_eq!(rt; again.tables().cells(0), structure.tables().cells(0));
    Ok(())
}

#[test]
fn rows_in_order(rt: HostRuntime) -> Result<(), Fail> {
    let alloc = rt.alloc();
    let mut rows = Rows::new(alloc, &[2, 3])?;
    let mut seen = Vec::new(alloc);
    for _ in 0..8 {
        if let Some(row) = rows.row() {
            seen.extend_from_slice(row)?;
        }
        rows.advance();
    }
    assert_eq!(rt;
        seen.as_slice(),
        [0, 0, 0, 1, 0, 2, 1, 0, 1, 1, 1, 2].as_slice()
    );
    Ok(())
}
