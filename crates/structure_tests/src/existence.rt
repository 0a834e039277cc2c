// The conditions on domains over one and two worlds.
ghost use Rattle.std.specs.Prelude.{◌≡◌, ◌<◌, [], ◌∷◌, false, length, IfOk, IsSome};
ghost use Rattle.nxf_tree.specs.Signature.{constant_regime};
ghost use Rattle.nxf_tree.specs.WellFormed.{IsWellFormed};
ghost use Rattle.nxf_tree.specs.declared.tree.Signature.{Signature};
ghost use Rattle.fin_struct.specs.KripkeTables.{IsKripkeFor, existence_number};

use domains::{axioms, first_fault};
use fin_struct::{Condition, Kripke};
use nxf_base::{List, Memory};
use nxf_tree::{IndexEntry, IndexName, Regime, Signature, SortEntry, SortName};
use std::alloc::Global;
use std::test::Fail;

// A signature with `$i` under this regime and one index.
fn individuals(alloc: Global, regime: Regime) -> Result<Signature, Memory>
    ensures formed { IfOk result IsWellFormed }
    ensures sorts { IfOk result (λ over. over.sorts ≡ record { name = SortName.Individual; regime = regime } ∷ []) }
    ensures indexes { IfOk result (λ over. length over.indexes ≡ 1) }
{
    let mut sorts = List::new(alloc);
    sorts.push(SortEntry {
        name: SortName::Individual,
        regime,
    })?;
    let mut indexes = List::new(alloc);
    indexes.push(IndexEntry {
        name: IndexName::Plain,
        schemes: List::new(alloc),
    })?;
    Ok(Signature {
        sorts,
        symbols: List::new(alloc),
        indexes,
    })
}

#[test]
fn axioms_by_regime(rt: HostRuntime) -> Result<(), Fail> {
    let alloc = rt.alloc();
    for (regime, count) in [
        (Regime::Constant, 0),
        (Regime::Cumulative, 3),
        (Regime::Decreasing, 3),
        (Regime::Varying, 2),
    ] {
        let signature = individuals(alloc, regime)?;
        assert_eq!(rt; axioms(alloc, &signature)?.len(), count);
    }
    Ok(())
}

// Lets an element exist at a world, if it is one of the first sort, which isn't constant.
pub fn put(kripke: &mut Kripke, world: u32, element: u32)
    requires sort { 0 < length kripke.old.existence }
    requires varying { IsSome (existence_number kripke.old 0) }
    ensures same { (sig : Signature) → IsKripkeFor sig kripke.old → IsKripkeFor sig kripke.new }
    ensures existence { kripke.new.existence ≡ kripke.old.existence }
{
    if world >= kripke.worlds() || element >= kripke.size(0) {
        return;
    }
    kripke.set_exists(0, world, element, true);
}

// The first fault of two worlds, of which the second is reached from the first, and two elements, which exist as said.
fn fault_of(
    alloc: Global,
    regime: Regime,
    existing: &[(u32, u32)],
) -> Result<Option<Condition>, Fail>
    requires { constant_regime regime ≡ false }
{
    let over = individuals(alloc, regime)?;
    let mut sizes = List::new(alloc);
    sizes.push(2)?;
    sizes.push(2)?;
    let mut kripke = Kripke::new(alloc, &over, &sizes)?;
    kripke.set_related(0, 0, 1, true);
    for (world, element) in existing {
        put(&mut kripke, *world, *element);
    }
    Ok(first_fault(&over, &kripke))
}

#[test]
fn existence_at_each_world_and_of_each_element(rt: HostRuntime) -> Result<(), Fail> {
    let alloc = rt.alloc();
    let empty = Some(Condition::Empty(0));
    for (existing, fault) in [
        ([(0, 0), (1, 1)].as_slice(), None),
        ([(0, 0), (0, 1)].as_slice(), empty),
        ([(0, 0), (1, 0)].as_slice(), Some(Condition::Union(0))),
        ([(0, 0)].as_slice(), empty),
    ] {
        assert_eq!(rt; fault_of(alloc, Regime::Varying, existing)?, fault);
    }
    Ok(())
}

#[test]
fn elements_along_a_step(rt: HostRuntime) -> Result<(), Fail> {
    let alloc = rt.alloc();
    let stays = [(0, 0), (1, 0), (1, 1)].as_slice();
    let was_there = [(0, 0), (0, 1), (1, 0)].as_slice();
    let monotone = Some(Condition::Monotone(0, 0));
    assert_eq!(rt; fault_of(alloc, Regime::Cumulative, stays)?, None);
    assert_eq!(rt; fault_of(alloc, Regime::Cumulative, was_there)?, monotone);
    assert_eq!(rt; fault_of(alloc, Regime::Decreasing, was_there)?, None);
    assert_eq!(rt; fault_of(alloc, Regime::Decreasing, stays)?, monotone);
    Ok(())
}

// Nobody exists at the second world, the second element nowhere, and the first doesn't stay.
#[test]
fn first_of_three_faults(rt: HostRuntime) -> Result<(), Fail> {
    let found = fault_of(rt.alloc(), Regime::Cumulative, &[(0, 0)])?;
    assert_eq!(rt; found, Some(Condition::Empty(0)));
    Ok(())
}
