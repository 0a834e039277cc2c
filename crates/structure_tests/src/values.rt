// The conditions on local functions over one and two worlds.
ghost use Rattle.std.specs.Prelude.{◌≡◌, [], ◌∷◌, Some, IfOk};
ghost use Rattle.nxf_tree.specs.WellFormed.{IsWellFormed};
ghost use Rattle.structure_tests.specs.steps.Signatures.{local_symbol};

use crate::existence::put;
use designation::{axioms, first_fault};
use fin_struct::{Condition, Kripke};
use nxf_base::{List, Memory, Text};
use nxf_tree::{Designation, Locality, Regime, Signature, SortEntry, SortName, SymbolEntry};
use std::alloc::Global;
use std::test::Fail;

// A signature with `$i` under this regime and a function `f` of two arguments.
fn one_function(
    alloc: Global,
    regime: Regime,
    designation: Designation,
    locality: Locality,
) -> Result<Signature, Memory>
    ensures formed { IfOk result IsWellFormed }
    ensures sorts { IfOk result (λ over. over.sorts ≡ record { name = SortName.Individual; regime = regime } ∷ []) }
{
    let mut sorts = List::new(alloc);
    sorts.push(SortEntry {
        name: SortName::Individual,
        regime,
    })?;
    let mut args = List::new(alloc);
    args.push(0)?;
    args.push(0)?;
    let mut symbols = List::new(alloc);
    symbols.push(SymbolEntry {
        name: Text::from_bytes(alloc, b"f")?,
        args,
        gives: Some(0),
        designation,
        locality,
    })?;
    Ok(Signature {
        sorts,
        symbols,
        indexes: List::new(alloc),
    })
}

#[test]
fn axioms_of_local_functions(rt: HostRuntime) -> Result<(), Fail> {
    let alloc = rt.alloc();
    for (regime, designation, locality, count) in [
        (Regime::Varying, Designation::Rigid, Locality::Local, 1),
        (Regime::Varying, Designation::Flexible, Locality::Local, 1),
        (Regime::Varying, Designation::Rigid, Locality::Global, 0),
        (Regime::Constant, Designation::Rigid, Locality::Local, 0),
    ] {
        let signature = one_function(alloc, regime, designation, locality)?;
        assert_eq!(rt; axioms(alloc, &signature)?.len(), count);
    }
    Ok(())
}

// The first fault of two worlds and two elements, which exist as said; the values of `f` are all element 0.
fn fault_of(
    alloc: Global,
    designation: Designation,
    locality: Locality,
    existing: &[(u32, u32)],
) -> Result<Option<Condition>, Fail> {
    let over = one_function(alloc, Regime::Varying, designation, locality)?;
    let mut sizes = List::new(alloc);
    sizes.push(2)?;
    sizes.push(2)?;
    let mut kripke = Kripke::new(alloc, &over, &sizes)?;
    for (world, element) in existing {
        put(&mut kripke, *world, *element);
    }
    Ok(first_fault(&over, &kripke))
}

// Element 0 exists at both worlds, at the first alone where only element 1 exists at the second, or at the first alone
// where nobody exists at the second.
#[test]
fn values_that_exist(rt: HostRuntime) -> Result<(), Fail> {
    let alloc = rt.alloc();
    let both = [(0, 0), (1, 0)].as_slice();
    let apart = [(0, 0), (1, 1)].as_slice();
    let fault = Some(Condition::Local(0));
    for (designation, locality, existing, found) in [
        (Designation::Rigid, Locality::Local, both, None),
        (Designation::Rigid, Locality::Local, apart, fault),
        (Designation::Flexible, Locality::Local, apart, fault),
        (Designation::Rigid, Locality::Global, apart, None),
        (
            Designation::Rigid,
            Locality::Local,
            [(0, 0)].as_slice(),
            None,
        ),
    ] {
        assert_eq!(rt; fault_of(alloc, designation, locality, existing)?, found);
    }
    Ok(())
}

fn constant(alloc: Global, name: &[u8], sort: u32) -> Result<SymbolEntry, Memory>
    ensures { IfOk result (λ made. made ≡ local_symbol name.now [] (Some sort) Designation.Rigid) }
{
    Ok(SymbolEntry {
        name: Text::from_bytes(alloc, name)?,
        args: List::new(alloc),
        gives: Some(sort),
        designation: Designation::Rigid,
        locality: Locality::Local,
    })
}

// The first fault of the varying domains of `$i` and `s`, and that of local constants `c` of `$i` and `d` of `s`, in one world
// with one element in each sort, which exists as said.
fn faults_of_two(
    alloc: Global,
    first: bool,
    second: bool,
) -> Result<(Option<Condition>, Option<Condition>), Fail> {
    let mut sorts = List::new(alloc);
    sorts.push(SortEntry {
        name: SortName::Individual,
        regime: Regime::Varying,
    })?;
    sorts.push(SortEntry {
        name: SortName::User(Text::from_bytes(alloc, b"s")?),
        regime: Regime::Varying,
    })?;
    let mut symbols = List::new(alloc);
    symbols.push(constant(alloc, b"c", 0)?)?;
    symbols.push(constant(alloc, b"d", 1)?)?;
    let over = Signature {
        sorts,
        symbols,
        indexes: List::new(alloc),
    };
    let mut sizes = List::new(alloc);
    sizes.push(1)?;
    sizes.push(1)?;
    sizes.push(1)?;
    let mut kripke = Kripke::new(alloc, &over, &sizes)?;
    kripke.set_exists(0, 0, 0, first);
    kripke.set_exists(1, 0, 0, second);
    let domain = domains::first_fault(&over, &kripke);
    Ok((domain, first_fault(&over, &kripke)))
}

#[test]
fn first_of_two(rt: HostRuntime) -> Result<(), Fail> {
    let alloc = rt.alloc();
    for (first, second, place) in [
        (true, true, None),
        (false, true, Some(0)),
        (true, false, Some(1)),
        (false, false, Some(0)),
    ] {
        let (domain, term) = faults_of_two(alloc, first, second)?;
        assert_eq!(rt; domain, place.map(Condition::Empty));
        assert_eq!(rt; term, place.map(Condition::Local));
    }
    Ok(())
}
