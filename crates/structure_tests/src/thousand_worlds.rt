// The conditions on structures with a thousand worlds.
ghost use Rattle.std.specs.Prelude.{◌≡◌, ◌<◌, [], ◌∷◌, length, IfOk, IsSome, Some, codes};
ghost use Rattle.nxf_tree.specs.WellFormed.{AreOrdered};
ghost use Rattle.nxf_tree.specs.declared.tree.Signature.{Signature};
ghost use Rattle.fin_struct.specs.KripkeTables.{IsKripkeFor, existence_number};
ghost use Rattle.structure_tests.specs.steps.Signatures.{local_symbol};

use crate::existence::put;
use fin_struct::{Condition, Kripke};
use nxf_base::{List, Memory, Text};
use nxf_tree::{
    Designation, IndexEntry, IndexName, Locality, Regime, Scheme, Signature, SortEntry, SortName,
    SymbolEntry,
};
use std::alloc::Global;
use std::test::Fail;

// The index `[.]` with these schemes.
fn index(alloc: Global, chosen: &[Scheme]) -> Result<List<IndexEntry>, Memory>
    ensures { IfOk result (λ made. made ≡ record { name = IndexName.Plain; schemes = chosen.now } ∷ []) }
{
    let mut schemes = List::new(alloc);
    for scheme in chosen {
        schemes.push(*scheme)?;
    }
    let mut indexes = List::new(alloc);
    indexes.push(IndexEntry {
        name: IndexName::Plain,
        schemes,
    })?;
    Ok(indexes)
}

// The sort `$i` under this regime.
fn individuals(alloc: Global, regime: Regime) -> Result<List<SortEntry>, Memory>
    ensures { IfOk result (λ made. made ≡ record { name = SortName.Individual; regime = regime } ∷ []) }
{
    let mut sorts = List::new(alloc);
    sorts.push(SortEntry {
        name: SortName::Individual,
        regime,
    })?;
    Ok(sorts)
}

// Each world is reached from those before it and from itself; where `all` is said, from each.
fn relate_worlds(kripke: &mut Kripke, all: bool)
    requires { 0 < kripke.old.indexes }
    ensures same { (sig : Signature) → IsKripkeFor sig kripke.old → IsKripkeFor sig kripke.new }
    ensures existence { kripke.new.existence ≡ kripke.old.existence }
{
    for from in 0..kripke.worlds() {
        for to in 0..kripke.worlds() {
            relate(kripke, from, to, all || from <= to);
        }
    }
}

// Writes a pair of the first relation, if both are worlds.
fn relate(kripke: &mut Kripke, from: u32, to: u32, yes: bool)
    requires { 0 < kripke.old.indexes }
    ensures same { (sig : Signature) → IsKripkeFor sig kripke.old → IsKripkeFor sig kripke.new }
    ensures indexes { kripke.new.indexes ≡ kripke.old.indexes }
    ensures existence { kripke.new.existence ≡ kripke.old.existence }
{
    if from >= kripke.worlds() || to >= kripke.worlds() {
        return;
    }
    kripke.set_related(0, from, to, yes);
}

// The first fault of a thousand worlds under these schemes.
fn frame_fault(alloc: Global, chosen: &[Scheme], all: bool) -> Result<Option<Condition>, Fail>
    requires { AreOrdered chosen.now }
{
    let over = Signature {
        sorts: List::new(alloc),
        symbols: List::new(alloc),
        indexes: index(alloc, chosen)?,
    };
    let mut sizes = List::new(alloc);
    sizes.push(1_000)?;
    let mut kripke = Kripke::new(alloc, &over, &sizes)?;
    relate_worlds(&mut kripke, all);
    Ok(frames::first_fault(&over, &kripke))
}

// The order of the worlds is reflexive and transitive, and not Euclidean.
#[test]
#[tactic(auto, unfolding(nxf_tree::specs::SpecificationWords::same_scheme))]
fn thousand_worlds_in_order(rt: HostRuntime) -> Result<(), Fail> {
    let alloc = rt.alloc();
    let s4 = frame_fault(alloc, &[Scheme::T, Scheme::Four], false)?;
    assert_eq!(rt; s4, None);
    let s5 = frame_fault(alloc, &[Scheme::T, Scheme::Five], false)?;
    assert_eq!(rt; s5, Some(Condition::Frame(0, Scheme::Five)));
    Ok(())
}

#[test]
#[tactic(auto, unfolding(nxf_tree::specs::SpecificationWords::same_scheme))]
fn thousand_worlds_reach_all(rt: HostRuntime) -> Result<(), Fail> {
    let s5 = frame_fault(rt.alloc(), &[Scheme::T, Scheme::Five], true)?;
    assert_eq!(rt; s5, None);
    Ok(())
}

// Lets each element of the first sort, which isn't constant, exist at each world.
fn let_exist(kripke: &mut Kripke)
    requires sort { 0 < length kripke.old.existence }
    requires varying { IsSome (existence_number kripke.old 0) }
    ensures same { (sig : Signature) → IsKripkeFor sig kripke.old → IsKripkeFor sig kripke.new }
{
    for world in 0..kripke.worlds() {
        for element in 0..kripke.size(0) {
            put(kripke, world, element);
        }
    }
}

#[test]
fn thousand_worlds_of_a_thousand(rt: HostRuntime) -> Result<(), Fail> {
    let alloc = rt.alloc();
    let over = Signature {
        sorts: individuals(alloc, Regime::Cumulative)?,
        symbols: List::new(alloc),
        indexes: index(alloc, &[])?,
    };
    let mut sizes = List::new(alloc);
    sizes.push(1_000)?;
    sizes.push(1_000)?;
    let mut kripke = Kripke::new(alloc, &over, &sizes)?;
    relate_worlds(&mut kripke, false);
    let_exist(&mut kripke);
    assert_eq!(rt; domains::first_fault(&over, &kripke), None);
    Ok(())
}

// A local function `f` of two arguments.
fn function(alloc: Global) -> Result<List<SymbolEntry>, Memory>
    ensures { IfOk result (λ made. made ≡ local_symbol (codes "f") (0 ∷ 0 ∷ []) (Some 0) Designation.Rigid ∷ []) }
{
    let mut args = List::new(alloc);
    args.push(0)?;
    args.push(0)?;
    let mut symbols = List::new(alloc);
    symbols.push(SymbolEntry {
        name: Text::from_bytes(alloc, b"f")?,
        args,
        gives: Some(0),
        designation: Designation::Rigid,
        locality: Locality::Local,
    })?;
    Ok(symbols)
}

#[test]
fn values_for_a_million_pairs(rt: HostRuntime) -> Result<(), Fail> {
    let alloc = rt.alloc();
    let over = Signature {
        sorts: individuals(alloc, Regime::Varying)?,
        symbols: function(alloc)?,
        indexes: List::new(alloc),
    };
    let mut sizes = List::new(alloc);
    sizes.push(100)?;
    sizes.push(1_000)?;
    let mut kripke = Kripke::new(alloc, &over, &sizes)?;
    let_exist(&mut kripke);
    assert_eq!(rt; designation::first_fault(&over, &kripke), None);
    Ok(())
}
