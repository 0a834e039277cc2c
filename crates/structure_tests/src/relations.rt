// The conditions on relations over one and two worlds.
ghost use Rattle.std.specs.Prelude.{◌≡◌, ◌<◌, [], ◌∷◌, length, IfOk};
ghost use Rattle.nxf_tree.specs.declared.tree.Signature.{Signature};
ghost use Rattle.nxf_tree.specs.WellFormed.{IsWellFormed, AreOrdered};
ghost use Rattle.fin_struct.specs.KripkeTables.{IsKripkeFor};

use fin_struct::{Condition, Kripke};
use frames::{axioms, first_fault};
use nxf_base::{List, Memory, Text};
use nxf_tree::{IndexEntry, IndexName, Scheme, Signature};
use std::alloc::Global;
use std::test::Fail;

fn list_of(alloc: Global, chosen: &[Scheme]) -> Result<List<Scheme>, Memory>
    ensures { IfOk result (λ list. list ≡ chosen.now) }
{
    let mut schemes = List::new(alloc);
    for scheme in chosen {
        schemes.push(*scheme)?;
    }
    Ok(schemes)
}

// A signature with one index, which has these schemes.
fn with_schemes(alloc: Global, chosen: &[Scheme]) -> Result<Signature, Memory>
    requires { AreOrdered chosen.now }
    ensures formed { IfOk result IsWellFormed }
    ensures indexes { IfOk result (λ over. length over.indexes ≡ 1) }
    ensures sorts { IfOk result (λ over. over.sorts ≡ []) }
{
    let mut indexes = List::new(alloc);
    indexes.push(IndexEntry {
        name: IndexName::Plain,
        schemes: list_of(alloc, chosen)?,
    })?;
    Ok(Signature {
        sorts: List::new(alloc),
        symbols: List::new(alloc),
        indexes,
    })
}

// Adds a pair to the relation of an index, if both are worlds.
fn relate(kripke: &mut Kripke, index: u32, from: u32, to: u32)
    requires { index < kripke.old.indexes }
    ensures same { (sig : Signature) → IsKripkeFor sig kripke.old → IsKripkeFor sig kripke.new }
    ensures indexes { kripke.new.indexes ≡ kripke.old.indexes }
{
    if from >= kripke.worlds() || to >= kripke.worlds() {
        return;
    }
    kripke.set_related(index, from, to, true);
}

// A structure with two worlds, and these pairs in the relation of the first index.
fn with_pairs(alloc: Global, over: &Signature, pairs: &[(u32, u32)]) -> Result<Kripke, Fail>
    requires well_formed { IsWellFormed over.now }
    requires index { 0 < length over.now.indexes }
    requires sorts { over.now.sorts ≡ [] }
    ensures { IfOk result (λ kripke. IsKripkeFor over.now kripke) }
{
    let mut sizes = List::new(alloc);
    sizes.push(2)?;
    let mut kripke = Kripke::new(alloc, over, &sizes)?;
    for (from, to) in pairs {
        relate(&mut kripke, 0, *from, *to);
    }
    Ok(kripke)
}

// The first fault of two worlds with these pairs, under these schemes.
fn fault_of(
    alloc: Global,
    chosen: &[Scheme],
    pairs: &[(u32, u32)],
) -> Result<Option<Condition>, Fail>
    requires { AreOrdered chosen.now }
{
    let over = with_schemes(alloc, chosen)?;
    let kripke = with_pairs(alloc, &over, pairs)?;
    Ok(first_fault(&over, &kripke))
}

// The number of axioms of these schemes.
fn count(alloc: Global, chosen: &[Scheme]) -> Result<usize, Memory>
    requires { AreOrdered chosen.now }
{
    let signature = with_schemes(alloc, chosen)?;
    Ok(axioms(alloc, &signature)?.len())
}

// A relation that is symmetric, and neither reflexive nor transitive.
#[test]
#[tactic(auto, unfolding(nxf_tree::specs::SpecificationWords::same_scheme))]
fn first_of_two_schemes(rt: HostRuntime) -> Result<(), Fail> {
    let alloc = rt.alloc();
    let pairs = [(0, 1), (1, 0)].as_slice();
    let second = fault_of(alloc, &[Scheme::B, Scheme::Four], pairs)?;
    assert_eq!(rt; second, Some(Condition::Frame(0, Scheme::Four)));
    let first = fault_of(alloc, &[Scheme::T, Scheme::Four], pairs)?;
    assert_eq!(rt; first, Some(Condition::Frame(0, Scheme::T)));
    assert_eq!(rt; count(alloc, &[Scheme::B, Scheme::Four])?, 2);
    Ok(())
}

// The first fault where the relation of `[.]` is to be reflexive, and that of `[#a]` serial. Both have one world, which is
// reached for an index as said.
#[tactic(auto, unfolding(nxf_tree::specs::SpecificationWords::same_scheme))]
fn fault_of_two(alloc: Global, plain: bool, named: bool) -> Result<Option<Condition>, Fail> {
    let mut indexes = List::new(alloc);
    indexes.push(IndexEntry {
        name: IndexName::Plain,
        schemes: list_of(alloc, &[Scheme::T])?,
    })?;
    indexes.push(IndexEntry {
        name: IndexName::Named(Text::from_bytes(alloc, b"a")?),
        schemes: list_of(alloc, &[Scheme::D])?,
    })?;
    let over = Signature {
        sorts: List::new(alloc),
        symbols: List::new(alloc),
        indexes,
    };
    let mut sizes = List::new(alloc);
    sizes.push(1)?;
    let mut kripke = Kripke::new(alloc, &over, &sizes)?;
    kripke.set_related(0, 0, 0, plain);
    kripke.set_related(1, 0, 0, named);
    Ok(first_fault(&over, &kripke))
}

#[test]
fn first_of_two_indexes(rt: HostRuntime) -> Result<(), Fail> {
    let alloc = rt.alloc();
    let reflexive = Some(Condition::Frame(0, Scheme::T));
    let serial = Some(Condition::Frame(1, Scheme::D));
    for (plain, named, fault) in [
        (true, true, None),
        (false, true, reflexive),
        (true, false, serial),
        (false, false, reflexive),
    ] {
        assert_eq!(rt; fault_of_two(alloc, plain, named)?, fault);
    }
    Ok(())
}
