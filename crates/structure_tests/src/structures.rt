// Structures of both kinds: their cells, what is written and read, and their limits.
ghost use Rattle.std.specs.Prelude.{◌≡◌, ◌<◌, ◌∷◌, [], length, replicate, None, Some, IsSome, IfOk};
ghost use Rattle.fin_struct.specs.Cells.{bound_of};
ghost use Rattle.nxf_tree.specs.WellFormed.{IsWellFormed};
ghost use Rattle.fin_struct.specs.KripkeTables.{IsKripkeFor, blank_kripke, symbol_table, symbol_row};
ghost use Rattle.fin_struct.specs.Places.{InRange};
ghost use Rattle.structure_tests.specs.steps.Signatures.{local_symbol, small_signature};

use fin_struct::{Grid, GridShape, Kripke, ShapeError, Structure, cells, classical};
use nxf_base::{List, Memory, Text};
use nxf_tree::{
    ClassicalSignature, Designation, IndexEntry, IndexName, Locality, Regime, Signature, SortEntry,
    SortName, SymbolEntry, TableEntry,
};
use std::alloc::{AllocError, Global};
use std::test::Fail;

pub fn numbers(alloc: Global, items: &[u32]) -> Result<List<u32>, Memory>
    ensures { IfOk result (λ list. list ≡ items.now) }
{
    let mut list = List::new(alloc);
    for item in items {
        list.push(*item)?;
    }
    Ok(list)
}

// A predicate with arguments of these sorts.
fn with_table(alloc: Global, args: &[u32]) -> Result<ClassicalSignature, Memory> {
    let mut tables = List::new(alloc);
    tables.push(TableEntry {
        name: Text::from_bytes(alloc, b"p")?,
        args: numbers(alloc, args)?,
        gives: None,
    })?;
    Ok(ClassicalSignature {
        sorts: List::new(alloc),
        tables,
    })
}

#[test]
fn cells_are_counted(rt: HostRuntime) -> Result<(), Fail> {
    let alloc = rt.alloc();
    let binary = with_table(alloc, &[0, 1])?;
    for (worlds, size, count) in [
        (2, 3, 6),
        (2_048, 2_048, 4_194_304),
        (1, 4_194_305, 4_194_305),
        (4_294_967_295, 2, 8_589_934_590),
    ] {
        let sizes = numbers(alloc, &[worlds, size])?;
        assert_eq!(rt; cells(&binary, &sizes), count);
    }
    let arguments = vec![in alloc; 0; 1_001]?;
    let long = with_table(alloc, &arguments)?;
    assert_eq!(rt; cells(&long, &numbers(alloc, &[1])?), 1);
    assert_eq!(rt; cells(&long, &numbers(alloc, &[2])?), u64::MAX);
    let many = with_table(alloc, &[1, 1, 1])?;
    let sizes = numbers(alloc, &[1, 4_294_967_295])?;
    assert_eq!(rt; cells(&many, &sizes), u64::MAX);
    Ok(())
}

fn repeated(alloc: Global, number: u32, count: usize) -> Result<Vec<u32>, AllocError>
    ensures { IfOk result (λ made. made.items ≡ replicate count number) }
{
    vec![in alloc; number; count]
}

// Writes 1 in the one row of a table with that many arguments, each of a sort with one element, and reads it back.
fn read_back(alloc: Global, count: usize) -> Result<u32, Memory> {
    let mut shapes = Vec::new(alloc);
    shapes.push(GridShape {
        sizes: repeated(alloc, 1, count)?,
        values: None,
    })?;
    let mut grid = Grid::new(alloc, shapes)?;
    let row = repeated(alloc, 0, count)?;
    grid.set(0, None, &row, 1);
    Ok(grid.get(0, None, &row))
}

#[test]
fn rows_of_many_arguments(rt: HostRuntime) -> Result<(), Fail> {
    let alloc = rt.alloc();
    for count in [0, 1, 2, 1_001] {
        assert_eq!(rt; read_back(alloc, count)?, 1);
    }
    Ok(())
}

fn symbol(
    alloc: Global,
    name: &[u8],
    args: &[u32],
    gives: Option<u32>,
    designation: Designation,
) -> Result<SymbolEntry, Memory>
    ensures { IfOk result (λ made. made ≡ local_symbol name.now args.now gives designation) }
{
    Ok(SymbolEntry {
        name: Text::from_bytes(alloc, name)?,
        args: numbers(alloc, args)?,
        gives,
        designation,
        locality: Locality::Local,
    })
}

// A signature with `$i`, whose domains vary, and a constant sort; a predicate on both, a rigid function from the one to
// the other, a flexible constant, and an index.
pub fn small(alloc: Global) -> Result<Signature, Memory>
    ensures made { IfOk result (λ made. made ≡ small_signature) }
    ensures formed { IfOk result IsWellFormed }
{
    let mut sorts = List::new(alloc);
    sorts.push(SortEntry {
        name: SortName::Individual,
        regime: Regime::Varying,
    })?;
    sorts.push(SortEntry {
        name: SortName::User(Text::from_bytes(alloc, b"s")?),
        regime: Regime::Constant,
    })?;
    let mut symbols = List::new(alloc);
    symbols.push(symbol(alloc, b"p", &[0, 1], None, Designation::Flexible)?)?;
    symbols.push(symbol(alloc, b"f", &[0], Some(1), Designation::Rigid)?)?;
    symbols.push(symbol(alloc, b"c", &[], Some(0), Designation::Flexible)?)?;
    let mut indexes = List::new(alloc);
    indexes.push(IndexEntry {
        name: IndexName::Plain,
        schemes: List::new(alloc),
    })?;
    Ok(Signature {
        sorts,
        symbols,
        indexes,
    })
}

// Over that signature, a structure of these sizes with nothing written.
pub fn sized_structure(
    alloc: Global,
    over: &Signature,
    worlds: u32,
    individuals: u32,
    others: u32,
) -> Result<Kripke, Fail>
    requires small { over.now ≡ small_signature }
    requires formed { IsWellFormed over.now }
    requires some { (0 < worlds) × (0 < individuals) × (0 < others) }
    ensures made { IfOk result (λ made. made ≡ blank_kripke small_signature worlds (individuals ∷ others ∷ [])) }
    ensures over { IfOk result (λ made. IsKripkeFor over.now made) }
{
    let sizes = numbers(alloc, &[worlds, individuals, others])?;
    Ok(Kripke::new(alloc, over, &sizes)?)
}

// Over that signature, two worlds, two elements of `$i` and three of `s`, with nothing written.
pub fn small_structure(alloc: Global, over: &Signature) -> Result<Kripke, Fail>
    requires small { over.now ≡ small_signature }
    requires formed { IsWellFormed over.now }
    ensures made { IfOk result (λ made. made ≡ blank_kripke small_signature 2 (2 ∷ 3 ∷ [])) }
    ensures over { IfOk result (λ made. IsKripkeFor over.now made) }
{
    sized_structure(alloc, over, 2, 2, 3)
}

#[test]
fn pairs_of_worlds(rt: HostRuntime) -> Result<(), Fail> {
    let alloc = rt.alloc();
    let mut kripke = small_structure(alloc, &small(alloc)?)?;
    assert_eq!(rt; (kripke.worlds(), kripke.actual()), (2, 0));
    kripke.set_related(0, 0, 1, true);
    assert!(rt; kripke.related(0, 0, 1));
    assert!(rt; !kripke.related(0, 1, 0));
    Ok(())
}

#[test]
fn elements_at_worlds(rt: HostRuntime) -> Result<(), Fail> {
    let alloc = rt.alloc();
    let mut kripke = small_structure(alloc, &small(alloc)?)?;
    assert!(rt; kripke.exists(1, 1, 2));
    kripke.set_exists(0, 1, 0, true);
    assert!(rt; kripke.exists(0, 1, 0));
    assert!(rt; !kripke.exists(0, 0, 1));
    Ok(())
}

// Writes a value of a function, and reads it back.
fn value_after(kripke: &mut Kripke, symbol: u32, world: u32, args: &[u32], element: u32) -> u32
    requires symbol_in { symbol < length kripke.old.world_first }
    requires function { IsSome (symbol_table kripke.old symbol).values }
    requires row_in { InRange (symbol_table kripke.old symbol).sizes (symbol_row kripke.old symbol world args.now) }
    requires below { element < bound_of (symbol_table kripke.old symbol).values }
{
    kripke.set_value(symbol, world, args, element);
    kripke.value(symbol, world, args)
}

// Writes whether a predicate holds, and reads it back.
fn holds_after(kripke: &mut Kripke, symbol: u32, world: u32, args: &[u32], yes: bool) -> bool
    requires symbol_in { symbol < length kripke.old.world_first }
    requires predicate { (symbol_table kripke.old symbol).values ≡ None }
    requires row_in { InRange (symbol_table kripke.old symbol).sizes (world ∷ args.now) }
{
    kripke.set_holds(symbol, world, args, yes);
    kripke.holds(symbol, world, args)
}

#[test]
fn values_at_worlds(rt: HostRuntime) -> Result<(), Fail> {
    let alloc = rt.alloc();
    let mut kripke = small_structure(alloc, &small(alloc)?)?;
    assert_eq!(rt; kripke.value(1, 7, &[1]), 0);
    assert_eq!(rt; kripke.value(2, 1, &[]), 0);
    assert_eq!(rt; value_after(&mut kripke, 1, 7, &[1], 2), 2);
    Ok(())
}

#[test]
fn rows_at_worlds(rt: HostRuntime) -> Result<(), Fail> {
    let alloc = rt.alloc();
    let mut kripke = small_structure(alloc, &small(alloc)?)?;
    assert_eq!(rt; (kripke.size(0), kripke.size(1)), (2, 3));
    assert!(rt; !kripke.holds(0, 1, &[1, 2]));
    kripke.set_actual(1);
    assert_eq!(rt; kripke.actual(), 1);
    assert!(rt; holds_after(&mut kripke, 0, 1, &[1, 2], true));
    Ok(())
}

#[test]
fn cells_of_structures(rt: HostRuntime) -> Result<(), Fail> {
    let alloc = rt.alloc();
    let signature = small(alloc)?;
    let tables = classical(alloc, &signature)?;
    let sizes = numbers(alloc, &[2, 2, 3])?;
    assert_eq!(rt; cells(&tables, &sizes), 24);
    let mut structure = Structure::new(alloc, &tables, &sizes)?;
    assert_eq!(rt; (structure.size(2), structure.actual()), (3, 0));
    structure.set_actual(1);
    assert_eq!(rt; structure.actual(), 1);
    structure.set(3, &[1], 2);
    assert_eq!(rt; structure.get(3, &[1]), 2);
    Ok(())
}

// Why there is no Kripke structure with these sizes over a signature with `$i` alone, or None where there is one.
fn refusal(alloc: Global, worlds: u32, size: u32) -> Result<Option<ShapeError>, Memory>
    requires worlds { 0 < worlds }
    requires size { 0 < size }
{
    let mut sorts = List::new(alloc);
    sorts.push(SortEntry {
        name: SortName::Individual,
        regime: Regime::Varying,
    })?;
    let signature = Signature {
        sorts,
        symbols: List::new(alloc),
        indexes: List::new(alloc),
    };
    let sizes = numbers(alloc, &[worlds, size])?;
    match Kripke::new(alloc, &signature, &sizes) {
        Ok(_) => Ok(None),
        Err(error) => Ok(Some(error)),
    }
}

#[test]
fn limits_of_kripke_structures(rt: HostRuntime) -> Result<(), Fail> {
    let alloc = rt.alloc();
    assert_eq!(rt; refusal(alloc, 2_048, 2_048)?, None);
    assert_eq!(rt; refusal(alloc, 65_535, 64)?, None);
    assert_eq!(rt;
        refusal(alloc, 5, 838_861)?,
        Some(ShapeError::TooBig(4_194_305))
    );
    assert_eq!(rt;
        refusal(alloc, 65_536, 838_861)?,
        Some(ShapeError::TooManyWorlds(65_536))
    );
    Ok(())
}
